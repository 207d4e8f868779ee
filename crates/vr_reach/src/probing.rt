//! Walks without a break, which often tell whether a list of a vehicle with breaks is feasible.

ghost use Rattle.std.specs.Prelude.{◌≡◌, ◌↔◌, ◌+◌, ◌-◌, ◌*◌, ◌≤◌, ℕ, IfSome, IsSome, IsTrue, None, length};
ghost use Rattle.vr_model.specs.schedules.Choices.{is_feasible};
ghost use Rattle.vr_model.specs.schedules.Schedules.{IsFeasible};
ghost use Rattle.vr_steps.specs.Levels.{level_at};
ghost use Rattle.vr_reach.specs.Alone.{GoesAlone, IsUndecided};
ghost use Rattle.vr_reach.specs.RunWalks.{line_along};
ghost use Rattle.vr_reach.specs.Singles.{is_run};
ghost use Rattle.vr_reach.specs.Tries.{tries_between};

use crate::run_walks::RunWalk;
use crate::runs::shares_with;
use crate::single::{carry_run, run_at};
use std::sync::ledger::Ledger;
use vr_model::Steps;

// Whether the line of a list is feasible, if walks along a leg without a break on the way tell:
// - It is not if what is reached with no break taken misses all from which the end is reached with all of them taken.
//   Breaks can but narrow both.
// - It is if such a walk after some number of breaks comes to a cumul from which the end is reached with the others.
//
// Nothing is told if neither is so, or if at first not exactly one run is reached with no break taken. It counts a try
// for each arc that such a walk goes over.
pub(crate) fn told_without_breaks<L: Ledger>(walk: &RunWalk, tries: &mut Steps<L>) -> Option<bool>
    ensures told { IfSome result (λ passed. passed ≡ is_feasible (line_along walk.now)) }
    ensures untold { result ≡ None → IsTrue (is_run (level_at walk.now.from.now 0))
        → IsUndecided (line_along walk.now) walk.now.from.now walk.now.to.now
        walk.now.begin walk.now.last }
    ensures known { IsSome result → IsTrue (is_run (level_at walk.now.from.now 0)) × (IsUndecided
        (line_along walk.now) walk.now.from.now walk.now.to.now walk.now.begin walk.now.last → ⊥) }
    ensures count { tries.new ≤ tries.old
        + tries_between (line_along walk.now) walk.now.begin walk.now.last }
{
    let begun = run_at(walk.from, 0)?;
    let run = carry_run(walk, begun, tries);
    let all = walk.to.len() - 1;
    if !shares_with(run, walk.to.level(all)) {
        return Some(false);
    }
    // no break taken before: the same walk serves, so the other numbers begin at 1
    if shares_with(run, walk.to.level(0)) {
        return Some(true);
    }
    if goes_with_some(walk, tries) {
        return Some(true);
    }
    None
}

// Whether such a walk, with one break or more taken before it, comes to a cumul from which the end is reached with the
// others. If not, nothing is told.
fn goes_with_some<L: Ledger>(walk: &RunWalk, tries: &mut Steps<L>) -> bool
    ensures goes { IsTrue result → IsFeasible (line_along walk.now) }
    ensures exact { IsTrue result ↔ ((taken : ℕ) × (1 ≤ taken) × (taken ≤ length (line_along walk.now).breaks)
        × GoesAlone (line_along walk.now) walk.now.from.now walk.now.to.now
        walk.now.begin walk.now.last taken) }
    ensures count { tries.new ≤ tries.old
        + length (line_along walk.now).breaks * (walk.now.last - walk.now.begin) }
{
    for taken in 1..walk.from.len() {
        if goes_with(walk, taken, tries) {
            return true;
        }
    }
    false
}

// The same with `taken` breaks taken before it. False too if not exactly one run is there to begin with.
fn goes_with<L: Ledger>(walk: &RunWalk, taken: usize, tries: &mut Steps<L>) -> bool
    requires { taken ≤ length (line_along walk.now).breaks }
    ensures goes { IsTrue result → IsFeasible (line_along walk.now) }
    ensures exact { IsTrue result ↔ GoesAlone (line_along walk.now) walk.now.from.now walk.now.to.now
        walk.now.begin walk.now.last taken }
    ensures count { tries.new ≤ tries.old + (walk.now.last - walk.now.begin) }
{
    let Some(begun) = run_at(walk.from, taken) else {
        return false;
    };
    let run = carry_run(walk, begun, tries);
    shares_with(run, walk.to.level(taken))
}
