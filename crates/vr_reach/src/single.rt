//! Walks that carry one run of cumuls from stop to stop.

ghost use Rattle.std.specs.Prelude.{◌≡◌, ◌+◌, ◌-◌, ◌<◌, ◌≤◌, ◌^◌, All, IfSome, is_some, length};
ghost use Rattle.std.specs.Prelude.{IsTrue, ◌↔◌, ℕ, ℤ, pos, neg_ℤ, ◌+ℤ◌, ◌≤ℤ◌};
ghost use Rattle.std.specs.Int.{int_max, int_min};
ghost use Rattle.vr_model.specs.schedules.Choices.{is_feasible};
ghost use Rattle.vr_model.specs.schedules.Weights.{walk_weight};
ghost use Rattle.vr_model.specs.tables.Tables.{dimension_at};
ghost use Rattle.vr_model.specs.tables.Numbers.{horizon};
ghost use Rattle.vr_model.specs.tables.WellFormed.{IsIn};
ghost use Rattle.vr_spans.specs.Runs.{in_run};
ghost use Rattle.vr_steps.specs.Levels.{IsCumuls, level_at};
ghost use Rattle.vr_steps.specs.Stops.{allowed_by};
ghost use Rattle.vr_steps.specs.declared.stops.StopName.TheVariants.{End};
ghost use Rattle.vr_reach.specs.Alone.{Follows, IsLedToWithoutBreaks};
ghost use Rattle.vr_reach.specs.Counts.{steps_between};
ghost use Rattle.vr_reach.specs.Lists.{node_at_stop};
ghost use Rattle.vr_reach.specs.Singles.{are_runs, is_run, IsOnlyRun, IsReachedRun};
ghost use Rattle.vr_reach.specs.RunWalks.{line_along, AreRunsBetween};
ghost use Rattle.vr_steps.specs.CumulRuns.{IsCumulRun};
ghost use Rattle.vr_reach.specs.Stops.{AreEndSets};
ghost use Rattle.vr_reach.specs.VehicleStops.{line_of};
ghost use Rattle.vr_reach.specs.VisitRuns.{is_one_run, HasCumulEnds, IsAllowedRun, IsFinish};

use crate::ends::Ends;
use crate::run_walks::{RunLine, RunWalk};
use crate::runs::{run_of, runs_share};
use crate::stops::node_at;
use std::sync::ledger::Ledger;
use vr_model::{Closed, Model, Steps};
use vr_spans::Run;
use vr_steps::Levels;

/// A stop to which an arc leads: the next one of a walk, or the end of a vehicle.
#[derive(Clone, Copy)]
pub struct Ahead {
    /// Its node.
    pub node: u32,
    /// The run of the cumuls that it allows.
    pub allowed: Run,
}

// The stop that a walk is at: its node, and the run that is reached there.
#[derive(Clone, Copy)]
pub(crate) struct Stand {
    pub(crate) node: u32,
    pub(crate) run: Run,
}

// The run that is reached at the first stop of a leg, and the one from which the end is reached at the last.
#[derive(Clone, Copy)]
pub(crate) struct Between {
    pub(crate) from: Run,
    pub(crate) to: Run,
}

// The runs at the two ends of a leg. Nothing if there are breaks, or if the levels of one end are not just one run.
pub(crate) fn runs_between(ends: &Ends, walk: &RunWalk) -> Option<Between>
    requires { ends.now.breaks ≡ (line_along walk.now).breaks }
    ensures runs { IfSome result (AreRunsBetween walk.now) }
    ensures known { is_some result ≡ are_runs ends.now.breaks walk.now.from.now walk.now.to.now }
{
    if !ends.has_no_breaks() {
        return None;
    }
    let from = run_at(walk.from, 0)?;
    let to = run_at(walk.to, 0)?;
    Some(Between { from, to })
}

// The one run of the set for `b` breaks taken, nothing if it has none or more than one.
#[inline]
pub(crate) fn run_at(levels: &Levels, b: usize) -> Option<Run>
    requires taken { b < length levels.now }
    requires cumuls { All IsCumuls levels.now }
    ensures run { IfSome result (IsOnlyRun (level_at levels.now b)) }
    ensures known { is_some result ≡ is_run (level_at levels.now b) }
{
    let set = levels.level(b);
    if set.len() != 1 {
        return None;
    }
    Some(set.run(0))
}

// The end of vehicle `v`, of which `ends` are the ends, nothing if it allows more than one run.
pub(crate) fn finish_of(model: &Model, v: u32, ends: &Ends) -> Option<Ahead>
    requires vehicle { v < length model.now.vehicles }
    ensures finish { (d : ℕ) → AreEndSets model.now d v ends.now → IfSome result (IsFinish model.now d v) }
    ensures known { (d : ℕ) → AreEndSets model.now d v ends.now
        → is_some result ≡ is_one_run (allowed_by model.now d v End) }
{
    let allowed = run_of(&ends.end_set)?;
    let node = model.vehicles.get(v as usize).end;
    Some(Ahead { node, allowed })
}

// Whether the line of a list is feasible, if there are no breaks: found by a walk along a leg that carries one run. It
// counts as `passes_along` says: a step for each arc that it goes over, and two when it joins the rows.
pub(crate) fn walk_by_runs<L: Ledger>(
    walk: &RunWalk,
    between: Between,
    steps: &mut Steps<L>,
) -> bool
    requires { AreRunsBetween walk.now between }
    ensures exact { result ≡ is_feasible (line_along walk.now) }
    ensures count { steps.new ≤ steps.old + walk_weight (line_along walk.now) walk.now.begin walk.now.last }
{
    let run = carry_run(walk, between.from, steps);
    if run.lo > run.hi {
        return false;
    }
    // a step for each of the two runs
    steps.tick();
    steps.tick();
    runs_share(run, between.to)
}

// The run at the last stop of a leg, of a walk without breaks that begins with run `from` at its first stop. If nothing
// is reached on the way, the run has no number, and the walk stops there. It counts one in `steps` (for `probing` a
// try) for each arc that it goes over.
//
// If `from` is all that is reached there with some number of breaks taken, each number of this run is reached with as
// many. If none are taken, no other number is.
pub(crate) fn carry_run<L: Ledger>(walk: &RunWalk, from: Run, steps: &mut Steps<L>) -> Run
    requires { IsCumulRun from }
    ensures cumuls { result.lo ≤ℤ result.hi → IsCumulRun result }
    ensures reached { (taken : ℕ) → taken ≤ length (line_along walk.now).breaks
        → IsOnlyRun (level_at walk.now.from.now taken) from
        → IsReachedRun (line_along walk.now) walk.now.last taken result }
    ensures led { (y : ℤ) → IsTrue (in_run result y) ↔ IsLedToWithoutBreaks (line_along walk.now) (in_run from)
        walk.now.begin (walk.now.last - walk.now.begin) y }
    ensures count { IsOnlyRun (level_at walk.now.from.now 0) from
        → steps.new ≤ steps.old + steps_between (line_along walk.now) walk.now.begin walk.now.last }
    ensures arcs { steps.new ≤ steps.old + (walk.now.last - walk.now.begin) }
{
    let line = &walk.line;
    let mut here = Stand {
        node: node_at(&line.of, walk.begin),
        run: from,
    };
    for k in walk.begin..walk.last {
        steps.tick();
        here = cross_by_run(line, k, here);
        if here.run.lo > here.run.hi {
            return here.run;
        }
    }
    here.run
}

// The stop after the arc from stop `k` of a list.
#[inline]
pub(crate) fn stop_ahead(line: &RunLine, k: usize) -> Ahead
    requires { k ≤ length line.now.of.list.now }
    ensures node { result.node ≡ node_at_stop line.now.of.closed.model.now line.now.of.v line.now.of.list.now (k + 1) }
    ensures below { result.node < line.now.of.closed.model.now.nodes }
    ensures allowed { IsAllowedRun (line_of line.now.of) (k + 1) result.allowed }
{
    let list = line.of.list;
    if k < list.len() {
        let node = list.get(k);
        let runs = line.visits;
        return Ahead {
            node,
            allowed: runs[node as usize],
        };
    }
    line.finish
}

// The stop after the arc from stop `k`, and the run that is reached there without a break on the way. It has no number
// if none is reached.
#[inline]
fn cross_by_run(line: &RunLine, k: usize, here: Stand) -> Stand
    requires arc { k ≤ length line.now.of.list.now }
    requires node { here.node ≡ node_at_stop line.now.of.closed.model.now line.now.of.v line.now.of.list.now k }
    requires below { here.node < line.now.of.closed.model.now.nodes }
    requires cumuls { IsCumulRun here.run }
    ensures node { result.node ≡ node_at_stop line.now.of.closed.model.now line.now.of.v line.now.of.list.now (k + 1) }
    ensures below { result.node < line.now.of.closed.model.now.nodes }
    ensures cumuls { result.run.lo ≤ℤ result.run.hi → IsCumulRun result.run }
    ensures reached { (taken : ℕ) → taken ≤ length (line_of line.now.of).breaks
        → IsReachedRun (line_of line.now.of) k taken here.run
        → IsReachedRun (line_of line.now.of) (k + 1) taken result.run }
    ensures led { (y : ℤ) → IsTrue (in_run result.run y)
        ↔ ((x : ℤ) × IsTrue (in_run here.run x) × Follows (line_of line.now.of) k x y) }
{
    let ahead = stop_ahead(line, k);
    let transit = line.transit(here.node, ahead.node);
    let run = run_behind(here.run, transit, line.slack, ahead.allowed);
    Stand {
        node: ahead.node,
        run,
    }
}

/// The greatest slack of dimension `d`, in `0..=2^36`.
#[inline]
pub fn slack_of(closed: Closed<'_>, d: u32) -> i64
    requires dimension { d < length closed.model.now.dimensions }
    ensures value { result ≡ (dimension_at closed.entry.model.now d).slack_max }
    ensures range { IsIn (pos 0) horizon result }
{
    closed.model.dimensions.get(d as usize).slack_max
}

// The run at the end of an arc, of what is allowed there. It has no number if the arc leads to none. A run of 0 to 10,
// a transit of 5 and a slack of 2 lead to 5 to 17. If 8 to 20 is allowed, 8 to 17 is left.
#[inline]
fn run_behind(run: Run, transit: i64, slack: i64, allowed: Run) -> Run
    requires run { IsCumulRun run }
    requires least { neg_ℤ (pos (2 ^ 31)) ≤ℤ transit }
    requires greatest { transit ≤ℤ pos (2 ^ 31) }
    requires slack { IsIn (pos 0) horizon slack }
    requires allowed { HasCumulEnds allowed }
    ensures lo { result.lo ≡ int_max (run.lo +ℤ transit) allowed.lo }
    ensures hi { result.hi ≡ int_min (run.hi +ℤ (transit +ℤ slack)) allowed.hi }
{
    Run {
        lo: (run.lo + transit).max(allowed.lo),
        hi: (run.hi + (transit + slack)).min(allowed.hi),
    }
}
