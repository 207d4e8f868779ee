//! The one run of cumuls that each visit allows, if none allows more than one, and what runs share.

ghost use Rattle.std.specs.Prelude.{◌≡◌, IfOk, IfSome, IsTrue, is_some, ◌↔◌, ◌≤ℤ◌, [], ◌∷◌};
ghost use Rattle.vr_spans.specs.Runs.{ShareANumber};
ghost use Rattle.vr_reach.specs.VisitRuns.{is_single, AreKnownRuns, AreRunTables, IsRunOf};

use std::alloc::Global;
use vr_model::{NoMemory, Seq};
use vr_spans::{Run, Spans};

// For each table of sets the run of each set, or nothing if a set is of more than one.
pub(crate) fn run_tables(
    alloc: Global,
    tables: &Seq<Seq<Spans>>,
) -> Result<Seq<Option<Seq<Run>>>, NoMemory>
    ensures { IfOk result (AreRunTables tables.now) }
{
    let mut found = Seq::with_capacity(alloc, tables.len())?;
    for k in 0..tables.len() {
        found.push(runs_of(alloc, tables.get(k))?)?;
    }
    Ok(found)
}

// The run of each set, nothing if a set is of more than one.
fn runs_of(alloc: Global, sets: &Seq<Spans>) -> Result<Option<Seq<Run>>, NoMemory>
    ensures { IfOk result (AreKnownRuns sets.now) }
{
    let mut runs = Seq::with_capacity(alloc, sets.len())?;
    for k in 0..sets.len() {
        let Some(run) = run_of(sets.get(k)) else {
            return Ok(None);
        };
        runs.push(run)?;
    }
    Ok(Some(runs))
}

// The run that has the numbers of a set. It has no number if the set is empty; nothing if the set has several runs.
pub(crate) fn run_of(set: &Spans) -> Option<Run>
    ensures run { IfSome result (IsRunOf set.now) }
    ensures known { is_some result ≡ is_single set.now }
{
    let runs = set.len();
    if runs > 1 {
        return None;
    }
    if runs == 1 {
        return Some(set.run(0));
    }
    Some(Run { lo: 1, hi: 0 })
}

// Whether a run has a number in common with a set.
pub(crate) fn shares_with(run: Run, set: &Spans) -> bool
    ensures { IsTrue result ↔ ShareANumber (run ∷ []) set.now }
{
    if run.lo > run.hi {
        return false;
    }
    // to read its length is to know that no run of it is empty
    let runs = set.len();
    for k in 0..runs {
        if runs_share(run, set.run(k)) {
            return true;
        }
    }
    false
}

// Whether two runs, of a number each at least, have one in common.
#[inline]
pub(crate) fn runs_share(a: Run, b: Run) -> bool
    requires first { a.lo ≤ℤ a.hi }
    requires second { b.lo ≤ℤ b.hi }
    ensures { IsTrue result ↔ ShareANumber (a ∷ []) (b ∷ []) }
{
    a.lo <= b.hi && b.lo <= a.hi
}
