//! The search of a mode: what it makes of a first solution, by the judge that is chosen here.

ghost use Rattle.std.specs.Prelude.{◌≡◌, ◌≢◌, ◌<◌, IfOk, IsTrue, OnOk};
ghost use Rattle.vr_app.specs.Endings.{IsBestOfOutcome};
ghost use Rattle.vr_app.specs.Found as found;
ghost use Rattle.vr_app.specs.Improved as how;
ghost use Rattle.vr_model.specs.routes.Costs.{cost};
ghost use Rattle.vr_model.specs.routes.Rules.{is_valid};
ghost use Rattle.vr_model.specs.tables.Tables.{visits};
ghost use Rattle.vr_routes.specs.Judging.{HasCommitted};
ghost use Rattle.vr_watch.specs.Told.{Reported};

use crate::best::{Best, untried};
use crate::improving::{FirstSolution, Watchers, improve};
use crate::insertion::Insertion;
use crate::words::Mode;
use std::alloc::Global;
use std::marker::Brand;
use std::sync::ledger::{Blank, Ledger};
use vr_judge::FilterJudge;
use vr_model::{NoMemory, Steps};
use vr_plan::Lookups;
use vr_routes::{Judge, Routes};

/// What the search that the model names makes of its first solution, by a judge of filters that is in sync with it. The
/// watchers are told of each event. The call fails only if out of memory. A counter of steps, which contracts alone
/// see, is made of `blank` for the search. Beside `search_watched`, a test of `vr_app_tests` calls it: its types show
/// that the program searches by this judge.
pub fn improve_judged<L: Ledger>(
    alloc: Global,
    lookups: &Lookups<'_>,
    judge: &mut FilterJudge<'_>,
    first: FirstSolution,
    watch: &mut Watchers,
    blank: Blank,
) -> Result<Best, NoMemory>
    requires judge_model { ⟦<FilterJudge<'static> as Judge>⟧.model judge.old ≡ lookups.now.closed.model.now }
    requires holds { HasCommitted lookups.now.closed.model.now
        (⟦<FilterJudge<'static> as Judge>⟧.committed judge.old) first.routes }
    requires first_cost { first.cost ≡ cost lookups.now.closed.model.now first.routes.lists }
    requires name { blank.name ≡ L.name }
    requires parts { blank.parts ≡ L.parts }
    requires some { 0 < blank.parts }
    ensures ends { let model = lookups.now.closed.model.now in
        IfOk result (IsBestOfOutcome first.routes.visits (how.improved model.search.improve model first.routes.lists)) }
    ensures told { let model = lookups.now.closed.model.now in
        let outcome = how.improved model.search.improve model first.routes.lists in
        OnOk result (Reported (λ w later. after w later) watch.old.items watch.new.items outcome.events) }
{
    let mut rebuild = Insertion::new(alloc);
    let mut steps = Steps::<L>::new(blank);
    improve(
        alloc,
        lookups,
        judge,
        &mut rebuild,
        first,
        watch,
        &mut steps,
    )
}

/// What the search that the model names makes of its first solution, which has this cost. The watchers are told of each
/// event. The call fails only if out of memory.
pub(crate) fn search_watched(
    alloc: Global,
    lookups: &Lookups<'_>,
    first: Routes,
    first_cost: i64,
    watch: &mut Watchers,
) -> Result<Best, NoMemory>
    requires of_model { first.visits ≡ visits lookups.now.closed.model.now }
    requires valid { IsTrue (is_valid lookups.now.closed.model.now first.lists) }
    requires first_cost { first_cost ≡ cost lookups.now.closed.model.now first.lists }
    ensures ends { let model = lookups.now.closed.model.now in
        IfOk result (IsBestOfOutcome first.visits (how.improved model.search.improve model first.lists)) }
    ensures told { let model = lookups.now.closed.model.now in
        let outcome = how.improved model.search.improve model first.lists in
        OnOk result (Reported (λ w later. after w later) watch.old.items watch.new.items outcome.events) }
{
    let mut judge = FilterJudge::over(alloc, lookups, &first)?;
    let first = FirstSolution {
        routes: first,
        cost: first_cost,
    };
    // the counter of steps holds no bytes: contracts alone see it
    let best = improve_judged::<Brand>(alloc, lookups, &mut judge, first, watch, Blank::new(1));
    judge.close();
    best
}

/// The same with no watcher, for the mode `Solve` and for `demo`.
pub(crate) fn search_unwatched(
    alloc: Global,
    lookups: &Lookups<'_>,
    first: Routes,
    first_cost: i64,
) -> Result<Best, NoMemory>
    requires of_model { first.visits ≡ visits lookups.now.closed.model.now }
    requires valid { IsTrue (is_valid lookups.now.closed.model.now first.lists) }
    requires first_cost { first_cost ≡ cost lookups.now.closed.model.now first.lists }
    ensures ends { let model = lookups.now.closed.model.now in
        IfOk result (IsBestOfOutcome first.visits (how.improved model.search.improve model first.lists)) }
{
    let mut none = Vec::new(alloc);
    search_watched(alloc, lookups, first, first_cost, &mut none)
}

/// What the search of a mode makes of the first solution of a model, which has this cost. With `Log` alone the watchers
/// are told, of each event. The call fails only if out of memory.
pub(crate) fn search(
    alloc: Global,
    mode: Mode,
    lookups: &Lookups<'_>,
    first: Routes,
    first_cost: i64,
    watch: &mut Watchers,
) -> Result<Best, NoMemory>
    requires of_model { first.visits ≡ visits lookups.now.closed.model.now }
    requires valid { IsTrue (is_valid lookups.now.closed.model.now first.lists) }
    requires first_cost { first_cost ≡ cost lookups.now.closed.model.now first.lists }
    ensures ends { IfOk result (IsBestOfOutcome first.visits
        (found.searched mode lookups.now.closed.model.now first.lists)) }
    ensures told { mode ≡ Mode.Log → OnOk result (Reported (λ w later. after w later) watch.old.items watch.new.items
        (found.searched mode lookups.now.closed.model.now first.lists).events) }
    ensures untold { mode ≢ Mode.Log → watch.new ≡ watch.old }
{
    match mode {
        Mode::First => Ok(untried(first)),
        Mode::Solve => search_unwatched(alloc, lookups, first, first_cost),
        Mode::Log => search_watched(alloc, lookups, first, first_cost, watch),
    }
}
