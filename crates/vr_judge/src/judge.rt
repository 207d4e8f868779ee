//! The judge that looks only at what a move changes.

ghost use Rattle.std.specs.Prelude.{◌≡◌, IfOk, IsTrue};
ghost use Rattle.vr_model.specs.routes.Rules.{is_valid};
ghost use Rattle.vr_model.specs.tables.Tables.{visits};
ghost use Rattle.vr_model.specs.tables.WellFormed.{IsWellFormed};
ghost use Rattle.vr_routes.specs.Judging.{HasCommitted};

use crate::costs::Costs;
use crate::filters::{Filters, filters_of};
use crate::judging::Judging;
use crate::try_both::try_both;
use std::alloc::Global;
use std::sync::ledger::Ledger;
use vr_model::{Closed, Model as RoutingModel, Move, NoMemory, Steps};
use vr_plan::Lookups;
use vr_routes::{Change, Judge, Routes, Verdict};

/// Judges a move by what it changes: filters refuse it (`LocalSearchFilterManager` in OR-Tools), and parts of the cost
/// tell its difference. It counts no questions.
///
/// Of steps it counts at most the weight that the definitions give the change, summed over the dimensions. Filters do
/// not walk what lies before and after the changed stretch of a route.
///
/// Parts of the cost count no steps. If a schedule may cost anything, they go along the whole list of a vehicle in
/// these cases:
///
/// - the vehicle has breaks;
/// - a stop allows several runs of cumuls;
/// - the vehicle chooses its tight schedule, soft bounds may cost anything, and its end is at another cumul than
///   before.
///
/// A judged move takes memory only in these cases:
///
/// - a set of cumuls has more than four runs;
/// - a list is longer than any before;
/// - its vehicle has breaks;
/// - a tight schedule is built, for which a line is copied.
#[derive(Drop)]
pub struct FilterJudge<'m> {
    // in a box, so that who owns a judge moves and drops one pointer
    judging: Box<Judging<'m, Filters<'m>>>,
}

impl<'m> FilterJudge<'m> {
    /// A judge that has committed the lists of these routes, which are valid. The only refusal is want of memory. Tests
    /// and benches open it so; `vr_app` has looked the model up already and calls [`FilterJudge::over`].
    pub fn open(
        alloc: Global,
        model: &'m RoutingModel,
        routes: &Routes,
    ) -> Result<FilterJudge<'m>, NoMemory>
        requires well_formed { IsWellFormed model.now }
        requires of_model { routes.now.visits ≡ visits model.now }
        requires valid { IsTrue (is_valid model.now routes.now.lists) }
        ensures model { IfOk result (λ judge. ⟦<FilterJudge<'static> as Judge>⟧.model judge ≡ model.now) }
        ensures holds { IfOk result (λ judge.
            HasCommitted model.now (⟦<FilterJudge<'static> as Judge>⟧.committed judge) routes.now) }
    {
        let lookups = Lookups::open(alloc, Closed { model })?;
        FilterJudge::over(alloc, &lookups, routes)
    }

    /// The same, over what was looked up of the model.
    pub fn over(
        alloc: Global,
        lookups: &Lookups<'m>,
        routes: &Routes,
    ) -> Result<FilterJudge<'m>, NoMemory>
        requires of_model { routes.now.visits ≡ visits lookups.now.closed.model.now }
        requires valid { IsTrue (is_valid lookups.now.closed.model.now routes.now.lists) }
        ensures model { IfOk result (λ judge.
            ⟦<FilterJudge<'static> as Judge>⟧.model judge ≡ lookups.now.closed.model.now) }
        ensures holds { IfOk result (λ judge. HasCommitted lookups.now.closed.model.now
            (⟦<FilterJudge<'static> as Judge>⟧.committed judge) routes.now) }
    {
        let filters = filters_of(alloc, lookups, routes);
        let costs = Costs::over(alloc, lookups, routes);
        let (filter, costs) = try_both(filters, costs)?;
        let judging = Judging {
            model: lookups.closed.model,
            filter,
            costs,
        };
        Ok(FilterJudge {
            judging: Box::new(alloc, judging)?,
        })
    }

    /// Lets the judge go. Who drops it instead must prove that all it holds can be dropped.
    pub fn close(self) {}
}

impl<'m> Judge for FilterJudge<'m> {
    ghost model = { λ judge. ⟦<Judging<'static, Filters<'static>> as Judge>⟧.model judge.judging.value };

    ghost committed = { λ judge. ⟦<Judging<'static, Filters<'static>> as Judge>⟧.committed judge.judging.value };

    ghost asked = { λ judge. 0 };

    ghost looked = { λ judge. 0 };

    ghost weight = { λ judge. ⟦<Judging<'static, Filters<'static>> as Judge>⟧.weight judge.judging.value };

    fn routing_model(&self) -> &RoutingModel {
        self.judging.routing_model()
    }

    #[inline]
    fn least_difference(&mut self, routes: &Routes, mv: Move, change: &Change) -> i64 {
        self.judging.least_difference(routes, mv, change)
    }

    #[inline(always)]
    fn first_below(
        &mut self,
        routes: &Routes,
        mv: Move,
        from: u32,
        end: u32,
        bound: i64,
    ) -> Option<u32> {
        self.judging.first_below(routes, mv, from, end, bound)
    }

    fn judge_change<L: Ledger>(
        &mut self,
        routes: &Routes,
        mv: Move,
        change: &Change,
        steps: &mut Steps<L>,
    ) -> Result<Verdict, NoMemory> {
        self.judging.judge_change(routes, mv, change, steps)
    }

    fn commit_change(
        &mut self,
        routes: &mut Routes,
        mv: Move,
        change: &Change,
    ) -> Result<(), NoMemory> {
        self.judging.commit_change(routes, mv, change)
    }
}
