//! Judging a move by a filter of what it changes, and by the parts of the cost.

ghost use Rattle.std.specs.Prelude.{◌≡◌, ◌+◌, ◌≤◌, IfOk, IsTrue, OnErr, OnOk};
ghost use Rattle.vr_filter.specs.Filters.{IsSameRule, IsSameWeight};
ghost use Rattle.vr_model.specs.moves.Moves.{apply};
ghost use Rattle.vr_model.specs.routes.Rules.{is_valid};
ghost use Rattle.vr_judge.specs.Costs.{StandsCosts};
ghost use Rattle.vr_judge.specs.Verdicts.{verdict_by};
ghost use Rattle.vr_routes.specs.Changes.{after, IsMadeOn};
ghost use Rattle.vr_routes.specs.Pieces.{changed};
ghost use Rattle.vr_judge.specs.Rules.{total_weight};
ghost use Rattle.vr_judge.specs.Standing.{IsJudging};

use crate::costs::Costs;
use std::sync::ledger::Ledger;
use vr_filter::PathFilter;
use vr_model::{Model as RoutingModel, Move, NoMemory, Steps};
use vr_routes::{Change, Judge, Routes, Verdict};

/// Judges a move by a filter whose rule is that the lists are valid, and by the parts of the cost.
#[derive(Drop)]
pub(crate) struct Judging<'m, F: PathFilter + Drop> {
    pub(crate) model: &'m RoutingModel,
    pub(crate) filter: F,
    pub(crate) costs: Costs<'m>,
}

// Judges a change of the lists that a filter and costs are in sync with. The filter says whether the lists are valid
// after it.
fn judge_by<F: PathFilter, L: Ledger>(
    filter: &mut F,
    costs: &mut Costs<'_>,
    routes: &Routes,
    change: &Change,
    steps: &mut Steps<L>,
) -> Result<Verdict, NoMemory>
    requires made { IsMadeOn routes.now change.now }
    requires filter { F.stands_at filter.old routes.now }
    requires rule { F.holds filter.old (changed routes.now.lists change.now)
        ≡ is_valid costs.old.model (changed routes.now.lists change.now) }
    requires costs { StandsCosts costs.old routes.now }
    ensures verdict { IfOk result (λ verdict. verdict
        ≡ verdict_by costs.old.model routes.now.lists (changed routes.now.lists change.now)) }
    ensures count { steps.new ≤ steps.old
        + F.weight filter.old routes.now.lists (changed routes.now.lists change.now) }
    ensures same_rule { IsSameRule (F.holds filter.old) (F.holds filter.new) }
    ensures same_weight { IsSameWeight (F.weight filter.old) (F.weight filter.new) }
    ensures filter { F.stands_at filter.new routes.now }
    ensures model { costs.new.model ≡ costs.old.model }
    ensures costs { StandsCosts costs.new routes.now }
{
    if !filter.passes(routes, change, steps)? {
        return Ok(Verdict::Refused);
    }
    let difference = costs.difference(routes, change)?;
    Ok(Verdict::Difference(difference))
}

// Makes a change of the lists that a filter and costs are in sync with. The lists are valid after it. Filter and costs
// are made ready first; then they and the routes are changed, which takes no memory. If memory is wanting, none is
// changed.
fn commit_by<F: PathFilter>(
    filter: &mut F,
    costs: &mut Costs<'_>,
    routes: &mut Routes,
    change: &Change,
) -> Result<(), NoMemory>
    requires made { IsMadeOn routes.old change.now }
    requires filter { F.stands_at filter.old routes.old }
    requires passes { IsTrue (F.holds filter.old (changed routes.old.lists change.now)) }
    requires costs { StandsCosts costs.old routes.old }
    requires valid { IsTrue (is_valid costs.old.model (changed routes.old.lists change.now)) }
    ensures routes { OnOk result (routes.new ≡ after routes.old change.now) }
    ensures routes_stay { OnErr result (routes.new ≡ routes.old) }
    ensures visits { routes.new.visits ≡ routes.old.visits }
    ensures same_rule { IsSameRule (F.holds filter.old) (F.holds filter.new) }
    ensures same_weight { IsSameWeight (F.weight filter.old) (F.weight filter.new) }
    ensures filter { F.stands_at filter.new routes.new }
    ensures model { costs.new.model ≡ costs.old.model }
    ensures costs { StandsCosts costs.new routes.new }
{
    filter.prepare(routes, change)?;
    costs.commit(routes, change)?;
    filter.commit(routes, change);
    // last: filters and costs still read the lists before the change
    routes.commit(change);
    Ok(())
}

impl<'m, F: PathFilter + Drop> Judge for Judging<'m, F> {
    ghost model = { λ judging. judging.model.now };

    ghost committed = { λ judging tours. IsJudging judging.model.now tours (F.holds judging.filter)
        (F.weight judging.filter) (F.stands_at judging.filter) judging.costs };

    ghost asked = { λ judging. 0 };

    ghost looked = { λ judging. 0 };

    ghost weight = { λ judging lists mv. total_weight judging.model.now lists (apply judging.model.now lists mv) };

    fn routing_model(&self) -> &RoutingModel {
        self.model
    }

    #[inline]
    fn least_difference(&mut self, routes: &Routes, _mv: Move, change: &Change) -> i64 {
        self.costs.least(routes, change)
    }

    #[inline(always)]
    fn first_below(
        &mut self,
        routes: &Routes,
        mv: Move,
        from: u32,
        end: u32,
        bound: i64,
    ) -> Option<u32> {
        self.costs.first_below(routes, mv, from, end, bound)
    }

    fn judge_change<L: Ledger>(
        &mut self,
        routes: &Routes,
        _mv: Move,
        change: &Change,
        steps: &mut Steps<L>,
    ) -> Result<Verdict, NoMemory> {
        judge_by(&mut self.filter, &mut self.costs, routes, change, steps)
    }

    fn commit_change(
        &mut self,
        routes: &mut Routes,
        _mv: Move,
        change: &Change,
    ) -> Result<(), NoMemory> {
        commit_by(&mut self.filter, &mut self.costs, routes, change)
    }
}
