//! The parts of the cost together.

ghost use Rattle.std.specs.Prelude.{◌≡◌, ℕ, ◌<◌, ◌≤◌, ◌+ℤ◌, ◌-ℤ◌, ◌≤ℤ◌, pos, true, not, IsTrue};
ghost use Rattle.std.specs.Prelude.{Some, IfOk, IfSome, OnOk, OnErr};
ghost use Rattle.vr_model.specs.routes.Costs.{cost};
ghost use Rattle.vr_model.specs.routes.Rules.{is_valid};
ghost use Rattle.vr_model.specs.tables.Tables.{visits};
ghost use Rattle.vr_routes.specs.Changes.{IsMadeOn, after};
ghost use Rattle.vr_routes.specs.Pieces.{changed};
ghost use Rattle.vr_routes.specs.Judging.{IsNoLess};
ghost use Rattle.vr_routes.specs.Runs.{with_last};
ghost use Rattle.vr_model.specs.moves.Kinds.{changes_activity, kind_of};
ghost use Rattle.vr_usecosts.specs.Fixed.{is_some_fixed};
ghost use Rattle.vr_parts.specs.Bounds.{IsAddedByChange};
ghost use Rattle.vr_judge.specs.Costs.{AddArcsBut, PaysArcsAndGroups, StandsCosts};
ghost use Rattle.vr_judge.specs.Costs.{is_least_by_arcs, pays_arcs_and_groups, AreChangesInRange};

use crate::try_both::try_both;
use std::alloc::Global;
use std::marker::Model;
use vr_bounds::BoundedArcs;
use vr_costfilter::{GlobalSpan, PlanCost};
use vr_earliest::{Earlies, Earliest};
use vr_model::{Model as RoutingModel, Move, NoMemory};
use vr_parts::{CostPart, InfallibleCost};
use vr_plan::Lookups;
use vr_routes::{Change, Routes};
use vr_usecosts::{FixedCost, GroupCost};

/// What routes cost, part by part.
#[derive(Drop)]
pub(crate) struct Costs<'m> {
    model: &'m RoutingModel,
    arcs: BoundedArcs<'m>,
    fixed: FixedCost<'m>,
    groups: GroupCost<'m>,
    // soft upper bounds and the spans of lists
    plans: PlanCost<'m>,
    // global spans
    spans: GlobalSpan<'m>,
    // how early vehicles can end lists and how short their spans can be: lower bounds for `plans` and `spans`
    earliest: Earliest<'m>,
    // room for the same of the lists after a change
    earlies: Earlies,
    // whether arcs and groups alone are paid, so that these two tell runs of moves
    arcs_and_groups: bool,
}

impl<'m> Model for Costs<'m> {
    ghost use Rattle.vr_judge.specs.Costs.{KeptCosts};

    ghost Value = { KeptCosts };

    ghost view = { λ costs. record {
      model = costs.model.now;
      arcs = costs.arcs;
      fixed = costs.fixed;
      groups = costs.groups;
      plans = costs.plans;
      spans = costs.spans;
      earliest = costs.earliest;
      arcs_and_groups = costs.arcs_and_groups;
    } };
}

// Whether arcs and groups alone are paid. No vehicle has a fixed cost, and no span or global span has a coefficient. No
// stop has a soft upper bound, not even one with the coefficient 0. These parts then tell no two lists apart.
fn are_idle(fixed: &FixedCost, plans: &PlanCost, spans: &GlobalSpan) -> bool
    requires pays { fixed.now.pays ≡ is_some_fixed fixed.now.model }
    requires plans_model { plans.now.model ≡ fixed.now.model }
    requires spans_model { spans.now.model ≡ fixed.now.model }
    ensures idle { result ≡ pays_arcs_and_groups fixed.now.model }
    ensures alike { IsTrue result → PaysArcsAndGroups fixed.now.model }
{
    fixed.is_idle() && plans.is_idle() && spans.is_idle()
}

// Whether a move leaves each node active that is active, and makes no other active. Moves that put visits elsewhere do
// so.
#[inline(always)]
fn keeps_activity(mv: Move) -> bool
    ensures { result ≡ not (changes_activity (kind_of mv)) }
{
    !mv.neighbourhood().changes_activity()
}

// What all cost terms add together.
#[inline(always)]
fn sum(arcs: i64, fixed: i64, groups: i64, plans: i64, spans: i64) -> i64
    requires { AreChangesInRange arcs fixed groups plans spans }
    ensures { result ≡ arcs +ℤ fixed +ℤ groups +ℤ plans +ℤ spans }
{
    arcs + fixed + groups + plans + spans
}

impl<'m> Costs<'m> {
    /// What valid routes of a model cost, over what was looked up of it. The only refusal is want of memory.
    // Inlined into `FilterJudge::over`, whose values are large too, it would have them moved about once more.
    #[inline(never)]
    pub fn over(
        alloc: Global,
        lookups: &Lookups<'m>,
        routes: &Routes,
    ) -> Result<Costs<'m>, NoMemory>
        requires of_model { routes.now.visits ≡ visits lookups.now.closed.model.now }
        requires valid { IsTrue (is_valid lookups.now.closed.model.now routes.now.lists) }
        ensures model { IfOk result (λ costs. costs.model ≡ lookups.now.closed.model.now) }
        ensures stands { IfOk result (λ costs. StandsCosts costs routes.now) }
    {
        let model = lookups.closed.model;
        let arcs = BoundedArcs::open(alloc, model, routes);
        let groups = GroupCost::open(alloc, model, routes);
        let plans = PlanCost::over(alloc, lookups, routes);
        let spans = GlobalSpan::over(alloc, lookups, routes);
        let earliest = Earliest::open(alloc, model, routes);
        let driven = try_both(arcs, earliest);
        let scheduled = try_both(plans, spans);
        let (groups, (first, second)) = try_both(groups, try_both(driven, scheduled))?;
        let (arcs, earliest) = first;
        let (plans, spans) = second;
        let fixed = FixedCost::of(model);
        let arcs_and_groups = are_idle(&fixed, &plans, &spans);
        Ok(Costs {
            model,
            arcs,
            fixed,
            groups,
            plans,
            spans,
            earliest,
            earlies: Earlies::new(),
            arcs_and_groups,
        })
    }

    // What each move of a run saves at most beside what it adds to the cost of arcs. The moves of a run differ in their
    // last number. What is saved is:
    //
    // - 0 if the committed lists have no penalty to pay, or if moves of the kind leave the penalties as they are;
    // - else the penalties of what the move puts into a list;
    // - or, if each move puts another visit in the place of a node, the greatest that any visit saves, less what that
    //   node saves.
    //
    // `None` if more may be paid than arcs and penalties. If there is a penalty to pay, it is also `None` of moves that
    // only take visits out. So it is then of a pair or place that is not there.
    #[inline(always)]
    fn saved_by_run(&self, routes: &Routes, mv: Move) -> Option<i64>
        requires stands { StandsCosts self.now routes.now }
        ensures known { is_least_by_arcs self.now.model routes.now.lists (kind_of mv) ≡ true → result ≡ Some (pos 0) }
        ensures least { IfSome result (AddArcsBut self.now.model routes.now.lists mv) }
        ensures range { IfSome result IsAddedByChange }
    {
        if !self.arcs_and_groups {
            return None;
        }
        if self.groups.pays_none() || keeps_activity(mv) {
            return Some(0);
        }
        self.groups.saved_at_most_by_run(routes, mv)
    }

    /// Goes over a run of moves of the committed lists, which differ in their last number: those of the numbers from
    /// `from` on, below `end`. Says from which number on some move may make a difference below a bound. What a move
    /// makes is bounded by the cost of arcs, less the most of the penalties that any move of the run saves.
    ///
    /// `None`:
    ///
    /// - if more may be paid than arcs and penalties;
    /// - of moves that only take visits out;
    /// - of some `mv` that is no move (it puts elsewhere a pair that is not served, say);
    /// - if the bound and what is saved together do not fit an `i64`.
    #[inline(always)]
    pub fn first_below(
        &mut self,
        routes: &Routes,
        mv: Move,
        from: u32,
        end: u32,
        bound: i64,
    ) -> Option<u32>
        requires stands { StandsCosts self.old routes.now }
        requires order { from ≤ end }
        ensures from { IfSome result (λ first. from ≤ first) }
        ensures within { IfSome result (λ first. first ≤ end) }
        ensures no_less { IfSome result (λ first. (k : ℕ) → from ≤ k → k < first
            → IsNoLess self.old.model routes.now.lists (with_last mv k) bound) }
        ensures stands { StandsCosts self.new routes.now }
        ensures model { self.new.model ≡ self.old.model }
    {
        let saved = self.saved_by_run(routes, mv)?;
        let enough = bound.checked_add(saved)?;
        self.arcs.first_below(routes, mv, from, end, enough)
    }

    /// What a change of the committed lists adds to their cost.
    pub fn difference(&mut self, routes: &Routes, change: &Change) -> Result<i64, NoMemory>
        requires stands { StandsCosts self.old routes.now }
        requires made { IsMadeOn routes.now change.now }
        requires valid { IsTrue (is_valid self.old.model (changed routes.now.lists change.now)) }
        ensures exact { IfOk result (λ difference. difference
            ≡ cost self.old.model (changed routes.now.lists change.now) -ℤ cost self.old.model routes.now.lists) }
        ensures stands { StandsCosts self.new routes.now }
        ensures model { self.new.model ≡ self.old.model }
    {
        let arcs = self.arcs.added(routes, change);
        let fixed = self.fixed.added(routes, change);
        let groups = self.groups.added(routes, change);
        let plans = self.plans.difference(routes, change)?;
        let spans = self.spans.difference(routes, change)?;
        Ok(sum(arcs, fixed, groups, plans, spans))
    }

    /// A lower bound of what a change of the committed lists adds to their cost, if the lists after it are valid. It is
    /// what arcs and fixed costs add, and the least that groups, soft upper bounds, spans and global spans add.
    pub fn least(&mut self, routes: &Routes, change: &Change) -> i64
        requires stands { StandsCosts self.old routes.now }
        requires made { IsMadeOn routes.now change.now }
        ensures least { IsTrue (is_valid self.old.model (changed routes.now.lists change.now))
            → result ≤ℤ (cost self.old.model (changed routes.now.lists change.now)
            -ℤ cost self.old.model routes.now.lists) }
        ensures stays { self.new ≡ self.old }
    {
        let arcs = self.arcs.added(routes, change);
        let fixed = self.fixed.added(routes, change);
        let groups = self.groups.least(routes, change);
        self.earliest.write_after(routes, change, &mut self.earlies);
        let plans = self.plans.least(&self.earlies, change);
        let spans = self.spans.least(&self.earlies, change);
        sum(arcs, fixed, groups, plans, spans)
    }

    /// Commits the lists after a change. Plans and global spans are made ready first; the other cost terms take no
    /// memory. So if memory is wanting, all stay as before.
    pub fn commit(&mut self, routes: &Routes, change: &Change) -> Result<(), NoMemory>
        requires stands { StandsCosts self.old routes.now }
        requires made { IsMadeOn routes.now change.now }
        requires valid { IsTrue (is_valid self.old.model (changed routes.now.lists change.now)) }
        ensures stands { OnOk result (StandsCosts self.new (after routes.now change.now)) }
        ensures stays { OnErr result (StandsCosts self.new routes.now) }
        ensures model { self.new.model ≡ self.old.model }
    {
        self.plans.prepare(routes, change)?;
        self.spans.prepare(routes, change)?;
        self.arcs.commit_lists(routes, change);
        self.fixed.commit_lists(routes, change);
        self.groups.commit_lists(routes, change);
        self.plans.commit(routes, change);
        self.spans.commit(routes, change);
        self.earliest.commit(routes, change);
        Ok(())
    }
}
