//! What soft upper bounds and spans cost, and what a change adds to it.

ghost use Rattle.std.specs.Prelude.{◌≡◌, ◌-ℤ◌, ◌≤ℤ◌, ◌<◌, false, IsTrue, IfOk, OnOk, OnErr, length};
ghost use Rattle.vr_model.specs.tables.Tables.{visits};
ghost use Rattle.vr_model.specs.tables.WellFormed.{IsWellFormed};
ghost use Rattle.vr_model.specs.routes.Rules.{is_valid};
ghost use Rattle.vr_routes.specs.Pieces.{changed, part_at};
ghost use Rattle.vr_routes.specs.Changes.{NothingReady};
ghost use Rattle.vr_routes.specs.Tours.{Tours};
ghost use Rattle.vr_parts.specs.Parts.{CostAlike};
ghost use Rattle.vr_costfilter.specs.PlanCosts.{cost_after, pays_no_plan, soft_and_span, AreNextCosts, ArePlansReady};
ghost use Rattle.vr_costfilter.specs.Known.{IsValidChange};
ghost use Rattle.vr_costfilter.specs.PlanCosts.{plans_least, ArePlansLike, ArePlansKnown, IsPlanChange, IsPlanCost};
ghost use Rattle.vr_costfilter.specs.PlanCosts.{StandsPlans};

use crate::all_cumuls::AllCumuls;
use crate::schedule_costs::PlanRules;
use crate::scratch::Scratch;
use arrayvec::ArrayVec;
use std::alloc::Global;
use std::marker::Model;
use vr_earliest::Earlies;
use vr_model::{Closed, Model as RoutingModel, NoMemory};
use vr_parts::CostPart;
use vr_plan::Lookups;
use vr_routes::{Change, Routes};

/// What soft upper bounds and spans cost (`SetCumulVarSoftUpperBound` and `SetSpanCostCoefficientForVehicle` in
/// OR-Tools).
///
/// A change is priced by the floors and cumuls that are kept of the committed lists. It is walked along what it puts
/// in, before that until a floor is as it was, and after it until a cumul is. Tight vehicles go by the ways along their
/// first visits, and by what is left after each place. If soft bounds may cost anything and the end is another, the
/// whole list is walked. The schedules of the changed lists are built only if they are not known so, and in the
/// dimensions in which they may cost anything.
#[derive(Drop)]
pub struct PlanCost<'m> {
    rules: PlanRules<'m>,
    // what the committed list of each vehicle costs
    costs: Vec<i64>,
    // what the lists of a change that is ready cost. A difference makes its change ready too, since it asks for the
    // same, unless this is idle.
    next: ArrayVec<i64, 2>,
    // whether a change was made ready: contracts alone read it
    is_prepared: bool,
    // the cumuls of the committed lists
    cumuls: AllCumuls,
    // scratch for a list that a change makes
    scratch: Scratch,
}

impl<'m> Model for PlanCost<'m> {
    ghost use Rattle.vr_costfilter.specs.PlanCosts.{KeptPlans};

    ghost Value = { KeptPlans };

    ghost view = { λ part. record {
      model = part.rules;
      costs = part.costs.items;
      next = part.next.items;
      is_prepared = part.is_prepared;
      cumuls = part.cumuls;
    } };
}

impl<'m> PlanCost<'m> {
    /// What soft upper bounds and spans cost with the lists of routes. The only error is out of memory, as of each
    /// other call. Tests alone call it: `vr_judge` shares what it looked up (`over`).
    pub fn open(
        alloc: Global,
        model: &'m RoutingModel,
        routes: &Routes,
    ) -> Result<PlanCost<'m>, NoMemory>
        requires well_formed { IsWellFormed model.now }
        requires of_model { routes.now.visits ≡ visits model.now }
        requires valid { IsTrue (is_valid model.now routes.now.lists) }
        ensures model { IfOk result (λ part. part.model ≡ model.now) }
        ensures stands { IfOk result (λ part. StandsPlans part routes.now) }
    {
        let lookups = Lookups::open(alloc, Closed { model })?;
        PlanCost::over(alloc, &lookups, routes)
    }

    /// The same, over what was looked up of the model.
    pub fn over(
        alloc: Global,
        lookups: &Lookups<'m>,
        routes: &Routes,
    ) -> Result<PlanCost<'m>, NoMemory>
        requires of_model { routes.now.visits ≡ visits lookups.now.closed.model.now }
        requires valid { IsTrue (is_valid lookups.now.closed.model.now routes.now.lists) }
        ensures model { IfOk result (λ part. part.model ≡ lookups.now.closed.model.now) }
        ensures stands { IfOk result (λ part. StandsPlans part routes.now) }
    {
        let rules = PlanRules::over(lookups)?;
        let mut scratch = Scratch::new(alloc);
        let (costs, cumuls) = rules.kept(alloc, routes, &mut scratch.timer)?;
        Ok(PlanCost {
            rules,
            costs,
            next: ArrayVec::new(),
            is_prepared: false,
            cumuls,
            scratch,
        })
    }

    /// Whether each span has the coefficient 0 and no stop has a soft upper bound, not even one with the coefficient 0.
    /// All valid lists cost the same then.
    pub fn is_idle(&self) -> bool
        ensures idle { result ≡ pays_no_plan self.now.model }
        ensures alike { IsTrue result → CostAlike soft_and_span self.now.model }
    {
        self.rules.is_idle()
    }

    /// What a change adds at least, if the lists after it are valid. It is what the spans of the changed lists cost at
    /// least, less what the lists of these vehicles cost now. Soft upper bounds of the changed lists are taken to cost
    /// nothing. No schedule is built: the caller hands in what the chosen schedules of the changed lists come to at
    /// least. The change must have been made on routes with which this is in sync; they themselves are not needed.
    pub fn least(&self, earlies: &Earlies, change: &Change) -> i64
        requires { (tours : Tours) × ArePlansKnown self.now earlies.now change.now tours }
        ensures value { (tours : Tours) → ArePlansKnown self.now earlies.now change.now tours
            → result ≡ plans_least self.now.model tours.lists change.now }
        ensures least { (tours : Tours) → ArePlansKnown self.now earlies.now change.now tours
            → IsTrue (is_valid self.now.model (changed tours.lists change.now))
            → result ≤ℤ (soft_and_span self.now.model (changed tours.lists change.now)
            -ℤ soft_and_span self.now.model tours.lists) }
        ensures range { IsPlanChange result }
    {
        if self.is_idle() {
            return 0;
        }
        let mut least = 0;
        for k in 0..change.parts() {
            let v = change.vehicle(k);
            least += self.rules.least(earlies, change, k) - self.costs[v as usize];
        }
        least
    }

    // What the new list of part `k` of a change costs.
    fn cost_after(&mut self, routes: &Routes, change: &Change, k: usize) -> Result<i64, NoMemory>
        requires change { IsValidChange (StandsPlans self.old) self.old.model routes.now change.now }
        requires part { k < length change.now }
        ensures value { IfOk result (λ cost. cost
            ≡ cost_after self.old.model routes.now.lists (part_at change.now k)) }
        ensures range { IfOk result IsPlanCost }
        ensures stays { self.new ≡ self.old }
    {
        // `difference` asked it before, `prepare` did not
        if self.rules.is_idle() {
            return Ok(0);
        }
        self.rules
            .cost_after(&self.cumuls, routes, change, k, &mut self.scratch)
    }

    // Writes the costs of the lists after a change, and makes none ready.
    fn write_next(&mut self, routes: &Routes, change: &Change) -> Result<(), NoMemory>
        requires change { IsValidChange (StandsPlans self.old) self.old.model routes.now change.now }
        ensures next { OnOk result (AreNextCosts self.new routes.now change.now) }
        ensures unprepared { self.new.is_prepared ≡ false }
        ensures like { ArePlansLike self.old self.new }
    {
        self.is_prepared = false;
        self.next.clear();
        for k in 0..change.parts() {
            let cost = self.cost_after(routes, change, k)?;
            self.next.push(cost);
        }
        Ok(())
    }

    // Makes the costs of the lists after a change ready.
    fn make_ready(&mut self, routes: &Routes, change: &Change) -> Result<(), NoMemory>
        requires change { IsValidChange (StandsPlans self.old) self.old.model routes.now change.now }
        ensures ready { OnOk result (ArePlansReady self.new routes.now change.now) }
        ensures unready { OnErr result (NothingReady (ArePlansReady self.new)) }
        ensures stands { StandsPlans self.new routes.now }
        ensures like { ArePlansLike self.old self.new }
    {
        self.write_next(routes, change)?;
        self.is_prepared = true;
        Ok(())
    }
}

impl<'m> CostPart for PlanCost<'m> {
    ghost use Rattle.std.specs.Prelude.{List};

    ghost model = { λ part. part.model };

    ghost value = { soft_and_span };

    ghost stands_at = { StandsPlans };

    ghost ready = { ArePlansReady };

    ghost range = { IsPlanChange };

    fn difference(&mut self, routes: &Routes, change: &Change) -> Result<i64, NoMemory> {
        if self.is_idle() {
            return Ok(0);
        }
        self.make_ready(routes, change)?;
        let mut total = 0;
        for k in 0..change.parts() {
            total += self.next[k] - self.costs[change.vehicle(k) as usize];
        }
        Ok(total)
    }

    fn prepare(&mut self, routes: &Routes, change: &Change) -> Result<(), NoMemory> {
        self.make_ready(routes, change)
    }

    fn commit(&mut self, routes: &Routes, change: &Change) {
        self.rules.commit(&mut self.cumuls, routes, change);
        for k in 0..change.parts() {
            self.costs[change.vehicle(k) as usize] = self.next[k];
        }
    }
}
