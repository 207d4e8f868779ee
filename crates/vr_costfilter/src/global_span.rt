//! What global spans cost, and what a change adds to it.

ghost use Rattle.std.specs.Prelude.{◌≡◌, ◌-ℤ◌, ◌≤ℤ◌, ◌<◌, ◌*◌, ℕ, List, false, not, IsTrue};
ghost use Rattle.std.specs.Prelude.{IfOk, OnOk, OnErr, length};
ghost use Rattle.vr_model.specs.tables.Tables.{visits};
ghost use Rattle.vr_model.specs.tables.WellFormed.{IsWellFormed};
ghost use Rattle.vr_model.specs.routes.Rules.{is_valid};
ghost use Rattle.vr_routes.specs.Pieces.{changed, joined, part_at};
ghost use Rattle.vr_routes.specs.Changes.{NothingReady};
ghost use Rattle.vr_routes.specs.Tours.{Tours};
ghost use Rattle.vr_plan.specs.Bounds.{cumul_cost, IsAround};
ghost use Rattle.vr_costfilter.specs.GlobalCosts.{global_cost_of, is_some_spanned, IsRow, AreLike, AreNextRows};
ghost use Rattle.vr_costfilter.specs.GlobalCosts.{AreRanged, AreRowsAfter};
ghost use Rattle.vr_costfilter.specs.Known.{IsValidChange};
ghost use Rattle.vr_costfilter.specs.GlobalCosts.{AreSpansReady, AreSpansKnown, IsGlobalCost, StandsSpans};
ghost use Rattle.vr_parts.specs.Parts.{CostAlike};
ghost use Rattle.vr_costfilter.specs.Spreads.{global_least};

use crate::all_cumuls::AllCumuls;
use crate::orders::SortedEnds;
use crate::reaches::{ListTimings, SpanRules, vehicles_of};
use crate::scratch::Scratch;
use arrayvec::ArrayVec;
use std::alloc::Global;
use std::marker::Model;
use std::mem;
use vr_earliest::Earlies;
use vr_model::{Closed, Model as RoutingModel, NoMemory};
use vr_parts::CostPart;
use vr_plan::Lookups;
use vr_routes::{Change, Routes};

/// What global spans cost (`SetGlobalSpanCostCoefficient` in OR-Tools), in the dimensions whose global span has a
/// coefficient.
///
/// A change is priced by the floors and cumuls that are kept of the committed lists. It is walked along what it puts
/// in, before that until a floor is as it was, and after it until a cumul is. Tight vehicles go as `PlanCost` says. The
/// schedules of the changed lists are built only if what is kept does not tell them.
///
/// The used vehicles are sorted by starts and by ends. The first entries have the least start and the greatest end of
/// the other lists.
#[derive(Drop)]
pub struct GlobalSpan<'m> {
    rules: SpanRules<'m>,
    // the used vehicles by starts and by ends, in each dimension that pays; none in the others
    orders: Vec<SortedEnds>,
    // what the global spans cost
    cost: i64,
    // of a change that is ready: what its lists come to, the sorted ends after it, and what the global spans cost then.
    // A difference writes over the first of these, unless nothing may cost anything. It makes none ready: sorting is
    // for changes that are made.
    next: ArrayVec<ListTimings, 2>,
    next_orders: Vec<SortedEnds>,
    next_cost: i64,
    // whether a change was made ready: contracts alone read it
    is_prepared: bool,
    // the cumuls of the committed lists
    cumuls: AllCumuls,
    // scratch for a list that a change makes
    scratch: Scratch,
}

impl<'m> Model for GlobalSpan<'m> {
    ghost use Rattle.vr_costfilter.specs.GlobalCosts.{KeptSpans};

    ghost Value = { KeptSpans };

    ghost view = { λ part. record {
      model = part.rules;
      orders = part.orders.items;
      cost = part.cost;
      next = part.next.items;
      next_orders = part.next_orders.items;
      next_cost = part.next_cost;
      is_prepared = part.is_prepared;
      cumuls = part.cumuls;
    } };
}

impl<'m> GlobalSpan<'m> {
    /// What the global spans cost with the lists of routes. The only error is out of memory, as of each other call.
    /// Tests alone call it: `vr_judge` shares what it looked up (`over`).
    pub fn open(
        alloc: Global,
        model: &'m RoutingModel,
        routes: &Routes,
    ) -> Result<GlobalSpan<'m>, NoMemory>
        requires well_formed { IsWellFormed model.now }
        requires of_model { routes.now.visits ≡ visits model.now }
        requires valid { IsTrue (is_valid model.now routes.now.lists) }
        ensures model { IfOk result (λ part. part.model ≡ model.now) }
        ensures stands { IfOk result (λ part. StandsSpans part routes.now) }
    {
        let lookups = Lookups::open(alloc, Closed { model })?;
        GlobalSpan::over(alloc, &lookups, routes)
    }

    /// The same, over what was looked up of the model.
    pub fn over(
        alloc: Global,
        lookups: &Lookups<'m>,
        routes: &Routes,
    ) -> Result<GlobalSpan<'m>, NoMemory>
        requires of_model { routes.now.visits ≡ visits lookups.now.closed.model.now }
        requires valid { IsTrue (is_valid lookups.now.closed.model.now routes.now.lists) }
        ensures model { IfOk result (λ part. part.model ≡ lookups.now.closed.model.now) }
        ensures stands { IfOk result (λ part. StandsSpans part routes.now) }
    {
        let rules = SpanRules::over(lookups)?;
        let mut scratch = Scratch::new(alloc);
        let (orders, next_orders, cumuls) = rules.kept(alloc, routes, &mut scratch.timer)?;
        let cost = rules.cost(&orders, &[], &[]);
        Ok(GlobalSpan {
            rules,
            orders,
            cost,
            next: ArrayVec::new(),
            next_orders,
            next_cost: 0,
            is_prepared: false,
            cumuls,
            scratch,
        })
    }

    /// Whether no global span has a coefficient: all lists cost the same then.
    pub fn is_idle(&self) -> bool
        ensures idle { result ≡ not (is_some_spanned self.now.model) }
        ensures alike { IsTrue result → CostAlike global_cost_of self.now.model }
    {
        self.rules.is_idle()
    }

    /// What a change adds at least, if the lists after it are valid. It is what the global spans cost at least with its
    /// lists and those that stay, less what they cost now. No schedule is built: the caller hands in what the chosen
    /// schedules of the changed lists come to at least. The change must have been made on routes with which this is in
    /// sync; they themselves are not needed.
    pub fn least(&self, earlies: &Earlies, change: &Change) -> i64
        requires { (tours : Tours) × AreSpansKnown self.now earlies.now change.now tours }
        ensures value { (tours : Tours) → AreSpansKnown self.now earlies.now change.now tours
            → result ≡ global_least self.now.model tours.lists change.now
            -ℤ global_cost_of self.now.model tours.lists }
        ensures least { (tours : Tours) → AreSpansKnown self.now earlies.now change.now tours
            → IsTrue (is_valid self.now.model (changed tours.lists change.now))
            → result ≤ℤ (global_cost_of self.now.model (changed tours.lists change.now)
            -ℤ global_cost_of self.now.model tours.lists) }
        ensures range { IsAround (cumul_cost * 8) result }
    {
        if self.is_idle() {
            return 0;
        }
        self.rules.least(earlies, &self.orders, change) - self.cost
    }

    // What the chosen schedules of the new list of part `k` of a change come to.
    fn row_after(
        &mut self,
        routes: &Routes,
        change: &Change,
        k: usize,
    ) -> Result<ListTimings, NoMemory>
        requires change { IsValidChange (StandsSpans self.old) self.old.model routes.now change.now }
        requires part { k < length change.now }
        ensures kept { IfOk result (IsRow self.old.model (part_at change.now k).vehicle
            (joined routes.now.lists (part_at change.now k).pieces)) }
        ensures stays { self.new ≡ self.old }
    {
        // `difference` asked it before, `prepare` did not
        if self.rules.is_idle() {
            return Ok([None; 4]);
        }
        self.rules
            .row_after(&self.cumuls, routes, change, k, &mut self.scratch)
    }

    // Writes the rows of the lists after a change, and makes none ready.
    fn write_next(&mut self, routes: &Routes, change: &Change) -> Result<(), NoMemory>
        requires change { IsValidChange (StandsSpans self.old) self.old.model routes.now change.now }
        ensures next { OnOk result (AreRowsAfter self.new.model routes.now.lists change.now (length change.now)
            self.new.next) }
        ensures unprepared { self.new.is_prepared ≡ false }
        ensures like { AreLike self.old self.new }
    {
        self.is_prepared = false;
        self.next.clear();
        for k in 0..change.parts() {
            let row = self.row_after(routes, change, k)?;
            self.next.push(row);
        }
        Ok(())
    }

    // What the global spans cost after a change whose rows are written, of any lists that have them.
    fn cost_after(&self, change: &Change) -> i64
        requires { AreRanged self.now.model self.now.orders self.now.next }
        ensures value { (lists : List (List ℕ))
            → AreNextRows self.now.model lists change.now self.now.orders self.now.next
            → result ≡ global_cost_of self.now.model (changed lists change.now) }
        ensures range { IsGlobalCost result }
    {
        let vehicles = vehicles_of(change);
        self.rules.cost(&self.orders, &vehicles, &self.next)
    }

    // Makes what is kept of the lists after a change ready.
    fn make_ready(&mut self, routes: &Routes, change: &Change) -> Result<(), NoMemory>
        requires change { IsValidChange (StandsSpans self.old) self.old.model routes.now change.now }
        ensures ready { OnOk result (AreSpansReady self.new routes.now change.now) }
        ensures unready { OnErr result (NothingReady (AreSpansReady self.new)) }
        ensures like { AreLike self.old self.new }
    {
        self.write_next(routes, change)?;
        self.next_cost = self.cost_after(change);
        self.rules
            .write_orders(&self.orders, change, &self.next, &mut self.next_orders);
        self.is_prepared = true;
        Ok(())
    }
}

impl<'m> CostPart for GlobalSpan<'m> {
    ghost use Rattle.std.specs.Prelude.{List};

    ghost model = { λ part. part.model };

    ghost value = { global_cost_of };

    ghost stands_at = { StandsSpans };

    ghost ready = { AreSpansReady };

    ghost range = { IsAround (cumul_cost * 8) };

    fn difference(&mut self, routes: &Routes, change: &Change) -> Result<i64, NoMemory> {
        if self.is_idle() {
            return Ok(0);
        }
        self.write_next(routes, change)?;
        Ok(self.cost_after(change) - self.cost)
    }

    fn prepare(&mut self, routes: &Routes, change: &Change) -> Result<(), NoMemory> {
        self.make_ready(routes, change)
    }

    fn commit(&mut self, routes: &Routes, change: &Change) {
        self.rules.commit(&mut self.cumuls, routes, change);
        // those before the change are room for the next one
        mem::swap(&mut self.orders, &mut self.next_orders);
        self.cost = self.next_cost;
    }
}
