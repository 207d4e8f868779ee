//! What a list costs by soft upper bounds and spans, at its chosen schedules.

ghost use Rattle.std.specs.Prelude.{◌≡◌, ◌<◌, ◌*◌, ◌+ℤ◌, ◌-ℤ◌, ◌*ℤ◌, ℕ, List, IsTrue, IfOk, length};
ghost use Rattle.std.specs.List.{list_all};
ghost use Rattle.vr_model.specs.tables.Numbers.{below, number_at, total_by};
ghost use Rattle.vr_model.specs.tables.Tables.{dimension_at, is_visit};
ghost use Rattle.vr_model.specs.declared.records.Model.{Model as Defined};
ghost use Rattle.vr_model.specs.routes.Routes.{is_distinct, is_empty};
ghost use Rattle.vr_model.specs.routes.Rules.{is_valid};
ghost use Rattle.vr_plan.specs.Tables.{AreTables};
ghost use Rattle.vr_plan.specs.Timings.{soft_with, span_with, IsTimingOf};
ghost use Rattle.vr_plan.specs.Bounds.{cumul_cost, IsAround};
ghost use Rattle.vr_routes.specs.Changes.{AreParts, IsMadeOn};
ghost use Rattle.vr_routes.specs.Pieces.{changed, joined, part_at};
ghost use Rattle.vr_costfilter.specs.Kept.{AreAllKept};
ghost use Rattle.vr_costfilter.specs.EarlyParts.{AreEarlyInRange, AreEarlyParts};
ghost use Rattle.vr_costfilter.specs.EarlyChanges.{IsEarlyOf};
ghost use Rattle.vr_costfilter.specs.LookedUp.{IsLookedUp};
ghost use Rattle.vr_costfilter.specs.Known.{AreCumulsAt, IsUsedPart, IsValidChange};
ghost use Rattle.vr_earliest.specs.Ways.{least_span};
ghost use Rattle.vr_costfilter.specs.PlanCosts.{cost_after, pays_no_plan, plans_cost, spans_least, AreCosts};
ghost use Rattle.vr_costfilter.specs.PlanCosts.{IsPlanCost, IsPlanCostIn};
ghost use Rattle.vr_costfilter.specs.PartsAfter.{list_after, vehicle_after};

use crate::all_cumuls::{AllCumuls, Paid};
use crate::early_change::EarlyChange;
use crate::parts_after::PartAfter;
use crate::scratch::Scratch;
use crate::tours::Tour;
use std::alloc::Global;
use std::marker::Model;
use vr_earliest::Earlies;
use vr_model::{Closed, NoMemory};
use vr_plan::{Lookups, Table, Timer, Timing, may_pay_alone, span_cost, times, timing_of};
use vr_routes::{Change, Piece, Routes};

/// Tells what soft bounds and spans cost each list, over what was looked up of a model. Contracts see the model.
#[derive(Drop)]
pub struct PlanRules<'m> {
    lookups: Lookups<'m>,
    // whether no list costs anything so: no span has a coefficient, and no stop a soft upper bound
    idle: bool,
}

impl<'m> Model for PlanRules<'m> {
    ghost use Rattle.std.specs.Prelude.{◌≡◌};
    ghost use Rattle.vr_model.specs.declared.records.Model.{Model as Defined};
    ghost use Rattle.vr_costfilter.specs.PlanCosts.{pays_no_plan};

    ghost Value = { Defined };

    ghost view = { λ rules. rules.lookups.closed.model.now };

    ghost invariant = { λ rules. rules.idle ≡ pays_no_plan rules.lookups.closed.model.now };
}

impl<'m> PlanRules<'m> {
    /// The rules, over what was looked up of a model. `NoMemory` only if as many share it as can be counted.
    pub fn over(lookups: &Lookups<'m>) -> Result<PlanRules<'m>, NoMemory>
        ensures { IfOk result (λ rules. rules ≡ lookups.now.closed.model.now) }
    {
        let idle = pays_no_plan(lookups.tables());
        Ok(PlanRules {
            lookups: lookups.share()?,
            idle,
        })
    }

    /// Whether in no dimension a span has a coefficient or a stop a soft upper bound.
    pub fn is_idle(&self) -> bool
        ensures { result ≡ pays_no_plan self.now }
    {
        self.idle
    }

    /// What is kept of the lists of routes: what each costs, and the cumuls of its schedules, if these tell a change
    /// (`KeptList`). Of a vehicle with breaks there are none.
    pub fn kept(
        &self,
        alloc: Global,
        routes: &Routes,
        timer: &mut Timer,
    ) -> Result<(Vec<i64>, AllCumuls), NoMemory>
        requires { IsTrue (is_valid self.now routes.now.lists) }
        ensures costs { IfOk result (λ kept.
            AreCosts self.now routes.now.lists (length routes.now.lists) kept.0.items) }
        ensures cumuls { IfOk result (λ kept. AreAllKept self.now routes.now.lists kept.1) }
    {
        let costs = self.costs(alloc, routes, timer)?;
        let cumuls = AllCumuls::open(
            alloc,
            self.lookups.closed,
            self.lookups.tables(),
            Paid::Alone,
            routes,
        )?;
        Ok((costs, cumuls))
    }

    // What each list costs by the soft upper bounds of its stops and by its spans, in all dimensions.
    fn costs(&self, alloc: Global, routes: &Routes, timer: &mut Timer) -> Result<Vec<i64>, NoMemory>
        requires { IsTrue (is_valid self.now routes.now.lists) }
        ensures { IfOk result (λ costs.
            AreCosts self.now routes.now.lists (length routes.now.lists) costs.items) }
    {
        let closed = self.lookups.closed;
        let tables = self.lookups.tables();
        let mut costs = Vec::new(alloc);
        for v in 0..routes.vehicles() {
            let tour = Tour {
                closed,
                v,
                list: routes.list(v),
            };
            let cost = cost_of_plans(&tour, tables, timer)?;
            costs.push(cost)?;
        }
        Ok(costs)
    }

    /// The kept cumuls become those of the lists after a change; the costs are the caller's to change.
    pub fn commit(&self, cumuls: &mut AllCumuls, routes: &Routes, change: &Change)
        requires { IsValidChange (AreCumulsAt self.now cumuls.old) self.now routes.now change.now }
        ensures { AreAllKept self.now (changed routes.now.lists change.now) cumuls.new }
    {
        cumuls.commit(self.lookups.closed, self.lookups.tables(), routes, change);
    }

    /// What the new list of part `k` of a change costs, by soft bounds and spans in all dimensions. The list is written
    /// out only if what is kept does not tell its schedule.
    pub fn cost_after(
        &self,
        cumuls: &AllCumuls,
        routes: &Routes,
        change: &Change,
        k: usize,
        scratch: &mut Scratch,
    ) -> Result<i64, NoMemory>
        requires change { IsValidChange (AreCumulsAt self.now cumuls.now) self.now routes.now change.now }
        requires part { k < length change.now }
        ensures value { IfOk result (λ cost. cost ≡ cost_after self.now routes.now.lists (part_at change.now k)) }
        ensures range { IfOk result IsPlanCost }
    {
        let part = PartAfter {
            model: self.lookups.closed.model,
            routes,
            change,
            k,
        };
        if part.is_empty() {
            return Ok(0);
        }
        cost_of_part(&part, self.lookups.tables(), cumuls, scratch)
    }

    /// What the spans of the new list of part `k` of a change cost at least, of any lists of which `earlies` tells. No
    /// schedule is built.
    pub fn least(&self, earlies: &Earlies, change: &Change, k: usize) -> i64
        requires earlies { AreEarlyInRange self.now change.now earlies.now }
        requires part { k < length change.now }
        ensures value { (lists : List (List ℕ)) → AreEarlyParts self.now lists change.now earlies.now
            → result ≡ spans_least self.now (part_at change.now k).vehicle
            (joined lists (part_at change.now k).pieces) }
        ensures range { IsAround (cumul_cost * 4) result }
    {
        if Piece::nodes_in(change.pieces(k)) == 0 {
            return 0;
        }
        let early = EarlyChange {
            model: self.lookups.closed.model,
            change,
            earlies,
        };
        least_of_spans(&early, k)
    }
}

// What the list of a vehicle costs by the soft upper bounds of its stops and by its spans, in all dimensions. It is
// asked at opening alone, when nothing is kept yet.
fn cost_of_plans(tour: &Tour, tables: &[Table], timer: &mut Timer) -> Result<i64, NoMemory>
    requires tables { AreTables tour.now.closed.model.now tables.now }
    ensures value { IfOk result (λ cost. cost
        ≡ plans_cost tour.now.closed.model.now tour.now.v tour.now.list.now) }
    ensures range { IfOk result IsPlanCost }
{
    if tour.list.is_empty() {
        return Ok(0);
    }
    let mut cost = 0;
    for d in 0..tables.len() {
        cost += cost_of_plan(tour, &tables[d], d as u32, timer)?;
    }
    Ok(cost)
}

// What the new list of a part of a change costs, if it has nodes.
fn cost_of_part(
    part: &PartAfter,
    tables: &[Table],
    cumuls: &AllCumuls,
    scratch: &mut Scratch,
) -> Result<i64, NoMemory>
    requires tables { AreTables part.now.model.now tables.now }
    requires used { IsUsedPart part.now cumuls.now }
    ensures value { IfOk result (λ cost. cost
        ≡ cost_after part.now.model.now part.now.routes.now.lists (part_at part.now.change.now part.now.k)) }
    ensures range { IfOk result IsPlanCost }
{
    let mut cost = 0;
    for d in 0..tables.len() {
        cost += cost_of_plan_after(part, &tables[d], d as u32, cumuls, scratch)?;
    }
    Ok(cost)
}

// The same in one dimension.
fn cost_of_plan_after(
    part: &PartAfter,
    table: &Table,
    d: u32,
    cumuls: &AllCumuls,
    scratch: &mut Scratch,
) -> Result<i64, NoMemory>
    requires known { IsLookedUp part.now.model.now d table.now }
    requires used { IsUsedPart part.now cumuls.now }
    ensures value { IfOk result (λ cost. cost
        ≡ soft_with part.now.model.now d (vehicle_after part.now) (list_after part.now)
        +ℤ span_with part.now.model.now d (vehicle_after part.now) (list_after part.now)) }
    ensures range { IfOk result IsPlanCostIn }
{
    if table.is_free {
        return Ok(0);
    }
    let closed = Closed { model: part.model };
    let v = part.vehicle();
    let told = cumuls.timing_after(part, table, d, &mut scratch.trail);
    if let Some(timing) = told {
        return Ok(cost_of_timing(closed, d, v, timing));
    }
    part.write(&mut scratch.row);
    let tour = Tour {
        closed,
        v,
        list: scratch.row.as_slice(),
    };
    cost_of_plan(&tour, table, d, &mut scratch.timer)
}

// What the spans of a list that has nodes cost at least.
fn least_of_spans(early: &EarlyChange, k: usize) -> i64
    requires { k < length early.now.change.now }
    ensures value { (lists : List (List ℕ)) → IsEarlyOf early.now lists
        → result ≡ total_by (λ d. number_at (dimension_at early.now.model.now d).span_costs
        (part_at early.now.change.now k).vehicle *ℤ least_span early.now.model.now d
        (part_at early.now.change.now k).vehicle (joined lists (part_at early.now.change.now k).pieces))
        (below (length early.now.model.now.dimensions)) }
    ensures range { IsAround (cumul_cost * 4) result }
{
    let mut cost = 0;
    for d in 0..early.model.dimensions.len() {
        cost += least_of_span(early, k, d as u32);
    }
    cost
}

// The same in one dimension.
fn least_of_span(early: &EarlyChange, k: usize, d: u32) -> i64
    requires part { k < length early.now.change.now }
    requires dimension { d < length early.now.model.now.dimensions }
    ensures value { (lists : List (List ℕ)) → IsEarlyOf early.now lists
        → result ≡ (number_at (dimension_at early.now.model.now d).span_costs (part_at early.now.change.now k).vehicle
        *ℤ least_span early.now.model.now d (part_at early.now.change.now k).vehicle
        (joined lists (part_at early.now.change.now k).pieces)) }
    ensures range { IsAround cumul_cost result }
{
    let v = early.vehicle(k);
    let coefficient = *early
        .model
        .dimensions
        .get(d as usize)
        .span_costs
        .get(v as usize);
    if coefficient == 0 {
        return 0;
    }
    times(coefficient, early.earlies.at(d, k).span)
}

// What the list of a vehicle costs by soft upper bounds and by its span in one dimension. A schedule is built, unless
// it cannot cost anything there.
fn cost_of_plan(tour: &Tour, table: &Table, d: u32, timer: &mut Timer) -> Result<i64, NoMemory>
    requires known { IsLookedUp tour.now.closed.model.now d table.now }
    requires some { 0 < length tour.now.list.now }
    ensures value { IfOk result (λ cost. cost
        ≡ soft_with tour.now.closed.model.now d tour.now.v tour.now.list.now
        +ℤ span_with tour.now.closed.model.now d tour.now.v tour.now.list.now) }
    ensures range { IfOk result IsPlanCostIn }
{
    let model = tour.closed.model;
    if !may_pay_alone(model, table, d, tour.v, tour.list) {
        return Ok(0);
    }
    let timing = timing_of(model, table, d, tour.v, tour.list, timer)?;
    Ok(cost_of_timing(tour.closed, d, tour.v, timing))
}

// What a schedule of a list of vehicle `v` costs by soft upper bounds and by its span.
fn cost_of_timing(closed: Closed<'_>, d: u32, v: u32, timing: Timing) -> i64
    requires dimension { d < length closed.model.now.dimensions }
    requires vehicle { v < length closed.model.now.vehicles }
    requires timing { IsTimingOf 1002 timing }
    ensures value { result
        ≡ timing.soft +ℤ (number_at (dimension_at closed.entry.model.now d).span_costs v *ℤ
        (timing.last -ℤ timing.start)) }
    ensures range { IsPlanCostIn result }
{
    let dimension = closed.model.dimensions.get(d as usize);
    timing.soft + span_cost(dimension, v, timing)
}

// Whether each table says that no schedule may cost anything by itself in its dimension (the global span is not asked).
fn are_free(tables: &[Table]) -> bool
    ensures { result ≡ list_all (λ table. table.is_free) tables.now }
{
    tables.iter().all(|table| table.is_free)
}

// Whether in no dimension a span has a coefficient or a stop a soft upper bound.
fn pays_no_plan(tables: &[Table]) -> bool
    ensures { (model : Defined) → AreTables model tables.now → result ≡ pays_no_plan model }
{
    are_free(tables)
}
