//! How far the chosen schedules of lists reach, from the least start to the greatest end, and what that costs.

ghost use Rattle.std.specs.Prelude.{◌≡◌, ◌<◌, ◌+◌, ◌*ℤ◌, ℕ, List, [], IsTrue, IfOk, IfSome, OnOk};
ghost use Rattle.std.specs.Prelude.{length, not, take};
ghost use Rattle.vr_model.specs.tables.Tables.{dimension_at};
ghost use Rattle.vr_model.specs.routes.Rules.{is_valid};
ghost use Rattle.vr_model.specs.declared.records.Model.{Model as Defined};
ghost use Rattle.vr_routes.specs.Pieces.{changed, joined, part_at};
ghost use Rattle.vr_plan.specs.Bounds.{cumul_cost, IsAround};
ghost use Rattle.vr_plan.specs.Extents.{length_of, IsExtentInRange};
ghost use Rattle.vr_plan.specs.Tables.{AreTables};
ghost use Rattle.vr_costfilter.specs.EarlyParts.{AreEarlyInRange, AreEarlyParts};
ghost use Rattle.vr_costfilter.specs.LookedUp.{IsLookedUp};
ghost use Rattle.vr_costfilter.specs.Known.{AreCumulsAt, IsValidChange};
ghost use Rattle.vr_costfilter.specs.Kept.{AreAllKept};
ghost use Rattle.vr_costfilter.specs.SortedEnds.{AreOrders};
ghost use Rattle.vr_costfilter.specs.GlobalCosts as reaches;
ghost use Rattle.vr_costfilter.specs.GlobalCosts.{extent_after, spans_cost_after, AreAllOrders, AreBlank, IsRow};
ghost use Rattle.vr_costfilter.specs.GlobalCosts.{AreNextRows, AreNextRowsIn, AreRanged, AreRangedIn, IsGlobalCost};
ghost use Rattle.vr_costfilter.specs.GlobalCosts.{is_some_spanned, IsTimedIfPaid, Pays};
ghost use Rattle.vr_costfilter.specs.Spreads.{global_least};
ghost use Rattle.vr_costfilter.specs.PartsAfter.{list_after, vehicle_after};

use crate::all_cumuls::{AllCumuls, Paid};
use crate::early_change::EarlyChange;
use crate::orders::{SortedEnds, beside};
use crate::parts_after::PartAfter;
use crate::scratch::Scratch;
use crate::spreads::least_of_global_spans;
use crate::tours::Tour;
use arrayvec::ArrayVec;
use std::alloc::Global;
use std::marker::Model;
use vr_earliest::Earlies;
use vr_model::{Closed, Model as RoutingModel, NoMemory};
use vr_plan::{Extent, Lookups, Table, Timer, Timing, global_cost, timing_of};
use vr_routes::{Change, Routes};

/// What the schedule of a list comes to in each dimension whose global span has a coefficient. There is none in the
/// others, and none of an empty list.
pub type ListTimings = [Option<Timing>; 4];

/// Asks about global spans, over what was looked up of a model. Contracts see the model.
#[derive(Drop)]
pub struct SpanRules<'m> {
    lookups: Lookups<'m>,
    // whether no global span has a coefficient
    idle: bool,
}

impl<'m> Model for SpanRules<'m> {
    ghost use Rattle.std.specs.Prelude.{◌≡◌, not};
    ghost use Rattle.vr_model.specs.declared.records.Model.{Model as Defined};
    ghost use Rattle.vr_costfilter.specs.GlobalCosts.{is_some_spanned};

    ghost Value = { Defined };

    ghost view = { λ rules. rules.lookups.closed.model.now };

    ghost invariant = { λ rules. rules.idle ≡ not (is_some_spanned rules.lookups.closed.model.now) };
}

impl<'m> SpanRules<'m> {
    /// The rules, over what was looked up of a model. `NoMemory` only if as many share it as can be counted.
    pub fn over(lookups: &Lookups<'m>) -> Result<SpanRules<'m>, NoMemory>
        ensures { IfOk result (λ rules. rules ≡ lookups.now.closed.model.now) }
    {
        Ok(SpanRules {
            lookups: lookups.share()?,
            idle: !is_some_spanned(lookups.closed.model),
        })
    }

    /// Whether no global span has a coefficient.
    pub fn is_idle(&self) -> bool
        ensures { result ≡ not (is_some_spanned self.now) }
    {
        self.idle
    }

    /// What is kept of the lists of routes:
    /// - the sorted ends of the used vehicles in each dimension whose global span has a coefficient;
    /// - scratch for those after a change;
    /// - in these dimensions the cumuls of the lists' schedules. If they tell a later change, no schedule is built for
    ///   it.
    pub fn kept(
        &self,
        alloc: Global,
        routes: &Routes,
        timer: &mut Timer,
    ) -> Result<(Vec<SortedEnds>, Vec<SortedEnds>, AllCumuls), NoMemory>
        requires { IsTrue (is_valid self.now routes.now.lists) }
        ensures orders { IfOk result (λ kept. AreAllOrders self.now routes.now.lists kept.0.items) }
        ensures room { IfOk result (λ kept. length kept.1.items ≡ length self.now.dimensions) }
        ensures cumuls { IfOk result (λ kept. AreAllKept self.now routes.now.lists kept.2) }
    {
        let orders = self.orders(alloc, routes, timer)?;
        let next_orders = self.no_orders(alloc)?;
        let cumuls = AllCumuls::open(
            alloc,
            self.lookups.closed,
            self.lookups.tables(),
            Paid::Together,
            routes,
        )?;
        Ok((orders, next_orders, cumuls))
    }

    // The sorted ends of no used vehicle, in each dimension.
    fn no_orders(&self, alloc: Global) -> Result<Vec<SortedEnds>, NoMemory>
        ensures { IfOk result (λ orders. AreBlank self.now orders.items) }
    {
        let mut orders = Vec::with_capacity(alloc, self.lookups.closed.model.dimensions.len())?;
        for _d in 0..self.lookups.closed.model.dimensions.len() {
            orders.push(SortedEnds::new())?;
        }
        Ok(orders)
    }

    // The sorted ends of the used vehicles of routes, in each dimension that pays.
    fn orders(
        &self,
        alloc: Global,
        routes: &Routes,
        timer: &mut Timer,
    ) -> Result<Vec<SortedEnds>, NoMemory>
        requires valid { IsTrue (is_valid self.now routes.now.lists) }
        ensures { IfOk result (λ orders. AreAllOrders self.now routes.now.lists orders.items) }
    {
        let closed = self.lookups.closed;
        let tables = self.lookups.tables();
        let mut orders = self.no_orders(alloc)?;
        for v in 0..routes.vehicles() {
            set_list(closed, tables, &mut orders, routes, v, timer)?;
        }
        Ok(orders)
    }

    /// The kept cumuls become those of the lists after a change; the sorted ends are the caller's to change.
    pub fn commit(&self, cumuls: &mut AllCumuls, routes: &Routes, change: &Change)
        requires { IsValidChange (AreCumulsAt self.now cumuls.old) self.now routes.now change.now }
        ensures { AreAllKept self.now (changed routes.now.lists change.now) cumuls.new }
    {
        cumuls.commit(self.lookups.closed, self.lookups.tables(), routes, change);
    }

    /// What the chosen schedules of the new list of part `k` of a change come to. The list is written out only if what
    /// is kept does not tell its schedule.
    pub fn row_after(
        &self,
        cumuls: &AllCumuls,
        routes: &Routes,
        change: &Change,
        k: usize,
        scratch: &mut Scratch,
    ) -> Result<ListTimings, NoMemory>
        requires change { IsValidChange (AreCumulsAt self.now cumuls.now) self.now routes.now change.now }
        requires part { k < length change.now }
        ensures { IfOk result (IsRow self.now (part_at change.now k).vehicle
            (joined routes.now.lists (part_at change.now k).pieces)) }
    {
        let part = PartAfter {
            model: self.lookups.closed.model,
            routes,
            change,
            k,
        };
        row_of_part(&part, self.lookups.tables(), cumuls, scratch)
    }

    /// What the global spans cost if these vehicles get the lists of which these rows tell. With no vehicles it is what
    /// they cost with the lists as they are.
    pub fn cost(&self, orders: &[SortedEnds], vehicles: &[u32], next: &[ListTimings]) -> i64
        requires ranged { AreRanged self.now orders.now next.now }
        ensures value { result ≡ spans_cost_after self.now orders.now vehicles.now next.now }
        ensures range { IsGlobalCost result }
    {
        cost_of_spans(self.lookups.closed, orders, vehicles, next)
    }

    /// Writes the sorted ends of the lists after a change, of any lists that have these sorted ends and rows. It takes
    /// no memory.
    pub fn write_orders(
        &self,
        orders: &[SortedEnds],
        change: &Change,
        next: &[ListTimings],
        out: &mut [SortedEnds],
    )
        requires rows { (lists : List (List ℕ)) × AreNextRows self.now lists change.now orders.now next.now }
        requires room { length out.old ≡ length self.now.dimensions }
        ensures { (lists : List (List ℕ)) → AreNextRows self.now lists change.now orders.now next.now
            → AreAllOrders self.now (changed lists change.now) out.new }
    {
        write_all(self.lookups.closed, orders, change, next, out);
    }

    /// What the global spans cost at least after a change, of any lists that have these sorted ends and of which
    /// `earlies` tells. No schedule is built.
    pub fn least(&self, earlies: &Earlies, orders: &[SortedEnds], change: &Change) -> i64
        requires earlies { AreEarlyInRange self.now change.now earlies.now }
        requires orders { AreRanged self.now orders.now [] }
        ensures value { (lists : List (List ℕ)) → AreEarlyParts self.now lists change.now earlies.now
            → AreAllOrders self.now lists orders.now → result ≡ global_least self.now lists change.now }
        ensures range { IsGlobalCost result }
    {
        let early = EarlyChange {
            model: self.lookups.closed.model,
            change,
            earlies,
        };
        least_of_global_spans(&early, orders)
    }
}

/// The vehicles to which a change gives lists.
pub fn vehicles_of(change: &Change) -> ArrayVec<u32, 2>
    ensures { result.items ≡ reaches.vehicles_of change.now }
{
    let mut vehicles = ArrayVec::new();
    for k in 0..change.parts() {
        vehicles.push(change.vehicle(k));
    }
    vehicles
}

// Whether some global span of a model has a coefficient.
fn is_some_spanned(model: &RoutingModel) -> bool
    ensures { result ≡ is_some_spanned model.now }
{
    model
        .dimensions
        .as_slice()
        .iter()
        .any(|dimension| dimension.global_span_cost != 0)
}

// What the chosen schedules of a list come to. It is asked at opening alone, when nothing is kept yet.
fn row_of_list(tour: &Tour, tables: &[Table], timer: &mut Timer) -> Result<ListTimings, NoMemory>
    requires tables { AreTables tour.now.closed.model.now tables.now }
    ensures { IfOk result (IsRow tour.now.closed.model.now tour.now.v tour.now.list.now) }
{
    let mut row: ListTimings = [None; 4];
    for d in 0..tables.len() {
        row[d] = timing_of_tour(tour, &tables[d], d as u32, timer)?;
    }
    Ok(row)
}

// What the chosen schedule of a list comes to in one dimension. There is none of an empty list, and none if nothing is
// paid for the global span.
fn timing_of_tour(
    tour: &Tour,
    table: &Table,
    d: u32,
    timer: &mut Timer,
) -> Result<Option<Timing>, NoMemory>
    requires known { IsLookedUp tour.now.closed.model.now d table.now }
    ensures { IfOk result (IsTimedIfPaid tour.now.closed.model.now d tour.now.v tour.now.list.now) }
{
    if tour.list.is_empty() {
        return Ok(None);
    }
    let model = tour.closed.model;
    if model.dimensions.get(d as usize).global_span_cost == 0 {
        return Ok(None);
    }
    let timing = timing_of(model, table, d, tour.v, tour.list, timer)?;
    Ok(Some(timing))
}

// What the chosen schedules of the new list of a part of a change come to.
fn row_of_part(
    part: &PartAfter,
    tables: &[Table],
    cumuls: &AllCumuls,
    scratch: &mut Scratch,
) -> Result<ListTimings, NoMemory>
    requires tables { AreTables part.now.model.now tables.now }
    requires kept { AreAllKept part.now.model.now part.now.routes.now.lists cumuls.now }
    ensures { IfOk result (IsRow part.now.model.now (vehicle_after part.now) (list_after part.now)) }
{
    let mut timings: ListTimings = [None; 4];
    for d in 0..tables.len() {
        timings[d] = kept_after(part, &tables[d], d as u32, cumuls, scratch)?;
    }
    Ok(timings)
}

// The same in one dimension, by what is kept if it tells. There is none of an empty list, and none if nothing is paid
// for the global span.
fn kept_after(
    part: &PartAfter,
    table: &Table,
    d: u32,
    cumuls: &AllCumuls,
    scratch: &mut Scratch,
) -> Result<Option<Timing>, NoMemory>
    requires known { IsLookedUp part.now.model.now d table.now }
    requires kept { AreAllKept part.now.model.now part.now.routes.now.lists cumuls.now }
    ensures { IfOk result (IsTimedIfPaid part.now.model.now d (vehicle_after part.now) (list_after part.now)) }
{
    if part.model.dimensions.get(d as usize).global_span_cost == 0 {
        return Ok(None);
    }
    if part.is_empty() {
        return Ok(None);
    }
    let told = cumuls.timing_after(part, table, d, &mut scratch.trail);
    if let Some(timing) = told {
        return Ok(Some(timing));
    }
    part.write(&mut scratch.row);
    let closed = Closed { model: part.model };
    let tour = Tour {
        closed,
        v: part.vehicle(),
        list: scratch.row.as_slice(),
    };
    timing_of_tour(&tour, table, d, &mut scratch.timer)
}

// What the global spans cost in all dimensions.
fn cost_of_spans(
    closed: Closed<'_>,
    orders: &[SortedEnds],
    vehicles: &[u32],
    next: &[ListTimings],
) -> i64
    requires ranged { AreRanged closed.model.now orders.now next.now }
    ensures value { result ≡ spans_cost_after closed.entry.model.now orders.now vehicles.now next.now }
    ensures range { IsGlobalCost result }
{
    let mut cost = 0;
    for d in 0..orders.len() {
        cost += cost_of_span(closed, &orders[d], vehicles, next, d as u32);
    }
    cost
}

// What the global span costs in dimension `d`.
fn cost_of_span(
    closed: Closed<'_>,
    orders: &SortedEnds,
    vehicles: &[u32],
    next: &[ListTimings],
    d: u32,
) -> i64
    requires dimension { d < length closed.model.now.dimensions }
    requires ranged { Pays closed.model.now d → AreRangedIn d orders.now next.now }
    ensures value { result ≡ ((dimension_at closed.entry.model.now d).global_span_cost
        *ℤ length_of (extent_after d vehicles.now next.now orders.now)) }
    ensures range { IsAround cumul_cost result }
{
    let dimension = closed.model.dimensions.get(d as usize);
    if dimension.global_span_cost == 0 {
        return 0;
    }
    global_cost(dimension, reach(orders, vehicles, next, d))
}

// The extent of all lists in dimension `d`, if these vehicles get the lists of which these rows tell. `None` if no
// vehicle is used then.
fn reach(orders: &SortedEnds, vehicles: &[u32], next: &[ListTimings], d: u32) -> Option<Extent>
    requires { AreRangedIn d orders.now next.now }
    ensures value { result ≡ extent_after d vehicles.now next.now orders.now }
    ensures range { IfSome result IsExtentInRange }
{
    let mut extent = orders.extent_but(vehicles);
    for k in 0..next.len() {
        extent = beside(extent, next[k][d as usize]);
    }
    extent
}

// Sorts vehicle `v` in, by what the chosen schedules of its list come to, in the dimensions that pay. The vehicles
// before it are in already.
fn set_list(
    closed: Closed<'_>,
    tables: &[Table],
    orders: &mut [SortedEnds],
    routes: &Routes,
    v: u32,
    timer: &mut Timer,
) -> Result<(), NoMemory>
    requires tables { AreTables closed.model.now tables.now }
    requires valid { IsTrue (is_valid closed.model.now routes.now.lists) }
    requires vehicle { v < length routes.now.lists }
    requires before { AreAllOrders closed.model.now (take v routes.now.lists) orders.old }
    ensures { OnOk result (AreAllOrders closed.entry.model.now (take (v + 1) routes.now.lists) orders.new) }
{
    let tour = Tour {
        closed,
        v,
        list: routes.list(v),
    };
    let row = row_of_list(&tour, tables, timer)?;
    for d in 0..orders.len() {
        if closed.model.dimensions.get(d).global_span_cost != 0 {
            orders[d].set(v, row[d]);
        }
    }
    Ok(())
}

// Writes the sorted ends of the lists after a change in the dimensions that pay, of any lists that have these sorted
// ends and rows.
fn write_all(
    closed: Closed<'_>,
    orders: &[SortedEnds],
    change: &Change,
    next: &[ListTimings],
    out: &mut [SortedEnds],
)
    requires rows { (lists : List (List ℕ)) × AreNextRows closed.model.now lists change.now orders.now next.now }
    requires room { length out.old ≡ length closed.model.now.dimensions }
    ensures { (lists : List (List ℕ)) → AreNextRows closed.entry.model.now lists change.now orders.now next.now
        → AreAllOrders closed.entry.model.now (changed lists change.now) out.new }
{
    for d in 0..orders.len() {
        if closed.model.dimensions.get(d).global_span_cost != 0 {
            write_in(&orders[d], change, next, d as u32, &mut out[d]);
        }
    }
}

// The same in one dimension, of any model and lists that have these sorted ends and rows.
fn write_in(
    orders: &SortedEnds,
    change: &Change,
    next: &[ListTimings],
    d: u32,
    out: &mut SortedEnds,
)
    requires { (model : Defined) × (lists : List (List ℕ))
        × AreNextRowsIn model d lists change.now orders.now next.now }
    ensures { (model : Defined) (lists : List (List ℕ))
        → AreNextRowsIn model d lists change.now orders.now next.now
        → AreOrders model d (changed lists change.now) out.new }
{
    out.copy_from(orders);
    for k in 0..change.parts() {
        out.set(change.vehicle(k), next[k][d as usize]);
    }
}
