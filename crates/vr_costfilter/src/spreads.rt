//! What global spans cost at least after a change, without a schedule of the changed lists. The answers hold of any
//! lists that have the sorted ends at hand and of which the rows of earliest ends tell.

ghost use Rattle.std.specs.Prelude.{◌≡◌, ◌<◌, ℕ, List, [], length};
ghost use Rattle.vr_plan.specs.Bounds.{cumul_cost, IsAround};
ghost use Rattle.vr_routes.specs.Pieces.{part_at};
ghost use Rattle.vr_costfilter.specs.SortedEnds.{extent_but, AreInRange, AreOrders};
ghost use Rattle.vr_costfilter.specs.EarlyChanges.{IsEarlyOf};
ghost use Rattle.vr_costfilter.specs.GlobalCosts.{AreAllOrders, AreRanged, IsGlobalCost, Pays};
ghost use Rattle.vr_costfilter.specs.Spreads as spreads;
ghost use Rattle.vr_costfilter.specs.Spreads.{global_least, global_least_in, spread_of, IsSpreadInRange};

use crate::early_change::{EarlyChange, EarlyIn};
use crate::orders::SortedEnds;
use crate::reaches::vehicles_of;
use vr_model::limits::HORIZON;
use vr_plan::times;
use vr_routes::Piece;

/// How far lists reach at least in one dimension.
#[derive(Clone, Copy)]
pub struct Spread {
    /// One of them ends no earlier, in `0..=2^36`.
    pub last: i64,
    /// The least start of those that stay, since of changed lists none is known; in `0..=2^36`.
    pub start: i64,
    /// One of the changed lists has no lesser span, in `-2^36..=2^36`.
    pub span: i64,
}

/// What the global spans cost at least after a change.
pub fn least_of_global_spans(early: &EarlyChange, orders: &[SortedEnds]) -> i64
    requires { AreRanged early.now.model.now orders.now [] }
    ensures value { (lists : List (List ℕ)) → IsEarlyOf early.now lists
        → AreAllOrders early.now.model.now lists orders.now
        → result ≡ global_least early.now.model.now lists early.now.change.now }
    ensures range { IsGlobalCost result }
{
    let mut cost = 0;
    for d in 0..orders.len() {
        cost += least_of_global_span(early, &orders[d], d as u32);
    }
    cost
}

// The same in dimension `d`.
fn least_of_global_span(early: &EarlyChange, orders: &SortedEnds, d: u32) -> i64
    requires dimension { d < length early.now.model.now.dimensions }
    requires orders { Pays early.now.model.now d → AreInRange orders.now }
    ensures value { (lists : List (List ℕ)) → IsEarlyOf early.now lists
        → (Pays early.now.model.now d → AreOrders early.now.model.now d lists orders.now)
        → result ≡ global_least_in early.now.model.now lists early.now.change.now d }
    ensures range { IsAround cumul_cost result }
{
    let coefficient = early.model.dimensions.get(d as usize).global_span_cost;
    if coefficient == 0 {
        return 0;
    }
    let paid = EarlyIn { early, d };
    let spread = spread_after(&paid, orders);
    times(coefficient, (spread.last - spread.start).max(spread.span))
}

// How far the lists after a change reach at least.
fn spread_after(paid: &EarlyIn, orders: &SortedEnds) -> Spread
    requires { AreInRange orders.now }
    ensures value { (lists : List (List ℕ)) → IsEarlyOf paid.now.early.now lists
        → AreOrders paid.now.early.now.model.now paid.now.d lists orders.now
        → result ≡ spreads.spread_after paid.now.early.now.model.now lists paid.now.early.now.change.now paid.now.d }
    ensures range { IsSpreadInRange result }
{
    let change = paid.early.change;
    let vehicles = vehicles_of(change);
    let mut spread = spread_but(orders, &vehicles);
    for k in 0..change.parts() {
        spread = with_changed(paid, k, spread);
    }
    spread
}

// How far the lists reach of the used vehicles that are none of these.
fn spread_but(orders: &SortedEnds, vehicles: &[u32]) -> Spread
    requires range { AreInRange orders.now }
    ensures value { result ≡ spread_of (extent_but vehicles.now orders.now) }
    ensures range { IsSpreadInRange result }
{
    match orders.extent_but(vehicles) {
        // numbers that bound nothing: each end is at 0 or later, and each start at the horizon or before. If no list is
        // used then, the global span costs 0, and what they tell is below that.
        None => Spread {
            last: 0,
            start: HORIZON,
            span: -HORIZON,
        },
        Some(extent) => Spread {
            last: extent.last,
            start: extent.start,
            span: -HORIZON,
        },
    }
}

// It reaches over the new list of part `k` of the change too. No start is known of that list, so its span is kept
// beside.
#[inline]
fn with_changed(paid: &EarlyIn, k: usize, spread: Spread) -> Spread
    requires part { k < length paid.now.early.now.change.now }
    requires range { IsSpreadInRange spread }
    ensures value { (lists : List (List ℕ)) → IsEarlyOf paid.now.early.now lists
        → result ≡ spreads.with_changed paid.now.early.now.model.now lists paid.now.d spread
        (part_at paid.now.early.now.change.now k) }
    ensures range { IsSpreadInRange result }
{
    let early = paid.early;
    if Piece::nodes_in(early.change.pieces(k)) == 0 {
        return spread;
    }
    let told = early.earlies.at(paid.d, k);
    Spread {
        last: spread.last.max(told.last),
        start: spread.start,
        span: spread.span.max(told.span),
    }
}
