//! What spans cost, in 128 bits. `span_cost` is of one printed plan, and `totals` adds these up. In each dimension the
//! span of all used routes costs too, from the least start to the greatest end. These costs added up are the global
//! part that `numbers` compares.

ghost use Rattle.std.specs.Prelude.{◌≡◌, ◌<◌, ◌^◌, length, pos};
ghost use Rattle.vr_model.specs.tables.Numbers.{number_at};
ghost use Rattle.vr_model.specs.tables.Limits.{greatest_cost};
ghost use Rattle.vr_model.specs.tables.WellFormed.{IsIn};
ghost use Rattle.vr_model.specs.tables.Tables.{dimension_at};
ghost use Rattle.vr_model.specs.routes.Costs.{global_part, global_span};
ghost use Rattle.vr_printed.specs.Printed.{assignment_of};
ghost use Rattle.vr_printed.specs.Shape.{plan_in};
ghost use Rattle.vr_check.specs.Terms as terms;
ghost use Rattle.vr_check.specs.Terms.{IsAround, span_along, span_in};

use crate::numbers::times;
use crate::plans::cumul_at;
use crate::printed::{Solution, VehicleRoute};
use vr_model::Closed;
use vr_printed::{PrintedPlan, PrintedRoute};

// The first cumul.
fn first_of(plan: &PrintedPlan) -> i64
    requires { 0 < length plan.now.cumuls }
    ensures { result ≡ terms.first_cumul plan.now.cumuls }
{
    cumul_at(plan, 0)
}

// The last cumul.
fn last_of(plan: &PrintedPlan) -> i64
    requires { 0 < length plan.now.cumuls }
    ensures { result ≡ terms.last_cumul plan.now.cumuls }
{
    cumul_at(plan, plan.cumuls.len() - 1)
}

// The cumul of the end less that of the start.
fn span_of_plan(plan: &PrintedPlan) -> i128
    requires { 0 < length plan.now.cumuls }
    ensures value { result ≡ span_along plan.now.cumuls }
    ensures range { IsAround (2 ^ 66) result }
{
    i128::from(last_of(plan)) - i128::from(first_of(plan))
}

// The coefficient of the span of a vehicle.
fn span_coefficient(closed: Closed<'_>, v: usize, d: usize) -> i64
    requires vehicle { v < length closed.model.now.vehicles }
    requires dimension { d < length closed.model.now.dimensions }
    ensures value { result ≡ number_at (dimension_at closed.entry.model.now d).span_costs v }
    ensures range { IsIn (pos 0) greatest_cost result }
{
    *closed.model.dimensions.get(d).span_costs.get(v)
}

/// What the span of a plan of a route costs.
pub(crate) fn span_cost(on: &VehicleRoute<'_>, d: usize) -> i128
    requires { d < length on.now.route.now.plans }
    ensures value { result ≡ span_in on.now.closed.model.now on.now.v on.now.route.now d }
    ensures range { IsAround (2 ^ 106) result }
{
    let coefficient = span_coefficient(on.closed, on.v, d);
    times(coefficient, span_of_plan(on.route.plans.get(d)))
}

/// The least start and the greatest end of some routes in a dimension.
#[derive(Clone, Copy)]
pub(crate) struct SpanEnds {
    pub(crate) first: i64,
    pub(crate) last: i64,
}

// The ends with a further start and end.
fn widened(ends: Option<SpanEnds>, first: i64, last: i64) -> SpanEnds
    ensures { result ≡ terms.widened ends first last }
{
    match ends {
        None => SpanEnds { first, last },
        Some(ends) => SpanEnds {
            first: ends.first.min(first),
            last: ends.last.max(last),
        },
    }
}

// The ends with a further route, if it is used: an unused one has no plans.
fn ends_with(ends: Option<SpanEnds>, route: &PrintedRoute, d: usize) -> Option<SpanEnds>
    requires { d < length route.now.plans → 0 < length (plan_in route.now d).cumuls }
    ensures { result ≡ terms.ends_with d ends route.now }
{
    if d < route.plans.len() {
        let plan = route.plans.get(d);
        Some(widened(ends, first_of(plan), last_of(plan)))
    } else {
        ends
    }
}

// From the least start to the greatest end, 0 if no route is used.
fn span_of_ends(ends: Option<SpanEnds>) -> i128
    ensures value { result ≡ terms.span_of_ends ends }
    ensures range { IsAround (2 ^ 66) result }
{
    match ends {
        None => 0,
        Some(ends) => i128::from(ends.last) - i128::from(ends.first),
    }
}

// The span of all used routes in a dimension: from the least start to the greatest end.
fn global_span_of(solution: &Solution<'_>, d: usize) -> i128
    requires dimension { d < length solution.now.closed.model.now.dimensions }
    ensures value { result ≡ global_span (assignment_of solution.now.routes.now) d }
    ensures range { IsAround (2 ^ 66) result }
{
    let routes = solution.routes;
    let mut ends = None;
    for v in 0..routes.len() {
        ends = ends_with(ends, &routes[v], d);
    }
    span_of_ends(ends)
}

// The coefficient of the span of all routes.
fn global_coefficient(closed: Closed<'_>, d: usize) -> i64
    requires dimension { d < length closed.model.now.dimensions }
    ensures value { result ≡ (dimension_at closed.entry.model.now d).global_span_cost }
    ensures range { IsIn (pos 0) greatest_cost result }
{
    closed.model.dimensions.get(d).global_span_cost
}

// What the span of all routes costs in a dimension.
fn global_cost(solution: &Solution<'_>, d: usize) -> i128
    requires dimension { d < length solution.now.closed.model.now.dimensions }
    ensures value { result
        ≡ terms.global_cost solution.now.closed.model.now (assignment_of solution.now.routes.now) d }
    ensures range { IsAround (2 ^ 106) result }
{
    let coefficient = global_coefficient(solution.closed, d);
    times(coefficient, global_span_of(solution, d))
}

/// The global part.
pub(crate) fn global_of(solution: &Solution<'_>) -> i128
    ensures { result ≡ global_part solution.now.closed.model.now (assignment_of solution.now.routes.now) }
{
    let mut total: i128 = 0;
    for d in 0..solution.closed.model.dimensions.len() {
        total += global_cost(solution, d);
    }
    total
}
