//! The parts of the cost that are sums over routes, and over the plans of each, in 128 bits.

ghost use Rattle.std.specs.Prelude.{◌≡◌, ◌<◌, ◌^◌, length};
ghost use Rattle.vr_model.specs.tables.Numbers.{below, total_by};
ghost use Rattle.vr_model.specs.routes.Costs.{arcs_part, fixed_part, soft_part, span_part};
ghost use Rattle.vr_printed.specs.Printed.{assignment_of};
ghost use Rattle.vr_check.specs.Handed.{parts_of_route};
ghost use Rattle.vr_check.specs.Terms.{IsAround};
ghost use Rattle.vr_check.specs.Totals as totals;
ghost use Rattle.vr_check.specs.Totals.{part_cost, plan_cost};

use crate::costs::{arcs_of_route, fixed_of_route};
use crate::printed::{Solution, VehicleRoute};
use crate::softs::soft_of_plan;
use crate::spans::span_cost;

/// A part of the cost that is a sum over the printed plans.
#[derive(Clone, Copy)]
pub(crate) enum PlanPart {
    Soft,
    Span,
}

/// A part of the cost that is a sum over the routes.
#[derive(Clone, Copy)]
pub(crate) enum RoutePart {
    Arcs,
    Fixed,
    Plans(PlanPart),
}

// What a plan of a route costs by a part: by soft bounds, or by its span.
fn cost_of_plan(part: PlanPart, on: &VehicleRoute<'_>, d: usize) -> i128
    requires { d < length on.now.route.now.plans }
    ensures value { result ≡ plan_cost part on.now.closed.model.now on.now.v on.now.route.now d }
    ensures range { IsAround (2 ^ 116) result }
{
    match part {
        PlanPart::Soft => {
            let of = on.plan(d);
            soft_of_plan(&of)
        }
        PlanPart::Span => span_cost(on, d),
    }
}

// What the plans of a route cost by a part.
fn over_plans(part: PlanPart, on: &VehicleRoute<'_>) -> i128
    ensures value { result
        ≡ total_by (plan_cost part on.now.closed.model.now on.now.v on.now.route.now)
        (below (length on.now.route.now.plans)) }
    ensures range { IsAround (2 ^ 118) result }
{
    let mut total: i128 = 0;
    for d in 0..on.route.plans.len() {
        total += cost_of_plan(part, on, d);
    }
    total
}

// What a route costs by one part of the cost.
fn cost_of_route(part: RoutePart, on: &VehicleRoute<'_>) -> i128
    ensures value { result ≡ part_cost part (parts_of_route on.now) }
    ensures range { IsAround (2 ^ 118) result }
{
    match part {
        RoutePart::Arcs => arcs_of_route(on),
        RoutePart::Fixed => i128::from(fixed_of_route(on)),
        RoutePart::Plans(part) => over_plans(part, on),
    }
}

// What all routes cost by one part: the value with which `numbers` compares the printed part.
fn over_routes(part: RoutePart, solution: &Solution<'_>) -> i128
    ensures { result ≡ totals.over_routes part solution.now }
{
    let routes = solution.routes;
    let mut total: i128 = 0;
    for v in 0..routes.len() {
        let on = solution.route(v);
        total += cost_of_route(part, &on);
    }
    total
}

/// The arcs part.
pub(crate) fn arcs_of(solution: &Solution<'_>) -> i128
    ensures { result ≡ arcs_part solution.now.closed.model.now solution.now.lists.now }
{
    over_routes(RoutePart::Arcs, solution)
}

/// The fixed part.
pub(crate) fn fixed_of(solution: &Solution<'_>) -> i128
    ensures { result ≡ fixed_part solution.now.closed.model.now solution.now.lists.now }
{
    over_routes(RoutePart::Fixed, solution)
}

/// The soft part.
pub(crate) fn soft_of(solution: &Solution<'_>) -> i128
    ensures { result ≡ soft_part solution.now.closed.model.now (assignment_of solution.now.routes.now) }
{
    over_routes(RoutePart::Plans(PlanPart::Soft), solution)
}

/// The span part.
pub(crate) fn span_of(solution: &Solution<'_>) -> i128
    ensures { result ≡ span_part solution.now.closed.model.now (assignment_of solution.now.routes.now) }
{
    over_routes(RoutePart::Plans(PlanPart::Span), solution)
}
