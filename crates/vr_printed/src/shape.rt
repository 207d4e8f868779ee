//! The shape of a printed solution: the tables read it, then its routes are asked for their numbers and lengths.

ghost use Rattle.std.specs.Prelude.{◌≡◌, ◌≤◌, ◌<◌, [], length, Ok, IfOk};
ghost use Rattle.std.specs.List.{list_all};
ghost use Rattle.vr_json.specs.Reading.{Answers};
ghost use Rattle.vr_model.specs.tables.Numbers.{below};
ghost use Rattle.vr_model.specs.tables.WellFormed.{IsWellFormed};
ghost use Rattle.vr_printed.specs.Tables.{solution as solution_table};
ghost use Rattle.serde_json.specs.View.{view};
ghost use Rattle.vr_printed.specs.Shape as shapes;
ghost use Rattle.vr_printed.specs.Shape.{is_shaped_at, printed_in, where_shaped};

use crate::tables::SolutionTable;
use crate::{Printed, PrintedPlan, PrintedRoute};
use serde_json::Value;
use std::alloc::Global;
use vr_json::{Fields, Path, ReadFail, Table};
use vr_model::{Dimension, Model, NoMemory};

// Whether a plan of a vehicle in a dimension has its name and the right lengths.
fn is_plan_shaped(dimension: &Dimension, vehicle: usize, stops: usize, plan: &PrintedPlan) -> bool
    requires vehicle { vehicle < 100 }
    requires stops { 0 < stops }
    ensures { result ≡ shapes.is_plan_shaped dimension.now vehicle stops plan.now }
{
    plan.name.as_str() == dimension.name.as_str()
        && plan.cumuls.len() == stops
        && plan.slacks.len() == stops - 1
        && plan.breaks.len() == dimension.breaks_of(vehicle as u32).len()
}

// Whether each plan of a route has the shape of its dimension's.
fn are_plans_shaped(model: &Model, vehicle: usize, route: &PrintedRoute) -> bool
    requires vehicle { vehicle < 100 }
    requires nodes { 0 < length route.now.nodes }
    requires plans { length route.now.plans ≡ length model.now.dimensions }
    ensures { result ≡ shapes.are_plans_shaped model.now vehicle route.now }
{
    let stops = route.nodes.len();
    for d in 0..model.dimensions.len() {
        if !is_plan_shaped(model.dimensions.get(d), vehicle, stops, route.plans.get(d)) {
            return false;
        }
    }
    true
}

// Whether a route with nodes has enough of them, a start, a visit and an end, and a plan for each dimension.
fn is_used_shaped(model: &Model, vehicle: usize, route: &PrintedRoute) -> bool
    requires { vehicle < 100 }
    ensures { result ≡ shapes.is_used_shaped model.now vehicle route.now }
{
    3 <= route.nodes.len()
        && route.plans.len() == model.dimensions.len()
        && are_plans_shaped(model, vehicle, route)
}

// Whether a route has the shape of a vehicle's.
fn is_route_shaped(model: &Model, vehicle: usize, route: &PrintedRoute) -> bool
    requires { vehicle < 100 }
    ensures { result ≡ shapes.is_route_shaped model.now vehicle route.now }
{
    route.vehicle == vehicle as i64
        && if route.nodes.is_empty() {
            route.plans.is_empty()
        } else {
            is_used_shaped(model, vehicle, route)
        }
}

// Whether each route has the shape of its vehicle's.
fn is_each_shaped(model: &Model, routes: &[PrintedRoute]) -> bool
    requires { length routes.now ≤ 100 }
    ensures { result ≡ list_all (is_shaped_at model.now routes.now) (below (length routes.now)) }
{
    for v in 0..routes.len() {
        if !is_route_shaped(model, v, &routes[v]) {
            return false;
        }
    }
    true
}

// Whether routes have the shapes of the vehicles' in order.
fn are_routes_shaped(model: &Model, routes: &[PrintedRoute]) -> bool
    requires { length model.now.vehicles ≤ 100 }
    ensures { result ≡ shapes.are_routes_shaped model.now routes.now }
{
    routes.len() == model.vehicles.len() && is_each_shaped(model, routes)
}

// The solution that a tree prints, whatever the model asks of its routes. It is refused if the tree has other fields,
// kinds or words, or a node that is not below `nodes`.
fn read_tables(alloc: Global, nodes: u32, solution: &Value) -> Result<Printed, ReadFail>
    ensures { Answers result (solution_table nodes [] (view solution.now)) }
{
    let path = Path::root(alloc);
    let fields = Fields {
        alloc,
        value: solution,
        path: &path,
    };
    SolutionTable { nodes }.read(&[], fields)
}

// A solution, if its routes have the right shape.
fn shaped(model: &Model, printed: Printed) -> Option<Printed>
    requires { length model.now.vehicles ≤ 100 }
    ensures { result ≡ where_shaped model.now (Ok printed) }
{
    if are_routes_shaped(model, printed.routes.as_slice()) {
        Some(printed)
    } else {
        None
    }
}

/// The solution that a tree prints, or `None` if the tree is not one of the model. That is so in three cases:
///
/// - it has not the fields, kinds, words and lengths of a solution of the model;
/// - it has a node that the model does not have;
/// - it has not the vehicles and dimensions of the model in order.
///
/// `NoMemory` if memory is out.
pub fn read_printed(
    alloc: Global,
    model: &Model,
    solution: &Value,
) -> Result<Option<Printed>, NoMemory>
    requires { IsWellFormed model.now }
    ensures { IfOk result (λ printed. printed ≡ printed_in model.now (view solution.now)) }
{
    match read_tables(alloc, model.nodes, solution) {
        Ok(printed) => Ok(shaped(model, printed)),
        Err(ReadFail::Refused(_)) => Ok(None),
        Err(ReadFail::NoMemory) => Err(NoMemory),
    }
}
