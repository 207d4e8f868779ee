//! The trees of routes, and the visits that are in none.

ghost use Rattle.std.specs.Prelude.{◌≡◌, ◌<◌, ◌++◌, ◌&&◌, ◌∷◌, [], cond, not, IfOk, IsTrue, OnOk, length};
ghost use Rattle.serde_json.specs.View.{view};
ghost use Rattle.vr_model.specs.routes.Costs.{assigned};
ghost use Rattle.vr_model.specs.routes.Routes.{are_lists, inactive, is_active, route};
ghost use Rattle.vr_model.specs.tables.Tables.{is_visit, visits};
ghost use Rattle.vr_print.specs.Numbers as numbers;
ghost use Rattle.vr_print.specs.Solution as solution;

use crate::leaves::counts;
use crate::plans::{RouteOf, plans_tree};
use serde_json::Value;
use std::alloc::Global;
use vr_json::Tree;
use vr_model::{Closed, Model, NoMemory};
use vr_routes::Routes;

// The nodes of a route from its start to its end; none if its list is empty.
fn route_nodes(
    alloc: Global,
    model: &Model,
    vehicle: u32,
    list: &[u32],
) -> Result<Vec<u32>, NoMemory>
    requires { vehicle < length model.now.vehicles }
    ensures { IfOk result (λ nodes. nodes.items ≡ solution.route_nodes model.now vehicle list.now) }
{
    let mut nodes = Vec::new(alloc);
    if list.is_empty() {
        return Ok(nodes);
    }
    let ends = model.vehicles.get(vehicle as usize);
    nodes.push(ends.start)?;
    nodes.extend_from_slice(list)?;
    nodes.push(ends.end)?;
    Ok(nodes)
}

// The same as an array.
fn nodes_tree(alloc: Global, model: &Model, vehicle: u32, list: &[u32]) -> Result<Value, NoMemory>
    requires { vehicle < length model.now.vehicles }
    ensures { IfOk result (λ tree. view tree ≡ numbers.counts (solution.route_nodes model.now vehicle list.now)) }
{
    let nodes = route_nodes(alloc, model, vehicle, list)?;
    counts(alloc, &nodes)
}

// The route of a vehicle.
#[tactic(auto, unfolding(crate::specs::Solution::route_tree))]
fn route_tree(alloc: Global, of: &RouteOf<'_, '_>) -> Result<Value, NoMemory>
    ensures { let assignment = assigned of.now.closed.model.now of.now.routes.now.lists in
        IfOk result (λ tree. view tree ≡ solution.route_tree of.now.closed.model.now assignment of.now.v) }
{
    let (closed, v) = (of.closed, of.v);
    let mut tree = Tree::new(alloc);
    tree.put("dimensions", plans_tree(alloc, of)?)?;
    tree.put(
        "nodes",
        nodes_tree(alloc, closed.model, v, of.routes.list(v))?,
    )?;
    tree.put("vehicle", Value::from(v))?;
    Ok(tree.finish())
}

/// The routes of all vehicles.
pub(crate) fn routes_tree(
    alloc: Global,
    closed: Closed<'_>,
    routes: &Routes,
) -> Result<Value, NoMemory>
    requires { IsTrue (are_lists closed.model.now routes.now.lists) }
    ensures { IfOk result (λ tree. view tree
        ≡ solution.routes_tree closed.entry.model.now (assigned closed.entry.model.now routes.now.lists)) }
{
    let mut trees = Vec::new(alloc);
    for v in 0..routes.vehicles() {
        let of = RouteOf { closed, routes, v };
        let route = route_tree(alloc, &of)?;
        trees.push(route)?;
    }
    Ok(Value::Array(trees))
}

// Adds the node, if it is a visit that is in no list.
fn note_inactive(
    model: &Model,
    routes: &Routes,
    node: u32,
    nodes: &mut Vec<u32>,
) -> Result<(), NoMemory>
    ensures { OnOk result (nodes.new.items ≡ nodes.old.items
        ++ cond (is_visit model.now node && not (is_active routes.now.lists node)) (node ∷ []) []) }
{
    if model.is_visit(node) && !routes.is_active(node) {
        nodes.push(node)?;
    }
    Ok(())
}

/// The visits that are in no list, ascending. The model says which nodes are visits, and the lists which are active.
/// The inactive visits that routes keep are not asked, since no clause here says that they are those of this model.
pub(crate) fn inactive(alloc: Global, model: &Model, routes: &Routes) -> Result<Vec<u32>, NoMemory>
    ensures { IfOk result (λ nodes. nodes.items ≡ inactive model.now routes.now.lists) }
{
    let mut nodes = Vec::new(alloc);
    for node in 0..model.nodes {
        note_inactive(model, routes, node, &mut nodes)?;
    }
    Ok(nodes)
}
