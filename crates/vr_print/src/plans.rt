//! The trees of plans.

ghost use Rattle.std.specs.Prelude.{◌≡◌, ◌<◌, IfOk, IsTrue, false, length, unwrap_or};
ghost use Rattle.std.specs.List.{list_all};
ghost use Rattle.serde_json.specs.View.{view};
ghost use Rattle.vr_model.specs.routes.Costs.{assigned, no_plan};
ghost use Rattle.vr_model.specs.routes.Routes.{are_lists, is_distinct, is_empty, route};
ghost use Rattle.vr_model.specs.schedules.Choices.{chosen};
ghost use Rattle.vr_model.specs.schedules.Narrowed.{chosen_line};
ghost use Rattle.vr_model.specs.tables.Tables.{is_visit};
ghost use Rattle.vr_plan.specs.Plans.{as_defined};
ghost use Rattle.vr_print.specs.Solution as solution;

use crate::leaves::{text, wholes};
use serde_json::Value;
use std::alloc::Global;
use vr_json::Tree;
use vr_model::{Closed, Dimension, NoMemory, Seq};
use vr_plan::{Plan, schedule};
use vr_routes::Routes;
use vr_steps::Line;

// The plan that the rule of vehicle `v` chooses for a list in dimension `d`. It is empty if the list has no schedule.
// That does not come, since the routes are valid; no clause here asks for that.
fn chosen_plan(
    alloc: Global,
    closed: Closed<'_>,
    d: u32,
    v: u32,
    list: &[u32],
) -> Result<Plan, NoMemory>
    requires dimension { d < length closed.model.now.dimensions }
    requires vehicle { v < length closed.model.now.vehicles }
    requires some { 0 < length list.now }
    requires visits { IsTrue (list_all (is_visit closed.model.now) list.now) }
    requires distinct { IsTrue (is_distinct list.now) }
    ensures { IfOk result (λ plan. as_defined plan
        ≡ unwrap_or (chosen (chosen_line closed.entry.model.now d v list.now)) no_plan) }
{
    let line = Line::build(alloc, closed.model, d, v, list)?;
    let rule = closed.model.vehicles.get(v as usize).schedule;
    match schedule(alloc, &line, rule)? {
        Some(plan) => Ok(plan),
        None => Ok(Plan {
            cumuls: Seq::new(alloc),
            slacks: Seq::new(alloc),
            breaks: Seq::new(alloc),
        }),
    }
}

// The tree of a plan.
#[tactic(auto, unfolding(crate::specs::Solution::plan_tree))]
fn plan_tree(alloc: Global, dimension: &Dimension, plan: &Plan) -> Result<Value, NoMemory>
    ensures { IfOk result (λ tree. view tree ≡ solution.plan_tree dimension.now (as_defined plan.now)) }
{
    let mut tree = Tree::new(alloc);
    tree.put("breaks", wholes(alloc, plan.breaks.as_slice())?)?;
    tree.put("cumuls", wholes(alloc, plan.cumuls.as_slice())?)?;
    tree.put("name", text(alloc, dimension.name.as_str())?)?;
    tree.put("slacks", wholes(alloc, plan.slacks.as_slice())?)?;
    Ok(tree.finish())
}

/// The route of vehicle `v` among the routes of a model; its list may be empty.
#[derive(Clone, Copy)]
pub(crate) struct RouteOf<'m, 'r> {
    pub(crate) closed: Closed<'m>,
    pub(crate) routes: &'r Routes,
    pub(crate) v: u32,
    ghost lists: { IsTrue (are_lists closed.model.now routes.now.lists) },
    ghost vehicle: { v < length routes.now.lists },
}

// The chosen plan of a used vehicle in dimension `d`.
fn dimension_tree(alloc: Global, of: &RouteOf<'_, '_>, d: u32) -> Result<Value, NoMemory>
    requires dimension { d < length of.now.closed.model.now.dimensions }
    requires used { is_empty (route of.now.routes.now.lists of.now.v) ≡ false }
    ensures { let assignment = assigned of.now.closed.model.now of.now.routes.now.lists in
        IfOk result (λ tree. view tree ≡ solution.dimension_tree of.now.closed.model.now assignment of.now.v d) }
{
    let (closed, v) = (of.closed, of.v);
    let plan = chosen_plan(alloc, closed, d, v, of.routes.list(v))?;
    plan_tree(alloc, closed.model.dimensions.get(d as usize), &plan)
}

// The chosen plans of a used vehicle, one in each dimension.
fn used_plans_tree(alloc: Global, of: &RouteOf<'_, '_>) -> Result<Value, NoMemory>
    requires { is_empty (route of.now.routes.now.lists of.now.v) ≡ false }
    ensures { let assignment = assigned of.now.closed.model.now of.now.routes.now.lists in
        IfOk result (λ tree. view tree ≡ solution.used_plans_tree of.now.closed.model.now assignment of.now.v) }
{
    let closed = of.closed;
    let mut trees = Vec::new(alloc);
    for d in 0..closed.model.dimensions.len() {
        let tree = dimension_tree(alloc, of, d as u32)?;
        trees.push(tree)?;
    }
    Ok(Value::Array(trees))
}

/// The chosen plans of a vehicle, one in each dimension; none if it is not used.
pub(crate) fn plans_tree(alloc: Global, of: &RouteOf<'_, '_>) -> Result<Value, NoMemory>
    ensures { let assignment = assigned of.now.closed.model.now of.now.routes.now.lists in
        IfOk result (λ tree. view tree ≡ solution.plans_tree of.now.closed.model.now assignment of.now.v) }
{
    if of.routes.len(of.v) == 0 {
        return Ok(Value::Array(Vec::new(alloc)));
    }
    used_plans_tree(alloc, of)
}
