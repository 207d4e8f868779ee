//! How short the routes of a printed solution could be. For each used vehicle, and each dimension in which no vehicle
//! has breaks, it gives the least span of its line beside the printed one.

ghost use Rattle.std.specs.Prelude.{◌≡◌, ◌++◌, ◌∷◌, ◌<◌, ◌-◌, ◌-ℤ◌, ℕ, [], false, map, length, pos};
ghost use Rattle.std.specs.Prelude.{IfOk, IsTrue, OnOk};
ghost use Rattle.std.specs.List.{list_all};
ghost use Rattle.serde_json.specs.View.{view};
ghost use Rattle.vr_model.specs.routes.Routes.{is_distinct, is_empty, vehicles};
ghost use Rattle.vr_model.specs.schedules.Lines as lines;
ghost use Rattle.vr_model.specs.schedules.Schedules.{IsSchedule};
ghost use Rattle.vr_model.specs.tables.ModelRules.{has_breaks};
ghost use Rattle.vr_model.specs.tables.Numbers.{below, each, horizon, number_at};
ghost use Rattle.vr_model.specs.tables.Tables.{dimension_at, is_visit};
ghost use Rattle.vr_model.specs.tables.WellFormed.{IsIn};
ghost use Rattle.vr_plan.specs.Plans.{as_defined};
ghost use Rattle.vr_plan.specs.Settled.{IsUnfeasible};
ghost use Rattle.vr_printed.specs.Printed.{assignment_of, lists_of, plan_of};
ghost use Rattle.vr_app.specs.Checked.{checked_together};
ghost use Rattle.vr_app.specs.Spans as spans;
ghost use Rattle.vr_app.specs.Scheduled.{AreScheduled, HasSchedules, IsMetIn, IsShortestOf, printed_plans};
ghost use Rattle.vr_steps.specs.Lines.{IsSoundLine};

use serde_json::{Value, json};
use std::alloc::Global;
use vr_json::Tree;
use vr_model::{Closed, Dimension, NoMemory, Seq};
use vr_print::wholes;
use vr_printed::{PrintedPlan, PrintedRoute, printed_lists, read_printed};
use vr_span::{Least, span};
use vr_steps::Line;

// What is reported of a vehicle in a dimension.
#[tactic(auto, unfolding(crate::specs::Spans::span_tree))]
fn span_tree(
    alloc: Global,
    dimension: &Dimension,
    v: u32,
    least: &Least,
    printed: i64,
) -> Result<Value, NoMemory>
    ensures { IfOk result (λ tree. view tree
        ≡ spans.span_tree dimension.now v (as_defined least.now.plan) least.now.span printed) }
{
    let name = Value::String(String::from_str(alloc, dimension.name.as_str())?);
    let mut tree = Tree::new(alloc);
    tree.put("cumuls", wholes(alloc, least.plan.cumuls.as_slice())?)?;
    tree.put("dimension", name)?;
    tree.put("least", Value::from(least.span))?;
    tree.put("printed", Value::from(printed))?;
    tree.put("slacks", wholes(alloc, least.plan.slacks.as_slice())?)?;
    tree.put("vehicle", Value::from(v))?;
    Ok(tree.finish())
}

// The shortest schedule of a line that has one, with its span.
fn shortest(alloc: Global, line: &Line) -> Result<Least, NoMemory>
    requires sound { IsSoundLine line.now }
    requires no_breaks { line.now.breaks ≡ [] }
    requires feasible { ¬ IsUnfeasible line.now }
    ensures { IfOk result (IsShortestOf line.now) }
{
    let found = span(alloc, line)?;
    Ok(found.unwrap())
}

// How long a plan takes, from its first cumul to its last.
fn span_between(cumuls: &[i64]) -> i64
    requires some { 0 < length cumuls.now }
    requires range { (k : ℕ) → IsIn (pos 0) horizon (number_at cumuls.now k) }
    ensures { result ≡ number_at cumuls.now (length cumuls.now - 1) -ℤ number_at cumuls.now 0 }
{
    cumuls[cumuls.len() - 1] - cumuls[0]
}

// What is reported of a used vehicle in dimension `d`, in which no vehicle has breaks, beside the printed plan.
fn row(
    alloc: Global,
    closed: Closed<'_>,
    d: u32,
    v: u32,
    list: &[u32],
    plan: &PrintedPlan,
) -> Result<Value, NoMemory>
    requires dimension { d < length closed.model.now.dimensions }
    requires vehicle { v < length closed.model.now.vehicles }
    requires some { 0 < length list.now }
    requires visits { IsTrue (list_all (is_visit closed.model.now) list.now) }
    requires distinct { IsTrue (is_distinct list.now) }
    requires no_breaks { has_breaks (dimension_at closed.model.now d) ≡ false }
    requires schedule { IsSchedule (lines.line closed.model.now d v list.now) (plan_of plan.now) }
    ensures { let its = lines.line closed.entry.model.now d v list.now in
        IfOk result (λ tree. view tree ≡ spans.span_row (dimension_at closed.entry.model.now d) v its
        (plan_of plan.now)) }
{
    let line = Line::build(alloc, closed.model, d, v, list)?;
    let least = shortest(alloc, &line)?;
    let printed = span_between(plan.cumuls.as_slice());
    span_tree(
        alloc,
        closed.model.dimensions.get(d as usize),
        v,
        &least,
        printed,
    )
}

// Whether some vehicle has breaks in a dimension.
fn has_breaks(dimension: &Dimension) -> bool
    ensures { result ≡ has_breaks dimension.now }
{
    dimension
        .breaks
        .as_slice()
        .iter()
        .any(|entry| !entry.rows.is_empty())
}

// Puts what is reported of a used vehicle in dimension `d` after the rows, if no vehicle has breaks in it.
fn push_row(
    alloc: Global,
    closed: Closed<'_>,
    route: &PrintedRoute,
    list: &[u32],
    v: u32,
    d: u32,
    rows: &mut Vec<Value>,
) -> Result<(), NoMemory>
    requires dimension { d < length closed.model.now.dimensions }
    requires scheduled { HasSchedules closed.model.now v route.now list.now }
    ensures { let plans = printed_plans route.now in
        OnOk result (map view rows.new.items ≡ map view rows.old.items
        ++ spans.spans_in closed.entry.model.now v list.now plans (d ∷ [])) }
{
    if !has_breaks(closed.model.dimensions.get(d as usize)) {
        let row = row(alloc, closed, d, v, list, route.plans.get(d as usize))?;
        rows.push(row)?;
    }
    Ok(())
}

// Puts what is reported of a used vehicle after the rows, dimension after dimension.
fn push_used(
    alloc: Global,
    closed: Closed<'_>,
    route: &PrintedRoute,
    list: &[u32],
    v: u32,
    rows: &mut Vec<Value>,
) -> Result<(), NoMemory>
    requires scheduled { HasSchedules closed.model.now v route.now list.now }
    ensures { let plans = printed_plans route.now in
        OnOk result (map view rows.new.items ≡ map view rows.old.items
        ++ spans.spans_in closed.entry.model.now v list.now plans (below (length closed.entry.model.now.dimensions))) }
{
    for d in 0..closed.model.dimensions.len() {
        push_row(alloc, closed, route, list, v, d as u32, rows)?;
    }
    Ok(())
}

// Puts what is reported of a vehicle after the rows: nothing if it is unused.
fn push_rows(
    alloc: Global,
    closed: Closed<'_>,
    route: &PrintedRoute,
    list: &[u32],
    v: u32,
    rows: &mut Vec<Value>,
) -> Result<(), NoMemory>
    requires { is_empty list.now ≡ false → HasSchedules closed.model.now v route.now list.now }
    ensures { let plans = printed_plans route.now in
        OnOk result (map view rows.new.items ≡ map view rows.old.items
        ++ spans.spans_with closed.entry.model.now v list.now plans) }
{
    if list.is_empty() {
        return Ok(());
    }
    push_used(alloc, closed, route, list, v, rows)
}

// What is reported of all vehicles of printed routes, with the lists of these.
fn rows_of(
    alloc: Global,
    closed: Closed<'_>,
    routes: &[PrintedRoute],
    lists: &[Seq<u32>],
) -> Result<Vec<Value>, NoMemory>
    requires lists { lists.now ≡ lists_of routes.now }
    requires scheduled { AreScheduled closed.model.now routes.now }
    ensures { let assignment = assignment_of routes.now in
        IfOk result (λ rows. map view rows.items
        ≡ each (vehicles assignment.lists) (spans.span_rows closed.entry.model.now assignment)) }
{
    let mut rows = Vec::new(alloc);
    for v in 0..lists.len() {
        push_rows(
            alloc,
            closed,
            &routes[v],
            lists[v].as_slice(),
            v as u32,
            &mut rows,
        )?;
    }
    Ok(rows)
}

// The tree of what is reported of all vehicles.
#[tactic(auto, unfolding(crate::specs::Spans::reported_spans))]
fn reported_spans(alloc: Global, rows: Vec<Value>) -> Result<Value, NoMemory>
    ensures { IfOk result (λ tree. view tree ≡ spans.reported_spans (map view rows.items)) }
{
    Ok(json!(in alloc; {"spans": Value::Array(rows), "status": "SPANS"})?)
}

// How short printed routes could be, whose plans are schedules.
fn routes_tree(
    alloc: Global,
    closed: Closed<'_>,
    routes: &[PrintedRoute],
) -> Result<Value, NoMemory>
    requires { AreScheduled closed.model.now routes.now }
    ensures { IfOk result (λ tree. view tree ≡ spans.spans_tree closed.entry.model.now (assignment_of routes.now)) }
{
    let lists = printed_lists(alloc, routes)?;
    let rows = rows_of(alloc, closed, routes, lists.as_slice())?;
    reported_spans(alloc, rows)
}

/// How short the routes of a printed solution could be. The solution meets the rules of its model, so it has the right
/// shape. It is read once more, since the check gives what it finds and no record. `NoMemory` if out of memory.
pub(crate) fn spans_tree(
    alloc: Global,
    closed: Closed<'_>,
    solution: &Value,
) -> Result<Value, NoMemory>
    requires { IsMetIn closed.model.now (view solution.now) }
    ensures { IfOk result (λ tree. view tree
        ≡ spans.spans_of (checked_together closed.entry.model.now (view solution.now))) }
{
    let printed = read_printed(alloc, closed.model, solution)?.unwrap();
    routes_tree(alloc, closed, printed.routes.as_slice())
}
