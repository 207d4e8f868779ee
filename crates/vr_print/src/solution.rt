//! The tree and the line of a solution.

ghost use Rattle.std.specs.Prelude.{◌≡◌, ◌≤◌, IfOk, IsTrue, OnOk, Some, false};
ghost use Rattle.serde_json.specs.Data.{depth};
ghost use Rattle.serde_json.specs.Read.{max_depth, read};
ghost use Rattle.serde_json.specs.View.{view};
ghost use Rattle.serde_json.specs.Written.{has_float};
ghost use Rattle.vr_json.specs.Trees.{text_line, members_put};
ghost use Rattle.vr_model.specs.routes.Costs.{assigned, parts_at};
ghost use Rattle.vr_model.specs.routes.Rules.{is_valid};
ghost use Rattle.vr_model.specs.tables.WellFormed.{IsWellFormed};
ghost use Rattle.vr_rules.specs.Totals.{HasTotal};
ghost use Rattle.vr_print.specs.Solution as solution;

use crate::leaves::{counts, text};
use crate::routes::{inactive, routes_tree};
use serde_json::Value;
use std::alloc::Global;
use vr_json::{Tree, to_line};
use vr_model::{Closed, End, Model, NoMemory, Parts, Report, Seq};
use vr_plan::Lookups;
use vr_routes::Routes;
use vr_rules::{Rules, total_cost};

// The six parts of a cost.
#[tactic(auto, unfolding(crate::specs::Solution::parts_tree))]
fn parts_tree(alloc: Global, parts: &Parts) -> Result<Value, NoMemory>
    ensures { IfOk result (λ tree. view tree ≡ solution.parts_tree parts.now) }
{
    let mut tree = Tree::new(alloc);
    tree.put("arcs", Value::from(parts.arcs))?;
    tree.put("fixed", Value::from(parts.fixed))?;
    tree.put("global", Value::from(parts.global))?;
    tree.put("penalty", Value::from(parts.penalty))?;
    tree.put("soft", Value::from(parts.soft))?;
    tree.put("span", Value::from(parts.span))?;
    Ok(tree.finish())
}

// How a search ended, as a word.
fn word_of(end: End) -> &'static str
    ensures { result.now ≡ solution.word_of end }
{
    match end {
        End::First => "first",
        End::Optimum => "optimum",
        End::Tries => "tries",
        End::Solutions => "solutions",
    }
}

// Puts what a solution costs, with its parts, what the first solution cost, and which visits are dropped.
fn put_costs(
    alloc: Global,
    tree: &mut Tree,
    parts: &Parts,
    dropped: &[u32],
    first_cost: i64,
) -> Result<(), NoMemory>
    requires { HasTotal parts.now }
    ensures { OnOk result (members_put tree.new
        ≡ solution.costs_put parts.now dropped.now first_cost (members_put tree.old)) }
{
    tree.put("cost", Value::from(total_cost(parts)))?;
    tree.put("dropped", counts(alloc, dropped)?)?;
    tree.put("first_cost", Value::from(first_cost))?;
    tree.put("parts", parts_tree(alloc, parts)?)?;
    Ok(())
}

// Puts how the search went.
fn put_report(alloc: Global, tree: &mut Tree, report: Report) -> Result<(), NoMemory>
    ensures { OnOk result (members_put tree.new ≡ solution.report_put report (members_put tree.old)) }
{
    tree.put("solutions", Value::from(report.solutions))?;
    tree.put("status", text(alloc, "ROUTING_SUCCESS")?)?;
    tree.put("stop", text(alloc, word_of(report.end))?)?;
    tree.put("tries", Value::from(report.tries))?;
    Ok(())
}

// The tree of a solution, put together from what it cost, what is dropped, its routes and the report.
#[tactic(auto, unfolding(crate::specs::Solution::tree_of))]
fn tree_of(
    alloc: Global,
    parts: &Parts,
    dropped: &[u32],
    routes: Value,
    first_cost: i64,
    report: Report,
) -> Result<Value, NoMemory>
    requires { HasTotal parts.now }
    ensures { IfOk result (λ tree. view tree ≡ solution.tree_of parts.now dropped.now (view routes) first_cost report) }
{
    let mut tree = Tree::new(alloc);
    tree.put("routes", routes)?;
    put_costs(alloc, &mut tree, parts, dropped, first_cost)?;
    put_report(alloc, &mut tree, report)?;
    Ok(tree.finish())
}

/// The tree of a solution, as `solution_tree` gives it, over what was looked up of the model. No other crate calls it:
/// `vr_app` asks for its line (`solution_line_over`).
pub fn solution_tree_over(
    alloc: Global,
    lookups: &Lookups<'_>,
    routes: &Routes,
    first_cost: i64,
    report: Report,
) -> Result<Value, NoMemory>
    requires valid { IsTrue (is_valid lookups.now.closed.model.now routes.now.lists) }
    ensures tree { let wanted = solution.solution_tree lookups.now.closed.model.now routes.now.lists first_cost
        report in IfOk result (λ tree. view tree ≡ wanted) }
    ensures whole { IfOk result (λ tree. has_float (view tree) ≡ false) }
    ensures nested { IfOk result (λ tree. depth (view tree) ≤ max_depth) }
{
    let parts = parts_of(alloc, lookups, routes)?;
    let dropped = inactive(alloc, lookups.closed.model, routes)?;
    let trees = routes_tree(alloc, lookups.closed, routes)?;
    tree_of(alloc, &parts, &dropped, trees, first_cost, report)
}

// What valid routes cost.
fn parts_of(alloc: Global, lookups: &Lookups<'_>, routes: &Routes) -> Result<Parts, NoMemory>
    requires { IsTrue (is_valid lookups.now.closed.model.now routes.now.lists) }
    ensures parts { IfOk result (λ parts. parts ≡ parts_at lookups.now.closed.model.now
        (assigned lookups.now.closed.model.now routes.now.lists)) }
    ensures total { IfOk result HasTotal }
{
    let mut rules = Rules::over(alloc, lookups)?;
    rules.cost(routes)
}

/// The tree of valid routes of a model. It has:
///
/// - their cost with its six parts, and the visits that are dropped, ascending;
/// - for each vehicle its nodes from start to end;
/// - with them, in each dimension, the cumuls, slacks and break starts of the schedule that its rule chooses;
/// - what the first solution cost, and how the search went.
///
/// It looks the model up for that. Tests alone ask it. The program has it looked up, and asks `solution_line_over`.
///
/// `NoMemory` if memory is out.
pub fn solution_tree(
    alloc: Global,
    model: &Model,
    routes: &Routes,
    first_cost: i64,
    report: Report,
) -> Result<Value, NoMemory>
    requires well_formed { IsWellFormed model.now }
    requires valid { IsTrue (is_valid model.now routes.now.lists) }
    ensures tree { let wanted = solution.solution_tree model.now routes.now.lists first_cost report in
        IfOk result (λ tree. view tree ≡ wanted) }
    ensures whole { IfOk result (λ tree. has_float (view tree) ≡ false) }
    ensures nested { IfOk result (λ tree. depth (view tree) ≤ max_depth) }
{
    let lookups = Lookups::open(alloc, Closed { model })?;
    solution_tree_over(alloc, &lookups, routes, first_cost, report)
}

/// The line of a solution, as `solution_line` gives it, over what was looked up of the model.
pub fn solution_line_over(
    alloc: Global,
    lookups: &Lookups<'_>,
    routes: &Routes,
    first_cost: i64,
    report: Report,
) -> Result<Seq<u8>, NoMemory>
    requires valid { IsTrue (is_valid lookups.now.closed.model.now routes.now.lists) }
    ensures text { let wanted = solution.solution_tree lookups.now.closed.model.now routes.now.lists first_cost
        report in IfOk result (λ line. line ≡ text_line wanted) }
    ensures reads_back { let wanted = solution.solution_tree lookups.now.closed.model.now routes.now.lists first_cost
        report in IfOk result (λ line. read line ≡ Some wanted) }
{
    let tree = solution_tree_over(alloc, lookups, routes, first_cost, report)?;
    to_line(alloc, &tree)
}

/// The line of valid routes of a model: the text of their tree, and a line feed. Reading it gives the tree back. Tests
/// alone ask it.
///
/// `NoMemory` if memory is out.
pub fn solution_line(
    alloc: Global,
    model: &Model,
    routes: &Routes,
    first_cost: i64,
    report: Report,
) -> Result<Seq<u8>, NoMemory>
    requires well_formed { IsWellFormed model.now }
    requires valid { IsTrue (is_valid model.now routes.now.lists) }
    ensures text { let wanted = solution.solution_tree model.now routes.now.lists first_cost report in
        IfOk result (λ line. line ≡ text_line wanted) }
    ensures reads_back { let wanted = solution.solution_tree model.now routes.now.lists first_cost report in
        IfOk result (λ line. read line ≡ Some wanted) }
{
    let lookups = Lookups::open(alloc, Closed { model })?;
    solution_line_over(alloc, &lookups, routes, first_cost, report)
}
