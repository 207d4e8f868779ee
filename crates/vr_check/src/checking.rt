//! The check of a printed solution.

ghost use Rattle.std.specs.Prelude.{◌≡◌, IfOk, IsTrue};
ghost use Rattle.serde_json.specs.View.{view};
ghost use Rattle.vr_model.specs.tables.WellFormed.{IsWellFormed};
ghost use Rattle.vr_printed.specs.Printed.{lists_of};
ghost use Rattle.vr_printed.specs.Shape.{are_routes_shaped};
ghost use Rattle.vr_check.specs.Check as checks;
ghost use Rattle.vr_check.specs.Check.{finding};

use crate::finding::Spot;
use crate::lists::{repeated, wrong_ends};
use crate::numbers::{wrong_cost, wrong_first_cost, wrong_limits, wrong_parts};
use crate::pairs::{refused, wrong_pair, wrong_policy};
use crate::plans::{PlanRule, wrong_routes};
use crate::printed::Solution;
use crate::visits::{missing, wrong_dropped, wrong_group};
use crate::{Finding, Rule};
use serde_json::Value;
use std::alloc::Global;
use vr_model::{Closed, Model, NoMemory, Seq};
use vr_printed::{Printed, printed_lists, read_printed};

/// What the check finds in the solution that a tree prints. If the solution keeps each rule of the model, that is its
/// cost. Else it is the first rule that is broken, in the order of `Rule`, with its vehicle and place. A tree of
/// another shape breaks the first rule. Each printed plan has to be a schedule, and need not be the chosen one.
/// `NoMemory` if out of memory.
pub fn check(alloc: Global, model: &Model, solution: &Value) -> Result<Finding, NoMemory>
    requires { IsWellFormed model.now }
    ensures { IfOk result (λ found. found ≡ finding model.now (view solution.now)) }
{
    match read_printed(alloc, model, solution)? {
        None => Ok(Rule::Shape.broken(Spot::nowhere())),
        Some(printed) => {
            let lists = printed_lists(alloc, printed.routes.as_slice())?;
            lists_finding(alloc, Closed { model }, &printed, lists.as_slice())
        }
    }
}

// What the rules on lists find, and those after them.
fn lists_finding<'a>(
    alloc: Global,
    closed: Closed<'a>,
    printed: &'a Printed,
    lists: &'a [Seq<u32>],
) -> Result<Finding, NoMemory>
    requires lists { lists.now ≡ lists_of printed.now.routes }
    requires shaped { IsTrue (are_routes_shaped closed.model.now printed.now.routes) }
    ensures { IfOk result (λ found. found ≡ checks.lists_finding closed.entry.model.now printed.now lists.now) }
{
    let routes = printed.routes.as_slice();
    if let Some(spot) = wrong_ends(closed, routes) {
        return Ok(Rule::Ends.broken(spot));
    }
    if let Some(spot) = repeated(lists) {
        return Ok(Rule::Once.broken(spot));
    }
    // made only here: that its lists hold visits, none of them twice, is known by the two rules before
    let solution = Solution {
        closed,
        printed,
        lists,
        routes,
    };
    visits_finding(alloc, &solution)
}

// What the rules on active visits, pairs and vehicles find, and those after them.
fn visits_finding(alloc: Global, solution: &Solution<'_>) -> Result<Finding, NoMemory>
    ensures { IfOk result (λ found. found ≡ checks.visits_finding solution.now.closed.model.now
        solution.now.printed.now solution.now.lists.now) }
{
    let model = solution.closed.model;
    let lists = solution.lists;
    if let Some(spot) = wrong_dropped(model, lists, solution.printed.dropped.as_slice()) {
        return Ok(Rule::Dropped.broken(spot));
    }
    if let Some(spot) = missing(model, lists) {
        return Ok(Rule::Required.broken(spot));
    }
    if let Some(spot) = wrong_group(solution.closed, lists) {
        return Ok(Rule::Group.broken(spot));
    }
    if let Some(spot) = wrong_pair(solution.closed, lists) {
        return Ok(Rule::Pair.broken(spot));
    }
    if let Some(spot) = wrong_policy(alloc, solution.closed, lists)? {
        return Ok(Rule::Policy.broken(spot));
    }
    if let Some(spot) = refused(solution.closed, lists) {
        return Ok(Rule::Allowed.broken(spot));
    }
    Ok(plans_finding(solution))
}

// What the rules on plans find, and those after them.
fn plans_finding(solution: &Solution<'_>) -> Finding
    ensures { result ≡ checks.plans_finding solution.now.closed.model.now solution.now.printed.now }
{
    if let Some(spot) = wrong_routes(PlanRule::Cumul, solution) {
        return Rule::Cumul.broken(spot);
    }
    if let Some(spot) = wrong_routes(PlanRule::Slack, solution) {
        return Rule::Slack.broken(spot);
    }
    if let Some(spot) = wrong_routes(PlanRule::Break, solution) {
        return Rule::Break.broken(spot);
    }
    numbers_finding(solution)
}

// What the rules on numbers find, in the order of `Rule`.
fn numbers_finding(solution: &Solution<'_>) -> Finding
    ensures { result ≡ checks.numbers_finding solution.now.closed.model.now solution.now.printed.now }
{
    let printed = solution.printed;
    if let Some(spot) = wrong_parts(solution) {
        return Rule::Parts.broken(spot);
    }
    if let Some(spot) = wrong_cost(printed) {
        return Rule::Cost.broken(spot);
    }
    if let Some(spot) = wrong_first_cost(printed) {
        return Rule::FirstCost.broken(spot);
    }
    if let Some(spot) = wrong_limits(solution.closed.model, printed) {
        return Rule::Limits.broken(spot);
    }
    Finding::Meets { cost: printed.cost }
}
