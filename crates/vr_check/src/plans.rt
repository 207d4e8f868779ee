//! The rules on plans: cumuls, slacks and breaks.

ghost use Rattle.std.specs.Prelude.{◌≡◌, ◌<◌, length, pos};
ghost use Rattle.vr_model.specs.tables.Numbers.{within};
ghost use Rattle.vr_model.specs.schedules.Schedules.{cumul, slack};
ghost use Rattle.vr_model.specs.deciding.ScheduleTests.{slack_is};
ghost use Rattle.vr_check.specs.Asked.{asked_line};
ghost use Rattle.vr_check.specs.Plans as plans;
ghost use Rattle.vr_check.specs.Plans.{break_broken, cumul_broken, plan_broken, route_broken, routes_broken};
ghost use Rattle.vr_check.specs.Plans.{slack_broken};
ghost use Rattle.vr_check.specs.Terms as terms;
ghost use Rattle.vr_printed.specs.Printed.{plan_of};

use crate::breaks::are_breaks_right;
use crate::finding::Spot;
use crate::printed::{LinePlan, Solution, VehicleRoute};
use vr_printed::PrintedPlan;

/// One of the rules that look at each plan. One is asked of the plans of all vehicles before the next is.
#[derive(Clone, Copy)]
pub(crate) enum PlanRule {
    Cumul,
    Slack,
    Break,
}

// The first stop that does not allow its cumul.
fn refused_cumul(of: &LinePlan<'_>) -> Option<Spot>
    ensures { result ≡ cumul_broken (asked_line of.now.asked) of.now.asked.v (plan_of of.now.plan.now) }
{
    for k in 0..of.plan.cumuls.len() {
        if !of.asked.allows(k, cumul_at(of.plan, k)) {
            return Some(Spot::at(of.asked.v, k));
        }
    }
    None
}

/// The slack of arc `k` of a printed plan.
pub(crate) fn slack_at(plan: &PrintedPlan, k: usize) -> i64
    requires { k < length plan.now.slacks }
    ensures { result ≡ slack (plan_of plan.now) k }
{
    *plan.slacks.get(k)
}

/// The cumul of stop `k` of a printed plan.
pub(crate) fn cumul_at(plan: &PrintedPlan, k: usize) -> i64
    requires { k < length plan.now.cumuls }
    ensures { result ≡ cumul (plan_of plan.now) k }
{
    *plan.cumuls.get(k)
}

// What the cumuls of an arc leave over its transit.
fn left_over(of: &LinePlan<'_>, k: usize) -> i128
    requires arc { k < length of.now.plan.now.slacks }
    ensures { result ≡ terms.left_over (asked_line of.now.asked) (plan_of of.now.plan.now) k }
{
    let span = i128::from(cumul_at(of.plan, k + 1)) - i128::from(cumul_at(of.plan, k));
    span - i128::from(of.asked.transit(k))
}

// Whether a slack is what its cumuls leave over the transit.
fn is_left(of: &LinePlan<'_>, k: usize) -> bool
    requires arc { k < length of.now.plan.now.slacks }
    ensures { result ≡ slack_is (asked_line of.now.asked) (plan_of of.now.plan.now) k }
{
    i128::from(slack_at(of.plan, k)) == left_over(of, k)
}

// Whether a slack is within its bounds.
fn is_bounded(greatest: i64, number: i64) -> bool
    ensures { result ≡ within (pos 0) greatest number }
{
    0 <= number && number <= greatest
}

// Whether a slack is right.
fn is_right_slack(of: &LinePlan<'_>, k: usize) -> bool
    requires arc { k < length of.now.plan.now.slacks }
    ensures { result ≡ plans.is_right_slack (asked_line of.now.asked) (plan_of of.now.plan.now) k }
{
    is_left(of, k) && is_bounded(of.asked.slack_max(), slack_at(of.plan, k))
}

// The first arc whose slack is wrong.
fn wrong_slack(of: &LinePlan<'_>) -> Option<Spot>
    ensures { result ≡ slack_broken (asked_line of.now.asked) of.now.asked.v (plan_of of.now.plan.now) }
{
    for k in 0..of.plan.slacks.len() {
        if !is_right_slack(of, k) {
            return Some(Spot::at(of.asked.v, k));
        }
    }
    None
}

// A spot if the breaks of a plan are wrong. What is answered as the place is the number of the dimension.
fn wrong_breaks(of: &LinePlan<'_>) -> Option<Spot>
    ensures { result ≡ break_broken (asked_line of.now.asked) of.now.asked.d of.now.asked.v (plan_of of.now.plan.now) }
{
    if are_breaks_right(of) {
        None
    } else {
        Some(Spot::at(of.asked.v, of.asked.d))
    }
}

// The spot at which a rule is broken in a plan.
fn wrong_plan(rule: PlanRule, of: &LinePlan<'_>) -> Option<Spot>
    ensures { result ≡ plan_broken rule (asked_line of.now.asked) of.now.asked.d of.now.asked.v
        (plan_of of.now.plan.now) }
{
    match rule {
        PlanRule::Cumul => refused_cumul(of),
        PlanRule::Slack => wrong_slack(of),
        PlanRule::Break => wrong_breaks(of),
    }
}

// The spot at which a rule is broken in a route, dimension after dimension.
fn wrong_route(rule: PlanRule, on: &VehicleRoute<'_>) -> Option<Spot>
    ensures { result ≡ route_broken rule on.now.closed.model.now on.now.v on.now.route.now }
{
    for d in 0..on.route.plans.len() {
        let of = on.plan(d);
        let spot = wrong_plan(rule, &of);
        if spot.is_some() {
            return spot;
        }
    }
    None
}

/// The spot at which a rule is broken in a plan, vehicle after vehicle.
pub(crate) fn wrong_routes(rule: PlanRule, solution: &Solution<'_>) -> Option<Spot>
    ensures { result ≡ routes_broken rule solution.now.closed.model.now solution.now.routes.now }
{
    let routes = solution.routes;
    for v in 0..routes.len() {
        let on = solution.route(v);
        let spot = wrong_route(rule, &on);
        if spot.is_some() {
            return spot;
        }
    }
    None
}
