//! The rules on numbers: parts, cost, cost of the first solution, and limits.

ghost use Rattle.std.specs.Prelude.{◌≡◌, ◌<◌, ◌^◌, ◌+ℤ◌, ◌*ℤ◌, ◌≤ℤ◌, pos};
ghost use Rattle.vr_model.specs.tables.Numbers.{is_same_number, within};
ghost use Rattle.vr_model.specs.tables.Limits.{greatest_cost};
ghost use Rattle.vr_model.specs.tables.WellFormed.{IsIn};
ghost use Rattle.vr_model.specs.routes.Costs.{sum_of};
ghost use Rattle.vr_check.specs.Findings as findings;
ghost use Rattle.vr_check.specs.Parts as part_rules;
ghost use Rattle.vr_check.specs.Parts.{cost_broken, first_cost_broken, limits_broken, part_broken, parts_broken};
ghost use Rattle.vr_check.specs.Terms.{IsAround};

use crate::costs::penalty_of;
use crate::finding::Spot;
use crate::printed::Solution;
use crate::spans::global_of;
use crate::totals::{arcs_of, fixed_of, soft_of, span_of};
use vr_model::{Model, Parts};
use vr_printed::Printed;

/// A coefficient or a penalty times a number.
pub(crate) fn times(coefficient: i64, number: i128) -> i128
    requires coefficient { IsIn (pos 0) greatest_cost coefficient }
    requires number { IsAround (2 ^ 66) number }
    ensures value { result ≡ coefficient *ℤ number }
    ensures range { IsAround (2 ^ 106) result }
{
    i128::from(coefficient) * number
}

// The spot of a printed part that is not its value; `k` is its number, in byte order of the names.
fn wrong_part(k: usize, printed: i64, value: i128) -> Option<Spot>
    requires { k < 6 }
    ensures { result ≡ part_broken k printed value }
{
    if is_number(printed, value) {
        None
    } else {
        Some(Spot::of_none(k))
    }
}

// The first of two spots.
fn earlier(first: Option<Spot>, second: Option<Spot>) -> Option<Spot>
    ensures { result ≡ findings.earlier first second }
{
    match first {
        Some(spot) => Some(spot),
        None => second,
    }
}

/// The spot of a printed part of the cost that is not its value at the printed cumuls. It is the first in byte order of
/// the names. All six are added up in any case.
pub(crate) fn wrong_parts(solution: &Solution<'_>) -> Option<Spot>
    ensures { result ≡ parts_broken solution.now.closed.model.now solution.now.printed.now }
{
    let parts = &solution.printed.parts;
    let span = wrong_part(5, parts.span, span_of(solution));
    let soft = wrong_part(4, parts.soft, soft_of(solution));
    let penalty = wrong_part(
        3,
        parts.penalty,
        penalty_of(solution.closed, solution.lists),
    );
    let global = wrong_part(2, parts.global, global_of(solution));
    let fixed = wrong_part(1, parts.fixed, fixed_of(solution));
    let arcs = wrong_part(0, parts.arcs, arcs_of(solution));
    let later = earlier(penalty, earlier(soft, span));
    earlier(arcs, earlier(fixed, earlier(global, later)))
}

// The sum of three numbers.
fn sum_of_three(a: i64, b: i64, c: i64) -> i128
    ensures value { result ≡ a +ℤ (b +ℤ c) }
    ensures range { IsAround (2 ^ 70) result }
{
    i128::from(a) + (i128::from(b) + i128::from(c))
}

// The sum of the printed parts.
fn sum_of_parts(parts: &Parts) -> i128
    ensures { result ≡ sum_of parts.now }
{
    sum_of_three(parts.arcs, parts.fixed, parts.global)
        + sum_of_three(parts.penalty, parts.soft, parts.span)
}

// Whether a printed number is this one.
fn is_number(printed: i64, value: i128) -> bool
    ensures { result ≡ is_same_number printed value }
{
    i128::from(printed) == value
}

/// A spot if the cost is not the sum of the parts.
pub(crate) fn wrong_cost(printed: &Printed) -> Option<Spot>
    ensures { result ≡ cost_broken printed.now }
{
    if is_number(printed.cost, sum_of_parts(&printed.parts)) {
        None
    } else {
        Some(Spot::nowhere())
    }
}

/// A spot if the printed cost of the first solution is less than the cost. That solution is not known, so no more is
/// asked of it.
pub(crate) fn wrong_first_cost(printed: &Printed) -> Option<Spot>
    ensures { result ≡ first_cost_broken printed.now }
{
    if printed.cost <= printed.first_cost {
        None
    } else {
        Some(Spot::nowhere())
    }
}

// Whether a number lies in `least..=greatest`.
fn is_counted(least: i64, greatest: u64, number: i64) -> bool
    ensures { result ≡ within least (pos greatest) number }
{
    least <= number && i128::from(number) <= i128::from(greatest)
}

// Whether tries and solutions are within the limits of the model.
fn is_within_limits(model: &Model, printed: &Printed) -> bool
    ensures { result ≡ part_rules.is_within_limits model.now printed.now }
{
    is_counted(0, model.search.tries, printed.tries)
        && is_counted(1, model.search.solutions, printed.solutions)
}

/// A spot if tries or solutions are outside the limits of the model.
pub(crate) fn wrong_limits(model: &Model, printed: &Printed) -> Option<Spot>
    ensures { result ≡ limits_broken model.now printed.now }
{
    if is_within_limits(model, printed) {
        None
    } else {
        Some(Spot::nowhere())
    }
}
