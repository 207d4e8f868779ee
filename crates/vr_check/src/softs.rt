//! What printed cumuls cost above soft upper bounds, in 128 bits.

ghost use Rattle.std.specs.Prelude.{◌≡◌, ◌^◌, ◌-ℤ◌, pos};
ghost use Rattle.std.specs.Int.{int_max};
ghost use Rattle.std.specs.Option.{option_copied};
ghost use Rattle.vr_model.specs.tables.WellFormed.{IsSoft, IsStopRow, WherePresent};
ghost use Rattle.vr_model.specs.routes.Costs as costs;
ghost use Rattle.vr_check.specs.Asked.{stop_rows_of};
ghost use Rattle.vr_check.specs.Terms.{IsAround, soft_along};

use crate::numbers::times;
use crate::plans::cumul_at;
use crate::printed::LinePlan;
use vr_model::{Soft, StopRow};

// How far a cumul is above a bound.
fn above(cumul: i64, bound: i64) -> i128
    ensures value { result ≡ int_max (pos 0) (cumul -ℤ bound) }
    ensures range { IsAround (2 ^ 66) result }
{
    let above = i128::from(cumul) - i128::from(bound);
    if above <= 0 { 0 } else { above }
}

// What a cumul costs above a soft bound.
fn soft_cost(soft: Option<Soft>, cumul: i64) -> i128
    requires { WherePresent IsSoft soft }
    ensures value { result ≡ costs.soft_cost soft cumul }
    ensures range { IsAround (2 ^ 106) result }
{
    match soft {
        None => 0,
        Some(soft) => times(soft.coefficient, above(cumul, soft.bound)),
    }
}

// What a cumul costs by the row of its stop.
fn row_cost(row: Option<&StopRow>, cumul: i64) -> i128
    requires { WherePresent IsStopRow (option_copied row) }
    ensures value { result ≡ costs.row_cost (option_copied row.entry) cumul }
    ensures range { IsAround (2 ^ 106) result }
{
    match row {
        None => 0,
        Some(row) => soft_cost(row.soft, cumul),
    }
}

/// What the cumuls of a plan cost by the rows of their stops.
pub(crate) fn soft_of_plan(of: &LinePlan<'_>) -> i128
    ensures value { result ≡ soft_along (stop_rows_of of.now.asked) of.now.plan.now.cumuls }
    ensures range { IsAround (2 ^ 116) result }
{
    let mut total: i128 = 0;
    for k in 0..of.plan.cumuls.len() {
        total += row_cost(of.asked.row(k), cumul_at(of.plan, k));
    }
    total
}
