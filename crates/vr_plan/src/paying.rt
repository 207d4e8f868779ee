//! Whether the schedules of a list, or of any list in a dimension, may cost anything by themselves. They may by soft
//! upper bounds and by the spans of vehicles; global spans are left out.

ghost use Rattle.std.specs.Prelude.{◌≡◌, ◌<◌, All, IsTrue, length};
ghost use Rattle.std.specs.List.{list_all};
ghost use Rattle.std.specs.Option.{option_copied};
ghost use Rattle.vr_model.specs.tables.Tables.{dimension_at, is_visit};
ghost use Rattle.vr_model.specs.tables.WellFormed.{IsWellFormed};
ghost use Rattle.vr_plan.specs.Paying.{are_hard, are_zero, has_soft, is_free, is_hard, may_pay_alone, visits_soft};
ghost use Rattle.vr_lists.specs.Places.{ArePlaces};
ghost use Rattle.vr_plan.specs.Tables.{keys_of, IsTable};

use crate::tables::{Table, row_of};
use vr_model::{Dimension, Model, Seq, StopRow};

/// Whether schedules of a list may cost anything by themselves in dimension `d`. They may if the vehicle has a
/// coefficient of spans that is not 0, or if some stop has a soft upper bound.
///
/// If they may not, `PlanCost` of `vr_costfilter` does not ask `timing_of` for the list. `GlobalSpan` does, if global
/// spans cost anything. `vr_rules` asks for both at once; it does not ask if global spans cost nothing either.
pub fn may_pay_alone(model: &Model, table: &Table, d: u32, v: u32, list: &[u32]) -> bool
    requires well_formed { IsWellFormed model.now }
    requires dimension { d < length model.now.dimensions }
    requires vehicle { v < length model.now.vehicles }
    requires visits { IsTrue (list_all (is_visit model.now) list.now) }
    requires table { IsTable model.now d table.now }
    ensures { result ≡ may_pay_alone (dimension_at model.now d) v list.now }
{
    if table.is_free {
        return false;
    }
    list_pays(model.dimensions.get(d as usize), &table.row_places, v, list)
}

// Whether no schedule of any list may cost anything by itself in a dimension.
pub(crate) fn is_free(dimension: &Dimension) -> bool
    ensures { result ≡ is_free dimension.now }
{
    are_zero(&dimension.span_costs) && is_hard(dimension)
}

// Whether no stop of a dimension has a soft upper bound. If so, of a tight schedule the two ends alone matter:
// `vr_costfilter` asks it (`Table::is_hard`) and keeps no cumuls between them.
pub(crate) fn is_hard(dimension: &Dimension) -> bool
    ensures { result ≡ is_hard dimension.now }
{
    are_hard(&dimension.starts) && are_hard(&dimension.nodes) && are_hard(&dimension.ends)
}

// Whether all coefficients are 0.
fn are_zero(coefficients: &Seq<i64>) -> bool
    ensures { result ≡ are_zero coefficients.now }
{
    coefficients
        .as_slice()
        .iter()
        .all(|&coefficient| coefficient == 0)
}

// Whether no row of stops has a soft upper bound: what `is_hard` asks of all rows of a dimension.
fn are_hard(rows: &Seq<StopRow>) -> bool
    ensures { result ≡ are_hard rows.now }
{
    rows.as_slice().iter().all(|row| row.soft.is_none())
}

// Whether the row of a stop has a soft upper bound.
fn has_soft(row: Option<&StopRow>) -> bool
    ensures { result ≡ has_soft (option_copied row.entry) }
{
    match row {
        Some(row) => row.soft.is_some(),
        None => false,
    }
}

// Whether some visit of a list has a soft upper bound.
fn visits_soft(dimension: &Dimension, places: &[u32], list: &[u32]) -> bool
    requires places { ArePlaces (length places.now) (keys_of dimension.now.nodes) places.now }
    requires list { All (λ node. node < length places.now) list.now }
    ensures { result ≡ visits_soft dimension.now list.now }
{
    for &node in list {
        if has_soft(row_of(&dimension.nodes, places, node)) {
            return true;
        }
    }
    false
}

// Whether the vehicle has a coefficient of spans that is not 0, or some stop of the list has a soft upper bound.
fn list_pays(dimension: &Dimension, places: &[u32], v: u32, list: &[u32]) -> bool
    requires vehicle { v < length dimension.now.span_costs }
    requires places { ArePlaces (length places.now) (keys_of dimension.now.nodes) places.now }
    requires list { All (λ node. node < length places.now) list.now }
    ensures { result ≡ may_pay_alone dimension.now v list.now }
{
    if *dimension.span_costs.get(v as usize) != 0 {
        return true;
    }
    if has_soft(StopRow::of_key(&dimension.starts, v)) {
        return true;
    }
    if has_soft(StopRow::of_key(&dimension.ends, v)) {
        return true;
    }
    visits_soft(dimension, places, list)
}
