//! Which dimensions are loads.

ghost use Rattle.std.specs.Prelude.{◌≡◌, ◌<◌, length, pos, int_le};
ghost use Rattle.std.specs.List.{list_all};
ghost use Rattle.vr_model.specs.tables.Numbers.{is_same_number};
ghost use Rattle.vr_loads.specs.Loads.{has_no_rows as is_without_rows, is_load as is_load_in};
ghost use Rattle.vr_loads.specs.Loads.{is_load_dimension as asks_nothing, only_adds as only_adds_to};

use vr_model::{Dimension, Evaluator, Model};

/// Whether dimension `d` is a load: it has no slack, no rows of stops and no breaks. Each of its evaluators gives
/// values of nodes alone, none of them negative. (With slack, sums would tell as well; such a dimension is walked as
/// any other.)
pub fn is_load(model: &Model, d: u32) -> bool
    requires dimension { d < length model.now.dimensions }
    ensures { result ≡ is_load_in model.now d }
{
    is_load_dimension(model.dimensions.get(d as usize))
}

fn is_load_dimension(dimension: &Dimension) -> bool
    ensures { result ≡ asks_nothing dimension.now }
{
    has_no_slack(dimension) && has_no_rows(dimension) && only_add(dimension.evaluators.as_slice())
}

fn has_no_slack(dimension: &Dimension) -> bool
    ensures { result ≡ is_same_number dimension.now.slack_max (pos 0) }
{
    dimension.slack_max == 0
}

// Whether nothing is asked of single stops, and there are no breaks.
fn has_no_rows(dimension: &Dimension) -> bool
    ensures { result ≡ is_without_rows dimension.now }
{
    dimension.nodes.is_empty()
        && dimension.starts.is_empty()
        && dimension.ends.is_empty()
        && dimension.breaks.is_empty()
}

fn only_add(evaluators: &[Evaluator]) -> bool
    ensures { result ≡ list_all only_adds_to evaluators.now }
{
    evaluators.iter().all(|evaluator| only_adds(evaluator))
}

// Whether an evaluator has no matrix, and no negative value.
fn only_adds(evaluator: &Evaluator) -> bool
    ensures { result ≡ only_adds_to evaluator.now }
{
    match evaluator.matrix {
        Some(_) => false,
        None => are_not_negative(evaluator.values.as_slice()),
    }
}

fn are_not_negative(values: &[i64]) -> bool
    ensures { result ≡ list_all (int_le (pos 0)) values.now }
{
    values.iter().all(|value| *value >= 0)
}
