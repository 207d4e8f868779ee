//! Dimensions that go back: negative transits, with breaks or span costs. They are refused, since two laws of
//! `vr_model` hold only without them. Lines with breaks are sound (`lines_are_sound`), and no span that is paid for is
//! negative (`costs_are_bounded`).

ghost use Rattle.std.specs.Prelude.{◌≡◌, ◌<◌, ◌==◌, length, not, pos};
ghost use Rattle.std.specs.List.{list_any};
ghost use Rattle.vr_model.specs.tables.ModelRules as model_rules;
ghost use Rattle.vr_model.specs.tables.Numbers.{is_same_number};
ghost use Rattle.vr_model.specs.tables.WellFormed.{IsDimension, IsEvaluator};
ghost use Rattle.vr_read.specs.Backward as backward;
ghost use Rattle.vr_read.specs.Backward.{is_backward_dimension};

use crate::tabled::Tabled;
use vr_model::{Dimension, Evaluator};

/// Whether a dimension has breaks or span costs, and some vehicle a negative transit in it between
/// two distinct nodes.
pub(crate) fn goes_back(of: Tabled<'_>, dimension: &Dimension) -> bool
    requires dimension { IsDimension of.model.now dimension.now }
    ensures { result ≡ is_backward_dimension of.entry.model.now dimension.now }
{
    (has_breaks(dimension) || has_span_costs(dimension)) && has_backward_vehicle(of, dimension)
}

// Whether some vehicle has a break.
fn has_breaks(dimension: &Dimension) -> bool
    ensures { result ≡ model_rules.has_breaks dimension.now }
{
    dimension
        .breaks
        .as_slice()
        .iter()
        .any(|entry| !entry.rows.is_empty())
}

// Whether a coefficient is not 0.
fn is_cost(coefficient: i64) -> bool
    ensures { result ≡ not (is_same_number coefficient (pos 0)) }
{
    coefficient != 0
}

// Whether some coefficient is not 0.
fn has_cost(coefficients: &[i64]) -> bool
    ensures { result
        ≡ list_any (λ coefficient. not (is_same_number coefficient (pos 0))) coefficients.now }
{
    coefficients.iter().any(|coefficient| is_cost(*coefficient))
}

// Whether the span of some vehicle, or of all together, has a cost.
fn has_span_costs(dimension: &Dimension) -> bool
    ensures { result ≡ model_rules.has_span_costs dimension.now }
{
    has_cost(dimension.span_costs.as_slice()) || is_cost(dimension.global_span_cost)
}

// Whether the evaluator of some vehicle goes back. Each evaluator that is used is looked at once at most, however many
// vehicles use it.
fn has_backward_vehicle(of: Tabled<'_>, dimension: &Dimension) -> bool
    requires dimension { IsDimension of.model.now dimension.now }
    ensures { result ≡ backward.has_backward_vehicle of.entry.model.now dimension.now }
{
    for k in 0..dimension.evaluators.len() {
        if is_used_backward(of, dimension, k as u32) {
            return true;
        }
    }
    false
}

// Whether evaluator `k` of a dimension goes back, and some vehicle uses it.
fn is_used_backward(of: Tabled<'_>, dimension: &Dimension, k: u32) -> bool
    requires dimension { IsDimension of.model.now dimension.now }
    requires evaluator { k < length dimension.now.evaluators }
    ensures { result ≡ backward.is_used_backward of.entry.model.now dimension.now k }
{
    is_used(dimension.vehicle_evaluators.as_slice(), k)
        && is_backward(of, dimension.evaluators.get(k as usize))
}

// Whether some vehicle uses evaluator `k`. `numbers` has for each vehicle the number of its evaluator.
fn is_used(numbers: &[u32], k: u32) -> bool
    ensures { result ≡ list_any (λ number. number == k) numbers.now }
{
    numbers.iter().any(|number| *number == k)
}

// Whether an evaluator gives a negative transit between two distinct nodes.
fn is_backward(of: Tabled<'_>, evaluator: &Evaluator) -> bool
    requires evaluator { IsEvaluator of.model.now evaluator.now }
    ensures { result ≡ backward.is_backward of.entry.model.now evaluator.now }
{
    for i in 0..of.model.nodes {
        if is_backward_from(of, evaluator, i) {
            return true;
        }
    }
    false
}

// Whether an evaluator gives a negative transit from node `i` to another.
fn is_backward_from(of: Tabled<'_>, evaluator: &Evaluator, i: u32) -> bool
    requires evaluator { IsEvaluator of.model.now evaluator.now }
    requires origin { i < of.model.now.nodes }
    ensures { result ≡ backward.is_backward_from of.entry.model.now evaluator.now i }
{
    for j in 0..of.model.nodes {
        if is_backward_arc(of, evaluator, i, j) {
            return true;
        }
    }
    false
}

// Whether an evaluator gives a negative transit from node `i` to node `j`, which is another.
fn is_backward_arc(of: Tabled<'_>, evaluator: &Evaluator, i: u32, j: u32) -> bool
    requires evaluator { IsEvaluator of.model.now evaluator.now }
    requires origin { i < of.model.now.nodes }
    requires target { j < of.model.now.nodes }
    ensures { result ≡ backward.is_backward_arc of.entry.model.now evaluator.now i j }
{
    i != j && evaluator.transit(of.model, i, j) < 0
}
