//! Sums of what is taken along lists.

ghost use Rattle.std.specs.Prelude.{◌≡◌, ◌<◌, ◌≤◌, All, length};
ghost use Rattle.vr_model.specs.tables.Numbers.{total_by};
ghost use Rattle.vr_model.specs.tables.Tables.{dimension_at};
ghost use Rattle.vr_balance.specs.Sums.{IsUpTo};
ghost use Rattle.vr_loads.specs.Kept.{AreTaken};
ghost use Rattle.vr_loads.specs.Loads.{HasLoad, value_of};

use vr_balance::Sums;
use vr_model::Model as RoutingModel;

/// Writes what is taken along a list by an evaluator: before each place, and in all at the end.
pub fn write_sums(model: &RoutingModel, d: u32, evaluator: u32, list: &[u32], sums: &mut Sums)
    requires load { HasLoad model.now d }
    requires evaluator { evaluator < length (dimension_at model.now d).evaluators }
    requires nodes { All (λ node. node < model.now.nodes) list.now }
    requires few { length list.now ≤ 1000 }
    ensures { AreTaken (value_of model.now d evaluator) list.now sums.new }
{
    sums.restart();
    for k in 0..list.len() {
        sums.extend(value(model, d, evaluator, list[k]));
    }
}

/// What an evaluator gives for the nodes of a list, added up. It is asked of lists whose sums are by another evaluator.
pub fn sum_of(model: &RoutingModel, d: u32, evaluator: u32, list: &[u32]) -> i64
    requires load { HasLoad model.now d }
    requires evaluator { evaluator < length (dimension_at model.now d).evaluators }
    requires nodes { All (λ node. node < model.now.nodes) list.now }
    requires few { length list.now ≤ 1000 }
    ensures { result ≡ total_by (value_of model.now d evaluator) list.now }
{
    let mut sum = 0;
    for k in 0..list.len() {
        sum += value(model, d, evaluator, list[k]);
    }
    sum
}

/// What an evaluator gives for a node.
#[inline]
pub fn value(model: &RoutingModel, d: u32, evaluator: u32, node: u32) -> i64
    requires load { HasLoad model.now d }
    requires evaluator { evaluator < length (dimension_at model.now d).evaluators }
    requires node { node < model.now.nodes }
    ensures value { result ≡ value_of model.now d evaluator node }
    ensures range { IsUpTo 1 result }
{
    let dimension = model.dimensions.get(d as usize);
    dimension.evaluators.get(evaluator as usize).value(node)
}
