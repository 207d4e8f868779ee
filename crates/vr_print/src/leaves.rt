//! Texts and arrays of numbers.

ghost use Rattle.std.specs.Prelude.{◌≡◌, IfOk};
ghost use Rattle.serde_json.specs.Data.{string};
ghost use Rattle.serde_json.specs.View.{view};
ghost use Rattle.vr_print.specs.Numbers as numbers;

use serde_json::Value;
use std::alloc::Global;
use vr_model::NoMemory;

/// A text as a value.
pub(crate) fn text(alloc: Global, text: &str) -> Result<Value, NoMemory>
    ensures { IfOk result (λ v. view v ≡ string text.now) }
{
    Ok(Value::String(String::from_str(alloc, text)?))
}

/// An array of natural numbers: of nodes.
pub(crate) fn counts(alloc: Global, nodes: &[u32]) -> Result<Value, NoMemory>
    ensures { IfOk result (λ v. view v ≡ numbers.counts nodes.now) }
{
    let mut items = Vec::new(alloc);
    for &node in nodes {
        items.push(Value::from(node))?;
    }
    Ok(Value::Array(items))
}

/// An array of whole numbers, in their order: of cumuls, slacks or starts of breaks. `vr_app` asks it too, for the
/// schedules that `spans` writes. It fails only when out of memory.
pub fn wholes(alloc: Global, values: &[i64]) -> Result<Value, NoMemory>
    ensures { IfOk result (λ v. view v ≡ numbers.wholes values.now) }
{
    let mut items = Vec::new(alloc);
    for &value in values {
        items.push(Value::from(value))?;
    }
    Ok(Value::Array(items))
}
