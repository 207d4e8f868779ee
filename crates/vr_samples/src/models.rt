//! Models of texts.

ghost use Rattle.std.specs.Prelude.{IfSome};
ghost use Rattle.vr_model.specs.tables.WellFormed.{IsWellFormed};

use serde_json::Value;
use std::alloc::Global;
use vr_json::Path;
use vr_model::Model;
use vr_read::read_model;

/// The model of a text, in the format of the program. It is `None` if the text is no JSON, reading refuses it, or
/// memory ran out.
pub fn read_model_text(alloc: Global, text: &str) -> Option<Model>
    ensures { IfSome result IsWellFormed }
{
    let path = Path::root(alloc);
    match Value::from_str(alloc, text) {
        Ok(value) => read_model(alloc, &value, &path).ok(),
        Err(_) => None,
    }
}
