//! From the bytes of an input to its value, and from there to its model.

ghost use Rattle.std.specs.Prelude.{◌≡◌, IfOk, option_map};
ghost use Rattle.serde_json.specs.View.{view};
ghost use Rattle.vr_json.specs.Reading.{Answers as ModelAnswers};
ghost use Rattle.vr_model.specs.tables.WellFormed.{IsWellFormed};
ghost use Rattle.vr_app.specs.Input.{model_of_value, input_value};

use serde_json::Value;
use std::alloc::Global;
use vr_json::{Path, ReadFail};
use vr_model::{Model, NoMemory};
use vr_read::read_model;

// The value of an input, none if it is no JSON.
fn parse(alloc: Global, bytes: &[u8]) -> Result<Option<Value>, NoMemory>
    ensures { IfOk result (λ value. option_map view value ≡ input_value bytes.now) }
{
    match Value::from_slice(alloc, bytes) {
        Ok(value) => Ok(Some(value)),
        Err(error) if error.is_memory() => Err(NoMemory),
        Err(_) => Ok(None),
    }
}

/// The value of an input, whose bytes are let go. It is `None` if the input is no JSON: no UTF-8, or no value that
/// `serde_json` reads. `NoMemory` if out of memory.
pub fn parse_owned(alloc: Global, bytes: Vec<u8>) -> Result<Option<Value>, NoMemory>
    ensures { IfOk result (λ value. option_map view value ≡ input_value bytes.items) }
{
    parse(alloc, &bytes)
}

/// The model of a value, which is let go; the first fault of reading it, or out of memory.
pub fn read_owned(alloc: Global, value: Value) -> Result<Model, ReadFail>
    ensures model { ModelAnswers result (model_of_value (view value)) }
    ensures well_formed { IfOk result IsWellFormed }
{
    read_model(alloc, &value, &Path::root(alloc))
}
