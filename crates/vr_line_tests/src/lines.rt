//! The lines that are asked: one vehicle from node 0 to node 0 that visits node 1.

ghost use Rattle.std.specs.Prelude.{IfSome};
ghost use Rattle.vr_model.specs.tables.WellFormed.{IsWellFormed};
ghost use Rattle.vr_steps.specs.Lines.{IsSoundLine};

use std::alloc::Global;
use vr_model::Model;
use vr_samples::read_model_text;
use vr_steps::Line;

// Node 1 is 5 from node 0 by the first matrix, 10 by the second and 0 by the third.
const TEXT: &str =
    r#"{"format":1,"nodes":2,"matrices":[[[0,5],[5,0]],[[0,10],[10,0]],[[0,0],[0,0]]],
"vehicles":[{"start":0,"end":0}],"dimensions":[{"name":"time",FIELDS}]}"#;

/// The model of a dimension with these fields.
pub fn model_of(alloc: Global, fields: &str) -> Option<Model>
    ensures { IfSome result IsWellFormed }
{
    match TEXT.replace(alloc, "FIELDS", fields) {
        Ok(text) => read_model_text(alloc, text.as_str()),
        Err(_) => None,
    }
}

/// The line in a dimension; none if the model has no such dimension or no such visit.
pub fn line_in(alloc: Global, model: &Model, d: u32) -> Option<Line>
    requires { IsWellFormed model.now }
    ensures { IfSome result IsSoundLine }
{
    if model.dimensions.len() <= d as usize {
        return None;
    }
    if !model.is_visit(1) {
        return None;
    }
    match Line::build(alloc, model, d, 0, &[1]) {
        Ok(line) => Some(line),
        Err(_) => None,
    }
}

/// The line in a dimension with these fields; none if there is no model of them.
pub fn line_of(alloc: Global, fields: &str) -> Option<Line>
    ensures { IfSome result IsSoundLine }
{
    match model_of(alloc, fields) {
        Some(model) => line_in(alloc, &model, 0),
        None => None,
    }
}
