//! A model whose table was read, before the rules on the whole of it are asked.

ghost use Rattle.vr_read.specs.ModelParts.{HasModelParts, HasModelParts-prop};

use vr_model::Model;

/// A model that its table gives. What the rules rest on is known of it: its matrices, vehicles and dimensions are in
/// range. Of groups, pairs, allowed rows and the search nothing is known here.
#[derive(Clone, Copy)]
pub(crate) struct Tabled<'a> {
    pub(crate) model: &'a Model,
    pub ghost parts: { HasModelParts model.now } by { HasModelParts-prop model.now },
}
