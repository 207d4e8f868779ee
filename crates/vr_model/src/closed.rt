//! A model that is known to be well formed.

ghost use Rattle.vr_model.specs.tables.WellFormed.{IsWellFormed};
ghost use Rattle.vr_model.specs.tables.WellFormedOnce.{IsWellFormed-prop};

use crate::Model;

/// A model that is known to be well formed. Who knows it of a model writes `Closed { model }`, and all that is handed
/// the value knows it too. It costs no more than the reference and looks nothing up: what `CloseModel` looks up in
/// OR-Tools is `vr_plan::Lookups`.
#[derive(Clone, Copy)]
pub struct Closed<'m> {
    /// The model.
    pub model: &'m Model,
    /// It is well formed.
    pub ghost well_formed: { IsWellFormed model.now } by { IsWellFormed-prop model.now },
}
