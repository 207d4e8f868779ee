//! What most works are done on.

ghost use Rattle.std.specs.Prelude.{◌≡◌, IsTrue};
ghost use Rattle.vr_model.specs.routes.Rules.{is_valid};
ghost use Rattle.vr_model.specs.tables.Tables.{visits};

use std::alloc::Global;
use vr_model::Closed;
use vr_routes::Routes;

/// A model and its first solution.
#[derive(Clone, Copy)]
pub(crate) struct Solved<'s> {
    pub(crate) alloc: Global,
    pub(crate) closed: Closed<'s>,
    pub(crate) routes: &'s Routes,
    pub(crate) ghost of_model: { routes.now.visits ≡ visits closed.model.now },
    pub(crate) ghost valid: { IsTrue (is_valid closed.model.now routes.now.lists) },
}
