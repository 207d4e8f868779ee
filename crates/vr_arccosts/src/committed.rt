//! The committed lists, and the arc costs that are kept of them.

ghost use Rattle.std.proofs.Props.{props};
ghost use Rattle.vr_model.specs.tables.WellFormedOnce.{IsWellFormed-prop};
ghost use Rattle.vr_arccosts.specs.Along.{StandsAlong};

use crate::ArcCost;
use vr_routes::Routes;

/// The committed lists, and the arc costs that are kept of them.
#[derive(Clone, Copy)]
pub(crate) struct Committed<'a, 'm> {
    pub(crate) kept: &'a ArcCost<'m>,
    pub(crate) routes: &'a Routes,
    pub ghost stands: { StandsAlong kept.now routes.now } by { Prim.hlevel (props, IsWellFormed-prop) },
}
