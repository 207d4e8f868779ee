//! Whether a list is empty after a splice.

ghost use Rattle.std.specs.Prelude.{◌≡◌};
ghost use Rattle.vr_model.specs.routes.Routes.{is_empty};
ghost use Rattle.vr_parts.specs.Splices.{spliced, MayBeSpliced};

use vr_routes::{Piece, Routes, Splice};

/// Whether a list has no nodes after a splice. Its pieces are looked at only if no node stays at either end.
/// `vr_arccosts` and `vr_usecosts` ask it: an empty list is that of a vehicle that is not used, which pays for neither
/// arcs nor its use.
#[inline(always)]
pub fn is_left_empty(routes: &Routes, splice: Splice<'_>) -> bool
    requires { MayBeSpliced routes.now.lists splice.vehicle splice.front splice.behind splice.middle.now }
    ensures { let s = splice.entry in
        result ≡ is_empty (spliced routes.now.lists s.vehicle s.front s.behind s.middle.now) }
{
    if splice.front > 0 {
        return false;
    }
    if splice.behind < routes.len(splice.vehicle) {
        return false;
    }
    Piece::nodes_in(splice.middle) == 0
}
