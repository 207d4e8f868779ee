//! Runs of moves: those that differ in their last number.

ghost use Rattle.std.specs.Prelude.{◌≡◌};
ghost use Rattle.vr_routes.specs.Runs.{with_last};

use vr_model::Move;

/// A move with another last number: the one that changes from move to move in the order of the moves of its kind.
/// Clauses on runs speak by it. In the code, only a stretch of a run makes its moves so (`vr_known::Stretch`).
#[inline(always)]
pub fn with_last(mv: Move, k: u32) -> Move
    ensures { result ≡ with_last mv k }
{
    match mv {
        Move::TwoOpt { v, a, .. } => Move::TwoOpt { v, a, b: k },
        Move::OrOpt { v, a, k: n, .. } => Move::OrOpt { v, a, k: n, t: k },
        Move::Relocate { v, a, w, .. } => Move::Relocate { v, a, w, t: k },
        Move::Exchange { v, a, w, .. } => Move::Exchange { v, a, w, b: k },
        Move::Cross { v, a, w, .. } => Move::Cross { v, a, w, b: k },
        Move::RelocatePair { p, w, s, .. } => Move::RelocatePair { p, w, s, t: k },
        Move::PairActive { p, w, s, .. } => Move::PairActive { p, w, s, t: k },
        Move::PairInactive { .. } => Move::PairInactive { p: k },
        Move::MakeActive { u, w, .. } => Move::MakeActive { u, w, t: k },
        Move::MakeInactive { v, .. } => Move::MakeInactive { v, a: k },
        Move::SwapActive { v, a, .. } => Move::SwapActive { v, a, u: k },
    }
}
