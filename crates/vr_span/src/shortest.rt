//! The first of the pieces of the least span.

ghost use Rattle.std.specs.Prelude.{◌≡◌, IfSome, IsNone, []};
ghost use Rattle.vr_span.specs.Pieces.{ArePieces, BeginsInHorizon, IsShortest, shorter_of};

use crate::pieces::Piece;

// The first of the pieces of the least span; `None` exactly if there is no piece.
pub(crate) fn shortest(pieces: &[Piece]) -> Option<Piece>
    requires { ArePieces pieces.now }
    ensures some { IfSome result (IsShortest pieces.now) }
    ensures none { IsNone result → pieces.now ≡ [] }
{
    let mut best = None;
    let mut k = pieces.len();
    'pieces: while k > 0 {
        k -= 1;
        best = Some(shorter(pieces[k], best));
    }
    best
}

// The piece of the lesser span, which is its first cumul less the greatest start of that; of equal spans the one in
// front.
fn shorter(piece: Piece, behind: Option<Piece>) -> Piece
    requires piece { BeginsInHorizon piece }
    requires behind { IfSome behind BeginsInHorizon }
    ensures { result ≡ shorter_of piece behind }
{
    let Some(other) = behind else {
        return piece;
    };
    if other.lo - other.first < piece.lo - piece.first {
        other
    } else {
        piece
    }
}
