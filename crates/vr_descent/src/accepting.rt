//! The trait of what a search accepts.

ghost use Rattle.std.specs.Prelude.{◌≡◌, ℕ, ℤ, Bool, false, List, IfSome, IsTrue};
ghost use Rattle.vr_descent.specs.Refused.{CanAsk};
ghost use Rattle.vr_descent.specs.Scanned.{IsEnough, IsPassedOver};
ghost use Rattle.vr_model.specs.moves.Moves.{apply};
ghost use Rattle.vr_model.specs.routes.Rules.{is_valid};
ghost use Rattle.vr_model.specs.tables.WellFormed.{IsWellFormed};
ghost use Rattle.vr_model.specs.declared.neighbours.Move.{Move as Step};
ghost use Rattle.vr_model.specs.declared.records.Model.{Model as RoutingModel};
ghost use Rattle.vr_routes.specs.Changes.{IsChange};
ghost use Rattle.vr_routes.specs.Judging.{cost_change};

use vr_model::Move;
use vr_routes::{Change, Routes};

/// Says which moves a search takes. It means a model, and a test on lists, a move of theirs and the difference that the
/// move makes in cost. It is only asked about lists that it is in sync with (`stands_at`). It knows no judge: what one
/// says of a move is handed in.
pub trait Accept {
    ghost model: { Self → RoutingModel };

    /// It is in sync with these lists: what it keeps of lists is of them.
    ghost stands_at: { Self → List (List ℕ) → Type 0 };

    /// Whether a move of lists is taken that makes this difference in cost.
    ghost takes: { Self → List (List ℕ) → Step → ℤ → Bool };

    /// Whether the move is taken. A scan asks `accepts_change`, which asks this only if it has no body of its own.
    /// Takes no memory.
    fn accepts(&self, routes: &Routes, mv: Move, difference: i64) -> bool
        requires asks { CanAsk (model self.now) (stands_at self.now routes.now.lists) routes.now mv }
        requires after { IsTrue (is_valid (model self.now) (apply (model self.now) routes.now.lists mv)) }
        requires difference { difference ≡ cost_change (model self.now) routes.now.lists mv }
        ensures { result ≡ takes self.now routes.now.lists mv difference };

    /// Whether the move is taken, as `accepts` says. The caller hands in the change that the move makes, so that it
    /// need not be written again. Takes no memory.
    #[inline]
    fn accepts_change(&self, routes: &Routes, mv: Move, change: &Change, difference: i64) -> bool
        requires asks { CanAsk (model self.now) (stands_at self.now routes.now.lists) routes.now mv }
        requires after { IsTrue (is_valid (model self.now) (apply (model self.now) routes.now.lists mv)) }
        requires difference { difference ≡ cost_change (model self.now) routes.now.lists mv }
        requires change { IsChange (model self.now) routes.now.lists mv change.now }
        ensures { result ≡ takes self.now routes.now.lists mv difference }
    {
        self.accepts(routes, mv, difference)
    }

    /// Bounds the differences that may be taken in a run of moves, which differ from this one in their last number
    /// alone. None of them is taken with the answer as its difference, or with more. The numbers of `mv`, of which the
    /// last is any, need not be those of a move. `None` if no such bound is known, whichever the last number is. A scan
    /// asks this of a run of moves, and hands the answer to `Judge::first_below`. Takes no memory.
    #[inline]
    fn open_below(&self, routes: &Routes, mv: Move) -> Option<i64>
        requires well_formed { IsWellFormed (model self.now) }
        requires stands { stands_at self.now routes.now.lists }
        requires valid { IsTrue (is_valid (model self.now) routes.now.lists) }
        ensures enough { IfSome result (IsEnough (model self.now) (takes self.now) routes.now.lists mv) }
    {
        None
    }

    /// Whether the move may be taken with a difference of `least` or more. If the answer is false, it is taken with
    /// none of these. A scan asks this before it has a move judged, and hands in the change that the move makes. Takes
    /// no memory.
    fn may_accept(&self, routes: &Routes, mv: Move, change: &Change, least: i64) -> bool
        requires asks { CanAsk (model self.now) (stands_at self.now routes.now.lists) routes.now mv }
        requires change { IsChange (model self.now) routes.now.lists mv change.now }
        ensures passed { result ≡ false → IsPassedOver (model self.now) (takes self.now) routes.now.lists mv least }
    {
        true
    }
}
