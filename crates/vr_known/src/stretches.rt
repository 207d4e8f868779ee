//! Stretches of moves that differ in their last number.

ghost use Rattle.std.specs.Prelude.{◌≡◌, [], map};
ghost use Rattle.vr_known.specs.Passing.{IsFirst};
ghost use Rattle.vr_model.specs.tables.Numbers.{from_to};
ghost use Rattle.vr_routes.specs.Runs.{with_last};

use std::marker::Model;
use vr_model::Move;
use vr_routes::with_last;

/// Moves whose last numbers are those of a range, and which are else the same: `Run::stretch` makes one, and the list
/// of moves of `vr_descent` takes from it. Contracts see their list.
#[derive(Drop)]
pub struct Stretch {
    mv: Move,
    from: u32,
    end: u32,
}

impl Model for Stretch {
    ghost use Rattle.std.specs.Prelude.{List, map};
    ghost use Rattle.vr_model.specs.declared.neighbours.Move.{Move as Moved};
    ghost use Rattle.vr_model.specs.tables.Numbers.{from_to};
    ghost use Rattle.vr_routes.specs.Runs.{with_last};

    ghost Value = { List Moved };

    ghost view = { λ s. map (with_last s.mv) (from_to s.from s.end) };
}

impl Stretch {
    /// No moves.
    #[inline(always)]
    pub fn none() -> Stretch
        ensures { result ≡ [] }
    {
        Stretch::new(Move::PairInactive { p: 0 }, 0, 0)
    }

    /// The moves of the last numbers from `from` on, below `end`. The last number of `mv` is any.
    #[inline(always)]
    pub fn new(mv: Move, from: u32, end: u32) -> Stretch
        ensures { result ≡ map (with_last mv) (from_to from end) }
    {
        Stretch { mv, from, end }
    }

    /// Takes the first of the moves that are left.
    #[inline(always)]
    pub fn take(&mut self) -> Option<Move>
        ensures { IsFirst self.old result self.new }
    {
        let from = self.from;
        if from >= self.end {
            return None;
        }
        self.from = from + 1;
        Some(with_last(self.mv, from))
    }
}
