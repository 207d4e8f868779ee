//! Moves that differ in their last number alone.

ghost use Rattle.std.specs.Prelude.{◌≡◌, ℕ, refl};
ghost use Rattle.vr_known.specs.Passing.{IsBlockOf};
ghost use Rattle.vr_model.specs.declared.neighbours.Move.{Move as Moved};
ghost use Rattle.vr_model.specs.moves.Moves.{is_other};
ghost use Rattle.vr_routes.specs.Runs.{with_last};

use crate::{Block, Numbered};
use vr_model::Move;

/// Moves that differ in their last number alone. Each kind has a type of its own, so that what makes a move knows its
/// kind.
pub trait Pattern: Drop {
    ghost move_at: { Self → ℕ → Moved };

    /// The move with this last number.
    fn make(&self, k: u32) -> Move
        ensures { result ≡ move_at self.now k };

    /// The block in which all these moves are. Its row and its vehicle are in range, so who makes a pattern keeps that
    /// its vehicles are below 100.
    fn block(&self) -> Block
        ensures { IsBlockOf result (move_at self.now) };

    ghost differ_in_last: { (s : Self) (k : ℕ) → with_last (move_at s 0) k ≡ move_at s k };
}

/// The moves of a pattern whose last number may be any.
#[derive(Drop)]
pub struct AnyLast<P: Pattern>(pub P);

impl<P: Pattern> Numbered for AnyLast<P> {
    ghost move_at = { λ s. P.move_at s.0 };

    #[inline]
    fn has(&self, _k: u32) -> bool {
        true
    }

    #[inline]
    fn make(&self, k: u32) -> Move {
        self.0.make(k)
    }

    #[inline]
    fn run(&self) -> Option<Move> {
        // the last number of this move may be any
        Some(self.0.make(0))
    }

    #[inline]
    fn block(&self) -> Option<Block> {
        Some(self.0.block())
    }

    #[inline]
    fn many(&self, from: u32, to: u32) -> u32 {
        to - from
    }
}

/// The moves of a pattern whose last number may be any but `but`: those of `or_opt`, whose chain is before that place
/// already.
#[derive(Drop)]
pub struct AnyLastBut<P: Pattern> {
    pub pattern: P,
    /// The number that is left out.
    pub but: u32,
}

impl<P: Pattern> Numbered for AnyLastBut<P> {
    ghost passes = { λ s k. is_other s.but k };

    ghost move_at = { λ s. P.move_at s.pattern };

    #[inline]
    fn has(&self, k: u32) -> bool {
        self.but != k
    }

    #[inline]
    fn make(&self, k: u32) -> Move {
        self.pattern.make(k)
    }

    #[inline]
    fn run(&self) -> Option<Move> {
        // the last number of this move may be any
        Some(self.pattern.make(0))
    }

    #[inline]
    fn block(&self) -> Option<Block> {
        Some(self.pattern.block())
    }

    #[inline]
    fn many(&self, from: u32, to: u32) -> u32 {
        if from <= self.but && self.but < to {
            return to - from - 1;
        }
        to - from
    }
}
