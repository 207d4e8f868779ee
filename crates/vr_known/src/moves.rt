//! The moves of a neighbourhood that are left to try, whichever it is.

ghost use Rattle.std.specs.Prelude.{◌≡◌, ◌+◌, ◌++◌};
ghost use Rattle.std.specs.Iterator.{YieldsFirst, item_count};
ghost use Rattle.vr_known.specs.Passing.{Looked, Takes, tries_taken};

use crate::{Known, Listed, Sieve, Stretch};
use std::marker::Model;
use vr_model::Move;

/// Moves that are left to try. Contracts see their list.
#[derive(Drop)]
pub struct Moves<L: Listed> {
    left: L,
}

impl<L: Listed> Model for Moves<L> {
    ghost use Rattle.std.specs.Prelude.{List};
    ghost use Rattle.vr_model.specs.declared.neighbours.Move.{Move as Moved};

    ghost Value = { List Moved };

    ghost view = { λ s. L.rest s.left };
}

impl<L: Listed> Moves<L> {
    /// All moves of these ranges, none taken yet.
    #[inline]
    pub fn new(left: L) -> Moves<L>
        ensures { result ≡ L.rest left }
    {
        Moves { left }
    }

    /// Takes the first of the moves that are left after some that are passed over, which are counted. `None` if none is
    /// left after these. `vr_descent` asks it.
    #[inline(always)]
    pub fn step<S: Sieve>(
        &mut self,
        sieve: &S,
        judge: &mut S::Judge,
        passed: &mut u64,
    ) -> Option<Move>
        requires ready { S.is_ready sieve.now }
        requires can_ask { S.can_ask sieve.now judge.old }
        ensures takes { Takes (S.covers sieve.now) self.old passed.old result self.new passed.new }
        ensures looked { Looked (S.can_ask sieve.now) S.judged S.looked (S.tries sieve.now)
            judge.old passed.old judge.new (passed.new + tries_taken result) }
    {
        self.left.step(sieve, judge, passed)
    }

    /// Takes the moves at the front that differ from the move taken last in their last number alone. It does so once
    /// the sieve knew nothing of them or is no longer asked. None if they are not said to be a run.
    #[inline(always)]
    pub fn stretch(&mut self) -> Stretch
        ensures { self.old ≡ result ++ self.new }
    {
        self.left.stretch()
    }
}

impl<L: Listed> Iterator for Moves<L> {
    type Item = Move;

    ghost next_gives = { YieldsFirst (λ moves. moves) };

    ghost remaining = { item_count (λ moves. moves) };

    // Nothing is known, so none is passed over. Tests alone go along the moves of one neighbourhood so.
    #[inline]
    fn next(&mut self) -> Option<Move> {
        let mut passed = 0;
        self.step(&Known::none(), &mut (), &mut passed)
    }
}
