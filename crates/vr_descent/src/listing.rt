//! The moves of lists that a search tries.

ghost use Rattle.std.specs.Prelude.{◌≡◌, ◌∷◌, ◌+◌, ◌++◌, MatchOption};
ghost use Rattle.vr_known.specs.Passing.{Looked, Takes, tries_taken};
ghost use Rattle.vr_model.specs.moves.Moves.{moves};
ghost use Rattle.vr_model.specs.tables.Tables.{visits};
ghost use Rattle.vr_model.specs.tables.WellFormed.{IsWellFormed};

use crate::generating::Generating;
use std::marker::Model;
use vr_known::{Known, Sieve, Stretch};
use vr_model::{Closed, Model as RoutingModel, Move};
use vr_routes::Routes;

/// The moves of lists that are left to try. Contracts see their list.
#[derive(Drop)]
pub struct MoveList<'a> {
    // the rest of a run of moves of which nothing could be known: each is one step of a number
    run: Stretch,
    behind: Generating<'a>,
}

impl<'a> Model for MoveList<'a> {
    ghost use Rattle.std.specs.Prelude.{◌++◌, List};
    ghost use Rattle.vr_model.specs.declared.neighbours.Move.{Move as Step};

    ghost Value = { List Step };

    ghost view = { λ list. list.run ++ list.behind };
}

/// The moves of the neighbourhoods of a model, of the lists of routes. First come those of the first neighbourhood,
/// then those of the second, and so on. Takes no memory.
pub fn moves<'a>(model: &'a RoutingModel, routes: &'a Routes) -> MoveList<'a>
    requires well_formed { IsWellFormed model.now }
    requires of_model { routes.now.visits ≡ visits model.now }
    ensures { result ≡ moves model.now routes.now.lists }
{
    MoveList {
        run: Stretch::none(),
        behind: Generating::open(Closed { model }, routes),
    }
}

impl<'a> MoveList<'a> {
    /// Takes the first of the moves that are left, if it goes on a run of which nothing could be known. A scan asks it
    /// before `step`, which does the same, so that it goes along such a run without that longer call.
    #[inline(always)]
    pub fn go_along(&mut self) -> Option<Move>
        ensures { MatchOption result (self.new ≡ self.old) (λ mv. self.old ≡ mv ∷ self.new) }
    {
        self.run.take()
    }

    /// Takes the first of the moves that are left after some that are passed over, which are counted. Takes no memory.
    #[inline(always)]
    pub fn step<S: Sieve>(
        &mut self,
        sieve: &S,
        judge: &mut S::Judge,
        passed: &mut u64,
    ) -> Option<Move>
        requires ready { S.is_ready sieve.now }
        requires can_ask { S.can_ask sieve.now judge.old }
        ensures takes { Takes (S.covers sieve.now) self.old passed.old result self.new passed.new }
        ensures looked { Looked (S.can_ask sieve.now) S.judged S.looked (S.tries sieve.now)
            judge.old passed.old judge.new (passed.new + tries_taken result) }
    {
        // To read the count is to know that it fits.
        let _count = *passed;
        if let Some(mv) = self.run.take() {
            return Some(mv);
        }
        // Then the first after the run, and the rest of the run that it begins, if nothing could be known of that.
        let found = self.behind.step(sieve, judge, passed);
        self.run = self.behind.stretch();
        found
    }
}

impl<'a> Iterator for MoveList<'a> {
    type Item = Move;

    ghost use Rattle.std.specs.Iterator.{YieldsFirst, item_count};

    ghost next_gives = { YieldsFirst (λ list. list) };

    ghost remaining = { item_count (λ list. list) };

    #[inline(always)]
    fn next(&mut self) -> Option<Move> {
        // Nothing is known, so none is passed over. `vr_bench` alone goes along a list so.
        let mut passed = 0;
        self.step(&Known::none(), &mut (), &mut passed)
    }
}
