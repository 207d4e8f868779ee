//! The moves of the neighbourhoods of a model, one neighbourhood after the other.

ghost use Rattle.std.specs.Prelude.{◌≡◌, ◌+◌, ◌++◌};
ghost use Rattle.vr_descent.specs.Listing.{left_in};
ghost use Rattle.vr_known.specs.Passing.{Looked, Takes, tries_taken};
ghost use Rattle.vr_model.specs.moves.Moves.{moves, moves_in};
ghost use Rattle.vr_model.specs.tables.Tables.{visits};
ghost use Rattle.vr_model.specs.tables.WellFormed.{IsWellFormed};

use crate::generators::Generator;
use std::marker::Model;
use vr_known::{Sieve, Stretch};
use vr_model::{Closed, Model as RoutingModel, Move, Neighbourhood};
use vr_routes::Routes;

/// The moves that neighbourhoods have left. Contracts see their list.
#[derive(Drop)]
pub(crate) struct Generating<'a> {
    model: &'a RoutingModel,
    routes: &'a Routes,
    // the neighbourhood in hand, and those after it
    current: Generator<'a>,
    behind: &'a [Neighbourhood],
}

impl<'a> Model for Generating<'a> {
    ghost use Rattle.std.specs.Prelude.{◌≡◌, ◌++◌, List};
    ghost use Rattle.vr_descent.specs.Listing.{left_in};
    ghost use Rattle.vr_model.specs.moves.Moves.{moves_over};
    ghost use Rattle.vr_model.specs.tables.Tables.{visits};
    ghost use Rattle.vr_model.specs.tables.WellFormed.{IsWellFormed};
    ghost use Rattle.vr_model.specs.declared.neighbours.Move.{Move as Step};

    ghost Value = { List Step };

    ghost view = { λ list. left_in list.current ++ moves_over list.model.now list.behind.now list.routes.now.lists };

    ghost invariant = { λ list. IsWellFormed list.model.now × (list.routes.now.visits ≡ visits list.model.now) };
}

impl<'a> Generating<'a> {
    /// The moves of all neighbourhoods of a model, of the lists of routes.
    pub(crate) fn open(closed: Closed<'a>, routes: &'a Routes) -> Generating<'a>
        requires of_model { routes.now.visits ≡ visits closed.model.now }
        ensures { result ≡ moves closed.entry.model.now routes.now.lists }
    {
        Generating {
            model: closed.model,
            routes,
            current: Generator::Nothing,
            behind: closed.model.search.neighbourhoods.as_slice(),
        }
    }

    /// Takes the first of the moves that are left after some that are passed over, which are counted. Takes no memory.
    #[inline(always)]
    pub(crate) fn step<S: Sieve>(
        &mut self,
        sieve: &S,
        judge: &mut S::Judge,
        passed: &mut u64,
    ) -> Option<Move>
        requires ready { S.is_ready sieve.now }
        requires can_ask { S.can_ask sieve.now judge.old }
        ensures takes { Takes (S.covers sieve.now) self.old passed.old result self.new passed.new }
        ensures looked { Looked (S.can_ask sieve.now) S.judged S.looked (S.tries sieve.now)
            judge.old passed.old judge.new (passed.new + tries_taken result) }
    {
        // To read the count is to know that it fits.
        let _count = *passed;
        loop {
            if let Some(mv) = self.current.step(sieve, judge, passed) {
                return Some(mv);
            }
            match self.behind.split_first() {
                Some((first, others)) => {
                    open_in(
                        &mut self.current,
                        *first,
                        Closed { model: self.model },
                        self.routes,
                    );
                    self.behind = others;
                }
                None => return None,
            }
        }
    }

    /// Takes the moves at the front that differ from the move taken last in their last number alone. It does so once
    /// the sieve knew nothing of them or is no longer asked.
    #[inline(always)]
    pub(crate) fn stretch(&mut self) -> Stretch
        ensures { self.old ≡ result ++ self.new }
    {
        self.current.stretch()
    }
}

// Takes a neighbourhood in hand.
fn open_in<'a>(
    current: &mut Generator<'a>,
    neighbourhood: Neighbourhood,
    closed: Closed<'a>,
    routes: &'a Routes,
)
    requires of_model { routes.now.visits ≡ visits closed.model.now }
    ensures { left_in current.new ≡ moves_in closed.entry.model.now routes.now.lists neighbourhood }
{
    *current = Generator::open(neighbourhood, closed.model, routes);
}
