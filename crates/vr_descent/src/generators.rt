//! The moves of one neighbourhood, whichever it is.

ghost use Rattle.std.specs.Prelude.{◌≡◌, ◌+◌, ◌++◌};
ghost use Rattle.vr_descent.specs.Listing.{left_in};
ghost use Rattle.vr_model.specs.moves.Moves.{moves_in};
ghost use Rattle.vr_model.specs.tables.Tables.{visits};
ghost use Rattle.vr_model.specs.tables.WellFormed.{IsWellFormed};
ghost use Rattle.vr_known.specs.Passing.{Looked, Takes, tries_taken};

use vr_known::{Sieve, Stretch};
use vr_model::{Model, Move, Neighbourhood};
use vr_moves_active::{
    MakeActiveMoves, MakeInactiveMoves, SwapActiveMoves, make_active, make_inactive, swap_active,
};
use vr_moves_cross::{CrossMoves, ExchangeMoves, RelocateMoves, cross_chains, exchange, relocate};
use vr_moves_pair::{
    PairActiveMoves, PairInactiveMoves, RelocatePairMoves, pair_active, pair_inactive,
    relocate_pair,
};
use vr_moves_route::{OrOptMoves, TwoOptMoves, or_opt, two_opt};
use vr_routes::Routes;

/// The moves of one neighbourhood that are left to try.
#[derive(Drop)]
pub enum Generator<'a> {
    /// No neighbourhood was taken in hand yet.
    Nothing,
    TwoOpt(TwoOptMoves<'a>),
    OrOpt(OrOptMoves<'a>),
    Relocate(RelocateMoves<'a>),
    Exchange(ExchangeMoves<'a>),
    Cross(CrossMoves<'a>),
    RelocatePair(RelocatePairMoves<'a>),
    PairActive(PairActiveMoves<'a>),
    PairInactive(PairInactiveMoves<'a>),
    MakeActive(MakeActiveMoves<'a>),
    MakeInactive(MakeInactiveMoves<'a>),
    SwapActive(SwapActiveMoves<'a>),
}

impl<'a> Generator<'a> {
    /// All moves of a neighbourhood, of the lists of routes.
    pub fn open(neighbourhood: Neighbourhood, model: &'a Model, routes: &'a Routes) -> Generator<'a>
        requires well_formed { IsWellFormed model.now }
        requires of_model { routes.now.visits ≡ visits model.now }
        ensures { left_in result ≡ moves_in model.now routes.now.lists neighbourhood }
    {
        match neighbourhood {
            Neighbourhood::TwoOpt => Generator::TwoOpt(two_opt(routes)),
            Neighbourhood::OrOpt => Generator::OrOpt(or_opt(routes)),
            Neighbourhood::Relocate => Generator::Relocate(relocate(routes)),
            Neighbourhood::Exchange => Generator::Exchange(exchange(routes)),
            Neighbourhood::Cross => Generator::Cross(cross_chains(routes)),
            Neighbourhood::RelocatePair => Generator::RelocatePair(relocate_pair(model, routes)),
            Neighbourhood::PairActive => Generator::PairActive(pair_active(model, routes)),
            Neighbourhood::PairInactive => Generator::PairInactive(pair_inactive(model, routes)),
            Neighbourhood::MakeActive => Generator::MakeActive(make_active(routes)),
            Neighbourhood::MakeInactive => Generator::MakeInactive(make_inactive(routes)),
            Neighbourhood::SwapActive => Generator::SwapActive(swap_active(routes)),
        }
    }

    /// Takes the first of the moves that are left after some that are passed over, which are counted. Takes no memory.
    #[inline(always)]
    pub fn step<S: Sieve>(
        &mut self,
        sieve: &S,
        judge: &mut S::Judge,
        passed: &mut u64,
    ) -> Option<Move>
        requires ready { S.is_ready sieve.now }
        requires can_ask { S.can_ask sieve.now judge.old }
        ensures takes { Takes (S.covers sieve.now) (left_in self.old) passed.old result
            (left_in self.new) passed.new }
        ensures looked { Looked (S.can_ask sieve.now) S.judged S.looked (S.tries sieve.now)
            judge.old passed.old judge.new (passed.new + tries_taken result) }
    {
        // To read the count is to know that it fits.
        let _count = *passed;
        match self {
            Generator::Nothing => None,
            Generator::TwoOpt(moves) => moves.step(sieve, judge, passed),
            Generator::OrOpt(moves) => moves.step(sieve, judge, passed),
            Generator::Relocate(moves) => moves.step(sieve, judge, passed),
            Generator::Exchange(moves) => moves.step(sieve, judge, passed),
            Generator::Cross(moves) => moves.step(sieve, judge, passed),
            Generator::RelocatePair(moves) => moves.step(sieve, judge, passed),
            Generator::PairActive(moves) => moves.step(sieve, judge, passed),
            Generator::PairInactive(moves) => moves.step(sieve, judge, passed),
            Generator::MakeActive(moves) => moves.step(sieve, judge, passed),
            Generator::MakeInactive(moves) => moves.step(sieve, judge, passed),
            Generator::SwapActive(moves) => moves.step(sieve, judge, passed),
        }
    }

    /// Takes the moves at the front that differ from the move taken last in their last number alone. It does so once
    /// the sieve knew nothing of them or is no longer asked. Three kinds have none, since their moves are not said to
    /// be runs (`vr_known::Numbered::run`).
    #[inline(always)]
    pub fn stretch(&mut self) -> Stretch
        ensures { left_in self.old ≡ result ++ left_in self.new }
    {
        match self {
            Generator::Nothing => Stretch::none(),
            Generator::TwoOpt(moves) => moves.stretch(),
            Generator::OrOpt(moves) => moves.stretch(),
            Generator::Relocate(moves) => moves.stretch(),
            Generator::Exchange(moves) => moves.stretch(),
            Generator::Cross(moves) => moves.stretch(),
            Generator::RelocatePair(moves) => moves.stretch(),
            Generator::PairActive(moves) => moves.stretch(),
            Generator::PairInactive(_) => Stretch::none(),
            Generator::MakeActive(moves) => moves.stretch(),
            Generator::MakeInactive(_) => Stretch::none(),
            Generator::SwapActive(_) => Stretch::none(),
        }
    }
}
