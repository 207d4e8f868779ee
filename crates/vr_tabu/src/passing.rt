//! Which moves a round passes over, run by run.

ghost use Rattle.vr_tabu.specs.Rounds.{CanPass, IsPassedInRound};

use std::marker::PhantomData;
use vr_known::Sieve;
use vr_model::{Model, Move, Neighbourhood};
use vr_routes::{Judge, Routes};

/// What tells from which move of a run on some may make a difference below a bound.
#[derive(Drop)]
pub struct NoBetter<'a, J: Judge> {
    pub model: &'a Model,
    pub routes: &'a Routes,
    /// If there is none, no run is passed over.
    pub bound: Option<i64>,
    /// How many moves the round may try.
    pub rest: u64,
    pub judge: PhantomData<J>,
}

impl<'a, J: Judge> Sieve for NoBetter<'a, J> {
    type Judge = J;

    ghost is_ready = { λ s. Unit {0} };

    ghost covers = { λ s. IsPassedInRound s.model.now s.routes.now.lists s.bound };

    ghost tries = { λ s. s.rest };

    ghost can_ask = { λ s judge. CanPass s.model.now s.routes.now (J.model judge) (J.committed judge) };

    ghost judged = { J.asked };

    ghost looked = { J.looked };

    #[inline(always)]
    fn has(&self, _neighbourhood: Neighbourhood, _v: u32, _w: u32) -> bool {
        // no block is known: each round tries all moves anew
        false
    }

    #[inline(always)]
    fn limit(&self) -> u64 {
        self.rest
    }

    #[inline(always)]
    fn first(&self, judge: &mut J, mv: Move, from: u32, end: u32) -> Option<u32> {
        match self.bound {
            Some(bound) => judge.first_below(self.routes, mv, from, end, bound),
            None => None,
        }
    }
}
