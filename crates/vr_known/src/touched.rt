//! The vehicles whose lists a move changes.

ghost use Rattle.std.specs.Prelude.{◌≡◌, ◌≢◌, ℕ, ◌<◌, IsTrue, length};
ghost use Rattle.vr_known.specs.Touching.{AreFound, named_by};
ghost use Rattle.vr_model.specs.moves.Moves.{apply, is_pair_together};
ghost use Rattle.vr_model.specs.moves.MoveTests.{is_move};
ghost use Rattle.vr_model.specs.routes.Routes.{holds, route};
ghost use Rattle.vr_model.specs.tables.Tables.{pair_at};
ghost use Rattle.vr_model.specs.declared.neighbours.Move.TheVariants.{RelocatePair};

use crate::blocks::first_of;
use vr_model::{Model, Move};
use vr_routes::Routes;

/// The vehicles whose lists a move changes; both are the same if it changes one.
#[derive(Clone, Copy)]
pub struct Touched {
    pub first: u32,
    pub second: u32,
}

impl Touched {
    /// Those that a move names by its numbers alone. `None` of a move that takes a pair out or puts one elsewhere,
    /// since it does not name the list that the pair is in. `vr_guided` asks it once the move is made, when that list
    /// is found no more.
    #[inline]
    pub fn named(mv: Move) -> Option<Touched>
        ensures { result ≡ named_by mv }
    {
        match mv {
            Move::TwoOpt { v, .. } => Some(Touched::one(v)),
            Move::OrOpt { v, .. } => Some(Touched::one(v)),
            Move::Relocate { v, w, .. } => Some(Touched::two(v, w)),
            Move::Exchange { v, w, .. } => Some(Touched::two(v, w)),
            Move::Cross { v, w, .. } => Some(Touched::two(v, w)),
            Move::RelocatePair { .. } => None,
            Move::PairActive { w, .. } => Some(Touched::one(w)),
            Move::PairInactive { .. } => None,
            Move::MakeActive { w, .. } => Some(Touched::one(w)),
            Move::MakeInactive { v, .. } => Some(Touched::one(v)),
            Move::SwapActive { v, .. } => Some(Touched::one(v)),
        }
    }

    /// Those that a move names, and the one that serves the pair that it puts elsewhere. `None` of `pair_inactive`, and
    /// if there is no such pair or its pickup is in no list. The numbers need not be those of a move, since `vr_guided`
    /// asks it about runs.
    #[inline]
    pub fn found(model: &Model, routes: &Routes, mv: Move) -> Option<Touched>
        ensures { AreFound model.now routes.now.lists mv result }
    {
        match mv {
            Move::RelocatePair { p, w, .. } => put_elsewhere(model, routes, p, w),
            _ => Touched::named(mv),
        }
    }

    /// The vehicles whose lists a move of the routes changes. They are those that it names, and the one that serves the
    /// pair which it takes out or puts elsewhere. `vr_descent` (`Progress::advance`) asks it before the move is made.
    pub fn of(model: &Model, routes: &Routes, mv: Move) -> Touched
        requires mv { IsTrue (is_move model.now routes.now.lists mv) }
        ensures first { result.first < 100 }
        ensures second { result.second < 100 }
        ensures others { (u : ℕ) → u ≢ result.first → u ≢ result.second
            → route (apply model.now routes.now.lists mv) u ≡ route routes.now.lists u }
    {
        routes.know_once();
        // To ask how many there are is to know that they are few.
        let _few = routes.vehicles();
        match Touched::found(model, routes, mv) {
            Some(touched) => touched,
            // It takes a pair out. (No move of the routes puts one elsewhere that is in no list.)
            None => Touched::one(serving(model, routes, first_of(mv))),
        }
    }

    // One vehicle.
    #[inline]
    fn one(v: u32) -> Touched
        ensures { result ≡ record { first = v; second = v } }
    {
        Touched::two(v, v)
    }

    // Two vehicles.
    #[inline]
    fn two(first: u32, second: u32) -> Touched
        ensures { result ≡ record { first = first; second = second } }
    {
        Touched { first, second }
    }
}

// The vehicle that serves a pair, and the one that the pair goes to.
#[inline]
fn put_elsewhere(model: &Model, routes: &Routes, p: u32, w: u32) -> Option<Touched>
    ensures { (s t : ℕ) → AreFound model.now routes.now.lists (RelocatePair p w s t) result }
{
    if p as usize >= model.pairs.len() {
        return None;
    }
    match routes.vehicle_of(model.pairs.get(p as usize).pickup) {
        Some(v) => Some(Touched::two(v, w)),
        None => None,
    }
}

// The vehicle whose list a pair is in.
fn serving(model: &Model, routes: &Routes, p: u32) -> u32
    requires pair { p < length model.now.pairs }
    requires together { IsTrue (is_pair_together model.now routes.now.lists p) }
    ensures low { result < length routes.now.lists }
    ensures holds { IsTrue (holds (route routes.now.lists result) (pair_at model.now p).pickup) }
{
    match routes.vehicle_of(model.pairs.get(p as usize).pickup) {
        Some(v) => v,
        // does not come, since the pair is in one list
        None => 0,
    }
}
