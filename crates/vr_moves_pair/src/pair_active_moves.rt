//! Inactive pairs that are put in.

ghost use Rattle.std.specs.Prelude.{◌≡◌, ◌<◌, ◌≤◌, length, map, refl, suc};
ghost use Rattle.vr_known.specs.Listing.{each, from_to, gaps, is_pair_inactive, moves_in, route, vehicles};
ghost use Rattle.vr_known.specs.Listing.{IsWellFormed, PairActive, PairActiveKind};

use vr_known::{AnyLast, Block, Each, Family, Moves, Pattern, Run};
use vr_model::{Model as RoutingModel, Move, Neighbourhood};
use vr_routes::{Routes, is_pair_inactive};

/// The places of `w` before which the delivery may be put if the pickup is put before place `s`: those from `s` on.
#[derive(Drop)]
pub struct Deliveries {
    p: u32,
    w: u32,
    s: u32,
    ghost vehicle: { w < 100 },
}

impl Pattern for Deliveries {
    ghost move_at = { λ m t. PairActive m.p m.w m.s t };

    #[inline]
    fn make(&self, t: u32) -> Move {
        Move::PairActive {
            p: self.p,
            w: self.w,
            s: self.s,
            t,
        }
    }

    #[inline]
    fn block(&self) -> Block {
        // all moves of this kind are one row
        Block::new(Neighbourhood::PairActive, 0, self.w)
    }

    ghost differ_in_last = { λ m t. refl };
}

/// The places before which the pickup may be put in the route of `w`, which has `n` nodes: its end is one of them.
#[derive(Drop)]
pub struct Pickups {
    p: u32,
    w: u32,
    n: u32,
    ghost vehicle: { w < 100 },
    ghost short: { n ≤ 1000 },
}

impl Family for Pickups {
    type Inner = Run<AnyLast<Deliveries>>;

    ghost count = { λ s. suc s.n };

    ghost moves = { λ s k. map (PairActive s.p s.w k) (from_to k (suc s.n)) };

    #[inline]
    fn open(&self, k: u32) -> Option<Run<AnyLast<Deliveries>>> {
        let deliveries = Deliveries {
            p: self.p,
            w: self.w,
            s: k,
        };
        Some(Run::new(AnyLast(deliveries), k, self.n + 1))
    }
}

/// The vehicles to which pair `p` may be added.
#[derive(Drop)]
pub struct Targets<'a> {
    routes: &'a Routes,
    p: u32,
    ghost few: { length routes.now.lists ≤ 100 },
}

impl<'a> Family for Targets<'a> {
    type Inner = Each<Pickups>;

    ghost count = { λ s. length s.routes.now.lists };

    ghost moves = { λ s k. each (gaps (route s.routes.now.lists k)) λ i.
        map (PairActive s.p k i) (from_to i (suc (length (route s.routes.now.lists k)))) };

    #[inline]
    fn open(&self, k: u32) -> Option<Each<Pickups>> {
        let n = self.routes.len(k);
        Some(Each::new(Pickups { p: self.p, w: k, n }, 0, n + 1))
    }
}

/// The pairs of which neither node is active.
#[derive(Drop)]
pub struct Pairs<'a> {
    model: &'a RoutingModel,
    routes: &'a Routes,
    vehicles: u32,
    ghost many: { vehicles ≡ length routes.now.lists },
    ghost few: { vehicles ≤ 100 },
}

impl<'a> Family for Pairs<'a> {
    type Inner = Each<Targets<'a>>;

    ghost count = { λ s. length s.model.now.pairs };

    ghost passes = { λ s k. is_pair_inactive s.model.now s.routes.now.lists k };

    ghost moves = { λ s k. each (vehicles s.routes.now.lists) λ w. each (gaps (route s.routes.now.lists w)) λ i.
        map (PairActive k w i) (from_to i (suc (length (route s.routes.now.lists w)))) };

    #[inline]
    fn open(&self, k: u32) -> Option<Each<Targets<'a>>> {
        if !is_pair_inactive(self.model, self.routes, k) {
            return None;
        }
        let targets = Targets {
            routes: self.routes,
            p: k,
        };
        Some(Each::new(targets, 0, self.vehicles))
    }
}

/// The moves that put an inactive pair into a route (this project's own), in lexicographic order of their numbers.
/// Contracts see the list of those that are left.
pub type PairActiveMoves<'a> = Moves<Each<Pairs<'a>>>;

/// The moves that put an inactive pair into a route (this project's own), in lexicographic order of their numbers.
pub fn pair_active<'a>(model: &'a RoutingModel, routes: &'a Routes) -> PairActiveMoves<'a>
    requires well_formed { IsWellFormed model.now }
    ensures { result ≡ moves_in model.now routes.now.lists PairActiveKind }
{
    let vehicles = routes.vehicles();
    let count = model.pairs.len() as u32;
    Moves::new(Each::new(
        Pairs {
            model,
            routes,
            vehicles,
        },
        0,
        count,
    ))
}
