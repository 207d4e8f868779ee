//! Served pairs that are put elsewhere.

ghost use Rattle.std.specs.Prelude.{◌≡◌, ◌<◌, ◌≤◌, filter, length, map, suc};
ghost use Rattle.vr_known.specs.Listing.{each, from_to, is_pair_served, moves_in, pair_at, route, vehicles};
ghost use Rattle.vr_known.specs.Listing.{IsWellFormed, RelocatePair, RelocatePairKind};
ghost use Rattle.vr_routes.specs.Pairs.{ArePairPlaces, is_elsewhere};
ghost use Rattle.vr_moves_pair.specs.Putting.{puts_into};

use vr_known::{Block, Each, Family, Moves, Numbered, Run};
use vr_model::{Model as RoutingModel, Move, Neighbourhood};
use vr_routes::{PairPlaces, Routes, is_elsewhere, pair_served, rest_len};

/// The places of the rest of `w` before which the delivery may be put if the pickup is put before place `s`. Left out
/// is only the place with which both nodes would be as they are (`is_elsewhere`).
#[derive(Drop)]
pub struct Deliveries {
    p: u32,
    w: u32,
    s: u32,
    at: PairPlaces,
    ghost pair: { p < 500 },
    ghost vehicle: { w < 100 },
    ghost order: { at.pickup < at.delivery },
}

impl Numbered for Deliveries {
    ghost passes = { λ m t. is_elsewhere m.at.vehicle m.at.pickup m.at.delivery m.w m.s t };

    ghost move_at = { λ m t. RelocatePair m.p m.w m.s t };

    #[inline]
    fn has(&self, k: u32) -> bool {
        is_elsewhere(self.at, self.w, self.s, k)
    }

    #[inline]
    fn make(&self, k: u32) -> Move {
        Move::RelocatePair {
            p: self.p,
            w: self.w,
            s: self.s,
            t: k,
        }
    }

    #[inline]
    fn run(&self) -> Option<Move> {
        // the last number of this move may be any
        Some(self.make(0))
    }

    #[inline]
    fn block(&self) -> Option<Block> {
        Some(Block::new(Neighbourhood::RelocatePair, self.p, self.w))
    }

    #[inline]
    fn many(&self, from: u32, to: u32) -> u32 {
        // the one number that may be left out: before this place of the rest the delivery is now
        let own = self.at.delivery - 1;
        if own < from || own >= to || self.has(own) {
            return to - from;
        }
        to - from - 1
    }
}

/// The places before which the pickup may be put in the rest of the route of `w`. The rest is the route without the
/// pair, and has `n` nodes. Its end is one of these places.
#[derive(Drop)]
pub struct Pickups {
    p: u32,
    w: u32,
    n: u32,
    at: PairPlaces,
    ghost pair: { p < 500 },
    ghost vehicle: { w < 100 },
    ghost short: { n ≤ 1000 },
    ghost order: { at.pickup < at.delivery },
}

impl Family for Pickups {
    type Inner = Run<Deliveries>;

    ghost count = { λ m. suc m.n };

    ghost moves = { λ m s. map (RelocatePair m.p m.w s)
        (filter (λ t. is_elsewhere m.at.vehicle m.at.pickup m.at.delivery m.w s t) (from_to s (suc m.n))) };

    #[inline]
    fn open(&self, k: u32) -> Option<Run<Deliveries>> {
        let deliveries = Deliveries {
            p: self.p,
            w: self.w,
            s: k,
            at: self.at,
        };
        Some(Run::new(deliveries, k, self.n + 1))
    }
}

/// The vehicles to which pair `p`, which is at `at`, may be moved: its own is one of them.
#[derive(Drop)]
pub struct Targets<'a> {
    model: &'a RoutingModel,
    routes: &'a Routes,
    p: u32,
    at: PairPlaces,
    ghost pair: { p < 500 },
    ghost order: { at.pickup < at.delivery },
    ghost places: { ArePairPlaces routes.now.lists (pair_at model.now p) at.vehicle at.pickup at.delivery },
    ghost few: { length routes.now.lists ≤ 100 },
}

impl<'a> Family for Targets<'a> {
    type Inner = Each<Pickups>;

    ghost count = { λ m. length m.routes.now.lists };

    ghost moves = { λ m w. puts_into (pair_at m.model.now m.p) m.p w (route m.routes.now.lists w) };

    #[inline]
    fn open(&self, k: u32) -> Option<Each<Pickups>> {
        self.routes.know_once();
        let n = rest_len(self.routes, self.at, k);
        let pickups = Pickups {
            p: self.p,
            w: k,
            n,
            at: self.at,
        };
        Some(Each::new(pickups, 0, n + 1))
    }
}

/// The pairs that are served.
#[derive(Drop)]
pub struct Pairs<'a> {
    model: &'a RoutingModel,
    routes: &'a Routes,
    vehicles: u32,
    ghost many: { vehicles ≡ length routes.now.lists },
    ghost few: { length model.now.pairs ≤ 500 },
    ghost few_vehicles: { vehicles ≤ 100 },
}

impl<'a> Family for Pairs<'a> {
    type Inner = Each<Targets<'a>>;

    ghost count = { λ m. length m.model.now.pairs };

    ghost passes = { λ m p. is_pair_served m.model.now m.routes.now.lists p };

    ghost moves = { λ m p. each (vehicles m.routes.now.lists) λ w.
        puts_into (pair_at m.model.now p) p w (route m.routes.now.lists w) };

    #[inline]
    fn open(&self, k: u32) -> Option<Each<Targets<'a>>> {
        match pair_served(self.model, self.routes, k) {
            None => None,
            Some(at) => {
                let targets = Targets {
                    model: self.model,
                    routes: self.routes,
                    p: k,
                    at,
                };
                Some(Each::new(targets, 0, self.vehicles))
            }
        }
    }
}

/// The moves that put a served pair elsewhere (this project's own), in lexicographic order of their numbers. Contracts
/// see the list of those that are left.
pub type RelocatePairMoves<'a> = Moves<Each<Pairs<'a>>>;

/// The moves that put a served pair elsewhere (this project's own), in lexicographic order of their numbers.
pub fn relocate_pair<'a>(model: &'a RoutingModel, routes: &'a Routes) -> RelocatePairMoves<'a>
    requires well_formed { IsWellFormed model.now }
    ensures { result ≡ moves_in model.now routes.now.lists RelocatePairKind }
{
    let vehicles = routes.vehicles();
    let count = model.pairs.len() as u32;
    Moves::new(Each::new(
        Pairs {
            model,
            routes,
            vehicles,
        },
        0,
        count,
    ))
}
