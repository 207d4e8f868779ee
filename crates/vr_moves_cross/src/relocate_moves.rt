//! Nodes that are moved to other routes.

ghost use Rattle.std.specs.Prelude.{◌≡◌, ◌<◌, ◌≤◌, filter, length, map, refl};
ghost use Rattle.vr_known.specs.Listing.{each, gaps, is_other, moves_in, places, route, vehicles, Defined, Relocate};
ghost use Rattle.vr_known.specs.Listing.{RelocateKind};

use vr_known::{AnyLast, Block, Each, Family, Moves, Pattern, Run};
use vr_model::{Move, Neighbourhood};
use vr_routes::Routes;

/// The places of `w` before which the node at place `a` of `v` may be put.
#[derive(Drop)]
pub struct Gaps {
    v: u32,
    a: u32,
    w: u32,
    ghost vehicle: { v < 100 },
    ghost other: { w < 100 },
}

impl Pattern for Gaps {
    ghost move_at = { λ s k. Relocate s.v s.a s.w k };

    #[inline]
    fn make(&self, k: u32) -> Move {
        Move::Relocate {
            v: self.v,
            a: self.a,
            w: self.w,
            t: k,
        }
    }

    #[inline]
    fn block(&self) -> Block {
        Block::new(Neighbourhood::Relocate, self.v, self.w)
    }

    ghost differ_in_last = { λ s k. refl };
}

/// The vehicles to which the node at place `a` of `v` may be moved: each but `v`, within which `or_opt` moves nodes.
#[derive(Drop)]
pub struct Targets<'a> {
    routes: &'a Routes,
    v: u32,
    a: u32,
    ghost vehicle: { v < 100 },
    ghost few: { length routes.now.lists ≤ 100 },
}

impl<'a> Family for Targets<'a> {
    type Inner = Run<AnyLast<Gaps>>;

    ghost count = { λ s. length s.routes.now.lists };

    ghost passes = { λ s k. is_other s.v k };

    ghost moves = { λ s k. map (Relocate s.v s.a k) (gaps (route s.routes.now.lists k)) };

    #[inline]
    fn open(&self, k: u32) -> Option<Run<AnyLast<Gaps>>> {
        if self.v == k {
            return None;
        }
        let gaps = Gaps {
            v: self.v,
            a: self.a,
            w: k,
        };
        Some(Run::new(AnyLast(gaps), 0, self.routes.len(k) + 1))
    }
}

/// The places of `v`, whose nodes may be moved to other routes.
#[derive(Drop)]
pub struct Places<'a> {
    routes: &'a Routes,
    v: u32,
    vehicles: u32,
    ghost vehicle: { v < 100 },
    ghost many: { vehicles ≡ length routes.now.lists },
    ghost few: { vehicles ≤ 100 },
}

impl<'a> Family for Places<'a> {
    type Inner = Each<Targets<'a>>;

    ghost count = { λ s. length (route s.routes.now.lists s.v) };

    ghost moves = { λ s k. each (filter (is_other s.v) (vehicles s.routes.now.lists)) λ w.
        map (Relocate s.v k w) (gaps (route s.routes.now.lists w)) };

    #[inline]
    fn open(&self, k: u32) -> Option<Each<Targets<'a>>> {
        let targets = Targets {
            routes: self.routes,
            v: self.v,
            a: k,
        };
        Some(Each::new(targets, 0, self.vehicles))
    }
}

/// The vehicles.
#[derive(Drop)]
pub struct Vehicles<'a> {
    routes: &'a Routes,
    vehicles: u32,
    ghost many: { vehicles ≡ length routes.now.lists },
    ghost few: { vehicles ≤ 100 },
}

impl<'a> Family for Vehicles<'a> {
    type Inner = Each<Places<'a>>;

    ghost count = { λ s. length s.routes.now.lists };

    ghost moves = { λ s k. each (places (route s.routes.now.lists k)) λ a.
        each (filter (is_other k) (vehicles s.routes.now.lists)) λ w.
        map (Relocate k a w) (gaps (route s.routes.now.lists w)) };

    #[inline]
    fn open(&self, k: u32) -> Option<Each<Places<'a>>> {
        let places = Places {
            routes: self.routes,
            v: k,
            vehicles: self.vehicles,
        };
        Some(Each::new(places, 0, self.routes.len(k)))
    }
}

/// The moves that put a node into the route of another vehicle (OR-Tools' `Relocate`), in lexicographic order of their
/// numbers. Contracts see the list of those that are left.
pub type RelocateMoves<'a> = Moves<Each<Vehicles<'a>>>;

/// The moves that put a node into the route of another vehicle (OR-Tools' `Relocate`), in lexicographic order of their
/// numbers.
pub fn relocate<'a>(routes: &'a Routes) -> RelocateMoves<'a>
    ensures { (model : Defined) → result ≡ moves_in model routes.now.lists RelocateKind }
{
    let vehicles = routes.vehicles();
    Moves::new(Each::new(Vehicles { routes, vehicles }, 0, vehicles))
}
