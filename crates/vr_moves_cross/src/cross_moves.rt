//! Fronts of routes that change vehicles.

ghost use Rattle.std.specs.Prelude.{◌≡◌, ◌==◌, ◌<◌, ◌≤◌, cond, filter, length, map, refl, suc};
ghost use Rattle.vr_known.specs.Listing.{each, from_to, gaps, has_some_front, moves_in, route, vehicles, Cross};
ghost use Rattle.vr_known.specs.Listing.{CrossKind, Defined};

use vr_known::{AnyLast, Block, Each, Family, Moves, Pattern, Run};
use vr_model::{Move, Neighbourhood};
use vr_routes::Routes;

/// The fronts of `w` with which that of `v` before place `a` may change vehicles, by the place before which they end.
#[derive(Drop)]
pub struct Fronts {
    v: u32,
    a: u32,
    w: u32,
    ghost vehicle: { v < 100 },
    ghost other: { w < 100 },
}

impl Pattern for Fronts {
    ghost move_at = { λ s k. Cross s.v s.a s.w k };

    #[inline]
    fn make(&self, k: u32) -> Move {
        Move::Cross {
            v: self.v,
            a: self.a,
            w: self.w,
            b: k,
        }
    }

    #[inline]
    fn block(&self) -> Block {
        Block::new(Neighbourhood::Cross, self.v, self.w)
    }

    ghost differ_in_last = { λ s k. refl };
}

/// The vehicles that may change fronts with `v`, of which the front ends before place `a`. They come after `v`, so that
/// each two come once.
#[derive(Drop)]
pub struct Targets<'a> {
    routes: &'a Routes,
    v: u32,
    a: u32,
    ghost vehicle: { v < 100 },
    ghost few: { length routes.now.lists ≤ 100 },
}

impl<'a> Family for Targets<'a> {
    type Inner = Run<AnyLast<Fronts>>;

    ghost count = { λ s. length s.routes.now.lists };

    ghost moves = { λ s k. map (Cross s.v s.a k) (filter (has_some_front s.a) (gaps (route s.routes.now.lists k))) };

    #[inline]
    fn open(&self, k: u32) -> Option<Run<AnyLast<Fronts>>> {
        let fronts = Fronts {
            v: self.v,
            a: self.a,
            w: k,
        };
        Some(Run::new(AnyLast(fronts), first_gap(self.a), self.routes.len(k) + 1))
    }
}

/// The places of `v` before which its front may end.
#[derive(Drop)]
pub struct Places<'a> {
    routes: &'a Routes,
    v: u32,
    vehicles: u32,
    ghost vehicle: { v < length routes.now.lists },
    ghost many: { vehicles ≡ length routes.now.lists },
    ghost few: { vehicles ≤ 100 },
}

impl<'a> Family for Places<'a> {
    type Inner = Each<Targets<'a>>;

    ghost count = { λ s. suc (length (route s.routes.now.lists s.v)) };

    ghost moves = { λ s k. each (from_to (suc s.v) (length s.routes.now.lists)) λ w.
        map (Cross s.v k w) (filter (has_some_front k) (gaps (route s.routes.now.lists w))) };

    #[inline]
    fn open(&self, k: u32) -> Option<Each<Targets<'a>>> {
        let targets = Targets {
            routes: self.routes,
            v: self.v,
            a: k,
        };
        Some(Each::new(targets, self.v + 1, self.vehicles))
    }
}

/// The vehicles.
#[derive(Drop)]
pub struct Vehicles<'a> {
    routes: &'a Routes,
    vehicles: u32,
    ghost many: { vehicles ≡ length routes.now.lists },
    ghost few: { vehicles ≤ 100 },
}

impl<'a> Family for Vehicles<'a> {
    type Inner = Each<Places<'a>>;

    ghost count = { λ s. length s.routes.now.lists };

    ghost moves = { λ s k. each (gaps (route s.routes.now.lists k)) λ a.
        each (from_to (suc k) (length s.routes.now.lists)) λ w.
        map (Cross k a w) (filter (has_some_front a) (gaps (route s.routes.now.lists w))) };

    #[inline]
    fn open(&self, k: u32) -> Option<Each<Places<'a>>> {
        let places = Places {
            routes: self.routes,
            v: k,
            vehicles: self.vehicles,
        };
        Some(Each::new(places, 0, self.routes.len(k) + 1))
    }
}

// The first place before which a front may end if the other one ends before place `a`: not both are empty.
#[inline]
fn first_gap(a: u32) -> u32
    ensures value { result ≡ cond (a == 0) 1 0 }
    ensures few { result ≤ 1 }
{
    if a == 0 { 1 } else { 0 }
}

/// The moves that let the fronts of two routes change vehicles (OR-Tools' `Cross`), in lexicographic order of their
/// numbers. Contracts see the list of those that are left.
pub type CrossMoves<'a> = Moves<Each<Vehicles<'a>>>;

/// The moves that let the fronts of two routes change vehicles (OR-Tools' `Cross`), in lexicographic order of their
/// numbers.
pub fn cross_chains<'a>(routes: &'a Routes) -> CrossMoves<'a>
    ensures { (model : Defined) → result ≡ moves_in model routes.now.lists CrossKind }
{
    let vehicles = routes.vehicles();
    Moves::new(Each::new(Vehicles { routes, vehicles }, 0, vehicles))
}
