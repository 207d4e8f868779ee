//! Nodes that change places.

ghost use Rattle.std.specs.Prelude.{◌≡◌, ◌==◌, ◌<◌, ◌≤◌, cond, length, map, refl, suc};
ghost use Rattle.vr_known.specs.Listing.{each, from_to, moves_in, places, places_behind, route, vehicles, Defined};
ghost use Rattle.vr_known.specs.Listing.{Exchange, ExchangeKind};

use vr_known::{AnyLast, Block, Each, Family, Moves, Pattern, Run};
use vr_model::{Move, Neighbourhood};
use vr_routes::Routes;

/// The nodes of `w` with which that at place `a` of `v` may change places; in its own route only those after it.
#[derive(Drop)]
pub struct Partners {
    v: u32,
    a: u32,
    w: u32,
    ghost vehicle: { v < 100 },
    ghost other: { w < 100 },
}

impl Pattern for Partners {
    ghost move_at = { λ s k. Exchange s.v s.a s.w k };

    #[inline]
    fn make(&self, k: u32) -> Move {
        Move::Exchange {
            v: self.v,
            a: self.a,
            w: self.w,
            b: k,
        }
    }

    #[inline]
    fn block(&self) -> Block {
        Block::new(Neighbourhood::Exchange, self.v, self.w)
    }

    ghost differ_in_last = { λ s k. refl };
}

/// The vehicles with whose nodes that at place `a` of `v` may change places: `v` and those after it, so that each two
/// nodes come once.
#[derive(Drop)]
pub struct Targets<'a> {
    routes: &'a Routes,
    v: u32,
    a: u32,
    ghost vehicle: { v < 100 },
    ghost place: { a < 1000 },
    ghost few: { length routes.now.lists ≤ 100 },
}

impl<'a> Family for Targets<'a> {
    type Inner = Run<AnyLast<Partners>>;

    ghost count = { λ s. length s.routes.now.lists };

    ghost moves = { λ s k. map (Exchange s.v s.a k) (places_behind s.routes.now.lists s.v s.a k) };

    #[inline]
    fn open(&self, k: u32) -> Option<Run<AnyLast<Partners>>> {
        let partners = Partners {
            v: self.v,
            a: self.a,
            w: k,
        };
        let first = first_behind(self.v, self.a, k);
        Some(Run::new(AnyLast(partners), first, self.routes.len(k)))
    }
}

/// The places of `v`, whose nodes may change places with others.
#[derive(Drop)]
pub struct Places<'a> {
    routes: &'a Routes,
    v: u32,
    vehicles: u32,
    ghost vehicle: { v < length routes.now.lists },
    ghost many: { vehicles ≡ length routes.now.lists },
    ghost short: { length (route routes.now.lists v) ≤ 1000 },
    ghost few: { vehicles ≤ 100 },
}

impl<'a> Family for Places<'a> {
    type Inner = Each<Targets<'a>>;

    ghost count = { λ s. length (route s.routes.now.lists s.v) };

    ghost moves = { λ s k. each (from_to s.v (length s.routes.now.lists)) λ w.
        map (Exchange s.v k w) (places_behind s.routes.now.lists s.v k w) };

    #[inline]
    fn open(&self, k: u32) -> Option<Each<Targets<'a>>> {
        let targets = Targets {
            routes: self.routes,
            v: self.v,
            a: k,
        };
        Some(Each::new(targets, self.v, self.vehicles))
    }
}

/// The vehicles.
#[derive(Drop)]
pub struct Vehicles<'a> {
    routes: &'a Routes,
    vehicles: u32,
    ghost many: { vehicles ≡ length routes.now.lists },
    ghost few: { vehicles ≤ 100 },
}

impl<'a> Family for Vehicles<'a> {
    type Inner = Each<Places<'a>>;

    ghost count = { λ s. length s.routes.now.lists };

    ghost moves = { λ s k. each (places (route s.routes.now.lists k)) λ a.
        each (from_to k (length s.routes.now.lists)) λ w.
        map (Exchange k a w) (places_behind s.routes.now.lists k a w) };

    #[inline]
    fn open(&self, k: u32) -> Option<Each<Places<'a>>> {
        let places = Places {
            routes: self.routes,
            v: k,
            vehicles: self.vehicles,
        };
        Some(Each::new(places, 0, self.routes.len(k)))
    }
}

// The first place of `w` that comes after place `a` of `v`.
#[inline]
fn first_behind(v: u32, a: u32, w: u32) -> u32
    requires { a < 1000 }
    ensures { result ≡ cond (v == w) (suc a) 0 }
{
    if v == w { a + 1 } else { 0 }
}

/// The moves that let two nodes change places (OR-Tools' `Exchange`), in lexicographic order of their numbers.
/// Contracts see the list of those that are left.
pub type ExchangeMoves<'a> = Moves<Each<Vehicles<'a>>>;

/// The moves that let two nodes change places (OR-Tools' `Exchange`), in lexicographic order of their numbers.
pub fn exchange<'a>(routes: &'a Routes) -> ExchangeMoves<'a>
    ensures { (model : Defined) → result ≡ moves_in model routes.now.lists ExchangeKind }
{
    let vehicles = routes.vehicles();
    Moves::new(Each::new(Vehicles { routes, vehicles }, 0, vehicles))
}
