//! Chains that are moved within a route.

ghost use Rattle.std.specs.Prelude.{◌≡◌, ◌+◌, ◌-◌, ◌<◌, ◌≤◌, filter, map, nat_le, refl, suc};
ghost use Rattle.vr_known.specs.Listing.{below, each, from_to, is_other, moves_in, Defined, OrOpt, OrOptKind};

use vr_known::{AnyLastBut, Block, Each, Family, Lists, Moves, OfList, Pattern, Run, of_each_list};
use vr_model::{Move, Neighbourhood};
use vr_routes::Routes;

/// The places before which the `k` nodes of `v` from place `a` on may be put, in the rest of its route.
#[derive(Drop)]
pub struct Gaps {
    v: u32,
    a: u32,
    k: u32,
    ghost vehicle: { v < 100 },
}

impl Pattern for Gaps {
    ghost move_at = { λ s t. OrOpt s.v s.a s.k t };

    #[inline]
    fn make(&self, t: u32) -> Move {
        Move::OrOpt {
            v: self.v,
            a: self.a,
            k: self.k,
            t,
        }
    }

    #[inline]
    fn block(&self) -> Block {
        // the one vehicle that a move names is its first and its last
        Block::new(Neighbourhood::OrOpt, self.v, self.v)
    }

    ghost differ_in_last = { λ s k. refl };
}

/// How many nodes of `v`, which has `n`, may be moved from place `a` on: one to three, as far as there are as many.
#[derive(Drop)]
pub struct Chains {
    v: u32,
    a: u32,
    n: u32,
    ghost vehicle: { v < 100 },
    ghost short: { n ≤ 1000 },
}

impl Family for Chains {
    type Inner = Run<AnyLastBut<Gaps>>;

    ghost count = { λ s. 4 };

    ghost passes = { λ s k. nat_le (s.a + k) s.n };

    ghost moves = { λ s k. map (OrOpt s.v s.a k) (filter (is_other s.a) (below (suc (s.n - k)))) };

    #[inline]
    fn open(&self, k: u32) -> Option<Run<AnyLastBut<Gaps>>> {
        if self.a as u64 + k as u64 > self.n as u64 {
            return None;
        }
        let pattern = Gaps {
            v: self.v,
            a: self.a,
            k,
        };
        // before place `a` of the rest they are already
        let others = AnyLastBut {
            pattern,
            but: self.a,
        };
        Some(Run::new(others, 0, self.n - k + 1))
    }
}

/// The places of `v`, which has `n`, at which a chain begins.
#[derive(Drop)]
pub struct Begins {
    v: u32,
    n: u32,
    ghost vehicle: { v < 100 },
    ghost short: { n ≤ 1000 },
}

impl Family for Begins {
    type Inner = Each<Chains>;

    ghost count = { λ s. s.n };

    ghost moves = { λ s k. each (filter (λ j. nat_le (k + j) s.n) (from_to 1 4)) λ j.
        map (OrOpt s.v k j) (filter (is_other k) (below (suc (s.n - j)))) };

    #[inline]
    fn open(&self, k: u32) -> Option<Each<Chains>> {
        let chains = Chains {
            v: self.v,
            a: k,
            n: self.n,
        };
        Some(Each::new(chains, 1, 4))
    }
}

/// The chains of each route that are put elsewhere in it.
#[derive(Drop)]
pub struct Shifts {}

impl OfList for Shifts {
    type Inner = Each<Begins>;

    ghost moves = { λ s v n. each (below n) λ a. each (filter (λ k. nat_le (a + k) n) (from_to 1 4)) λ k.
        map (OrOpt v a k) (filter (is_other a) (below (suc (n - k)))) };

    #[inline]
    fn open(&self, v: u32, n: u32) -> Each<Begins> {
        Each::new(Begins { v, n }, 0, n)
    }
}

/// The moves that put up to three nodes elsewhere in their route (OR-Tools' `OrOpt`), in lexicographic order of their
/// numbers. Contracts see the list of those that are left.
pub type OrOptMoves<'a> = Moves<Each<Lists<'a, Shifts>>>;

/// The moves that put up to three nodes elsewhere in their route (OR-Tools' `OrOpt`), in lexicographic order of their
/// numbers.
pub fn or_opt<'a>(routes: &'a Routes) -> OrOptMoves<'a>
    ensures { (model : Defined) → result ≡ moves_in model routes.now.lists OrOptKind }
{
    of_each_list(routes, Shifts {})
}
