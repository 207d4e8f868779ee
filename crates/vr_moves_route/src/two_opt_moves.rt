//! Parts of a route that are reversed.

ghost use Rattle.std.specs.Prelude.{◌≡◌, ◌<◌, map, refl, suc};
ghost use Rattle.vr_known.specs.Listing.{below, each, from_to, moves_in, Defined, TwoOpt, TwoOptKind};

use vr_known::{AnyLast, Block, Each, Family, Lists, Moves, OfList, Pattern, Run, of_each_list};
use vr_model::{Move, Neighbourhood};
use vr_routes::Routes;

/// The parts of `v` that begin at place `a`, by the place of their last node. It comes after place `a`: a part of one
/// node stays as it is.
#[derive(Drop)]
pub struct Parts {
    v: u32,
    a: u32,
    ghost vehicle: { v < 100 },
}

impl Pattern for Parts {
    ghost move_at = { λ s k. TwoOpt s.v s.a k };

    #[inline]
    fn make(&self, k: u32) -> Move {
        Move::TwoOpt {
            v: self.v,
            a: self.a,
            b: k,
        }
    }

    #[inline]
    fn block(&self) -> Block {
        // the one vehicle that a move names is its first and its last
        Block::new(Neighbourhood::TwoOpt, self.v, self.v)
    }

    ghost differ_in_last = { λ s k. refl };
}

/// The places of `v` at which a part begins, of which it has `n`.
#[derive(Drop)]
pub struct Begins {
    v: u32,
    n: u32,
    ghost vehicle: { v < 100 },
}

impl Family for Begins {
    type Inner = Run<AnyLast<Parts>>;

    ghost count = { λ s. s.n };

    ghost moves = { λ s k. map (TwoOpt s.v k) (from_to (suc k) s.n) };

    #[inline]
    fn open(&self, k: u32) -> Option<Run<AnyLast<Parts>>> {
        let parts = Parts { v: self.v, a: k };
        Some(Run::new(AnyLast(parts), k + 1, self.n))
    }
}

/// The parts of each route that are reversed.
#[derive(Drop)]
pub struct Reversals {}

impl OfList for Reversals {
    type Inner = Each<Begins>;

    ghost moves = { λ s v n. each (below n) λ a. map (TwoOpt v a) (from_to (suc a) n) };

    #[inline]
    fn open(&self, v: u32, n: u32) -> Each<Begins> {
        Each::new(Begins { v, n }, 0, n)
    }
}

/// The moves that reverse a part of a route (OR-Tools' `TwoOpt`), in lexicographic order of their numbers. Contracts
/// see the list of those that are left.
pub type TwoOptMoves<'a> = Moves<Each<Lists<'a, Reversals>>>;

/// The moves that reverse a part of a route (OR-Tools' `TwoOpt`), in lexicographic order of their numbers.
pub fn two_opt<'a>(routes: &'a Routes) -> TwoOptMoves<'a>
    ensures { (model : Defined) → result ≡ moves_in model routes.now.lists TwoOptKind }
{
    of_each_list(routes, Reversals {})
}
