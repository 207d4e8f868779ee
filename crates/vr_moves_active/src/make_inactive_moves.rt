//! Nodes that are taken out.

ghost use Rattle.std.specs.Prelude.{◌≡◌, ◌<◌, map};
ghost use Rattle.vr_known.specs.Listing.{below, moves_in, Defined, MakeInactive, MakeInactiveKind};

use vr_known::{Block, Each, Lists, Moves, Numbered, OfList, Run, of_each_list};
use vr_model::{Move, Neighbourhood};
use vr_routes::Routes;

/// The places of `v`. Their moves are not said to be a run (`Numbered::run`), so that no judge is asked about many at
/// once: `vr_arccosts` goes over none of this kind.
#[derive(Drop)]
pub struct Places {
    v: u32,
    ghost vehicle: { v < 100 },
}

impl Numbered for Places {
    ghost move_at = { λ s k. MakeInactive s.v k };

    #[inline]
    fn has(&self, _k: u32) -> bool {
        true
    }

    #[inline]
    fn make(&self, k: u32) -> Move {
        Move::MakeInactive { v: self.v, a: k }
    }

    #[inline]
    fn block(&self) -> Option<Block> {
        // all moves of this kind are one row
        Some(Block::new(Neighbourhood::MakeInactive, 0, self.v))
    }

    #[inline]
    fn many(&self, from: u32, to: u32) -> u32 {
        to - from
    }
}

/// The nodes of each route that are taken out.
#[derive(Drop)]
pub struct Removals {}

impl OfList for Removals {
    type Inner = Run<Places>;

    ghost moves = { λ s v n. map (MakeInactive v) (below n) };

    #[inline]
    fn open(&self, v: u32, n: u32) -> Run<Places> {
        Run::new(Places { v }, 0, n)
    }
}

/// The moves that take a node out (OR-Tools' `MakeInactive`), in lexicographic order of their numbers. Contracts see
/// the list of those that are left.
pub type MakeInactiveMoves<'a> = Moves<Each<Lists<'a, Removals>>>;

/// The moves that take a node out (OR-Tools' `MakeInactive`), in lexicographic order of their numbers.
pub fn make_inactive<'a>(routes: &'a Routes) -> MakeInactiveMoves<'a>
    ensures { (model : Defined) → result ≡ moves_in model routes.now.lists MakeInactiveKind }
{
    of_each_list(routes, Removals {})
}
