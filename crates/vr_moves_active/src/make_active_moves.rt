//! Inactive visits that are put in.

ghost use Rattle.std.specs.Prelude.{◌≡◌, ◌<◌, ◌≤◌, length, map, refl, slice_index};
ghost use Rattle.vr_known.specs.Listing.{each, gaps, moves_in, route, vehicles, visits, Defined, MakeActive};
ghost use Rattle.vr_known.specs.Listing.{MakeActiveKind};

use vr_known::{AnyLast, Block, Each, Family, Moves, Pattern, Run};
use vr_model::{Move, Neighbourhood};
use vr_routes::Routes;

/// The places of `w` before which `u` may be put.
#[derive(Drop)]
pub struct Gaps {
    u: u32,
    w: u32,
    ghost vehicle: { w < 100 },
}

impl Pattern for Gaps {
    ghost move_at = { λ s k. MakeActive s.u s.w k };

    #[inline]
    fn make(&self, k: u32) -> Move {
        Move::MakeActive {
            u: self.u,
            w: self.w,
            t: k,
        }
    }

    #[inline]
    fn block(&self) -> Block {
        // all moves of this kind are one row
        Block::new(Neighbourhood::MakeActive, 0, self.w)
    }

    ghost differ_in_last = { λ s k. refl };
}

/// The vehicles to which `u` may be added.
#[derive(Drop)]
pub struct Targets<'a> {
    routes: &'a Routes,
    u: u32,
    ghost few: { length routes.now.lists ≤ 100 },
}

impl<'a> Family for Targets<'a> {
    type Inner = Run<AnyLast<Gaps>>;

    ghost count = { λ s. length s.routes.now.lists };

    ghost moves = { λ s k. map (MakeActive s.u k) (gaps (route s.routes.now.lists k)) };

    #[inline]
    fn open(&self, k: u32) -> Option<Run<AnyLast<Gaps>>> {
        let gaps = Gaps { u: self.u, w: k };
        Some(Run::new(AnyLast(gaps), 0, self.routes.len(k) + 1))
    }
}

/// The inactive visits.
#[derive(Drop)]
pub struct Nodes<'a> {
    routes: &'a Routes,
    nodes: &'a [u32],
    vehicles: u32,
    ghost many: { vehicles ≡ length routes.now.lists },
    ghost few: { vehicles ≤ 100 },
}

impl<'a> Family for Nodes<'a> {
    type Inner = Each<Targets<'a>>;

    ghost count = { λ s. length s.nodes.now };

    ghost moves = { λ s k. each (vehicles s.routes.now.lists) λ w.
        map (MakeActive (slice_index s.nodes.now k) w) (gaps (route s.routes.now.lists w)) };

    #[inline]
    fn open(&self, k: u32) -> Option<Each<Targets<'a>>> {
        let targets = Targets {
            routes: self.routes,
            u: self.nodes[k as usize],
        };
        Some(Each::new(targets, 0, self.vehicles))
    }
}

/// The moves that put an inactive visit into a route (OR-Tools' `MakeActive`), in lexicographic order of their numbers.
/// Contracts see the list of those that are left.
pub type MakeActiveMoves<'a> = Moves<Each<Nodes<'a>>>;

/// The moves that put an inactive visit into a route (OR-Tools' `MakeActive`), in lexicographic order of their numbers.
pub fn make_active<'a>(routes: &'a Routes) -> MakeActiveMoves<'a>
    ensures { (model : Defined) → routes.now.visits ≡ visits model
        → result ≡ moves_in model routes.now.lists MakeActiveKind }
{
    let vehicles = routes.vehicles();
    let nodes = routes.inactive();
    Moves::new(Each::new(
        Nodes {
            routes,
            nodes,
            vehicles,
        },
        0,
        nodes.len() as u32,
    ))
}
