//! The lists of routes, each with the moves that are made of it.

ghost use Rattle.std.specs.Prelude.{◌≡◌, ℕ, ◌<◌, ◌≤◌, List, length};
ghost use Rattle.vr_model.specs.declared.neighbours.Move.{Move as Moved};
ghost use Rattle.vr_model.specs.routes.Routes.{route, vehicles};
ghost use Rattle.vr_model.specs.tables.Numbers.{each};

use crate::{Each, Family, Listed, Moves};
use vr_routes::Routes;

/// Moves that are made of one list, listed by its vehicle and its length alone: `two_opt`, `or_opt` and
/// `make_inactive`.
pub trait OfList: Drop {
    type Inner: Listed;

    ghost moves: { Self → ℕ → ℕ → List Moved };

    /// Those of the list of vehicle `v`, which has `n` nodes.
    fn open(&self, v: u32, n: u32) -> Self::Inner
        requires vehicle { v < 100 }
        requires short { n ≤ 1000 }
        ensures { Self.Inner.rest result ≡ moves self.now v n };
}

/// The lists of routes, with what moves are made of each.
#[derive(Drop)]
pub struct Lists<'a, L: OfList> {
    routes: &'a Routes,
    of: L,
    ghost few: { length routes.now.lists ≤ 100 },
}

impl<'a, L: OfList> Family for Lists<'a, L> {
    type Inner = L::Inner;

    ghost count = { λ s. length s.routes.now.lists };

    ghost moves = { λ s k. L.moves s.of k (length (route s.routes.now.lists k)) };

    #[inline]
    fn open(&self, k: u32) -> Option<L::Inner> {
        Some(self.of.open(k, self.routes.len(k)))
    }
}

/// The moves of all lists, in the order of their vehicles.
#[inline]
pub fn of_each_list<'a, L: OfList>(routes: &'a Routes, of: L) -> Moves<Each<Lists<'a, L>>>
    ensures { result ≡ each (vehicles routes.now.lists) λ v. L.moves of v (length (route routes.now.lists v)) }
{
    let vehicles = routes.vehicles();
    Moves::new(Each::new(Lists { routes, of }, 0, vehicles))
}
