//! Pairs that are taken out.

ghost use Rattle.std.specs.Prelude.{◌≡◌, ◌≤◌, length};
ghost use Rattle.vr_known.specs.Listing.{is_pair_together, moves_in, IsWellFormed, PairInactive, PairInactiveKind};

use vr_known::{Moves, Numbered, Run, Sieve};
use vr_model::{Model as RoutingModel, Move, Neighbourhood};
use vr_routes::{Routes, is_pair_together};

/// The pairs whose nodes are in one route.
#[derive(Drop)]
pub struct Pairs<'a> {
    model: &'a RoutingModel,
    routes: &'a Routes,
    ghost few: { length model.now.pairs ≤ 500 },
}

impl<'a> Numbered for Pairs<'a> {
    ghost count = { λ s. length s.model.now.pairs };

    ghost passes = { λ s k. is_pair_together s.model.now s.routes.now.lists k };

    ghost move_at = { λ s k. PairInactive k };

    #[inline]
    fn has(&self, k: u32) -> bool {
        is_pair_together(self.model, self.routes, k)
    }

    #[inline]
    fn make(&self, k: u32) -> Move {
        Move::PairInactive { p: k }
    }

    // Each pair is a row of its own, so the sieve is asked about each. Its move names no vehicle, so 0 is asked about.
    // The judge is not asked: `vr_arccosts` goes over no runs of this kind.
    #[inline]
    fn first<S: Sieve>(
        &self,
        sieve: &S,
        _judge: &mut S::Judge,
        from: u32,
        end: u32,
    ) -> Option<u32> {
        for k in from..end {
            if !sieve.has(Neighbourhood::PairInactive, k, 0) {
                return Some(k);
            }
        }
        Some(end)
    }
}

/// The moves that take a pair out (this project's own), in lexicographic order of their numbers. Contracts see the list
/// of those that are left.
pub type PairInactiveMoves<'a> = Moves<Run<Pairs<'a>>>;

/// The moves that take a pair out (this project's own), in lexicographic order of their numbers.
pub fn pair_inactive<'a>(model: &'a RoutingModel, routes: &'a Routes) -> PairInactiveMoves<'a>
    requires well_formed { IsWellFormed model.now }
    ensures { result ≡ moves_in model.now routes.now.lists PairInactiveKind }
{
    let count = model.pairs.len() as u32;
    Moves::new(Run::new(Pairs { model, routes }, 0, count))
}
