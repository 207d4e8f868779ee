//! Inactive visits that take the place of nodes.

ghost use Rattle.std.specs.Prelude.{◌≡◌, ℕ, ◌<◌, ◌≤◌, length, map, slice_index};
ghost use Rattle.vr_known.specs.Listing.{each, moves_in, places, route, visits, Defined, SwapActive, SwapActiveKind};

use vr_known::{Block, Each, Family, Moves, Numbered, Run, Sieve};
use vr_model::{Move, Neighbourhood};
use vr_routes::Routes;

/// The inactive visits, `nodes`, that may take the place of the node at place `a` of `v`. A number is a place in
/// `nodes`, and not the last number of its move, so they are not said to be a run (`Numbered::run`); `first` asks the
/// sieve about the run of all visits from the first of them to the last instead.
#[derive(Drop)]
pub struct Newcomers<'a> {
    v: u32,
    a: u32,
    nodes: &'a [u32],
    ghost vehicle: { v < 100 },
}

impl<'a> Numbered for Newcomers<'a> {
    ghost count = { λ s. length s.nodes.now };

    ghost move_at = { λ s k. SwapActive s.v s.a (slice_index s.nodes.now k) };

    #[inline]
    fn has(&self, _k: u32) -> bool {
        true
    }

    #[inline]
    fn make(&self, k: u32) -> Move {
        Move::SwapActive {
            v: self.v,
            a: self.a,
            u: self.nodes[k as usize],
        }
    }

    #[inline]
    fn block(&self) -> Option<Block> {
        // all moves of this kind are one row
        Some(Block::new(Neighbourhood::SwapActive, 0, self.v))
    }

    // The sieve is asked about all numbers from the first of these nodes to the last. Active nodes may be among them;
    // what it says of those is not used.
    #[inline]
    fn first<S: Sieve>(&self, sieve: &S, judge: &mut S::Judge, from: u32, end: u32) -> Option<u32> {
        if from >= end {
            return None;
        }
        let lowest = self.nodes[from as usize];
        let highest = self.nodes[end as usize - 1];
        // does not come, since inactive visits are ascending
        if lowest > highest {
            return None;
        }
        let mv = self.make(from);
        match sieve.first(judge, mv, lowest, highest.saturating_add(1)) {
            Some(first) => Some(end_within(self.nodes, from, end, lowest, first)),
            None => None,
        }
    }

    #[inline]
    fn many(&self, from: u32, to: u32) -> u32 {
        to - from
    }
}

// Up to which place, from one on and below another, all nodes are numbers from `lowest` on, below `first`. Of these the
// sieve said that they can be passed over.
#[inline]
fn end_within(nodes: &[u32], from: u32, end: u32, lowest: u32, first: u32) -> u32
    requires order { from ≤ end }
    requires within { end ≤ length nodes.now }
    ensures from { from ≤ result }
    ensures within { result ≤ end }
    ensures low { (k : ℕ) → from ≤ k → k < result → lowest ≤ slice_index nodes.now k }
    ensures high { (k : ℕ) → from ≤ k → k < result → slice_index nodes.now k < first }
{
    for k in from..end {
        let node = nodes[k as usize];
        if node < lowest || node >= first {
            return k;
        }
    }
    end
}

/// The places of `v`; at each one each of the inactive `nodes` may come in. How many places there are the range over
/// them says (`Vehicles::open`).
#[derive(Drop)]
pub struct Places<'a> {
    v: u32,
    nodes: &'a [u32],
    ghost vehicle: { v < 100 },
    ghost few: { length nodes.now ≤ 1000 },
}

impl<'a> Family for Places<'a> {
    type Inner = Run<Newcomers<'a>>;

    ghost count = { λ s. 4294967296 };

    ghost moves = { λ s k. map (SwapActive s.v k) s.nodes.now };

    #[inline]
    fn open(&self, k: u32) -> Option<Run<Newcomers<'a>>> {
        let newcomers = Newcomers {
            v: self.v,
            a: k,
            nodes: self.nodes,
        };
        Some(Run::new(newcomers, 0, self.nodes.len() as u32))
    }
}

/// The vehicles, with the inactive `nodes`.
#[derive(Drop)]
pub struct Vehicles<'a> {
    routes: &'a Routes,
    nodes: &'a [u32],
    ghost few: { length nodes.now ≤ 1000 },
    ghost few_vehicles: { length routes.now.lists ≤ 100 },
}

impl<'a> Family for Vehicles<'a> {
    type Inner = Each<Places<'a>>;

    ghost count = { λ s. length s.routes.now.lists };

    ghost moves = { λ s k. each (places (route s.routes.now.lists k)) λ a. map (SwapActive k a) s.nodes.now };

    #[inline]
    fn open(&self, k: u32) -> Option<Each<Places<'a>>> {
        let places = Places {
            v: k,
            nodes: self.nodes,
        };
        Some(Each::new(places, 0, self.routes.len(k)))
    }
}

/// The moves that let an inactive visit take the place of a node (OR-Tools' `SwapActive`), in lexicographic order of
/// their numbers. Contracts see the list of those that are left.
pub type SwapActiveMoves<'a> = Moves<Each<Vehicles<'a>>>;

/// The moves that let an inactive visit take the place of a node (OR-Tools' `SwapActive`), in lexicographic order of
/// their numbers.
pub fn swap_active<'a>(routes: &'a Routes) -> SwapActiveMoves<'a>
    ensures { (model : Defined) → routes.now.visits ≡ visits model
        → result ≡ moves_in model routes.now.lists SwapActiveKind }
{
    let vehicles = routes.vehicles();
    let nodes = routes.inactive();
    Moves::new(Each::new(Vehicles { routes, nodes }, 0, vehicles))
}
