//! Steps along the line of a vehicle: forwards from its start, and backwards from its end.

ghost use Rattle.std.specs.Prelude.{◌≡◌, ◌<◌, ◌≤◌, ◌+◌, ℕ, All, cond, fold, length, reverse, slice_index_or};
ghost use Rattle.vr_routes.specs.Pieces.{joined, nodes_of, IsWithin};

use vr_routes::{Piece, Routes};

/// Goes along lists of a vehicle, one visit at a time. There are two. The ways and rests of the guide of `ways` tell
/// bounds for any vehicle. Those of `vr_costfilter` tell the ends of tight schedules.
pub trait Walk {
    /// How far the vehicle is on its way.
    type Way: Copy + Default + Drop;

    /// What is left of its line from a stop on.
    type Rest: Copy + Default + Drop;

    /// The vehicle can be sent to a node.
    ghost can_visit: { Self → ℕ → Type 0 };

    /// The numbers of a way are those of this many arcs at most: 1000 along a kept front, and 8000 more along pieces.
    ghost is_way: { Self → ℕ → Self.Way → Type 0 };

    /// The same of what is left.
    ghost is_rest: { Self → ℕ → Self.Rest → Type 0 };

    /// The way of no arc.
    ghost start_way: { Self → Self.Way };

    /// A way goes on to a visit.
    ghost way_on: { Self → Self.Way → ℕ → Self.Way };

    /// What is left from the end on.
    ghost end_rest: { Self → Self.Rest };

    /// What is left from a visit on, which comes before what is left from the next stop on.
    ghost rest_from: { Self → ℕ → Self.Rest → Self.Rest };

    /// The vehicle is at its start.
    fn way_out(&self) -> Self::Way
        ensures value { result ≡ start_way self.now }
        ensures range { (n : ℕ) → is_way self.now n result };

    /// A way goes on to a visit.
    fn way_to_visit(&self, way: Self::Way, node: u32) -> Self::Way
        requires way { is_way self.now 10000 way }
        requires node { can_visit self.now node }
        ensures value { result ≡ way_on self.now way node }
        ensures range { (n m : ℕ) → n < m → is_way self.now n way → is_way self.now m result };

    /// What is left from the end on.
    fn rest_at_end(&self) -> Self::Rest
        ensures value { result ≡ end_rest self.now }
        ensures range { (n : ℕ) → is_rest self.now n result };

    /// What is left from a visit on, which comes before what is left from the next stop on.
    fn rest_before(&self, node: u32, rest: Self::Rest) -> Self::Rest
        requires node { can_visit self.now node }
        requires rest { is_rest self.now 1000 rest }
        ensures value { result ≡ rest_from self.now node rest }
        ensures range { (n m : ℕ) → n < m → is_rest self.now n rest → is_rest self.now m result };

    /// A way of at most `n` arcs is one of at most `m`, if `m` is no less.
    ghost way_grows: { (walk : Self) (n m : ℕ) (way : Self.Way) → n ≤ m → is_way walk n way → is_way walk m way };
}

/// A way goes on along the nodes of pieces.
#[inline(always)]
pub fn along_pieces<G: Walk>(walk: &G, routes: &Routes, pieces: &[Piece], way: G::Way) -> G::Way
    requires within { All (IsWithin routes.now.lists) pieces.now }
    requires few { length (joined routes.now.lists pieces.now) ≤ 8000 }
    requires nodes { All (G.can_visit walk.now) (joined routes.now.lists pieces.now) }
    requires way { G.is_way walk.now 1000 way }
    ensures value { result ≡ fold (G.way_on walk.now) way (joined routes.now.lists pieces.now) }
    ensures range { G.is_way walk.now 9000 result }
{
    let mut gone = way;
    for k in 0..pieces.len() {
        gone = along_piece(walk, routes, pieces[k], gone);
    }
    gone
}

// It goes on along the nodes of a piece.
#[inline(always)]
fn along_piece<G: Walk>(walk: &G, routes: &Routes, piece: Piece, way: G::Way) -> G::Way
    requires within { IsWithin routes.now.lists piece }
    requires nodes { All (G.can_visit walk.now) (nodes_of routes.now.lists piece) }
    requires way { G.is_way walk.now 9000 way }
    ensures value { result ≡ fold (G.way_on walk.now) way (nodes_of routes.now.lists piece) }
    ensures range { (n : ℕ) → G.is_way walk.now n way
        → G.is_way walk.now (n + length (nodes_of routes.now.lists piece)) result }
{
    match piece {
        Piece::Node { node } => walk.way_to_visit(way, node),
        Piece::Chain {
            vehicle,
            from,
            to,
            reversed,
        } => {
            let list = routes.list(vehicle);
            along_chain(walk, &list[from as usize..to as usize], reversed, way)
        }
    }
}

// It goes on along a chain, or along the chain backwards.
#[inline(always)]
fn along_chain<G: Walk>(walk: &G, chain: &[u32], reversed: bool, way: G::Way) -> G::Way
    requires few { length chain.now ≤ 1000 }
    requires nodes { All (G.can_visit walk.now) (cond reversed (reverse chain.now) chain.now) }
    requires way { G.is_way walk.now 9000 way }
    ensures value { result ≡ fold (G.way_on walk.now) way (cond reversed (reverse chain.now) chain.now) }
    ensures range { (n : ℕ) → G.is_way walk.now n way → G.is_way walk.now (n + length chain.now) result }
{
    let mut gone = way;
    for k in 0..chain.len() {
        gone = walk.way_to_visit(gone, node_in(chain, reversed, k));
    }
    gone
}

/// Node `k` of a chain, or of the chain backwards. `vr_costfilter` asks it too, for its floors.
#[inline(always)]
pub fn node_in(chain: &[u32], reversed: bool, k: usize) -> u32
    requires { k < length chain.now }
    ensures { result ≡ slice_index_or (cond reversed (reverse chain.now) chain.now) k 0 }
{
    if reversed {
        chain[chain.len() - 1 - k]
    } else {
        chain[k]
    }
}
