//! What a change brings in and takes out; the same piece on both sides cancels out.

ghost use Rattle.std.specs.Prelude.{◌≡◌, ◌+◌, ◌<◌, ◌≤◌, ℕ, List, [], length, All, false};
ghost use Rattle.std.specs.Prelude.{slice_index_or, slice_range, sum_by, take};
ghost use Rattle.arrayvec.specs.ArrayVec.{array_vec_len};
ghost use Rattle.vr_model.specs.routes.Routes.{route};
ghost use Rattle.vr_routes.specs.Pieces.{changed, joined, nodes_of, IsWithin};
ghost use Rattle.vr_routes.specs.Changes.{IsMadeOn};
ghost use Rattle.vr_routes.specs.declared.pieces.Piece.TheVariants.{Chain, Node};
ghost use Rattle.vr_balance.specs.Balances.{over_pieces, Became, IsBalance, IsNoneOf, IsTurnover};

use arrayvec::ArrayVec;
use std::marker::Model;
use vr_routes::{Change, Piece, Routes};

/// What a change brings into lists, and what it takes out of them, as pieces of the lists before it and inactive nodes.
/// A piece that only changes its place or its direction does neither, if it goes and comes with the same ends. (Else it
/// is on both sides, and who counts nodes counts it on both.) So for the change of a move these are few, however long
/// the lists are: at most 18 on a side. That is two parts of eight pieces at most, with what is left after each.
#[derive(Drop)]
pub struct Balance {
    come: ArrayVec<Piece, 18>,
    gone: ArrayVec<Piece, 18>,
}

impl Model for Balance {
    ghost use Rattle.vr_balance.specs.Balances.{Turnover};

    ghost Value = { Turnover };

    ghost view = { λ b. record { come = b.come.items; gone = b.gone.items } };
}

// The first place of a piece among others, or how many there are if it is none of them.
fn place_of(pieces: &[Piece], piece: Piece) -> usize
    ensures low { result ≤ length pieces.now }
    ensures found { result < length pieces.now → slice_index_or pieces.now result piece ≡ piece }
    ensures first { IsNoneOf (take result pieces.now) piece }
{
    for k in 0..pieces.len() {
        if pieces[k] == piece {
            return k;
        }
    }
    pieces.len()
}

// Adds a piece to one side. If the other side has the same piece, that one is taken out of there instead.
fn enter(side: &mut ArrayVec<Piece, 18>, other: &mut ArrayVec<Piece, 18>, piece: Piece)
    requires room { array_vec_len side.old < 18 }
    ensures room { array_vec_len side.new ≤ array_vec_len side.old + 1 }
    ensures less { array_vec_len other.new ≤ array_vec_len other.old }
    ensures sums { (f : ℕ → ℕ) (lists : List (List ℕ))
        → over_pieces f lists side.new.items + over_pieces f lists other.old.items
        ≡ over_pieces f lists side.old.items + (over_pieces f lists other.new.items + sum_by f (nodes_of lists piece)) }
    ensures within { (lists : List (List ℕ)) → IsWithin lists piece → All (IsWithin lists) side.old.items
        → All (IsWithin lists) side.new.items }
    ensures others_within { (lists : List (List ℕ)) → All (IsWithin lists) other.old.items
        → All (IsWithin lists) other.new.items }
    ensures apart { All (IsNoneOf other.old.items) side.old.items → All (IsNoneOf other.new.items) side.new.items }
{
    let k = place_of(other.as_slice(), piece);
    if k < other.len() {
        other.swap_remove(k);
    } else {
        side.push(piece);
    }
}

impl Balance {
    /// Nothing comes, and nothing goes.
    pub fn new() -> Balance
        ensures { result ≡ record { come = []; gone = [] } }
    {
        Balance {
            come: ArrayVec::new(),
            gone: ArrayVec::new(),
        }
    }

    /// The pieces that come.
    #[inline]
    pub fn come(&self) -> &[Piece]
        ensures value { result.now ≡ self.now.come }
        ensures few { length result.now ≤ 18 }
    {
        self.come.as_slice()
    }

    /// The pieces that go.
    #[inline]
    pub fn gone(&self) -> &[Piece]
        ensures value { result.now ≡ self.now.gone }
        ensures few { length result.now ≤ 18 }
    {
        self.gone.as_slice()
    }

    /// Writes what a change of these lists brings and takes away over another balance.
    pub fn write(&mut self, routes: &Routes, change: &Change)
        requires made { IsMadeOn routes.now change.now }
        ensures { IsBalance routes.now.lists (changed routes.now.lists change.now) self.new }
    {
        self.come.clear();
        self.gone.clear();
        for k in 0..change.parts() {
            self.add_part(routes, change.vehicle(k), change.pieces(k));
        }
    }

    // The list of a vehicle becomes the one that pieces are joined to, piece by piece: `place` is how far the list is
    // gone over. What is left of it after the last piece goes.
    fn add_part(&mut self, routes: &Routes, v: u32, pieces: &[Piece])
        requires vehicle { v < length routes.now.lists }
        requires pieces { All (IsWithin routes.now.lists) pieces.now }
        requires few { length pieces.now ≤ 8 }
        requires room { length self.old.come ≤ 9 }
        requires room_too { length self.old.gone ≤ 9 }
        requires within { IsTurnover routes.now.lists self.old }
        ensures room { length self.new.come ≤ length self.old.come + 9 }
        ensures room_too { length self.new.gone ≤ length self.old.gone + 9 }
        ensures within { IsTurnover routes.now.lists self.new }
        ensures became { Became routes.now.lists self.old self.new (route routes.now.lists v)
            (joined routes.now.lists pieces.now) }
    {
        let mut place = 0;
        for k in 0..pieces.len() {
            place = self.add_piece(routes, v, place, pieces[k]);
        }
        self.leave(v, place, routes.len(v));
    }

    // The nodes of a vehicle from a place up to the place that is answered become those of a piece.
    fn add_piece(&mut self, routes: &Routes, v: u32, place: u32, piece: Piece) -> u32
        requires vehicle { v < length routes.now.lists }
        requires place { place ≤ length (route routes.now.lists v) }
        requires piece { IsWithin routes.now.lists piece }
        requires room { length self.old.come < 18 }
        requires room_too { length self.old.gone < 18 }
        requires within { IsTurnover routes.now.lists self.old }
        ensures order { place ≤ result }
        ensures low { result ≤ length (route routes.now.lists v) }
        ensures room { length self.new.come ≤ length self.old.come + 1 }
        ensures room_too { length self.new.gone ≤ length self.old.gone + 1 }
        ensures within { IsTurnover routes.now.lists self.new }
        ensures became { Became routes.now.lists self.old self.new (slice_range (route routes.now.lists v) place result)
            (nodes_of routes.now.lists piece) }
    {
        match piece {
            Piece::Node { node } => {
                self.bring_node(routes, node);
                place
            }
            Piece::Chain {
                vehicle,
                from,
                to,
                ..
            } => {
                if vehicle == v && place <= from {
                    // it stays, and what was in front of it goes
                    self.leave(v, place, from);
                    return to;
                }
                // it comes from another list, or from in front of this place; that was said to go
                self.bring(vehicle, from, to);
                place
            }
        }
    }

    // A node comes. From a list it comes as a chain of one, so that it cancels out the chain that goes; else it comes
    // anew.
    fn bring_node(&mut self, routes: &Routes, node: u32)
        requires room { length self.old.come < 18 }
        requires within { IsTurnover routes.now.lists self.old }
        ensures room { length self.new.come ≤ length self.old.come + 1 }
        ensures room_too { length self.new.gone ≤ length self.old.gone }
        ensures within { IsTurnover routes.now.lists self.new }
        ensures became { Became routes.now.lists self.old self.new [] (nodes_of routes.now.lists (Node node)) }
    {
        match routes.seat(node) {
            Some(seat) => {
                // That a list is short says that the sum fits.
                let _few = routes.len(seat.vehicle);
                self.bring(seat.vehicle, seat.place, seat.place + 1);
            }
            None => enter(&mut self.come, &mut self.gone, Piece::Node { node }),
        }
    }

    // The nodes of a vehicle from a place up to but not including a place come.
    fn bring(&mut self, v: u32, from: u32, to: u32)
        requires room { length self.old.come < 18 }
        ensures room { length self.new.come ≤ length self.old.come + 1 }
        ensures room_too { length self.new.gone ≤ length self.old.gone }
        ensures within { (lists : List (List ℕ)) → IsWithin lists (Chain v from to false)
            → IsTurnover lists self.old → IsTurnover lists self.new }
        ensures became { (lists : List (List ℕ))
            → Became lists self.old self.new [] (slice_range (route lists v) from to) }
    {
        if from < to {
            let chain = Piece::Chain {
                vehicle: v,
                from,
                to,
                reversed: false,
            };
            enter(&mut self.come, &mut self.gone, chain);
        }
    }

    // The nodes of a vehicle from a place up to but not including a place go.
    fn leave(&mut self, v: u32, from: u32, to: u32)
        requires room { length self.old.gone < 18 }
        ensures room { length self.new.come ≤ length self.old.come }
        ensures room_too { length self.new.gone ≤ length self.old.gone + 1 }
        ensures within { (lists : List (List ℕ)) → IsWithin lists (Chain v from to false)
            → IsTurnover lists self.old → IsTurnover lists self.new }
        ensures became { (lists : List (List ℕ))
            → Became lists self.old self.new (slice_range (route lists v) from to) [] }
    {
        if from < to {
            let chain = Piece::Chain {
                vehicle: v,
                from,
                to,
                reversed: false,
            };
            enter(&mut self.gone, &mut self.come, chain);
        }
    }
}
