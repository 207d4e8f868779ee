//! The pieces (segments) that lists after a change are made of.

ghost use Rattle.std.specs.Prelude.{All, ◌≡◌, ℕ, ◌+◌, ◌<◌, ◌≤◌, List, [], ◌∷◌, ◌++◌, length, reverse};
ghost use Rattle.std.specs.Prelude.{take, drop, slice_range};
ghost use Rattle.vr_model.specs.routes.Routes.{route};
ghost use Rattle.vr_routes.specs.Changes.{IsAfter, IsPartBegun};
ghost use Rattle.vr_routes.specs.Pairs.{is_past};
ghost use Rattle.vr_routes.specs.Pieces.{HasEnds, IsWithin, joined, middle_of, no_part, nodes_of};

use arrayvec::ArrayVec;
use std::marker::Model;

/// A piece of a list after a change: a chain or one node. A chain is a segment of a list before the change, of
/// whichever vehicle: its nodes from a place up to but not including another. They are in their order or reversed.
#[derive(Clone, Copy, Debug, PartialEq, Eq)]
pub enum Piece {
    Chain {
        vehicle: u32,
        from: u32,
        to: u32,
        reversed: bool,
    },
    Node {
        node: u32,
    },
}

impl Default for Piece {
    fn default() -> Piece {
        Piece::Node { node: 0 }
    }
}

impl Piece {
    /// How many nodes it has, in lists that it lies within.
    #[inline]
    pub fn nodes(&self) -> usize
        ensures value { (lists : List (List ℕ)) → IsWithin lists self.now → result ≡ length (nodes_of lists self.now) }
        ensures few { result < 4294967296 }
    {
        match *self {
            Piece::Node { .. } => 1,
            Piece::Chain { from, to, .. } => to.saturating_sub(from) as usize,
        }
    }

    /// How many nodes several pieces have, in lists that they lie within. Filters and cost terms ask so whether a list
    /// is empty after a change.
    #[inline]
    pub fn nodes_in(pieces: &[Piece]) -> usize
        requires few { length pieces.now ≤ 8 }
        ensures { (lists : List (List ℕ)) → All (IsWithin lists) pieces.now
            → result ≡ length (joined lists pieces.now) }
    {
        let mut nodes = 0;
        for piece in pieces {
            nodes += piece.nodes();
        }
        nodes
    }
}

/// A changed list as a splice of the list before it: what stays at its ends, and what comes between.
#[derive(Clone, Copy)]
pub struct Splice<'a> {
    pub vehicle: u32,
    /// How many nodes stay at the front.
    pub front: u32,
    /// The place from which on nodes stay at the end, the length of the list if none do.
    pub behind: u32,
    /// What comes between.
    pub middle: &'a [Piece],
}

/// The list of a vehicle after a change, as a splice of the list before it: its front, what comes between, and its end.
/// What each kind of move writes into it is in `kinds`.
#[derive(Drop)]
pub struct Part {
    vehicle: u32,
    // How many nodes stay at the front.
    front: u32,
    // The place from which on nodes stay at the end.
    behind: u32,
    // The front, the pieces between and the end. After the first `used` come pieces of an earlier change, which are
    // written over. No kind of move has more than eight; `move_pair` writes the most.
    pieces: ArrayVec<Piece, 8>,
    used: usize,
}

impl Model for Part {
    ghost use Rattle.std.specs.Prelude.{◌≤◌, take};
    ghost use Rattle.arrayvec.specs.ArrayVec.{array_vec_len};
    ghost use Rattle.vr_routes.specs.Pieces.{ListAfter};

    ghost Value = { ListAfter };

    ghost view = { λ p. record {
      vehicle = p.vehicle;
      pieces = take p.used p.pieces.items;
      front = p.front;
      behind = p.behind;
    } };

    ghost invariant = { λ p. p.used ≤ array_vec_len p.pieces };
}

impl Part {
    /// An empty list of vehicle 0.
    pub fn new() -> Part
        ensures { result ≡ no_part }
    {
        Part {
            vehicle: 0,
            front: 0,
            behind: 0,
            pieces: ArrayVec::new(),
            used: 0,
        }
    }

    /// The vehicle.
    #[inline]
    pub fn vehicle(&self) -> u32
        ensures { result ≡ self.now.vehicle }
    {
        self.vehicle
    }

    /// The pieces in order.
    #[inline]
    pub fn pieces(&self) -> &[Piece]
        ensures value { result.now ≡ self.now.pieces }
        ensures few { length result.now ≤ 8 }
    {
        &self.pieces.as_slice()[..self.used]
    }

    /// The list as a splice of the one before it.
    #[inline]
    pub fn splice(&self) -> Splice<'_>
        requires ends { HasEnds self.now }
        ensures vehicle { result.vehicle ≡ self.now.vehicle }
        ensures front { result.front ≡ self.now.front }
        ensures behind { result.behind ≡ self.now.behind }
        ensures middle { result.middle.now ≡ middle_of self.now.pieces }
    {
        let pieces = self.pieces();
        let end = pieces.len() - 1;
        Splice {
            vehicle: self.vehicle,
            front: self.front,
            behind: self.behind,
            middle: &pieces[1..end],
        }
    }

    /// Begins a list of a vehicle, of which `front` nodes stay at the front.
    #[inline]
    pub fn begin(&mut self, v: u32, front: u32)
        ensures room { length self.new.pieces ≡ 1 }
        ensures after { (lists : List (List ℕ)) → IsPartBegun lists self.new v front [] }
    {
        self.vehicle = v;
        self.front = front;
        self.used = 0;
        self.add(Piece::Chain {
            vehicle: v,
            from: 0,
            to: front,
            reversed: false,
        });
    }

    // Adds a piece.
    #[inline]
    fn add(&mut self, piece: Piece)
        requires room { length self.old.pieces < 8 }
        ensures vehicle { self.new.vehicle ≡ self.old.vehicle }
        ensures front { self.new.front ≡ self.old.front }
        ensures behind { self.new.behind ≡ self.old.behind }
        ensures pieces { self.new.pieces ≡ self.old.pieces ++ piece ∷ [] }
    {
        if self.used < self.pieces.len() {
            self.pieces[self.used] = piece;
        } else {
            self.pieces.push(piece);
        }
        self.used += 1;
    }

    /// Adds a node.
    #[inline]
    pub fn node(&mut self, node: u32)
        requires room { length self.old.pieces < 8 }
        ensures room { length self.new.pieces ≤ length self.old.pieces + 1 }
        ensures after { (lists : List (List ℕ)) (w front : ℕ) (nodes : List ℕ)
            → IsPartBegun lists self.old w front nodes → IsPartBegun lists self.new w front (nodes ++ node ∷ []) }
    {
        self.add(Piece::Node { node });
    }

    /// Adds the nodes of `v` from place `from` up to but not including place `to`.
    #[inline]
    pub fn chain(&mut self, v: u32, from: u32, to: u32)
        requires order { from ≤ to }
        requires room { length self.old.pieces < 8 }
        ensures room { length self.new.pieces ≤ length self.old.pieces + 1 }
        ensures after { (lists : List (List ℕ)) (w front : ℕ) (nodes : List ℕ)
            → v < length lists → to ≤ length (route lists v) → IsPartBegun lists self.old w front nodes
            → IsPartBegun lists self.new w front (nodes ++ slice_range (route lists v) from to) }
    {
        self.add(Piece::Chain {
            vehicle: v,
            from,
            to,
            reversed: false,
        });
    }

    /// Adds the nodes of `v` from place `from` up to but not including place `to`, if there are any.
    #[inline]
    pub fn some_chain(&mut self, v: u32, from: u32, to: u32)
        requires room { from < to → length self.old.pieces < 8 }
        ensures room { length self.new.pieces ≤ length self.old.pieces + is_past from to }
        ensures after { (lists : List (List ℕ)) (w front : ℕ) (nodes : List ℕ)
            → v < length lists → to ≤ length (route lists v) → IsPartBegun lists self.old w front nodes
            → IsPartBegun lists self.new w front (nodes ++ slice_range (route lists v) from to) }
    {
        if from < to {
            self.chain(v, from, to);
        }
    }

    /// Adds the same nodes in reverse order.
    #[inline]
    pub fn reversed(&mut self, v: u32, from: u32, to: u32)
        requires order { from ≤ to }
        requires room { length self.old.pieces < 8 }
        ensures room { length self.new.pieces ≤ length self.old.pieces + 1 }
        ensures after { (lists : List (List ℕ)) (w front : ℕ) (nodes : List ℕ)
            → v < length lists → to ≤ length (route lists v) → IsPartBegun lists self.old w front nodes
            → IsPartBegun lists self.new w front (nodes ++ reverse (slice_range (route lists v) from to)) }
    {
        self.add(Piece::Chain {
            vehicle: v,
            from,
            to,
            reversed: true,
        });
    }

    /// Ends the list: the `n` nodes that it had before stay from place `behind` on.
    #[inline]
    pub fn end(&mut self, behind: u32, n: u32)
        requires order { behind ≤ n }
        requires room { length self.old.pieces < 8 }
        ensures { (lists : List (List ℕ)) (v front : ℕ) (nodes : List ℕ)
            → v < length lists → n ≡ length (route lists v) → front ≤ behind → IsPartBegun lists self.old v front nodes
            → IsAfter lists self.new v (take front (route lists v) ++ (nodes ++ drop behind (route lists v))) }
    {
        let vehicle = self.vehicle;
        self.behind = behind;
        self.add(Piece::Chain {
            vehicle,
            from: behind,
            to: n,
            reversed: false,
        });
    }
}
