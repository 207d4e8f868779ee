//! What the arcs of stretches of lists add to the penalised arc costs if a vehicle goes along them; `changing` asks.

ghost use Rattle.std.specs.Prelude.{◌≡◌, ◌<◌, ◌≤◌, ◌≤ℤ◌, ◌+◌, ◌-◌, ◌*◌, ◌^◌, ◌∷◌, ◌++◌, [], ℕ, List, All, IsTrue};
ghost use Rattle.std.specs.Prelude.{drop, length, pos, slice_range, take};
ghost use Rattle.vr_guided.specs.Counts.{counted};
ghost use Rattle.vr_guided.specs.Parts.{AreBelow};
ghost use Rattle.vr_guided.specs.RouteSums.{AreAllRouteSums};
ghost use Rattle.vr_guided.specs.Walks.{IsSoundWalk, stretch_weight, walked};
ghost use Rattle.vr_model.specs.routes.Routes.{route};
ghost use Rattle.vr_model.specs.routes.Rules.{is_valid};
ghost use Rattle.vr_model.specs.tables.Tables.{vehicle_at};
ghost use Rattle.vr_routes.specs.Pieces.{IsWithin, joined, nodes_of};
ghost use Rattle.vr_routes.specs.declared.pieces.Piece.TheVariants.{Chain};
ghost use Rattle.vr_balance.specs.Sums.{last_of};

use crate::route_sums::AllRouteSums;
use crate::walks::Walk;
use crate::weights::VehicleWeights;
use vr_routes::{Piece, Routes};

/// Says what stretches of lists add if one vehicle goes along them. It has the vehicle's arcs with their penalties,
/// valid routes, and the sums of all their lists. A stretch of a list of a vehicle with the same arc costs is one
/// subtraction of these sums.
#[derive(Clone, Copy)]
pub struct Stretches<'m, 'p, 's, 'r> {
    pub arcs: VehicleWeights<'m, 'p>,
    pub routes: &'r Routes,
    pub route_sums: &'s AllRouteSums,
    /// The lists are valid.
    pub ghost valid: { IsTrue (is_valid arcs.weights.closed.model.now routes.now.lists) },
    /// The sums are those of these lists.
    pub ghost sums: { AreAllRouteSums arcs.weights.closed.model.now (counted arcs.weights.penalties.now)
        routes.now.lists route_sums.now },
}

/// How many nodes the pieces of a stretch have, without the nodes at both its ends, and what its arcs add.
#[derive(Clone, Copy)]
pub struct Stretch {
    pub nodes: u32,
    pub total: i128,
}

impl<'m, 'p, 's, 'r> Stretches<'m, 'p, 's, 'r> {
    /// What the arcs of the vehicle add now, from the node before a place of its list up to the one at another place.
    /// Its start comes before the first node, and its end after the last. Of an empty list that is the arc from start
    /// to end, which is not taken (`VehicleWeights::unused`).
    #[inline]
    pub fn old_stretch(&self, front: u32, behind: u32) -> i128
        requires order { front ≤ behind }
        requires place { behind ≤ length (route self.now.routes.now.lists self.now.arcs.vehicle) }
        ensures low { pos 0 ≤ℤ result }
        ensures high { result ≤ℤ pos (1001 * 2 ^ 70) }
        ensures total { (next : ℕ) (others : List ℕ)
            → drop behind (route self.now.routes.now.lists self.now.arcs.vehicle)
            ++ (vehicle_at self.now.arcs.weights.closed.model.now self.now.arcs.vehicle).end ∷ [] ≡ next ∷ others
            → result ≡ stretch_weight self.now.arcs.weights.closed.model.now
            (counted self.now.arcs.weights.penalties.now) self.now.arcs.vehicle
            (last_of (vehicle_at self.now.arcs.weights.closed.model.now self.now.arcs.vehicle).start
            (take front (route self.now.routes.now.lists self.now.arcs.vehicle)))
            (slice_range (route self.now.routes.now.lists self.now.arcs.vehicle) front behind) next }
    {
        let sums = self.route_sums.of(self.arcs.vehicle);
        // in sums the start is place 0, so a node of the list is one place further there
        sums.forward.between(front as usize, behind as usize + 1)
    }

    /// What the arcs of the vehicle add from a node through the nodes of pieces to a last one.
    pub fn new_stretch(&self, start: u32, pieces: &[Piece], next: u32) -> Stretch
        requires start { start < self.now.arcs.weights.closed.model.now.nodes }
        requires next { next < self.now.arcs.weights.closed.model.now.nodes }
        requires pieces { AreBelow self.now.arcs.weights.closed.model.now.nodes self.now.routes.now.lists pieces.now }
        requires short { length (joined self.now.routes.now.lists pieces.now) ≤ 1000 }
        ensures low { pos 0 ≤ℤ result.total }
        ensures high { result.total ≤ℤ pos (1001 * 2 ^ 70) }
        ensures nodes { result.nodes ≡ length (joined self.now.routes.now.lists pieces.now) }
        ensures total { result.total
            ≡ stretch_weight self.now.arcs.weights.closed.model.now (counted self.now.arcs.weights.penalties.now)
            self.now.arcs.vehicle start (joined self.now.routes.now.lists pieces.now) next }
    {
        let mut walk = Walk::begin(start);
        self.along_pieces(&mut walk, pieces);
        let nodes = walk.arcs;
        self.arcs.step(&mut walk, next);
        Stretch {
            nodes,
            total: walk.total,
        }
    }

    // A walk goes on through the nodes of pieces.
    fn along_pieces(&self, walk: &mut Walk, pieces: &[Piece])
        requires pieces { AreBelow self.now.arcs.weights.closed.model.now.nodes self.now.routes.now.lists pieces.now }
        requires sound { IsSoundWalk self.now.arcs.weights.closed.model.now.nodes walk.old }
        requires room { walk.old.arcs + length (joined self.now.routes.now.lists pieces.now) ≤ 100000 }
        ensures value { walk.new
            ≡ walked self.now.arcs.weights.closed.model.now (counted self.now.arcs.weights.penalties.now)
            self.now.arcs.vehicle walk.old (joined self.now.routes.now.lists pieces.now) }
        ensures sound { IsSoundWalk self.now.arcs.weights.closed.model.now.nodes walk.new }
    {
        for piece in pieces {
            self.along_piece(walk, piece);
        }
    }

    // A walk goes on through the nodes of a piece. A chain with nodes goes at one go, if the vehicle of its list has
    // the same arc costs; other pieces go node by node.
    fn along_piece(&self, walk: &mut Walk, piece: &Piece)
        requires within { IsWithin self.now.routes.now.lists piece.now }
        requires nodes { All (λ node. node < self.now.arcs.weights.closed.model.now.nodes)
            (nodes_of self.now.routes.now.lists piece.now) }
        requires sound { IsSoundWalk self.now.arcs.weights.closed.model.now.nodes walk.old }
        requires room { walk.old.arcs + length (nodes_of self.now.routes.now.lists piece.now) ≤ 100000 }
        ensures value { walk.new
            ≡ walked self.now.arcs.weights.closed.model.now (counted self.now.arcs.weights.penalties.now)
            self.now.arcs.vehicle walk.old (nodes_of self.now.routes.now.lists piece.now) }
        ensures sound { IsSoundWalk self.now.arcs.weights.closed.model.now.nodes walk.new }
    {
        match *piece {
            Piece::Chain {
                vehicle: v,
                from,
                to,
                reversed,
            } => {
                let same = self.arcs.has_costs_of(v);
                if same && from < to {
                    self.along_kept(walk, v, from, to, reversed);
                    return;
                }
                let nodes = &self.routes.list(v)[from as usize..to as usize];
                if reversed {
                    self.arcs.along_back(walk, nodes);
                } else {
                    self.arcs.along(walk, nodes);
                }
            }
            Piece::Node { node } => self.arcs.step(walk, node),
        }
    }

    // A walk goes on through a chain of a list, by the sums of its vehicle, which has the same arc costs. In sums the
    // start is place 0, so the first node of the chain is at `from + 1` there, and the last at `to`.
    fn along_kept(&self, walk: &mut Walk, v: u32, from: u32, to: u32, reversed: bool)
        requires owner { v < length self.now.arcs.weights.closed.model.now.vehicles }
        requires same { (vehicle_at self.now.arcs.weights.closed.model.now v).costs
            ≡ (vehicle_at self.now.arcs.weights.closed.model.now self.now.arcs.vehicle).costs }
        requires order { from < to }
        requires place { to ≤ length (route self.now.routes.now.lists v) }
        requires sound { IsSoundWalk self.now.arcs.weights.closed.model.now.nodes walk.old }
        requires room { walk.old.arcs + (to - from) ≤ 100000 }
        ensures value { walk.new
            ≡ walked self.now.arcs.weights.closed.model.now (counted self.now.arcs.weights.penalties.now)
            self.now.arcs.vehicle walk.old (nodes_of self.now.routes.now.lists (Chain v from to reversed)) }
        ensures sound { IsSoundWalk self.now.arcs.weights.closed.model.now.nodes walk.new }
    {
        let list = self.routes.list(v);
        let sums = self.route_sums.of(v);
        let low = list[from as usize];
        let high = list[to as usize - 1];
        let arcs = to - from - 1;
        if reversed {
            let total = sums.back.between(from as usize + 1, to as usize);
            self.arcs.jump(walk, high, low, arcs, total);
        } else {
            let total = sums.forward.between(from as usize + 1, to as usize);
            self.arcs.jump(walk, low, high, arcs, total);
        }
    }
}
