//! Walks through the nodes of changed lists, which add up penalised costs of arcs; `stretches` takes them.

ghost use Rattle.std.specs.Prelude.{◌≡◌, ◌<◌, ◌≤◌, ◌+◌, ◌*◌, ◌^◌, ◌∷◌, ℕ, List, All, length};
ghost use Rattle.std.specs.Prelude.{pos, reverse};
ghost use Rattle.vr_guided.specs.Counts.{counted};
ghost use Rattle.vr_guided.specs.Walks.{IsSoundWalk, walk_begun, stepped, walked, arc_weight};
ghost use Rattle.vr_model.specs.routes.Routes.{arcs_from};
ghost use Rattle.vr_model.specs.tables.Numbers.{total_by};
ghost use Rattle.vr_model.specs.tables.WellFormed.{IsIn};
ghost use Rattle.vr_balance.specs.Sums.{last_of};

use crate::weights::VehicleWeights;

/// A walk: the node that it has come to, how many arcs it took, and what they add up to.
#[derive(Clone, Copy)]
pub struct Walk {
    pub at: u32,
    pub arcs: u32,
    pub total: i128,
}

impl Walk {
    /// A walk that begins at a node.
    #[inline]
    pub fn begin(at: u32) -> Walk
        ensures { result ≡ walk_begun at }
    {
        Walk {
            at,
            arcs: 0,
            total: 0,
        }
    }
}

impl<'m, 'p> VehicleWeights<'m, 'p> {
    /// A walk goes on to a node.
    #[inline]
    pub fn step(&self, walk: &mut Walk, node: u32)
        requires node { node < self.now.weights.closed.model.now.nodes }
        requires sound { IsSoundWalk self.now.weights.closed.model.now.nodes walk.old }
        requires room { walk.old.arcs ≤ 100000 }
        ensures value { walk.new
            ≡ stepped self.now.weights.closed.model.now (counted self.now.weights.penalties.now) self.now.vehicle
            walk.old node }
        ensures sound { IsSoundWalk self.now.weights.closed.model.now.nodes walk.new }
    {
        let weight = self.weight(walk.at, node);
        walk.at = node;
        walk.arcs += 1;
        walk.total += weight;
    }

    /// A walk goes on through nodes.
    pub fn along(&self, walk: &mut Walk, nodes: &[u32])
        requires nodes { All (λ node. node < self.now.weights.closed.model.now.nodes) nodes.now }
        requires sound { IsSoundWalk self.now.weights.closed.model.now.nodes walk.old }
        requires room { walk.old.arcs + length nodes.now ≤ 100000 }
        ensures value { walk.new
            ≡ walked self.now.weights.closed.model.now (counted self.now.weights.penalties.now) self.now.vehicle
            walk.old nodes.now }
        ensures sound { IsSoundWalk self.now.weights.closed.model.now.nodes walk.new }
    {
        for &node in nodes {
            self.step(walk, node);
        }
    }

    /// A walk goes on through nodes in reverse order.
    pub fn along_back(&self, walk: &mut Walk, nodes: &[u32])
        requires nodes { All (λ node. node < self.now.weights.closed.model.now.nodes) nodes.now }
        requires sound { IsSoundWalk self.now.weights.closed.model.now.nodes walk.old }
        requires room { walk.old.arcs + length nodes.now ≤ 100000 }
        ensures value { walk.new
            ≡ walked self.now.weights.closed.model.now (counted self.now.weights.penalties.now) self.now.vehicle
            walk.old (reverse nodes.now) }
        ensures sound { IsSoundWalk self.now.weights.closed.model.now.nodes walk.new }
    {
        let mut place = nodes.len();
        while place > 0 {
            place -= 1;
            self.step(walk, nodes[place]);
        }
    }

    /// A walk goes on at one go: to a first node, and on by `arcs` arcs, which add up to `total`, to a last one.
    #[inline]
    pub fn jump(&self, walk: &mut Walk, first: u32, last: u32, arcs: u32, total: i128)
        requires first { first < self.now.weights.closed.model.now.nodes }
        requires last { last < self.now.weights.closed.model.now.nodes }
        requires sound { IsSoundWalk self.now.weights.closed.model.now.nodes walk.old }
        requires room { walk.old.arcs + arcs < 100000 }
        requires total { IsIn (pos 0) (pos (arcs * 2 ^ 70)) total }
        ensures value { (nodes : List ℕ) → arcs ≡ length nodes → last ≡ last_of first nodes
            → total ≡ total_by (arc_weight self.now.weights.closed.model.now (counted self.now.weights.penalties.now))
            (arcs_from self.now.vehicle first nodes)
            → walk.new ≡ walked self.now.weights.closed.model.now (counted self.now.weights.penalties.now)
            self.now.vehicle walk.old (first ∷ nodes) }
        ensures sound { IsSoundWalk self.now.weights.closed.model.now.nodes walk.new }
    {
        self.step(walk, first);
        walk.at = last;
        walk.arcs += arcs;
        walk.total += total;
    }
}
