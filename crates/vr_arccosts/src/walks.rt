//! Paths of vehicles along pieces of lists: `ArcCost::between_adds` asks what pieces cost that come in the place of a
//! stretch.

ghost use Rattle.std.proofs.Props.{props};
ghost use Rattle.std.specs.Prelude.{◌≡◌, ◌<◌, ◌≤◌, ◌+◌, ◌+ℤ◌};
ghost use Rattle.std.specs.Prelude.{ℕ, All, drop, length, slice_index_or, take};
ghost use Rattle.vr_model.specs.tables.Tables.{arc_cost, vehicle_at};
ghost use Rattle.vr_model.specs.routes.Routes.{route};
ghost use Rattle.vr_routes.specs.declared.pieces.Piece.TheVariants.{Chain};
ghost use Rattle.vr_routes.specs.Pieces.{joined, nodes_of, IsWithin};
ghost use Rattle.vr_balance.specs.Sums.{last_of, path_sum};
ghost use Rattle.vr_arccosts.specs.Chains.{chain_sum, first_node_or, turned};
ghost use Rattle.vr_arccosts.specs.Along.{between_cost, HaveAlong};
ghost use Rattle.vr_arccosts.specs.Bounds.{IsChainCost, IsGapCost, IsPathCost, IsPieceFurther};

use crate::costs::VehicleArcs;
use crate::lines::Along;
use vr_parts::is_left_empty;
use vr_routes::{Piece, Routes, Splice};

/// A vehicle of the committed lists: what its arcs cost, and the sums along the lines of all vehicles.
#[derive(Clone, Copy)]
pub struct Driven<'a, 'm> {
    pub costs: &'a VehicleArcs<'m>,
    pub along: &'a [Along],
    pub routes: &'a Routes,
    pub ghost have: { HaveAlong costs.now.model.now costs.now.vehicle routes.now.lists along.now } by { Prim.hlevel
        props },
}

/// A stretch of the list of a vehicle, from place `front` up to place `behind`, in the place of which pieces come.
#[derive(Clone, Copy)]
pub struct Gap<'a, 'm> {
    pub of: Driven<'a, 'm>,
    pub front: u32,
    pub behind: u32,
    pub ghost order: { front ≤ behind },
    pub ghost place: { behind ≤ length (route of.routes.now.lists of.costs.now.vehicle) },
}

impl<'a, 'm> Gap<'a, 'm> {
    /// What the arcs of the vehicle cost from the stop before the gap along pieces to the stop after it. It is 0 if no
    /// node is left of the list then.
    #[inline(always)]
    pub fn cost_along(&self, pieces: &[Piece]) -> i64
        requires within { All (IsWithin self.now.of.routes.now.lists) pieces.now }
        requires few { length pieces.now ≤ 6 }
        requires nodes { All (λ node. node < self.now.of.costs.now.model.now.nodes)
            (joined self.now.of.routes.now.lists pieces.now) }
        ensures value { let of = self.now.of in
            result ≡ between_cost of.costs.now.model.now of.costs.now.vehicle
            (route of.routes.now.lists of.costs.now.vehicle) self.now.front self.now.behind
            (joined of.routes.now.lists pieces.now) }
        ensures range { IsGapCost result }
    {
        let splice = Splice {
            vehicle: self.of.costs.vehicle,
            front: self.front,
            behind: self.behind,
            middle: pieces,
        };
        if is_left_empty(self.of.routes, splice) {
            return 0;
        }
        let from = self.node_before();
        let to = self.node_behind();
        let path = self.of.path_along(from, pieces);
        path.cost + self.of.costs.cost(path.at, to)
    }

    // The node of the stop before the gap.
    #[inline(always)]
    fn node_before(&self) -> u32
        ensures value { let of = self.now.of in
            result ≡ last_of (vehicle_at of.costs.now.model.now of.costs.now.vehicle).start
            (take self.now.front (route of.routes.now.lists of.costs.now.vehicle)) }
        ensures known { result < self.now.of.costs.now.model.now.nodes }
    {
        let costs = self.of.costs;
        if self.front == 0 {
            return costs.start();
        }
        self.of.routes.node_at(costs.vehicle, self.front - 1)
    }

    // The node of the stop after the gap.
    #[inline(always)]
    fn node_behind(&self) -> u32
        ensures value { let of = self.now.of in
            result ≡ first_node_or (drop self.now.behind (route of.routes.now.lists of.costs.now.vehicle))
            (vehicle_at of.costs.now.model.now of.costs.now.vehicle).end }
        ensures known { result < self.now.of.costs.now.model.now.nodes }
    {
        let costs = self.of.costs;
        if self.behind == self.of.routes.len(costs.vehicle) {
            return costs.end();
        }
        self.of.routes.node_at(costs.vehicle, self.behind)
    }
}

impl<'a, 'm> Driven<'a, 'm> {
    // The path of the vehicle from a node along pieces.
    #[inline(always)]
    fn path_along(&self, at: u32, pieces: &[Piece]) -> Path
        requires within { All (IsWithin self.now.routes.now.lists) pieces.now }
        requires few { length pieces.now ≤ 6 }
        requires nodes { All (λ node. node < self.now.costs.now.model.now.nodes)
            (joined self.now.routes.now.lists pieces.now) }
        requires at { at < self.now.costs.now.model.now.nodes }
        ensures at { result.at ≡ last_of at (joined self.now.routes.now.lists pieces.now) }
        ensures cost { result.cost
            ≡ path_sum (arc_cost self.now.costs.now.model.now self.now.costs.now.vehicle) at
            (joined self.now.routes.now.lists pieces.now) }
        ensures known { result.at < self.now.costs.now.model.now.nodes }
        ensures range { IsPathCost result.cost }
    {
        let mut path = Path { at, cost: 0 };
        for k in 0..pieces.len() {
            path = path.along(self, pieces[k]);
        }
        path
    }

    // The arc costs of the vehicle along a chain of the list of vehicle `w`, or along the chain backwards. If both
    // vehicles have the same costs, it takes no longer for a long chain than for a short one.
    #[inline(always)]
    fn chain_cost(&self, w: u32, reversed: bool, from: u32, to: u32) -> i64
        requires other { w < length self.now.costs.now.model.now.vehicles }
        requires order { from < to }
        requires within { to ≤ length (route self.now.routes.now.lists w) }
        requires nodes { All (λ node. node < self.now.costs.now.model.now.nodes)
            (nodes_of self.now.routes.now.lists (Chain w from to reversed)) }
        ensures value { result ≡ chain_sum (arc_cost self.now.costs.now.model.now self.now.costs.now.vehicle)
            (nodes_of self.now.routes.now.lists (Chain w from to reversed)) }
        ensures range { IsChainCost result }
    {
        let costs = self.costs;
        let along = self.along;
        let vehicles = &costs.model.vehicles;
        if vehicles.get(costs.vehicle as usize).costs != vehicles.get(w as usize).costs {
            return costs_along(
                costs,
                reversed,
                &self.routes.list(w)[from as usize..to as usize],
            );
        }
        along[w as usize].chain(reversed, from, to)
    }
}

// The node at which a path is, and what its arcs cost.
#[derive(Clone, Copy)]
struct Path {
    at: u32,
    cost: i64,
}

impl Path {
    // The path goes on along a piece.
    #[inline(always)]
    fn along(self, of: &Driven, piece: Piece) -> Path
        requires within { IsWithin of.now.routes.now.lists piece }
        requires nodes { All (λ node. node < of.now.costs.now.model.now.nodes)
            (nodes_of of.now.routes.now.lists piece) }
        requires at { self.at < of.now.costs.now.model.now.nodes }
        requires cost { IsPathCost self.cost }
        ensures at { result.at ≡ last_of self.at (nodes_of of.now.routes.now.lists piece) }
        ensures cost { let cost = arc_cost of.now.costs.now.model.now of.now.costs.now.vehicle in
            result.cost ≡ self.cost +ℤ path_sum cost self.at (nodes_of of.now.routes.now.lists piece) }
        ensures range { IsPieceFurther self.cost result.cost }
    {
        match piece {
            Piece::Node { node } => self.through(of.costs, node, node, 0),
            Piece::Chain {
                vehicle,
                from,
                to,
                reversed,
            } => {
                if from == to {
                    return self;
                }
                let (first, last) = ends_of(of.routes, vehicle, reversed, from, to);
                let inner = of.chain_cost(vehicle, reversed, from, to);
                self.through(of.costs, first, last, inner)
            }
        }
    }

    // The path goes on to a node, and from there by arcs of a known cost to another one.
    #[inline(always)]
    fn through(self, costs: &VehicleArcs, first: u32, last: u32, inner: i64) -> Path
        requires at { self.at < costs.now.model.now.nodes }
        requires first { first < costs.now.model.now.nodes }
        requires cost { IsPathCost self.cost }
        requires inner { IsChainCost inner }
        ensures at { result.at ≡ last }
        ensures cost { result.cost
            ≡ self.cost +ℤ (arc_cost costs.now.model.now costs.now.vehicle self.at first +ℤ inner) }
        ensures range { IsPieceFurther self.cost result.cost }
    {
        Path {
            at: last,
            cost: self.cost + (costs.cost(self.at, first) + inner),
        }
    }
}

// The first and the last node of a chain, or of the chain backwards.
#[inline(always)]
fn ends_of(routes: &Routes, w: u32, reversed: bool, from: u32, to: u32) -> (u32, u32)
    requires vehicle { w < length routes.now.lists }
    requires order { from < to }
    requires within { to ≤ length (route routes.now.lists w) }
    ensures first { result.0 ≡ slice_index_or (nodes_of routes.now.lists (Chain w from to reversed)) 0 0 }
    ensures last { (at : ℕ) → last_of at (nodes_of routes.now.lists (Chain w from to reversed)) ≡ result.1 }
{
    let first = routes.node_at(w, from);
    let last = routes.node_at(w, to - 1);
    if reversed {
        (last, first)
    } else {
        (first, last)
    }
}

/// The arc costs of a vehicle along a chain, or along the chain backwards, added up.
#[inline(never)]
pub fn costs_along(costs: &VehicleArcs, reversed: bool, chain: &[u32]) -> i64
    requires few { length chain.now ≤ 1000 }
    requires nodes { All (λ node. node < costs.now.model.now.nodes) chain.now }
    ensures value { result ≡ chain_sum (turned reversed (arc_cost costs.now.model.now costs.now.vehicle)) chain.now }
    ensures range { IsChainCost result }
{
    let mut cost = 0;
    for k in 1..chain.len() {
        cost += costs.turned(reversed, chain[k - 1], chain[k]);
    }
    cost
}
