//! The lines of vehicles, and sums of arc costs along them.

ghost use Rattle.std.proofs.Props.{props};
ghost use Rattle.std.specs.Prelude.{◌≡◌, ◌<◌, ◌≤◌, ◌+◌, ◌^◌, ℕ, List, pos, neg_ℤ, All, length, slice_range};
ghost use Rattle.vr_model.specs.declared.records.Model.{Model as RoutingModel};
ghost use Rattle.vr_model.specs.tables.Tables.{arc_cost};
ghost use Rattle.vr_model.specs.tables.WellFormed.{IsIn, IsWellFormed};
ghost use Rattle.vr_balance.specs.Sums.{HaveRange};
ghost use Rattle.vr_arccosts.specs.Chains.{chain_of, chain_sum};
ghost use Rattle.vr_arccosts.specs.Along.{between_cost, IsAlong, IsAlongTo, IsArc};
ghost use Rattle.vr_arccosts.specs.Bounds.{HasRoomForStop};
ghost use Rattle.vr_arccosts.specs.Runs.{at_place, before_place, IsLine};

use crate::costs::VehicleArcs;
use vr_balance::Sums;
use vr_model::{Closed, Model};

/// The sums of arc costs along the line of a vehicle, from its start through its list to its end, ahead and backwards.
/// The start is their place 0, and a node of the list is one place after its own. Of an empty list they have the arc
/// from start to end. `stretch` leaves it out, since a vehicle that is not used drives none.
#[derive(Drop)]
pub struct Along {
    /// Of the arcs as they are driven.
    pub ahead: Sums,
    /// Of the same arcs backwards (in `stretch`, `behind` is a place).
    pub behind: Sums,
}

impl Along {
    /// The sums of no line.
    pub fn new() -> Along {
        Along {
            ahead: Sums::new(),
            behind: Sums::new(),
        }
    }

    /// Writes the sums of the line of a vehicle with a list.
    pub fn write(&mut self, model: &Model, v: u32, list: &[u32])
        requires well_formed { IsWellFormed model.now }
        requires vehicle { v < length model.now.vehicles }
        requires nodes { All (λ node. node < model.now.nodes) list.now }
        requires few { length list.now ≤ 1000 }
        ensures { IsAlong model.now v list.now self.new }
    {
        let closed = Closed { model };
        let vehicle = model.vehicles.get(v as usize);
        self.ahead.restart();
        self.behind.restart();
        let mut at = vehicle.start;
        for k in 0..list.len() {
            self.step(closed, v, at, list[k]);
            at = list[k];
        }
        self.step(closed, v, at, vehicle.end);
    }

    // The line goes on from a node to another one.
    fn step(&mut self, closed: Closed<'_>, v: u32, at: u32, next: u32)
        requires vehicle { v < length closed.model.now.vehicles }
        requires at { at < closed.model.now.nodes }
        requires next { next < closed.model.now.nodes }
        requires same { length self.old.behind ≡ length self.old.ahead }
        requires some { 0 < length self.old.ahead }
        requires room { HasRoomForStop self.old.ahead }
        requires ahead { HaveRange self.old.ahead }
        requires behind { HaveRange self.old.behind }
        ensures { (list : List ℕ) (n : ℕ) → IsAlongTo closed.entry.model.now v list n self.old
            → IsArc closed.entry.model.now v list n at next
            → IsAlongTo closed.entry.model.now v list (n + 1) self.new }
    {
        self.ahead.extend(closed.model.arc_cost(v, at, next));
        self.behind.extend(closed.model.arc_cost(v, next, at));
    }

    /// What the arcs cost from the stop before place `front` of the list to the stop at place `behind`. It is 0 if the
    /// list has no nodes; the caller says how many it has.
    #[inline(always)]
    pub fn stretch(&self, nodes: u32, front: u32, behind: u32) -> i64
        requires nodes { length self.now.ahead ≡ nodes + 2 }
        requires range { HaveRange self.now.ahead }
        requires order { front ≤ behind }
        requires place { behind ≤ nodes }
        ensures value { (model : RoutingModel) (v : ℕ) (list : List ℕ) → IsAlong model v list self.now
            → result ≡ between_cost model v list front behind (slice_range list front behind) }
        ensures range { IsIn (neg_ℤ (pos (2 ^ 50))) (pos (2 ^ 50)) result }
    {
        if nodes == 0 {
            return 0;
        }
        self.ahead.between(front, behind + 1)
    }

    /// What the arcs cost between the nodes from place `from` up to place `to` of the list, the last not included. If
    /// reversed, it is what they cost along this chain backwards.
    #[inline(always)]
    pub fn chain(&self, reversed: bool, from: u32, to: u32) -> i64
        requires order { from < to }
        requires ahead { to < length self.now.ahead }
        requires behind { to < length self.now.behind }
        requires range { HaveRange self.now.ahead }
        requires range_behind { HaveRange self.now.behind }
        ensures value { (model : RoutingModel) (v : ℕ) (list : List ℕ) → IsAlong model v list self.now
            → to ≤ length list → result ≡ chain_sum (arc_cost model v) (chain_of reversed list from to) }
        ensures range { IsIn (neg_ℤ (pos (2 ^ 50))) (pos (2 ^ 50)) result }
    {
        if reversed {
            self.behind.between(from + 1, to)
        } else {
            self.ahead.between(from + 1, to)
        }
    }
}

/// The line of a vehicle with its list: what its arcs cost, and the sums along it, which are of this list. Loops over
/// runs (`gaps`, `swaps`, `crosses`, `fronts`) ask which nodes are beside a place, and what stretches of it cost.
#[derive(Drop)]
pub struct Line<'a, 'm> {
    pub costs: VehicleArcs<'m>,
    pub along: &'a Along,
    pub list: &'a [u32],
    pub ghost sound: { IsLine costs.model.now costs.vehicle list.now along.now } by { Prim.hlevel props },
}

impl<'a, 'm> Line<'a, 'm> {
    /// The node of the stop before a place of the list of a vehicle.
    #[inline(always)]
    pub fn node_before(&self, place: u32) -> u32
        requires place { place ≤ length self.now.list.now }
        ensures value { result ≡ before_place self.now.costs.model.now self.now.costs.vehicle self.now.list.now place }
        ensures known { result < self.now.costs.model.now.nodes }
    {
        if place == 0 {
            return self.costs.start();
        }
        self.list[(place - 1) as usize]
    }

    /// The node of the stop at a place of the list of a vehicle.
    #[inline(always)]
    pub fn node_at(&self, place: u32) -> u32
        requires place { place ≤ length self.now.list.now }
        ensures value { result ≡ at_place self.now.costs.model.now self.now.costs.vehicle self.now.list.now place }
        ensures known { result < self.now.costs.model.now.nodes }
    {
        if place as usize == self.list.len() {
            return self.costs.end();
        }
        self.list[place as usize]
    }
}
