//! Sums of what arcs add along the list of a vehicle.

ghost use Rattle.std.specs.Prelude.{◌≡◌, ◌<◌, ◌≤◌, ◌++◌, ◌∷◌, [], ◌-◌, ◌*◌, ◌^◌, ◌+ℤ◌, ◌-ℤ◌, ◌≤ℤ◌, List, ℕ, ℤ};
ghost use Rattle.std.specs.Prelude.{length, neg_ℤ, pos};
ghost use Rattle.std.specs.Prelude.{slice_range, take};
ghost use Rattle.std.specs.Int.{int_max};
ghost use Rattle.vr_guided.specs.Counts.{counted};
ghost use Rattle.vr_guided.specs.Sums.{AddAtMost, AreArcSums, weight_by};
ghost use Rattle.vr_model.specs.routes.Routes.{UsedArc, arcs_from};
ghost use Rattle.vr_model.specs.tables.Numbers.{number_at, total_by};
ghost use Rattle.vr_model.specs.tables.Tables.{vehicle_at};
ghost use Rattle.vr_model.specs.tables.WellFormed.{IsIn};
ghost use Rattle.vr_balance.specs.Sums.{last_of, line_nodes};

use crate::weights::ListWeights;
use arrayvec::ArrayVec;
use std::marker::Model;

/// At each stop of a vehicle with its list, what the arcs before it add up to. The start is place 0, then come at most
/// 1000 visits and the end. Penalties times costs take more than the 64 bits that `vr_balance` has for a sum.
#[derive(Drop)]
pub struct Sums {
    items: ArrayVec<i128, 1002>,
}

impl Model for Sums {
    ghost use Rattle.std.specs.Prelude.{ℤ, List};
    ghost use Rattle.vr_guided.specs.Sums.{HaveWideRange};

    ghost Value = { List ℤ };

    ghost view = { λ s. s.items.items };

    ghost invariant = { λ s. HaveWideRange s.items.items };
}

impl Sums {
    /// No sums.
    pub fn new() -> Sums
        ensures { result ≡ [] }
    {
        Sums {
            items: ArrayVec::new(),
        }
    }

    /// Writes the sums of a vehicle with a list, of arcs that are taken forward, or back.
    pub fn write(&mut self, list: &ListWeights<'_, '_, '_>, back: bool)
        ensures { AreArcSums (weight_by list.now.arcs.weights.closed.model.now
            (counted list.now.arcs.weights.penalties.now) back) list.now.arcs.vehicle
            (vehicle_at list.now.arcs.weights.closed.model.now list.now.arcs.vehicle).start
            (line_nodes list.now.arcs.weights.closed.model.now list.now.arcs.vehicle list.now.nodes.now) self.new }
    {
        let arcs = list.arcs;
        let nodes = list.nodes;
        self.begin();
        let ends = arcs.ends();
        let mut at = ends.start;
        for &node in nodes {
            self.add(arcs.weight_by(at, node, back));
            at = node;
        }
        self.add(arcs.weight_by(at, ends.end, back));
    }

    // Begins: before the first stop nothing was added.
    fn begin(&mut self)
        ensures { self.new ≡ pos 0 ∷ [] }
    {
        self.items.clear();
        self.items.push(0);
    }

    // Adds what one more arc adds.
    #[inline]
    fn add(&mut self, weight: i128)
        requires some { 1 ≤ length self.old }
        requires room { length self.old ≤ 1001 }
        requires weight { IsIn (pos 0) (pos (2 ^ 70)) weight }
        ensures { self.new ≡ self.old ++ (number_at self.old (length self.old - 1) +ℤ weight) ∷ [] }
    {
        let sum = self.items[self.items.len() - 1] + weight;
        self.items.push(sum);
    }

    /// What the arcs between two places of these stops add up to.
    #[inline]
    pub fn between(&self, from: usize, to: usize) -> i128
        requires order { from ≤ to }
        requires place { to < length self.now }
        requires few { to ≤ 1001 }
        ensures { (f : UsedArc → ℤ) (v node : ℕ) (nodes : List ℕ) → AreArcSums f v node nodes self.now
            → result ≡ total_by f (arcs_from v (last_of node (take from nodes)) (slice_range nodes from to)) }
    {
        self.items[to] - self.items[from]
    }

    // How much more there is at one of these stops than at another.
    #[inline]
    fn apart(&self, from: usize, to: usize) -> i128
        requires order { from ≤ to }
        requires place { to < length self.now }
        requires few { to ≤ 1001 }
        ensures value { result ≡ number_at self.now to -ℤ number_at self.now from }
        ensures low { neg_ℤ (pos (1001 * 2 ^ 70)) ≤ℤ result }
        ensures high { result ≤ℤ pos (1001 * 2 ^ 70) }
    {
        self.items[to] - self.items[from]
    }

    /// The most that `arcs` arcs add that follow one another, of this many stops; 0 if there are not as many arcs.
    pub fn most_over(&self, stops: usize, arcs: usize) -> i128
        requires stops { stops ≡ length self.now }
        requires few { stops ≤ 1002 }
        ensures range { IsIn (pos 0) (pos (1001 * 2 ^ 70)) result }
        ensures most { AddAtMost self.now arcs result }
    {
        let mut most = 0;
        for k in 0..stops.saturating_sub(arcs) {
            most = greater(most, self.apart(k, k + arcs));
        }
        most
    }
}

// The greater of two numbers.
#[inline]
fn greater(one: i128, other: i128) -> i128
    ensures { result ≡ int_max one other }
{
    if one < other { other } else { one }
}
