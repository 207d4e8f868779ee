//! Fronts of lists that change vehicles: what the arcs cost more, by the place after one of them. If both vehicles have
//! the same costs, what a front adds is known but for the gap after the other one. `Fronts::base` has it, for a loop of
//! `gaps`. Else `first_front` goes along the other front visit by visit, since the sums of its line are by the costs of
//! another vehicle.

ghost use Rattle.std.proofs.Props.{props};
ghost use Rattle.std.specs.Prelude.{◌≡◌, ℕ, ◌+◌, ◌<◌, ◌≤◌, ◌≤ℤ◌, length, take};
ghost use Rattle.vr_model.specs.tables.Tables.{arc_cost, vehicle_at};
ghost use Rattle.vr_balance.specs.Sums.{last_of, path_sum};
ghost use Rattle.vr_arccosts.specs.Along.{between_cost};
ghost use Rattle.vr_arccosts.specs.Bounds.{IsChainCost, IsGapCost, IsPathCost};
ghost use Rattle.vr_arccosts.specs.Chains.{chain_sum};
ghost use Rattle.vr_arccosts.specs.Runs.{cross_base, front_added, fronts_added};
ghost use Rattle.vr_parts.specs.Bounds.{IsAddedByChange, IsAddedByList};

use crate::gaps::Asked;
use crate::lines::Line;
use crate::walks::costs_along;

/// The front of a list, up to place `a`, that changes vehicles with one of another list, of vehicles of one model.
#[derive(Clone, Copy)]
pub struct Fronts<'l, 'k, 'a, 'm> {
    pub line: &'l Line<'a, 'm>,
    pub a: u32,
    pub other: &'k Line<'a, 'm>,
    pub ghost same: { other.now.costs.model.now ≡ line.now.costs.model.now } by { Prim.hlevel props },
    pub ghost place: { a ≤ length line.now.list.now },
}

impl<'l, 'k, 'a, 'm> Fronts<'l, 'k, 'a, 'm> {
    /// What the front adds that changes vehicles with one of the other list, beside what the arcs in the gap after the
    /// latter add. Both vehicles have the same costs. So of the arcs along the other front only that from the start to
    /// its first node is another one.
    #[inline(always)]
    pub fn base(&self) -> i64
        requires costs { let line = self.now.line.now in (i j : ℕ)
            → arc_cost line.costs.model.now self.now.other.now.costs.vehicle i j
            ≡ arc_cost line.costs.model.now line.costs.vehicle i j }
        requires some { 0 < length self.now.other.now.list.now }
        ensures value { let line = self.now.line.now in
            result ≡ cross_base line.costs.model.now line.costs.vehicle line.list.now
            self.now.other.now.costs.vehicle self.now.other.now.list.now self.now.a }
        ensures range { IsAddedByChange result }
    {
        let first = self.other.list[0];
        let from = self.line.costs.cost(self.line.costs.start(), first);
        let left = self.other.costs.cost(self.other.costs.start(), first);
        let front = self.front_added();
        from - left + front
    }

    // What the front costs the other vehicle, from its start to the last node of the front. What the arcs of this list
    // cost up to the stop at place `a` is taken off.
    #[inline(always)]
    fn front_added(&self) -> i64
        requires costs { let line = self.now.line.now in (i j : ℕ)
            → arc_cost line.costs.model.now self.now.other.now.costs.vehicle i j
            ≡ arc_cost line.costs.model.now line.costs.vehicle i j }
        ensures value { let line = self.now.line.now in
            result ≡ front_added line.costs.model.now line.costs.vehicle line.list.now
            self.now.other.now.costs.vehicle self.now.a }
        ensures range { IsAddedByList result }
    {
        let line = self.line;
        let old = line.along.stretch(line.list.len() as u32, 0, self.a);
        if self.a == 0 {
            return -old;
        }
        let to = self
            .other
            .costs
            .cost(self.other.costs.start(), line.list[0]);
        let chain = line.along.chain(false, 0, self.a);
        to + chain - old
    }

    /// The last node of the front in the other list. If the front is empty, it is that of the start there.
    #[inline(always)]
    pub fn last(&self) -> u32
        ensures value { let line = self.now.line.now in
            result ≡ last_of (vehicle_at line.costs.model.now self.now.other.now.costs.vehicle).start
            (take self.now.a line.list.now) }
        ensures known { result < self.now.line.now.costs.model.now.nodes }
    {
        if self.a == 0 {
            return self.other.costs.start();
        }
        self.line.node_before(self.a)
    }

    // What the arcs of the other vehicle cost along the front, from its start to the last node.
    #[inline(always)]
    fn cost(&self) -> i64
        ensures value { let line = self.now.line.now in
            result ≡ path_sum (arc_cost line.costs.model.now self.now.other.now.costs.vehicle)
            (vehicle_at line.costs.model.now self.now.other.now.costs.vehicle).start
            (take self.now.a line.list.now) }
        ensures range { IsPathCost result }
    {
        if self.a == 0 {
            return 0;
        }
        let list = self.line.list;
        let costs = &self.other.costs;
        let to = costs.cost(self.other.costs.start(), list[0]);
        to + costs_along(costs, false, &list[..self.a as usize])
    }
}

/// The first place after a front of another list with which the arcs cost less than the bound more. It and the front of
/// this list, up to place `a`, change vehicles. The answer is `end` if there is none.
#[inline(never)]
pub fn first_front<'l, 'k, 'a, 'm>(
    line: &'l Line<'a, 'm>,
    a: u32,
    other: &'k Line<'a, 'm>,
    asked: Asked,
) -> u32
    requires same { other.now.costs.model.now ≡ line.now.costs.model.now }
    requires place { a ≤ length line.now.list.now }
    requires some { 1 ≤ asked.from }
    requires places { asked.end ≤ length other.now.list.now + 1 }
    ensures from { asked.from ≤ result }
    ensures within { result ≤ asked.end }
    ensures no_less { (b : ℕ) → asked.from ≤ b → b < result → asked.bound
        ≤ℤ fronts_added line.now.costs.model.now line.now.costs.vehicle line.now.list.now
        other.now.costs.vehicle other.now.list.now a b }
{
    if asked.from == asked.end {
        return asked.end;
    }
    let fronts = Fronts { line, a, other };
    let front = fronts.cost();
    let mut inner = costs_along(&line.costs, false, &other.list[..asked.from as usize]);
    for b in asked.from..asked.end {
        let both = BothFronts {
            fronts,
            b,
            front,
            inner,
        };
        if both.added() < asked.bound {
            return b;
        }
        inner = both.inner_behind();
    }
    asked.end
}

// Both fronts, of which that of the other list goes up to place `b`. With them is what the arcs along them cost the
// vehicles that get them. `front` is that of the other list: along the front of this one, from the start of the vehicle
// on. `inner` is that of this list: along the other front, from its first node on.
#[derive(Clone, Copy)]
struct BothFronts<'l, 'k, 'a, 'm> {
    fronts: Fronts<'l, 'k, 'a, 'm>,
    b: u32,
    front: i64,
    inner: i64,
    pub ghost some: { 1 ≤ b },
    pub ghost within: { b ≤ length fronts.other.now.list.now },
    pub ghost front_is: { front ≡ path_sum (arc_cost fronts.line.now.costs.model.now fronts.other.now.costs.vehicle)
        (vehicle_at fronts.line.now.costs.model.now fronts.other.now.costs.vehicle).start
        (take fronts.a fronts.line.now.list.now) },
    pub ghost front_range: { IsPathCost front },
    pub ghost inner_is: { inner ≡ chain_sum (arc_cost fronts.line.now.costs.model.now fronts.line.now.costs.vehicle)
        (take b fronts.other.now.list.now) },
    pub ghost inner_range: { IsChainCost inner },
}

impl<'l, 'k, 'a, 'm> BothFronts<'l, 'k, 'a, 'm> {
    // What the arcs cost more if both fronts change vehicles.
    #[inline(always)]
    fn added(&self) -> i64
        ensures value { let line = self.now.fronts.line.now in
            result ≡ fronts_added line.costs.model.now line.costs.vehicle line.list.now
            self.now.fronts.other.now.costs.vehicle self.now.fronts.other.now.list.now self.now.fronts.a self.now.b }
        ensures range { IsAddedByChange result }
    {
        let line = self.fronts.line;
        let other = self.fronts.other;
        let got = self.with_front();
        let old = line.along.stretch(line.list.len() as u32, 0, self.fronts.a);
        let left = self.with_other();
        let other_old = other.along.stretch(other.list.len() as u32, 0, self.b);
        got - old + (left - other_old)
    }

    // What the arcs of this vehicle cost up to place `a` with the front of the other list.
    #[inline(always)]
    fn with_front(&self) -> i64
        ensures value { let line = self.now.fronts.line.now in
            result ≡ between_cost line.costs.model.now line.costs.vehicle line.list.now 0 self.now.fronts.a
            (take self.now.b self.now.fronts.other.now.list.now) }
        ensures range { IsGapCost result }
    {
        let line = self.fronts.line;
        let list = self.fronts.other.list;
        let to = line.costs.cost(line.costs.start(), list[0]);
        let last = list[(self.b - 1) as usize];
        let on = line.costs.cost(last, line.node_at(self.fronts.a));
        to + self.inner + on
    }

    // What the arcs of the other vehicle cost up to place `b` with the front of this list. It is 0 if its list is left
    // without a visit, since an unused vehicle costs nothing.
    #[inline(always)]
    fn with_other(&self) -> i64
        ensures value { let other = self.now.fronts.other.now in
            result ≡ between_cost self.now.fronts.line.now.costs.model.now other.costs.vehicle other.list.now 0
            self.now.b (take self.now.fronts.a self.now.fronts.line.now.list.now) }
        ensures range { IsGapCost result }
    {
        let other = self.fronts.other;
        if self.fronts.a == 0 && self.b as usize == other.list.len() {
            return 0;
        }
        let on = other.costs.cost(self.fronts.last(), other.node_at(self.b));
        self.front + on
    }

    // What the arcs of this vehicle cost along one visit more of the other list, if it has one.
    #[inline(always)]
    fn inner_behind(&self) -> i64
        ensures value { let line = self.now.fronts.line.now in
            result ≡ chain_sum (arc_cost line.costs.model.now line.costs.vehicle)
            (take (self.now.b + 1) self.now.fronts.other.now.list.now) }
        ensures range { IsChainCost result }
    {
        let list = self.fronts.other.list;
        if self.b as usize == list.len() {
            return self.inner;
        }
        let last = list[(self.b - 1) as usize];
        self.inner + self.fronts.line.costs.cost(last, list[self.b as usize])
    }
}
