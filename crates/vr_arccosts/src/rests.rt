//! The list of a vehicle without a pair, and what the pair adds if it is put into it. `puts` asks it of a pair that is
//! put back into its list. No sums are asked, since those of the list have the pair in them.

ghost use Rattle.std.proofs.Props.{props};
ghost use Rattle.std.specs.Prelude.{◌≡◌, ℕ, ◌+◌, ◌<◌, ◌≤◌, ◌+ℤ◌, ◌≤ℤ◌, length, slice_index_or};
ghost use Rattle.vr_parts.specs.Bounds.{IsAddedByChange, IsAddedByList};
ghost use Rattle.vr_routes.specs.Pairs.{without_two};
ghost use Rattle.vr_arccosts.specs.Runs.{at_place, before_place, gap_added, pair_added, place_among_all, IsRest};

use crate::costs::VehicleArcs;
use crate::gaps::{Asked, Ends};
use vr_model::Pair;

/// The list of a vehicle without the nodes at two places, of which `lo` comes first, and what its arcs cost. `list`
/// still has both nodes; a place of the rest is counted without them.
#[derive(Drop)]
pub struct Rest<'a, 'm> {
    pub costs: VehicleArcs<'m>,
    pub list: &'a [u32],
    pub lo: u32,
    pub hi: u32,
    pub ghost sound: { IsRest costs.model.now list.now lo hi } by { Prim.hlevel props },
}

/// The first place of a rest for the delivery of a pair, put before it, with which the arcs cost less than the bound
/// more. What else the move adds counts too, and so does the pickup. That is put before place `s`, which is not after
/// the first number. The answer is `end` if there is none.
#[inline(never)]
pub fn first_in_rest(rest: &Rest, pair: Pair, s: u32, base: i64, asked: Asked) -> u32
    requires pickup { pair.pickup < rest.now.costs.model.now.nodes }
    requires delivery { pair.delivery < rest.now.costs.model.now.nodes }
    requires base { IsAddedByList base }
    requires order { s ≤ asked.from }
    requires places { asked.end + 1 ≤ length rest.now.list.now }
    ensures from { asked.from ≤ result }
    ensures within { result ≤ asked.end }
    ensures no_less { (t : ℕ) → asked.from ≤ t → t < result → asked.bound
        ≤ℤ (base +ℤ pair_added rest.now.costs.model.now rest.now.costs.vehicle
        (without_two rest.now.list.now rest.now.lo rest.now.hi) pair s t) }
{
    if asked.from == asked.end {
        return asked.end;
    }
    let pickup = Ends {
        first: pair.pickup,
        last: pair.pickup,
    };
    let with_pickup = put(rest, pickup, s);
    for t in asked.from..asked.end {
        if base + put_pair(rest, pair, s, with_pickup, t) < asked.bound {
            return t;
        }
    }
    asked.end
}

// How much more the arcs of a rest cost if a pair is put into it. `with_pickup` is how much more they cost with the
// pickup alone.
#[inline(always)]
fn put_pair(rest: &Rest, pair: Pair, s: u32, with_pickup: i64, t: u32) -> i64
    requires pickup { pair.pickup < rest.now.costs.model.now.nodes }
    requires delivery { pair.delivery < rest.now.costs.model.now.nodes }
    requires with_pickup { with_pickup ≡ gap_added rest.now.costs.model.now rest.now.costs.vehicle
        (without_two rest.now.list.now rest.now.lo rest.now.hi) pair.pickup pair.pickup s }
    requires range { IsAddedByList with_pickup }
    requires order { s ≤ t }
    requires place { t + 2 ≤ length rest.now.list.now }
    ensures value { result ≡ pair_added rest.now.costs.model.now rest.now.costs.vehicle
        (without_two rest.now.list.now rest.now.lo rest.now.hi) pair s t }
    ensures range { IsAddedByChange result }
{
    if s == t {
        let both = Ends {
            first: pair.pickup,
            last: pair.delivery,
        };
        let inner = rest.costs.cost(pair.pickup, pair.delivery);
        return put(rest, both, s) + inner;
    }
    let delivery = Ends {
        first: pair.delivery,
        last: pair.delivery,
    };
    with_pickup + put(rest, delivery, t)
}

// How much more the arcs to and from a chain cost than the arc between the stops beside a place of a rest.
#[inline(always)]
fn put(rest: &Rest, ends: Ends, t: u32) -> i64
    requires first { ends.first < rest.now.costs.model.now.nodes }
    requires last { ends.last < rest.now.costs.model.now.nodes }
    requires place { t + 2 ≤ length rest.now.list.now }
    ensures value { result ≡ gap_added rest.now.costs.model.now rest.now.costs.vehicle
        (without_two rest.now.list.now rest.now.lo rest.now.hi) ends.first ends.last t }
    ensures range { IsAddedByList result }
{
    let before = node_before(rest, t);
    let next = node_at(rest, t);
    let to = rest.costs.cost(before, ends.first);
    let on = rest.costs.cost(ends.last, next);
    // nothing is left beside the pair, and a vehicle that is not used drives no arc
    if rest.list.len() == 2 {
        return to + on;
    }
    let old = rest.costs.cost(before, next);
    to + on - old
}

// The node of the stop before a place of a rest.
#[inline(always)]
fn node_before(rest: &Rest, place: u32) -> u32
    requires place { place + 2 ≤ length rest.now.list.now }
    ensures value { result ≡ before_place rest.now.costs.model.now rest.now.costs.vehicle
        (without_two rest.now.list.now rest.now.lo rest.now.hi) place }
    ensures known { result < rest.now.costs.model.now.nodes }
{
    if place == 0 {
        return rest.costs.start();
    }
    rest.node(place - 1)
}

// The node of the stop at a place of a rest.
#[inline(always)]
fn node_at(rest: &Rest, place: u32) -> u32
    requires place { place + 2 ≤ length rest.now.list.now }
    ensures value { result ≡ at_place rest.now.costs.model.now rest.now.costs.vehicle
        (without_two rest.now.list.now rest.now.lo rest.now.hi) place }
    ensures known { result < rest.now.costs.model.now.nodes }
{
    if place as usize + 2 == rest.list.len() {
        return rest.costs.end();
    }
    rest.node(place)
}

impl<'a, 'm> Rest<'a, 'm> {
    // The node at a place of the rest.
    #[inline(always)]
    fn node(&self, place: u32) -> u32
        requires place { place + 2 < length self.now.list.now }
        ensures value { result ≡ slice_index_or (without_two self.now.list.now self.now.lo self.now.hi) place 0 }
        ensures known { result < self.now.costs.model.now.nodes }
    {
        self.list[place_of(place, self.lo, self.hi) as usize]
    }
}

// The place in the list of a node of a rest.
#[inline(always)]
fn place_of(place: u32, lo: u32, hi: u32) -> u32
    requires order { lo < hi }
    requires few { place ≤ 1000 }
    ensures { result ≡ place_among_all place lo hi }
{
    if place < lo {
        return place;
    }
    if place + 1 < hi {
        return place + 1;
    }
    place + 2
}
