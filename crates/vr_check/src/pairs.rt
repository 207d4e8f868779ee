//! The rules on pairs, policies and allowed vehicles.

ghost use Rattle.std.specs.Prelude.{◌≡◌, ◌<◌, ◌==◌, find, length, map, IfOk};
ghost use Rattle.std.specs.List.{list_all};
ghost use Rattle.vr_model.specs.moves.Moves as moves;
ghost use Rattle.vr_model.specs.routes.Rules as rules;
ghost use Rattle.vr_model.specs.routes.Rules.{pairs_in};
ghost use Rattle.vr_check.specs.Pairs as pairs;
ghost use Rattle.vr_check.specs.Pairs.{allowed_broken, allowed_broken_of, pair_broken, policy_broken};
ghost use Rattle.vr_check.specs.Terms as terms;
ghost use Rattle.vr_check.specs.Terms.{places_of};

use crate::finding::Spot;
use crate::held::holds;
use std::alloc::Global;
use vr_model::{Closed, Model, NoMemory, Pair, Policy, Seq};

// Whether a node is in a list and another one after it.
fn comes_before(list: &[u32], first: u32, second: u32) -> bool
    ensures { result ≡ moves.comes_before list.now first second }
{
    for (k, &node) in list.iter().enumerate() {
        if node == first {
            return holds(&list[k + 1..], second);
        }
    }
    false
}

// Whether no node of a pair is in a list, or both are, the pickup first.
fn serves_pair(list: &[u32], pair: &Pair) -> bool
    ensures { result ≡ rules.serves_pair list.now pair.now }
{
    !(holds(list, pair.pickup) || holds(list, pair.delivery))
        || comes_before(list, pair.pickup, pair.delivery)
}

// Whether each list serves a pair.
fn is_served(lists: &[Seq<u32>], pair: &Pair) -> bool
    ensures { result ≡ pairs.is_served lists.now pair.now }
{
    lists.iter().all(|list| serves_pair(list.as_slice(), pair))
}

/// The first pair that is broken. One of its nodes is active and the other is not, or is in another list, or the
/// delivery comes before the pickup.
pub fn wrong_pair(closed: Closed<'_>, lists: &[Seq<u32>]) -> Option<Spot>
    ensures { result ≡ pair_broken closed.entry.model.now lists.now }
{
    let model = closed.model;
    for p in 0..model.pairs.len() {
        if !is_served(lists, model.pairs.get(p)) {
            return Some(Spot::of_none(p));
        }
    }
    None
}

/// The places of a pair in a list, from 0 at its first visit: unlike those of a spot, they do not count the start.
#[derive(Clone, Copy)]
pub(crate) struct PlacesOfPair {
    pub(crate) pickup: usize,
    pub(crate) delivery: usize,
}

// The place of a node in a list, or the list's length if the node is absent. That does not come: the rule on pairs was
// asked before, so a list that has a pickup has its delivery.
fn place_of(list: &[u32], node: u32) -> usize
    ensures { result ≡ rules.place_of list.now node }
{
    for (k, &other) in list.iter().enumerate() {
        if other == node {
            return k;
        }
    }
    list.len()
}

// The places of the pairs that are picked up in a list.
fn places_in(alloc: Global, model: &Model, list: &[u32]) -> Result<Seq<PlacesOfPair>, NoMemory>
    ensures { IfOk result (λ places. places ≡ map (places_of list.now) (pairs_in model.now list.now)) }
{
    let mut places = Seq::new(alloc);
    for pair in model.pairs.as_slice() {
        if holds(list, pair.pickup) {
            places.push(PlacesOfPair {
                pickup: place_of(list, pair.pickup),
                delivery: place_of(list, pair.delivery),
            })?;
        }
    }
    Ok(places)
}

// Whether a policy lets two pairs have these places, as far as it asks anything if `x` is picked up first. Else the
// other order of the two is asked. Last in, first out: what is picked up while `x` is on board is delivered before it.
// First in, first out: `x` is delivered first.
fn are_pairs_in_order(policy: Policy, x: PlacesOfPair, y: PlacesOfPair) -> bool
    ensures { result ≡ terms.are_pairs_in_order policy x y }
{
    match policy {
        Policy::Any => true,
        Policy::Lifo => {
            !(x.pickup < y.pickup && y.pickup < x.delivery) || y.delivery < x.delivery
        }
        Policy::Fifo => !(x.pickup < y.pickup) || x.delivery < y.delivery,
    }
}

// Whether a policy lets a pair, and each of those that are picked up after it, have their places.
fn is_in_order(policy: Policy, x: PlacesOfPair, places: &[PlacesOfPair]) -> bool
    ensures { result ≡ terms.is_in_order policy places.now x }
{
    places.iter().all(|&y| are_pairs_in_order(policy, x, y))
}

// Whether a policy lets each two of some pairs have their places.
fn all_in_order(policy: Policy, places: &[PlacesOfPair]) -> bool
    ensures { result ≡ list_all (terms.is_in_order policy places.now) places.now }
{
    places.iter().all(|&x| is_in_order(policy, x, places))
}

// Whether the policy of a vehicle holds of each two pairs of its list.
fn keeps_policy(alloc: Global, closed: Closed<'_>, v: usize, list: &[u32]) -> Result<bool, NoMemory>
    requires { v < length closed.model.now.vehicles }
    ensures { IfOk result (λ keeps. keeps ≡ rules.keeps_policy closed.entry.model.now v list.now) }
{
    let model = closed.model;
    let places = places_in(alloc, model, list)?;
    let policy = model.vehicles.get(v).policy;
    Ok(all_in_order(policy, places.as_slice()))
}

/// The first vehicle whose policy fails. It is the one rule after `Shape` that takes memory, for the places of the
/// pairs of a list; `NoMemory` if there is none.
pub fn wrong_policy(
    alloc: Global,
    closed: Closed<'_>,
    lists: &[Seq<u32>],
) -> Result<Option<Spot>, NoMemory>
    requires { length lists.now ≡ length closed.model.now.vehicles }
    ensures { IfOk result (λ spot. spot ≡ policy_broken closed.entry.model.now lists.now) }
{
    for v in 0..lists.len() {
        if !keeps_policy(alloc, closed, v, lists[v].as_slice())? {
            return Ok(Some(Spot::of_vehicle(v)));
        }
    }
    Ok(None)
}

// The first place of a list whose visit does not allow the vehicle.
fn refused_visit(closed: Closed<'_>, v: usize, list: &[u32]) -> Option<Spot>
    requires { v < length closed.model.now.vehicles }
    ensures { result ≡ allowed_broken_of closed.entry.model.now v list.now }
{
    let model = closed.model;
    for (k, &node) in list.iter().enumerate() {
        if !model.allows_vehicle(v as u32, node) {
            return Some(Spot::at(v, k + 1));
        }
    }
    None
}

/// The first vehicle with a visit that does not allow it, and the first such place on it. Places count the start, so
/// the first visit is at place 1.
pub fn refused(closed: Closed<'_>, lists: &[Seq<u32>]) -> Option<Spot>
    requires { length lists.now ≡ length closed.model.now.vehicles }
    ensures { result ≡ allowed_broken closed.entry.model.now lists.now }
{
    for v in 0..lists.len() {
        let spot = refused_visit(closed, v, lists[v].as_slice());
        if spot.is_some() {
            return spot;
        }
    }
    None
}
