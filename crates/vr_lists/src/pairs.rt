//! The pairs of one list: each is served in order, and as the policy of the vehicle asks.

ghost use Rattle.std.specs.Prelude.{◌≡◌, ◌↔◌, ◌<◌, ◌≤◌, ◌&&◌, All, IsTrue, length};
ghost use Rattle.std.specs.List.{list_all};
ghost use Rattle.vr_model.specs.tables.Tables.{is_visit};
ghost use Rattle.vr_model.specs.routes.Routes.{is_distinct};
ghost use Rattle.vr_model.specs.routes.Rules.{serves_pair};
ghost use Rattle.vr_model.specs.declared.records.Policy.TheVariants.{Any};
ghost use Rattle.vr_model.specs.tables.WellFormed.{IsWellFormed};
ghost use Rattle.vr_lists.specs.Places.{ArePlaces};
ghost use Rattle.vr_lists.specs.Pairs.{allows_beside, keeps_pairs, places_allow, served_in};

use crate::places::write_places;
use arrayvec::ArrayVec;
use vr_model::{Closed, Model, Pair, Policy};

// The places of the two nodes of a pair in a list.
#[derive(Clone, Copy, Default)]
struct Served {
    pickup: u32,
    delivery: u32,
}

/// The places of the nodes of a model in a list, written over for each list. It has room for the largest model in
/// place, 4 kilobytes, and takes no memory.
#[derive(Drop)]
pub struct PairPlaces {
    // the place of each node, of which those of a model's nodes are written
    nodes: [u32; 1000],
}

impl PairPlaces {
    /// Room for any list of any model.
    pub fn new() -> PairPlaces {
        PairPlaces { nodes: [0; 1000] }
    }
}

// Whether a pair is in the list with both nodes, the pickup first, or with neither.
fn serves(list: &[u32], places: &[u32], pair: Pair) -> bool
    requires distinct { IsTrue (is_distinct list.now) }
    requires places { ArePlaces (length places.now) list.now places.now }
    requires pickup { pair.pickup < length places.now }
    requires delivery { pair.delivery < length places.now }
    ensures { result ≡ serves_pair list.now pair }
{
    let pickup = places[pair.pickup as usize];
    let delivery = places[pair.delivery as usize];
    let absent = list.len();
    // no place is greater than `absent`: a pickup that is not in front of an absent delivery is absent too
    if pickup < delivery {
        (delivery as usize) < absent
    } else {
        delivery as usize == absent
    }
}

// Whether the list serves each pair.
fn serves_all(closed: Closed<'_>, list: &[u32], places: &[u32]) -> bool
    requires distinct { IsTrue (is_distinct list.now) }
    requires places { ArePlaces closed.model.now.nodes list.now places.now }
    ensures { result ≡ list_all (serves_pair list.now) closed.entry.model.now.pairs }
{
    for k in 0..closed.model.pairs.len() {
        if !serves(list, places, *closed.model.pairs.get(k)) {
            return false;
        }
    }
    true
}

// Writes the pairs of the list over those that were served, by their places. A pair is in the list if its pickup is,
// since each is served (`serves_all` is asked before).
fn write_served(
    closed: Closed<'_>,
    list: &[u32],
    places: &[u32],
    served: &mut ArrayVec<Served, 500>,
)
    requires places { ArePlaces closed.model.now.nodes list.now places.now }
    ensures { served.new.items ≡ served_in list.now closed.entry.model.now.pairs }
{
    served.clear();
    for k in 0..closed.model.pairs.len() {
        let pair = closed.model.pairs.get(k);
        let pickup = places[pair.pickup as usize];
        let delivery = places[pair.delivery as usize];
        if (pickup as usize) < list.len() {
            served.push(Served { pickup, delivery });
        }
    }
}

// Whether a policy allows each two pairs of the list. The pairs of the list are written down first, by their places,
// since they are few beside those of the model.
fn allows_pairs(closed: Closed<'_>, policy: Policy, list: &[u32], places: &[u32]) -> bool
    requires places { ArePlaces closed.model.now.nodes list.now places.now }
    ensures { result ≡ list_all (allows_beside policy (served_in list.now closed.entry.model.now.pairs))
        (served_in list.now closed.entry.model.now.pairs) }
{
    let mut served = ArrayVec::new();
    write_served(closed, list, places, &mut served);
    allows_all(policy, served.as_slice())
}

// Whether a policy asks nothing of two pairs.
fn asks_nothing(policy: Policy) -> bool
    ensures { IsTrue result ↔ policy ≡ Any }
{
    match policy {
        Policy::Any => true,
        Policy::Lifo => false,
        Policy::Fifo => false,
    }
}

// Whether a policy allows x beside y. It asks something only if y is picked up after x:
// - `Lifo`: a y that is picked up before the delivery of x is delivered before that too.
// - `Fifo`: each y is delivered after x.
fn allows(policy: Policy, x: Served, y: Served) -> bool
    ensures { result ≡ places_allow policy x y }
{
    match policy {
        Policy::Any => true,
        Policy::Lifo => {
            !(x.pickup < y.pickup && y.pickup < x.delivery) || y.delivery < x.delivery
        }
        Policy::Fifo => !(x.pickup < y.pickup) || x.delivery < y.delivery,
    }
}

// Whether a policy allows x beside each of the pairs.
fn allows_each(policy: Policy, served: &[Served], x: Served) -> bool
    ensures { result ≡ allows_beside policy served.now x }
{
    served.iter().all(|&y| allows(policy, x, y))
}

// Whether a policy allows each two of the pairs; it allows each beside itself.
fn allows_all(policy: Policy, served: &[Served]) -> bool
    ensures { result ≡ list_all (allows_beside policy served.now) served.now }
{
    served.iter().all(|&x| allows_each(policy, served, x))
}

/// Whether a list of distinct visits of vehicle `v` serves each pair in order, and keeps the policy of the vehicle. In
/// OR-Tools these are `AddPickupAndDelivery` and `SetPickupAndDeliveryPolicyOfVehicle`.
///
/// It marks the place of each node once, and then looks at each pair of the model. If the policy asks something of two
/// pairs, it looks at each two of the list. A model without pairs costs nothing.
pub fn keeps_pairs(model: &Model, v: u32, list: &[u32], places: &mut PairPlaces) -> bool
    requires well_formed { IsWellFormed model.now }
    requires vehicle { v < length model.now.vehicles }
    requires visits { IsTrue (list_all (is_visit model.now) list.now) }
    requires distinct { IsTrue (is_distinct list.now) }
    ensures { result ≡ keeps_pairs model.now v list.now }
{
    let closed = Closed { model };
    if model.pairs.is_empty() {
        return true;
    }
    let nodes = &mut places.nodes[..model.nodes as usize];
    write_places(list, nodes);
    if !serves_all(closed, list, nodes) {
        return false;
    }
    let policy = model.vehicles.get(v as usize).policy;
    asks_nothing(policy) || allows_pairs(closed, policy, list, nodes)
}
