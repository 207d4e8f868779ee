//! Whether a vehicle can carry an item beside a list, in the dimensions that are loads. Sums tell it, wherever in the
//! list the item goes.

ghost use Rattle.std.specs.Prelude.{◌≡◌, ◌<◌, ◌≤◌, ◌≤ℤ◌, ◌*◌, All, false, true, not, ◌||◌, IfOk, IsTrue, OnOk, length};
ghost use Rattle.std.specs.Prelude.{pos};
ghost use Rattle.std.specs.List.{list_all};
ghost use Rattle.vr_model.specs.tables.Numbers.{total_by};
ghost use Rattle.vr_balance.specs.Sums.{IsUpTo};
ghost use Rattle.vr_loads.specs.Loads.{HasLoad, is_load as is_load_of, load_of, taken as taken_of};
ghost use Rattle.vr_rules.specs.Placing.{item_nodes};
ghost use Rattle.vr_ruin.specs.Carrying.{carries as carries_of, carries_all as carries_all_of};
ghost use Rattle.vr_ruin.specs.Carrying.{carries_in as carries_in_of, AreLoads, AreSums, AreSumsIfUsed};
ghost use Rattle.vr_ruin.specs.Carrying.{IsCarrier, IsFree, IsPlain, IsSumIn};

use crate::increase::Driven;
use std::alloc::Global;
use vr_loads::is_load;
use vr_model::{Closed, NoMemory, Seq};
use vr_rules::Item;

/// What is known of the loads of a model.
#[derive(Drop)]
pub(crate) struct Carrier {
    // for each dimension whether it is a load
    pub(crate) loads: Vec<bool>,
    // whether nothing but loads says which lists are open
    pub(crate) plain: bool,
    // whether no visit is in a pair, and none asks for certain vehicles
    pub(crate) free: bool,
}

impl Carrier {
    /// It fails only if memory runs out.
    pub(crate) fn open(alloc: Global, closed: Closed<'_>) -> Result<Carrier, NoMemory>
        ensures { IfOk result (λ carrier. IsCarrier closed.entry.model.now carrier.loads.items carrier.plain
            carrier.free) }
    {
        let loads = loads_of(alloc, closed)?;
        let plain = is_plain(closed, &loads);
        let free = is_free(closed);
        Ok(Carrier { loads, plain, free })
    }

    /// Whether the vehicle of a list can carry an item too, in each dimension that is a load, by what the list takes.
    /// Else the list is open with it at no places.
    pub(crate) fn carries(&self, list: &Driven<'_, '_>, sums: &[i64], item: Item) -> bool
        requires loads { AreLoads list.now.closed.model.now self.now.loads.items }
        requires sums { AreSumsIfUsed list.now.closed.model.now list.now.vehicle list.now.nodes.now sums.now }
        requires few { length list.now.nodes.now ≤ 1000 }
        requires nodes { All (λ node. node < list.now.closed.model.now.nodes) (item_nodes item) }
        ensures { result
            ≡ carries_all_of list.now.closed.model.now list.now.vehicle list.now.nodes.now (item_nodes item) }
    {
        for d in 0..self.loads.len() {
            if !carries_in(self.loads[d], list, sums, d as u32, item) {
                return false;
            }
        }
        true
    }
}

// For each dimension whether it is a load.
fn loads_of(alloc: Global, closed: Closed<'_>) -> Result<Vec<bool>, NoMemory>
    ensures { IfOk result (λ loads. AreLoads closed.entry.model.now loads.items) }
{
    let mut loads = Vec::with_capacity(alloc, closed.model.dimensions.len())?;
    for d in 0..closed.model.dimensions.len() {
        loads.push(is_load(closed.model, d as u32))?;
    }
    Ok(loads)
}

// Whether nothing but loads says which lists are open. Then each dimension is a load, no visit is in a pair, and none
// asks for certain vehicles.
fn is_plain(closed: Closed<'_>, loads: &[bool]) -> bool
    requires { AreLoads closed.model.now loads.now }
    ensures { IsTrue result → IsPlain closed.entry.model.now }
{
    if !closed.model.pairs.is_empty() {
        return false;
    }
    if !closed.model.allowed.is_empty() {
        return false;
    }
    are_all(loads)
}

// Whether no visit is in a pair, and none asks for certain vehicles.
fn is_free(closed: Closed<'_>) -> bool
    ensures { IsTrue result → IsFree closed.entry.model.now }
{
    if !closed.model.pairs.is_empty() {
        return false;
    }
    closed.model.allowed.is_empty()
}

// Whether all marks are set.
fn are_all(marks: &[bool]) -> bool
    ensures { result ≡ list_all (λ mark. mark) marks.now }
{
    marks.iter().all(|&mark| mark)
}

// Whether the vehicle of a list can carry an item too in a dimension, if that is a load.
fn carries_in(is_load: bool, list: &Driven<'_, '_>, sums: &[i64], d: u32, item: Item) -> bool
    requires load { is_load ≡ is_load_of list.now.closed.model.now d }
    requires dimension { d < length list.now.closed.model.now.dimensions }
    requires sums { AreSumsIfUsed list.now.closed.model.now list.now.vehicle list.now.nodes.now sums.now }
    requires few { length list.now.nodes.now ≤ 1000 }
    requires nodes { All (λ node. node < list.now.closed.model.now.nodes) (item_nodes item) }
    ensures { result ≡ carries_in_of list.now.closed.model.now list.now.vehicle list.now.nodes.now (item_nodes item) d }
{
    if !is_load {
        return true;
    }
    carries(list, sums, d, item)
}

// Whether the vehicle of a list can carry an item too in a dimension that is a load.
fn carries(list: &Driven<'_, '_>, sums: &[i64], d: u32, item: Item) -> bool
    requires load { HasLoad list.now.closed.model.now d }
    requires sums { AreSumsIfUsed list.now.closed.model.now list.now.vehicle list.now.nodes.now sums.now }
    requires few { length list.now.nodes.now ≤ 1000 }
    requires nodes { All (λ node. node < list.now.closed.model.now.nodes) (item_nodes item) }
    ensures { result ≡ carries_of list.now.closed.model.now d list.now.vehicle list.now.nodes.now (item_nodes item) }
{
    let closed = list.closed;
    let dimension = closed.model.dimensions.get(d as usize);
    let capacity = *dimension.capacities.get(list.vehicle as usize);
    kept_load(list, sums, d) + taken_by(list, d, item) <= capacity
}

// What the vehicle of a list takes at a node in a dimension that is a load.
fn taken(list: &Driven<'_, '_>, d: u32, node: u32) -> i64
    requires load { HasLoad list.now.closed.model.now d }
    requires node { node < list.now.closed.model.now.nodes }
    ensures value { result ≡ taken_of list.now.closed.model.now d list.now.vehicle node }
    ensures range { IsUpTo 1 result }
{
    let closed = list.closed;
    let dimension = closed.model.dimensions.get(d as usize);
    let evaluator = *dimension.vehicle_evaluators.get(list.vehicle as usize);
    dimension.evaluators.get(evaluator as usize).value(node)
}

// What it takes for an item.
fn taken_by(list: &Driven<'_, '_>, d: u32, item: Item) -> i64
    requires load { HasLoad list.now.closed.model.now d }
    requires nodes { All (λ node. node < list.now.closed.model.now.nodes) (item_nodes item) }
    ensures value { result ≡ total_by (taken_of list.now.closed.model.now d list.now.vehicle) (item_nodes item) }
    ensures range { IsUpTo 2 result }
{
    match item {
        Item::Visit(node) => taken(list, d, node),
        Item::PickupAndDelivery(pickup, delivery) => {
            taken(list, d, pickup) + taken(list, d, delivery)
        }
    }
}

// What it carries at its end with the list, if it takes nothing along to its start.
fn load_along(list: &Driven<'_, '_>, d: u32) -> i64
    requires load { HasLoad list.now.closed.model.now d }
    requires few { length list.now.nodes.now ≤ 1000 }
    ensures value { result ≡ load_of list.now.closed.model.now d list.now.vehicle list.now.nodes.now }
    ensures range { IsUpTo 1001 result }
{
    let closed = list.closed;
    let start = closed.model.vehicles.get(list.vehicle as usize).start;
    let nodes = list.nodes;
    let mut load = taken(list, d, start);
    for k in 0..nodes.len() {
        load += taken(list, d, nodes[k]);
    }
    load
}

// The same, by what is kept of a list that is not empty.
fn kept_load(list: &Driven<'_, '_>, sums: &[i64], d: u32) -> i64
    requires load { HasLoad list.now.closed.model.now d }
    requires sums { AreSumsIfUsed list.now.closed.model.now list.now.vehicle list.now.nodes.now sums.now }
    requires few { length list.now.nodes.now ≤ 1000 }
    ensures value { result ≡ load_of list.now.closed.model.now d list.now.vehicle list.now.nodes.now }
    ensures range { IsUpTo 1001 result }
{
    if list.nodes.is_empty() {
        return load_along(list, d);
    }
    sums[d as usize]
}

// What a list takes in a dimension, if that is a load.
fn load_if(is_load: bool, list: &Driven<'_, '_>, d: u32) -> i64
    requires load { is_load ≡ is_load_of list.now.closed.model.now d }
    requires dimension { d < length list.now.closed.model.now.dimensions }
    requires few { length list.now.nodes.now ≤ 1000 }
    ensures { IsSumIn list.now.closed.model.now list.now.vehicle list.now.nodes.now d result }
{
    if !is_load {
        return 0;
    }
    load_along(list, d)
}

/// Writes what a list takes in each dimension that is a load over other sums. It fails only if memory runs out.
pub(crate) fn write_sums(
    list: &Driven<'_, '_>,
    loads: &[bool],
    sums: &mut Seq<i64>,
) -> Result<(), NoMemory>
    requires loads { AreLoads list.now.closed.model.now loads.now }
    requires few { length list.now.nodes.now ≤ 1000 }
    ensures { OnOk result (AreSums list.now.closed.model.now list.now.vehicle list.now.nodes.now sums.new) }
{
    sums.truncate(0);
    for d in 0..loads.len() {
        sums.push(load_if(loads[d], list, d as u32))?;
    }
    Ok(())
}
