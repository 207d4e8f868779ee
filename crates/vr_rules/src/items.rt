//! Items, which the constructions of first solutions place: a visit in no pair, or a pair.

ghost use Rattle.std.specs.Prelude.{◌≡◌, [], not, if◌then◌else◌, IfOk, IfSome};
ghost use Rattle.vr_model.specs.tables.Tables.{is_visit};
ghost use Rattle.vr_model.specs.routes.Routes.{holds};
ghost use Rattle.vr_model.specs.first.Items.{class, empty_lists as empty_lists_of, first_node, last_node};
ghost use Rattle.vr_model.specs.first.Items.{is_penalty_given, items_at, node_class as node_class_of};
ghost use Rattle.vr_model.specs.first.Items.{pair_of as pair_of_node};
ghost use Rattle.vr_rules.specs.Placing.{item_lists, item_nodes, AreCandidates, IsItem};

use std::alloc::Global;
use vr_lists::NodeTables;
use vr_model::{Group, Model, NoMemory, Seq};

/// What a construction places at once.
#[derive(Clone, Copy)]
pub enum Item {
    /// A visit in no pair.
    Visit(u32),
    /// A pickup, and the delivery that comes after it in the same list.
    PickupAndDelivery(u32, u32),
}

impl Item {
    /// Its first node, which is the number of the item.
    pub fn number(self) -> u32
        ensures { result ≡ first_node (item_nodes self) }
    {
        match self {
            Item::Visit(node) => node,
            Item::PickupAndDelivery(pickup, _) => pickup,
        }
    }

    /// Its last node.
    pub fn last(self) -> u32
        ensures { result ≡ last_node (item_nodes self) }
    {
        match self {
            Item::Visit(node) => node,
            Item::PickupAndDelivery(_, delivery) => delivery,
        }
    }

    /// Whether it has this node.
    pub fn has(self, node: u32) -> bool
        ensures { result ≡ holds (item_nodes self) node }
    {
        match self {
            Item::Visit(visit) => node == visit,
            Item::PickupAndDelivery(pickup, delivery) => node == pickup || node == delivery,
        }
    }
}

/// An item of a model, with its class.
#[derive(Clone, Copy)]
pub struct Candidate {
    /// What is placed.
    pub item: Item,
    /// How pressing it is. When a construction chooses among items, a lesser class comes first:
    /// - 0: it must be placed.
    /// - 1: it is in a group without a penalty.
    /// - 2: it is in a group with a penalty.
    ///
    /// Of a pair it is the lesser of the classes of its two nodes.
    pub class: u32,
}

// Whether a group has no penalty.
fn is_free_of_penalty(group: &Group) -> bool
    ensures { result ≡ not (is_penalty_given group.now.penalty) }
{
    match group.penalty {
        Some(_) => false,
        None => true,
    }
}

/// The class of a node: 0 outside all groups, 1 in a group without a penalty, 2 in another. Savings asks it of each
/// node of a route.
pub fn node_class(node_tables: &NodeTables<'_>, node: u32) -> u32
    ensures { result ≡ node_class_of node_tables.now node }
{
    let model = node_tables.model();
    let g = node_tables.group_number(node) as usize;
    if g >= model.groups.len() {
        return 0;
    }
    if is_free_of_penalty(model.groups.get(g)) {
        1
    } else {
        2
    }
}

// The class of an item: the least of its nodes, and of 2, which is the greatest.
fn item_class(node_tables: &NodeTables<'_>, item: Item) -> u32
    ensures { result ≡ class node_tables.now (item_nodes item) }
{
    match item {
        Item::Visit(node) => 2.min(node_class(node_tables, node)),
        Item::PickupAndDelivery(pickup, delivery) => 2
            .min(node_class(node_tables, pickup))
            .min(node_class(node_tables, delivery)),
    }
}

// The item of a node: the node alone, or the pair of which it is the pickup. A delivery has none: it is in the item of
// its pickup.
fn item_at(node_tables: &NodeTables<'_>, node: u32) -> Option<Item>
    ensures { item_lists result ≡ items_at (pair_of_node node_tables.now node) node }
{
    match node_tables.pair_of(node) {
        None => Some(Item::Visit(node)),
        Some(pair) if pair.pickup == node => {
            Some(Item::PickupAndDelivery(pair.pickup, pair.delivery))
        }
        Some(_) => None,
    }
}

// The item of a node that is a visit.
fn visit_item(node_tables: &NodeTables<'_>, node: u32) -> Option<Item>
    ensures item { item_lists result
        ≡ (if is_visit node_tables.now node then items_at (pair_of_node node_tables.now node) node else []) }
    ensures valid { IfSome result (IsItem node_tables.now) }
{
    let model = node_tables.model();
    if model.is_visit(node) {
        item_at(node_tables, node)
    } else {
        None
    }
}

/// The items of a model with their classes, ascending by their numbers.
pub fn candidates(alloc: Global, node_tables: &NodeTables<'_>) -> Result<Vec<Candidate>, NoMemory>
    ensures { IfOk result (λ candidates. AreCandidates node_tables.now candidates.items) }
{
    let model = node_tables.model();
    let mut candidates = Vec::new(alloc);
    for node in 0..model.nodes {
        match visit_item(node_tables, node) {
            Some(item) => {
                let class = item_class(node_tables, item);
                candidates.push(Candidate { item, class })?;
            }
            None => {}
        }
    }
    Ok(candidates)
}

/// An empty list for each vehicle.
pub fn empty_lists(alloc: Global, model: &Model) -> Result<Vec<Seq<u32>>, NoMemory>
    ensures { IfOk result (λ lists. lists.items ≡ empty_lists_of model.now) }
{
    let mut lists = Vec::with_capacity(alloc, model.vehicles.len())?;
    for _vehicle in 0..model.vehicles.len() {
        lists.push(Seq::new(alloc))?;
    }
    Ok(lists)
}
