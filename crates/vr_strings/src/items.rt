//! By what items are put in order: looked up once of each item of a model.

ghost use Rattle.std.specs.Prelude.{◌≡◌, ◌<◌, ◌≤◌, [], ◌∷◌, not, if◌then◌else◌, length, map, IfOk};
ghost use Rattle.vr_model.specs.tables.Tables.{is_visit};
ghost use Rattle.vr_model.specs.first.Items.{is_penalty_given, items, items_at, node_class as node_class_of, pair_of};
ghost use Rattle.vr_strings.specs.ItemKeys.{item_key, keys_in, nearness_of, AreKeysOf};
ghost use Rattle.vr_strings.specs.Turns.{item_at};

use std::alloc::Global;
use std::marker::Model;
use vr_lists::NodeTables;
use vr_model::{Group, Model as RoutingModel, NoMemory, Pair, Seq};

/// What is looked up of an item.
#[derive(Clone, Copy)]
pub struct ItemKey {
    /// Its first node.
    pub first: u32,
    /// Its class: 0 if it must be placed, 1 if its group has no penalty, 2 if its group has one. Of a pair it is the
    /// lesser of the classes of its two nodes.
    pub class: u32,
    /// The cost of the arc of vehicle 0 from its start to the first node, below 0: the farthest item has the least.
    pub near: i64,
}

/// The items of a model, a visit in no pair or a pair each, with what they are put in order by. An item is known by its
/// place among them, ascending by number, as `vr_rules::candidates` gives them. Contracts see the model.
#[derive(Drop)]
pub struct ItemKeys<'m> {
    model: &'m RoutingModel,
    // for each item its key
    keys: Seq<ItemKey>,
    // the key of a place past the end
    none: ItemKey,
}

impl<'m> Model for ItemKeys<'m> {
    ghost use Rattle.vr_model.specs.declared.records.Model.{Model as Defined};
    ghost use Rattle.vr_strings.specs.ItemKeys.{AreItemKeys};

    ghost Value = { Defined };

    ghost view = { λ items. items.model.now };

    ghost invariant = { λ items. AreItemKeys items.model.now items.keys items.none };
}

impl<'m> ItemKeys<'m> {
    /// The items of a model. The only refusal is want of memory.
    pub fn open(alloc: Global, nodes: &NodeTables<'m>) -> Result<ItemKeys<'m>, NoMemory>
        ensures { IfOk result (λ items. items ≡ nodes.now) }
    {
        let model = nodes.model();
        Ok(ItemKeys {
            model,
            keys: keys_of(alloc, nodes)?,
            none: ItemKey {
                first: 0,
                class: 2,
                near: nearness(nodes, 0),
            },
        })
    }

    /// How many items there are.
    pub fn len(&self) -> u32
        ensures value { result ≡ length (items self.now) }
        ensures few { result ≤ 1000 }
    {
        self.keys.len() as u32
    }

    /// What was looked up of the item at a place; past the end, of an item without nodes.
    #[inline]
    pub fn key(&self, k: u32) -> ItemKey
        ensures { result ≡ item_key self.now (item_at self.now k) }
    {
        if (k as usize) < self.keys.len() {
            return *self.keys.get(k as usize);
        }
        self.none
    }
}

// Whether a group has no penalty.
fn is_free_of_penalty(group: &Group) -> bool
    ensures { result ≡ not (is_penalty_given group.now.penalty) }
{
    match group.penalty {
        Some(_) => false,
        None => true,
    }
}

// The class of a node.
fn node_class(nodes: &NodeTables<'_>, node: u32) -> u32
    ensures { result ≡ node_class_of nodes.now node }
{
    let model = nodes.model();
    let g = nodes.group_number(node) as usize;
    if g >= model.groups.len() {
        return 0;
    }
    if is_free_of_penalty(model.groups.get(g)) {
        1
    } else {
        2
    }
}

// The cost of the arc of vehicle 0 from its start to a node, below 0.
fn nearness(nodes: &NodeTables<'_>, node: u32) -> i64
    requires { node < nodes.now.nodes }
    ensures { result ≡ nearness_of nodes.now node }
{
    let model = nodes.model();
    let start = model.vehicles.get(0).start;
    -model.arc_cost(0, start, node)
}

// The key of a visit in no pair.
fn key_of_visit(nodes: &NodeTables<'_>, node: u32) -> ItemKey
    requires { node < nodes.now.nodes }
    ensures { result ≡ item_key nodes.now (node ∷ []) }
{
    ItemKey {
        first: node,
        class: 2.min(node_class(nodes, node)),
        near: nearness(nodes, node),
    }
}

// The key of a pair.
fn key_of_pair(nodes: &NodeTables<'_>, pair: Pair) -> ItemKey
    requires { pair.pickup < nodes.now.nodes }
    ensures { result ≡ item_key nodes.now (pair.pickup ∷ pair.delivery ∷ []) }
{
    ItemKey {
        first: pair.pickup,
        class: 2
            .min(node_class(nodes, pair.pickup))
            .min(node_class(nodes, pair.delivery)),
        near: nearness(nodes, pair.pickup),
    }
}

// The key of the item of a node: of the node alone, or of the pair of which it is the pickup. A delivery has none.
fn key_at(nodes: &NodeTables<'_>, node: u32) -> Option<ItemKey>
    requires { node < nodes.now.nodes }
    ensures { keys_in result ≡ map (item_key nodes.now) (items_at (pair_of nodes.now node) node) }
{
    match nodes.pair_of(node) {
        None => Some(key_of_visit(nodes, node)),
        Some(pair) if pair.pickup == node => Some(key_of_pair(nodes, pair)),
        Some(_) => None,
    }
}

// The same of a node that is a visit; no other has an item.
fn visit_key(nodes: &NodeTables<'_>, node: u32) -> Option<ItemKey>
    ensures { keys_in result ≡ map (item_key nodes.now)
        (if is_visit nodes.now node then items_at (pair_of nodes.now node) node else []) }
{
    let model = nodes.model();
    if model.is_visit(node) {
        key_at(nodes, node)
    } else {
        None
    }
}

// The keys of all items.
fn keys_of(alloc: Global, nodes: &NodeTables<'_>) -> Result<Seq<ItemKey>, NoMemory>
    ensures { IfOk result (AreKeysOf nodes.now) }
{
    let model = nodes.model();
    let mut keys = Seq::new(alloc);
    for node in 0..model.nodes {
        match visit_key(nodes, node) {
            Some(key) => keys.push(key)?,
            None => {}
        }
    }
    Ok(keys)
}
