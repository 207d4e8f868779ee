//! Which nodes are active, and whether the groups have room for an item.

ghost use Rattle.std.specs.Prelude.{◌≡◌, ◌<◌, ◌||◌, All, IfOk, IsTrue, OnOk, length};
ghost use Rattle.std.specs.List.{list_all};
ghost use Rattle.vr_model.specs.routes.Routes.{are_lists};
ghost use Rattle.vr_rules.specs.Placing.{has_room as has_room_of, is_taken as is_taken_of, item_nodes, AreMarkedToo};
ghost use Rattle.vr_rules.specs.Placing.{fits_by, has_room_at, AreMarks};

use crate::items::Item;
use std::alloc::Global;
use vr_model::{Group, Model, NoMemory};
use vr_plan::Lookups;
use vr_routes::Routes;

// Routes of a model, and for each node whether it is active in them.
#[derive(Clone, Copy)]
pub(crate) struct Marked<'l, 'm, 'r, 'k> {
    pub(crate) lookups: &'l Lookups<'m>,
    pub(crate) routes: &'r Routes,
    pub(crate) marks: &'k [bool],
    ghost lists: { IsTrue (are_lists lookups.now.closed.model.now routes.now.lists) },
    ghost marks_are: { AreMarks lookups.now.closed.model.now.nodes routes.now.lists marks.now },
}

// Whether a node is marked, or in the item.
fn is_taken(marks: &[bool], item: Item, node: u32) -> bool
    requires { node < length marks.now }
    ensures { result ≡ is_taken_of marks.now item node }
{
    item.has(node) || marks[node as usize]
}

// Whether a group has room for an item beside the marked nodes.
fn has_room(marks: &[bool], item: Item, group: &Group) -> bool
    requires { All (λ node. node < length marks.now) group.now.nodes }
    ensures { result ≡ has_room_of marks.now item group.now }
{
    let mut taken: usize = 0;
    for &node in group.nodes.as_slice() {
        if is_taken(marks, item, node) {
            taken += 1;
        }
    }
    taken <= group.max as usize
}

// Whether the group of a node, if it is in one, has room for an item beside the marked nodes.
fn group_has_room(lookups: &Lookups<'_>, marks: &[bool], item: Item, node: u32) -> bool
    requires { length marks.now ≡ lookups.now.closed.model.now.nodes }
    ensures { result ≡ has_room_at lookups.now.closed.model.now marks.now item node }
{
    let closed = lookups.closed;
    let g = lookups.nodes().group_number(node) as usize;
    if g < closed.model.groups.len() {
        return has_room(marks, item, closed.model.groups.get(g));
    }
    true
}

// Whether the groups of the nodes of an item have room for it.
fn item_has_room(lookups: &Lookups<'_>, marks: &[bool], item: Item) -> bool
    requires { length marks.now ≡ lookups.now.closed.model.now.nodes }
    ensures { result ≡ list_all (has_room_at lookups.now.closed.model.now marks.now item) (item_nodes item) }
{
    match item {
        Item::Visit(node) => group_has_room(lookups, marks, item, node),
        Item::PickupAndDelivery(pickup, delivery) => {
            group_has_room(lookups, marks, item, pickup)
                && group_has_room(lookups, marks, item, delivery)
        }
    }
}

/// Whether each group has room for an item beside the marked nodes, for which they have room. It looks at the groups of
/// the item alone.
pub fn groups_have_room(lookups: &Lookups<'_>, marks: &[bool], item: Item) -> bool
    requires marks { length marks.now ≡ lookups.now.closed.model.now.nodes }
    requires fit { IsTrue (list_all (fits_by marks.now) lookups.now.closed.model.now.groups) }
    ensures { result ≡ list_all (has_room_of marks.now item) lookups.now.closed.model.now.groups }
{
    item_has_room(lookups, marks, item)
}

// Marks the nodes of a list.
fn mark_list(marks: &mut [bool], list: &[u32])
    requires { All (λ node. node < length marks.now) list.now }
    ensures count { length marks.new ≡ length marks.old }
    ensures each { AreMarkedToo marks.old list.now marks.new }
{
    for &node in list {
        marks[node as usize] = true;
    }
}

/// For each node whether it is active, in new memory: insertion and `complete_routes` ask it. `Rules` writes over marks
/// that it keeps (`with_marks`).
pub fn active_marks(alloc: Global, model: &Model, routes: &Routes) -> Result<Vec<bool>, NoMemory>
    ensures { IfOk result (λ marks. AreMarks model.now.nodes routes.now.lists marks.items) }
{
    let mut marks = Vec::with_capacity(alloc, model.nodes as usize)?;
    write_marks(model, routes, &mut marks)?;
    Ok(marks)
}

// Writes for each node whether it is active over marks.
fn write_marks(model: &Model, routes: &Routes, marks: &mut Vec<bool>) -> Result<(), NoMemory>
    ensures { OnOk result (AreMarks model.now.nodes routes.now.lists marks.new.items) }
{
    marks.clear();
    for node in 0..model.nodes {
        marks.push(routes.is_active(node))?;
    }
    Ok(())
}

// Routes with their marks, which are written over others.
pub(crate) fn with_marks<'l, 'm, 'r, 'k>(
    lookups: &'l Lookups<'m>,
    routes: &'r Routes,
    marks: &'k mut Vec<bool>,
) -> Result<Marked<'l, 'm, 'r, 'k>, NoMemory>
    requires { IsTrue (are_lists lookups.now.closed.model.now routes.now.lists) }
    ensures model { IfOk result (λ of. of.lookups.now.closed.model.now ≡ lookups.now.closed.model.now) }
    ensures lists { IfOk result (λ of. of.routes.now.lists ≡ routes.now.lists) }
{
    write_marks(lookups.closed.model, routes, marks)?;
    Ok(Marked {
        lookups,
        routes,
        marks,
    })
}

/// Marks the nodes of an item.
pub fn mark_item(marks: &mut [bool], item: Item)
    requires { All (λ node. node < length marks.now) (item_nodes item) }
    ensures count { length marks.new ≡ length marks.old }
    ensures each { AreMarkedToo marks.old (item_nodes item) marks.new }
{
    match item {
        Item::Visit(node) => mark_list(marks, &[node]),
        Item::PickupAndDelivery(pickup, delivery) => mark_list(marks, &[pickup, delivery]),
    }
}
