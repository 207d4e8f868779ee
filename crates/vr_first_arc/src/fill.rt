//! One list after another is filled with the items of the cheapest arcs.

ghost use Rattle.std.specs.Prelude.{◌≡◌, ◌<◌, ◌++◌, false, cond, IfOk, IfSome, OnOk, option_map, length};
ghost use Rattle.vr_model.specs.first.Choosing.{better};
ghost use Rattle.vr_model.specs.first.Items.{first_node, items};
ghost use Rattle.vr_model.specs.first.PathCheapestArc.{appended, filled, next_appended};
ghost use Rattle.vr_rules.specs.Placing.{item_nodes, is_marked, AreBuilt, AreMarks};
ghost use Rattle.vr_first_arc.specs.Choices.{all_filled, chosen_beside, arc_key, may_append as may_append_of};
ghost use Rattle.vr_first_arc.specs.Choices.{MayBeAppended};
ghost use Rattle.vr_first_arc.specs.Growing.{filling_model, IsFilling, IsGrowing};
ghost use Rattle.vr_rules.specs.Fronts.{AreFrontsOf, IsDriven};
ghost use Rattle.vr_model.specs.routes.Routes.{route};

use crate::append::{append, may_append};
use crate::choice::{ArcChoice, improves, item_of};
use crate::growing::{Filling, Growing};
use vr_model::{Closed, NoMemory, Seq};
use vr_rules::{Candidate, Fronts, Item, Room, last_stop, mark_item};

// The better of the best choice so far and another, which counts only if it may be appended. That takes most to ask, so
// it is asked only if the choice comes first.
fn consider(
    growing: &Growing<'_, '_, '_, '_>,
    room: &mut Room,
    next: ArcChoice,
    best: Option<ArcChoice>,
) -> Result<Option<ArcChoice>, NoMemory>
    requires growing { IsGrowing growing.now }
    requires longer { IsDriven (filling_model growing.now.filling) (growing.now.list.now ++ item_nodes next.item) }
    ensures { IfOk result (λ chosen. chosen ≡ cond (may_append_of (filling_model growing.now.filling) growing.now.v
        growing.now.list.now growing.now.marks.now next.item) (better arc_key best next) best) }
{
    if !improves(best, next) {
        return Ok(best);
    }
    if may_append(growing, room, next.item)? {
        Ok(Some(next))
    } else {
        Ok(best)
    }
}

// The better of the best choice so far and a candidate, which counts only if its first node is not marked. One node
// suffices: a list has both nodes of a pair or neither.
fn consider_candidate(
    growing: &Growing<'_, '_, '_, '_>,
    room: &mut Room,
    candidate: Candidate,
    best: Option<ArcChoice>,
) -> Result<Option<ArcChoice>, NoMemory>
    requires growing { IsGrowing growing.now }
    requires first { first_node (item_nodes candidate.item) < (filling_model growing.now.filling).nodes }
    requires longer { is_marked growing.now.marks.now (first_node (item_nodes candidate.item)) ≡ false
        → IsDriven (filling_model growing.now.filling) (growing.now.list.now ++ item_nodes candidate.item) }
    ensures { IfOk result (λ chosen. chosen ≡ chosen_beside (filling_model growing.now.filling) growing.now.v
        growing.now.list.now growing.now.marks.now candidate best) }
{
    let number = candidate.item.number();
    if growing.marks[number as usize] {
        return Ok(best);
    }
    let lookups = growing.filling.lookups;
    let (model, v) = (lookups.closed.model, growing.v);
    let next = ArcChoice {
        item: candidate.item,
        class: candidate.class,
        cost: model.arc_cost(v, last_stop(model, v, growing.list), number),
    };
    consider(growing, room, next, best)
}

// The item to append next to the list of vehicle `v`, if any may be appended.
fn next_item(
    filling: &Filling<'_, '_, '_>,
    v: u32,
    fronts: &Fronts,
    room: &mut Room,
    marks: &[bool],
    lists: &[Seq<u32>],
) -> Result<Option<Item>, NoMemory>
    requires filling { IsFilling filling.now }
    requires vehicle { v < length lists.now }
    requires built { AreBuilt (filling_model filling.now) lists.now }
    requires fronts { AreFrontsOf (filling_model filling.now) v (route lists.now v) fronts.now }
    requires marks { AreMarks (filling_model filling.now).nodes lists.now marks.now }
    ensures next { IfOk result (λ next. option_map item_nodes next
        ≡ next_appended (filling_model filling.now) lists.now v) }
    ensures may { IfOk result (λ next. IfSome next (MayBeAppended (filling_model filling.now) lists.now v)) }
{
    let list = lists[v as usize].as_slice();
    let growing = Growing {
        filling: *filling,
        v,
        list,
        fronts,
        marks,
    };
    let mut best: Option<ArcChoice> = None;
    for &candidate in filling.candidates {
        best = consider_candidate(&growing, room, candidate, best)?;
    }
    Ok(item_of(best))
}

// Puts an item at the end of the list of vehicle `v`, and moves its fronts there. The fronts move first, since they ask
// for the list as it was.
fn place(
    fronts: &mut Fronts,
    room: &mut Room,
    closed: Closed<'_>,
    v: u32,
    lists: &mut [Seq<u32>],
    item: Item,
) -> Result<(), NoMemory>
    requires vehicle { v < length lists.now }
    requires fronts { AreFrontsOf closed.model.now v (route lists.now v) fronts.old }
    requires longer { IsDriven closed.model.now (route lists.now v ++ item_nodes item) }
    ensures lists { OnOk result (lists.new ≡ appended lists.old v (item_nodes item)) }
    ensures fronts { OnOk result (AreFrontsOf closed.entry.model.now v
        (route lists.old v ++ item_nodes item) fronts.new) }
{
    fronts.append(room, closed, v, lists[v as usize].as_slice(), item)?;
    append(&mut lists[v as usize], item)?;
    Ok(())
}

// Appends items to the list of vehicle `v`, as long as one may be appended. Each time it is the item of the least
// class, then of the cheapest arc to it, then of the least number. Each step appends one, so as many steps as there are
// items are enough.
fn fill(
    filling: &Filling<'_, '_, '_>,
    v: u32,
    fronts: &mut Fronts,
    room: &mut Room,
    lists: &mut [Seq<u32>],
    marks: &mut [bool],
) -> Result<(), NoMemory>
    requires filling { IsFilling filling.now }
    requires vehicle { v < length lists.now }
    requires fronts { AreFrontsOf (filling_model filling.now) v (route lists.now v) fronts.old }
    requires built { AreBuilt (filling_model filling.now) lists.now }
    requires marks { AreMarks (filling_model filling.now).nodes lists.now marks.now }
    ensures filled { OnOk result (lists.new
        ≡ filled (filling_model filling.now) v (length (items (filling_model filling.now))) lists.old) }
    ensures built { OnOk result (AreBuilt (filling_model filling.now) lists.new) }
    ensures marked { OnOk result (AreMarks (filling_model filling.now).nodes lists.new marks.new) }
{
    for _step in 0..filling.candidates.len() {
        match next_item(filling, v, fronts, room, marks, lists)? {
            Some(item) => {
                place(fronts, room, filling.lookups.closed, v, lists, item)?;
                mark_item(marks, item);
            }
            None => return Ok(()),
        }
    }
    Ok(())
}

// The same if what the list reaches at its end is not known yet. The list is empty here, since the construction begins
// with empty ones.
fn fill_from_start(
    filling: &Filling<'_, '_, '_>,
    v: u32,
    room: &mut Room,
    lists: &mut [Seq<u32>],
    marks: &mut [bool],
) -> Result<(), NoMemory>
    requires filling { IsFilling filling.now }
    requires vehicle { v < length lists.now }
    requires built { AreBuilt (filling_model filling.now) lists.now }
    requires marks { AreMarks (filling_model filling.now).nodes lists.now marks.now }
    ensures filled { OnOk result (lists.new
        ≡ filled (filling_model filling.now) v (length (items (filling_model filling.now))) lists.old) }
    ensures built { OnOk result (AreBuilt (filling_model filling.now) lists.new) }
    ensures marked { OnOk result (AreMarks (filling_model filling.now).nodes lists.new marks.new) }
{
    let list = lists[v as usize].as_slice();
    let mut fronts = Fronts::open(room, filling.lookups.closed, v, list)?;
    fill(filling, v, &mut fronts, room, lists, marks)
}

// Fills the list of each vehicle in turn.
//
// After want of memory nothing is said of the lists.
pub(crate) fn fill_all(
    filling: &Filling<'_, '_, '_>,
    room: &mut Room,
    lists: &mut [Seq<u32>],
    marks: &mut [bool],
) -> Result<(), NoMemory>
    requires filling { IsFilling filling.now }
    requires built { AreBuilt (filling_model filling.now) lists.now }
    requires marks { AreMarks (filling_model filling.now).nodes lists.now marks.now }
    ensures filled { OnOk result (lists.new
        ≡ all_filled (filling_model filling.now) (length (filling_model filling.now).vehicles) lists.old) }
    ensures built { OnOk result (AreBuilt (filling_model filling.now) lists.new) }
    ensures marked { OnOk result (AreMarks (filling_model filling.now).nodes lists.new marks.new) }
{
    let lookups = filling.lookups;
    for v in 0..lookups.closed.model.vehicles.len() {
        fill_from_start(filling, v as u32, room, lists, marks)?;
    }
    Ok(())
}
