//! Items in no list, with what is known of the best insertion of each into any list. So most are passed over by one
//! number, and no list is asked (`search`).

ghost use Rattle.std.specs.Prelude.{◌≡◌, ◌<◌, All, IfOk, OnOk, Some, length};
ghost use Rattle.vr_model.specs.first.Items.{first_node};
ghost use Rattle.vr_rules.specs.Placing.{is_marked as is_marked_by, item_nodes};
ghost use Rattle.vr_first_insert.specs.Kept.{candidate_at, AreKnownRows};
ghost use Rattle.vr_first_insert.specs.Asking.{items_model, AreItems, AreKnownIn, MayLower, MayLowerEach};
ghost use Rattle.vr_first_insert.specs.Waiting.{comes_later as comes_later_of, is_passed_over as is_passed_over_of};
ghost use Rattle.vr_first_insert.specs.Waiting.{least_told as least_told_of, waiting_candidates, with_waiting};
ghost use Rattle.vr_first_insert.specs.Waiting.{AreFirstWaiting, IsLeastAnywhere, IsWaiting};

use crate::best_in_lists::{AskedLists, Items, adds_at_least};
use crate::choice::{InsertionChoice, may_improve};
use crate::known_best::{Bound, KnownItem};
use crate::known_items::KnownItems;
use crate::list_rows::ListRows;
use std::alloc::Global;
use vr_model::{NoMemory, Seq};
use vr_rules::Candidate;

/// An item that was in no list when insertion began.
#[derive(Clone, Copy, Drop)]
pub(crate) struct WaitingItem {
    /// Its number among the candidates.
    pub(crate) number: usize,
    /// What its best insertion into any list adds at least, if there is one; `None` if nothing is known.
    pub(crate) least: Option<i64>,
}

// Whether items of a class come after the best so far, whatever they add.
fn comes_later(best: Option<InsertionChoice>, class: u32) -> bool
    ensures { result ≡ comes_later_of best class }
{
    match best {
        Some(best) => best.class < class,
        None => false,
    }
}

/// Whether no insertion of an item of a class is better than the best so far, by what is known of all lists.
pub(crate) fn is_passed_over(best: Option<InsertionChoice>, class: u32, least: Option<i64>) -> bool
    ensures { result ≡ is_passed_over_of best class least }
{
    match least {
        Some(least) => !may_improve(best, class, least),
        None => comes_later(best, class),
    }
}

/// What is known of an item of a class once all lists were asked. `best` is the better of the best so far and the best
/// insertion of the item. The item adds no less than `best`, if it is not of a later class. If there is no `best`, the
/// item has no insertion.
pub(crate) fn least_told(
    best: Option<InsertionChoice>,
    class: u32,
    before: Option<i64>,
) -> Option<i64>
    ensures { result ≡ least_told_of best class before }
{
    match best {
        Some(best) => least_by_best(best, class, before),
        None => Some(i64::MAX),
    }
}

// The same if there is a best.
fn least_by_best(best: InsertionChoice, class: u32, before: Option<i64>) -> Option<i64>
    ensures { result ≡ least_told_of (Some best) class before }
{
    if class <= best.class {
        Some(best.increase)
    } else {
        before
    }
}

/// Whether a candidate is marked, by its first node: a list has both nodes of a pair or neither.
pub(crate) fn is_marked(marks: &[bool], candidate: Candidate) -> bool
    requires { first_node (item_nodes candidate.item) < length marks.now }
    ensures { result ≡ is_marked_by marks.now (first_node (item_nodes candidate.item)) }
{
    marks[candidate.item.number() as usize]
}

// Has candidate `i` wait, unless it is marked.
fn have_wait(
    items: &Items<'_, '_, '_>,
    marks: &[bool],
    i: usize,
    waiting: &mut Vec<WaitingItem>,
) -> Result<(), NoMemory>
    requires candidate { i < length items.now.candidates.now }
    requires marks { first_node (item_nodes (candidate_at items.now.candidates.now i).item) < length marks.now }
    ensures { OnOk result (waiting.new.items
        ≡ with_waiting items.now.candidates.now marks.now i waiting.old.items) }
{
    if is_marked(marks, items.candidates[i]) {
        return Ok(());
    }
    waiting.push(WaitingItem {
        number: i,
        least: None,
    })?;
    Ok(())
}

/// The candidates that are not marked.
pub(crate) fn unmarked(
    alloc: Global,
    items: &Items<'_, '_, '_>,
    marks: &[bool],
) -> Result<Vec<WaitingItem>, NoMemory>
    requires items_are { AreItems items.now }
    requires marks { length marks.now ≡ (items_model items.now).nodes }
    ensures { IfOk result (λ waiting. AreFirstWaiting items.now.candidates.now marks.now
        (length items.now.candidates.now) waiting.items) }
{
    let mut waiting = Vec::new(alloc);
    for i in 0..items.candidates.len() {
        have_wait(items, marks, i, &mut waiting)?;
    }
    Ok(waiting)
}

// What is known of a waiting item after the list of vehicle `v` has changed. To the other lists the item adds at least
// `least`. What it adds at least to this one is written to what is known of the candidates here. So the next search of
// the list does not work it out again. Nothing is kept of an item that is marked.
fn lowered_by_list(
    on: &AskedLists<'_, '_, '_, '_>,
    marks: &[bool],
    v: usize,
    number: usize,
    least: i64,
    known_here: &mut KnownItems,
) -> Option<i64>
    requires lower { MayLower on.now marks.now v (record { number = number; least = Some least }) }
    requires known { AreKnownIn on.now v known_here.old }
    ensures least { IsLeastAnywhere (items_model on.now.items) on.now.lists.now
        (candidate_at on.now.items.candidates.now number) result }
    ensures known { AreKnownIn on.now v known_here.new }
{
    if is_marked(marks, on.items.candidates[number]) {
        return None;
    }
    let here = adds_at_least(on, v, number);
    let bound = Bound {
        least: here,
        searched: false,
    };
    known_here.set(number, KnownItem::AtLeast(bound));
    Some(least.min(here))
}

// What is known of a waiting item after the list of vehicle `v` has changed.
fn lowered(
    on: &AskedLists<'_, '_, '_, '_>,
    marks: &[bool],
    v: usize,
    item: WaitingItem,
    known_here: &mut KnownItems,
) -> Option<i64>
    requires lower { MayLower on.now marks.now v item }
    requires known { AreKnownIn on.now v known_here.old }
    ensures least { IsLeastAnywhere (items_model on.now.items) on.now.lists.now
        (candidate_at on.now.items.candidates.now item.number) result }
    ensures known { AreKnownIn on.now v known_here.new }
{
    match item.least {
        Some(least) => lowered_by_list(on, marks, v, item.number, least, known_here),
        None => None,
    }
}

/// Writes what is known of the waiting items after the list of vehicle `v` has changed. That is what each adds at least
/// to this list, and to any list.
pub(crate) fn lower(
    items: &Items<'_, '_, '_>,
    list_rows: &[ListRows],
    marks: &[bool],
    lists: &[Seq<u32>],
    v: usize,
    known_items: &mut [KnownItems],
    waiting: &mut [WaitingItem],
)
    requires lower { MayLowerEach items.now list_rows.now marks.now lists.now v waiting.old }
    requires known { AreKnownRows (items_model items.now) lists.now items.now.candidates.now known_items.old }
    ensures known { AreKnownRows (items_model items.now) lists.now items.now.candidates.now known_items.new }
    ensures waiting { All (IsWaiting (items_model items.now) lists.now items.now.candidates.now) waiting.new }
    ensures same { waiting_candidates items.now.candidates.now waiting.new
        ≡ waiting_candidates items.now.candidates.now waiting.old }
{
    let on = AskedLists {
        items: *items,
        list_rows,
        lists,
    };
    for k in 0..waiting.len() {
        let item = waiting[k];
        let known_here = &mut known_items[v];
        let least = lowered(&on, marks, v, item, known_here);
        waiting[k] = WaitingItem {
            number: item.number,
            least,
        };
    }
}
