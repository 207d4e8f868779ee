//! Which insertion is made next, and one after another as long as one may be made.

ghost use Rattle.std.specs.Prelude.{◌≡◌, IfOk, IfSome, OnOk, length, option_map};
ghost use Rattle.vr_model.specs.first.CheapestInsertion.{next_inserted, rebuilt};
ghost use Rattle.vr_model.specs.first.Items.{items as items_of};
ghost use Rattle.vr_rules.specs.Placing.{AreBuilt, AreMarks};
ghost use Rattle.vr_first_insert.specs.KeptRows.{AreKeptRows};
ghost use Rattle.vr_first_insert.specs.Kept.{AreKnownRows};
ghost use Rattle.vr_first_insert.specs.Placings.{best_beside, may_be_placed as counts_of, insertion_of, MayBeInserted};
ghost use Rattle.vr_first_insert.specs.Asking.{items_model, waiting_candidate, AreKnownInEach, AreWaitingFor};
ghost use Rattle.vr_first_insert.specs.Asking.{MayCount, MayInsert, MayWeigh};
ghost use Rattle.vr_first_insert.specs.Waiting.{waiting_candidates, AreWaiting};

use crate::best_in_lists::{AskedLists, Items, best_in_lists};
use crate::choice::InsertionChoice;
use crate::known_best::forget;
use crate::known_items::KnownItems;
use crate::list_rows::ListRows;
use crate::place::place_in;
use crate::scratch::InsertScratch;
use crate::waiting::{WaitingItem, is_marked, is_passed_over, least_told, lower, unmarked};
use vr_model::{NoMemory, Seq};
use vr_rules::{Candidate, groups_have_room, mark_item};

// Whether an item may count: it is not marked, and the groups have room for it.
fn may_be_placed(items: &Items<'_, '_, '_>, marks: &[bool], candidate: Candidate) -> bool
    requires { MayCount items.now marks.now candidate }
    ensures { result ≡ counts_of (items_model items.now) marks.now candidate }
{
    if is_marked(marks, candidate) {
        false
    } else {
        groups_have_room(items.lookups, marks, candidate.item)
    }
}

// Takes the better of the best so far and the best of all insertions of waiting item `k`. If what is known of the item
// shows that none is better, no list is asked.
fn beside(
    scratch: &mut InsertScratch,
    on: &AskedLists<'_, '_, '_, '_>,
    marks: &[bool],
    k: usize,
    known_items: &mut [KnownItems],
    waiting: &mut [WaitingItem],
    best: &mut Option<InsertionChoice>,
) -> Result<(), NoMemory>
    requires { MayWeigh on.now marks.now k known_items.old waiting.old }
    ensures best { OnOk result (best.new ≡ best_beside (items_model on.now.items) on.now.lists.now marks.now
        (waiting_candidate on.now waiting.old k) best.old) }
    ensures known { OnOk result (AreKnownInEach on.now known_items.new) }
    ensures waiting { OnOk result (AreWaitingFor on.now waiting.new) }
    ensures same { OnOk result (waiting_candidates on.now.items.candidates.now waiting.new
        ≡ waiting_candidates on.now.items.candidates.now waiting.old) }
{
    let item = waiting[k];
    let candidate = on.items.candidates[item.number];
    if is_passed_over(*best, candidate.class, item.least) {
        return Ok(());
    }
    if !may_be_placed(&on.items, marks, candidate) {
        return Ok(());
    }
    let next = best_in_lists(scratch, on, item.number, known_items, *best)?;
    let least = least_told(next, candidate.class, item.least);
    waiting[k] = WaitingItem {
        number: item.number,
        least,
    };
    *best = next;
    Ok(())
}

// The insertion to make next, if any may be made.
fn next_insertion(
    scratch: &mut InsertScratch,
    items: &Items<'_, '_, '_>,
    list_rows: &[ListRows],
    marks: &[bool],
    lists: &[Seq<u32>],
    known_items: &mut [KnownItems],
    waiting: &mut [WaitingItem],
) -> Result<Option<InsertionChoice>, NoMemory>
    requires may { MayInsert items.now list_rows.now marks.now lists.now known_items.old }
    requires waiting { AreWaiting (items_model items.now) lists.now items.now.candidates.now waiting.old }
    ensures next { IfOk result (λ next. option_map insertion_of next
        ≡ next_inserted (items_model items.now) lists.now) }
    ensures may { IfOk result (λ next. IfSome next (MayBeInserted (items_model items.now) lists.now)) }
    ensures known { OnOk result (AreKnownRows (items_model items.now) lists.now items.now.candidates.now
        known_items.new) }
    ensures waiting { OnOk result (AreWaiting (items_model items.now) lists.now items.now.candidates.now
        waiting.new) }
{
    let on = AskedLists {
        items: *items,
        list_rows,
        lists,
    };
    let mut best: Option<InsertionChoice> = None;
    for k in 0..waiting.len() {
        beside(scratch, &on, marks, k, known_items, waiting, &mut best)?;
    }
    Ok(best)
}

// Inserts waiting items into lists as long as one may be inserted. Each time it is the insertion of the least class,
// increase, item, vehicle and places, compared in that order.
fn insert_waiting(
    scratch: &mut InsertScratch,
    items: &Items<'_, '_, '_>,
    list_rows: &mut [ListRows],
    lists: &mut [Seq<u32>],
    marks: &mut [bool],
    known_items: &mut [KnownItems],
    waiting: &mut [WaitingItem],
) -> Result<(), NoMemory>
    requires may { MayInsert items.now list_rows.old marks.old lists.old known_items.old }
    requires waiting { AreWaiting (items_model items.now) lists.old items.now.candidates.now waiting.old }
    ensures rebuilt { OnOk result (lists.new
        ≡ rebuilt (items_model items.now) (length (items_of (items_model items.now))) lists.old) }
    ensures built { OnOk result (AreBuilt (items_model items.now) lists.new) }
    ensures marked { OnOk result (AreMarks (items_model items.now).nodes lists.new marks.new) }
    ensures kept { OnOk result (AreKeptRows (items_model items.now) lists.new list_rows.new) }
    ensures known { OnOk result (AreKnownRows (items_model items.now) lists.new items.now.candidates.now
        known_items.new) }
{
    // each step inserts an item, so as many steps as there are items are enough
    for _step in 0..items.candidates.len() {
        let next = next_insertion(
            scratch,
            items,
            list_rows,
            marks,
            lists,
            known_items,
            waiting,
        )?;
        match next {
            Some(choice) => {
                let longer = &mut scratch.trying.longer;
                place_in(
                    longer,
                    scratch.alloc,
                    items.lookups,
                    list_rows,
                    lists,
                    choice,
                )?;
                mark_item(marks, choice.placing.item());
                forget(known_items, choice.vehicle);
                lower(
                    items,
                    list_rows,
                    marks,
                    lists,
                    choice.vehicle as usize,
                    known_items,
                    waiting,
                );
            }
            None => return Ok(()),
        }
    }
    Ok(())
}

/// Inserts items into lists as long as one may be inserted. Each time it is the insertion of the least class, increase,
/// item, vehicle and places, compared in that order.
///
/// After want of memory nothing is said of the lists.
pub(crate) fn insert_all(
    scratch: &mut InsertScratch,
    items: &Items<'_, '_, '_>,
    list_rows: &mut [ListRows],
    lists: &mut [Seq<u32>],
    marks: &mut [bool],
    known_items: &mut [KnownItems],
) -> Result<(), NoMemory>
    requires { MayInsert items.now list_rows.old marks.old lists.old known_items.old }
    ensures rebuilt { OnOk result (lists.new
        ≡ rebuilt (items_model items.now) (length (items_of (items_model items.now))) lists.old) }
    ensures built { OnOk result (AreBuilt (items_model items.now) lists.new) }
    ensures marked { OnOk result (AreMarks (items_model items.now).nodes lists.new marks.new) }
    ensures kept { OnOk result (AreKeptRows (items_model items.now) lists.new list_rows.new) }
    ensures known { OnOk result (AreKnownRows (items_model items.now) lists.new items.now.candidates.now
        known_items.new) }
{
    let mut waiting = unmarked(scratch.alloc, items, marks)?;
    insert_waiting(
        scratch,
        items,
        list_rows,
        lists,
        marks,
        known_items,
        &mut waiting,
    )
}
