//! Lists, and what is known of them, kept from one rebuild to the next.

ghost use Rattle.std.specs.Prelude.{◌≡◌, ◌<◌, List, IfOk, IsTrue, OnOk, length};
ghost use Rattle.vr_model.specs.first.CheapestInsertion.{rebuilt};
ghost use Rattle.vr_model.specs.first.Items.{items as items_of};
ghost use Rattle.vr_model.specs.moves.Moves.{with_route};
ghost use Rattle.vr_rules.specs.declared.items.Candidate.{Candidate as AnyCandidate};
ghost use Rattle.vr_rules.specs.Placing.{AreBuilt};
ghost use Rattle.vr_first_insert.specs.Asking.{items_model, MayTakeOver};
ghost use Rattle.vr_first_insert.specs.KeptRows.{list_model, AreKeptRows};
ghost use Rattle.vr_first_insert.specs.Keeping.{IsKeeper};
ghost use Rattle.vr_first_insert.specs.Kept.{AreKnownRows};

use crate::best_in_lists::Items;
use crate::known_best::{forget, nothing_known};
use crate::known_items::KnownItems;
use crate::list_rows::{ListRows, change_list, keep_each};
use crate::scratch::InsertScratch;
use crate::search::insert_all;
use crate::vehicle_list::LookedUpList;
use std::alloc::Global;
use vr_model::{NoMemory, Seq};
use vr_plan::Lookups;
use vr_routes::Routes;
use vr_rules::{Candidate, active_marks, candidates, empty_lists};

/// Lists of a model and what is kept of them. The lists are those at which the last rebuild ended, or empty ones. Kept
/// are their rows, and what is known of each item in each (`KnownItem`: the best place, what that adds at least, or
/// nothing).
#[derive(Drop)]
pub(crate) struct Keeper {
    candidates: Vec<Candidate>,
    pub(crate) lists: Vec<Seq<u32>>,
    // of each dimension, the rows of the lists
    list_rows: Vec<ListRows>,
    // of each list, what is known of the candidates in it
    known_items: Vec<KnownItems>,
    scratch: InsertScratch,
}

// Whether two lists have the same nodes in the same order.
fn is_same_list(one: &[u32], other: &[u32]) -> bool
    ensures { IsTrue result → one.now ≡ other.now }
{
    one == other
}

// Takes a list over as that of its vehicle. If it differs from the list before, its rows are written, and nothing is
// known any more of items in it.
fn take_list(
    alloc: Global,
    list_rows: &mut [ListRows],
    lists: &mut [Seq<u32>],
    new: &LookedUpList<'_, '_, '_>,
    known_items: &mut [KnownItems],
) -> Result<(), NoMemory>
    requires there { new.now.vehicle < length lists.old }
    requires kept { AreKeptRows (list_model new.now) lists.old list_rows.old }
    requires known { new.now.vehicle < length known_items.old }
    ensures lists { OnOk result (lists.new ≡ with_route lists.old new.now.vehicle new.now.nodes.now) }
    ensures kept { OnOk result (AreKeptRows (list_model new.now) lists.new list_rows.new) }
    ensures known { OnOk result ((known : List AnyCandidate)
        → AreKnownRows (list_model new.now) lists.old known known_items.old
        → AreKnownRows (list_model new.now) lists.new known known_items.new) }
{
    let v = new.vehicle;
    let before = lists[v as usize].as_slice();
    if is_same_list(before, new.nodes) {
        return Ok(());
    }
    change_list(alloc, list_rows, lists, new)?;
    forget(known_items, v);
    Ok(())
}

// Takes the lists of routes over, and inserts items into them as long as one may be inserted.
fn insert_into(
    scratch: &mut InsertScratch,
    items: &Items<'_, '_, '_>,
    routes: &Routes,
    list_rows: &mut [ListRows],
    lists: &mut [Seq<u32>],
    marks: &mut [bool],
    known_items: &mut [KnownItems],
) -> Result<(), NoMemory>
    requires { MayTakeOver items.now routes.now.lists list_rows.old lists.old marks.old known_items.old }
    ensures rebuilt { OnOk result (lists.new
        ≡ rebuilt (items_model items.now) (length (items_of (items_model items.now))) routes.now.lists) }
    ensures built { OnOk result (AreBuilt (items_model items.now) lists.new) }
    ensures kept { OnOk result (AreKeptRows (items_model items.now) lists.new list_rows.new) }
    ensures known { OnOk result (AreKnownRows (items_model items.now) lists.new items.now.candidates.now
        known_items.new) }
{
    for v in 0..routes.vehicles() {
        let new = LookedUpList {
            lookups: items.lookups,
            vehicle: v,
            nodes: routes.list(v),
        };
        take_list(scratch.alloc, list_rows, lists, &new, known_items)?;
    }
    insert_all(scratch, items, list_rows, lists, marks, known_items)?;
    Ok(())
}

impl Keeper {
    /// Empty lists, of which nothing is known. The only refusal is want of memory.
    pub(crate) fn open(alloc: Global, lookups: &Lookups<'_>) -> Result<Keeper, NoMemory>
        ensures { IfOk result (IsKeeper lookups.now.closed.model.now) }
    {
        let model = lookups.closed.model;
        let candidates = candidates(alloc, lookups.nodes())?;
        let lists = empty_lists(alloc, model)?;
        let known_items = nothing_known(alloc, model.vehicles.len(), candidates.len())?;
        let list_rows = keep_each(alloc, lookups, &lists)?;
        Ok(Keeper {
            candidates,
            lists,
            list_rows,
            known_items,
            scratch: InsertScratch::new(alloc),
        })
    }

    /// Makes the lists those at which insertion ends when it begins with open routes. A list that is as the last
    /// rebuild left it keeps what is known of it. After want of memory nothing is said of the lists.
    pub(crate) fn rebuild(&mut self, lookups: &Lookups<'_>, routes: &Routes) -> Result<(), NoMemory>
        requires keeper { IsKeeper lookups.now.closed.model.now self.old }
        requires built { AreBuilt lookups.now.closed.model.now routes.now.lists }
        ensures keeper { OnOk result (IsKeeper lookups.now.closed.model.now self.new) }
        ensures rebuilt { OnOk result (self.new.lists.items
            ≡ rebuilt lookups.now.closed.model.now (length (items_of lookups.now.closed.model.now)) routes.now.lists) }
        ensures built { OnOk result (AreBuilt lookups.now.closed.model.now self.new.lists.items) }
    {
        let mut marks = active_marks(self.scratch.alloc, lookups.closed.model, routes)?;
        let items = Items {
            lookups,
            candidates: &self.candidates,
        };
        insert_into(
            &mut self.scratch,
            &items,
            routes,
            &mut self.list_rows,
            &mut self.lists,
            &mut marks,
            &mut self.known_items,
        )?;
        Ok(())
    }
}
