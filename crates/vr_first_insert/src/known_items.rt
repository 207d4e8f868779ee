//! What is known of items in one list, forgotten at once when the list changes.

ghost use Rattle.std.specs.Prelude.{◌≡◌, ◌<◌, ◌≤◌, ℕ, All, IfOk, length, replicate, slice_index_or, slice_set};
ghost use Rattle.vr_first_insert.specs.declared.known_best.KnownItem.TheVariants.{Nothing};
ghost use Rattle.vr_first_insert.specs.Found.{known_after};
ghost use Rattle.vr_first_insert.specs.Kept.{leaves_best as leaves_best_of};

use crate::choice::InsertionChoice;
use crate::known_best::{KnownItem, leaves_best};
use std::alloc::Global;
use std::marker::Model;
use vr_model::{NoMemory, Seq};

// What was found of an item, and after how many changes of the list. Found after three changes, it is forgotten by the
// fourth.
#[derive(Clone, Copy, Drop)]
pub(crate) struct FoundItem {
    pub(crate) known: KnownItem,
    pub(crate) since: u64,
}

/// What is known of items in a list. Contracts see it as a list of `KnownItem`. An entry is `Nothing` if it was found
/// before the last change of the list.
#[derive(Drop)]
pub(crate) struct KnownItems {
    found: Seq<FoundItem>,
    // how often the list has changed
    changes: u64,
}

impl Model for KnownItems {
    ghost use Rattle.std.specs.Prelude.{List, All, map, ◌≤◌};
    ghost use Rattle.vr_first_insert.specs.declared.known_best.KnownItem.{KnownItem};
    ghost use Rattle.vr_first_insert.specs.Found.{known_after, IsFoundBy};

    ghost Value = { List KnownItem };

    ghost view = { λ r. map (known_after r.changes) r.found };

    ghost invariant = { λ r. All (IsFoundBy r.changes) r.found };
}

impl KnownItems {
    /// That nothing is known of any of `count` items.
    pub(crate) fn with_none(alloc: Global, count: usize) -> Result<KnownItems, NoMemory>
        ensures { IfOk result (λ known. known ≡ replicate count Nothing) }
    {
        let found = none_of(alloc, count)?;
        Ok(KnownItems { found, changes: 0 })
    }

    /// What is known of item `i`. It takes no memory.
    #[inline]
    pub(crate) fn get(&self, i: usize) -> KnownItem
        requires { i < length self.now }
        ensures { result ≡ slice_index_or self.now i Nothing }
    {
        let found = self.found.get(i);
        known_of(found, self.changes)
    }

    /// Whether the best so far stays, by what is known of item `i`, of a class (`leaves_best`). It takes no memory.
    #[inline]
    pub(crate) fn leaves_best(&self, i: usize, class: u32, best: &Option<InsertionChoice>) -> bool
        requires { i < length self.now }
        ensures { result ≡ leaves_best_of (slice_index_or self.now i Nothing) class best.now }
    {
        let found = self.found.get(i);
        still_leaves_best(found, self.changes, class, best)
    }

    /// Writes what is known of item `i`. It takes no memory.
    #[inline]
    pub(crate) fn set(&mut self, i: usize, known: KnownItem)
        requires { i < length self.old }
        ensures { self.new ≡ slice_set self.old i known }
    {
        let since = self.changes;
        self.found.set(i, FoundItem { known, since });
    }

    /// Nothing is known any more: what was found counts as of an older list. All is cleared only if the count of
    /// changes is at its end. The count then goes on from 1, since what is cleared has 0. It takes no memory.
    pub(crate) fn forget(&mut self)
        ensures many { length self.new ≡ length self.old }
        ensures nothing { (i : ℕ) → slice_index_or self.new i Nothing ≡ Nothing }
    {
        if self.changes < u64::MAX {
            self.changes += 1;
            return;
        }
        clear(&mut self.found);
        self.changes = 1;
    }
}

// What is known after `changes` changes of the list.
#[inline]
fn known_of(found: &FoundItem, changes: u64) -> KnownItem
    ensures { result ≡ known_after changes found.now }
{
    if found.since == changes {
        found.known
    } else {
        KnownItem::Nothing
    }
}

// Whether the best so far stays, by what is known after `changes` changes of the list.
#[inline]
fn still_leaves_best(
    found: &FoundItem,
    changes: u64,
    class: u32,
    best: &Option<InsertionChoice>,
) -> bool
    ensures { result ≡ leaves_best_of (known_after changes found.now) class best.now }
{
    if found.since == changes {
        leaves_best(&found.known, class, best)
    } else {
        false
    }
}

// Nothing found of any of `count` items.
fn none_of(alloc: Global, count: usize) -> Result<Seq<FoundItem>, NoMemory>
    ensures { IfOk result (λ found. found ≡ replicate count (record { known = Nothing; since = 0 })) }
{
    let mut found = Seq::with_capacity(alloc, count)?;
    for _i in 0..count {
        found.push(FoundItem {
            known: KnownItem::Nothing,
            since: 0,
        })?;
    }
    Ok(found)
}

// Nothing is found of any item any more.
fn clear(found: &mut Seq<FoundItem>)
    ensures many { length found.new ≡ length found.old }
    ensures since { (i : ℕ) → i < length found.new
        → slice_index_or found.new i (record { known = Nothing; since = 0 }) ≡ record { known = Nothing; since = 0 } }
{
    for i in 0..found.len() {
        found.set(
            i,
            FoundItem {
                known: KnownItem::Nothing,
                since: 0,
            },
        );
    }
}
