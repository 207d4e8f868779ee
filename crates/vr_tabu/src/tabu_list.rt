//! Which visits are tabu.

ghost use Rattle.std.specs.Prelude.{◌≡◌, ◌<◌, ◌≤◌, ◌+◌, ◌==◌, ◌&&◌, ℕ, All, IsTrue, IfOk, cond, length};
ghost use Rattle.std.specs.List.{list_any};
ghost use Rattle.vr_model.specs.routes.Routes.{are_lists, holds};
ghost use Rattle.vr_model.specs.tables.Tables.{vehicle_at};
ghost use Rattle.vr_routes.specs.Changes.{IsMadeOn};
ghost use Rattle.vr_routes.specs.Pieces.{changed, joined, part_at};
ghost use Rattle.vr_tabu.specs.Parts.{change_of, changes, frees, is_freed};
ghost use Rattle.vr_tabu.specs.Tabus.{AreAllTabu, tabus_of, until_at};
ghost use Rattle.vr_tabu.specs.TabuSearches.{is_tabu, is_tabu_visit, next_round, none_tabu};

use crate::list_change::ListChange;
use crate::written_list::WrittenList;
use std::alloc::Global;
use vr_model::{Closed, Model, NoMemory};
use vr_routes::{Change, Routes};

/// The number of the round, and the round before which each visit is tabu.
#[derive(Drop)]
pub struct TabuList {
    pub round: u64,
    // by node
    pub until: Vec<u64>,
}

/// A change of lists, with the lists that it is of: they are lists of a model, before it and after it.
#[derive(Clone, Copy)]
pub struct WholeChange<'m, 'r, 'c> {
    pub closed: Closed<'m>,
    pub routes: &'r Routes,
    pub change: &'c Change,
    /// These are lists of the model.
    pub ghost before: { IsTrue (are_lists closed.model.now routes.now.lists) },
    /// So are those after it.
    pub ghost after: { IsTrue (are_lists closed.model.now (changed routes.now.lists change.now)) },
}

impl<'m, 'r, 'c> WholeChange<'m, 'r, 'c> {
    // What part `k` makes of the list of its vehicle, which was written out.
    #[inline]
    fn list_change<'a>(self, k: usize, after: &'a WrittenList) -> ListChange<'r, 'a>
        requires made { IsMadeOn self.routes.now self.change.now }
        requires part { k < length self.change.now }
        requires written { after.now ≡ joined self.routes.now.lists (part_at self.change.now k).pieces }
        ensures { result ≡ change_of self.entry.closed.model.now self.entry.routes.now.lists self.entry.change.now k }
    {
        let vehicle = self.change.vehicle(k);
        ListChange {
            routes: self.routes,
            vehicle,
            start: start_of(self.closed.model, vehicle),
            after,
        }
    }
}

impl TabuList {
    /// In the first round no visit is tabu.
    pub fn new(alloc: Global, nodes: u32) -> Result<TabuList, NoMemory>
        ensures none { IfOk result (λ tabus. tabus_of tabus ≡ none_tabu) }
        ensures covers { IfOk result (λ tabus. length tabus.until.items ≡ nodes) }
    {
        let until = vec![in alloc; 0; nodes as usize]?;
        Ok(TabuList { round: 0, until })
    }

    // Whether a visit is tabu in this round.
    #[inline]
    fn is_tabu_visit(&self, visit: u32) -> bool
        ensures { result ≡ is_tabu_visit (tabus_of self.now) visit }
    {
        if (visit as usize) < self.until.len() {
            return self.round < self.until[visit as usize];
        }
        false
    }

    /// Whether each visit is tabu in this round. If so, a move is a candidate only if it leads to lists that cost less
    /// than any before (`Round::open`).
    pub fn are_all_tabu(&self, model: &Model) -> bool
        ensures { IsTrue result → AreAllTabu model.now (tabus_of self.now) }
    {
        for node in 0..model.nodes {
            if model.is_visit(node) && !self.is_tabu_visit(node) {
                return false;
            }
        }
        true
    }

    // Whether a change of a list changes one of some visits that is not tabu.
    #[inline]
    fn frees_one(&self, list: &ListChange<'_, '_>, visits: &[u32]) -> bool
        ensures { result ≡ list_any (is_freed (tabus_of self.now) list.now) visits.now }
    {
        visits
            .iter()
            .any(|&visit| !self.is_tabu_visit(visit) && list.changes(visit))
    }

    // Whether a part of a change changes a visit that is not tabu. Visits that leave the list are in the old one alone.
    #[inline]
    fn frees(&self, list: &ListChange<'_, '_>) -> bool
        ensures { result ≡ frees (tabus_of self.now) list.now }
    {
        self.frees_one(list, list.new_visits()) || self.frees_one(list, list.old_visits())
    }

    /// Whether a change is tabu in this round: each visit that it changes is. The list is written over. Takes no
    /// memory.
    pub fn is_tabu(&self, lists: WholeChange<'_, '_, '_>, after: &mut WrittenList) -> bool
        requires made { IsMadeOn lists.routes.now lists.change.now }
        ensures { result
            ≡ is_tabu lists.entry.closed.model.now (tabus_of self.now) lists.entry.routes.now.lists
            (changed lists.entry.routes.now.lists lists.entry.change.now) }
    {
        let change = lists.change;
        for k in 0..change.parts() {
            after.write(lists.routes, change, k);
            let list = lists.list_change(k, after);
            if self.frees(&list) {
                return false;
            }
        }
        true
    }

    // Those of some visits that a change of a list changes are tabu before a round.
    fn forbid_some(&mut self, list: &ListChange<'_, '_>, visits: &[u32], until: u64)
        requires visits { All (λ visit. visit < length self.old.until.items) visits.now }
        ensures until { (visit : ℕ) → until_at self.new visit
            ≡ cond (holds visits.now visit && changes list.now visit) until (until_at self.old visit) }
        ensures round { self.new.round ≡ self.old.round }
        ensures covers { length self.new.until.items ≡ length self.old.until.items }
    {
        for k in 0..visits.len() {
            self.forbid_one(list, visits[k], until);
        }
    }

    // A visit that a change of a list changes is tabu before a round.
    #[inline]
    fn forbid_one(&mut self, list: &ListChange<'_, '_>, visit: u32, until: u64)
        requires visit { visit < length self.old.until.items }
        ensures until { (other : ℕ) → until_at self.new other
            ≡ cond ((other == visit) && changes list.now visit) until (until_at self.old other) }
        ensures round { self.new.round ≡ self.old.round }
        ensures covers { length self.new.until.items ≡ length self.old.until.items }
    {
        if list.changes(visit) {
            self.until[visit as usize] = until;
        }
    }

    // The visits that a part of a change changes are tabu before a round.
    fn forbid(&mut self, list: &ListChange<'_, '_>, until: u64)
        requires old_visits { All (λ visit. visit < length self.old.until.items) list.now.old }
        requires new_visits { All (λ visit. visit < length self.old.until.items) list.now.new }
        ensures until { (visit : ℕ) → until_at self.new visit
            ≡ cond (changes list.now visit) until (until_at self.old visit) }
        ensures round { self.new.round ≡ self.old.round }
        ensures covers { length self.new.until.items ≡ length self.old.until.items }
    {
        self.forbid_some(list, list.new_visits(), until);
        self.forbid_some(list, list.old_visits(), until);
    }

    /// Goes on to the next round: the visits that a change of these lists changes are tabu for `tenure` rounds from
    /// then on. The list is written over. Takes no memory.
    pub fn follow(&mut self, lists: WholeChange<'_, '_, '_>, tenure: u32, after: &mut WrittenList)
        requires made { IsMadeOn lists.routes.now lists.change.now }
        requires round { self.old.round ≤ 1000000000 }
        requires covers { length self.old.until.items ≡ lists.closed.model.now.nodes }
        ensures next { tabus_of self.new ≡ next_round lists.entry.closed.model.now tenure
            lists.entry.routes.now.lists (changed lists.entry.routes.now.lists lists.entry.change.now)
            (tabus_of self.old) }
        ensures covers { length self.new.until.items ≡ lists.entry.closed.model.now.nodes }
    {
        let until = self.round + 1 + tenure as u64;
        let change = lists.change;
        for k in 0..change.parts() {
            after.write(lists.routes, change, k);
            let list = lists.list_change(k, after);
            self.forbid(&list, until);
        }
        self.round += 1;
    }
}

// The node at which a vehicle starts.
#[inline]
fn start_of(model: &Model, v: u32) -> u32
    requires vehicle { v < length model.now.vehicles }
    ensures { result ≡ (vehicle_at model.now v).start }
{
    model.vehicles.get(v as usize).start
}
