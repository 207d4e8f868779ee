//! When moves were refused, and when lists and activity changed.

ghost use Rattle.std.specs.Prelude.{◌≡◌, ℕ, ◌⊎◌, ◌<◌, ◌≤◌, false, IsTrue, length, slice_index_or};
ghost use Rattle.vr_known.specs.Blocks.{AreSettled, IsApart, common_change, covers, first_of, is_behind};
ghost use Rattle.vr_known.specs.Blocks.{is_kind_of, is_known, is_later};
ghost use Rattle.vr_model.specs.moves.Kinds.{changes_activity, is_by_pair, kind_of, owner, rows_of};
ghost use Rattle.vr_model.specs.moves.MoveTests.{is_move};
ghost use Rattle.vr_model.specs.declared.neighbours.Move.{Move as Moved};
ghost use Rattle.vr_model.specs.declared.neighbours.Neighbourhood.{Neighbourhood as Kind};

use crate::Touched;
use crate::blocks::{ROWS, first_of, stamp_of};
use std::marker::Model;
use vr_model::{Closed, Move, Neighbourhood};
use vr_routes::Routes;

/// A clock, and what was stamped with it.
#[derive(Drop)]
pub(crate) struct Stamps {
    // For each row of a neighbourhood, when its moves were last refused: 0 if they never were, or `settle` forgot them.
    seen: [u64; ROWS],
    // For each vehicle, when its list, or a penalty of its arcs, last changed.
    changed: [u64; 100],
    // When a move last changed which visits are active.
    active: u64,
    // It begins at 1, so that what is refused before anything changes is later than the 0 of `changed` and `active`.
    clock: u64,
}

impl Model for Stamps {
    ghost use Rattle.std.specs.Prelude.{ℕ, ◌≤◌, slice_index_or, true};
    ghost use Rattle.vr_known.specs.Blocks.{Memory};

    ghost Value = { Memory };

    ghost view = { λ s. record {
      seen = s.seen;
      changed = s.changed;
      active = s.active;
      clock = s.clock;
      learns = true;
    } };

    ghost invariant = { λ s. (i : ℕ) → slice_index_or s.seen i 0 ≤ s.clock };
}

impl Stamps {
    /// No moves were refused.
    pub(crate) fn new() -> Stamps
        ensures { (kind : Kind) (row w : ℕ) → is_known result kind row w ≡ false }
    {
        Stamps {
            seen: unseen(),
            changed: [0; 100],
            active: 0,
            clock: 1,
        }
    }

    /// Whether the moves of a row and a vehicle were refused, and nothing on which they depend has changed since.
    #[inline(always)]
    pub(crate) fn has(&self, kind: Neighbourhood, row: u32, w: u32) -> bool
        requires row { row < rows_of kind }
        requires second { w < 100 }
        ensures { result ≡ is_known self.now kind row w }
    {
        let seen = self.seen[stamp_of(kind, row)];
        self.common_change(kind, row) < seen && self.changed[w as usize] < seen
    }

    // When what the moves of a row have in common last changed. If they change which visits are active, that is it.
    // Else it is the route of the vehicle that owns the row. For a pair that is put elsewhere it is 0: `settle` forgets
    // its row.
    #[inline(always)]
    fn common_change(&self, kind: Neighbourhood, row: u32) -> u64
        requires row { row < rows_of kind }
        ensures { result ≡ common_change self.now kind row }
    {
        if kind.changes_activity() {
            return self.active;
        }
        if kind.owner().is_vehicle() {
            return self.changed[row as usize];
        }
        0
    }

    // The moves of a row were refused.
    fn learn(&mut self, kind: Neighbourhood, row: u32)
        requires row { row < rows_of kind }
        ensures { (k : Kind) (u w : ℕ) → u < rows_of k → IsTrue (is_known self.new k u w)
            → IsTrue (is_known self.old k u w) ⊎ ((k ≡ kind) × (u ≡ row)) }
    {
        self.seen[stamp_of(kind, row)] = self.clock;
    }

    // The moves of all rows of a neighbourhood below one were refused.
    fn learn_below(&mut self, kind: Neighbourhood, end: u32)
        requires end { end ≤ rows_of kind }
        ensures { (k : Kind) (u w : ℕ) → u < rows_of k → IsTrue (is_known self.new k u w)
            → IsTrue (is_known self.old k u w) ⊎ ((k ≡ kind) × (u < end)) }
    {
        for row in 0..end {
            self.learn(kind, row);
        }
    }

    /// Learns the rows that come as a whole before a move, in the moves of some neighbourhoods.
    pub(crate) fn note(&mut self, neighbourhoods: &[Neighbourhood], mv: Move)
        requires first { first_of mv < rows_of (kind_of mv) }
        ensures { (k : Kind) (u w : ℕ) → u < rows_of k → IsTrue (is_known self.new k u w)
            → IsTrue (is_known self.old k u w) ⊎ IsTrue (is_behind neighbourhoods.now k u mv) }
    {
        let last = mv.neighbourhood();
        for k in 0..neighbourhoods.len() {
            let kind = neighbourhoods[k];
            if kind.is_same(last) {
                self.learn_below(kind, first_of(mv));
                return;
            }
            self.learn_below(kind, kind.owner().rows());
        }
    }

    /// All moves of some neighbourhoods were refused.
    pub(crate) fn note_all(&mut self, neighbourhoods: &[Neighbourhood])
        ensures { (k : Kind) (u w : ℕ) → u < rows_of k → IsTrue (is_known self.new k u w)
            → IsTrue (is_known self.old k u w) ⊎ IsTrue (is_kind_of neighbourhoods.now k) }
    {
        for k in 0..neighbourhoods.len() {
            let kind = neighbourhoods[k];
            self.learn_below(kind, kind.owner().rows());
        }
    }

    /// What the moves of a vehicle depend on changes now: its list, or what penalises its arcs.
    pub(crate) fn forget(&mut self, v: u32)
        requires vehicle { v < 100 }
        ensures fewer { (k : Kind) (u w : ℕ) → IsTrue (is_known self.new k u w) → IsTrue (is_known self.old k u w) }
        ensures earlier { (k : Kind) (u w : ℕ) → IsTrue (is_later self.new k u w) → IsTrue (is_later self.old k u w) }
        ensures changes { (k : Kind) (u : ℕ) → is_later self.new k u v ≡ false }
    {
        self.changed[v as usize] = self.clock;
    }

    // Other visits are active now.
    fn forget_active(&mut self)
        ensures fewer { (k : Kind) (u w : ℕ) → IsTrue (is_known self.new k u w) → IsTrue (is_known self.old k u w) }
        ensures earlier { (k : Kind) (u w : ℕ) → IsTrue (is_later self.new k u w) → IsTrue (is_later self.old k u w) }
        ensures changes { (k : Kind) (u w : ℕ) → IsTrue (changes_activity k) → is_known self.new k u w ≡ false }
    {
        self.active = self.clock;
    }

    /// What is refused from now on is refused after all changes so far.
    pub(crate) fn go_on(&mut self)
        ensures known { (k : Kind) (u w : ℕ) → is_known self.new k u w ≡ is_known self.old k u w }
        ensures later { (k : Kind) (u w : ℕ) → is_later self.new k u w ≡ is_later self.old k u w }
    {
        self.clock = self.clock.saturating_add(1);
    }

    /// A move was made, and `routes` are those after it. The routes of the vehicles that it touched changed, and which
    /// visits are active, if the move changes that.
    pub(crate) fn change(&mut self, closed: Closed<'_>, routes: &Routes, mv: Move, touched: Touched)
        requires first { touched.first < 100 }
        requires second { touched.second < 100 }
        ensures fewer { (k : Kind) (u w : ℕ) → IsTrue (is_known self.new k u w) → IsTrue (is_known self.old k u w) }
        ensures apart { (m : Moved) → IsTrue (is_move closed.entry.model.now routes.now.lists m)
            → IsTrue (covers self.new m)
            → IsApart closed.entry.model.now routes.now.lists mv touched.first touched.second m }
    {
        self.stamp(mv, touched);
        self.settle(closed, routes);
    }

    // The routes of two vehicles change now, and which visits are active, if the move changes that.
    fn stamp(&mut self, mv: Move, touched: Touched)
        requires first { touched.first < 100 }
        requires second { touched.second < 100 }
        ensures fewer { (k : Kind) (u w : ℕ) → IsTrue (is_known self.new k u w) → IsTrue (is_known self.old k u w) }
        ensures first { (k : Kind) (u : ℕ) → is_later self.new k u touched.first ≡ false }
        ensures second { (k : Kind) (u : ℕ) → is_later self.new k u touched.second ≡ false }
        ensures active { (k : Kind) (u w : ℕ) → IsTrue (changes_activity k) → IsTrue (is_known self.new k u w)
            → changes_activity (kind_of mv) ≡ false }
    {
        self.forget(touched.first);
        self.forget(touched.second);
        if mv.neighbourhood().changes_activity() {
            self.forget_active();
        }
        self.go_on();
    }

    /// Forgets the rows of a pair if the route or the penalties of the vehicle that serves it changed since they were
    /// refused. The moves of such a row need not name that vehicle.
    pub(crate) fn settle(&mut self, closed: Closed<'_>, routes: &Routes)
        ensures fewer { (k : Kind) (u w : ℕ) → IsTrue (is_known self.new k u w) → IsTrue (is_known self.old k u w) }
        ensures earlier { (k : Kind) (u w : ℕ) → IsTrue (is_later self.new k u w) → IsTrue (is_later self.old k u w) }
        ensures settled { AreSettled closed.entry.model.now routes.now.lists self.new }
    {
        routes.know_once();
        // To ask how many there are is to know that they are few.
        let _few = routes.vehicles();
        for p in 0..closed.model.pairs.len() {
            let pair = closed.model.pairs.get(p);
            match routes.vehicle_of(pair.pickup) {
                Some(v) => {
                    self.settle_row(Neighbourhood::RelocatePair, p as u32, v);
                    self.settle_row(Neighbourhood::PairInactive, p as u32, v);
                }
                // A pair whose pickup is in no route has no such moves.
                None => {}
            }
        }
    }

    // The row of a pair is forgotten if it was not refused after the vehicle `v` last changed.
    fn settle_row(&mut self, kind: Neighbourhood, p: u32, v: u32)
        requires kind { IsTrue (is_by_pair (owner kind)) }
        requires pair { p < 500 }
        requires vehicle { v < 100 }
        ensures fewer { (k : Kind) (u w : ℕ) → IsTrue (is_known self.new k u w) → IsTrue (is_known self.old k u w) }
        ensures earlier { (k : Kind) (u w : ℕ) → IsTrue (is_later self.new k u w) → IsTrue (is_later self.old k u w) }
        ensures keeps { (k : Kind) (u w x : ℕ) → IsTrue (is_known self.new k u w) → IsTrue (is_later self.old k u x)
            → IsTrue (is_later self.new k u x) }
        ensures settled { (w : ℕ) → IsTrue (is_known self.new kind p w) → IsTrue (is_later self.new kind p v) }
    {
        let place = stamp_of(kind, p);
        if self.changed[v as usize] < self.seen[place] {
            return;
        }
        self.seen[place] = 0;
    }
}

// No stamps.
fn unseen() -> [u64; ROWS]
    ensures { (i : ℕ) → slice_index_or result i 0 ≡ 0 }
{
    [0; ROWS]
}
