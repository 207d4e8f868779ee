//! The scan of a list of moves for the first that is acceptable.

ghost use Rattle.std.specs.Prelude.{◌≡◌, ◌+◌, ◌≤◌, false, IsTrue, IfOk, OnErr};
ghost use Rattle.vr_descent.specs.Asking.{AsksFor, Keeps};
ghost use Rattle.vr_descent.specs.Refused.{AreRefused, CanJudge, CanSift, IsPassed};
ghost use Rattle.vr_descent.specs.Scanned.{is_acceptable, scan_end, taken_difference, tries_in_scan, IsChangeAtEnd};
ghost use Rattle.vr_known.specs.Passing.{Takes, tries_taken, tries_within};
ghost use Rattle.vr_model.specs.moves.Moves.{moves};
ghost use Rattle.vr_model.specs.moves.MoveTests.{is_move};
ghost use Rattle.vr_model.specs.search.Scans.{scan};
ghost use Rattle.vr_model.specs.tables.WellFormed.{IsWellFormed};
ghost use Rattle.vr_routes.specs.Changes.{IsChange};
ghost use Rattle.vr_routes.specs.Judging.{HasCommitted};

use crate::{Accept, MoveList, moves};
use std::marker::PhantomData;
use std::sync::ledger::Ledger;
use vr_known::{Known, Sieve};
use vr_model::{Closed, Model, Move, Neighbourhood, NoMemory, Steps};
use vr_routes::{Change, Judge, Routes, Verdict};

/// How a scan of a list of moves ends.
#[derive(Clone, Copy)]
pub enum ScanEnd {
    /// The first acceptable move is at this place of the list, counted from 1: this many tries the scan used.
    Accepted {
        place: u64,
        mv: Move,
        difference: i64,
    },
    /// No move of the list is acceptable; it has this many moves.
    Complete {
        length: u64,
    },
    /// The tries ran out.
    Cut,
}

// Up to this many tries are counted exactly, whatever is passed over, though the count stops at the greatest number
// that it can be. If more are left, nothing is passed over. `advance` asks for no more than these.
const FEW: u64 = 1_000_000_000;

/// A scan in hand: the routes, what takes moves, what is known to be refused, and how many tries are left. As a sieve
/// it says which moves are not acceptable. It goes by what is known, and by the judge that each call is lent; of the
/// judge it holds the type alone.
#[derive(Drop)]
pub(crate) struct Scanning<'a, J: Judge, A: Accept> {
    pub(crate) routes: &'a Routes,
    pub(crate) accept: &'a A,
    pub(crate) known: &'a Known,
    pub(crate) rest: u64,
    pub(crate) judge: PhantomData<J>,
}

impl<'a, J: Judge, A: Accept> Sieve for Scanning<'a, J, A> {
    type Judge = J;

    ghost is_ready = { λ s. CanSift (A.model s.accept.now) (A.stands_at s.accept.now s.routes.now.lists)
        (A.takes s.accept.now) s.routes.now s.known.now };

    ghost covers = { λ s. IsPassed (A.model s.accept.now) (A.takes s.accept.now) s.routes.now.lists s.rest };

    ghost tries = { λ s. s.rest };

    ghost can_ask = { λ s judge. CanJudge (A.model s.accept.now) s.routes.now (J.model judge) (J.committed judge) };

    ghost judged = { J.asked };

    ghost looked = { J.looked };

    #[inline(always)]
    fn has(&self, neighbourhood: Neighbourhood, v: u32, w: u32) -> bool {
        if self.rest > FEW {
            return false;
        }
        self.known.has(neighbourhood, v, w)
    }

    #[inline(always)]
    fn limit(&self) -> u64 {
        self.rest
    }

    #[inline(always)]
    fn first(&self, judge: &mut J, mv: Move, from: u32, end: u32) -> Option<u32> {
        if self.rest > FEW {
            return None;
        }
        match self.accept.open_below(self.routes, mv) {
            Some(bound) => judge.first_below(self.routes, mv, from, end, bound),
            None => None,
        }
    }
}

impl<'a, J: Judge, A: Accept> Scanning<'a, J, A> {
    /// Scans, as `scan` says. What the accepted move changes is written over `change`; if none is accepted, nothing is
    /// said of it.
    #[inline(never)]
    pub(crate) fn run<L: Ledger>(
        &self,
        closed: Closed<'_>,
        judge: &mut J,
        change: &mut Change,
        steps: &mut Steps<L>,
    ) -> Result<ScanEnd, NoMemory>
        requires judge { CanJudge closed.model.now self.now.routes.now (J.model judge.old) (J.committed judge.old) }
        requires accept_model { A.model self.now.accept.now ≡ closed.model.now }
        requires accept_stands { A.stands_at self.now.accept.now self.now.routes.now.lists }
        requires known { AreRefused closed.model.now (A.takes self.now.accept.now) self.now.routes.now.lists
            self.now.known.now }
        ensures ends { IfOk result (λ ended. ended ≡ scan_end closed.entry.model.now self.now.routes.now.lists
            (scan (moves closed.entry.model.now self.now.routes.now.lists)
            (is_acceptable closed.entry.model.now (A.takes self.now.accept.now) self.now.routes.now.lists)
            self.now.rest)) }
        ensures change { IfOk result (λ ended.
            IsChangeAtEnd closed.entry.model.now self.now.routes.now.lists ended change.new) }
        ensures keeps { Keeps J.model J.committed self.now.routes.now judge.old judge.new }
        ensures asked { IfOk result (λ ended.
            AsksFor J.asked J.looked judge.old judge.new (tries_in_scan self.now.rest ended)) }
        ensures asked_at_most { OnErr result (AsksFor J.asked J.looked judge.old judge.new self.now.rest) }
    {
        let rest = self.rest;
        let mut list = moves(closed.model, self.routes);
        let mut place: u64 = 0;
        while let Some(mv) = self.next_open(&mut list, judge, &mut place) {
            // all tries are used up, by moves that were tried or passed over
            if place >= rest {
                return Ok(ScanEnd::Cut);
            }
            place += 1;
            let tried = self.try_move(closed, judge, mv, change, steps)?;
            if let Some(difference) = tried {
                return Ok(ScanEnd::Accepted {
                    place,
                    mv,
                    difference,
                });
            }
        }
        // a list of just as many moves as there were tries is complete
        if place > rest {
            return Ok(ScanEnd::Cut);
        }
        Ok(ScanEnd::Complete { length: place })
    }

    // The next move of a list that is to be tried. It is the next of a stretch in hand, of which nothing can be known.
    // If there is no stretch, it is the first move after those that are passed over since they are not acceptable;
    // these are counted.
    #[inline(always)]
    fn next_open(&self, list: &mut MoveList, judge: &mut J, place: &mut u64) -> Option<Move>
        requires ready { CanSift (A.model self.now.accept.now) (A.stands_at self.now.accept.now
            self.now.routes.now.lists) (A.takes self.now.accept.now) self.now.routes.now self.now.known.now }
        requires can_judge { CanJudge (A.model self.now.accept.now) self.now.routes.now (J.model judge.old)
            (J.committed judge.old) }
        ensures takes { Takes (IsPassed (A.model self.now.accept.now) (A.takes self.now.accept.now)
            self.now.routes.now.lists self.now.rest) list.old place.old result list.new place.new }
        ensures model { J.model judge.new ≡ J.model judge.old }
        ensures committed { J.committed judge.new self.now.routes.now }
        ensures asked { J.asked judge.new ≡ J.asked judge.old }
        ensures looked { J.looked judge.new + tries_within self.now.rest place.old
            ≤ J.looked judge.old + tries_within self.now.rest (place.new + tries_taken result) }
    {
        // To read the count is to know that it fits.
        let _count = *place;
        if let Some(mv) = list.go_along() {
            return Some(mv);
        }
        self.next_by_sieve(list, judge, place)
    }

    // The same if no stretch is in hand. What is known says which blocks are passed over, and the judge which moves of
    // a run. It is not inlined: what a list holds is large, and is not to be moved.
    #[inline(never)]
    fn next_by_sieve(&self, list: &mut MoveList, judge: &mut J, place: &mut u64) -> Option<Move>
        requires ready { CanSift (A.model self.now.accept.now) (A.stands_at self.now.accept.now
            self.now.routes.now.lists) (A.takes self.now.accept.now) self.now.routes.now self.now.known.now }
        requires can_judge { CanJudge (A.model self.now.accept.now) self.now.routes.now (J.model judge.old)
            (J.committed judge.old) }
        ensures takes { Takes (IsPassed (A.model self.now.accept.now) (A.takes self.now.accept.now)
            self.now.routes.now.lists self.now.rest) list.old place.old result list.new place.new }
        ensures model { J.model judge.new ≡ J.model judge.old }
        ensures committed { J.committed judge.new self.now.routes.now }
        ensures asked { J.asked judge.new ≡ J.asked judge.old }
        ensures looked { J.looked judge.new + tries_within self.now.rest place.old
            ≤ J.looked judge.old + tries_within self.now.rest (place.new + tries_taken result) }
    {
        list.step(self, judge, place)
    }

    // The difference that a move makes, if it is acceptable. What it changes is written over `change`. The move is only
    // judged if it may be taken by what it makes at least.
    #[inline(always)]
    fn try_move<L: Ledger>(
        &self,
        closed: Closed<'_>,
        judge: &mut J,
        mv: Move,
        change: &mut Change,
        steps: &mut Steps<L>,
    ) -> Result<Option<i64>, NoMemory>
        requires judge_model { J.model judge.old ≡ closed.model.now }
        requires accept_model { A.model self.now.accept.now ≡ closed.model.now }
        requires accept_stands { A.stands_at self.now.accept.now self.now.routes.now.lists }
        requires holds { HasCommitted closed.model.now (J.committed judge.old) self.now.routes.now }
        requires mv { IsTrue (is_move closed.model.now self.now.routes.now.lists mv) }
        ensures answer { IfOk result (λ answer. answer ≡ taken_difference closed.entry.model.now
            (A.takes self.now.accept.now) self.now.routes.now.lists mv) }
        ensures change { IsChange closed.entry.model.now self.now.routes.now.lists mv change.new }
        ensures model { J.model judge.new ≡ J.model judge.old }
        ensures committed { J.committed judge.new self.now.routes.now }
        ensures asked { J.asked judge.new ≤ J.asked judge.old + 1 }
        ensures looked { J.looked judge.new ≤ J.looked judge.old + 1 }
    {
        Change::write(closed.model, self.routes, mv, change);
        let least = judge.least_difference(self.routes, mv, change);
        if !self.accept.may_accept(self.routes, mv, change, least) {
            return Ok(None);
        }
        match judge.judge_change(self.routes, mv, change, steps)? {
            Verdict::Refused => Ok(None),
            Verdict::Difference(difference) => {
                if self
                    .accept
                    .accepts_change(self.routes, mv, change, difference)
                {
                    Ok(Some(difference))
                } else {
                    Ok(None)
                }
            }
        }
    }
}

/// Tries the moves of the model's neighbourhoods in order, at most `rest` of them, up to the first that is acceptable.
/// It is acceptable if the lists after it are valid and `accept` takes it. Each try is judged at most once. It asks the
/// judge at most twice what moves make at least: of a run of them, and of the move. What a move changes is written
/// once, for all that is asked of it. A move that `accept` does not take with the least difference that it may make is
/// not judged.
///
/// Moves that are known not to be acceptable are tries as any others, and nothing is asked about them. The moves of a
/// run differ in their last number. Of these the judge is asked at once from which on some may be taken, and those
/// before are tries as well. If more than 10^9 tries are left, no move is passed over so. Tests alone call it: a search
/// scans by `Progress::advance`.
///
/// It fails only when out of memory. Memory is taken by the judge alone, which has committed the same lists then.
pub fn scan<J: Judge, A: Accept, L: Ledger>(
    model: &Model,
    judge: &mut J,
    routes: &Routes,
    accept: &A,
    rest: u64,
    steps: &mut Steps<L>,
    known: &Known,
) -> Result<ScanEnd, NoMemory>
    requires well_formed { IsWellFormed model.now }
    requires judge { CanJudge model.now routes.now (J.model judge.old) (J.committed judge.old) }
    requires accept_model { A.model accept.now ≡ model.now }
    requires accept_stands { A.stands_at accept.now routes.now.lists }
    requires known { AreRefused model.now (A.takes accept.now) routes.now.lists known.now }
    ensures ends { IfOk result (λ ended. ended ≡ scan_end model.now routes.now.lists
        (scan (moves model.now routes.now.lists)
        (is_acceptable model.now (A.takes accept.now) routes.now.lists) rest)) }
    ensures keeps { Keeps J.model J.committed routes.now judge.old judge.new }
    ensures asked { IfOk result (λ ended. AsksFor J.asked J.looked judge.old judge.new (tries_in_scan rest ended)) }
    ensures asked_at_most { OnErr result (AsksFor J.asked J.looked judge.old judge.new rest) }
{
    let scanning: Scanning<'_, J, A> = Scanning {
        routes,
        accept,
        known,
        rest,
        judge: PhantomData,
    };
    let mut change = Change::blank();
    scanning.run(Closed { model }, judge, &mut change, steps)
}
