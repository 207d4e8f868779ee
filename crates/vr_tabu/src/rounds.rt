//! One round: the best candidate among all moves.

ghost use Rattle.std.proofs.Props.{props};
ghost use Rattle.std.specs.Prelude.{◌≡◌, ◌+◌, ◌≤◌, ◌&&◌, int_le, IsTrue, IfOk, IfSome, OnErr};
ghost use Rattle.vr_model.specs.moves.MoveTests.{is_move};
ghost use Rattle.vr_model.specs.moves.Moves.{moves};
ghost use Rattle.vr_model.specs.routes.Routes.{are_lists};
ghost use Rattle.vr_model.specs.tables.WellFormedOnce.{IsWellFormed-prop};
ghost use Rattle.vr_descent.specs.Asking.{AsksFor, Keeps};
ghost use Rattle.vr_known.specs.Passing.{Takes, tries_taken, tries_within};
ghost use Rattle.vr_routes.specs.Changes.{IsMadeOn};
ghost use Rattle.vr_routes.specs.Pieces.{changed};
ghost use Rattle.vr_tabu.specs.Rounds.{IsCeiling, IsChangeOf, IsChangeOfBest, IsJudgeOf};
ghost use Rattle.vr_tabu.specs.Rounds.{IsDifferenceKnown, IsPassedInRound};
ghost use Rattle.vr_tabu.specs.Rounds.{aspiration, better_with};
ghost use Rattle.vr_tabu.specs.Rounds.{bound_of, end_with, is_no_less, move_of, tabu_round_end, tries_of};
ghost use Rattle.vr_tabu.specs.Standing.{IsKnownState};
ghost use Rattle.vr_tabu.specs.Tabus.{tabus_of};
ghost use Rattle.vr_tabu.specs.TabuSearches.{is_tabu, round_of};

use crate::passing::NoBetter;
use crate::searching::State;
use crate::tabu_list::WholeChange;
use crate::written_list::WrittenList;
use std::marker::PhantomData;
use std::mem::swap;
use std::sync::ledger::Ledger;
use vr_descent::{MoveList, moves};
use vr_model::{Closed, Model, Move, NoMemory, Steps};
use vr_routes::{Change, Judge, Routes, Verdict};

/// A move that may be made, and what it makes of the cost.
#[derive(Clone, Copy)]
pub struct Candidate {
    pub mv: Move,
    pub difference: i64,
}

/// How a round ends.
#[derive(Clone, Copy)]
pub enum RoundEnd {
    /// The best candidate of a list of `length` moves.
    Best { length: u64, candidate: Candidate },
    /// None of `length` moves is a candidate.
    Stuck { length: u64 },
    /// The tries ran out.
    Cut,
}

// Room for what the move in hand changes, and for the list of a vehicle after it. Both are written over.
#[derive(Drop)]
struct Scratch {
    change: Change,
    after: WrittenList,
}

impl Scratch {
    fn new() -> Scratch {
        Scratch {
            change: Change::blank(),
            after: WrittenList::new(),
        }
    }
}

/// What a round looks at.
#[derive(Clone, Copy)]
pub struct Round<'a> {
    model: &'a Model,
    routes: &'a Routes,
    state: &'a State,
    // if each visit is tabu, only moves that make less than this are candidates
    ceiling: Option<i64>,
    // the lists are valid, and their cost and that of the best ones are known
    ghost known: { IsKnownState model.now routes.now state.now } by { Prim.hlevel (props, IsWellFormed-prop) },
    // no move that makes the ceiling or more is a candidate; it is none if that is not known
    ghost bounded: { IsCeiling model.now (tabus_of state.now.tabus) state.now.best.routes.lists routes.now.lists
        ceiling },
}

impl<'a> Round<'a> {
    /// A round of routes. If each visit is tabu, so is each move. Then only those are candidates that lead to lists
    /// that cost less than any before.
    pub fn open(model: &'a Model, routes: &'a Routes, state: &'a State) -> Round<'a>
        requires known { IsKnownState model.now routes.now state.now }
        ensures model { result.model.now ≡ model.now }
        ensures routes { result.routes.now ≡ routes.now }
        ensures state { result.state.now ≡ state.now }
    {
        let round = Round {
            model,
            routes,
            state,
            ceiling: None,
        };
        if !state.tabus.are_all_tabu(model) {
            return round;
        }
        Round {
            model,
            routes,
            state,
            ceiling: Some(round.aspiration()),
        }
    }

    // Moves that make a lesser difference lead to lists that cost less than any before. If the best lists cost 90 and
    // these 100, the difference is -10.
    #[inline]
    fn aspiration(&self) -> i64
        ensures { result ≡ aspiration self.now.model.now self.now.state.now.best.routes.lists
            self.now.routes.now.lists }
    {
        self.state.best.cost - self.state.at.cost
    }

    /// Tries all moves of the lists for the best candidate, if there are at most `rest`.
    ///
    /// Each try is judged at most once. The judge is asked at most twice as often for lower bounds of moves. A move
    /// whose bound is no less than the best candidate so far is not judged. Which visits a move changes is asked only
    /// if it is judged to make less.
    ///
    /// The moves of a run differ in their last number. The judge is asked at once from which of them on some may cost
    /// less; the ones before it are tries as well.
    ///
    /// What the best candidate changes is written over `kept`. If the round ends without one, `kept` is any.
    ///
    /// The only refusal is want of memory, which is taken by the judge alone. It is then still in sync with the same
    /// lists.
    pub fn run<J: Judge, L: Ledger>(
        &self,
        judge: &mut J,
        rest: u64,
        kept: &mut Change,
        steps: &mut Steps<L>,
    ) -> Result<RoundEnd, NoMemory>
        requires judge { IsJudgeOf self.now.model.now self.now.routes.now (J.model judge.old) (J.committed judge.old) }
        requires rest { rest ≤ 1000000000 }
        ensures ends { IfOk result (λ ended. ended ≡ tabu_round_end self.now.model.now self.now.routes.now.lists
            (round_of self.now.model.now (tabus_of self.now.state.now.tabus) self.now.state.now.best.routes.lists
            self.now.routes.now.lists rest)) }
        ensures kept { IfOk result (λ ended.
            IsChangeOfBest self.now.model.now self.now.routes.now.lists ended kept.new) }
        ensures keeps { Keeps J.model J.committed self.now.routes.now judge.old judge.new }
        ensures asked { IfOk result (λ ended. AsksFor J.asked J.looked judge.old judge.new (tries_of rest ended)) }
        ensures asked_at_most { OnErr result (AsksFor J.asked J.looked judge.old judge.new rest) }
    {
        let mut list = moves(self.model, self.routes);
        self.run_over(judge, rest, &mut list, kept, steps)
    }

    // Tries the moves of a list of all moves. The list is lent, so that there is less to let go when the round ends.
    #[inline(never)]
    fn run_over<J: Judge, L: Ledger>(
        &self,
        judge: &mut J,
        rest: u64,
        list: &mut MoveList<'_>,
        kept: &mut Change,
        steps: &mut Steps<L>,
    ) -> Result<RoundEnd, NoMemory>
        requires judge { IsJudgeOf self.now.model.now self.now.routes.now (J.model judge.old) (J.committed judge.old) }
        requires list { list.old ≡ moves self.now.model.now self.now.routes.now.lists }
        requires rest { rest ≤ 1000000000 }
        ensures ends { IfOk result (λ ended. ended ≡ tabu_round_end self.now.model.now self.now.routes.now.lists
            (round_of self.now.model.now (tabus_of self.now.state.now.tabus) self.now.state.now.best.routes.lists
            self.now.routes.now.lists rest)) }
        ensures kept { IfOk result (λ ended.
            IsChangeOfBest self.now.model.now self.now.routes.now.lists ended kept.new) }
        ensures keeps { Keeps J.model J.committed self.now.routes.now judge.old judge.new }
        ensures asked { IfOk result (λ ended. AsksFor J.asked J.looked judge.old judge.new (tries_of rest ended)) }
        ensures asked_at_most { OnErr result (AsksFor J.asked J.looked judge.old judge.new rest) }
    {
        let mut scratch = Scratch::new();
        let mut best = None;
        let mut length: u64 = 0;
        while let Some(mv) = self.next_open(judge, best, list, rest, &mut length) {
            if length >= rest {
                return Ok(RoundEnd::Cut);
            }
            length += 1;
            best = self.try_move(judge, mv, best, kept, &mut scratch, steps)?;
        }
        // the moves after the last try were passed over, and are tries as well
        if length > rest {
            return Ok(RoundEnd::Cut);
        }
        Ok(end_of(length, best))
    }

    // Takes the first move of a list that is not passed over. Moves are passed over that lead to lists that are not
    // valid, or that make no less than the best candidate so far. Before there is one, the ceiling takes its place.
    // Moves that are passed over are counted.
    #[inline(always)]
    fn next_open<J: Judge>(
        &self,
        judge: &mut J,
        best: Option<Candidate>,
        list: &mut MoveList<'_>,
        rest: u64,
        length: &mut u64,
    ) -> Option<Move>
        requires judge { IsJudgeOf self.now.model.now self.now.routes.now (J.model judge.old) (J.committed judge.old) }
        ensures takes { Takes (IsPassedInRound self.now.model.now self.now.routes.now.lists
            (bound_of best self.now.ceiling)) list.old length.old result list.new length.new }
        ensures model { J.model judge.new ≡ J.model judge.old }
        ensures committed { J.committed judge.new self.now.routes.now }
        ensures asked { J.asked judge.new ≡ J.asked judge.old }
        ensures looked { J.looked judge.new + tries_within rest length.old
            ≤ J.looked judge.old + tries_within rest (length.new + tries_taken result) }
    {
        let passing: NoBetter<'_, J> = NoBetter {
            model: self.model,
            routes: self.routes,
            bound: self.bound(best),
            rest,
            judge: PhantomData,
        };
        list.step(&passing, judge, length)
    }

    // A move is a better candidate only if it makes less than this. It is what the best candidate so far makes; before
    // there is one, it is the ceiling. `None` if there is neither.
    #[inline(always)]
    fn bound(&self, best: Option<Candidate>) -> Option<i64>
        ensures { result ≡ bound_of best self.now.ceiling }
    {
        match best {
            Some(best) => Some(best.difference),
            None => self.ceiling,
        }
    }

    // The better of the best candidate so far and a move, if that is a candidate. What the best candidate changes is
    // kept. It is a function apart from the loop: the list of the loop passes over most moves when runs are told.
    #[inline(never)]
    fn try_move<J: Judge, L: Ledger>(
        &self,
        judge: &mut J,
        mv: Move,
        best: Option<Candidate>,
        kept: &mut Change,
        scratch: &mut Scratch,
        steps: &mut Steps<L>,
    ) -> Result<Option<Candidate>, NoMemory>
        requires judge { IsJudgeOf self.now.model.now self.now.routes.now (J.model judge.old) (J.committed judge.old) }
        requires mv { IsTrue (is_move self.now.model.now self.now.routes.now.lists mv) }
        requires best { IfSome best (IsDifferenceKnown self.now.model.now self.now.routes.now.lists) }
        requires kept { IfSome best (IsChangeOf self.now.model.now self.now.routes.now.lists kept.old) }
        ensures best { IfOk result (λ found. move_of found ≡ better_with self.now.model.now
            (tabus_of self.now.state.now.tabus) self.now.state.now.best.routes.lists self.now.routes.now.lists
            (move_of best) mv) }
        ensures known { IfOk result (λ found. IfSome found
            (IsDifferenceKnown self.now.model.now self.now.routes.now.lists)) }
        ensures kept { IfOk result (λ found. IfSome found
            (IsChangeOf self.now.model.now self.now.routes.now.lists kept.new)) }
        ensures model { J.model judge.new ≡ J.model judge.old }
        ensures committed { J.committed judge.new self.now.routes.now }
        ensures asked { J.asked judge.new ≤ J.asked judge.old + 1 }
        ensures looked { J.looked judge.new ≤ J.looked judge.old + 1 }
    {
        let change = &mut scratch.change;
        Change::write(self.model, self.routes, mv, change);
        let least = judge.least_difference(self.routes, mv, change);
        if is_no_less(self.bound(best), least) {
            return Ok(best);
        }
        match judge.judge_change(self.routes, mv, change, steps)? {
            Verdict::Refused => Ok(best),
            Verdict::Difference(difference) => {
                if is_no_less(self.bound(best), difference) {
                    return Ok(best);
                }
                if self.is_forbidden(difference, change, &mut scratch.after) {
                    return Ok(best);
                }
                swap(change, kept);
                Ok(Some(Candidate { mv, difference }))
            }
        }
    }

    // Whether a change is tabu.
    fn is_tabu(&self, change: &Change, after: &mut WrittenList) -> bool
        requires made { IsMadeOn self.now.routes.now change.now }
        requires lists { IsTrue (are_lists self.now.model.now (changed self.now.routes.now.lists change.now)) }
        ensures { result ≡ is_tabu self.now.model.now (tabus_of self.now.state.now.tabus) self.now.routes.now.lists
            (changed self.now.routes.now.lists change.now) }
    {
        let closed = Closed { model: self.model };
        let lists = WholeChange {
            closed,
            routes: self.routes,
            change,
        };
        self.state.tabus.is_tabu(lists, after)
    }

    // Whether a change that makes a difference is tabu and leads to lists that cost no less than the best before. If
    // they cost less, it is not asked whether the change is tabu.
    #[inline]
    fn is_forbidden(&self, difference: i64, change: &Change, after: &mut WrittenList) -> bool
        requires made { IsMadeOn self.now.routes.now change.now }
        requires lists { IsTrue (are_lists self.now.model.now (changed self.now.routes.now.lists change.now)) }
        ensures { result ≡ (int_le (aspiration self.now.model.now self.now.state.now.best.routes.lists
            self.now.routes.now.lists) difference && is_tabu self.now.model.now
            (tabus_of self.now.state.now.tabus) self.now.routes.now.lists
            (changed self.now.routes.now.lists change.now)) }
    {
        if difference < self.aspiration() {
            return false;
        }
        self.is_tabu(change, after)
    }
}

// Whether a difference is not below a bound, if there is one.
#[inline(always)]
fn is_no_less(bound: Option<i64>, least: i64) -> bool
    ensures { result ≡ is_no_less bound least }
{
    match bound {
        Some(bound) => least >= bound,
        None => false,
    }
}

// The end of a round of `length` moves.
fn end_of(length: u64, best: Option<Candidate>) -> RoundEnd
    ensures { result ≡ end_with length best }
{
    match best {
        Some(candidate) => RoundEnd::Best { length, candidate },
        None => RoundEnd::Stuck { length },
    }
}
