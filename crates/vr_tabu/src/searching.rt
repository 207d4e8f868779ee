//! The search: round after round, the best candidate made, and the best routes kept.

ghost use Rattle.std.specs.Prelude.{◌≡◌, ◌≢◌, ◌+◌, ◌-◌, ◌<◌, ◌≤◌, ◌^◌, ◌+ℤ◌, ◌≤ℤ◌, pos, ◌∷◌, [], length};
ghost use Rattle.std.specs.Prelude.{Some, None, IsTrue, IfOk, OnOk, OnErr};
ghost use Rattle.vr_model.specs.moves.MoveTests.{is_move};
ghost use Rattle.vr_model.specs.moves.Moves.{apply};
ghost use Rattle.vr_model.specs.routes.Costs.{cost};
ghost use Rattle.vr_model.specs.routes.Rules.{is_valid};
ghost use Rattle.vr_model.specs.tables.Tables.{visits};
ghost use Rattle.vr_model.specs.tables.WellFormed.{IsIn, IsWellFormed};
ghost use Rattle.vr_descent.specs.Asking.{AsksFor, AsksOn, Keeps};
ghost use Rattle.vr_descent.specs.Ending.{CanBegin, HasEnded, HasStopped};
ghost use Rattle.vr_descent.specs.Searching.{after_move, move_event, behind};
ghost use Rattle.vr_routes.specs.Judging.{HasCommitted, moved};
ghost use Rattle.vr_watch.specs.Told.{Reported, ReportedInPart};
ghost use Rattle.vr_tabu.specs.Rounds.{IsChangeOf, IsChangeOfBest, IsDifferenceKnown, IsJudgeOf};
ghost use Rattle.vr_tabu.specs.Rounds.{tabu_round_end, tries_of};
ghost use Rattle.vr_tabu.specs.Standing.{AreTabuParameters, IsTabuBegun, IsKnownState, TabuStands};
ghost use Rattle.vr_descent.specs.Incumbents.{IsBest, kept};
ghost use Rattle.vr_tabu.specs.Standing.{tabu_from_state, left_of, next_events};
ghost use Rattle.vr_tabu.specs.TabuSearches.{next_round, round_of, tabu_search};
ghost use Rattle.vr_tabu.specs.Tabus.{tabus_of};

use crate::rounds::{Candidate, Round, RoundEnd};
use crate::tabu_list::{TabuList, WholeChange};
use crate::written_list::WrittenList;
use std::alloc::Global;
use std::sync::ledger::Ledger;
use vr_descent::{Incumbent, Progress};
use vr_model::{Closed, End, Kind, Limit, Model, NoMemory, Report, Steps};
use vr_routes::{Change, Judge, Routes};
use vr_watch::{Watch, note_all};

/// How tabu search ends.
#[derive(Drop)]
pub struct TabuAnswer {
    pub report: Report,
    /// The first routes of the least cost.
    pub best: Routes,
}

/// How far tabu search may go, and for how many rounds visits are tabu.
#[derive(Clone, Copy)]
pub struct Parameters {
    pub limit: Limit,
    pub tenure: u32,
}

/// Tries all moves of the lists in each round and makes the one of least cost, even if it costs more (`TABU_SEARCH` in
/// OR-Tools). The visits that it changes are tabu for the next `tenure` rounds: those whose vehicle or whose node just
/// before is another. A move that changes only visits that are tabu is not made, unless it leads to lists that cost
/// less than any before.
///
/// The routes then have the last lists, and the judge is in sync with them. The answer has the first lists of the least
/// cost. `limit` allows up to 10^9 tries and from 1 to 10^9 solutions, and `tenure` is in 1..=1000.
///
/// The report's end is the first of these that holds:
///
/// - `Solutions` if as many solutions were found as the limit allows;
/// - `Tries` if there are more moves than tries left; the tries left then count as used;
/// - `Optimum` if no move may be made.
///
/// The judge is asked about no more moves than are tried. It is asked at most twice as often for the lower bound of a
/// move or of a run of moves.
///
/// The only refusal is want of memory. The judge is then in sync with the lists of the routes, which are valid. It was
/// asked about no more moves than the limit has tries. The watchers have been told the events up to there; the first
/// few of them may know the event in hand too. Memory is taken once at the beginning, and then by the judge and the
/// watchers alone.
pub fn tabu<J: Judge, L: Ledger>(
    alloc: Global,
    model: &Model,
    judge: &mut J,
    routes: &mut Routes,
    first_cost: i64,
    limit: Limit,
    tenure: u32,
    watch: &mut Vec<Box<dyn Watch>>,
    steps: &mut Steps<L>,
) -> Result<TabuAnswer, NoMemory>
    requires tenure_from_one { 1 ≤ tenure }
    requires tenure_to_1000 { tenure ≤ 1000 }
    requires well_formed { IsWellFormed model.now }
    requires begins { CanBegin model.now routes.old first_cost limit (J.model judge.old) (J.committed judge.old) }
    ensures ended { IfOk result (λ answer. HasEnded (λ w later. after w later) model.now limit
        (tabu_search model.now routes.old.lists limit tenure) routes.old routes.new watch.old.items watch.new.items
        answer.report answer.best) }
    ensures asked { IfOk result (λ answer. AsksFor J.asked J.looked judge.old judge.new answer.report.tries) }

    ensures judge_model { J.model judge.new ≡ model.now }
    ensures holds { HasCommitted model.now (J.committed judge.new) routes.new }
    ensures told_in_part { OnErr result (ReportedInPart (λ w later. after w later) watch.old.items watch.new.items
        (tabu_search model.now routes.old.lists limit tenure).events) }
    ensures asked_at_most { OnErr result (AsksFor J.asked J.looked judge.old judge.new limit.tries) }
{
    let at = Progress {
        used: 0,
        found: 1,
        cost: first_cost,
    };
    let parameters = Parameters { limit, tenure };
    note_all(watch, at.event(Kind::First))?;
    let mut state = State::open(alloc, model, routes, at)?;
    let end = search(
        Closed { model },
        judge,
        routes,
        parameters,
        &mut state,
        watch,
        steps,
    )?;
    Ok(TabuAnswer {
        report: state.at.report(end),
        best: state.best.routes,
    })
}

/// The state of a tabu search.
#[derive(Drop)]
pub struct State {
    pub at: Progress,
    pub best: Incumbent,
    pub tabus: TabuList,
}

impl State {
    // At the beginning these routes are the best, and no visit is tabu. The routes are copied last, so that they are
    // not to be let go if memory is wanting.
    fn open(alloc: Global, model: &Model, routes: &Routes, at: Progress) -> Result<State, NoMemory>
        ensures { IfOk result (IsTabuBegun model.now routes.now at) }
    {
        let tabus = TabuList::new(alloc, model.nodes)?;
        let best = Incumbent {
            routes: routes.copy(alloc)?,
            cost: at.cost,
        };
        Ok(State { at, best, tabus })
    }

    // One round. Either the best candidate is made and told to the watchers, the visits that it changes become tabu,
    // and `None` is answered. Or the search ends, and the answer is why. The tries are counted.
    fn advance<J: Judge, L: Ledger>(
        &mut self,
        closed: Closed<'_>,
        judge: &mut J,
        routes: &mut Routes,
        parameters: Parameters,
        watch: &mut Vec<Box<dyn Watch>>,
        steps: &mut Steps<L>,
    ) -> Result<Option<End>, NoMemory>
        requires judge_model { J.model judge.old ≡ closed.model.now }
        requires parameters { AreTabuParameters parameters }
        requires stands { TabuStands closed.model.now parameters (J.committed judge.old) routes.old self.old }
        requires more { self.old.at.found ≢ parameters.limit.solutions }
        ensures outcome { IfOk result (λ stop.
            tabu_from_state closed.entry.model.now parameters routes.old.lists self.old
            ≡ behind (next_events closed.entry.model.now parameters routes.old.lists self.old)
            (left_of closed.entry.model.now parameters routes.new.lists self.new stop)) }
        ensures told { OnOk result (Reported (λ w later. after w later) watch.old.items watch.new.items
            (next_events closed.entry.model.now parameters routes.old.lists self.old)) }
        ensures asked { OnOk result (AsksOn J.asked J.looked judge.old judge.new self.old.at.used self.new.at.used) }
        ensures stands { OnOk result (TabuStands closed.entry.model.now parameters
            (J.committed judge.new) routes.new self.new) }
        ensures no_dearer { OnOk result (self.new.best.cost ≤ℤ self.old.best.cost) }
        ensures further { IfOk result (λ stop. stop ≡ None → self.old.at.used < self.new.at.used) }

        ensures judge_model { J.model judge.new ≡ closed.entry.model.now }
        ensures holds { HasCommitted closed.entry.model.now (J.committed judge.new) routes.new }
        ensures told_in_part { OnErr result (ReportedInPart (λ w later. after w later) watch.old.items watch.new.items
            (next_events closed.entry.model.now parameters routes.old.lists self.old)) }
        ensures asked_at_most { OnErr result (AsksOn J.asked J.looked judge.old judge.new self.old.at.used
            parameters.limit.tries) }
    {
        let rest = parameters.limit.tries - self.at.used;
        let mut change = Change::blank();
        let ended = run_round(closed.model, judge, routes, self, rest, &mut change, steps)?;
        match ended {
            RoundEnd::Best { length, candidate } => {
                let lists = WholeChange {
                    closed,
                    routes,
                    change: &change,
                };
                // before the move is made, since the lists before it tell what it changes
                self.tabus
                    .follow(lists, parameters.tenure, &mut WrittenList::new());
                self.take(judge, routes, watch, length, candidate, &change)?;
                Ok(None)
            }
            RoundEnd::Stuck { length } => {
                self.at.used += length;
                Ok(Some(End::Optimum))
            }
            RoundEnd::Cut => {
                self.at.used = parameters.limit.tries;
                Ok(Some(End::Tries))
            }
        }
    }

    // Makes the best candidate of a round of `length` moves, and tells the watchers; `change` is what it changes. If
    // memory is wanting, the judge is in sync with the lists of the routes all the same.
    fn take<J: Judge>(
        &mut self,
        judge: &mut J,
        routes: &mut Routes,
        watch: &mut Vec<Box<dyn Watch>>,
        length: u64,
        candidate: Candidate,
        change: &Change,
    ) -> Result<(), NoMemory>
        requires well_formed { IsWellFormed (J.model judge.old) }
        requires holds { HasCommitted (J.model judge.old) (J.committed judge.old) routes.old }
        requires mv { IsTrue (is_move (J.model judge.old) routes.old.lists candidate.mv) }
        requires change { IsChangeOf (J.model judge.old) routes.old.lists change.now candidate }
        requires valid { IsTrue (is_valid (J.model judge.old)
            (apply (J.model judge.old) routes.old.lists candidate.mv)) }
        requires cost { self.old.at.cost ≡ cost (J.model judge.old) routes.old.lists }
        requires known { IsDifferenceKnown (J.model judge.old) routes.old.lists candidate }
        requires tries { self.old.at.used + length < 2 ^ 64 }
        requires found { self.old.at.found + 1 < 2 ^ 64 }
        requires best { IsBest (J.model judge.old) routes.old.visits self.old.best }
        ensures at { OnOk result (self.new.at ≡ after_move (J.model judge.old) routes.old.lists candidate.mv length
            self.old.at) }
        ensures best { OnOk result (self.new.best ≡ kept self.old.best routes.new
            (cost (J.model judge.old) routes.new.lists)) }
        ensures tabus { self.new.tabus ≡ self.old.tabus }
        ensures routes { OnOk result (routes.new ≡ moved (J.model judge.old) routes.old candidate.mv) }
        ensures holds { HasCommitted (J.model judge.old) (J.committed judge.new) routes.new }
        ensures judge_model { J.model judge.new ≡ J.model judge.old }
        ensures asked { J.asked judge.new ≡ J.asked judge.old }
        ensures looked { J.looked judge.new ≡ J.looked judge.old }
        ensures told { OnOk result (Reported (λ w later. after w later) watch.old.items watch.new.items
            (move_event (J.model judge.old) routes.old.lists candidate.mv (self.old.at.used + length) ∷ [])) }
        ensures told_in_part { OnErr result (ReportedInPart (λ w later. after w later) watch.old.items watch.new.items
            (move_event (J.model judge.old) routes.old.lists candidate.mv (self.old.at.used + length) ∷ [])) }
    {
        judge.commit_change(routes, candidate.mv, change)?;
        self.follow(routes, length, candidate.difference);
        note_all(watch, self.at.event(Kind::Move))?;
        Ok(())
    }

    // Counts the tries of a round and the solution that it found, and keeps its routes if they cost less than the best
    // before.
    fn follow(&mut self, routes: &Routes, tries: u64, difference: i64)
        requires tries { self.old.at.used + tries < 2 ^ 64 }
        requires found { self.old.at.found + 1 < 2 ^ 64 }
        requires cost { IsIn (pos 0) (pos (2 ^ 63 - 1)) (self.old.at.cost +ℤ difference) }
        requires visits { self.old.best.routes.visits ≡ routes.now.visits }
        requires many { length self.old.best.routes.lists ≡ length routes.now.lists }
        ensures at { self.new.at ≡ record {
          used = self.old.at.used + tries;
          found = self.old.at.found + 1;
          cost = self.old.at.cost +ℤ difference;
        } }
        ensures best { self.new.best ≡ kept self.old.best routes.now (self.old.at.cost +ℤ difference) }
        ensures tabus { self.new.tabus ≡ self.old.tabus }
    {
        self.at.used += tries;
        self.at.found += 1;
        self.at.cost += difference;
        self.best.offer(routes, &self.at);
    }
}

// One round from the state of a search, in which at most `rest` moves may be tried. What the best candidate changes is
// written over `kept`.
fn run_round<J: Judge, L: Ledger>(
    model: &Model,
    judge: &mut J,
    routes: &Routes,
    state: &State,
    rest: u64,
    kept: &mut Change,
    steps: &mut Steps<L>,
) -> Result<RoundEnd, NoMemory>
    requires known { IsKnownState model.now routes.now state.now }
    requires judge { IsJudgeOf model.now routes.now (J.model judge.old) (J.committed judge.old) }
    requires rest { rest ≤ 1000000000 }
    ensures ends { IfOk result (λ ended. ended ≡ tabu_round_end model.now routes.now.lists
        (round_of model.now (tabus_of state.now.tabus) state.now.best.routes.lists routes.now.lists rest)) }
    ensures kept { IfOk result (λ ended. IsChangeOfBest model.now routes.now.lists ended kept.new) }
    ensures keeps { Keeps J.model J.committed routes.now judge.old judge.new }
    ensures asked { IfOk result (λ ended. AsksFor J.asked J.looked judge.old judge.new (tries_of rest ended)) }
    ensures asked_at_most { OnErr result (AsksFor J.asked J.looked judge.old judge.new rest) }
{
    let round = Round::open(model, routes, state);
    round.run(judge, rest, kept, steps)
}

// Searches on from its state, and says why it ended.
fn search<J: Judge, L: Ledger>(
    closed: Closed<'_>,
    judge: &mut J,
    routes: &mut Routes,
    parameters: Parameters,
    state: &mut State,
    watch: &mut Vec<Box<dyn Watch>>,
    steps: &mut Steps<L>,
) -> Result<End, NoMemory>
    requires judge_model { J.model judge.old ≡ closed.model.now }
    requires parameters { AreTabuParameters parameters }
    requires stands { TabuStands closed.model.now parameters (J.committed judge.old) routes.old state.old }
    ensures stopped { IfOk result (HasStopped (λ w later. after w later)
        (tabu_from_state closed.entry.model.now parameters routes.old.lists state.old) routes.new.lists state.new.at
        state.new.best watch.old.items watch.new.items) }
    ensures asked { OnOk result (AsksOn J.asked J.looked judge.old judge.new state.old.at.used state.new.at.used) }
    ensures stands { OnOk result (TabuStands closed.entry.model.now parameters (J.committed judge.new) routes.new
        state.new) }
    ensures no_dearer { OnOk result (state.new.best.cost ≤ℤ state.old.best.cost) }

    ensures judge_model { J.model judge.new ≡ closed.entry.model.now }
    ensures holds { HasCommitted closed.entry.model.now (J.committed judge.new) routes.new }
    ensures told_in_part { OnErr result (ReportedInPart (λ w later. after w later) watch.old.items watch.new.items
        (tabu_from_state closed.entry.model.now parameters routes.old.lists state.old).events) }
    ensures asked_at_most { OnErr result (AsksOn J.asked J.looked judge.old judge.new state.old.at.used
        parameters.limit.tries) }
{
    'rounds: while state.at.found != parameters.limit.solutions {
        let stop = state.advance(closed, judge, routes, parameters, watch, steps)?;
        if let Some(end) = stop {
            return Ok(end);
        }
    }
    Ok(End::Solutions)
}
