//! The state of a search, and one scan with the move that it finds made (`advance`).

ghost use Rattle.std.specs.Prelude.{◌≡◌, ◌+◌, ◌≤◌, ◌<◌, ◌^◌, [], ◌∷◌, IsTrue, IfOk, OnOk, OnErr};
ghost use Rattle.vr_descent.specs.Asking.{AsksOn};
ghost use Rattle.vr_descent.specs.Ending.{report_of};
ghost use Rattle.vr_descent.specs.Refused.{AreRefused, CanJudge, StaysRefused};
ghost use Rattle.vr_descent.specs.Scanned.{scan_end};
ghost use Rattle.vr_descent.specs.Searching.{after_move, event_of, events_after, move_event};
ghost use Rattle.vr_descent.specs.Searching.{progress_after, routes_after, scan_of};
ghost use Rattle.vr_known.specs.Blocks.{Learns};
ghost use Rattle.vr_model.specs.routes.CostLaws.{HasBoundedCost};
ghost use Rattle.vr_model.specs.routes.Costs.{cost};
ghost use Rattle.vr_routes.specs.Changes.{IsChange};
ghost use Rattle.vr_routes.specs.Judging.{HasCommitted, cost_change, moved};
ghost use Rattle.vr_model.specs.moves.Moves.{apply};
ghost use Rattle.vr_model.specs.moves.MoveTests.{is_move};
ghost use Rattle.vr_model.specs.routes.Rules.{is_valid};
ghost use Rattle.vr_model.specs.tables.WellFormed.{IsWellFormed};
ghost use Rattle.vr_watch.specs.Told.{Reported, ReportedInPart};

use crate::scanning::Scanning;
use crate::{Accept, ScanEnd};
use std::marker::PhantomData;
use std::sync::ledger::Ledger;
use vr_known::{Known, Touched};
use vr_model::{Closed, End, Event, Kind, Limit, Model, Move, NoMemory, Report, Steps};
use vr_routes::{Change, Judge, Routes};
use vr_watch::{Watch, note_all};

/// The state of a search: the tries used, the solutions found, the first one among them, and the cost of the lists.
#[derive(Clone, Copy)]
pub struct Progress {
    pub used: u64,
    pub found: u64,
    pub cost: i64,
}

// What a scan found: an acceptable move, at which place of the list, what it makes of the cost, and what it changes.
#[derive(Clone, Copy)]
struct Found<'a> {
    place: u64,
    mv: Move,
    difference: i64,
    change: &'a Change,
}

impl Progress {
    /// One scan: the first acceptable move is made and told to the watchers; the tries are counted. `descend` and
    /// guided search ask it again and again. It owns the change of the move in hand: the scan writes it, and the judge
    /// makes it.
    ///
    /// The rows that the scan refused whole are known then, if anything is learned and the tries did not cut it. Rows
    /// that depend on what the move changed are not:
    ///
    /// - rows that name a vehicle whose list the move changed;
    /// - rows that put elsewhere or take out a pair that such a vehicle serves;
    /// - rows that change activity, if the move did.
    ///
    /// It fails only when out of memory. Then the judge has committed the lists of the routes, which are valid. Of the
    /// event in hand some watchers at the front were told. What is known may then be of the lists before, and is not to
    /// be asked again.
    pub fn advance<J: Judge, A: Accept, L: Ledger>(
        &mut self,
        model: &Model,
        judge: &mut J,
        routes: &mut Routes,
        accept: &A,
        limit: Limit,
        watch: &mut Vec<Box<dyn Watch>>,
        steps: &mut Steps<L>,
        known: &mut Known,
    ) -> Result<ScanEnd, NoMemory>
        requires well_formed { IsWellFormed model.now }
        requires judge { CanJudge model.now routes.old (J.model judge.old) (J.committed judge.old) }
        requires accept_model { A.model accept.now ≡ model.now }
        requires accept_stands { A.stands_at accept.now routes.old.lists }
        requires cost { self.old.cost ≡ cost model.now routes.old.lists }
        requires tries { limit.tries ≤ 1000000000 }
        requires used { self.old.used ≤ limit.tries }
        requires found { self.old.found ≤ 1000000000 }
        requires known { AreRefused model.now (A.takes accept.now) routes.old.lists known.old }
        requires stays { Learns known.old → StaysRefused model.now (A.takes accept.now) }
        ensures ends { IfOk result (λ ended. ended ≡ scan_end model.now routes.old.lists
            (scan_of model.now (A.takes accept.now) limit routes.old.lists self.old.used)) }
        ensures progress { OnOk result (self.new ≡ progress_after model.now limit routes.old.lists self.old
            (scan_of model.now (A.takes accept.now) limit routes.old.lists self.old.used)) }
        ensures routes { OnOk result (routes.new ≡ routes_after model.now routes.old
            (scan_of model.now (A.takes accept.now) limit routes.old.lists self.old.used)) }
        ensures told { OnOk result (Reported (λ w later. after w later) watch.old.items watch.new.items
            (events_after model.now routes.old.lists self.old.used
            (scan_of model.now (A.takes accept.now) limit routes.old.lists self.old.used))) }
        ensures asked { OnOk result (AsksOn J.asked J.looked judge.old judge.new self.old.used self.new.used) }
        ensures known { OnOk result (AreRefused model.now (A.takes accept.now) routes.new.lists known.new) }
        ensures learns { OnOk result (Learns known.new → Learns known.old) }

        ensures judge { CanJudge model.now routes.new (J.model judge.new) (J.committed judge.new) }
        ensures told_in_part { OnErr result (ReportedInPart (λ w later. after w later) watch.old.items watch.new.items
            (events_after model.now routes.old.lists self.old.used
            (scan_of model.now (A.takes accept.now) limit routes.old.lists self.old.used))) }
        ensures asked_at_most { OnErr result (AsksOn J.asked J.looked judge.old judge.new self.old.used limit.tries) }
    {
        let scanning: Scanning<'_, J, A> = Scanning {
            routes,
            accept,
            known,
            rest: limit.tries - self.used,
            judge: PhantomData,
        };
        let mut change = Change::blank();
        let ended = scanning.run(Closed { model }, judge, &mut change, steps)?;
        match ended {
            ScanEnd::Accepted {
                place,
                mv,
                difference,
            } => {
                known.note(model.search.neighbourhoods.as_slice(), mv);
                // found before the move is made: a pair that it takes out is in no list after it
                let touched = Touched::of(model, routes, mv);
                let found = Found {
                    place,
                    mv,
                    difference,
                    change: &change,
                };
                self.take(judge, routes, watch, found)?;
                known.change(model, routes, mv, touched);
                Ok(ended)
            }
            ScanEnd::Complete { length } => {
                known.note_all(model.search.neighbourhoods.as_slice());
                self.used += length;
                Ok(ended)
            }
            ScanEnd::Cut => {
                self.used = limit.tries;
                Ok(ended)
            }
        }
    }

    // Makes the move that a scan found, and tells the watchers. If it runs out of memory, the judge has committed the
    // lists of the routes all the same.
    fn take<J: Judge>(
        &mut self,
        judge: &mut J,
        routes: &mut Routes,
        watch: &mut Vec<Box<dyn Watch>>,
        found: Found<'_>,
    ) -> Result<(), NoMemory>
        requires well_formed { IsWellFormed (J.model judge.old) }
        requires holds { HasCommitted (J.model judge.old) (J.committed judge.old) routes.old }
        requires mv { IsTrue (is_move (J.model judge.old) routes.old.lists found.mv) }
        requires change { IsChange (J.model judge.old) routes.old.lists found.mv found.change.now }
        requires valid { IsTrue (is_valid (J.model judge.old) (apply (J.model judge.old) routes.old.lists found.mv)) }
        requires fits { HasBoundedCost (J.model judge.old) (apply (J.model judge.old) routes.old.lists found.mv) }
        requires cost { self.old.cost ≡ cost (J.model judge.old) routes.old.lists }
        requires difference { found.difference ≡ cost_change (J.model judge.old) routes.old.lists found.mv }
        requires tries { self.old.used + found.place < 2 ^ 64 }
        requires more { self.old.found + 1 < 2 ^ 64 }
        ensures progress { OnOk result (self.new
            ≡ after_move (J.model judge.old) routes.old.lists found.entry.mv found.entry.place self.old) }
        ensures routes { OnOk result (routes.new ≡ moved (J.model judge.old) routes.old found.entry.mv) }
        ensures holds { HasCommitted (J.model judge.old) (J.committed judge.new) routes.new }
        ensures model { J.model judge.new ≡ J.model judge.old }
        ensures asked { J.asked judge.new ≡ J.asked judge.old }
        ensures looked { J.looked judge.new ≡ J.looked judge.old }
        ensures told { OnOk result (Reported (λ w later. after w later) watch.old.items watch.new.items
            (move_event (J.model judge.old) routes.old.lists found.entry.mv (self.old.used + found.entry.place) ∷ [])) }
        ensures told_in_part { OnErr result (ReportedInPart (λ w later. after w later) watch.old.items watch.new.items
            (move_event (J.model judge.old) routes.old.lists found.entry.mv (self.old.used + found.entry.place) ∷ [])) }
    {
        judge.commit_change(routes, found.mv, found.change)?;
        self.used += found.place;
        self.found += 1;
        self.cost += found.difference;
        note_all(watch, self.event(Kind::Move))?;
        Ok(())
    }

    /// The event of a kind at the state of the search.
    pub fn event(&self, kind: Kind) -> Event
        ensures { result ≡ event_of self.now kind }
    {
        Event {
            tries: self.used,
            kind,
            cost: self.cost,
        }
    }

    /// The report of a search that ends here.
    pub fn report(&self, end: End) -> Report
        ensures { result ≡ report_of self.now end }
    {
        Report {
            tries: self.used,
            solutions: self.found,
            end,
        }
    }
}
