//! What both judges are asked. Each is opened at the routes of a row and answers the same questions, and how often it
//! is asked is counted.

ghost use Rattle.std.specs.Prelude.{◌≡◌, ◌+◌, ◌*◌, ◌<◌, ◌≤◌, IfOk, IsTrue, OnErr, OnOk};
ghost use Rattle.vr_model.specs.moves.Moves.{apply};
ghost use Rattle.vr_model.specs.moves.MoveTests.{is_move};
ghost use Rattle.vr_model.specs.routes.Rules.{is_valid};
ghost use Rattle.vr_model.specs.tables.Tables.{visits};
ghost use Rattle.vr_routes.specs.Changes.{IsChange};
ghost use Rattle.vr_descent.specs.Refused.{CanJudge};
ghost use Rattle.vr_routes.specs.Judging.{moved, verdict_of};

use crate::judges::{self, Said};
use crate::scans::{self, Ended};
use crate::searches::{self, Sought};
use crate::stopped;
use std::alloc::Global;
use std::marker::Brand;
use std::sync::ledger::{Blank, Ledger};
use vr_judge::FilterJudge;
use vr_model::{Closed, Model, Move, NoMemory, Steps};
use vr_plain::PlainJudge;
use vr_routes::{Change, Judge, Routes, Verdict};

/// Who judges moves.
#[derive(Clone, Copy)]
pub(crate) enum By {
    Rebuilding,
    Filters,
}

/// What a judge is asked.
#[derive(Clone, Copy)]
pub(crate) enum Question {
    /// What it says of moves; some of them are made.
    Moves(&'static [Said]),
    /// What a search finds, and how often it asks.
    Search(&'static Sought),
    /// That a watcher which refuses ends the descent.
    Stopper,
    /// How one scan with this many tries ends.
    Scan(u64, Ended),
}

/// A judge that counts the moves that it judges, and how often it is asked what moves make at least.
pub(crate) struct Counting<J: Judge> {
    judge: J,
    pub(crate) count: u64,
    pub(crate) looks: u64,
}

impl<J: Judge> Judge for Counting<J> {
    ghost model = { λ counting. J.model counting.judge };

    ghost committed = { λ counting. J.committed counting.judge };

    ghost asked = { λ counting. counting.count };

    ghost looked = { λ counting. counting.looks };

    ghost weight = { λ counting. J.weight counting.judge };

    fn routing_model(&self) -> &Model {
        self.judge.routing_model()
    }

    fn least_difference(&mut self, routes: &Routes, mv: Move, change: &Change) -> i64 {
        self.looks = self.looks.saturating_add(1);
        self.judge.least_difference(routes, mv, change)
    }

    fn first_below(
        &mut self,
        routes: &Routes,
        mv: Move,
        from: u32,
        end: u32,
        bound: i64,
    ) -> Option<u32> {
        self.looks = self.looks.saturating_add(1);
        self.judge.first_below(routes, mv, from, end, bound)
    }

    fn judge_change<L: Ledger>(
        &mut self,
        routes: &Routes,
        mv: Move,
        change: &Change,
        steps: &mut Steps<L>,
    ) -> Result<Verdict, NoMemory> {
        self.count = self.count.saturating_add(1);
        self.judge.judge_change(routes, mv, change, steps)
    }

    fn commit_change(
        &mut self,
        routes: &mut Routes,
        mv: Move,
        change: &Change,
    ) -> Result<(), NoMemory> {
        self.judge.commit_change(routes, mv, change)
    }
}

impl<J: Judge> Counting<J> {
    // The judge that was counted.
    fn into_judge(self) -> J {
        let Counting {
            judge,
            count: _,
            looks: _,
        } = self;
        judge
    }
}

// Whether a judge that is in sync with routes answers a question as it says.
fn is_answered<J: Judge, L: Ledger>(
    alloc: Global,
    closed: Closed<'_>,
    counting: &mut Counting<J>,
    by: By,
    routes: &mut Routes,
    question: Question,
    blank: Blank,
) -> Result<bool, NoMemory>
    requires judge { CanJudge closed.model.now routes.old (J.model counting.old.judge)
        (J.committed counting.old.judge) }
    requires name { blank.name ≡ L.name }
    requires parts { blank.parts ≡ L.parts }
    requires some { 0 < blank.parts }
{
    let mut steps = Steps::<L>::new(blank);
    match question {
        Question::Moves(moves) => judges::says_all(closed, counting, routes, moves, &mut steps),
        Question::Search(sought) => searches::finds(
            alloc, closed, counting, by, routes, sought, &mut steps,
        ),
        Question::Stopper => stopped::ends_between_watchers(
            alloc, closed, counting, routes, &mut steps,
        ),
        Question::Scan(tries, ended) => {
            scans::scans(closed, counting, routes, tries, ended, &mut steps)
        }
    }
}

// Whether a judge that was opened at routes does so; it is handed back.
fn answer_of<J: Judge>(
    alloc: Global,
    closed: Closed<'_>,
    judge: J,
    by: By,
    routes: &mut Routes,
    question: Question,
) -> (Result<bool, NoMemory>, J)
    requires judge { CanJudge closed.model.now routes.old (J.model judge) (J.committed judge) }
{
    let mut counting = Counting {
        judge,
        count: 0,
        looks: 0,
    };
    let answered = is_answered::<J, Brand>(
        alloc,
        closed,
        &mut counting,
        by,
        routes,
        question,
        Blank::new(1),
    );
    (answered, counting.into_judge())
}

/// Whether a judge that is opened at valid routes answers a question as it says.
pub(crate) fn answers(
    alloc: Global,
    closed: Closed<'_>,
    routes: &mut Routes,
    by: By,
    question: Question,
) -> Result<bool, NoMemory>
    requires of_model { routes.old.visits ≡ visits closed.model.now }
    requires valid { IsTrue (is_valid closed.model.now routes.old.lists) }
{
    match by {
        By::Rebuilding => {
            let judge = PlainJudge::open(alloc, closed.model, routes)?;
            let (answered, _) = answer_of(alloc, closed, judge, by, routes, question);
            answered
        }
        By::Filters => {
            let judge = FilterJudge::open(alloc, closed.model, routes)?;
            let (answered, judge) = answer_of(alloc, closed, judge, by, routes, question);
            judge.close();
            answered
        }
    }
}
