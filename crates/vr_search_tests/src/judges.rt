//! Verdicts on single moves, by both judges.

ghost use Rattle.vr_descent.specs.Refused.{CanJudge};

use crate::judge_questions::{By, Question};
use crate::models::{OPTIONAL, TWO_VANS};
use crate::questions::{Asks, Row, assert_rows};
use std::sync::ledger::Ledger;
use vr_model::{Closed, Move, NoMemory, Steps};
use vr_routes::{Change, Judge, Routes, Verdict};

/// A move, whether it is made if it is not refused, and what is said of it.
pub(crate) type Said = (Move, bool, Verdict);

// What a judge says of a move, `None` if it is none. A move that is not refused is made, if that is asked.
fn judge_move<J: Judge, L: Ledger>(
    closed: Closed<'_>,
    judge: &mut J,
    routes: &mut Routes,
    mv: Move,
    makes: bool,
    steps: &mut Steps<L>,
) -> Result<Option<Verdict>, NoMemory>
    requires judge { CanJudge closed.model.now routes.old (J.model judge.old) (J.committed judge.old) }
    ensures { CanJudge closed.entry.model.now routes.new (J.model judge.new) (J.committed judge.new) }
{
    if Change::of(closed.model, routes, mv).is_none() {
        return Ok(None);
    }
    let verdict = judge.judge(routes, mv, steps)?;
    match verdict {
        Verdict::Refused => {}
        Verdict::Difference(_) => {
            if makes {
                judge.commit(routes, mv)?;
            }
        }
    }
    Ok(Some(verdict))
}

/// Whether a judge says of some moves, one after the other, what is wanted.
pub(crate) fn says_all<J: Judge, L: Ledger>(
    closed: Closed<'_>,
    judge: &mut J,
    routes: &mut Routes,
    moves: &[Said],
    steps: &mut Steps<L>,
) -> Result<bool, NoMemory>
    requires judge { CanJudge closed.model.now routes.old (J.model judge.old) (J.committed judge.old) }
{
    for &(mv, makes, want) in moves {
        if judge_move(closed, judge, routes, mv, makes, steps)? != Some(want) {
            return Ok(false);
        }
    }
    Ok(true)
}

const REVERSED: Move = Move::TwoOpt { v: 0, a: 0, b: 1 };

const VANS: &[Said] = &[
    (REVERSED, false, Verdict::Difference(0)),
    (
        Move::Relocate {
            v: 0,
            a: 0,
            w: 1,
            t: 0,
        },
        true,
        Verdict::Difference(-45),
    ),
    (
        Move::Relocate {
            v: 1,
            a: 0,
            w: 0,
            t: 0,
        },
        false,
        Verdict::Difference(45),
    ),
];

const LEAVES: &[Said] = &[
    (Move::MakeInactive { v: 0, a: 0 }, false, Verdict::Refused),
    (
        Move::MakeInactive { v: 0, a: 1 },
        false,
        Verdict::Difference(-5),
    ),
];

// Two visits of one vehicle, alone and beside another vehicle.
const ALONE: &[&[u32]] = &[&[1, 2]];

const BESIDE: &[&[u32]] = &[&[1, 2], &[]];

#[rattlefmt::skip]
static ROWS: [Row; 4] = [
    Row { name: "vans, by rebuilding", text: TWO_VANS, lists: BESIDE,
        asks: Asks::Judge(By::Rebuilding, Question::Moves(VANS)) },
    Row { name: "vans, by filters", text: TWO_VANS, lists: BESIDE,
        asks: Asks::Judge(By::Filters, Question::Moves(VANS)) },
    Row { name: "an optional visit, by rebuilding", text: OPTIONAL, lists: ALONE,
        asks: Asks::Judge(By::Rebuilding, Question::Moves(LEAVES)) },
    Row { name: "an optional visit, by filters", text: OPTIONAL, lists: ALONE,
        asks: Asks::Judge(By::Filters, Question::Moves(LEAVES)) },
];

#[test]
fn both_judges_say_the_same_of_single_moves(rt: HostRuntime) {
    assert_rows(&rt, rt.alloc(), &ROWS);
}
