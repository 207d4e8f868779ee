//! One scan by itself.

ghost use Rattle.vr_descent.specs.Refused.{CanJudge};
ghost use Rattle.vr_descent.specs.Scanned.{takes_less};

use crate::judge_questions::{By, Question};
use crate::models::SQUARE;
use crate::questions::{Asks, Row, assert_rows};
use std::sync::ledger::Ledger;
use vr_descent::{Accept, ScanEnd, scan};
use vr_known::Known;
use vr_model::{Closed, Model, Move, NoMemory, Steps};
use vr_routes::{Judge, Routes};

// Takes each move that makes the cost less, and knows no bound.
#[derive(Clone, Copy, Drop)]
struct Takes<'m> {
    model: &'m Model,
}

impl<'m> Accept for Takes<'m> {
    ghost model = { λ s. s.model.now };

    ghost stands_at = { λ s lists. Unit {0} };

    ghost takes = { λ s. takes_less };

    fn accepts(&self, _routes: &Routes, _mv: Move, difference: i64) -> bool {
        difference < 0
    }
}

/// How a scan ends, in numbers.
#[derive(Clone, Copy, PartialEq, Eq)]
pub(crate) enum Ended {
    /// At the move of this place, which makes this difference.
    At(u64, i64),
    /// After this many moves.
    Behind(u64),
    /// With the tries.
    Cut,
}

/// Whether a scan with this many tries ends in this way.
pub(crate) fn scans<J: Judge, L: Ledger>(
    closed: Closed<'_>,
    judge: &mut J,
    routes: &Routes,
    tries: u64,
    wanted: Ended,
    steps: &mut Steps<L>,
) -> Result<bool, NoMemory>
    requires judge { CanJudge closed.model.now routes.now (J.model judge.old) (J.committed judge.old) }
{
    let takes = Takes {
        model: closed.model,
    };
    let known = Known::of(closed.model);
    let ended = scan(closed.model, judge, routes, &takes, tries, steps, &known)?;
    let ended = match ended {
        ScanEnd::Accepted {
            place,
            difference,
            ..
        } => Ended::At(place, difference),
        ScanEnd::Complete { length } => Ended::Behind(length),
        ScanEnd::Cut => Ended::Cut,
    };
    Ok(ended == wanted)
}

#[rattlefmt::skip]
static ROWS: [Row; 4] = [
    Row { name: "the first move that makes the cost less, by rebuilding", text: SQUARE, lists: &[&[1, 2, 3]],
        asks: Asks::Judge(By::Rebuilding, Question::Scan(9, Ended::At(1, -4))) },
    Row { name: "the first move that makes the cost less, by filters", text: SQUARE, lists: &[&[1, 2, 3]],
        asks: Asks::Judge(By::Filters, Question::Scan(9, Ended::At(1, -4))) },
    Row { name: "no move does", text: SQUARE, lists: &[&[2, 1, 3]],
        asks: Asks::Judge(By::Filters, Question::Scan(99, Ended::Behind(17))) },
    Row { name: "the tries run out", text: SQUARE, lists: &[&[2, 1, 3]],
        asks: Asks::Judge(By::Filters, Question::Scan(4, Ended::Cut)) },
];

#[test]
fn a_scan_ends_as_it_says(rt: HostRuntime) {
    assert_rows(&rt, rt.alloc(), &ROWS);
}
