//! Greedy descent.

ghost use Rattle.std.specs.Prelude.{◌≡◌, false, int_lt, pos, Some, IfOk, IfSome, OnErr};
ghost use Rattle.vr_descent.specs.Asking.{AsksFor};
ghost use Rattle.vr_descent.specs.Ending.{CanBegin, HasEnded};
ghost use Rattle.vr_descent.specs.Scanned.{takes_less, IsEnough, IsPassedOver};
ghost use Rattle.vr_model.specs.search.Descents.{descent};
ghost use Rattle.vr_model.specs.tables.WellFormed.{IsWellFormed};
ghost use Rattle.vr_routes.specs.Judging.{HasCommitted};
ghost use Rattle.vr_watch.specs.Told.{ReportedInPart};

use crate::{Accept, Progress, ScanEnd};
use std::sync::ledger::Ledger;
use vr_known::Known;
use vr_model::{End, Kind, Limit, Model, Move, NoMemory, Report, Steps};
use vr_routes::{Change, Judge, Routes};
use vr_watch::{Watch, note_all};

// Takes each move that makes the cost less.
#[derive(Clone, Copy)]
struct Cheaper<'m> {
    model: &'m Model,
}

impl<'m> Accept for Cheaper<'m> {
    ghost model = { λ s. s.model.now };

    ghost stands_at = { λ s lists. Unit {0} };

    ghost takes = { λ s. takes_less };

    #[inline]
    fn accepts(&self, _routes: &Routes, _mv: Move, difference: i64) -> bool {
        difference < 0
    }

    #[inline(always)]
    fn open_below(&self, _routes: &Routes, _mv: Move) -> Option<i64>
        ensures enough { IfSome result (IsEnough self.now.model.now takes_less _routes.now.lists _mv) }
        ensures exact { result ≡ Some (pos 0) }
    {
        Some(0)
    }

    #[inline]
    fn may_accept(&self, _routes: &Routes, _mv: Move, _change: &Change, least: i64) -> bool
        ensures passed { result ≡ false → IsPassedOver self.now.model.now takes_less _routes.now.lists _mv least }
        ensures exact { result ≡ int_lt least (pos 0) }
    {
        least < 0
    }
}

/// Takes the first move that makes the cost less, again and again (`GREEDY_DESCENT` in OR-Tools). Watchers are told the
/// first solution and each move. The routes then have the last lists, which are the best, and the judge has committed
/// them. `limit` allows up to 10^9 tries and from 1 to 10^9 solutions.
///
/// The report's end is the first of these that holds:
///
/// - `Solutions` if as many solutions were found as the limit allows;
/// - `Optimum` if no move of the last lists makes the cost less;
/// - `Tries` if the tries ran out before that was known.
///
/// The judge is asked about no more moves than are tried. It is asked at most twice as often what a move, or a run of
/// moves, makes at least.
///
/// It fails only when out of memory. Then the judge has committed the lists of the routes, which are valid. It was
/// asked about no more moves than the limit has tries. The watchers have been told the events up to there: of the event
/// in hand, the first few. Memory is taken by the judge and the watchers alone.
///
/// If no dimension has a cost of its global span, moves that were refused are cached. The moves of a row that a scan
/// refused whole are not asked about again as long as the lists of their vehicles stay. If they change activity, the
/// active visits must stay too.
pub fn descend<J: Judge, L: Ledger>(
    model: &Model,
    judge: &mut J,
    routes: &mut Routes,
    first_cost: i64,
    limit: Limit,
    watch: &mut Vec<Box<dyn Watch>>,
    steps: &mut Steps<L>,
) -> Result<Report, NoMemory>
    requires well_formed { IsWellFormed model.now }
    requires begins { CanBegin model.now routes.old first_cost limit (J.model judge.old) (J.committed judge.old) }
    ensures ended { IfOk result (λ report. HasEnded (λ w later. after w later) model.now limit
        (descent model.now routes.old.lists limit) routes.old routes.new watch.old.items watch.new.items report
        routes.new) }
    ensures asked { IfOk result (λ report. AsksFor J.asked J.looked judge.old judge.new report.tries) }

    ensures judge_model { J.model judge.new ≡ model.now }
    ensures holds { HasCommitted model.now (J.committed judge.new) routes.new }
    ensures told_in_part { OnErr result (ReportedInPart (λ w later. after w later) watch.old.items watch.new.items
        (descent model.now routes.old.lists limit).events) }
    ensures asked_at_most { OnErr result (AsksFor J.asked J.looked judge.old judge.new limit.tries) }
{
    let cheaper = Cheaper { model };
    let mut known = Known::of(model);
    let mut at = Progress {
        used: 0,
        found: 1,
        cost: first_cost,
    };
    note_all(watch, at.event(Kind::First))?;
    'scans: while at.found != limit.solutions {
        let ended = at.advance(
            model, judge, routes, &cheaper, limit, watch, steps, &mut known,
        )?;
        match ended {
            ScanEnd::Accepted { .. } => {}
            ScanEnd::Complete { .. } => return Ok(at.report(End::Optimum)),
            ScanEnd::Cut => return Ok(at.report(End::Tries)),
        }
    }
    Ok(at.report(End::Solutions))
}
