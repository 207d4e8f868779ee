//! What a descent leaves if a watcher runs out of memory in its midst.

ghost use Rattle.vr_descent.specs.Refused.{CanJudge};

use crate::judge_questions::{By, Question};
use crate::models::OPTIONAL;
use crate::questions::{Asks, Row, assert_rows};
use crate::searches::{FAR, has_list};
use std::alloc::Global;
use std::sync::ledger::Ledger;
use vr_descent::descend;
use vr_model::{Closed, NoMemory, Steps};
use vr_routes::{Judge, Routes};
use vr_rules::total;
use vr_watch::{Stopper, Trace, Watch};

// Whether a descent is out of memory.
fn is_stopped<J: Judge, L: Ledger>(
    alloc: Global,
    closed: Closed<'_>,
    judge: &mut J,
    routes: &mut Routes,
    watch: &mut Vec<Box<dyn Watch>>,
    steps: &mut Steps<L>,
) -> Result<bool, NoMemory>
    requires judge { CanJudge closed.model.now routes.old (J.model judge.old) (J.committed judge.old) }
{
    let cost = total(alloc, closed.model, routes)?;
    Ok(descend(closed.model, judge, routes, cost, FAR, watch, steps).is_err())
}

// Writes the reports of watchers, with a stroke after each.
fn write_reports(watch: &[Box<dyn Watch>], reports: &mut Vec<u8>) -> Result<(), NoMemory> {
    for watcher in watch {
        reports.extend_from_slice(watcher.report()?.as_slice())?;
        reports.push(b'|')?;
    }
    Ok(())
}

// Whether these are the reports of watchers.
fn have_told(alloc: Global, watch: &[Box<dyn Watch>], wanted: &[u8]) -> Result<bool, NoMemory> {
    let mut reports = Vec::new(alloc);
    write_reports(watch, &mut reports)?;
    Ok(reports.as_slice() == wanted)
}

/// A watcher that takes one event is between two others. Whether the move that is found then is committed, and told to
/// the first of them alone.
pub(crate) fn ends_between_watchers<J: Judge, L: Ledger>(
    alloc: Global,
    closed: Closed<'_>,
    judge: &mut J,
    routes: &mut Routes,
    steps: &mut Steps<L>,
) -> Result<bool, NoMemory>
    requires judge { CanJudge closed.model.now routes.old (J.model judge.old) (J.committed judge.old) }
{
    let mut watch: Vec<Box<dyn Watch>> = Vec::new(alloc);
    watch.push(Box::new(alloc, Trace::new(alloc))?)?;
    watch.push(Box::new(alloc, Stopper::new(alloc, 1))?)?;
    watch.push(Box::new(alloc, Trace::new(alloc))?)?;
    let stopped = is_stopped(alloc, closed, judge, routes, &mut watch, steps)?;
    let told = have_told(alloc, &watch, b"0 first 18\n6 move 13\n||0 first 18\n|")?;
    Ok(stopped && told && has_list(routes, &[1]))
}

#[rattlefmt::skip]
static ROWS: [Row; 2] = [
    Row { name: "a watcher that takes one event, by rebuilding", text: OPTIONAL, lists: &[&[1, 2]],
        asks: Asks::Judge(By::Rebuilding, Question::Stopper) },
    Row { name: "a watcher that takes one event, by filters", text: OPTIONAL, lists: &[&[1, 2]],
        asks: Asks::Judge(By::Filters, Question::Stopper) },
];

#[test]
fn a_watcher_that_refuses_ends_the_descent(rt: HostRuntime) {
    assert_rows(&rt, rt.alloc(), &ROWS);
}
