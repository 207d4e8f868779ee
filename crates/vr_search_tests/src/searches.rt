//! Whole searches by both judges, which must find the same, and how often they ask a judge. It judges no more often
//! than moves are tried, and less often if a lower bound of a move rules it out. It is asked for such bounds at most
//! twice a try. Of tabu search the tests also say which moves it makes, passes over and ends at.

ghost use Rattle.std.specs.Prelude.{IfOk};
ghost use Rattle.vr_descent.specs.Asking.{AsksFor};
ghost use Rattle.vr_descent.specs.Refused.{CanJudge};

use crate::judge_questions::{By, Counting, Question};
use crate::models::{DAY, DETOUR, PAID_SQUARE, SHORTCUT, SPAN_SQUARE, SQUARE, THREE};
use crate::questions::{Asks, Row, assert_rows};
use std::alloc::Global;
use std::sync::ledger::Ledger;
use vr_descent::descend;
use vr_guided::guide;
use vr_model::{Closed, End, Lambda, Limit, NoMemory, Report, Steps};
use vr_routes::{Judge, Routes};
use vr_rules::total;
use vr_tabu::tabu;
use vr_watch::Watch;

// Which search asks.
#[derive(Clone, Copy)]
enum Search {
    Descent,
    Guided,
    // By this tenure; and the list of the first vehicle in the routes of the least cost.
    Tabu(u32, &'static [u32]),
}

/// How a search ends.
#[derive(Clone, Copy)]
pub(crate) struct Wanted {
    pub(crate) tries: u64,
    pub(crate) solutions: u64,
    pub(crate) end: End,
    /// The last list of the first vehicle.
    pub(crate) list: &'static [u32],
}

/// A search, how far it may go, and how it ends.
#[derive(Clone, Copy)]
pub(crate) struct Sought {
    search: Search,
    limit: Limit,
    wanted: Wanted,
}

/// As far as a search may go here.
pub(crate) const FAR: Limit = Limit {
    tries: 1000,
    solutions: 100,
};

// How a search went, and whether the best routes that it hands out, if it does, have the list that is wanted.
#[derive(Clone, Copy)]
struct Found {
    report: Report,
    has_best: bool,
}

// What a search by a judge finds.
fn found_by<J: Judge, L: Ledger>(
    alloc: Global,
    closed: Closed<'_>,
    judge: &mut J,
    routes: &mut Routes,
    search: Search,
    limit: Limit,
    steps: &mut Steps<L>,
) -> Result<Found, NoMemory>
    requires judge { CanJudge closed.model.now routes.old (J.model judge.old) (J.committed judge.old) }
    ensures { IfOk result (λ found. AsksFor J.asked J.looked judge.old judge.new found.report.tries) }
{
    let limit = Limit {
        tries: limit.tries.min(1000),
        solutions: limit.solutions.clamp(1, 100),
    };
    let model = closed.model;
    let cost = total(alloc, model, routes)?;
    let mut none: Vec<Box<dyn Watch>> = Vec::new(alloc);
    match search {
        Search::Descent => {
            let report = descend(model, judge, routes, cost, limit, &mut none, steps)?;
            Ok(Found {
                report,
                has_best: true,
            })
        }
        Search::Guided => {
            let lambda = Lambda { p: 1, q: 10 };
            let guided = guide(
                alloc, model, judge, routes, cost, limit, lambda, &mut none, steps,
            )?;
            Ok(Found {
                report: guided.report,
                has_best: true,
            })
        }
        Search::Tabu(tenure, best) => {
            let tenure = tenure.clamp(1, 100);
            let answer = tabu(
                alloc, model, judge, routes, cost, limit, tenure, &mut none, steps,
            )?;
            Ok(Found {
                report: answer.report,
                has_best: has_list(&answer.best, best),
            })
        }
    }
}

// Whether a judge is asked this often in this many tries. By rebuilding, which has no bounds, a descent judges each
// move that it tries. For no move is known to be refused here: a commit changes the one list that there is, or spans of
// all vehicles cost something. Guided and tabu search rule some out themselves. By filters fewer are judged than tried.
fn is_asked_enough(by: By, search: Search, asked: u64, tries: u64) -> bool {
    match (by, search) {
        (By::Rebuilding, Search::Descent) => asked == tries,
        (By::Rebuilding, _) => asked > 0 && asked <= tries,
        (By::Filters, _) => asked > 0 && asked < tries,
    }
}

// Whether a judge is asked what moves make at least, and at most twice a try.
fn is_looked_enough(looked: u64, tries: u64) -> bool {
    looked > 0 && looked <= tries.saturating_mul(2)
}

/// Whether this is the list of the first vehicle.
pub(crate) fn has_list(routes: &Routes, list: &[u32]) -> bool {
    routes.vehicles() > 0 && routes.list(0) == list
}

// Whether two searches end for the same cause.
fn is_same_end(one: End, other: End) -> bool {
    match (one, other) {
        (End::Optimum, End::Optimum) => true,
        (End::Tries, End::Tries) => true,
        (End::Solutions, End::Solutions) => true,
        _ => false,
    }
}

/// Whether a search that left these routes ended as it should.
pub(crate) fn ends_so(routes: &Routes, report: &Report, wanted: &Wanted) -> bool {
    report.tries == wanted.tries
        && report.solutions == wanted.solutions
        && is_same_end(report.end, wanted.end)
        && has_list(routes, wanted.list)
}

/// Whether a search by a judge from the routes it is in sync with finds what is wanted, and asks as often as it should.
pub(crate) fn finds<J: Judge, L: Ledger>(
    alloc: Global,
    closed: Closed<'_>,
    counting: &mut Counting<J>,
    by: By,
    routes: &mut Routes,
    sought: &Sought,
    steps: &mut Steps<L>,
) -> Result<bool, NoMemory>
    requires judge { CanJudge closed.model.now routes.old (J.model counting.old.judge)
        (J.committed counting.old.judge) }
{
    let found = found_by(
        alloc,
        closed,
        counting,
        routes,
        sought.search,
        sought.limit,
        steps,
    )?;
    let tries = found.report.tries;
    Ok(
        is_asked_enough(by, sought.search, counting.count, tries)
            && is_looked_enough(counting.looks, tries)
            && found.has_best
            && ends_so(routes, &found.report, &sought.wanted),
    )
}

// A list that crosses a square.
const CROSSING: &[&[u32]] = &[&[1, 2, 3]];

// A descent uncrosses it.
#[rattlefmt::skip]
static UNCROSSED: Sought = Sought { search: Search::Descent, limit: FAR,
    wanted: Wanted { tries: 18, solutions: 2, end: End::Optimum, list: &[2, 1, 3] } };

// Guided search goes on until its tries run out.
#[rattlefmt::skip]
static TURNED_AGAIN: Sought = Sought { search: Search::Guided, limit: FAR,
    wanted: Wanted { tries: 1000, solutions: 67, end: End::Tries, list: &[1, 2, 3] } };

// Lists of two vehicles.
const PLANNED: &[&[u32]] = &[&[6, 3, 7], &[4, 5, 1, 2]];

#[rattlefmt::skip]
static PLANNED_BETTER: Sought = Sought { search: Search::Descent, limit: FAR,
    wanted: Wanted { tries: 332, solutions: 6, end: End::Optimum, list: &[3, 6, 1, 2] } };

#[rattlefmt::skip]
static PLANNED_AGAIN: Sought = Sought { search: Search::Guided, limit: FAR,
    wanted: Wanted { tries: 1000, solutions: 8, end: End::Tries, list: &[3, 6, 1, 2] } };

// Lists that tabu search begins with: two visits, and three.
const BOTH: &[&[u32]] = &[&[1, 2]];

const ALL: &[&[u32]] = &[&[1, 2, 3]];

// The list is turned, which costs as much. Each move back changes only visits that are tabu then.
#[rattlefmt::skip]
static TURNED: Sought = Sought { search: Search::Tabu(10, &[1, 2]), limit: FAR,
    wanted: Wanted { tries: 12, solutions: 2, end: End::Optimum, list: &[2, 1] } };

// Costs of 26, 18 and 14. In the first round two moves lead to 18, and the first of them is made. The second one's move
// changes tabu visits alone, but costs less than any before.
#[rattlefmt::skip]
static LED_ON: Sought = Sought { search: Search::Tabu(1, &[3, 1, 2]), limit: FAR,
    wanted: Wanted { tries: 9, solutions: 3, end: End::Optimum, list: &[3, 1, 2] } };

// Costs of 12, 14, 11 and 22: the best lists are not the last ones.
#[rattlefmt::skip]
static UPHILL: Sought = Sought { search: Search::Tabu(1, &[3, 1, 2]), limit: FAR,
    wanted: Wanted { tries: 12, solutions: 4, end: End::Optimum, list: &[1, 3, 2] } };

// If visits are tabu for one round longer, the third round has no move that may be made.
#[rattlefmt::skip]
static LONGER_TABU: Sought = Sought { search: Search::Tabu(2, &[3, 1, 2]), limit: FAR,
    wanted: Wanted { tries: 9, solutions: 3, end: End::Optimum, list: &[3, 1, 2] } };

// The third round has three moves, and two tries are left.
#[rattlefmt::skip]
static CUT_SHORT: Sought = Sought { search: Search::Tabu(1, &[3, 1, 2]), limit: Limit { tries: 8, solutions: 100 },
    wanted: Wanted { tries: 8, solutions: 3, end: End::Tries, list: &[3, 1, 2] } };

// The second solution costs more than the first.
#[rattlefmt::skip]
static ENOUGH: Sought = Sought { search: Search::Tabu(1, &[1, 2, 3]), limit: Limit { tries: 1000, solutions: 2 },
    wanted: Wanted { tries: 3, solutions: 2, end: End::Solutions, list: &[3, 2, 1] } };

// What a row asks of a search.
fn asks_of(by: By, search: &'static Sought) -> Asks {
    Asks::Judge(by, Question::Search(search))
}

// What searches by a judge find.
#[rattlefmt::skip]
fn rows(by: By) -> [Row; 13] {
    let uncrossed = asks_of(by, &UNCROSSED);
    let again = asks_of(by, &TURNED_AGAIN);
    [
        Row { name: "arcs alone, descent", text: SQUARE, lists: CROSSING, asks: uncrossed },
        Row { name: "arcs alone, guided", text: SQUARE, lists: CROSSING, asks: again },
        Row { name: "a fixed cost, descent", text: PAID_SQUARE, lists: CROSSING, asks: uncrossed },
        Row { name: "a fixed cost, guided", text: PAID_SQUARE, lists: CROSSING, asks: again },
        Row { name: "spans alone, descent", text: SPAN_SQUARE, lists: CROSSING, asks: uncrossed },
        Row { name: "a day, descent", text: DAY, lists: PLANNED, asks: asks_of(by, &PLANNED_BETTER) },
        Row { name: "a day, guided", text: DAY, lists: PLANNED, asks: asks_of(by, &PLANNED_AGAIN) },
        Row { name: "all moves back are tabu", text: THREE, lists: BOTH, asks: asks_of(by, &TURNED) },
        Row { name: "a tie, and a tabu move that costs least", text: SHORTCUT, lists: ALL, asks: asks_of(by, &LED_ON) },
        Row { name: "tabu search, by moves that cost more", text: DETOUR, lists: ALL, asks: asks_of(by, &UPHILL) },
        Row { name: "tabu for two rounds", text: DETOUR, lists: ALL, asks: asks_of(by, &LONGER_TABU) },
        Row { name: "tabu search of more moves than tries", text: DETOUR, lists: ALL, asks: asks_of(by, &CUT_SHORT) },
        Row { name: "tabu search of enough solutions", text: DETOUR, lists: ALL, asks: asks_of(by, &ENOUGH) },
    ]
}

#[test]
fn searches_by_rebuilding_find(rt: HostRuntime) {
    assert_rows(&rt, rt.alloc(), &rows(By::Rebuilding));
}

#[test]
fn searches_by_filters_find_the_same(rt: HostRuntime) {
    assert_rows(&rt, rt.alloc(), &rows(By::Filters));
}
