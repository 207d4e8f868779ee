//! The search: scan after scan, the best routes kept, and penalties raised when a scan finds nothing.

ghost use Rattle.std.specs.Prelude.{◌≡◌, ◌==◌, ◌||◌, not, ◌≤ℤ◌, pos, IsTrue, IfOk, OnOk, OnErr};
ghost use Rattle.vr_descent.specs.Asking.{AsksFor, AsksOn};
ghost use Rattle.vr_descent.specs.Ending.{CanBegin, HasEnded, HasStopped};
ghost use Rattle.vr_guided.specs.Standing.{AreParameters, IsGuidedBegun, GuidedStands, guided_from_state};
ghost use Rattle.vr_model.specs.search.GuidedSearches.{guided, has_costly_arc};
ghost use Rattle.vr_model.specs.routes.Rules.{is_valid};
ghost use Rattle.vr_model.specs.tables.WellFormed.{IsWellFormed};
ghost use Rattle.vr_routes.specs.Judging.{HasCommitted};
ghost use Rattle.vr_watch.specs.Told.{ReportedInPart};

use crate::costly::has_costly_arc;
use crate::guiding::Guiding;
use crate::penalties::Penalties;
use crate::route_sums::AllRouteSums;
use crate::weights::Weights;
use std::alloc::Global;
use std::sync::ledger::Ledger;
use vr_descent::{Incumbent, Progress, ScanEnd};
use vr_known::Known;
use vr_model::{Closed, End, Kind, Lambda, Limit, Model, NoMemory, Report, Steps};
use vr_routes::{Judge, Routes};
use vr_watch::{Watch, note_all};

/// How guided local search ends.
#[derive(Drop)]
pub struct Guided {
    pub report: Report,
    /// The first routes of the least cost.
    pub best: Routes,
}

/// Takes the first move that makes the augmented cost less, again and again. At each local optimum it penalises the
/// used arcs of the greatest worth (`GUIDED_LOCAL_SEARCH` in OR-Tools). The routes then have the last lists, which the
/// judge has committed; the answer has the first lists of the least cost. `limit` allows up to 10^9 tries and from 1 to
/// 10^9 solutions, and both parts of `lambda` are in 1..=1000.
///
/// The report's end is the first of these that holds:
///
/// - `Solutions` if as many solutions were found as the limit allows;
/// - `Optimum` if a scan of all moves takes none and no penalty could help (there is no move, or no used arc costs
///   anything);
/// - `Tries` if the tries ran out.
///
/// The judge is asked about no more moves than are tried. It is asked at most twice as often what a move, or a run of
/// moves, makes at least.
///
/// It fails only when out of memory. Then the judge has committed the lists of the routes, which are valid. It was
/// asked about no more moves than the limit has tries. The watchers have been told the events up to there: of the event
/// in hand, the first few. Memory is taken once at the beginning, and then by the judge and the watchers alone.
///
/// If no dimension has a cost of its global span, moves that were refused are cached. The moves of a row that a scan
/// refused whole are not asked about again as long as their vehicles stay the same. A vehicle changes with its list, or
/// with the penalty of an arc of it. If moves change activity, the active visits must stay too.
pub fn guide<J: Judge, L: Ledger>(
    alloc: Global,
    model: &Model,
    judge: &mut J,
    routes: &mut Routes,
    first_cost: i64,
    limit: Limit,
    lambda: Lambda,
    watch: &mut Vec<Box<dyn Watch>>,
    steps: &mut Steps<L>,
) -> Result<Guided, NoMemory>
    requires p_from_one { pos 1 ≤ℤ lambda.p }
    requires p_to_1000 { lambda.p ≤ℤ pos 1000 }
    requires q_from_one { pos 1 ≤ℤ lambda.q }
    requires q_to_1000 { lambda.q ≤ℤ pos 1000 }
    requires well_formed { IsWellFormed model.now }
    requires begins { CanBegin model.now routes.old first_cost limit (J.model judge.old) (J.committed judge.old) }
    ensures ended { IfOk result (λ answer. HasEnded (λ w later. after w later) model.now limit
        (guided model.now routes.old.lists limit lambda) routes.old routes.new watch.old.items watch.new.items
        answer.report answer.best) }
    ensures asked { IfOk result (λ answer. AsksFor J.asked J.looked judge.old judge.new answer.report.tries) }

    ensures judge_model { J.model judge.new ≡ model.now }
    ensures holds { HasCommitted model.now (J.committed judge.new) routes.new }
    ensures told_in_part { OnErr result (ReportedInPart (λ w later. after w later) watch.old.items watch.new.items
        (guided model.now routes.old.lists limit lambda).events) }
    ensures asked_at_most { OnErr result (AsksFor J.asked J.looked judge.old judge.new limit.tries) }
{
    let closed = Closed { model };
    let at = Progress {
        used: 0,
        found: 1,
        cost: first_cost,
    };
    note_all(watch, at.event(Kind::First))?;
    let mut state = State::open(alloc, closed, routes, at)?;
    let parameters = Parameters { limit, lambda };
    let end = search(closed, judge, routes, parameters, &mut state, watch, steps)?;
    Ok(Guided {
        report: state.at.report(end),
        best: state.best.routes,
    })
}

/// The state of guided search.
#[derive(Drop)]
struct State {
    at: Progress,
    best: Incumbent,
    penalties: Penalties,
    route_sums: AllRouteSums,
}

impl State {
    // At the beginning these routes are the best, and no arc was penalised; the sums are of no list until `search`
    // writes them. The routes are copied last, so that they are not to be let go if memory runs out.
    fn open(
        alloc: Global,
        closed: Closed<'_>,
        routes: &Routes,
        at: Progress,
    ) -> Result<State, NoMemory>
        ensures { IfOk result (IsGuidedBegun closed.entry.model.now routes.now at) }
    {
        let penalties = Penalties::new(alloc, closed.model.nodes)?;
        let route_sums = AllRouteSums::new(alloc, closed.model)?;
        let best = Incumbent {
            routes: routes.copy(alloc)?,
            cost: at.cost,
        };
        Ok(State {
            at,
            best,
            penalties,
            route_sums,
        })
    }
}

// How far guided search may go, and what penalised costs weigh beside others.
#[derive(Clone, Copy)]
struct Parameters {
    limit: Limit,
    lambda: Lambda,
}

// Searches on from its state, and says why it ended. If a scan takes no move and a penalty can help, penalties rise,
// which the watchers are told as a round.
fn search<J: Judge, L: Ledger>(
    closed: Closed<'_>,
    judge: &mut J,
    routes: &mut Routes,
    parameters: Parameters,
    state: &mut State,
    watch: &mut Vec<Box<dyn Watch>>,
    steps: &mut Steps<L>,
) -> Result<End, NoMemory>
    requires judge_model { J.model judge.old ≡ closed.model.now }
    requires parameters { AreParameters parameters.limit parameters.lambda }
    requires stands { GuidedStands closed.model.now parameters.limit (J.committed judge.old) routes.old state.old }
    ensures stopped { IfOk result (HasStopped (λ w later. after w later)
        (guided_from_state closed.entry.model.now parameters.limit parameters.lambda routes.old.lists state.old)
        routes.new.lists state.new.at state.new.best watch.old.items watch.new.items) }
    ensures asked { OnOk result (AsksOn J.asked J.looked judge.old judge.new state.old.at.used state.new.at.used) }
    ensures stands { OnOk result (GuidedStands closed.entry.model.now parameters.limit
        (J.committed judge.new) routes.new state.new) }
    ensures no_dearer { OnOk result (state.new.best.cost ≤ℤ state.old.best.cost) }

    ensures judge_model { J.model judge.new ≡ closed.entry.model.now }
    ensures holds { HasCommitted closed.entry.model.now (J.committed judge.new) routes.new }
    ensures told_in_part { OnErr result (ReportedInPart (λ w later. after w later) watch.old.items watch.new.items
        (guided_from_state closed.entry.model.now parameters.limit parameters.lambda routes.old.lists
        state.old).events) }
    ensures asked_at_most { OnErr result (AsksOn J.asked J.looked judge.old judge.new state.old.at.used
        parameters.limit.tries) }
{
    let mut known = Known::of(closed.model);
    let penalties = &state.penalties;
    let before = Weights { closed, penalties };
    state.route_sums.write(before, routes);
    'scans: while state.at.found != parameters.limit.solutions {
        let penalties = &state.penalties;
        let weights = Weights { closed, penalties };
        let guiding = Guiding {
            weights,
            lambda: parameters.lambda,
            route_sums: &state.route_sums,
        };
        let model = closed.model;
        let limit = parameters.limit;
        let ended = state.at.advance(
            model, judge, routes, &guiding, limit, watch, steps, &mut known,
        )?;
        match ended {
            ScanEnd::Accepted { mv, .. } => {
                state.route_sums.follow(weights, routes, mv);
                state.best.offer(routes, &state.at);
            }
            ScanEnd::Complete { length } => {
                if is_stuck(closed, routes, length) {
                    return Ok(End::Optimum);
                }
                state.penalties.raise(closed, routes, &mut known);
                let penalties = &state.penalties;
                let raised = Weights { closed, penalties };
                state.route_sums.write(raised, routes);
                note_all(watch, state.at.event(Kind::Round))?;
            }
            ScanEnd::Cut => return Ok(End::Tries),
        }
    }
    Ok(End::Solutions)
}

// Whether no penalty can help, after a scan of this many moves that took none of them.
fn is_stuck(closed: Closed<'_>, routes: &Routes, moves: u64) -> bool
    requires { IsTrue (is_valid closed.model.now routes.now.lists) }
    ensures { result ≡ ((moves == 0) || not (has_costly_arc closed.entry.model.now routes.now.lists)) }
{
    moves == 0 || !has_costly_arc(closed, routes)
}
