//! The improvement of a first solution.

ghost use Rattle.std.specs.Prelude.{◌≡◌, ◌≤◌, ◌≤ℤ◌, pos, IfOk, IsTrue};
ghost use Rattle.vr_model.specs.routes.Rules.{is_valid};
ghost use Rattle.vr_model.specs.tables.Tables.{visits};
ghost use Rattle.vr_app.specs.Endings.{CanImprove, IsImproved};
ghost use Rattle.vr_app.specs.Improved as how;

use crate::best::{Best, untried};
use std::alloc::Global;
use std::sync::ledger::Ledger;
use vr_descent::descend;
use vr_guided::guide;
use vr_lns::{Rebuild, lns_over};
use vr_model::{Closed, Improve, Lambda, Limit, NoMemory, Steps};
use vr_plan::Lookups;
use vr_routes::{Judge, Routes};
use vr_tabu::tabu;
use vr_watch::Watch;

/// Who is told of the events of a search.
pub type Watchers = Vec<Box<dyn Watch>>;

/// The routes that a search begins with.
#[derive(Drop)]
pub struct FirstSolution {
    /// Routes of valid lists.
    pub routes: Routes,
    /// What they cost. Path neighbourhoods find it anew.
    pub cost: i64,
}

/// How many tries and solutions a model allows.
pub fn limit_of(closed: Closed<'_>) -> Limit
    ensures limit { result ≡ how.limit_of closed.entry.model.now }
    ensures tries { result.tries ≤ 1000000000 }
    ensures one_solution { 1 ≤ result.solutions }
    ensures solutions { result.solutions ≤ 1000000000 }
{
    Limit {
        tries: closed.model.search.tries,
        solutions: closed.model.search.solutions,
    }
}

// How much penalised arcs weigh.
fn lambda_of(closed: Closed<'_>) -> Lambda
    ensures lambda { result ≡ how.lambda_of closed.entry.model.now }
    ensures p_from_one { pos 1 ≤ℤ result.p }
    ensures p_to_1000 { result.p ≤ℤ pos 1000 }
    ensures q_from_one { pos 1 ≤ℤ result.q }
    ensures q_to_1000 { result.q ≤ℤ pos 1000 }
{
    Lambda {
        p: closed.model.search.p,
        q: closed.model.search.q,
    }
}

// How many visits the chain of a cut has at most.
fn cut_of(closed: Closed<'_>) -> u32
    ensures cut { result ≡ closed.entry.model.now.search.cut }
    ensures one { 1 ≤ result }
    ensures few { result ≤ 100 }
{
    closed.model.search.cut
}

// For how many rounds a changed visit is tabu.
fn tenure_of(closed: Closed<'_>) -> u32
    ensures tenure { result ≡ closed.entry.model.now.search.tenure }
    ensures one { 1 ≤ result }
    ensures few { result ≤ 1000 }
{
    closed.model.search.tenure
}

// Greedy descent from the first solution. The last lists are the best, since each move costs less.
fn descend_from<J: Judge, L: Ledger>(
    closed: Closed<'_>,
    judge: &mut J,
    first: FirstSolution,
    watch: &mut Watchers,
    steps: &mut Steps<L>,
) -> Result<Best, NoMemory>
    requires { CanImprove closed.model.now first (J.model judge.old) (J.committed judge.old) }
    ensures { let outcome = how.improved Improve.GreedyDescent closed.entry.model.now first.routes.lists in
        IfOk result (IsImproved (λ w later. after w later) first.routes.visits outcome
        watch.old.items watch.new.items) }
{
    let limit = limit_of(closed);
    let FirstSolution { mut routes, cost } = first;
    let report = descend(closed.model, judge, &mut routes, cost, limit, watch, steps)?;
    Ok(Best { routes, report })
}

// Guided local search from the first solution.
fn guide_from<J: Judge, L: Ledger>(
    alloc: Global,
    closed: Closed<'_>,
    judge: &mut J,
    first: FirstSolution,
    watch: &mut Watchers,
    steps: &mut Steps<L>,
) -> Result<Best, NoMemory>
    requires { CanImprove closed.model.now first (J.model judge.old) (J.committed judge.old) }
    ensures { let outcome = how.improved Improve.GuidedLocalSearch closed.entry.model.now first.routes.lists in
        IfOk result (IsImproved (λ w later. after w later) first.routes.visits outcome
        watch.old.items watch.new.items) }
{
    let limit = limit_of(closed);
    let lambda = lambda_of(closed);
    let FirstSolution { mut routes, cost } = first;
    let guided = guide(
        alloc,
        closed.model,
        judge,
        &mut routes,
        cost,
        limit,
        lambda,
        watch,
        steps,
    )?;
    Ok(Best {
        routes: guided.best,
        report: guided.report,
    })
}

// Tabu search from the first solution.
fn tabu_from<J: Judge, L: Ledger>(
    alloc: Global,
    closed: Closed<'_>,
    judge: &mut J,
    first: FirstSolution,
    watch: &mut Watchers,
    steps: &mut Steps<L>,
) -> Result<Best, NoMemory>
    requires { CanImprove closed.model.now first (J.model judge.old) (J.committed judge.old) }
    ensures { let outcome = how.improved Improve.TabuSearch closed.entry.model.now first.routes.lists in
        IfOk result (IsImproved (λ w later. after w later) first.routes.visits outcome
        watch.old.items watch.new.items) }
{
    let limit = limit_of(closed);
    let tenure = tenure_of(closed);
    let FirstSolution { mut routes, cost } = first;
    let answer = tabu(
        alloc,
        closed.model,
        judge,
        &mut routes,
        cost,
        limit,
        tenure,
        watch,
        steps,
    )?;
    Ok(Best {
        routes: answer.best,
        report: answer.report,
    })
}

// Path neighbourhoods from the first solution. The last lists are the best, since a cut is kept only if they cost less.
fn rebuild_from<R: Rebuild>(
    alloc: Global,
    lookups: &Lookups<'_>,
    rebuild: &mut R,
    first: FirstSolution,
    watch: &mut Watchers,
) -> Result<Best, NoMemory>
    requires of_model { first.routes.visits ≡ visits lookups.now.closed.model.now }
    requires valid { IsTrue (is_valid lookups.now.closed.model.now first.routes.lists) }
    ensures { let outcome = how.improved Improve.PathLns lookups.now.closed.model.now first.routes.lists in
        IfOk result (IsImproved (λ w later. after w later) first.routes.visits outcome
        watch.old.items watch.new.items) }
{
    let limit = limit_of(lookups.closed);
    let cut = cut_of(lookups.closed);
    let FirstSolution {
        mut routes,
        cost: _,
    } = first;
    let report = lns_over(alloc, lookups, rebuild, &mut routes, limit, cut, watch)?;
    Ok(Best { routes, report })
}

/// Improves the first solution of a model by the search that the model names. This is
/// `RoutingModel::SolveFromAssignmentWithParameters` in OR-Tools, by `local_search_metaheuristic`. It works by a judge
/// that has committed the first solution, or by what rebuilds open routes. The watchers are told of each event.
///
/// `NoMemory` if out of memory, also if a watcher is.
pub fn improve<J: Judge, R: Rebuild, L: Ledger>(
    alloc: Global,
    lookups: &Lookups<'_>,
    judge: &mut J,
    rebuild: &mut R,
    first: FirstSolution,
    watch: &mut Watchers,
    steps: &mut Steps<L>,
) -> Result<Best, NoMemory>
    requires { CanImprove lookups.now.closed.model.now first (J.model judge.old) (J.committed judge.old) }
    ensures { let model = lookups.now.closed.model.now in
        let outcome = how.improved model.search.improve model first.routes.lists in
        IfOk result (IsImproved (λ w later. after w later) first.routes.visits outcome
        watch.old.items watch.new.items) }
{
    let closed = lookups.closed;
    match closed.model.search.improve {
        Improve::None => Ok(untried(first.routes)),
        Improve::GreedyDescent => descend_from(closed, judge, first, watch, steps),
        Improve::GuidedLocalSearch => guide_from(alloc, closed, judge, first, watch, steps),
        Improve::PathLns => rebuild_from(alloc, lookups, rebuild, first, watch),
        Improve::TabuSearch => tabu_from(alloc, closed, judge, first, watch, steps),
    }
}
