//! The search by cuts.

ghost use Rattle.std.specs.Prelude.{◌≡◌, ◌+◌, ◌≤◌, IsTrue, IfOk, OnErr};
ghost use Rattle.vr_descent.specs.Ending.{HasEnded, IsSearchLimit};
ghost use Rattle.vr_lns.specs.Ending.{SearchEndsAs};
ghost use Rattle.vr_lns.specs.PathLns.{path_lns};
ghost use Rattle.vr_model.specs.routes.Rules.{is_valid};
ghost use Rattle.vr_model.specs.tables.Tables.{visits};
ghost use Rattle.vr_model.specs.tables.WellFormed.{IsWellFormed};
ghost use Rattle.vr_watch.specs.Told.{ReportedInPart};

use crate::Rebuild;
use crate::cutting::Cutting;
use crate::rounds::RoundEnd;
use crate::standing::advance;
use std::alloc::Global;
use vr_descent::Progress;
use vr_model::{Closed, End, Kind, Limit, Model, NoMemory, Report};
use vr_plan::Lookups;
use vr_routes::Routes;
use vr_watch::{Watch, note_all};

/// Makes the first cut whose result costs less, again and again. It tells the watchers of the first solution and of
/// each cut that it makes. A cut takes a chain of at most `cut` visits out of a list, and with each of them the other
/// node of its pair; `cut` is in 1..=100. Its result is what is left, rebuilt, if that is open. The routes then hold
/// the last lists, which are the best.
///
/// `limit` allows up to 10^9 tries, which are cuts, and from 1 to 10^9 solutions. Tests ask this one; `vr_app` has the
/// model looked up, and calls [`lns_over`].
///
/// The report's end is the first of these that holds:
///
/// - `Solutions` if as many solutions were found as the limit allows;
/// - `Optimum` if no cut of the last lists gives valid lists that cost less;
/// - `Tries` if the tries ran out before that was known.
///
/// The only refusal is want of memory. The routes then hold valid lists, and no more was rebuilt than the limit has
/// tries. The watchers have been told the events up to there; the first few of them may know the event in hand too.
pub fn lns<R: Rebuild>(
    alloc: Global,
    model: &Model,
    rebuild: &mut R,
    routes: &mut Routes,
    limit: Limit,
    cut: u32,
    watch: &mut Vec<Box<dyn Watch>>,
) -> Result<Report, NoMemory>
    requires well_formed { IsWellFormed model.now }
    requires of_model { routes.old.visits ≡ visits model.now }
    requires valid { IsTrue (is_valid model.now routes.old.lists) }
    requires limit { IsSearchLimit limit }
    requires one_visit { 1 ≤ cut }
    requires few_visits { cut ≤ 100 }
    ensures ended { IfOk result (λ report. HasEnded (λ w later. after w later) model.now limit
        (path_lns model.now routes.old.lists limit cut) routes.old routes.new watch.old.items watch.new.items report
        routes.new) }
    ensures made { IfOk result (λ report. R.made rebuild.new ≤ R.made rebuild.old + report.tries) }

    ensures of_model { routes.new.visits ≡ routes.old.visits }
    ensures valid { IsTrue (is_valid model.now routes.new.lists) }
    ensures told_in_part { OnErr result (ReportedInPart (λ w later. after w later) watch.old.items watch.new.items
        (path_lns model.now routes.old.lists limit cut).events) }
    ensures made_at_most { OnErr result (R.made rebuild.new ≤ R.made rebuild.old + limit.tries) }
{
    let lookups = Lookups::open(alloc, Closed { model })?;
    lns_over(alloc, &lookups, rebuild, routes, limit, cut, watch)
}

/// The search, as `lns` makes it, over what was looked up of the model.
pub fn lns_over<R: Rebuild>(
    alloc: Global,
    lookups: &Lookups<'_>,
    rebuild: &mut R,
    routes: &mut Routes,
    limit: Limit,
    cut: u32,
    watch: &mut Vec<Box<dyn Watch>>,
) -> Result<Report, NoMemory>
    requires of_model { routes.old.visits ≡ visits lookups.now.closed.model.now }
    requires valid { IsTrue (is_valid lookups.now.closed.model.now routes.old.lists) }
    requires limit { IsSearchLimit limit }
    requires one_visit { 1 ≤ cut }
    requires few_visits { cut ≤ 100 }
    ensures ended { IfOk result (λ report. HasEnded (λ w later. after w later) lookups.now.closed.model.now limit
        (path_lns lookups.now.closed.model.now routes.old.lists limit cut) routes.old routes.new watch.old.items
        watch.new.items report routes.new) }
    ensures made { IfOk result (λ report. R.made rebuild.new ≤ R.made rebuild.old + report.tries) }

    ensures of_model { routes.new.visits ≡ routes.old.visits }
    ensures valid { IsTrue (is_valid lookups.now.closed.model.now routes.new.lists) }
    ensures told_in_part { OnErr result (ReportedInPart (λ w later. after w later) watch.old.items watch.new.items
        (path_lns lookups.now.closed.model.now routes.old.lists limit cut).events) }
    ensures made_at_most { OnErr result (R.made rebuild.new ≤ R.made rebuild.old + limit.tries) }
{
    let mut cutting = Cutting::open(alloc, lookups, cut)?;
    search(&mut cutting, rebuild, routes, limit, watch)
}

// The search by cuts that `cutting` makes and tries. First it lets what rebuilds know the model.
fn search<R: Rebuild>(
    cutting: &mut Cutting<'_>,
    rebuild: &mut R,
    routes: &mut Routes,
    limit: Limit,
    watch: &mut Vec<Box<dyn Watch>>,
) -> Result<Report, NoMemory>
    requires well_formed { IsWellFormed cutting.old.model }
    requires of_model { routes.old.visits ≡ visits cutting.old.model }
    requires valid { IsTrue (is_valid cutting.old.model routes.old.lists) }
    requires limit { IsSearchLimit limit }
    ensures ends { IfOk result (SearchEndsAs (λ w later. after w later)
        (path_lns cutting.old.model routes.old.lists limit cutting.old.most) routes.new.lists
        watch.old.items watch.new.items) }
    ensures made { IfOk result (λ report. R.made rebuild.new ≤ R.made rebuild.old + report.tries) }
    ensures of_model { routes.new.visits ≡ routes.old.visits }
    ensures valid { IsTrue (is_valid cutting.old.model routes.new.lists) }
    ensures told_in_part { OnErr result (ReportedInPart (λ w later. after w later) watch.old.items watch.new.items
        (path_lns cutting.old.model routes.old.lists limit cutting.old.most).events) }
    ensures made_at_most { OnErr result (R.made rebuild.new ≤ R.made rebuild.old + limit.tries) }
{
    let cost = cutting.total(routes)?;
    cutting.know(rebuild)?;
    let mut at = Progress {
        used: 0,
        // the first solution counts
        found: 1,
        cost,
    };
    note_all(watch, at.event(Kind::First))?;
    'rounds: while at.found != limit.solutions {
        let ended = advance(&mut at, cutting, rebuild, routes, limit, watch)?;
        match ended {
            RoundEnd::Accepted { .. } => {}
            RoundEnd::Complete { .. } => return Ok(at.report(End::Optimum)),
            RoundEnd::Short => return Ok(at.report(End::Tries)),
        }
    }
    Ok(at.report(End::Solutions))
}
