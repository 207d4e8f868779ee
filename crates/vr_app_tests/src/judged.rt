//! That the program searches by the judge of filters, which no test through [`vr_app::run`] can see.

ghost use Rattle.std.specs.Prelude.{◌≡◌, IsTrue};
ghost use Rattle.vr_model.specs.routes.Costs.{cost};
ghost use Rattle.vr_model.specs.routes.Rules.{is_valid};
ghost use Rattle.vr_model.specs.tables.Tables.{visits};
ghost use Rattle.vr_routes.specs.Judging.{HasCommitted};

use std::alloc::Global;
use std::marker::Brand;
use std::sync::ledger::Blank;
use std::test::Fail;
use vr_app::{FirstSolution, first_routes, improve_judged, read_owned};
use vr_gen::generate;
use vr_judge::FilterJudge;
use vr_model::{Closed, NoMemory};
use vr_plan::Lookups;
use vr_routes::{Judge, Routes};
use vr_rules::total;

// Searches from a first solution: by the judge of filters, and by no other.
fn search_by(
    alloc: Global,
    lookups: &Lookups<'_>,
    judge: &mut FilterJudge<'_>,
    first: FirstSolution,
) -> Result<(), NoMemory>
    requires judge_model { ⟦<FilterJudge<'static> as Judge>⟧.model judge.old ≡ lookups.now.closed.model.now }
    requires holds { HasCommitted lookups.now.closed.model.now
        (⟦<FilterJudge<'static> as Judge>⟧.committed judge.old) first.routes }
    requires first_cost { first.cost ≡ cost lookups.now.closed.model.now first.routes.lists }
{
    let mut none = Vec::new(alloc);
    improve_judged::<Brand>(alloc, lookups, judge, first, &mut none, Blank::new(1))?;
    Ok(())
}

// Searches from routes, by a judge of filters that is opened for it.
fn search_from(alloc: Global, lookups: &Lookups<'_>, routes: Routes) -> Result<(), NoMemory>
    requires of_model { routes.visits ≡ visits lookups.now.closed.model.now }
    requires valid { IsTrue (is_valid lookups.now.closed.model.now routes.lists) }
{
    let cost = total(alloc, lookups.closed.model, &routes)?;
    let mut judge = FilterJudge::over(alloc, lookups, &routes)?;
    let searched = search_by(alloc, lookups, &mut judge, FirstSolution { routes, cost });
    judge.close();
    searched
}

// Whether a model has a first solution; then it is searched from there.
fn is_searched(alloc: Global, lookups: &Lookups<'_>) -> Result<bool, NoMemory> {
    match first_routes(alloc, lookups)? {
        Some(first) => {
            search_from(alloc, lookups, first)?;
            Ok(true)
        }
        None => Ok(false),
    }
}

// The same, looked up for that.
fn is_model_searched(alloc: Global, closed: Closed<'_>) -> Result<bool, NoMemory> {
    let lookups = Lookups::open(alloc, closed)?;
    is_searched(alloc, &lookups)
}

// The same of the model of a number.
fn is_numbered_searched(alloc: Global, number: u64) -> Result<bool, NoMemory> {
    let tree = generate(alloc, number)?;
    match read_owned(alloc, tree) {
        Ok(model) => is_model_searched(alloc, Closed { model: &model }),
        Err(_) => Ok(false),
    }
}

#[test]
fn searches_are_judged_by_filters(rt: HostRuntime) -> Result<(), Fail> {
    assert!(rt; is_numbered_searched(rt.alloc(), 0)?);
    Ok(())
}
