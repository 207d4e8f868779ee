//! How a search begins, and what it answers.

ghost use Rattle.std.specs.Prelude.{◌≡◌, ◌≤◌, IfOk, IsTrue, OnErr, OnOk, option_map};
ghost use Rattle.vr_gen.specs.Draws.{words_of};
ghost use Rattle.vr_model.specs.routes.Rules.{is_valid};
ghost use Rattle.vr_strings.specs.Strings.{active_count};
ghost use Rattle.vr_watch.specs.Told.{Reported, ReportedInPart};
ghost use Rattle.vr_ruin.specs.Answers.{IsRefineLimit, IsWish, answer_at, answer_in, answer_of};
ghost use Rattle.vr_ruin.specs.Refining.{refined, refined_search};
ghost use Rattle.vr_ruin.specs.Searching.{AreRoutesOf};

use crate::accepting::tell_first;
use crate::advancing::Terms;
use crate::answer::Refined;
use crate::heating::heat_of_first;
use crate::judging::Standing;
use crate::searching::search;
use crate::stepping::Stepper;
use crate::trial::Trial;
use crate::wish::Wish;
use std::alloc::Global;
use vr_model::{End, Limit, NoMemory, Report};
use vr_plan::Lookups;
use vr_routes::Routes;
use vr_strings::Ruin;
use vr_watch::Watch;

// The answer at the end of a search: none if the best routes lack something.
fn answered(best: Routes, at: Standing, end: End) -> Option<Refined>
    ensures { option_map answer_in result ≡ answer_at best.lists at end }
{
    if at.best.lack != 0 {
        return None;
    }
    let report = Report {
        tries: at.used,
        solutions: at.found,
        end,
    };
    Some(Refined {
        routes: best,
        first_cost: at.first.cost,
        report,
    })
}

// How many visits are in routes.
fn count_active(routes: &Routes) -> u32
    ensures value { result ≡ active_count routes.now.lists }
    ensures few { result ≤ 100000 }
{
    let mut active = 0;
    for v in 0..routes.vehicles() {
        active += routes.len(v);
    }
    active
}

// The search from routes that are on trial.
fn refine_from(
    alloc: Global,
    stepper: &mut Stepper<'_>,
    trial: &mut Trial<'_>,
    routes: &mut Routes,
    limit: Limit,
    wish: Wish,
    watch: &mut Vec<Box<dyn Watch>>,
) -> Result<Option<Refined>, NoMemory>
    requires same { trial.old.model ≡ stepper.old.model }
    requires begun { trial.old.lists ≡ routes.old.lists }
    requires words { stepper.old.words ≡ words_of wish.seed }
    requires routes { AreRoutesOf stepper.old.model routes.old }
    requires limit { IsRefineLimit limit }
    requires wish { IsWish wish }
    ensures answer { IfOk result (λ answer. option_map answer_in answer ≡ option_map (answer_of stepper.old.model)
        (refined stepper.old.model routes.old.lists limit wish)) }
    ensures last { OnOk result (routes.new.lists
        ≡ (refined_search stepper.old.model routes.old.lists limit wish).outcome.last) }
    ensures told { OnOk result (Reported (λ w later. after w later) watch.old.items watch.new.items
        (refined_search stepper.old.model routes.old.lists limit wish).outcome.events) }
    ensures told_in_part { OnErr result (ReportedInPart (λ w later. after w later) watch.old.items watch.new.items
        (refined_search stepper.old.model routes.old.lists limit wish).outcome.events) }
    ensures routes { AreRoutesOf stepper.old.model routes.new }
    ensures valid { IsTrue (is_valid stepper.old.model routes.old.lists)
        → IsTrue (is_valid stepper.old.model routes.new.lists) }
{
    let first = stepper.worth(trial)?;
    let moving = trial.moving()?;
    let active = count_active(routes);
    let heat = heat_of_first(wish.heat, moving, active);
    let mut best = routes.copy(alloc)?;
    tell_first(first, watch)?;
    let mut at = Standing::begun(first);
    let (removed, string) = (wish.removed, wish.string);
    let ruin = Ruin {
        removed,
        string,
        heat,
    };
    let end = search(
        stepper,
        trial,
        Terms { ruin, limit },
        routes,
        &mut best,
        &mut at,
        watch,
    )?;
    Ok(answered(best, at, end))
}

/// The search by ruin and recreate from open routes of a model. They need not be valid: what they lack is sought first.
/// The routes then hold the last lists. The answer has the best ones, and is `None` if these lack something.
///
/// `limit` allows up to 10^9 tries, which are steps, and from 1 to 10^9 solutions. All lists that the search has count,
/// valid or not. The watchers are told of the first valid lists, and of each that are the best after them.
///
/// It fails only if memory runs out. The routes are open then, and valid if they were before. The watchers have been
/// told the events up to there: of the event in hand, the first few.
pub fn refine_over(
    alloc: Global,
    lookups: &Lookups<'_>,
    routes: &mut Routes,
    limit: Limit,
    wish: Wish,
    watch: &mut Vec<Box<dyn Watch>>,
) -> Result<Option<Refined>, NoMemory>
    requires routes { AreRoutesOf lookups.now.closed.model.now routes.old }
    requires limit { IsRefineLimit limit }
    requires wish { IsWish wish }
    ensures answer { IfOk result (λ answer. option_map answer_in answer
        ≡ option_map (answer_of lookups.now.closed.model.now)
        (refined lookups.now.closed.model.now routes.old.lists limit wish)) }
    ensures last { OnOk result (routes.new.lists
        ≡ (refined_search lookups.now.closed.model.now routes.old.lists limit wish).outcome.last) }
    ensures told { OnOk result (Reported (λ w later. after w later) watch.old.items watch.new.items
        (refined_search lookups.now.closed.model.now routes.old.lists limit wish).outcome.events) }
    ensures told_in_part { OnErr result (ReportedInPart (λ w later. after w later) watch.old.items watch.new.items
        (refined_search lookups.now.closed.model.now routes.old.lists limit wish).outcome.events) }
    ensures routes { AreRoutesOf lookups.now.closed.model.now routes.new }
    ensures valid { IsTrue (is_valid lookups.now.closed.model.now routes.old.lists)
        → IsTrue (is_valid lookups.now.closed.model.now routes.new.lists) }
{
    let mut trial = Trial::open(alloc, lookups)?;
    let mut stepper = Stepper::open(alloc, lookups, wish.seed)?;
    trial.begin(routes);
    refine_from(alloc, &mut stepper, &mut trial, routes, limit, wish, watch)
}
