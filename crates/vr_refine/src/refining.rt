//! What ruin and recreate finds from routes.

ghost use Rattle.std.specs.Prelude.{◌≡◌, ◌≢◌, IfOk, IfSome, OnOk, Some, option_map};
ghost use Rattle.vr_rules.specs.Placing.{lists_in};
ghost use Rattle.vr_watch.specs.Told.{Reported};
ghost use Rattle.vr_app.specs.Answers.{AnswersReply, IsOfModel};
ghost use Rattle.vr_app.specs.Found.{line_of_found};
ghost use Rattle.vr_app.specs.Reply as shared;
ghost use Rattle.vr_app.specs.Reports.{joined_reports};
ghost use Rattle.vr_given.specs.GivenLaws.{IsWish};
ghost use Rattle.vr_ruin.specs.Searching.{AreRoutesOf};
ghost use Rattle.vr_refine.specs.Wishes as wishes;

use std::alloc::Global;
use vr_app::{Answer, Mode, Watchers, done, limit_of, none_found};
use vr_given::Wish;
use vr_model::{NoMemory, Seq};
use vr_plan::Lookups;
use vr_print::solution_line_over;
use vr_routes::Routes;
use vr_ruin::refine_over;
use vr_watch::Watch;

// A wish, as ruin and recreate is asked it.
fn asked_for(wish: Wish) -> vr_ruin::Wish
    ensures { result ≡ wishes.asked_for wish }
{
    vr_ruin::Wish {
        seed: wish.seed,
        removed: wish.removed,
        string: wish.string,
        heat: wish.heat,
    }
}

// The line of what is found from open routes; none if the best ones lack something. The watchers are told of each
// event. The routes are the last ones then.
fn line_refined(
    alloc: Global,
    lookups: &Lookups<'_>,
    routes: &mut Routes,
    wish: Wish,
    watch: &mut Watchers,
) -> Result<Option<Seq<u8>>, NoMemory>
    requires routes { AreRoutesOf lookups.now.closed.model.now routes.old }
    requires wish { IsWish wish }
    ensures line { let model = lookups.now.closed.model.now in
        let found = wishes.refined_with model wish (Some routes.old.lists) in
        IfOk result (λ line. line ≡ option_map (line_of_found model) found) }
    ensures told { let end_of = wishes.ruin_end lookups.now.closed.model.now wish routes.old.lists in
        OnOk result (Reported (λ w later. after w later) watch.old.items watch.new.items end_of.outcome.events) }
{
    let limit = limit_of(lookups.closed);
    match refine_over(alloc, lookups, routes, limit, asked_for(wish), watch)? {
        None => Ok(None),
        Some(found) => {
            let line = solution_line_over(
                alloc,
                lookups,
                &found.routes,
                found.first_cost,
                found.report,
            )?;
            Ok(Some(line))
        }
    }
}

// The same, with the watchers of a mode: none except with `Log`.
fn line_watched(
    alloc: Global,
    mode: Mode,
    lookups: &Lookups<'_>,
    routes: &mut Routes,
    wish: Wish,
    watch: &mut Watchers,
) -> Result<Option<Seq<u8>>, NoMemory>
    requires routes { AreRoutesOf lookups.now.closed.model.now routes.old }
    requires wish { IsWish wish }
    ensures line { let model = lookups.now.closed.model.now in
        let found = wishes.refined_with model wish (Some routes.old.lists) in
        IfOk result (λ line. line ≡ option_map (line_of_found model) found) }
    ensures told { let end_of = wishes.ruin_end lookups.now.closed.model.now wish routes.old.lists in
        mode ≡ Mode.Log → OnOk result (Reported (λ w later. after w later) watch.old.items watch.new.items
        end_of.outcome.events) }
    ensures untold { mode ≢ Mode.Log → watch.new ≡ watch.old }
{
    match mode {
        Mode::Log => line_refined(alloc, lookups, routes, wish, watch),
        Mode::First | Mode::Solve => {
            let mut none = Vec::new(alloc);
            line_refined(alloc, lookups, routes, wish, &mut none)
        }
    }
}

// The answer of a mode that meets a wish from open routes.
fn answer_from(
    alloc: Global,
    mode: Mode,
    lookups: &Lookups<'_>,
    routes: &mut Routes,
    wish: Wish,
    watch: &mut Watchers,
) -> Result<Answer, NoMemory>
    requires routes { AreRoutesOf lookups.now.closed.model.now routes.old }
    requires wish { IsWish wish }
    ensures reply { let reports = joined_reports (λ w later. after w later) watch.old.items in
        let model = lookups.now.closed.model.now in
        let found = wishes.refined_with model wish (Some routes.old.lists) in
        IfOk result (AnswersReply (shared.reply_to_found mode reports model found)) }
    ensures status { IfOk result (λ a. IsOfModel a.status) }
    ensures untold { mode ≢ Mode.Log → watch.new ≡ watch.old }
{
    match line_watched(alloc, mode, lookups, routes, wish, watch)? {
        Some(line) => done(mode, line, watch),
        None => none_found(alloc),
    }
}

/// The answer of a mode that meets a wish, from the open routes with which ruin and recreate begins. It is the line of
/// the best routes that are found, and the reports of watchers if they are asked for. There is no solution if the best
/// routes lack something, or if there are none to begin with.
///
/// `NoMemory` if there is none, also if a watcher finds none.
pub fn answer_refined(
    alloc: Global,
    mode: Mode,
    lookups: &Lookups<'_>,
    first: Option<Routes>,
    wish: Wish,
    watch: &mut Watchers,
) -> Result<Answer, NoMemory>
    requires routes { IfSome first (AreRoutesOf lookups.now.closed.model.now) }
    requires wish { IsWish wish }
    ensures reply { let reports = joined_reports (λ w later. after w later) watch.old.items in
        let model = lookups.now.closed.model.now in
        let found = wishes.refined_with model wish (lists_in first) in
        IfOk result (AnswersReply (shared.reply_to_found mode reports model found)) }
    ensures status { IfOk result (λ a. IsOfModel a.status) }
    ensures untold { mode ≢ Mode.Log → watch.new ≡ watch.old }
{
    match first {
        None => none_found(alloc),
        Some(mut routes) => answer_from(alloc, mode, lookups, &mut routes, wish, watch),
    }
}
