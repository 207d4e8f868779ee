//! The answers to the input.

ghost use Rattle.std.specs.Prelude.{◌≡◌, ◌≢◌, ◌≤◌, IfOk, IsTrue, length};
ghost use Rattle.serde_json.specs.View.{view};
ghost use Rattle.vr_model.specs.routes.Routes.{are_lists};
ghost use Rattle.vr_model.specs.tables.WellFormed.{WherePresent};
ghost use Rattle.vr_app.specs.Answers.{AnswersReply, IsOfModel, IsOfShort, IsOfSolving};
ghost use Rattle.vr_app.specs.Found.{found_with};
ghost use Rattle.vr_app.specs.Input.{max_input};
ghost use Rattle.vr_app.specs.Reply as shared;
ghost use Rattle.vr_app.specs.Reports.{joined_reports};
ghost use Rattle.vr_given.specs.Begin.{begin_lists, ruin_begin};
ghost use Rattle.vr_given.specs.Givens.{given_of};
ghost use Rattle.vr_given.specs.GivenLaws.{IsGiven, IsWish};
ghost use Rattle.vr_refine.specs.Reply as replies;
ghost use Rattle.vr_refine.specs.Wishes as wishes;

use crate::begin::{begin_routes, ruin_routes};
use crate::inputs::read_begun;
use crate::pricing::answer_priced;
use crate::refining::answer_refined;
use crate::words::Request;
use serde_json::Value;
use std::alloc::Global;
use vr_app::{Answer, Mode, Status, Watchers, answer_from, not_json, parse_owned, refused};
use vr_given::{Given, Wish};
use vr_json::ReadFail;
use vr_model::{Closed, NoMemory, Seq};
use vr_plan::Lookups;
use vr_watch::Watch;

// The wish that a mode meets: one that goes on meets any, and `First` none.
fn wish_in(mode: Mode, wish: Option<Wish>) -> Option<Wish>
    ensures { result ≡ wishes.wish_in mode wish }
{
    match mode {
        Mode::First => None,
        Mode::Solve => wish,
        Mode::Log => wish,
    }
}

// The answer of a mode to a model and routes beside it by the model's own search, over what was looked up of the model.
fn answer_own(
    alloc: Global,
    mode: Mode,
    lookups: &Lookups<'_>,
    routes: &Option<Seq<Seq<u32>>>,
    watch: &mut Watchers,
) -> Result<Answer, NoMemory>
    requires { WherePresent (λ lists. IsTrue (are_lists lookups.now.closed.model.now lists)) routes.now }
    ensures reply { let reports = joined_reports (λ w later. after w later) watch.old.items in
        let model = lookups.now.closed.model.now in
        IfOk result (AnswersReply
        (shared.reply_to_found mode reports model (found_with mode model (begin_lists model routes.now)))) }
    ensures status { IfOk result (λ a. IsOfModel a.status) }
    ensures untold { mode ≢ Mode.Log → watch.new ≡ watch.old }
{
    let first = begin_routes(alloc, lookups, routes)?;
    answer_from(alloc, mode, lookups, first, watch)
}

// The same by ruin and recreate.
fn answer_wished(
    alloc: Global,
    mode: Mode,
    lookups: &Lookups<'_>,
    routes: &Option<Seq<Seq<u32>>>,
    wish: Wish,
    watch: &mut Watchers,
) -> Result<Answer, NoMemory>
    requires routes { WherePresent (λ lists. IsTrue (are_lists lookups.now.closed.model.now lists)) routes.now }
    requires wish { IsWish wish }
    ensures reply { let reports = joined_reports (λ w later. after w later) watch.old.items in
        let model = lookups.now.closed.model.now in
        let found = wishes.refined_with model wish (ruin_begin model routes.now) in
        IfOk result (AnswersReply (shared.reply_to_found mode reports model found)) }
    ensures status { IfOk result (λ a. IsOfModel a.status) }
    ensures untold { mode ≢ Mode.Log → watch.new ≡ watch.old }
{
    let first = ruin_routes(alloc, lookups, routes)?;
    answer_refined(alloc, mode, lookups, first, wish, watch)
}

// The same by what the input wishes.
fn answer_over(
    alloc: Global,
    mode: Mode,
    lookups: &Lookups<'_>,
    routes: &Option<Seq<Seq<u32>>>,
    wish: Option<Wish>,
    watch: &mut Watchers,
) -> Result<Answer, NoMemory>
    requires routes { WherePresent (λ lists. IsTrue (are_lists lookups.now.closed.model.now lists)) routes.now }
    requires wish { WherePresent IsWish wish }
    ensures reply { let reports = joined_reports (λ w later. after w later) watch.old.items in
        let model = lookups.now.closed.model.now in
        let found = wishes.found_by mode model routes.now wish in
        IfOk result (AnswersReply (shared.reply_to_found mode reports model found)) }
    ensures status { IfOk result (λ a. IsOfModel a.status) }
    ensures untold { mode ≢ Mode.Log → watch.new ≡ watch.old }
{
    match wish {
        None => answer_own(alloc, mode, lookups, routes, watch),
        Some(wish) => answer_wished(alloc, mode, lookups, routes, wish, watch),
    }
}

// The answer of a mode to what is given, over what is looked up of the model.
fn answer_given(
    alloc: Global,
    mode: Mode,
    given: &Given,
    watch: &mut Watchers,
) -> Result<Answer, NoMemory>
    requires { IsGiven given.now }
    ensures reply { let reports = joined_reports (λ w later. after w later) watch.old.items in
        let found = wishes.found_of mode given.now in
        IfOk result (AnswersReply (shared.reply_to_found mode reports given.now.model found)) }
    ensures status { IfOk result (λ a. IsOfModel a.status) }
    ensures untold { mode ≢ Mode.Log → watch.new ≡ watch.old }
{
    let closed = Closed {
        model: &given.model,
    };
    let wish = wish_in(mode, given.wish);
    let lookups = Lookups::open(alloc, closed)?;
    answer_over(alloc, mode, &lookups, &given.routes, wish, watch)
}

// The answer of a mode to a value.
fn answer_found(
    alloc: Global,
    mode: Mode,
    value: Value,
    watch: &mut Watchers,
) -> Result<Answer, NoMemory>
    ensures reply { let reports = joined_reports (λ w later. after w later) watch.old.items in
        IfOk result (AnswersReply (replies.reply_to_given mode reports (given_of (view value)))) }
    ensures status { IfOk result (λ a. IsOfSolving a.status) }
    ensures untold { mode ≢ Mode.Log → watch.new ≡ watch.old }
{
    match read_begun(alloc, value) {
        Ok(given) => answer_given(alloc, mode, &given, watch),
        Err(ReadFail::Refused(fault)) => refused(alloc, &fault),
        Err(ReadFail::NoMemory) => Err(NoMemory),
    }
}

// The answer to a value.
fn answer_value(
    alloc: Global,
    request: Request,
    value: Value,
    watch: &mut Watchers,
) -> Result<Answer, NoMemory>
    ensures reply { let reports = joined_reports (λ w later. after w later) watch.old.items in
        IfOk result (AnswersReply (replies.reply_to_tree request reports (view value))) }
    ensures status { IfOk result (λ a. IsOfShort a.status) }
    ensures not_met_only { IfOk result (λ a. a.status ≡ Status.NotMet → request ≡ Request.Price) }
    ensures none_found_only { IfOk result (λ a. a.status ≡ Status.NoneFound → request ≢ Request.Price) }
    ensures untold { request ≢ Request.Find Mode.Log → watch.new ≡ watch.old }
{
    match request {
        Request::Price => answer_priced(alloc, value),
        Request::Find(mode) => answer_found(alloc, mode, value, watch),
    }
}

/// The answer to an input of at most `MOST_INPUT_BYTES` bytes, which are let go before their value is read. `NoMemory`
/// if there is none, also if a watcher finds none.
pub fn answer_input(
    alloc: Global,
    request: Request,
    bytes: Vec<u8>,
    watch: &mut Watchers,
) -> Result<Answer, NoMemory>
    ensures reply { let reports = joined_reports (λ w later. after w later) watch.old.items in
        length bytes.items ≤ max_input
        → IfOk result (AnswersReply (shared.reply_to_bytes (replies.reply_to_tree request reports) bytes.items)) }
    ensures status { IfOk result (λ a. IsOfShort a.status) }
    ensures not_met_only { IfOk result (λ a. a.status ≡ Status.NotMet → request ≡ Request.Price) }
    ensures none_found_only { IfOk result (λ a. a.status ≡ Status.NoneFound → request ≢ Request.Price) }
    ensures untold { request ≢ Request.Find Mode.Log → watch.new ≡ watch.old }
{
    match parse_owned(alloc, bytes)? {
        None => not_json(alloc),
        Some(value) => answer_value(alloc, request, value, watch),
    }
}
