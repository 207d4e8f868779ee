//! The answers to the input.

ghost use Rattle.std.specs.Prelude.{◌≡◌, ◌≢◌, ◌≤◌, Ok, IfOk, IfSome, IsTrue, OnOk, length, option_map};
ghost use Rattle.serde_json.specs.View.{view};
ghost use Rattle.vr_model.specs.routes.Rules.{is_valid};
ghost use Rattle.vr_model.specs.tables.Tables.{visits};
ghost use Rattle.vr_rules.specs.Placing.{lists_in};
ghost use Rattle.vr_watch.specs.Told.{Reported};
ghost use Rattle.vr_app.specs.Answers.{AnswersReply, IsOfModel, IsOfShort, IsOfSolving};
ghost use Rattle.vr_app.specs.Found.{found_events, found_from, found_with, line_of_found};
ghost use Rattle.vr_app.specs.Input.{max_input, model_of_value};
ghost use Rattle.vr_app.specs.Reply as replies;
ghost use Rattle.vr_app.specs.Reports.{joined_reports};
ghost use Rattle.vr_app.specs.Statuses.{IsOfTask};

use crate::answer::{Answer, none_found, not_json, refused};
use crate::checked::answer_checked;
use crate::first::first_routes;
use crate::improving::Watchers;
use crate::input::{parse_owned, read_owned};
use crate::logs::done;
use crate::search::search;
use crate::total::total_over;
use crate::words::{Mode, Task};
use serde_json::Value;
use std::alloc::Global;
use vr_json::ReadFail;
use vr_model::{Closed, NoMemory, Seq};
use vr_plan::Lookups;
use vr_print::solution_line_over;
use vr_routes::Routes;

// The line of what a mode finds for a model from these valid routes. With `Log` the watchers are told of each event.
fn line_from(
    alloc: Global,
    mode: Mode,
    lookups: &Lookups<'_>,
    first: Routes,
    watch: &mut Watchers,
) -> Result<Seq<u8>, NoMemory>
    requires valid { IsTrue (is_valid lookups.now.closed.model.now first.lists) }
    requires of_model { first.visits ≡ visits lookups.now.closed.model.now }
    ensures line { IfOk result (λ line. line ≡ line_of_found lookups.now.closed.model.now
        (found_from mode lookups.now.closed.model.now first.lists)) }
    ensures told { mode ≡ Mode.Log → OnOk result (Reported (λ w later. after w later) watch.old.items watch.new.items
        (found_from mode lookups.now.closed.model.now first.lists).outcome.events) }
    ensures untold { mode ≢ Mode.Log → watch.new ≡ watch.old }
{
    let first_cost = total_over(alloc, lookups, &first)?;
    let found = search(alloc, mode, lookups, first, first_cost, watch)?;
    solution_line_over(alloc, lookups, &found.routes, first_cost, found.report)
}

// The line of what a mode finds for a model from these routes; none if there are none.
fn line_found(
    alloc: Global,
    mode: Mode,
    lookups: &Lookups<'_>,
    first: Option<Routes>,
    watch: &mut Watchers,
) -> Result<Option<Seq<u8>>, NoMemory>
    requires valid { IfSome first (λ routes. IsTrue (is_valid lookups.now.closed.model.now routes.lists)) }
    requires of_model { IfSome first (λ routes. routes.visits ≡ visits lookups.now.closed.model.now) }
    ensures line { IfOk result (λ line. line ≡ option_map (line_of_found lookups.now.closed.model.now)
        (found_with mode lookups.now.closed.model.now (lists_in first))) }
    ensures told { mode ≡ Mode.Log → OnOk result (Reported (λ w later. after w later) watch.old.items watch.new.items
        (found_events (found_with mode lookups.now.closed.model.now (lists_in first)))) }
    ensures untold { mode ≢ Mode.Log → watch.new ≡ watch.old }
{
    match first {
        None => Ok(None),
        Some(first) => {
            let line = line_from(alloc, mode, lookups, first, watch)?;
            Ok(Some(line))
        }
    }
}

/// The answer of a mode to a model, from these valid routes. It is the line of what the mode finds, and the reports of
/// watchers if they are asked for. Without routes it says that there is no first solution. `vr_refine` asks it, of
/// routes that it was given. `NoMemory` if out of memory.
pub fn answer_from(
    alloc: Global,
    mode: Mode,
    lookups: &Lookups<'_>,
    first: Option<Routes>,
    watch: &mut Watchers,
) -> Result<Answer, NoMemory>
    requires valid { IfSome first (λ routes. IsTrue (is_valid lookups.now.closed.model.now routes.lists)) }
    requires of_model { IfSome first (λ routes. routes.visits ≡ visits lookups.now.closed.model.now) }
    ensures reply { let reports = joined_reports (λ w later. after w later) watch.old.items in
        let model = lookups.now.closed.model.now in
        let found = found_with mode model (lists_in first) in
        IfOk result (AnswersReply (replies.reply_to_found mode reports model found)) }
    ensures status { IfOk result (λ a. IsOfModel a.status) }
    ensures untold { mode ≢ Mode.Log → watch.new ≡ watch.old }
{
    match line_found(alloc, mode, lookups, first, watch)? {
        Some(line) => done(mode, line, watch),
        None => none_found(alloc),
    }
}

// The answer of a mode to a model, over what was looked up of it.
fn answer_over(
    alloc: Global,
    mode: Mode,
    lookups: &Lookups<'_>,
    watch: &mut Watchers,
) -> Result<Answer, NoMemory>
    ensures reply { let reports = joined_reports (λ w later. after w later) watch.old.items in
        IfOk result (AnswersReply (replies.reply_to_model mode reports (Ok lookups.now.closed.model.now))) }
    ensures status { IfOk result (λ a. IsOfSolving a.status) }
    ensures untold { mode ≢ Mode.Log → watch.new ≡ watch.old }
{
    let first = first_routes(alloc, lookups)?;
    answer_from(alloc, mode, lookups, first, watch)
}

// The answer of a mode to a model, which is looked up once for all that ask it.
fn answer_model(
    alloc: Global,
    mode: Mode,
    closed: Closed<'_>,
    watch: &mut Watchers,
) -> Result<Answer, NoMemory>
    ensures reply { let reports = joined_reports (λ w later. after w later) watch.old.items in
        IfOk result (AnswersReply (replies.reply_to_model mode reports (Ok closed.entry.model.now))) }
    ensures status { IfOk result (λ a. IsOfSolving a.status) }
    ensures untold { mode ≢ Mode.Log → watch.new ≡ watch.old }
{
    let lookups = Lookups::open(alloc, closed)?;
    answer_over(alloc, mode, &lookups, watch)
}

// The answer of a mode to a value.
fn answer_solved(
    alloc: Global,
    mode: Mode,
    value: Value,
    watch: &mut Watchers,
) -> Result<Answer, NoMemory>
    ensures reply { let reports = joined_reports (λ w later. after w later) watch.old.items in
        IfOk result (AnswersReply (replies.reply_to_model mode reports (model_of_value (view value)))) }
    ensures status { IfOk result (λ a. IsOfSolving a.status) }
    ensures untold { mode ≢ Mode.Log → watch.new ≡ watch.old }
{
    match read_owned(alloc, value) {
        Ok(model) => answer_model(alloc, mode, Closed { model: &model }, watch),
        Err(ReadFail::Refused(fault)) => refused(alloc, &fault),
        Err(ReadFail::NoMemory) => Err(NoMemory),
    }
}

// The answer to a value.
fn answer_value(
    alloc: Global,
    task: Task,
    value: Value,
    watch: &mut Watchers,
) -> Result<Answer, NoMemory>
    ensures reply { let reports = joined_reports (λ w later. after w later) watch.old.items in
        IfOk result (AnswersReply (replies.reply_to_tree task reports (view value))) }
    ensures status { IfOk result (λ a. IsOfShort a.status) }
    ensures of_task { IfOk result (λ a. IsOfTask task a.status) }
    ensures untold { task ≢ Task.Find Mode.Log → watch.new ≡ watch.old }
{
    match task {
        Task::Find(mode) => answer_solved(alloc, mode, value, watch),
        Task::Ask(question) => answer_checked(alloc, question, value),
    }
}

/// The answer to an input of at most `MOST_INPUT_BYTES` bytes. The bytes are let go before the model is read, and their
/// value before the model is solved.
pub(crate) fn answer_input(
    alloc: Global,
    task: Task,
    bytes: Vec<u8>,
    watch: &mut Watchers,
) -> Result<Answer, NoMemory>
    ensures reply { let reports = joined_reports (λ w later. after w later) watch.old.items in
        length bytes.items ≤ max_input → IfOk result (AnswersReply (replies.reply_to_input task reports bytes.items)) }
    ensures status { IfOk result (λ a. IsOfShort a.status) }
    ensures of_task { IfOk result (λ a. IsOfTask task a.status) }
    ensures untold { task ≢ Task.Find Mode.Log → watch.new ≡ watch.old }
{
    match parse_owned(alloc, bytes)? {
        None => not_json(alloc),
        Some(value) => answer_value(alloc, task, value, watch),
    }
}
