//! The price of given routes.

ghost use Rattle.std.specs.Prelude.{◌≡◌, IfOk, IsTrue, List, None, Some, ℕ};
ghost use Rattle.serde_json.specs.View.{view};
ghost use Rattle.vr_model.specs.declared.records.Model.{Model};
ghost use Rattle.vr_model.specs.routes.Routes.{are_lists};
ghost use Rattle.vr_model.specs.routes.Rules.{is_valid};
ghost use Rattle.vr_model.specs.tables.WellFormed.{IsWellFormed};
ghost use Rattle.vr_app.specs.Answers.{AnswersReply, IsOfChecking};
ghost use Rattle.vr_given.specs.ListFaults.{fault_of_lists};
ghost use Rattle.vr_refine.specs.Inputs.{priced_of};
ghost use Rattle.vr_refine.specs.Reply as replies;

use crate::inputs::{Priced, read_priced};
use serde_json::Value;
use std::alloc::Global;
use vr_app::{Answer, Mode, Status, answer_from, broken, refused};
use vr_given::{ListFault, list_fault};
use vr_json::ReadFail;
use vr_model::{Closed, NoMemory, Seq};
use vr_plan::Lookups;
use vr_routes::Routes;

// The answer that reports the first rule that lists break.
fn answer_fault(alloc: Global, fault: ListFault) -> Result<Answer, NoMemory>
    ensures reply { (model : Model) (lists : List (List ℕ))
        → IfOk result (AnswersReply (replies.reply_to_lists model lists (Some fault))) }
    ensures status { IfOk result (λ a. a.status ≡ Status.NotMet) }
{
    broken(
        alloc,
        fault.rule.word(),
        fault.spot.vehicle,
        fault.spot.place,
    )
}

// The answer that is the line of valid lists.
fn answer_valid(
    alloc: Global,
    lookups: &Lookups<'_>,
    lists: &[Seq<u32>],
) -> Result<Answer, NoMemory>
    requires { IsTrue (is_valid lookups.now.closed.model.now lists.now) }
    ensures reply { let model = lookups.now.closed.model.now in
        IfOk result (AnswersReply (replies.reply_to_lists model lists.now None)) }
    ensures status { IfOk result (λ a. a.status ≡ Status.Done) }
{
    let routes = Routes::from_lists(alloc, lookups.closed.model, lists)?;
    let mut none = Vec::new(alloc);
    answer_from(alloc, Mode::First, lookups, routes, &mut none)
}

// The answer to lists of a model that are priced.
fn price(alloc: Global, lookups: &Lookups<'_>, lists: &[Seq<u32>]) -> Result<Answer, NoMemory>
    requires { IsTrue (are_lists lookups.now.closed.model.now lists.now) }
    ensures reply { let model = lookups.now.closed.model.now in
        IfOk result (AnswersReply (replies.reply_to_lists model lists.now (fault_of_lists model lists.now))) }
    ensures status { IfOk result (λ a. IsOfChecking a.status) }
{
    match list_fault(alloc, lookups, lists)? {
        Some(fault) => answer_fault(alloc, fault),
        None => answer_valid(alloc, lookups, lists),
    }
}

// The same of what was read, over what is looked up of the model.
fn answer_read(alloc: Global, priced: &Priced) -> Result<Answer, NoMemory>
    requires well_formed { IsWellFormed priced.now.model }
    requires are_lists { IsTrue (are_lists priced.now.model priced.now.lists) }
    ensures reply { let model = priced.now.model in
        let lists = priced.now.lists in
        IfOk result (AnswersReply (replies.reply_to_lists model lists (fault_of_lists model lists))) }
    ensures status { IfOk result (λ a. IsOfChecking a.status) }
{
    let closed = Closed {
        model: &priced.model,
    };
    let lookups = Lookups::open(alloc, closed)?;
    price(alloc, &lookups, priced.lists.as_slice())
}

/// The answer to a value whose routes are priced, as they are. It is their line if they are valid, else the first rule
/// that they break; or the first fault of the value. No watcher is told. `NoMemory` if there is none.
pub fn answer_priced(alloc: Global, value: Value) -> Result<Answer, NoMemory>
    ensures reply { IfOk result (AnswersReply (replies.reply_to_priced (priced_of (view value)))) }
    ensures status { IfOk result (λ a. IsOfChecking a.status) }
{
    match read_priced(alloc, value) {
        Ok(priced) => answer_read(alloc, &priced),
        Err(ReadFail::Refused(fault)) => refused(alloc, &fault),
        Err(ReadFail::NoMemory) => Err(NoMemory),
    }
}
