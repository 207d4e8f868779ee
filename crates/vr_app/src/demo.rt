//! The answer that needs no input and searches: a summary of the search of the model of a number.

ghost use Rattle.std.specs.Prelude.{◌≡◌, Ok, Some, IfOk};
ghost use Rattle.serde_json.specs.View.{view};
ghost use Rattle.vr_model.specs.first.FirstSolutions.{first_lists};
ghost use Rattle.vr_model.specs.tables.Tables.{visits};
ghost use Rattle.vr_app.specs.Answers.{AnswersReply, IsOfSolving};
ghost use Rattle.vr_app.specs.Found.{found_from};
ghost use Rattle.vr_app.specs.Input.{model_of_value};
ghost use Rattle.vr_app.specs.Reply as replies;
ghost use Rattle.vr_app.specs.declared.words.Mode.TheVariants as asked;

use crate::answer::{Answer, none_found, refused};
use crate::first::first_routes;
use crate::input::read_owned;
use crate::numbered::summarised;
use crate::search::search_unwatched;
use crate::status::Status;
use crate::total::total_over;
use serde_json::Value;
use std::alloc::Global;
use vr_gen::generate;
use vr_json::ReadFail;
use vr_model::{Closed, NoMemory};
use vr_plan::Lookups;
use vr_routes::Routes;

/// The answer that reports on the whole search of the model of a number, in short. It is the one that its model would
/// have if it were read. So it does not rest on a law that this model is read and solved. That it is, so that no
/// refusal comes, is said at `run`.
pub(crate) fn demo(alloc: Global, number: u64) -> Result<Answer, NoMemory>
    ensures reply { IfOk result (AnswersReply (replies.reply_of_demo number)) }
    ensures status { IfOk result (λ a. IsOfSolving a.status) }
{
    let tree = generate(alloc, number)?;
    summary_of_tree(alloc, number, tree)
}

// The answer that reports on the search of the model of this tree.
fn summary_of_tree(alloc: Global, number: u64, tree: Value) -> Result<Answer, NoMemory>
    ensures reply { IfOk result (AnswersReply (replies.summary_of_model number (model_of_value (view tree)))) }
    ensures status { IfOk result (λ a. IsOfSolving a.status) }
{
    match read_owned(alloc, tree) {
        Ok(model) => summary_of_model(alloc, number, Closed { model: &model }),
        Err(ReadFail::Refused(fault)) => refused(alloc, &fault),
        Err(ReadFail::NoMemory) => Err(NoMemory),
    }
}

// The answer that reports on the search of a model, which is looked up once for all that ask it.
fn summary_of_model(alloc: Global, number: u64, closed: Closed<'_>) -> Result<Answer, NoMemory>
    ensures reply { IfOk result (AnswersReply (replies.summary_of_model number (Ok closed.entry.model.now))) }
    ensures status { IfOk result (λ a. IsOfSolving a.status) }
{
    let lookups = Lookups::open(alloc, closed)?;
    summary_over(alloc, number, &lookups)
}

// The same, over what was looked up.
fn summary_over(alloc: Global, number: u64, lookups: &Lookups<'_>) -> Result<Answer, NoMemory>
    ensures reply { let model = lookups.now.closed.model.now in
        IfOk result (AnswersReply (replies.summary_of_model number (Ok model))) }
    ensures status { IfOk result (λ a. IsOfSolving a.status) }
{
    match first_routes(alloc, lookups)? {
        None => none_found(alloc),
        Some(first) => summary_of_first(alloc, number, lookups, first),
    }
}

// The same, from its first solution.
fn summary_of_first(
    alloc: Global,
    number: u64,
    lookups: &Lookups<'_>,
    first: Routes,
) -> Result<Answer, NoMemory>
    requires first { first_lists lookups.now.closed.model.now ≡ Some first.lists }
    requires of_model { first.visits ≡ visits lookups.now.closed.model.now }
    ensures reply { let found = found_from asked.Solve lookups.now.closed.model.now first.lists in
        IfOk result (AnswersReply (replies.summary_of_found number lookups.now.closed.model.now (Some found))) }
    ensures status { IfOk result (λ a. a.status ≡ Status.Done) }
{
    let first_cost = total_over(alloc, lookups, &first)?;
    let best = search_unwatched(alloc, lookups, first, first_cost)?;
    summarised(alloc, number, lookups, first_cost, &best)
}
