//! The answers to numbers: the model of a number, and the summary of a search that `demo` made.

ghost use Rattle.std.specs.Prelude.{◌≡◌, Some, IfOk, IsTrue};
ghost use Rattle.vr_model.specs.routes.Rules.{is_valid};
ghost use Rattle.vr_app.specs.Answers.{AnswersReply};
ghost use Rattle.vr_app.specs.Bests.{IsBestOf};
ghost use Rattle.vr_app.specs.Found.{Found};
ghost use Rattle.vr_app.specs.Reply as replies;
ghost use Rattle.vr_app.specs.Texts as texts;

use crate::answer::{Answer, answer_of_tree};
use crate::best::Best;
use crate::status::Status;
use crate::texts::{Summary, summary_tree};
use crate::total::total_over;
use std::alloc::Global;
use vr_gen::generate;
use vr_model::NoMemory;
use vr_plan::Lookups;
use vr_routes::Routes;

/// The answer that is the model of a number. `NoMemory` if out of memory.
pub fn generated(alloc: Global, number: u64) -> Result<Answer, NoMemory>
    ensures reply { IfOk result (AnswersReply (replies.reply_generated number)) }
    ensures status { IfOk result (λ a. a.status ≡ Status.Done) }
{
    let tree = generate(alloc, number)?;
    answer_of_tree(alloc, Status::Done, &tree)
}

/// The answer that reports in short on a search in the model of a number, from a first solution that costs
/// `first_cost`. `NoMemory` if out of memory.
pub fn summarised(
    alloc: Global,
    number: u64,
    lookups: &Lookups<'_>,
    first_cost: i64,
    best: &Best,
) -> Result<Answer, NoMemory>
    requires valid { IsTrue (is_valid lookups.now.closed.model.now best.now.routes.lists) }
    ensures reply { (found : Found) → IsBestOf lookups.now.closed.model.now found first_cost best.now
        → IfOk result (AnswersReply (replies.summary_of_found number lookups.now.closed.model.now (Some found))) }
    ensures status { IfOk result (λ a. a.status ≡ Status.Done) }
{
    let summary = summary_of(alloc, number, lookups, first_cost, best)?;
    let tree = summary_tree(alloc, &summary)?;
    answer_of_tree(alloc, Status::Done, &tree)
}

// What is reported of the search, as numbers. The cost is found anew, since `Best` does not keep it.
fn summary_of(
    alloc: Global,
    number: u64,
    lookups: &Lookups<'_>,
    first_cost: i64,
    best: &Best,
) -> Result<Summary, NoMemory>
    requires valid { IsTrue (is_valid lookups.now.closed.model.now best.now.routes.lists) }
    ensures { (found : Found) → IsBestOf lookups.now.closed.model.now found first_cost best.now
        → IfOk result (λ summary. summary ≡ texts.summary_of number lookups.now.closed.model.now found) }
{
    let cost = total_over(alloc, lookups, &best.routes)?;
    Ok(Summary {
        number,
        cost,
        first_cost,
        dropped: best.routes.inactive().len() as u64,
        used: used(&best.routes),
        tries: best.report.tries,
    })
}

// How many lists are not empty.
fn used(routes: &Routes) -> u64
    ensures { result ≡ texts.used routes.now.lists }
{
    let mut count = 0;
    for vehicle in 0..routes.vehicles() {
        if !routes.list(vehicle).is_empty() {
            count += 1;
        }
    }
    count
}
