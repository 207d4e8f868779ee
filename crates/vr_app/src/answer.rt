//! A status with the text to write; the answers that say a status alone, and the answer to an input that is refused.

ghost use Rattle.std.specs.Prelude.{◌≡◌, ◌≤◌, IfOk, false};
ghost use Rattle.serde_json.specs.Data.{depth};
ghost use Rattle.serde_json.specs.Read.{max_depth};
ghost use Rattle.serde_json.specs.View.{view};
ghost use Rattle.serde_json.specs.Written.{has_float};
ghost use Rattle.vr_json.specs.Trees.{text_line};
ghost use Rattle.vr_app.specs.Answers.{AnswersWith, AnswersReply};
ghost use Rattle.vr_app.specs.Reply as replies;
ghost use Rattle.vr_app.specs.Texts as texts;

use crate::status::Status;
use crate::texts::{broken_tree, refused_tree, status_tree};
use serde_json::Value;
use std::alloc::Global;
use vr_json::{Fault, to_line};
use vr_model::{NoMemory, Seq};

/// A status, and the text to write.
#[derive(Drop)]
pub struct Answer {
    /// How the run ends if the text is written.
    pub status: Status,
    /// One line, and the reports of watchers after it if these are asked for.
    pub text: Seq<u8>,
}

/// The answer of a tree's line.
pub(crate) fn answer_of_tree(
    alloc: Global,
    status: Status,
    tree: &Value,
) -> Result<Answer, NoMemory>
    requires whole { has_float (view tree.now) ≡ false }
    requires nested { depth (view tree.now) ≤ max_depth }
    ensures { IfOk result (AnswersWith status (text_line (view tree.now))) }
{
    let text = to_line(alloc, tree)?;
    Ok(Answer { status, text })
}

// The answer that says a status alone.
fn status_line(alloc: Global, status: Status, name: &str) -> Result<Answer, NoMemory>
    ensures { IfOk result (AnswersWith status (text_line (texts.status_tree name.now))) }
{
    let tree = status_tree(alloc, name)?;
    answer_of_tree(alloc, status, &tree)
}

/// The answer to words that are not accepted. `NoMemory` if out of memory.
pub fn usage(alloc: Global) -> Result<Answer, NoMemory>
    ensures reply { IfOk result (AnswersReply replies.usage) }
    ensures status { IfOk result (λ a. a.status ≡ Status.Usage) }
{
    status_line(alloc, Status::Usage, "USAGE")
}

/// The answer to an input of more than 64 MiB. `NoMemory` if out of memory.
pub fn too_long(alloc: Global) -> Result<Answer, NoMemory>
    ensures reply { IfOk result (AnswersReply replies.too_long) }
    ensures status { IfOk result (λ a. a.status ≡ Status.TooLong) }
{
    status_line(alloc, Status::TooLong, "TOO_LONG")
}

/// The answer to an input that is no JSON. `NoMemory` if out of memory.
pub fn not_json(alloc: Global) -> Result<Answer, NoMemory>
    ensures reply { IfOk result (AnswersReply replies.not_json) }
    ensures status { IfOk result (λ a. a.status ≡ Status.NotJson) }
{
    status_line(alloc, Status::NotJson, "NOT_JSON")
}

/// The answer to a model for which the construction gives no first solution. `NoMemory` if out of memory.
pub fn none_found(alloc: Global) -> Result<Answer, NoMemory>
    ensures reply { IfOk result (AnswersReply replies.none_found) }
    ensures status { IfOk result (λ a. a.status ≡ Status.NoneFound) }
{
    status_line(alloc, Status::NoneFound, "ROUTING_FAIL")
}

/// The answer to an input that is refused: the code and the path of the fault. `NoMemory` if out of memory.
pub fn refused(alloc: Global, fault: &Fault) -> Result<Answer, NoMemory>
    ensures reply { IfOk result (AnswersReply (replies.refused fault.now)) }
    ensures status { IfOk result (λ a. a.status ≡ Status.Refused) }
{
    let tree = refused_tree(alloc, fault)?;
    answer_of_tree(alloc, Status::Refused, &tree)
}

/// The answer that reports the first rule that is broken, by its word, with its vehicle and place. A number that does
/// not apply is -1. `NoMemory` if out of memory.
pub fn broken(alloc: Global, rule: &str, vehicle: i64, place: i64) -> Result<Answer, NoMemory>
    ensures reply { IfOk result (AnswersReply (replies.breaks rule.now vehicle place)) }
    ensures status { IfOk result (λ a. a.status ≡ Status.NotMet) }
{
    let tree = broken_tree(alloc, rule, vehicle, place)?;
    answer_of_tree(alloc, Status::NotMet, &tree)
}
