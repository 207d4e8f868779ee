//! The answer to a question about a model and a solution beside it. It says whether the solution keeps the rules of the
//! model, or how short its routes could be.

ghost use Rattle.std.specs.Prelude.{◌≡◌, IfOk, codes};
ghost use Rattle.serde_json.specs.View.{view};
ghost use Rattle.vr_check.specs.Check.{finding};
ghost use Rattle.vr_check.specs.declared.finding.Finding.TheVariants.{Meets};
ghost use Rattle.vr_json.specs.Reading.{Answers, required as field_of, seen};
ghost use Rattle.vr_model.specs.tables.WellFormed.{IsWellFormed};
ghost use Rattle.vr_read.specs.Models.{read_model as model_at};
ghost use Rattle.vr_app.specs.Answers.{AnswersReply, IsOfChecking};
ghost use Rattle.vr_app.specs.Checked.{any_tree, checked_at, checked_of, checked_together};
ghost use Rattle.vr_app.specs.Reply as replies;

use crate::answer::{Answer, answer_of_tree, broken, refused};
use crate::spans::spans_tree;
use crate::status::Status;
use crate::texts::met_tree;
use crate::words::Question;
use serde_json::Value;
use std::alloc::Global;
use vr_check::{Finding, check};
use vr_given::ModelField;
use vr_json::{Cause, Fields, Path, ReadFail, field, known, settle};
use vr_model::{Closed, Model, NoMemory};

// The model in an object.
fn model_in(alloc: Global, value: &Value, path: &Path) -> Result<Model, ReadFail>
    ensures model { Answers result (field_of (codes "model") model_at path.now (view value.now)) }
    ensures well_formed { IfOk result IsWellFormed }
{
    Fields { alloc, value, path }.required("model", &ModelField)
}

// The solution in an object, as it is. Another shape is no fault of reading: it breaks the first rule of the check.
fn solution_in<'a>(alloc: Global, value: &'a Value, path: &Path) -> Result<&'a Value, ReadFail>
    ensures { Answers (seen (λ v. view v.now) result)
        (field_of (codes "solution") any_tree path.now (view value.now)) }
{
    match field(alloc, value, "solution", path)? {
        Some(solution) => Ok(solution),
        None => settle(alloc, Err(Cause::Absent), path.field("solution")),
    }
}

// A model and the solution beside it, in an object with these two fields and no other.
fn model_and_solution<'a>(
    alloc: Global,
    value: &'a Value,
    path: &Path,
) -> Result<(Model, &'a Value), ReadFail>
    ensures read { Answers (seen (λ both. checked_together both.0 (view both.1.now)) result)
        (checked_at path.now (view value.now)) }
    ensures well_formed { IfOk result (λ both. IsWellFormed both.0) }
{
    let model = model_in(alloc, value, path)?;
    let solution = solution_in(alloc, value, path)?;
    known(alloc, value, &["model", "solution"], path)?;
    Ok((model, solution))
}

// The answer to a question about a solution that meets the rules of its model, and has this cost.
fn answer_met(
    alloc: Global,
    question: Question,
    closed: Closed<'_>,
    solution: &Value,
    cost: i64,
) -> Result<Answer, NoMemory>
    requires meets { finding closed.model.now (view solution.now) ≡ Meets cost }
    ensures reply { let it = checked_together closed.entry.model.now (view solution.now) in
        IfOk result (AnswersReply (replies.reply_to_finding question it (Meets cost))) }
    ensures status { IfOk result (λ a. IsOfChecking a.status) }
{
    match question {
        Question::Check => {
            let tree = met_tree(alloc, cost)?;
            answer_of_tree(alloc, Status::Done, &tree)
        }
        Question::Spans => {
            let tree = spans_tree(alloc, closed, solution)?;
            answer_of_tree(alloc, Status::Done, &tree)
        }
    }
}

// The answer to a question about a solution of a model.
fn answer_solution(
    alloc: Global,
    question: Question,
    closed: Closed<'_>,
    solution: &Value,
) -> Result<Answer, NoMemory>
    ensures reply { let it = checked_together closed.entry.model.now (view solution.now) in
        IfOk result (AnswersReply (replies.reply_to_question question it)) }
    ensures status { IfOk result (λ a. IsOfChecking a.status) }
{
    match check(alloc, closed.model, solution)? {
        Finding::Meets { cost } => answer_met(alloc, question, closed, solution, cost),
        Finding::Broken {
            rule,
            vehicle,
            place,
        } => broken(alloc, rule.word(), vehicle, place),
    }
}

// The answer to a question about a value.
fn answer_borrowed(alloc: Global, question: Question, value: &Value) -> Result<Answer, NoMemory>
    ensures reply { IfOk result (AnswersReply (replies.reply_to_checked question (checked_of (view value.now)))) }
    ensures status { IfOk result (λ a. IsOfChecking a.status) }
{
    let path = Path::root(alloc);
    match model_and_solution(alloc, value, &path) {
        Ok((model, solution)) => answer_solution(
            alloc,
            question,
            Closed { model: &model },
            solution,
        ),
        Err(ReadFail::Refused(fault)) => refused(alloc, &fault),
        Err(ReadFail::NoMemory) => Err(NoMemory),
    }
}

/// The answer to a question about a value, an object of a model and a solution. If the solution keeps all rules of the
/// model, it is what is asked; else it is the first rule that the solution breaks. A value that cannot be read gives
/// its first fault. The value is let go at the end. `NoMemory` if out of memory.
pub fn answer_checked(alloc: Global, question: Question, value: Value) -> Result<Answer, NoMemory>
    ensures reply { IfOk result (AnswersReply (replies.reply_to_checked question (checked_of (view value)))) }
    ensures status { IfOk result (λ a. IsOfChecking a.status) }
{
    answer_borrowed(alloc, question, &value)
}
