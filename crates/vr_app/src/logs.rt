//! The reports of watchers after a line.

ghost use Rattle.std.specs.Prelude.{◌≡◌, ◌++◌, [], IfOk, OnOk};
ghost use Rattle.vr_app.specs.Answers.{AnswersWith};
ghost use Rattle.vr_app.specs.Reply as replies;
ghost use Rattle.vr_app.specs.Reports.{joined_reports};

use crate::answer::Answer;
use crate::improving::Watchers;
use crate::status::Status;
use crate::words::Mode;
use vr_model::{NoMemory, Seq};
use vr_watch::Watch;

type Watcher = Box<dyn Watch>;

// Puts what a watcher reports after a text.
fn push_report(text: &mut Seq<u8>, watcher: &Watcher) -> Result<(), NoMemory>
    ensures { OnOk result (text.new ≡ text.old ++ after watcher.now []) }
{
    let report = watcher.report()?;
    text.extend_from_slice(report.as_slice())?;
    Ok(())
}

// Puts what each watcher reports after a text, in order.
fn push_reports(text: &mut Seq<u8>, watch: &Watchers) -> Result<(), NoMemory>
    ensures { OnOk result (text.new ≡ text.old ++ joined_reports (λ w later. after w later) watch.now.items []) }
{
    for watcher in watch {
        push_report(text, watcher)?;
    }
    Ok(())
}

// The line, and after it what each watcher reports, in order, if this is asked for.
fn with_reports(mode: Mode, line: Seq<u8>, watch: &Watchers) -> Result<Seq<u8>, NoMemory>
    ensures { let reports = joined_reports (λ w later. after w later) watch.now.items [] in
        IfOk result (λ text. text ≡ replies.with_reports mode line reports) }
{
    match mode {
        Mode::First => Ok(line),
        Mode::Solve => Ok(line),
        Mode::Log => {
            let mut text = line;
            push_reports(&mut text, watch)?;
            Ok(text)
        }
    }
}

/// The answer that is the line of a solution. After it come the reports of the watchers, in order, if they are asked
/// for. `NoMemory` if out of memory, also if a watcher is.
pub fn done(mode: Mode, line: Seq<u8>, watch: &Watchers) -> Result<Answer, NoMemory>
    ensures { let reports = joined_reports (λ w later. after w later) watch.now.items [] in
        IfOk result (AnswersWith Status.Done (replies.with_reports mode line reports)) }
{
    let text = with_reports(mode, line, watch)?;
    Ok(Answer {
        status: Status::Done,
        text,
    })
}
