//! What the program does with the source and the sink.

ghost use Rattle.std.specs.Prelude.{◌≡◌, ◌≢◌, ◌⊎◌, ◌≤◌, List, ℕ, [], Some, Ok, Err, IfOk, IsErrOf};
ghost use Rattle.vr_io.specs.Edges.{Rose};
ghost use Rattle.vr_app.specs.Answers.{AnswersReply, IsOfAnswer, IsOfFile, IsOfInput};
ghost use Rattle.vr_app.specs.Ended.{Ends, Ran};
ghost use Rattle.vr_app.specs.Programs.{program_run};
ghost use Rattle.vr_app.specs.Promises.{HasCause, HasFailed, IsChecking, IsComplete, IsEmptied};
ghost use Rattle.vr_app.specs.Promises.{IsImporting, IsReply, IsSolving};
ghost use Rattle.vr_app.specs.Reply as replies;
ghost use Rattle.vr_app.specs.Reports.{joined_reports};
ghost use Rattle.vr_app.specs.Runs.{IsAskedFor, ReadsInput, ReadsNothing, WhereKnown, bytes_of};
ghost use Rattle.vr_app.specs.Status.{IsStatus};
ghost use Rattle.vr_app.specs.Statuses.{IsOfRequest, IsOfTask};
ghost use Rattle.vr_app.specs.Words.{request_of as request_in};

use crate::answer::{Answer, too_long, usage};
use crate::demo::demo;
use crate::files::answer_file;
use crate::improving::Watchers;
use crate::numbered::generated;
use crate::solving::answer_input;
use crate::status::Status;
use crate::words::{Mode, Request, Task, request_of};
use std::alloc::Global;
use vr_io::{ReadError, Sink, Source, read_all, write_all};
use vr_model::NoMemory;
use vr_model::limits::MOST_INPUT_BYTES;
use vr_watch::Watch;

/// Why there is no answer to write. Too many bytes are no such reason: there is a text for that.
#[derive(Clone, Copy)]
pub enum Stop {
    /// The source failed.
    ReadFault,
    /// Out of memory.
    NoMemory,
}

impl From<NoMemory> for Stop {
    ghost use Rattle.vr_app.specs.declared.reply.Stop.TheVariants.{NoMemory as NoMemoryStop};

    ghost from_gives = { λ _ stop. stop ≡ NoMemoryStop };

    fn from(_: NoMemory) -> Self {
        Stop::NoMemory
    }
}

// The answer to what the source gives.
fn respond_to_input<S: Source>(
    alloc: Global,
    task: Task,
    source: &mut S,
    watch: &mut Watchers,
) -> Result<Answer, Stop>
    ensures reply { let reports = joined_reports (λ w later. after w later) watch.old.items in
        IfOk result (λ a. WhereKnown (S.left source.old) (λ bytes.
        AnswersReply (replies.reply_to_input task reports bytes) a)) }
    ensures emptied { IfOk result (λ a. a.status ≢ Status.TooLong
        → WhereKnown (S.left source.old) (λ bytes. S.left source.new ≡ Some [])) }
    ensures status { IfOk result (λ a. IsOfInput a.status) }
    ensures of_task { IfOk result (λ a. IsOfTask task a.status) }
    ensures untold { task ≢ Task.Find Mode.Log → watch.new ≡ watch.old }
    ensures fault { IsErrOf result Stop.ReadFault → Rose (S.faults source.old) (S.faults source.new) }
    ensures quiet { result ≢ Err Stop.ReadFault → S.faults source.new ≡ S.faults source.old }
{
    match read_all(alloc, source, MOST_INPUT_BYTES) {
        Ok(bytes) => Ok(answer_input(alloc, task, bytes, watch)?),
        Err(ReadError::TooLong) => Ok(too_long(alloc)?),
        Err(ReadError::ReadFault) => Err(Stop::ReadFault),
        Err(ReadError::NoMemory) => Err(Stop::NoMemory),
    }
}

// The answer to the file that the source gives.
fn respond_to_file<S: Source>(alloc: Global, vehicles: u32, source: &mut S) -> Result<Answer, Stop>
    requires some { 1 ≤ vehicles }
    requires few { vehicles ≤ 100 }
    ensures reply { IfOk result (λ a. WhereKnown (S.left source.old) (λ bytes.
        AnswersReply (replies.reply_to_file vehicles bytes) a)) }
    ensures emptied { IfOk result (λ a. a.status ≢ Status.TooLong
        → WhereKnown (S.left source.old) (λ bytes. S.left source.new ≡ Some [])) }
    ensures status { IfOk result (λ a. IsOfFile a.status ⊎ (a.status ≡ Status.TooLong)) }
    ensures fault { IsErrOf result Stop.ReadFault → Rose (S.faults source.old) (S.faults source.new) }
    ensures quiet { result ≢ Err Stop.ReadFault → S.faults source.new ≡ S.faults source.old }
{
    match read_all(alloc, source, MOST_INPUT_BYTES) {
        Ok(bytes) => Ok(answer_file(alloc, vehicles, bytes)?),
        Err(ReadError::TooLong) => Ok(too_long(alloc)?),
        Err(ReadError::ReadFault) => Err(Stop::ReadFault),
        Err(ReadError::NoMemory) => Err(Stop::NoMemory),
    }
}

// The answer to words and what the source gives.
fn respond<S: Source>(
    alloc: Global,
    words: &[String],
    source: &mut S,
    watch: &mut Watchers,
) -> Result<Answer, Stop>
    ensures reply { let reports = joined_reports (λ w later. after w later) watch.old.items in
        IfOk result (λ a. WhereKnown (S.left source.old) (λ bytes.
        AnswersReply (replies.reply reports (bytes_of words.now) bytes) a)) }
    ensures unread { let reports = joined_reports (λ w later. after w later) watch.old.items in
        IfOk result (λ a. ReadsNothing (bytes_of words.now) → (bytes : List ℕ)
        → AnswersReply (replies.reply reports (bytes_of words.now) bytes) a) }
    ensures of_words { IfOk result (λ a. IsOfRequest (request_in (bytes_of words.now)) a.status) }
    ensures untold { (IsAskedFor Mode.Log (bytes_of words.now) → ⊥) → watch.new ≡ watch.old }
    ensures untouched { ReadsNothing (bytes_of words.now) → source.new ≡ source.old }
    ensures emptied { IfOk result (λ a. ReadsInput (bytes_of words.now) → a.status ≢ Status.TooLong
        → WhereKnown (S.left source.old) (λ bytes. S.left source.new ≡ Some [])) }
    ensures status { IfOk result (λ a. IsOfAnswer a.status) }
    ensures fault { IsErrOf result Stop.ReadFault → Rose (S.faults source.old) (S.faults source.new) }
    ensures quiet { result ≢ Err Stop.ReadFault → S.faults source.new ≡ S.faults source.old }
    ensures reads { IsErrOf result Stop.ReadFault → ReadsInput (bytes_of words.now) }
{
    match request_of(words) {
        None => Ok(usage(alloc)?),
        Some(Request::Read(task)) => respond_to_input(alloc, task, source, watch),
        Some(Request::Import(vehicles)) => respond_to_file(alloc, vehicles, source),
        Some(Request::Generate(number)) => Ok(generated(alloc, number)?),
        Some(Request::Demo(number)) => Ok(demo(alloc, number)?),
    }
}

/// Writes an answer to the sink, and gives the number of the status with which a run ends. This is the status of the
/// answer, or that of what failed: the source, the memory or the sink. `vr_refine` calls it too.
pub fn deliver<K: Sink>(reply: Result<Answer, Stop>, sink: &mut K) -> u8
    ensures status { IsStatus result }
    ensures ends { Ends (λ k. K.written k) (λ k. K.faults k) (λ answer. reply ≡ Ok answer) (reply ≡ Err Stop.ReadFault)
        sink.old sink.new result }
    ensures stopped { reply ≡ Err Stop.ReadFault → result ≡ 2 }
    ensures quiet { result ≢ 3 → K.faults sink.new ≡ K.faults sink.old }
{
    match reply {
        Ok(answer) => match write_all(sink, answer.text.as_slice()) {
            Ok(()) => answer.status.number(),
            Err(_) => Status::WriteFault.number(),
        },
        Err(Stop::ReadFault) => Status::ReadFault.number(),
        Err(Stop::NoMemory) => Status::NoMemory.number(),
    }
}

// The same as `run`, by watchers that are lent. Each clause of `run` follows from those here.
fn run_lent<S: Source, K: Sink>(
    alloc: Global,
    words: &[String],
    source: &mut S,
    sink: &mut K,
    watch: &mut Watchers,
) -> u8
    ensures status { IsStatus result }
    ensures ran { let reports = joined_reports (λ w later. after w later) watch.old.items in
        Ran (λ k. K.written k) (λ k. K.faults k) reports (bytes_of words.now) (S.left source.old) (S.left source.new)
        (S.faults source.old) (S.faults source.new) sink.old sink.new result }
    ensures untouched { ReadsNothing (bytes_of words.now) → source.new ≡ source.old }
    ensures untold { (IsAskedFor Mode.Log (bytes_of words.now) → ⊥) → watch.new ≡ watch.old }
{
    let reply = respond(alloc, words, source, watch);
    deliver(reply, sink)
}

/// Does all that the program does, and gives its status.
///
/// `words` are the words after the program's name. These are accepted, and no others, with what is written on status 0:
///
/// - `first` reads a model, and writes the line of its first solution.
/// - `solve` reads a model, and writes the line of the best solution that the model's search finds from there.
/// - `solve --log` does the same, and after the line writes what each watcher reports of the search, in order.
/// - `check` reads an object of a `model` and a `solution`, and writes `{"cost":C,"status":"MEETS"}`.
/// - `spans` reads the same, and writes the line of how short each of its routes could be.
/// - `import K` reads a TSPLIB file of type CVRP, and writes the line of its model with K vehicles.
/// - `generate N` reads nothing, and writes the line of the model of number N.
/// - `demo N` reads nothing, and writes the line of a summary of the whole search of that model.
///
/// N and K are written in decimal digits, with no 0 in front of others. N is at most 2^64 - 1, and K is 1 to 100. What
/// is read is the source to its end, unless it fails, too many bytes come or memory runs out. C is the cost of the
/// solution, which keeps all rules of its model.
///
/// Each status, when it comes, and what is written:
///
/// - 0 exactly if the input is what the words ask for; of `generate` and `demo` always. What is said above is written.
/// - 1 exactly if the words are not accepted. Nothing is read; `{"status":"USAGE"}` is written.
/// - 2 exactly if the source failed in this call. Nothing is written.
/// - 3 exactly if the sink failed in this call; it comes in place of the text's status. A front of the text is written.
/// - 4, of all but `import`, exactly if the input is no JSON: `{"status":"NOT_JSON"}`.
/// - 5 exactly if reading finds a fault: `{"code":C,"path":"P","status":"ROUTING_INVALID"}`.
/// - 6, of `first` and `solve`, exactly if the model has no first solution: `{"status":"ROUTING_FAIL"}`.
/// - 7 if out of memory; nothing in the contract ties it to a refused growth. Nothing is written.
/// - 8 exactly if the input has more than 67108864 bytes: `{"status":"TOO_LONG"}`.
/// - 9, of `check` and `spans`, exactly if a rule is broken: `{"place":L,"rule":"R","status":"NOT_MET","vehicle":V}`.
///
/// "Exactly if" is said of calls that end with none of 2, 3 and 7. Statuses 4, 5 and 8 come of words that read alone,
/// 6 and 9 of those alone that are named with them. With 5, C is the code and P the path of the first fault of reading.
/// Of `import` P is a `/` and the number of the line, or `/0` for the file as a whole. With 9, R is the first rule
/// (`vr_check::Rule`) that is broken, with its vehicle V and place L. If one of these does not apply, it is -1.
///
/// An input is JSON if it is UTF-8 and `serde_json` reads a value from it, which may nest at most 127 deep. `first` and
/// `solve` ask for a model with a first solution: the lists at which its construction ends are valid. `check` and
/// `spans` ask for a solution that keeps all rules of the model beside it.
///
/// `spans` speaks of each used vehicle, in each dimension in which no vehicle has breaks. It gives the least span of
/// all schedules of the vehicle's line, and the printed span. With them comes the schedule of the least span whose
/// cumuls, compared from the start on, are least.
///
/// Only with `--log` is an event of the search noted, to every watcher in order. A watcher that has no memory for it
/// ends the run with status 7. All watchers are dropped at the end.
///
/// The words are looked at first, then the source is read. Then come the length, the JSON, the model, the construction
/// or the check, and the writing. Of `import` the file comes after the length, and then the writing. The first that
/// fails gives the status.
pub fn run<S: Source, K: Sink>(
    alloc: Global,
    words: &[String],
    source: &mut S,
    sink: &mut K,
    watch: Vec<Box<dyn Watch>>,
) -> u8
    ensures status { IsStatus result }

    // Status and text are those of the reply, and a front of it if the sink failed. With no failure it is whole, or
    // memory ran out.
    ensures reply { let reports = joined_reports (λ w later. after w later) watch.items in
        IsReply reports (program_run (bytes_of words.now)
        (S.left source.old) (S.left source.new) (S.faults source.old) (S.faults source.new)
        (K.written sink.old) (K.written sink.new) (K.faults sink.old) (K.faults sink.new) result) }
    ensures complete { let reports = joined_reports (λ w later. after w later) watch.items in
        IsComplete reports (program_run (bytes_of words.now)
        (S.left source.old) (S.left source.new) (S.faults source.old) (S.faults source.new)
        (K.written sink.old) (K.written sink.new) (K.faults sink.old) (K.faults sink.new) result) }

    // What the words ask for, exactly if it is given; and what is refused, exactly if it is.
    ensures solving { let reports = joined_reports (λ w later. after w later) watch.items in
        IsSolving reports (program_run (bytes_of words.now)
        (S.left source.old) (S.left source.new) (S.faults source.old) (S.faults source.new)
        (K.written sink.old) (K.written sink.new) (K.faults sink.old) (K.faults sink.new) result) }
    ensures checking { IsChecking (program_run (bytes_of words.now)
        (S.left source.old) (S.left source.new) (S.faults source.old) (S.faults source.new)
        (K.written sink.old) (K.written sink.new) (K.faults sink.old) (K.faults sink.new) result) }
    ensures importing { IsImporting (program_run (bytes_of words.now)
        (S.left source.old) (S.left source.new) (S.faults source.old) (S.faults source.new)
        (K.written sink.old) (K.written sink.new) (K.faults sink.old) (K.faults sink.new) result) }
    ensures cause { HasCause (program_run (bytes_of words.now)
        (S.left source.old) (S.left source.new) (S.faults source.old) (S.faults source.new)
        (K.written sink.old) (K.written sink.new) (K.faults sink.old) (K.faults sink.new) result) }

    // Failures of source and sink give 2 and 3, and nothing else does. On 2 and 7 nothing is written.
    ensures failed { HasFailed (program_run (bytes_of words.now)
        (S.left source.old) (S.left source.new) (S.faults source.old) (S.faults source.new)
        (K.written sink.old) (K.written sink.new) (K.faults sink.old) (K.faults sink.new) result) }
    ensures unwritten { (result ≡ 2) ⊎ (result ≡ 7) → sink.new ≡ sink.old }

    // Words that read have the source read to its end, unless it failed, too many bytes came or memory ran out.
    // Other words leave the source as it is.
    ensures emptied { let reports = joined_reports (λ w later. after w later) watch.items in
        IsEmptied reports (program_run (bytes_of words.now)
        (S.left source.old) (S.left source.new) (S.faults source.old) (S.faults source.new)
        (K.written sink.old) (K.written sink.new) (K.faults sink.old) (K.faults sink.new) result) }
    ensures untouched { ReadsNothing (bytes_of words.now) → source.new ≡ source.old }
{
    let mut watch = watch;
    run_lent(alloc, words, source, sink, &mut watch)
}
