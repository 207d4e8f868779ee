//! What the program does with the source and the sink.

ghost use Rattle.std.specs.Prelude.{◌≡◌, ◌≢◌, ◌⊎◌, List, ℕ, [], Err, Some, IfOk, IsErrOf, false};
ghost use Rattle.vr_io.specs.Edges.{Rose};
ghost use Rattle.vr_app.specs.Answers.{AnswersReply, IsOfAnswer, IsOfInput};
ghost use Rattle.vr_app.specs.Programs.{program_run};
ghost use Rattle.vr_app.specs.Reply as shared;
ghost use Rattle.vr_app.specs.Reports.{joined_reports};
ghost use Rattle.vr_app.specs.Runs.{bytes_of, WhereKnown};
ghost use Rattle.vr_app.specs.Status.{IsStatus};
ghost use Rattle.vr_refine.specs.Ended.{Ran};
ghost use Rattle.vr_refine.specs.Promises.{AsksPrice, HasCause, HasFailed, IsAskedFor, IsComplete, IsEmptied};
ghost use Rattle.vr_refine.specs.Promises.{IsNotAccepted, IsPricing, IsReply, IsSearching, IsSolutionAsked, ReadsInput};
ghost use Rattle.vr_refine.specs.Reply as replies;
ghost use Rattle.vr_refine.specs.Words.{is_read, request_of as request_in};

use crate::answers::answer_input;
use crate::words::{Request, request_of};
use std::alloc::Global;
use vr_app::{Answer, Mode, Status, Stop, Watchers, deliver, too_long, usage};
use vr_io::{ReadError, Sink, Source, read_all};
use vr_model::limits::MOST_INPUT_BYTES;
use vr_watch::Watch;

// The answer to what the source gives.
fn respond_to_input<S: Source>(
    alloc: Global,
    request: Request,
    source: &mut S,
    watch: &mut Watchers,
) -> Result<Answer, Stop>
    ensures reply { let reports = joined_reports (λ w later. after w later) watch.old.items in
        IfOk result (λ a. WhereKnown (S.left source.old) (λ bytes.
        AnswersReply (shared.reply_to_bytes (replies.reply_to_tree request reports) bytes) a)) }
    ensures emptied { IfOk result (λ a. a.status ≢ Status.TooLong
        → WhereKnown (S.left source.old) (λ bytes. S.left source.new ≡ Some [])) }
    ensures status { IfOk result (λ a. IsOfInput a.status) }
    ensures not_met_only { IfOk result (λ a. a.status ≡ Status.NotMet → request ≡ Request.Price) }
    ensures none_found_only { IfOk result (λ a. a.status ≡ Status.NoneFound → request ≢ Request.Price) }
    ensures untold { request ≢ Request.Find Mode.Log → watch.new ≡ watch.old }
    ensures fault { IsErrOf result Stop.ReadFault → Rose (S.faults source.old) (S.faults source.new) }
    ensures quiet { result ≢ Err Stop.ReadFault → S.faults source.new ≡ S.faults source.old }
{
    match read_all(alloc, source, MOST_INPUT_BYTES) {
        Ok(bytes) => Ok(answer_input(alloc, request, bytes, watch)?),
        Err(ReadError::TooLong) => Ok(too_long(alloc)?),
        Err(ReadError::ReadFault) => Err(Stop::ReadFault),
        Err(ReadError::NoMemory) => Err(Stop::NoMemory),
    }
}

// The answer to words and what the source gives.
fn respond<S: Source>(
    alloc: Global,
    words: &[String],
    source: &mut S,
    watch: &mut Watchers,
) -> Result<Answer, Stop>
    ensures reply { let reports = joined_reports (λ w later. after w later) watch.old.items in
        IfOk result (λ a. WhereKnown (S.left source.old) (λ bytes.
        AnswersReply (replies.reply reports (bytes_of words.now) bytes) a)) }
    ensures unread { let reports = joined_reports (λ w later. after w later) watch.old.items in
        IfOk result (λ a. is_read (request_in (bytes_of words.now)) ≡ false → (bytes : List ℕ)
        → AnswersReply (replies.reply reports (bytes_of words.now) bytes) a) }
    ensures usage_only { IfOk result (λ a. a.status ≡ Status.Usage → IsNotAccepted (bytes_of words.now)) }
    ensures not_met_only { IfOk result (λ a. a.status ≡ Status.NotMet → AsksPrice (bytes_of words.now)) }
    ensures none_found_only { IfOk result (λ a. a.status ≡ Status.NoneFound → IsSolutionAsked (bytes_of words.now)) }
    ensures untold { (IsAskedFor Mode.Log (bytes_of words.now) → ⊥) → watch.new ≡ watch.old }
    ensures untouched { IsNotAccepted (bytes_of words.now) → source.new ≡ source.old }
    ensures emptied { IfOk result (λ a. ReadsInput (bytes_of words.now) → a.status ≢ Status.TooLong
        → WhereKnown (S.left source.old) (λ bytes. S.left source.new ≡ Some [])) }
    ensures status { IfOk result (λ a. IsOfAnswer a.status) }
    ensures fault { IsErrOf result Stop.ReadFault → Rose (S.faults source.old) (S.faults source.new) }
    ensures quiet { result ≢ Err Stop.ReadFault → S.faults source.new ≡ S.faults source.old }
    ensures reads { IsErrOf result Stop.ReadFault → ReadsInput (bytes_of words.now) }
{
    match request_of(words) {
        None => Ok(usage(alloc)?),
        Some(request) => respond_to_input(alloc, request, source, watch),
    }
}

// The same as `run`, by watchers that are lent. Each clause of `run` follows from those here.
fn run_lent<S: Source, K: Sink>(
    alloc: Global,
    words: &[String],
    source: &mut S,
    sink: &mut K,
    watch: &mut Watchers,
) -> u8
    ensures status { IsStatus result }
    ensures ran { let reports = joined_reports (λ w later. after w later) watch.old.items in
        Ran (λ k. K.written k) (λ k. K.faults k) reports (bytes_of words.now) (S.left source.old) (S.left source.new)
        (S.faults source.old) (S.faults source.new) sink.old sink.new result }
    ensures untouched { IsNotAccepted (bytes_of words.now) → source.new ≡ source.old }
    ensures untold { (IsAskedFor Mode.Log (bytes_of words.now) → ⊥) → watch.new ≡ watch.old }
{
    let reply = respond(alloc, words, source, watch);
    deliver(reply, sink)
}

/// Does all that the program does, and gives its status.
///
/// `words` are the words after the program's name. These are accepted, and no others:
///
/// | words | reads | writes on status 0 |
/// |---|---|---|
/// | `price` | a model and routes | the line of these routes as they are |
/// | `first` | a model, and routes or none | the line of the routes with which the model's search begins |
/// | `solve` | the same | the line of the best routes that a search finds from there |
/// | `solve --log` | the same | the same, and after it what each watcher reports of the search, in order |
///
/// What is read is an object with the field `model`, and beside it `routes` and `refine`, if they are there
/// (`vr_given::read_given`). A search begins with given valid routes as they are. Given open routes are filled up by
/// parallel cheapest insertion, and taken if that makes them valid. Without any it begins with the first solution.
///
/// With `refine`, `solve` searches by ruin and recreate in place of the search that the model names. Such a search may
/// begin with routes that lack something. Those that insertion fills up need not be valid then, and without any it
/// begins with the routes at which the model's construction ends. `price` and `first` read `refine` and do not use it.
///
/// | status | comes | written |
/// |---|---|---|
/// | 0 | exactly if the input is what the words ask for | as above |
/// | 1 | exactly if the words are not accepted; nothing is read | `{"status":"USAGE"}` |
/// | 2 | only if the source failed in this call | nothing |
/// | 3 | only if the sink failed in this call; it comes in place of the status of the text | a front of the text |
/// | 4 | exactly if the input is no JSON | `{"status":"NOT_JSON"}` |
/// | 5 | exactly if reading finds a fault | `{"code":C,"path":"P","status":"ROUTING_INVALID"}` |
/// | 6 | of `first` and `solve`, exactly if nothing is found | `{"status":"ROUTING_FAIL"}` |
/// | 7 | memory ran out; nothing in the contract ties it to a refused growth | nothing |
/// | 8 | exactly if the input has more than 67108864 bytes | `{"status":"TOO_LONG"}` |
/// | 9 | `price`: exactly if a rule is broken | `{"place":L,"rule":"R","status":"NOT_MET","vehicle":V}` |
///
/// With 5, C is the code and P the path of the first fault of reading. That `price` finds no routes comes after all
/// other faults. With 6 there are no routes to begin with, or the best routes of ruin and recreate lack something. With
/// 9, R is the first rule (`vr_given::ListRule`) that is broken, with its vehicle V and place L. Either is -1 if it
/// does not apply.
///
/// Of routes that are priced, both the cost and the first cost are theirs. Of routes that are found, the first cost is
/// that of the routes with which the search began. If these lack something, it is that of the first ones that the
/// search had which lack nothing. Statuses 4, 5 and 8 come of accepted words alone, 6 and 9 of those alone that are
/// named with them.
///
/// Only with `--log` is an event of the search noted, to every watcher in order. A watcher that finds no memory for it
/// ends the run with status 7. All watchers are dropped at the end.
///
/// The words are looked at first, and then the source is read. Then come the length, the JSON, the fields, the rules or
/// the beginning, and the writing. The first that fails gives the status. "Exactly if" is said of calls that end with
/// none of 2, 3 and 7.
pub fn run<S: Source, K: Sink>(
    alloc: Global,
    words: &[String],
    source: &mut S,
    sink: &mut K,
    watch: Vec<Box<dyn Watch>>,
) -> u8
    ensures status { IsStatus result }

    // Status and text are those of the reply, and a front of it if the sink failed. With no failure it is whole, or
    // memory was wanting.
    ensures reply { let reports = joined_reports (λ w later. after w later) watch.items in
        IsReply reports (program_run (bytes_of words.now)
        (S.left source.old) (S.left source.new) (S.faults source.old) (S.faults source.new)
        (K.written sink.old) (K.written sink.new) (K.faults sink.old) (K.faults sink.new) result) }
    ensures complete { let reports = joined_reports (λ w later. after w later) watch.items in
        IsComplete reports (program_run (bytes_of words.now)
        (S.left source.old) (S.left source.new) (S.faults source.old) (S.faults source.new)
        (K.written sink.old) (K.written sink.new) (K.faults sink.old) (K.faults sink.new) result) }

    // What the words ask for, exactly if it is given; and what is refused, exactly if it is.
    ensures pricing { IsPricing (program_run (bytes_of words.now)
        (S.left source.old) (S.left source.new) (S.faults source.old) (S.faults source.new)
        (K.written sink.old) (K.written sink.new) (K.faults sink.old) (K.faults sink.new) result) }
    ensures searching { let reports = joined_reports (λ w later. after w later) watch.items in
        IsSearching reports (program_run (bytes_of words.now)
        (S.left source.old) (S.left source.new) (S.faults source.old) (S.faults source.new)
        (K.written sink.old) (K.written sink.new) (K.faults sink.old) (K.faults sink.new) result) }
    ensures cause { HasCause (program_run (bytes_of words.now)
        (S.left source.old) (S.left source.new) (S.faults source.old) (S.faults source.new)
        (K.written sink.old) (K.written sink.new) (K.faults sink.old) (K.faults sink.new) result) }

    // Only failures of source and sink give 2 and 3. On 2 and 7 nothing is written.
    ensures failed { HasFailed (program_run (bytes_of words.now)
        (S.left source.old) (S.left source.new) (S.faults source.old) (S.faults source.new)
        (K.written sink.old) (K.written sink.new) (K.faults sink.old) (K.faults sink.new) result) }
    ensures unwritten { (result ≡ 2) ⊎ (result ≡ 7) → sink.new ≡ sink.old }

    // Accepted words have the source read to its end, unless it failed, too many bytes came or memory was wanting.
    // Others leave it as it is.
    ensures emptied { let reports = joined_reports (λ w later. after w later) watch.items in
        IsEmptied reports (program_run (bytes_of words.now)
        (S.left source.old) (S.left source.new) (S.faults source.old) (S.faults source.new)
        (K.written sink.old) (K.written sink.new) (K.faults sink.old) (K.faults sink.new) result) }
    ensures untouched { IsNotAccepted (bytes_of words.now) → source.new ≡ source.old }
{
    let mut watch = watch;
    run_lent(alloc, words, source, sink, &mut watch)
}
