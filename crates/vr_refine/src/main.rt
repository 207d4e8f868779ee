//! The second program: it prices routes that a planner gives, fills them up, and goes on from them. It searches as
//! their model says, or by ruin and recreate.
//!
//! An input is an object with a model. Beside it are the routes of its vehicles and what is asked of ruin and recreate,
//! if they are there (`vr_given`). Three words ask something of it. `price` says what the routes cost as they are, or
//! the first rule that they break. `first` says with which routes the model's own search begins. Given valid ones are
//! taken as they are, and given open ones are filled up by parallel cheapest insertion. Without any it is the first
//! solution. `solve` says the best routes that a search finds from there: ruin and recreate, if it is asked for, else
//! the model's own.
//!
//! What is replied to words and bytes is defined in `specs/Reply`, and `reply::run` gives it. What may be said of runs
//! of both programs is said in `vr_app` (`specs/Programs`); what is said of this one alone is in `specs/Promises`.
//! `vr_app` also has the search, the line and the texts, so that both programs write the same of the same routes.
//!
//! The way down begins at `main`, which has the words and the two standard streams, and `run_watched`, which has the
//! watchers. `reply` reads the source and writes to the sink. `answers` has the answer to a value: by `pricing`, or
//! from the routes with which a search begins (`begin`). The search is the model's own or that of `refining`. `inputs`
//! is what each word reads. It ends with the statuses of `vr_cli`.
#![tactic(auto)]

mod answers;
mod begin;
mod inputs;
mod pricing;
mod refining;
mod reply;
#[cfg(test)]
mod tests;
mod words;

ghost use Rattle.std.specs.Prelude.{◌≡◌, IfOk, OnErr};
ghost use Rattle.vr_app.specs.Programs.{program_run};
ghost use Rattle.vr_app.specs.Reports.{joined_reports};
ghost use Rattle.vr_app.specs.Runs.{bytes_of};
ghost use Rattle.vr_refine.specs.Logged.{IsLogged};
ghost use Rattle.vr_refine.specs.Reply.{log_of};

use crate::reply::run;
use std::alloc::{AllocError, Global};
use std::process::ExitCode;
use std::{env, io};
use vr_io::{Sink, Source, StdSink, StdSource};
use vr_watch::{Tally, Trace, Watch};

// As `run` ends if it finds no memory.
const NO_MEMORY: u8 = 7;

// No status of `run`: these are 0 to 9.
const NO_WORDS: u8 = 10;

fn main(rt: HostRuntime) -> ExitCode {
    let alloc = rt.alloc();
    let args = match env::args(&rt) {
        Ok(args) => args,
        Err(error) if error.kind() == io::ErrorKind::OutOfMemory => {
            return ExitCode::from(NO_MEMORY);
        }
        Err(_) => return ExitCode::from(NO_WORDS),
    };
    // the program's own name is before the words
    let Ok(words) = args.skip(1).collect::<Vec<String>>(alloc) else {
        return ExitCode::from(NO_MEMORY);
    };
    let mut source = StdSource::new(rt.stdin());
    let mut sink = StdSink::new(rt.stdout());
    let ran = run_watched(alloc, &words, &mut source, &mut sink);
    ExitCode::from(status_of(ran))
}

// The status with which the program ends: that of the run, or that there was no memory for its watchers.
fn status_of(ran: Result<u8, AllocError>) -> u8
    ensures given { IfOk ran (λ status. result ≡ status) }
    ensures no_memory { OnErr ran (result ≡ 7) }
{
    ran.unwrap_or(NO_MEMORY)
}

// Runs with some watchers, and hands on all that `run` promises: what is written is the reply of the definition, with
// their reports.
fn run_with<S: Source, K: Sink>(
    alloc: Global,
    words: &[String],
    source: &mut S,
    sink: &mut K,
    watch: Vec<Box<dyn Watch>>,
) -> u8
    ensures { let reports = joined_reports (λ w later. after w later) watch.items in
        IsLogged reports (program_run (bytes_of words.now)
        (S.left source.old) (S.left source.new) (S.faults source.old) (S.faults source.new)
        (K.written sink.old) (K.written sink.new) (K.faults sink.old) (K.faults sink.new) result)
        (record { old = source.old; new = source.new }) (record { old = sink.old; new = sink.new }) }
{
    run(alloc, words, source, sink, watch)
}

// Runs with a tally and a trace, which report in this order. What is written is the reply of the definition, with the
// log of the search's events. It fails only if memory for these watchers runs out; then nothing is read or written.
fn run_watched<S: Source, K: Sink>(
    alloc: Global,
    words: &[String],
    source: &mut S,
    sink: &mut K,
) -> Result<u8, AllocError>
    ensures logged { IfOk result (λ given. IsLogged log_of (program_run (bytes_of words.now)
        (S.left source.old) (S.left source.new) (S.faults source.old) (S.faults source.new)
        (K.written sink.old) (K.written sink.new) (K.faults sink.old) (K.faults sink.new) given)
        (record { old = source.old; new = source.new }) (record { old = sink.old; new = sink.new })) }
    ensures unread { OnErr result (source.new ≡ source.old) }
    ensures unwritten { OnErr result (sink.new ≡ sink.old) }
{
    let mut watch: Vec<Box<dyn Watch>> = Vec::new(alloc);
    watch.push(Box::new(alloc, Tally::new(alloc))?)?;
    watch.push(Box::new(alloc, Trace::new(alloc))?)?;
    Ok(run_with(alloc, words, source, sink, watch))
}
