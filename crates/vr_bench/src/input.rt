//! Works on the model at standard input and its first solution.

ghost use Rattle.std.specs.Prelude.{◌≡◌, IfOk, IfSome, IsTrue};
ghost use Rattle.vr_model.specs.routes.Rules.{is_valid};
ghost use Rattle.vr_model.specs.tables.Tables.{visits};

use crate::judged::time_judge;
use crate::listed::time_moves;
use crate::schedules::time_schedules;
use crate::solved::Solved;
use crate::stop::Stop;
use crate::verdict::print_verdict;
use serde_json::Value;
use std::alloc::Global;
use vr_io::{StdSource, read_all};
use vr_json::Path;
use vr_model::limits::MOST_INPUT_BYTES;
use vr_model::{Closed, NoMemory};
use vr_read::read_model;
use vr_routes::Routes;

/// Does a work on the model at standard input.
pub(crate) fn work_on_input(
    rt: &HostRuntime,
    alloc: Global,
    what: &str,
    number: u32,
) -> Result<(), Stop> {
    let value = value_of_input(rt, alloc)?;
    work_on_value(rt, alloc, &value, what, number)
}

// The JSON at standard input.
fn value_of_input(rt: &HostRuntime, alloc: Global) -> Result<Value, Stop> {
    let mut source = StdSource::new(rt.stdin());
    let Ok(bytes) = read_all(alloc, &mut source, MOST_INPUT_BYTES) else {
        return Err(Stop::NoRoute);
    };
    match Value::from_slice(alloc, &bytes) {
        Ok(value) => Ok(value),
        Err(_) => Err(Stop::NoRoute),
    }
}

// Does a work on the model of a value.
fn work_on_value(
    rt: &HostRuntime,
    alloc: Global,
    value: &Value,
    what: &str,
    number: u32,
) -> Result<(), Stop> {
    let model = read_model(alloc, value, &Path::root(alloc))?;
    work_on_model(rt, alloc, Closed { model: &model }, what, number)
}

// Does a work on a model and its first solution.
fn work_on_model(
    rt: &HostRuntime,
    alloc: Global,
    closed: Closed<'_>,
    what: &str,
    number: u32,
) -> Result<(), Stop> {
    match first(alloc, closed)? {
        Some(routes) => {
            let of = Solved {
                alloc,
                closed,
                routes: &routes,
            };
            work_on_solution(rt, of, what, number)
        }
        None => Err(Stop::NoRoute),
    }
}

// The first solution of a model, by the cheapest arcs.
fn first(alloc: Global, closed: Closed<'_>) -> Result<Option<Routes>, NoMemory>
    ensures of_model { IfOk result (λ found. IfSome found (λ routes. routes.visits ≡ visits closed.entry.model.now)) }
    ensures valid { IfOk result (λ found. IfSome found
        (λ routes. IsTrue (is_valid closed.entry.model.now routes.lists))) }
{
    vr_first_arc::first(alloc, closed.model)
}

// Does a work on the first solution of a model.
fn work_on_solution(rt: &HostRuntime, of: Solved<'_>, what: &str, number: u32) -> Result<(), Stop> {
    match what {
        "moves" => time_moves(rt, of, number),
        "judge" => time_judge(rt, of, number),
        "schedule" => time_schedules(rt, of, number),
        "ask" => print_verdict(rt, of, number),
        _ => Err(Stop::NoSuchWork),
    }
}
