//! The time that the earliest schedule of a list takes.

ghost use Rattle.std.specs.Prelude.{IfOk, IsTrue};
ghost use Rattle.vr_model.specs.routes.Routes.{are_lists};
ghost use Rattle.vr_steps.specs.Lines.{IsSoundLine};

use crate::report::{TIMES, Timed, report};
use crate::solved::Solved;
use crate::stop::Stop;
use std::alloc::Global;
use std::time::Instant;
use vr_model::{Closed, ScheduleRule};
use vr_plan::schedule;
use vr_routes::Routes;
use vr_steps::Line;

// The line of the list of vehicle 0 in dimension 0.
fn first_line(alloc: Global, closed: Closed<'_>, routes: &Routes) -> Result<Line, Stop>
    requires { IsTrue (are_lists closed.model.now routes.now.lists) }
    ensures { IfOk result IsSoundLine }
{
    if closed.model.dimensions.len() == 0 || routes.len(0) == 0 {
        return Err(Stop::NoRoute);
    }
    Ok(Line::build(alloc, closed.model, 0, 0, routes.list(0))?)
}

// How many cumuls the earliest schedule of a line has.
fn cumuls_of(alloc: Global, line: &Line) -> Result<i64, Stop>
    requires { IsSoundLine line.now }
{
    match schedule(alloc, line, ScheduleRule::Earliest)? {
        Some(plan) => Ok(plan.cumuls.len() as i64),
        None => Err(Stop::NoRoute),
    }
}

// The time of the earliest schedule of a line.
fn time_rounds(rt: &HostRuntime, alloc: Global, line: &Line, rounds: u32) -> Result<Timed, Stop>
    requires { IsSoundLine line.now }
{
    let mut sum: i64 = 0;
    let start = Instant::now(rt)?;
    for _ in 0..rounds {
        sum = sum.wrapping_add(cumuls_of(alloc, line)?);
    }
    let nanos = start.elapsed(rt)?.as_nanos();
    Ok(Timed {
        calls: u128::from(rounds),
        sum,
        nanos,
    })
}

// Prints the times of the earliest schedule of a line.
fn report_line(rt: &HostRuntime, alloc: Global, line: &Line, rounds: u32) -> Result<(), Stop>
    requires { IsSoundLine line.now }
{
    for _ in 0..TIMES {
        report(rt, "schedule", time_rounds(rt, alloc, line, rounds)?)?;
    }
    Ok(())
}

/// Prints the times of the earliest schedule of the list of vehicle 0, in the first dimension.
pub(crate) fn time_schedules(rt: &HostRuntime, of: Solved<'_>, rounds: u32) -> Result<(), Stop> {
    let line = first_line(of.alloc, of.closed, of.routes)?;
    report_line(rt, of.alloc, &line, rounds)
}
