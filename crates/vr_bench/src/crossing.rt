//! Crossing an arc, and the meet of two sets.

ghost use Rattle.std.specs.Prelude.{◌≡◌, ◌<◌, ◌≤◌, ◌≤ℤ◌, ◌*◌, [], All, IfOk, OnOk, length, pos};
ghost use Rattle.vr_model.specs.tables.WellFormed.{IsBreak};
ghost use Rattle.vr_steps.specs.Arcs.{IsSoundHop};
ghost use Rattle.vr_steps.specs.CumulRuns.{IsCumulRun};
ghost use Rattle.vr_steps.specs.Levels.{AreLevels, IsCrossing, IsCumuls};

use crate::report::{TIMES, Timed, report};
use crate::stop::Stop;
use arrayvec::ArrayVec;
use std::alloc::Global;
use std::marker::Brand;
use std::sync::ledger::{Blank, Ledger};
use std::time::Instant;
use vr_model::{BreakRow, NoMemory, Steps};
use vr_spans::{Run, Spans};
use vr_steps::{Breaks, Hop, Levels, cross_into, start_levels};

// How many arcs a round crosses.
const ARCS: u32 = 64;

// The set of these runs of cumuls.
fn set_of(alloc: Global, runs: &[Run]) -> Result<Spans, vr_spans::NoMemory>
    requires { All IsCumulRun runs.now }
    ensures { IfOk result IsCumuls }
{
    Spans::from_runs(alloc, runs)
}

// A set of `count` runs, 1, 2 or 4, each of which leaves one number out.
fn cumuls(alloc: Global, count: u32) -> Result<Spans, vr_spans::NoMemory>
    ensures { IfOk result IsCumuls }
{
    let first = Run { lo: 0, hi: 8 };
    let second = Run { lo: 10, hi: 18 };
    let third = Run { lo: 20, hi: 28 };
    let fourth = Run { lo: 30, hi: 38 };
    match count {
        1 => set_of(alloc, &[first]),
        2 => set_of(alloc, &[first, second]),
        _ => set_of(alloc, &[first, second, third, fourth]),
    }
}

// The arc of a round: every second round it has a slack of 1 more.
fn hop_of(round: u32, slack: i64) -> Hop
    requires { (pos 0 ≤ℤ slack) × (slack ≤ℤ pos 100) }
    ensures { IsSoundHop result }
{
    Hop {
        transit: 0,
        slack: slack + i64::from(round % 2),
        visit: 0,
    }
}

#[inline(never)]
fn cross_all<L: Ledger>(
    next: &Spans,
    hop: Hop,
    breaks: &Breaks,
    steps: &mut Steps<L>,
    a: &mut Levels,
    b: &mut Levels,
) -> Result<(), NoMemory>
    requires { IsCrossing a.old hop next.now breaks.now }
    ensures { OnOk result (AreLevels breaks.now a.new) }
{
    'arcs: for _ in 0..ARCS / 2 {
        cross_into(a, hop, next, breaks, steps, b)?;
        cross_into(b, hop, next, breaks, steps, a)?;
    }
    Ok(())
}

// The time of crossing a chain of arcs between two sets of levels, this many rounds.
fn time_rounds<L: Ledger>(
    rt: &HostRuntime,
    next: &Spans,
    slack: i64,
    breaks: &Breaks,
    rounds: u32,
    a: &mut Levels,
    b: &mut Levels,
    blank: Blank,
) -> Result<Timed, Stop>
    requires named { blank.name ≡ L.name }
    requires parted { blank.parts ≡ L.parts }
    requires some { 0 < blank.parts }
    requires slack { (pos 0 ≤ℤ slack) × (slack ≤ℤ pos 100) }
    requires breaks { All IsBreak breaks.now }
    requires few { length breaks.now ≤ 8 }
    requires next { IsCumuls next.now }
    requires begun { AreLevels breaks.now a.old }
{
    let mut steps = Steps::<L>::new(blank);
    let mut sum: i64 = 0;
    let start = Instant::now(rt)?;
    for round in 0..rounds {
        cross_all(next, hop_of(round, slack), breaks, &mut steps, a, b)?;
        sum = sum.wrapping_add(a.level(0).greatest().unwrap_or(0));
    }
    let nanos = start.elapsed(rt)?.as_nanos();
    Ok(Timed {
        calls: u128::from(rounds) * u128::from(ARCS),
        sum,
        nanos,
    })
}

// The time of crossing into a set, from that set, with these breaks.
fn time_cross(
    rt: &HostRuntime,
    alloc: Global,
    next: &Spans,
    slack: i64,
    breaks: &Breaks,
    rounds: u32,
) -> Result<Timed, Stop>
    requires slack { (pos 0 ≤ℤ slack) × (slack ≤ℤ pos 100) }
    requires breaks { All IsBreak breaks.now }
    requires few { length breaks.now ≤ 8 }
    requires next { IsCumuls next.now }
{
    let mut a = start_levels(alloc, next, breaks)?;
    let mut b = Levels::new(alloc);
    time_rounds::<Brand>(
        rt,
        next,
        slack,
        breaks,
        rounds,
        &mut a,
        &mut b,
        Blank::new(1),
    )
}

#[inline(never)]
fn meet_all(next: &Spans, a: &mut Spans, b: &mut Spans) -> Result<(), vr_spans::NoMemory> {
    for _ in 0..ARCS / 2 {
        a.meet_into(next, b)?;
        b.meet_into(next, a)?;
    }
    Ok(())
}

// The time of meeting a set with two others in turn, this many rounds.
fn time_meeting(
    rt: &HostRuntime,
    next: &Spans,
    a: &mut Spans,
    b: &mut Spans,
    rounds: u32,
) -> Result<Timed, Stop> {
    let mut sum: i64 = 0;
    let start = Instant::now(rt)?;
    for _ in 0..rounds {
        meet_all(next, a, b)?;
        sum = sum.wrapping_add(a.greatest().unwrap_or(0));
    }
    let nanos = start.elapsed(rt)?.as_nanos();
    Ok(Timed {
        calls: u128::from(rounds) * u128::from(ARCS),
        sum,
        nanos,
    })
}

// The time of the meet of two sets of this many runs.
fn time_meet(rt: &HostRuntime, alloc: Global, count: u32, rounds: u32) -> Result<Timed, Stop> {
    let next = cumuls(alloc, count)?;
    let mut a = cumuls(alloc, count)?;
    let mut b = Spans::new(alloc);
    time_meeting(rt, &next, &mut a, &mut b, rounds)
}

/// The times of the meet of two sets of 1, 2 and 4 runs.
pub(crate) fn time_meets(rt: &HostRuntime, alloc: Global, rounds: u32) -> Result<(), Stop> {
    for _ in 0..TIMES {
        report(rt, "meet, 1 run", time_meet(rt, alloc, 1, rounds)?)?;
        report(rt, "meet, 2 runs", time_meet(rt, alloc, 2, rounds)?)?;
        report(rt, "meet, 4 runs", time_meet(rt, alloc, 4, rounds)?)?;
    }
    Ok(())
}

// No breaks.
fn no_breaks() -> Breaks
    ensures { result ≡ [] }
{
    Breaks {
        rows: ArrayVec::new(),
    }
}

// Two breaks of 10, anywhere.
fn two_breaks() -> Breaks
    ensures breaks { All IsBreak result }
    ensures few { length result ≤ 8 }
{
    let row = BreakRow {
        from: 0,
        to: 1000,
        duration: 10,
    };
    let mut rows = ArrayVec::new();
    rows.push(row);
    rows.push(row);
    Breaks { rows }
}

// The time of crossing without breaks, with this many runs in each set.
fn time_plain(rt: &HostRuntime, alloc: Global, count: u32, rounds: u32) -> Result<Timed, Stop> {
    let next = cumuls(alloc, count)?;
    let breaks = no_breaks();
    time_cross(rt, alloc, &next, 0, &breaks, rounds)
}

// The time of crossing with two breaks, one run in each set.
fn time_breaks(rt: &HostRuntime, alloc: Global, rounds: u32) -> Result<Timed, Stop> {
    let next = set_of(alloc, &[Run { lo: 0, hi: 1000 }])?;
    let breaks = two_breaks();
    time_cross(rt, alloc, &next, 99, &breaks, rounds)
}

/// The times of crossing with 1, 2 and 4 runs in each set, and with two breaks and one run in each.
pub(crate) fn time_crossings(rt: &HostRuntime, alloc: Global, rounds: u32) -> Result<(), Stop> {
    for _ in 0..TIMES {
        report(rt, "cross, 1 run", time_plain(rt, alloc, 1, rounds)?)?;
        report(rt, "cross, 2 runs", time_plain(rt, alloc, 2, rounds)?)?;
        report(rt, "cross, 4 runs", time_plain(rt, alloc, 4, rounds)?)?;
        report(rt, "cross, two breaks", time_breaks(rt, alloc, rounds)?)?;
    }
    Ok(())
}
