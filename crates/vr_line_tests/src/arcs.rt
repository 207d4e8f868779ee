//! Crossing an arc with a break, with ample memory.

ghost use Rattle.std.specs.Prelude.{◌≡◌, ◌<◌, All, IfOk, length};
ghost use Rattle.vr_model.specs.tables.WellFormed.{IsBreak};
ghost use Rattle.vr_steps.specs.Arcs.{IsSoundHop};
ghost use Rattle.vr_steps.specs.CumulRuns.{IsCumulRun};
ghost use Rattle.vr_steps.specs.Levels.{IsCumuls, AreLevels};

use crate::levels::{Extent, NOTHING, gives};
use arrayvec::ArrayVec;
use std::alloc::Global;
use std::marker::Brand;
use std::process::Abort;
use std::sync::ledger::{Blank, Ledger};
use std::test::Fail;
use vr_model::{BreakRow, NoMemory, Steps};
use vr_spans::{Run, Spans};
use vr_steps::{Breaks, Hop, Levels, cross, cross_back, end_levels, start_levels};

// The set of these runs of cumuls.
fn cumuls(alloc: Global, runs: &[Run]) -> Result<Spans, vr_spans::NoMemory>
    requires { All IsCumulRun runs.now }
    ensures { IfOk result IsCumuls }
{
    Spans::from_runs(alloc, runs)
}

// An arc of transit 10 and slack 20, from a visit that takes 2.
fn long_arc() -> Hop
    ensures { IsSoundHop result }
{
    Hop {
        transit: 10,
        slack: 20,
        visit: 2,
    }
}

// One break that starts from 4 to 6 and lasts 5.
fn one_break() -> Breaks
    ensures breaks { All IsBreak result }
    ensures one { length result ≡ 1 }
{
    let mut rows = ArrayVec::new();
    rows.push(BreakRow {
        from: 4,
        to: 6,
        duration: 5,
    });
    Breaks { rows }
}

// Which way the arc is crossed.
#[derive(Clone, Copy)]
enum Way {
    Ahead,
    Back,
}

// The levels at the other end of the arc, if the stop allows `all`.
fn crossed<L: Ledger>(
    alloc: Global,
    way: Way,
    levels: &Levels,
    all: &Spans,
    breaks: &Breaks,
    blank: Blank,
) -> Result<Levels, NoMemory>
    requires name { blank.name ≡ L.name }
    requires parts { blank.parts ≡ L.parts }
    requires some { 0 < blank.parts }
    requires levels { AreLevels breaks.now levels.now }
    requires all { IsCumuls all.now }
    requires breaks { All IsBreak breaks.now }
    requires one { length breaks.now ≡ 1 }
{
    let mut steps = Steps::<L>::new(blank);
    match way {
        Way::Ahead => cross(alloc, levels, long_arc(), all, breaks, &mut steps),
        Way::Back => cross_back(alloc, levels, long_arc(), all, breaks, &mut steps),
    }
}

// What is known at one end of the arc, and what that makes at the other.
#[derive(Clone, Copy)]
struct Crossing {
    way: Way,
    here: [Extent; 2],
    there: [Extent; 2],
}

// From a start at 0.
const AHEAD: Crossing = Crossing {
    way: Way::Ahead,
    here: [(1, Some(0), Some(0)), NOTHING],
    there: [(1, Some(10), Some(30)), (1, Some(15), Some(30))],
};

// To an end that allows all.
const BACK: Crossing = Crossing {
    way: Way::Back,
    here: [(1, Some(0), Some(6)), (1, Some(0), Some(100))],
    there: [(1, Some(0), Some(4)), (1, Some(0), Some(90))],
};

// What is reached from levels.
fn assert_crossed(
    rt: &impl Abort,
    alloc: Global,
    crossing: Crossing,
    levels: &Levels,
    all: &Spans,
    breaks: &Breaks,
)
    requires levels { AreLevels breaks.now levels.now }
    requires all { IsCumuls all.now }
    requires breaks { All IsBreak breaks.now }
    requires one { length breaks.now ≡ 1 }
{
    assert!(rt; gives(levels.copy(alloc), &crossing.here));
    let there = crossed::<Brand>(alloc, crossing.way, levels, all, breaks, Blank::new(1));
    assert!(rt; gives(there, &crossing.there));
}

// The levels of a start at 0.
fn start(alloc: Global, breaks: &Breaks) -> Result<Levels, NoMemory>
    requires breaks { All IsBreak breaks.now }
    requires one { length breaks.now ≡ 1 }
    ensures { IfOk result (AreLevels breaks.now) }
{
    match cumuls(alloc, &[Run { lo: 0, hi: 0 }]) {
        Ok(zero) => start_levels(alloc, &zero, breaks),
        Err(_) => Err(NoMemory),
    }
}

#[test]
fn a_break_is_taken_on_the_way(rt: HostRuntime) -> Result<(), Fail> {
    let alloc = rt.alloc();
    let breaks = one_break();
    let all = cumuls(alloc, &[Run { lo: 0, hi: 100 }])?;
    match start(alloc, &breaks) {
        Ok(from) => assert_crossed(&rt, alloc, AHEAD, &from, &all, &breaks),
        Err(_) => assert!(rt; false),
    }
    match end_levels(alloc, &all, &breaks) {
        Ok(to) => assert_crossed(&rt, alloc, BACK, &to, &all, &breaks),
        Err(_) => assert!(rt; false),
    }
    Ok(())
}
