//! Sets of a few runs, and of more than are held in place, with ample memory.

ghost use Rattle.std.specs.Prelude.{All, IfOk, pos, ◌≤ℤ◌};
ghost use Rattle.vr_spans.specs.Runs.{StaysWithin};
ghost use Rattle.vr_spans.specs.ShortRuns.{IsShort};

use std::alloc::Global;
use std::test::Fail;
use vr_spans::{NoMemory, Run, Spans};

// Whether a set has the runs with these ends.
fn has_runs(set: &Spans, wanted: &[(i64, i64)]) -> bool {
    for (k, &(lo, hi)) in wanted.iter().enumerate() {
        if k >= set.len() || set.run(k) != (Run { lo, hi }) {
            return false;
        }
    }
    set.len() == wanted.len()
}

// Whether a set was made, of these runs.
fn gives(made: Result<Spans, NoMemory>, wanted: &[(i64, i64)]) -> bool {
    match made {
        Ok(set) => has_runs(&set, wanted),
        Err(_) => false,
    }
}

#[test]
fn neighbours_are_joined(rt: HostRuntime) {
    let runs = [
        Run { lo: 3, hi: 5 },
        Run { lo: 6, hi: 9 },
        Run { lo: 1, hi: 1 },
    ];
    assert!(rt; gives(Spans::from_runs(rt.alloc(), &runs), &[(1, 1), (3, 9)]));
}

// Five runs from `lo` to `hi`, each ten above the one before.
fn ten_apart(lo: i64, hi: i64) -> [Run; 5]
    requires least { pos 0 ≤ℤ lo }
    requires in_order { lo ≤ℤ hi }
    requires greatest { hi ≤ℤ pos 8 }
    ensures { All IsShort result }
{
    [
        Run { lo, hi },
        Run {
            lo: lo + 10,
            hi: hi + 10,
        },
        Run {
            lo: lo + 20,
            hi: hi + 20,
        },
        Run {
            lo: lo + 30,
            hi: hi + 30,
        },
        Run {
            lo: lo + 40,
            hi: hi + 40,
        },
    ]
}

// A set of runs of small numbers.
fn small_set(alloc: Global, runs: &[Run]) -> Result<Spans, NoMemory>
    requires { All IsShort runs.now }
    ensures { IfOk result (StaysWithin (pos 0) (pos 2)) }
{
    Spans::from_runs(alloc, runs)
}

// What is asked of two sets.
#[derive(Clone, Copy)]
enum Call {
    Copy,
    Union,
    Meet,
    Minus,
    // 1 or 2 above numbers of the first, in the second
    Reach,
    // 2 above numbers of the first
    Shift,
    // 0 to 2 above numbers of the first
    Grow,
}

// The numbers that those of a set lead to.
fn reached(low: &Spans, high: &Spans) -> Result<Spans, NoMemory> {
    let mut reached = low.fresh();
    low.reach_into(1, 2, high, &mut reached)?;
    Ok(reached)
}

fn answer(call: Call, low: &Spans, high: &Spans) -> Result<Spans, NoMemory>
    requires { StaysWithin (pos 0) (pos 2) low.now }
{
    match call {
        Call::Copy => low.copy(),
        Call::Union => low.union(high),
        Call::Meet => low.meet(high),
        Call::Minus => low.minus(high),
        Call::Reach => reached(low, high),
        Call::Shift => low.shift(2),
        Call::Grow => low.grow(2),
    }
}

// A call, and the ends of the runs that it gives of 0..=3 and 3..=6, each five times, ten apart.
type Row = (&'static str, Call, [(i64, i64); 5]);

#[rattlefmt::skip]
static ROWS: [Row; 7] = [
    ("the same", Call::Copy, [(0, 3), (10, 13), (20, 23), (30, 33), (40, 43)]),
    ("in one of both", Call::Union, [(0, 6), (10, 16), (20, 26), (30, 36), (40, 46)]),
    ("in both", Call::Meet, [(3, 3), (13, 13), (23, 23), (33, 33), (43, 43)]),
    ("in the first alone", Call::Minus, [(0, 2), (10, 12), (20, 22), (30, 32), (40, 42)]),
    ("led to", Call::Reach, [(3, 5), (13, 15), (23, 25), (33, 35), (43, 45)]),
    ("moved", Call::Shift, [(2, 5), (12, 15), (22, 25), (32, 35), (42, 45)]),
    ("stretched", Call::Grow, [(0, 5), (10, 15), (20, 25), (30, 35), (40, 45)]),
];

fn all_hold(low: &Spans, high: &Spans) -> Result<(), Fail>
    requires { StaysWithin (pos 0) (pos 2) low.now }
{
    for row in &ROWS {
        if !gives(answer(row.1, low, high), &row.2) {
            return Err(Fail::new(row.0));
        }
    }
    Ok(())
}

#[test]
fn sets_of_more_runs_than_are_held_in_place(rt: HostRuntime) -> Result<(), Fail> {
    let low = small_set(rt.alloc(), &ten_apart(0, 3))?;
    let high = small_set(rt.alloc(), &ten_apart(3, 6))?;
    all_hold(&low, &high)
}
