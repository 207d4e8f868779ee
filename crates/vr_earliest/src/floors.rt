//! Floors of stops, and which vehicles start freely, looked up once.

ghost use Rattle.std.specs.Prelude.{◌≡◌, ◌<◌, ◌≤◌, ◌≤ℤ◌, pos, All, IfOk, fold, length};
ghost use Rattle.std.specs.Option.{option_copied};
ghost use Rattle.vr_model.specs.tables.Numbers.{horizon};
ghost use Rattle.vr_model.specs.tables.Tables.{dimension_at};
ghost use Rattle.vr_model.specs.tables.WellFormed.{IsIn, IsInterval, IsStopRow, WherePresent};
ghost use Rattle.vr_earliest.specs.Floors.{behind_interval, floor_of as floor_of_row, opening as opening_of};
ghost use Rattle.vr_earliest.specs.Floors.{forbids_none as row_forbids_none, is_earliest as is_earliest_rule};
ghost use Rattle.vr_earliest.specs.Floors.{starts_freely as starts_freely_in};
ghost use Rattle.vr_earliest.specs.Floors.{AreFloors, AreFree, HaveFloors};

use std::alloc::Global;
use vr_model::limits::HORIZON;
use vr_model::{Closed, Dimension, Interval, NoMemory, ScheduleRule, Seq, StopRow, Vehicle};

/// The floors of the visits, the starts and the ends of a dimension, below which a stop allows no cumul, and which
/// vehicles start freely.
#[derive(Drop)]
pub struct Floors {
    /// By node.
    pub visits: Vec<i64>,
    /// By vehicle.
    pub starts: Vec<i64>,
    /// By vehicle.
    pub ends: Vec<i64>,
    /// Of each vehicle, whether it chooses its earliest schedule, has no breaks, and its start has no forbidden
    /// interval. Such a vehicle starts no later than the floor of its start, or has the greatest slack on its first
    /// arc. So its span is bounded by its end too (`Guide::span_by`). That of another vehicle is bounded by its
    /// transits alone.
    pub free: Vec<bool>,
}

impl Floors {
    /// Those of dimension `d`. The only error is out of memory.
    pub fn of(alloc: Global, closed: Closed<'_>, d: u32) -> Result<Floors, NoMemory>
        requires { d < length closed.model.now.dimensions }
        ensures { IfOk result (AreFloors closed.entry.model.now d) }
    {
        let model = closed.model;
        let dimension = model.dimensions.get(d as usize);
        let vehicles = model.vehicles.len() as u32;
        Ok(Floors {
            visits: floors_of(alloc, &dimension.nodes, model.nodes)?,
            starts: floors_of(alloc, &dimension.starts, vehicles)?,
            ends: floors_of(alloc, &dimension.ends, vehicles)?,
            free: free_of(alloc, &model.vehicles, dimension, vehicles)?,
        })
    }
}

// For each key below `n` the floor of the row with it.
fn floors_of(alloc: Global, rows: &Seq<StopRow>, n: u32) -> Result<Vec<i64>, NoMemory>
    requires { All IsStopRow rows.now }
    ensures { IfOk result (λ floors. HaveFloors rows.now n floors.items) }
{
    let mut floors = Vec::with_capacity(alloc, n as usize)?;
    for key in 0..n {
        floors.push(floor_of(StopRow::of_key(rows, key)))?;
    }
    Ok(floors)
}

// Which of the first `n` vehicles start freely.
fn free_of(
    alloc: Global,
    vehicles: &Seq<Vehicle>,
    dimension: &Dimension,
    n: u32,
) -> Result<Vec<bool>, NoMemory>
    requires { n ≤ length vehicles.now }
    ensures { IfOk result (λ free. AreFree vehicles.now dimension.now n free.items) }
{
    let mut free = Vec::with_capacity(alloc, n as usize)?;
    for v in 0..n {
        free.push(starts_freely(vehicles.get(v as usize), dimension, v))?;
    }
    Ok(free)
}

// Whether a vehicle chooses its earliest schedule, has no breaks, and its start has no forbidden interval.
fn starts_freely(vehicle: &Vehicle, dimension: &Dimension, v: u32) -> bool
    ensures { result ≡ starts_freely_in vehicle.now dimension.now v }
{
    let forbids_none = forbids_none(StopRow::of_key(&dimension.starts, v));
    is_earliest(vehicle.schedule) && dimension.breaks_of(v).is_empty() && forbids_none
}

// Whether a rule chooses the earliest schedule.
fn is_earliest(rule: ScheduleRule) -> bool
    ensures { result ≡ is_earliest_rule rule }
{
    match rule {
        ScheduleRule::Earliest => true,
        ScheduleRule::Tight => false,
    }
}

// Whether the row of a stop has no forbidden interval.
fn forbids_none(row: Option<&StopRow>) -> bool
    ensures { result ≡ row_forbids_none (option_copied row.entry) }
{
    let Some(row) = row else {
        return true;
    };
    row.forbidden.is_empty()
}

// The floor of a stop with this row: the begin of its window, or the first number after the forbidden intervals there.
// It is 0 without a row. It lies in `0..=2^36` even if the row allows no cumul.
fn floor_of(row: Option<&StopRow>) -> i64
    requires { WherePresent IsStopRow (option_copied row) }
    ensures value { result ≡ floor_of_row (option_copied row.entry) }
    ensures range { IsIn (pos 0) horizon result }
{
    let Some(row) = row else {
        return 0;
    };
    let floor = behind_all(row.forbidden.as_slice(), opening(row.window));
    floor.min(HORIZON)
}

// The begin of a window, 0 if there is none.
fn opening(window: Option<Interval>) -> i64
    requires { WherePresent IsInterval window }
    ensures value { result ≡ opening_of window }
    ensures range { IsIn (pos 0) horizon result }
{
    match window {
        Some(window) => window.lo,
        None => 0,
    }
}

// A number, or the one after the intervals in which it lies, each in turn.
fn behind_all(intervals: &[Interval], from: i64) -> i64
    requires intervals { All IsInterval intervals.now }
    requires from { IsIn (pos 0) horizon from }
    ensures value { result ≡ fold behind_interval from intervals.now }
    ensures low { pos 0 ≤ℤ result }
{
    let mut x = from;
    for k in 0..intervals.len() {
        x = behind(x, intervals[k]);
    }
    x
}

// A number, or the one after an interval in which it lies. Taken of intervals in turn it is a bound from below, even if
// they do not ascend.
fn behind(x: i64, interval: Interval) -> i64
    requires { IsInterval interval }
    ensures { result ≡ behind_interval x interval }
{
    if interval.lo <= x && x <= interval.hi {
        interval.hi + 1
    } else {
        x
    }
}
