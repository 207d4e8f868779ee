//! What the chosen schedule of a list comes to in one dimension.

ghost use Rattle.std.specs.Prelude.{◌≡◌, ◌↔◌, suc, ◌<◌, ◌≤◌, ◌+◌, ◌*◌, ◌≤ℤ◌, ◌*ℤ◌, ◌-ℤ◌, pos, All, IsTrue, IfOk};
ghost use Rattle.std.specs.Prelude.{length};
ghost use Rattle.std.specs.List.{list_all};
ghost use Rattle.std.specs.Option.{option_copied};
ghost use Rattle.vr_model.specs.tables.Numbers.{horizon, number_at};
ghost use Rattle.vr_model.specs.tables.Tables.{dimension_at, is_visit, vehicle_at};
ghost use Rattle.vr_model.specs.declared.records.ScheduleRule.TheVariants.{Earliest};
ghost use Rattle.vr_model.specs.routes.Routes.{is_distinct};
ghost use Rattle.vr_model.specs.routes.Costs.{row_cost};
ghost use Rattle.vr_model.specs.tables.WellFormed.{IsWellFormed, IsStopRow, IsIn, WherePresent};
ghost use Rattle.vr_model.specs.schedules.Narrowed.{chosen_line};
ghost use Rattle.vr_reach.specs.Early.{AreChosen, CanBeFoundInTurn};
ghost use Rattle.vr_reach.specs.Lists.{IsUsed};
ghost use Rattle.vr_plan.specs.Bounds.{cumul_cost, IsAround};
ghost use Rattle.vr_plan.specs.Tables.{keys_of, IsTable};
ghost use Rattle.vr_lists.specs.Places.{ArePlaces};
ghost use Rattle.vr_plan.specs.Timings.{soft_of, IsTiming, IsTimingOf};

use crate::choosers::Chooser;
use crate::tables::{Table, row_of};
use arrayvec::ArrayVec;
use std::alloc::Global;
use vr_model::{Closed, Dimension, Model, NoMemory, ScheduleRule, Seq, StopRow};
use vr_reach::{Cumuls, StopsFor, write_earliest, write_line};
use vr_steps::{Breaks, Line};

/// What the soft upper bounds of a list cost at its chosen schedule, and the cumuls of its start and end.
#[derive(Clone, Copy)]
pub struct Timing {
    /// What the soft upper bounds of all stops cost together, 0 or more.
    pub soft: i64,
    /// The cumul of the start, in `0..=2^36`.
    pub start: i64,
    /// The cumul of the end, in `0..=2^36`.
    pub last: i64,
}

/// What is written over while lists are timed. `vr_rules` and `vr_costfilter` have their own.
#[derive(Drop)]
pub struct Timer {
    alloc: Global,
    // the cumuls, if they are found stop by stop
    early: Cumuls,
    // else the line of the list, and what chooses its cumuls
    line: Line,
    chooser: Chooser,
}

impl Timer {
    /// It takes no memory.
    pub fn new(alloc: Global) -> Timer {
        Timer {
            alloc,
            early: Cumuls::new(),
            line: Line {
                allowed: Seq::new(alloc),
                hops: Seq::new(alloc),
                breaks: Breaks {
                    rows: ArrayVec::new(),
                },
            },
            chooser: Chooser::new(alloc),
        }
    }
}

/// What the schedule comes to that the rule of vehicle `v` chooses for a list of distinct visits in dimension `d`. If
/// there is no schedule, all is 0. It fails only if it is out of memory.
pub fn timing_of(
    model: &Model,
    table: &Table,
    d: u32,
    v: u32,
    list: &[u32],
    timer: &mut Timer,
) -> Result<Timing, NoMemory>
    requires well_formed { IsWellFormed model.now }
    requires dimension { d < length model.now.dimensions }
    requires vehicle { v < length model.now.vehicles }
    requires some { 0 < length list.now }
    requires visits { IsTrue (list_all (is_visit model.now) list.now) }
    requires distinct { IsTrue (is_distinct list.now) }
    requires few { length list.now ≤ 1000 }
    requires table { IsTable model.now d table.now }
    ensures timing { IfOk result (IsTiming model.now d v list.now) }
    ensures range { IfOk result (IsTimingOf (length list.now + 2)) }
{
    let closed = Closed { model };
    if write_early(closed, table, d, v, list, &mut timer.early) {
        return Ok(timing_at(closed, table, d, v, list, timer.early.as_slice()));
    }
    let stops = StopsFor {
        closed,
        d,
        v,
        of_dimension: &table.stops,
    };
    write_line(&stops, list, &mut timer.line)?;
    let rule = model.vehicles.get(v as usize).schedule;
    if !timer.chooser.choose(timer.alloc, &timer.line, rule)? {
        return Ok(Timing {
            soft: 0,
            start: 0,
            last: 0,
        });
    }
    Ok(timing_at(closed, table, d, v, list, timer.chooser.cumuls()))
}

// Writes the cumuls of the chosen schedule of a list over others, if its vehicle's rule is `Earliest` and they are
// found stop by stop. If they are not, also if there is no schedule, a chooser is asked next.
fn write_early(
    closed: Closed<'_>,
    table: &Table,
    d: u32,
    v: u32,
    list: &[u32],
    cumuls: &mut Cumuls,
) -> bool
    requires dimension { d < length closed.model.now.dimensions }
    requires vehicle { v < length closed.model.now.vehicles }
    requires table { IsTable closed.model.now d table.now }
    requires used { IsUsed closed.model.now list.now }
    requires few { length list.now ≤ 1000 }
    ensures found { IsTrue result
        ↔ (((vehicle_at closed.entry.model.now v).schedule ≡ Earliest)
        × CanBeFoundInTurn closed.entry.model.now d v list.now) }
    ensures chosen { IsTrue result → AreChosen (chosen_line closed.entry.model.now d v list.now) cumuls.new.items }
    ensures stops { IsTrue result → length cumuls.new.items ≡ suc (suc (length list.now)) }
    ensures range { IsTrue result → All (IsIn (pos 0) horizon) cumuls.new.items }
{
    let stops = StopsFor {
        closed,
        d,
        v,
        of_dimension: &table.stops,
    };
    match closed.model.vehicles.get(v as usize).schedule {
        ScheduleRule::Earliest => write_earliest(&stops, list, cumuls),
        ScheduleRule::Tight => false,
    }
}

// What a list comes to with these cumuls in dimension `d`.
fn timing_at(
    closed: Closed<'_>,
    table: &Table,
    d: u32,
    v: u32,
    list: &[u32],
    cumuls: &[i64],
) -> Timing
    requires dimension { d < length closed.model.now.dimensions }
    requires visits { IsTrue (list_all (is_visit closed.model.now) list.now) }
    requires few { length list.now ≤ 1000 }
    requires table { IsTable closed.model.now d table.now }
    requires stops { length cumuls.now ≡ suc (suc (length list.now)) }
    requires cumuls { All (IsIn (pos 0) horizon) cumuls.now }
    ensures soft { result.soft ≡ soft_of (dimension_at closed.entry.model.now d) v list.now cumuls.now }
    ensures start { result.start ≡ number_at cumuls.now 0 }
    ensures last { result.last ≡ number_at cumuls.now (suc (length list.now)) }
    ensures range { IsTimingOf (length list.now + 2) result }
{
    let dimension = closed.model.dimensions.get(d as usize);
    Timing {
        soft: soft_cost(dimension, &table.row_places, v, list, cumuls),
        start: cumuls[0],
        last: cumuls[list.len() + 1],
    }
}

// What cumuls cost by the soft upper bounds of the stops.
fn soft_cost(dimension: &Dimension, places: &[u32], v: u32, list: &[u32], cumuls: &[i64]) -> i64
    requires starts { All IsStopRow dimension.now.starts }
    requires nodes { All IsStopRow dimension.now.nodes }
    requires ends { All IsStopRow dimension.now.ends }
    requires stops { length cumuls.now ≡ suc (suc (length list.now)) }
    requires range { All (IsIn (pos 0) horizon) cumuls.now }
    requires few { length list.now ≤ 1000 }
    requires places { ArePlaces (length places.now) (keys_of dimension.now.nodes) places.now }
    requires list { All (λ node. node < length places.now) list.now }
    ensures value { result ≡ soft_of dimension.now v list.now cumuls.now }
    ensures low { pos 0 ≤ℤ result }
    ensures high { result ≤ℤ pos (cumul_cost * (length list.now + 2)) }
{
    let mut cost = row_cost(StopRow::of_key(&dimension.starts, v), cumuls[0]);
    for k in 0..list.len() {
        cost += row_cost(row_of(&dimension.nodes, places, list[k]), cumuls[k + 1]);
    }
    cost + row_cost(StopRow::of_key(&dimension.ends, v), cumuls[list.len() + 1])
}

/// What a cumul costs by the soft upper bound in the row of its stop, 0 or more.
pub fn row_cost(row: Option<&StopRow>, x: i64) -> i64
    requires valid { WherePresent IsStopRow (option_copied row) }
    requires range { IsIn (pos 0) horizon x }
    ensures value { result ≡ row_cost (option_copied row.entry) x }
    ensures low { pos 0 ≤ℤ result }
    ensures range { IsAround cumul_cost result }
{
    let Some(row) = row else {
        return 0;
    };
    let Some(soft) = row.soft else {
        return 0;
    };
    times(soft.coefficient, 0_i64.max(x - soft.bound))
}

/// A coefficient in `0..=10000` times a number in `-2^36..=2^36`.
pub fn times(coefficient: i64, x: i64) -> i64
    requires coefficient { IsIn (pos 0) (pos 10000) coefficient }
    requires range { IsAround 68719476736 x }
    ensures value { result ≡ coefficient *ℤ x }
    ensures sign { pos 0 ≤ℤ x → pos 0 ≤ℤ result }
    ensures range { IsAround cumul_cost result }
{
    coefficient * x
}

/// What the span of a schedule costs (`SetSpanCostCoefficientForVehicle` in OR-Tools).
pub fn span_cost(dimension: &Dimension, v: u32, timing: Timing) -> i64
    requires vehicle { v < length dimension.now.span_costs }
    requires coefficients { All (IsIn (pos 0) (pos 10000)) dimension.now.span_costs }
    requires start { IsIn (pos 0) horizon timing.start }
    requires last { IsIn (pos 0) horizon timing.last }
    ensures value { result ≡ (number_at dimension.now.span_costs v *ℤ (timing.last -ℤ timing.start)) }
    ensures range { IsAround cumul_cost result }
{
    times(
        *dimension.span_costs.get(v as usize),
        timing.last - timing.start,
    )
}
