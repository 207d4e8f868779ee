//! From which cumul to which the schedules of several routes reach in one dimension, and what that costs.

ghost use Rattle.std.specs.Prelude.{◌≡◌, ◌*ℤ◌, pos, IfSome};
ghost use Rattle.vr_model.specs.tables.WellFormed.{IsIn};
ghost use Rattle.vr_plan.specs.Bounds.{cumul_cost, IsAround};
ghost use Rattle.vr_plan.specs.Extents.{start_beside, last_beside, length_of, IsExtentInRange};

use crate::timings::{Timing, times};
use vr_model::Dimension;

/// The least cumul of a start and the greatest of an end among routes.
#[derive(Clone, Copy)]
pub struct Extent {
    /// The least cumul of a start, in `0..=2^36`.
    pub start: i64,
    /// The greatest cumul of an end, in `0..=2^36`.
    pub last: i64,
}

/// The extent with one route more.
pub fn wider(extent: Option<Extent>, timing: Timing) -> Extent
    ensures start { result.start ≡ start_beside extent timing.start }
    ensures last { result.last ≡ last_beside extent timing.last }
{
    match extent {
        None => Extent {
            start: timing.start,
            last: timing.last,
        },
        Some(extent) => Extent {
            start: extent.start.min(timing.start),
            last: extent.last.max(timing.last),
        },
    }
}

/// What the extent of all routes costs, 0 of none (`SetGlobalSpanCostCoefficient` in OR-Tools).
pub fn global_cost(dimension: &Dimension, extent: Option<Extent>) -> i64
    requires coefficient { IsIn (pos 0) (pos 10000) dimension.now.global_span_cost }
    requires range { IfSome extent IsExtentInRange }
    ensures value { result ≡ (dimension.now.global_span_cost *ℤ length_of extent) }
    ensures range { IsAround cumul_cost result }
{
    match extent {
        None => 0,
        Some(extent) => times(dimension.global_span_cost, extent.last - extent.start),
    }
}
