//! What the start, the end and the breaks of a vehicle ask.

ghost use Rattle.std.specs.Prelude.{◌≡◌, ◌<◌, ℕ, length, slice_index_or, IfOk};
ghost use Rattle.vr_model.specs.routes.Routes.{is_empty};
ghost use Rattle.vr_reach.specs.Stops.{AreEndsOf};

use crate::driven::VehicleIn;
use std::alloc::Global;
use vr_model::{Closed, NoMemory};
use vr_spans::Spans;
use vr_steps::{Breaks, Levels, StopName, allowed_at, end_levels, start_levels};

// What is asked of a vehicle in a dimension whatever its list is. It has its breaks, the cumuls that its start and its
// end allow, and the levels of both.
#[derive(Drop)]
pub(crate) struct Ends {
    pub(crate) breaks: Breaks,
    pub(crate) start_set: Spans,
    pub(crate) start_levels: Levels,
    pub(crate) end_set: Spans,
    pub(crate) end_levels: Levels,
}

impl Ends {
    // The ends of a vehicle in a dimension.
    pub(crate) fn build(alloc: Global, vehicle: VehicleIn<'_>) -> Result<Ends, NoMemory>
        ensures { IfOk result (AreEndsOf vehicle.entry.closed.model.now vehicle.entry.d vehicle.entry.v) }
    {
        let (closed, d, v) = (vehicle.closed, vehicle.d, vehicle.v);
        let breaks = Breaks::of(closed.model.dimensions.get(d as usize), v);
        let start_set = allowed_at(alloc, closed.model, d, v, StopName::Start)?;
        let start_levels = start_levels(alloc, &start_set, &breaks)?;
        let end_set = allowed_at(alloc, closed.model, d, v, StopName::End)?;
        let end_levels = end_levels(alloc, &end_set, &breaks)?;
        Ok(Ends {
            breaks,
            start_set,
            start_levels,
            end_set,
            end_levels,
        })
    }

    // Whether the vehicle has no breaks.
    #[inline]
    pub(crate) fn has_no_breaks(&self) -> bool
        ensures { result ≡ is_empty self.now.breaks }
    {
        self.breaks.rows.is_empty()
    }
}

// The ends of each vehicle in dimension `d`.
pub(crate) fn ends_of_each(alloc: Global, closed: Closed<'_>, d: u32) -> Result<Vec<Ends>, NoMemory>
    requires dimension { d < length closed.model.now.dimensions }
    ensures many { IfOk result (λ ends. length ends.items ≡ length closed.entry.model.now.vehicles) }
    ensures each { IfOk result (λ ends. (v : ℕ) (other : Ends) → v < length ends.items
        → AreEndsOf closed.entry.model.now d v (slice_index_or ends.items v other)) }
{
    let mut ends = Vec::with_capacity(alloc, closed.model.vehicles.len())?;
    for v in 0..closed.model.vehicles.len() {
        let vehicle = VehicleIn {
            closed,
            d,
            v: v as u32,
        };
        ends.push(Ends::build(alloc, vehicle)?)?;
    }
    Ok(ends)
}
