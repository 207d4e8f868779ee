//! The used vehicles of lists, sorted by the starts and by the ends of their chosen schedules.

ghost use Rattle.std.specs.Prelude.{◌≡◌, [], IfSome};
ghost use Rattle.vr_plan.specs.Extents.{IsExtentInRange};
ghost use Rattle.vr_costfilter.specs.SortedEnds as orders;
ghost use Rattle.vr_costfilter.specs.SortedEnds.{with_timing, AreInRange, HasRoomFor, IsInRange};

use crate::order::SortedVehicles;
use vr_model::limits::HORIZON;
use vr_plan::{Extent, Timing, wider};

/// The used vehicles of lists in one dimension, sorted by their starts, the least first, and by their ends, the
/// greatest first.
#[derive(Drop)]
pub struct SortedEnds {
    /// By the cumul at the start.
    pub starts: SortedVehicles,
    /// By what is left of the horizon after the cumul at the end.
    pub ends: SortedVehicles,
}

impl SortedEnds {
    /// Of no used vehicle.
    pub fn new() -> SortedEnds
        ensures starts { result.starts ≡ [] }
        ensures ends { result.ends ≡ [] }
    {
        SortedEnds {
            starts: SortedVehicles::new(),
            ends: SortedVehicles::new(),
        }
    }

    /// The extent of the used vehicles that are none of these, by the first entries; nothing if there are no others.
    pub fn extent_but(&self, vehicles: &[u32]) -> Option<Extent>
        requires range { AreInRange self.now }
        ensures value { result ≡ orders.extent_but vehicles.now self.now }
        ensures range { IfSome result IsExtentInRange }
    {
        let start = self.starts.first_but(vehicles)?;
        let left = self.ends.first_but(vehicles)?;
        Some(Extent {
            start,
            last: HORIZON - left,
        })
    }

    /// Becomes a copy of others. So the sorted ends after a change are written (`reaches`). Those of the committed
    /// lists are copied, and the vehicles that get lists are then set anew.
    pub fn copy_from(&mut self, other: &SortedEnds)
        ensures { self.new ≡ other.now }
    {
        self.starts.copy_from(&other.starts);
        self.ends.copy_from(&other.ends);
    }

    /// Vehicle `v` gets a list with another chosen schedule, or an empty list.
    pub fn set(&mut self, v: u32, timing: Option<Timing>)
        requires range { IfSome timing IsInRange }
        requires room { HasRoomFor v self.old }
        ensures { self.new ≡ with_timing v timing self.old }
    {
        match timing {
            None => {
                self.starts.set(v, None);
                self.ends.set(v, None);
            }
            Some(timing) => {
                self.starts.set(v, Some(timing.start));
                self.ends.set(v, Some(HORIZON - timing.last));
            }
        }
    }
}

/// An extent with the chosen schedule of one list more, if there is one.
pub fn beside(extent: Option<Extent>, timing: Option<Timing>) -> Option<Extent>
    requires extent { IfSome extent IsExtentInRange }
    requires timing { IfSome timing IsInRange }
    ensures value { result ≡ orders.beside extent timing }
    ensures range { IfSome result IsExtentInRange }
{
    match timing {
        None => extent,
        Some(timing) => Some(wider(extent, timing)),
    }
}
