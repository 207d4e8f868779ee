//! What a vehicle with one list is asked.

ghost use Rattle.vr_reach.specs.Asked.{IsAskedOf};
ghost use Rattle.vr_reach.specs.Lists.{IsUsed};
ghost use Rattle.vr_reach.specs.VehicleStops.{AreStopsFor};

use crate::driven::Driven;
use crate::spliced::Spliced;
use crate::stops::{ListStops, StopsFor};

// What a vehicle is asked that drives a list, looked up in what all stops of the dimension ask.
#[inline]
pub(crate) fn asked_of<'m, 'l, 's>(
    stops: &StopsFor<'m, 's>,
    list: &'l Spliced<'l>,
) -> ListStops<'m, 'l, 's>
    requires stops { AreStopsFor stops.now }
    requires used { IsUsed stops.now.closed.model.now list.now }
    ensures { IsAskedOf stops.now list.now result }
{
    let ends = &stops.of_dimension.ends[stops.v as usize];
    let visits = stops.of_dimension.visits.of(stops.v);
    let of = Driven {
        closed: stops.closed,
        d: stops.d,
        v: stops.v,
        list,
    };
    ListStops { of, ends, visits }
}
