//! A leg of a list: the stretch between two of its stops along which a walk goes.

ghost use Rattle.std.proofs.Props.{props};
ghost use Rattle.std.specs.Prelude.{◌<◌, ◌≤◌, suc, length, IfSome};
ghost use Rattle.vr_reach.specs.Once.{IfSome-prop};
ghost use Rattle.vr_reach.specs.Tested.{IsReachedBy, IsReachingBy};
ghost use Rattle.vr_reach.specs.VehicleStops.{line_of};
ghost use Rattle.vr_reach.specs.VisitRuns.{AreVisitRuns};

use crate::stops::ListStops;
use vr_spans::Run;
use vr_steps::Levels;

// Two stops of a list of a vehicle, and what is known at both. `from` is what is reached at stop `begin`, `to` is what
// the end is reached from at stop `last`. `runs` has the run that each visit allows the vehicle, by its node, if none
// allows more than one.
#[derive(Clone, Copy)]
pub(crate) struct Leg<'m, 'l, 's, 'r> {
    pub(crate) stops: ListStops<'m, 'l, 's>,
    pub(crate) runs: Option<&'s [Run]>,
    pub(crate) begin: usize,
    pub(crate) last: usize,
    pub(crate) from: &'r Levels,
    pub(crate) to: &'r Levels,
    // The runs are those of the vehicle.
    pub ghost runs_are: { IfSome runs (λ found. AreVisitRuns stops.of.closed.model.now stops.of.d stops.of.v
        found.now) } by { Prim.hlevel (props, IfSome-prop) },
    // The leg has an arc.
    pub ghost order: { begin < last },
    // Its last stop exists.
    pub ghost within: { last ≤ suc (length stops.of.list.now) },
    // The first stop is reached at `from`.
    pub ghost begun: { IsReachedBy (line_of stops.of) begin from.now } by { Prim.hlevel props },
    // From `to` at the last stop the end is reached.
    pub ghost met: { IsReachingBy (line_of stops.of) last to.now } by { Prim.hlevel props },
}
