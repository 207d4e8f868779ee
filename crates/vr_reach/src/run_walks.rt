//! What a walk of one run asks.

ghost use Rattle.std.proofs.Props.{props};
ghost use Rattle.std.specs.Prelude.{◌≡◌, ◌<◌, ◌≤◌, ◌≤ℤ◌, ◌^◌, suc, length, neg_ℤ, pos};
ghost use Rattle.vr_model.specs.tables.Numbers.{horizon};
ghost use Rattle.vr_model.specs.tables.Tables.{dimension_at, evaluator_of, transit as transit_of};
ghost use Rattle.vr_model.specs.tables.WellFormed.{IsIn};
ghost use Rattle.vr_reach.specs.Tested.{IsReachedBy, IsReachingBy};
ghost use Rattle.vr_reach.specs.VehicleStops.{line_of};
ghost use Rattle.vr_reach.specs.VisitRuns.{AreVisitRuns, IsFinish};

use crate::driven::Driven;
use crate::single::Ahead;
use vr_model::Evaluator;
use vr_spans::Run;
use vr_steps::Levels;

// A list of a vehicle, whose visits and end allow no more than one run each: the runs, and what the arcs take. The
// earliest cumuls are found along one too (`early`).
#[derive(Clone, Copy)]
pub(crate) struct RunLine<'m, 'l, 's> {
    pub(crate) of: Driven<'m, 'l>,
    pub(crate) evaluator: &'m Evaluator,
    // the greatest slack
    pub(crate) slack: i64,
    // the run that each visit allows, by its node
    pub(crate) visits: &'s [Run],
    pub(crate) finish: Ahead,
    // The evaluator is that of the vehicle.
    pub ghost evaluator_is: { evaluator.now
        ≡ evaluator_of (dimension_at of.closed.model.now of.d) of.v } by { Prim.hlevel props },
    // The slack is that of the dimension.
    pub ghost slack_is: { slack ≡ (dimension_at of.closed.model.now of.d).slack_max } by { Prim.hlevel props },
    pub ghost slack_range: { IsIn (pos 0) horizon slack },
    // The runs are those of the vehicle.
    pub ghost runs_are: { AreVisitRuns of.closed.model.now of.d of.v visits.now } by { Prim.hlevel props },
    // The end is its end.
    pub ghost finish_is: { IsFinish of.closed.model.now of.d of.v finish } by { Prim.hlevel props },
}

impl RunLine<'_, '_, '_> {
    // The transit from one node to another.
    #[inline(always)]
    pub(crate) fn transit(&self, from: u32, to: u32) -> i64
        requires from { from < self.now.of.closed.model.now.nodes }
        requires to { to < self.now.of.closed.model.now.nodes }
        ensures value { result ≡ transit_of self.now.of.closed.model.now self.now.of.d self.now.of.v from to }
        ensures least { neg_ℤ (pos (2 ^ 31)) ≤ℤ result }
        ensures greatest { result ≤ℤ pos (2 ^ 31) }
    {
        self.of.closed.model.transit_by(self.evaluator, from, to)
    }
}

// A leg of such a list: two of its stops, and what is known at both. `from` is what is reached at stop `begin`, `to` is
// what the end is reached from at stop `last`.
#[derive(Clone, Copy)]
pub(crate) struct RunWalk<'m, 'l, 's, 'r> {
    pub(crate) line: RunLine<'m, 'l, 's>,
    pub(crate) begin: usize,
    pub(crate) last: usize,
    pub(crate) from: &'r Levels,
    pub(crate) to: &'r Levels,
    // The leg has an arc.
    pub ghost order: { begin < last },
    // Its last stop exists.
    pub ghost within: { last ≤ suc (length line.of.list.now) },
    // The first stop is reached at `from`.
    pub ghost begun: { IsReachedBy (line_of line.of) begin from.now } by { Prim.hlevel props },
    // From `to` at the last stop the end is reached.
    pub ghost met: { IsReachingBy (line_of line.of) last to.now } by { Prim.hlevel props },
}
