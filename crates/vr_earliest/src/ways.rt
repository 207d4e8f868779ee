//! Ways of vehicles along lists and what is left of their lines, and the guide that makes each step of them.

ghost use Rattle.std.proofs.Props.{props};
ghost use Rattle.std.specs.Prelude.{◌≡◌, ◌<◌, length};
ghost use Rattle.std.specs.Prelude.{pos, neg_ℤ, ◌≤ℤ◌, ◌^◌};
ghost use Rattle.vr_model.specs.tables.Tables.{transit as transit_of};
ghost use Rattle.vr_model.specs.tables.Numbers.{horizon};
ghost use Rattle.vr_model.specs.tables.WellFormed.{IsIn};
ghost use Rattle.vr_model.specs.tables.WellFormedOnce.{IsWellFormed-prop};
ghost use Rattle.vr_earliest.specs.Floors.{AreFloors};
ghost use Rattle.vr_earliest.specs.Guides.{IsGuide};
ghost use Rattle.vr_earliest.specs.Rests.{at_end, rest_with_visit, way_through_rest as to_end_on, IsListRest, IsRestOf};
ghost use Rattle.vr_earliest.specs.Ways.{arcs-more, way_from_start, span_by as span_by_way};
ghost use Rattle.vr_earliest.specs.Ways.{to_node as to_node_on, on_to_visit};
ghost use Rattle.vr_earliest.specs.Ways.{IsLongWay, IsWayAlongPieces, IsWayOf, IsWholeWay};

use crate::floors::Floors;
use crate::walks::Walk;
use vr_model::{Closed, Evaluator, Model};

/// How far a vehicle is on its way (forward segment data):
/// - the node of the stop at which it is;
/// - the earliest time there, as far as floors and transits tell it;
/// - the transits of the arcs so far, added up.
#[derive(Clone, Copy, Default)]
pub struct Way {
    pub at: u32,
    pub time: i64,
    pub transits: i64,
}

/// What is left of a line from a stop on (backward segment data):
/// - its node;
/// - the transits of the arcs after it, added up;
/// - the time before which the line does not end, however early the vehicle comes to the stop.
#[derive(Clone, Copy, Default)]
pub struct Rest {
    pub at: u32,
    pub transits: i64,
    pub least_end: i64,
}

/// What is looked up of vehicle `v` in dimension `d` once for many arcs. It is of any vehicle; the guide of
/// `vr_costfilter` is of one without breaks, with one run a stop.
#[derive(Drop)]
pub struct Guide<'m> {
    pub model: &'m Model,
    pub floors: &'m Floors,
    pub d: u32,
    pub v: u32,
    pub evaluator: &'m Evaluator,
    /// It is that of a well formed model, and the look-ups are those of its dimension and its vehicle.
    pub ghost sound: { IsGuide model.now d v floors.now evaluator.now } by { Prim.hlevel (props, IsWellFormed-prop) },
}

impl<'m> Guide<'m> {
    /// What is looked up once.
    #[inline]
    pub fn of(closed: Closed<'m>, floors: &'m Floors, d: u32, v: u32) -> Guide<'m>
        requires dimension { d < length closed.model.now.dimensions }
        requires vehicle { v < length closed.model.now.vehicles }
        requires floors { AreFloors closed.model.now d floors.now }
        ensures model { result.model.now ≡ closed.entry.model.now }
        ensures dimension { result.d ≡ d }
        ensures vehicle { result.v ≡ v }
    {
        Guide {
            model: closed.model,
            floors,
            d,
            v,
            evaluator: closed.model.dimensions.get(d as usize).evaluator_of(v),
        }
    }

    // A way goes on to a node, at no time below a floor.
    #[inline(always)]
    fn to_node(&self, way: Way, node: u32, floor: i64) -> Way
        requires way { IsLongWay self.now.model.now way }
        requires node { node < self.now.model.now.nodes }
        requires floor { IsIn (pos 0) horizon floor }
        ensures { result ≡ to_node_on self.now.model.now self.now.d self.now.v way node floor }
    {
        let transit = self.transit(way.at, node);
        Way {
            at: node,
            time: (way.time + transit).max(floor),
            transits: way.transits + transit,
        }
    }

    /// A way goes on to the stop of a rest, and through what is left from there to the end.
    #[inline(always)]
    pub fn to_end(&self, way: Way, rest: Rest) -> Way
        requires way { IsWayAlongPieces self.now.model.now way }
        requires rest { IsListRest self.now.model.now rest }
        ensures value { result ≡ to_end_on self.now.model.now self.now.d self.now.v way rest }
        ensures range { IsWholeWay self.now.model.now result }
    {
        let left = self.transit(way.at, rest.at) + rest.transits;
        Way {
            at: self.model.vehicles.get(self.v as usize).end,
            time: (way.time + left).max(rest.least_end),
            transits: way.transits + left,
        }
    }

    /// What a whole way tells of the span. It is no less than the transits. Of a vehicle that starts freely
    /// (`Floors::free`) it is no less than the lesser of two numbers. One is the time from the floor of its start to
    /// its end, the other the greatest slack with the transits.
    #[inline(always)]
    pub fn span_by(&self, way: Way) -> i64
        requires way { IsWholeWay self.now.model.now way }
        ensures { result ≡ span_by_way self.now.model.now self.now.d self.now.v way }
    {
        if !self.floors.free[self.v as usize] {
            return way.transits;
        }
        let slack = self.model.dimensions.get(self.d as usize).slack_max;
        (way.time - self.floors.starts[self.v as usize]).min(slack + way.transits)
    }

    // The transit from one node to another.
    #[inline(always)]
    fn transit(&self, from: u32, to: u32) -> i64
        requires from { from < self.now.model.now.nodes }
        requires to { to < self.now.model.now.nodes }
        ensures value { result ≡ transit_of self.now.model.now self.now.d self.now.v from to }
        ensures least { neg_ℤ (pos (2 ^ 31)) ≤ℤ result }
        ensures greatest { result ≤ℤ pos (2 ^ 31) }
    {
        self.model.transit_by(self.evaluator, from, to)
    }
}

impl<'m> Walk for Guide<'m> {
    type Way = Way;

    type Rest = Rest;

    ghost can_visit = { λ guide node. node < guide.model.now.nodes };

    ghost is_way = { λ guide n way. IsWayOf guide.model.now n way };

    ghost is_rest = { λ guide n rest. IsRestOf guide.model.now n rest };

    ghost start_way = { λ guide. way_from_start guide.model.now guide.d guide.v };

    ghost way_on = { λ guide way node. on_to_visit guide.model.now guide.d guide.v way node };

    ghost end_rest = { λ guide. at_end guide.model.now guide.d guide.v };

    ghost rest_from = { λ guide node rest. rest_with_visit guide.model.now guide.d guide.v node rest };

    ghost way_grows = { λ guide n m way more. arcs-more n m more };

    #[inline(always)]
    fn way_out(&self) -> Way {
        Way {
            at: self.model.vehicles.get(self.v as usize).start,
            time: self.floors.starts[self.v as usize],
            transits: 0,
        }
    }

    #[inline(always)]
    fn way_to_visit(&self, way: Way, node: u32) -> Way {
        self.to_node(way, node, self.floors.visits[node as usize])
    }

    #[inline]
    fn rest_at_end(&self) -> Rest {
        Rest {
            at: self.model.vehicles.get(self.v as usize).end,
            transits: 0,
            least_end: self.floors.ends[self.v as usize],
        }
    }

    #[inline]
    fn rest_before(&self, node: u32, rest: Rest) -> Rest {
        let transits = self.transit(node, rest.at) + rest.transits;
        Rest {
            at: node,
            transits,
            least_end: (self.floors.visits[node as usize] + transits).max(rest.least_end),
        }
    }
}
