//! What is left of the line of a vehicle after a stop.

ghost use Rattle.std.specs.Prelude.{◌≡◌};
ghost use Rattle.vr_model.specs.tables.Tables.{transit as transit_of};
ghost use Rattle.vr_costfilter.specs.Guides.{IsStopAt};
ghost use Rattle.vr_costfilter.specs.Rests.{rest_by, way_through as through_rest, IsTightRestOf};
ghost use Rattle.vr_costfilter.specs.Ways.{IsTightWayOf};

use crate::guides::Guide;
use crate::tight::Way;
use vr_spans::Run;

/// What is left of a line from a stop on (backward segment data):
/// - its node;
/// - the transits of the arcs after it, added up;
/// - the time before which the line does not end, however early the vehicle comes to the stop;
/// - the greatest cumul of the stop from which it comes, without waiting, to each stop from there on before its run is
///   over.
#[derive(Clone, Copy, Default)]
pub struct Rest {
    pub at: u32,
    pub transits: i64,
    pub least_end: i64,
    pub latest_cumul: i64,
}

impl<'m> Guide<'m> {
    /// What is left from a node on that allows a run of cumuls.
    #[inline]
    pub fn rest_on(&self, node: u32, allowed: Run, rest: Rest) -> Rest
        requires stop { IsStopAt self.now.model.now node allowed }
        requires rest { IsTightRestOf self.now.model.now 1000 rest }
        ensures { result ≡ rest_by (transit_of self.now.model.now self.now.d self.now.v node rest.at) node allowed
            rest }
    {
        let transit = self.transit(node, rest.at);
        let transits = transit + rest.transits;
        Rest {
            at: node,
            transits,
            least_end: (allowed.lo + transits).max(rest.least_end),
            latest_cumul: allowed.hi.min(rest.latest_cumul - transit),
        }
    }

    /// A way goes on to a stop and through what is left from there to the end.
    #[inline(always)]
    pub fn way_through(&self, way: Way, rest: Rest) -> Way
        requires way { IsTightWayOf self.now.model.now 9000 way }
        requires rest { IsTightRestOf self.now.model.now 1000 rest }
        ensures { result ≡ through_rest self.now.model.now self.now.d self.now.v way rest }
    {
        let transit = self.transit(way.at, rest.at);
        let left = transit + rest.transits;
        Way {
            at: self.finish.node,
            time: (way.time + left).max(rest.least_end),
            transits: way.transits + left,
            latest: way.latest.min(rest.latest_cumul - (way.transits + transit)),
        }
    }
}
