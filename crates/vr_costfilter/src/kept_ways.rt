//! What is kept of committed lists of vehicles that choose their tight schedules. By it the two ends of a changed list
//! are known after a walk along what the change puts into it alone.

ghost use Rattle.std.specs.Prelude.{◌≡◌, IsTrue, pos};
ghost use Rattle.vr_model.specs.tables.Numbers.{horizon};
ghost use Rattle.vr_model.specs.tables.Tables.{is_visit};
ghost use Rattle.vr_model.specs.tables.WellFormed.{IsIn};
ghost use Rattle.vr_costfilter.specs.KeptWays.{AreTightEndsOf, HasCumuls, HasWaysBy};
ghost use Rattle.vr_costfilter.specs.GuideRuns.{runs_of};
ghost use Rattle.vr_costfilter.specs.Rests.{rest_at_end, rest_before, IsTightRestOf};
ghost use Rattle.vr_costfilter.specs.Ways.{nearest_cumul, tight-more, way_out, way_to_visit, IsTightWayOf};

use crate::guides::Guide;
use crate::rests::Rest;
use crate::tight::{TightEnds, Way, ends_by};
use crate::with_guide::ListWithGuide;
use vr_earliest::Walk;
use vr_model::limits::HORIZON;

/// What is kept of the list of a vehicle: the way along each number of its first visits, and what is left from each
/// place. There is no way if the vehicle has breaks, or a stop allows several runs of cumuls.
pub type KeptWays = vr_earliest::KeptWays<Way, Rest>;

// the walk of a vehicle that waits for the begins of runs alone, whatever the greatest slack is
impl<'m> Walk for Guide<'m> {
    type Way = Way;

    type Rest = Rest;

    ghost can_visit = { λ guide node. IsTrue (is_visit guide.model.now node) };

    ghost is_way = { λ guide n way. IsTightWayOf guide.model.now n way };

    ghost is_rest = { λ guide n rest. IsTightRestOf guide.model.now n rest };

    ghost start_way = { λ guide. way_out guide.model.now guide.v (runs_of guide) };

    ghost way_on = { λ guide way node. way_to_visit guide.model.now guide.d guide.v (runs_of guide) way node };

    ghost end_rest = { λ guide. rest_at_end guide.model.now guide.v (runs_of guide) };

    ghost rest_from = { λ guide node rest. rest_before guide.model.now guide.d guide.v (runs_of guide) node rest };

    ghost way_grows = { λ guide n m way more. tight-more n m more };

    #[inline(always)]
    fn way_out(&self) -> Way {
        Way {
            at: self.model.vehicles.get(self.v as usize).start,
            time: self.start.lo,
            transits: 0,
            latest: self.start.hi,
        }
    }

    #[inline(always)]
    fn way_to_visit(&self, way: Way, node: u32) -> Way {
        self.way_on(way, node, self.visits[node as usize])
    }

    #[inline]
    fn rest_at_end(&self) -> Rest {
        Rest {
            at: self.finish.node,
            transits: 0,
            least_end: self.finish.allowed.lo,
            latest_cumul: self.finish.allowed.hi,
        }
    }

    #[inline]
    fn rest_before(&self, node: u32, rest: Rest) -> Rest {
        self.rest_on(node, self.visits[node as usize], rest)
    }
}

impl<'a, 'm> ListWithGuide<'a, 'm> {
    /// The ends of the tight schedule of a list whose ways are kept. They are those that its whole way tells, brought
    /// within the horizon. (The way of an empty list without a schedule may tell other numbers.)
    pub fn ends(&self, kept: &KeptWays) -> TightEnds
        requires { HasWaysBy self.now.guide.now.model.now self.now.guide.now.d self.now.guide.now.v
            (runs_of self.now.guide.now) self.now.list.now kept.now }
        ensures ends { AreTightEndsOf self.now.guide.now.model.now self.now.guide.now.d self.now.guide.now.v
            (runs_of self.now.guide.now) self.now.list.now result }
        ensures range { HasCumuls result }
    {
        let way = kept.way(0);
        let rest = kept.rest(0);
        let whole = self.guide.way_through(way, rest);
        let ends = ends_by(whole);
        TightEnds {
            start: within_horizon(ends.start),
            last: within_horizon(ends.last),
        }
    }
}

// The cumul that is nearest to a number.
fn within_horizon(x: i64) -> i64
    ensures value { result ≡ nearest_cumul x }
    ensures range { IsIn (pos 0) horizon result }
{
    x.max(0).min(HORIZON)
}
