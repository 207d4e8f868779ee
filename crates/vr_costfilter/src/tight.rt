//! Tight schedules of changed lists. A vehicle walks along its stops and waits for the begins of runs alone. That tells
//! how early it can end and how late it can then start. What a change leaves at the ends of its list is not walked.
//! Between these two cumuls the tight schedule is the earliest one. It is found as that is: by floors from the end
//! backwards, and along them.
//!
//! Clauses bound the numbers of a way by its arcs. There are at most 1000 along the front of a list, 8000 more along
//! pieces, and then 1001 to the end.

ghost use Rattle.std.specs.Prelude.{◌≡◌, pos};
ghost use Rattle.vr_model.specs.tables.Numbers.{horizon};
ghost use Rattle.vr_model.specs.tables.WellFormed.{IsIn};
ghost use Rattle.vr_model.specs.declared.records.Model.{Model};
ghost use Rattle.vr_reach.specs.VisitRuns.{HasCumulEnds};
ghost use Rattle.vr_costfilter.specs.KeptWays.{HasCumuls};
ghost use Rattle.vr_costfilter.specs.Guides.{IsStopAt};
ghost use Rattle.vr_costfilter.specs.GuideRuns.{runs_of};
ghost use Rattle.vr_costfilter.specs.Runs.{between_runs, only as only_of};
ghost use Rattle.vr_costfilter.specs.Ways.{last_by, start_by, way_on as way_on_by, IsTightWayOf};

use crate::guides::Guide;
use vr_reach::Ahead;
use vr_spans::Run;

/// How far a vehicle has come that waits for the begins of runs alone (forward segment data):
/// - the node of the stop at which it is;
/// - its cumul there;
/// - the transits so far, added up;
/// - the latest start from which it comes, without waiting, to each stop so far before its run is over.
#[derive(Clone, Copy, Default)]
pub struct Way {
    pub at: u32,
    pub time: i64,
    pub transits: i64,
    pub latest: i64,
}

/// The cumuls of the start and of the end of a tight schedule, in `0..=2^36`.
#[derive(Clone, Copy)]
pub struct TightEnds {
    pub start: i64,
    pub last: i64,
}

impl<'m> Guide<'m> {
    /// The same guide, except that the start and the end of the vehicle allow one cumul each.
    pub fn between(&self, ends: TightEnds) -> Guide<'m>
        requires ends { HasCumuls ends }
        ensures model { result.model.now ≡ self.now.model.now }
        ensures dimension { result.d ≡ self.now.d }
        ensures vehicle { result.v ≡ self.now.v }
        ensures runs { runs_of result ≡ between_runs (runs_of self.now) ends.start ends.last }
    {
        let start = only(ends.start);
        let last = only(ends.last);
        Guide {
            model: self.model,
            table: self.table,
            d: self.d,
            v: self.v,
            evaluator: self.evaluator,
            slack: self.slack,
            start,
            visits: self.visits,
            finish: Ahead {
                node: self.finish.node,
                allowed: last,
            },
        }
    }

    /// A way goes on to a node that allows a run of cumuls.
    #[inline(always)]
    pub fn way_on(&self, way: Way, node: u32, allowed: Run) -> Way
        requires stop { IsStopAt self.now.model.now node allowed }
        requires way { IsTightWayOf self.now.model.now 10000 way }
        ensures { result ≡ way_on_by self.now.model.now self.now.d self.now.v way node allowed }
    {
        let transit = self.transit(way.at, node);
        let transits = way.transits + transit;
        Way {
            at: node,
            time: (way.time + transit).max(allowed.lo),
            transits,
            latest: way.latest.min(allowed.hi - transits),
        }
    }
}

/// The ends that a whole way tells. The last cumul is the time at which it comes to its end. The start is that from
/// which it then need not wait, or an earlier one if the run of some stop would be over.
#[inline]
pub fn ends_by(whole: Way) -> TightEnds
    requires { (model : Model) × IsTightWayOf model 10001 whole }
    ensures last { result.last ≡ last_by whole }
    ensures start { result.start ≡ start_by whole }
{
    TightEnds {
        start: whole.latest.min(whole.time - whole.transits),
        last: whole.time,
    }
}

/// The run of one cumul.
#[inline]
pub fn only(x: i64) -> Run
    requires { IsIn (pos 0) horizon x }
    ensures value { result ≡ only_of x }
    ensures range { HasCumulEnds result }
{
    Run { lo: x, hi: x }
}
