//! Lists that come in the place of others, and what their chosen schedules come to. `kept` makes one of the list that a
//! change gives a vehicle. It hands it to `steps`, which walks what is new of it. Here are the two ends of its tight
//! schedule. Here is also what it comes to along the whole list, if no cumuls are kept up to the same end.

ghost use Rattle.std.proofs.Props.{props};
ghost use Rattle.vr_model.specs.schedules.Schedules.{IsFeasible};
ghost use Rattle.vr_model.specs.schedules.Tight.{IsLatestStart, IsLeastEnd};
ghost use Rattle.vr_costfilter.specs.Joined.{AreJoined};
ghost use Rattle.vr_routes.specs.Pieces.{IsWithin-prop};

use crate::guides::Guide;
use crate::kept_ways::KeptWays;
use crate::tight::{TightEnds, ends_by};
use crate::trails::Trail;
use crate::with_guide::PiecesWithGuide;
use vr_earliest::along_pieces;
use vr_plan::Timing;
use vr_routes::{Piece, Routes, Splice};

/// The list that pieces are joined to, in the place of the one that the vehicle of a guide has.
#[derive(Drop)]
pub struct Asked<'a, 'm, 's> {
    pub guide: &'a Guide<'m>,
    pub routes: &'a Routes,
    /// All pieces of the list, for a walk along the whole of it.
    pub pieces: &'a [Piece],
    /// The list as a splice of the one that the vehicle has.
    pub splice: Splice<'s>,
    /// The pieces lie within their lists, and are joined to a list of distinct visits.
    pub ghost sound: { AreJoined guide.now.model.now guide.now.v routes.now.lists pieces.now splice } by { Prim.hlevel
        (props, IsWithin-prop) },
}

impl<'a, 'm, 's> Asked<'a, 'm, 's> {
    ghost use Rattle.vr_costfilter.specs.Asked.{new_line, old_list, ChoiceAllows, IsNewTimingFound};
    ghost use Rattle.vr_costfilter.specs.GuideRuns.{runs_of, HasItsRuns};
    ghost use Rattle.vr_costfilter.specs.KeptWays.{AreWays, HasCumuls};
    ghost use Rattle.vr_costfilter.specs.Runs.{between_runs};

    /// What its chosen schedule comes to between these ends. Nothing exactly if there is none, which does not happen
    /// between the ends of its tight schedule. The whole list is walked, and the trail is written over.
    pub fn timing_between(&self, ends: TightEnds, trail: &mut Trail) -> Option<Timing>
        requires allows { ChoiceAllows self.now
            (between_runs (runs_of self.now.guide.now) ends.start ends.last) }
        requires ends { HasCumuls ends }
        ensures { IsNewTimingFound self.now result }
    {
        let guide = self.guide.between(ends);
        let asked = Asked {
            guide: &guide,
            routes: self.routes,
            pieces: self.pieces,
            splice: self.splice,
        };
        asked.timing_along(trail)
    }

    // The same, if the line of which the schedule is chosen allows the runs of the guide. Floors are found back from
    // the end; then the walk goes along them from the floor of the start.
    fn timing_along(&self, trail: &mut Trail) -> Option<Timing>
        requires { ChoiceAllows self.now (runs_of self.now.guide.now) }
        ensures { IsNewTimingFound self.now result }
    {
        trail.steps.clear();
        let next = self.guide.end_step();
        let on = PiecesWithGuide {
            guide: self.guide,
            routes: self.routes,
            pieces: self.pieces,
        };
        let first = on.back_along(next, trail)?;
        let floor = self.guide.start_floor(first)?;
        let stage = self.guide.standing(floor);
        let gone = self.guide.along_trail(trail, stage)?;
        let end = self.guide.to_end(gone)?;
        Some(Timing {
            soft: end.soft,
            start: floor,
            last: end.cumul,
        })
    }

    /// The ends of its tight schedule. What stays at the ends of the list that the vehicle has is not walked.
    pub fn ends_of(&self, kept: &KeptWays) -> TightEnds
        requires runs { HasItsRuns self.now.guide.now }
        requires kept { AreWays self.now.guide.now.model.now self.now.guide.now.d self.now.guide.now.v
            (old_list self.now) kept.now }
        requires feasible { IsFeasible (new_line self.now) }
        ensures last { IsLeastEnd (new_line self.now) result.last }
        ensures start { IsLatestStart (new_line self.now) result.last result.start }
    {
        let splice = self.splice;
        let front = kept.way(splice.front);
        let left = kept.rest(splice.behind);
        let way = along_pieces(self.guide, self.routes, splice.middle, front);
        let whole = self.guide.way_through(way, left);
        ends_by(whole)
    }
}
