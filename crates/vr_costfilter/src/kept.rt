//! What is kept of committed lists, and what a change makes of them.
//!
//! A step is a stop of a list with its floor. A stage is how far the vehicle is at a stop, and what was paid until
//! then. The changed list is the one that `Asked` names.

ghost use Rattle.std.specs.Prelude.{◌≡◌, ◌<◌, ◌+◌, ℕ, List, IfOk, IfSome, IsTrue, false, length, pos};
ghost use Rattle.std.specs.Prelude.{◌↔◌, is_some};
ghost use Rattle.vr_model.specs.moves.Moves.{with_route};
ghost use Rattle.vr_model.specs.routes.Routes.{route};
ghost use Rattle.vr_model.specs.routes.Rules.{is_valid};
ghost use Rattle.vr_model.specs.schedules.Lines.{line, Line};
ghost use Rattle.vr_model.specs.schedules.Schedules.{IsFeasible};
ghost use Rattle.vr_model.specs.tables.Numbers.{horizon};
ghost use Rattle.vr_model.specs.tables.WellFormed.{IsIn};
ghost use Rattle.vr_model.specs.declared.records.Model.{Model as Defined};
ghost use Rattle.vr_model.specs.declared.records.ScheduleRule.TheVariants.{Earliest, Tight};
ghost use Rattle.vr_routes.specs.Pieces.{joined};
ghost use Rattle.vr_plan.specs.Tables.{IsKnownDimension};
ghost use Rattle.vr_plan.specs.Timings.{IsTiming, IsTimingOf};
ghost use Rattle.vr_costfilter.specs.Joined.{AreJoinedFeasibly};
ghost use Rattle.vr_costfilter.specs.KeptWays.{AreTightEndsOf, HasCumuls, HaveKeptWays};
ghost use Rattle.vr_costfilter.specs.Asked.{new_line, new_list, old_list};
ghost use Rattle.vr_costfilter.specs.Asked.{ChoiceAllows, IsKeptBy, IsNewTiming, IsNewTimingFound};
ghost use Rattle.vr_costfilter.specs.GuideRuns.{runs_of, IsGuideBy};
ghost use Rattle.vr_costfilter.specs.Kept.{is_tight, AreKept, HasRoom, IsKept, IsKnown, HasAllStages, HasAllWays};
ghost use Rattle.vr_costfilter.specs.Kept.{HasWaysAlone};
ghost use Rattle.vr_costfilter.specs.LookedUp.{IsLookedUp};
ghost use Rattle.vr_costfilter.specs.Runs.{between_runs, AllowsRuns};
ghost use Rattle.vr_costfilter.specs.Steps.{HasStages};

use crate::changed_list::Asked;
use crate::guides::Guide;
use crate::kept_ways::KeptWays;
use crate::steps::KeptSteps;
use crate::tight::TightEnds;
use crate::tours::Tour;
use crate::trails::Trail;
use crate::with_guide::ListWithGuide;
use std::alloc::Global;
use std::marker::Model;
use vr_earliest::write_ways;
use vr_model::{Closed, NoMemory, ScheduleRule};
use vr_plan::{KnownDimension, Table, Timing};
use vr_routes::{Piece, Routes, Splice};

/// What is kept of the list of a vehicle.
#[derive(Drop)]
pub struct KeptList {
    // the steps and the stages of its chosen schedule:
    // - none if there is no guide (breaks, or a stop with several runs)
    // - none if that schedule is tight and no stop has a soft upper bound
    // - not a stage for each stop if the list is empty and has no schedule
    steps: KeptSteps,
    // the cumuls of its start and of its end, between which the steps are. They are 0 unless there is a guide, the
    // vehicle chooses its tight schedule and a stop has a soft upper bound.
    between: TightEnds,
    // the ways and the rests that tell the ends of its schedule: one entry if it chooses its tight one, else none
    ends: Vec<KeptWays>,
}

impl KeptList {
    // Of no list, with room for what such a rule asks. The only error is out of memory.
    fn new(alloc: Global, rule: ScheduleRule) -> Result<KeptList, NoMemory>
        ensures room { IfOk result (HasRoom rule) }
        ensures none { IfOk result (λ kept. length kept.steps.stages.items ≡ 0) }
    {
        let mut ends = Vec::new(alloc);
        if is_tight(rule) {
            ends.push(KeptWays::new())?;
        }
        Ok(KeptList {
            steps: KeptSteps::new(),
            between: TightEnds { start: 0, last: 0 },
            ends,
        })
    }

    // Forgets the list.
    fn forget(&mut self)
        ensures none { length self.new.steps.stages.items ≡ 0 }
        ensures room { length self.new.ends.items ≡ length self.old.ends.items }
        ensures ends { (model : Defined) (d : ℕ) (v : ℕ) (list : List ℕ)
            → HaveKeptWays model d v list self.new.ends.items }
        ensures between { HasCumuls self.new.between }
    {
        self.steps.forget();
        self.between = TightEnds { start: 0, last: 0 };
        if !self.ends.is_empty() {
            self.ends[0].forget();
        }
    }

    // Writes what is kept of a list of a vehicle that chooses its earliest schedule.
    fn write_earliest(&mut self, on: &ListWithGuide)
        requires { IsGuideBy Earliest on.now.guide.now }
        ensures kept { IsKept on.now.guide.now.model.now on.now.guide.now.d on.now.guide.now.v on.now.list.now
            self.new }
        ensures room { length self.new.ends.items ≡ length self.old.ends.items }
    {
        self.forget();
        self.steps.write(on);
    }

    // Writes what is kept of a list of a vehicle that chooses its tight schedule.
    fn write_tight(&mut self, on: &ListWithGuide)
        requires { IsGuideBy Tight on.now.guide.now }
        ensures kept { IsKept on.now.guide.now.model.now on.now.guide.now.d on.now.guide.now.v on.now.list.now
            self.new }
        ensures room { length self.new.ends.items ≡ length self.old.ends.items }
    {
        self.forget();
        // there is room: this was opened for the rule of the vehicle
        if self.ends.is_empty() {
            return;
        }
        write_ways(&mut self.ends[0], on.guide, on.list);
        self.write_between(on);
    }

    // Writes the steps and the stages of a list between its two ends, if some stop has a soft upper bound.
    fn write_between(&mut self, on: &ListWithGuide)
        requires { HasWaysAlone on.now.guide.now.model.now on.now.guide.now.d on.now.guide.now.v
            (runs_of on.now.guide.now)
            on.now.list.now self.old }
        ensures stages { HasStages on.now.guide.now.model.now on.now.guide.now.d on.now.guide.now.v
            (between_runs (runs_of on.now.guide.now) self.new.between.start self.new.between.last) on.now.list.now
            self.new.steps }
        ensures between { HasCumuls self.new.between }
        ensures told { on.now.guide.now.table.now.is_hard ≡ false → AreTightEndsOf on.now.guide.now.model.now
            on.now.guide.now.d on.now.guide.now.v (runs_of on.now.guide.now) on.now.list.now self.new.between }
        ensures all { on.now.guide.now.table.now.is_hard ≡ false → (line : Line)
            → AllowsRuns on.now.guide.now.model.now on.now.guide.now.d on.now.guide.now.v
            (between_runs (runs_of on.now.guide.now) self.new.between.start self.new.between.last) on.now.list.now
            line → IsFeasible line → length self.new.steps.stages.items ≡ length on.now.list.now + 2 }
        ensures ends { self.new.ends.items ≡ self.old.ends.items }
    {
        if on.guide.table.is_hard {
            return;
        }
        let ends = on.ends(&self.ends[0]);
        self.between = ends;
        let between = on.guide.between(ends);
        self.steps.write(&ListWithGuide {
            guide: &between,
            list: on.list,
        });
    }

    // What the tight schedule of the changed list comes to. Nothing exactly if what is kept does not tell. That does
    // not happen: there is a guide, and so all ways of the list are kept.
    fn tight_after(&self, asked: &Asked, trail: &mut Trail) -> Option<Timing>
        requires kept { IsKeptBy Tight asked.now self.now }
        requires feasible { IsFeasible (new_line asked.now) }
        ensures known { IsTrue (is_some result) ↔ HasAllWays (old_list asked.now) self.now }
        ensures timing { IfSome result (IsNewTiming asked.now) }
        ensures range { IfSome result (IsTimingOf (length (new_list asked.now) + 2)) }
    {
        if self.ends.is_empty() {
            return None;
        }
        let kept = &self.ends[0];
        let list = asked.routes.list(asked.guide.v);
        if !kept.has_ways(list.len()) {
            return None;
        }
        let ends = asked.ends_of(kept);
        if asked.guide.table.is_hard {
            return Some(Timing {
                soft: 0,
                start: ends.start,
                last: ends.last,
            });
        }
        self.timing_between(asked, ends, trail)
    }

    // The same between its two ends. If there is a stage for each stop and the list ended as it does now, what is kept
    // tells it. Else the whole list is walked. Nothing exactly if there is no such schedule, which does not happen
    // between these ends.
    fn timing_between(&self, asked: &Asked, ends: TightEnds, trail: &mut Trail) -> Option<Timing>
        requires allows { ChoiceAllows asked.now
            (between_runs (runs_of asked.now.guide.now) ends.start ends.last) }
        requires kept { IsKeptBy Tight asked.now self.now }
        requires ends { HasCumuls ends }
        ensures { IsNewTimingFound asked.now result }
    {
        let list = asked.routes.list(asked.guide.v);
        if self.steps.are_of(list.len()) {
            if self.between.last == ends.last {
                return self.timing_from(asked, ends.start, trail);
            }
        }
        asked.timing_between(ends, trail)
    }

    // The same from a start that is given to the end that is kept. The guide is of both ends that are kept; the kept
    // steps belong to it.
    fn timing_from(&self, asked: &Asked, start: i64, trail: &mut Trail) -> Option<Timing>
        requires allows { ChoiceAllows asked.now
            (between_runs (runs_of asked.now.guide.now) start self.now.between.last) }
        requires kept { IsKeptBy Tight asked.now self.now }
        requires start { IsIn (pos 0) horizon start }
        requires many { length self.now.steps.stages.items ≡ length (old_list asked.now) + 2 }
        ensures { IsNewTimingFound asked.now result }
    {
        let kept = asked.guide.between(self.between);
        let asked = Asked {
            guide: &kept,
            routes: asked.routes,
            pieces: asked.pieces,
            splice: asked.splice,
        };
        self.steps.after(&asked, Some(start), trail)
    }

    // What the earliest schedule of the changed list comes to. Nothing exactly if what is kept does not tell. There is
    // a guide, so all stages are kept of a list that has a schedule. Each valid list has one, except that an empty list
    // may have none.
    fn earliest_after(&self, asked: &Asked, trail: &mut Trail) -> Option<Timing>
        requires { IsKeptBy Earliest asked.now self.now }
        ensures known { IsFeasible (new_line asked.now)
            → IsTrue (is_some result) ↔ HasAllStages (old_list asked.now) self.now }
        ensures timing { IfSome result (IsNewTiming asked.now) }
        ensures range { IfSome result (IsTimingOf (length (new_list asked.now) + 2)) }
    {
        let list = asked.routes.list(asked.guide.v);
        if !self.steps.are_of(list.len()) {
            return None;
        }
        self.steps.after(asked, None, trail)
    }
}

// Whether a rule chooses the tight schedule.
fn is_tight(rule: ScheduleRule) -> bool
    ensures { result ≡ is_tight rule }
{
    match rule {
        ScheduleRule::Earliest => false,
        ScheduleRule::Tight => true,
    }
}

/// What is kept of the lists of all vehicles in one dimension. It is of no list if the dimension has none of the costs
/// for which lists are kept. Contracts see what is kept of each.
#[derive(Drop)]
pub struct KeptCumuls {
    lists: Vec<KeptList>,
}

impl Model for KeptCumuls {
    ghost use Rattle.std.specs.Prelude.{List};
    ghost use Rattle.vr_costfilter.specs.declared.kept.KeptList.{KeptList as KeptOf};

    ghost Value = { List KeptOf };

    ghost view = { λ kept. kept.lists.items };
}

impl KeptCumuls {
    /// Of no list. It takes no memory.
    pub fn none(alloc: Global) -> KeptCumuls
        ensures { (model : Defined) (d : ℕ) (lists : List (List ℕ)) → AreKept model d lists result }
    {
        KeptCumuls {
            lists: Vec::new(alloc),
        }
    }

    /// Of the lists of routes in dimension `d`. The only error is out of memory.
    pub fn open(
        alloc: Global,
        closed: Closed<'_>,
        table: &Table,
        d: u32,
        routes: &Routes,
    ) -> Result<KeptCumuls, NoMemory>
        requires valid { IsTrue (is_valid closed.model.now routes.now.lists) }
        requires known { IsLookedUp closed.model.now d table.now }
        ensures kept { IfOk result (AreKept closed.entry.model.now d routes.now.lists) }
        ensures each { IfOk result (λ kept. length kept ≡ length routes.now.lists) }
    {
        let mut lists = Vec::new(alloc);
        for v in 0..routes.vehicles() {
            let mut kept = KeptList::new(alloc, closed.model.vehicles.get(v as usize).schedule)?;
            let tour = Tour {
                closed,
                v,
                list: routes.list(v),
            };
            write_list(&tour, table, d, &mut kept);
            lists.push(kept)?;
        }
        Ok(KeptCumuls { lists })
    }

    /// A vehicle gets another list. Nothing is done if nothing is kept. It takes no memory.
    pub fn write(&mut self, tour: &Tour, table: &Table, d: u32)
        requires known { IsLookedUp tour.now.closed.model.now d table.now }
        ensures kept { (lists : List (List ℕ)) → AreKept tour.now.closed.model.now d lists self.old
            → tour.now.v < length lists
            → AreKept tour.now.closed.model.now d (with_route lists tour.now.v tour.now.list.now) self.new }
        ensures many { length self.new ≡ length self.old }
    {
        let v = tour.v as usize;
        if v < self.lists.len() {
            write_list(tour, table, d, &mut self.lists[v]);
        }
    }

    /// What the chosen schedule of the list that pieces are joined to comes to in a dimension. The pieces are a splice
    /// of the list that the vehicle has. The trail is written over.
    ///
    /// Nothing exactly if what is kept does not tell:
    /// - nothing is kept;
    /// - the vehicle has breaks;
    /// - a stop allows several runs of cumuls;
    /// - it is an earliest schedule, and the list before is empty and has none.
    ///
    /// An earliest schedule: the front that the change keeps is walked back as far as it gets another floor. The end
    /// that it keeps is walked on as far as it gets another cumul.
    ///
    /// A tight schedule: what the change keeps is not walked for the two ends. If no stop has a soft upper bound, that
    /// is all. If some stop has one and the list ends at the cumul that is kept, it is walked as an earliest one is.
    /// That walk begins at its start, and ends when a cumul is as kept. If the list ends at another cumul, or the list
    /// before has no schedule, the whole list is walked.
    pub fn timing_after(
        &self,
        at: &KnownDimension,
        routes: &Routes,
        pieces: &[Piece],
        splice: Splice<'_>,
        trail: &mut Trail,
    ) -> Option<Timing>
        requires at { IsKnownDimension at.now }
        requires kept { AreKept at.now.model.now at.now.d routes.now.lists self.now }
        requires joined { AreJoinedFeasibly at.now.model.now at.now.d routes.now.lists pieces.now splice }
        ensures known { IsTrue (is_some result) ↔ IsKnown at.now.model.now at.now.d splice.entry.vehicle
            (route routes.now.lists splice.entry.vehicle) self.now }
        ensures timing { IfSome result
            (IsTiming at.now.model.now at.now.d splice.entry.vehicle (joined routes.now.lists pieces.now)) }
        ensures range { IfSome result (IsTimingOf (length (joined routes.now.lists pieces.now) + 2)) }
    {
        let v = splice.vehicle;
        if v as usize >= self.lists.len() {
            return None;
        }
        let guide = Guide::of(Closed { model: at.model }, at.table, at.d, v)?;
        let asked = Asked {
            guide: &guide,
            routes,
            pieces,
            splice,
        };
        let kept = &self.lists[v as usize];
        let vehicle = at.model.vehicles.get(v as usize);
        match vehicle.schedule {
            ScheduleRule::Earliest => kept.earliest_after(&asked, trail),
            ScheduleRule::Tight => kept.tight_after(&asked, trail),
        }
    }
}

// Writes what is kept of the list of a vehicle in dimension `d`. It is nothing if there is no guide, since the vehicle
// has breaks or a stop allows several runs of cumuls.
fn write_list(tour: &Tour, table: &Table, d: u32, kept: &mut KeptList)
    requires known { IsLookedUp tour.now.closed.model.now d table.now }
    ensures kept { IsKept tour.now.closed.model.now d tour.now.v tour.now.list.now kept.new }
    ensures room { length kept.new.ends.items ≡ length kept.old.ends.items }
{
    match Guide::of(tour.closed, table, d, tour.v) {
        Some(guide) => {
            let on = ListWithGuide {
                guide: &guide,
                list: tour.list,
            };
            match tour.closed.model.vehicles.get(tour.v as usize).schedule {
                ScheduleRule::Earliest => kept.write_earliest(&on),
                ScheduleRule::Tight => kept.write_tight(&on),
            }
        }
        None => kept.forget(),
    }
}
