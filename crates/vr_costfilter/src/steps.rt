//! What a change makes of a list whose steps and stages are kept. The walk goes back along what the change puts in, and
//! before that until a floor is as kept. Then it goes on along this, and after it until a cumul is as kept. A tight
//! schedule has a start at a cumul that is given. Then the vehicle goes from there along the kept front too, until it
//! comes to a kept cumul.

ghost use Rattle.std.specs.Prelude.{◌-ℤ◌, pos};
ghost use Rattle.std.specs.Prelude.{◌≡◌, ◌<◌, ◌≤◌, ◌+◌, IfSome, IsTrue, Some, drop, length};
ghost use Rattle.std.specs.Prelude.{◌↔◌, option_map, slice_index_or, take};
ghost use Rattle.vr_model.specs.schedules.Lines.{Line};
ghost use Rattle.vr_model.specs.schedules.Schedules.{IsFeasible};
ghost use Rattle.vr_model.specs.tables.Numbers.{horizon};
ghost use Rattle.vr_model.specs.tables.WellFormed.{IsIn, WherePresent};
ghost use Rattle.vr_costfilter.specs.Asked.{old_list, ChoiceAllows, IsNewTimingFound};
ghost use Rattle.vr_costfilter.specs.GuideRuns.{runs_of};
ghost use Rattle.vr_costfilter.specs.Floors.{end_step, first_step, IsStep};
ghost use Rattle.vr_costfilter.specs.Runs.{only as only_of, start_run, starting, AllowsRuns};
ghost use Rattle.vr_costfilter.specs.Steps.{steps_of, AreKnownSteps, AreStepsFrom};
ghost use Rattle.vr_costfilter.specs.Steps.{AreStagesInRange};
ghost use Rattle.vr_costfilter.specs.Steps.{first_led, reached, HasStages, IsLead, IsLeadAlong, IsOutsetOf, LeadsTo};
ghost use Rattle.vr_costfilter.specs.Stages.{along, paid_more, setting_out, stage_at_start, along_to_end, IsAtStart};
ghost use Rattle.vr_costfilter.specs.Stages.{IsStageOf};

use crate::changed_list::Asked;
use crate::guides::{Guide, Stage};
use crate::tight::only;
use crate::trails::{Step, Trail};
use crate::with_guide::{ChainWithGuide, ListWithGuide, PiecesWithGuide};
use arrayvec::ArrayVec;
use vr_plan::Timing;

/// The steps and the stages of a list.
#[derive(Drop)]
pub struct KeptSteps {
    // the steps to its visits, from the last one to the first
    trail: Trail,
    // the stages at the start, at each visit and at the end; fewer if there is no schedule
    stages: ArrayVec<Stage, 1002>,
}

/// What new steps come to at the front: how many of the first visits have floors as kept, and the first step of all.
#[derive(Clone, Copy)]
pub struct Lead {
    place: usize,
    first: Step,
}

/// How a walk along new steps begins:
/// - its stage, the kept one if one is met;
/// - the cumul at the start;
/// - what was paid up to there beyond what the stage says: below 0 if less, 0 if the stage is not a kept one.
#[derive(Clone, Copy)]
pub struct Outset {
    stage: Stage,
    start: i64,
    more: i64,
}

/// The steps and the stages that are kept of a list, with a stage for each of its stops.
#[derive(Drop)]
pub struct KnownSteps<'a, 'm> {
    guide: &'a Guide<'m>,
    list: &'a [u32],
    kept: &'a KeptSteps,
    // they are those along it
    ghost sound: { AreKnownSteps guide.now.model.now guide.now.d guide.now.v (runs_of guide.now) list.now kept.now },
}

impl KeptSteps {
    /// Of no list. It takes no memory.
    pub fn new() -> KeptSteps
        ensures { length result.stages.items ≡ 0 }
    {
        KeptSteps {
            trail: Trail::new(),
            stages: ArrayVec::new(),
        }
    }

    /// Forgets the list: steps are looked at only if there is a stage for each stop.
    pub fn forget(&mut self)
        ensures { length self.new.stages.items ≡ 0 }
    {
        self.stages.clear();
    }

    /// Whether a stage is kept for each stop of a list of `n` visits.
    #[inline]
    pub fn are_of(&self, n: usize) -> bool
        requires { n ≤ 1000 }
        ensures { IsTrue result ↔ (length self.now.stages.items ≡ n + 2) }
    {
        self.stages.len() == n + 2
    }

    /// Writes the steps and the stages of a list, as far as there are any. There are all of them if it is feasible.
    pub fn write(&mut self, on: &ListWithGuide)
        ensures stages { HasStages on.now.guide.now.model.now on.now.guide.now.d on.now.guide.now.v
            (runs_of on.now.guide.now) on.now.list.now self.new }
        ensures all { (line : Line) → AllowsRuns on.now.guide.now.model.now on.now.guide.now.d on.now.guide.now.v
            (runs_of on.now.guide.now) on.now.list.now line → IsFeasible line
            → length self.new.stages.items ≡ length on.now.list.now + 2 }
    {
        self.stages.clear();
        self.trail.steps.clear();
        let end = on.guide.end_step();
        let chain = ChainWithGuide {
            guide: on.guide,
            nodes: on.list,
            reversed: false,
        };
        match chain.back_along(end, &mut self.trail) {
            Some(first) => self.write_stages(on, first),
            None => {}
        }
    }

    // Writes the stages along the steps, of which `first` is the first one.
    fn write_stages(&mut self, on: &ListWithGuide, first: Step)
        requires none { length self.old.stages.items ≡ 0 }
        requires steps { AreStepsFrom on.now.guide.now.model.now on.now.guide.now.d on.now.guide.now.v
            (runs_of on.now.guide.now) on.now.list.now (steps_of self.old) first }
        ensures stages { HasStages on.now.guide.now.model.now on.now.guide.now.d on.now.guide.now.v
            (runs_of on.now.guide.now) on.now.list.now self.new }
        ensures all { (line : Line) → AllowsRuns on.now.guide.now.model.now on.now.guide.now.d on.now.guide.now.v
            (runs_of on.now.guide.now) on.now.list.now line → IsFeasible line
            → length self.new.stages.items ≡ length on.now.list.now + 2 }
    {
        let guide = on.guide;
        let list = on.list;
        let Some(floor) = guide.start_floor(first) else {
            return;
        };
        let mut stage = guide.standing(floor);
        self.stages.push(stage);
        for k in 0..list.len() {
            match guide.to_visit(stage, self.trail.steps[list.len() - 1 - k]) {
                Some(next) => stage = next,
                None => return,
            }
            self.stages.push(stage);
        }
        if let Some(end) = guide.to_end(stage) {
            self.stages.push(end);
        }
    }

    /// What the chosen schedule of the list comes to that is asked of. Its start is at a cumul that is given (of a
    /// tight schedule), or else at its floor (of an earliest one). Nothing exactly if there is none.
    pub fn after(&self, asked: &Asked, start: Option<i64>, trail: &mut Trail) -> Option<Timing>
        requires allows { ChoiceAllows asked.now (starting (runs_of asked.now.guide.now)
            (start_run (runs_of asked.now.guide.now) start)) }
        requires start { WherePresent (IsIn (pos 0) horizon) start }
        requires known { AreKnownSteps asked.now.guide.now.model.now asked.now.guide.now.d asked.now.guide.now.v
            (runs_of asked.now.guide.now) (old_list asked.now) self.now }
        ensures { IsNewTimingFound asked.now result }
    {
        let guide = asked.guide;
        let list = asked.routes.list(guide.v);
        let known = KnownSteps {
            guide,
            list,
            kept: self,
        };
        let splice = asked.splice;
        let front = splice.front as usize;
        let behind = splice.behind as usize;
        trail.steps.clear();
        let next = known.step_behind(behind);
        let on = PiecesWithGuide {
            guide,
            routes: asked.routes,
            pieces: splice.middle,
        };
        let first = on.back_along(next, trail)?;
        let lead = known.lead(front, first, trail)?;
        let met = known.set_out(start, lead)?;
        let gone = guide.along_trail(trail, met.stage)?;
        let end = known.end_behind(behind, gone)?;
        Some(Timing {
            soft: end.soft + met.more,
            start: met.start,
            last: end.cumul,
        })
    }
}

impl<'a, 'm> KnownSteps<'a, 'm> {
    // How new steps begin, after the first `lead.place` visits. The start of the vehicle is at the cumul that is given
    // (of a tight schedule), or else at its floor (of an earliest one). Nothing exactly if the start allows no cumul
    // from its floor on, or the vehicle cannot come so far along the kept steps.
    fn set_out(&self, start: Option<i64>, lead: Lead) -> Option<Outset>
        requires start { WherePresent (IsIn (pos 0) horizon) start }
        requires lead { IsLead self.now.guide.now.model.now (steps_of self.now.kept.now)
            (length self.now.list.now) lead }
        ensures value { option_map reached result
            ≡ along self.now.guide.now.model.now self.now.guide.now.d self.now.guide.now.v (runs_of self.now.guide.now)
            (setting_out self.now.guide.now.model.now self.now.guide.now.d self.now.guide.now.v
            (starting (runs_of self.now.guide.now) (start_run (runs_of self.now.guide.now) start)) lead.first)
            (take lead.place (steps_of self.now.kept.now)) }
        ensures met { IfSome result (IsOutsetOf self.now.guide.now.model.now self.now.guide.now.d self.now.guide.now.v
            (runs_of self.now.guide.now)
            (start_run (runs_of self.now.guide.now) start) (steps_of self.now.kept.now) lead) }
    {
        match start {
            Some(cumul) => self.meet_from(cumul, lead),
            None => self.meet(lead),
        }
    }

    // The kept step to the stop after the first `k` visits.
    #[inline]
    fn step_behind(&self, k: usize) -> Step
        requires { k ≤ length self.now.list.now }
        ensures range { IsStep self.now.guide.now.model.now result }
        ensures value { result ≡ slice_index_or (steps_of self.now.kept.now) k
            (end_step self.now.guide.now.model.now self.now.guide.now.v
            (runs_of self.now.guide.now)) }
    {
        let n = self.list.len();
        if k < n {
            self.kept.trail.steps[n - 1 - k]
        } else {
            self.guide.end_step()
        }
    }

    // Back along the first `front` visits of the list, which come before the next step, until a floor is as kept. Puts
    // the steps with other floors on the trail. Nothing exactly if some stop allows no cumul from its floor on.
    fn lead(&self, front: usize, next: Step, trail: &mut Trail) -> Option<Lead>
        requires place { front ≤ length self.now.list.now }
        requires next { IsStep self.now.guide.now.model.now next }
        requires room { length trail.old.steps.items + front ≤ 1000 }
        ensures first { option_map first_led result
            ≡ first_step self.now.guide.now.model.now self.now.guide.now.d self.now.guide.now.v
            (runs_of self.now.guide.now)
            (take front self.now.list.now) next }
        ensures led { IfSome result (IsLeadAlong self.now.guide.now.model.now self.now.guide.now.d self.now.guide.now.v
            (runs_of self.now.guide.now)
            (steps_of self.now.kept.now) (take front self.now.list.now) next trail.old.steps.items
            trail.new.steps.items) }
    {
        let list = self.list;
        let all = self.kept;
        let mut first = next;
        for k in 0..front {
            let place = front - 1 - k;
            let kept = all.trail.steps[list.len() - 1 - place];
            let step = match self.guide.before(kept.node, first) {
                Some(step) => step,
                None => return None,
            };
            if step.floor == kept.floor {
                return Some(Lead {
                    place: place + 1,
                    first: all.trail.steps[list.len() - 1],
                });
            }
            trail.steps.push(step);
            first = step;
        }
        Some(Lead { place: 0, first })
    }

    // The stage at which new steps begin: the kept one if a floor before them is as kept, and else that at the start.
    // Nothing exactly if the start allows no cumul from its floor on.
    fn meet(&self, lead: Lead) -> Option<Outset>
        requires lead { IsLead self.now.guide.now.model.now (steps_of self.now.kept.now)
            (length self.now.list.now) lead }
        ensures value { option_map reached result
            ≡ along self.now.guide.now.model.now self.now.guide.now.d self.now.guide.now.v (runs_of self.now.guide.now)
            (setting_out self.now.guide.now.model.now self.now.guide.now.d self.now.guide.now.v
            (runs_of self.now.guide.now) lead.first)
            (take lead.place (steps_of self.now.kept.now)) }
        ensures met { IfSome result (IsOutsetOf self.now.guide.now.model.now self.now.guide.now.d self.now.guide.now.v
            (runs_of self.now.guide.now)
            (runs_of self.now.guide.now).start (steps_of self.now.kept.now) lead) }
    {
        if lead.place == 0 {
            return self.at_floor(lead.first);
        }
        Some(Outset {
            stage: self.kept.stages[lead.place],
            start: self.kept.stages[0].cumul,
            more: 0,
        })
    }

    // The stage at the start before another step. Nothing exactly if the start allows no cumul from its floor on.
    fn at_floor(&self, next: Step) -> Option<Outset>
        requires next { IsStep self.now.guide.now.model.now next }
        ensures value { option_map reached result
            ≡ setting_out self.now.guide.now.model.now self.now.guide.now.d self.now.guide.now.v
            (runs_of self.now.guide.now) next }
        ensures out { IfSome result (λ met. setting_out self.now.guide.now.model.now self.now.guide.now.d
            self.now.guide.now.v
            (runs_of self.now.guide.now) next ≡ Some met.stage) }
        ensures start { IfSome result (λ met. met.start ≡ met.stage.cumul) }
        ensures more { IfSome result (λ met. met.more ≡ pos 0) }
        ensures range { IfSome result (λ met. IsStageOf self.now.guide.now.model.now 1002 met.stage) }
    {
        let floor = self.guide.start_floor(next)?;
        Some(Outset {
            stage: self.start_stage(floor),
            start: floor,
            more: 0,
        })
    }

    // The stage at the start at a cumul; the kept one if it has the same cumul.
    fn start_stage(&self, cumul: i64) -> Stage
        requires cumul { IsIn (pos 0) horizon cumul }
        ensures value { result ≡ stage_at_start self.now.guide.now.model.now self.now.guide.now.d self.now.guide.now.v
            cumul }
        ensures range { IsStageOf self.now.guide.now.model.now 1002 result }
    {
        let kept = self.kept.stages[0];
        if kept.cumul == cumul {
            return kept;
        }
        self.guide.standing(cumul)
    }

    // The stage at which new steps begin, if the start is at a cumul that is given. Nothing exactly if that is below
    // its floor, or the vehicle does not come from there to the new steps.
    fn meet_from(&self, start: i64, lead: Lead) -> Option<Outset>
        requires start { IsIn (pos 0) horizon start }
        requires lead { IsLead self.now.guide.now.model.now (steps_of self.now.kept.now)
            (length self.now.list.now) lead }
        ensures value { option_map reached result
            ≡ along self.now.guide.now.model.now self.now.guide.now.d self.now.guide.now.v (runs_of self.now.guide.now)
            (setting_out self.now.guide.now.model.now self.now.guide.now.d self.now.guide.now.v (starting
            (runs_of self.now.guide.now) (only_of start))
            lead.first) (take lead.place (steps_of self.now.kept.now)) }
        ensures met { IfSome result (IsOutsetOf self.now.guide.now.model.now self.now.guide.now.d self.now.guide.now.v
            (runs_of self.now.guide.now)
            (only_of start) (steps_of self.now.kept.now) lead) }
    {
        let floor = self.guide.floor_from(only(start), lead.first)?;
        let out = self.guide.standing(floor);
        self.pace(lead.place, out)
    }

    // A vehicle goes on from a stage at the start along the first `place` visits of the list. Once it comes to a cumul
    // that is kept, it takes the kept stage after these visits. Nothing exactly if it cannot go on.
    fn pace(&self, place: usize, out: Stage) -> Option<Outset>
        requires place { place ≤ length self.now.list.now }
        requires out { IsAtStart self.now.guide.now.model.now self.now.guide.now.d self.now.guide.now.v out }
        ensures value { option_map reached result
            ≡ along self.now.guide.now.model.now self.now.guide.now.d self.now.guide.now.v
            (runs_of self.now.guide.now) (Some out)
            (take place (steps_of self.now.kept.now)) }
        ensures paced { IfSome result (LeadsTo self.now.guide.now.model.now self.now.guide.now.d self.now.guide.now.v
            (runs_of self.now.guide.now)
            (take place (steps_of self.now.kept.now)) out) }
    {
        let list = self.list;
        let all = self.kept;
        let mut gone = out;
        for k in 0..place {
            let kept = all.stages[k];
            if gone.cumul == kept.cumul {
                return Some(Outset {
                    stage: all.stages[place],
                    start: out.cumul,
                    more: gone.soft - kept.soft,
                });
            }
            match self
                .guide
                .to_visit(gone, all.trail.steps[list.len() - 1 - k])
            {
                Some(next) => gone = next,
                None => return None,
            }
        }
        Some(Outset {
            stage: gone,
            start: out.cumul,
            more: 0,
        })
    }

    // The stage at the end of a vehicle that goes on along the list from place `behind` on. Nothing exactly if it
    // cannot. Once it comes to a cumul that is kept, all that follows is as kept.
    fn end_behind(&self, behind: usize, stage: Stage) -> Option<Stage>
        requires place { behind ≤ length self.now.list.now }
        requires stage { IsStageOf self.now.guide.now.model.now 2002 stage }
        ensures { result ≡ along_to_end self.now.guide.now.model.now self.now.guide.now.d self.now.guide.now.v
            (runs_of self.now.guide.now) (Some stage)
            (drop behind (steps_of self.now.kept.now)) }
    {
        // taken out once: each turn of the loop would read them anew
        let guide = self.guide;
        let list = self.list;
        let all = self.kept;
        let mut gone = stage;
        for k in behind..list.len() {
            match guide.to_visit(gone, all.trail.steps[list.len() - 1 - k]) {
                Some(next) => gone = next,
                None => return None,
            }
            let kept = all.stages[k + 1];
            if gone.cumul == kept.cumul {
                return Some(resumed(all.stages[list.len() + 1], kept, gone));
            }
        }
        guide.to_end(gone)
    }
}

// The stage at the end, if a vehicle comes to a cumul that is kept and has paid another cost before.
#[inline]
fn resumed(end: Stage, kept: Stage, gone: Stage) -> Stage
    requires { AreStagesInRange end kept gone }
    ensures { result ≡ paid_more (gone.soft -ℤ kept.soft) end }
{
    Stage {
        at: end.at,
        cumul: end.cumul,
        soft: end.soft + (gone.soft - kept.soft),
    }
}
