//! Floors are found from the end backwards. Then a vehicle goes along its stops, at each at the least cumul that the
//! one before it and the floor leave.
//!
//! Clauses bound what soft upper bounds cost by the number of stops that a stage has paid for. That is at most 1002 of
//! a committed list. With at most 1000 steps of a trail after the front of the list, it is 2002. Then at most 1001 more
//! come up to the end. 4000 is above all of these.

ghost use Rattle.std.proofs.Props.{props};
ghost use Rattle.std.specs.Prelude.{◌≡◌, ◌<◌, ◌≤◌, ◌+◌, All, IfSome, IsTrue, Some, is_some, length, reverse};
ghost use Rattle.std.specs.Prelude.{ℕ, List, [], ◌∷◌, neg_ℤ, pos, ◌≤ℤ◌, ◌^◌};
ghost use Rattle.std.specs.Option.{option_copied};
ghost use Rattle.vr_model.specs.tables.Numbers.{horizon};
ghost use Rattle.vr_model.specs.tables.Tables.{dimension_at, is_visit};
ghost use Rattle.vr_model.specs.tables.Tables.{transit as transit_of, vehicle_at};
ghost use Rattle.vr_model.specs.tables.WellFormed.{IsIn, IsStopRow, WherePresent};
ghost use Rattle.vr_model.specs.tables.WellFormedOnce.{IsWellFormed-prop};
ghost use Rattle.vr_reach.specs.VisitRuns.{have_stops_one_run, HasCumulEnds};
ghost use Rattle.vr_costfilter.specs.Floors.{before as before_by, end_step as end_step_by, stop_floor as floor_by};
ghost use Rattle.vr_costfilter.specs.Floors.{IsStep, IsVisitStep, WentBack};
ghost use Rattle.vr_costfilter.specs.Guides.{IsRunGuide, IsStopAt};
ghost use Rattle.vr_costfilter.specs.LookedUp.{IsLookedUp};
ghost use Rattle.vr_costfilter.specs.Stages.{along, go_on as go_on_by, stage_at_start as standing_by};
ghost use Rattle.vr_costfilter.specs.Stages.{to_end as to_end_by, to_visit as to_visit_by, IsStageOf};

use crate::trails::{Step, Trail};
use vr_model::{Closed, Evaluator, Model, StopRow};
use vr_plan::{Table, row_cost, row_of};
use vr_reach::{Ahead, StopsFor, earliest_behind, single_runs, slack_of};
use vr_spans::Run;

/// How far a vehicle has come: the node of the stop at which it is, its cumul there, and the cost so far. That is what
/// the soft upper bounds of the stops up to this one cost, with this one. Cumuls are in `0..=2^36`, costs at least 0.
#[derive(Clone, Copy, Default)]
pub struct Stage {
    pub at: u32,
    pub cumul: i64,
    pub soft: i64,
}

/// What is looked up once for many arcs of vehicle `v` in dimension `d`. The vehicle has no breaks there, and no stop
/// allows more than one run of cumuls. This goes for its start, its end and each visit of the model, whether it is in
/// its list or not. The run of a stop that allows no cumul has no number.
#[derive(Drop)]
pub struct Guide<'m> {
    pub model: &'m Model,
    pub table: &'m Table,
    pub d: u32,
    pub v: u32,
    /// What tells its transits.
    pub evaluator: &'m Evaluator,
    /// The greatest slack, in `0..=2^36`.
    pub slack: i64,
    /// The run of its start.
    pub start: Run,
    /// The runs of visits, by their nodes.
    pub visits: &'m [Run],
    /// The node of its end, and the run that it allows.
    pub finish: Ahead,
    /// What it says of them is so, of a well formed model.
    pub ghost sound: { IsRunGuide model.now d v table.now evaluator.now slack start visits.now finish } by { Prim.hlevel
        (props, IsWellFormed-prop) },
}

impl<'m> Guide<'m> {
    ghost use Rattle.vr_costfilter.specs.GuideRuns.{runs_of, HasItsRuns};

    /// What is looked up once. Nothing exactly if the vehicle has breaks, or a stop allows several runs of cumuls.
    #[inline]
    pub fn of(closed: Closed<'m>, table: &'m Table, d: u32, v: u32) -> Option<Guide<'m>>
        requires known { IsLookedUp closed.model.now d table.now }
        requires vehicle { v < length closed.model.now.vehicles }
        ensures runs { IfSome result HasItsRuns }
        ensures model { IfSome result (λ guide. guide.model.now ≡ closed.entry.model.now) }
        ensures dimension { IfSome result (λ guide. guide.d ≡ d) }
        ensures vehicle { IfSome result (λ guide. guide.v ≡ v) }
        ensures known { is_some result ≡ have_stops_one_run closed.entry.model.now d v }
    {
        let model = closed.model;
        let runs = single_runs(&StopsFor {
            closed,
            d,
            v,
            of_dimension: &table.stops,
        })?;
        Some(Guide {
            model,
            table,
            d,
            v,
            evaluator: model.dimensions.get(d as usize).evaluator_of(v),
            slack: slack_of(closed, d),
            start: runs.start,
            visits: runs.visits,
            finish: runs.finish,
        })
    }

    // The transit from one node to another.
    #[inline(always)]
    pub(crate) fn transit(&self, from: u32, to: u32) -> i64
        requires from { from < self.now.model.now.nodes }
        requires to { to < self.now.model.now.nodes }
        ensures value { result ≡ transit_of self.now.model.now self.now.d self.now.v from to }
        ensures least { neg_ℤ (pos (2 ^ 31)) ≤ℤ result }
        ensures greatest { result ≤ℤ pos (2 ^ 31) }
    {
        self.model.transit_by(self.evaluator, from, to)
    }

    /// The step to the end.
    #[inline]
    pub fn end_step(&self) -> Step
        ensures value { result ≡ end_step_by self.now.model.now self.now.v (runs_of self.now) }
        ensures range { IsStep self.now.model.now result }
    {
        Step {
            node: self.finish.node,
            floor: self.finish.allowed.lo,
        }
    }

    /// Back to a visit, which comes before the next step: puts the step to it on the trail, and gives it. Nothing
    /// exactly if the visit allows no cumul from its floor on.
    #[inline]
    pub fn step_back(&self, node: u32, next: Step, trail: &mut Trail) -> Option<Step>
        requires node { IsTrue (is_visit self.now.model.now node) }
        requires next { IsStep self.now.model.now next }
        requires room { length trail.old.steps.items < 1000 }
        ensures value { result ≡ before_by self.now.model.now self.now.d self.now.v (runs_of self.now) node next }
        ensures back { IfSome result (λ step. (nodes : List ℕ) → nodes ≡ node ∷ []
            → WentBack self.now.model.now self.now.d self.now.v (runs_of self.now)
            nodes next trail.old.steps.items trail.new.steps.items step) }
        ensures range { IfSome result (IsStep self.now.model.now) }
    {
        let step = self.before(node, next)?;
        trail.steps.push(step);
        Some(step)
    }

    /// The step to a visit that comes before the next step. Nothing exactly if the visit allows no cumul from its floor
    /// on.
    #[inline]
    pub fn before(&self, node: u32, next: Step) -> Option<Step>
        requires node { IsTrue (is_visit self.now.model.now node) }
        requires next { IsStep self.now.model.now next }
        ensures value { result ≡ before_by self.now.model.now self.now.d self.now.v (runs_of self.now) node next }
        ensures range { IfSome result (IsVisitStep self.now.model.now) }
    {
        let floor = self.floor_of(node, self.visits[node as usize], next)?;
        Some(Step { node, floor })
    }

    /// The floor of the start before the next step. Nothing exactly if the start allows no cumul from there on.
    #[inline]
    pub fn start_floor(&self, next: Step) -> Option<i64>
        requires next { IsStep self.now.model.now next }
        ensures value { result ≡ floor_by self.now.model.now self.now.d self.now.v
            (vehicle_at self.now.model.now self.now.v).start self.now.start next }
        ensures range { IfSome result (IsIn (pos 0) horizon) }
    {
        self.floor_from(self.start, next)
    }

    /// The same, if the start allows another run: `steps` asks it of the one cumul at which a tight schedule starts.
    #[inline]
    pub fn floor_from(&self, start: Run, next: Step) -> Option<i64>
        requires start { HasCumulEnds start }
        requires next { IsStep self.now.model.now next }
        ensures value { result ≡ floor_by self.now.model.now self.now.d self.now.v
            (vehicle_at self.now.model.now self.now.v).start start next }
        ensures range { IfSome result (IsIn (pos 0) horizon) }
    {
        let node = self.model.vehicles.get(self.v as usize).start;
        self.floor_of(node, start, next)
    }

    // The floor of a stop at a node, before the next step. From there the greatest slack just leads up to the next
    // floor. If the least cumul that the stop allows is greater, the floor is that. Nothing exactly if the stop allows
    // none from its floor on.
    #[inline]
    fn floor_of(&self, node: u32, allowed: Run, next: Step) -> Option<i64>
        requires stop { IsStopAt self.now.model.now node allowed }
        requires next { IsStep self.now.model.now next }
        ensures value { result ≡ floor_by self.now.model.now self.now.d self.now.v node allowed next }
        ensures range { IfSome result (IsIn (pos 0) horizon) }
    {
        let transit = self.transit(node, next.node);
        let floor = (next.floor - transit - self.slack).max(allowed.lo);
        if floor > allowed.hi {
            return None;
        }
        Some(floor)
    }

    /// The vehicle is at its start, at a cumul.
    #[inline]
    pub fn standing(&self, cumul: i64) -> Stage
        requires cumul { IsIn (pos 0) horizon cumul }
        ensures value { result ≡ standing_by self.now.model.now self.now.d self.now.v cumul }
        ensures range { IsStageOf self.now.model.now 1 result }
    {
        let dimension = self.model.dimensions.get(self.d as usize);
        Stage {
            at: self.model.vehicles.get(self.v as usize).start,
            cumul,
            soft: row_cost(StopRow::of_key(&dimension.starts, self.v), cumul),
        }
    }

    /// It goes on along a trail, from its top down, which is from the first visit to the last. Nothing exactly if it
    /// cannot.
    #[inline]
    pub fn along_trail(&self, trail: &Trail, stage: Stage) -> Option<Stage>
        requires steps { All (IsVisitStep self.now.model.now) (reverse trail.now.steps.items) }
        requires stage { IsStageOf self.now.model.now 1002 stage }
        ensures value { result ≡ along self.now.model.now self.now.d self.now.v (runs_of self.now) (Some stage)
            (reverse trail.now.steps.items) }
        ensures range { IfSome result (IsStageOf self.now.model.now 2002) }
    {
        let mut gone = stage;
        let many = trail.steps.len();
        for k in 0..many {
            match self.to_visit(gone, trail.steps[many - 1 - k]) {
                Some(next) => gone = next,
                None => return None,
            }
        }
        Some(gone)
    }

    /// It goes on to a visit, and comes there at its floor or later. Nothing exactly if it cannot.
    #[inline]
    pub fn to_visit(&self, stage: Stage, step: Step) -> Option<Stage>
        requires stage { IsStageOf self.now.model.now 4000 stage }
        requires step { IsVisitStep self.now.model.now step }
        ensures value { result ≡ to_visit_by self.now.model.now self.now.d self.now.v (runs_of self.now) step stage }
        ensures at { IfSome result (λ next. next.at ≡ step.node) }
        ensures range { IfSome result (λ next. (n : ℕ) → IsStageOf self.now.model.now n stage
            → IsStageOf self.now.model.now (n + 1) next) }
    {
        let dimension = self.model.dimensions.get(self.d as usize);
        let row = row_of(&dimension.nodes, &self.table.row_places, step.node);
        let raised = Run {
            lo: step.floor,
            hi: self.visits[step.node as usize].hi,
        };
        self.go_on(stage, step.node, raised, row)
    }

    /// It goes on to its end. Nothing exactly if it cannot.
    #[inline]
    pub fn to_end(&self, stage: Stage) -> Option<Stage>
        requires stage { IsStageOf self.now.model.now 4000 stage }
        ensures value { result ≡ to_end_by self.now.model.now self.now.d self.now.v (runs_of self.now) stage }
        ensures range { IfSome result (λ next. (n : ℕ) → IsStageOf self.now.model.now n stage
            → IsStageOf self.now.model.now (n + 1) next) }
    {
        let dimension = self.model.dimensions.get(self.d as usize);
        let row = StopRow::of_key(&dimension.ends, self.v);
        self.go_on(stage, self.finish.node, self.finish.allowed, row)
    }

    // It goes on to a node that allows a run of cumuls, to the least of them that it reaches. It pays there what `row`
    // asks. Nothing exactly if it reaches none.
    #[inline]
    fn go_on(&self, stage: Stage, node: u32, allowed: Run, row: Option<&StopRow>) -> Option<Stage>
        requires stage { IsStageOf self.now.model.now 4000 stage }
        requires stop { IsStopAt self.now.model.now node allowed }
        requires row { WherePresent IsStopRow (option_copied row) }
        ensures value { result ≡ go_on_by (transit_of self.now.model.now self.now.d self.now.v stage.at node)
            (dimension_at self.now.model.now self.now.d).slack_max node allowed (option_copied row.entry) stage }
        ensures at { IfSome result (λ next. next.at ≡ node) }
        ensures range { IfSome result (λ next. (n : ℕ) → IsStageOf self.now.model.now n stage
            → IsStageOf self.now.model.now (n + 1) next) }
    {
        let transit = self.transit(stage.at, node);
        let cumul = earliest_behind(stage.cumul, transit, self.slack, allowed)?;
        let cost = row_cost(row, cumul);
        Some(Stage {
            at: node,
            cumul,
            soft: stage.soft + cost,
        })
    }
}
