//! What is reached at a stop, moved from stop to stop. A walk goes along a whole line. It may also go along a changed
//! or growing line, from a stop that this shares with one whose levels are known.

ghost use Rattle.std.specs.Prelude.{◌≡◌, ◌+◌, ◌<◌, ◌≤◌, ◌↔◌, ℕ, [], ◌∷◌, All, IsTrue, IfOk, OnOk, OnErr, length};
ghost use Rattle.vr_model.specs.schedules.Lines.{Line as Defined};
ghost use Rattle.vr_model.specs.schedules.Schedules.{IsFeasible};
ghost use Rattle.vr_model.specs.tables.WellFormed.{IsBreak};
ghost use Rattle.vr_spans.specs.Runs.{IsNormal};
ghost use Rattle.vr_steps.specs.Levels.{IsCrossing, IsCumuls, AreLevels, AreStartLevels, AreCrossed, forward_steps};
ghost use Rattle.vr_steps.specs.Lines.{IsLineOf, IsSoundLine};
ghost use Rattle.vr_reach.specs.Rows.{IsForwardRow, row_at};
ghost use Rattle.vr_reach.specs.Walks.{EndsAt, Meets, runs_in};

use crate::Rows;
use crate::shared::share;
use std::alloc::Global;
use std::marker::Model;
use std::mem;
use std::sync::ledger::Ledger;
use vr_model::{NoMemory, Steps};
use vr_spans::Spans;
use vr_steps::{
    Breaks, Hop, Levels, Line, Way, can_end, cross_into, cross_uncounted, start_levels,
    start_levels_into,
};

/// What is reached at a stop of a line, moved from stop to stop. Contracts see the levels at the stop that the walk is
/// at.
///
/// A walk takes memory only if a set has more than four runs, or if there are breaks.
#[derive(Drop)]
pub struct Walk {
    here: Levels,
    next: Levels,
}

impl Model for Walk {
    ghost use Rattle.std.specs.Prelude.{List};
    ghost use Rattle.vr_spans.specs.declared.runs.Run.{Run};

    ghost Value = { List (List Run) };

    ghost view = { λ w. w.here };
}

impl Walk {
    /// A walk that is at no stop. It takes no memory.
    pub fn new(alloc: Global) -> Walk
        ensures { result ≡ [] ∷ [] }
    {
        Walk {
            here: Levels::new(alloc),
            next: Levels::new(alloc),
        }
    }

    /// Begins at a stop of a line with its forward levels. Tests alone ask for a walk so.
    pub fn open(alloc: Global, rows: &Rows, stop: usize) -> Result<Walk, NoMemory>
        requires stop { stop < length rows.now.forward }
        ensures { IfOk result (λ walk. walk ≡ row_at rows.now.forward stop) }
    {
        let here = rows.forward(stop).copy(alloc)?;
        Ok(Walk {
            here,
            next: Levels::new(alloc),
        })
    }

    /// Begins at a start that allows these cumuls. Tests alone ask for a walk so.
    pub fn fresh(alloc: Global, start: &Spans, breaks: &Breaks) -> Result<Walk, NoMemory>
        requires breaks { All IsBreak breaks.now }
        requires few { length breaks.now ≤ 8 }
        requires start { IsCumuls start.now }
        ensures exact { IfOk result (AreStartLevels start.now breaks.now) }
        ensures levels { IfOk result (AreLevels breaks.now) }
    {
        let here = start_levels(alloc, start, breaks)?;
        Ok(Walk {
            here,
            next: Levels::new(alloc),
        })
    }

    /// Whether a line has a schedule: goes along it from its start to its end. `vr_plan` alone asks it, for each start
    /// of a break that it tries; of lists without a line `goes_through` answers it. Afterwards nothing is said of the
    /// walk's levels.
    pub fn goes_along(&mut self, line: &Line) -> Result<bool, NoMemory>
        requires { IsSoundLine line.now }
        ensures { IfOk result (λ goes. (defined : Defined) → IsLineOf defined line.now →
            IsTrue goes ↔ IsFeasible defined) }
    {
        walk_along(line, &mut self.here, &mut self.next)?;
        Ok(self.ends(&line.breaks))
    }

    /// Whether the line has a schedule, once the walk is at its last stop. It has one exactly if, with some number of
    /// breaks taken, the others can be taken after some cumul. It takes no memory. `vr_rules` asks it of lists that
    /// grow.
    pub fn ends(&self, breaks: &Breaks) -> bool
        requires breaks { All IsBreak breaks.now }
        requires few { length breaks.now ≤ 8 }
        requires here { AreLevels breaks.now self.now }
        ensures { (line : Defined) → EndsAt line breaks.now self.now → IsTrue result ↔ IsFeasible line }
    {
        can_end(&self.here, breaks)
    }

    /// Goes over an arc that leads from a stop with these levels: `rows.forward(k)` when a changed line leaves a known
    /// one at stop `k`.
    pub fn leave<L: Ledger>(
        &mut self,
        from: &Levels,
        hop: Hop,
        next: &Spans,
        breaks: &Breaks,
        steps: &mut Steps<L>,
    ) -> Result<(), NoMemory>
        requires { IsCrossing from.now hop next.now breaks.now }
        ensures exact { OnOk result (AreCrossed from.now hop next.now breaks.now self.new) }
        ensures levels { OnOk result (AreLevels breaks.now self.new) }
        ensures count { OnOk result (steps.new ≡ steps.old + forward_steps from.now) }
        ensures at_most { steps.new ≤ steps.old + forward_steps from.now }
        ensures normal { All IsNormal from.now }
        ensures kept { OnErr result (self.new ≡ self.old) }
    {
        cross_into(from, hop, next, breaks, steps, &mut self.next)?;
        mem::swap(&mut self.here, &mut self.next);
        Ok(())
    }

    /// As `leave`, but nobody counts steps, and nothing is said of the walk's levels after `NoMemory`. `vr_rules` asks
    /// it of lists that grow, and `standing`.
    pub fn cross_from(
        &mut self,
        from: &Levels,
        hop: Hop,
        next: &Spans,
        breaks: &Breaks,
    ) -> Result<(), NoMemory>
        requires { IsCrossing from.now hop next.now breaks.now }
        ensures exact { OnOk result (AreCrossed from.now hop next.now breaks.now self.new) }
        ensures levels { OnOk result (AreLevels breaks.now self.new) }
    {
        cross_uncounted(Way::On, from, hop, next, breaks, &mut self.next)?;
        mem::swap(&mut self.here, &mut self.next);
        Ok(())
    }

    /// Goes on over an arc. After `NoMemory` the walk is as it was.
    pub fn step<L: Ledger>(
        &mut self,
        hop: Hop,
        next: &Spans,
        breaks: &Breaks,
        steps: &mut Steps<L>,
    ) -> Result<(), NoMemory>
        requires { IsCrossing self.old hop next.now breaks.now }
        ensures exact { OnOk result (AreCrossed self.old hop next.now breaks.now self.new) }
        ensures levels { OnOk result (AreLevels breaks.now self.new) }
        ensures count { OnOk result (steps.new ≡ steps.old + forward_steps self.old) }
        ensures at_most { steps.new ≤ steps.old + forward_steps self.old }
        ensures normal { All IsNormal self.old }
        ensures kept { OnErr result (self.new ≡ self.old) }
    {
        cross_into(&self.here, hop, next, breaks, steps, &mut self.next)?;
        mem::swap(&mut self.here, &mut self.next);
        Ok(())
    }

    /// As `step`, but nobody counts steps, and nothing is said of the walk's levels after `NoMemory`.
    pub fn cross(&mut self, hop: Hop, next: &Spans, breaks: &Breaks) -> Result<(), NoMemory>
        requires { IsCrossing self.old hop next.now breaks.now }
        ensures exact { OnOk result (AreCrossed self.old hop next.now breaks.now self.new) }
        ensures levels { OnOk result (AreLevels breaks.now self.new) }
    {
        cross_uncounted(Way::On, &self.here, hop, next, breaks, &mut self.next)?;
        mem::swap(&mut self.here, &mut self.next);
        Ok(())
    }

    /// Writes the walk's levels over `levels`. Afterwards nothing is said of those that it has. It takes no memory.
    pub fn hand_over(&mut self, levels: &mut Levels)
        ensures { levels.new ≡ self.old }
    {
        mem::swap(&mut self.here, levels);
    }

    /// Whether the line along which the walk goes has a schedule, if from here on it is the line of the rows from
    /// `stop` on. It takes no memory, and counts a step for each run of both levels. Tests alone ask it; walks ask
    /// `meets`.
    pub fn joins<L: Ledger>(&self, rows: &Rows, stop: usize, steps: &mut Steps<L>) -> bool
        requires stop { stop < length rows.now.backward }
        ensures exact { (line : Defined) (k : ℕ) → Meets line k self.now (row_at rows.now.backward stop) →
            IsTrue result ↔ IsFeasible line }
        ensures count { steps.new ≡ steps.old + (runs_in self.now + runs_in (row_at rows.now.backward stop)) }
    {
        self.meets(rows.backward(stop), steps)
    }

    /// Whether the line along which the walk goes has a schedule, if these are the levels from which its end is reached
    /// at this stop. It takes no memory, and counts a step for each run of both levels.
    pub fn meets<L: Ledger>(&self, behind: &Levels, steps: &mut Steps<L>) -> bool
        ensures exact { (line : Defined) (k : ℕ) → Meets line k self.now behind.now → IsTrue result ↔ IsFeasible line }
        ensures count { steps.new ≡ steps.old + (runs_in self.now + runs_in behind.now) }
        ensures normal { All IsNormal self.now }
        ensures normal_behind { All IsNormal behind.now }
    {
        count_runs(&self.here, steps);
        count_runs(behind, steps);
        share(&self.here, behind)
    }
}

// Writes what is reached at the last stop of a line over `here`.
fn walk_along(line: &Line, here: &mut Levels, next: &mut Levels) -> Result<(), NoMemory>
    requires { IsSoundLine line.now }
    ensures { OnOk result (IsForwardRow line.now (length line.now.hops) here.new) }
{
    start_levels_into(line.allowed.get(0), &line.breaks, here)?;
    for k in 0..line.hops.len() {
        cross_uncounted(
            Way::On,
            here,
            *line.hops.get(k),
            line.allowed.get(k + 1),
            &line.breaks,
            next,
        )?;
        mem::swap(here, next);
    }
    Ok(())
}

// Counts a step for each run of levels.
fn count_runs<L: Ledger>(levels: &Levels, steps: &mut Steps<L>)
    ensures count { steps.new ≡ steps.old + runs_in levels.now }
    ensures normal { All IsNormal levels.now }
{
    for b in 0..levels.len() {
        count_set(levels.level(b), steps);
    }
}

// Counts a step for each run of a set.
fn count_set<L: Ledger>(set: &Spans, steps: &mut Steps<L>)
    ensures count { steps.new ≡ steps.old + length set.now }
    ensures normal { IsNormal set.now }
{
    'runs: for _ in 0..set.len() {
        steps.tick();
    }
}
