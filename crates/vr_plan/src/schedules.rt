//! The chosen schedule of a line, under each rule.

ghost use Rattle.std.specs.Prelude.{◌≡◌, IfOk, IfSome, All, pos, length};
ghost use Rattle.vr_model.specs.tables.Numbers.{horizon};
ghost use Rattle.vr_model.specs.tables.WellFormed.{IsIn};
ghost use Rattle.vr_model.specs.declared.records.ScheduleRule.TheVariants.{Tight};
ghost use Rattle.vr_steps.specs.Lines.{IsSoundLine};
ghost use Rattle.vr_reach.specs.Rows.{AreBackward, AreRows, IsForwardRow};
ghost use Rattle.vr_plan.specs.Plans.{AreChosenCumulsUnder, IsChosenPlan, IsChosenPlanUnder};

use crate::cumuls::settled_cumuls;
use crate::ends::tight_line;
use crate::plans::slacks_left;
use crate::sound::SoundLine;
use crate::starts::chosen_starts;
use crate::{Chooser, Plan};
use std::alloc::Global;
use vr_model::{NoMemory, ScheduleRule, Seq};
use vr_reach::{Rows, Sweep};
use vr_steps::{Levels, Line};

/// The schedule of a line that is chosen under a rule; `None` exactly if the line has no schedule.
/// - `Earliest`: the one whose cumuls, compared from the start on, are least. Of those with equal cumuls it is the one
///   whose break starts, compared in order, are least.
/// - `Tight`: the same of those schedules whose end is least and, with it, the start greatest.
pub fn schedule(alloc: Global, line: &Line, rule: ScheduleRule) -> Result<Option<Plan>, NoMemory>
    requires sound { IsSoundLine line.now }
    ensures chosen { IfOk result (IsChosenPlanUnder rule line.now) }
    ensures stops { IfOk result (λ found. IfSome found (λ plan. length plan.cumuls ≡ length line.now.allowed)) }
    ensures range { IfOk result (λ found. IfSome found (λ plan. All (IsIn (pos 0) horizon) plan.cumuls)) }
{
    let sound = SoundLine { line };
    match rule {
        ScheduleRule::Earliest => earliest(alloc, sound),
        ScheduleRule::Tight => tight(alloc, sound),
    }
}

/// The schedule of a line that is chosen under a rule, as `schedule` answers it, for who has the rows of the line. In
/// this repository tests alone call it.
pub fn schedule_over(
    alloc: Global,
    line: &Line,
    rows: &Rows,
    rule: ScheduleRule,
) -> Result<Option<Plan>, NoMemory>
    requires rows { AreRows line.now rows.now }
    ensures chosen { IfOk result (IsChosenPlanUnder rule line.now) }
    ensures stops { IfOk result (λ found. IfSome found (λ plan. length plan.cumuls ≡ length line.now.allowed)) }
    ensures range { IfOk result (λ found. IfSome found (λ plan. All (IsIn (pos 0) horizon) plan.cumuls)) }
{
    let sound = SoundLine { line };
    match rule {
        ScheduleRule::Earliest => schedule_behind(alloc, sound, rows.backward_sweep()),
        ScheduleRule::Tight => tight_ahead(alloc, sound, rows.forward(line.hops.len())),
    }
}

/// The cumuls of the schedule of a line that is chosen under a rule, one for each stop; `None` exactly if the line has
/// no schedule. The breaks are taken into account, and their starts are not looked for. In this repository tests alone
/// ask it; a `Timer` asks a [`Chooser`] of its own.
pub fn chosen_cumuls(
    alloc: Global,
    line: &Line,
    rule: ScheduleRule,
) -> Result<Option<Seq<i64>>, NoMemory>
    requires sound { IsSoundLine line.now }
    ensures chosen { IfOk result (AreChosenCumulsUnder rule line.now) }
    ensures stops { IfOk result (λ found. IfSome found (λ cumuls. length cumuls ≡ length line.now.allowed)) }
    ensures range { IfOk result (λ found. IfSome found (All (IsIn (pos 0) horizon))) }
{
    let mut chooser = Chooser::new(alloc);
    let goes = chooser.choose(alloc, line, rule)?;
    let cumuls = chooser.into_cumuls();
    Ok(goes.then_some(cumuls))
}

// The schedule of a line whose cumuls, and then break starts, are least.
fn earliest(alloc: Global, sound: SoundLine<'_>) -> Result<Option<Plan>, NoMemory>
    ensures chosen { IfOk result (IsChosenPlan sound.entry.line.now) }
    ensures stops { IfOk result (λ found. IfSome found (λ plan.
        length plan.cumuls ≡ length sound.entry.line.now.allowed)) }
    ensures range { IfOk result (λ found. IfSome found (λ plan. All (IsIn (pos 0) horizon) plan.cumuls)) }
{
    let mut behind = Sweep::new(alloc);
    behind.backward(alloc, sound.line)?;
    schedule_behind(alloc, sound, &behind)
}

// The tight schedule of a line.
fn tight(alloc: Global, sound: SoundLine<'_>) -> Result<Option<Plan>, NoMemory>
    ensures chosen { IfOk result (IsChosenPlanUnder Tight sound.entry.line.now) }
    ensures stops { IfOk result (λ found. IfSome found (λ plan.
        length plan.cumuls ≡ length sound.entry.line.now.allowed)) }
    ensures range { IfOk result (λ found. IfSome found (λ plan. All (IsIn (pos 0) horizon) plan.cumuls)) }
{
    let line = sound.line;
    let mut ahead = Sweep::new(alloc);
    ahead.forward(alloc, line)?;
    tight_ahead(alloc, sound, ahead.levels(line.hops.len()))
}

// The tight schedule of a line, by what its last stop is reached at: the earliest once its ends are narrowed.
fn tight_ahead(
    alloc: Global,
    sound: SoundLine<'_>,
    ahead: &Levels,
) -> Result<Option<Plan>, NoMemory>
    requires ahead { IsForwardRow sound.line.now (length sound.line.now.hops) ahead.now }
    ensures chosen { IfOk result (IsChosenPlanUnder Tight sound.entry.line.now) }
    ensures stops { IfOk result (λ found. IfSome found (λ plan.
        length plan.cumuls ≡ length sound.entry.line.now.allowed)) }
    ensures range { IfOk result (λ found. IfSome found (λ plan. All (IsIn (pos 0) horizon) plan.cumuls)) }
{
    let Some(narrow) = tight_line(alloc, sound, ahead)? else {
        return Ok(None);
    };
    let inner = SoundLine { line: &narrow };
    earliest(alloc, inner)
}

// The earliest schedule of a line, by what its end is reached from.
fn schedule_behind(
    alloc: Global,
    sound: SoundLine<'_>,
    behind: &Sweep,
) -> Result<Option<Plan>, NoMemory>
    requires behind { AreBackward sound.line.now behind.now }
    ensures chosen { IfOk result (IsChosenPlan sound.entry.line.now) }
    ensures stops { IfOk result (λ found. IfSome found (λ plan.
        length plan.cumuls ≡ length sound.entry.line.now.allowed)) }
    ensures range { IfOk result (λ found. IfSome found (λ plan. All (IsIn (pos 0) horizon) plan.cumuls)) }
{
    let line = sound.line;
    let Some(cumuls) = settled_cumuls(alloc, sound, behind)? else {
        return Ok(None);
    };
    let Some(breaks) = chosen_starts(alloc, sound, cumuls.as_slice())? else {
        return Ok(None);
    };
    let slacks = slacks_left(alloc, line.hops.as_slice(), cumuls.as_slice())?;
    Ok(Some(Plan {
        cumuls,
        slacks,
        breaks,
    }))
}
