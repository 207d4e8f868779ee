//! The least end of a line, its latest start, and the line that allows these alone.

ghost use Rattle.std.specs.Prelude.{◌≡◌, IfOk, IfSome, IsNone, length, pos};
ghost use Rattle.vr_model.specs.tables.Numbers.{horizon};
ghost use Rattle.vr_model.specs.tables.WellFormed.{IsIn};
ghost use Rattle.vr_steps.specs.Lines.{IsSoundLine};
ghost use Rattle.vr_reach.specs.Rows.{IsBackwardRow, IsForwardRow};
ghost use Rattle.vr_plan.specs.Ends.{IsLatestOf, IsLeastEndOf, IsTightLineOf};
ghost use Rattle.vr_plan.specs.Settled.{IsUnfeasible};

use crate::narrow::{pin, same_line};
use crate::sound::SoundLine;
use std::alloc::Global;
use vr_model::NoMemory;
use vr_reach::{Sweep, greatest_shared, least_shared};
use vr_spans::Spans;
use vr_steps::{Levels, Line, end_levels, start_levels};

// The least cumul at the end of all schedules of a line, by what its last stop is reached at; `None` exactly if it has
// no schedule.
fn least_end(alloc: Global, sound: SoundLine<'_>, ahead: &Levels) -> Result<Option<i64>, NoMemory>
    requires ahead { IsForwardRow sound.line.now (length sound.line.now.hops) ahead.now }
    ensures some { IfOk result (λ end. IfSome end (IsLeastEndOf sound.entry.line.now)) }
    ensures none { IfOk result (λ end. IsNone end → IsUnfeasible sound.entry.line.now) }
    ensures range { IfOk result (λ end. IfSome end (IsIn (pos 0) horizon)) }
{
    let line = sound.line;
    let allowed = line.allowed.get(line.hops.len());
    let ends = end_levels(alloc, allowed, &line.breaks)?;
    Ok(least_shared(ahead, &ends))
}

// The greatest cumul at the start of all schedules of a line, by what the end is reached from at its first stop; `None`
// exactly if it has no schedule.
fn latest_start(
    alloc: Global,
    sound: SoundLine<'_>,
    behind: &Levels,
) -> Result<Option<i64>, NoMemory>
    requires behind { IsBackwardRow sound.line.now 0 behind.now }
    ensures some { IfOk result (λ start. IfSome start (IsLatestOf sound.entry.line.now)) }
    ensures none { IfOk result (λ start. IsNone start → IsUnfeasible sound.entry.line.now) }
    ensures range { IfOk result (λ start. IfSome start (IsIn (pos 0) horizon)) }
{
    let line = sound.line;
    let allowed = line.allowed.get(0);
    let starts = start_levels(alloc, allowed, &line.breaks)?;
    let mut scratch = Spans::new(alloc);
    greatest_shared(&starts, behind, &mut scratch)
}

// The line whose end allows its least cumul alone, and whose start the greatest with it, by what the last stop is
// reached at; `None` only if the line has no schedule.
pub(crate) fn tight_line(
    alloc: Global,
    sound: SoundLine<'_>,
    ahead: &Levels,
) -> Result<Option<Line>, NoMemory>
    requires ahead { IsForwardRow sound.line.now (length sound.line.now.hops) ahead.now }
    ensures some { IfOk result (λ found. IfSome found (IsTightLineOf sound.entry.line.now)) }
    ensures none { IfOk result (λ found. IsNone found → IsUnfeasible sound.entry.line.now) }
    ensures sound { IfOk result (λ found. IfSome found IsSoundLine) }
    ensures stops { IfOk result (λ found. IfSome found (λ narrow.
        length narrow.allowed ≡ length sound.entry.line.now.allowed)) }
{
    let line = sound.line;
    let Some(end) = least_end(alloc, sound, ahead)? else {
        return Ok(None);
    };
    let mut narrow = same_line(alloc, line)?;
    pin(alloc, &mut narrow, line.hops.len(), end)?;
    let mut behind = Sweep::new(alloc);
    behind.backward(alloc, &narrow)?;
    let ending = SoundLine { line: &narrow };
    // `None` does not come: some schedule ends at the least end
    let Some(start) = latest_start(alloc, ending, behind.levels(0))? else {
        return Ok(None);
    };
    pin(alloc, &mut narrow, 0, start)?;
    Ok(Some(narrow))
}
