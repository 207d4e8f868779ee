//! Copies of lines that are narrowed: stops allow given cumuls alone, breaks have given starts. `starts`, `ends` and
//! `vr_span` ask for them.

ghost use Rattle.std.specs.Prelude.{◌≡◌, ◌<◌, ◌≤◌, All, IfOk, OnOk, length, pos, set, slice_index_or};
ghost use Rattle.vr_model.specs.tables.Numbers.{horizon};
ghost use Rattle.vr_model.specs.tables.WellFormed.{IsIn};
ghost use Rattle.vr_model.specs.schedules.Schedules.{no_break};
ghost use Rattle.vr_steps.specs.Levels.{IsCumuls};
ghost use Rattle.vr_steps.specs.Lines.{IsSoundLine};
ghost use Rattle.vr_plan.specs.Ends.{IsPinnedOf};
ghost use Rattle.vr_plan.specs.Narrow.{AreOnly};
ghost use Rattle.vr_plan.specs.Settled.{HaveChosenCumuls};

use crate::cumuls::keep;
use crate::sound::SoundLine;
use arrayvec::ArrayVec;
use std::alloc::Global;
use vr_model::{BreakRow, NoMemory, Seq};
use vr_spans::Spans;
use vr_steps::{Breaks, Hop, Line};

// The line whose stops allow these cumuls alone.
pub(crate) fn with_cumuls(
    alloc: Global,
    sound: SoundLine<'_>,
    cumuls: &[i64],
) -> Result<Line, NoMemory>
    requires cumuls { HaveChosenCumuls sound.line.now cumuls.now }
    ensures allowed { IfOk result (λ narrow. AreOnly sound.entry.line.now.allowed cumuls.now narrow.allowed) }
    ensures hops { IfOk result (λ narrow. narrow.hops ≡ sound.entry.line.now.hops) }
    ensures breaks { IfOk result (λ narrow. narrow.breaks ≡ sound.entry.line.now.breaks) }
    ensures sound { IfOk result IsSoundLine }
{
    let line = sound.line;
    Ok(Line {
        allowed: only_sets(alloc, sound, cumuls)?,
        hops: same_hops(alloc, line.hops.as_slice())?,
        breaks: same_breaks(&line.breaks),
    })
}

// For each stop, the set that has its cumul alone.
fn only_sets(alloc: Global, sound: SoundLine<'_>, cumuls: &[i64]) -> Result<Seq<Spans>, NoMemory>
    requires cumuls { HaveChosenCumuls sound.line.now cumuls.now }
    ensures exact { IfOk result (AreOnly sound.entry.line.now.allowed cumuls.now) }
    ensures cumuls { IfOk result (All IsCumuls) }
{
    let line = sound.line;
    let mut sets = Seq::new(alloc);
    for k in 0..line.allowed.len() {
        let mut only = Spans::new(alloc);
        keep(line.allowed.get(k), cumuls[k], &mut only)?;
        sets.push(only)?;
    }
    Ok(sets)
}

/// Lets stop `k` allow `x` alone if it allowed it, and nothing if it did not. It fails only if it is out of memory.
pub fn pin(alloc: Global, line: &mut Line, k: usize, x: i64) -> Result<(), NoMemory>
    requires sound { IsSoundLine line.old }
    requires place { k < length line.old.allowed }
    requires cumul { IsIn (pos 0) horizon x }
    ensures exact { OnOk result (IsPinnedOf line.old k x line.new) }
    ensures sound { OnOk result (IsSoundLine line.new) }
    ensures stops { OnOk result (length line.new.allowed ≡ length line.old.allowed) }
{
    let mut only = Spans::new(alloc);
    keep(line.allowed.get(k), x, &mut only)?;
    line.allowed.set(k, only);
    Ok(())
}

/// The same line anew. It fails only if it is out of memory.
pub fn same_line(alloc: Global, line: &Line) -> Result<Line, NoMemory>
    requires { length line.now.breaks ≤ 8 }
    ensures { IfOk result (λ same. same ≡ line.now) }
{
    Ok(Line {
        allowed: same_sets(alloc, line.allowed.as_slice())?,
        hops: same_hops(alloc, line.hops.as_slice())?,
        breaks: same_breaks(&line.breaks),
    })
}

// A copy of the sets: a narrowed line owns its own.
fn same_sets(alloc: Global, sets: &[Spans]) -> Result<Seq<Spans>, NoMemory>
    ensures { IfOk result (λ same. same ≡ sets.now) }
{
    let mut same = Seq::new(alloc);
    for k in 0..sets.len() {
        let Ok(set) = sets[k].copy() else {
            return Err(NoMemory);
        };
        same.push(set)?;
    }
    Ok(same)
}

// A copy of the arcs.
fn same_hops(alloc: Global, hops: &[Hop]) -> Result<Seq<Hop>, NoMemory>
    ensures { IfOk result (λ same. same ≡ hops.now) }
{
    let mut same = Seq::new(alloc);
    for hop in hops {
        same.push(*hop)?;
    }
    Ok(same)
}

// A copy of the breaks.
fn same_breaks(breaks: &Breaks) -> Breaks
    requires { length breaks.now ≤ 8 }
    ensures { result ≡ breaks.now }
{
    Breaks {
        rows: ArrayVec::try_from(breaks.rows.as_slice()).unwrap(),
    }
}

// Puts a row in the place of break `i`.
pub(crate) fn put_row(breaks: &mut Breaks, i: usize, row: BreakRow)
    requires { i < length breaks.old }
    ensures { breaks.new ≡ set breaks.old i row }
{
    breaks.rows[i] = row;
}

// Break `i`.
pub(crate) fn row_at(breaks: &Breaks, i: usize) -> BreakRow
    requires { i < length breaks.now }
    ensures { result ≡ slice_index_or breaks.now i no_break }
{
    breaks.rows[i]
}
