//! The levels at the two ends of a line.

ghost use Rattle.std.specs.Prelude.{◌≡◌, ◌<◌, ◌≤◌, ◌↔◌, ℕ, suc, ℤ, All, IfOk, OnOk, IsTrue, length};
ghost use Rattle.vr_model.specs.schedules.Levels.{FitAfter};
ghost use Rattle.vr_model.specs.tables.WellFormed.{IsBreak};
ghost use Rattle.vr_spans.specs.Runs.{has};
ghost use Rattle.vr_steps.specs.Levels.{IsCumuls, AreLevels, AreStartLevels, AreEndLevels, level_at};
ghost use Rattle.vr_steps.specs.Fits.{FitsBefore, FitsAfter, CanEnd};
ghost use Rattle.vr_steps.specs.Ways.{AreBegunBy, IsBegunBy};

use crate::chains::{earliest, last};
use crate::ways::Way;
use crate::{Breaks, Levels};
use std::alloc::Global;
use vr_model::limits::HORIZON;
use vr_model::{BreakRow, NoMemory};
use vr_spans::{Run, Spans};

/// The levels of a start: with `b` breaks taken, the allowed cumuls before which the first `b` breaks fit.
pub fn start_levels(alloc: Global, allowed: &Spans, breaks: &Breaks) -> Result<Levels, NoMemory>
    requires breaks { All IsBreak breaks.now }
    requires few { length breaks.now ≤ 8 }
    requires allowed { IsCumuls allowed.now }
    ensures exact { IfOk result (AreStartLevels allowed.now breaks.now) }
    ensures levels { IfOk result (AreLevels breaks.now) }
{
    let mut out = Levels::new(alloc);
    start_levels_into(allowed, breaks, &mut out)?;
    Ok(out)
}

/// Writes the levels of a start over `out`, as `start_levels` answers them. After `NoMemory` nothing is said of `out`.
pub fn start_levels_into(allowed: &Spans, breaks: &Breaks, out: &mut Levels) -> Result<(), NoMemory>
    requires breaks { All IsBreak breaks.now }
    requires few { length breaks.now ≤ 8 }
    requires allowed { IsCumuls allowed.now }
    ensures exact { OnOk result (AreStartLevels allowed.now breaks.now out.new) }
    ensures levels { OnOk result (AreLevels breaks.now out.new) }
{
    write_all(Way::On, allowed, breaks, out)
}

/// The levels of an end: with `b` breaks taken, the allowed cumuls after which the other breaks fit.
pub fn end_levels(alloc: Global, allowed: &Spans, breaks: &Breaks) -> Result<Levels, NoMemory>
    requires breaks { All IsBreak breaks.now }
    requires few { length breaks.now ≤ 8 }
    requires allowed { IsCumuls allowed.now }
    ensures exact { IfOk result (AreEndLevels allowed.now breaks.now) }
    ensures levels { IfOk result (AreLevels breaks.now) }
{
    let mut out = Levels::new(alloc);
    end_levels_into(allowed, breaks, &mut out)?;
    Ok(out)
}

/// Writes the levels of an end over `out`, as `end_levels` answers them. After `NoMemory` nothing is said of `out`.
pub fn end_levels_into(allowed: &Spans, breaks: &Breaks, out: &mut Levels) -> Result<(), NoMemory>
    requires breaks { All IsBreak breaks.now }
    requires few { length breaks.now ≤ 8 }
    requires allowed { IsCumuls allowed.now }
    ensures exact { OnOk result (AreEndLevels allowed.now breaks.now out.new) }
    ensures levels { OnOk result (AreLevels breaks.now out.new) }
{
    write_all(Way::Back, allowed, breaks, out)
}

/// Whether, with some number of breaks taken, the others can all be taken after a cumul of the levels. It takes no
/// memory, and needs no levels of the end: `vr_reach::Walk::ends` asks it at a last stop.
pub fn can_end(levels: &Levels, breaks: &Breaks) -> bool
    requires breaks { All IsBreak breaks.now }
    requires few { length breaks.now ≤ 8 }
    requires levels { AreLevels breaks.now levels.now }
    ensures { IsTrue result ↔ CanEnd levels.now breaks.now }
{
    let rows = breaks.rows.as_slice();
    for b in 0..rows.len() + 1 {
        if fit_behind(levels.level(b), &rows[b..]) {
            return true;
        }
    }
    false
}

// Whether these breaks can all be taken after some cumul of a set: then they can after the least.
fn fit_behind(set: &Spans, rows: &[BreakRow]) -> bool
    requires rows { All IsBreak rows.now }
    requires few { length rows.now ≤ 8 }
    requires set { IsCumuls set.now }
    ensures { IsTrue result ↔ ((x : ℤ) × IsTrue (has set.now x) × FitAfter rows.now x) }
{
    let Some(least) = set.least() else {
        return false;
    };
    let Some(last) = last(rows) else {
        return false;
    };
    if least <= last {
        return true;
    }
    false
}

// Writes the levels of the stop at which a walk in that direction begins over `out`: on from a start, or back from an
// end.
fn write_all(way: Way, allowed: &Spans, breaks: &Breaks, out: &mut Levels) -> Result<(), NoMemory>
    requires breaks { All IsBreak breaks.now }
    requires few { length breaks.now ≤ 8 }
    requires allowed { IsCumuls allowed.now }
    ensures exact { OnOk result (AreBegunBy way allowed.now breaks.now out.new) }
    ensures levels { OnOk result (AreLevels breaks.now out.new) }
{
    let rows = breaks.rows.as_slice();
    if out.fit(rows.len()).is_err() {
        return Err(NoMemory);
    }
    if write_level(way, allowed, rows, 0, &mut out.first).is_err() {
        return Err(NoMemory);
    }
    if write_further(way, allowed, rows, &mut out.more).is_err() {
        return Err(NoMemory);
    }
    Ok(())
}

// Writes the allowed cumuls over `set` at which such a walk may begin with `b` breaks taken there.
fn write_level(
    way: Way,
    allowed: &Spans,
    rows: &[BreakRow],
    b: usize,
    set: &mut Spans,
) -> Result<(), vr_spans::NoMemory>
    requires rows { All IsBreak rows.now }
    requires few { length rows.now ≤ 8 }
    requires allowed { IsCumuls allowed.now }
    requires taken { b ≤ length rows.now }
    ensures { OnOk result (IsBegunBy way allowed.now rows.now b set.new) }
{
    match way {
        Way::On => write_before(allowed, &rows[..b], set),
        Way::Back => write_after(allowed, &rows[b..], set),
    }
}

// Writes the sets of one break taken and more over `sets`.
fn write_further(
    way: Way,
    allowed: &Spans,
    rows: &[BreakRow],
    sets: &mut Vec<Spans>,
) -> Result<(), vr_spans::NoMemory>
    requires rows { All IsBreak rows.now }
    requires few { length rows.now ≤ 8 }
    requires allowed { IsCumuls allowed.now }
    requires long { length sets.old.items ≡ length rows.now }
    ensures each { OnOk result ((k : ℕ) → k < length rows.now →
        IsBegunBy way allowed.now rows.now (suc k) (level_at sets.new.items k)) }
    ensures long { OnOk result (length sets.new.items ≡ length rows.now) }
{
    let mut b = 0;
    'levels: while b < rows.len() {
        write_level(way, allowed, rows, b + 1, &mut sets[b])?;
        b += 1;
    }
    Ok(())
}

// Writes the allowed cumuls before which these breaks fit over `set`.
fn write_before(
    allowed: &Spans,
    rows: &[BreakRow],
    set: &mut Spans,
) -> Result<(), vr_spans::NoMemory>
    requires rows { All IsBreak rows.now }
    requires few { length rows.now ≤ 8 }
    requires allowed { IsCumuls allowed.now }
    ensures { OnOk result (FitsBefore allowed.now rows.now set.new) }
{
    let Some(first) = earliest(rows) else {
        set.clear();
        return Ok(());
    };
    allowed.clip_into(
        Run {
            lo: first,
            hi: HORIZON,
        },
        set,
    )
}

// Writes the allowed cumuls after which these breaks fit over `set`.
fn write_after(
    allowed: &Spans,
    rows: &[BreakRow],
    set: &mut Spans,
) -> Result<(), vr_spans::NoMemory>
    requires rows { All IsBreak rows.now }
    requires few { length rows.now ≤ 8 }
    requires allowed { IsCumuls allowed.now }
    ensures { OnOk result (FitsAfter allowed.now rows.now set.new) }
{
    let Some(last) = last(rows) else {
        set.clear();
        return Ok(());
    };
    allowed.clip_into(Run { lo: 0, hi: last }, set)
}
