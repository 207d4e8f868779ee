//! The break starts of the chosen schedule, break by break.

ghost use Rattle.std.specs.Prelude.{◌≡◌, ◌<◌, ◌^◌, ◌↔◌, ◌+◌, suc, pos, false, [], ◌+ℤ◌, ◌≤ℤ◌, All, IsTrue, IfOk};
ghost use Rattle.std.specs.Prelude.{IfSome, IsNone, OnOk, length, slice_index_or, int_le, ◌&&◌, ◌-ℤ◌};
ghost use Rattle.vr_model.specs.tables.Numbers.{horizon};
ghost use Rattle.vr_model.specs.tables.WellFormed.{IsIn};
ghost use Rattle.vr_steps.specs.Arcs.{IsSoundHop};
ghost use Rattle.vr_model.specs.schedules.Lines.{Line as Defined};
ghost use Rattle.vr_model.specs.schedules.Schedules.{IsFeasible, no_break};
ghost use Rattle.vr_steps.specs.Lines.{IsLineOf, IsSoundLine};
ghost use Rattle.vr_plan.specs.Narrow.{row_pinned, place_begin, may_stand, is_earlier, IsTried, IsLeastOf};
ghost use Rattle.vr_plan.specs.Narrow.{IsLeastStart, IsStartOf, with_start};
ghost use Rattle.vr_plan.specs.Starts.{HaveCumuls, HaveStarts, HaveChosenStarts};
ghost use Rattle.vr_plan.specs.Settled.{Goes, HaveChosenCumuls, IsUnfeasible};

use crate::narrow::{put_row, row_at, with_cumuls};
use crate::sound::SoundLine;
use std::alloc::Global;
use vr_model::{BreakRow, NoMemory, Seq};
use vr_reach::{Walk, lesser};
use vr_steps::{Hop, Line};

// Whether the line has a schedule whose break `i` starts at `first`, which is in its range. The line is changed for the
// question and set back after it.
fn can_start(line: &mut Line, walk: &mut Walk, i: usize, first: i64) -> Result<bool, NoMemory>
    requires sound { IsSoundLine line.old }
    requires place { i < length line.old.breaks }
    requires from { (slice_index_or line.old.breaks i no_break).from ≤ℤ first }
    requires to { first ≤ℤ (slice_index_or line.old.breaks i no_break).to }
    ensures exact { IfOk result (λ can. (defined : Defined) → IsLineOf defined line.old → IsTrue can ↔
        IsFeasible (row_pinned defined i first)) }
    ensures same { OnOk result (line.new ≡ line.old) }
{
    let row = row_at(&line.breaks, i);
    put_row(
        &mut line.breaks,
        i,
        BreakRow {
            from: first,
            to: first,
            duration: row.duration,
        },
    );
    let can = walk.goes_along(line)?;
    put_row(&mut line.breaks, i, row);
    Ok(can)
}

// The start that is tried, if it is not above `to` and the line has a schedule whose break `i` starts there.
fn try_start(
    line: &mut Line,
    walk: &mut Walk,
    i: usize,
    to: i64,
    first: i64,
) -> Result<Option<i64>, NoMemory>
    requires sound { IsSoundLine line.old }
    requires place { i < length line.old.breaks }
    requires from { (slice_index_or line.old.breaks i no_break).from ≤ℤ first }
    requires to { to ≡ (slice_index_or line.old.breaks i no_break).to }
    ensures exact { IfOk result (λ found. (defined : Defined) → IsLineOf defined line.old →
        IsTried defined i to first found) }
    ensures range { IfOk result (λ found. IfSome found (IsStartOf (slice_index_or line.old.breaks i no_break))) }
    ensures same { OnOk result (line.new ≡ line.old) }
{
    if first > to {
        // the line is as it was
        let _ = &line.breaks;
        return Ok(None);
    }
    if !can_start(line, walk, i, first)? {
        return Ok(None);
    }
    Ok(Some(first))
}

// When a place of a break begins. Place 0 is before the first stop, place `k + 1` inside arc `k`, and the last one
// after the last stop.
fn place_begin(hops: &[Hop], cumuls: &[i64], place: usize) -> i64
    requires stops { length cumuls.now ≡ suc (length hops.now) }
    requires range { All (IsIn (pos 0) horizon) cumuls.now }
    requires hops { All IsSoundHop hops.now }
    ensures value { result ≡ place_begin hops.now cumuls.now place }
    ensures range { IsIn (pos 0) (pos (2 ^ 40)) result }
{
    let Some(k) = place.checked_sub(1) else {
        return 0;
    };
    if k < hops.len() {
        return cumuls[k] + hops[k].visit;
    }
    cumuls[hops.len()]
}

// Whether a break of length `long` that starts at `first` may be in a place. Before the first stop it may if it ends by
// then. Inside arc `k` it may if it ends by the end of the arc, whose slack is enough for it. After the last stop it
// may in any case.
fn may_stand(hops: &[Hop], cumuls: &[i64], long: i64, first: i64, place: usize) -> bool
    requires stops { length cumuls.now ≡ suc (length hops.now) }
    requires range { All (IsIn (pos 0) horizon) cumuls.now }
    requires hops { All IsSoundHop hops.now }
    requires long { IsIn (pos 0) (pos (2 ^ 40)) long }
    requires first { IsIn (pos 0) (pos (2 ^ 40)) first }
    ensures { result ≡ may_stand hops.now cumuls.now long first place }
{
    let Some(k) = place.checked_sub(1) else {
        return first + long <= cumuls[0];
    };
    if k < hops.len() {
        return fits_arc(hops[k], cumuls[k], cumuls[k + 1], long, first);
    }
    true
}

// Whether a break of length `long` that starts at `first` fits an arc between two cumuls. It ends by the end of the
// arc, and the slack of the arc is enough for it.
fn fits_arc(hop: Hop, from: i64, to: i64, long: i64, first: i64) -> bool
    requires hop { IsSoundHop hop }
    requires from { IsIn (pos 0) horizon from }
    requires to { IsIn (pos 0) horizon to }
    requires long { IsIn (pos 0) (pos (2 ^ 40)) long }
    requires first { IsIn (pos 0) (pos (2 ^ 40)) first }
    ensures { result ≡ (int_le (first +ℤ long) to && int_le (from +ℤ hop.transit) (to -ℤ long)) }
{
    first + long <= to && from + hop.transit <= to - long
}

// Whether a start is earlier than the best so far, or the first.
fn is_earlier(first: i64, best: Option<i64>) -> bool
    ensures { result ≡ is_earlier first best }
{
    match best {
        Some(best) => first < best,
        None => true,
    }
}

// The lesser of the best start so far and the first one in a place. A walk along the line is asked only if that is
// earlier, and the break may be there.
fn best_with(
    line: &mut Line,
    walk: &mut Walk,
    cumuls: &[i64],
    i: usize,
    ready: i64,
    place: usize,
    best: Option<i64>,
) -> Result<Option<i64>, NoMemory>
    requires sound { IsSoundLine line.old }
    requires stops { length cumuls.now ≡ suc (length line.old.hops) }
    requires range { All (IsIn (pos 0) horizon) cumuls.now }
    requires place { i < length line.old.breaks }
    requires ready { IsIn (pos 0) (pos (2 ^ 40)) ready }
    requires best { IfSome best (IsStartOf (slice_index_or line.old.breaks i no_break)) }
    ensures exact { IfOk result (λ found. IsLeastOf line.old cumuls.now i ready place best →
        IsLeastOf line.old cumuls.now i ready (place + 1) found) }
    ensures range { IfOk result (λ best. IfSome best (IsStartOf (slice_index_or line.old.breaks i no_break))) }
    ensures same { OnOk result (line.new ≡ line.old) }
{
    let row = row_at(&line.breaks, i);
    let hops = line.hops.as_slice();
    let begin = place_begin(hops, cumuls, place);
    let first = row.from.max(ready).max(begin);
    if !is_earlier(first, best) {
        return Ok(best);
    }
    if !may_stand(hops, cumuls, row.duration, first, place) {
        return Ok(best);
    }
    Ok(lesser(best, try_start(line, walk, i, row.to, first)?))
}

// The least start that schedules of the line have for break `i`, `None` if there is no schedule. It may not start
// before `ready`, when the break before it is over. The cumuls are settled, so in each place the first moment alone is
// tried: what starts later there could start then.
fn least_start(
    line: &mut Line,
    walk: &mut Walk,
    cumuls: &[i64],
    i: usize,
    ready: i64,
) -> Result<Option<i64>, NoMemory>
    requires sound { IsSoundLine line.old }
    requires stops { length cumuls.now ≡ suc (length line.old.hops) }
    requires range { All (IsIn (pos 0) horizon) cumuls.now }
    requires place { i < length line.old.breaks }
    requires ready { IsIn (pos 0) (pos (2 ^ 40)) ready }
    ensures exact { IfOk result (IsLeastStart line.old cumuls.now i ready) }
    ensures range { IfOk result (λ best. IfSome best (IsStartOf (slice_index_or line.old.breaks i no_break))) }
    ensures same { OnOk result (line.new ≡ line.old) }
{
    let mut best = None;
    for place in 0..cumuls.len() + 1 {
        best = best_with(line, walk, cumuls, i, ready, place, best)?;
    }
    Ok(best)
}

// Lets break `i` start at `first` alone; answers when it is over.
fn fix_start(line: &mut Line, i: usize, first: i64) -> i64
    requires sound { IsSoundLine line.old }
    requires place { i < length line.old.breaks }
    requires start { IsStartOf (slice_index_or line.old.breaks i no_break) first }
    ensures line { line.new ≡ with_start line.old i first }
    ensures over { result ≡ first +ℤ (slice_index_or line.old.breaks i no_break).duration }
{
    let row = row_at(&line.breaks, i);
    put_row(
        &mut line.breaks,
        i,
        BreakRow {
            from: first,
            to: first,
            duration: row.duration,
        },
    );
    first + row.duration
}

// Settles the start of each break of a line whose schedules have these cumuls, one after another. Each is the least
// that schedules with the starts before have there. Answers whether there is a schedule.
fn settle_starts(
    line: &mut Line,
    walk: &mut Walk,
    cumuls: &[i64],
    starts: &mut Seq<i64>,
) -> Result<bool, NoMemory>
    requires sound { IsSoundLine line.old }
    requires stops { length cumuls.now ≡ suc (length line.old.hops) }
    requires range { All (IsIn (pos 0) horizon) cumuls.now }
    requires settled { HaveCumuls line.old cumuls.now }
    requires none { starts.old ≡ [] }
    ensures settled { IfOk result (Goes (HaveStarts line.old starts.new)) }
    ensures stops { IfOk result (λ goes. goes ≡ false → IsUnfeasible line.old) }
{
    let mut ready = 0;
    for i in 0..line.breaks.rows.len() {
        let Some(first) = least_start(line, walk, cumuls, i, ready)? else {
            return Ok(false);
        };
        ready = fix_start(line, i, first);
        starts.push(first)?;
    }
    Ok(true)
}

// The break starts of the chosen schedule of a line, which has these cumuls; `None` only if the line has no schedule.
// That does not come, since the cumuls are those of a schedule.
pub(crate) fn chosen_starts(
    alloc: Global,
    sound: SoundLine<'_>,
    cumuls: &[i64],
) -> Result<Option<Seq<i64>>, NoMemory>
    requires cumuls { HaveChosenCumuls sound.line.now cumuls.now }
    ensures some { IfOk result (λ found. IfSome found (HaveChosenStarts sound.entry.line.now)) }
    ensures none { IfOk result (λ found. IsNone found → IsUnfeasible sound.entry.line.now) }
{
    let line = sound.line;
    if line.breaks.rows.is_empty() {
        return Ok(Some(Seq::new(alloc)));
    }
    let mut narrow = with_cumuls(alloc, sound, cumuls)?;
    starts_of(alloc, &mut narrow, cumuls)
}

// The break starts of the chosen schedule of a line whose schedules have these cumuls; `None` only if it has none.
fn starts_of(alloc: Global, line: &mut Line, cumuls: &[i64]) -> Result<Option<Seq<i64>>, NoMemory>
    requires sound { IsSoundLine line.old }
    requires stops { length cumuls.now ≡ suc (length line.old.hops) }
    requires range { All (IsIn (pos 0) horizon) cumuls.now }
    requires settled { HaveCumuls line.old cumuls.now }
    ensures some { IfOk result (λ found. IfSome found (HaveStarts line.old)) }
    ensures none { IfOk result (λ found. IsNone found → IsUnfeasible line.old) }
{
    let mut walk = Walk::new(alloc);
    let mut starts = Seq::new(alloc);
    let goes = settle_starts(line, &mut walk, cumuls, &mut starts)?;
    Ok(goes.then_some(starts))
}
