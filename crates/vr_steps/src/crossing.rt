//! Crossing an arc, forwards and backwards.

ghost use Rattle.std.specs.Prelude.{◌≡◌, ◌+◌, ◌*◌, ◌<◌, ◌≤◌, ◌↔◌, ℕ, ℤ, suc, [], All, IsTrue, length, IfOk, OnOk};
ghost use Rattle.vr_spans.specs.Runs.{has, IsNormal};
ghost use Rattle.vr_steps.specs.Arcs.{IsSoundHop};
ghost use Rattle.vr_steps.specs.Levels.{IsCumuls};
ghost use Rattle.vr_steps.specs.Levels.{IsCrossing, AreLevels, AreCrossed, AreCrossedBack};
ghost use Rattle.vr_steps.specs.Levels.{forward_steps, backward_steps};
ghost use Rattle.vr_steps.specs.Levels.{level_at};
ghost use Rattle.vr_steps.specs.Passages.{AreArrivals, AreDepartures};
ghost use Rattle.vr_steps.specs.Ways.{AreCrossedBy, IsLedTo, IsLevelBy};

use crate::passages::{HopOver, Scratch};
use crate::ways::Way;
use crate::{Breaks, Hop, Levels};
use std::alloc::Global;
use std::sync::ledger::Ledger;
use vr_model::{BreakRow, NoMemory, Steps};
use vr_spans::Spans;

/// The levels after an arc, made of those before it. With `b` breaks taken, they have the cumuls in `next` to which the
/// arc leads from a cumul of some level `a <= b` of `from`. The breaks after the first `a` up to the `b`-th are inside
/// the arc.
///
/// A step is the image of one run under one number of further breaks; `steps` counts each, and after `NoMemory` at most
/// as many. The program writes over levels that it has, by `cross_into` and `cross_uncounted`; tests alone call this.
pub fn cross<L: Ledger>(
    alloc: Global,
    from: &Levels,
    hop: Hop,
    next: &Spans,
    breaks: &Breaks,
    steps: &mut Steps<L>,
) -> Result<Levels, NoMemory>
    requires { IsCrossing from.now hop next.now breaks.now }
    ensures exact { IfOk result (AreCrossed from.now hop next.now breaks.now) }
    ensures levels { IfOk result (AreLevels breaks.now) }
    ensures count { OnOk result (steps.new ≡ steps.old + forward_steps from.now) }
    ensures at_most { steps.new ≤ steps.old + forward_steps from.now }
    // so that the runs that are counted are those that the definitions of weight count
    ensures normal { All IsNormal from.now }
{
    let mut out = Levels::new(alloc);
    cross_into(from, hop, next, breaks, steps, &mut out)?;
    Ok(out)
}

/// Writes the levels after an arc over `out`, as `cross` answers them. After `NoMemory` nothing is said of `out`. Walks
/// whose steps are counted call it (`vr_reach::Walk`).
#[inline]
pub fn cross_into<L: Ledger>(
    from: &Levels,
    hop: Hop,
    next: &Spans,
    breaks: &Breaks,
    steps: &mut Steps<L>,
    out: &mut Levels,
) -> Result<(), NoMemory>
    requires { IsCrossing from.now hop next.now breaks.now }
    ensures exact { OnOk result (AreCrossed from.now hop next.now breaks.now out.new) }
    ensures levels { OnOk result (AreLevels breaks.now out.new) }
    ensures count { OnOk result (steps.new ≡ steps.old + forward_steps from.now) }
    ensures at_most { steps.new ≤ steps.old + forward_steps from.now }
    // so that the runs that are counted are those that the definitions of weight count
    ensures normal { All IsNormal from.now }
{
    count_forward(from, steps);
    cross_uncounted(Way::On, from, hop, next, breaks, out)
}

/// The levels before an arc, made of those after it. With `a` breaks taken, they have the cumuls in `here` from which
/// the arc leads to a cumul of some level `b >= a` of `to`. The breaks after the first `a` up to the `b`-th are inside
/// the arc.
///
/// A step is the preimage of one run under one number of further breaks; `steps` counts each, and after `NoMemory` at
/// most as many. Tests alone call this; the program crosses backwards by `cross_uncounted`.
pub fn cross_back<L: Ledger>(
    alloc: Global,
    to: &Levels,
    hop: Hop,
    here: &Spans,
    breaks: &Breaks,
    steps: &mut Steps<L>,
) -> Result<Levels, NoMemory>
    requires { IsCrossing to.now hop here.now breaks.now }
    ensures exact { IfOk result (AreCrossedBack to.now hop here.now breaks.now) }
    ensures levels { IfOk result (AreLevels breaks.now) }
    ensures count { OnOk result (steps.new ≡ steps.old + backward_steps to.now) }
    ensures at_most { steps.new ≤ steps.old + backward_steps to.now }
    // so that the runs that are counted are those that the definitions of weight count
    ensures normal { All IsNormal to.now }
{
    let mut out = Levels::new(alloc);
    cross_back_into(to, hop, here, breaks, steps, &mut out)?;
    Ok(out)
}

/// Writes the levels before an arc over `out`, as `cross_back` answers them, which alone calls it. After `NoMemory`
/// nothing is said of `out`.
#[inline]
pub fn cross_back_into<L: Ledger>(
    to: &Levels,
    hop: Hop,
    here: &Spans,
    breaks: &Breaks,
    steps: &mut Steps<L>,
    out: &mut Levels,
) -> Result<(), NoMemory>
    requires { IsCrossing to.now hop here.now breaks.now }
    ensures exact { OnOk result (AreCrossedBack to.now hop here.now breaks.now out.new) }
    ensures levels { OnOk result (AreLevels breaks.now out.new) }
    ensures count { OnOk result (steps.new ≡ steps.old + backward_steps to.now) }
    ensures at_most { steps.new ≤ steps.old + backward_steps to.now }
    // so that the runs that are counted are those that the definitions of weight count
    ensures normal { All IsNormal to.now }
{
    count_backward(to, steps);
    cross_uncounted(Way::Back, to, hop, here, breaks, out)
}

/// Writes the levels to which an arc leads in one direction over `out`, as `cross_into` and `cross_back_into` do, but
/// counts no steps. Those count first, and then call it. After `NoMemory` nothing is said of `out`.
#[inline]
pub fn cross_uncounted(
    way: Way,
    from: &Levels,
    hop: Hop,
    within: &Spans,
    breaks: &Breaks,
    out: &mut Levels,
) -> Result<(), NoMemory>
    requires { IsCrossing from.now hop within.now breaks.now }
    ensures exact { OnOk result (AreCrossedBy way from.now hop within.now breaks.now out.new) }
    ensures levels { OnOk result (AreLevels breaks.now out.new) }
{
    if !breaks.rows.is_empty() {
        return write_all(way, from, hop, within, breaks, out);
    }
    empty(&mut out.more);
    if write_plain(way, &from.first, hop, within, &mut out.first).is_err() {
        return Err(NoMemory);
    }
    Ok(())
}

// Writes the cumuls of `within` over `set` to which an arc without breaks inside leads from those of `from`.
#[inline(always)]
fn write_plain(
    way: Way,
    from: &Spans,
    hop: Hop,
    within: &Spans,
    set: &mut Spans,
) -> Result<(), vr_spans::NoMemory>
    requires hop { IsSoundHop hop }
    requires from { IsCumuls from.now }
    requires within { IsCumuls within.now }
    ensures { OnOk result ((y : ℤ) → IsTrue (has set.new y) ↔ IsLedTo way from.now hop [] within.now y) }
{
    match way {
        Way::On => from.reach_into(hop.transit, hop.transit + hop.slack, within, set),
        Way::Back => from.reach_into(-hop.transit - hop.slack, -hop.transit, within, set),
    }
}

// An arc, and all breaks of the vehicle. Any that follow one another may be taken inside it; `HopOver` has an arc with
// those that are.
#[derive(Clone, Copy)]
struct ArcBreaks<'r> {
    hop: Hop,
    rows: &'r [BreakRow],
}

// Writes over `out` the levels to which an arc leads, of a vehicle with breaks: each with the breaks taken on the way.
#[cold]
#[inline(never)]
fn write_all(
    way: Way,
    from: &Levels,
    hop: Hop,
    within: &Spans,
    breaks: &Breaks,
    out: &mut Levels,
) -> Result<(), NoMemory>
    requires { IsCrossing from.now hop within.now breaks.now }
    ensures exact { OnOk result (AreCrossedBy way from.now hop within.now breaks.now out.new) }
    ensures levels { OnOk result (AreLevels breaks.now out.new) }
{
    let rows = breaks.rows.as_slice();
    if out.fit(rows.len()).is_err() {
        return Err(NoMemory);
    }
    let arc = ArcBreaks { hop, rows };
    let mut scratch = Scratch::beside(within);
    if write_level(way, from, &arc, within, 0, &mut out.first, &mut scratch).is_err() {
        return Err(NoMemory);
    }
    if write_further(way, from, &arc, within, &mut out.more, &mut scratch).is_err() {
        return Err(NoMemory);
    }
    Ok(())
}

// Writes the cumuls of `within` over `set` to which the arc leads, with `k` breaks taken there.
fn write_level(
    way: Way,
    from: &Levels,
    arc: &ArcBreaks,
    within: &Spans,
    k: usize,
    set: &mut Spans,
    scratch: &mut Scratch,
) -> Result<(), vr_spans::NoMemory>
    requires taken { k ≤ length arc.now.rows.now }
    requires crossing { IsCrossing from.now arc.now.hop within.now arc.now.rows.now }
    ensures { OnOk result (IsLevelBy way from.now arc.now.hop within.now arc.now.rows.now k set.new) }
{
    match way {
        Way::On => write_arrivals(from, arc, within, k, set, scratch),
        Way::Back => write_departures(from, arc, within, k, set, scratch),
    }
}

// Writes the cumuls of `next` over `set` to which the arc leads with `b` breaks taken by its end.
fn write_arrivals(
    from: &Levels,
    arc: &ArcBreaks,
    next: &Spans,
    b: usize,
    set: &mut Spans,
    scratch: &mut Scratch,
) -> Result<(), vr_spans::NoMemory>
    requires taken { b ≤ length arc.now.rows.now }
    requires crossing { IsCrossing from.now arc.now.hop next.now arc.now.rows.now }
    ensures { OnOk result (AreArrivals from.now arc.now.hop next.now arc.now.rows.now 0 b set.new) }
{
    let (hop, rows) = (arc.hop, arc.rows);
    write_plain(Way::On, from.level(b), hop, next, set)?;
    let mut a = b;
    'fewer: while a > 0 {
        a -= 1;
        let over = HopOver {
            hop,
            rows: &rows[a..b],
        };
        scratch.add(Way::On, from.level(a), &over, next, set)?;
    }
    Ok(())
}

// Writes the cumuls of `here` over `set` from which the arc leads with `a` breaks taken before it.
fn write_departures(
    to: &Levels,
    arc: &ArcBreaks,
    here: &Spans,
    a: usize,
    set: &mut Spans,
    scratch: &mut Scratch,
) -> Result<(), vr_spans::NoMemory>
    requires taken { a ≤ length arc.now.rows.now }
    requires crossing { IsCrossing to.now arc.now.hop here.now arc.now.rows.now }
    ensures { OnOk result
        (AreDepartures to.now arc.now.hop here.now arc.now.rows.now a (length arc.now.rows.now) set.new) }
{
    let (hop, rows) = (arc.hop, arc.rows);
    write_plain(Way::Back, to.level(a), hop, here, set)?;
    let mut b = a;
    'further: while b < rows.len() {
        b += 1;
        let over = HopOver {
            hop,
            rows: &rows[a..b],
        };
        scratch.add(Way::Back, to.level(b), &over, here, set)?;
    }
    Ok(())
}

// Writes the sets of one break taken and more over `sets`.
fn write_further(
    way: Way,
    from: &Levels,
    arc: &ArcBreaks,
    within: &Spans,
    sets: &mut Vec<Spans>,
    scratch: &mut Scratch,
) -> Result<(), vr_spans::NoMemory>
    requires crossing { IsCrossing from.now arc.now.hop within.now arc.now.rows.now }
    requires long { length sets.old.items ≡ length arc.now.rows.now }
    ensures each { OnOk result ((k : ℕ) → k < length arc.now.rows.now →
        IsLevelBy way from.now arc.now.hop within.now arc.now.rows.now (suc k) (level_at sets.new.items k)) }
    ensures long { OnOk result (length sets.new.items ≡ length arc.now.rows.now) }
{
    let mut k = 0;
    'levels: while k < arc.rows.len() {
        write_level(way, from, arc, within, k + 1, &mut sets[k], scratch)?;
        k += 1;
    }
    Ok(())
}

// Takes the sets out of a list, which mostly has none.
#[inline]
fn empty(sets: &mut Vec<Spans>)
    ensures { sets.new.items ≡ [] }
{
    if !sets.is_empty() {
        drop_all(sets);
    }
}

// Takes the sets out of a list that has some.
#[cold]
#[inline(never)]
fn drop_all(sets: &mut Vec<Spans>)
    ensures { sets.new.items ≡ [] }
{
    sets.clear();
}

// Counts the steps of crossing from levels. Each run counts one for each number of breaks that may be taken by the end
// of the arc: that of its level, or more.
#[inline]
fn count_forward<L: Ledger>(from: &Levels, steps: &mut Steps<L>)
    ensures count { steps.new ≡ steps.old + forward_steps from.now }
    ensures normal { All IsNormal from.now }
{
    let further = from.more.as_slice();
    count_times(&from.first, further.len() + 1, steps);
    'levels: for k in 0..further.len() {
        count_times(&further[k], further.len() - k, steps);
    }
}

// Counts the steps of crossing back from levels. Each run counts one for each number of breaks that may be taken before
// the arc: that of its level, or fewer.
#[inline]
fn count_backward<L: Ledger>(to: &Levels, steps: &mut Steps<L>)
    ensures count { steps.new ≡ steps.old + backward_steps to.now }
    ensures normal { All IsNormal to.now }
{
    let further = to.more.as_slice();
    count_times(&to.first, 1, steps);
    'levels: for k in 0..further.len() {
        count_times(&further[k], k + 2, steps);
    }
}

// Counts `times` steps for each run of a set.
#[inline]
fn count_times<L: Ledger>(set: &Spans, times: usize, steps: &mut Steps<L>)
    ensures count { steps.new ≡ steps.old + length set.now * times }
    ensures normal { IsNormal set.now }
{
    'runs: for _ in 0..set.len() {
        'steps: for _ in 0..times {
            steps.tick();
        }
    }
}
