//! Levels along a list, straight from what its stops ask. Those of some stops may be known already.

ghost use Rattle.std.specs.Prelude.{◌≡◌, ◌+◌, ◌<◌, ◌≤◌, suc, OnOk, length, take, drop};
ghost use Rattle.vr_reach.specs.DrivenRows.{AreFirstOn, AreLastOn, AreReachedOn, AreReachingOn};
ghost use Rattle.vr_reach.specs.DrivenRows.{IsReachedOn, IsReachingOn};

use crate::stops::{ListStops, hop_from, set_at};
use vr_model::NoMemory;
use vr_steps::{Levels, Way, cross_uncounted, end_levels_into, start_levels_into};

// Writes what a list reaches at its first stop. It is found anew, in place: a copy of `Ends::start_levels` would take
// memory each time if there are breaks.
fn write_start(stops: &ListStops, row: &mut Levels) -> Result<(), NoMemory>
    ensures { OnOk result (IsReachedOn stops.now.of 0 row.new) }
{
    let ends = stops.ends;
    start_levels_into(&ends.start_set, &ends.breaks, row)?;
    Ok(())
}

// Writes what the end is reached from at the last stop of a list.
fn write_end(stops: &ListStops, row: &mut Levels) -> Result<(), NoMemory>
    ensures { OnOk result (IsReachingOn stops.now.of (suc (length stops.now.of.list.now)) row.new) }
{
    let ends = stops.ends;
    end_levels_into(&ends.end_set, &ends.breaks, row)?;
    Ok(())
}

/// Writes what a list reaches at each stop over the rows. The first `known` of these are those of the list already.
pub(crate) fn write_ahead(
    stops: &ListStops,
    known: usize,
    rows: &mut [Levels],
) -> Result<(), NoMemory>
    requires known { AreFirstOn stops.now.of known rows.old }
    requires long { length rows.old ≡ suc (suc (length stops.now.of.list.now)) }
    ensures { OnOk result (AreReachedOn stops.now.of rows.new) }
{
    if known > 0 {
        return reach_on(stops, known, rows);
    }
    write_start(stops, &mut rows[0])?;
    reach_on(stops, 1, rows)
}

// The same, with at least one known.
fn reach_on(stops: &ListStops, known: usize, rows: &mut [Levels]) -> Result<(), NoMemory>
    requires begun { 0 < known }
    requires known { AreFirstOn stops.now.of known rows.old }
    requires long { length rows.old ≡ suc (suc (length stops.now.of.list.now)) }
    ensures { OnOk result (AreReachedOn stops.now.of rows.new) }
{
    let n = stops.of.list.len();
    for k in known - 1..n + 1 {
        let (done, left) = rows.split_at_mut(k + 1);
        let hop = hop_from(&stops.of, k);
        let next = set_at(stops, k + 1);
        cross_uncounted(
            Way::On,
            &done[k],
            hop,
            next,
            &stops.ends.breaks,
            &mut left[0],
        )?;
    }
    Ok(())
}

// Writes what the end is reached from at each stop of a list over the rows. The last `known` of these are those of the
// list already.
fn write_back(stops: &ListStops, known: usize, rows: &mut [Levels]) -> Result<(), NoMemory>
    requires known { AreLastOn stops.now.of known rows.old }
    requires long { length rows.old ≡ suc (suc (length stops.now.of.list.now)) }
    ensures { OnOk result (AreReachingOn stops.now.of rows.new) }
{
    if known > 0 {
        return reach_back(stops, known, rows);
    }
    let n = stops.of.list.len();
    write_end(stops, &mut rows[n + 1])?;
    reach_back(stops, 1, rows)
}

// The same, with at least one known.
fn reach_back(stops: &ListStops, known: usize, rows: &mut [Levels]) -> Result<(), NoMemory>
    requires begun { 0 < known }
    requires known { AreLastOn stops.now.of known rows.old }
    requires long { length rows.old ≡ suc (suc (length stops.now.of.list.now)) }
    ensures { OnOk result (AreReachingOn stops.now.of rows.new) }
{
    let mut k = stops.of.list.len() + 2 - known;
    'stops: while k > 0 {
        k -= 1;
        let (left, done) = rows.split_at_mut(k + 1);
        let hop = hop_from(&stops.of, k);
        let here = set_at(stops, k);
        cross_uncounted(
            Way::Back,
            &done[0],
            hop,
            here,
            &stops.ends.breaks,
            &mut left[k],
        )?;
    }
    Ok(())
}

/// Writes what the end is reached from at each stop of a list over the levels from place `first` on. The last `known`
/// of these are those of the list already.
pub(crate) fn write_behind(
    stops: &ListStops,
    known: usize,
    first: usize,
    kept: &mut [Levels],
) -> Result<(), NoMemory>
    requires there { first + suc (suc (length stops.now.of.list.now)) ≤ length kept.old }
    requires known { AreLastOn stops.now.of known
        (take (suc (suc (length stops.now.of.list.now))) (drop first kept.old)) }
    ensures rows { OnOk result (AreReachingOn stops.now.of
        (take (suc (suc (length stops.now.of.list.now))) (drop first kept.new))) }
{
    let n = stops.of.list.len();
    let (_, behind) = kept.split_at_mut(first);
    let (rows, _) = behind.split_at_mut(n + 2);
    write_back(stops, known, rows)
}
