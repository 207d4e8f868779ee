//! The rows of lists, written over those of other lists.

ghost use Rattle.std.specs.Prelude.{◌≡◌, ◌+◌, ◌<◌, ◌≤◌, OnOk, [], length};
ghost use Rattle.vr_reach.specs.KnownRows.{AreRowsIfUsed};
ghost use Rattle.vr_reach.specs.Lists.{IsTour};
ghost use Rattle.vr_reach.specs.VehicleStops.{AreStopsFor};

use crate::level_rows::Rows;
use crate::spliced::Spliced;
use crate::stops::StopsFor;
use crate::stops_of_list::asked_of;
use crate::stretches::Stretch;
use std::alloc::Global;
use vr_model::NoMemory;

/// Writes the rows of a vehicle with a list in a dimension over others, if the list is not empty. Of an empty one they
/// stay as they are, and nothing is said of them. After `NoMemory` nothing is said of the rows.
///
/// It takes memory only if a list has more stops than any before, a vehicle has breaks, or a set more than four runs.
pub fn write_rows(
    alloc: Global,
    stops: &StopsFor,
    list: &[u32],
    rows: &mut Rows,
) -> Result<(), NoMemory>
    requires stops { AreStopsFor stops.now }
    requires tour { IsTour stops.now.closed.model.now list.now }
    ensures { OnOk result
        (AreRowsIfUsed stops.now.closed.model.now stops.now.d stops.now.v list.now rows.new) }
{
    rewrite_rows(alloc, stops, &[], list, rows)
}

/// Writes the rows of a list over those of another, as `write_rows` does. What both lists reach at stops that they
/// share at the front stays. So does what their end is reached from at stops that they share at the back, unless the
/// list is longer than all before. Then that is written anew at all stops. `vr_first_insert` alone calls it with a list
/// before.
pub fn rewrite_rows(
    alloc: Global,
    stops: &StopsFor,
    old: &[u32],
    list: &[u32],
    rows: &mut Rows,
) -> Result<(), NoMemory>
    requires stops { AreStopsFor stops.now }
    requires rows { AreRowsIfUsed stops.now.closed.model.now stops.now.d stops.now.v old.now rows.old }
    requires tour { IsTour stops.now.closed.model.now list.now }
    ensures { OnOk result
        (AreRowsIfUsed stops.now.closed.model.now stops.now.d stops.now.v list.now rows.new) }
{
    if list.is_empty() {
        return Ok(());
    }
    let whole = Spliced::whole(list);
    let asked = asked_of(stops, &whole);
    let stretch = Stretch::of(old, &whole, Stretch { front: 0, back: 0 });
    let ahead = known_with(old, stretch.front);
    let behind = known_with(old, stretch.back);
    rows.rewrite(alloc, &asked, ahead, behind)
}

// How many rows of the list before stay if this many nodes at one end of it do. It is one more, that of the start or of
// the end. Of an empty list it is none, since of its rows nothing is said.
fn known_with(list: &[u32], nodes: usize) -> usize
    requires { nodes ≤ length list.now }
    ensures empty { list.now ≡ [] → result ≡ 0 }
    ensures some { 0 < length list.now → result ≡ nodes + 1 }
{
    if list.is_empty() { 0 } else { nodes + 1 }
}
