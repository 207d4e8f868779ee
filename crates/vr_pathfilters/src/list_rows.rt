//! The rows of lists, as a filter of a dimension makes them. It makes those of all lists when it is opened, and those
//! of a change's lists when the change is made ready.
//!
//! Each list that is handed over for its rows is counted, an empty one too, though nobody reads the count. The question
//! about a change has no such counter, so it makes no rows.

ghost use Rattle.std.specs.Prelude.{◌≡◌, ◌+◌, ◌<◌, IfOk, OnOk, None};
ghost use Rattle.vr_routes.specs.Changes.{IsMadeOn};
ghost use Rattle.vr_reach.specs.KnownRows.{AreRowsIfUsed};
ghost use Rattle.vr_reach.specs.Lists.{IsTour};
ghost use Rattle.vr_reach.specs.VehicleStops.{AreStopsFor};
ghost use Rattle.vr_pathfilters.specs.Known.{AreRowsOfPart, KnowsRows};
ghost use Rattle.vr_pathfilters.specs.RoutesIn.{AreRoutesIn};

use std::alloc::Global;
use std::sync::ledger::{Blank, Ledger};
use vr_loads::Loads;
use vr_model::{Closed, Model, NoMemory, Steps};
use vr_reach::{Rows, Stops, StopsFor, Walk, write_rows};
use vr_routes::{Change, Routes, Row};

/// Routes, and the stops of one dimension of their model.
#[derive(Clone, Copy)]
pub(crate) struct RoutesIn<'m, 's, 'r> {
    pub(crate) closed: Closed<'m>,
    pub(crate) d: u32,
    pub(crate) stops: &'s Stops,
    pub(crate) routes: &'r Routes,
}

/// What is written over while changes are asked about, made ready and, of a load, committed. Nothing is said of it.
#[derive(Drop)]
pub(crate) struct Room {
    pub(crate) walk: Walk,
    pub(crate) list: Row,
}

// Writes the rows of a vehicle with a list over others, unless the list is empty. It counts the list, an empty one too.
// After `NoMemory` nothing is said of the rows.
fn write_list<L: Ledger>(
    alloc: Global,
    stops: &StopsFor,
    list: &[u32],
    rows: &mut Rows,
    lists: &mut Steps<L>,
) -> Result<(), NoMemory>
    requires stops { AreStopsFor stops.now }
    requires tour { IsTour stops.now.closed.model.now list.now }
    ensures rows { OnOk result
        (AreRowsIfUsed stops.now.closed.model.now stops.now.d stops.now.v list.now rows.new) }
    ensures count { lists.new ≡ lists.old + 1 }
{
    lists.tick();
    write_rows(alloc, stops, list, rows)
}

/// Writes the rows of the list of part `k` of a change over others, if there is that part. After `NoMemory` nothing is
/// said of them.
pub(crate) fn write_part<L: Ledger>(
    alloc: Global,
    at: &RoutesIn,
    change: &Change,
    k: usize,
    room: &mut Room,
    rows: &mut Rows,
    blank: Blank,
) -> Result<(), NoMemory>
    requires name { blank.name ≡ L.name }
    requires parts { blank.parts ≡ L.parts }
    requires some { 0 < blank.parts }
    requires at { AreRoutesIn at.now }
    requires made { IsMadeOn at.now.routes.now change.now }
    ensures { OnOk result (AreRowsOfPart at.now.closed.model.now at.now.d at.now.routes.now.lists
        change.now k rows.new) }
{
    if k >= change.parts() {
        return Ok(());
    }
    let mut lists = Steps::<L>::new(blank);
    at.routes.write_after(change, k, &mut room.list);
    let stops = StopsFor {
        closed: at.closed,
        d: at.d,
        v: change.vehicle(k),
        of_dimension: at.stops,
    };
    write_list(alloc, &stops, room.list.as_slice(), rows, &mut lists)?;
    Ok(())
}

/// The rows of each vehicle with its list, unless loads are kept.
pub(crate) fn rows_unless<L: Ledger>(
    loads: &Option<Loads>,
    alloc: Global,
    at: &RoutesIn,
    lists: &mut Steps<L>,
) -> Result<Vec<Rows>, NoMemory>
    requires at { AreRoutesIn at.now }
    ensures { IfOk result (λ known. loads.now ≡ None
        → KnowsRows at.now.closed.model.now at.now.d known.items at.now.routes.now.lists) }
{
    if loads.is_some() {
        return Ok(Vec::new(alloc));
    }
    know_all(alloc, at, lists)
}

/// More stops than the line of any list has: room for this many always suffices.
pub(crate) fn most_stops(model: &Model) -> usize {
    model.nodes as usize + 2
}

// The rows of each vehicle with its list, with room for those of each other list.
fn know_all<L: Ledger>(
    alloc: Global,
    at: &RoutesIn,
    lists: &mut Steps<L>,
) -> Result<Vec<Rows>, NoMemory>
    requires at { AreRoutesIn at.now }
    ensures { IfOk result
        (λ known. KnowsRows at.now.closed.model.now at.now.d known.items at.now.routes.now.lists) }
{
    let mut known = Vec::with_capacity(alloc, at.routes.vehicles() as usize)?;
    for v in 0..at.routes.vehicles() {
        let mut rows = Rows::with_room(alloc, most_stops(at.closed.model))?;
        let stops = StopsFor {
            closed: at.closed,
            d: at.d,
            v,
            of_dimension: at.stops,
        };
        write_list(alloc, &stops, at.routes.list(v), &mut rows, lists)?;
        known.push(rows)?;
    }
    Ok(known)
}
