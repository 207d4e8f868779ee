//! The rows of lists in each dimension: what each list reaches at its stops, and what its end can be reached from.

ghost use Rattle.std.specs.Prelude.{◌≡◌, ◌<◌, length, IfOk, OnOk};
ghost use Rattle.vr_model.specs.moves.Moves.{with_route};
ghost use Rattle.vr_rules.specs.RoutesOpen.{is_feasible_in_each};
ghost use Rattle.vr_first_insert.specs.KeptRows.{list_model, AreKeptRows, AreAllTours, AreKeptRowsIn, MayGoBetween};

use crate::place::write_list;
use crate::vehicle_list::LookedUpList;
use std::alloc::Global;
use vr_model::{NoMemory, Seq};
use vr_plan::Lookups;
use vr_reach::{KnownList, Rows, StopsFor, Stretch, Walk, goes_between, rewrite_rows, write_rows};

/// The rows of the list of each vehicle in one dimension.
#[derive(Drop)]
pub(crate) struct ListRows {
    pub(crate) rows: Vec<Rows>,
}

impl ListRows {
    // The rows of lists in dimension `d`. The keeper begins with empty lists, which have none.
    fn build(
        alloc: Global,
        lookups: &Lookups<'_>,
        d: u32,
        lists: &[Seq<u32>],
    ) -> Result<ListRows, NoMemory>
        requires dimension { d < length lookups.now.closed.model.now.dimensions }
        requires vehicles { length lists.now ≡ length lookups.now.closed.model.now.vehicles }
        requires tours { AreAllTours lookups.now.closed.model.now lists.now }
        ensures { IfOk result (AreKeptRowsIn lookups.now.closed.model.now d lists.now) }
    {
        let table = lookups.table(d);
        let mut known = Vec::with_capacity(alloc, lists.len())?;
        for v in 0..lists.len() {
            let mut rows = Rows::new(alloc);
            let list = lists[v].as_slice();
            let stops = StopsFor {
                closed: lookups.closed,
                d,
                v: v as u32,
                of_dimension: &table.stops,
            };
            write_rows(alloc, &stops, list, &mut rows)?;
            known.push(rows)?;
        }
        Ok(ListRows { rows: known })
    }

    // Writes the rows of a new list of a vehicle over those of its list before, in one dimension.
    fn rewrite(
        &mut self,
        alloc: Global,
        d: u32,
        lists: &[Seq<u32>],
        new: &LookedUpList<'_, '_, '_>,
    ) -> Result<(), NoMemory>
        requires dimension { d < length (list_model new.now).dimensions }
        requires there { new.now.vehicle < length lists.now }
        requires kept { AreKeptRowsIn (list_model new.now) d lists.now self.old }
        ensures { OnOk result (AreKeptRowsIn (list_model new.now) d
            (with_route lists.now new.now.vehicle new.now.nodes.now) self.new) }
    {
        let v = new.vehicle;
        let table = new.lookups.table(d);
        let old = lists[v as usize].as_slice();
        let stops = StopsFor {
            closed: new.lookups.closed,
            d,
            v,
            of_dimension: &table.stops,
        };
        rewrite_rows(alloc, &stops, old, new.nodes, &mut self.rows[v as usize])?;
        Ok(())
    }
}

/// What is kept of lists in each dimension. The only refusal is want of memory.
pub(crate) fn keep_each(
    alloc: Global,
    lookups: &Lookups<'_>,
    lists: &[Seq<u32>],
) -> Result<Vec<ListRows>, NoMemory>
    requires vehicles { length lists.now ≡ length lookups.now.closed.model.now.vehicles }
    requires tours { AreAllTours lookups.now.closed.model.now lists.now }
    ensures { IfOk result (λ list_rows. AreKeptRows lookups.now.closed.model.now lists.now list_rows.items) }
{
    let model = lookups.closed.model;
    let mut list_rows = Vec::with_capacity(alloc, model.dimensions.len())?;
    for d in 0..model.dimensions.len() {
        list_rows.push(ListRows::build(alloc, lookups, d as u32, lists)?)?;
    }
    Ok(list_rows)
}

/// Writes the rows of a list over those of the list that its vehicle had before, in each dimension.
///
/// It takes memory only if the list is longer than each earlier one of its vehicle, or a set has more than four runs.
/// After `NoMemory` nothing is said of what is kept.
pub(crate) fn rewrite(
    alloc: Global,
    list_rows: &mut [ListRows],
    lists: &[Seq<u32>],
    new: &LookedUpList<'_, '_, '_>,
) -> Result<(), NoMemory>
    requires there { new.now.vehicle < length lists.now }
    requires kept { AreKeptRows (list_model new.now) lists.now list_rows.old }
    ensures { OnOk result (AreKeptRows (list_model new.now)
        (with_route lists.now new.now.vehicle new.now.nodes.now) list_rows.new) }
{
    for d in 0..list_rows.len() {
        list_rows[d].rewrite(alloc, d as u32, lists, new)?;
    }
    Ok(())
}

/// Makes a list that of its vehicle, and writes its rows over those of the list before. The rows are written first,
/// since they ask for the list before. After want of memory nothing is said of the lists.
pub(crate) fn change_list(
    alloc: Global,
    list_rows: &mut [ListRows],
    lists: &mut [Seq<u32>],
    new: &LookedUpList<'_, '_, '_>,
) -> Result<(), NoMemory>
    requires there { new.now.vehicle < length lists.old }
    requires kept { AreKeptRows (list_model new.now) lists.old list_rows.old }
    ensures lists { OnOk result (lists.new ≡ with_route lists.old new.now.vehicle new.now.nodes.now) }
    ensures kept { OnOk result (AreKeptRows (list_model new.now) lists.new list_rows.new) }
{
    rewrite(alloc, list_rows, lists, new)?;
    write_list(new.nodes, &mut lists[new.vehicle as usize])?;
    Ok(())
}

/// Whether the line of a list is feasible in each dimension. The list shares its first `front` and its last `back`
/// nodes with the list that the vehicle has (`old`), whose rows are kept. Walks go through what differs alone.
/// Afterwards the place of the walk is not promised.
///
/// `NoMemory` if there was no memory. It is taken only if a set has more than four runs, or the vehicle has breaks.
pub(crate) fn is_feasible_between(
    list_rows: &[ListRows],
    old: &LookedUpList<'_, '_, '_>,
    new: &[u32],
    front: usize,
    back: usize,
    walk: &mut Walk,
) -> Result<bool, NoMemory>
    requires { MayGoBetween old.now new.now front back list_rows.now }
    ensures { IfOk result (λ answer. answer ≡ is_feasible_in_each (list_model old.now) old.now.vehicle new.now) }
{
    let v = old.vehicle;
    for d in 0..list_rows.len() {
        let table = old.lookups.table(d as u32);
        let kept = &list_rows[d];
        let rows = &kept.rows[v as usize];
        let stops = StopsFor {
            closed: old.lookups.closed,
            d: d as u32,
            v,
            of_dimension: &table.stops,
        };
        let known = KnownList {
            list: old.nodes,
            rows,
        };
        if !goes_between(&stops, &known, new, Stretch { front, back }, walk)? {
            return Ok(false);
        }
    }
    Ok(true)
}
