//! What a list reaches at one stop in each dimension, moved from stop to stop. It is asked for a list with the pickup
//! of a pair in it, while places of the delivery are tried (`one_list`).

ghost use Rattle.std.specs.Prelude.{◌≡◌, ◌+◌, ◌≤◌, IsTrue, length, IfOk, OnOk};
ghost use Rattle.vr_rules.specs.RoutesOpen.{is_feasible_in_each};
ghost use Rattle.vr_first_insert.specs.Probes.{is_stuck_in_some, AreReachedAt, ReachNoEnd};
ghost use Rattle.vr_first_insert.specs.Probes.{MayGoFrom, MayGoOn, MayLeave};
ghost use Rattle.vr_first_insert.specs.KeptRows.{list_model};

use crate::list_rows::ListRows;
use crate::vehicle_list::LookedUpList;
use std::alloc::Global;
use vr_model::{Closed, NoMemory};
use vr_plan::Lookups;
use vr_reach::{KnownList, StopsFor, Walk, go_on, goes_from, is_stuck, leave_rows};
use vr_steps::Levels;

/// What a list reaches at one stop in each dimension.
#[derive(Drop)]
pub(crate) struct Probes {
    // of the dimensions; contracts allow more after them, which one model does not make
    pub(crate) here: Vec<Levels>,
}

impl Probes {
    /// Those of no stop. It takes no memory.
    pub(crate) fn new(alloc: Global) -> Probes {
        Probes {
            here: Vec::new(alloc),
        }
    }

    /// Goes to the stop after the first `front` nodes of a list, one arc on. The list shares those nodes with the list
    /// that the vehicle has (`old`), whose rows are kept. Afterwards the place of the walk is not promised.
    ///
    /// `NoMemory` as of `is_feasible_between`, and the first time, when there are no levels yet.
    pub(crate) fn leave(
        &mut self,
        alloc: Global,
        list_rows: &[ListRows],
        old: &LookedUpList<'_, '_, '_>,
        new: &[u32],
        front: usize,
        walk: &mut Walk,
    ) -> Result<(), NoMemory>
        requires { MayLeave old.now new.now front list_rows.now }
        ensures { OnOk result (AreReachedAt (list_model old.now) old.now.vehicle new.now (front + 1) self.new) }
    {
        fit(alloc, self, list_rows.len())?;
        leave_each(self, list_rows, old, new, front, walk)
    }

    /// Whether nothing is reached in some dimension: then no list that reaches this at a stop has a feasible line
    /// there. It takes no memory.
    pub(crate) fn is_stuck(&self, closed: Closed<'_>) -> bool
        requires { length closed.model.now.dimensions ≤ length self.now.here.items }
        ensures exact { result ≡ is_stuck_in_some closed.entry.model.now self.now }
        ensures no_end { IsTrue result → ReachNoEnd closed.entry.model.now self.now }
    {
        for d in 0..closed.model.dimensions.len() {
            if is_stuck(&self.here[d]) {
                return true;
            }
        }
        false
    }

    /// Whether the line of a list is feasible in each dimension. Walks go from stop `k`, at which this is reached, to
    /// its last `back` nodes. It shares those with the list that the vehicle has (`old`), whose rows are kept.
    /// Afterwards the place of the walk is not promised.
    ///
    /// `NoMemory` as of `is_feasible_between`.
    pub(crate) fn goes_from(
        &self,
        list_rows: &[ListRows],
        old: &LookedUpList<'_, '_, '_>,
        new: &[u32],
        k: usize,
        back: usize,
        walk: &mut Walk,
    ) -> Result<bool, NoMemory>
        requires { MayGoFrom old.now new.now k back list_rows.now self.now }
        ensures { IfOk result (λ answer. answer
            ≡ is_feasible_in_each (list_model old.now) old.now.vehicle new.now) }
    {
        let v = old.vehicle;
        for d in 0..list_rows.len() {
            let table = old.lookups.table(d as u32);
            let kept = &list_rows[d];
            let rows = &kept.rows[v as usize];
            let here = &self.here[d];
            let stops = StopsFor {
                closed: old.lookups.closed,
                d: d as u32,
                v,
                of_dimension: &table.stops,
            };
            let known = KnownList {
                list: old.nodes,
                rows,
            };
            if !goes_from(&stops, &known, new, k, here, back, walk)? {
                return Ok(false);
            }
        }
        Ok(true)
    }

    /// Moves on from stop `k` of a list of vehicle `v` to the next stop. Afterwards the place of the walk is not
    /// promised.
    ///
    /// `NoMemory` as of `is_feasible_between`.
    #[inline]
    pub(crate) fn go_on(
        &mut self,
        lookups: &Lookups<'_>,
        v: u32,
        list: &[u32],
        k: usize,
        walk: &mut Walk,
    ) -> Result<(), NoMemory>
        requires { MayGoOn lookups.now.closed.model.now v list.now k self.old }
        ensures { OnOk result (AreReachedAt lookups.now.closed.model.now v list.now (k + 1) self.new) }
    {
        let closed = lookups.closed;
        for d in 0..closed.model.dimensions.len() {
            let table = lookups.table(d as u32);
            let stops = StopsFor {
                closed,
                d: d as u32,
                v,
                of_dimension: &table.stops,
            };
            go_on(&stops, list, k, walk, &mut self.here[d])?;
        }
        Ok(())
    }
}

// Makes levels for at least `wanted` dimensions.
fn fit(alloc: Global, probes: &mut Probes, wanted: usize) -> Result<(), NoMemory>
    ensures { OnOk result (wanted ≤ length probes.new.here.items) }
{
    'fill: while probes.here.len() < wanted {
        probes.here.push(Levels::new(alloc))?;
    }
    Ok(())
}

// In each dimension, goes over the arc by which a list leaves the one that the vehicle has (`old`).
fn leave_each(
    probes: &mut Probes,
    list_rows: &[ListRows],
    old: &LookedUpList<'_, '_, '_>,
    new: &[u32],
    front: usize,
    walk: &mut Walk,
) -> Result<(), NoMemory>
    requires leaves { MayLeave old.now new.now front list_rows.now }
    requires enough { length list_rows.now ≤ length probes.old.here.items }
    ensures { OnOk result (AreReachedAt (list_model old.now) old.now.vehicle new.now (front + 1) probes.new) }
{
    let v = old.vehicle;
    for d in 0..list_rows.len() {
        let table = old.lookups.table(d as u32);
        let kept = &list_rows[d];
        let rows = &kept.rows[v as usize];
        let stops = StopsFor {
            closed: old.lookups.closed,
            d: d as u32,
            v,
            of_dimension: &table.stops,
        };
        let known = KnownList {
            list: old.nodes,
            rows,
        };
        leave_rows(&stops, &known, new, front, walk, &mut probes.here[d])?;
    }
    Ok(())
}
