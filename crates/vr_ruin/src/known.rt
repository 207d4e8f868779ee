//! Lists whose rows are known: what each reaches at its stops in each dimension. A list with an item put in is tested
//! by walks through what differs.

ghost use Rattle.std.specs.Prelude.{◌≡◌, ◌<◌, ◌≤◌, [], IfOk, IsTrue, OnOk, false, length, true};
ghost use Rattle.vr_model.specs.schedules.Choices.{is_feasible};
ghost use Rattle.vr_model.specs.schedules.Lines.{line};
ghost use Rattle.vr_reach.specs.Lists.{IsTour};
ghost use Rattle.vr_rules.specs.RoutesOpen.{is_feasible_in_each};
ghost use Rattle.vr_loads.specs.Loads.{is_load as is_load_of};
ghost use Rattle.vr_ruin.specs.Carrying.{AreLoads};
ghost use Rattle.vr_ruin.specs.Known.{shared_of, AreRowsIn, IsCarriedBy, IsEndWithin, IsKnownRoute, MayGo};
ghost use Rattle.vr_reach.specs.KnownRows.{AreRowsIfUsed};

use crate::carrying::write_sums;
use crate::increase::Driven;
use crate::places::write_arcs;
use crate::placing::Placing;
use std::alloc::Global;
use vr_model::{NoMemory, Seq};
use vr_plan::Lookups;
use vr_reach::{KnownList, Rows, StopsFor, Stretch, Walk, goes_between, rewrite_rows};
use vr_routes::Row;

/// A list of a vehicle, with its rows in each dimension, its arcs and what it takes. Of the empty list nothing is
/// known.
#[derive(Drop)]
pub(crate) struct KnownRoute {
    pub(crate) nodes: Row,
    pub(crate) rows: Vec<Rows>,
    /// What its arcs cost, the one to its end last.
    pub(crate) arcs: Seq<i64>,
    /// What it takes in each dimension that is a load.
    pub(crate) sums: Seq<i64>,
}

impl KnownRoute {
    /// The empty list. It fails only if memory runs out, as each call does.
    pub(crate) fn open(alloc: Global, dimensions: usize) -> Result<KnownRoute, NoMemory>
        ensures nodes { IfOk result (λ route. route.nodes ≡ []) }
        ensures rows { IfOk result (λ route. length route.rows.items ≡ dimensions) }
    {
        let mut rows = Vec::with_capacity(alloc, dimensions)?;
        for _d in 0..dimensions {
            rows.push(Rows::new(alloc))?;
        }
        Ok(KnownRoute {
            nodes: Row::new(),
            rows,
            arcs: Seq::new(alloc),
            sums: Seq::new(alloc),
        })
    }

    /// Makes it another list of vehicle `v`. What is known is written only if it is another one, and no rows of loads.
    /// If memory runs out it may be the empty list.
    pub(crate) fn take(
        &mut self,
        alloc: Global,
        lookups: &Lookups<'_>,
        v: u32,
        list: &[u32],
        loads: &[bool],
    ) -> Result<(), NoMemory>
        requires vehicle { v < length lookups.now.closed.model.now.vehicles }
        requires tour { IsTour lookups.now.closed.model.now list.now }
        requires loads { AreLoads lookups.now.closed.model.now loads.now }
        requires few { length list.now ≤ 1000 }
        requires known { IsKnownRoute lookups.now.closed.model.now v self.old }
        ensures known { IsKnownRoute lookups.now.closed.model.now v self.new }
        ensures taken { OnOk result (self.new.nodes ≡ list.now) }
    {
        if is_same(self.nodes.as_slice(), list) {
            return Ok(());
        }
        let lists = Relisted {
            before: self.nodes.as_slice(),
            list,
        };
        let written = write_each(alloc, lookups, v, &lists, loads, &mut self.rows);
        // of the empty list nothing is known, whatever the rows hold
        self.nodes.clear();
        written?;
        let driven = Driven {
            closed: lookups.closed,
            vehicle: v,
            nodes: list,
        };
        write_arcs(&driven, &mut self.arcs)?;
        write_sums(&driven, loads, &mut self.sums)?;
        write_nodes(list, &mut self.nodes);
        Ok(())
    }
}

// A list that comes in the place of another.
#[derive(Clone, Copy)]
struct Relisted<'b, 'l> {
    before: &'b [u32],
    list: &'l [u32],
}

// Whether two lists have the same nodes in the same order.
fn is_same(one: &[u32], other: &[u32]) -> bool
    ensures { IsTrue result → one.now ≡ other.now }
{
    one == other
}

// Writes a list over an empty one.
fn write_nodes(list: &[u32], out: &mut Row)
    requires empty { out.old ≡ [] }
    requires few { length list.now ≤ 1000 }
    ensures { out.new ≡ list.now }
{
    for k in 0..list.len() {
        out.push(list[k]);
    }
}

// Writes the rows of a list of vehicle `v` in each dimension that is no load over those of another. What both lists
// share at their ends is not gone through again.
fn write_each(
    alloc: Global,
    lookups: &Lookups<'_>,
    v: u32,
    lists: &Relisted<'_, '_>,
    loads: &[bool],
    rows: &mut [Rows],
) -> Result<(), NoMemory>
    requires vehicle { v < length lookups.now.closed.model.now.vehicles }
    requires tour { IsTour lookups.now.closed.model.now lists.now.list.now }
    requires loads { AreLoads lookups.now.closed.model.now loads.now }
    requires many { length rows.old ≡ length lookups.now.closed.model.now.dimensions }
    requires rows { AreRowsIn lookups.now.closed.model.now v lists.now.before.now rows.old }
    ensures many { length rows.new ≡ length rows.old }
    ensures rows { OnOk result (AreRowsIn lookups.now.closed.model.now v lists.now.list.now rows.new) }
{
    for d in 0..loads.len() {
        write_in(alloc, lookups, d as u32, v, lists, loads[d], &mut rows[d])?;
    }
    Ok(())
}

// The same in one dimension.
fn write_in(
    alloc: Global,
    lookups: &Lookups<'_>,
    d: u32,
    v: u32,
    lists: &Relisted<'_, '_>,
    is_load: bool,
    rows: &mut Rows,
) -> Result<(), NoMemory>
    requires vehicle { v < length lookups.now.closed.model.now.vehicles }
    requires dimension { d < length lookups.now.closed.model.now.dimensions }
    requires tour { IsTour lookups.now.closed.model.now lists.now.list.now }
    requires rows { is_load ≡ false → AreRowsIfUsed lookups.now.closed.model.now d v lists.now.before.now rows.old }
    ensures { OnOk result
        (is_load ≡ false → AreRowsIfUsed lookups.now.closed.model.now d v lists.now.list.now rows.new) }
{
    if is_load {
        return Ok(());
    }
    let table = lookups.table(d);
    let stops = StopsFor {
        closed: lookups.closed,
        d,
        v,
        of_dimension: &table.stops,
    };
    rewrite_rows(alloc, &stops, lists.before, lists.list, rows)
}

/// A list of a vehicle that shares nodes at its ends with one whose rows are known.
#[derive(Clone, Copy)]
pub(crate) struct Changed<'l, 'm, 'k, 'n> {
    pub(crate) lookups: &'l Lookups<'m>,
    pub(crate) vehicle: u32,
    pub(crate) known: &'k KnownRoute,
    pub(crate) nodes: &'n [u32],
    pub(crate) shared: Stretch,
}

/// How many nodes a list of `n` nodes shares at its ends with one that has an item placed in it.
pub(crate) fn shared_with(n: usize, placing: Placing) -> Stretch
    requires n { n ≤ 1000 }
    requires within { IsEndWithin n placing }
    ensures { result ≡ shared_of n placing }
{
    match placing {
        Placing::One(_, t) => Stretch {
            front: t as usize,
            back: n - t as usize,
        },
        Placing::Two(_, _, s, t) => Stretch {
            front: s as usize,
            back: n - t as usize,
        },
    }
}

// Whether the line of a list is feasible in a dimension.
fn goes_in(changed: &Changed<'_, '_, '_, '_>, d: u32, walk: &mut Walk) -> Result<bool, NoMemory>
    requires may { MayGo changed.now }
    requires dimension { d < length changed.now.lookups.now.closed.model.now.dimensions }
    requires no_load { is_load_of changed.now.lookups.now.closed.model.now d ≡ false }
    ensures { IfOk result (λ goes. goes
        ≡ is_feasible (line changed.now.lookups.now.closed.model.now d changed.now.vehicle changed.now.nodes.now)) }
{
    let table = changed.lookups.table(d);
    let known = changed.known;
    let rows = &known.rows[d as usize];
    let stops = StopsFor {
        closed: changed.lookups.closed,
        d,
        v: changed.vehicle,
        of_dimension: &table.stops,
    };
    let list = KnownList {
        list: known.nodes.as_slice(),
        rows,
    };
    goes_between(&stops, &list, changed.nodes, changed.shared, walk)
}

// The same, if it is known to be feasible in a load.
fn goes_unless(
    changed: &Changed<'_, '_, '_, '_>,
    d: u32,
    is_load: bool,
    walk: &mut Walk,
) -> Result<bool, NoMemory>
    requires may { MayGo changed.now }
    requires dimension { d < length changed.now.lookups.now.closed.model.now.dimensions }
    requires is { is_load ≡ is_load_of changed.now.lookups.now.closed.model.now d }
    requires carried { is_load_of changed.now.lookups.now.closed.model.now d ≡ true → is_feasible
        (line changed.now.lookups.now.closed.model.now d changed.now.vehicle changed.now.nodes.now) ≡ true }
    ensures { IfOk result (λ goes. goes
        ≡ is_feasible (line changed.now.lookups.now.closed.model.now d changed.now.vehicle changed.now.nodes.now)) }
{
    if is_load {
        return Ok(true);
    }
    goes_in(changed, d, walk)
}

/// Whether the line of a list is feasible in each dimension, if it is in those that are loads. In the others walks go
/// through what differs.
pub(crate) fn goes_in_each(
    changed: &Changed<'_, '_, '_, '_>,
    loads: &[bool],
    walk: &mut Walk,
) -> Result<bool, NoMemory>
    requires may { MayGo changed.now }
    requires loads { AreLoads changed.now.lookups.now.closed.model.now loads.now }
    requires carried { IsCarriedBy changed.now.lookups.now.closed.model.now changed.now.vehicle changed.now.nodes.now }
    ensures { IfOk result (λ goes. goes
        ≡ is_feasible_in_each changed.now.lookups.now.closed.model.now changed.now.vehicle changed.now.nodes.now) }
{
    for d in 0..loads.len() {
        if !goes_unless(changed, d as u32, loads[d], walk)? {
            return Ok(false);
        }
    }
    Ok(true)
}
