//! The filter of the lines of one dimension.

ghost use Rattle.std.specs.Prelude.{◌≡◌, ◌+◌, ◌<◌, ◌≤◌, ℕ, Bool, false, List, length, IsTrue, IfOk, OnOk, OnErr};
ghost use Rattle.std.specs.Prelude.{None, is_some};
ghost use Rattle.vr_loads.specs.Loads.{is_load};
ghost use Rattle.vr_model.specs.tables.Tables.{visits};
ghost use Rattle.vr_model.specs.schedules.Weights.{weight as weight_in, list_weight};
ghost use Rattle.vr_model.specs.routes.Routes.{route};
ghost use Rattle.vr_model.specs.declared.records.Model.{Model as Defined};
ghost use Rattle.vr_model.specs.tables.WellFormed.{IsWellFormed, WherePresent};
ghost use Rattle.vr_routes.specs.Changes.{IsMadeOn, after, NothingReady};
ghost use Rattle.vr_routes.specs.Pieces.{ListAfter, changed, joined, part_at};
ghost use Rattle.vr_routes.specs.Tours.{Tours};
ghost use Rattle.vr_filter.specs.Filters.{IsSameRule, IsSameWeight};
ghost use Rattle.vr_reach.specs.Lists.{is_feasible_list};
ghost use Rattle.vr_reach.specs.Tries.{list_tries};
ghost use Rattle.vr_pathfilters.specs.Lists.{holds_of_each};
ghost use Rattle.vr_pathfilters.specs.RoutesIn.{AreRoutesIn};
ghost use Rattle.vr_pathfilters.specs.TourLists.{KeepRule};
ghost use Rattle.vr_pathfilters.specs.Known.{AreKnown, StandsAt, IsReady, AreRowsOfPart, with_part};
ghost use Rattle.vr_pathfilters.specs.Known.{KnowsLoads, KnowsRows};
ghost use Rattle.vr_pathfilters.specs.Tries.{tries_in};

use crate::list_rows::{Room, RoutesIn, most_stops, rows_unless, write_part};
use crate::loads::{all_carried, loads_of, put_list};
use crate::parts::write_between;
use std::alloc::Global;
use std::marker::Brand;
use std::mem;
use std::sync::ledger::{Blank, Ledger};
use vr_filter::PathFilter;
use vr_loads::Loads;
use vr_model::{Closed, Model, NoMemory, Steps};
use vr_plan::Lookups;
use vr_reach::{KnownList, Rows, Splice, StopsFor, Walk, passes_along};
use vr_routes::{Change, Routes, Row};

/// Lets a change pass if the line of each used vehicle in one dimension has a schedule afterwards. In OR-Tools it is
/// the path cumul filter of a `RoutingDimension`.
///
/// - Of a load it keeps sums of the committed lists, and judges a change by them. If the vehicles have the same
///   evaluator, the time does not depend on how long the lists are.
/// - Of any other dimension it keeps the rows of the committed lists, and walks only through what a change changes.
///   `passes` takes memory only if a set has more than four runs, or a vehicle has breaks.
#[derive(Drop)]
pub struct DimensionFilter<'m> {
    lookups: Lookups<'m>,
    d: u32,
    alloc: Global,
    // if the dimension is a load, what vehicles take along their lists
    loads: Option<Loads>,
    // else the rows of the list of each vehicle
    known: Vec<Rows>,
    room: Room,
    // the rows of the changed lists, if a change was made ready
    first: Rows,
    second: Rows,
    // whether a change was made ready: contracts alone read it
    is_prepared: bool,
}

impl<'m> DimensionFilter<'m> {
    /// A filter in sync with the lists of routes, whose lines in dimension `d` are feasible. The only refusal is want
    /// of memory. Tests alone call it; `vr_judge` calls `over`.
    pub fn open(
        alloc: Global,
        model: &'m Model,
        d: u32,
        routes: &Routes,
    ) -> Result<DimensionFilter<'m>, NoMemory>
        requires well_formed { IsWellFormed model.now }
        requires dimension { d < length model.now.dimensions }
        requires visits { routes.now.visits ≡ visits model.now }
        requires many { length routes.now.lists ≡ length model.now.vehicles }
        requires rule { IsTrue (holds_of_each (is_feasible_list model.now d) routes.now.lists) }
        ensures holds { IfOk result (λ filter. ⟦<DimensionFilter<'static> as PathFilter>⟧.holds filter
            ≡ holds_of_each (is_feasible_list model.now d)) }
        ensures weight { IfOk result (λ filter. ⟦<DimensionFilter<'static> as PathFilter>⟧.weight filter
            ≡ weight_in model.now d) }
        ensures stands { IfOk result (λ filter.
            ⟦<DimensionFilter<'static> as PathFilter>⟧.stands_at filter routes.now) }
    {
        let lookups = Lookups::open(alloc, Closed { model })?;
        DimensionFilter::over(alloc, &lookups, d, routes)
    }

    /// The same, over what was looked up of the model.
    pub fn over(
        alloc: Global,
        lookups: &Lookups<'m>,
        d: u32,
        routes: &Routes,
    ) -> Result<DimensionFilter<'m>, NoMemory>
        requires dimension { d < length lookups.now.closed.model.now.dimensions }
        requires routes { KeepRule (λ model. is_feasible_list model d) lookups.now.closed.model.now routes.now }
        ensures holds { IfOk result (λ filter. ⟦<DimensionFilter<'static> as PathFilter>⟧.holds filter
            ≡ holds_of_each (is_feasible_list lookups.now.closed.model.now d)) }
        ensures weight { IfOk result (λ filter. ⟦<DimensionFilter<'static> as PathFilter>⟧.weight filter
            ≡ weight_in lookups.now.closed.model.now d) }
        ensures stands { IfOk result (λ filter.
            ⟦<DimensionFilter<'static> as PathFilter>⟧.stands_at filter routes.now) }
    {
        // neither does anything: contracts learn that no visit is there twice, and that lists have visits alone
        routes.know_once();
        routes.know_entries();
        let at = RoutesIn {
            closed: lookups.closed,
            d,
            stops: &lookups.table(d).stops,
            routes,
        };
        let (loads, known) = kept_of::<Brand>(alloc, &at, Blank::new(1))?;
        let room = if loads.is_some() {
            0
        } else {
            most_stops(lookups.closed.model)
        };
        Ok(DimensionFilter {
            lookups: lookups.share()?,
            d,
            alloc,
            loads,
            known,
            room: Room {
                walk: Walk::new(alloc),
                list: Row::new(),
            },
            first: Rows::with_room(alloc, room)?,
            second: Rows::with_room(alloc, room)?,
            is_prepared: false,
        })
    }

    /// The same as `passes`, and tries are counted too: the arcs that walks without a break go over. Such walks are
    /// asked first of a vehicle with breaks, if neither a visit nor the end allows more than one run. They go along
    /// what a change changes alone, at most once for each number of breaks that may be taken before it.
    ///
    /// `passes` alone asks it, by `passes_untried`, with a counter of tries that nobody reads.
    pub fn passes_within<L: Ledger, M: Ledger>(
        &mut self,
        routes: &Routes,
        change: &Change,
        steps: &mut Steps<L>,
        tries: &mut Steps<M>,
    ) -> Result<bool, NoMemory>
        requires stands { StandsAt self.old.lookups.closed.model.now self.old.d self.old.loads self.old.known.items
            routes.now }
        requires made { IsMadeOn routes.now change.now }
        ensures answer { IfOk result (λ passed. passed
            ≡ holds_of_each (is_feasible_list self.old.lookups.closed.model.now self.old.d)
            (changed routes.now.lists change.now)) }
        ensures stands { StandsAt self.new.lookups.closed.model.now self.new.d self.new.loads self.new.known.items
            routes.now }
        ensures model { self.new.lookups.closed.model.now ≡ self.old.lookups.closed.model.now }
        ensures dimension { self.new.d ≡ self.old.d }
        ensures unready { self.new.is_prepared ≡ false }
        ensures count { steps.new ≤ steps.old
            + weight_in self.old.lookups.closed.model.now self.old.d routes.now.lists
            (changed routes.now.lists change.now) }
        ensures tries { tries.new ≤ tries.old
            + tries_in self.old.lookups.closed.model.now self.old.d routes.now.lists
            (changed routes.now.lists change.now) }
    {
        self.is_prepared = false;
        match &self.loads {
            Some(loads) => Ok(all_carried(
                self.lookups.closed.model,
                self.d,
                loads,
                routes,
                change,
            )),
            None => {
                let at = RoutesIn {
                    closed: self.lookups.closed,
                    d: self.d,
                    stops: &self.lookups.table(self.d).stops,
                    routes,
                };
                all_pass(&at, &self.known, change, &mut self.room, steps, tries)
            }
        }
    }

    // The same, with a counter of tries that is made here of the blank one, and that nobody reads.
    fn passes_untried<L: Ledger, M: Ledger>(
        &mut self,
        routes: &Routes,
        change: &Change,
        steps: &mut Steps<L>,
        blank: Blank,
    ) -> Result<bool, NoMemory>
        requires name { blank.name ≡ M.name }
        requires parts { blank.parts ≡ M.parts }
        requires some { 0 < blank.parts }
        requires stands { StandsAt self.old.lookups.closed.model.now self.old.d self.old.loads self.old.known.items
            routes.now }
        requires made { IsMadeOn routes.now change.now }
        ensures answer { IfOk result (λ passed. passed
            ≡ holds_of_each (is_feasible_list self.old.lookups.closed.model.now self.old.d)
            (changed routes.now.lists change.now)) }
        ensures stands { StandsAt self.new.lookups.closed.model.now self.new.d self.new.loads self.new.known.items
            routes.now }
        ensures model { self.new.lookups.closed.model.now ≡ self.old.lookups.closed.model.now }
        ensures dimension { self.new.d ≡ self.old.d }
        ensures unready { self.new.is_prepared ≡ false }
        ensures count { steps.new ≤ steps.old
            + weight_in self.old.lookups.closed.model.now self.old.d routes.now.lists
            (changed routes.now.lists change.now) }
    {
        let mut tries = Steps::<M>::new(blank);
        self.passes_within(routes, change, steps, &mut tries)
    }
}

impl<'m> PathFilter for DimensionFilter<'m> {
    ghost holds = { λ f lists. holds_of_each (is_feasible_list f.lookups.closed.model.now f.d) lists };

    ghost stands_at = { λ f tours. StandsAt f.lookups.closed.model.now f.d f.loads f.known.items tours };

    ghost ready = { λ f tours parts. IsReady f.lookups.closed.model.now f.d f.is_prepared f.loads f.first f.second
        tours.lists parts };

    ghost weight = { λ f before later. weight_in f.lookups.closed.model.now f.d before later };

    fn passes<L: Ledger>(
        &mut self,
        routes: &Routes,
        change: &Change,
        steps: &mut Steps<L>,
    ) -> Result<bool, NoMemory> {
        self.passes_untried::<L, Brand>(routes, change, steps, Blank::new(1))
    }

    fn prepare(&mut self, routes: &Routes, change: &Change) -> Result<(), NoMemory> {
        self.is_prepared = false;
        if self.loads.is_some() {
            self.is_prepared = true;
            return Ok(());
        }
        let alloc = self.alloc;
        let at = RoutesIn {
            closed: self.lookups.closed,
            d: self.d,
            stops: &self.lookups.table(self.d).stops,
            routes,
        };
        write_part::<Brand>(
            alloc,
            &at,
            change,
            0,
            &mut self.room,
            &mut self.first,
            Blank::new(1),
        )?;
        write_part::<Brand>(
            alloc,
            &at,
            change,
            1,
            &mut self.room,
            &mut self.second,
            Blank::new(1),
        )?;
        self.is_prepared = true;
        Ok(())
    }

    fn commit(&mut self, routes: &Routes, change: &Change) {
        self.is_prepared = false;
        match &mut self.loads {
            Some(loads) => {
                put_list(
                    loads,
                    self.lookups.closed.model,
                    self.d,
                    routes,
                    change,
                    0,
                    &mut self.room.list,
                );
                put_list(
                    loads,
                    self.lookups.closed.model,
                    self.d,
                    routes,
                    change,
                    1,
                    &mut self.room.list,
                );
            }
            None => {
                put_part(&mut self.known, change, 0, &mut self.first);
                put_part(&mut self.known, change, 1, &mut self.second);
            }
        }
    }

    ghost keeps_rule = { λ f tours stands. stands.rule };
}

// Swaps the rows of part `k` of a change with those of its vehicle, if there is that part. The rows of the vehicle
// before become the room for the next ones.
fn put_part(known: &mut Vec<Rows>, change: &Change, k: usize, rows: &mut Rows)
    requires vehicle { k < length change.now → (part_at change.now k).vehicle < length known.old.items }
    ensures some { 0 < length change.now }
    ensures few { length change.now ≤ 2 }
    ensures long { length known.new.items ≡ length known.old.items }
    ensures known { (model : Defined) (d : ℕ) (old before : List (List ℕ)) → length before ≡ length known.old.items
        → AreKnown model d before known.old.items → AreRowsOfPart model d old change.now k rows.old
        → AreKnown model d (with_part old change.now k before) known.new.items }
{
    if k >= change.parts() {
        return;
    }
    mem::swap(&mut known[change.vehicle(k) as usize], rows);
}

// What is kept of the lists of all vehicles: loads if the dimension is one, else rows. `lists` counts the lists that
// are handed over for their rows, and nobody reads it (`list_rows`).
fn kept_of<L: Ledger>(
    alloc: Global,
    at: &RoutesIn,
    blank: Blank,
) -> Result<(Option<Loads>, Vec<Rows>), NoMemory>
    requires name { blank.name ≡ L.name }
    requires parts { blank.parts ≡ L.parts }
    requires some { 0 < blank.parts }
    requires at { AreRoutesIn at.now }
    ensures loads_known { IfOk result (λ kept. is_some kept.0 ≡ is_load at.now.closed.model.now at.now.d) }
    ensures loads { IfOk result (λ kept. WherePresent
        (KnowsLoads at.now.closed.model.now at.now.d at.now.routes.now.lists) kept.0) }
    ensures known { IfOk result (λ kept. kept.0 ≡ None
        → KnowsRows at.now.closed.model.now at.now.d kept.1.items at.now.routes.now.lists) }
{
    let loads = loads_of(alloc, at.closed, at.d, at.routes)?;
    let mut lists = Steps::<L>::new(blank);
    let known = rows_unless(&loads, alloc, at, &mut lists)?;
    Ok((loads, known))
}

// Whether the lists of all parts of a change are empty or their lines feasible.
fn all_pass<L: Ledger, M: Ledger>(
    at: &RoutesIn,
    known: &[Rows],
    change: &Change,
    room: &mut Room,
    steps: &mut Steps<L>,
    tries: &mut Steps<M>,
) -> Result<bool, NoMemory>
    requires at { AreRoutesIn at.now }
    requires stands { StandsAt at.now.closed.model.now at.now.d None known.now at.now.routes.now }
    requires made { IsMadeOn at.now.routes.now change.now }
    ensures answer { IfOk result (λ passed. passed ≡ holds_of_each
        (is_feasible_list at.now.closed.model.now at.now.d) (changed at.now.routes.now.lists change.now)) }
    ensures count { steps.new ≤ steps.old + weight_in at.now.closed.model.now at.now.d
        at.now.routes.now.lists (changed at.now.routes.now.lists change.now) }
    ensures tries { tries.new ≤ tries.old + tries_in at.now.closed.model.now at.now.d
        at.now.routes.now.lists (changed at.now.routes.now.lists change.now) }
{
    for k in 0..change.parts() {
        let passed = part_passes(at, known, change, k, room, steps, tries)?;
        if !passed {
            return Ok(false);
        }
    }
    Ok(true)
}

// Whether the list of one part of a change is empty or its line feasible.
fn part_passes<L: Ledger, M: Ledger>(
    at: &RoutesIn,
    known: &[Rows],
    change: &Change,
    k: usize,
    room: &mut Room,
    steps: &mut Steps<L>,
    tries: &mut Steps<M>,
) -> Result<bool, NoMemory>
    requires at { AreRoutesIn at.now }
    requires stands { StandsAt at.now.closed.model.now at.now.d None known.now at.now.routes.now }
    requires made { IsMadeOn at.now.routes.now change.now }
    requires part { k < length change.now }
    ensures answer { IfOk result (λ passed. passed
        ≡ is_feasible_list at.now.closed.model.now at.now.d (part_at change.now k).vehicle
        (joined at.now.routes.now.lists (part_at change.now k).pieces)) }
    ensures count { let part = part_at change.now k in
        steps.new ≤ steps.old + list_weight at.now.closed.model.now at.now.d part.vehicle
        (route at.now.routes.now.lists part.vehicle) (joined at.now.routes.now.lists part.pieces) }
    ensures tries { let part = part_at change.now k in
        tries.new ≤ tries.old + list_tries at.now.closed.model.now at.now.d part.vehicle
        (route at.now.routes.now.lists part.vehicle) (joined at.now.routes.now.lists part.pieces) }
{
    let ends = write_between(at.routes, change, k, &mut room.list);
    let v = ends.vehicle;
    let stops = StopsFor {
        closed: at.closed,
        d: at.d,
        v,
        of_dimension: at.stops,
    };
    let before = KnownList {
        list: at.routes.list(v),
        rows: &known[v as usize],
    };
    let splice = Splice {
        front: ends.front as usize,
        behind: ends.behind as usize,
        middle: room.list.as_slice(),
    };
    passes_along(&stops, &before, &splice, &mut room.walk, steps, tries)
}
