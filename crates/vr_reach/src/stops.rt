//! What the stops of one dimension ask.

ghost use Rattle.std.proofs.Props.{props};
ghost use Rattle.std.specs.Prelude.{◌≡◌, ℕ, suc, ◌<◌, ◌≤◌, length, slice_index_or, IfOk, IfSome, is_some};
ghost use Rattle.vr_model.specs.declared.records.Model.{Model as Defined};
ghost use Rattle.vr_steps.specs.Arcs.{IsSoundHop};
ghost use Rattle.vr_steps.specs.Reached.{hop_at, IsAllowedSet};
ghost use Rattle.vr_reach.specs.Lists.{node_at_stop};
ghost use Rattle.vr_reach.specs.Once.{IsNormalFrom-prop};
ghost use Rattle.vr_reach.specs.Stops.{AreEndSets, AreStops};
ghost use Rattle.vr_reach.specs.VisitRuns.{have_visits_one_run, AreVisitRuns};
ghost use Rattle.vr_reach.specs.VehicleStops.{line_of, AreStopsFor};
ghost use Rattle.vr_reach.specs.VisitSets.{AreVisitSets};

use crate::driven::Driven;
use crate::ends::{Ends, ends_of_each};
use crate::runs::run_tables;
use crate::visits::VisitSets;
use std::alloc::Global;
use vr_model::{Closed, NoMemory, Seq};
use vr_spans::{Run, Spans};
use vr_steps::{Hop, hop};

/// What all stops that vehicles may have in one dimension ask, looked up once for all lists. Of each vehicle it has the
/// breaks, and what the start and the end allow. Of each visit it has the cumuls that it allows under the capacity of
/// each vehicle.
#[derive(Drop)]
pub struct Stops {
    pub(crate) ends: Vec<Ends>,
    pub(crate) visits: VisitSets,
    // for each table of visits the run that each allows, if none allows more than one
    pub(crate) runs: Seq<Option<Seq<Run>>>,
}

impl Stops {
    /// The stops of dimension `d`. It fails only if it is out of memory.
    pub fn build(alloc: Global, closed: Closed<'_>, d: u32) -> Result<Stops, NoMemory>
        requires dimension { d < length closed.model.now.dimensions }
        ensures { IfOk result (AreStops closed.entry.model.now d) }
    {
        let ends = ends_of_each(alloc, closed, d)?;
        let visits = VisitSets::build(alloc, closed, d)?;
        let runs = run_tables(alloc, &visits.tables)?;
        Ok(Stops { ends, visits, runs })
    }

    // The run that each visit allows vehicle `v`, nothing if some visit allows more than one.
    #[inline]
    pub(crate) fn runs_of(&self, v: u32) -> Option<&[Run]>
        requires vehicle { v < length self.now.visits.table_of }
        requires table { slice_index_or self.now.visits.table_of v 0 < length self.now.runs }
        ensures runs { (model : Defined) (d : ℕ) → AreStops model d self.now
            → IfSome result (λ runs. AreVisitRuns model d v runs.now) }
        ensures known { (model : Defined) (d : ℕ) → AreStops model d self.now
            → is_some result ≡ have_visits_one_run model d v }
    {
        let k = *self.visits.table_of.get(v as usize);
        match self.runs.get(k) {
            Some(runs) => Some(runs.as_slice()),
            None => None,
        }
    }
}

/// The stops of a dimension, for one of the vehicles.
#[derive(Clone, Copy)]
pub struct StopsFor<'m, 's> {
    /// The model.
    pub closed: Closed<'m>,
    /// The dimension.
    pub d: u32,
    /// The vehicle.
    pub v: u32,
    /// What the stops of all vehicles ask in the dimension, looked up once.
    pub of_dimension: &'s Stops,
}

impl<'s> StopsFor<'_, 's> {
    // The run that each visit allows the vehicle, nothing if some visit allows more than one.
    #[inline]
    pub(crate) fn runs(&self) -> Option<&'s [Run]>
        requires { AreStopsFor self.now }
        ensures runs { IfSome result (λ runs. AreVisitRuns self.now.closed.model.now self.now.d self.now.v runs.now) }
        ensures known { is_some result ≡ have_visits_one_run self.now.closed.model.now self.now.d self.now.v }
    {
        self.of_dimension.runs_of(self.v)
    }
}

// What a vehicle that drives a list is asked by its start, its end and its breaks, and the cumuls that each visit
// allows it.
#[derive(Clone, Copy)]
pub(crate) struct ListStops<'m, 'l, 's> {
    pub(crate) of: Driven<'m, 'l>,
    pub(crate) ends: &'s Ends,
    pub(crate) visits: &'s [Spans],
    // The ends are those of the vehicle.
    pub ghost ends_are: { AreEndSets of.closed.model.now of.d of.v ends.now } by { Prim.hlevel
        (props, IsNormalFrom-prop) },
    // The cumuls are those that the visits allow it.
    pub ghost sets_are: { AreVisitSets of.closed.model.now of.d of.v visits.now } by { Prim.hlevel
        (props, IsNormalFrom-prop) },
}

// The cumuls that stop `k` of a list allows.
#[inline]
pub(crate) fn set_at<'s>(stops: &ListStops<'_, '_, 's>, k: usize) -> &'s Spans
    requires { k ≤ suc (length stops.now.of.list.now) }
    ensures { IsAllowedSet (line_of stops.now.of) k result.now }
{
    if k == 0 {
        return &stops.ends.start_set;
    }
    let list = stops.of.list;
    if k > list.len() {
        return &stops.ends.end_set;
    }
    &stops.visits[list.get(k - 1) as usize]
}

// The node at a stop of a list.
#[inline]
pub(crate) fn node_at(of: &Driven, k: usize) -> u32
    requires { k ≤ suc (length of.now.list.now) }
    ensures node { result ≡ node_at_stop of.now.closed.model.now of.now.v of.now.list.now k }
    ensures below { result < of.now.closed.model.now.nodes }
{
    let model = of.closed.model;
    let list = of.list;
    if k == 0 {
        return model.vehicles.get(of.v as usize).start;
    }
    if k > list.len() {
        return model.vehicles.get(of.v as usize).end;
    }
    list.get(k - 1)
}

// The arc from a stop of a list to the next one.
#[inline]
pub(crate) fn hop_from(of: &Driven, k: usize) -> Hop
    requires { k ≤ length of.now.list.now }
    ensures exact { result ≡ hop_at (line_of of.now) k }
    ensures sound { IsSoundHop result }
{
    // that the list is in memory says that the sum fits
    let _few = of.list.len();
    let origin = node_at(of, k);
    let target = node_at(of, k + 1);
    hop(of.closed.model, of.d, of.v, origin, target)
}
