//! What visits allow, in a table for each capacity.

ghost use Rattle.std.specs.Prelude.{◌≡◌, ◌≢◌, ◌+◌, ◌<◌, ◌≤◌, ℕ, length, slice_index_or, IfOk, OnOk};
ghost use Rattle.vr_model.specs.declared.records.Model.{Model as Defined};
ghost use Rattle.vr_model.specs.tables.Numbers.{number_at};
ghost use Rattle.vr_reach.specs.VisitSets.{capacity_of, AreSets, AreTablesUnder, AreVisitSets, IsSetOfNode, IsTableOf};

use crate::driven::VehicleIn;
use std::alloc::Global;
use vr_model::{Closed, NoMemory, Seq};
use vr_spans::Spans;
use vr_steps::{StopName, allowed_at};

// The cumuls that each visit allows, by its node, in a table for each capacity that some vehicle has. Nothing else of a
// vehicle counts for what its visits allow. A node that is no visit allows none.
#[derive(Drop)]
pub(crate) struct VisitSets {
    // the capacity of each table
    pub(crate) capacities: Seq<i64>,
    pub(crate) tables: Seq<Seq<Spans>>,
    // of each vehicle the number of its table
    pub(crate) table_of: Seq<usize>,
}

impl VisitSets {
    // What visits allow each vehicle in dimension `d`.
    pub(crate) fn build(alloc: Global, closed: Closed<'_>, d: u32) -> Result<VisitSets, NoMemory>
        requires dimension { d < length closed.model.now.dimensions }
        ensures { IfOk result (AreSets closed.entry.model.now d (length closed.entry.model.now.vehicles)) }
    {
        let mut sets = VisitSets {
            capacities: Seq::new(alloc),
            tables: Seq::new(alloc),
            table_of: Seq::new(alloc),
        };
        for v in 0..closed.model.vehicles.len() {
            let vehicle = VehicleIn {
                closed,
                d,
                v: v as u32,
            };
            sets.add(alloc, vehicle)?;
        }
        Ok(sets)
    }

    // Adds the next vehicle, which shares the table of another of the same capacity.
    fn add(&mut self, alloc: Global, vehicle: VehicleIn<'_>) -> Result<(), NoMemory>
        requires { AreSets vehicle.closed.model.now vehicle.d vehicle.v self.old }
        ensures { OnOk result (AreSets vehicle.entry.closed.model.now vehicle.entry.d (vehicle.entry.v + 1) self.new) }
    {
        let k = table_for(alloc, vehicle, &mut self.capacities, &mut self.tables)?;
        self.table_of.push(k)?;
        Ok(())
    }

    // What visits allow vehicle `v`.
    #[inline]
    pub(crate) fn of(&self, v: u32) -> &[Spans]
        requires vehicle { v < length self.now.table_of }
        requires table { slice_index_or self.now.table_of v 0 < length self.now.tables }
        ensures { (model : Defined) (d : ℕ) → AreSets model d (length model.vehicles) self.now
            → AreVisitSets model d v result.now }
    {
        let k = *self.table_of.get(v as usize);
        self.tables.get(k).as_slice()
    }
}

// The number of the table of a vehicle, which is added if no table has its capacity.
fn table_for(
    alloc: Global,
    vehicle: VehicleIn<'_>,
    capacities: &mut Seq<i64>,
    tables: &mut Seq<Seq<Spans>>,
) -> Result<usize, NoMemory>
    requires { AreTablesUnder vehicle.closed.model.now vehicle.d capacities.old tables.old }
    ensures tables { OnOk result (AreTablesUnder vehicle.entry.closed.model.now vehicle.entry.d capacities.new
        tables.new) }
    ensures table { IfOk result (IsTableOf vehicle.entry.closed.model.now vehicle.entry.d vehicle.entry.v
        capacities.new) }
    ensures kept { OnOk result ((w : ℕ) (k : ℕ)
        → IsTableOf vehicle.entry.closed.model.now vehicle.entry.d w capacities.old k
        → IsTableOf vehicle.entry.closed.model.now vehicle.entry.d w capacities.new k) }
{
    let dimension = vehicle.closed.model.dimensions.get(vehicle.d as usize);
    let capacity = *dimension.capacities.get(vehicle.v as usize);
    let k = place_of(capacities.as_slice(), capacity);
    if k < capacities.len() {
        return Ok(k);
    }
    tables.push(visit_sets(alloc, vehicle)?)?;
    capacities.push(capacity)?;
    Ok(k)
}

// The first place of a capacity, the number of all if it is not among them.
fn place_of(capacities: &[i64], capacity: i64) -> usize
    ensures within { result ≤ length capacities.now }
    ensures same { result < length capacities.now → number_at capacities.now result ≡ capacity }
    ensures first { (k : ℕ) → k < result → number_at capacities.now k ≢ capacity }
{
    for k in 0..capacities.len() {
        if capacities[k] == capacity {
            return k;
        }
    }
    capacities.len()
}

// The cumuls that each visit allows a vehicle, and no cumuls for each node that is none.
fn visit_sets(alloc: Global, vehicle: VehicleIn<'_>) -> Result<Seq<Spans>, NoMemory>
    ensures { IfOk result (AreVisitSets vehicle.entry.closed.model.now vehicle.entry.d vehicle.entry.v) }
{
    let nodes = vehicle.closed.model.nodes;
    let mut sets = Seq::with_capacity(alloc, nodes as usize)?;
    for node in 0..nodes {
        sets.push(visit_set(alloc, vehicle, node)?)?;
    }
    Ok(sets)
}

// The cumuls that a visit allows a vehicle, none if the node is no visit.
fn visit_set(alloc: Global, vehicle: VehicleIn<'_>, node: u32) -> Result<Spans, NoMemory>
    ensures { IfOk result (IsSetOfNode vehicle.entry.closed.model.now vehicle.entry.d
        (capacity_of vehicle.entry.closed.model.now vehicle.entry.d vehicle.entry.v) node) }
{
    let model = vehicle.closed.model;
    if !model.is_visit(node) {
        return Ok(Spans::new(alloc));
    }
    allowed_at(alloc, model, vehicle.d, vehicle.v, StopName::Visit(node))
}
