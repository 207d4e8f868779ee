//! What arcs add with their penalties.

ghost use Rattle.std.specs.Prelude.{◌≡◌, ◌<◌, ◌≤◌, ◌≤ℤ◌, ◌*ℤ◌, ◌^◌, length, pos, true};
ghost use Rattle.vr_guided.specs.Counts.{AtMost, counted};
ghost use Rattle.vr_guided.specs.Lists.{AreFewNodes};
ghost use Rattle.vr_guided.specs.Sums.{weight_by};
ghost use Rattle.vr_guided.specs.Walks.{unused_weight, arc_weight};
ghost use Rattle.vr_model.specs.tables.Tables.{vehicle_at};
ghost use Rattle.vr_model.specs.tables.WellFormed.{IsIn};

use crate::penalties::Penalties;
use vr_model::Closed;

/// The arcs of a model with their penalties. What an arc adds is its cost times its penalty.
#[derive(Clone, Copy)]
pub struct Weights<'m, 'p> {
    pub closed: Closed<'m>,
    pub penalties: &'p Penalties,
    /// There is a count for each arc of the model.
    pub ghost covers: { penalties.now.nodes ≡ closed.model.now.nodes },
    /// None was penalised more than 10^9 times.
    pub ghost few: { AtMost 1000000000 (counted penalties.now) },
}

/// The same of one vehicle.
#[derive(Clone, Copy)]
pub struct VehicleWeights<'m, 'p> {
    /// Those of all vehicles.
    pub weights: Weights<'m, 'p>,
    pub vehicle: u32,
    /// The model has it.
    pub ghost there: { vehicle < length weights.closed.model.now.vehicles },
}

/// The nodes at which a vehicle starts and ends.
#[derive(Clone, Copy)]
pub struct VehicleEnds {
    pub start: u32,
    pub end: u32,
}

/// The weights of a vehicle with a list, of at most 1000 nodes.
#[derive(Clone, Copy)]
pub struct ListWeights<'m, 'p, 'r> {
    pub arcs: VehicleWeights<'m, 'p>,
    pub nodes: &'r [u32],
    /// The model has the nodes, and they are few.
    pub ghost few: { AreFewNodes arcs.weights.closed.model.now nodes.now },
}

impl<'m, 'p> VehicleWeights<'m, 'p> {
    /// The start and the end of the vehicle.
    #[inline]
    pub fn ends(&self) -> VehicleEnds
        ensures start { result.start ≡ (vehicle_at self.now.weights.closed.model.now self.now.vehicle).start }
        ensures end { result.end ≡ (vehicle_at self.now.weights.closed.model.now self.now.vehicle).end }
        ensures start_below { result.start < self.now.weights.closed.model.now.nodes }
        ensures end_below { result.end < self.now.weights.closed.model.now.nodes }
    {
        let model = self.weights.closed.model;
        let vehicle = model.vehicles.get(self.vehicle as usize);
        VehicleEnds {
            start: vehicle.start,
            end: vehicle.end,
        }
    }

    /// Whether another vehicle has the same arc costs.
    #[inline]
    pub fn has_costs_of(&self, v: u32) -> bool
        requires { v < length self.now.weights.closed.model.now.vehicles }
        ensures { result ≡ true → (vehicle_at self.now.weights.closed.model.now v).costs
            ≡ (vehicle_at self.now.weights.closed.model.now self.now.vehicle).costs }
    {
        let vehicles = &self.weights.closed.model.vehicles;
        vehicles.get(v as usize).costs == vehicles.get(self.vehicle as usize).costs
    }

    /// What an arc adds: its cost times its penalty. Most arcs have none, and then the cost is not looked up.
    #[inline]
    pub fn weight(&self, origin: u32, target: u32) -> i128
        requires origin { origin < self.now.weights.closed.model.now.nodes }
        requires target { target < self.now.weights.closed.model.now.nodes }
        ensures value { result ≡ arc_weight self.now.weights.closed.model.now (counted self.now.weights.penalties.now)
            (record { vehicle = self.now.vehicle; origin = origin; target = target }) }
        ensures low { pos 0 ≤ℤ result }
        ensures high { result ≤ℤ pos (2 ^ 70) }
    {
        let penalty = self.weights.penalties.at(origin, target);
        if penalty == 0 {
            return 0;
        }
        let model = self.weights.closed.model;
        times(penalty, model.arc_cost(self.vehicle, origin, target))
    }

    /// What an arc adds that is taken forward, or back from its target to its origin.
    #[inline]
    pub fn weight_by(&self, origin: u32, target: u32, back: bool) -> i128
        requires origin { origin < self.now.weights.closed.model.now.nodes }
        requires target { target < self.now.weights.closed.model.now.nodes }
        ensures value { result ≡ weight_by self.now.weights.closed.model.now
            (counted self.now.weights.penalties.now) back
            (record { vehicle = self.now.vehicle; origin = origin; target = target }) }
        ensures range { IsIn (pos 0) (pos (2 ^ 70)) result }
    {
        if back {
            self.weight(target, origin)
        } else {
            self.weight(origin, target)
        }
    }

    /// If a list has no visits, what the arc from start to end would add, which is not taken then; else 0. `len` says
    /// how many visits it has.
    #[inline]
    pub fn unused(&self, len: u32) -> i128
        ensures low { pos 0 ≤ℤ result }
        ensures high { result ≤ℤ pos (2 ^ 70) }
        ensures value { result
            ≡ unused_weight self.now.weights.closed.model.now (counted self.now.weights.penalties.now) self.now.vehicle
            len }
    {
        if len > 0 {
            return 0;
        }
        let model = self.weights.closed.model;
        let vehicle = model.vehicles.get(self.vehicle as usize);
        self.weight(vehicle.start, vehicle.end)
    }
}

// A penalty times a cost.
#[inline]
fn times(penalty: u32, cost: i64) -> i128
    requires few { penalty ≤ 1000000000 }
    requires cost { IsIn (pos 0) (pos (2 ^ 40)) cost }
    ensures value { result ≡ pos penalty *ℤ cost }
    ensures low { pos 0 ≤ℤ result }
    ensures high { result ≤ℤ pos (2 ^ 70) }
{
    penalty as i128 * cost as i128
}
