//! The arc costs of a vehicle, of which the table is looked up once for many arcs.

ghost use Rattle.std.specs.Prelude.{◌≡◌, ◌<◌, ◌≤ℤ◌, ◌^◌, length, pos};
ghost use Rattle.vr_model.specs.tables.Tables.{arc_cost, matrix_at, vehicle_at};
ghost use Rattle.vr_model.specs.tables.WellFormed.{IsWellFormed};
ghost use Rattle.vr_model.specs.tables.WellFormedOnce.{IsWellFormed-prop};
ghost use Rattle.vr_arccosts.specs.Chains.{turned};

use vr_model::Model;

/// The arc costs of a vehicle, row by row.
#[derive(Drop)]
pub struct VehicleArcs<'m> {
    pub model: &'m Model,
    pub vehicle: u32,
    pub entries: &'m [i64],
    pub ghost well_formed: { IsWellFormed model.now } by { IsWellFormed-prop model.now },
    pub ghost there: { vehicle < length model.now.vehicles },
    ghost of_vehicle: { entries.now ≡ (matrix_at model.now (vehicle_at model.now vehicle).costs).entries },
}

impl<'m> VehicleArcs<'m> {
    /// The node at which the vehicle starts.
    #[inline(always)]
    pub fn start(&self) -> u32
        ensures value { result ≡ (vehicle_at self.now.model.now self.now.vehicle).start }
        ensures known { result < self.now.model.now.nodes }
    {
        self.model.vehicles.get(self.vehicle as usize).start
    }

    /// The node at which it ends.
    #[inline(always)]
    pub fn end(&self) -> u32
        ensures value { result ≡ (vehicle_at self.now.model.now self.now.vehicle).end }
        ensures known { result < self.now.model.now.nodes }
    {
        self.model.vehicles.get(self.vehicle as usize).end
    }

    /// The cost of the arc from one node to another, in `0..=2^40` (`RoutingModel::GetArcCostForVehicle` in OR-Tools).
    #[inline(always)]
    pub fn cost(&self, i: u32, j: u32) -> i64
        requires origin { i < self.now.model.now.nodes }
        requires target { j < self.now.model.now.nodes }
        ensures value { result ≡ arc_cost self.now.model.now self.now.vehicle i j }
        ensures not_negative { pos 0 ≤ℤ result }
        ensures bound { result ≤ℤ pos (2 ^ 40) }
    {
        self.entries[i as usize * self.model.nodes as usize + j as usize]
    }

    /// The cost of the arc from one node to another, or of the arc back.
    #[inline]
    pub fn turned(&self, back: bool, i: u32, j: u32) -> i64
        requires origin { i < self.now.model.now.nodes }
        requires target { j < self.now.model.now.nodes }
        ensures value { result ≡ turned back (arc_cost self.now.model.now self.now.vehicle) i j }
        ensures not_negative { pos 0 ≤ℤ result }
        ensures bound { result ≤ℤ pos (2 ^ 40) }
    {
        if back {
            self.cost(j, i)
        } else {
            self.cost(i, j)
        }
    }
}
