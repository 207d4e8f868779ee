//! What is kept of the lists of vehicles in a dimension that is a load.

ghost use Rattle.std.specs.Prelude.{◌≡◌, ◌<◌, ◌≤◌, ◌≤ℤ◌, ◌-ℤ◌, ◌^◌, ℕ, List, pos, All, IfOk, length};
ghost use Rattle.vr_model.specs.tables.Numbers.{number_at};
ghost use Rattle.vr_model.specs.tables.Tables.{dimension_at, evaluator_number, vehicle_at};
ghost use Rattle.vr_model.specs.routes.Routes.{route};
ghost use Rattle.vr_model.specs.moves.Moves.{with_route};
ghost use Rattle.vr_routes.specs.Pieces.{joined, nodes_of, IsWithin};
ghost use Rattle.vr_loads.specs.Loads.{HasLoad, can_carry, taken, value_of};
ghost use Rattle.vr_loads.specs.Kept.{AreCarried, IsTotalAlong, IsCarried};

use crate::sums::{sum_of, value, write_sums};
use std::alloc::Global;
use std::marker::Model;
use vr_balance::Sums;
use vr_model::{Model as RoutingModel, NoMemory};
use vr_routes::{Piece, Routes};

/// What is kept of one vehicle.
#[derive(Drop)]
pub struct Carried {
    /// The number of its evaluator.
    pub evaluator: u32,
    /// How much it may take along its list: its capacity, less what it takes at its start. Below 0 it can have the
    /// empty list alone.
    pub room: i64,
    /// What it takes before each place of its list.
    pub sums: Sums,
}

impl Carried {
    // Of no vehicle.
    fn new() -> Carried {
        Carried {
            evaluator: 0,
            room: 0,
            sums: Sums::new(),
        }
    }

    // Becomes that of vehicle `v` with a list.
    fn write(&mut self, model: &RoutingModel, d: u32, v: u32, list: &[u32])
        requires load { HasLoad model.now d }
        requires vehicle { v < length model.now.vehicles }
        requires nodes { All (λ node. node < model.now.nodes) list.now }
        requires few { length list.now ≤ 1000 }
        ensures { IsCarried model.now d v list.now self.new }
    {
        let dimension = model.dimensions.get(d as usize);
        let evaluator = *dimension.vehicle_evaluators.get(v as usize);
        let start = model.vehicles.get(v as usize).start;
        let capacity = *dimension.capacities.get(v as usize);
        self.evaluator = evaluator;
        self.room = capacity - value(model, d, evaluator, start);
        write_sums(model, d, evaluator, list, &mut self.sums);
    }
}

/// What is kept of the lists of all vehicles in a dimension that is a load: sums of what they take. If the vehicles of
/// a change have the same evaluator, judging it takes a time that does not depend on how long the lists are.
#[derive(Drop)]
pub struct Loads {
    vehicles: Vec<Carried>,
}

impl Model for Loads {
    ghost use Rattle.std.specs.Prelude.{List};
    ghost use Rattle.vr_loads.specs.declared.loads.Carried.{Carried};

    ghost Value = { List Carried };

    ghost view = { λ s. s.vehicles.items };
}

impl Loads {
    /// The sums of the lists of routes in dimension `d`. It fails only when out of memory.
    pub fn open(
        alloc: Global,
        model: &RoutingModel,
        d: u32,
        routes: &Routes,
    ) -> Result<Loads, NoMemory>
        requires load { HasLoad model.now d }
        requires many { length routes.now.lists ≡ length model.now.vehicles }
        requires nodes { (v : ℕ) → v < length routes.now.lists
            → All (λ node. node < model.now.nodes) (route routes.now.lists v) }
        ensures { IfOk result (λ loads. AreCarried model.now d routes.now.lists loads) }
    {
        let mut vehicles = Vec::with_capacity(alloc, routes.vehicles() as usize)?;
        for v in 0..routes.vehicles() {
            let mut carried = Carried::new();
            carried.write(model, d, v, routes.list(v));
            vehicles.push(carried)?;
        }
        Ok(Loads { vehicles })
    }

    /// Vehicle `v` has another list.
    pub fn put(&mut self, model: &RoutingModel, d: u32, v: u32, list: &[u32])
        requires load { HasLoad model.now d }
        requires vehicle { v < length model.now.vehicles }
        requires kept { v < length self.old }
        requires nodes { All (λ node. node < model.now.nodes) list.now }
        requires few { length list.now ≤ 1000 }
        ensures { (lists : List (List ℕ)) → AreCarried model.now d lists self.old
            → AreCarried model.now d (with_route lists v list.now) self.new }
    {
        self.vehicles[v as usize].write(model, d, v, list);
    }

    /// Whether vehicle `v` can carry what it takes with the list that pieces are joined to.
    #[inline]
    pub fn can_carry(
        &self,
        model: &RoutingModel,
        d: u32,
        routes: &Routes,
        v: u32,
        pieces: &[Piece],
    ) -> bool
        requires load { HasLoad model.now d }
        requires many { length routes.now.lists ≡ length model.now.vehicles }
        requires carried { AreCarried model.now d routes.now.lists self.now }
        requires vehicle { v < length routes.now.lists }
        requires within { All (IsWithin routes.now.lists) pieces.now }
        requires few { length pieces.now ≤ 8 }
        requires nodes { All (λ node. node < model.now.nodes) (joined routes.now.lists pieces.now) }
        ensures { result ≡ can_carry model.now d v (joined routes.now.lists pieces.now) }
    {
        let evaluator = self.vehicles[v as usize].evaluator;
        let mut sum = 0;
        for k in 0..pieces.len() {
            sum += self.along(model, d, routes, evaluator, pieces[k]);
        }
        if sum <= self.vehicles[v as usize].room {
            return true;
        }
        // a vehicle that is not used takes nothing, even if it would take too much at its start
        Piece::nodes_in(pieces) == 0
    }

    // What an evaluator gives for the nodes of a piece, added up: by one subtraction if the sums are kept by it.
    #[inline]
    fn along(
        &self,
        model: &RoutingModel,
        d: u32,
        routes: &Routes,
        evaluator: u32,
        piece: Piece,
    ) -> i64
        requires load { HasLoad model.now d }
        requires carried { AreCarried model.now d routes.now.lists self.now }
        requires evaluator { evaluator < length (dimension_at model.now d).evaluators }
        requires within { IsWithin routes.now.lists piece }
        requires nodes { All (λ node. node < model.now.nodes) (nodes_of routes.now.lists piece) }
        ensures { IsTotalAlong (value_of model.now d evaluator) (nodes_of routes.now.lists piece) result }
    {
        match piece {
            Piece::Node { node } => value(model, d, evaluator, node),
            Piece::Chain {
                vehicle,
                from,
                to,
                ..
            } => {
                let other = &self.vehicles[vehicle as usize];
                if other.evaluator == evaluator {
                    return other.sums.between(from, to);
                }
                let list = routes.list(vehicle);
                sum_of(model, d, evaluator, &list[from as usize..to as usize])
            }
        }
    }
}
