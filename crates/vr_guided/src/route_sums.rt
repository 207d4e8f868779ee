//! The sums of all vehicles with their lists.

ghost use Rattle.std.specs.Prelude.{◌≡◌, ◌<◌, ℕ, IfOk, IsTrue, List, length, slice_index_or};
ghost use Rattle.vr_guided.specs.Counts.{counted};
ghost use Rattle.vr_guided.specs.RouteSums.{AreAllRouteSums, AreRouteSums, IsWritten, no_route_sums};
ghost use Rattle.vr_model.specs.moves.Moves.{apply};
ghost use Rattle.vr_model.specs.routes.Rules.{is_valid};

use crate::sums::Sums;
use crate::weights::{ListWeights, VehicleWeights, Weights};
use std::alloc::Global;
use std::marker::Model;
use vr_known::Touched;
use vr_model::{Model as RoutingModel, Move, NoMemory};
use vr_routes::Routes;

/// What the arcs of one vehicle add up to before each stop, taken forward and back, and what they add at most.
#[derive(Drop)]
pub struct RouteSums {
    /// Along its list from the start.
    pub forward: Sums,
    /// From the start on too, of each arc as it is taken back, from its target to its origin.
    pub back: Sums,
    /// The most that one arc of its list adds, forward.
    pub most_at_gap: i128,
    /// The most that two arcs add that follow one another, those at one visit.
    pub most_at_place: i128,
}

impl RouteSums {
    // Of no list.
    fn new() -> RouteSums {
        RouteSums {
            forward: Sums::new(),
            back: Sums::new(),
            most_at_gap: 0,
            most_at_place: 0,
        }
    }

    // Becomes that of a vehicle with a list.
    fn write(&mut self, list: &ListWeights<'_, '_, '_>)
        ensures { AreRouteSums list.now.arcs.weights.closed.model.now (counted list.now.arcs.weights.penalties.now)
            list.now.arcs.vehicle list.now.nodes.now self.new }
    {
        self.forward.write(list, false);
        self.back.write(list, true);
        let stops = list.nodes.len() + 2;
        self.most_at_gap = self.forward.most_over(stops, 1);
        self.most_at_place = self.forward.most_over(stops, 2);
    }
}

/// The sums of each vehicle. With them the penalised arc costs of a stretch of a list are one subtraction.
#[derive(Drop)]
pub struct AllRouteSums {
    vehicles: Vec<RouteSums>,
}

impl Model for AllRouteSums {
    ghost use Rattle.std.specs.Prelude.{List};
    ghost use Rattle.vr_guided.specs.declared.route_sums.RouteSums.{RouteSums};

    ghost Value = { List RouteSums };

    ghost view = { λ s. s.vehicles.items };
}

impl AllRouteSums {
    /// Memory for the sums of each vehicle. It fails only when out of memory.
    pub fn new(alloc: Global, model: &RoutingModel) -> Result<AllRouteSums, NoMemory>
        ensures { IfOk result (λ route_sums. length route_sums ≡ length model.now.vehicles) }
    {
        let mut vehicles = Vec::with_capacity(alloc, model.vehicles.len())?;
        for _ in 0..model.vehicles.len() {
            vehicles.push(RouteSums::new())?;
        }
        Ok(AllRouteSums { vehicles })
    }

    /// Becomes those of the lists of routes. Takes no memory.
    pub fn write(&mut self, weights: Weights<'_, '_>, routes: &Routes)
        requires valid { IsTrue (is_valid weights.closed.model.now routes.now.lists) }
        requires many { length self.old ≡ length weights.closed.model.now.vehicles }
        ensures { AreAllRouteSums weights.entry.closed.model.now (counted weights.entry.penalties.now) routes.now.lists
            self.new }
    {
        for v in 0..weights.closed.model.vehicles.len() as u32 {
            self.write_of(weights, routes, v);
        }
    }

    // Writes the sums of one vehicle with its list, if there is such a vehicle.
    fn write_of(&mut self, weights: Weights<'_, '_>, routes: &Routes, v: u32)
        requires valid { IsTrue (is_valid weights.closed.model.now routes.now.lists) }
        requires many { length self.old ≡ length weights.closed.model.now.vehicles }
        ensures { IsWritten weights.entry.closed.model.now (counted weights.entry.penalties.now) routes.now.lists v
            self.old self.new }
    {
        if (v as usize) < weights.closed.model.vehicles.len() {
            let arcs = VehicleWeights {
                weights,
                vehicle: v,
            };
            let list = ListWeights {
                arcs,
                nodes: routes.list(v),
            };
            self.vehicles[v as usize].write(&list);
        }
    }

    /// If these are the sums of the lists before a move, they become those of `routes`, which has made it. Takes no
    /// memory.
    pub fn follow(&mut self, weights: Weights<'_, '_>, routes: &Routes, mv: Move)
        requires valid { IsTrue (is_valid weights.closed.model.now routes.now.lists) }
        requires many { length self.old ≡ length weights.closed.model.now.vehicles }
        ensures { (lists : List (List ℕ))
            → AreAllRouteSums weights.entry.closed.model.now (counted weights.entry.penalties.now) lists self.old
            → routes.now.lists ≡ apply weights.entry.closed.model.now lists mv
            → AreAllRouteSums weights.entry.closed.model.now (counted weights.entry.penalties.now) routes.now.lists
            self.new }
    {
        // none if a pair was taken out or put elsewhere: the move does not name the list that it left, nor do `routes`
        // any more
        let Some(touched) = Touched::named(mv) else {
            self.write(weights, routes);
            return;
        };
        self.write_of(weights, routes, touched.first);
        if touched.second == touched.first {
            return;
        }
        self.write_of(weights, routes, touched.second);
    }

    /// The sums of a vehicle.
    #[inline]
    pub fn of(&self, v: u32) -> &RouteSums
        requires vehicle { v < length self.now }
        ensures { result.now ≡ slice_index_or self.now v no_route_sums }
    {
        &self.vehicles[v as usize]
    }
}
