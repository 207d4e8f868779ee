//! A round: one more on each used arc of the greatest worth.

ghost use Rattle.std.specs.Prelude.{◌≡◌, ◌<◌, ◌+◌, ◌*◌, ℕ, false, IsTrue, List};
ghost use Rattle.vr_guided.specs.Counts.{AreUpTo, AtMost, counted};
ghost use Rattle.vr_guided.specs.Sparing.{SparesKnown};
ghost use Rattle.vr_guided.specs.Worths.{greatest_worth, raised_in_turn, raised_once, worth_of, worthless};
ghost use Rattle.vr_known.specs.Blocks.{AreSettled, Learns, is_known};
ghost use Rattle.vr_model.specs.declared.neighbours.Neighbourhood.{Neighbourhood as Kind};
ghost use Rattle.vr_model.specs.search.GuidedSearches.{has_costly_arc, raised, Penalties as Raised};
ghost use Rattle.vr_model.specs.routes.Routes.{arcs_of, route, used_arcs};
ghost use Rattle.vr_model.specs.routes.Rules.{is_valid};

use crate::penalties::Penalties;
use crate::vehicle_list::VehicleList;
use crate::worths::Worth;
use vr_known::Known;
use vr_model::Closed;
use vr_routes::Routes;

impl Penalties {
    /// One more on each used arc of the greatest worth: its cost over one more than its penalty. Moves that name a
    /// vehicle whose arcs were raised are known no more, nor are moves of a pair that such a vehicle serves. Takes no
    /// memory.
    pub fn raise(&mut self, closed: Closed<'_>, routes: &Routes, known: &mut Known)
        requires valid { IsTrue (is_valid closed.model.now routes.now.lists) }
        requires costly { IsTrue (has_costly_arc closed.model.now routes.now.lists) }
        requires counts { AreUpTo closed.model.now.nodes 1000000000 self.old }
        ensures nodes { self.new.nodes ≡ self.old.nodes }
        ensures raised { counted self.new ≡ raised closed.entry.model.now (counted self.old) routes.now.lists }
        ensures fewer { (k : Kind) (u w : ℕ) → IsTrue (is_known known.new k u w) → IsTrue (is_known known.old k u w) }
        ensures spares { SparesKnown routes.now.lists (counted self.old) (counted self.new) known.new }
        ensures settled { AreSettled closed.entry.model.now routes.now.lists known.new }
        ensures learns { Learns known.new → Learns known.old }
    {
        let greatest = self.greatest(closed, routes);
        for vehicle in 0..closed.model.vehicles.len() as u32 {
            let list = VehicleList {
                closed,
                vehicle,
                nodes: routes.list(vehicle),
            };
            self.raise_vehicle(&list, &greatest, known);
        }
        known.settle(closed.model, routes);
    }

    // One more on each arc of a vehicle that is worth as much as the greatest. If there is one, no move is known any
    // more that names the vehicle. Moves of pairs that it serves are forgotten after all vehicles (`settle`). So if a
    // row was refused after two vehicles last changed, no arc was raised between nodes that are in no other list. This
    // holds after each vehicle if it held before (`spares`). A count is at most 10^9 before a round, since no more
    // moves are tried. A round goes over at most 1001 arcs of each vehicle.
    fn raise_vehicle(&mut self, list: &VehicleList<'_, '_>, greatest: &Worth, known: &mut Known)
        requires counts { AreUpTo list.now.closed.model.now.nodes (1000000000 + 1001 * list.now.vehicle) self.old }
        ensures covers { self.new.nodes ≡ self.old.nodes }
        ensures few { AtMost (1000000000 + 1001 * (list.now.vehicle + 1)) (counted self.new) }
        ensures raised { counted self.new
            ≡ raised_in_turn list.now.closed.model.now greatest.now (counted self.old)
            (arcs_of list.now.closed.model.now list.now.vehicle list.now.nodes.now) }
        ensures fewer { (k : Kind) (u w : ℕ) → IsTrue (is_known known.new k u w) → IsTrue (is_known known.old k u w) }
        ensures spares { (lists : List (List ℕ)) (first : Raised) → list.now.nodes.now ≡ route lists list.now.vehicle
            → SparesKnown lists first (counted self.old) known.old
            → SparesKnown lists first (counted self.new) known.new }
        ensures learns { Learns known.new → Learns known.old }
    {
        if self.raise_route(list, greatest) {
            known.forget(list.vehicle);
        }
    }

    // The greatest worth of the used arcs.
    fn greatest(&self, closed: Closed<'_>, routes: &Routes) -> Worth
        requires valid { IsTrue (is_valid closed.model.now routes.now.lists) }
        requires covers { self.now.nodes ≡ closed.model.now.nodes }
        ensures { result
            ≡ greatest_worth (worth_of closed.entry.model.now (counted self.now)) worthless
            (used_arcs closed.entry.model.now routes.now.lists) }
    {
        let mut best = Worth {
            cost: 0,
            penalty: 0,
        };
        for vehicle in 0..closed.model.vehicles.len() as u32 {
            let list = VehicleList {
                closed,
                vehicle,
                nodes: routes.list(vehicle),
            };
            best = self.greatest_in(&list, best);
        }
        best
    }

    // The greatest worth so far and of the arcs of a vehicle.
    fn greatest_in(&self, list: &VehicleList<'_, '_>, so_far: Worth) -> Worth
        requires { self.now.nodes ≡ list.now.closed.model.now.nodes }
        ensures { result
            ≡ greatest_worth (worth_of list.now.closed.model.now (counted self.now)) so_far
            (arcs_of list.now.closed.model.now list.now.vehicle list.now.nodes.now) }
    {
        let nodes = list.nodes;
        if nodes.is_empty() {
            return so_far;
        }
        let ends = list.closed.model.vehicles.get(list.vehicle as usize);
        let mut best = so_far;
        let mut at = ends.start;
        for &node in nodes {
            best = best.or_greater(self.worth(list, at, node));
            at = node;
        }
        best.or_greater(self.worth(list, at, ends.end))
    }

    // What an arc of a vehicle is worth.
    #[inline]
    fn worth(&self, list: &VehicleList<'_, '_>, origin: u32, target: u32) -> Worth
        requires origin { origin < list.now.closed.model.now.nodes }
        requires target { target < list.now.closed.model.now.nodes }
        requires covers { self.now.nodes ≡ list.now.closed.model.now.nodes }
        ensures { result
            ≡ worth_of list.now.closed.model.now (counted self.now)
            (record { vehicle = list.now.vehicle; origin = origin; target = target }) }
    {
        Worth {
            cost: list.closed.model.arc_cost(list.vehicle, origin, target),
            penalty: self.at(origin, target),
        }
    }

    // One more on each arc of a vehicle that is worth as much as the greatest; whether there was one.
    fn raise_route(&mut self, list: &VehicleList<'_, '_>, greatest: &Worth) -> bool
        requires counts { AreUpTo list.now.closed.model.now.nodes (1000000000 + 1001 * list.now.vehicle) self.old }
        ensures covers { self.new.nodes ≡ self.old.nodes }
        ensures few { AtMost (1000000000 + 1001 * (list.now.vehicle + 1)) (counted self.new) }
        ensures raised { counted self.new
            ≡ raised_in_turn list.now.closed.model.now greatest.now (counted self.old)
            (arcs_of list.now.closed.model.now list.now.vehicle list.now.nodes.now) }
        ensures same { result ≡ false → counted self.new ≡ counted self.old }
    {
        let nodes = list.nodes;
        if nodes.is_empty() {
            return false;
        }
        let ends = list.closed.model.vehicles.get(list.vehicle as usize);
        let mut at = ends.start;
        let mut any = false;
        for &node in nodes {
            any |= self.raise_arc(list, at, node, greatest);
            at = node;
        }
        // no `||`: the last arc is raised also if another one was
        any | self.raise_arc(list, at, ends.end, greatest)
    }

    // One more on an arc of a vehicle if it is worth as much as the greatest; whether it is.
    #[inline]
    fn raise_arc(
        &mut self,
        list: &VehicleList<'_, '_>,
        origin: u32,
        target: u32,
        greatest: &Worth,
    ) -> bool
        requires origin { origin < list.now.closed.model.now.nodes }
        requires target { target < list.now.closed.model.now.nodes }
        requires counts { AreUpTo list.now.closed.model.now.nodes 2000000000 self.old }
        ensures covers { self.new.nodes ≡ self.old.nodes }
        ensures raised { counted self.new
            ≡ raised_once list.now.closed.model.now greatest.now (counted self.old)
            (record { vehicle = list.now.vehicle; origin = origin; target = target }) }
        ensures same { result ≡ false → counted self.new ≡ counted self.old }
    {
        let worth = self.worth(list, origin, target);
        if greatest.is_no_more(&worth) {
            self.increase(origin, target);
            return true;
        }
        false
    }
}
