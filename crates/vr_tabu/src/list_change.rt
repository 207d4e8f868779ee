//! What a change makes of the list of one vehicle.

ghost use Rattle.std.specs.Prelude.{◌≡◌, ◌<◌, IsTrue, length};
ghost use Rattle.vr_model.specs.routes.Routes.{is_distinct, route};
ghost use Rattle.vr_tabu.specs.Changed.{is_changed_in, node_just_before};

use crate::written_list::{WrittenList, node_before_place};
use std::marker::Model;
use vr_routes::Routes;

/// The list of a vehicle before and after a change. Contracts see both, and the start of the vehicle.
#[derive(Drop)]
pub struct ListChange<'r, 'a> {
    pub routes: &'r Routes,
    pub vehicle: u32,
    pub start: u32,
    pub after: &'a WrittenList,
}

impl<'r, 'a> Model for ListChange<'r, 'a> {
    ghost use Rattle.vr_model.specs.routes.Routes.{route};
    ghost use Rattle.vr_tabu.specs.Parts.{IsListChange, OldAndNew};

    ghost Value = { OldAndNew };

    ghost view = { λ c. record { start = c.start; old = route c.routes.now.lists c.vehicle; new = c.after.now } };

    ghost invariant = { λ c. IsListChange c.routes.now.lists c.vehicle c.after.now };
}

impl<'r, 'a> ListChange<'r, 'a> {
    /// Whether a visit is changed in the list: it comes or goes, or the node just before it is another.
    #[inline]
    pub fn changes(&self, visit: u32) -> bool
        ensures { result ≡ is_changed_in self.now.start self.now.old self.now.new visit }
    {
        let before = node_before(self.routes, self.vehicle, self.start, visit);
        let after = self.after.node_before(self.start, visit);
        before != after
    }

    /// The visits before the change.
    #[inline]
    pub fn old_visits(&self) -> &[u32]
        ensures { result.now ≡ self.now.old }
    {
        self.routes.list(self.vehicle)
    }

    /// The visits after it.
    #[inline]
    pub fn new_visits(&self) -> &[u32]
        ensures { result.now ≡ self.now.new }
    {
        self.after.as_slice()
    }
}

// The node just before a visit in the list of a vehicle, which begins after `origin`; none if the visit is not in it.
#[inline]
fn node_before(routes: &Routes, v: u32, origin: u32, visit: u32) -> Option<u32>
    requires vehicle { v < length routes.now.lists }
    requires distinct { IsTrue (is_distinct (route routes.now.lists v)) }
    ensures { result ≡ node_just_before origin (route routes.now.lists v) visit }
{
    // it does nothing: contracts learn that the visit is nowhere else
    routes.know_once();
    match routes.seat(visit) {
        None => None,
        Some(seat) => {
            if seat.vehicle != v {
                return None;
            }
            Some(node_before_place(routes.list(v), origin, seat.place))
        }
    }
}
