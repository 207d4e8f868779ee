//! Whether there is an arc that a penalty can make dearer.

ghost use Rattle.std.specs.Prelude.{◌≡◌, IsTrue};
ghost use Rattle.std.specs.List.{list_any};
ghost use Rattle.vr_guided.specs.Guides.{is_costly};
ghost use Rattle.vr_model.specs.search.GuidedSearches.{has_costly_arc};
ghost use Rattle.vr_model.specs.routes.Routes.{arcs_of};
ghost use Rattle.vr_model.specs.routes.Rules.{is_valid};

use crate::vehicle_list::VehicleList;
use vr_model::Closed;
use vr_routes::Routes;

// Whether some arc of a vehicle with a list has a cost above 0.
fn is_route_costly(list: &VehicleList<'_, '_>) -> bool
    ensures { result ≡ list_any (is_costly list.now.closed.model.now)
        (arcs_of list.now.closed.model.now list.now.vehicle list.now.nodes.now) }
{
    let nodes = list.nodes;
    if nodes.is_empty() {
        return false;
    }
    let model = list.closed.model;
    let ends = model.vehicles.get(list.vehicle as usize);
    let mut at = ends.start;
    for &node in nodes {
        if model.arc_cost(list.vehicle, at, node) > 0 {
            return true;
        }
        at = node;
    }
    model.arc_cost(list.vehicle, at, ends.end) > 0
}

/// Whether some used arc has a cost above 0. Takes no memory.
pub fn has_costly_arc(closed: Closed<'_>, routes: &Routes) -> bool
    requires valid { IsTrue (is_valid closed.model.now routes.now.lists) }
    ensures { result ≡ has_costly_arc closed.entry.model.now routes.now.lists }
{
    for vehicle in 0..closed.model.vehicles.len() as u32 {
        let list = VehicleList {
            closed,
            vehicle,
            nodes: routes.list(vehicle),
        };
        if is_route_costly(&list) {
            return true;
        }
    }
    false
}
