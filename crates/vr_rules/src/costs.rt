//! What lists cost by their arcs and for the use of their vehicles.

ghost use Rattle.std.specs.Prelude.{◌≡◌, ◌<◌, ◌≤◌, ◌*◌, ◌^◌, ◌≤ℤ◌, IsTrue, pos, All, length, if◌then◌else◌};
ghost use Rattle.vr_model.specs.routes.Costs.{arcs_part, fixed_part, sum_of};
ghost use Rattle.vr_model.specs.routes.Routes.{are_lists, is_empty, route_cost};
ghost use Rattle.vr_model.specs.tables.Tables.{vehicle_at};
ghost use Rattle.vr_rules.specs.Totals.{HasTotal};

use vr_model::{Closed, Parts};
use vr_routes::Routes;

/// The costs of the arcs that a vehicle takes with a list, added up. A list of 1000 visits has 1001 arcs, an empty one
/// none, not even from the start to the end. It takes no memory. `vr_ruin` asks it of one list, `cost` of all.
pub fn arcs_of_route(closed: Closed<'_>, vehicle: u32, list: &[u32]) -> i64
    requires vehicle { vehicle < length closed.model.now.vehicles }
    requires nodes { All (λ node. node < closed.model.now.nodes) list.now }
    requires few { length list.now ≤ 1000 }
    ensures value { result ≡ route_cost closed.entry.model.now vehicle list.now }
    ensures low { pos 0 ≤ℤ result }
    ensures high { result ≤ℤ pos (2 ^ 40 * 1001) }
{
    if list.is_empty() {
        return 0;
    }
    let ends = closed.model.vehicles.get(vehicle as usize);
    let mut at = ends.start;
    let mut total = 0;
    for &node in list {
        total += closed.model.arc_cost(vehicle, at, node);
        at = node;
    }
    total + closed.model.arc_cost(vehicle, at, ends.end)
}

// What the use of a vehicle costs with these visits: nothing if there are none.
fn fixed_of_route(closed: Closed<'_>, vehicle: u32, visits: &[u32]) -> i64
    requires vehicle { vehicle < length closed.model.now.vehicles }
    ensures value { result ≡ (if is_empty visits.now then pos 0 else
        (vehicle_at closed.entry.model.now vehicle).fixed) }
    ensures low { pos 0 ≤ℤ result }
    ensures high { result ≤ℤ pos (2 ^ 40) }
{
    if visits.is_empty() {
        0
    } else {
        closed.model.vehicles.get(vehicle as usize).fixed
    }
}

// The arcs part of the cost of routes.
pub(crate) fn arcs_of_routes(closed: Closed<'_>, routes: &Routes) -> i64
    requires { IsTrue (are_lists closed.model.now routes.now.lists) }
    ensures value { result ≡ arcs_part closed.entry.model.now routes.now.lists }
    ensures low { pos 0 ≤ℤ result }
    ensures high { result ≤ℤ pos (2 ^ 40 * 1001 * 100) }
{
    let mut total = 0;
    for vehicle in 0..routes.vehicles() {
        total += arcs_of_route(closed, vehicle, routes.list(vehicle));
    }
    total
}

// The fixed part of the cost of routes.
pub(crate) fn fixed_of_routes(closed: Closed<'_>, routes: &Routes) -> i64
    requires { IsTrue (are_lists closed.model.now routes.now.lists) }
    ensures value { result ≡ fixed_part closed.entry.model.now routes.now.lists }
    ensures low { pos 0 ≤ℤ result }
    ensures high { result ≤ℤ pos (2 ^ 40 * 100) }
{
    let mut total = 0;
    for vehicle in 0..routes.vehicles() {
        total += fixed_of_route(closed, vehicle, routes.list(vehicle));
    }
    total
}

/// The cost: the sum of its parts, which is not negative and below 2^63.
pub fn total_cost(parts: &Parts) -> i64
    requires { HasTotal parts.now }
    ensures { result ≡ sum_of parts.now }
{
    parts.arcs + parts.fixed + parts.global + parts.penalty + parts.soft + parts.span
}
