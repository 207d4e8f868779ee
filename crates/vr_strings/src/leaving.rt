//! What is left of a route without a string.

ghost use Rattle.std.specs.Prelude.{◌≡◌, ◌+◌, ◌<◌, ◌≤◌, length};
ghost use Rattle.vr_model.specs.routes.Routes.{holds, route};
ghost use Rattle.vr_strings.specs.Strings.{goes_out as goes_out_of, gone_of, left_of_list, takes_place, IsStringIn};

use crate::drawing::StringPlaces;
use vr_lists::NodeTables;
use vr_routes::{Routes, Row};

// Whether a string takes the visit at a place out.
fn takes(string: StringPlaces, place: u32) -> bool
    requires { string.first + string.width ≤ 1000 }
    ensures { result ≡ takes_place string place }
{
    let inside = string.first <= place && place < string.first + string.width;
    match string.stays {
        None => inside,
        Some(stays) => inside && place != stays,
    }
}

// Whether a node is in the list of vehicle `v` and is taken out by a string of it.
fn is_taken(routes: &Routes, v: u32, string: StringPlaces, node: u32) -> bool
    requires vehicle { v < length routes.now.lists }
    requires string { IsStringIn (length (route routes.now.lists v)) string }
    ensures { result ≡ holds (gone_of (route routes.now.lists v) string) node }
{
    let _few = routes.list(v);
    routes.know_once();
    match routes.seat(node) {
        Some(seat) => seat.vehicle == v && takes(string, seat.place),
        None => false,
    }
}

// Whether a node goes: it is taken out, or the other node of its pair is.
fn goes_out(
    nodes: &NodeTables<'_>,
    routes: &Routes,
    v: u32,
    string: StringPlaces,
    node: u32,
) -> bool
    requires vehicle { v < length routes.now.lists }
    requires string { IsStringIn (length (route routes.now.lists v)) string }
    ensures { result ≡ goes_out_of nodes.now (gone_of (route routes.now.lists v) string) node }
{
    match nodes.pair_of(node) {
        None => is_taken(routes, v, string, node),
        Some(pair) => {
            is_taken(routes, v, string, pair.pickup) || is_taken(routes, v, string, pair.delivery)
        }
    }
}

/// Writes what is left of the list of vehicle `v` without a string over a row. The visits of the string go, except the
/// one that stays. The other node of the pair of each that goes does too, also if it is the one that stays.
///
/// Each visit of the list takes the same time, however long the list is. It takes no memory, and the routes stay as
/// they are.
pub fn write_left(
    nodes: &NodeTables<'_>,
    routes: &Routes,
    v: u32,
    string: StringPlaces,
    left: &mut Row,
)
    requires vehicle { v < length routes.now.lists }
    requires string { IsStringIn (length (route routes.now.lists v)) string }
    ensures { left.new ≡ left_of_list nodes.now (route routes.now.lists v) string }
{
    left.clear();
    for &node in routes.list(v) {
        if !goes_out(nodes, routes, v, string, node) {
            left.push(node);
        }
    }
}
