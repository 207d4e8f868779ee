//! The rules on the printed nodes: ends, and that no visit comes twice.

ghost use Rattle.std.specs.Prelude.{◌≡◌, ◌<◌, ◌≤◌, length};
ghost use Rattle.vr_model.specs.tables.Limits.{most_vehicles};
ghost use Rattle.vr_check.specs.Lists as rules;
ghost use Rattle.vr_check.specs.Lists.{ends_broken, ends_broken_of, once_broken, once_broken_of};

use crate::finding::Spot;
use crate::held::{holds, is_active};
use vr_model::{Closed, Model, Seq};
use vr_printed::PrintedRoute;

// Whether the node at a place of a route is one that may be there.
fn is_right_node(model: &Model, vehicle: usize, nodes: &[u32], k: usize) -> bool
    requires vehicle { vehicle < length model.now.vehicles }
    requires place { k < length nodes.now }
    ensures { result ≡ rules.is_right_node model.now vehicle nodes.now k }
{
    let node = nodes[k];
    if k == 0 {
        node == model.vehicles.get(vehicle).start
    } else if k + 1 == nodes.len() {
        node == model.vehicles.get(vehicle).end
    } else {
        model.is_visit(node)
    }
}

// The first place of a route at which another node should be.
fn wrong_node(closed: Closed<'_>, vehicle: usize, nodes: &[u32]) -> Option<Spot>
    requires { vehicle < length closed.model.now.vehicles }
    ensures { result ≡ ends_broken_of closed.entry.model.now vehicle nodes.now }
{
    let model = closed.model;
    for k in 0..nodes.len() {
        if !is_right_node(model, vehicle, nodes, k) {
            return Some(Spot::at(vehicle, k));
        }
    }
    None
}

/// The first spot at which a route does not begin at its start or end at its end, or another entry is no visit.
pub(crate) fn wrong_ends(closed: Closed<'_>, routes: &[PrintedRoute]) -> Option<Spot>
    requires { length routes.now ≤ length closed.model.now.vehicles }
    ensures { result ≡ ends_broken closed.entry.model.now routes.now }
{
    for v in 0..routes.len() {
        let spot = wrong_node(closed, v, routes[v].nodes.as_slice());
        if spot.is_some() {
            return spot;
        }
    }
    None
}

// Whether the visit at a place is in an earlier list, or earlier in its list.
fn stands_before(lists: &[Seq<u32>], vehicle: usize, list: &[u32], k: usize) -> bool
    requires vehicle { vehicle < length lists.now }
    requires place { k < length list.now }
    ensures { result ≡ rules.stands_before lists.now vehicle list.now k }
{
    is_active(&lists[..vehicle], list[k]) || holds(&list[..k], list[k])
}

// The first place of a list whose visit came earlier.
fn repeated_visit(lists: &[Seq<u32>], vehicle: usize, list: &[u32]) -> Option<Spot>
    requires vehicle { vehicle < length lists.now }
    requires few { length lists.now ≤ most_vehicles }
    ensures { result ≡ once_broken_of lists.now vehicle list.now }
{
    for k in 0..list.len() {
        if stands_before(lists, vehicle, list, k) {
            return Some(Spot::at(vehicle, k + 1));
        }
    }
    None
}

/// The spot of the first visit that came earlier.
pub(crate) fn repeated(lists: &[Seq<u32>]) -> Option<Spot>
    requires few { length lists.now ≤ most_vehicles }
    ensures { result ≡ once_broken lists.now }
{
    for v in 0..lists.len() {
        let spot = repeated_visit(lists, v, lists[v].as_slice());
        if spot.is_some() {
            return spot;
        }
    }
    None
}
