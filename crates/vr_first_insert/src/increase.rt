//! What an insertion adds to the arc costs of its vehicle, by the arcs at its places.

ghost use Rattle.std.specs.Prelude.{◌≡◌, ◌<◌, ◌≤◌, ◌^◌, cond, length, neg_ℤ, pos, ◌+ℤ◌, ◌≤ℤ◌};
ghost use Rattle.vr_model.specs.tables.Tables.{arc_cost};
ghost use Rattle.vr_first_insert.specs.Increases.{arc_cost_at as arc_at_of, detour as detour_of};
ghost use Rattle.vr_model.specs.routes.Routes.{is_empty};
ghost use Rattle.vr_first_insert.specs.Increases.{node_before as node_before_of, node_behind as node_behind_of};
ghost use Rattle.vr_first_insert.specs.Increases.{pair_increase as pair_increase_of};
ghost use Rattle.vr_first_insert.specs.Increases.{visit_increase as visit_increase_of};
ghost use Rattle.vr_first_insert.specs.KeptRows.{list_model};

use crate::vehicle_list::LookedUpList;

// The node before a place: the start before the first.
fn node_before(list: &LookedUpList<'_, '_, '_>, t: usize) -> u32
    requires { t ≤ length list.now.nodes.now }
    ensures node { result ≡ node_before_of (list_model list.now) list.now.vehicle list.now.nodes.now t }
    ensures below { result < (list_model list.now).nodes }
{
    let lookups = list.lookups;
    if t == 0 {
        lookups
            .closed
            .model
            .vehicles
            .get(list.vehicle as usize)
            .start
    } else {
        list.nodes[t - 1]
    }
}

// The node at a place; the end after the last.
fn node_behind(list: &LookedUpList<'_, '_, '_>, t: usize) -> u32
    requires { t ≤ length list.now.nodes.now }
    ensures node { result ≡ node_behind_of (list_model list.now) list.now.vehicle list.now.nodes.now t }
    ensures below { result < (list_model list.now).nodes }
{
    let lookups = list.lookups;
    if t < list.nodes.len() {
        list.nodes[t]
    } else {
        lookups.closed.model.vehicles.get(list.vehicle as usize).end
    }
}

// What the arc between two neighbours costs. In an empty list it costs nothing: the vehicle takes no arc.
fn arc_between(list: &LookedUpList<'_, '_, '_>, a: u32, b: u32) -> i64
    requires first { a < (list_model list.now).nodes }
    requires second { b < (list_model list.now).nodes }
    ensures value { result ≡ cond (is_empty list.now.nodes.now) (pos 0)
        (arc_cost (list_model list.now) list.now.vehicle a b) }
    ensures low { pos 0 ≤ℤ result }
    ensures high { result ≤ℤ pos (2 ^ 40) }
{
    if list.nodes.is_empty() {
        return 0;
    }
    let lookups = list.lookups;
    lookups.closed.model.arc_cost(list.vehicle, a, b)
}

// From a node over another to a third, less what was driven there before. If the two arcs cost 4 and 5, and the arc
// that they replace 6, the detour is 3.
fn detour(list: &LookedUpList<'_, '_, '_>, a: u32, x: u32, b: u32, before: i64) -> i64
    requires first { a < (list_model list.now).nodes }
    requires second { x < (list_model list.now).nodes }
    requires third { b < (list_model list.now).nodes }
    requires not_negative { pos 0 ≤ℤ before }
    requires bound { before ≤ℤ pos (2 ^ 40) }
    ensures value { result ≡ detour_of (list_model list.now) list.now.vehicle a x b before }
    ensures low { neg_ℤ (pos (2 ^ 40)) ≤ℤ result }
    ensures high { result ≤ℤ pos (2 ^ 41) }
{
    let lookups = list.lookups;
    let model = lookups.closed.model;
    model.arc_cost(list.vehicle, a, x) + model.arc_cost(list.vehicle, x, b) - before
}

/// What a visit before a place adds: three arcs at most, whatever the length of the list.
pub(crate) fn visit_increase(list: &LookedUpList<'_, '_, '_>, x: u32, t: usize) -> i64
    requires within { t ≤ length list.now.nodes.now }
    requires visit { x < (list_model list.now).nodes }
    ensures value { result ≡ visit_increase_of (list_model list.now) list.now.vehicle list.now.nodes.now x t }
    ensures low { neg_ℤ (pos (2 ^ 40)) ≤ℤ result }
    ensures high { result ≤ℤ pos (2 ^ 41) }
{
    let a = node_before(list, t);
    let b = node_behind(list, t);
    detour(list, a, x, b, arc_between(list, a, b))
}

// What a pair before one place adds.
fn together(list: &LookedUpList<'_, '_, '_>, pickup: u32, delivery: u32, s: usize) -> i64
    requires within { s ≤ length list.now.nodes.now }
    requires pickup { pickup < (list_model list.now).nodes }
    requires delivery { delivery < (list_model list.now).nodes }
    ensures value { result ≡ (arc_cost (list_model list.now) list.now.vehicle
        (node_before_of (list_model list.now) list.now.vehicle list.now.nodes.now s) pickup
        +ℤ detour_of (list_model list.now) list.now.vehicle pickup delivery
        (node_behind_of (list_model list.now) list.now.vehicle list.now.nodes.now s)
        (arc_at_of (list_model list.now) list.now.vehicle list.now.nodes.now s)) }
    ensures low { neg_ℤ (pos (2 ^ 41)) ≤ℤ result }
    ensures high { result ≤ℤ pos (2 ^ 42) }
{
    let a = node_before(list, s);
    let b = node_behind(list, s);
    let lookups = list.lookups;
    lookups.closed.model.arc_cost(list.vehicle, a, pickup)
        + detour(list, pickup, delivery, b, arc_between(list, a, b))
}

// What a pair before two places adds.
fn apart(list: &LookedUpList<'_, '_, '_>, pickup: u32, delivery: u32, s: usize, t: usize) -> i64
    requires first { s ≤ length list.now.nodes.now }
    requires second { t ≤ length list.now.nodes.now }
    requires pickup { pickup < (list_model list.now).nodes }
    requires delivery { delivery < (list_model list.now).nodes }
    ensures value { result ≡ (visit_increase_of (list_model list.now) list.now.vehicle list.now.nodes.now
        pickup s
        +ℤ visit_increase_of (list_model list.now) list.now.vehicle list.now.nodes.now delivery t) }
    ensures low { neg_ℤ (pos (2 ^ 41)) ≤ℤ result }
    ensures high { result ≤ℤ pos (2 ^ 42) }
{
    visit_increase(list, pickup, s) + visit_increase(list, delivery, t)
}

/// What a pair adds, the pickup before place `s` and the delivery before place `t`: six arcs at most.
pub(crate) fn pair_increase(
    list: &LookedUpList<'_, '_, '_>,
    pickup: u32,
    delivery: u32,
    s: usize,
    t: usize,
) -> i64
    requires first { s ≤ length list.now.nodes.now }
    requires second { t ≤ length list.now.nodes.now }
    requires pickup { pickup < (list_model list.now).nodes }
    requires delivery { delivery < (list_model list.now).nodes }
    ensures value { result ≡ pair_increase_of (list_model list.now) list.now.vehicle list.now.nodes.now
        pickup delivery s t }
    ensures low { neg_ℤ (pos (2 ^ 41)) ≤ℤ result }
    ensures high { result ≤ℤ pos (2 ^ 42) }
{
    if s == t {
        together(list, pickup, delivery, s)
    } else {
        apart(list, pickup, delivery, s, t)
    }
}
