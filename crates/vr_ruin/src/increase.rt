//! What an item at its places adds to the arc costs of a list, by the arcs at these places.

ghost use Rattle.std.specs.Prelude.{◌≡◌, ◌<◌, ◌≤◌, ◌^◌, All, cond, length, neg_ℤ, pos, ◌+ℤ◌, ◌-ℤ◌, ◌≤ℤ◌};
ghost use Rattle.vr_model.specs.routes.Routes.{is_empty, route_cost};
ghost use Rattle.vr_model.specs.tables.Tables.{arc_cost};
ghost use Rattle.vr_ruin.specs.Increases.{arc_cost_at as arc_at_of, detour as detour_of};
ghost use Rattle.vr_ruin.specs.Increases.{node_before as node_before_of, node_after as node_after_of};
ghost use Rattle.vr_ruin.specs.Increases.{pair_increase as pair_increase_of, visit_increase as visit_increase_of};
ghost use Rattle.vr_ruin.specs.Placings.{item_in, placed, AreWithin};
ghost use Rattle.vr_rules.specs.Placing.{item_nodes};

use crate::placing::Placing;
use vr_model::Closed;

/// The list of a vehicle, with the model.
#[derive(Clone, Copy)]
pub(crate) struct Driven<'m, 'l> {
    pub(crate) closed: Closed<'m>,
    pub(crate) vehicle: u32,
    pub(crate) nodes: &'l [u32],
    ghost there: { vehicle < length closed.model.now.vehicles },
    ghost below: { All (λ node. node < closed.model.now.nodes) nodes.now },
}

/// The node before a place: the start before the first.
pub(crate) fn node_before(list: &Driven<'_, '_>, t: usize) -> u32
    requires { t ≤ length list.now.nodes.now }
    ensures node { result ≡ node_before_of list.now.closed.model.now list.now.vehicle list.now.nodes.now t }
    ensures below { result < list.now.closed.model.now.nodes }
{
    let closed = list.closed;
    if t == 0 {
        closed.model.vehicles.get(list.vehicle as usize).start
    } else {
        list.nodes[t - 1]
    }
}

/// The node at a place, the end after the last.
pub(crate) fn node_after(list: &Driven<'_, '_>, t: usize) -> u32
    requires { t ≤ length list.now.nodes.now }
    ensures node { result ≡ node_after_of list.now.closed.model.now list.now.vehicle list.now.nodes.now t }
    ensures below { result < list.now.closed.model.now.nodes }
{
    let closed = list.closed;
    if t < list.nodes.len() {
        list.nodes[t]
    } else {
        closed.model.vehicles.get(list.vehicle as usize).end
    }
}

/// What the arc between two neighbours costs, nothing in an empty list, whose vehicle takes no arc.
pub(crate) fn arc_between(list: &Driven<'_, '_>, a: u32, b: u32) -> i64
    requires first { a < list.now.closed.model.now.nodes }
    requires second { b < list.now.closed.model.now.nodes }
    ensures value { result ≡ cond (is_empty list.now.nodes.now) (pos 0)
        (arc_cost list.now.closed.model.now list.now.vehicle a b) }
    ensures low { pos 0 ≤ℤ result }
    ensures high { result ≤ℤ pos (2 ^ 40) }
{
    if list.nodes.is_empty() {
        return 0;
    }
    let closed = list.closed;
    closed.model.arc_cost(list.vehicle, a, b)
}

// From a node over another to a third, less what was driven there before.
fn detour(list: &Driven<'_, '_>, a: u32, x: u32, b: u32, before: i64) -> i64
    requires first { a < list.now.closed.model.now.nodes }
    requires second { x < list.now.closed.model.now.nodes }
    requires third { b < list.now.closed.model.now.nodes }
    requires not_negative { pos 0 ≤ℤ before }
    requires bound { before ≤ℤ pos (2 ^ 40) }
    ensures value { result ≡ detour_of list.now.closed.model.now list.now.vehicle a x b before }
    ensures low { neg_ℤ (pos (2 ^ 40)) ≤ℤ result }
    ensures high { result ≤ℤ pos (2 ^ 41) }
{
    let closed = list.closed;
    let model = closed.model;
    model.arc_cost(list.vehicle, a, x) + model.arc_cost(list.vehicle, x, b) - before
}

/// What a visit before a place adds: three arcs at most, whatever the length of the list.
pub(crate) fn visit_increase(list: &Driven<'_, '_>, x: u32, t: usize) -> i64
    requires within { t ≤ length list.now.nodes.now }
    requires visit { x < list.now.closed.model.now.nodes }
    ensures value { result ≡ visit_increase_of list.now.closed.model.now list.now.vehicle list.now.nodes.now x t }
    ensures low { neg_ℤ (pos (2 ^ 40)) ≤ℤ result }
    ensures high { result ≤ℤ pos (2 ^ 41) }
{
    let a = node_before(list, t);
    let b = node_after(list, t);
    detour(list, a, x, b, arc_between(list, a, b))
}

// What a pair before one place adds.
fn together(list: &Driven<'_, '_>, pickup: u32, delivery: u32, s: usize) -> i64
    requires within { s ≤ length list.now.nodes.now }
    requires pickup { pickup < list.now.closed.model.now.nodes }
    requires delivery { delivery < list.now.closed.model.now.nodes }
    ensures value { result ≡ (arc_cost list.now.closed.model.now list.now.vehicle
        (node_before_of list.now.closed.model.now list.now.vehicle list.now.nodes.now s) pickup
        +ℤ detour_of list.now.closed.model.now list.now.vehicle pickup delivery
        (node_after_of list.now.closed.model.now list.now.vehicle list.now.nodes.now s)
        (arc_at_of list.now.closed.model.now list.now.vehicle list.now.nodes.now s)) }
    ensures low { neg_ℤ (pos (2 ^ 41)) ≤ℤ result }
    ensures high { result ≤ℤ pos (2 ^ 42) }
{
    let a = node_before(list, s);
    let b = node_after(list, s);
    let closed = list.closed;
    closed.model.arc_cost(list.vehicle, a, pickup)
        + detour(list, pickup, delivery, b, arc_between(list, a, b))
}

// What a pair before two places adds.
fn apart(list: &Driven<'_, '_>, pickup: u32, delivery: u32, s: usize, t: usize) -> i64
    requires first { s ≤ length list.now.nodes.now }
    requires second { t ≤ length list.now.nodes.now }
    requires pickup { pickup < list.now.closed.model.now.nodes }
    requires delivery { delivery < list.now.closed.model.now.nodes }
    ensures value { result ≡ (visit_increase_of list.now.closed.model.now list.now.vehicle list.now.nodes.now
        pickup s
        +ℤ visit_increase_of list.now.closed.model.now list.now.vehicle list.now.nodes.now delivery t) }
    ensures low { neg_ℤ (pos (2 ^ 41)) ≤ℤ result }
    ensures high { result ≤ℤ pos (2 ^ 42) }
{
    visit_increase(list, pickup, s) + visit_increase(list, delivery, t)
}

// What a pair adds, the pickup before place `s` and the delivery before place `t`: six arcs at most.
fn pair_increase(list: &Driven<'_, '_>, pickup: u32, delivery: u32, s: usize, t: usize) -> i64
    requires first { s ≤ length list.now.nodes.now }
    requires second { t ≤ length list.now.nodes.now }
    requires pickup { pickup < list.now.closed.model.now.nodes }
    requires delivery { delivery < list.now.closed.model.now.nodes }
    ensures value { result ≡ pair_increase_of list.now.closed.model.now list.now.vehicle list.now.nodes.now
        pickup delivery s t }
    ensures low { neg_ℤ (pos (2 ^ 41)) ≤ℤ result }
    ensures high { result ≤ℤ pos (2 ^ 42) }
{
    if s == t {
        together(list, pickup, delivery, s)
    } else {
        apart(list, pickup, delivery, s, t)
    }
}

/// What an item at its places adds to the arc costs of a list.
pub(crate) fn increase_of(list: &Driven<'_, '_>, placing: Placing) -> i64
    requires within { AreWithin list.now.nodes.now placing }
    requires nodes { All (λ node. node < list.now.closed.model.now.nodes) (item_nodes (item_in placing)) }
    ensures value { result ≡ (route_cost list.now.closed.model.now list.now.vehicle
        (placed list.now.nodes.now placing)
        -ℤ route_cost list.now.closed.model.now list.now.vehicle list.now.nodes.now) }
    ensures low { neg_ℤ (pos (2 ^ 41)) ≤ℤ result }
    ensures high { result ≤ℤ pos (2 ^ 42) }
{
    match placing {
        Placing::One(node, t) => visit_increase(list, node, t as usize),
        Placing::Two(pickup, delivery, s, t) => {
            pair_increase(list, pickup, delivery, s as usize, t as usize)
        }
    }
}
