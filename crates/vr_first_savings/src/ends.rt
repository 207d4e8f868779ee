//! The ends of routes, at which two are joined, and what the arcs cost that a join saves.

ghost use Rattle.std.specs.Prelude.{◌≡◌, ◌<◌, length, map, IfOk};
ghost use Rattle.vr_model.specs.routes.Routes.{route};
ghost use Rattle.vr_first_savings.specs.RouteEnds.{ends_between as ends_between_of, ends_of};
ghost use Rattle.vr_first_savings.specs.Joins.{AreApart};

use std::alloc::Global;
use vr_model::{Closed, NoMemory, Seq};

/// The last and the first node of a route, with what two arcs of vehicle 0 cost. These go from the last node to its
/// end, and from its start to the first node.
#[derive(Clone, Copy)]
pub(crate) struct EndsOfRoute {
    pub(crate) last: u32,
    pub(crate) first: u32,
    pub(crate) to_end: i64,
    pub(crate) from_start: i64,
}

// The ends of a route with these last and first nodes.
fn ends_between(closed: Closed<'_>, last: u32, first: u32) -> EndsOfRoute
    requires last { last < closed.model.now.nodes }
    requires first { first < closed.model.now.nodes }
    ensures { result ≡ ends_between_of closed.entry.model.now last first }
{
    let vehicle = closed.model.vehicles.get(0);
    EndsOfRoute {
        last,
        first,
        to_end: closed.model.arc_cost(0, last, vehicle.end),
        from_start: closed.model.arc_cost(0, vehicle.start, first),
    }
}

/// The ends of route `i`.
pub(crate) fn ends_at(closed: Closed<'_>, routes: &[Seq<u32>], i: usize) -> EndsOfRoute
    requires apart { AreApart closed.model.now routes.now }
    requires within { i < length routes.now }
    ensures { result ≡ ends_of closed.entry.model.now (route routes.now i) }
{
    let list = routes[i].as_slice();
    ends_between(closed, list[list.len() - 1], list[0])
}

/// The ends of each route, looked up once for all joins of a step.
pub(crate) fn ends_of_each(
    alloc: Global,
    closed: Closed<'_>,
    routes: &[Seq<u32>],
) -> Result<Vec<EndsOfRoute>, NoMemory>
    requires apart { AreApart closed.model.now routes.now }
    ensures { IfOk result (λ ends. ends.items ≡ map (ends_of closed.entry.model.now) routes.now) }
{
    let mut ends = Vec::with_capacity(alloc, routes.len())?;
    for i in 0..routes.len() {
        ends.push(ends_at(closed, routes, i))?;
    }
    Ok(ends)
}
