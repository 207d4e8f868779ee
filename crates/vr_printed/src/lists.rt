//! The lists of visits that routes print.

ghost use Rattle.std.specs.Prelude.{◌≡◌, IfOk};
ghost use Rattle.vr_printed.specs.Printed.{lists_of, visits_between};

use crate::PrintedRoute;
use std::alloc::Global;
use vr_model::{NoMemory, Seq};

// The nodes between the ends of a route; none of a route of fewer than three. Whether they are visits is not asked
// here.
fn visits_of(alloc: Global, nodes: &[u32]) -> Result<Seq<u32>, NoMemory>
    ensures { IfOk result (λ list. list ≡ visits_between nodes.now) }
{
    let mut list = Seq::new(alloc);
    for k in 2..nodes.len() {
        list.push(nodes[k - 1])?;
    }
    Ok(list)
}

/// The visits of each route in order, without its ends; none of an unused vehicle. `NoMemory` if memory is out.
pub fn printed_lists(alloc: Global, routes: &[PrintedRoute]) -> Result<Seq<Seq<u32>>, NoMemory>
    ensures { IfOk result (λ lists. lists ≡ lists_of routes.now) }
{
    let mut lists = Seq::new(alloc);
    for route in routes {
        lists.push(visits_of(alloc, route.nodes.as_slice())?)?;
    }
    Ok(lists)
}
