//! Whether one vehicle may drive one list.

ghost use Rattle.std.specs.Prelude.{◌≡◌, ◌<◌, IsTrue, IfOk, length};
ghost use Rattle.std.specs.List.{list_all};
ghost use Rattle.vr_model.specs.tables.Tables.{is_visit};
ghost use Rattle.vr_model.specs.routes.Routes.{is_distinct};
ghost use Rattle.vr_model.specs.routes.Rules.{is_route_open as is_route_open_of};
ghost use Rattle.vr_rules.specs.RoutesOpen.{is_feasible_in_each as is_feasible_in_each_of};

use std::alloc::Global;
use vr_lists::{PairPlaces, keeps_pairs};
use vr_model::NoMemory;
use vr_plan::Lookups;
use vr_reach::{StopsFor, Walk, goes_through};

/// What is written over while routes are driven.
#[derive(Drop)]
pub struct Driving {
    walk: Walk,
    pairs: PairPlaces,
}

impl Driving {
    /// It takes no memory.
    pub fn new(alloc: Global) -> Driving {
        Driving {
            walk: Walk::new(alloc),
            pairs: PairPlaces::new(),
        }
    }
}

/// Whether vehicle `v` may drive a list, as `Rules::route_open` answers it, over what was looked up of the model. What
/// takes least is asked first. `Rules` asks it of lists, and `vr_first_savings` of routes that it begins or joins.
///
/// The list holds distinct visits. `NoMemory` if it is out of memory.
pub fn is_route_open(
    lookups: &Lookups<'_>,
    v: u32,
    list: &[u32],
    driving: &mut Driving,
) -> Result<bool, NoMemory>
    requires vehicle { v < length lookups.now.closed.model.now.vehicles }
    requires visits { IsTrue (list_all (is_visit lookups.now.closed.model.now) list.now) }
    requires distinct { IsTrue (is_distinct list.now) }
    ensures { IfOk result (λ answer. answer ≡ is_route_open_of lookups.now.closed.model.now v list.now) }
{
    if list.is_empty() {
        return Ok(true);
    }
    if !lookups.nodes().allows_each(v, list) {
        return Ok(false);
    }
    if !keeps_pairs(lookups.closed.model, v, list, &mut driving.pairs) {
        return Ok(false);
    }
    is_feasible_in_each(lookups, v, list, &mut driving.walk)
}

// Whether the line of a list has a schedule in each dimension.
fn is_feasible_in_each(
    lookups: &Lookups<'_>,
    v: u32,
    list: &[u32],
    walk: &mut Walk,
) -> Result<bool, NoMemory>
    requires some { 0 < length list.now }
    requires vehicle { v < length lookups.now.closed.model.now.vehicles }
    requires visits { IsTrue (list_all (is_visit lookups.now.closed.model.now) list.now) }
    requires distinct { IsTrue (is_distinct list.now) }
    ensures { IfOk result (λ answer. answer ≡ is_feasible_in_each_of lookups.now.closed.model.now v list.now) }
{
    for d in 0..lookups.closed.model.dimensions.len() {
        let table = lookups.table(d as u32);
        let stops = StopsFor {
            closed: lookups.closed,
            d: d as u32,
            v,
            of_dimension: &table.stops,
        };
        if !goes_through(&stops, list, walk)? {
            return Ok(false);
        }
    }
    Ok(true)
}
