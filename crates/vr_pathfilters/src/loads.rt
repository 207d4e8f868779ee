//! What vehicles take along their lists, in a dimension that is a load.

ghost use Rattle.std.specs.Prelude.{◌≡◌, ◌<◌, ◌≤◌, ℕ, List, length, IsTrue, IfOk, is_some};
ghost use Rattle.vr_model.specs.tables.WellFormed.{WherePresent};
ghost use Rattle.vr_routes.specs.Changes.{IsMadeOn};
ghost use Rattle.vr_routes.specs.Pieces.{changed, joined, part_at};
ghost use Rattle.vr_reach.specs.Lists.{is_feasible_list};
ghost use Rattle.vr_loads.specs.Loads.{HasLoad, is_load as is_load_in};
ghost use Rattle.vr_loads.specs.Kept.{AreCarried};
ghost use Rattle.vr_pathfilters.specs.Lists.{holds_of_each};
ghost use Rattle.vr_pathfilters.specs.TourLists.{AreTours};
ghost use Rattle.vr_pathfilters.specs.Known.{KnowsLoads, with_part};

use std::alloc::Global;
use vr_loads::{Loads, is_load};
use vr_model::{Closed, Model, NoMemory};
use vr_routes::{Change, Routes, Row};

/// What is kept of the lists of all vehicles if dimension `d` is a load; nothing if it is none.
pub(crate) fn loads_of(
    alloc: Global,
    closed: Closed<'_>,
    d: u32,
    routes: &Routes,
) -> Result<Option<Loads>, NoMemory>
    requires dimension { d < length closed.model.now.dimensions }
    requires tours { AreTours closed.model.now routes.now }
    ensures known { IfOk result (λ loads. is_some loads ≡ is_load_in closed.entry.model.now d) }
    ensures loads { IfOk result (WherePresent (KnowsLoads closed.entry.model.now d routes.now.lists)) }
{
    if !is_load(closed.model, d) {
        return Ok(None);
    }
    let loads = Loads::open(alloc, closed.model, d, routes)?;
    Ok(Some(loads))
}

/// Whether vehicles can carry what they take with the lists of all parts of a change.
pub(crate) fn all_carried(
    model: &Model,
    d: u32,
    loads: &Loads,
    routes: &Routes,
    change: &Change,
) -> bool
    requires load { HasLoad model.now d }
    requires carried { AreCarried model.now d routes.now.lists loads.now }
    requires tours { AreTours model.now routes.now }
    requires rule { IsTrue (holds_of_each (is_feasible_list model.now d) routes.now.lists) }
    requires made { IsMadeOn routes.now change.now }
    ensures { result ≡ holds_of_each (is_feasible_list model.now d) (changed routes.now.lists change.now) }
{
    for k in 0..change.parts() {
        if !part_carried(model, d, loads, routes, change, k) {
            return false;
        }
    }
    true
}

// Whether a vehicle can carry what it takes with the list of one part of a change. It can exactly if the list is empty
// or its line is feasible.
#[inline]
fn part_carried(
    model: &Model,
    d: u32,
    loads: &Loads,
    routes: &Routes,
    change: &Change,
    k: usize,
) -> bool
    requires load { HasLoad model.now d }
    requires carried { AreCarried model.now d routes.now.lists loads.now }
    requires tours { AreTours model.now routes.now }
    requires made { IsMadeOn routes.now change.now }
    requires part { k < length change.now }
    ensures { result ≡ is_feasible_list model.now d (part_at change.now k).vehicle
        (joined routes.now.lists (part_at change.now k).pieces) }
{
    loads.can_carry(model, d, routes, change.vehicle(k), change.pieces(k))
}

/// Gives the vehicle of part `k` of a change the list of the part, if there is that part. It is called at a commit; the
/// row `list` is room for it.
pub(crate) fn put_list(
    loads: &mut Loads,
    model: &Model,
    d: u32,
    routes: &Routes,
    change: &Change,
    k: usize,
    list: &mut Row,
)
    requires load { HasLoad model.now d }
    requires kept { length loads.old ≡ length model.now.vehicles }
    requires tours { AreTours model.now routes.now }
    requires made { IsMadeOn routes.now change.now }
    ensures some { 0 < length change.now }
    ensures few { length change.now ≤ 2 }
    ensures carried { (lists : List (List ℕ)) → AreCarried model.now d lists loads.old
        → AreCarried model.now d (with_part routes.now.lists change.now k lists) loads.new }
{
    if k >= change.parts() {
        return;
    }
    routes.write_after(change, k, list);
    loads.put(model, d, change.vehicle(k), list.as_slice());
}
