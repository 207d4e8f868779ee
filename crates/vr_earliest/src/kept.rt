//! What is kept of committed lists, so that a change is known by what it changes alone.

ghost use Rattle.std.specs.Prelude.{◌≡◌, ◌≢◌, ◌<◌, ◌≤◌, All, ℕ, List, IfOk, IsTrue, false, length};
ghost use Rattle.vr_model.specs.moves.Moves.{with_route};
ghost use Rattle.vr_model.specs.routes.Rules.{is_valid};
ghost use Rattle.vr_earliest.specs.Floors.{AreFloors};
ghost use Rattle.vr_earliest.specs.Kept.{HaveWays, IsUnpaid};

use crate::floors::Floors;
use crate::kept_ways::{KeptWays, write_ways};
use crate::ways::{Guide, Rest, Way};
use std::alloc::Global;
use std::marker::Model;
use vr_model::{Closed, Dimension, NoMemory};
use vr_routes::Routes;

/// What is kept of the lists of all vehicles in one dimension; of none if nothing is paid for spans. Contracts see what
/// is kept of each.
#[derive(Drop)]
pub struct KeptLists {
    pub lists: Vec<KeptWays<Way, Rest>>,
}

impl Model for KeptLists {
    ghost use Rattle.std.specs.Prelude.{List};
    ghost use Rattle.vr_earliest.specs.Kept.{KeptWays as KeptOf};

    ghost Value = { List KeptOf };

    ghost view = { λ kept. kept.lists.items };
}

impl KeptLists {
    /// What is kept of the lists of routes in dimension `d`. The only error is out of memory.
    pub fn of(
        alloc: Global,
        closed: Closed<'_>,
        floors: &Floors,
        d: u32,
        routes: &Routes,
    ) -> Result<KeptLists, NoMemory>
        requires valid { IsTrue (is_valid closed.model.now routes.now.lists) }
        requires dimension { d < length closed.model.now.dimensions }
        requires floors { AreFloors closed.model.now d floors.now }
        ensures { IfOk result (HaveWays closed.entry.model.now d routes.now.lists) }
    {
        let many = how_many(closed.model.dimensions.get(d as usize), routes);
        let mut lists = Vec::with_capacity(alloc, many as usize)?;
        for v in 0..many {
            let mut kept = KeptWays::new();
            let guide = Guide::of(closed, floors, d, v);
            write_ways(&mut kept, &guide, routes.list(v));
            lists.push(kept)?;
        }
        Ok(KeptLists { lists })
    }

    /// Vehicle `v` gets another list. Nothing is done if nothing is kept in the dimension.
    pub fn write(&mut self, closed: Closed<'_>, floors: &Floors, d: u32, v: u32, list: &[u32])
        requires dimension { d < length closed.model.now.dimensions }
        requires vehicle { v < length closed.model.now.vehicles }
        requires floors { AreFloors closed.model.now d floors.now }
        requires few { length list.now ≤ 1000 }
        requires nodes { All (λ node. node < closed.model.now.nodes) list.now }
        ensures { (lists : List (List ℕ)) → HaveWays closed.entry.model.now d lists self.old → v < length lists
            → HaveWays closed.entry.model.now d (with_route lists v list.now) self.new }
    {
        if (v as usize) < self.lists.len() {
            let guide = Guide::of(closed, floors, d, v);
            write_ways(&mut self.lists[v as usize], &guide, list);
        }
    }
}

// Of how many lists something is kept in a dimension: of all if anything is paid for spans, and else of none.
fn how_many(dimension: &Dimension, routes: &Routes) -> u32
    ensures all { result ≢ length routes.now.lists → IsUnpaid dimension.now }
    ensures none { IsUnpaid dimension.now → result ≡ 0 }
    ensures no_more { result ≤ length routes.now.lists }
{
    if pays(dimension) {
        routes.vehicles()
    } else {
        0
    }
}

// Whether anything is paid for spans in a dimension: for that of some vehicle, or for the global span.
fn pays(dimension: &Dimension) -> bool
    ensures unpaid { result ≡ false → IsUnpaid dimension.now }
    ensures none { IsUnpaid dimension.now → result ≡ false }
{
    for v in 0..dimension.span_costs.len() {
        if *dimension.span_costs.get(v) != 0 {
            return true;
        }
    }
    dimension.global_span_cost != 0
}
