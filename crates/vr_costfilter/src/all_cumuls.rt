//! What is kept of committed lists in all dimensions, for the costs that ask it.

ghost use Rattle.std.specs.Prelude.{◌≡◌, ◌↔◌, ◌<◌, ◌≤◌, ◌+◌, ℕ, List, IfOk, IfSome, IsTrue, false, is_some, length};
ghost use Rattle.std.specs.Prelude.{slice_index_or};
ghost use Rattle.std.specs.List.{list_all};
ghost use Rattle.vr_model.specs.moves.Moves.{with_route};
ghost use Rattle.vr_model.specs.routes.Routes.{is_empty, route};
ghost use Rattle.vr_model.specs.routes.Rules.{is_valid};
ghost use Rattle.vr_model.specs.tables.Tables.{dimension_at, is_visit};
ghost use Rattle.vr_routes.specs.Changes.{IsMadeOn};
ghost use Rattle.vr_routes.specs.Pieces.{changed};
ghost use Rattle.vr_plan.specs.Tables.{AreTables, IsTable};
ghost use Rattle.vr_plan.specs.Timings.{IsTiming, IsTimingOf};
ghost use Rattle.vr_costfilter.specs.Kept.{AreAllKept, AreAsMany, AreKept, AreOfEach, IsPaid, IsKnown};
ghost use Rattle.vr_costfilter.specs.LookedUp.{IsLookedUp};
ghost use Rattle.vr_costfilter.specs.PartsAfter.{list_after, vehicle_after};
ghost use Rattle.vr_costfilter.specs.declared.kept.KeptList.{KeptList as KeptOf};

use crate::kept::KeptCumuls;
use crate::parts_after::PartAfter;
use crate::tours::Tour;
use crate::trails::Trail;
use std::alloc::Global;
use std::marker::Model;
use vr_model::{Closed, NoMemory};
use vr_plan::{KnownDimension, Table, Timing};
use vr_routes::{Change, Routes, Row};

/// For which costs the cumuls of a dimension are kept.
#[derive(Clone, Copy)]
pub enum Paid {
    /// Soft upper bounds, and the span of each vehicle.
    Alone,
    /// The global span.
    Together,
}

/// What is kept of committed lists, in the dimensions in which the costs for which it is kept may be paid. In the
/// others nothing is kept. `PlanCost` and `GlobalSpan` have one each, so a dimension with costs of both is kept twice.
/// Contracts see what is kept in each dimension.
#[derive(Drop)]
pub struct AllCumuls {
    dimensions: Vec<KeptCumuls>,
    // scratch for a list that is committed
    row: Row,
}

impl Model for AllCumuls {
    ghost use Rattle.std.specs.Prelude.{List};
    ghost use Rattle.vr_costfilter.specs.declared.kept.KeptList.{KeptList as KeptOf};

    ghost Value = { List (List KeptOf) };

    ghost view = { λ all. all.dimensions.items };
}

impl AllCumuls {
    /// Of the lists of routes, in the dimensions with such costs. The only error is out of memory.
    pub fn open(
        alloc: Global,
        closed: Closed<'_>,
        tables: &[Table],
        paid: Paid,
        routes: &Routes,
    ) -> Result<AllCumuls, NoMemory>
        requires valid { IsTrue (is_valid closed.model.now routes.now.lists) }
        requires tables { AreTables closed.model.now tables.now }
        ensures kept { IfOk result (AreAllKept closed.entry.model.now routes.now.lists) }
        ensures each { IfOk result (AreOfEach closed.entry.model.now tables.now paid (length routes.now.lists)) }
    {
        let mut dimensions = Vec::with_capacity(alloc, tables.len())?;
        for d in 0..tables.len() {
            dimensions.push(kept_in(alloc, closed, &tables[d], d as u32, paid, routes)?)?;
        }
        Ok(AllCumuls {
            dimensions,
            row: Row::new(),
        })
    }

    /// What the chosen schedule of the new list of a part of a change comes to, in dimension `d`. Nothing exactly if
    /// what is kept does not tell; then it has to be looked for. The trail is scratch that the caller lends: it is
    /// written over.
    pub fn timing_after(
        &self,
        part: &PartAfter,
        table: &Table,
        d: u32,
        trail: &mut Trail,
    ) -> Option<Timing>
        requires dimension { d < length part.now.model.now.dimensions }
        requires table { IsTable part.now.model.now d table.now }
        requires kept { AreAllKept part.now.model.now part.now.routes.now.lists self.now }
        requires some { is_empty (list_after part.now) ≡ false }
        ensures known { (other : List KeptOf) → IsTrue (is_some result)
            ↔ IsKnown part.now.model.now d (vehicle_after part.now)
            (route part.now.routes.now.lists (vehicle_after part.now)) (slice_index_or self.now d other) }
        ensures timing { IfSome result
            (IsTiming part.now.model.now d (vehicle_after part.now) (list_after part.now)) }
        ensures range { IfSome result (IsTimingOf (length (list_after part.now) + 2)) }
    {
        let kept = &self.dimensions[d as usize];
        let at = KnownDimension {
            model: part.model,
            table,
            d,
        };
        kept.timing_after(&at, part.routes, part.pieces(), part.splice(), trail)
    }

    /// Commits the lists after a change, which must be valid. It is called before the routes are changed, and takes no
    /// memory.
    pub fn commit(&mut self, closed: Closed<'_>, tables: &[Table], routes: &Routes, change: &Change)
        requires tables { AreTables closed.model.now tables.now }
        requires kept { AreAllKept closed.model.now routes.now.lists self.old }
        requires before { IsTrue (is_valid closed.model.now routes.now.lists) }
        requires made { IsMadeOn routes.now change.now }
        requires valid { IsTrue (is_valid closed.model.now (changed routes.now.lists change.now)) }
        ensures kept { AreAllKept closed.entry.model.now (changed routes.now.lists change.now) self.new }
        ensures many { AreAsMany self.old self.new }
    {
        for k in 0..change.parts() {
            routes.join_into(change.pieces(k), &mut self.row);
            let tour = Tour {
                closed,
                v: change.vehicle(k),
                list: self.row.as_slice(),
            };
            write_list(&tour, tables, &mut self.dimensions);
        }
    }
}

// Whether such costs may be paid in a dimension. Alone: some span has a coefficient, or some stop a soft upper bound,
// even one with the coefficient 0. Together: the global span has a coefficient.
fn is_paid(closed: Closed<'_>, table: &Table, d: u32, paid: Paid) -> bool
    requires dimension { d < length closed.model.now.dimensions }
    ensures { IsTrue result ↔ IsPaid paid table.now (dimension_at closed.entry.model.now d) }
{
    match paid {
        Paid::Alone => !table.is_free,
        Paid::Together => closed.model.dimensions.get(d as usize).global_span_cost != 0,
    }
}

// What is kept of the lists of routes in dimension `d`; of no list if the dimension has no such costs.
fn kept_in(
    alloc: Global,
    closed: Closed<'_>,
    table: &Table,
    d: u32,
    paid: Paid,
    routes: &Routes,
) -> Result<KeptCumuls, NoMemory>
    requires valid { IsTrue (is_valid closed.model.now routes.now.lists) }
    requires known { IsLookedUp closed.model.now d table.now }
    ensures kept { IfOk result (AreKept closed.entry.model.now d routes.now.lists) }
    ensures each { IfOk result (λ kept. IsPaid paid table.now (dimension_at closed.entry.model.now d)
        → length kept ≡ length routes.now.lists) }
{
    if !is_paid(closed, table, d, paid) {
        return Ok(KeptCumuls::none(alloc));
    }
    KeptCumuls::open(alloc, closed, table, d, routes)
}

// The vehicle of a tour gets its list, in all dimensions.
fn write_list(tour: &Tour, tables: &[Table], kept: &mut [KeptCumuls])
    requires tables { AreTables tour.now.closed.model.now tables.now }
    requires many { length kept.old ≡ length tour.now.closed.model.now.dimensions }
    ensures kept { (lists : List (List ℕ)) → AreAllKept tour.now.closed.model.now lists kept.old
        → tour.now.v < length lists
        → AreAllKept tour.now.closed.model.now (with_route lists tour.now.v tour.now.list.now) kept.new }
    ensures many { AreAsMany kept.old kept.new }
{
    for d in 0..kept.len() {
        kept[d].write(tour, &tables[d], d as u32);
    }
}
