//! Parts of the cost: what a change adds to one; the change is committed then.

ghost use Rattle.std.specs.Prelude.{◌≡◌, IsTrue};
ghost use Rattle.vr_model.specs.routes.Rules.{is_valid};
ghost use Rattle.vr_model.specs.tables.Tables.{visits};
ghost use Rattle.vr_routes.specs.Changes.{IsMadeOn};
ghost use Rattle.vr_routes.specs.Pieces.{changed};

use crate::models::PAID;
use crate::questions::{Asks, Row, assert_rows, stays_valid};
use std::alloc::Global;
use vr_costfilter::{ArcCost, CostPart, FixedCost, GlobalSpan, GroupCost, PlanCost};
use vr_model::{Closed, Move, NoMemory};
use vr_routes::{Change, Routes};

/// Which part of the cost is asked.
#[derive(Clone, Copy)]
pub(crate) enum Part {
    Arcs,
    Fixed,
    Groups,
    /// Soft upper bounds and the span of each vehicle.
    Plans,
    /// Global spans.
    Spans,
}

// What a change adds to a part of the cost; it is committed.
fn committed<P: CostPart>(part: &mut P, routes: &Routes, change: &Change) -> Result<i64, NoMemory>
    requires stands { P.stands_at part.old routes.now }
    requires made { IsMadeOn routes.now change.now }
    requires valid { IsTrue (is_valid (P.model part.old) (changed routes.now.lists change.now)) }
{
    let added = part.difference(routes, change)?;
    part.prepare(routes, change)?;
    part.commit(routes, change);
    Ok(added)
}

// A change of valid routes of a model, after which the lists are valid.
#[derive(Clone, Copy)]
struct ValidChange<'d> {
    closed: Closed<'d>,
    routes: &'d Routes,
    change: &'d Change,
    ghost of_model: { routes.now.visits ≡ visits closed.model.now },
    ghost valid: { IsTrue (is_valid closed.model.now routes.now.lists) },
    ghost valid_after: { IsTrue (is_valid closed.model.now (changed routes.now.lists change.now)) },
}

fn arcs_added(alloc: Global, at: ValidChange<'_>) -> Result<i64, NoMemory>
    requires made { IsMadeOn at.routes.now at.change.now }
{
    let mut part = ArcCost::open(alloc, at.closed.model, at.routes)?;
    committed(&mut part, at.routes, at.change)
}

fn fixed_added(at: ValidChange<'_>) -> Result<i64, NoMemory>
    requires made { IsMadeOn at.routes.now at.change.now }
{
    let mut part = FixedCost::of(at.closed.model);
    committed(&mut part, at.routes, at.change)
}

fn groups_added(alloc: Global, at: ValidChange<'_>) -> Result<i64, NoMemory>
    requires made { IsMadeOn at.routes.now at.change.now }
{
    let mut part = GroupCost::open(alloc, at.closed.model, at.routes)?;
    committed(&mut part, at.routes, at.change)
}

fn plans_added(alloc: Global, at: ValidChange<'_>) -> Result<i64, NoMemory>
    requires made { IsMadeOn at.routes.now at.change.now }
{
    let mut part = PlanCost::open(alloc, at.closed.model, at.routes)?;
    committed(&mut part, at.routes, at.change)
}

fn spans_added(alloc: Global, at: ValidChange<'_>) -> Result<i64, NoMemory>
    requires made { IsMadeOn at.routes.now at.change.now }
{
    let mut part = GlobalSpan::open(alloc, at.closed.model, at.routes)?;
    committed(&mut part, at.routes, at.change)
}

/// Whether a move of valid routes adds this much to a part of the cost. It is false if it is no move of them, or the
/// lists after it are not valid.
pub(crate) fn adds(
    alloc: Global,
    closed: Closed<'_>,
    routes: &Routes,
    part: Part,
    mv: Move,
    wanted: i64,
) -> Result<bool, NoMemory>
    requires of_model { routes.now.visits ≡ visits closed.model.now }
    requires valid { IsTrue (is_valid closed.model.now routes.now.lists) }
{
    let Some(change) = Change::of(closed.model, routes, mv) else {
        return Ok(false);
    };
    if !stays_valid(alloc, closed, routes, &change)? {
        return Ok(false);
    }
    let at = ValidChange {
        closed,
        routes,
        change: &change,
    };
    let added = match part {
        Part::Arcs => arcs_added(alloc, at),
        Part::Fixed => fixed_added(at),
        Part::Groups => groups_added(alloc, at),
        Part::Plans => plans_added(alloc, at),
        Part::Spans => spans_added(alloc, at),
    };
    Ok(added? == wanted)
}

// The second vehicle loses its only visit.
const EMPTIED: Move = Move::MakeInactive { v: 1, a: 0 };

// Two vehicles with a visit each.
const ONE_EACH: &[&[u32]] = &[&[1], &[2]];

#[rattlefmt::skip]
static ROWS: [Row; 5] = [
    Row { name: "arcs", text: PAID, lists: ONE_EACH, asks: Asks::Part(Part::Arcs, EMPTIED, -18) },
    Row { name: "fixed costs", text: PAID, lists: ONE_EACH, asks: Asks::Part(Part::Fixed, EMPTIED, -11) },
    Row { name: "penalties of groups", text: PAID, lists: ONE_EACH, asks: Asks::Part(Part::Groups, EMPTIED, 3) },
    Row { name: "soft upper bounds and spans", text: PAID, lists: ONE_EACH,
        asks: Asks::Part(Part::Plans, EMPTIED, -51) },
    Row { name: "global spans", text: PAID, lists: ONE_EACH, asks: Asks::Part(Part::Spans, EMPTIED, -80) },
];

#[test]
fn parts_of_the_cost_answer(rt: HostRuntime) {
    assert_rows(&rt, rt.alloc(), &ROWS);
}
