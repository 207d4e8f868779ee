//! The places of a visit in a list that add no more than a bound. What the visit adds is read along a column and a row
//! of a matrix, and along the arcs of the list.

ghost use Rattle.std.specs.Prelude.{◌≡◌, ◌<◌, ◌≤◌, ◌^◌, ℕ, OnOk, length, neg_ℤ, pos, suc, ◌≤ℤ◌, ◌<ℤ◌};
ghost use Rattle.vr_model.specs.tables.Tables.{arc_cost};
ghost use Rattle.vr_ruin.specs.Arcs.{AreArcs, AreArcsIfUsed};
ghost use Rattle.vr_ruin.specs.Columns.{AreArcsTo};
ghost use Rattle.vr_ruin.specs.Increases.{arc_cost_at, visit_increase};

use crate::increase::{Driven, arc_between, node_after, node_before};
use vr_model::{NoMemory, Seq};

/// Writes what the arcs of a list cost over others. It fails only if memory runs out.
pub(crate) fn write_arcs(list: &Driven<'_, '_>, arcs: &mut Seq<i64>) -> Result<(), NoMemory>
    requires { length list.now.nodes.now ≤ 1000 }
    ensures { OnOk result (AreArcs list.now.closed.model.now list.now.vehicle list.now.nodes.now arcs.new) }
{
    arcs.truncate(0);
    for t in 0..list.nodes.len() + 1 {
        let a = node_before(list, t);
        let b = node_after(list, t);
        arcs.push(arc_between(list, a, b))?;
    }
    Ok(())
}

// What the arc to a place costs, by the arcs that are kept: nothing in an empty list, whose vehicle takes no arc.
fn kept_arc(list: &Driven<'_, '_>, arcs: &[i64], t: usize) -> i64
    requires within { t ≤ length list.now.nodes.now }
    requires arcs { AreArcsIfUsed list.now.closed.model.now list.now.vehicle list.now.nodes.now arcs.now }
    ensures value { result ≡ arc_cost_at list.now.closed.model.now list.now.vehicle list.now.nodes.now t }
    ensures low { pos 0 ≤ℤ result }
    ensures high { result ≤ℤ pos (2 ^ 40) }
{
    if list.nodes.is_empty() {
        return 0;
    }
    arcs[t]
}

// What the arc from node `a` to node `x` costs, by the arcs to that.
fn arc_from(list: &Driven<'_, '_>, costs: &[i64], x: u32, a: u32) -> i64
    requires costs { AreArcsTo list.now.closed.model.now list.now.vehicle x costs.now }
    requires node { a < list.now.closed.model.now.nodes }
    ensures value { result ≡ arc_cost list.now.closed.model.now list.now.vehicle a x }
    ensures low { neg_ℤ (pos (2 ^ 30)) ≤ℤ result }
    ensures high { result ≤ℤ pos (2 ^ 40) }
{
    let _there = list.vehicle;
    costs[a as usize]
}

// What a visit before a place adds.
fn increase_at(list: &Driven<'_, '_>, arcs: &[i64], costs: &[i64], x: u32, t: usize) -> i64
    requires arcs { AreArcsIfUsed list.now.closed.model.now list.now.vehicle list.now.nodes.now arcs.now }
    requires costs { AreArcsTo list.now.closed.model.now list.now.vehicle x costs.now }
    requires visit { x < list.now.closed.model.now.nodes }
    requires within { t ≤ length list.now.nodes.now }
    ensures { result ≡ visit_increase list.now.closed.model.now list.now.vehicle list.now.nodes.now x t }
{
    let a = node_before(list, t);
    let b = node_after(list, t);
    let closed = list.closed;
    let there = closed.model.arc_cost(list.vehicle, x, b);
    arc_from(list, costs, x, a) + there - kept_arc(list, arcs, t)
}

/// The first place from place `t` on before which a visit adds no more than a bound; past all places if there is none.
pub(crate) fn next_place(
    list: &Driven<'_, '_>,
    arcs: &[i64],
    costs: &[i64],
    x: u32,
    t: usize,
    bound: i64,
) -> usize
    requires arcs { AreArcsIfUsed list.now.closed.model.now list.now.vehicle list.now.nodes.now arcs.now }
    requires costs { AreArcsTo list.now.closed.model.now list.now.vehicle x costs.now }
    requires visit { x < list.now.closed.model.now.nodes }
    requires begins { t ≤ suc (length list.now.nodes.now) }
    requires few { length list.now.nodes.now ≤ 1000 }
    ensures first { t ≤ result }
    ensures last { result ≤ suc (length list.now.nodes.now) }
    ensures above { (u : ℕ) → t ≤ u → u < result
        → bound <ℤ visit_increase list.now.closed.model.now list.now.vehicle list.now.nodes.now x u }
{
    let end = list.nodes.len() + 1;
    for place in t..end {
        if increase_at(list, arcs, costs, x, place) <= bound {
            return place;
        }
    }
    end
}
