//! The parts of the cost that lists have by themselves. These are arcs and fixed costs of one route, which `totals`
//! adds up, and the penalties of all groups.

ghost use Rattle.std.specs.Prelude.{◌≡◌, ◌^◌, ◌≤ℤ◌, ◌-ℤ◌, cond, pos};
ghost use Rattle.vr_model.specs.routes.Costs.{penalty_for, penalty_part};
ghost use Rattle.vr_model.specs.routes.Routes.{is_empty, route_cost};
ghost use Rattle.vr_model.specs.routes.Rules.{active_in};
ghost use Rattle.vr_model.specs.tables.Tables.{vehicle_at};
ghost use Rattle.vr_model.specs.tables.Limits.{greatest_cost};
ghost use Rattle.vr_model.specs.tables.WellFormed.{IsIn, WherePresent};
ghost use Rattle.vr_check.specs.Terms.{IsAround};

use crate::numbers::times;
use crate::printed::VehicleRoute;
use crate::visits::active_in as count_active;
use vr_model::{Closed, Group, Seq};

/// The costs of the arcs of a route, added up; 0 of one without visits, whose vehicle is not used.
pub(crate) fn arcs_of_route(on: &VehicleRoute<'_>) -> i128
    ensures value { result ≡ route_cost on.now.closed.model.now on.now.v on.now.list.now }
    ensures low { pos 0 ≤ℤ result }
    ensures high { result ≤ℤ pos (2 ^ 104) }
{
    let model = on.closed.model;
    let list = on.list;
    if list.is_empty() {
        return 0;
    }
    let v = on.v as u32;
    let ends = model.vehicles.get(on.v);
    let mut at = ends.start;
    let mut total: i128 = 0;
    for &node in list {
        total += i128::from(model.arc_cost(v, at, node));
        at = node;
    }
    total + i128::from(model.arc_cost(v, at, ends.end))
}

/// What the use of the vehicle of a route costs.
pub(crate) fn fixed_of_route(on: &VehicleRoute<'_>) -> i64
    ensures value { result
        ≡ cond (is_empty on.now.list.now) (pos 0) (vehicle_at on.now.closed.model.now on.now.v).fixed }
    ensures low { pos 0 ≤ℤ result }
    ensures high { result ≤ℤ pos (2 ^ 40) }
{
    if on.list.is_empty() {
        0
    } else {
        on.closed.model.vehicles.get(on.v).fixed
    }
}

// How many nodes fewer of a group are active than may be: not negative, since the rule on groups was asked before.
fn lacking(lists: &[Seq<u32>], group: &Group) -> i128
    ensures value { result ≡ pos group.now.max -ℤ pos (active_in lists.now group.now) }
    ensures range { IsAround (2 ^ 66) result }
{
    i128::from(group.max) - i128::from(count_active(lists, group) as u64)
}

// What a group costs.
fn penalty_of_group(lists: &[Seq<u32>], group: &Group) -> i128
    requires { WherePresent (IsIn (pos 0) greatest_cost) group.now.penalty }
    ensures value { result ≡ penalty_for group.now.penalty group.now.max (active_in lists.now group.now) }
    ensures range { IsAround (2 ^ 106) result }
{
    match group.penalty {
        None => 0,
        Some(penalty) => times(penalty, lacking(lists, group)),
    }
}

/// The penalty part.
pub(crate) fn penalty_of(closed: Closed<'_>, lists: &[Seq<u32>]) -> i128
    ensures { result ≡ penalty_part closed.entry.model.now lists.now }
{
    let mut total: i128 = 0;
    for g in 0..closed.model.groups.len() {
        total += penalty_of_group(lists, closed.model.groups.get(g));
    }
    total
}
