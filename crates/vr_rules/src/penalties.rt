//! What groups with a penalty cost that have fewer active nodes than they may have.

ghost use Rattle.std.specs.Prelude.{◌≡◌, ◌<◌, ◌≤◌, ◌*◌, ◌^◌, ◌-ℤ◌, ◌≤ℤ◌};
ghost use Rattle.std.specs.Prelude.{pos, All, IsTrue, count_by, length};
ghost use Rattle.std.specs.List.{list_all};
ghost use Rattle.vr_model.specs.tables.Numbers.{total_by};
ghost use Rattle.vr_model.specs.tables.Limits.{greatest_cost};
ghost use Rattle.vr_model.specs.tables.WellFormed.{IsIn, WherePresent};
ghost use Rattle.vr_rules.specs.Placing.{fits_by, is_marked, penalty_by};

use crate::groups::count_marked;
use vr_model::{Closed, Group};

// How many nodes fewer of a group are marked than may be.
fn missing(marks: &[bool], group: &Group) -> i64
    requires nodes { All (λ node. node < length marks.now) group.now.nodes }
    requires few { group.now.max ≤ 1000 }
    requires fits { count_by (is_marked marks.now) group.now.nodes ≤ group.now.max }
    ensures value { result ≡ (pos group.now.max -ℤ pos (count_by (is_marked marks.now) group.now.nodes)) }
    ensures low { pos 0 ≤ℤ result }
    ensures high { result ≤ℤ pos 1000 }
{
    group.max as i64 - count_marked(marks, group.nodes.as_slice()) as i64
}

// What a group costs with its marked nodes: nothing without a penalty.
fn penalty_of_group(marks: &[bool], group: &Group) -> i64
    requires nodes { All (λ node. node < length marks.now) group.now.nodes }
    requires few { group.now.max ≤ 1000 }
    requires penalty { WherePresent (IsIn (pos 0) greatest_cost) group.now.penalty }
    requires fits { count_by (is_marked marks.now) group.now.nodes ≤ group.now.max }
    ensures value { result ≡ penalty_by marks.now group.now }
    ensures low { pos 0 ≤ℤ result }
    ensures high { result ≤ℤ pos (2 ^ 40 * 1000) }
{
    match group.penalty {
        Some(penalty) => penalty * missing(marks, group),
        None => 0,
    }
}

// What all groups cost with the marked nodes. A group with a penalty costs the penalty times how many nodes fewer are
// marked than may be. With a penalty of 50, one node marked and three that may be, that is 100.
pub(crate) fn penalty_of_groups(closed: Closed<'_>, marks: &[bool]) -> i64
    requires marks { length marks.now ≡ closed.model.now.nodes }
    requires fit { IsTrue (list_all (fits_by marks.now) closed.model.now.groups) }
    ensures value { result ≡ total_by (penalty_by marks.now) closed.entry.model.now.groups }
    ensures low { pos 0 ≤ℤ result }
    ensures high { result ≤ℤ pos (2 ^ 40 * 1000 * 1000) }
{
    let mut total = 0;
    for k in 0..closed.model.groups.len() {
        total += penalty_of_group(marks, closed.model.groups.get(k));
    }
    total
}
