//! Which lists a vehicle may drive, and what routes cost.

ghost use Rattle.std.specs.Prelude.{IfOk, IsTrue};
ghost use Rattle.vr_model.specs.routes.Routes.{are_lists};
ghost use Rattle.vr_model.specs.routes.Rules.{is_valid};
ghost use Rattle.vr_model.specs.tables.WellFormed.{IsWellFormed};

use crate::named_rows::{PAIRED, row};
use std::alloc::Global;
use std::test::Fail;
use vr_model::{Closed, Model, NoMemory};
use vr_routes::Routes;
use vr_rules::{cost, route_open, total};
use vr_samples::{read_model_text, routes_of, valid_routes};

// Two nodes, and 5 from one to the other. Times go up to 100, with slacks up to 3. Node 1 may not be visited from 5 to
// 8, and each unit above 5 costs 2 there. The span of the vehicle costs 3 a unit, that of all vehicles 4.
const TIMED: &str =
    r#"{"format":1,"nodes":2,"matrices":[[[0,5],[5,0]]],"vehicles":[{"start":0,"end":0}],
"dimensions":[{"name":"t","evaluators":[{"matrix":0}],"slack_max":3,"capacity":100,"fix_start":false,
"nodes":[{"node":1,"forbidden":[[5,8]],"soft":{"bound":5,"coefficient":2}}],"span_cost":3,"global_span_cost":4}]}"#;

// Lists of the paired nodes, and whether a vehicle may drive them by its policy.
const DRIVEN: [(&str, &str, &[u32], bool); 8] = [
    ("any: pairs that cross", "any", &[1, 3, 2, 4], true),
    ("fifo: pairs that cross", "fifo", &[1, 3, 2, 4], true),
    ("lifo: pairs that cross", "lifo", &[1, 3, 2, 4], false),
    ("any: a pair inside another", "any", &[1, 3, 4, 2], true),
    ("lifo: a pair inside another", "lifo", &[1, 3, 4, 2], true),
    ("fifo: a pair inside another", "fifo", &[1, 3, 4, 2], false),
    ("any: a pair turned round", "any", &[2, 1, 3, 4], false),
    ("any: half a pair", "any", &[1, 3, 4], false),
];

// Whether the first vehicle may drive its list.
fn drives(alloc: Global, closed: Closed<'_>, routes: &Routes) -> Result<bool, NoMemory>
    requires lists { IsTrue (are_lists closed.model.now routes.now.lists) }
{
    route_open(alloc, closed.model, 0, routes.list(0))
}

// Whether the answer to whether the one vehicle may drive a list is this one.
fn answers(
    alloc: Global,
    closed: Closed<'_>,
    list: &[u32],
    wanted: bool,
) -> Result<bool, NoMemory> {
    match routes_of(alloc, closed.model, &[list])? {
        Some(routes) => Ok(drives(alloc, closed, &routes)? == wanted),
        None => Ok(false),
    }
}

// The model of pairs whose vehicle has this policy.
fn paired(alloc: Global, policy: &str) -> Result<Model, Fail>
    ensures { IfOk result IsWellFormed }
{
    let text = PAIRED.replace(alloc, "POLICY", policy)?;
    Ok(read_model_text(alloc, text.as_str()).ok_or("pairs")?)
}

// One of the lists above.
fn driven(
    alloc: Global,
    name: &'static str,
    policy: &str,
    list: &[u32],
    wanted: bool,
) -> Result<(), Fail> {
    let model = paired(alloc, policy)?;
    row(name, answers(alloc, Closed { model: &model }, list, wanted))
}

#[test]
fn lists_by_policy(rt: HostRuntime) -> Result<(), Fail> {
    for (name, policy, list, wanted) in DRIVEN {
        driven(rt.alloc(), name, policy, list, wanted)?;
    }
    Ok(())
}

// Whether valid routes of the times cost what they should: the cumuls are 1, 9 and 14.
fn costs(alloc: Global, closed: Closed<'_>, routes: &Routes) -> Result<bool, NoMemory>
    requires valid { IsTrue (is_valid closed.model.now routes.now.lists) }
{
    let total = total(alloc, closed.model, routes)?;
    let parts = cost(alloc, closed.model, routes)?;
    let parts = [
        parts.arcs,
        parts.fixed,
        parts.global,
        parts.penalty,
        parts.soft,
        parts.span,
    ];
    Ok(total == 109 && parts == [10, 0, 52, 0, 8, 39])
}

// The same of the routes with node 1, which are valid.
fn list_costs(alloc: Global, closed: Closed<'_>) -> Result<bool, NoMemory> {
    match valid_routes(alloc, closed.model, &[&[1]])? {
        Some(routes) => costs(alloc, closed, &routes),
        None => Ok(false),
    }
}

#[test]
fn parts_of_a_cost(rt: HostRuntime) -> Result<(), Fail> {
    let model = read_model_text(rt.alloc(), TIMED).ok_or("times")?;
    row(
        "the parts of a cost",
        list_costs(rt.alloc(), Closed { model: &model }),
    )
}
