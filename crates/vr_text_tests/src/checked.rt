//! Printed solutions of small models, what the check finds in them, and the lists that they print.

use serde_json::Value;
use std::alloc::Global;
use std::test::Fail;
use vr_check::{Finding, check};
use vr_model::{Closed, NoMemory};
use vr_printed::{Printed, printed_lists, read_printed};
use vr_samples::{all_hold, read_model_text};

// Three nodes.
const THREE: &str =
    r#"{"format":1,"nodes":3,"matrices":[[[0,5,9],[5,0,4],[9,4,0]]],"vehicles":[{"start":0,"end":0}]}"#;

// A visit comes again in its list.
const OF_THREE: &str = r#"{"cost":18,"dropped":[],"first_cost":18,
"parts":{"arcs":18,"fixed":0,"global":0,"penalty":0,"soft":0,"span":0},
"routes":[{"dimensions":[],"nodes":[0,1,2,1,0],"vehicle":0}],
"solutions":1,"status":"ROUTING_SUCCESS","stop":"first","tries":0}"#;

// Two pairs, and two vehicles of which the second may not visit node 4.
const PAIRS: &str =
    r#"{"format":1,"nodes":5,"matrices":[[[0,1,1,1,1],[1,0,1,1,1],[1,1,0,1,1],[1,1,1,0,1],[1,1,1,1,0]]],
"vehicles":[{"start":0,"end":0},{"start":0,"end":0}],
"pairs":[{"pickup":1,"delivery":2},{"pickup":3,"delivery":4}],"allowed":[{"node":4,"vehicles":[0]}]}"#;

// The second vehicle visits it.
const OF_PAIRS: &str = r#"{"cost":6,"dropped":[],"first_cost":6,
"parts":{"arcs":6,"fixed":0,"global":0,"penalty":0,"soft":0,"span":0},
"routes":[{"dimensions":[],"nodes":[0,1,2,0],"vehicle":0},{"dimensions":[],"nodes":[0,3,4,0],"vehicle":1}],
"solutions":1,"status":"ROUTING_SUCCESS","stop":"first","tries":0}"#;

// One visit with a soft bound, and a break on the way to it.
const TIMED: &str = r#"{"format":1,"nodes":2,"matrices":[[[0,10],[10,0]]],
"vehicles":[{"start":0,"end":0,"fixed":7}],
"dimensions":[{"name":"time","evaluators":[{"matrix":0}],"capacity":100,"slack_max":20,
"fix_start":true,"visit":[2,2],"span_cost":2,"global_span_cost":1,
"nodes":[{"node":1,"soft":{"bound":4,"coefficient":3}}],
"breaks":[{"vehicle":0,"breaks":[{"from":4,"to":6,"duration":5}]}]}]}"#;

const OF_TIMED: &str = r#"{"cost":135,"dropped":[],"first_cost":135,
"parts":{"arcs":20,"fixed":7,"global":25,"penalty":0,"soft":33,"span":50},
"routes":[{"dimensions":[{"breaks":[4],"cumuls":[0,15,25],"name":"time","slacks":[5,0]}],"nodes":[0,1,0],"vehicle":0}],
"solutions":1,"status":"ROUTING_SUCCESS","stop":"first","tries":0}"#;

// A model, a solution of it, and what is found in it: the rule, the vehicle and the place, or the cost. Last, a list
// that it prints.
type Row = (
    &'static str,
    &'static str,
    &'static str,
    Result<i64, (&'static str, i64, i64)>,
    &'static [u32],
);

#[rattlefmt::skip]
static ROWS: [Row; 3] = [
    ("a visit again in its list", THREE, OF_THREE, Err(("once", 0, 3)), &[1, 2, 1]),
    ("a vehicle that may not visit", PAIRS, OF_PAIRS, Err(("allowed", 1, 2)), &[3, 4]),
    ("all rules are kept", TIMED, OF_TIMED, Ok(135), &[1]),
];

fn is_found(found: Result<Finding, NoMemory>, row: &Row) -> bool {
    match (found, row.3) {
        (Ok(Finding::Meets { cost }), Ok(wanted)) => cost == wanted,
        (
            Ok(
                Finding::Broken {
                    rule,
                    vehicle,
                    place,
                },
            ),
            Err(wanted),
        ) => (rule.word(), vehicle, place) == wanted,
        _ => false,
    }
}

fn has_list(alloc: Global, printed: &Printed, row: &Row) -> bool {
    match printed_lists(alloc, printed.routes.as_slice()) {
        Ok(lists) => lists.iter().any(|list| list.as_slice() == row.4),
        Err(_) => false,
    }
}

fn prints(alloc: Global, closed: Closed<'_>, solution: &Value, row: &Row) -> bool {
    match read_printed(alloc, closed.model, solution) {
        Ok(Some(printed)) => has_list(alloc, &printed, row),
        _ => false,
    }
}

fn holds_of(alloc: Global, closed: Closed<'_>, row: &Row) -> bool {
    match Value::from_str(alloc, row.2) {
        Ok(solution) => {
            is_found(check(alloc, closed.model, &solution), row)
                && prints(alloc, closed, &solution, row)
        }
        Err(_) => false,
    }
}

fn holds(alloc: Global, row: &Row) -> bool {
    match read_model_text(alloc, row.1) {
        Some(model) => holds_of(alloc, Closed { model: &model }, row),
        None => false,
    }
}

#[test]
fn solutions_are_checked(rt: HostRuntime) -> Result<(), Fail> {
    all_hold(&ROWS, &|row: &Row| (row.0, holds(rt.alloc(), row)))
}
