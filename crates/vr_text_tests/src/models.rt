//! A model is read and one is generated, with ample memory; what the formats say of rules of schedules.

use crate::values::is_refused;
use serde_json::Value;
use std::alloc::Global;
use std::test::Fail;
use vr_gen::generate;
use vr_json::{Path, ReadFail};
use vr_model::{Model, ScheduleRule};
use vr_read::read_model;
use vr_samples::{all_hold, read_model_text};

// Every table that a short text can have: five nodes, of which 1 to 4 are visits.
const FULL: &str =
    "{\"format\":1,\"nodes\":5,\"matrices\":[[[0,1,2,3,4],[5,0,7,8,9],[1,1,0,1,1],[2,2,2,0,2],[3,3,3,3,0]]],\
\"vehicles\":[{\"start\":0,\"end\":0,\"fixed\":6,\"policy\":\"fifo\"},{\"start\":0,\"end\":0}],\
\"dimensions\":[{\"name\":\"time\",\
\"evaluators\":[{\"matrix\":0},{\"values\":[1,2,3,4,5]}],\"vehicle_evaluators\":[1,0],\
\"slack_max\":9,\"capacity\":[68719476737,20],\"fix_start\":true,\
\"nodes\":[{\"node\":2,\"window\":[3,8],\"forbidden\":[[4,5]],\"soft\":{\"bound\":6,\"coefficient\":7}}],\
\"ends\":[{\"vehicle\":1}],\
\"breaks\":[{\"vehicle\":0,\"breaks\":[{\"from\":1,\"to\":2,\"duration\":3}]}],\"span_cost\":4}],\
\"groups\":[{\"nodes\":[3,1],\"penalty\":11}],\
\"pairs\":[{\"pickup\":2,\"delivery\":4}],\"allowed\":[{\"node\":2,\"vehicles\":[1,0]}],\
\"search\":{\"improve\":\"NONE\",\"lambda\":[2,3]}}";

// How many rows the tables of the text have.
fn has_tables(model: &Model) -> bool {
    [
        model.matrices.len(),
        model.vehicles.len(),
        model.dimensions.len(),
        model.groups.len(),
        model.pairs.len(),
        model.allowed.len(),
        model.search.neighbourhoods.len(),
    ] == [1, 2, 1, 1, 1, 1, 11]
}

#[test]
fn a_model_is_read(rt: HostRuntime) -> Result<(), Fail> {
    let model = read_model_text(rt.alloc(), FULL).ok_or("no model")?;
    assert!(rt; has_tables(&model));
    Ok(())
}

#[test]
fn a_model_is_generated(rt: HostRuntime) -> Result<(), Fail> {
    let tree = generate(rt.alloc(), 7).map_err(|_| "memory")?;
    assert!(rt; tree.get("nodes").is_some());
    Ok(())
}

// A model, and the rules of schedules of its vehicles, or the code and the path with which it is refused.
type Row = (
    &'static str,
    &'static str,
    Result<&'static [ScheduleRule], (u8, &'static str)>,
);

static ROWS: [Row; 8] = [
    (
        "a rule left out in format 1",
        r#"{"format":1,"nodes":1,"matrices":[[[0]]],"vehicles":[{"start":0,"end":0}]}"#,
        Ok(&[ScheduleRule::Earliest]),
    ),
    (
        "a rule left out in format 2",
        r#"{"format":2,"nodes":1,"matrices":[[[0]]],"vehicles":[{"start":0,"end":0}]}"#,
        Ok(&[ScheduleRule::Earliest]),
    ),
    (
        "each rule by its word",
        r#"{"format":2,"nodes":1,"matrices":[[[0]]],
"vehicles":[{"start":0,"end":0,"schedule":"tight"},{"start":0,"end":0,"schedule":"earliest"}]}"#,
        Ok(&[ScheduleRule::Tight, ScheduleRule::Earliest]),
    ),
    (
        "a rule in format 1",
        r#"{"format":1,"nodes":1,"matrices":[[[0]]],"vehicles":[{"start":0,"end":0,"schedule":"tight"}]}"#,
        Err((13, "/vehicles/0/schedule")),
    ),
    (
        "a rule by no word",
        r#"{"format":2,"nodes":1,"matrices":[[[0]]],"vehicles":[{"start":0,"end":0,"schedule":"loose"}]}"#,
        Err((17, "/vehicles/0/schedule")),
    ),
    (
        "a format below the first",
        r#"{"format":0,"nodes":1,"matrices":[[[0]]],"vehicles":[{"start":0,"end":0}]}"#,
        Err((14, "/format")),
    ),
    (
        "a format behind the last",
        r#"{"format":3,"nodes":1,"matrices":[[[0]]],"vehicles":[{"start":0,"end":0}]}"#,
        Err((14, "/format")),
    ),
    (
        "savings of vehicles with two rules",
        r#"{"format":2,"nodes":1,"matrices":[[[0]]],"search":{"first":"SAVINGS"},
"vehicles":[{"start":0,"end":0,"schedule":"tight"},{"start":0,"end":0}]}"#,
        Err((23, "/search/first")),
    ),
];

// Whether the vehicles have these rules, in order.
fn has_rules(model: &Model, rules: &[ScheduleRule]) -> bool {
    let vehicles = model.vehicles.as_slice();
    vehicles.len() == rules.len()
        && vehicles
            .iter()
            .zip(rules)
            .all(|(vehicle, rule)| vehicle.schedule as u8 == *rule as u8)
}

fn is_read(answer: Result<Model, ReadFail>, row: &Row) -> bool {
    match (answer, row.2) {
        (Ok(model), Ok(rules)) => has_rules(&model, rules),
        (Err(fail), Err((code, path))) => is_refused(&fail, code, path),
        _ => false,
    }
}

fn holds(alloc: Global, row: &Row) -> bool {
    match Value::from_str(alloc, row.1) {
        Ok(value) => is_read(read_model(alloc, &value, &Path::root(alloc)), row),
        Err(_) => false,
    }
}

#[test]
fn formats_are_read(rt: HostRuntime) -> Result<(), Fail> {
    all_hold(&ROWS, &|row: &Row| (row.0, holds(rt.alloc(), row)))
}
