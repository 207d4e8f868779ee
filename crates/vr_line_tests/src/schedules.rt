//! Chosen schedules of lines of one visit, by each way to ask for them.

ghost use Rattle.vr_steps.specs.Lines.{IsSoundLine};

use crate::lines::{line_in, model_of};
use std::alloc::Global;
use std::test::Fail;
use vr_model::{Closed, NoMemory, ScheduleRule};
use vr_plan::{Chooser, Plan, chosen_cumuls, schedule, schedule_over};
use vr_reach::{Cumuls, Rows, Stops, StopsFor, write_earliest};
use vr_samples::read_model_text;
use vr_steps::Line;

// A schedule, without cumuls if there is none.
struct Wanted {
    cumuls: &'static [i64],
    slacks: &'static [i64],
    breaks: &'static [i64],
}

// The fields of a dimension, and the schedule of the line in it that is chosen under each rule. The last says whether
// the earliest cumuls are found stop by stop.
struct Row {
    name: &'static str,
    fields: &'static str,
    earliest: Wanted,
    tight: Wanted,
    early: bool,
}

// The visit allows six runs, more than are held in place; the first that is reached from 0 with transit 5 is 9.
#[rattlefmt::skip]
static WAITING: [Row; 8] = [
    Row { name: "no wait is long enough", early: false,
        earliest: Wanted { cumuls: &[], slacks: &[], breaks: &[] },
        tight: Wanted { cumuls: &[], slacks: &[], breaks: &[] },
        fields: r#""evaluators":[{"matrix":0}],"slack_max":3,"capacity":100,"fix_start":true,
"nodes":[{"node":1,"forbidden":[[5,8],[10,12],[14,16],[18,20],[22,24]]}]"# },
    Row { name: "the start waits", early: false,
        earliest: Wanted { cumuls: &[1, 9, 14], slacks: &[3, 0], breaks: &[] },
        tight: Wanted { cumuls: &[4, 9, 14], slacks: &[0, 0], breaks: &[] },
        fields: r#""evaluators":[{"matrix":0}],"slack_max":3,"capacity":100,
"nodes":[{"node":1,"forbidden":[[5,8],[10,12],[14,16],[18,20],[22,24]]}]"# },
    Row { name: "the vehicle waits", early: false,
        earliest: Wanted { cumuls: &[0, 9, 14], slacks: &[4, 0], breaks: &[] },
        tight: Wanted { cumuls: &[0, 9, 14], slacks: &[4, 0], breaks: &[] },
        fields: r#""evaluators":[{"matrix":0}],"slack_max":4,"capacity":100,"fix_start":true,
"nodes":[{"node":1,"forbidden":[[5,8],[10,12],[14,16],[18,20],[22,24]]}]"# },
    Row { name: "a slack of the whole horizon", early: true,
        earliest: Wanted { cumuls: &[0, 68719476736, 68719476736], slacks: &[68719476736, 0], breaks: &[] },
        tight: Wanted { cumuls: &[68719476736, 68719476736, 68719476736], slacks: &[0, 0], breaks: &[] },
        fields: r#""evaluators":[{"matrix":2}],"slack_max":68719476736,"capacity":68719476736,
"nodes":[{"node":1,"window":[68719476736,68719476736]}]"# },
    Row { name: "no wait", early: true,
        earliest: Wanted { cumuls: &[0, 5, 10], slacks: &[0, 0], breaks: &[] },
        tight: Wanted { cumuls: &[0, 5, 10], slacks: &[0, 0], breaks: &[] },
        fields: r#""evaluators":[{"matrix":0}],"slack_max":0,"capacity":100"# },
    Row { name: "all the wait that there is", early: true,
        earliest: Wanted { cumuls: &[0, 8, 13], slacks: &[3, 0], breaks: &[] },
        tight: Wanted { cumuls: &[3, 8, 13], slacks: &[0, 0], breaks: &[] },
        fields: r#""evaluators":[{"matrix":0}],"slack_max":3,"capacity":100,"nodes":[{"node":1,"window":[8,20]}]"# },
    Row { name: "the start waits for a window", early: false,
        earliest: Wanted { cumuls: &[1, 9, 14], slacks: &[3, 0], breaks: &[] },
        tight: Wanted { cumuls: &[4, 9, 14], slacks: &[0, 0], breaks: &[] },
        fields: r#""evaluators":[{"matrix":0}],"slack_max":3,"capacity":100,"nodes":[{"node":1,"window":[9,20]}]"# },
    Row { name: "too late", early: false,
        earliest: Wanted { cumuls: &[], slacks: &[], breaks: &[] },
        tight: Wanted { cumuls: &[], slacks: &[], breaks: &[] },
        fields: r#""evaluators":[{"matrix":0}],"slack_max":3,"capacity":9"# },
];

#[rattlefmt::skip]
static BREAKS: [Row; 3] = [
    Row { name: "a break on the way", early: false,
        earliest: Wanted { cumuls: &[0, 15, 25], slacks: &[5, 0], breaks: &[4] },
        tight: Wanted { cumuls: &[0, 15, 25], slacks: &[5, 0], breaks: &[4] },
        fields: r#""evaluators":[{"matrix":1}],"slack_max":20,"capacity":100,"fix_start":true,"visit":[2,2],
"breaks":[{"vehicle":0,"breaks":[{"from":4,"to":6,"duration":5}]}]"# },
    Row { name: "a break during a visit", early: false,
        earliest: Wanted { cumuls: &[], slacks: &[], breaks: &[] },
        tight: Wanted { cumuls: &[], slacks: &[], breaks: &[] },
        fields: r#""evaluators":[{"matrix":1}],"slack_max":20,"capacity":100,"fix_start":true,"visit":[7,7],
"breaks":[{"vehicle":0,"breaks":[{"from":4,"to":6,"duration":5}]}]"# },
    Row { name: "a break before and one after", early: false,
        earliest: Wanted { cumuls: &[5, 15, 25], slacks: &[0, 0], breaks: &[0, 40] },
        tight: Wanted { cumuls: &[5, 15, 25], slacks: &[0, 0], breaks: &[0, 40] },
        fields: r#""evaluators":[{"matrix":1}],"slack_max":0,"capacity":100,"visit":[2,2],
"breaks":[{"vehicle":0,"breaks":[{"from":0,"to":0,"duration":5},{"from":40,"to":50,"duration":5}]}]"# },
];

// Each rule chooses another schedule.
#[rattlefmt::skip]
static UNLIKE: [Row; 3] = [
    Row { name: "the vehicle waits at home", early: true,
        earliest: Wanted { cumuls: &[0, 30, 40], slacks: &[20, 0], breaks: &[] },
        tight: Wanted { cumuls: &[20, 30, 40], slacks: &[0, 0], breaks: &[] },
        fields: r#""evaluators":[{"matrix":1}],"slack_max":20,"capacity":100,"nodes":[{"node":1,"window":[30,40]}]"# },
    Row { name: "the start may not be late, nor the end early", early: false,
        earliest: Wanted { cumuls: &[0, 30, 60], slacks: &[20, 20], breaks: &[] },
        tight: Wanted { cumuls: &[20, 30, 60], slacks: &[0, 20], breaks: &[] },
        fields: r#""evaluators":[{"matrix":1}],"slack_max":20,"capacity":100,
"starts":[{"vehicle":0,"window":[0,20]}],"ends":[{"vehicle":0,"window":[60,100]}]"# },
    Row { name: "several runs at the visit and at the end", early: false,
        earliest: Wanted { cumuls: &[14, 30, 41], slacks: &[6, 1], breaks: &[] },
        tight: Wanted { cumuls: &[21, 31, 41], slacks: &[0, 0], breaks: &[] },
        fields: r#""evaluators":[{"matrix":1}],"slack_max":6,"capacity":100,"starts":[{"vehicle":0,"window":[0,60]}],
"nodes":[{"node":1,"forbidden":[[0,19],[25,29],[34,49]]}],
"ends":[{"vehicle":0,"forbidden":[[21,40],[43,44],[91,100]]}]"# },
];

#[rattlefmt::skip]
static UNLIKE_BY_BREAKS: [Row; 6] = [
    Row { name: "a break at 0 is taken before the start", early: false,
        earliest: Wanted { cumuls: &[0, 15, 25], slacks: &[5, 0], breaks: &[0] },
        tight: Wanted { cumuls: &[5, 15, 25], slacks: &[0, 0], breaks: &[0] },
        fields: r#""evaluators":[{"matrix":1}],"slack_max":20,"capacity":100,
"breaks":[{"vehicle":0,"breaks":[{"from":0,"to":0,"duration":5}]}]"# },
    Row { name: "a break inside the first arc", early: false,
        earliest: Wanted { cumuls: &[10, 40, 50], slacks: &[20, 0], breaks: &[33] },
        tight: Wanted { cumuls: &[25, 40, 50], slacks: &[5, 0], breaks: &[33] },
        fields: r#""evaluators":[{"matrix":1}],"slack_max":20,"capacity":100,"nodes":[{"node":1,"window":[40,50]}],
"breaks":[{"vehicle":0,"breaks":[{"from":33,"to":34,"duration":5}]}]"# },
    Row { name: "a break inside the second arc", early: false,
        earliest: Wanted { cumuls: &[0, 30, 45], slacks: &[20, 5], breaks: &[35] },
        tight: Wanted { cumuls: &[20, 30, 45], slacks: &[0, 5], breaks: &[35] },
        fields: r#""evaluators":[{"matrix":1}],"slack_max":20,"capacity":100,"nodes":[{"node":1,"window":[30,40]}],
"breaks":[{"vehicle":0,"breaks":[{"from":35,"to":36,"duration":5}]}]"# },
    Row { name: "a break after the end", early: false,
        earliest: Wanted { cumuls: &[0, 30, 40], slacks: &[20, 0], breaks: &[45] },
        tight: Wanted { cumuls: &[20, 30, 40], slacks: &[0, 0], breaks: &[45] },
        fields: r#""evaluators":[{"matrix":1}],"slack_max":20,"capacity":100,"nodes":[{"node":1,"window":[30,40]}],
"breaks":[{"vehicle":0,"breaks":[{"from":45,"to":60,"duration":5}]}]"# },
    Row { name: "breaks before, inside and after", early: false,
        earliest: Wanted { cumuls: &[0, 30, 40], slacks: &[20, 0], breaks: &[2, 24, 44] },
        tight: Wanted { cumuls: &[15, 30, 40], slacks: &[5, 0], breaks: &[0, 24, 44] },
        fields: r#""evaluators":[{"matrix":1}],"slack_max":20,"capacity":100,"nodes":[{"node":1,"window":[30,40]}],
"visit":[2,2],"breaks":[{"vehicle":0,"breaks":[{"from":0,"to":5,"duration":10},{"from":24,"to":26,"duration":5},
{"from":44,"to":60,"duration":5}]}]"# },
    Row { name: "the earliest start does not end first", early: false,
        earliest: Wanted { cumuls: &[0, 13, 18], slacks: &[8, 0], breaks: &[8] },
        tight: Wanted { cumuls: &[5, 10, 15], slacks: &[0, 0], breaks: &[0] },
        fields: r#""evaluators":[{"matrix":0}],"slack_max":20,"capacity":60,"visit":[8,8],
"breaks":[{"vehicle":0,"breaks":[{"from":0,"to":8,"duration":5}]}]"# },
];

// The vehicle is tight; the two dimensions of its list have different arcs and ask different cumuls.
const TWO_DIMENSIONS: &str = r#"{"format":2,"nodes":2,"matrices":[[[0,5],[5,0]],[[0,10],[10,0]]],
"vehicles":[{"start":0,"end":0,"schedule":"tight"}],"dimensions":[
{"name":"time","evaluators":[{"matrix":1}],"slack_max":20,"capacity":100,"nodes":[{"node":1,"window":[30,40]}]},
{"name":"turns","evaluators":[{"matrix":0}],"slack_max":3,"capacity":100,
"nodes":[{"node":1,"forbidden":[[5,8],[10,12],[14,16],[18,20],[22,24]]}]}]}"#;

// What is wanted in each of them.
#[rattlefmt::skip]
static IN_EACH_DIMENSION: [Wanted; 2] = [
    Wanted { cumuls: &[20, 30, 40], slacks: &[0, 0], breaks: &[] },
    Wanted { cumuls: &[4, 9, 14], slacks: &[0, 0], breaks: &[] },
];

fn is_wanted(found: Result<Option<Plan>, NoMemory>, wanted: &Wanted) -> bool {
    match found {
        Ok(Some(plan)) => {
            plan.cumuls.as_slice() == wanted.cumuls
                && plan.slacks.as_slice() == wanted.slacks
                && plan.breaks.as_slice() == wanted.breaks
        }
        Ok(None) => wanted.cumuls.is_empty(),
        Err(_) => false,
    }
}

// Whether the schedule is chosen over rows that are known.
fn is_found_over_rows(alloc: Global, line: &Line, rule: ScheduleRule, wanted: &Wanted) -> bool
    requires { IsSoundLine line.now }
{
    match Rows::build(alloc, line) {
        Ok(rows) => is_wanted(schedule_over(alloc, line, &rows, rule), wanted),
        Err(_) => false,
    }
}

fn has_cumuls(alloc: Global, line: &Line, rule: ScheduleRule, wanted: &Wanted) -> bool
    requires { IsSoundLine line.now }
{
    match chosen_cumuls(alloc, line, rule) {
        Ok(Some(cumuls)) => cumuls.as_slice() == wanted.cumuls,
        Ok(None) => wanted.cumuls.is_empty(),
        Err(_) => false,
    }
}

// The same by a place that is written over.
fn chooses(
    alloc: Global,
    chooser: &mut Chooser,
    line: &Line,
    rule: ScheduleRule,
    wanted: &[i64],
) -> bool
    requires { IsSoundLine line.now }
{
    match chooser.choose(alloc, line, rule) {
        Ok(true) => chooser.cumuls() == wanted,
        Ok(false) => wanted.is_empty(),
        Err(_) => false,
    }
}

// Whether each way to ask for the schedule of a line under a rule finds the wanted one.
fn all_find(
    alloc: Global,
    chooser: &mut Chooser,
    line: &Line,
    rule: ScheduleRule,
    wanted: &Wanted,
) -> bool
    requires { IsSoundLine line.now }
{
    is_wanted(schedule(alloc, line, rule), wanted)
        && is_found_over_rows(alloc, line, rule, wanted)
        && has_cumuls(alloc, line, rule, wanted)
        && chooses(alloc, chooser, line, rule, wanted.cumuls)
}

// Whether the cumuls of the list of node 1 are found stop by stop exactly if the row says so.
fn is_early(alloc: Global, closed: Closed<'_>, row: &Row) -> bool {
    if closed.model.dimensions.len() == 0 {
        return false;
    }
    if !closed.model.is_visit(1) {
        return false;
    }
    match Stops::build(alloc, closed, 0) {
        Ok(of_dimension) => {
            let mut cumuls = Cumuls::new();
            let stops = StopsFor {
                closed,
                d: 0,
                v: 0,
                of_dimension: &of_dimension,
            };
            let found = write_earliest(&stops, &[1], &mut cumuls);
            found == row.early && (!found || cumuls.as_slice() == row.earliest.cumuls)
        }
        Err(_) => false,
    }
}

fn holds_of(alloc: Global, chooser: &mut Chooser, closed: Closed<'_>, row: &Row) -> bool {
    match line_in(alloc, closed.model, 0) {
        Some(line) => {
            all_find(alloc, chooser, &line, ScheduleRule::Earliest, &row.earliest)
                && all_find(alloc, chooser, &line, ScheduleRule::Tight, &row.tight)
        }
        None => false,
    }
}

fn holds(alloc: Global, chooser: &mut Chooser, row: &Row) -> bool {
    match model_of(alloc, row.fields) {
        Some(model) => {
            holds_of(alloc, chooser, Closed { model: &model }, row)
                && is_early(alloc, Closed { model: &model }, row)
        }
        None => false,
    }
}

// The rows hold, one after another, with one place for all.
fn all_hold(alloc: Global, rows: &[Row]) -> Result<(), Fail> {
    let mut chooser = Chooser::new(alloc);
    for row in rows {
        if !holds(alloc, &mut chooser, row) {
            return Err(Fail::new(row.name));
        }
    }
    Ok(())
}

// Whether the rule of vehicle 0 chooses the wanted schedule in a dimension.
fn holds_in(
    alloc: Global,
    chooser: &mut Chooser,
    closed: Closed<'_>,
    d: u32,
    wanted: &Wanted,
) -> bool {
    if closed.model.vehicles.len() == 0 {
        return false;
    }
    let rule = closed.model.vehicles.get(0).schedule;
    match line_in(alloc, closed.model, d) {
        Some(line) => all_find(alloc, chooser, &line, rule, wanted),
        None => false,
    }
}

// Whether it does so in both dimensions, one after another, with one place for both.
fn holds_in_both(alloc: Global, closed: Closed<'_>) -> bool {
    let mut chooser = Chooser::new(alloc);
    holds_in(alloc, &mut chooser, closed, 0, &IN_EACH_DIMENSION[0])
        && holds_in(alloc, &mut chooser, closed, 1, &IN_EACH_DIMENSION[1])
}

#[test]
fn a_stop_waits_where_it_may(rt: HostRuntime) -> Result<(), Fail> {
    all_hold(rt.alloc(), &WAITING)
}

#[test]
fn breaks_are_taken_where_they_fit(rt: HostRuntime) -> Result<(), Fail> {
    all_hold(rt.alloc(), &BREAKS)
}

#[test]
fn each_rule_chooses_a_schedule_of_its_own(rt: HostRuntime) -> Result<(), Fail> {
    all_hold(rt.alloc(), &UNLIKE)
}

#[test]
fn breaks_are_taken_before_a_tight_start_inside_and_after(rt: HostRuntime) -> Result<(), Fail> {
    all_hold(rt.alloc(), &UNLIKE_BY_BREAKS)
}

#[test]
fn a_tight_vehicle_is_tight_in_each_dimension(rt: HostRuntime) -> Result<(), Fail> {
    match read_model_text(rt.alloc(), TWO_DIMENSIONS) {
        Some(model) => {
            if holds_in_both(rt.alloc(), Closed { model: &model }) {
                Ok(())
            } else {
                Err(Fail::new("two dimensions of a tight vehicle"))
            }
        }
        None => Err(Fail::new("the model is not read")),
    }
}
