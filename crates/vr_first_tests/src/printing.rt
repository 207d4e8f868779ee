//! That there are a tree and a line of a solution, and the bytes of the line.

ghost use Rattle.std.specs.Prelude.{IsTrue};
ghost use Rattle.vr_model.specs.routes.Rules.{is_valid};

use crate::named_rows::row;
use std::alloc::Global;
use std::test::Fail;
use vr_model::{Closed, End, NoMemory, Report};
use vr_print::{solution_line, solution_tree};
use vr_routes::Routes;
use vr_samples::{read_model_text, valid_routes};

// Two visits, two vehicles and two dimensions, one of them with a break; the line is of one used vehicle.
const MODEL: &str = r#"{"format":1,"nodes":3,"matrices":[[[0,10,9],[10,0,9],[9,9,0]]],
"vehicles":[{"start":0,"end":0},{"start":0,"end":0}],"groups":[{"nodes":[2],"penalty":7}],
"dimensions":[{"name":"time","evaluators":[{"matrix":0}],"slack_max":20,"capacity":100,
"fix_start":true,"visit":[2,2,2],"breaks":[{"vehicle":0,"breaks":[{"from":4,"to":6,"duration":5}]}],"span_cost":2},
{"name":"load","evaluators":[{"values":[0,3,0]}],"slack_max":0,"capacity":5}]}"#;

const LINE: &str = "{\"cost\":77,\"dropped\":[2],\"first_cost\":80,\
\"parts\":{\"arcs\":20,\"fixed\":0,\"global\":0,\"penalty\":7,\"soft\":0,\"span\":50},\
\"routes\":[{\"dimensions\":[{\"breaks\":[4],\"cumuls\":[0,15,25],\"name\":\"time\",\"slacks\":[5,0]},\
{\"breaks\":[],\"cumuls\":[0,0,3],\"name\":\"load\",\"slacks\":[0,0]}],\
\"nodes\":[0,1,0],\"vehicle\":0},{\"dimensions\":[],\"nodes\":[],\"vehicle\":1}],\
\"solutions\":3,\"status\":\"ROUTING_SUCCESS\",\"stop\":\"tries\",\"tries\":5}\n";

const REPORT: Report = Report {
    tries: 5,
    solutions: 3,
    end: End::Tries,
};

// Whether the line of routes is the one above.
fn has_line(alloc: Global, closed: Closed<'_>, routes: &Routes) -> Result<bool, NoMemory>
    requires valid { IsTrue (is_valid closed.model.now routes.now.lists) }
{
    let line = solution_line(alloc, closed.model, routes, 80, REPORT)?;
    Ok(line.as_slice() == LINE.as_bytes())
}

// Whether there is a tree of routes, of which the contract says the rest.
fn has_tree(alloc: Global, closed: Closed<'_>, routes: &Routes) -> bool
    requires valid { IsTrue (is_valid closed.model.now routes.now.lists) }
{
    solution_tree(alloc, closed.model, routes, 80, REPORT).is_ok()
}

// Whether both are so of the routes that visit node 1 alone, which are valid.
fn prints(alloc: Global, closed: Closed<'_>) -> Result<bool, NoMemory> {
    match valid_routes(alloc, closed.model, &[&[1], &[]])? {
        Some(routes) => {
            Ok(has_tree(alloc, closed, &routes) && has_line(alloc, closed, &routes)?)
        }
        None => Ok(false),
    }
}

#[test]
fn breaks_cumuls_and_slacks_are_printed(rt: HostRuntime) -> Result<(), Fail> {
    let model = read_model_text(rt.alloc(), MODEL).ok_or("a model")?;
    row(
        "the line of a solution",
        prints(rt.alloc(), Closed { model: &model }),
    )
}
