//! A row for each reply: with ample memory it is given. Its bytes are in the contract, and those of many models in the
//! cases of the built program. And what ends a run that is watched.

use crate::run_rows::{Row, assert_row, assert_source};
use std::alloc::Global;
use std::process::Abort;
use std::test::Fail;
use vr_io::PureSource;

pub(crate) const THREE_NODES: &str =
    "{\"format\":1,\"nodes\":3,\"matrices\":[[[0,5,9],[5,0,4],[9,4,0]]],\"vehicles\":[{\"start\":0,\"end\":0}]}";

pub(crate) const FIRST: &str = "{\"cost\":18,\"dropped\":[],\"first_cost\":18,\
    \"parts\":{\"arcs\":18,\"fixed\":0,\"global\":0,\"penalty\":0,\"soft\":0,\"span\":0},\
    \"routes\":[{\"dimensions\":[],\"nodes\":[0,1,2,0],\"vehicle\":0}],\
    \"solutions\":1,\"status\":\"ROUTING_SUCCESS\",\"stop\":\"first\",\"tries\":0}\n";

// No solution meets its capacity.
const NONE: &str = "{\"format\":1,\"nodes\":3,\"matrices\":[[[0,5,9],[5,0,4],[9,4,0]]],\
    \"vehicles\":[{\"start\":0,\"end\":0}],\"dimensions\":[{\"name\":\"t\",\"evaluators\":[{\"matrix\":0}],\
    \"slack_max\":0,\"capacity\":3}]}";

// One node, and a solution of it.
const CHECKED: &str = "{\"model\":{\"format\":1,\"nodes\":1,\"matrices\":[[[0]]],\
    \"vehicles\":[{\"start\":0,\"end\":0}]},\"solution\":{\"cost\":0,\"dropped\":[],\"first_cost\":0,\
    \"parts\":{\"arcs\":0,\"fixed\":0,\"global\":0,\"penalty\":0,\"soft\":0,\"span\":0},\
    \"routes\":[{\"dimensions\":[],\"nodes\":[],\"vehicle\":0}],\
    \"solutions\":1,\"status\":\"ROUTING_SUCCESS\",\"stop\":\"first\",\"tries\":0}}";

// A visit that may not begin from 5 to 8: the printed route starts at 1, waits, and is 13 long. A start at 4 does not
// wait.
const WAITING: &str = "{\"model\":{\"format\":1,\"nodes\":2,\"matrices\":[[[0,5],[5,0]]],\
    \"vehicles\":[{\"start\":0,\"end\":0}],\"dimensions\":[{\"name\":\"time\",\
    \"evaluators\":[{\"matrix\":0}],\"slack_max\":3,\"capacity\":100,\"nodes\":[{\"node\":1,\"forbidden\":[[5,8]]}]}]},\
    \"solution\":{\"cost\":10,\"dropped\":[],\"first_cost\":10,\
    \"parts\":{\"arcs\":10,\"fixed\":0,\"global\":0,\"penalty\":0,\"soft\":0,\"span\":0},\
    \"routes\":[{\"dimensions\":[{\"breaks\":[],\"cumuls\":[1,9,14],\"name\":\"time\",\"slacks\":[3,0]}],\
    \"nodes\":[0,1,0],\"vehicle\":0}],\
    \"solutions\":1,\"status\":\"ROUTING_SUCCESS\",\"stop\":\"first\",\"tries\":0}}";

const SPANS: &str =
    "{\"spans\":[{\"cumuls\":[4,9,14],\"dimension\":\"time\",\"least\":10,\"printed\":13,\
    \"slacks\":[0,0],\"vehicle\":0}],\"status\":\"SPANS\"}\n";

// A file of three nodes in the plane, and its model with one vehicle.
const FILE: &str =
    "NAME : t3\nTYPE : CVRP\nDIMENSION : 3\nEDGE_WEIGHT_TYPE : EUC_2D\nCAPACITY : 10\n\
    NODE_COORD_SECTION\n1 0 0\n2 3 4\n3 1 1\nDEMAND_SECTION\n1 0\n2 4\n3 5\nDEPOT_SECTION\n1\n-1\nEOF\n";

const IMPORTED: &str = "{\"dimensions\":[{\"capacity\":10,\"evaluators\":[{\"values\":[0,4,5]}],\
    \"fix_start\":true,\"name\":\"load\",\"slack_max\":0}],\"format\":1,\
    \"matrices\":[[[0,5,1],[5,0,4],[1,4,0]]],\"nodes\":3,\"vehicles\":[{\"end\":0,\"start\":0}]}\n";

// The search has two events: the first solution, and a move that drops node 2.
const DROPPED: &str = "{\"format\":1,\"nodes\":3,\"matrices\":[[[0,5,9],[5,0,4],[9,4,0]]],\
    \"vehicles\":[{\"start\":0,\"end\":0}],\"groups\":[{\"nodes\":[2],\"penalty\":3}]}";

const DROPPED_LINE: &str = "{\"cost\":13,\"dropped\":[2],\"first_cost\":18,\
    \"parts\":{\"arcs\":10,\"fixed\":0,\"global\":0,\"penalty\":3,\"soft\":0,\"span\":0},\
    \"routes\":[{\"dimensions\":[],\"nodes\":[0,1,0],\"vehicle\":0}],\
    \"solutions\":2,\"status\":\"ROUTING_SUCCESS\",\"stop\":\"optimum\",\"tries\":10}\n";

#[rattlefmt::skip]
static ROWS: [Row<'static>; 17] = [
    Row { words: "first", input: THREE_NODES, stops: None, status: 0, text: FIRST },
    Row { words: "solve", input: THREE_NODES, stops: None, status: 0, text: "{\"cost\":18," },
    Row { words: "solve --log", input: THREE_NODES, stops: None, status: 0, text: "{\"cost\":18," },
    Row { words: "check", input: CHECKED, stops: None, status: 0, text: "{\"cost\":0,\"status\":\"MEETS\"}\n" },
    Row { words: "spans", input: CHECKED, stops: None, status: 0, text: "{\"spans\":[],\"status\":\"SPANS\"}\n" },
    Row { words: "spans", input: WAITING, stops: None, status: 0, text: SPANS },
    Row { words: "import 1", input: FILE, stops: None, status: 0, text: IMPORTED },
    Row { words: "generate 7", input: "", stops: None, status: 0, text: "{\"dimensions\":" },
    Row { words: "demo 7", input: "", stops: None, status: 0, text: "{\"cost\":" },
    Row { words: "last", input: "", stops: None, status: 1, text: "{\"status\":\"USAGE\"}\n" },
    Row { words: "import", input: FILE, stops: None, status: 1, text: "{\"status\":\"USAGE\"}\n" },
    Row { words: "import 101", input: FILE, stops: None, status: 1, text: "{\"status\":\"USAGE\"}\n" },
    Row { words: "first", input: "[", stops: None, status: 4, text: "{\"status\":\"NOT_JSON\"}\n" },
    Row { words: "first", input: "[]", stops: None, status: 5, text: "{\"code\":11,\"path\":\"\"," },
    Row { words: "import 1", input: "TYPE : TSP", stops: None, status: 5, text: "{\"code\":42,\"path\":\"/1\"," },
    Row { words: "first", input: NONE, stops: None, status: 6, text: "{\"status\":\"ROUTING_FAIL\"}\n" },
    Row { words: "check", input: "{\"model\":{}}", stops: None, status: 5,
        text: "{\"code\":10,\"path\":\"/model/format\"," },
];

#[test]
fn each_reply_is_given(rt: HostRuntime) -> Result<(), Fail> {
    for row in ROWS {
        assert_row(&rt, rt.alloc(), row)?;
    }
    Ok(())
}

// Asserts what is said of one byte more than is read: 64 MiB of spaces, and another.
fn assert_too_long(rt: &impl Abort, alloc: Global, words: &str) -> Result<(), Fail> {
    let mut source = PureSource::new(Vec::from_elem(alloc, b' ', 67108865)?);
    let row = Row {
        words,
        input: "64 MiB and 1",
        stops: None,
        status: 8,
        text: "{\"status\":\"TOO_LONG\"}\n",
    };
    assert_source(rt, alloc, &mut source, row)
}

#[test]
fn a_long_input_is_refused(rt: HostRuntime) -> Result<(), Fail> {
    assert_too_long(&rt, rt.alloc(), "first")?;
    assert_too_long(&rt, rt.alloc(), "import 1")
}

// Without `--log` no event is noted.
#[rattlefmt::skip]
static WATCHED: [Row<'static>; 4] = [
    Row { words: "solve", input: DROPPED, stops: Some(0), status: 0, text: DROPPED_LINE },
    Row { words: "solve --log", input: DROPPED, stops: Some(0), status: 7, text: "" },
    Row { words: "solve --log", input: DROPPED, stops: Some(1), status: 7, text: "" },
    Row { words: "solve --log", input: DROPPED, stops: Some(2), status: 0, text: DROPPED_LINE },
];

#[test]
fn a_watcher_that_refuses_ends_the_run(rt: HostRuntime) -> Result<(), Fail> {
    for row in WATCHED {
        assert_row(&rt, rt.alloc(), row)?;
    }
    Ok(())
}
