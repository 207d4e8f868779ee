//! What no contract of `run` says: that each kind of reply is given if memory is ample, and what is left when a device
//! fails. A row that fails is named.

use crate::reply::run;
use std::alloc::Global;
use std::process::Abort;
use std::test::Fail;
use vr_io::{MemSink, MemSource, PureSink, PureSource, Sink, Source};
use vr_watch::{Stopper, Watch};

// Words that are parted by spaces, an input, and the status and the text that are wanted.
#[derive(Clone, Copy)]
struct Row<'a> {
    words: &'a str,
    input: &'a str,
    // After how many events a watcher refuses one; none watches if this is `None`.
    stops: Option<u64>,
    status: u8,
    // All that is written if it ends a line or is empty, and else the beginning.
    text: &'a str,
}

// Three nodes, of which 0 is the depot: 1 and then 2 cost 19, 2 and then 1 cost 4.
const ROUND: &str = "{\"model\":{\"format\":1,\"nodes\":3,\"matrices\":[[[0,1,2],[1,0,9],[9,1,0]]],\
    \"vehicles\":[{\"start\":0,\"end\":0}]},\"routes\":[[1,2]]}";

const PRICED: &str = "{\"cost\":19,\"dropped\":[],\"first_cost\":19,\
    \"parts\":{\"arcs\":19,\"fixed\":0,\"global\":0,\"penalty\":0,\"soft\":0,\"span\":0},\
    \"routes\":[{\"dimensions\":[],\"nodes\":[0,1,2,0],\"vehicle\":0}],\
    \"solutions\":1,\"status\":\"ROUTING_SUCCESS\",\"stop\":\"first\",\"tries\":0}\n";

// The same without node 2.
const OPEN: &str = "{\"model\":{\"format\":1,\"nodes\":3,\"matrices\":[[[0,1,2],[1,0,9],[9,1,0]]],\
    \"vehicles\":[{\"start\":0,\"end\":0}]},\"routes\":[[1]]}";

const MISSING: &str = "{\"place\":2,\"rule\":\"required\",\"status\":\"NOT_MET\",\"vehicle\":-1}\n";

// A pair of which the delivery comes first.
const CLOSED: &str =
    "{\"model\":{\"format\":1,\"nodes\":3,\"matrices\":[[[0,1,2],[1,0,9],[9,1,0]]],\
    \"vehicles\":[{\"start\":0,\"end\":0}],\"pairs\":[{\"pickup\":1,\"delivery\":2}]},\"routes\":[[2,1]]}";

// What ruin and recreate is asked, with one step: all visits are taken out and put back the other way round.
const WISHED: &str =
    "{\"model\":{\"format\":1,\"nodes\":3,\"matrices\":[[[0,1,2],[1,0,9],[9,1,0]]],\
    \"vehicles\":[{\"start\":0,\"end\":0}],\"search\":{\"tries\":1}},\"refine\":{}}";

// Two loads of 2 and two of 3 for two vans of 5: the construction puts the first two together.
const LACKING: &str =
    "{\"model\":{\"format\":1,\"nodes\":5,\"matrices\":[[[0,1,2,3,4],[1,0,1,2,3],[2,1,0,1,2],[3,2,1,0,1],[4,3,2,1,0]]],\
    \"vehicles\":[{\"start\":0,\"end\":0},{\"start\":0,\"end\":0}],\"search\":{\"tries\":0},\
    \"dimensions\":[{\"name\":\"load\",\"evaluators\":[{\"values\":[0,2,2,3,3]}],\"slack_max\":0,\"capacity\":5,\
    \"fix_start\":true}]},\"refine\":{}}";

#[rattlefmt::skip]
static ROWS: [Row<'static>; 19] = [
    Row { words: "price", input: ROUND, stops: None, status: 0, text: PRICED },
    Row { words: "price", input: OPEN, stops: None, status: 9, text: MISSING },
    Row { words: "price", input: CLOSED, stops: None, status: 9, text: "{\"place\":0,\"rule\":\"pair\"," },
    Row { words: "price", input: WISHED, stops: None, status: 5, text: "{\"code\":10,\"path\":\"/routes\"," },
    Row { words: "first", input: ROUND, stops: None, status: 0, text: PRICED },
    Row { words: "first", input: OPEN, stops: None, status: 0, text: "{\"cost\":4," },
    Row { words: "first", input: CLOSED, stops: None, status: 6, text: "{\"status\":\"ROUTING_FAIL\"}\n" },
    Row { words: "first", input: WISHED, stops: None, status: 0, text: "{\"cost\":19," },
    Row { words: "solve", input: ROUND, stops: None, status: 0, text: "{\"cost\":4,\"dropped\":[],\"first_cost\":19," },
    Row { words: "solve --log", input: ROUND, stops: None, status: 0, text: "{\"cost\":4," },
    Row { words: "solve", input: WISHED, stops: None, status: 0, text: "{\"cost\":4,\"dropped\":[],\"first_cost\":1" },
    Row { words: "solve", input: WISHED, stops: Some(0), status: 0, text: "{\"cost\":4," },
    Row { words: "solve --log", input: WISHED, stops: None, status: 0, text: "{\"cost\":4," },
    Row { words: "solve --log", input: WISHED, stops: Some(1), status: 7, text: "" },
    Row { words: "solve", input: LACKING, stops: None, status: 6, text: "{\"status\":\"ROUTING_FAIL\"}\n" },
    Row { words: "solve --log", input: ROUND, stops: Some(1), status: 7, text: "" },
    Row { words: "check", input: "", stops: None, status: 1, text: "{\"status\":\"USAGE\"}\n" },
    Row { words: "first", input: "[", stops: None, status: 4, text: "{\"status\":\"NOT_JSON\"}\n" },
    Row { words: "first", input: "[]", stops: None, status: 5, text: "{\"code\":11,\"path\":\"\"," },
];

// The words of a line.
fn words_of(alloc: Global, line: &str) -> Result<Vec<String>, Fail> {
    let mut words = Vec::new(alloc);
    for word in line.split(' ') {
        words.push(String::from_str(alloc, word)?)?;
    }
    Ok(words)
}

// The watchers of a run: the one that refuses an event, if there is one.
fn watchers(alloc: Global, stops: Option<u64>) -> Result<Vec<Box<dyn Watch>>, Fail> {
    let mut watch: Vec<Box<dyn Watch>> = Vec::new(alloc);
    if let Some(at) = stops {
        watch.push(Box::new(alloc, Stopper::new(alloc, at))?)?;
    }
    Ok(watch)
}

// The status of a run between these devices.
fn ended<S: Source, K: Sink>(
    alloc: Global,
    line: &str,
    stops: Option<u64>,
    source: &mut S,
    sink: &mut K,
) -> Result<u8, Fail> {
    let words = words_of(alloc, line)?;
    Ok(run(alloc, &words, source, sink, watchers(alloc, stops)?))
}

// Whether this is written.
fn is_written(bytes: &[u8], text: &str) -> bool {
    if text.is_empty() || text.ends_with('\n') {
        bytes == text.as_bytes()
    } else {
        bytes.starts_with(text.as_bytes())
    }
}

// Asserts what is answered to a source. The sink has room for 1000 bytes.
fn assert_source(
    rt: &impl Abort,
    alloc: Global,
    source: &mut PureSource,
    row: Row<'_>,
) -> Result<(), Fail> {
    let (words, input) = (row.words, row.input);
    let mut sink = PureSink::new(Vec::from_elem(alloc, 0, 1000)?);
    let status = ended(alloc, words, row.stops, source, &mut sink)?;
    assert_eq!(rt; status, row.status, "{words}, {input}");
    assert!(rt; is_written(sink.bytes(), row.text), "{words}, {input}");
    Ok(())
}

fn assert_row(rt: &impl Abort, alloc: Global, row: Row<'_>) -> Result<(), Fail> {
    let mut source = PureSource::new(Vec::from_slice(alloc, row.input.as_bytes())?);
    assert_source(rt, alloc, &mut source, row)
}

#[test]
fn each_reply_is_given(rt: HostRuntime) -> Result<(), Fail> {
    for row in ROWS {
        assert_row(&rt, rt.alloc(), row)?;
    }
    Ok(())
}

// One byte more than is read: 64 MiB of spaces, and another.
#[test]
fn a_long_input_is_refused(rt: HostRuntime) -> Result<(), Fail> {
    let mut source = PureSource::new(Vec::from_elem(rt.alloc(), b' ', 67108865)?);
    let row = Row {
        words: "first",
        input: "64 MiB and 1",
        stops: None,
        status: 8,
        text: "{\"status\":\"TOO_LONG\"}\n",
    };
    assert_source(&rt, rt.alloc(), &mut source, row)
}

// Asserts the status of `price` if this call of the source fails, or this one of the sink, and how much is written. The
// source gives ten bytes a call, and the sink takes seven.
fn assert_failing(
    rt: &impl Abort,
    alloc: Global,
    source_fails: u64,
    sink_fails: u64,
    status: u8,
    written: usize,
) -> Result<(), Fail> {
    let bytes = Vec::from_slice(alloc, ROUND.as_bytes())?;
    let mut source = MemSource::new(bytes, 10, Vec::from_slice(alloc, &[source_fails])?);
    let fails = Vec::from_slice(alloc, &[sink_fails])?;
    let mut sink = MemSink::new(alloc, 7, fails).expect(rt, "memory");
    let found = ended(alloc, "price", None, &mut source, &mut sink)?;
    assert_eq!(rt; found, status, "{source_fails} {sink_fails}");
    assert_eq!(rt; sink.bytes().len(), written, "{source_fails} {sink_fails}");
    Ok(())
}

#[test]
fn devices_may_fail(rt: HostRuntime) -> Result<(), Fail> {
    assert_failing(&rt, rt.alloc(), 1, 99, 2, 0)?;
    assert_failing(&rt, rt.alloc(), 99, 0, 3, 0)?;
    assert_failing(&rt, rt.alloc(), 99, 2, 3, 14)?;
    assert_failing(&rt, rt.alloc(), 99, 99, 0, PRICED.len())
}
