//! Devices that fail at each call in turn, and input that is cut at each place.

use crate::replies::{FIRST, THREE_NODES};
use crate::run_rows::{Row, assert_row, ended};
use std::alloc::Global;
use std::process::Abort;
use std::test::Fail;
use vr_io::{MemSink, MemSource};

// The call of the source and that of the sink that fail, and the status and what is written.
type Failing<'a> = (u64, u64, u8, &'a str);

// Asserts what is answered to words and a source. The sink takes seven bytes a call.
fn assert_taken(
    rt: &impl Abort,
    alloc: Global,
    words: &str,
    source: &mut MemSource,
    failing: Failing<'_>,
) -> Result<(), Fail> {
    let (source_fails, sink_fails, status, written) = failing;
    let fails = Vec::from_slice(alloc, &[sink_fails])?;
    let mut sink = MemSink::new(alloc, 7, fails).expect(rt, "memory");
    let found = ended(alloc, words, None, source, &mut sink)?;
    assert_eq!(rt; found, status, "{source_fails} {sink_fails}");
    assert!(rt;
        sink.bytes() == written.as_bytes(),
        "{source_fails} {sink_fails}"
    );
    Ok(())
}

// Asserts the same. The source gives the model of three nodes, ten bytes a call.
fn assert_failing(
    rt: &impl Abort,
    alloc: Global,
    words: &str,
    failing: Failing<'_>,
) -> Result<(), Fail> {
    let (source_fails, _, _, _) = failing;
    let bytes = Vec::from_slice(alloc, THREE_NODES.as_bytes())?;
    let fails = Vec::from_slice(alloc, &[source_fails])?;
    let mut source = MemSource::new(bytes, 10, fails);
    assert_taken(rt, alloc, words, &mut source, failing)
}

// The call after those that are needed fails nobody.
#[test]
fn each_write_may_fail(rt: HostRuntime) -> Result<(), Fail> {
    let calls = FIRST.len().div_ceil(7);
    for call in 0..calls {
        let written = FIRST.get(..7 * call).ok_or("a front")?;
        assert_failing(&rt, rt.alloc(), "first", (99, call as u64, 3, written))?;
    }
    assert_failing(&rt, rt.alloc(), "last", (0, 1, 3, "{\"statu"))?;
    assert_failing(&rt, rt.alloc(), "first", (99, calls as u64, 0, FIRST))
}

// The last call is the one that meets the end of the input.
#[test]
fn each_read_may_fail(rt: HostRuntime) -> Result<(), Fail> {
    let calls = THREE_NODES.len().div_ceil(10) + 1;
    for call in 0..calls {
        assert_failing(&rt, rt.alloc(), "first", (call as u64, 99, 2, ""))?;
        assert_failing(&rt, rt.alloc(), "import 1", (call as u64, 99, 2, ""))?;
    }
    assert_failing(&rt, rt.alloc(), "first", (calls as u64, 99, 0, FIRST))
}

// Each proper beginning of a model.
#[test]
fn cut_input_is_no_json(rt: HostRuntime) -> Result<(), Fail> {
    for end in 0..THREE_NODES.len() {
        let row = Row {
            words: "first",
            input: THREE_NODES.get(..end).ok_or("a text")?,
            stops: None,
            status: 4,
            text: "{\"status\":\"NOT_JSON\"}\n",
        };
        assert_row(&rt, rt.alloc(), row)?;
    }
    Ok(())
}
