//! What is asked of a run: words, an input, and what is answered.

use std::alloc::Global;
use std::process::Abort;
use std::test::Fail;
use vr_app::run;
use vr_io::{PureSink, PureSource, Sink, Source};
use vr_watch::{Stopper, Watch};

/// Words that are parted by spaces, an input, and the status and the text that are wanted.
#[derive(Clone, Copy)]
pub(crate) struct Row<'a> {
    pub(crate) words: &'a str,
    pub(crate) input: &'a str,
    /// After how many events a watcher refuses one; none watches if this is `None`.
    pub(crate) stops: Option<u64>,
    pub(crate) status: u8,
    /// All that is written if it ends a line or is empty, and else the beginning.
    pub(crate) text: &'a str,
}

// The words of a line.
fn words_of(alloc: Global, line: &str) -> Result<Vec<String>, Fail> {
    let mut words = Vec::new(alloc);
    for word in line.split(' ') {
        words.push(String::from_str(alloc, word)?)?;
    }
    Ok(words)
}

// The watchers of a run: the one that refuses an event, if there is one.
fn watchers(alloc: Global, stops: Option<u64>) -> Result<Vec<Box<dyn Watch>>, Fail> {
    let mut watch: Vec<Box<dyn Watch>> = Vec::new(alloc);
    if let Some(at) = stops {
        watch.push(Box::new(alloc, Stopper::new(alloc, at))?)?;
    }
    Ok(watch)
}

/// The status of a run between these devices.
pub(crate) fn ended<S: Source, K: Sink>(
    alloc: Global,
    line: &str,
    stops: Option<u64>,
    source: &mut S,
    sink: &mut K,
) -> Result<u8, Fail> {
    let words = words_of(alloc, line)?;
    Ok(run(alloc, &words, source, sink, watchers(alloc, stops)?))
}

// Whether this is written.
fn is_written(bytes: &[u8], text: &str) -> bool {
    if text.is_empty() || text.ends_with('\n') {
        bytes == text.as_bytes()
    } else {
        bytes.starts_with(text.as_bytes())
    }
}

/// Asserts what is answered to a source. The sink has room for 100000 bytes.
pub(crate) fn assert_source(
    rt: &impl Abort,
    alloc: Global,
    source: &mut PureSource,
    row: Row<'_>,
) -> Result<(), Fail> {
    let (words, input, stops) = (row.words, row.input, row.stops);
    let mut sink = PureSink::new(Vec::from_elem(alloc, 0, 100000)?);
    let status = ended(alloc, words, stops, source, &mut sink)?;
    assert_eq!(rt; status, row.status, "{words}, {stops:?}, {input}");
    assert!(rt;
        is_written(sink.bytes(), row.text),
        "{words}, {stops:?}, {input}"
    );
    Ok(())
}

/// Asserts a row.
pub(crate) fn assert_row(rt: &impl Abort, alloc: Global, row: Row<'_>) -> Result<(), Fail> {
    let mut source = PureSource::new(Vec::from_slice(alloc, row.input.as_bytes())?);
    assert_source(rt, alloc, &mut source, row)
}
