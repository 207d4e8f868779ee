//! What no contract of `vr_io` says. Calls which take memory succeed, a sink over a writer flushes it, and std's
//! readers and writers give what they should.

ghost use Rattle.std.specs.Prelude.{◌≤◌};

use std::alloc::Global;
use std::io::{self, ErrorKind, Read, Write};
use std::test::Fail;
use vr_io::{
    MemSink, MemSource, ReadError, Sink, Source, StdSink, StdSource, WriteFault, read_all,
    write_all,
};

const TEXT: &str = "{\"cost\":18}\n";

// Whether all of a source is this text, or it is refused so.
fn is_read<S: Source>(
    alloc: Global,
    source: &mut S,
    max: u64,
    want: Result<&str, ReadError>,
) -> bool {
    match (read_all(alloc, source, max), want) {
        (Ok(all), Ok(text)) => all.as_slice() == text.as_bytes(),
        (Err(error), Err(wanted)) => error == wanted,
        _ => false,
    }
}

fn is_taken<K: Sink>(sink: &mut K, want: Result<(), WriteFault>) -> bool {
    write_all(sink, TEXT.as_bytes()) == want
}

// A source that gives a few bytes a call is read to its end.
#[test]
fn a_source_is_read_to_its_end(rt: HostRuntime) -> Result<(), Fail> {
    let bytes = Vec::from_slice(rt.alloc(), TEXT.as_bytes())?;
    let mut source = MemSource::new(bytes, 5, Vec::new(rt.alloc()));
    assert!(rt; is_read(rt.alloc(), &mut source, 12, Ok(TEXT)));
    Ok(())
}

// A sink with room takes a whole text.
#[test]
fn a_sink_takes_the_text(rt: HostRuntime) -> Result<(), Fail> {
    let alloc = rt.alloc();
    let mut sink = MemSink::new(alloc, 7, Vec::new(alloc)).map_err(|_| "memory")?;
    assert!(rt; is_taken(&mut sink, Ok(())));
    assert!(rt; sink.bytes() == TEXT.as_bytes());
    Ok(())
}

// A reader that gives one byte, then fails, then goes on. And a writer that takes at most five bytes a call, counts its
// flushes and fails in one of them.
#[derive(Drop)]
struct Scripted {
    calls: usize,
    flushes: usize,
    fails: usize,
}

impl Read for Scripted {
    fn read(&mut self, buf: &mut [u8]) -> io::Result<usize> {
        self.calls = self.calls.saturating_add(1);
        if self.calls == self.fails {
            return Err(io::Error::from(ErrorKind::BrokenPipe));
        }
        let n = if self.calls < 4 { buf.len().min(1) } else { 0 };
        buf[..n].fill(b'x');
        Ok(n)
    }
}

impl Write for Scripted {
    fn write(&mut self, buf: &[u8]) -> io::Result<usize> {
        self.calls = self.calls.saturating_add(1);
        Ok(buf.len().min(5))
    }

    fn flush(&mut self) -> io::Result<()> {
        self.flushes = self.flushes.saturating_add(1);
        if self.flushes == self.fails {
            return Err(io::Error::from(ErrorKind::BrokenPipe));
        }
        Ok(())
    }
}

// A source over a reader knows a fault from the end, and the next read goes on.
#[test]
fn a_reader_is_read_to_its_end_or_fault(rt: HostRuntime) -> Result<(), Fail> {
    let alloc = rt.alloc();
    assert!(rt; is_read(alloc, &mut StdSource::new(TEXT.as_bytes()), 12, Ok(TEXT)));
    let mut source = StdSource::new(Scripted {
        calls: 0,
        flushes: 0,
        fails: 2,
    });
    assert!(rt; is_read(alloc, &mut source, 12, Err(ReadError::ReadFault)));
    assert!(rt; is_read(alloc, &mut source, 12, Ok("x")));
    Ok(())
}

// A sink over a writer flushes each piece that was taken, and a flush that fails is a fault.
#[test]
fn a_writer_is_flushed_after_each_write(rt: HostRuntime) {
    for (fails, want, calls, flushes) in [(9, Ok(()), 3, 3), (2, Err(WriteFault), 2, 2)] {
        let mut writer = Scripted {
            calls: 0,
            flushes: 0,
            fails,
        };
        assert!(rt;
            is_taken(&mut StdSink::new(&mut writer), want),
            "fails: {fails}"
        );
        assert_eq!(rt;
            (writer.calls, writer.flushes),
            (calls, flushes),
            "fails: {fails}"
        );
    }
}

// What a writer took, and how it ends if it has no more room.
#[test]
fn a_writer_takes_the_text(rt: HostRuntime) {
    let mut taken = Vec::new(rt.alloc());
    assert!(rt; is_taken(&mut StdSink::new(&mut taken), Ok(())));
    assert!(rt; taken.as_slice() == TEXT.as_bytes());
    let mut short = [0; 7];
    assert!(rt; is_taken(&mut StdSink::new(&mut short[..]), Err(WriteFault)));
    assert!(rt; short.as_slice() == b"{\"cost\"".as_slice());
}
