//! Standard input and output, or any other reader and writer of std, as a source and a sink. What std's readers and
//! writers give is trusted: a source or a sink over them tells no bytes.

ghost use Rattle.std.specs.Prelude.{◌≡◌, ◌≤◌, ◌<◌, [], None, Ok, IfOk, OnErr, is_err, length, take, if◌then◌else◌};
ghost use Rattle.std.specs.Io.KnownBytes.{Keeps, Consumes, IsAtEnd, Appends};
ghost use Rattle.vr_io.specs.Edges.{risen, AppendsFront};

use crate::{Failed, Sink, Source};
use std::io::{Read, Write};
use std::marker::Model;

/// A reader of std as a source. It is read once a call, and an error of the reader is a fault.
pub type StdSource<R> = StdDevice<R>;

/// A writer of std as a sink. It is flushed after each write, as nobody does it later. Each error of the writer or of
/// its flush is a fault.
pub type StdSink<W> = StdDevice<W>;

/// A reader or a writer of std. As a source or a sink it tells no bytes. Contracts see it as the reader or writer and
/// the number of its errors, which stays at 2^64 - 1. A write that takes nothing is one of the errors.
#[derive(Drop)]
pub struct StdDevice<D> {
    device: D,
    errors: u64,
}

impl<D> Model for StdDevice<D> {
    ghost use Rattle.std.specs.Prelude.{ℕ};

    ghost Value = { D × ℕ };

    ghost view = { λ s. (s.device, s.errors) };
}

impl<D> StdDevice<D> {
    /// A source or a sink over this reader or writer, with no error so far.
    pub fn new(device: D) -> Self
        ensures { result ≡ (device, 0) }
    {
        StdDevice { device, errors: 0 }
    }

    // One more error.
    fn failed(&mut self) -> Failed
        ensures counts { self.new ≡ (self.old.0, risen self.old.1) }
        ensures grows { self.old.1 ≤ self.new.1 }
    {
        self.errors = self.errors.saturating_add(1);
        Failed
    }
}

impl<R: Read> Source for StdDevice<R> {
    ghost left = { λ _. None };

    ghost faults = { λ s. s.1 };

    /// As the trait says. An error of the reader is a fault, and takes no byte that the reader is known to have. No
    /// clause says that no error is passed over by reading once more, since a reader of std counts none; tests do.
    fn read(&mut self, buf: &mut [u8]) -> Result<usize, Failed>
        ensures bound { IfOk result (λ n. n ≤ length buf.new) }
        ensures gives { IfOk result (λ n. Consumes (R.remaining self.old.0) (R.remaining self.new.0) (take n buf.new)) }
        ensures ends { IfOk result (λ n. n ≡ 0 → 0 < length buf.new → IsAtEnd (R.remaining self.new.0)) }
        ensures keeps { OnErr result (Keeps (R.remaining self.old.0) (R.remaining self.new.0)) }
        ensures grows { self.old.1 ≤ self.new.1 }
        ensures counts { self.new.1 ≡ (if is_err result then risen self.old.1 else self.old.1) }
    {
        match self.device.read(buf) {
            Ok(n) => Ok(n),
            Err(_) => Err(self.failed()),
        }
    }
}

impl<W: Write> Sink for StdDevice<W> {
    ghost written = { λ _. None };

    ghost faults = { λ s. s.1 };

    /// As the trait says. Each error of the writer or of its flush is a fault, and so are zero bytes taken of a piece
    /// that is not empty. In a fault a front of the piece may have been taken: a flush that fails comes after it.
    fn write(&mut self, piece: &[u8]) -> Result<usize, Failed>
        ensures bound { IfOk result (λ n. n ≤ length piece.now) }
        ensures some { IfOk result (λ n. 0 < length piece.now → 0 < n) }
        ensures empty { piece.now ≡ [] → result ≡ Ok 0 }
        ensures takes { IfOk result (λ n. Appends (W.contents self.old.0) (W.contents self.new.0) (take n piece.now)) }
        ensures front { OnErr result (AppendsFront (W.contents self.old.0) (W.contents self.new.0) piece.now) }
        ensures grows { self.old.1 ≤ self.new.1 }
        ensures counts { self.new.1 ≡ (if is_err result then risen self.old.1 else self.old.1) }
    {
        if piece.is_empty() {
            return Ok(0);
        }
        match self.device.write(piece) {
            Ok(n) if n > 0 && self.device.flush().is_ok() => Ok(n),
            _ => Err(self.failed()),
        }
    }
}
