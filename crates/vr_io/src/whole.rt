//! All bytes of a source, and all bytes to a sink.

ghost use Rattle.std.specs.Prelude.{◌≡◌, ◌≢◌, ◌↔◌, ◌≤◌, ◌<◌, List, ℕ, Some, Err, length, IfOk, OnOk, OnErr, IsErrOf};
ghost use Rattle.vr_io.specs.Edges.{Rose, Took};
ghost use Rattle.vr_io.specs.Whole.{GaveAll, GaveFront, GaveMore, TookFront, UnlessFault};

use crate::{Sink, Source};
use std::alloc::Global;
use thiserror::Error;

/// Why a source was not read to its end.
#[derive(Clone, Copy, Debug, PartialEq, Eq, Error)]
pub enum ReadError {
    /// The source failed.
    #[error("reading failed")]
    ReadFault,

    /// More bytes came than were allowed.
    #[error("there are too many bytes")]
    TooLong,

    /// Out of memory.
    #[error("out of memory")]
    NoMemory,
}

/// Writing failed: the sink did.
#[derive(Clone, Copy, Debug, PartialEq, Eq, Error)]
#[error("writing failed")]
pub struct WriteFault;

// The most bytes of one read.
const PIECE: usize = 1 << 16;

/// All bytes up to the end of input, of which there are at most `max`.
///
/// `TooLong` comes exactly if more came before the end; then more than `max` bytes were taken. `ReadFault` comes
/// exactly if the source failed in this call: no read that failed is tried again. After any error some bytes of the
/// front may be gone.
pub fn read_all<S: Source>(alloc: Global, source: &mut S, max: u64) -> Result<Vec<u8>, ReadError>
    ensures ok { IfOk result (λ bytes. GaveAll (S.left source.old) (S.left source.new) bytes.items) }
    ensures short { IfOk result (λ bytes. length bytes.items ≤ max) }

    ensures too_long { IsErrOf result ReadError.TooLong → GaveMore (S.left source.old) (S.left source.new) max }
    ensures long { (bytes : List ℕ) → S.left source.old ≡ Some bytes
        → result ≢ Err ReadError.ReadFault → result ≢ Err ReadError.NoMemory
        → (result ≡ Err ReadError.TooLong) ↔ (max < length bytes) }

    ensures fault { IsErrOf result ReadError.ReadFault → Rose (S.faults source.old) (S.faults source.new) }
    ensures quiet { UnlessFault result (S.faults source.new ≡ S.faults source.old) }
    ensures grows { S.faults source.old ≤ S.faults source.new }
    ensures front { OnErr result (GaveFront (S.left source.old) (S.left source.new)) }
{
    let mut all = Vec::new(alloc);
    let mut buf = [0u8; PIECE];
    let mut room = max;
    loop {
        let Ok(n) = source.read(&mut buf) else {
            return Err(ReadError::ReadFault);
        };
        if n == 0 {
            return Ok(all);
        }
        if n as u64 > room {
            return Err(ReadError::TooLong);
        }
        room -= n as u64;
        if all.extend_from_slice(&buf[..n]).is_err() {
            return Err(ReadError::NoMemory);
        }
    }
}

/// Writes all these bytes, and takes no memory. `WriteFault` comes exactly if the sink failed in this call: no write
/// that failed is tried again. A front of the bytes was taken then.
pub fn write_all<K: Sink>(sink: &mut K, bytes: &[u8]) -> Result<(), WriteFault>
    ensures ok { OnOk result (Took (K.written sink.old) (K.written sink.new) bytes.now) }
    ensures err { OnErr result (TookFront (K.written sink.old) (K.written sink.new) bytes.now) }
    ensures fault { OnErr result (Rose (K.faults sink.old) (K.faults sink.new)) }
    ensures quiet { OnOk result (K.faults sink.new ≡ K.faults sink.old) }
    ensures grows { K.faults sink.old ≤ K.faults sink.new }
{
    let mut at = 0;
    while at < bytes.len() {
        let Ok(n) = sink.write(&bytes[at..]) else {
            return Err(WriteFault);
        };
        at += n;
    }
    Ok(())
}
