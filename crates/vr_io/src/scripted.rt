//! A source and a sink in memory, for tests of what a caller does when a device fails. They move bytes in small pieces,
//! and fail at the calls that a script names.

ghost use Rattle.std.specs.Prelude.{◌≡◌, ◌≤◌, ◌<◌, ◌^◌, [], is_err, length, take, min, Some, IfOk, OnErr, OnOk};
ghost use Rattle.vr_io.specs.Edges.{Rose, Gave, EndsAtEnd, Took};
ghost use Rattle.vr_io.specs.Script.{unused, fails_next, after_call, to_take, refuses, writing};

use crate::remaining::Remaining;
use crate::script::Script;
use crate::{Failed, NoMemory, Sink, Source};
use std::alloc::Global;
use std::marker::Model;

// The room of a sink for which none is named.
const ROOM: usize = 1 << 20;

/// Gives bytes in memory, in pieces, and fails at the calls that its script names. What is left is known.
///
/// Its calls are numbered from 0. It counts its calls, and those that failed, which is its number of faults. Both
/// counters stay at 2^64 - 1.
#[derive(Drop)]
pub struct MemSource {
    bytes: Remaining,
    script: Script,
}

impl Model for MemSource {
    ghost use Rattle.vr_io.specs.Script.{Giving};

    ghost Value = { Giving };

    ghost view = { λ s. record { left = s.bytes; script = s.script } };
}

impl MemSource {
    /// A source of these bytes, of at most `piece` bytes a call, which fails at the calls whose numbers `fails` holds.
    pub fn new(bytes: Vec<u8>, piece: usize, fails: Vec<u64>) -> MemSource
        requires { 1 ≤ piece }
        ensures { result ≡ record { left = bytes.items; script = unused piece fails.items } }
    {
        MemSource {
            bytes: Remaining::new(bytes),
            script: Script::new(piece, fails),
        }
    }
}

impl Source for MemSource {
    ghost left = { λ s. Some s.left };

    ghost faults = { λ s. s.script.failed };

    /// As the trait says. A call fails exactly if `fails` holds its number. Every other call gives as many bytes as the
    /// least of the piece, the length of `buf` and what is left.
    fn read(&mut self, buf: &mut [u8]) -> Result<usize, Failed>
        ensures fails { is_err result ≡ fails_next self.old.script }
        ensures number { IfOk result
            (λ n. n ≡ min (min (length buf.new) self.old.script.piece) (length self.old.left)) }
        ensures gives { IfOk result (λ n. Gave (Some self.old.left) (Some self.new.left) (take n buf.new)) }
        ensures ends { IfOk result (λ n. EndsAtEnd (Some self.old.left) (length buf.new) n) }
        ensures kept { OnErr result (self.new.left ≡ self.old.left) }
        ensures grows { self.old.script.failed ≤ self.new.script.failed }
        ensures quiet { OnOk result (self.new.script.failed ≡ self.old.script.failed) }
        ensures counts { self.new.script ≡ after_call (fails_next self.old.script) self.old.script }
    {
        let fails = self.script.fails_next();
        self.script.count(fails);
        if fails {
            return Err(Failed);
        }
        let most = buf.len().min(self.script.piece());
        Ok(self.bytes.give(&mut buf[..most]))
    }
}

/// Takes bytes in pieces into a buffer of fixed capacity. It fails at the calls that its script names, and if the
/// buffer is too small. The bytes that it took are known. The buffer is as large as `room` from the beginning, so no
/// write takes memory.
///
/// Its calls are numbered from 0. It counts its calls, and those that failed, which is its number of faults. Both
/// counters stay at 2^64 - 1.
#[derive(Drop)]
pub struct MemSink {
    bytes: Vec<u8>,
    room: usize,
    script: Script,
}

impl Model for MemSink {
    ghost use Rattle.std.specs.Prelude.{◌≤◌, vec_len, vec_capacity};
    ghost use Rattle.vr_io.specs.Script.{Taking};

    ghost Value = { Taking };

    ghost view = { λ s. record { bytes = s.bytes.items; room = s.room; script = s.script } };

    ghost invariant = { λ s. (vec_len s.bytes ≤ s.room) × (s.room ≤ vec_capacity s.bytes) };
}

impl MemSink {
    /// A sink with room for 1 MiB, else as [`MemSink::with_room`].
    pub fn new(alloc: Global, piece: usize, fails: Vec<u64>) -> Result<MemSink, NoMemory>
        requires { 1 ≤ piece }
        ensures { IfOk result (λ s. s ≡ record { bytes = []; room = 2 ^ 20; script = unused piece fails.items }) }
    {
        MemSink::with_room(alloc, ROOM, piece, fails)
    }

    /// A sink with room for `room` bytes, which takes at most `piece` bytes a call and fails at the calls whose numbers
    /// `fails` holds. `new` alone calls it.
    pub fn with_room(
        alloc: Global,
        room: usize,
        piece: usize,
        fails: Vec<u64>,
    ) -> Result<MemSink, NoMemory>
        requires { 1 ≤ piece }
        ensures { IfOk result (λ s. s ≡ record { bytes = []; room = room; script = unused piece fails.items }) }
    {
        Ok(MemSink {
            bytes: Vec::with_capacity(alloc, room)?,
            room,
            script: Script::new(piece, fails),
        })
    }

    /// The bytes that were taken.
    pub fn bytes(&self) -> &[u8]
        ensures { result.now ≡ self.now.bytes }
    {
        &self.bytes
    }
}

impl Sink for MemSink {
    ghost written = { λ s. Some s.bytes };

    ghost faults = { λ s. s.script.failed };

    /// As the trait says. The bytes to take are as many as the least of the sink's piece and the length of `piece`. A
    /// call on a piece that is not empty fails in two cases alone: `fails` holds its number, or the bytes to take do
    /// not fit the room that is left. A call on an empty piece never fails, and is counted as any other.
    fn write(&mut self, piece: &[u8]) -> Result<usize, Failed>
        ensures fails { is_err result ≡ refuses self.old (length piece.now) }
        ensures number { IfOk result (λ n. n ≡ to_take self.old (length piece.now)) }
        ensures some { IfOk result (λ n. 0 < length piece.now → 0 < n) }
        ensures grows { self.old.script.failed ≤ self.new.script.failed }
        ensures quiet { OnOk result (self.new.script.failed ≡ self.old.script.failed) }
        ensures takes { IfOk result (λ n. Took (Some self.old.bytes) (Some self.new.bytes) (take n piece.now)) }
        ensures writes { self.new ≡ writing piece.now self.old }
    {
        let n = piece.len().min(self.script.piece());
        let fails = !piece.is_empty()
            && (self.script.fails_next() || self.room - self.bytes.len() < n);
        self.script.count(fails);
        if fails {
            return Err(Failed);
        }
        self.bytes.extend_from_slice(&piece[..n]).unwrap();
        Ok(n)
    }
}
