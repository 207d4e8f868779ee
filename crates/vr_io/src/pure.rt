//! A source and a sink in memory that never fail: for tests alone.

ghost use Rattle.std.specs.Prelude.{◌≡◌, ◌≤◌, ◌+◌, ◌++◌, List, ℕ, [], false, length, take, drop, min, Some, IfSome};
ghost use Rattle.std.specs.Prelude.{IfOk, OnErr, Ok, vec_len};
ghost use Rattle.vr_io.specs.Edges.{Rose, Gave, EndsAtEnd, Took};
ghost use Rattle.vr_io.specs.Kept.{known_bytes, keeping};

use crate::remaining::Remaining;
use crate::{Failed, Sink, Source};
use std::marker::Model;

/// Gives bytes in memory, as many in each call as fit. All of them are known, and it never fails.
#[derive(Drop)]
pub struct PureSource {
    bytes: Remaining,
}

impl Model for PureSource {
    ghost use Rattle.std.specs.Prelude.{List, ℕ};

    ghost Value = { List ℕ };

    ghost view = { λ s. s.bytes };
}

impl PureSource {
    /// A source of these bytes.
    pub fn new(bytes: Vec<u8>) -> Self
        ensures { result ≡ bytes.items }
    {
        PureSource {
            bytes: Remaining::new(bytes),
        }
    }
}

impl Source for PureSource {
    ghost left = { λ s. Some s };

    ghost faults = { λ _. 0 };

    /// As the trait says. As many bytes come as there are and as `buf` has room for; `number` says it.
    fn read(&mut self, buf: &mut [u8]) -> Result<usize, Failed>
        ensures bound { IfOk result (λ n. n ≤ length buf.new) }
        ensures gives { IfOk result (λ n. Gave (Some self.old) (Some self.new) (take n buf.new)) }
        ensures ends { IfOk result (λ n. EndsAtEnd (Some self.old) (length buf.new) n) }
        ensures kept { OnErr result (Some self.new ≡ Some self.old) }
        ensures grows { 0 ≤ 0 }
        ensures cause { OnErr result (Rose 0 0) }
        ensures number { result ≡ Ok (min (length self.old) (length buf.new)) }
    {
        Ok(self.bytes.give(buf))
    }
}

/// Keeps bytes in a room of a fixed length, which it overwrites, and never fails. Bytes beyond the room are taken and
/// not kept. From then on it is not known what it took. `taken` counts the bytes that are kept, and `full` says that
/// some were not: a room that is just filled is not `full`.
#[derive(Drop)]
pub struct PureSink {
    room: Vec<u8>,
    taken: usize,
    full: bool,
}

impl Model for PureSink {
    ghost use Rattle.vr_io.specs.Kept.{Kept};
    ghost use Rattle.std.specs.Prelude.{◌≤◌, take, vec_len};

    ghost Value = { Kept };

    ghost view = { λ s. record { bytes = take s.taken s.room.items; room = vec_len s.room; lost = s.full } };

    ghost invariant = { λ s. s.taken ≤ vec_len s.room };
}

impl PureSink {
    /// A sink with this room.
    pub fn new(room: Vec<u8>) -> Self
        ensures { result ≡ record { bytes = []; room = length room.items; lost = false } }
    {
        PureSink {
            room,
            taken: 0,
            full: false,
        }
    }

    /// The bytes that were kept: all that were taken, as long as there was room for them.
    pub fn bytes(&self) -> &[u8]
        ensures kept { result.now ≡ self.now.bytes }
        ensures known { IfSome (known_bytes self.now) (λ all. result.now ≡ all) }
    {
        &self.room[..self.taken]
    }

    // Keeps as much of the piece as there is room for.
    fn keep(&mut self, piece: &[u8])
        ensures { self.new ≡ keeping piece.now self.old }
    {
        let n = piece.len().min(self.room.len() - self.taken);
        put(&mut self.room, self.taken, &piece[..n]);
        self.taken += n;
        if n < piece.len() {
            self.full = true;
        }
    }
}

impl Sink for PureSink {
    ghost written = { known_bytes };

    ghost faults = { λ _. 0 };

    /// As the trait says; every byte of the piece is taken.
    fn write(&mut self, piece: &[u8]) -> Result<usize, Failed>
        ensures takes { IfOk result (λ n. Took (known_bytes self.old) (known_bytes self.new) (take n piece.now)) }
        ensures number { result ≡ Ok (length piece.now) }
        ensures keeps { self.new ≡ keeping piece.now self.old }
    {
        self.keep(piece);
        Ok(piece.len())
    }
}

// Writes the piece into the room, from this place on.
fn put(room: &mut Vec<u8>, at: usize, piece: &[u8])
    requires { at + length piece.now ≤ vec_len room.old }
    ensures bytes { take (at + length piece.now) room.new.items ≡ take at room.old.items ++ piece.now }
    ensures len { vec_len room.new ≡ vec_len room.old }
{
    room[at..at + piece.len()].copy_from_slice(piece);
}
