//! Bytes in memory that are given out from the front.

ghost use Rattle.std.specs.Prelude.{◌≡◌, ◌≤◌, ◌++◌, length, take, drop, min};

use std::marker::Model;

// The bytes that are left, as contracts see them.
#[derive(Drop)]
pub(crate) struct Remaining {
    bytes: Vec<u8>,
    at: usize,
}

impl Model for Remaining {
    ghost use Rattle.std.specs.Prelude.{◌≤◌, List, ℕ, drop, vec_len};

    ghost Value = { List ℕ };

    ghost view = { λ r. drop r.at r.bytes.items };

    ghost invariant = { λ r. r.at ≤ vec_len r.bytes };
}

impl Remaining {
    pub(crate) fn new(bytes: Vec<u8>) -> Self
        ensures { result ≡ bytes.items }
    {
        Remaining { bytes, at: 0 }
    }

    // Copies as many bytes as there are, and as the buffer takes, to the front of the buffer.
    pub(crate) fn give(&mut self, buf: &mut [u8]) -> usize
        ensures number { result ≡ min (length self.old) (length buf.new) }
        ensures given { take result buf.new ≡ take result self.old }
        ensures left { self.new ≡ drop result self.old }
    {
        let left = &self.bytes[self.at..];
        let n = left.len().min(buf.len());
        buf[..n].copy_from_slice(&left[..n]);
        self.at += n;
        n
    }
}
