//! How the calls of a device in memory go: which of them fail, and how many bytes one moves.

ghost use Rattle.std.specs.Prelude.{◌≡◌, ◌≤◌, Bool};
ghost use Rattle.vr_io.specs.Script.{unused, fails_next, after_call};

use std::marker::Model;

// How the calls of a device go: the most bytes of one call, and the numbers of the calls that fail, from 0. Beside
// that, how many calls there were, and how many of them failed; both counters stay at 2^64 - 1.
#[derive(Drop)]
pub(crate) struct Script {
    piece: usize,
    fails: Vec<u64>,
    calls: u64,
    failed: u64,
}

impl Model for Script {
    ghost use Rattle.std.specs.Prelude.{◌≤◌};
    ghost use Rattle.vr_io.specs.Script.{Script as Played};

    ghost Value = { Played };

    ghost view = { λ c. record { piece = c.piece; fails = c.fails.items; calls = c.calls; failed = c.failed } };

    ghost invariant = { λ c. 1 ≤ c.piece };
}

impl Script {
    pub(crate) fn new(piece: usize, fails: Vec<u64>) -> Self
        requires { 1 ≤ piece }
        ensures { result ≡ unused piece fails.items }
    {
        Script {
            piece,
            fails,
            calls: 0,
            failed: 0,
        }
    }

    // The most bytes of one call.
    pub(crate) fn piece(&self) -> usize
        ensures value { result ≡ self.now.piece }
        ensures some { 1 ≤ result }
    {
        self.piece
    }

    pub(crate) fn fails_next(&self) -> bool
        ensures { result ≡ fails_next self.now }
    {
        self.fails.contains(&self.calls)
    }

    pub(crate) fn count(&mut self, failed: bool)
        ensures counted { self.new ≡ after_call failed self.old }
        ensures grows { self.old.failed ≤ self.new.failed }
    {
        self.calls = self.calls.saturating_add(1);
        if failed {
            self.failed = self.failed.saturating_add(1);
        }
    }
}
