//! Runs of cumuls, with the greatest start from which each cumul is reached.

ghost use Rattle.std.specs.Prelude.{◌≡◌};
ghost use Rattle.vr_steps.specs.Arcs.{IsSoundHop};
ghost use Rattle.vr_span.specs.Pieces.{IsNear, IsNearNumber, begin_of, moved_piece, start_of, within_run};

use vr_spans::Run;
use vr_steps::Hop;

/// The cumuls from `lo` to `hi` of a stop. The greatest start from which `lo` is reached is `first`; with each further
/// cumul it is one greater, up to `last`, and then it stays.
#[derive(Clone, Copy, Debug, PartialEq, Eq)]
pub struct Piece {
    pub lo: i64,
    pub hi: i64,
    pub first: i64,
    pub last: i64,
}

impl Piece {
    // The cumuls of a start: each is reached from itself.
    pub(crate) fn at_start(run: Run) -> Piece
        ensures { result ≡ begin_of run }
    {
        Piece {
            lo: run.lo,
            hi: run.hi,
            first: run.lo,
            last: run.hi,
        }
    }

    // The greatest start from which `x` is reached, if it is a cumul of the piece.
    pub(crate) fn start_of(self, x: i64) -> i64
        requires near { IsNear self }
        requires x { IsNearNumber x }
        ensures { result ≡ start_of self x }
    {
        (self.first + (x - self.lo)).min(self.last)
    }

    // What is left of it in a run. It has no cumul if the run has none of it.
    pub(crate) fn within(self, run: Run) -> Piece
        requires near { IsNear self }
        requires run_lo { IsNearNumber run.lo }
        requires run_hi { IsNearNumber run.hi }
        ensures { result ≡ within_run run self }
    {
        let lo = self.lo.max(run.lo);
        let hi = self.hi.min(run.hi);
        Piece {
            lo,
            hi,
            first: self.start_of(lo),
            last: self.start_of(hi),
        }
    }

    // What it leads to over an arc; `until` is the last cumul before the next piece.
    pub(crate) fn over(self, hop: Hop, until: i64) -> Piece
        requires near { IsNear self }
        requires hop { IsSoundHop hop }
        requires until { IsNearNumber until }
        ensures { result ≡ moved_piece hop until self }
    {
        Piece {
            lo: self.lo + hop.transit,
            hi: (self.hi + hop.slack).min(until) + hop.transit,
            first: self.first,
            last: self.last,
        }
    }
}
