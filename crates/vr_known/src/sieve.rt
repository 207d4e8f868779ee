//! What knows of many moves at once that none of them is to be tried.

ghost use Rattle.std.specs.Prelude.{◌≡◌, ℕ, ◌+◌, ◌<◌, ◌≤◌, IfSome, IsTrue};
ghost use Rattle.vr_model.specs.declared.neighbours.Move.{Move as Moved};
ghost use Rattle.vr_routes.specs.Runs.{with_last};
ghost use Rattle.vr_model.specs.moves.Kinds.{rows_of};
ghost use Rattle.vr_known.specs.Blocks.{covers};
ghost use Rattle.vr_known.specs.Passing.{CoversBlock};

use crate::Known;
use vr_model::{Move, Neighbourhood};

/// Knows of blocks and of runs of moves that they can be passed over. It takes no memory.
pub trait Sieve {
    /// What is asked about runs of moves. It is lent, since it may count the questions.
    type Judge;

    /// It can be asked.
    ghost is_ready: { Self → Type 0 };

    /// What is known of a move that is passed over.
    ghost covers: { Self → Moved → Type 0 };

    /// Up to how many tries it is asked about runs: of none if it is 0.
    ghost tries: { Self → ℕ };

    /// This judge can be asked.
    ghost can_ask: { Self → Self.Judge → Type 0 };

    /// A number of a judge that stays when it is asked about a run: how often it judged.
    ghost judged: { Self.Judge → ℕ };

    /// A number of a judge that rises by at most one when it is asked about a run.
    ghost looked: { Self.Judge → ℕ };

    /// Up to how many tries it is asked about runs: of none if it is 0.
    fn limit(&self) -> u64
        ensures { result ≡ tries self.now };

    /// Whether all moves of a block can be passed over: those of a neighbourhood, of a row and of the vehicle that they
    /// name last. Rows are those of [`Known::has`].
    fn has(&self, neighbourhood: Neighbourhood, v: u32, w: u32) -> bool
        requires ready { is_ready self.now }
        requires first { v < rows_of neighbourhood }
        requires second { w < 100 }
        ensures { IsTrue result → CoversBlock (covers self.now) neighbourhood v w };

    /// Goes over a run of moves, which differ in their last number: those of the numbers from `from` on, below `end`.
    /// Says from which number on they are to be tried: all before it can be passed over. The last number of `mv` is
    /// any. `None` if nothing is known of such a run, from whichever number on it is asked.
    #[inline]
    fn first(&self, judge: &mut Self::Judge, mv: Move, from: u32, end: u32) -> Option<u32>
        requires ready { is_ready self.now }
        requires can_ask { can_ask self.now judge.old }
        requires order { from ≤ end }
        ensures from { IfSome result (λ first. from ≤ first) }
        ensures within { IfSome result (λ first. first ≤ end) }
        ensures passed { IfSome result (λ first. (k : ℕ) → from ≤ k → k < first
            → covers self.now (with_last mv k)) }
        ensures can_ask { can_ask self.now judge.new }
        ensures judged { judged judge.new ≡ judged judge.old }
        ensures looked { looked judge.new ≤ looked judge.old + 1 }
    {
        None
    }
}

/// What is known to be refused can be passed over, block by block.
impl Sieve for Known {
    type Judge = ();

    ghost is_ready = { λ known. Unit {0} };

    ghost covers = { λ known mv. IsTrue (covers known mv) };

    ghost tries = { λ known. 0 };

    ghost can_ask = { λ known none. Unit {0} };

    ghost judged = { λ none. 0 };

    ghost looked = { λ none. 0 };

    #[inline(always)]
    fn limit(&self) -> u64 {
        0
    }

    #[inline(always)]
    fn has(&self, neighbourhood: Neighbourhood, v: u32, w: u32) -> bool {
        Known::has(self, neighbourhood, v, w)
    }
}
