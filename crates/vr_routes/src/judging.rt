//! The trait of what judges moves and makes them.

ghost use Rattle.std.specs.Prelude.{◌≡◌, ◌+◌, ◌<◌, ◌≤◌, ℕ, List, IsTrue, IfOk, IfSome, OnOk, OnErr};
ghost use Rattle.vr_model.specs.moves.Moves.{apply};
ghost use Rattle.vr_model.specs.moves.MoveTests.{is_move};
ghost use Rattle.vr_model.specs.routes.Rules.{is_valid};
ghost use Rattle.vr_model.specs.tables.WellFormed.{IsWellFormed};
ghost use Rattle.vr_model.specs.declared.neighbours.Move.{Move as Step};
ghost use Rattle.vr_model.specs.declared.records.Model.{Model as RoutingModel};
ghost use Rattle.vr_routes.specs.Changes.{IsChange};
ghost use Rattle.vr_routes.specs.Judging.{HasCommitted, IsDifferenceBound, IsNoLess, moved, verdict_of};
ghost use Rattle.vr_routes.specs.Runs.{with_last};
ghost use Rattle.vr_routes.specs.Tours.{Tours};

use crate::{Change, Routes};
use std::sync::ledger::Ledger;
use vr_model::{Model, Move, NoMemory, Steps};

/// What a judge says of a move.
#[derive(Clone, Copy, Debug, PartialEq, Eq)]
pub enum Verdict {
    /// The lists after the move are not valid.
    Refused,
    /// The cost of the lists after the move, less that of the lists before.
    Difference(i64),
}

/// Judges moves of the lists that it has committed, and makes them. Who asks hands in what a move changes, so that it
/// is written once (`judge_change`, `commit_change`). Who has the move alone calls `judge` and `commit`, which write
/// it.
pub trait Judge {
    /// The model, which no call changes.
    ghost model: { Self → RoutingModel };

    /// The judge has committed the lists of these routes: what it keeps is so of them.
    ghost committed: { Self → Tours → Type 0 };

    /// A number that rises by at most one if a move is judged. The judges of `vr_judge` and `vr_plain` leave it and
    /// `looked` at 0; one of tests counts.
    ghost asked: { Self → ℕ };

    /// A number that rises by at most one if the judge is asked what a move, or a run of moves, makes at least.
    ghost looked: { Self → ℕ };

    /// How many steps it takes at most to judge a move of lists that it has committed.
    ghost weight: { Self → List (List ℕ) → Step → ℕ };

    /// The model. It takes no memory.
    fn routing_model(&self) -> &Model
        ensures { result.now ≡ model self.now };

    /// Bounds what a move makes of the cost. If the lists after the move are valid, its difference is never below the
    /// answer; of other moves it says nothing. A search asks it before it has a move judged. It takes few moves, and
    /// most can be passed over by what they cost at least. The caller hands in the change that the move makes. It does
    /// not judge the move, takes no memory and counts no steps. A judge that knows no better number says the least of
    /// all.
    fn least_difference(&mut self, routes: &Routes, mv: Move, change: &Change) -> i64
        requires well_formed { IsWellFormed (model self.old) }
        requires holds { HasCommitted (model self.old) (committed self.old) routes.now }
        requires mv { IsTrue (is_move (model self.old) routes.now.lists mv) }
        requires change { IsChange (model self.old) routes.now.lists mv change.now }
        ensures least { IsDifferenceBound (model self.old) routes.now.lists mv result }
        ensures model { model self.new ≡ model self.old }
        ensures committed { committed self.new routes.now }
        ensures asked { asked self.new ≡ asked self.old }
        ensures looked { looked self.new ≤ looked self.old + 1 }
    {
        i64::MIN
    }

    /// Goes over a run of moves, which differ in their last number: those of the numbers from `from` on, below `end`.
    /// Says from which number on some may make a difference below a bound. Each move before that number makes none, or
    /// leads to lists that are not valid. The numbers of `mv`, of which the last is any, need not be those of a move.
    /// Of numbers that are no move nothing is said.
    ///
    /// `None` if the judge cannot tell anything of such a run, from whichever number on it is asked. It judges none of
    /// the moves, takes no memory and counts no steps.
    #[inline]
    fn first_below(
        &mut self,
        routes: &Routes,
        mv: Move,
        from: u32,
        end: u32,
        bound: i64,
    ) -> Option<u32>
        requires well_formed { IsWellFormed (model self.old) }
        requires holds { HasCommitted (model self.old) (committed self.old) routes.now }
        requires order { from ≤ end }
        ensures from { IfSome result (λ first. from ≤ first) }
        ensures within { IfSome result (λ first. first ≤ end) }
        ensures no_less { IfSome result (λ first. (k : ℕ) → from ≤ k → k < first
            → IsNoLess (model self.old) routes.now.lists (with_last mv k) bound) }
        ensures model { model self.new ≡ model self.old }
        ensures committed { committed self.new routes.now }
        ensures asked { asked self.new ≡ asked self.old }
        ensures looked { looked self.new ≤ looked self.old + 1 }
    {
        None
    }

    /// Judges a move of the lists, of which the caller hands in the change. The committed lists stay, whatever the
    /// answer.
    fn judge_change<L: Ledger>(
        &mut self,
        routes: &Routes,
        mv: Move,
        change: &Change,
        steps: &mut Steps<L>,
    ) -> Result<Verdict, NoMemory>
        requires well_formed { IsWellFormed (model self.old) }
        requires holds { HasCommitted (model self.old) (committed self.old) routes.now }
        requires mv { IsTrue (is_move (model self.old) routes.now.lists mv) }
        requires change { IsChange (model self.old) routes.now.lists mv change.now }
        ensures verdict { IfOk result (λ verdict. verdict ≡ verdict_of (model self.old) routes.now.lists mv) }
        ensures model { model self.new ≡ model self.old }
        ensures committed { committed self.new routes.now }
        ensures asked { asked self.new ≤ asked self.old + 1 }
        ensures looked { looked self.new ≡ looked self.old }
        ensures steps { steps.new ≤ steps.old + weight self.old routes.now.lists mv };

    /// Makes a move after which the lists are valid, of which the caller hands in the change. Then the routes have the
    /// lists after it, and the judge has committed them. If memory runs out, both are as before.
    fn commit_change(
        &mut self,
        routes: &mut Routes,
        mv: Move,
        change: &Change,
    ) -> Result<(), NoMemory>
        requires well_formed { IsWellFormed (model self.old) }
        requires holds { HasCommitted (model self.old) (committed self.old) routes.old }
        requires mv { IsTrue (is_move (model self.old) routes.old.lists mv) }
        requires change { IsChange (model self.old) routes.old.lists mv change.now }
        requires valid { IsTrue (is_valid (model self.old) (apply (model self.old) routes.old.lists mv)) }
        ensures routes { OnOk result (routes.new ≡ moved (model self.old) routes.old mv) }
        ensures committed { OnOk result (committed self.new routes.new) }
        ensures routes_stay { OnErr result (routes.new ≡ routes.old) }
        ensures committed_stay { OnErr result (committed self.new routes.new) }
        ensures model { model self.new ≡ model self.old }
        ensures asked { asked self.new ≡ asked self.old }
        ensures looked { looked self.new ≡ looked self.old };

    /// Judges a move of the lists, as `judge_change` does, and writes its change for that. Tests and benches ask it.
    final fn judge<L: Ledger>(
        &mut self,
        routes: &Routes,
        mv: Move,
        steps: &mut Steps<L>,
    ) -> Result<Verdict, NoMemory>
        requires well_formed { IsWellFormed (model self.old) }
        requires holds { HasCommitted (model self.old) (committed self.old) routes.now }
        requires mv { IsTrue (is_move (model self.old) routes.now.lists mv) }
        ensures verdict { IfOk result (λ verdict. verdict ≡ verdict_of (model self.old) routes.now.lists mv) }
        ensures model { model self.new ≡ model self.old }
        ensures committed { committed self.new routes.now }
        ensures asked { asked self.new ≤ asked self.old + 1 }
        ensures looked { looked self.new ≡ looked self.old }
        ensures steps { steps.new ≤ steps.old + weight self.old routes.now.lists mv }
    {
        let mut change = Change::blank();
        Change::write(self.routing_model(), routes, mv, &mut change);
        self.judge_change(routes, mv, &change, steps)
    }

    /// Makes a move after which the lists are valid, as `commit_change` does, and writes its change for that. Tests
    /// alone ask it.
    final fn commit(&mut self, routes: &mut Routes, mv: Move) -> Result<(), NoMemory>
        requires well_formed { IsWellFormed (model self.old) }
        requires holds { HasCommitted (model self.old) (committed self.old) routes.old }
        requires mv { IsTrue (is_move (model self.old) routes.old.lists mv) }
        requires valid { IsTrue (is_valid (model self.old) (apply (model self.old) routes.old.lists mv)) }
        ensures routes { OnOk result (routes.new ≡ moved (model self.old) routes.old mv) }
        ensures committed { OnOk result (committed self.new routes.new) }
        ensures routes_stay { OnErr result (routes.new ≡ routes.old) }
        ensures committed_stay { OnErr result (committed self.new routes.new) }
        ensures model { model self.new ≡ model self.old }
        ensures asked { asked self.new ≡ asked self.old }
        ensures looked { looked self.new ≡ looked self.old }
    {
        let mut change = Change::blank();
        Change::write(self.routing_model(), routes, mv, &mut change);
        self.commit_change(routes, mv, &change)
    }
}
