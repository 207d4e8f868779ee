//! The judge that rebuilds.

ghost use Rattle.std.specs.Prelude.{◌≡◌, IfOk, IsTrue, length};
ghost use Rattle.vr_model.specs.routes.Costs.{cost};
ghost use Rattle.vr_model.specs.routes.Rules.{is_valid};
ghost use Rattle.vr_model.specs.tables.Tables.{visits};
ghost use Rattle.vr_model.specs.tables.WellFormed.{IsWellFormed};
ghost use Rattle.vr_routes.specs.Changes.{after, IsMadeOn};
ghost use Rattle.vr_routes.specs.Judging.{HasCommitted};
ghost use Rattle.vr_plain.specs.Committed.{AreCommitted};

use std::alloc::Global;
use std::sync::ledger::Ledger;
use vr_model::{Model as RoutingModel, Move, NoMemory, Steps};
use vr_routes::{Change, Judge, Routes, Verdict};
use vr_rules::Rules;

/// Judges a move by the rules and the cost of the whole lists after it, which it builds anew each time. It counts no
/// questions and no steps: all of its numbers are 0.
///
/// All that a judged move needs is kept and written over. After the first moves, one takes memory only in these cases,
/// as `Rules` says:
///
/// - a set of cumuls has more than four runs;
/// - a list is longer than any before;
/// - its vehicle has breaks;
/// - a tight schedule is built.
#[derive(Drop)]
pub struct PlainJudge<'m> {
    rules: Rules<'m>,
    // what the committed lists cost
    total: i64,
    // the lists after the move in hand, written over for each move
    scratch: Routes,
}

impl<'m> PlainJudge<'m> {
    /// A judge that has committed the lists of these routes, which are valid. The only refusal is want of memory. Tests
    /// alone call it.
    pub fn open(
        alloc: Global,
        model: &'m RoutingModel,
        routes: &Routes,
    ) -> Result<PlainJudge<'m>, NoMemory>
        requires well_formed { IsWellFormed model.now }
        requires of_model { routes.now.visits ≡ visits model.now }
        requires valid { IsTrue (is_valid model.now routes.now.lists) }
        ensures model { IfOk result (λ judge. ⟦<PlainJudge<'static> as Judge>⟧.model judge ≡ model.now) }
        ensures holds { IfOk result (λ judge.
            HasCommitted model.now (⟦<PlainJudge<'static> as Judge>⟧.committed judge) routes.now) }
    {
        let scratch = routes.copy(alloc)?;
        let mut rules = Rules::open(alloc, model)?;
        let total = rules.total(routes)?;
        Ok(PlainJudge {
            rules,
            total,
            scratch,
        })
    }
}

impl<'m> Judge for PlainJudge<'m> {
    ghost model = { λ judge. judge.rules };

    ghost committed = { λ judge tours. AreCommitted judge.rules tours judge.scratch judge.total };

    ghost asked = { λ judge. 0 };

    ghost looked = { λ judge. 0 };

    ghost weight = { λ judge lists mv. 0 };

    fn routing_model(&self) -> &RoutingModel {
        self.rules.model()
    }

    /// Memory is taken by the rules alone.
    fn judge_change<L: Ledger>(
        &mut self,
        routes: &Routes,
        _mv: Move,
        change: &Change,
        _steps: &mut Steps<L>,
    ) -> Result<Verdict, NoMemory> {
        rebuild(routes, change, &mut self.scratch);
        if !self.rules.valid(&self.scratch)? {
            return Ok(Verdict::Refused);
        }
        let total = self.rules.total(&self.scratch)?;
        Ok(Verdict::Difference(total - self.total))
    }

    /// The cost is worked out first; then routes and judge are changed, which takes no memory.
    fn commit_change(
        &mut self,
        routes: &mut Routes,
        _mv: Move,
        change: &Change,
    ) -> Result<(), NoMemory> {
        rebuild(routes, change, &mut self.scratch);
        let total = self.rules.total(&self.scratch)?;
        routes.commit(change);
        self.total = total;
        Ok(())
    }
}

// Writes the lists after a change of routes over those of `scratch`.
fn rebuild(routes: &Routes, change: &Change, scratch: &mut Routes)
    requires made { IsMadeOn routes.now change.now }
    requires same_visits { scratch.old.visits ≡ routes.now.visits }
    requires as_many { length scratch.old.lists ≡ length routes.now.lists }
    ensures { scratch.new ≡ after routes.now change.now }
{
    scratch.assign(routes);
    scratch.commit(change);
}
