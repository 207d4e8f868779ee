//! Filters of rules that each list keeps by itself.

ghost use Rattle.std.specs.Prelude.{◌≡◌, ◌+◌, ◌<◌, ◌≤◌, ℕ, Bool, true, false, List, length};
ghost use Rattle.std.specs.Prelude.{IsOk, IsTrue, IfOk, OnOk, OnErr};
ghost use Rattle.vr_model.specs.routes.Routes.{route};
ghost use Rattle.vr_routes.specs.Changes.{IsMadeOn, after, NothingReady};
ghost use Rattle.vr_routes.specs.Pieces.{ListAfter, changed, joined, part_at};
ghost use Rattle.vr_routes.specs.Tours.{Tours};
ghost use Rattle.vr_filter.specs.Filters.{IsSameRule, IsSameWeight};
ghost use Rattle.vr_pathfilters.specs.Lists.{holds_of_each};
ghost use Rattle.vr_pathfilters.specs.ListFilters.{StandsBy, IsReadyBy};

use std::sync::ledger::Ledger;
use vr_filter::PathFilter;
use vr_model::{NoMemory, Steps};
use vr_routes::{Change, Routes};

/// A rule of the list of each vehicle by itself, and a test of what a change makes of one list.
pub trait ListRule {
    /// The rule holds of the list of a vehicle.
    ghost rule: { Self → ℕ → List ℕ → Bool };

    /// What is kept is right for such tours.
    ghost knows: { Self → Tours → Type 0 };

    /// Whether the rule holds of the list of part `k` of a change, if it held of the list before. It takes no memory.
    fn keeps(&mut self, routes: &Routes, change: &Change, k: usize) -> bool
        requires knows { knows self.old routes.now }
        requires made { IsMadeOn routes.now change.now }
        requires part { k < length change.now }
        requires before { IsTrue (holds_of_each (rule self.old) routes.now.lists) }
        ensures answer { result ≡ rule self.old (part_at change.now k).vehicle
            (joined routes.now.lists (part_at change.now k).pieces) }
        ensures same_rule { rule self.new ≡ rule self.old }
        ensures knows { (tours : Tours) → knows self.old tours → knows self.new tours };

    /// What is kept becomes right for the lists after a change. It is called before the routes are changed, and takes
    /// no memory.
    fn commit(&mut self, routes: &Routes, change: &Change)
        requires knows { knows self.old routes.now }
        requires made { IsMadeOn routes.now change.now }
        ensures same_rule { rule self.new ≡ rule self.old }
        ensures knows { knows self.new (after routes.now change.now) };
}

/// Lets a change pass if a rule holds of each list afterwards. It never answers `NoMemory`, and counts no steps.
#[derive(Drop)]
pub struct ListFilter<R> {
    pub(crate) rule: R,
    // whether a change was made ready: contracts alone read it
    pub(crate) is_prepared: bool,
}

impl<R: ListRule> PathFilter for ListFilter<R> {
    ghost holds = { λ f lists. holds_of_each (R.rule f.rule) lists };

    ghost stands_at = { λ f tours. StandsBy (R.rule f.rule) (R.knows f.rule) tours };

    ghost ready = { λ f tours parts. IsReadyBy (R.rule f.rule) f.is_prepared tours.lists parts };

    ghost weight = { λ f before later. 0 };

    fn passes<L: Ledger>(
        &mut self,
        routes: &Routes,
        change: &Change,
        _steps: &mut Steps<L>,
    ) -> Result<bool, NoMemory>
        requires stands { StandsBy (R.rule self.old.rule) (R.knows self.old.rule) routes.now }
        requires made { IsMadeOn routes.now change.now }
        ensures answer { IfOk result (λ passed. passed
            ≡ holds_of_each (R.rule self.old.rule) (changed routes.now.lists change.now)) }
        ensures stands { StandsBy (R.rule self.new.rule) (R.knows self.new.rule) routes.now }
        ensures rule { IsSameRule (holds_of_each (R.rule self.old.rule)) (holds_of_each (R.rule self.new.rule)) }
        ensures same_weight { IsSameWeight (λ before later. 0) (λ before later. 0) }
        ensures count { _steps.new ≤ _steps.old + 0 }
        ensures refused { IfOk result (λ passed. passed ≡ false → NothingReady (λ tours parts.
            IsReadyBy (R.rule self.new.rule) self.new.is_prepared tours.lists parts)) }
        ensures unready { OnErr result (NothingReady (λ tours parts.
            IsReadyBy (R.rule self.new.rule) self.new.is_prepared tours.lists parts)) }
        ensures memory { IsOk result }
    {
        self.is_prepared = false;
        Ok(keeps_all(&mut self.rule, routes, change))
    }

    fn prepare(&mut self, _routes: &Routes, _change: &Change) -> Result<(), NoMemory>
        requires stands { StandsBy (R.rule self.old.rule) (R.knows self.old.rule) _routes.now }
        requires made { IsMadeOn _routes.now _change.now }
        requires passes { IsTrue (holds_of_each (R.rule self.old.rule) (changed _routes.now.lists _change.now)) }
        ensures ready { OnOk result
            (IsReadyBy (R.rule self.new.rule) self.new.is_prepared _routes.now.lists _change.now) }
        ensures stands { StandsBy (R.rule self.new.rule) (R.knows self.new.rule) _routes.now }
        ensures rule { IsSameRule (holds_of_each (R.rule self.old.rule)) (holds_of_each (R.rule self.new.rule)) }
        ensures same_weight { IsSameWeight (λ before later. 0) (λ before later. 0) }
        ensures unready { OnErr result (NothingReady (λ tours parts.
            IsReadyBy (R.rule self.new.rule) self.new.is_prepared tours.lists parts)) }
        ensures memory { IsOk result }
    {
        self.is_prepared = true;
        Ok(())
    }

    fn commit(&mut self, routes: &Routes, change: &Change) {
        self.is_prepared = false;
        self.rule.commit(routes, change);
    }

    ghost keeps_rule = { λ f tours stands. stands.rule_holds };
}

// Whether a rule holds of the lists of all parts of a change.
fn keeps_all<R: ListRule>(rule: &mut R, routes: &Routes, change: &Change) -> bool
    requires stands { StandsBy (R.rule rule.old) (R.knows rule.old) routes.now }
    requires made { IsMadeOn routes.now change.now }
    ensures answer { result ≡ holds_of_each (R.rule rule.old) (changed routes.now.lists change.now) }
    ensures same_rule { R.rule rule.new ≡ R.rule rule.old }
    ensures knows { (tours : Tours) → R.knows rule.old tours → R.knows rule.new tours }
{
    for k in 0..change.parts() {
        if !rule.keeps(routes, change, k) {
            return false;
        }
    }
    true
}
