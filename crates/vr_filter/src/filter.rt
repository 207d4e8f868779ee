//! What a filter of changes is.

ghost use Rattle.std.specs.Prelude.{◌≡◌, ◌+◌, ◌≤◌, ℕ, Bool, false, List, IsTrue, IfOk, OnOk, OnErr};
ghost use Rattle.vr_routes.specs.Changes.{IsMadeOn, after, NothingReady};
ghost use Rattle.vr_routes.specs.Pieces.{ListAfter, changed};
ghost use Rattle.vr_routes.specs.Tours.{Tours};
ghost use Rattle.vr_filter.specs.Filters.{IsSameRule, IsSameWeight};

use std::sync::ledger::Ledger;
use vr_model::{NoMemory, Steps};
use vr_routes::{Change, Routes};

/// Says which changes of routes keep a rule (`LocalSearchFilter` in OR-Tools). It is in sync with the lists that it has
/// committed, so it need only look at what a change changes. A change that passed is made ready, and then committed
/// without taking memory.
pub trait PathFilter {
    /// The rule holds of lists.
    ghost holds: { Self → List (List ℕ) → Bool };

    /// It is in sync with these lists, and may be asked at them. What it keeps of the committed lists is so of them,
    /// and their visits are those of its model.
    ghost stands_at: { Self → Tours → Type 0 };

    /// Whatever a commit of this change of these routes needs is there.
    ghost ready: { Self → Tours → List ListAfter → Type 0 };

    /// How many steps `passes` may count for a change, by the lists before it and after it. Of the filters of a model
    /// only those of dimensions count any, and only if the dimension is no load.
    ghost weight: { Self → List (List ℕ) → List (List ℕ) → ℕ };

    /// Whether the rule holds of the lists after a change. After `false` or `NoMemory` no change is ready.
    fn passes<L: Ledger>(
        &mut self,
        routes: &Routes,
        change: &Change,
        steps: &mut Steps<L>,
    ) -> Result<bool, NoMemory>
        requires stands { stands_at self.old routes.now }
        requires made { IsMadeOn routes.now change.now }
        ensures answer { IfOk result (λ passed. passed ≡ holds self.old (changed routes.now.lists change.now)) }
        ensures stands { stands_at self.new routes.now }
        ensures rule { IsSameRule (holds self.old) (holds self.new) }
        ensures same_weight { IsSameWeight (weight self.old) (weight self.new) }
        ensures count { steps.new
            ≤ steps.old + weight self.old routes.now.lists (changed routes.now.lists change.now) }
        ensures refused { IfOk result (λ passed. passed ≡ false → NothingReady (ready self.new)) }
        ensures unready { OnErr result (NothingReady (ready self.new)) };

    /// Makes ready a change after which the rule holds. After `NoMemory` no change is ready.
    fn prepare(&mut self, routes: &Routes, change: &Change) -> Result<(), NoMemory>
        requires stands { stands_at self.old routes.now }
        requires made { IsMadeOn routes.now change.now }
        requires passes { IsTrue (holds self.old (changed routes.now.lists change.now)) }
        ensures ready { OnOk result (ready self.new routes.now change.now) }
        ensures stands { stands_at self.new routes.now }
        ensures rule { IsSameRule (holds self.old) (holds self.new) }
        ensures same_weight { IsSameWeight (weight self.old) (weight self.new) }
        ensures unready { OnErr result (NothingReady (ready self.new)) };

    /// Gets in sync with the lists after a change that is ready. It is called before the routes are changed, and takes
    /// no memory.
    fn commit(&mut self, routes: &Routes, change: &Change)
        requires stands { stands_at self.old routes.now }
        requires made { IsMadeOn routes.now change.now }
        requires ready { ready self.old routes.now change.now }
        ensures stands { stands_at self.new (after routes.now change.now) }
        ensures rule { IsSameRule (holds self.old) (holds self.new) }
        ensures same_weight { IsSameWeight (weight self.old) (weight self.new) };

    /// The rule holds of the lists that the filter is in sync with.
    ghost keeps_rule: { (filter : Self) (tours : Tours) → stands_at filter tours → IsTrue (holds filter tours.lists) };
}
