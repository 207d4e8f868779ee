//! The trait of what keeps a part of the cost.

ghost use Rattle.std.specs.Prelude.{◌≡◌, ◌-ℤ◌, ℕ, ℤ, List, IsTrue, IfOk, OnOk, OnErr};
ghost use Rattle.vr_model.specs.routes.Rules.{is_valid};
ghost use Rattle.vr_model.specs.declared.records.Model.{Model as RoutingModel};
ghost use Rattle.vr_routes.specs.Pieces.{ListAfter, changed};
ghost use Rattle.vr_routes.specs.Changes.{IsMadeOn, after, NothingReady};
ghost use Rattle.vr_routes.specs.Tours.{Tours};

use vr_model::NoMemory;
use vr_routes::{Change, Routes};

/// A part of the cost of routes (`LocalSearchFilter::GetAcceptedObjectiveValue` in OR-Tools, part by part). It has
/// committed lists, and answers what a change of them adds to the part.
pub trait CostPart {
    /// The model, which no call changes.
    ghost model: { Self → RoutingModel };

    /// What lists cost in this part.
    ghost value: { RoutingModel → List (List ℕ) → ℤ };

    /// These are the lists that the part has committed, valid lists of its model.
    ghost stands_at: { Self → Tours → Type 0 };

    /// The part has made this change of these lists ready.
    ghost ready: { Self → Tours → List ListAfter → Type 0 };

    /// What each difference lies within.
    ghost range: { ℤ → Type 0 };

    /// What a change of the committed lists adds to the part. Nothing is promised after it of a change that was ready.
    fn difference(&mut self, routes: &Routes, change: &Change) -> Result<i64, NoMemory>
        requires stands { stands_at self.old routes.now }
        requires made { IsMadeOn routes.now change.now }
        requires valid { IsTrue (is_valid (model self.old) (changed routes.now.lists change.now)) }
        ensures exact { IfOk result (λ difference. difference
            ≡ value (model self.old) (changed routes.now.lists change.now) -ℤ value (model self.old) routes.now.lists) }
        ensures range { IfOk result range }
        ensures stands { stands_at self.new routes.now }
        ensures model { model self.new ≡ model self.old };

    /// Makes a change of the committed lists ready. All that may run out of memory is done here, so all parts are ready
    /// before the first one commits. After `NoMemory` no change is ready.
    fn prepare(&mut self, routes: &Routes, change: &Change) -> Result<(), NoMemory>
        requires stands { stands_at self.old routes.now }
        requires made { IsMadeOn routes.now change.now }
        requires valid { IsTrue (is_valid (model self.old) (changed routes.now.lists change.now)) }
        ensures ready { OnOk result (ready self.new routes.now change.now) }
        ensures unready { OnErr result (NothingReady (ready self.new)) }
        ensures stands { stands_at self.new routes.now }
        ensures model { model self.new ≡ model self.old };

    /// Commits the lists after a change that is ready. It is called before the routes are changed.
    fn commit(&mut self, routes: &Routes, change: &Change)
        requires stands { stands_at self.old routes.now }
        requires made { IsMadeOn routes.now change.now }
        requires valid { IsTrue (is_valid (model self.old) (changed routes.now.lists change.now)) }
        requires ready { ready self.old routes.now change.now }
        ensures stands { stands_at self.new (after routes.now change.now) }
        ensures model { model self.new ≡ model self.old };
}
