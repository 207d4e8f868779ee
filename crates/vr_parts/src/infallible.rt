//! Parts of the cost none of whose calls fails.

ghost use Rattle.std.specs.Prelude.{◌≡◌, ◌-ℤ◌, ℕ, ℤ, List, IsTrue, IfOk, IsOk};
ghost use Rattle.vr_model.specs.routes.Rules.{is_valid};
ghost use Rattle.vr_model.specs.declared.records.Model.{Model as RoutingModel};
ghost use Rattle.vr_routes.specs.Pieces.{changed};
ghost use Rattle.vr_routes.specs.Changes.{IsMadeOn, after};
ghost use Rattle.vr_routes.specs.Tours.{Tours};
ghost use Rattle.vr_parts.specs.Bounds.{IsAddedByChange};

use crate::part::CostPart;
use vr_model::NoMemory;
use vr_routes::{Change, Routes};

/// A part of the cost that takes no memory once it is opened. Its difference is a plain number, and any change is
/// ready. Each such part is a [`CostPart`] too, which never answers `NoMemory`. Tests alone ask it so; `vr_judge` asks
/// by the two calls of this trait.
pub trait InfallibleCost {
    /// The model, which no call changes.
    ghost model: { Self → RoutingModel };

    /// What lists cost in this part.
    ghost value: { RoutingModel → List (List ℕ) → ℤ };

    /// These are the lists that the part has committed, valid lists of its model.
    ghost stands_at: { Self → Tours → Type 0 };

    /// What a change of the committed lists adds to the part, even if the lists after it are not valid. A part may
    /// write over scratch of its own for it, which contracts do not see.
    fn added(&mut self, routes: &Routes, change: &Change) -> i64
        requires stands { stands_at self.old routes.now }
        requires made { IsMadeOn routes.now change.now }
        ensures exact { result ≡ value (model self.old) (changed routes.now.lists change.now)
            -ℤ value (model self.old) routes.now.lists }
        ensures range { IsAddedByChange result }
        ensures stays { self.new ≡ self.old };

    /// Commits the lists after a change. `CostPart::commit` calls it and does as it does, but nothing is made ready
    /// before. It is called before the routes are changed.
    fn commit_lists(&mut self, routes: &Routes, change: &Change)
        requires stands { stands_at self.old routes.now }
        requires made { IsMadeOn routes.now change.now }
        requires valid { IsTrue (is_valid (model self.old) (changed routes.now.lists change.now)) }
        ensures stands { stands_at self.new (after routes.now change.now) }
        ensures model { model self.new ≡ model self.old };
}

impl<C: InfallibleCost> CostPart for C {
    ghost model = { C.model };

    ghost value = { C.value };

    ghost stands_at = { C.stands_at };

    ghost ready = { λ cost tours parts. Unit {0} };

    ghost range = { IsAddedByChange };

    #[inline]
    fn difference(&mut self, routes: &Routes, change: &Change) -> Result<i64, NoMemory>
        requires stands { C.stands_at self.old routes.now }
        requires made { IsMadeOn routes.now change.now }
        ensures memory { IsOk result }
        ensures exact { IfOk result (λ difference. difference
            ≡ C.value (C.model self.old) (changed routes.now.lists change.now)
            -ℤ C.value (C.model self.old) routes.now.lists) }
        ensures range { IfOk result IsAddedByChange }
        ensures stays { self.new ≡ self.old }
    {
        Ok(self.added(routes, change))
    }

    #[inline]
    fn prepare(&mut self, _routes: &Routes, _change: &Change) -> Result<(), NoMemory>
        ensures memory { IsOk result }
        ensures stays { self.new ≡ self.old }
    {
        Ok(())
    }

    #[inline]
    fn commit(&mut self, routes: &Routes, change: &Change) {
        self.commit_lists(routes, change);
    }
}
