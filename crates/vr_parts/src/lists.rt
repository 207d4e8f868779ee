//! Parts of the cost that are sums over the lists of vehicles.

ghost use Rattle.std.specs.Prelude.{◌≡◌, ◌<◌, ◌-ℤ◌, ℕ, ℤ, List, All, IsTrue, length};
ghost use Rattle.vr_model.specs.routes.Routes.{route};
ghost use Rattle.vr_model.specs.routes.Rules.{is_valid};
ghost use Rattle.vr_model.specs.tables.Tables.{visits};
ghost use Rattle.vr_model.specs.tables.WellFormed.{IsWellFormed};
ghost use Rattle.vr_model.specs.declared.records.Model.{Model as RoutingModel};
ghost use Rattle.vr_routes.specs.Pieces.{changed};
ghost use Rattle.vr_routes.specs.Changes.{IsMadeOn};
ghost use Rattle.vr_routes.specs.Tours.{Tours};
ghost use Rattle.vr_parts.specs.Bounds.{IsAddedByChange, IsAddedByList};
ghost use Rattle.vr_parts.specs.Splices.{spliced, MayBeSpliced};
ghost use Rattle.vr_parts.specs.Sums.{sum_over_routes};

use vr_routes::{Change, Routes, Splice};

/// A part of the cost that adds up what each vehicle's list costs by itself: arc costs and fixed costs are such. Soft
/// upper bounds and spans are such a sum too, but may run out of memory (`PlanCost` of `vr_costfilter`).
pub trait ListCost {
    /// The model.
    ghost of_model: { Self → RoutingModel };

    /// What a list costs a vehicle.
    ghost list_cost: { RoutingModel → ℕ → List ℕ → ℤ };

    /// What is kept is of these lists.
    ghost keeps: { Self → Tours → Type 0 };

    /// What the list after a splice adds, in the place of the vehicle's list.
    fn list_adds(&self, routes: &Routes, splice: Splice<'_>) -> i64
        requires well_formed { IsWellFormed (of_model self.now) }
        requires keeps { keeps self.now routes.now }
        requires as_many { length routes.now.lists ≡ length (of_model self.now).vehicles }
        requires splice { MayBeSpliced routes.now.lists splice.vehicle splice.front splice.behind splice.middle.now }
        requires nodes { All (λ node. node < (of_model self.now).nodes)
            (spliced routes.now.lists splice.vehicle splice.front splice.behind splice.middle.now) }
        requires old_nodes { All (λ node. node < (of_model self.now).nodes) (route routes.now.lists splice.vehicle) }
        ensures value { let s = splice.entry in result
            ≡ list_cost (of_model self.now) s.vehicle (spliced routes.now.lists s.vehicle s.front s.behind s.middle.now)
            -ℤ list_cost (of_model self.now) s.vehicle (route routes.now.lists s.vehicle) }
        ensures range { IsAddedByList result };
}

/// What a change adds to such a part: what each changed list adds. The lists after it need not be valid. Arc costs and
/// fixed costs answer by it (`InfallibleCost::added`).
#[inline]
pub fn added_by<C: ListCost>(cost: &C, routes: &Routes, change: &Change) -> i64
    requires well_formed { IsWellFormed (C.of_model cost.now) }
    requires keeps { C.keeps cost.now routes.now }
    requires of_model { routes.now.visits ≡ visits (C.of_model cost.now) }
    requires made { IsMadeOn routes.now change.now }
    requires valid { IsTrue (is_valid (C.of_model cost.now) routes.now.lists) }
    ensures value { result ≡ sum_over_routes (C.list_cost (C.of_model cost.now)) (changed routes.now.lists change.now)
        -ℤ sum_over_routes (C.list_cost (C.of_model cost.now)) routes.now.lists }
    ensures range { IsAddedByChange result }
{
    let mut total = 0;
    for k in 0..change.parts() {
        // That a part has few pieces says that few come between its ends: for the clauses alone.
        let _few = change.pieces(k);
        total += cost.list_adds(routes, change.splice(k));
    }
    total
}
