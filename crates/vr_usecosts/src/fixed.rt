//! The fixed costs of used vehicles.

ghost use Rattle.std.specs.Prelude.{◌≡◌, ◌<◌, IsTrue, ℕ, List, nat_lt, not, length};
ghost use Rattle.vr_model.specs.routes.Costs.{fixed_part};
ghost use Rattle.vr_model.specs.tables.Tables.{visits};
ghost use Rattle.vr_model.specs.routes.Rules.{is_valid};
ghost use Rattle.vr_model.specs.tables.WellFormed.{IsWellFormed};
ghost use Rattle.vr_parts.specs.Parts.{CostAlike};
ghost use Rattle.vr_usecosts.specs.Fixed as fixed_costs;
ghost use Rattle.vr_usecosts.specs.Fixed.{fixed_with, StandsFixed};
ghost use Rattle.vr_routes.specs.Tours.{Tours};
ghost use Rattle.vr_balance.specs.Sums.{IsUpTo};

use std::marker::Model;
use vr_model::Model as RoutingModel;
use vr_parts::{InfallibleCost, ListCost, added_by, is_left_empty};
use vr_routes::{Change, Routes, Splice};

/// The fixed costs of used vehicles (`SetFixedCostOfVehicle` in OR-Tools).
#[derive(Drop)]
pub struct FixedCost<'m> {
    model: &'m RoutingModel,
    // if this is false, each vehicle has a fixed cost of 0
    pays: bool,
}

impl<'m> Model for FixedCost<'m> {
    ghost use Rattle.vr_usecosts.specs.Fixed.{KeptFixed};

    ghost Value = { KeptFixed };

    ghost view = { λ part. record { model = part.model.now; pays = part.pays } };
}

// Whether some vehicle has a fixed cost that is not 0.
fn is_some_fixed(model: &RoutingModel) -> bool
    ensures { result ≡ fixed_costs.is_some_fixed model.now }
{
    model
        .vehicles
        .as_slice()
        .iter()
        .any(|vehicle| vehicle.fixed != 0)
}

impl<'m> FixedCost<'m> {
    /// The fixed costs of a model's vehicles. Nothing of the lists is kept: they are in sync with any valid lists of
    /// the model.
    pub fn of(model: &'m RoutingModel) -> FixedCost<'m>
        requires well_formed { IsWellFormed model.now }
        ensures model { result.model ≡ model.now }
        ensures stands { (tours : Tours) → tours.visits ≡ visits model.now
            → IsTrue (is_valid model.now tours.lists) → StandsFixed result tours }
    {
        FixedCost {
            model,
            pays: is_some_fixed(model),
        }
    }
}

impl<'m> ListCost for FixedCost<'m> {
    ghost of_model = { λ part. part.model };

    ghost list_cost = { fixed_with };

    ghost keeps = { StandsFixed };

    fn list_adds(&self, routes: &Routes, splice: Splice<'_>) -> i64 {
        let v = splice.vehicle;
        let after = self.fixed(v, !is_left_empty(routes, splice));
        after - self.fixed(v, routes.len(v) > 0)
    }
}

impl<'m> FixedCost<'m> {
    /// Whether no vehicle has a fixed cost other than 0: all valid lists cost the same then. `vr_judge` asks it once,
    /// as it bounds runs of moves only if arcs and penalties alone are paid.
    pub fn is_idle(&self) -> bool
        requires pays { self.now.pays ≡ fixed_costs.is_some_fixed self.now.model }
        ensures idle { result ≡ not (fixed_costs.is_some_fixed self.now.model) }
        ensures alike { IsTrue result → CostAlike fixed_part self.now.model }
    {
        !self.pays
    }

    // What a vehicle costs if it is used, and if it is not.
    #[inline]
    fn fixed(&self, v: u32, used: bool) -> i64
        requires well_formed { IsWellFormed self.now.model }
        requires vehicle { v < length self.now.model.vehicles }
        ensures value { (list : List ℕ) → used ≡ nat_lt 0 (length list) → result ≡ fixed_with self.now.model v list }
        ensures range { IsUpTo 1 result }
    {
        if !used {
            return 0;
        }
        self.model.vehicles.get(v as usize).fixed
    }
}

impl<'m> InfallibleCost for FixedCost<'m> {
    ghost model = { λ cost. cost.model };

    ghost value = { fixed_part };

    ghost stands_at = { StandsFixed };

    #[inline]
    fn added(&mut self, routes: &Routes, change: &Change) -> i64 {
        if !self.pays {
            return 0;
        }
        added_by(self, routes, change)
    }

    fn commit_lists(&mut self, _routes: &Routes, _change: &Change) {}
}
