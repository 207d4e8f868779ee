//! The arc costs of used vehicles.

ghost use Rattle.std.specs.Prelude.{◌≡◌, ◌<◌, ◌≤◌, ℕ, All, IsTrue, IfOk, length};
ghost use Rattle.vr_model.specs.routes.Costs.{arcs_part};
ghost use Rattle.vr_model.specs.routes.Routes.{route, route_cost};
ghost use Rattle.vr_model.specs.tables.Tables.{arc_cost, pair_at, visits};
ghost use Rattle.vr_model.specs.routes.Rules.{is_valid};
ghost use Rattle.vr_model.specs.tables.WellFormed.{IsWellFormed};
ghost use Rattle.vr_routes.specs.Pieces.{joined};
ghost use Rattle.vr_arccosts.specs.Along.{StandsAlong};
ghost use Rattle.vr_arccosts.specs.ArcMoves.{costs_more, with_between, IsKnownPiece};
ghost use Rattle.vr_parts.specs.Bounds.{IsAddedByList};

use crate::costs::VehicleArcs;
use crate::lines::{Along, Line};
use crate::walks::{Driven, Gap};
use std::alloc::Global;
use std::marker::Model;
use vr_model::{Model as RoutingModel, NoMemory, Pair};
use vr_parts::{InfallibleCost, ListCost, added_by};
use vr_routes::{Change, Piece, Routes, Row, Splice};

/// The arc costs of used vehicles (`SetArcCostEvaluatorOfVehicle` in OR-Tools). If the vehicles have the same costs, to
/// say what a change adds takes no longer for long lists than for short ones. A commit goes along the changed lists.
#[derive(Drop)]
pub struct ArcCost<'m> {
    model: &'m RoutingModel,
    // the sums along the line of each vehicle
    along: Vec<Along>,
    // room for a list that a change makes
    row: Row,
}

impl<'m> Model for ArcCost<'m> {
    ghost use Rattle.vr_arccosts.specs.Along.{KeptAlong};

    ghost Value = { KeptAlong };

    ghost view = { λ part. record { model = part.model.now; along = part.along.items } };
}

impl<'m> ArcCost<'m> {
    /// The arc costs of the lists of routes.
    pub fn open(
        alloc: Global,
        model: &'m RoutingModel,
        routes: &Routes,
    ) -> Result<ArcCost<'m>, NoMemory>
        requires well_formed { IsWellFormed model.now }
        requires of_model { routes.now.visits ≡ visits model.now }
        requires valid { IsTrue (is_valid model.now routes.now.lists) }
        ensures model { IfOk result (λ part. part.model ≡ model.now) }
        ensures stands { IfOk result (λ part. StandsAlong part routes.now) }
    {
        let mut along = Vec::new(alloc);
        for v in 0..routes.vehicles() {
            let mut sums = Along::new();
            sums.write(model, v, routes.list(v));
            along.push(sums)?;
        }
        Ok(ArcCost {
            model,
            along,
            row: Row::new(),
        })
    }

    /// What pieces add to the arc costs of a vehicle. They come between the first `front` visits of its list and those
    /// from place `behind` on, in the place of what is there.
    #[inline(always)]
    pub(crate) fn between_adds(
        &self,
        routes: &Routes,
        v: u32,
        front: u32,
        behind: u32,
        pieces: &[Piece],
    ) -> i64
        requires stands { StandsAlong self.now routes.now }
        requires vehicle { v < length routes.now.lists }
        requires order { front ≤ behind }
        requires place { behind ≤ length (route routes.now.lists v) }
        requires known { All (IsKnownPiece self.now.model routes.now.lists) pieces.now }
        requires few { length pieces.now ≤ 6 }
        ensures value { result ≡ costs_more self.now.model routes.now.lists v
            (with_between (route routes.now.lists v) front behind (joined routes.now.lists pieces.now)) }
        ensures range { IsAddedByList result }
    {
        let costs = self.costs_of(v);
        let before = self.along[v as usize].stretch(routes.len(v), front, behind);
        let of = Driven {
            costs: &costs,
            along: &self.along,
            routes,
        };
        let gap = Gap { of, front, behind };
        gap.cost_along(pieces) - before
    }
}

impl<'m> ArcCost<'m> {
    /// The arc costs of a vehicle.
    #[inline(always)]
    pub(crate) fn costs_of(&self, v: u32) -> VehicleArcs<'m>
        requires well_formed { IsWellFormed self.now.model }
        requires vehicle { v < length self.now.model.vehicles }
        ensures model { result.model.now ≡ self.now.model }
        ensures vehicle { result.vehicle ≡ v }
    {
        let number = self.model.vehicles.get(v as usize).costs;
        VehicleArcs {
            model: self.model,
            vehicle: v,
            entries: self.model.matrices.get(number as usize).entries.as_slice(),
        }
    }

    /// The model.
    #[inline(always)]
    pub(crate) fn model(&self) -> &'m RoutingModel
        ensures { result.now ≡ self.now.model }
    {
        self.model
    }

    /// A pair of the model.
    #[inline(always)]
    pub(crate) fn pair(&self, p: u32) -> Pair
        requires well_formed { IsWellFormed self.now.model }
        requires pair { p < length self.now.model.pairs }
        ensures value { result ≡ pair_at self.now.model p }
        ensures pickup { result.pickup < self.now.model.nodes }
        ensures delivery { result.delivery < self.now.model.nodes }
    {
        *self.model.pairs.get(p as usize)
    }

    /// Whether two vehicles name the same matrix, and so have the same arc costs. Two matrices of the same numbers are
    /// not compared.
    #[inline(always)]
    pub(crate) fn have_same_costs(&self, v: u32, w: u32) -> bool
        requires vehicle { v < length self.now.model.vehicles }
        requires other { w < length self.now.model.vehicles }
        ensures { IsTrue result → (i j : ℕ) → arc_cost self.now.model w i j ≡ arc_cost self.now.model v i j }
    {
        let vehicles = &self.model.vehicles;
        vehicles.get(v as usize).costs == vehicles.get(w as usize).costs
    }

    /// The line of a vehicle with its committed list.
    #[inline(always)]
    pub(crate) fn line_of<'a>(&'a self, routes: &'a Routes, v: u32) -> Line<'a, 'm>
        requires stands { StandsAlong self.now routes.now }
        requires vehicle { v < length routes.now.lists }
        ensures model { result.costs.model.now ≡ self.now.model }
        ensures vehicle { result.costs.vehicle ≡ v }
        ensures list { result.list.now ≡ route routes.now.lists v }
    {
        Line {
            costs: self.costs_of(v),
            along: &self.along[v as usize],
            list: routes.list(v),
        }
    }
}

impl<'m> ListCost for ArcCost<'m> {
    ghost of_model = { λ part. part.model };

    ghost list_cost = { route_cost };

    ghost keeps = { StandsAlong };

    #[inline]
    fn list_adds(&self, routes: &Routes, splice: Splice<'_>) -> i64 {
        self.between_adds(
            routes,
            splice.vehicle,
            splice.front,
            splice.behind,
            splice.middle,
        )
    }
}

impl<'m> InfallibleCost for ArcCost<'m> {
    ghost model = { λ cost. cost.model };

    ghost value = { arcs_part };

    ghost stands_at = { StandsAlong };

    #[inline]
    fn added(&mut self, routes: &Routes, change: &Change) -> i64 {
        added_by(self, routes, change)
    }

    fn commit_lists(&mut self, routes: &Routes, change: &Change) {
        for k in 0..change.parts() {
            let v = change.vehicle(k);
            routes.join_into(change.pieces(k), &mut self.row);
            self.along[v as usize].write(self.model, v, self.row.as_slice());
        }
    }
}
