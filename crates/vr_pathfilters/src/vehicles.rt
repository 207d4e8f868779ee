//! The filter of allowed vehicles.

ghost use Rattle.std.specs.Prelude.{◌≡◌, ◌+◌, ◌<◌, ◌≤◌, ℕ, All, Bool, true, false, List, length};
ghost use Rattle.std.specs.Prelude.{IsOk, IsTrue, IfOk, OnOk, OnErr};
ghost use Rattle.vr_model.specs.routes.Routes.{route};
ghost use Rattle.vr_model.specs.tables.Tables.{visits};
ghost use Rattle.vr_model.specs.tables.WellFormed.{IsWellFormed};
ghost use Rattle.vr_routes.specs.Changes.{IsMadeOn, after};
ghost use Rattle.vr_routes.specs.Pieces.{ListAfter, IsWithin, changed, joined, nodes_of, part_at};
ghost use Rattle.vr_routes.specs.Tours.{Tours};
ghost use Rattle.vr_pathfilters.specs.Lists.{holds_of_each};
ghost use Rattle.vr_pathfilters.specs.TourLists.{AreTours, KeepRule};
ghost use Rattle.vr_pathfilters.specs.ListFilters.{StandsBy};
ghost use Rattle.vr_pathfilters.specs.Vehicles.{are_allowed_pieces, is_allowed_list};

use crate::lists::{ListFilter, ListRule};
use std::alloc::Global;
use vr_filter::PathFilter;
use vr_lists::NodeTables;
use vr_model::{Closed, Model, NoMemory};
use vr_plan::Lookups;
use vr_routes::{Change, Piece, Routes};

/// The rule that each visit of a list allows its vehicle.
#[derive(Drop)]
pub struct VehicleRule<'m> {
    lookups: Lookups<'m>,
}

impl<'m> ListRule for VehicleRule<'m> {
    ghost rule = { λ r v list. is_allowed_list r.lookups.closed.model.now v list };

    ghost knows = { λ r tours. AreTours r.lookups.closed.model.now tours };

    fn keeps(&mut self, routes: &Routes, change: &Change, k: usize) -> bool {
        if self.lookups.closed.model.allowed.is_empty() {
            return true;
        }
        let splice = change.splice(k);
        pieces_allow(self.lookups.nodes(), routes, splice.vehicle, splice.middle)
    }

    fn commit(&mut self, _routes: &Routes, _change: &Change) {}
}

// Whether the nodes of a piece allow a vehicle. Those of its own list do.
fn piece_allows(node_tables: &NodeTables<'_>, routes: &Routes, v: u32, piece: Piece) -> bool
    requires rule { IsTrue (is_allowed_list node_tables.now v (route routes.now.lists v)) }
    requires within { IsWithin routes.now.lists piece }
    ensures { result ≡ is_allowed_list node_tables.now v (nodes_of routes.now.lists piece) }
{
    match piece {
        Piece::Node { node } => node_tables.allows_vehicle(v, node),
        Piece::Chain {
            vehicle,
            from,
            to,
            ..
        } => {
            if vehicle == v {
                return true;
            }
            node_tables.allows_each(v, &routes.list(vehicle)[from as usize..to as usize])
        }
    }
}

// Whether the nodes of pieces allow a vehicle.
fn pieces_allow(node_tables: &NodeTables<'_>, routes: &Routes, v: u32, pieces: &[Piece]) -> bool
    requires rule { IsTrue (is_allowed_list node_tables.now v (route routes.now.lists v)) }
    requires within { All (IsWithin routes.now.lists) pieces.now }
    ensures { result ≡ are_allowed_pieces node_tables.now routes.now.lists v pieces.now }
{
    for k in 0..pieces.len() {
        if !piece_allows(node_tables, routes, v, pieces[k]) {
            return false;
        }
    }
    true
}

/// Lets a change pass if each visit of each list allows its vehicle afterwards (`SetAllowedVehiclesForIndex` in
/// OR-Tools). It asks the nodes that a change takes from the list of another vehicle or puts in one by one, and no
/// others. It takes memory only when it is opened.
pub type VehicleFilter<'m> = ListFilter<VehicleRule<'m>>;

impl<'m> VehicleFilter<'m> {
    /// A filter in sync with the lists of routes, whose visits allow their vehicles. The only refusal is want of
    /// memory. Tests alone call it; `vr_judge` calls `over`.
    pub fn open(
        alloc: Global,
        model: &'m Model,
        routes: &Routes,
    ) -> Result<VehicleFilter<'m>, NoMemory>
        requires well_formed { IsWellFormed model.now }
        requires visits { routes.now.visits ≡ visits model.now }
        requires many { length routes.now.lists ≡ length model.now.vehicles }
        requires rule { IsTrue (holds_of_each (is_allowed_list model.now) routes.now.lists) }
        ensures holds { IfOk result (λ filter. ⟦<VehicleFilter<'static> as PathFilter>⟧.holds filter
            ≡ holds_of_each (is_allowed_list model.now)) }
        ensures stands { IfOk result (λ filter.
            ⟦<VehicleFilter<'static> as PathFilter>⟧.stands_at filter routes.now) }
        ensures weight { IfOk result (λ filter. (before later : List (List ℕ))
            → ⟦<VehicleFilter<'static> as PathFilter>⟧.weight filter before later ≡ 0) }
    {
        let lookups = Lookups::open(alloc, Closed { model })?;
        VehicleFilter::over(&lookups, routes)
    }

    /// The same, over what was looked up of the model. It takes no memory; `NoMemory` only if as many already share
    /// what was looked up as can be counted.
    pub fn over(lookups: &Lookups<'m>, routes: &Routes) -> Result<VehicleFilter<'m>, NoMemory>
        requires { KeepRule is_allowed_list lookups.now.closed.model.now routes.now }
        ensures holds { IfOk result (λ filter. ⟦<VehicleFilter<'static> as PathFilter>⟧.holds filter
            ≡ holds_of_each (is_allowed_list lookups.now.closed.model.now)) }
        ensures stands { IfOk result (λ filter.
            ⟦<VehicleFilter<'static> as PathFilter>⟧.stands_at filter routes.now) }
        ensures weight { IfOk result (λ filter. (before later : List (List ℕ))
            → ⟦<VehicleFilter<'static> as PathFilter>⟧.weight filter before later ≡ 0) }
    {
        // neither does anything: contracts learn that no visit is there twice, and that lists have visits alone
        routes.know_once();
        routes.know_entries();
        Ok(ListFilter {
            rule: VehicleRule {
                lookups: lookups.share()?,
            },
            is_prepared: false,
        })
    }
}
