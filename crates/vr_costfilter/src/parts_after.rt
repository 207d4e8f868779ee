//! The lists that changes give vehicles.

ghost use Rattle.std.proofs.Props.{props};
ghost use Rattle.std.specs.Prelude.{◌≡◌, ◌<◌, ◌≤◌, All, IsTrue, length};
ghost use Rattle.std.specs.List.{list_all};
ghost use Rattle.vr_model.specs.routes.Routes.{is_distinct, is_empty};
ghost use Rattle.vr_model.specs.tables.Tables.{is_visit};
ghost use Rattle.vr_model.specs.tables.WellFormedOnce.{IsWellFormed-prop};
ghost use Rattle.vr_routes.specs.Pieces.{part_at, IsSplice, IsWithin, IsWithin-prop};
ghost use Rattle.vr_costfilter.specs.ValidParts.{IsValidPart};

use vr_model::Model;
use vr_routes::{Change, Piece, Routes, Row, Splice};

/// Part `k` of a change of routes, before which and after which the lists are valid.
#[derive(Drop)]
pub struct PartAfter<'a> {
    pub model: &'a Model,
    pub routes: &'a Routes,
    pub change: &'a Change,
    pub k: usize,
    /// The lists are valid for the model, which is well formed.
    pub ghost sound: { IsValidPart model.now routes.now.lists change.now k } by { Prim.hlevel
        (props, IsWellFormed-prop, IsWithin-prop) },
}

impl<'a> PartAfter<'a> {
    ghost use Rattle.vr_costfilter.specs.PartsAfter.{list_after, vehicle_after};

    /// The vehicle that gets a list.
    pub fn vehicle(&self) -> u32
        ensures value { result ≡ vehicle_after self.now }
        ensures known { result < length self.now.model.now.vehicles }
    {
        self.change.vehicle(self.k)
    }

    /// The pieces that its list is joined of.
    pub fn pieces(&self) -> &[Piece]
        ensures value { result.now ≡ (part_at self.now.change.now self.now.k).pieces }
        ensures within { All (IsWithin self.now.routes.now.lists) result.now }
        ensures few { length result.now ≤ 8 }
    {
        self.change.pieces(self.k)
    }

    /// Its list as a splice of the one before.
    pub fn splice(&self) -> Splice<'_>
        ensures vehicle { result.vehicle ≡ vehicle_after self.now }
        ensures known { result.vehicle < length self.now.model.now.vehicles }
        ensures ends { IsSplice self.now.routes.now.lists (vehicle_after self.now)
            (part_at self.now.change.now self.now.k).pieces result.front result.behind result.middle.now }
    {
        self.change.splice(self.k)
    }

    /// Whether its list is empty.
    pub fn is_empty(&self) -> bool
        ensures { result ≡ is_empty (list_after self.now) }
    {
        Piece::nodes_in(self.pieces()) == 0
    }

    /// Writes its list.
    pub fn write(&self, row: &mut Row)
        ensures list { row.new ≡ list_after self.now }
        ensures visits { IsTrue (list_all (is_visit self.now.model.now) row.new) }
        ensures distinct { IsTrue (is_distinct row.new) }
        ensures few { length row.new ≤ 1000 }
    {
        self.routes.join_into(self.pieces(), row);
    }
}
