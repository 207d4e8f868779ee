//! The parts of a change, each as other nodes between the ends that it keeps of a list.

ghost use Rattle.std.specs.Prelude.{◌<◌, length};
ghost use Rattle.vr_model.specs.declared.records.Model.{Model};
ghost use Rattle.vr_model.specs.tables.WellFormed.{IsWellFormed};
ghost use Rattle.vr_routes.specs.Changes.{IsMadeOn};
ghost use Rattle.vr_routes.specs.Pieces.{part_at};
ghost use Rattle.vr_pathfilters.specs.Parts.{IsPartBetween};
ghost use Rattle.vr_pathfilters.specs.TourLists.{AreTours};

use vr_routes::{Change, Routes, Row, Splice};

/// Part `k` of a change as a splice, of which the nodes that come between are written over a row.
#[inline]
pub(crate) fn write_between<'a>(
    routes: &Routes,
    change: &'a Change,
    k: usize,
    between: &mut Row,
) -> Splice<'a>
    requires tours { (model : _) × IsWellFormed model × AreTours model routes.now }
    requires made { IsMadeOn routes.now change.now }
    requires part { k < length change.now }
    ensures { (model : Model) → IsWellFormed model → AreTours model routes.now
        → IsPartBetween model routes.now.lists (part_at change.now k) result.vehicle result.front result.behind
        between.new }
{
    let splice = change.splice(k);
    routes.join_into(splice.middle, between);
    splice
}
