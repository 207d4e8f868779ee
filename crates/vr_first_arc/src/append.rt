//! Items at the end of a list.

ghost use Rattle.std.specs.Prelude.{◌≡◌, ◌++◌, IfOk, OnOk};
ghost use Rattle.vr_rules.specs.Fronts.{IsDriven};
ghost use Rattle.vr_rules.specs.Placing.{item_nodes};
ghost use Rattle.vr_first_arc.specs.Choices.{may_append as may_append_of};
ghost use Rattle.vr_first_arc.specs.Growing.{filling_model, IsGrowing};

use crate::growing::Growing;
use vr_model::{NoMemory, Seq};
use vr_rules::{Item, Room, groups_have_room};

// Puts an item at the end of a list.
pub(crate) fn append(list: &mut Seq<u32>, item: Item) -> Result<(), NoMemory>
    ensures { OnOk result (list.new ≡ list.old ++ item_nodes item) }
{
    match item {
        Item::Visit(node) => list.push(node)?,
        Item::PickupAndDelivery(pickup, delivery) => {
            list.push(pickup)?;
            list.push(delivery)?
        }
    }
    Ok(())
}

// Whether the vehicle may drive its list with an item at the end, and the groups have room for the item.
pub(crate) fn may_append(
    growing: &Growing<'_, '_, '_, '_>,
    room: &mut Room,
    item: Item,
) -> Result<bool, NoMemory>
    requires growing { IsGrowing growing.now }
    requires longer { IsDriven (filling_model growing.now.filling) (growing.now.list.now ++ item_nodes item) }
    ensures { IfOk result (λ may. may ≡ may_append_of (filling_model growing.now.filling) growing.now.v
        growing.now.list.now growing.now.marks.now item) }
{
    let lookups = growing.filling.lookups;
    if !growing
        .fronts
        .may_append(room, lookups, growing.v, growing.list, item)?
    {
        return Ok(false);
    }
    Ok(groups_have_room(lookups, growing.marks, item))
}
