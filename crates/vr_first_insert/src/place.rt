//! Lists with an item placed in them.

ghost use Rattle.std.specs.Prelude.{◌≡◌, ◌+◌, ◌<◌, ◌≤◌, ℕ, List, OnOk, insert, length};
ghost use Rattle.vr_model.specs.moves.Moves.{with_route};
ghost use Rattle.vr_model.specs.routes.Routes.{route};
ghost use Rattle.vr_model.specs.tables.Limits.{most_nodes};
ghost use Rattle.vr_rules.specs.Placing.{AreBuilt};
ghost use Rattle.vr_first_insert.specs.KeptRows.{AreKeptRows};
ghost use Rattle.vr_first_insert.specs.Placings.{placed as placed_of, AreWithin, MayBeInserted};

use crate::choice::{InsertionChoice, Placing};
use crate::list_rows::{ListRows, change_list};
use crate::vehicle_list::LookedUpList;
use std::alloc::Global;
use vr_model::{NoMemory, Seq};
use vr_plan::Lookups;

/// Writes the list with an item placed in it over another list.
pub(crate) fn write_placed(
    list: &[u32],
    placing: Placing,
    longer: &mut Seq<u32>,
) -> Result<(), NoMemory>
    requires within { AreWithin list.now placing }
    requires few { length list.now ≤ most_nodes }
    ensures { OnOk result (longer.new ≡ placed_of list.now placing) }
{
    longer.truncate(0);
    match placing {
        Placing::One(node, t) => {
            longer.extend_from_slice(&list[..t as usize])?;
            longer.push(node)?;
            longer.extend_from_slice(&list[t as usize..])?;
        }
        Placing::Two(pickup, delivery, s, t) => {
            longer.extend_from_slice(&list[..s as usize])?;
            longer.push(pickup)?;
            longer.extend_from_slice(&list[s as usize..t as usize])?;
            longer.push(delivery)?;
            longer.extend_from_slice(&list[t as usize..])?;
        }
    }
    Ok(())
}

/// Moves the node at place `t` one place on.
pub(crate) fn move_on(longer: &mut Seq<u32>, t: usize)
    requires { t + 1 < length longer.old }
    ensures { (list : List ℕ) (node : ℕ) → t < length list → longer.old ≡ insert list t node
        → longer.new ≡ insert list (t + 1) node }
{
    // that the list is in memory says that the sum fits
    let _few = longer.len();
    longer.swap(t, t + 1);
}

/// Writes a list over another.
pub(crate) fn write_list(list: &[u32], out: &mut Seq<u32>) -> Result<(), NoMemory>
    ensures { OnOk result (out.new ≡ list.now) }
{
    out.truncate(0);
    out.extend_from_slice(list)?;
    Ok(())
}

/// Makes an insertion, and writes the rows of the list over those of the list before. The list is written over `longer`
/// first. It takes memory only if the list is longer than each earlier one of its vehicle, or a set has more than four
/// runs.
pub(crate) fn place_in(
    longer: &mut Seq<u32>,
    alloc: Global,
    lookups: &Lookups<'_>,
    list_rows: &mut [ListRows],
    lists: &mut [Seq<u32>],
    choice: InsertionChoice,
) -> Result<(), NoMemory>
    requires may { MayBeInserted lookups.now.closed.model.now lists.old choice }
    requires built { AreBuilt lookups.now.closed.model.now lists.old }
    requires kept { AreKeptRows lookups.now.closed.model.now lists.old list_rows.old }
    ensures lists { OnOk result (lists.new ≡ with_route lists.old choice.vehicle
        (placed_of (route lists.old choice.vehicle) choice.placing)) }
    ensures kept { OnOk result (AreKeptRows lookups.now.closed.model.now lists.new list_rows.new) }
{
    let v = choice.vehicle;
    let before = lists[v as usize].as_slice();
    write_placed(before, choice.placing, longer)?;
    let nodes = longer.as_slice();
    let list = LookedUpList {
        lookups,
        vehicle: v,
        nodes,
    };
    change_list(alloc, list_rows, lists, &list)?;
    Ok(())
}
