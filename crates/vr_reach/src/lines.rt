//! Lines that are written over.

ghost use Rattle.std.specs.Prelude.{◌≡◌, All, OnOk};
ghost use Rattle.std.specs.List.{AllZip};
ghost use Rattle.vr_steps.specs.Arcs.{IsSoundHop};
ghost use Rattle.vr_steps.specs.Levels.{HasNumbers, IsCumuls};
ghost use Rattle.vr_steps.specs.Lines.{hops_along, IsLineOf, IsSoundLine};
ghost use Rattle.vr_reach.specs.Lists.{IsUsed};
ghost use Rattle.vr_reach.specs.VehicleStops.{line_for, line_of, AreStopsFor};

use crate::driven::Driven;
use crate::spliced::Spliced;
use crate::stops::{ListStops, StopsFor, hop_from, set_at};
use crate::stops_of_list::asked_of;
use vr_model::{NoMemory, Seq};
use vr_spans::Spans;
use vr_steps::{Breaks, Hop, Line};

/// Writes the line of a vehicle with a list in a dimension over another line, as `Line::build` makes it. After
/// `NoMemory` nothing is said of the line.
///
/// It takes memory only if a line has more stops than any before, or a set more than four runs. `vr_plan::timing_of`
/// alone asks it, when it has not found the chosen cumuls without a line.
pub fn write_line(stops: &StopsFor, list: &[u32], out: &mut Line) -> Result<(), NoMemory>
    requires stops { AreStopsFor stops.now }
    requires used { IsUsed stops.now.closed.model.now list.now }
    ensures exact { OnOk result (IsLineOf (line_for stops.now list.now) out.new) }
    ensures sound { OnOk result (IsSoundLine out.new) }
{
    let whole = Spliced::whole(list);
    let asked = asked_of(stops, &whole);
    write_sets(&asked, &mut out.allowed)?;
    write_hops(&asked.of, &mut out.hops)?;
    out.breaks = Breaks::of(stops.closed.model.dimensions.get(stops.d as usize), stops.v);
    Ok(())
}

// Writes what each stop allows over other sets.
fn write_sets(stops: &ListStops, sets: &mut Seq<Spans>) -> Result<(), NoMemory>
    ensures exact { OnOk result (AllZip HasNumbers (line_of stops.now.of).allowed sets.new) }
    ensures cumuls { OnOk result (All IsCumuls sets.new) }
{
    sets.truncate(0);
    let n = stops.of.list.len();
    for k in 0..n + 2 {
        let Ok(set) = set_at(stops, k).copy() else {
            return Err(NoMemory);
        };
        sets.push(set)?;
    }
    Ok(())
}

// Writes the arc from each stop to the next over others.
fn write_hops(of: &Driven, hops: &mut Seq<Hop>) -> Result<(), NoMemory>
    ensures exact { OnOk result (hops.new ≡ hops_along of.now.closed.model.now of.now.d of.now.v of.now.list.now) }
    ensures sound { OnOk result (All IsSoundHop hops.new) }
{
    hops.truncate(0);
    let n = of.list.len();
    for k in 0..n + 1 {
        hops.push(hop_from(of, k))?;
    }
    Ok(())
}
