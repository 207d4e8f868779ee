//! Walks through what an insertion changes in a list whose rows are known. They go at once if it is known what both
//! lists share. Else they go stop by stop, by levels that `vr_first_insert` keeps, which alone calls these.

ghost use Rattle.std.specs.Prelude.{◌≡◌, ◌+◌, ◌≤◌, IsTrue, length, IfOk, OnOk};
ghost use Rattle.vr_model.specs.schedules.Choices.{is_feasible};
ghost use Rattle.vr_reach.specs.Lists.{IsUsed};
ghost use Rattle.vr_reach.specs.DrivenRows.{IsReachedOn};
ghost use Rattle.vr_reach.specs.KnownRows.{IsKnownList};
ghost use Rattle.vr_reach.specs.Standing.{is_stuck, IsReachedAt, ReachesNoEnd};
ghost use Rattle.vr_reach.specs.Stretches.{SharesFront, SharesBack, SharesEnds};
ghost use Rattle.vr_reach.specs.VehicleStops.{line_for, AreStopsFor};

use crate::known_list::KnownList;
use crate::legs::Leg;
use crate::spliced::Spliced;
use crate::stops::{ListStops, StopsFor, hop_from, set_at};
use crate::stops_of_list::asked_of;
use crate::stretches::Stretch;
use crate::walking::{goes_along, levels_before, levels_behind};
use crate::walks::Walk;
use vr_model::NoMemory;
use vr_steps::Levels;

/// Whether the line of a list of a vehicle is feasible. It is found by a walk through all of it but nodes that it
/// shares at its ends with the list before. The rows of that one are known. Afterwards nothing is said of the walk's
/// levels.
///
/// It differs from `passes_along` in four ways:
/// - It is handed how many nodes both share (there may be more).
/// - It has the list written out.
/// - It counts no steps.
/// - The list before need not be feasible.
///
/// `NoMemory` as of `passes_along`.
pub fn goes_between(
    stops: &StopsFor,
    known: &KnownList,
    new: &[u32],
    shared: Stretch,
    walk: &mut Walk,
) -> Result<bool, NoMemory>
    requires stops { AreStopsFor stops.now }
    requires known { IsKnownList stops.now known.now }
    requires used { IsUsed stops.now.closed.model.now new.now }
    requires shared { SharesEnds known.now.list.now new.now shared }
    ensures { IfOk result (λ goes. goes ≡ is_feasible (line_for stops.now new.now)) }
{
    let whole = Spliced::whole(new);
    let asked = asked_of(stops, &whole);
    let runs = stops.runs();
    let from = levels_before(asked.ends, known.rows, shared.front);
    let to = levels_behind(asked.ends, known.rows, known.list.len(), shared.back);
    let leg = Leg {
        stops: asked,
        runs,
        begin: shared.front,
        last: new.len() - shared.back + 1,
        from,
        to,
    };
    goes_along(&leg, walk)
}

/// Writes over `here` what a list of a vehicle reaches one arc after its first `front` nodes. It shares those nodes
/// with another list, whose rows are known. Afterwards nothing is said of the walk's levels.
///
/// `NoMemory` as of `passes_along`.
pub fn leave_rows(
    stops: &StopsFor,
    known: &KnownList,
    new: &[u32],
    front: usize,
    walk: &mut Walk,
    here: &mut Levels,
) -> Result<(), NoMemory>
    requires stops { AreStopsFor stops.now }
    requires known { IsKnownList stops.now known.now }
    requires used { IsUsed stops.now.closed.model.now new.now }
    requires front { SharesFront known.now.list.now new.now front }
    ensures { OnOk result
        (IsReachedAt stops.now.closed.model.now stops.now.d stops.now.v new.now (front + 1) here.new) }
{
    // the nodes that both share tell which row there is
    let _shared = known.list;
    let whole = Spliced::whole(new);
    let asked = asked_of(stops, &whole);
    let from = levels_before(asked.ends, known.rows, front);
    cross_arc(&asked, front, from, walk)?;
    walk.hand_over(here);
    Ok(())
}

/// Moves what is reached at stop `k` of a list of a vehicle on to the next stop. Afterwards nothing is said of the
/// walk's levels.
///
/// `NoMemory` as of `passes_along`.
pub fn go_on(
    stops: &StopsFor,
    list: &[u32],
    k: usize,
    walk: &mut Walk,
    here: &mut Levels,
) -> Result<(), NoMemory>
    requires stops { AreStopsFor stops.now }
    requires used { IsUsed stops.now.closed.model.now list.now }
    requires stop { k ≤ length list.now }
    requires here { IsReachedAt stops.now.closed.model.now stops.now.d stops.now.v list.now k here.old }
    ensures { OnOk result (IsReachedAt stops.now.closed.model.now stops.now.d stops.now.v list.now (k + 1) here.new) }
{
    let whole = Spliced::whole(list);
    let asked = asked_of(stops, &whole);
    cross_arc(&asked, k, here, walk)?;
    walk.hand_over(here);
    Ok(())
}

/// Whether the line of a list of a vehicle is feasible. It is found by a walk from stop `k`, at which `here` is
/// reached, to its last `back` nodes. It shares these with the list before, whose rows are known. Afterwards nothing is
/// said of the walk's levels.
///
/// `NoMemory` as of `passes_along`.
pub fn goes_from(
    stops: &StopsFor,
    known: &KnownList,
    new: &[u32],
    k: usize,
    here: &Levels,
    back: usize,
    walk: &mut Walk,
) -> Result<bool, NoMemory>
    requires stops { AreStopsFor stops.now }
    requires known { IsKnownList stops.now known.now }
    requires used { IsUsed stops.now.closed.model.now new.now }
    requires here { IsReachedAt stops.now.closed.model.now stops.now.d stops.now.v new.now k here.now }
    requires back { SharesBack known.now.list.now new.now back }
    requires apart { k + back ≤ length new.now }
    ensures { IfOk result (λ goes. goes ≡ is_feasible (line_for stops.now new.now)) }
{
    let whole = Spliced::whole(new);
    let asked = asked_of(stops, &whole);
    let runs = stops.runs();
    let to = levels_behind(asked.ends, known.rows, known.list.len(), back);
    let leg = Leg {
        stops: asked,
        runs,
        begin: k,
        last: new.len() - back + 1,
        from: here,
        to,
    };
    goes_along(&leg, walk)
}

/// Whether nothing is reached: no cumul, whatever breaks were taken. Then no list that reaches this at a stop has a
/// feasible line. It takes no memory.
pub fn is_stuck(levels: &Levels) -> bool
    ensures exact { result ≡ is_stuck levels.now }
    ensures no_end { IsTrue result → ReachesNoEnd levels.now }
{
    none_reached(levels)
}

// Whether the set of each number of breaks is empty.
fn none_reached(levels: &Levels) -> bool
    ensures { result ≡ is_stuck levels.now }
{
    for b in 0..levels.len() {
        if levels.level(b).len() > 0 {
            return false;
        }
    }
    true
}

// Lets a walk cross the arc from a stop of a list: it has the levels of the next stop then.
fn cross_arc(stops: &ListStops, k: usize, from: &Levels, walk: &mut Walk) -> Result<(), NoMemory>
    requires stop { k ≤ length stops.now.of.list.now }
    requires from { IsReachedOn stops.now.of k from.now }
    ensures { OnOk result (IsReachedOn stops.now.of (k + 1) walk.new) }
{
    // that the list is in memory says that the sum fits
    let _few = stops.of.list.len();
    let hop = hop_from(&stops.of, k);
    let next = set_at(stops, k + 1);
    walk.cross_from(from, hop, next, &stops.ends.breaks)?;
    Ok(())
}
