//! The earliest cumuls along a list. They are what the rule `earliest` chooses if each stop allows one run, there are
//! no breaks and no slack would be too great.

ghost use Rattle.std.specs.Prelude.{◌≡◌, ◌↔◌, ◌+◌, ◌<◌, ◌≤◌, ◌≤ℤ◌, ◌^◌, suc, All, IfSome, IsTrue, is_some, [], length};
ghost use Rattle.std.specs.Prelude.{List, ℤ, neg_ℤ, pos};
ghost use Rattle.vr_model.specs.tables.Numbers.{horizon};
ghost use Rattle.vr_model.specs.tables.Tables.{breaks_of, dimension_at};
ghost use Rattle.vr_model.specs.tables.WellFormed.{IsIn};
ghost use Rattle.vr_steps.specs.Stops.{allowed_by};
ghost use Rattle.vr_steps.specs.declared.stops.StopName.TheVariants.{Start};
ghost use Rattle.vr_reach.specs.Early.{has_cumul_behind, AreChosen, AreEarly, AreFoundInTurn, CanBeFoundInTurn};
ghost use Rattle.vr_reach.specs.Early.{IsEarliestBehind};
ghost use Rattle.vr_reach.specs.Lists.{IsUsed};
ghost use Rattle.vr_reach.specs.VehicleStops.{line_for, line_of, AreStopsFor};
ghost use Rattle.vr_reach.specs.VisitRuns.{have_stops_one_run, AreVisitRuns, HasCumulEnds, IsFinish, IsRunFor};

use crate::driven::Driven;
use crate::run_walks::RunLine;
use crate::runs::run_of;
use crate::single::{Ahead, finish_of, slack_of, stop_ahead};
use crate::spliced::Spliced;
use crate::stops::{StopsFor, node_at};
use arrayvec::ArrayVec;
use vr_spans::Run;

/// The cumuls of the stops of one list: of 1000 visits at most, and of its two ends. They take no memory.
pub type Cumuls = ArrayVec<i64, 1002>;

/// The run of cumuls that each stop of a vehicle allows.
#[derive(Drop)]
pub struct StopRuns<'a> {
    /// What the start allows.
    pub start: Run,
    /// What each visit allows, by its node.
    pub visits: &'a [Run],
    /// The end, and what it allows.
    pub finish: Ahead,
}

/// The run of cumuls that each stop of a vehicle allows, nothing exactly if it has breaks or some stop allows more than
/// one. `vr_costfilter` asks it too, for all lists of a vehicle.
pub fn single_runs<'s>(stops: &StopsFor<'_, 's>) -> Option<StopRuns<'s>>
    requires { AreStopsFor stops.now }
    ensures no_breaks { IfSome result (λ runs.
        breaks_of (dimension_at stops.now.closed.model.now stops.now.d) stops.now.v ≡ []) }
    ensures start { IfSome result (λ runs.
        IsRunFor (allowed_by stops.now.closed.model.now stops.now.d stops.now.v Start) runs.start) }
    ensures visits { IfSome result (λ runs. AreVisitRuns stops.now.closed.model.now stops.now.d stops.now.v
        runs.visits.now) }
    ensures finish { IfSome result (λ runs. IsFinish stops.now.closed.model.now stops.now.d stops.now.v runs.finish) }
    ensures known { is_some result ≡ have_stops_one_run stops.now.closed.model.now stops.now.d stops.now.v }
{
    let ends = &stops.of_dimension.ends[stops.v as usize];
    if !ends.has_no_breaks() {
        return None;
    }
    let start = run_of(&ends.start_set)?;
    let finish = finish_of(stops.closed.model, stops.v, ends)?;
    let visits = stops.runs()?;
    Some(StopRuns {
        start,
        visits,
        finish,
    })
}

/// Writes the cumuls of the earliest schedule of a list over others, if they are found stop by stop. Each is then the
/// least that the one before leaves. They are found so exactly if there is a schedule and three conditions hold:
/// - The vehicle has no breaks.
/// - No stop allows more than one run of cumuls.
/// - No slack would be too great (else a stop before would have to be later than its least).
///
/// False exactly if they are not found so, also if there is no schedule. Then nothing is said of the cumuls.
pub fn write_earliest(stops: &StopsFor, list: &[u32], cumuls: &mut Cumuls) -> bool
    requires stops { AreStopsFor stops.now }
    requires used { IsUsed stops.now.closed.model.now list.now }
    requires few { length list.now ≤ 1000 }
    ensures found { IsTrue result ↔ CanBeFoundInTurn stops.now.closed.model.now stops.now.d stops.now.v list.now }
    ensures chosen { IsTrue result → AreChosen (line_for stops.now list.now) cumuls.new.items }
    ensures stops { IsTrue result → length cumuls.new.items ≡ suc (suc (length list.now)) }
    ensures range { IsTrue result → All (IsIn (pos 0) horizon) cumuls.new.items }
{
    let (closed, d, v) = (stops.closed, stops.d, stops.v);
    match single_runs(stops) {
        Some(runs) => {
            if runs.start.lo > runs.start.hi {
                return false;
            }
            let whole = Spliced::whole(list);
            let of = Driven {
                closed,
                d,
                v,
                list: &whole,
            };
            let line = RunLine {
                of,
                evaluator: closed.model.dimensions.get(d as usize).evaluator_of(v),
                slack: slack_of(closed, d),
                visits: runs.visits,
                finish: runs.finish,
            };
            drive(&line, runs.start, cumuls)
        }
        None => false,
    }
}

// Writes the earliest cumuls of all stops, if each can be had from the one before.
fn drive(line: &RunLine, start: Run, cumuls: &mut Cumuls) -> bool
    requires few { length line.now.of.list.now ≤ 1000 }
    requires start { IsRunFor (allowed_by line.now.of.closed.model.now line.now.of.d line.now.of.v Start) start }
    requires some { start.lo ≤ℤ start.hi }
    ensures found { IsTrue result ↔ ((found : List ℤ)
        × AreFoundInTurn (line_of line.now.of) (suc (length line.now.of.list.now)) found) }
    ensures early { IsTrue result → AreEarly (line_of line.now.of) (length line.now.of.list.now + 1) cumuls.new.items }
{
    let of = &line.of;
    let mut origin = node_at(of, 0);
    let mut cumul = start.lo;
    cumuls.clear();
    cumuls.push(cumul);
    let n = of.list.len();
    for k in 0..n + 1 {
        let ahead = stop_ahead(line, k);
        let transit = line.transit(origin, ahead.node);
        match earliest_behind(cumul, transit, line.slack, ahead.allowed) {
            Some(next) => cumul = next,
            None => return false,
        }
        cumuls.push(cumul);
        origin = ahead.node;
    }
    true
}

/// The least cumul of the next stop after an arc from a cumul. From 10 over a transit of 5 to a stop that opens at 20
/// it is 20, if a slack of 5 is allowed. Nothing exactly if the stop allows none that is reached, or if the slack would
/// be too great. Cumuls are in `0..=2^36`, transits within 2^31. `vr_costfilter` asks it too, of stops with floors.
#[inline]
pub fn earliest_behind(cumul: i64, transit: i64, slack: i64, allowed: Run) -> Option<i64>
    requires cumul { IsIn (pos 0) horizon cumul }
    requires least { neg_ℤ (pos (2 ^ 31)) ≤ℤ transit }
    requires greatest { transit ≤ℤ pos (2 ^ 31) }
    requires slack { IsIn (pos 0) horizon slack }
    requires allowed { HasCumulEnds allowed }
    ensures exact { IfSome result (IsEarliestBehind cumul transit slack allowed) }
    ensures range { IfSome result (IsIn (pos 0) horizon) }
    ensures known { is_some result ≡ has_cumul_behind cumul transit slack allowed }
{
    let reached = cumul + transit;
    let next = reached.max(allowed.lo);
    if next > allowed.hi {
        return None;
    }
    if next - reached > slack {
        return None;
    }
    Some(next)
}
