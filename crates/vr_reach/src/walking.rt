//! Walks along a list, and through what changed in one.

ghost use Rattle.std.specs.Prelude.{◌≡◌, ◌+◌, ◌-◌, ◌<◌, ◌≤◌, IsTrue, length, IfOk, IfSome, IsSome, None};
ghost use Rattle.vr_model.specs.schedules.Choices.{is_feasible};
ghost use Rattle.vr_model.specs.schedules.Weights.{walk_weight, list_weight};
ghost use Rattle.vr_reach.specs.Rows.{row_at};
ghost use Rattle.vr_reach.specs.Lists.{is_feasible_list, IsTour, IsUsed};
ghost use Rattle.vr_reach.specs.KnownRows.{IsKnownList};
ghost use Rattle.vr_reach.specs.Legs.{line_of_leg};
ghost use Rattle.vr_reach.specs.Spliced.{AreSeams};
ghost use Rattle.vr_reach.specs.Splices.{spliced_by};
ghost use Rattle.vr_reach.specs.GivenUp.{IsGivenUp};
ghost use Rattle.vr_reach.specs.Tries.{list_tries, tries_between};
ghost use Rattle.vr_reach.specs.VehicleStops.{line_for, AreStopsFor};

use crate::ends::Ends;
use crate::known_list::KnownList;
use crate::legs::Leg;
use crate::level_rows::Rows;
use crate::probing::told_without_breaks;
use crate::run_walks::{RunLine, RunWalk};
use crate::single::{finish_of, runs_between, slack_of, walk_by_runs};
use crate::spliced::{Splice, Spliced};
use crate::stops::{StopsFor, hop_from, set_at};
use crate::stops_of_list::asked_of;
use crate::stretches::Stretch;
use crate::walks::Walk;
use std::marker::Brand;
use std::sync::ledger::{Blank, Ledger};
use vr_model::{NoMemory, Steps};
use vr_steps::Levels;

// Whether the line of a list is feasible, found by a walk along a leg of it. The walk carries one run if there are no
// breaks and that is all there is. Else, if neither a visit nor the end allows more than one run, walks without a break
// are asked first. Their arcs are counted as tries.
fn walk_through<L: Ledger, M: Ledger>(
    leg: &Leg,
    walk: &mut Walk,
    steps: &mut Steps<L>,
    tries: &mut Steps<M>,
) -> Result<bool, NoMemory>
    ensures exact { IfOk result (λ passed. passed ≡ is_feasible (line_of_leg leg.now)) }
    ensures count { steps.new ≤ steps.old + walk_weight (line_of_leg leg.now) leg.now.begin leg.now.last }
    ensures tries { tries.new ≤ tries.old + tries_between (line_of_leg leg.now) leg.now.begin leg.now.last }
{
    let told = told_by_runs(leg, steps, tries);
    if let Some(passed) = told {
        return Ok(passed);
    }
    walk_by_sets(leg, walk, steps)
}

// The same, if walks that carry one run tell. `None` if some visit or the end allows more than one, or if walks without
// a break leave it open.
fn told_by_runs<L: Ledger, M: Ledger>(
    leg: &Leg,
    steps: &mut Steps<L>,
    tries: &mut Steps<M>,
) -> Option<bool>
    ensures told { IfSome result (λ passed. passed ≡ is_feasible (line_of_leg leg.now)) }
    ensures untold { result ≡ None → steps.new ≡ steps.old }
    ensures given_up { result ≡ None → IsSome leg.now.runs → IsGivenUp leg.now }
    ensures known { IsSome result → IsSome leg.now.runs × (IsGivenUp leg.now → ⊥) }
    ensures count { steps.new ≤ steps.old + walk_weight (line_of_leg leg.now) leg.now.begin leg.now.last }
    ensures tries { tries.new ≤ tries.old + tries_between (line_of_leg leg.now) leg.now.begin leg.now.last }
{
    let visits = leg.runs?;
    let (closed, d, v) = (leg.stops.of.closed, leg.stops.of.d, leg.stops.of.v);
    let finish = finish_of(closed.model, v, leg.stops.ends)?;
    let line = RunLine {
        of: leg.stops.of,
        evaluator: closed.model.dimensions.get(d as usize).evaluator_of(v),
        slack: slack_of(closed, d),
        visits,
        finish,
    };
    let walk = RunWalk {
        line,
        begin: leg.begin,
        last: leg.last,
        from: leg.from,
        to: leg.to,
    };
    if let Some(between) = runs_between(leg.stops.ends, &walk) {
        return Some(walk_by_runs(&walk, between, steps));
    }
    told_without_breaks(&walk, tries)
}

// The same, carrying the sets of each number of breaks.
fn walk_by_sets<L: Ledger>(
    leg: &Leg,
    walk: &mut Walk,
    steps: &mut Steps<L>,
) -> Result<bool, NoMemory>
    ensures exact { IfOk result (λ passed. passed ≡ is_feasible (line_of_leg leg.now)) }
    ensures count { steps.new ≤ steps.old + walk_weight (line_of_leg leg.now) leg.now.begin leg.now.last }
{
    let breaks = &leg.stops.ends.breaks;
    // that the list is in memory says that the sums fit
    let _few = leg.stops.of.list.len();
    let hop = hop_from(&leg.stops.of, leg.begin);
    let next = set_at(&leg.stops, leg.begin + 1);
    walk.leave(leg.from, hop, next, breaks, steps)?;
    for k in leg.begin + 1..leg.last {
        let hop = hop_from(&leg.stops.of, k);
        let next = set_at(&leg.stops, k + 1);
        walk.step(hop, next, breaks, steps)?;
    }
    Ok(walk.meets(leg.to, steps))
}

/// Whether the list that a vehicle gets is empty or its line feasible: its list before, with other nodes in the place
/// of some. It is found by a walk through what differs from the list before, which passes itself and whose rows are
/// known. Afterwards nothing is said of the walk's levels. The filters of dimensions (`vr_pathfilters`) alone ask it.
///
/// It counts a step for each run that it carries over an arc, once for each number of further breaks. When it joins the
/// rows it counts one for each run on both sides. Together that is at most the weight that the definitions give the
/// changed list.
///
/// One run is enough if neither a visit nor the end allows more, and one run is reached when the walk leaves the rows:
/// - A vehicle without breaks: the walk carries one run in place of sets.
/// - A vehicle with breaks: walks of one run without a break are tried before the one with sets. There is at most one
///   for each number of breaks taken before it. They tell of most moves, and count a try for each arc that they go
///   over, none of which lies outside the changed stretch.
///
/// `NoMemory` if memory was needed and there was none. It is taken only if a set has more than four runs, or the
/// vehicle has breaks.
pub fn passes_along<L: Ledger, M: Ledger>(
    stops: &StopsFor,
    known: &KnownList,
    splice: &Splice,
    walk: &mut Walk,
    steps: &mut Steps<L>,
    tries: &mut Steps<M>,
) -> Result<bool, NoMemory>
    requires stops { AreStopsFor stops.now }
    requires known { IsKnownList stops.now known.now }
    requires seams { AreSeams (length known.now.list.now) splice.now.front splice.now.behind }
    requires old_tour { IsTour stops.now.closed.model.now known.now.list.now }
    requires tour { IsTour stops.now.closed.model.now (spliced_by known.now splice.now) }
    requires passed { IsTrue
        (is_feasible_list stops.now.closed.model.now stops.now.d stops.now.v known.now.list.now) }
    ensures exact { IfOk result (λ passed. passed
        ≡ is_feasible_list stops.now.closed.model.now stops.now.d stops.now.v (spliced_by known.now splice.now)) }
    ensures count { steps.new ≤ steps.old + list_weight stops.now.closed.model.now stops.now.d stops.now.v
        known.now.list.now (spliced_by known.now splice.now) }
    ensures tries { tries.new ≤ tries.old + list_tries stops.now.closed.model.now stops.now.d stops.now.v
        known.now.list.now (spliced_by known.now splice.now) }
{
    let old = known.list;
    let new = Spliced::of(old, splice.front, splice.behind, splice.middle);
    let n = new.len();
    if n == 0 {
        return Ok(true);
    }
    let back = old.len() - splice.behind;
    let front = splice.front;
    let told = Stretch { front, back };
    let stretch = Stretch::of(old, &new, told);
    // the list is as it was, and passed then
    if stretch.front == old.len() && stretch.front == n {
        return Ok(true);
    }
    let asked = asked_of(stops, &new);
    let runs = stops.runs();
    let from = levels_before(asked.ends, known.rows, stretch.front);
    let to = levels_behind(asked.ends, known.rows, old.len(), stretch.back);
    let leg = Leg {
        stops: asked,
        runs,
        begin: stretch.front,
        last: n - stretch.back + 1,
        from,
        to,
    };
    walk_through(&leg, walk, steps, tries)
}

/// Whether a vehicle has a schedule with a list in a dimension: goes along the list from its start to its end.
/// `vr_rules` asks it of whole lists. Afterwards nothing is said of the walk's levels.
///
/// `NoMemory` as of `passes_along`.
pub fn goes_through(stops: &StopsFor, list: &[u32], walk: &mut Walk) -> Result<bool, NoMemory>
    requires stops { AreStopsFor stops.now }
    requires used { IsUsed stops.now.closed.model.now list.now }
    ensures { IfOk result (λ goes. goes ≡ is_feasible (line_for stops.now list.now)) }
{
    let whole = Spliced::whole(list);
    let asked = asked_of(stops, &whole);
    let runs = stops.runs();
    let leg = Leg {
        stops: asked,
        runs,
        begin: 0,
        last: list.len() + 1,
        from: &asked.ends.start_levels,
        to: &asked.ends.end_levels,
    };
    goes_along(&leg, walk)
}

// Whether the line of a list is feasible, found by a walk along a leg of it. Nobody counts its steps or tries.
pub(crate) fn goes_along(leg: &Leg, walk: &mut Walk) -> Result<bool, NoMemory>
    ensures { IfOk result (λ goes. goes ≡ is_feasible (line_of_leg leg.now)) }
{
    walk_uncounted::<Brand, Brand>(leg, walk, Blank::new(1), Blank::new(1))
}

// The same, by counters that are made of blank ones.
fn walk_uncounted<L: Ledger, M: Ledger>(
    leg: &Leg,
    walk: &mut Walk,
    blank: Blank,
    other: Blank,
) -> Result<bool, NoMemory>
    requires name { blank.name ≡ L.name }
    requires parts { blank.parts ≡ L.parts }
    requires some { 0 < blank.parts }
    requires other_name { other.name ≡ M.name }
    requires other_parts { other.parts ≡ M.parts }
    requires other_some { 0 < other.parts }
    ensures { IfOk result (λ goes. goes ≡ is_feasible (line_of_leg leg.now)) }
{
    let mut steps = Steps::<L>::new(blank);
    let mut tries = Steps::<M>::new(other);
    walk_through(leg, walk, &mut steps, &mut tries)
}

// What a walk begins with: the levels at which the last stop of the shared front is reached. The front is what a list
// shares with the one whose rows are known. With no node shared that stop is the start. Its levels are those of `ends`,
// since of the rows of an empty list nothing is said.
pub(crate) fn levels_before<'a>(ends: &'a Ends, rows: &'a Rows, front: usize) -> &'a Levels
    requires row { 0 < front → front < length rows.now.forward }
    ensures start { front ≡ 0 → result.now ≡ ends.now.start_levels }
    ensures row { 0 < front → result.now ≡ row_at rows.now.forward front }
{
    if front == 0 {
        return &ends.start_levels;
    }
    rows.forward(front)
}

// What a walk meets: the levels from which the end is reached at the first stop of the shared back. The back is what a
// list shares with the one of `n` visits whose rows are known. With no node shared that stop is the end.
pub(crate) fn levels_behind<'a>(ends: &'a Ends, rows: &'a Rows, n: usize, back: usize) -> &'a Levels
    requires few { back ≤ n }
    requires row { 0 < back → n - back + 1 < length rows.now.backward }
    ensures end { back ≡ 0 → result.now ≡ ends.now.end_levels }
    ensures row { 0 < back → result.now ≡ row_at rows.now.backward (n - back + 1) }
{
    if back == 0 {
        return &ends.end_levels;
    }
    rows.backward(n - back + 1)
}
