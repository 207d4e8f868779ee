//! The best join of two routes.
//!
//! Of each route, in front, an upper bound is kept on what its joins save. Most rows of joins are passed over by it.
//! After a join the only bounds that are raised are those of routes that would save more with the joined route.
//! Invariant: no join that may be made saves more than the bound of its front route.

ghost use Rattle.std.specs.Prelude.{◌≡◌, ◌<◌, ◌++◌, ◌^◌, ℕ, All, IfOk, IfSome, OnOk, List, None, option_map, length};
ghost use Rattle.std.specs.Prelude.{map, neg_ℤ, pos, ◌≤ℤ◌, ◌+ℤ◌, ◌-ℤ◌, set};
ghost use Rattle.std.specs.Int.{int_max};
ghost use Rattle.vr_model.specs.tables.Numbers.{number_at};
ghost use Rattle.vr_model.specs.first.Choosing.{least_by};
ghost use Rattle.vr_model.specs.routes.Routes.{route};
ghost use Rattle.vr_model.specs.first.SavingsJoins.{join_key, joins};
ghost use Rattle.vr_model.specs.tables.Tables.{arc_cost};
ghost use Rattle.vr_first_savings.specs.Joins.{best_behind as best_behind_of, choice_at as choice_at_of, join_of};
ghost use Rattle.vr_first_savings.specs.Joins.{weigh_join, AreApart, MayBeJoined};
ghost use Rattle.vr_first_savings.specs.Bounds.{may_improve, AreBounds, AreRaised, IsBound};
ghost use Rattle.vr_first_savings.specs.RouteEnds.{ends_of, AreRouteEnds};

use crate::choice::{JoinChoice, improves};
use crate::ends::{EndsOfRoute, ends_at, ends_of_each};
use std::alloc::Global;
use vr_model::{Closed, NoMemory, Seq};
use vr_plan::Lookups;
use vr_rules::{Driving, is_route_open};

// What a join saves at the arc costs of vehicle 0. The vehicle drives from the last node of one route to the first of
// another, and not over the end and the start. If the arcs to the end and from the start cost 10 and 12, and the arc
// between the routes 5, the join saves 17.
fn saved(closed: Closed<'_>, front: EndsOfRoute, back: EndsOfRoute) -> i64
    requires front { AreRouteEnds closed.model.now front }
    requires back { AreRouteEnds closed.model.now back }
    ensures value { result ≡ ((front.to_end +ℤ back.from_start) -ℤ arc_cost closed.entry.model.now 0 front.last
        back.first) }
    ensures low { neg_ℤ (pos (2 ^ 40)) ≤ℤ result }
    ensures high { result ≤ℤ pos (2 ^ 41) }
{
    front.to_end + back.from_start - closed.model.arc_cost(0, front.last, back.first)
}

// The choice of two routes, whose ends are known.
fn choice_at(closed: Closed<'_>, ends: &[EndsOfRoute], i: usize, j: usize) -> JoinChoice
    requires ends { All (AreRouteEnds closed.model.now) ends.now }
    requires front { i < length ends.now }
    requires back { j < length ends.now }
    ensures { (routes : List (List ℕ)) → ends.now ≡ map (ends_of closed.entry.model.now) routes
        → result ≡ choice_at_of closed.entry.model.now routes i j }
{
    let front = ends[i];
    let back = ends[j];
    JoinChoice {
        front: i,
        back: j,
        saving: saved(closed, front, back),
        last: front.last,
        first: back.first,
    }
}

/// One route after another.
pub(crate) fn joined(
    alloc: Global,
    routes: &[Seq<u32>],
    choice: JoinChoice,
) -> Result<Vec<u32>, NoMemory>
    requires front { choice.front < length routes.now }
    requires back { choice.back < length routes.now }
    ensures { IfOk result (λ joined. joined.items ≡ (route routes.now choice.front ++ route routes.now choice.back)) }
{
    let front = routes[choice.front].as_slice();
    let back = routes[choice.back].as_slice();
    let mut joined = Vec::with_capacity(alloc, front.len() + back.len())?;
    joined.extend_from_slice(front)?;
    joined.extend_from_slice(back)?;
    Ok(joined)
}

// The better of the best so far and a choice. The choice counts only if it joins two routes, and not one with itself,
// and if the joined route is open. That takes most to ask, so it is asked only if the choice comes first.
fn consider(
    alloc: Global,
    lookups: &Lookups<'_>,
    routes: &[Seq<u32>],
    next: JoinChoice,
    best: Option<JoinChoice>,
    driving: &mut Driving,
) -> Result<Option<JoinChoice>, NoMemory>
    requires apart { AreApart lookups.now.closed.model.now routes.now }
    requires front { next.front < length routes.now }
    requires back { next.back < length routes.now }
    ensures { IfOk result (λ chosen. chosen ≡ weigh_join lookups.now.closed.model.now routes.now best next) }
{
    if !improves(best, next) {
        return Ok(best);
    }
    if next.front == next.back {
        return Ok(best);
    }
    let longer = joined(alloc, routes, next)?;
    if is_route_open(lookups, 0, &longer, driving)? {
        Ok(Some(next))
    } else {
        Ok(best)
    }
}

// The routes of a step, and the ends of each.
#[derive(Clone, Copy)]
struct Step<'r, 'e> {
    routes: &'r [Seq<u32>],
    ends: &'e [EndsOfRoute],
}

// The best beside the joins of a route, in front, and a bound on what these save.
#[derive(Clone, Copy)]
struct Weighed {
    best: Option<JoinChoice>,
    bound: i64,
}

// The best of the joins of route `i`, in front, with each other route after it.
fn best_behind(
    alloc: Global,
    lookups: &Lookups<'_>,
    step: Step<'_, '_>,
    i: usize,
    driving: &mut Driving,
) -> Result<Option<JoinChoice>, NoMemory>
    requires apart { AreApart lookups.now.closed.model.now step.routes.now }
    requires ends { step.ends.now ≡ map (ends_of lookups.now.closed.model.now) step.routes.now }
    requires front { i < length step.routes.now }
    ensures { IfOk result (λ best. best ≡ best_behind_of lookups.now.closed.model.now step.entry.routes.now i
        (length step.entry.routes.now) None) }
{
    let (routes, ends) = (step.routes, step.ends);
    let mut best = None;
    for j in 0..routes.len() {
        let next = choice_at(lookups.closed, ends, i, j);
        best = consider(alloc, lookups, routes, next, best, driving)?;
    }
    Ok(best)
}

// Whether joins that save no more than the bound may be better than the best so far.
fn may_improve(best: Option<JoinChoice>, bound: i64) -> bool
    ensures { result ≡ may_improve best bound }
{
    match best {
        Some(best) => best.saving <= bound,
        None => true,
    }
}

// The better of the best so far and the joins of route `i`, in front, with a bound on what these save. The joins are
// gone over only if the bound so far lets one of them be better. Then the bound becomes what the best of them saves.
fn weigh_row(
    alloc: Global,
    lookups: &Lookups<'_>,
    step: Step<'_, '_>,
    i: usize,
    best: Option<JoinChoice>,
    bound: i64,
    driving: &mut Driving,
) -> Result<Weighed, NoMemory>
    requires apart { AreApart lookups.now.closed.model.now step.routes.now }
    requires ends { step.ends.now ≡ map (ends_of lookups.now.closed.model.now) step.routes.now }
    requires front { i < length step.routes.now }
    requires bound { IsBound lookups.now.closed.model.now step.routes.now (route step.routes.now i) bound }
    ensures best { IfOk result (λ row. row.best ≡ best_behind_of lookups.now.closed.model.now step.entry.routes.now i
        (length step.entry.routes.now) best) }
    ensures bound { IfOk result (λ row. IsBound lookups.now.closed.model.now step.entry.routes.now
        (route step.entry.routes.now i) row.bound) }
{
    if !may_improve(best, bound) {
        return Ok(Weighed { best, bound });
    }
    let found = best_behind(alloc, lookups, step, i, driving)?;
    let Some(next) = found else {
        return Ok(Weighed { best, bound: 0 });
    };
    let bound = next.saving;
    if improves(best, next) {
        Ok(Weighed { best: found, bound })
    } else {
        Ok(Weighed { best, bound })
    }
}

/// The best join of two routes, whatever it saves, if any may be joined. The bounds are kept by the first node of the
/// front route. They are set anew for the routes whose joins are gone over.
pub(crate) fn best_join(
    alloc: Global,
    lookups: &Lookups<'_>,
    routes: &[Seq<u32>],
    bounds: &mut [i64],
    driving: &mut Driving,
) -> Result<Option<JoinChoice>, NoMemory>
    requires apart { AreApart lookups.now.closed.model.now routes.now }
    requires number { length bounds.old ≡ lookups.now.closed.model.now.nodes }
    requires bounds { AreBounds lookups.now.closed.model.now routes.now bounds.old }
    ensures best { IfOk result (λ best. option_map (join_of routes.now) best
        ≡ least_by (join_key lookups.now.closed.model.now) (joins lookups.now.closed.model.now routes.now)) }
    ensures may { IfOk result (λ best. IfSome best (MayBeJoined lookups.now.closed.model.now routes.now)) }
    ensures number { OnOk result (length bounds.new ≡ length bounds.old) }
    ensures bounds { OnOk result (AreBounds lookups.now.closed.model.now routes.now bounds.new) }
{
    let ends = ends_of_each(alloc, lookups.closed, routes)?;
    let mut best: Option<JoinChoice> = None;
    for i in 0..routes.len() {
        let first = ends[i].first as usize;
        let step = Step {
            routes,
            ends: &ends,
        };
        let row = weigh_row(alloc, lookups, step, i, best, bounds[first], driving)?;
        bounds[first] = row.bound;
        best = row.best;
    }
    Ok(best)
}

/// A bound on what any join saves, as long as nothing more is known.
pub(crate) const UNKNOWN: i64 = 2_199_023_255_552;

/// Raises bounds so that they hold of the first route too, which was joined. The bound of each route is raised to what
/// its join saves in front of the first route. Of joins with the first route in front nothing is known.
pub(crate) fn raise(closed: Closed<'_>, routes: &[Seq<u32>], bounds: &mut [i64])
    requires apart { AreApart closed.model.now routes.now }
    requires some { 0 < length routes.now }
    requires number { length bounds.old ≡ closed.model.now.nodes }
    ensures { AreRaised closed.entry.model.now routes.now bounds.old bounds.new }
{
    let joined = ends_at(closed, routes, 0);
    for i in 0..routes.len() {
        let front = ends_at(closed, routes, i);
        raise_to(bounds, front.first as usize, saved(closed, front, joined));
    }
    raise_to(bounds, joined.first as usize, UNKNOWN);
}

// Raises a bound to a number if it is less.
fn raise_to(bounds: &mut [i64], k: usize, least: i64)
    requires { k < length bounds.old }
    ensures { bounds.new ≡ set bounds.old k (int_max (number_at bounds.old k) least) }
{
    bounds[k] = bounds[k].max(least);
}
