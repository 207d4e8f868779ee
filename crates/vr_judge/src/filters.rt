//! All filters of a model as one.

ghost use Rattle.std.specs.Prelude.{◌≡◌, ℕ, List, IsTrue, IfOk, length};
ghost use Rattle.vr_model.specs.routes.Rules.{is_valid};
ghost use Rattle.vr_model.specs.tables.Tables.{visits};
ghost use Rattle.vr_judge.specs.Rules.{are_feasible, keeps_rules, total_weight};

use crate::ranks::ranked_dimensions;
use crate::try_both::try_both;
use std::alloc::Global;
use vr_filter::{Both, Each, PathFilter};
use vr_model::NoMemory;
use vr_pathfilters::{DimensionFilter, GroupFilter, PairFilter, VehicleFilter};
use vr_plan::Lookups;
use vr_routes::Routes;

/// The filters of a model: those that ask least come first.
pub type Filters<'m> = Both<
    GroupFilter<'m>,
    Both<VehicleFilter<'m>, Both<PairFilter<'m>, Each<DimensionFilter<'m>>>>,
>;

/// The filters of a model, over what was looked up of it, in sync with these routes. The only refusal is want of
/// memory. [`crate::FilterJudge::over`] alone calls it.
pub fn filters_of<'m>(
    alloc: Global,
    lookups: &Lookups<'m>,
    routes: &Routes,
) -> Result<Filters<'m>, NoMemory>
    requires of_model { routes.now.visits ≡ visits lookups.now.closed.model.now }
    requires valid { IsTrue (is_valid lookups.now.closed.model.now routes.now.lists) }
    ensures rules { IfOk result (λ filters. (lists : List (List ℕ))
        → ⟦<Filters<'static> as PathFilter>⟧.holds filters lists ≡ keeps_rules lookups.now.closed.model.now lists) }
    ensures weights { IfOk result (λ filters. (before later : List (List ℕ))
        → ⟦<Filters<'static> as PathFilter>⟧.weight filters before later
        ≡ total_weight lookups.now.closed.model.now before later) }
    ensures stands { IfOk result (λ filters. ⟦<Filters<'static> as PathFilter>⟧.stands_at filters routes.now) }
{
    let groups = GroupFilter::open(alloc, lookups.closed.model, routes);
    let vehicles = VehicleFilter::over(lookups, routes);
    let pairs = PairFilter::over(lookups, routes);
    let dimensions = filters_of_dimensions(alloc, lookups, routes);
    let front = try_both(groups, vehicles);
    let end = try_both(pairs, dimensions);
    let (front, end) = try_both(front, end)?;
    let (groups, vehicles) = front;
    let (pairs, dimensions) = end;
    Ok(Both {
        a: groups,
        b: Both {
            a: vehicles,
            b: Both {
                a: pairs,
                b: dimensions,
            },
        },
    })
}

// The filters of all dimensions, those that ask least first.
fn filters_of_dimensions<'m>(
    alloc: Global,
    lookups: &Lookups<'m>,
    routes: &Routes,
) -> Result<Each<DimensionFilter<'m>>, NoMemory>
    requires of_model { routes.now.visits ≡ visits lookups.now.closed.model.now }
    requires many { length routes.now.lists ≡ length lookups.now.closed.model.now.vehicles }
    requires feasible { IsTrue (are_feasible lookups.now.closed.model.now routes.now.lists) }
    ensures holds { IfOk result (λ each. (lists : List (List ℕ))
        → ⟦<Each<DimensionFilter<'static>> as PathFilter>⟧.holds each lists
        ≡ are_feasible lookups.now.closed.model.now lists) }
    ensures weight { IfOk result (λ each. (before later : List (List ℕ))
        → ⟦<Each<DimensionFilter<'static>> as PathFilter>⟧.weight each before later
        ≡ total_weight lookups.now.closed.model.now before later) }
    ensures stands { IfOk result (λ each.
        ⟦<Each<DimensionFilter<'static>> as PathFilter>⟧.stands_at each routes.now) }
{
    let order = ranked_dimensions(alloc, lookups.closed)?;
    let mut filters = Vec::with_capacity(alloc, order.len())?;
    for k in 0..order.len() {
        filters.push(DimensionFilter::over(alloc, lookups, order[k], routes)?)?;
    }
    Ok(Each { filters })
}
