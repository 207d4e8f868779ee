//! Routes are joined as long as the best join is wanted.

ghost use Rattle.std.specs.Prelude.{◌≡◌, ◌<◌, ◌++◌, ◌==◌, ◌||◌, [], ◌∷◌, All, cond, int_lt, length, nat_lt, not, pos};
ghost use Rattle.std.specs.Prelude.{IfOk, OnOk};
ghost use Rattle.vr_model.specs.first.Items.{first_node};
ghost use Rattle.vr_model.specs.routes.Routes.{route};
ghost use Rattle.vr_model.specs.first.SavingsJoins.{after_join as joined_by, merged as merged_of};
ghost use Rattle.vr_first_savings.specs.Joins.{join_of, AreApart};
ghost use Rattle.vr_first_savings.specs.Bounds.{AreBounds};

use crate::choice::JoinChoice;
use crate::joins::{UNKNOWN, best_join, joined, raise};
use std::alloc::Global;
use vr_model::{Model, NoMemory, Seq};
use vr_plan::Lookups;
use vr_rules::Driving;

// Appends a copy of a route to others, unless it is one of the two that are joined. A route is known by its first node;
// those of the two are `front` and `back`.
fn keep_other(
    alloc: Global,
    route: &[u32],
    front: u32,
    back: u32,
    kept: &mut Vec<Seq<u32>>,
) -> Result<(), NoMemory>
    requires { 0 < length route.now }
    ensures { OnOk result (kept.new.items ≡ kept.old.items ++ cond
        (not ((first_node route.now == front) || (first_node route.now == back))) (route.now ∷ []) []) }
{
    let first = route[0];
    if first == front || first == back {
        return Ok(());
    }
    kept.push(Seq::from(Vec::from_slice(alloc, route)?))?;
    Ok(())
}

// The first node of a route.
fn first_of(routes: &[Seq<u32>], i: usize) -> u32
    requires within { i < length routes.now }
    requires some { All (λ route. 0 < length route) routes.now }
    ensures { result ≡ first_node (route routes.now i) }
{
    routes[i].as_slice()[0]
}

// The routes after a join: the joined route, then the others in order.
fn join(alloc: Global, routes: &[Seq<u32>], choice: JoinChoice) -> Result<Vec<Seq<u32>>, NoMemory>
    requires front { choice.front < length routes.now }
    requires back { choice.back < length routes.now }
    requires some { All (λ route. 0 < length route) routes.now }
    ensures { IfOk result (λ after. after.items ≡ joined_by routes.now (join_of routes.now choice)) }
{
    let front = first_of(routes, choice.front);
    let back = first_of(routes, choice.back);
    let mut after = Vec::with_capacity(alloc, routes.len())?;
    after.push(Seq::from(joined(alloc, routes, choice)?))?;
    for route in routes {
        keep_other(alloc, route.as_slice(), front, back, &mut after)?;
    }
    Ok(after)
}

// Whether a join saves, or there are more routes than vehicles.
fn is_wanted(model: &Model, routes: usize, choice: JoinChoice) -> bool
    ensures { result ≡ (int_lt (pos 0) choice.saving || nat_lt (length model.now.vehicles) routes) }
{
    0 < choice.saving || model.vehicles.len() < routes
}

// Joins routes as long as the best join saves, or there are more routes than vehicles. Each join leaves one route less,
// so as many steps as there are routes are enough.
fn merge_all(
    alloc: Global,
    lookups: &Lookups<'_>,
    routes: Vec<Seq<u32>>,
    bounds: &mut [i64],
    driving: &mut Driving,
) -> Result<Vec<Seq<u32>>, NoMemory>
    requires apart { AreApart lookups.now.closed.model.now routes.items }
    requires number { length bounds.old ≡ lookups.now.closed.model.now.nodes }
    requires bounds { AreBounds lookups.now.closed.model.now routes.items bounds.old }
    ensures merged { IfOk result
        (λ after. after.items ≡ merged_of lookups.now.closed.model.now (length routes.items) routes.items) }
    ensures apart { IfOk result (λ after. AreApart lookups.now.closed.model.now after.items) }
{
    let mut routes = routes;
    for _step in 0..routes.len() {
        match best_join(alloc, lookups, &routes, bounds, driving)? {
            Some(choice) => {
                if !is_wanted(lookups.closed.model, routes.len(), choice) {
                    return Ok(routes);
                }
                routes = join(alloc, &routes, choice)?;
                raise(lookups.closed, &routes, bounds);
            }
            None => return Ok(routes),
        }
    }
    Ok(routes)
}

/// The routes that are left when all joins are made that are wanted. The room for bounds is lent, so that there is less
/// to let go if memory is wanting.
pub(crate) fn merged(
    alloc: Global,
    lookups: &Lookups<'_>,
    routes: Vec<Seq<u32>>,
    driving: &mut Driving,
) -> Result<Vec<Seq<u32>>, NoMemory>
    requires apart { AreApart lookups.now.closed.model.now routes.items }
    ensures merged { IfOk result
        (λ after. after.items ≡ merged_of lookups.now.closed.model.now (length routes.items) routes.items) }
    ensures apart { IfOk result (λ after. AreApart lookups.now.closed.model.now after.items) }
{
    let mut bounds = vec![in alloc; UNKNOWN; lookups.closed.model.nodes as usize]?;
    merge_all(alloc, lookups, routes, &mut bounds, driving)
}
