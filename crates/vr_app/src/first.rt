//! First solutions, and the routes at which their constructions end.

ghost use Rattle.std.specs.Prelude.{◌≡◌, IfOk, IfSome, OnOk};
ghost use Rattle.vr_model.specs.first.CheapestInsertion.{parallel_cheapest_insertion};
ghost use Rattle.vr_model.specs.first.FirstSolutions.{build, first_lists};
ghost use Rattle.vr_model.specs.tables.Tables.{visits};
ghost use Rattle.vr_rules.specs.Placing.{lists_in, AreBuilt};
ghost use Rattle.vr_given.specs.Begin.{filled_up};

use std::alloc::Global;
use vr_first_insert::Rebuilder;
use vr_model::{First, NoMemory};
use vr_plan::Lookups;
use vr_routes::Routes;

/// The first solution of a model, by the construction that the model names, over what was looked up of it. It is none
/// exactly if the construction gives none.
pub fn first_routes(alloc: Global, lookups: &Lookups<'_>) -> Result<Option<Routes>, NoMemory>
    ensures lists { IfOk result (λ first. lists_in first ≡ first_lists lookups.now.closed.model.now) }
    ensures visits { let model = lookups.now.closed.model.now in
        IfOk result (λ first. IfSome first (λ routes. routes.visits ≡ visits model)) }
{
    match lookups.closed.model.search.first {
        First::PathCheapestArc => vr_first_arc::first_over(alloc, lookups),
        First::ParallelCheapestInsertion => vr_first_insert::first_over(alloc, lookups),
        First::Savings => vr_first_savings::first_over(alloc, lookups),
    }
}

/// Fills open routes of a model up by parallel cheapest insertion. They become those at which it ends when it begins
/// with them. The call fails only if out of memory; then nothing is said of them.
pub fn fill_up(alloc: Global, lookups: &Lookups<'_>, routes: &mut Routes) -> Result<(), NoMemory>
    requires of_model { routes.old.visits ≡ visits lookups.now.closed.model.now }
    requires built { AreBuilt lookups.now.closed.model.now routes.old.lists }
    ensures lists { OnOk result (routes.new.lists ≡ filled_up lookups.now.closed.model.now routes.old.lists) }
    ensures built { OnOk result (AreBuilt lookups.now.closed.model.now routes.new.lists) }
    ensures visits { routes.new.visits ≡ routes.old.visits }
{
    let mut rebuilder = Rebuilder::open(alloc, lookups)?;
    rebuilder.rebuild(lookups, routes)
}

// The routes at which parallel cheapest insertion ends.
fn inserted_routes(alloc: Global, lookups: &Lookups<'_>) -> Result<Routes, NoMemory>
    ensures lists { IfOk result
        (λ routes. routes.lists ≡ parallel_cheapest_insertion lookups.now.closed.model.now) }
    ensures built { IfOk result (λ routes. AreBuilt lookups.now.closed.model.now routes.lists) }
    ensures visits { IfOk result (λ routes. routes.visits ≡ visits lookups.now.closed.model.now) }
{
    let mut routes = Routes::empty(alloc, lookups.closed.model)?;
    fill_up(alloc, lookups, &mut routes)?;
    Ok(routes)
}

/// The routes at which the construction that the model names ends, valid or not. `vr_refine` asks it, since its search
/// by ruin and recreate may begin with routes that lack something. `NoMemory` if out of memory.
pub fn built_routes(alloc: Global, lookups: &Lookups<'_>) -> Result<Routes, NoMemory>
    ensures lists { IfOk result (λ routes. routes.lists ≡ build lookups.now.closed.model.now) }
    ensures visits { IfOk result (λ routes. routes.visits ≡ visits lookups.now.closed.model.now) }
{
    match lookups.closed.model.search.first {
        First::PathCheapestArc => vr_first_arc::built_over(alloc, lookups),
        First::ParallelCheapestInsertion => inserted_routes(alloc, lookups),
        First::Savings => vr_first_savings::built_over(alloc, lookups),
    }
}
