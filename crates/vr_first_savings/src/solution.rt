//! The first solution.

ghost use Rattle.std.specs.Prelude.{◌≡◌, Some, None, cond, IfOk, IfSome, IsTrue};
ghost use Rattle.vr_model.specs.routes.Routes.{are_lists};
ghost use Rattle.vr_model.specs.routes.Rules.{is_valid};
ghost use Rattle.vr_model.specs.first.SavingsJoins.{savings};
ghost use Rattle.vr_model.specs.tables.Tables.{visits};
ghost use Rattle.vr_model.specs.tables.WellFormed.{IsWellFormed};
ghost use Rattle.vr_rules.specs.Placing.{lists_in};

use crate::merge::merged;
use crate::ranks::{lists_of, ranked};
use crate::singles::single_routes;
use std::alloc::Global;
use vr_model::{Closed, Model, NoMemory, Seq};
use vr_plan::Lookups;
use vr_routes::Routes;
use vr_rules::{Driving, Rules};

// The lists at which the construction ends. The room for walks is lent, so that there is less to let go if memory is
// wanting.
fn lists_joined(
    alloc: Global,
    lookups: &Lookups<'_>,
    driving: &mut Driving,
) -> Result<Vec<Seq<u32>>, NoMemory>
    ensures savings { IfOk result (λ lists. lists.items ≡ savings lookups.now.closed.model.now) }
    ensures lists { IfOk result (λ lists. IsTrue (are_lists lookups.now.closed.model.now lists.items)) }
{
    let singles = single_routes(alloc, lookups, driving)?;
    let routes = merged(alloc, lookups, singles, driving)?;
    let (model, nodes) = (lookups.closed.model, lookups.nodes());
    lists_of(alloc, model, ranked(alloc, nodes, &routes)?)
}

// The same, with room of its own for the walks.
fn lists_by_savings(alloc: Global, lookups: &Lookups<'_>) -> Result<Vec<Seq<u32>>, NoMemory>
    ensures savings { IfOk result (λ lists. lists.items ≡ savings lookups.now.closed.model.now) }
    ensures lists { IfOk result (λ lists. IsTrue (are_lists lookups.now.closed.model.now lists.items)) }
{
    let mut driving = Driving::new(alloc);
    lists_joined(alloc, lookups, &mut driving)
}

// Whether routes of the model are valid. All is asked, and not only what is missing. Each list is open for vehicle 0,
// but need not be for a vehicle that is not like it.
fn are_valid(alloc: Global, lookups: &Lookups<'_>, routes: &Routes) -> Result<bool, NoMemory>
    requires { IsTrue (are_lists lookups.now.closed.model.now routes.now.lists) }
    ensures { IfOk result (λ answer. answer ≡ is_valid lookups.now.closed.model.now routes.now.lists) }
{
    let mut rules = Rules::over(alloc, lookups)?;
    rules.valid(routes)
}

/// The routes at which the construction ends, valid or not. A search that may begin with routes that lack something
/// asks this one.
///
/// `NoMemory` if there was no memory.
pub fn built_over(alloc: Global, lookups: &Lookups<'_>) -> Result<Routes, NoMemory>
    ensures savings { IfOk result (λ routes. routes.lists ≡ savings lookups.now.closed.model.now) }
    ensures lists { IfOk result (λ routes. IsTrue (are_lists lookups.now.closed.model.now routes.lists)) }
    ensures visits { IfOk result (λ routes. routes.visits ≡ visits lookups.now.closed.model.now) }
{
    let lists = lists_by_savings(alloc, lookups)?;
    match Routes::from_lists(alloc, lookups.closed.model, &lists)? {
        Some(routes) => Ok(routes),
        // they are lists of the model, so there are such routes
        None => unreachable!(),
    }
}

/// The first solution of a model by savings (`SAVINGS` in OR-Tools, after Clarke and Wright). Each item that may be a
/// route of its own begins as one; then routes are joined, each time by the join that saves most. Routes are built as
/// if vehicle 0 drove each. A model that names this construction has vehicles that are alike; of another model it gives
/// what it can.
///
/// `None` exactly if the lists at which this ends are not valid. `NoMemory` if there was no memory.
pub fn first_over(alloc: Global, lookups: &Lookups<'_>) -> Result<Option<Routes>, NoMemory>
    ensures first { IfOk result (λ first. lists_in first ≡ cond
        (is_valid lookups.now.closed.model.now (savings lookups.now.closed.model.now))
        (Some (savings lookups.now.closed.model.now)) None) }
    ensures visits { IfOk result (λ first.
        IfSome first (λ routes. routes.visits ≡ visits lookups.now.closed.model.now)) }
{
    let routes = built_over(alloc, lookups)?;
    if are_valid(alloc, lookups, &routes)? {
        Ok(Some(routes))
    } else {
        Ok(None)
    }
}

/// The same of a model that nobody has looked up yet: looks it up, and asks [`first_over`]. Tests ask this. The program
/// has the model looked up, and asks [`first_over`] itself.
pub fn first(alloc: Global, model: &Model) -> Result<Option<Routes>, NoMemory>
    requires well_formed { IsWellFormed model.now }
    ensures first { IfOk result (λ first. lists_in first
        ≡ cond (is_valid model.now (savings model.now)) (Some (savings model.now)) None) }
    ensures visits { IfOk result (λ first. IfSome first (λ routes. routes.visits ≡ visits model.now)) }
{
    let lookups = Lookups::open(alloc, Closed { model })?;
    first_over(alloc, &lookups)
}
