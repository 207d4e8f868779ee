//! Routes that are rebuilt, and the first solution.

ghost use Rattle.std.specs.Prelude.{◌≡◌, Some, None, cond, IfOk, IfSome, IsTrue, OnErr, OnOk, length};
ghost use Rattle.vr_model.specs.first.CheapestInsertion.{parallel_cheapest_insertion, rebuilt};
ghost use Rattle.vr_model.specs.first.Items.{items};
ghost use Rattle.vr_model.specs.routes.Routes.{are_lists};
ghost use Rattle.vr_model.specs.routes.Rules.{is_open, is_valid};
ghost use Rattle.vr_model.specs.tables.Tables.{visits};
ghost use Rattle.vr_model.specs.tables.WellFormed.{IsWellFormed};
ghost use Rattle.vr_rules.specs.Placing.{lists_in, AreBuilt};
ghost use Rattle.vr_first_insert.specs.Keeping.{IsKeeper, IsRebuilder};

use crate::keeper::Keeper;
use std::alloc::Global;
use vr_model::{Closed, Model, NoMemory};
use vr_plan::Lookups;
use vr_routes::Routes;
use vr_rules::complete_routes;

/// Rebuilds routes of one model, again and again. What it found of lists in one call it keeps for the next. That is the
/// sets that a list reaches, and for each item the best place in it, or what that adds at least. It serves for each
/// list that is as the call before left it.
#[derive(Drop)]
pub struct Rebuilder {
    // on the heap, since it is large
    keeper: Box<Keeper>,
}

impl Rebuilder {
    /// What rebuilds routes of a model. The only refusal is want of memory.
    pub fn open(alloc: Global, lookups: &Lookups<'_>) -> Result<Rebuilder, NoMemory>
        ensures { IfOk result (IsRebuilder lookups.now.closed.model.now) }
    {
        let keeper = Keeper::open(alloc, lookups)?;
        Ok(Rebuilder {
            keeper: Box::new(alloc, keeper)?,
        })
    }

    /// Makes open routes of the model those at which parallel cheapest insertion ends when it begins with them: those
    /// that the function [`rebuild`] gives. Each step inserts one item, so as many steps as there are items are enough.
    ///
    /// After `NoMemory` the routes are as before, and nothing is said of what is kept: it may not be asked again.
    pub fn rebuild(&mut self, lookups: &Lookups<'_>, routes: &mut Routes) -> Result<(), NoMemory>
        requires rebuilder { IsRebuilder lookups.now.closed.model.now self.old }
        requires of_model { routes.old.visits ≡ visits lookups.now.closed.model.now }
        requires lists { IsTrue (are_lists lookups.now.closed.model.now routes.old.lists) }
        requires open_lists { IsTrue (is_open lookups.now.closed.model.now routes.old.lists) }
        ensures rebuilder { OnOk result (IsRebuilder lookups.now.closed.model.now self.new) }
        ensures lists { OnOk result (routes.new.lists ≡ rebuilt lookups.now.closed.model.now
            (length (items lookups.now.closed.model.now)) routes.old.lists) }
        ensures built { OnOk result (AreBuilt lookups.now.closed.model.now routes.new.lists) }
        ensures as_before { OnErr result (routes.new.lists ≡ routes.old.lists) }
        ensures visits { routes.new.visits ≡ routes.old.visits }
    {
        rebuild_in_place(&mut self.keeper, lookups, routes)?;
        Ok(())
    }
}

// Makes routes those at which insertion ends, by what is kept of lists.
fn rebuild_in_place(
    keeper: &mut Keeper,
    lookups: &Lookups<'_>,
    routes: &mut Routes,
) -> Result<(), NoMemory>
    requires keeper { IsKeeper lookups.now.closed.model.now keeper.old }
    requires of_model { routes.old.visits ≡ visits lookups.now.closed.model.now }
    requires built { AreBuilt lookups.now.closed.model.now routes.old.lists }
    ensures visits { routes.new.visits ≡ routes.old.visits }
    ensures keeper { OnOk result (IsKeeper lookups.now.closed.model.now keeper.new) }
    ensures lists { OnOk result (routes.new.lists ≡ rebuilt lookups.now.closed.model.now
        (length (items lookups.now.closed.model.now)) routes.old.lists) }
    ensures built { OnOk result (AreBuilt lookups.now.closed.model.now routes.new.lists) }
    ensures as_before { OnErr result (routes.new.lists ≡ routes.old.lists) }
{
    keeper.rebuild(lookups, routes)?;
    routes.set_lists(&keeper.lists);
    Ok(())
}

// The routes at which insertion ends, by what is kept of lists.
fn rebuilt_routes(
    alloc: Global,
    keeper: &mut Keeper,
    lookups: &Lookups<'_>,
    routes: &Routes,
) -> Result<Routes, NoMemory>
    requires keeper { IsKeeper lookups.now.closed.model.now keeper.old }
    requires built { AreBuilt lookups.now.closed.model.now routes.now.lists }
    ensures keeper { OnOk result (IsKeeper lookups.now.closed.model.now keeper.new) }
    ensures lists { IfOk result (λ after. after.lists ≡ rebuilt lookups.now.closed.model.now
        (length (items lookups.now.closed.model.now)) routes.now.lists) }
    ensures visits { IfOk result (λ after. after.visits ≡ visits lookups.now.closed.model.now) }
    ensures built { IfOk result (λ after. AreBuilt lookups.now.closed.model.now after.lists) }
{
    keeper.rebuild(lookups, routes)?;
    match Routes::from_lists(alloc, lookups.closed.model, &keeper.lists)? {
        Some(after) => Ok(after),
        // they are lists of the model, so there are such routes
        None => unreachable!(),
    }
}

// The same if nothing is kept yet.
fn rebuilt_over(alloc: Global, lookups: &Lookups<'_>, routes: &Routes) -> Result<Routes, NoMemory>
    requires { AreBuilt lookups.now.closed.model.now routes.now.lists }
    ensures lists { IfOk result (λ after. after.lists ≡ rebuilt lookups.now.closed.model.now
        (length (items lookups.now.closed.model.now)) routes.now.lists) }
    ensures visits { IfOk result (λ after. after.visits ≡ visits lookups.now.closed.model.now) }
    ensures built { IfOk result (λ after. AreBuilt lookups.now.closed.model.now after.lists) }
{
    let mut keeper = Keeper::open(alloc, lookups)?;
    rebuilt_routes(alloc, &mut keeper, lookups, routes)
}

/// The routes at which parallel cheapest insertion ends when it begins with these open routes. It inserts as long as an
/// item may be inserted into some list so that the lists stay open. Each time it makes the insertion of the least
/// class. Of those it makes the one that adds least to the arc costs, and of those the first by item, vehicle and
/// places.
///
/// Path neighbourhoods ask a [`Rebuilder`] instead; tests ask this one. `vr_app` has it for `Rebuild::rebuild`, which
/// no search calls.
///
/// `NoMemory` if there was no memory.
pub fn rebuild(alloc: Global, model: &Model, routes: &Routes) -> Result<Routes, NoMemory>
    requires well_formed { IsWellFormed model.now }
    requires lists { IsTrue (are_lists model.now routes.now.lists) }
    requires open_lists { IsTrue (is_open model.now routes.now.lists) }
    ensures lists { IfOk result (λ after. after.lists ≡ rebuilt model.now (length (items model.now)) routes.now.lists) }
    ensures visits { IfOk result (λ after. after.visits ≡ visits model.now) }
    ensures built { IfOk result (λ after. AreBuilt model.now after.lists) }
{
    let lookups = Lookups::open(alloc, Closed { model })?;
    rebuilt_over(alloc, &lookups, routes)
}

// Makes the lists those at which insertion ends when it begins with empty ones.
fn rebuild_empty(alloc: Global, keeper: &mut Keeper, lookups: &Lookups<'_>) -> Result<(), NoMemory>
    requires { IsKeeper lookups.now.closed.model.now keeper.old }
    ensures lists { OnOk result (keeper.new.lists.items
        ≡ parallel_cheapest_insertion lookups.now.closed.model.now) }
    ensures built { OnOk result (AreBuilt lookups.now.closed.model.now keeper.new.lists.items) }
{
    let empty = Routes::empty(alloc, lookups.closed.model)?;
    keeper.rebuild(lookups, &empty)?;
    Ok(())
}

// The first solution, by any keeper of the model: what is kept in it does not change what it answers.
fn first_kept(
    alloc: Global,
    keeper: &mut Keeper,
    lookups: &Lookups<'_>,
) -> Result<Option<Routes>, NoMemory>
    requires { IsKeeper lookups.now.closed.model.now keeper.old }
    ensures first { IfOk result (λ first. lists_in first ≡ cond
        (is_valid lookups.now.closed.model.now (parallel_cheapest_insertion lookups.now.closed.model.now))
        (Some (parallel_cheapest_insertion lookups.now.closed.model.now)) None) }
    ensures visits { IfOk result (λ first.
        IfSome first (λ routes. routes.visits ≡ visits lookups.now.closed.model.now)) }
{
    rebuild_empty(alloc, keeper, lookups)?;
    complete_routes(alloc, lookups, &keeper.lists)
}

/// The first solution of a model by parallel cheapest insertion (`PARALLEL_CHEAPEST_INSERTION` in OR-Tools): empty
/// routes, rebuilt.
///
/// `None` exactly if the lists at which this ends are not valid. `NoMemory` if there was no memory.
pub fn first_over(alloc: Global, lookups: &Lookups<'_>) -> Result<Option<Routes>, NoMemory>
    ensures first { IfOk result (λ first. lists_in first ≡ cond
        (is_valid lookups.now.closed.model.now (parallel_cheapest_insertion lookups.now.closed.model.now))
        (Some (parallel_cheapest_insertion lookups.now.closed.model.now)) None) }
    ensures visits { IfOk result (λ first.
        IfSome first (λ routes. routes.visits ≡ visits lookups.now.closed.model.now)) }
{
    let mut keeper = Keeper::open(alloc, lookups)?;
    first_kept(alloc, &mut keeper, lookups)
}

/// The same of a model that nobody has looked up yet: looks it up, and asks [`first_over`]. Tests ask this. The program
/// has the model looked up, and asks [`first_over`] itself.
pub fn first(alloc: Global, model: &Model) -> Result<Option<Routes>, NoMemory>
    requires well_formed { IsWellFormed model.now }
    ensures first { IfOk result (λ first. lists_in first
        ≡ cond (is_valid model.now (parallel_cheapest_insertion model.now))
        (Some (parallel_cheapest_insertion model.now)) None) }
    ensures visits { IfOk result (λ first. IfSome first (λ routes. routes.visits ≡ visits model.now)) }
{
    let lookups = Lookups::open(alloc, Closed { model })?;
    first_over(alloc, &lookups)
}
