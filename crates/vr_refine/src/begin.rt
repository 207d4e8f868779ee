//! The routes with which a search begins.

ghost use Rattle.std.specs.Prelude.{◌≡◌, cond, IfOk, IfSome, IsTrue, None, Some};
ghost use Rattle.vr_model.specs.first.FirstSolutions.{build};
ghost use Rattle.vr_model.specs.routes.Routes.{are_lists};
ghost use Rattle.vr_model.specs.tables.Tables.{visits};
ghost use Rattle.vr_model.specs.tables.WellFormed.{WherePresent};
ghost use Rattle.vr_rules.specs.Placing.{lists_in, AreBuilt};
ghost use Rattle.vr_given.specs.Begin.{begin_lists, ruin_begin, taken_up, where_valid};
ghost use Rattle.vr_ruin.specs.Searching.{AreRoutesOf};

use std::alloc::Global;
use vr_app::{built_routes, fill_up, first_routes};
use vr_model::{NoMemory, Seq};
use vr_plan::Lookups;
use vr_routes::Routes;
use vr_rules::Rules;

// Makes given routes what a search takes up: valid ones stay, and other open ones are filled up. Gives whether they
// were open; after `false` nothing is said of them.
fn take_up(
    alloc: Global,
    lookups: &Lookups<'_>,
    rules: &mut Rules<'_>,
    routes: &mut Routes,
) -> Result<bool, NoMemory>
    requires rules { rules.old ≡ lookups.now.closed.model.now }
    requires of_model { routes.old.visits ≡ visits lookups.now.closed.model.now }
    requires lists { IsTrue (are_lists lookups.now.closed.model.now routes.old.lists) }
    ensures taken { let model = lookups.now.closed.model.now in
        IfOk result (λ taken. cond taken (Some routes.new.lists) None ≡ taken_up model routes.old.lists) }
    ensures built { let model = lookups.now.closed.model.now in
        IfOk result (λ taken. IsTrue taken → AreBuilt model routes.new.lists) }
    ensures rules { rules.new ≡ rules.old }
    ensures visits { routes.new.visits ≡ routes.old.visits }
{
    if rules.valid(routes)? {
        return Ok(true);
    }
    if !rules.open_routes(routes)? {
        return Ok(false);
    }
    fill_up(alloc, lookups, routes)?;
    Ok(true)
}

// The same, with which ruin and recreate begins.
fn make_open(alloc: Global, lookups: &Lookups<'_>, routes: &mut Routes) -> Result<bool, NoMemory>
    requires of_model { routes.old.visits ≡ visits lookups.now.closed.model.now }
    requires lists { IsTrue (are_lists lookups.now.closed.model.now routes.old.lists) }
    ensures taken { let model = lookups.now.closed.model.now in
        IfOk result (λ taken. cond taken (Some routes.new.lists) None ≡ taken_up model routes.old.lists) }
    ensures built { let model = lookups.now.closed.model.now in
        IfOk result (λ taken. IsTrue taken → AreBuilt model routes.new.lists) }
    ensures visits { routes.new.visits ≡ routes.old.visits }
{
    let mut rules = Rules::over(alloc, lookups)?;
    take_up(alloc, lookups, &mut rules, routes)
}

// The same for the model's own search, which wants valid routes. Gives whether they are valid then; after `false`
// nothing is said of them.
fn make_valid(alloc: Global, lookups: &Lookups<'_>, routes: &mut Routes) -> Result<bool, NoMemory>
    requires of_model { routes.old.visits ≡ visits lookups.now.closed.model.now }
    requires lists { IsTrue (are_lists lookups.now.closed.model.now routes.old.lists) }
    ensures taken { let model = lookups.now.closed.model.now in
        IfOk result (λ valid. cond valid (Some routes.new.lists) None
        ≡ where_valid model (taken_up model routes.old.lists)) }
    ensures visits { routes.new.visits ≡ routes.old.visits }
{
    let mut rules = Rules::over(alloc, lookups)?;
    if !take_up(alloc, lookups, &mut rules, routes)? {
        return Ok(false);
    }
    rules.valid_where_open(routes)
}

// Routes, if they are kept.
fn if_kept(kept: bool, routes: Routes) -> Option<Routes>
    ensures lists { lists_in result ≡ cond kept (Some routes.lists) None }
    ensures kept { IfSome result (λ same. IsTrue kept × (same ≡ routes)) }
{
    if kept { Some(routes) } else { None }
}

// Routes of these lists of a model.
fn routes_of(alloc: Global, lookups: &Lookups<'_>, lists: &[Seq<u32>]) -> Result<Routes, NoMemory>
    requires { IsTrue (are_lists lookups.now.closed.model.now lists.now) }
    ensures lists { IfOk result (λ routes. routes.lists ≡ lists.now) }
    ensures visits { IfOk result (λ routes. routes.visits ≡ visits lookups.now.closed.model.now) }
{
    match Routes::from_lists(alloc, lookups.closed.model, lists)? {
        Some(routes) => Ok(routes),
        // they are lists of the model, so there are such routes
        None => unreachable!(),
    }
}

// The routes with which the model's own search begins that is given these lists.
fn begin_with(
    alloc: Global,
    lookups: &Lookups<'_>,
    lists: &[Seq<u32>],
) -> Result<Option<Routes>, NoMemory>
    requires { IsTrue (are_lists lookups.now.closed.model.now lists.now) }
    ensures lists { let model = lookups.now.closed.model.now in
        IfOk result (λ first. lists_in first ≡ begin_lists model (Some lists.now)) }
    ensures visits { let model = lookups.now.closed.model.now in
        IfOk result (λ first. IfSome first (λ routes. routes.visits ≡ visits model)) }
{
    let mut routes = routes_of(alloc, lookups, lists)?;
    let valid = make_valid(alloc, lookups, &mut routes)?;
    Ok(if_kept(valid, routes))
}

/// The routes with which the model's own search begins, which are valid. Given valid ones are taken as they are, and
/// given open ones are filled up by parallel cheapest insertion. Without any it is the first solution. `None` exactly
/// if none of these are valid.
///
/// `NoMemory` if there is none.
pub fn begin_routes(
    alloc: Global,
    lookups: &Lookups<'_>,
    given: &Option<Seq<Seq<u32>>>,
) -> Result<Option<Routes>, NoMemory>
    requires { WherePresent (λ lists. IsTrue (are_lists lookups.now.closed.model.now lists)) given.now }
    ensures lists { let model = lookups.now.closed.model.now in
        IfOk result (λ first. lists_in first ≡ begin_lists model given.now) }
    ensures visits { let model = lookups.now.closed.model.now in
        IfOk result (λ first. IfSome first (λ routes. routes.visits ≡ visits model)) }
{
    match given {
        None => first_routes(alloc, lookups),
        Some(lists) => begin_with(alloc, lookups, lists.as_slice()),
    }
}

// The routes with which ruin and recreate begins that is given these lists.
fn ruin_with(
    alloc: Global,
    lookups: &Lookups<'_>,
    lists: &[Seq<u32>],
) -> Result<Option<Routes>, NoMemory>
    requires { IsTrue (are_lists lookups.now.closed.model.now lists.now) }
    ensures lists { let model = lookups.now.closed.model.now in
        IfOk result (λ first. lists_in first ≡ taken_up model lists.now) }
    ensures routes { let model = lookups.now.closed.model.now in
        IfOk result (λ first. IfSome first (AreRoutesOf model)) }
{
    let mut routes = routes_of(alloc, lookups, lists)?;
    let taken = make_open(alloc, lookups, &mut routes)?;
    Ok(if_kept(taken, routes))
}

// The routes with which ruin and recreate begins that is given none: those at which the model's construction ends.
fn ruin_without(alloc: Global, lookups: &Lookups<'_>) -> Result<Option<Routes>, NoMemory>
    ensures lists { let model = lookups.now.closed.model.now in
        IfOk result (λ first. lists_in first ≡ Some (build model)) }
    ensures routes { let model = lookups.now.closed.model.now in
        IfOk result (λ first. IfSome first (AreRoutesOf model)) }
{
    let routes = built_routes(alloc, lookups)?;
    Ok(Some(routes))
}

/// The routes with which ruin and recreate begins, which are open and may lack something. Given valid ones are taken as
/// they are, and given open ones are filled up by parallel cheapest insertion. Without any it is those at which the
/// model's construction ends. `None` exactly if given ones are not open.
///
/// `NoMemory` if there is none.
pub fn ruin_routes(
    alloc: Global,
    lookups: &Lookups<'_>,
    given: &Option<Seq<Seq<u32>>>,
) -> Result<Option<Routes>, NoMemory>
    requires { WherePresent (λ lists. IsTrue (are_lists lookups.now.closed.model.now lists)) given.now }
    ensures lists { let model = lookups.now.closed.model.now in
        IfOk result (λ first. lists_in first ≡ ruin_begin model given.now) }
    ensures routes { let model = lookups.now.closed.model.now in
        IfOk result (λ first. IfSome first (AreRoutesOf model)) }
{
    match given {
        None => ruin_without(alloc, lookups),
        Some(lists) => ruin_with(alloc, lookups, lists.as_slice()),
    }
}
