//! First solutions, by each strategy, and lists that are rebuilt.

ghost use Rattle.std.specs.Prelude.{◌≡◌, IfOk, IfSome, IsTrue, OnOk};
ghost use Rattle.vr_model.specs.routes.Routes.{are_lists};
ghost use Rattle.vr_model.specs.routes.Rules.{is_open};
ghost use Rattle.vr_model.specs.tables.Tables.{visits};
ghost use Rattle.vr_first_insert.specs.Keeping.{IsRebuilder};

use crate::named_rows::{PAIRED, row};
use std::alloc::Global;
use std::test::Fail;
use vr_first_insert::Rebuilder;
use vr_model::{Closed, NoMemory};
use vr_plan::Lookups;
use vr_routes::Routes;
use vr_rules::open;
use vr_samples::{read_model_text, routes_of};

// A vehicle from node 0 to node 0. It is 5 from 0 to 1, 9 from 0 to 2, 4 from 1 to 2, and as much back.
const TRIPLE: &str =
    r#"{"format":1,"nodes":3,"matrices":[[[0,5,9],[5,0,4],[9,4,0]]],"vehicles":[{"start":0,"end":0}]}"#;

// Whether there are routes of one vehicle with this list.
fn are(routes: Option<Routes>, list: &[u32]) -> bool {
    match routes {
        Some(routes) => routes.vehicles() == 1 && routes.list(0) == list,
        None => false,
    }
}

// Whether the cheapest arcs give this list.
fn by_arcs(alloc: Global, closed: Closed<'_>, list: &[u32]) -> Result<bool, NoMemory> {
    Ok(are(vr_first_arc::first(alloc, closed.model)?, list))
}

// Whether the cheapest insertions give this list.
fn by_insertions(alloc: Global, closed: Closed<'_>, list: &[u32]) -> Result<bool, NoMemory> {
    Ok(are(vr_first_insert::first(alloc, closed.model)?, list))
}

// Whether savings give this list.
fn by_savings(alloc: Global, closed: Closed<'_>, list: &[u32]) -> Result<bool, NoMemory> {
    Ok(are(vr_first_savings::first(alloc, closed.model)?, list))
}

// Open routes with a list of the one vehicle, if there are such.
fn open_routes(alloc: Global, closed: Closed<'_>, list: &[u32]) -> Result<Option<Routes>, NoMemory>
    ensures of_model { IfOk result (λ found. IfSome found (λ routes. routes.visits ≡ visits closed.entry.model.now)) }
    ensures lists { IfOk result (λ found. IfSome found
        (λ routes. IsTrue (are_lists closed.entry.model.now routes.lists))) }
    ensures open_lists { IfOk result (λ found. IfSome found
        (λ routes. IsTrue (is_open closed.entry.model.now routes.lists))) }
{
    let Some(routes) = routes_of(alloc, closed.model, &[list])? else {
        return Ok(None);
    };
    if open(alloc, closed.model, &routes)? {
        Ok(Some(routes))
    } else {
        Ok(None)
    }
}

// Whether an open list is rebuilt to another.
fn rebuilds(
    alloc: Global,
    closed: Closed<'_>,
    list: &[u32],
    after: &[u32],
) -> Result<bool, NoMemory> {
    match open_routes(alloc, closed, list)? {
        Some(routes) => Ok(are(
            Some(vr_first_insert::rebuild(alloc, closed.model, &routes)?),
            after,
        )),
        None => Ok(false),
    }
}

// Whether what keeps lists from call to call rebuilds open routes to this list of the one vehicle.
fn gives(
    alloc: Global,
    rebuilder: &mut Rebuilder,
    lookups: &Lookups<'_>,
    routes: &Routes,
    after: &[u32],
) -> Result<bool, NoMemory>
    requires rebuilder { IsRebuilder lookups.now.closed.model.now rebuilder.old }
    requires of_model { routes.now.visits ≡ visits lookups.now.closed.model.now }
    requires lists { IsTrue (are_lists lookups.now.closed.model.now routes.now.lists) }
    requires open_lists { IsTrue (is_open lookups.now.closed.model.now routes.now.lists) }
    ensures { OnOk result (IsRebuilder lookups.now.closed.model.now rebuilder.new) }
{
    let mut rebuilt = routes.copy(alloc)?;
    rebuilder.rebuild(lookups, &mut rebuilt)?;
    Ok(are(Some(rebuilt), after))
}

// Whether it rebuilds a list with node 1, one with node 2, and the first again as it does each alone.
fn gives_in_turn(
    alloc: Global,
    rebuilder: &mut Rebuilder,
    lookups: &Lookups<'_>,
    first: &Routes,
    second: &Routes,
) -> Result<bool, NoMemory>
    requires rebuilder { IsRebuilder lookups.now.closed.model.now rebuilder.old }
    requires of_model { first.now.visits ≡ visits lookups.now.closed.model.now }
    requires lists { IsTrue (are_lists lookups.now.closed.model.now first.now.lists) }
    requires open_lists { IsTrue (is_open lookups.now.closed.model.now first.now.lists) }
    requires other_of_model { second.now.visits ≡ visits lookups.now.closed.model.now }
    requires other_lists { IsTrue (are_lists lookups.now.closed.model.now second.now.lists) }
    requires other_open_lists { IsTrue (is_open lookups.now.closed.model.now second.now.lists) }
{
    let one = gives(alloc, rebuilder, lookups, first, &[2, 1])?;
    let other = gives(alloc, rebuilder, lookups, second, &[1, 2])?;
    let again = gives(alloc, rebuilder, lookups, first, &[2, 1])?;
    Ok(one && other && again)
}

// The same of one that knows nothing yet.
fn opened_in_turn(
    alloc: Global,
    closed: Closed<'_>,
    first: &Routes,
    second: &Routes,
) -> Result<bool, NoMemory>
    requires of_model { first.now.visits ≡ visits closed.model.now }
    requires lists { IsTrue (are_lists closed.model.now first.now.lists) }
    requires open_lists { IsTrue (is_open closed.model.now first.now.lists) }
    requires other_of_model { second.now.visits ≡ visits closed.model.now }
    requires other_lists { IsTrue (are_lists closed.model.now second.now.lists) }
    requires other_open_lists { IsTrue (is_open closed.model.now second.now.lists) }
{
    let lookups = Lookups::open(alloc, closed)?;
    let mut rebuilder = Rebuilder::open(alloc, &lookups)?;
    gives_in_turn(alloc, &mut rebuilder, &lookups, first, second)
}

// The same of the lists with one node each.
fn rebuilds_in_turn(alloc: Global, closed: Closed<'_>) -> Result<bool, NoMemory> {
    let Some(first) = open_routes(alloc, closed, &[1])? else {
        return Ok(false);
    };
    let Some(second) = open_routes(alloc, closed, &[2])? else {
        return Ok(false);
    };
    opened_in_turn(alloc, closed, &first, &second)
}

fn three_nodes(alloc: Global, closed: Closed<'_>) -> Result<(), Fail> {
    row(
        "the nearest visit goes first",
        by_arcs(alloc, closed, &[1, 2]),
    )?;
    row(
        "the lower of equal places wins",
        by_insertions(alloc, closed, &[2, 1]),
    )?;
    row(
        "equal savings go by the lesser node",
        by_savings(alloc, closed, &[1, 2]),
    )?;
    row(
        "what is left is inserted",
        rebuilds(alloc, closed, &[2], &[1, 2]),
    )?;
    row(
        "what is kept of lists changes no answer",
        rebuilds_in_turn(alloc, closed),
    )
}

fn pairs(alloc: Global, closed: Closed<'_>) -> Result<(), Fail> {
    row(
        "pairs by arcs: the lesser pickup goes first",
        by_arcs(alloc, closed, &[1, 2, 3, 4]),
    )?;
    row(
        "pairs by insertions: the second goes to the front",
        by_insertions(alloc, closed, &[3, 4, 1, 2]),
    )?;
    row(
        "pairs by savings: the lesser delivery goes in front",
        by_savings(alloc, closed, &[1, 2, 3, 4]),
    )
}

#[test]
fn first_solutions(rt: HostRuntime) -> Result<(), Fail> {
    let model = read_model_text(rt.alloc(), TRIPLE).ok_or("three nodes")?;
    three_nodes(rt.alloc(), Closed { model: &model })
}

#[test]
fn first_solutions_of_pairs(rt: HostRuntime) -> Result<(), Fail> {
    let text = PAIRED.replace(rt.alloc(), "POLICY", "any")?;
    let model = read_model_text(rt.alloc(), text.as_str()).ok_or("pairs")?;
    pairs(rt.alloc(), Closed { model: &model })
}
