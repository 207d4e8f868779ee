//! The first solution.

ghost use Rattle.std.specs.Prelude.{◌≡◌, Some, None, cond, IfOk, IfSome, OnOk};
ghost use Rattle.vr_model.specs.first.Items.{empty_lists as empty_lists_of};
ghost use Rattle.vr_model.specs.first.PathCheapestArc.{path_cheapest_arc};
ghost use Rattle.vr_model.specs.routes.Rules.{is_valid};
ghost use Rattle.vr_model.specs.tables.Tables.{visits};
ghost use Rattle.vr_model.specs.tables.WellFormed.{IsWellFormed};
ghost use Rattle.vr_rules.specs.Placing.{lists_in, AreBuilt, AreCandidates};

use crate::fill::fill_all;
use crate::growing::Filling;
use std::alloc::Global;
use vr_model::{Closed, Model, NoMemory, Seq};
use vr_plan::Lookups;
use vr_routes::Routes;
use vr_rules::{Candidate, Room, candidates, complete_routes, empty_lists};

// Fills empty lists with items of the model.
fn fill_empty(
    alloc: Global,
    lookups: &Lookups<'_>,
    candidates: &[Candidate],
    lists: &mut [Seq<u32>],
) -> Result<(), NoMemory>
    requires candidates { AreCandidates lookups.now.closed.model.now candidates.now }
    requires empty { lists.now ≡ empty_lists_of lookups.now.closed.model.now }
    ensures lists { OnOk result (lists.new ≡ path_cheapest_arc lookups.now.closed.model.now) }
    ensures built { OnOk result (AreBuilt lookups.now.closed.model.now lists.new) }
{
    let mut marks = vec![in alloc; false; lookups.closed.model.nodes as usize]?;
    let mut room = Room::new(alloc);
    let filling = Filling {
        lookups,
        candidates,
    };
    fill_all(&filling, &mut room, lists, &mut marks)
}

// The lists at which the construction ends.
fn filled_lists(alloc: Global, lookups: &Lookups<'_>) -> Result<Vec<Seq<u32>>, NoMemory>
    ensures lists { IfOk result (λ lists. lists.items ≡ path_cheapest_arc lookups.now.closed.model.now) }
    ensures built { IfOk result (λ lists. AreBuilt lookups.now.closed.model.now lists.items) }
{
    let candidates = candidates(alloc, lookups.nodes())?;
    let mut lists = empty_lists(alloc, lookups.closed.model)?;
    fill_empty(alloc, lookups, &candidates, &mut lists)?;
    Ok(lists)
}

/// The routes at which the construction ends, valid or not: they are open. A search that may begin with routes that
/// lack something asks this one.
///
/// `NoMemory` if there was no memory.
pub fn built_over(alloc: Global, lookups: &Lookups<'_>) -> Result<Routes, NoMemory>
    ensures lists { IfOk result (λ routes. routes.lists ≡ path_cheapest_arc lookups.now.closed.model.now) }
    ensures built { IfOk result (λ routes. AreBuilt lookups.now.closed.model.now routes.lists) }
    ensures visits { IfOk result (λ routes. routes.visits ≡ visits lookups.now.closed.model.now) }
{
    let lists = filled_lists(alloc, lookups)?;
    match Routes::from_lists(alloc, lookups.closed.model, &lists)? {
        Some(routes) => Ok(routes),
        // they are lists of the model, so there are such routes
        None => unreachable!(),
    }
}

/// The first solution of a model (`PATH_CHEAPEST_ARC` in OR-Tools). Vehicle after vehicle, items are appended to its
/// list as long as the lists stay open. Each time it is the item of the least class. Of those it is the one to which
/// the arc costs least, and of those the one of the least number.
///
/// `None` exactly if the lists at which this ends are not valid; `NoMemory` if there was no memory.
pub fn first_over(alloc: Global, lookups: &Lookups<'_>) -> Result<Option<Routes>, NoMemory>
    ensures first { IfOk result (λ first. lists_in first ≡ cond
        (is_valid lookups.now.closed.model.now (path_cheapest_arc lookups.now.closed.model.now))
        (Some (path_cheapest_arc lookups.now.closed.model.now)) None) }
    ensures visits { IfOk result (λ first.
        IfSome first (λ routes. routes.visits ≡ visits lookups.now.closed.model.now)) }
{
    let lists = filled_lists(alloc, lookups)?;
    complete_routes(alloc, lookups, &lists)
}

/// The same of a model that nobody has looked up yet: looks it up, and asks [`first_over`]. Tests and `vr_bench` ask
/// this. The program has the model looked up, and asks [`first_over`] itself.
pub fn first(alloc: Global, model: &Model) -> Result<Option<Routes>, NoMemory>
    requires well_formed { IsWellFormed model.now }
    ensures first { IfOk result (λ first. lists_in first
        ≡ cond (is_valid model.now (path_cheapest_arc model.now)) (Some (path_cheapest_arc model.now)) None) }
    ensures visits { IfOk result (λ first. IfSome first (λ routes. routes.visits ≡ visits model.now)) }
{
    let lookups = Lookups::open(alloc, Closed { model })?;
    first_over(alloc, &lookups)
}
