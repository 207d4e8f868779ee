//! Listing moves and making their changes.

ghost use Rattle.std.specs.Prelude.{◌≡◌, All, IfOk, IsTrue};
ghost use Rattle.vr_model.specs.moves.MoveTests.{is_move};
ghost use Rattle.vr_model.specs.tables.Tables.{visits};

use crate::report::{TIMES, Timed, report};
use crate::solved::Solved;
use crate::stop::Stop;
use std::alloc::Global;
use std::time::Instant;
use vr_descent::{MoveList, moves};
use vr_model::{Closed, Move, NoMemory};
use vr_routes::{Change, Routes};

// How many moves are judged at most.
const MOST: usize = 5000;

/// The first moves of the model's neighbourhoods, at most 5000. They are tested to be moves while no time is taken.
pub(crate) fn first_moves(
    alloc: Global,
    closed: Closed<'_>,
    routes: &Routes,
) -> Result<Vec<Move>, NoMemory>
    requires of_model { routes.now.visits ≡ visits closed.model.now }
    ensures { IfOk result (λ kept. All (λ mv. IsTrue (is_move closed.entry.model.now routes.now.lists mv)) kept.items) }
{
    let mut kept = Vec::new(alloc);
    let mut change = Change::blank();
    for mv in moves(closed.model, routes) {
        if kept.len() < MOST && Change::of_into(closed.model, routes, mv, &mut change) {
            kept.push(mv)?;
        }
    }
    Ok(kept)
}

// Makes the changes of the moves that are left of a list; how many.
#[inline(never)]
fn changes_of_list(
    closed: Closed<'_>,
    routes: &Routes,
    list: &mut MoveList<'_>,
    change: &mut Change,
) -> u64
    requires of_model { routes.now.visits ≡ visits closed.model.now }
{
    let mut count: u64 = 0;
    while let Some(mv) = list.next() {
        if Change::of_into(closed.model, routes, mv, change) {
            count = count.wrapping_add(1);
        }
    }
    count
}

// Lists all moves of the model's neighbourhoods and makes their changes; how many.
fn changes_of_all(closed: Closed<'_>, routes: &Routes, change: &mut Change) -> u64
    requires of_model { routes.now.visits ≡ visits closed.model.now }
{
    let mut list = moves(closed.model, routes);
    changes_of_list(closed, routes, &mut list, change)
}

// The time of this many rounds through all moves.
fn time_rounds(
    rt: &HostRuntime,
    closed: Closed<'_>,
    routes: &Routes,
    rounds: u32,
    change: &mut Change,
) -> Result<Timed, Stop>
    requires of_model { routes.now.visits ≡ visits closed.model.now }
{
    let mut count: u64 = 0;
    let start = Instant::now(rt)?;
    for _ in 0..rounds {
        count = count.wrapping_add(changes_of_all(closed, routes, change));
    }
    let nanos = start.elapsed(rt)?.as_nanos();
    Ok(Timed {
        calls: u128::from(count),
        sum: 0,
        nanos,
    })
}

/// Prints the times of listing a move and making its change.
pub(crate) fn time_moves(rt: &HostRuntime, of: Solved<'_>, rounds: u32) -> Result<(), Stop> {
    let mut change = Change::blank();
    for _ in 0..TIMES {
        let timed = time_rounds(rt, of.closed, of.routes, rounds, &mut change)?;
        report(rt, "moves", timed)?;
    }
    Ok(())
}
