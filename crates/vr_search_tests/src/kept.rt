//! Kept cumuls. What a change makes of a list is known by them, whatever slacks may be, so that no schedule is looked
//! for. It is also known by what is kept once a change is committed. The schedules of tight vehicles are known too.

ghost use Rattle.std.specs.Prelude.{◌≡◌, ◌<◌, IsTrue, OnOk};
ghost use Rattle.vr_costfilter.specs.Kept.{AreAllKept};
ghost use Rattle.vr_model.specs.routes.Rules.{is_valid};
ghost use Rattle.vr_model.specs.tables.Tables.{visits};
ghost use Rattle.vr_routes.specs.Changes.{IsMadeOn};
ghost use Rattle.vr_routes.specs.Pieces.{changed};
ghost use Rattle.vr_plan.specs.Tables.{AreTables};

use crate::models::{LATE, LATE_TIGHT, LATE_TIGHT_FREE};
use crate::questions::{Asks, Row, assert_rows, stays_valid};
use std::alloc::Global;
use vr_costfilter::{AllCumuls, Paid, PartAfter, Trail};
use vr_model::{Closed, Move, NoMemory};
use vr_plan::{Table, tables_of};
use vr_routes::{Change, Routes};

// Whether what is kept tells, in the first dimension, what the first list of a change comes to. An empty list has
// nothing to tell.
fn is_told(
    closed: Closed<'_>,
    tables: &[Table],
    kept: &AllCumuls,
    routes: &Routes,
    change: &Change,
) -> bool
    requires tables { AreTables closed.model.now tables.now }
    requires valid { IsTrue (is_valid closed.model.now routes.now.lists) }
    requires kept { AreAllKept closed.model.now routes.now.lists kept.now }
    requires made { IsMadeOn routes.now change.now }
    requires valid_after { IsTrue (is_valid closed.model.now (changed routes.now.lists change.now)) }
{
    if closed.model.dimensions.is_empty() || change.parts() == 0 {
        return false;
    }
    let first = PartAfter {
        model: closed.model,
        routes,
        change,
        k: 0,
    };
    if first.is_empty() {
        return true;
    }
    let mut trail = Trail::new();
    kept.timing_after(&first, &tables[0], 0, &mut trail)
        .is_some()
}

// Whether it tells of a move after which the lists are valid; the move is made then.
fn tells_of(
    alloc: Global,
    closed: Closed<'_>,
    tables: &[Table],
    kept: &mut AllCumuls,
    routes: &mut Routes,
    mv: Move,
) -> Result<bool, NoMemory>
    requires tables { AreTables closed.model.now tables.now }
    requires of_model { routes.old.visits ≡ visits closed.model.now }
    requires valid { IsTrue (is_valid closed.model.now routes.old.lists) }
    requires kept { AreAllKept closed.model.now routes.old.lists kept.old }
    ensures of_model { OnOk result (routes.new.visits ≡ visits closed.entry.model.now) }
    ensures valid { OnOk result (IsTrue (is_valid closed.entry.model.now routes.new.lists)) }
    ensures kept { OnOk result (AreAllKept closed.entry.model.now routes.new.lists kept.new) }
{
    let Some(change) = Change::of(closed.model, routes, mv) else {
        return Ok(false);
    };
    if !stays_valid(alloc, closed, routes, &change)? {
        return Ok(false);
    }
    let told = is_told(closed, tables, kept, routes, &change);
    kept.commit(closed, tables, routes, &change);
    routes.commit(&change);
    Ok(told)
}

// Whether what is kept for such costs tells of one move, and of another one then.
fn tells_by(
    alloc: Global,
    closed: Closed<'_>,
    tables: &[Table],
    routes: &mut Routes,
    paid: Paid,
    first: Move,
    second: Move,
) -> Result<bool, NoMemory>
    requires tables { AreTables closed.model.now tables.now }
    requires of_model { routes.old.visits ≡ visits closed.model.now }
    requires valid { IsTrue (is_valid closed.model.now routes.old.lists) }
{
    let mut kept = AllCumuls::open(alloc, closed, tables, paid, routes)?;
    if !tells_of(alloc, closed, tables, &mut kept, routes, first)? {
        return Ok(false);
    }
    tells_of(alloc, closed, tables, &mut kept, routes, second)
}

/// Whether what is kept of valid routes for such costs tells of a move after which lists are valid, and of another one
/// then.
pub(crate) fn tells(
    alloc: Global,
    closed: Closed<'_>,
    routes: &mut Routes,
    paid: Paid,
    first: Move,
    second: Move,
) -> Result<bool, NoMemory>
    requires of_model { routes.old.visits ≡ visits closed.model.now }
    requires valid { IsTrue (is_valid closed.model.now routes.old.lists) }
{
    let tables = tables_of(alloc, closed.model)?;
    tells_by(alloc, closed, &tables, routes, paid, first, second)
}

// Four of the visits before late windows.
const LATE_LISTS: &[&[u32]] = &[&[1, 2, 3, 4, 5], &[6], &[]];

// Moves of the first list: its front is turned, a stretch after it, its end; and two visits leave.
const FRONT: Move = Move::TwoOpt { v: 0, a: 0, b: 1 };

const STRETCH: Move = Move::TwoOpt { v: 0, a: 1, b: 3 };

const END: Move = Move::TwoOpt { v: 0, a: 3, b: 4 };

const LAST_LEAVES: Move = Move::MakeInactive { v: 0, a: 4 };

const MIDDLE_LEAVES: Move = Move::MakeInactive { v: 0, a: 2 };

#[rattlefmt::skip]
static ROWS: [Row; 7] = [
    Row { name: "a stretch is turned, and then the front, where each span costs something",
        text: LATE, lists: LATE_LISTS, asks: Asks::Kept(Paid::Alone, STRETCH, FRONT) },
    Row { name: "a visit leaves, and then the front is turned, where global spans cost something",
        text: LATE, lists: LATE_LISTS, asks: Asks::Kept(Paid::Together, LAST_LEAVES, FRONT) },
    Row { name: "a stretch is turned, and then the front, of a tight vehicle, where each span costs something",
        text: LATE_TIGHT, lists: LATE_LISTS, asks: Asks::Kept(Paid::Alone, STRETCH, FRONT) },
    Row { name: "a visit of a tight vehicle leaves, and then the front is turned, where global spans cost something",
        text: LATE_TIGHT, lists: LATE_LISTS, asks: Asks::Kept(Paid::Together, LAST_LEAVES, FRONT) },
    Row { name: "the front of a tight vehicle is turned, and then its end, where soft bounds cost something",
        text: LATE_TIGHT, lists: LATE_LISTS, asks: Asks::Kept(Paid::Alone, FRONT, END) },
    Row { name: "the front of a tight vehicle is turned, and then its end, where soft bounds cost nothing",
        text: LATE_TIGHT_FREE, lists: LATE_LISTS, asks: Asks::Kept(Paid::Alone, FRONT, END) },
    Row { name: "a stretch of a tight vehicle is turned, and then a visit leaves, where soft bounds cost nothing",
        text: LATE_TIGHT_FREE, lists: LATE_LISTS, asks: Asks::Kept(Paid::Together, STRETCH, MIDDLE_LEAVES) },
];

#[test]
fn kept_cumuls_tell(rt: HostRuntime) {
    assert_rows(&rt, rt.alloc(), &ROWS);
}
