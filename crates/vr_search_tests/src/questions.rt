//! What a row asks, and who owns the model and the routes of which it asks.

ghost use Rattle.std.specs.Prelude.{◌≡◌, IfOk, IsTrue, true};
ghost use Rattle.vr_model.specs.moves.MoveTests.{is_move};
ghost use Rattle.vr_model.specs.routes.Rules.{is_valid};
ghost use Rattle.vr_model.specs.tables.Tables.{visits};
ghost use Rattle.vr_routes.specs.Changes.{IsChange, IsMadeOn};
ghost use Rattle.vr_routes.specs.Pieces.{changed};

use crate::cuts::{self, Cuts};
use crate::filters::{self, Filter};
use crate::judge_questions::{self, By, Question};
use crate::kept;
use crate::parts::{self, Part};
use std::alloc::Global;
use std::process::Abort;
use vr_costfilter::Paid;
use vr_model::{Closed, Move, NoMemory};
use vr_routes::{Change, Routes};
use vr_rules::valid;
use vr_samples::{read_model_text, valid_routes};

/// What a row asks of valid routes.
#[derive(Clone, Copy)]
pub(crate) enum Asks {
    /// Which moves a filter lets pass; each that passes is made.
    Filter(Filter, &'static [(Move, bool)]),
    /// What a move adds to a part of the cost.
    Part(Part, Move, i64),
    /// Whether what is kept of schedules tells of two moves, the second one after the first.
    Kept(Paid, Move, Move),
    /// What a judge answers.
    Judge(By, Question),
    /// What the search by cuts finds.
    Cuts(&'static Cuts),
}

/// A question about valid lists of the model of a text.
#[derive(Clone, Copy)]
pub(crate) struct Row {
    pub(crate) name: &'static str,
    pub(crate) text: &'static str,
    pub(crate) lists: &'static [&'static [u32]],
    pub(crate) asks: Asks,
}

/// Asserts that each row is answered as it says.
pub(crate) fn assert_rows(rt: &impl Abort, alloc: Global, rows: &[Row]) {
    for row in rows {
        assert!(rt; is_as_said(alloc, row), "{}", row.name);
    }
}

// Whether a row is answered as it says: not if its text is no model, its lists are not valid, or memory runs out.
fn is_as_said(alloc: Global, row: &Row) -> bool {
    match read_model_text(alloc, row.text) {
        Some(model) => of_model(alloc, Closed { model: &model }, row) == Ok(true),
        None => false,
    }
}

// The same of the model.
fn of_model(alloc: Global, closed: Closed<'_>, row: &Row) -> Result<bool, NoMemory> {
    match valid_routes(alloc, closed.model, row.lists)? {
        Some(mut routes) => of_routes(alloc, closed, &mut routes, row.asks),
        None => Ok(false),
    }
}

// The same of the routes.
fn of_routes(
    alloc: Global,
    closed: Closed<'_>,
    routes: &mut Routes,
    asks: Asks,
) -> Result<bool, NoMemory>
    requires of_model { routes.old.visits ≡ visits closed.model.now }
    requires valid { IsTrue (is_valid closed.model.now routes.old.lists) }
{
    match asks {
        Asks::Filter(filter, moves) => filters::passes(alloc, closed, routes, filter, moves),
        Asks::Part(part, mv, added) => parts::adds(alloc, closed, routes, part, mv, added),
        Asks::Kept(paid, first, second) => kept::tells(alloc, closed, routes, paid, first, second),
        Asks::Judge(by, question) => judge_questions::answers(alloc, closed, routes, by, question),
        Asks::Cuts(cuts) => cuts::finds(alloc, closed, routes, cuts),
    }
}

/// Whether the lists after a change by a move are valid.
pub(crate) fn stays_valid(
    alloc: Global,
    closed: Closed<'_>,
    routes: &Routes,
    change: &Change,
) -> Result<bool, NoMemory>
    requires valid { IsTrue (is_valid closed.model.now routes.now.lists) }
    requires moved { (mv : _) × (is_move closed.model.now routes.now.lists mv ≡ true)
        × IsChange closed.model.now routes.now.lists mv change.now }
    requires made { IsMadeOn routes.now change.now }
    ensures { IfOk result (λ stays. stays ≡ is_valid closed.entry.model.now (changed routes.now.lists change.now)) }
{
    let mut after = routes.copy(alloc)?;
    after.commit(change);
    valid(alloc, closed.model, &after)
}
