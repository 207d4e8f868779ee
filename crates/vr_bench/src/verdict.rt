//! What the judge says of one move, and that it is out of memory.

ghost use Rattle.std.specs.Prelude.{◌≡◌, ◌<◌, IsTrue};
ghost use Rattle.vr_model.specs.moves.MoveTests.{is_move};
ghost use Rattle.vr_model.specs.tables.WellFormed.{IsWellFormed};
ghost use Rattle.vr_routes.specs.Judging.{HasCommitted};

use crate::solved::Solved;
use crate::stop::Stop;
use std::marker::Brand;
use std::sync::ledger::{Blank, Ledger};
use vr_judge::FilterJudge;
use vr_model::{Move, NoMemory, Steps};
use vr_routes::{Change, Judge, Routes, Verdict};

// What a judge says of a move.
fn verdict<J: Judge, L: Ledger>(
    judge: &mut J,
    routes: &Routes,
    mv: Move,
    blank: Blank,
) -> Result<Verdict, NoMemory>
    requires well_formed { IsWellFormed (J.model judge.old) }
    requires holds { HasCommitted (J.model judge.old) (J.committed judge.old) routes.now }
    requires mv { IsTrue (is_move (J.model judge.old) routes.now.lists mv) }
    requires name { blank.name ≡ L.name }
    requires parts { blank.parts ≡ L.parts }
    requires some { 0 < blank.parts }
{
    let mut steps = Steps::<L>::new(blank);
    judge.judge(routes, mv, &mut steps)
}

// The word for what the judge of a model says of a move of its first solution.
fn word_of(of: Solved<'_>, mv: Move) -> Result<&'static str, Stop>
    requires { IsTrue (is_move of.closed.model.now of.routes.now.lists mv) }
{
    let mut judge = FilterJudge::open(of.alloc, of.closed.model, of.routes)?;
    let said = verdict::<FilterJudge<'_>, Brand>(&mut judge, of.routes, mv, Blank::new(1));
    judge.close();
    match said {
        Ok(Verdict::Difference(_)) => Ok("passes"),
        Ok(Verdict::Refused) => Ok("refused"),
        Err(_) => Ok("no memory in judge"),
    }
}

/// Prints what the judge says of the move that turns two visits of the first list, from this place on. It prints
/// instead that memory ran out, if it did when the judge was asked. Before that, running out of memory ends the run.
pub(crate) fn print_verdict(rt: &HostRuntime, of: Solved<'_>, place: u32) -> Result<(), Stop> {
    let mv = Move::TwoOpt {
        v: 0,
        a: place,
        b: place.saturating_add(1),
    };
    let mut change = Change::blank();
    if !Change::of_into(of.closed.model, of.routes, mv, &mut change) {
        return Err(Stop::NoRoute);
    }
    let word = word_of(of, mv)?;
    println!(rt; "{word}")?;
    Ok(())
}
