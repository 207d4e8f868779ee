//! Judging moves by the filters and costs of a model.

ghost use Rattle.std.specs.Prelude.{◌≡◌, ◌<◌, All, IsTrue};
ghost use Rattle.vr_model.specs.moves.MoveTests.{is_move};
ghost use Rattle.vr_model.specs.tables.WellFormed.{IsWellFormed};
ghost use Rattle.vr_routes.specs.Judging.{HasCommitted};

use crate::listed::first_moves;
use crate::report::{TIMES, Timed, report};
use crate::solved::Solved;
use crate::stop::Stop;
use std::marker::Brand;
use std::sync::ledger::{Blank, Ledger};
use std::time::Instant;
use vr_judge::FilterJudge;
use vr_model::{Move, NoMemory, Steps};
use vr_routes::{Judge, Routes, Verdict};

// What a verdict adds to the sum that is printed.
fn worth(verdict: Verdict) -> i64 {
    match verdict {
        Verdict::Refused => 1,
        Verdict::Difference(difference) => difference,
    }
}

// Judges each move; the sum of the verdicts.
#[inline(never)]
fn judge_all<J: Judge, L: Ledger>(
    judge: &mut J,
    routes: &Routes,
    moves: &[Move],
    steps: &mut Steps<L>,
) -> Result<i64, NoMemory>
    requires well_formed { IsWellFormed (J.model judge.old) }
    requires holds { HasCommitted (J.model judge.old) (J.committed judge.old) routes.now }
    requires moves { All (λ mv. IsTrue (is_move (J.model judge.old) routes.now.lists mv)) moves.now }
    ensures model { J.model judge.new ≡ J.model judge.old }
    ensures committed { J.committed judge.new routes.now }
{
    let mut sum: i64 = 0;
    for &mv in moves {
        sum = sum.wrapping_add(worth(judge.judge(routes, mv, steps)?));
    }
    Ok(sum)
}

// The time of judging moves, this many rounds.
fn time_rounds<J: Judge, L: Ledger>(
    rt: &HostRuntime,
    judge: &mut J,
    routes: &Routes,
    moves: &[Move],
    rounds: u32,
    steps: &mut Steps<L>,
) -> Result<Timed, Stop>
    requires well_formed { IsWellFormed (J.model judge.old) }
    requires holds { HasCommitted (J.model judge.old) (J.committed judge.old) routes.now }
    requires moves { All (λ mv. IsTrue (is_move (J.model judge.old) routes.now.lists mv)) moves.now }
    ensures model { J.model judge.new ≡ J.model judge.old }
    ensures committed { J.committed judge.new routes.now }
{
    let mut sum: i64 = 0;
    let start = Instant::now(rt)?;
    for _ in 0..rounds {
        sum = sum.wrapping_add(judge_all(judge, routes, moves, steps)?);
    }
    let nanos = start.elapsed(rt)?.as_nanos();
    Ok(Timed {
        calls: u128::from(rounds) * moves.len() as u128,
        sum,
        nanos,
    })
}

// Prints the times of judging moves.
fn report_judge<J: Judge, L: Ledger>(
    rt: &HostRuntime,
    judge: &mut J,
    routes: &Routes,
    moves: &[Move],
    rounds: u32,
    blank: Blank,
) -> Result<(), Stop>
    requires well_formed { IsWellFormed (J.model judge.old) }
    requires holds { HasCommitted (J.model judge.old) (J.committed judge.old) routes.now }
    requires moves { All (λ mv. IsTrue (is_move (J.model judge.old) routes.now.lists mv)) moves.now }
    requires name { blank.name ≡ L.name }
    requires parts { blank.parts ≡ L.parts }
    requires some { 0 < blank.parts }
{
    let mut steps = Steps::<L>::new(blank);
    for _ in 0..TIMES {
        report(
            rt,
            "judge",
            time_rounds(rt, judge, routes, moves, rounds, &mut steps)?,
        )?;
    }
    Ok(())
}

// Opens the judge at the first solution, and prints the times of judging moves of it.
fn time_judging(rt: &HostRuntime, of: Solved<'_>, moves: &[Move], rounds: u32) -> Result<(), Stop>
    requires { All (λ mv. IsTrue (is_move of.closed.model.now of.routes.now.lists mv)) moves.now }
{
    let mut judge = FilterJudge::open(of.alloc, of.closed.model, of.routes)?;
    let done = report_judge::<FilterJudge<'_>, Brand>(
        rt,
        &mut judge,
        of.routes,
        moves,
        rounds,
        Blank::new(1),
    );
    judge.close();
    done
}

/// Prints the times of judging a move, of the first moves of the model's neighbourhoods; nothing if there are none.
/// What is timed is `Judge::judge` alone: the moves are listed before.
pub(crate) fn time_judge(rt: &HostRuntime, of: Solved<'_>, rounds: u32) -> Result<(), Stop> {
    let moves = first_moves(of.alloc, of.closed, of.routes)?;
    if moves.is_empty() {
        return Ok(());
    }
    time_judging(rt, of, &moves, rounds)
}
