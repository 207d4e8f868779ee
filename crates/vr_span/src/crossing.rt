//! Pieces along a line: those of its start, and those after each arc.

ghost use Rattle.std.specs.Prelude.{◌≡◌, ◌++◌, [], drop, length, IfOk, OnOk};
ghost use Rattle.vr_steps.specs.Arcs.{IsSoundHop};
ghost use Rattle.vr_steps.specs.Levels.{IsCumuls};
ghost use Rattle.vr_steps.specs.Lines.{IsSoundLine};
ghost use Rattle.vr_span.specs.Pieces.{ArePieces, Arrive, Begin, IsNearNumber, piece_if_any, until_of};
ghost use Rattle.vr_span.specs.Starts.{AreReachedPiecesAt};

use crate::pieces::Piece;
use std::alloc::Global;
use std::mem;
use vr_model::{NoMemory, Seq};
use vr_spans::Spans;
use vr_steps::{Hop, Line};

// No number of a piece is above this one, and none is below its negative.
const FAR: i64 = 1 << 38;

// The pieces of the end of a line: of each cumul that is reached there, the greatest start from which it is.
pub(crate) fn pieces_at_end(alloc: Global, line: &Line) -> Result<Seq<Piece>, NoMemory>
    requires sound { IsSoundLine line.now }
    requires no_breaks { line.now.breaks ≡ [] }
    ensures pieces { IfOk result ArePieces }
    ensures told { IfOk result (AreReachedPiecesAt line.now (length line.now.hops)) }
{
    let mut here = Seq::new(alloc);
    let mut next = Seq::new(alloc);
    begin(line.allowed.get(0), &mut here)?;
    for k in 0..line.hops.len() {
        let hop = *line.hops.get(k);
        let allowed = line.allowed.get(k + 1);
        cross(here.as_slice(), hop, allowed, &mut next)?;
        mem::swap(&mut here, &mut next);
    }
    Ok(here)
}

// Writes the pieces of a start that allows these cumuls over `out`.
fn begin(allowed: &Spans, out: &mut Seq<Piece>) -> Result<(), NoMemory>
    requires { IsCumuls allowed.now }
    ensures exact { OnOk result (Begin allowed.now out.new) }
    ensures pieces { OnOk result (ArePieces out.new) }
{
    out.truncate(0);
    let runs = allowed.len();
    for k in 0..runs {
        out.push(Piece::at_start(allowed.run(k)))?;
    }
    Ok(())
}

// Writes the pieces of a stop that allows `next` over `out`, as the arc leads to it from the pieces of `from`. It is
// one pass over the pieces and the runs, in which the one that ends first is done with: both ascend.
fn cross(from: &[Piece], hop: Hop, next: &Spans, out: &mut Seq<Piece>) -> Result<(), NoMemory>
    requires from { ArePieces from.now }
    requires hop { IsSoundHop hop }
    requires next { IsCumuls next.now }
    ensures exact { OnOk result (Arrive hop from.now next.now out.new) }
    ensures pieces { OnOk result (ArePieces out.new) }
{
    out.truncate(0);
    let runs = next.len();
    let mut left = from;
    let mut k = 0;
    'pass: while !left.is_empty() && k < runs {
        let reached = left[0].over(hop, until(left));
        let bound = next.run(k);
        put(reached.within(bound), out)?;
        if reached.hi <= bound.hi {
            left = &left[1..];
        } else {
            k += 1;
        }
    }
    Ok(())
}

// The last cumul before the second of the pieces, as far as can be if there is none. A piece is made longer no further
// than that.
fn until(pieces: &[Piece]) -> i64
    requires { ArePieces pieces.now }
    ensures value { result ≡ until_of (drop 1 pieces.now) }
    ensures near { IsNearNumber result }
{
    match pieces.get(1) {
        Some(next) => next.lo - 1,
        None => FAR,
    }
}

// Puts a piece after others if it has a cumul.
fn put(piece: Piece, out: &mut Seq<Piece>) -> Result<(), NoMemory>
    ensures { OnOk result (out.new ≡ out.old ++ piece_if_any piece) }
{
    if piece.lo <= piece.hi {
        out.push(piece)?;
    }
    Ok(())
}
