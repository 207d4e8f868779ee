//! The block of a run, the row of a move among those of its neighbourhood, and the place of the stamp of a row.

ghost use Rattle.std.specs.Prelude.{◌≡◌, ◌<◌};
ghost use Rattle.vr_known.specs.Blocks as blocks;
ghost use Rattle.vr_model.specs.moves.Kinds.{rows_of};
ghost use Rattle.vr_model.specs.moves.Moves.{all_neighbourhoods};

use vr_model::{Move, Neighbourhood};

/// The moves of a neighbourhood, of a row and of the vehicle that they name last, as [`crate::Known::has`] says of
/// rows. The vehicle is one of the at most 100 of a model.
#[derive(Clone, Copy)]
pub struct Block {
    pub neighbourhood: Neighbourhood,
    pub row: u32,
    pub vehicle: u32,
}

impl Block {
    /// The moves of a neighbourhood in one row that name one vehicle last.
    #[inline(always)]
    pub fn new(neighbourhood: Neighbourhood, row: u32, vehicle: u32) -> Block
        ensures { result ≡ record { neighbourhood = neighbourhood; row = row; vehicle = vehicle } }
    {
        Block {
            neighbourhood,
            row,
            vehicle,
        }
    }
}

/// The row of a move among those of its neighbourhood: the vehicle that it names first, or its pair. It is 0 if nobody
/// owns the rows of its neighbourhood.
pub(crate) fn first_of(mv: Move) -> u32
    ensures { result ≡ blocks.first_of mv }
{
    match mv {
        Move::TwoOpt { v, .. } => v,
        Move::OrOpt { v, .. } => v,
        Move::Relocate { v, .. } => v,
        Move::Exchange { v, .. } => v,
        Move::Cross { v, .. } => v,
        Move::RelocatePair { p, .. } => p,
        Move::PairInactive { p } => p,
        _ => 0,
    }
}

/// The rows of all neighbourhoods.
pub(crate) const ROWS: usize = 1504;

// How many rows the neighbourhoods before one have, in the order of all.
#[inline(always)]
fn rows_before(kind: Neighbourhood) -> u32
    ensures { result ≡ blocks.rows_before kind all_neighbourhoods }
{
    match kind {
        Neighbourhood::TwoOpt => 0,
        Neighbourhood::OrOpt => 100,
        Neighbourhood::Relocate => 200,
        Neighbourhood::Exchange => 300,
        Neighbourhood::Cross => 400,
        Neighbourhood::RelocatePair => 500,
        Neighbourhood::PairActive => 1000,
        Neighbourhood::PairInactive => 1001,
        Neighbourhood::MakeActive => 1501,
        Neighbourhood::MakeInactive => 1502,
        Neighbourhood::SwapActive => 1503,
    }
}

/// The place of the stamp of a row, among those of all neighbourhoods.
#[inline(always)]
pub(crate) fn stamp_of(kind: Neighbourhood, row: u32) -> usize
    requires row { row < rows_of kind }
    ensures value { result ≡ blocks.stamp_of kind row }
    ensures within { result < 1504 }
{
    (rows_before(kind) + row) as usize
}
