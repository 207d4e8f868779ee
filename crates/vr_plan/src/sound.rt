//! Lines that are known to be sound.

ghost use Rattle.std.proofs.Props.{props};
ghost use Rattle.vr_steps.specs.Lines.{IsSoundLine};

use vr_steps::Line;

// A line that is sound.
#[derive(Clone, Copy)]
pub(crate) struct SoundLine<'l> {
    pub(crate) line: &'l Line,
    // It is sound.
    pub ghost sound: { IsSoundLine line.now } by { Prim.hlevel props },
}
