//! A law over the definitions. A call has no code: its contract is the law. Nothing calls it: proofs cite the lemma of
//! the same name.

ghost use Rattle.vr_first_arc.specs.Ending.{FillingEnds};

/// A list is filled until nothing may be appended to it any more, and not up to its bound. As many steps as there are
/// items are enough, whatever lists it begins from.
pub fn filling_ends()
    ensures { FillingEnds }
{}
