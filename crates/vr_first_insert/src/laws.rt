//! A law over the definitions. A call has no code: its contract is the law. Nothing calls it: proofs cite the lemma of
//! the same name.

ghost use Rattle.vr_first_insert.specs.Ending.{InsertionEnds};

/// Insertion ends because nothing may be inserted any more, and not at its bound. As many steps as there are items are
/// enough, whatever lists it begins from.
pub fn insertion_ends()
    ensures { InsertionEnds }
{}
