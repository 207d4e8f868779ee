//! A law over the definitions. A call has no code: its contract is the law. Nothing calls it: proofs cite the lemma of
//! the same name.

ghost use Rattle.vr_first_savings.specs.Ending.{MergingEnds};

/// Routes are joined until no join is wanted any more, and not up to their bound. As many steps as there are routes are
/// enough, whatever routes it begins from.
pub fn merging_ends()
    ensures { MergingEnds }
{}
