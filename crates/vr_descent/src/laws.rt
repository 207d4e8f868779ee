//! Laws over the definitions. A call has no code: its contract is the law. Nothing calls it: proofs cite the lemma of
//! the same name.

ghost use Rattle.vr_descent.specs.Answering.{DescentIsSound};

/// A greedy descent from valid lists ends at valid lists that cost no more than these. Its tries and its solutions are
/// within the limit.
pub fn descent_is_sound()
    ensures { DescentIsSound }
{}
