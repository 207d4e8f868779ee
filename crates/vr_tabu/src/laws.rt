//! Laws over the definitions. A call has no code: its contract is the law. Nothing calls them: proofs cite the lemma
//! that answers it.

ghost use Rattle.vr_tabu.specs.Answering.{TabuIsSound};
ghost use Rattle.vr_tabu.specs.Bounding.{TabuBoundUnmet};

/// What each answer of a tabu search from valid lists keeps to. The best lists are valid and cost no more than the
/// first; the last ones are valid. Its tries and its solutions are within the limit.
pub fn tabu_is_sound()
    ensures { TabuIsSound }
{}

/// Tabu search ends by itself. A bound on its rounds that is above the number of tries left is never met. So the
/// definition, which has one round more than tries, does not end at its bound.
pub fn tabu_bound_unmet()
    ensures { TabuBoundUnmet }
{}
