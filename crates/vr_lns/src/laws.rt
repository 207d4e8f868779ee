//! Laws over the definitions. A call has no code: its contract is the law. Nothing calls them: proofs cite the lemma
//! that answers it.

ghost use Rattle.vr_lns.specs.Answering.{PathLnsIsSound};
ghost use Rattle.vr_lns.specs.Bounding.{PathLnsBoundUnmet};

/// What each answer of a search by cuts from valid lists keeps to. The lists are valid and cost no more than the first.
/// Its tries and its solutions are within the limit. `vr_app` rests its answer on the law.
pub fn path_lns_is_sound()
    ensures { PathLnsIsSound }
{}

/// A search by cuts ends by itself. A bound on its rounds that is above the number of tries left is never met. So the
/// definition, which has one round more than tries, does not end at its bound.
pub fn path_lns_bound_unmet()
    ensures { PathLnsBoundUnmet }
{}
