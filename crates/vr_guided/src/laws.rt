//! Laws over the definitions. A call has no code: its contract is the law. Nothing calls them: a proof that needs a law
//! cites the lemma of the same name.

ghost use Rattle.vr_guided.specs.Answering.{GuidedIsSound};
ghost use Rattle.vr_guided.specs.Bounding.{AugmentedCostsAreBounded};
ghost use Rattle.vr_guided.specs.Penalising.{PenaltiesAreFew};

/// The best lists of guided local search from valid lists are valid and cost no more than these. Its last lists are
/// valid, and its tries and its solutions are within the limit.
pub fn guided_is_sound()
    ensures { GuidedIsSound }
{}

/// If no arc was penalised more than 10^9 times, the augmented cost of valid lists is not negative and below 2^100.
pub fn augmented_costs_are_bounded()
    ensures { AugmentedCostsAreBounded }
{}

/// No arc is penalised more often than a move was tried, at each state that guided search comes to. So none is
/// penalised more often than its limit allows tries.
pub fn penalties_are_few()
    ensures { PenaltiesAreFew }
{}
