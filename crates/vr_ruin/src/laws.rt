//! Laws over the definitions. A call has no code: its contract is the law. Proofs cite the lemma of the same name.

ghost use Rattle.vr_ruin.specs.Answering.{CoolingGoesOn, HeatIsBounded, OpenIsValidWithoutLack};
ghost use Rattle.vr_ruin.specs.Answering.{RefiningAnswers, RefiningIsSound, RefiningStops};
ghost use Rattle.vr_ruin.specs.Answering.{StepsStayOpen, ValidFirstIsKept};

/// Open routes are valid exactly if they lack nothing. That is, each visit in no group is in one, and each group
/// without a penalty has as many active nodes as it may have.
pub fn open_is_valid_without_lack()
    ensures { OpenIsValidWithoutLack }
{}

/// From open routes a step makes open routes, accepted or not.
pub fn steps_stay_open()
    ensures { StepsStayOpen }
{}

/// Each answer is sound. Its best routes are valid, and of the valid ones that the search had they are the first of
/// least cost. The first cost is that of the first valid ones. Its tries and solutions are within the limit.
pub fn refining_is_sound()
    ensures { RefiningIsSound }
{}

/// A search answers exactly if some of the routes that it had are valid.
pub fn refining_answers()
    ensures { RefiningAnswers }
{}

/// If the routes with which a search begins are valid, the first cost is theirs.
pub fn valid_first_is_kept()
    ensures { ValidFirstIsKept }
{}

/// A search makes at most as many steps as its limit allows tries. It stops with the solutions of its limit, or else
/// with all its tries, and says which.
pub fn refining_stops()
    ensures { RefiningStops }
{}

/// The heat of each step is at most the one with which the search begins.
pub fn heat_is_bounded()
    ensures { HeatIsBounded }
{}

/// Some levels down and then more is all of them down, so the heat may be kept from step to step.
pub fn cooling_goes_on()
    ensures { CoolingGoesOn }
{}
