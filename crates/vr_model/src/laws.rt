//! Laws over the definitions. A call has no code: its contract is the law. Nothing calls them: a proof that needs a law
//! names the proof of it.
//!
//! What a law asks of its lines is in `specs/schedules`:
//!
//! - Laws of what is reached, or of what the end is reached from, ask that lines are sound (`SoundLines`). The two that
//!   speak of tests of this do not.
//! - Laws of what a rule chooses or narrows ask for one stop more than arcs.

ghost use Rattle.vr_model.specs.routes.AssignmentLaws.{ChosenPlansAreThere, OpenMeetsItsLines};
ghost use Rattle.vr_model.specs.routes.CostLaws.{CostsAreBounded};
ghost use Rattle.vr_model.specs.search.ChoosingLaws.{LeastIsFirst, ScanEnds};
ghost use Rattle.vr_model.specs.schedules.ChosenLaws.{ChosenIsLeast, ChosenWhereFeasible, EndReachedAsTested};
ghost use Rattle.vr_model.specs.schedules.ChosenLaws.{LeastCumulMayBePinned, OneChosen, ReachedAsTested, RulesAsTested};
ghost use Rattle.vr_model.specs.schedules.Levels.{CumulWhereLevelsMeet, EndReachedByCrossing, FeasibleWhereLevelsMeet};
ghost use Rattle.vr_model.specs.schedules.Levels.{ReachedAtEnd, ReachedAtStart, ReachedByCrossing};
ghost use Rattle.vr_model.specs.moves.MoveTests.{MovesAsTested};
ghost use Rattle.vr_model.specs.moves.MoveLaws.{MovesChangeLists, MovesKeepLists};
ghost use Rattle.vr_model.specs.schedules.Runs.{RunsAsLongAsForm};
ghost use Rattle.vr_model.specs.search.SearchLaws.{DescentBoundUnmet, GuidedBoundUnmet};
ghost use Rattle.vr_model.specs.schedules.RuleLaws.{ChosenUnderIsChosen, ChosenUnderWhereFeasible, NarrowedChooses};
ghost use Rattle.vr_model.specs.schedules.RuleLaws.{NarrowedKeepsRules, NarrowedToEnds, OneChosenUnder};
ghost use Rattle.vr_model.specs.schedules.SoundLines.{LinesAreSound};
ghost use Rattle.vr_model.specs.tables.Limits.{LimitsAsDefined};

/// The rules of a schedule hold exactly if their tests pass.
pub fn rules_as_tested()
    ensures { RulesAsTested }
{}

/// No two schedules of a line are chosen.
pub fn one_chosen()
    ensures { OneChosen }
{}

/// The function of the chosen schedule gives the least of all schedules.
pub fn chosen_is_least()
    ensures { ChosenIsLeast }
{}

/// There is a chosen schedule exactly if a line is feasible.
pub fn chosen_where_feasible()
    ensures { ChosenWhereFeasible }
{}

/// If the cumuls before a stop are settled, its least cumul may be put in, and the chosen schedule stays the same.
pub fn least_cumul_may_be_pinned()
    ensures { LeastCumulMayBePinned }
{}

/// The test of what is reached at a stop passes exactly at the numbers that are.
pub fn reached_as_tested()
    ensures { ReachedAsTested }
{}

/// The test of what the end is reached from passes exactly at the numbers that it is reached from.
pub fn end_reached_as_tested()
    ensures { EndReachedAsTested }
{}

/// The line of a well-formed model is sound, if its list is of distinct visits and not empty. It has one stop more than
/// arcs, no negative visit time, and breaks of at least 1. If it has breaks, it has no negative transit.
pub fn lines_are_sound()
    ensures { LinesAreSound }
{}

/// At any stop, a sound line is feasible exactly if the levels of the stop meet. They meet at a cumul that is reached
/// with some number of breaks taken, and from which the end is reached with the others.
pub fn feasible_where_levels_meet()
    ensures { FeasibleWhereLevelsMeet }
{}

/// Some schedule of a sound line has a cumul at a stop exactly if the levels of the stop meet at it. The cumul is then
/// reached with some number of breaks taken, and the end is reached from it with the others.
pub fn cumul_where_levels_meet()
    ensures { CumulWhereLevelsMeet }
{}

/// What is reached at a stop is what its arc leads to from what is reached at the stop before.
pub fn reached_by_crossing()
    ensures { ReachedByCrossing }
{}

/// The end is reached from what the arc of a stop leads from, to what the end is reached from at the next stop.
pub fn end_reached_by_crossing()
    ensures { EndReachedByCrossing }
{}

/// The first stop is reached at what it allows, if the breaks taken fit before.
pub fn reached_at_start()
    ensures { ReachedAtStart }
{}

/// The end is reached at what it allows, if the other breaks fit after.
pub fn reached_at_end()
    ensures { ReachedAtEnd }
{}

/// The assignment of lists at their chosen schedules has a plan in each dimension for each vehicle
/// that is used, and for no other.
pub fn chosen_plans_are_there()
    ensures { ChosenPlansAreThere }
{}

/// Open lists at their chosen schedules meet their lines.
pub fn open_meets_its_lines()
    ensures { OpenMeetsItsLines }
{}

/// Of valid lists of a well-formed model no part of the cost is negative, each has its bound, and the
/// cost is in `0..=2^63 - 1`.
pub fn costs_are_bounded()
    ensures { CostsAreBounded }
{}

/// A move is in the list of all moves exactly if its numbers meet the condition of its neighbourhood.
pub fn moves_as_tested()
    ensures { MovesAsTested }
{}

/// No move leaves lists of the model as they are.
pub fn moves_change_lists()
    ensures { MovesChangeLists }
{}

/// The lists after a move are lists of the model, so no visit is in them twice.
pub fn moves_keep_lists()
    ensures { MovesKeepLists }
{}

/// A set of numbers in `0..=2^36` has as many runs as its normal form is long, whatever bounds the form is in.
pub fn runs_as_long_as_form<R>()
    ensures { RunsAsLongAsForm R }
{}

/// The choice of a least entry gives the first entry of the least key.
pub fn least_is_first<A>()
    ensures { LeastIsFirst A }
{}

/// A scan accepts the first acceptable move if it may try that far. It is complete if no move is acceptable and it may
/// try them all. Else it is cut.
pub fn scan_ends()
    ensures { ScanEnds }
{}

/// A bound on the scans of greedy descent that is above the number of tries left is never met: a greater one changes
/// nothing.
pub fn descent_bound_unmet()
    ensures { DescentBoundUnmet }
{}

/// A bound on the scans of guided local search that is above the number of tries left is never met: a greater one
/// changes nothing.
pub fn guided_bound_unmet()
    ensures { GuidedBoundUnmet }
{}

/// What is chosen of the line that a rule narrows another one to is chosen under the rule.
pub fn narrowed_chooses()
    ensures { NarrowedChooses }
{}

/// The function of the schedule under a rule gives the one that the rule chooses.
pub fn chosen_under_is_chosen()
    ensures { ChosenUnderIsChosen }
{}

/// There is a chosen schedule under a rule exactly if a line is feasible.
pub fn chosen_under_where_feasible()
    ensures { ChosenUnderWhereFeasible }
{}

/// No two schedules of a line are chosen under a rule.
pub fn one_chosen_under()
    ensures { OneChosenUnder }
{}

/// A schedule of the narrowed line is one of the line.
pub fn narrowed_keeps_rules()
    ensures { NarrowedKeepsRules }
{}

/// If the least end and the latest start with it are known, the tight rule narrows the line to them.
pub fn narrowed_to_ends()
    ensures { NarrowedToEnds }
{}

/// The constants of `limits` are the numbers that the definitions name.
pub fn limits_as_defined()
    ensures { LimitsAsDefined }
{}
