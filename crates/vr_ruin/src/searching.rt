//! The search by ruin and recreate.

ghost use Rattle.std.specs.Prelude.{◌≡◌, ◌-◌, ◌≤◌, IfOk, IsTrue, OnErr};
ghost use Rattle.vr_model.specs.routes.Rules.{is_valid};
ghost use Rattle.vr_watch.specs.Told.{ReportedInPart};
ghost use Rattle.vr_ruin.specs.Payments.{IsCost};
ghost use Rattle.vr_ruin.specs.Refining.{refined_from};
ghost use Rattle.vr_ruin.specs.Searching.{AreRoutesOf, HasComeTo, IsIn, MayRuin};
ghost use Rattle.vr_ruin.specs.Standings.{worth_of};
ghost use Rattle.vr_ruin.specs.Steps.{RefineState};

use crate::advancing::{Terms, advance};
use crate::judging::Standing;
use crate::stepping::Stepper;
use crate::trial::Trial;
use vr_model::{End, NoMemory};
use vr_routes::Routes;
use vr_watch::Watch;

/// The search from here to its end: step after step, until it found its solutions or used its tries. If memory runs out
/// the routes are open, and the watchers have been told the events up to there.
pub(crate) fn search(
    stepper: &mut Stepper<'_>,
    trial: &mut Trial<'_>,
    terms: Terms,
    routes: &mut Routes,
    best: &mut Routes,
    at: &mut Standing,
    watch: &mut Vec<Box<dyn Watch>>,
) -> Result<End, NoMemory>
    requires same { trial.old.model ≡ stepper.old.model }
    requires ruin { MayRuin terms.ruin }
    requires tries { terms.limit.tries ≤ 1000000000 }
    requires solutions { terms.limit.solutions ≤ 1000000000 }
    requires used { at.old.used ≤ terms.limit.tries }
    requires found { at.old.found ≤ terms.limit.solutions }
    requires cost { IsCost at.old.here.cost }
    requires here { at.old.here ≡ worth_of stepper.old.model routes.old.lists }
    requires routes { AreRoutesOf stepper.old.model routes.old }
    requires best { AreRoutesOf stepper.old.model best.old }
    ensures routes { AreRoutesOf stepper.old.model routes.new }
    ensures best { AreRoutesOf stepper.old.model best.new }
    ensures valid { IsTrue (is_valid stepper.old.model routes.old.lists)
        → IsTrue (is_valid stepper.old.model routes.new.lists) }
    ensures ended { (state : RefineState)
        → IsIn stepper.old.model state routes.old.lists best.old.lists stepper.old.words at.old
        → IfOk result (HasComeTo (λ w later. after w later) stepper.old.model
        (refined_from stepper.old.model terms.ruin terms.limit (terms.limit.tries - at.old.used) state)
        routes.new.lists best.new.lists at.new watch.old.items watch.new.items) }
    ensures told_in_part { (state : RefineState)
        → IsIn stepper.old.model state routes.old.lists best.old.lists stepper.old.words at.old
        → OnErr result (ReportedInPart (λ w later. after w later) watch.old.items watch.new.items
        (refined_from stepper.old.model terms.ruin terms.limit (terms.limit.tries - at.old.used)
        state).outcome.events) }
{
    'steps: while at.found != terms.limit.solutions && at.used != terms.limit.tries {
        advance(stepper, trial, terms, routes, best, at, watch)?;
    }
    if at.found == terms.limit.solutions {
        Ok(End::Solutions)
    } else {
        Ok(End::Tries)
    }
}
