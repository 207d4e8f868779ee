//! One step of a search.

ghost use Rattle.std.specs.Prelude.{◌≡◌, ◌+◌, ◌<◌, ◌≤◌, IsTrue, OnErr, OnOk, length};
ghost use Rattle.vr_model.specs.routes.Rules.{is_valid};
ghost use Rattle.vr_watch.specs.Told.{Reported, ReportedInPart};
ghost use Rattle.vr_ruin.specs.Payments.{IsCost};
ghost use Rattle.vr_ruin.specs.Searching.{AreRoutesOf, IsIn, MayRuin};
ghost use Rattle.vr_ruin.specs.Standings.{worth_of};
ghost use Rattle.vr_ruin.specs.Steps.{RefineState, after_step, step_events, step_from};

use crate::accepting::accept;
use crate::heating::heat_of_step;
use crate::judging::{Standing, is_accepted};
use crate::stepping::Stepper;
use crate::trial::Trial;
use vr_model::{Limit, NoMemory};
use vr_routes::Routes;
use vr_strings::Ruin;
use vr_watch::Watch;

/// What a search goes by.
#[derive(Clone, Copy)]
pub(crate) struct Terms {
    pub(crate) ruin: Ruin,
    pub(crate) limit: Limit,
}

/// A step: routes are made anew, and taken over if they are accepted. It counts as a try in any case. If memory runs
/// out the routes are those before the step, or those that it accepted.
pub(crate) fn advance(
    stepper: &mut Stepper<'_>,
    trial: &mut Trial<'_>,
    terms: Terms,
    routes: &mut Routes,
    best: &mut Routes,
    at: &mut Standing,
    watch: &mut Vec<Box<dyn Watch>>,
) -> Result<(), NoMemory>
    requires same { trial.old.model ≡ stepper.old.model }
    requires ruin { MayRuin terms.ruin }
    requires tries { terms.limit.tries ≤ 1000000000 }
    requires used { at.old.used < terms.limit.tries }
    requires found { at.old.found ≤ 1000000000 }
    requires cost { IsCost at.old.here.cost }
    requires here { at.old.here ≡ worth_of stepper.old.model routes.old.lists }
    requires routes { AreRoutesOf stepper.old.model routes.old }
    requires best { AreRoutesOf stepper.old.model best.old }
    ensures model { stepper.new.model ≡ stepper.old.model }
    ensures trial { trial.new.model ≡ trial.old.model }
    ensures routes { AreRoutesOf stepper.old.model routes.new }
    ensures best { AreRoutesOf stepper.old.model best.new }
    ensures cost { OnOk result (IsCost at.new.here.cost) }
    ensures here { OnOk result (at.new.here ≡ worth_of stepper.old.model routes.new.lists) }
    ensures used { OnOk result (at.new.used ≡ at.old.used + 1) }
    ensures found { OnOk result (at.new.found ≤ at.old.found + 1) }
    ensures valid { IsTrue (is_valid stepper.old.model routes.old.lists)
        → IsTrue (is_valid stepper.old.model routes.new.lists) }
    ensures state { (state : RefineState)
        → IsIn stepper.old.model state routes.old.lists best.old.lists stepper.old.words at.old
        → OnOk result (IsIn stepper.old.model (after_step stepper.old.model state
        (step_from stepper.old.model terms.ruin terms.limit.tries state))
        routes.new.lists best.new.lists stepper.new.words at.new) }
    ensures told { (state : RefineState)
        → IsIn stepper.old.model state routes.old.lists best.old.lists stepper.old.words at.old
        → OnOk result (Reported (λ w later. after w later) watch.old.items watch.new.items
        (step_events stepper.old.model state
        (step_from stepper.old.model terms.ruin terms.limit.tries state))) }
    ensures told_in_part { (state : RefineState)
        → IsIn stepper.old.model state routes.old.lists best.old.lists stepper.old.words at.old
        → OnErr result (ReportedInPart (λ w later. after w later) watch.old.items watch.new.items
        (step_events stepper.old.model state
        (step_from stepper.old.model terms.ruin terms.limit.tries state))) }
{
    if !stepper.has_visits() {
        at.used += 1;
        return Ok(());
    }
    let h = heat_of_step(terms.ruin.heat, terms.limit.tries, at.used + 1);
    stepper.remake(trial, terms.ruin, routes)?;
    let e = stepper.zeros();
    let new = stepper.worth(trial)?;
    trial.know();
    if !is_accepted(h, e, at.here, new) {
        at.used += 1;
        return Ok(());
    }
    accept(trial.routes(), new, routes, best, at, watch)
}
