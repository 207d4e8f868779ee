//! What an accepted step changes, and what the watchers are told of it.

ghost use Rattle.std.specs.Prelude.{◌≡◌, ◌+◌, ◌<◌, ◌≤◌, ◌≤ℤ◌, ◌∷◌, ◌==◌, [], cond, length, ℕ};
ghost use Rattle.std.specs.Prelude.{IfOk, IsTrue, OnErr, OnOk};
ghost use Rattle.rand_pcg.specs.Lcg.{Lcg};
ghost use Rattle.vr_model.specs.routes.Rules.{is_valid};
ghost use Rattle.vr_model.specs.tables.Tables.{visits};
ghost use Rattle.vr_rules.specs.Placing.{AreBuilt};
ghost use Rattle.vr_watch.specs.Told.{Reported, ReportedInPart};
ghost use Rattle.vr_ruin.specs.Payments.{IsCost};
ghost use Rattle.vr_ruin.specs.Answers.{events_of_first, first_event};
ghost use Rattle.vr_ruin.specs.Searching.{accept_event, accept_events};
ghost use Rattle.vr_ruin.specs.Standings.{is_less, standing_with, worth_of};

use crate::judging::{Standing, Worth};
use vr_model::{Event, Kind, NoMemory};
use vr_routes::Routes;
use vr_watch::{Watch, note_all};

/// Takes accepted routes over, tells the watchers if they are the best and lack nothing, and counts.
pub(crate) fn accept(
    made: &Routes,
    new: Worth,
    routes: &mut Routes,
    best: &mut Routes,
    at: &mut Standing,
    watch: &mut Vec<Box<dyn Watch>>,
) -> Result<(), NoMemory>
    requires visits { routes.old.visits ≡ made.now.visits }
    requires many { length routes.old.lists ≡ length made.now.lists }
    requires best_visits { best.old.visits ≡ made.now.visits }
    requires best_many { length best.old.lists ≡ length made.now.lists }
    requires used { at.old.used ≤ 1000000000 }
    requires found { at.old.found ≤ 1000000000 }
    ensures routes { routes.new ≡ made.now }
    ensures best { best.new ≡ cond (is_less new at.old.best at.old.best.cost) made.now best.old }
    ensures at { at.new ≡ standing_with at.old new }
    ensures told { OnOk result (Reported (λ w later. after w later) watch.old.items watch.new.items
        (accept_events at.old new)) }
    ensures told_in_part { OnErr result (ReportedInPart (λ w later. after w later) watch.old.items watch.new.items
        (accept_events at.old new)) }
{
    let before = *at;
    routes.assign(made);
    *at = before.accept(new);
    if !before.is_best(new) {
        return Ok(());
    }
    best.assign(made);
    if new.lack != 0 {
        return Ok(());
    }
    note_all(watch, event_of(before, new))
}

// The event of routes that become the best and lack nothing.
fn event_of(before: Standing, new: Worth) -> Event
    requires { before.used ≤ 1000000000 }
    ensures { result ≡ accept_event before new }
{
    let kind = if before.best.lack == 0 {
        Kind::Move
    } else {
        Kind::First
    };
    Event {
        tries: before.used + 1,
        kind,
        cost: new.cost,
    }
}

/// Tells the watchers of the first routes, if they lack nothing.
pub(crate) fn tell_first(first: Worth, watch: &mut Vec<Box<dyn Watch>>) -> Result<(), NoMemory>
    requires { IsCost first.cost }
    ensures told { OnOk result (Reported (λ w later. after w later) watch.old.items watch.new.items
        (events_of_first first)) }
    ensures told_in_part { OnErr result (ReportedInPart (λ w later. after w later) watch.old.items watch.new.items
        (events_of_first first)) }
{
    if first.lack != 0 {
        return Ok(());
    }
    note_all(watch, event_of_first(first))
}

// The event of the first routes.
fn event_of_first(first: Worth) -> Event
    ensures { result ≡ first_event first }
{
    Event {
        tries: 0,
        kind: Kind::First,
        cost: first.cost,
    }
}
