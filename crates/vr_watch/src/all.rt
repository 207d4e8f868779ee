//! Each watcher in order.

ghost use Rattle.std.specs.Prelude.{[], ◌∷◌, OnOk, OnErr};
ghost use Rattle.vr_watch.specs.Told.{Hears, HearsNothing, Reported, ReportedInPart, ReportedToSome};

use crate::Watch;
use vr_model::{Event, NoMemory};

type Watcher = Box<dyn Watch>;

// Tells one watcher.
fn tell(watcher: &mut Watcher, event: Event) -> Result<(), NoMemory>
    ensures told { OnOk result (Hears (λ w later. after w later) watcher.old watcher.new event) }
    ensures as_before { OnErr result (HearsNothing (λ w later. after w later) watcher.old watcher.new) }
{
    watcher.note(event)?;
    Ok(())
}

// Tells each watcher of an event, in order. When memory is out, the first few were told, and no other.
fn tell_each(watch: &mut [Watcher], event: Event) -> Result<(), NoMemory>
    ensures told { OnOk result (Reported (λ w later. after w later) watch.old watch.new (event ∷ [])) }
    ensures some_told { OnErr result (ReportedToSome (λ w later. after w later) watch.old watch.new event) }
{
    for watcher in watch.iter_mut() {
        tell(watcher, event)?;
    }
    Ok(())
}

/// Tells each watcher of an event, in order. When memory is out, the first few were told, and no other. That is said
/// here as searches say it of all their events (`ReportedInPart`).
pub fn note_all(watch: &mut Vec<Box<dyn Watch>>, event: Event) -> Result<(), NoMemory>
    ensures told { OnOk result (Reported (λ w later. after w later) watch.old.items watch.new.items (event ∷ [])) }
    ensures told_in_part { OnErr result (ReportedInPart (λ w. after w) watch.old.items watch.new.items (event ∷ [])) }
{
    tell_each(watch, event)
}
