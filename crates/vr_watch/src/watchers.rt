//! The trait of what watches a search.

ghost use Rattle.std.specs.Prelude.{◌≡◌, ℕ, List, [], IfOk, OnOk, OnErr};
ghost use Rattle.vr_model.specs.declared.search.Event.{Event as Occurrence};
ghost use Rattle.vr_watch.specs.Told.{Hears, HearsNothing};

use vr_model::{Event, NoMemory, Seq};

/// Notes the events of a search, and reports on them (a search monitor in OR-Tools). What a watcher means is the report
/// that it would give after further events.
pub trait Watch: Drop {
    /// The bytes that the report would be if these events were noted next.
    ghost after: { Self → List Occurrence → List ℕ };

    /// Notes an event. It fails only when out of memory; the watcher is as before then.
    fn note(&mut self, event: Event) -> Result<(), NoMemory>
        ensures noted { OnOk result (Hears after self.old self.new event) }
        ensures as_before { OnErr result (HearsNothing after self.old self.new) };

    /// The bytes that there are to say of the events noted so far. It fails only when out of memory.
    fn report(&self) -> Result<Seq<u8>, NoMemory>
        ensures { IfOk result (λ text. text ≡ after self.now []) };
}
