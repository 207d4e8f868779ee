//! A watcher that keeps each event.

ghost use Rattle.std.specs.Prelude.{◌≡◌, ◌++◌, List, []};
ghost use Rattle.vr_model.specs.declared.search.Event.{Event as Occurrence};
ghost use Rattle.vr_watch.specs.Reports.{traced};

use crate::Watch;
use crate::texts::push_line;
use std::alloc::Global;
use std::marker::Model;
use vr_model::{Event, NoMemory, Seq};

/// Reports each event in a line of its own: the tries so far, a word for its kind and the cost.
#[derive(Drop)]
pub struct Trace {
    alloc: Global,
    events: Vec<Event>,
}

impl Model for Trace {
    ghost use Rattle.std.specs.Prelude.{List};
    ghost use Rattle.vr_model.specs.declared.search.Event.{Event as Occurrence};

    ghost Value = { List Occurrence };

    ghost view = { λ t. t.events.items };
}

impl Trace {
    /// A trace of no events, which keeps an allocator for them and for its report. Takes no memory.
    pub fn new(alloc: Global) -> Trace
        ensures none { result ≡ [] }
        ensures reports { (events : List Occurrence) → traced (result ++ events) ≡ traced events }
    {
        Trace {
            alloc,
            events: Vec::new(alloc),
        }
    }
}

impl Watch for Trace {
    ghost after = { λ events later. traced (events ++ later) };

    /// Keeps an event; it takes memory now and then.
    fn note(&mut self, event: Event) -> Result<(), NoMemory> {
        self.events.push(event)?;
        Ok(())
    }

    fn report(&self) -> Result<Seq<u8>, NoMemory> {
        let mut text = Vec::new(self.alloc);
        for event in &self.events {
            push_line(&mut text, event)?;
        }
        Ok(Seq::from(text))
    }
}
