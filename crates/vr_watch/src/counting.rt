//! A watcher that counts.

ghost use Rattle.std.specs.Prelude.{◌≡◌, ◌∷◌, List, [], Ok, OnOk, OnErr};
ghost use Rattle.vr_model.specs.declared.search.Event.{Event as Occurrence};
ghost use Rattle.vr_watch.specs.Reports.{least_with, none_noted, noted, tallied, tallied_after};
ghost use Rattle.vr_watch.specs.Told.{Hears, HearsNothing};

use crate::Watch;
use crate::texts::tally_line;
use std::alloc::Global;
use std::marker::Model;
use vr_model::{Event, Kind, NoMemory, Seq};

/// Reports in one line what a search did: how many moves were made or cuts kept, and how many rounds of raised
/// penalties there were. The line ends with the least cost of all events, or 0 if there was none. Both counters stay at
/// 2^64 - 1.
#[derive(Drop)]
pub struct Tally {
    alloc: Global,
    moves: u64,
    rounds: u64,
    best: Option<i64>,
}

impl Model for Tally {
    ghost use Rattle.std.specs.Prelude.{◌<◌, ◌^◌};
    ghost use Rattle.vr_watch.specs.Reports.{Tallied};

    ghost Value = { Tallied };

    ghost view = { λ t. record { moves = t.moves; rounds = t.rounds; best = t.best } };

    ghost invariant = { λ t. (t.moves < 2 ^ 64) × (t.rounds < 2 ^ 64) };
}

impl Tally {
    /// A tally of no events, which keeps an allocator for its report. Takes no memory.
    pub fn new(alloc: Global) -> Tally
        ensures none { result ≡ none_noted }
        ensures reports { (events : List Occurrence) → tallied_after result events ≡ tallied events }
    {
        Tally {
            alloc,
            moves: 0,
            rounds: 0,
            best: None,
        }
    }

    // Counts an event.
    fn count(&mut self, event: &Event)
        ensures { self.new ≡ noted self.old event.now }
    {
        self.best = Some(lesser(self.best, event.cost));
        match event.kind {
            Kind::First => {}
            Kind::Move => self.moves = self.moves.saturating_add(1),
            Kind::Round => self.rounds = self.rounds.saturating_add(1),
        }
    }
}

impl Watch for Tally {
    ghost after = { tallied_after };

    /// Counts an event; this takes no memory.
    fn note(&mut self, event: Event) -> Result<(), NoMemory>
        ensures noted { OnOk result (Hears tallied_after self.old self.new event) }
        ensures as_before { OnErr result (HearsNothing tallied_after self.old self.new) }
        ensures takes_no_memory { result ≡ Ok tt }
    {
        self.count(&event);
        Ok(())
    }

    fn report(&self) -> Result<Seq<u8>, NoMemory> {
        let text = tally_line(self.alloc, self.moves, self.rounds, self.best.unwrap_or(0))?;
        Ok(Seq::from(text))
    }
}

// The lesser of a cost, if there is one, and another.
fn lesser(best: Option<i64>, cost: i64) -> i64
    ensures { result ≡ least_with best (cost ∷ []) }
{
    match best {
        Some(best) => best.min(cost),
        None => cost,
    }
}
