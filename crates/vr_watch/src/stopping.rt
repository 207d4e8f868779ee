//! A watcher that refuses.

ghost use Rattle.std.specs.Prelude.{◌≡◌, OnOk, OnErr, suc};
ghost use Rattle.vr_watch.specs.Reports.{silent};
ghost use Rattle.vr_watch.specs.Told.{Hears, HearsNothing};

use crate::Watch;
use std::alloc::Global;
use std::marker::Model;
use vr_model::{Event, NoMemory, Seq};

/// Takes a given number of events, answers `NoMemory` to each further one, and reports nothing. Tests try out with it
/// how a search ends when memory is out; the program makes none.
#[derive(Drop)]
pub struct Stopper {
    alloc: Global,
    left: u64,
}

impl Model for Stopper {
    ghost use Rattle.std.specs.Prelude.{ℕ};

    ghost Value = { ℕ };

    ghost view = { λ s. s.left };
}

impl Stopper {
    /// A stopper that takes `at` events. Takes no memory.
    pub fn new(alloc: Global, at: u64) -> Stopper
        ensures { result ≡ at }
    {
        Stopper { alloc, left: at }
    }
}

impl Watch for Stopper {
    ghost after = { silent };

    /// Answers `NoMemory` exactly if no event more is to be taken.
    fn note(&mut self, event: Event) -> Result<(), NoMemory>
        ensures noted { OnOk result (Hears silent self.old self.new event) }
        ensures as_before { OnErr result (HearsNothing silent self.old self.new) }
        ensures took { OnOk result (self.old ≡ suc self.new) }
        ensures full { OnErr result (self.old ≡ 0) }
        ensures kept { OnErr result (self.new ≡ self.old) }
    {
        if self.left == 0 {
            return Err(NoMemory);
        }
        self.left -= 1;
        Ok(())
    }

    fn report(&self) -> Result<Seq<u8>, NoMemory> {
        Ok(Seq::new(self.alloc))
    }
}
