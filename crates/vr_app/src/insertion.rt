//! What rebuilds open routes for path neighbourhoods: parallel cheapest insertion.

ghost use Rattle.vr_first_insert.specs.Keeping.{IsOpened};

use std::alloc::Global;
use vr_first_insert::{Rebuilder, rebuild};
use vr_lns::Rebuild;
use vr_model::{Model, NoMemory};
use vr_plan::Lookups;
use vr_routes::Routes;

/// Parallel cheapest insertion of items that are in no list.
#[derive(Drop)]
pub(crate) struct Insertion {
    alloc: Global,
    // once it knows a model
    rebuilder: Option<Rebuilder>,
}

impl Insertion {
    /// What takes its memory from `alloc`.
    pub(crate) fn new(alloc: Global) -> Insertion {
        Insertion {
            alloc,
            rebuilder: None,
        }
    }
}

impl Rebuild for Insertion {
    // nothing is counted here: the test that counts has its own (`vr_search_tests`)
    ghost made = { λ insertion. 0 };

    ghost knows = { λ insertion model. IsOpened model insertion.rebuilder };

    /// As the trait says. Nothing calls it: path neighbourhoods ask `rebuild_known` instead.
    fn rebuild(&mut self, model: &Model, routes: &Routes) -> Result<Routes, NoMemory> {
        rebuild(self.alloc, model, routes)
    }

    fn know(&mut self, lookups: &Lookups<'_>) -> Result<(), NoMemory> {
        self.rebuilder = Some(Rebuilder::open(self.alloc, lookups)?);
        Ok(())
    }

    fn rebuild_known(
        &mut self,
        lookups: &Lookups<'_>,
        routes: &mut Routes,
    ) -> Result<(), NoMemory> {
        match &mut self.rebuilder {
            Some(rebuilder) => rebuilder.rebuild(lookups, routes),
            // it knows a model: the trait asks for that
            None => unreachable!(),
        }
    }
}
