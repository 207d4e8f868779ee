//! What the search by cuts finds, if the construction of a first solution rebuilds.

ghost use Rattle.std.specs.Prelude.{◌≡◌, ◌≤◌, ⊤, IsTrue};
ghost use Rattle.vr_descent.specs.Ending.{IsSearchLimit};
ghost use Rattle.vr_model.specs.routes.Rules.{is_valid};
ghost use Rattle.vr_model.specs.tables.Tables.{visits};

use crate::models::{ON_TIME, ONE_WAY, TWO_FARES};
use crate::questions::{Asks, Row, assert_rows};
use crate::searches::{Wanted, ends_so};
use std::alloc::Global;
use vr_first_insert::rebuild;
use vr_lns::{Rebuild, lns};
use vr_model::{Closed, End, Limit, Model, NoMemory, Report};
use vr_plan::Lookups;
use vr_routes::Routes;
use vr_watch::Watch;

/// A search by cuts, and what it finds.
#[derive(Clone, Copy)]
pub(crate) struct Cuts {
    cut: u32,
    tries: u64,
    wanted: Wanted,
    /// How often it rebuilds.
    made: u64,
}

// What rebuilds, and how often it did.
#[derive(Drop)]
struct Inserting {
    alloc: Global,
    count: u64,
}

impl Rebuild for Inserting {
    ghost made = { λ inserting. inserting.count };

    ghost knows = { λ inserting model. ⊤ };

    fn rebuild(&mut self, model: &Model, routes: &Routes) -> Result<Routes, NoMemory> {
        self.count = self.count.saturating_add(1);
        rebuild(self.alloc, model, routes)
    }

    fn know(&mut self, _lookups: &Lookups<'_>) -> Result<(), NoMemory> {
        Ok(())
    }

    fn rebuild_known(
        &mut self,
        lookups: &Lookups<'_>,
        routes: &mut Routes,
    ) -> Result<(), NoMemory> {
        let after = self.rebuild(lookups.closed.model, routes)?;
        routes.assign(&after);
        Ok(())
    }
}

// How the search ends from valid routes.
fn report_of(
    alloc: Global,
    closed: Closed<'_>,
    inserting: &mut Inserting,
    routes: &mut Routes,
    limit: Limit,
    cut: u32,
) -> Result<Report, NoMemory>
    requires of_model { routes.old.visits ≡ visits closed.model.now }
    requires valid { IsTrue (is_valid closed.model.now routes.old.lists) }
    requires limit { IsSearchLimit limit }
    requires one_visit { 1 ≤ cut }
    requires few_visits { cut ≤ 100 }
{
    let mut none: Vec<Box<dyn Watch>> = Vec::new(alloc);
    lns(
        alloc,
        closed.model,
        inserting,
        routes,
        limit,
        cut,
        &mut none,
    )
}

/// Whether the search by cuts from valid routes finds what is wanted.
pub(crate) fn finds(
    alloc: Global,
    closed: Closed<'_>,
    routes: &mut Routes,
    cuts: &Cuts,
) -> Result<bool, NoMemory>
    requires of_model { routes.old.visits ≡ visits closed.model.now }
    requires valid { IsTrue (is_valid closed.model.now routes.old.lists) }
{
    let mut inserting = Inserting { alloc, count: 0 };
    let limit = Limit {
        tries: cuts.tries.min(1000),
        solutions: 100,
    };
    let cut = cuts.cut.clamp(1, 100);
    let report = report_of(alloc, closed, &mut inserting, routes, limit, cut)?;
    Ok(inserting.count == cuts.made && ends_so(routes, &report, &cuts.wanted))
}

// The costly direction of two visits.
const TURNED: &[&[u32]] = &[&[1, 2]];

// Both visits are taken out and put back in the other order, and no cut of that costs less.
const TURNS: Cuts = Cuts {
    cut: 10,
    tries: 1000,
    wanted: Wanted {
        tries: 3,
        solutions: 2,
        end: End::Optimum,
        list: &[2, 1],
    },
    made: 3,
};

// The same with one try.
const TURNS_ONCE: Cuts = Cuts {
    cut: 10,
    tries: 1,
    wanted: Wanted {
        tries: 1,
        solutions: 2,
        end: End::Tries,
        list: &[2, 1],
    },
    made: 1,
};

// A pair of the vehicle that costs more.
const DEAR: &[&[u32]] = &[&[], &[1, 2]];

// A cut of one visit takes the other node of its pair out too, so that both go to the other vehicle.
const MOVES: Cuts = Cuts {
    cut: 1,
    tries: 1000,
    wanted: Wanted {
        tries: 3,
        solutions: 2,
        end: End::Optimum,
        list: &[1, 2],
    },
    made: 3,
};

// The one order in which all visits can be.
const PUNCTUAL: &[&[u32]] = &[&[3, 1, 2]];

// If all are taken out, one comes back alone: that is open and costs less, but is not valid.
const STAYS: Cuts = Cuts {
    cut: 10,
    tries: 1000,
    wanted: Wanted {
        tries: 3,
        solutions: 1,
        end: End::Optimum,
        list: &[3, 1, 2],
    },
    made: 3,
};

#[rattlefmt::skip]
static ROWS: [Row; 4] = [
    Row { name: "both visits are cut", text: ONE_WAY, lists: TURNED, asks: Asks::Cuts(&TURNS) },
    Row { name: "one cut is tried", text: ONE_WAY, lists: TURNED, asks: Asks::Cuts(&TURNS_ONCE) },
    Row { name: "half a pair is cut", text: TWO_FARES, lists: DEAR, asks: Asks::Cuts(&MOVES) },
    Row { name: "a visit does not come back", text: ON_TIME, lists: PUNCTUAL, asks: Asks::Cuts(&STAYS) },
];

#[test]
fn searches_by_cuts_find(rt: HostRuntime) {
    assert_rows(&rt, rt.alloc(), &ROWS);
}
