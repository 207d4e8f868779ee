//! The steps of a search.

ghost use Rattle.std.specs.Prelude.{◌≡◌, ◌<◌, ◌≤◌, IfOk, OnOk, length, not};
ghost use Rattle.vr_model.specs.routes.Routes.{is_empty};
ghost use Rattle.vr_model.specs.tables.Tables.{visits as visits_of};
ghost use Rattle.vr_rules.specs.Placing.{AreBuilt};
ghost use Rattle.vr_ruin.specs.Payments.{IsCost};
ghost use Rattle.vr_ruin.specs.Standings.{worth_of};
ghost use Rattle.vr_gen.specs.Draws.{words_of};
ghost use Rattle.vr_strings.specs.Zeros.{zeros as zeros_of};
ghost use Rattle.vr_ruin.specs.Steps.{remade};

use crate::cutting::cut_routes;
use crate::judging::Worth;
use crate::lacking::lack_of;
use crate::paying::total_of;
use crate::ranking::Priced;
use crate::trial::Trial;
use crate::turning::recreate;
use std::alloc::Global;
use std::marker::Model;
use vr_model::{Closed, NoMemory};
use vr_plan::Lookups;
use vr_routes::Routes;
use vr_rules::{Candidate, candidates};
use vr_strings::{ItemKeys, Rings, Ruin, Words, draw_turns};

/// What makes the steps of a search on routes on trial. Contracts see the model, and the words that are left.
#[derive(Drop)]
pub(crate) struct Stepper<'m> {
    alloc: Global,
    closed: Closed<'m>,
    rings: Rings<'m>,
    keys: ItemKeys<'m>,
    candidates: Vec<Candidate>,
    words: Words,
    // written over: the offers for an item, the items in their turns, and the vehicles whose routes were cut
    ranked: Vec<Priced>,
    order: Vec<u32>,
    cut: Vec<u32>,
}

impl<'m> Model for Stepper<'m> {
    ghost use Rattle.vr_ruin.specs.Steppers.{Stepping, IsStepper};

    ghost Value = { Stepping };

    ghost view = { λ s. record { model = s.closed.model.now; words = s.words } };

    ghost invariant = { λ s. IsStepper s.closed.model.now s.rings.model s.keys s.candidates.items };
}

impl<'m> Stepper<'m> {
    /// What makes the steps of a search with this seed. It fails only if memory runs out, as each call does.
    pub(crate) fn open(
        alloc: Global,
        lookups: &Lookups<'m>,
        seed: u64,
    ) -> Result<Stepper<'m>, NoMemory>
        ensures model { IfOk result (λ stepper. stepper.model ≡ lookups.now.closed.model.now) }
        ensures words { IfOk result (λ stepper. stepper.words ≡ words_of seed) }
    {
        let closed = lookups.closed;
        Ok(Stepper {
            alloc,
            closed,
            rings: Rings::open(alloc, closed)?,
            keys: ItemKeys::open(alloc, lookups.nodes())?,
            candidates: candidates(alloc, lookups.nodes())?,
            words: Words::of_seed(seed),
            ranked: Vec::new(alloc),
            order: Vec::new(alloc),
            cut: Vec::new(alloc),
        })
    }

    /// Whether the model has visits.
    pub(crate) fn has_visits(&self) -> bool
        ensures { result ≡ not (is_empty (visits_of self.now.model)) }
    {
        !self.rings.visits().is_empty()
    }

    /// How many leading zeros the next word has.
    pub(crate) fn zeros(&mut self) -> u32
        ensures model { self.new.model ≡ self.old.model }
        ensures value { (result, self.new.words) ≡ zeros_of self.old.words }
        ensures few { result ≤ 32 }
    {
        self.words.zeros()
    }

    /// What the routes on trial are worth.
    pub(crate) fn worth(&self, trial: &mut Trial<'_>) -> Result<Worth, NoMemory>
        requires model { trial.old.model ≡ self.now.model }
        ensures value { IfOk result (λ worth. worth ≡ worth_of trial.old.model trial.old.lists) }
        ensures range { IfOk result (λ worth. IsCost worth.cost) }
        ensures trial { trial.new ≡ trial.old }
    {
        let _few = self.keys.len();
        let lack = lack_of(self.closed, &self.candidates, trial.routes());
        let cost = trial.total()?;
        Ok(Worth { lack, cost })
    }

    /// Makes routes anew, on trial: strings are taken out of them, and the items that are in no list then are put back.
    pub(crate) fn remake(
        &mut self,
        trial: &mut Trial<'_>,
        ruin: Ruin,
        routes: &Routes,
    ) -> Result<(), NoMemory>
        requires same { trial.old.model ≡ self.old.model }
        requires visits { routes.now.visits ≡ visits_of self.old.model }
        requires built { AreBuilt self.old.model routes.now.lists }
        requires some { 0 < length (visits_of self.old.model) }
        requires removed { ruin.removed ≤ 100 }
        ensures trial { trial.new.model ≡ trial.old.model }
        ensures model { self.new.model ≡ self.old.model }
        ensures value { OnOk result ((trial.new.lists, self.new.words)
            ≡ remade self.old.model ruin routes.now.lists self.old.words) }
    {
        let _few = self.keys.len();
        trial.begin(routes);
        let (cut, words) = (&mut self.cut, &mut self.words);
        cut_routes(self.alloc, trial, &mut self.rings, ruin, cut, words)?;
        trial.know();
        draw_turns(&self.keys, trial.routes(), words, &mut self.order)?;
        let wide = words.draw(8) == 0;
        recreate(
            trial,
            &self.candidates,
            &self.order,
            wide,
            words,
            &mut self.ranked,
        )
    }
}
