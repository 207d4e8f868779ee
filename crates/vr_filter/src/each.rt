//! Several filters as one.

ghost use Rattle.std.specs.Prelude.{◌≡◌, ◌+◌, ◌≤◌, ℕ, Bool, false, List, All, IsTrue, IfOk, OnOk, OnErr, sum_by};
ghost use Rattle.std.specs.List.{list_all};
ghost use Rattle.vr_routes.specs.Changes.{IsMadeOn, after};
ghost use Rattle.vr_routes.specs.Pieces.{ListAfter, changed};
ghost use Rattle.vr_routes.specs.Tours.{Tours};
ghost use Rattle.vr_filter.specs.Joined.{all_true};

use crate::PathFilter;
use std::sync::ledger::Ledger;
use vr_model::{NoMemory, Steps};
use vr_routes::{Change, Routes};

/// Several filters of one kind as one: its rule is that the rule of each holds. With no filter it passes every change.
#[derive(Drop)]
pub struct Each<F> {
    pub filters: Vec<F>,
}

impl<F: PathFilter> PathFilter for Each<F> {
    ghost holds = { λ e lists. list_all (λ f. F.holds f lists) e.filters.items };

    ghost stands_at = { λ e tours. All (λ f. F.stands_at f tours) e.filters.items };

    ghost ready = { λ e tours parts. All (λ f. F.ready f tours parts) e.filters.items };

    ghost weight = { λ e before later. sum_by (λ f. F.weight f before later) e.filters.items };

    fn passes<L: Ledger>(
        &mut self,
        routes: &Routes,
        change: &Change,
        steps: &mut Steps<L>,
    ) -> Result<bool, NoMemory> {
        for k in 0..self.filters.len() {
            if !self.filters[k].passes(routes, change, steps)? {
                return Ok(false);
            }
        }
        Ok(true)
    }

    fn prepare(&mut self, routes: &Routes, change: &Change) -> Result<(), NoMemory> {
        for k in 0..self.filters.len() {
            self.filters[k].prepare(routes, change)?;
        }
        Ok(())
    }

    fn commit(&mut self, routes: &Routes, change: &Change) {
        for k in 0..self.filters.len() {
            self.filters[k].commit(routes, change);
        }
    }

    ghost keeps_rule = { λ e tours stands. all_true (λ f. F.holds f tours.lists) (λ f. F.stands_at f tours)
        (λ f at. F.keeps_rule f tours at) e.filters.items stands };
}
