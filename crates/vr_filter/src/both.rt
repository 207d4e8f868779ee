//! Two filters as one.

ghost use Rattle.std.specs.Prelude.{◌≡◌, ◌+◌, ◌≤◌, ◌&&◌, ℕ, Bool, false, List, IsTrue, IfOk, OnOk, OnErr};
ghost use Rattle.vr_routes.specs.Changes.{IsMadeOn, after};
ghost use Rattle.vr_routes.specs.Pieces.{ListAfter, changed};
ghost use Rattle.vr_routes.specs.Tours.{Tours};
ghost use Rattle.vr_filter.specs.Joined.{both_true};

use crate::PathFilter;
use std::sync::ledger::Ledger;
use vr_model::{NoMemory, Steps};
use vr_routes::{Change, Routes};

/// Two filters as one: its rule is that both rules hold.
#[derive(Drop)]
pub struct Both<A, B> {
    pub a: A,
    pub b: B,
}

impl<A: PathFilter, B: PathFilter> PathFilter for Both<A, B> {
    ghost holds = { λ f lists. A.holds f.a lists && B.holds f.b lists };

    ghost stands_at = { λ f tours. A.stands_at f.a tours × B.stands_at f.b tours };

    ghost ready = { λ f tours parts. A.ready f.a tours parts × B.ready f.b tours parts };

    ghost weight = { λ f before later. A.weight f.a before later + B.weight f.b before later };

    fn passes<L: Ledger>(
        &mut self,
        routes: &Routes,
        change: &Change,
        steps: &mut Steps<L>,
    ) -> Result<bool, NoMemory> {
        if !self.a.passes(routes, change, steps)? {
            return Ok(false);
        }
        self.b.passes(routes, change, steps)
    }

    fn prepare(&mut self, routes: &Routes, change: &Change) -> Result<(), NoMemory> {
        self.a.prepare(routes, change)?;
        self.b.prepare(routes, change)?;
        Ok(())
    }

    fn commit(&mut self, routes: &Routes, change: &Change) {
        self.a.commit(routes, change);
        self.b.commit(routes, change);
    }

    ghost keeps_rule = { λ f tours stands. both_true (A.keeps_rule f.a tours stands.0)
        (B.keeps_rule f.b tours stands.1) };
}
