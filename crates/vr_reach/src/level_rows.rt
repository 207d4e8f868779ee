//! Forward and backward levels of each stop of a line.

ghost use Rattle.std.specs.Prelude.{◌≡◌, ◌<◌, ◌↔◌, [], IsTrue, IfOk, OnOk, length, slice_index_or};
ghost use Rattle.vr_model.specs.schedules.Lines.{Line as Defined};
ghost use Rattle.vr_model.specs.schedules.Schedules.{IsFeasible};
ghost use Rattle.vr_steps.specs.Lines.{IsLineOf, IsSoundLine};
ghost use Rattle.vr_steps.specs.declared.lines.Line.{Line as Made};
ghost use Rattle.vr_reach.specs.DrivenRows.{AreFirstOn, AreLastOn};
ghost use Rattle.vr_reach.specs.KnownRows.{AreRowsOf};
ghost use Rattle.vr_reach.specs.Rows.{AreRows};

use crate::Sweep;
use crate::shared::share_at_first;
use crate::stops::ListStops;
use std::alloc::Global;
use std::marker::Model;
use vr_model::NoMemory;
use vr_steps::{Levels, Line};

/// The forward and backward levels of each stop of a line. For `b` breaks taken, forward levels have the cumuls that
/// are reached at the stop. Backward levels have those from which the end is reached with the other breaks taken. Take
/// a stop that is reached at 10 to 50, and from which the end is reached at 0 to 40. Schedules pass it at 10 to 40.
///
/// Rows may be built anew in place. That takes memory only in three cases:
/// - the line has more stops than any before,
/// - its vehicle has breaks,
/// - a set has more runs than its place has room for.
#[derive(Drop)]
pub struct Rows {
    // from the start on: the forward levels
    ahead: Sweep,
    // from the end back: the backward levels
    behind: Sweep,
}

impl Model for Rows {
    ghost use Rattle.vr_reach.specs.Rows.{BothWays};

    ghost Value = { BothWays };

    ghost view = { λ r. record { forward = r.ahead; backward = r.behind } };
}

impl Rows {
    /// No rows: a place for those of a line. It takes no memory.
    pub fn new(alloc: Global) -> Rows
        ensures { result ≡ record { forward = []; backward = [] } }
    {
        Rows {
            ahead: Sweep::new(alloc),
            behind: Sweep::new(alloc),
        }
    }

    /// No rows, with room for those of lines of up to `stops` stops.
    pub fn with_room(alloc: Global, stops: usize) -> Result<Rows, NoMemory>
        ensures { IfOk result (λ rows. rows ≡ record { forward = []; backward = [] }) }
    {
        Ok(Rows {
            ahead: Sweep::with_room(alloc, stops)?,
            behind: Sweep::with_room(alloc, stops)?,
        })
    }

    /// The rows of a line. In this repository tests alone ask for them so; others write rows by lists, over those that
    /// they have (`write_rows`).
    pub fn build(alloc: Global, line: &Line) -> Result<Rows, NoMemory>
        requires { IsSoundLine line.now }
        ensures { IfOk result (AreRows line.now) }
    {
        let mut rows = Rows::new(alloc);
        rows.rebuild(alloc, line)?;
        Ok(rows)
    }

    /// Writes the rows of a line over these. After `NoMemory` nothing is said of them. Nobody but `build` calls it.
    pub fn rebuild(&mut self, alloc: Global, line: &Line) -> Result<(), NoMemory>
        requires { IsSoundLine line.now }
        ensures { OnOk result (AreRows line.now self.new) }
    {
        self.ahead.forward(alloc, line)?;
        self.behind.backward(alloc, line)?;
        Ok(())
    }

    /// Writes the rows of a list of a vehicle over these. The first `ahead` forward levels and the last `behind`
    /// backward ones are those of the list already. After `NoMemory` nothing is said of them.
    pub(crate) fn rewrite(
        &mut self,
        alloc: Global,
        stops: &ListStops,
        ahead: usize,
        behind: usize,
    ) -> Result<(), NoMemory>
        requires ahead { AreFirstOn stops.now.of ahead self.old.forward }
        requires behind { AreLastOn stops.now.of behind self.old.backward }
        ensures { OnOk result (AreRowsOf stops.now.of.closed.model.now stops.now.of.d stops.now.of.v
            stops.now.of.list.now self.new) }
    {
        self.ahead.forward_along(alloc, stops, ahead)?;
        self.behind.backward_along(alloc, stops, behind)?;
        Ok(())
    }

    /// The number of stops. It takes no memory. In this repository nobody asks it.
    pub fn stops(&self) -> usize
        ensures { result ≡ length self.now.forward }
    {
        self.ahead.stops()
    }

    /// Whether the line has a schedule, by both ways at its first stop. It takes no memory. Tests alone ask it.
    pub fn feasible(&self) -> bool
        ensures { (line : Made) → AreRows line self.now → (defined : Defined) → IsLineOf defined line →
            IsTrue result ↔ IsFeasible defined }
    {
        share_at_first(&self.ahead, &self.behind)
    }

    /// The levels that are reached at stop `k`. It takes no memory.
    pub fn forward(&self, k: usize) -> &Levels
        requires { k < length self.now.forward }
        ensures { slice_index_or self.now.forward k [] ≡ result.now }
    {
        self.ahead.levels(k)
    }

    /// The levels of stop `k` from which the end is reached. It takes no memory.
    pub fn backward(&self, k: usize) -> &Levels
        requires { k < length self.now.backward }
        ensures { slice_index_or self.now.backward k [] ≡ result.now }
    {
        self.behind.levels(k)
    }

    /// The levels of all stops from which the end is reached. It takes no memory. `vr_plan::schedule_over` alone asks
    /// it.
    pub fn backward_sweep(&self) -> &Sweep
        ensures { result.now ≡ self.now.backward }
    {
        &self.behind
    }
}
