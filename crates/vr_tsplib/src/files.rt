//! The reading of a file, line by line.

ghost use Rattle.std.specs.Prelude.{◌≡◌, IfOk};
ghost use Rattle.vr_json.specs.Reading.{Answers, seen};
ghost use Rattle.vr_tsplib.specs.Files as files;
ghost use Rattle.vr_tsplib.specs.Flaws.{AnswersLine};
ghost use Rattle.vr_tsplib.specs.Ranges.{AreLinesInRange};
ghost use Rattle.vr_tsplib.specs.Texts.{lines};

use crate::flaws::{LineFail, refusal};
use crate::heads::{Head, LinePlace};
use crate::section_rows::{DemandRow, SiteRow, demand_row, demands_left, site_row, sites_left};
use crate::sections::weights_left;
use crate::texts::is_wordless;
use crate::weights::push_row;
use std::alloc::Global;
use vr_json::ReadFail;
use vr_model::Seq;

/// What the lines of a file have said so far.
#[derive(Drop)]
pub struct State {
    pub head: Head,
    pub sites: Seq<SiteRow>,
    pub demands: Seq<DemandRow>,
    pub weights: Seq<u64>,
}

impl State {
    // Before the first line.
    fn new(alloc: Global) -> State
        ensures { result ≡ files.start }
    {
        State {
            head: Head::new(),
            sites: Seq::new(alloc),
            demands: Seq::new(alloc),
            weights: Seq::new(alloc),
        }
    }

    // Takes a row of coordinates, of which this many are to come.
    #[tactic(auto, unfolding(vr_json::specs::Reading::and_then, crate::specs::Files::sites_line))]
    fn sites_line(&mut self, left: u32, line: &[u8]) -> Result<(), LineFail>
        ensures { AnswersLine (seen (λ u. self.new) result) (files.sites_line left self.old line.now) }
    {
        let row = site_row(self.head.node_count(), self.sites.as_slice(), line)?;
        self.sites.push(row)?;
        self.head.place = sites_left(left);
        Ok(())
    }

    // Takes the row of a demand, of which this many are to come.
    #[tactic(auto, unfolding(vr_json::specs::Reading::and_then, crate::specs::Files::demands_line))]
    fn demands_line(&mut self, left: u32, line: &[u8]) -> Result<(), LineFail>
        ensures { AnswersLine (seen (λ u. self.new) result) (files.demands_line left self.old line.now) }
    {
        let row = demand_row(self.head.node_count(), self.demands.as_slice(), line)?;
        self.demands.push(row)?;
        self.head.place = demands_left(left);
        Ok(())
    }

    // Takes a line of weights, of which this many are to come. They are weights and not lines, since a line has any
    // number of them.
    fn weights_line(&mut self, left: u64, line: &[u8]) -> Result<(), LineFail>
        ensures { AnswersLine (seen (λ u. self.new) result) (files.weights_line left self.old line.now) }
    {
        let before = self.weights.len();
        push_row(&mut self.weights, left, line)?;
        let count = self.weights.len() - before;
        self.head.place = weights_left(left.saturating_sub(count as u64));
        Ok(())
    }

    // Takes a line with words, by the section it is in; after `EOF` it has no meaning.
    #[tactic(auto, unfolding(vr_json::specs::Reading::and_then, crate::specs::Files::head_line))]
    fn line_at(&mut self, line: &[u8]) -> Result<(), LineFail>
        ensures { AnswersLine (seen (λ u. self.new) result) (files.line_at self.old.head.place self.old line.now) }
    {
        match self.head.place {
            LinePlace::Outside => self.head = self.head.outside_line(line)?,
            LinePlace::Sites(left) => self.sites_line(left, line)?,
            LinePlace::Weights(left) => self.weights_line(left, line)?,
            LinePlace::Demands(left) => self.demands_line(left, line)?,
            LinePlace::Depot => self.head = self.head.depot_row(line)?,
            LinePlace::DepotEnd => self.head = self.head.depot_end(line)?,
            LinePlace::Ended => (),
        }
        Ok(())
    }

    // Takes a line; one without words has no meaning.
    fn read_line(&mut self, line: &[u8]) -> Result<(), LineFail>
        ensures { AnswersLine (seen (λ u. self.new) result) (files.read_line self.old line.now) }
    {
        if is_wordless(line) {
            return Ok(());
        }
        self.line_at(line)
    }
}

/// What the lines of a file say; refused at the first line that has a flaw, by its number, which counts from 1.
pub(crate) fn read_lines(alloc: Global, bytes: &[u8]) -> Result<State, ReadFail>
    ensures lines { Answers result (files.read_lines files.start 1 (lines bytes.now)) }
    ensures sound { IfOk result (λ state. AreLinesInRange state) }
{
    let mut state = State::new(alloc);
    let mut number = 0;
    for line in bytes.split(|b| *b == b'\n') {
        number += 1;
        if let Err(fail) = state.read_line(line) {
            return Err(refusal(alloc, fail, number));
        }
    }
    Ok(state)
}
