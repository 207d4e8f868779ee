//! Places in which the cumuls of lines are chosen.

ghost use Rattle.std.specs.Prelude.{◌≡◌, IfOk, [], All, pos, length};
ghost use Rattle.std.specs.Bool.{then_some};
ghost use Rattle.vr_model.specs.tables.Numbers.{horizon};
ghost use Rattle.vr_model.specs.tables.WellFormed.{IsIn};
ghost use Rattle.vr_model.specs.declared.records.ScheduleRule.TheVariants.{Tight};
ghost use Rattle.vr_steps.specs.Lines.{IsSoundLine};
ghost use Rattle.vr_plan.specs.Plans.{AreChosenCumuls, AreChosenCumulsUnder};
ghost use Rattle.vr_plan.specs.Settled.{Goes};

use crate::cumuls::{Scratch, settle};
use crate::ends::tight_line;
use crate::sound::SoundLine;
use std::alloc::Global;
use std::marker::Model;
use vr_model::{NoMemory, ScheduleRule, Seq};
use vr_reach::Sweep;
use vr_steps::Line;

/// The chosen cumuls of one line after another, written over each time; `schedule` makes a new plan for each. Contracts
/// see those that are kept.
///
/// The places are written over. That takes memory only in three cases:
/// - a line has more stops than any before,
/// - a vehicle has breaks,
/// - a set has more runs than its place has room for.
///
/// Under `Tight` a narrower line is made each time besides, and swept back in a place of its own.
#[derive(Drop)]
pub struct Chooser {
    // what is reached at each stop, from one end of a line or the other
    sweep: Sweep,
    scratch: Scratch,
    cumuls: Seq<i64>,
}

impl Model for Chooser {
    ghost use Rattle.std.specs.Prelude.{List, ℤ};

    ghost Value = { List ℤ };

    ghost view = { λ c. c.cumuls };
}

impl Chooser {
    /// No cumuls: a place for those of a line. It takes no memory.
    pub fn new(alloc: Global) -> Chooser
        ensures { result ≡ [] }
    {
        Chooser {
            sweep: Sweep::new(alloc),
            scratch: Scratch::new(alloc),
            cumuls: Seq::new(alloc),
        }
    }

    /// Writes the cumuls of the schedule of a line that is chosen under a rule over those that are kept. There is one
    /// for each stop, in `0..=2^36`. `false` exactly if the line has no schedule; then, and after `NoMemory`, nothing
    /// is said of what is kept. The breaks are taken into account, and their starts are not looked for.
    pub fn choose(
        &mut self,
        alloc: Global,
        line: &Line,
        rule: ScheduleRule,
    ) -> Result<bool, NoMemory>
        requires sound { IsSoundLine line.now }
        ensures chosen { IfOk result (λ goes. AreChosenCumulsUnder rule line.now (then_some goes self.new)) }
        ensures stops { IfOk result (Goes (length self.new ≡ length line.now.allowed)) }
        ensures range { IfOk result (Goes (All (IsIn (pos 0) horizon) self.new)) }
    {
        let sound = SoundLine { line };
        match rule {
            ScheduleRule::Earliest => self.choose_earliest(alloc, sound),
            ScheduleRule::Tight => self.choose_tight(alloc, sound),
        }
    }

    // The tight cumuls: those that are least once the ends of the line are narrowed.
    fn choose_tight(&mut self, alloc: Global, sound: SoundLine<'_>) -> Result<bool, NoMemory>
        ensures chosen { IfOk result (λ goes.
            AreChosenCumulsUnder Tight sound.entry.line.now (then_some goes self.new)) }
        ensures stops { IfOk result (Goes (length self.new ≡ length sound.entry.line.now.allowed)) }
        ensures range { IfOk result (Goes (All (IsIn (pos 0) horizon) self.new)) }
    {
        let line = sound.line;
        self.sweep.forward(alloc, line)?;
        let ahead = self.sweep.levels(line.hops.len());
        let Some(narrow) = tight_line(alloc, sound, ahead)? else {
            return Ok(false);
        };
        let inner = SoundLine { line: &narrow };
        self.choose_earliest(alloc, inner)
    }

    // The cumuls that are least, compared from the start on.
    fn choose_earliest(&mut self, alloc: Global, sound: SoundLine<'_>) -> Result<bool, NoMemory>
        ensures chosen { IfOk result (λ goes. AreChosenCumuls sound.entry.line.now (then_some goes self.new)) }
        ensures stops { IfOk result (Goes (length self.new ≡ length sound.entry.line.now.allowed)) }
        ensures range { IfOk result (Goes (All (IsIn (pos 0) horizon) self.new)) }
    {
        let line = sound.line;
        self.sweep.backward(alloc, line)?;
        self.cumuls.truncate(0);
        settle(sound, &self.sweep, &mut self.scratch, &mut self.cumuls)
    }

    /// The cumuls that are kept. It takes no memory.
    pub fn cumuls(&self) -> &[i64]
        ensures { result.now ≡ self.now }
    {
        self.cumuls.as_slice()
    }

    // The cumuls that were kept. `chosen_cumuls` alone asks for them so, which tests alone ask.
    pub(crate) fn into_cumuls(self) -> Seq<i64>
        ensures { result ≡ self }
    {
        self.cumuls
    }
}
