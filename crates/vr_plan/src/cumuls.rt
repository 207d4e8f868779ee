//! The cumuls of the chosen schedule, stop by stop.

ghost use Rattle.std.specs.Prelude.{◌≡◌, ◌<◌, [], pos, false, IfOk, IfSome, IsNone, OnOk};
ghost use Rattle.vr_model.specs.tables.Numbers.{horizon};
ghost use Rattle.vr_model.specs.tables.WellFormed.{IsIn};
ghost use Rattle.vr_steps.specs.Levels.{AreLevels, IsCumuls};
ghost use Rattle.vr_reach.specs.Rows.{AreBackward};
ghost use Rattle.vr_plan.specs.Settled.{IsOnly, IsSettled, HaveChosenCumuls, IsUnfeasible, Goes};

use crate::sound::SoundLine;
use std::alloc::Global;
use std::mem;
use vr_model::{NoMemory, Seq};
use vr_reach::{Sweep, least_shared};
use vr_spans::{Run, Spans};
use vr_steps::{Levels, Way, cross_uncounted, start_levels_into};

// Sets that are written over while cumuls are settled. They have the settled cumul alone, and what is reached from it
// at this stop and at the next one.
#[derive(Drop)]
pub(crate) struct Scratch {
    only: Spans,
    here: Levels,
    next: Levels,
}

impl Scratch {
    // Empty sets. They take no memory.
    pub(crate) fn new(alloc: Global) -> Scratch {
        Scratch {
            only: Spans::new(alloc),
            here: Levels::new(alloc),
            next: Levels::new(alloc),
        }
    }
}

// The cumuls of the chosen schedule of a line, by what its end is reached from; `None` exactly if the line has no
// schedule.
pub(crate) fn settled_cumuls(
    alloc: Global,
    sound: SoundLine<'_>,
    behind: &Sweep,
) -> Result<Option<Seq<i64>>, NoMemory>
    requires behind { AreBackward sound.line.now behind.now }
    ensures some { IfOk result (λ found. IfSome found (HaveChosenCumuls sound.entry.line.now)) }
    ensures none { IfOk result (λ found. IsNone found → IsUnfeasible sound.entry.line.now) }
{
    let mut scratch = Scratch::new(alloc);
    let mut cumuls = Seq::new(alloc);
    let goes = settle(sound, behind, &mut scratch, &mut cumuls)?;
    Ok(goes.then_some(cumuls))
}

// Settles the cumul of the start: the least that schedules have there. Answers whether there is a schedule.
fn begin(
    sound: SoundLine<'_>,
    behind: &Sweep,
    only: &mut Spans,
    here: &mut Levels,
    cumuls: &mut Seq<i64>,
) -> Result<bool, NoMemory>
    requires behind { AreBackward sound.line.now behind.now }
    requires none { cumuls.old ≡ [] }
    ensures settled { IfOk result (Goes (IsSettled sound.entry.line.now 0 cumuls.new here.new)) }
    ensures levels { IfOk result (Goes (AreLevels sound.entry.line.now.breaks here.new)) }
    ensures stops { IfOk result (λ goes. goes ≡ false → IsUnfeasible sound.entry.line.now) }
{
    let line = sound.line;
    let allowed = line.allowed.get(0);
    start_levels_into(allowed, &line.breaks, here)?;
    let Some(first) = least_shared(here, behind.levels(0)) else {
        return Ok(false);
    };
    keep(allowed, first, only)?;
    start_levels_into(only, &line.breaks, here)?;
    cumuls.push(first)?;
    Ok(true)
}

// Settles the cumul of each stop, one after another: the least that schedules with the cumuls before it have there.
// Answers whether there is a schedule, which the start tells already. Each arc is crossed twice. The first time it is
// to all that the stop allows, for the least of it. The second time it is to this cumul alone, from which it goes on.
pub(crate) fn settle(
    sound: SoundLine<'_>,
    behind: &Sweep,
    scratch: &mut Scratch,
    cumuls: &mut Seq<i64>,
) -> Result<bool, NoMemory>
    requires behind { AreBackward sound.line.now behind.now }
    requires none { cumuls.old ≡ [] }
    ensures settled { IfOk result (Goes (HaveChosenCumuls sound.entry.line.now cumuls.new)) }
    ensures stops { IfOk result (λ goes. goes ≡ false → IsUnfeasible sound.entry.line.now) }
{
    let line = sound.line;
    let Scratch { only, here, next } = scratch;
    if !begin(sound, behind, only, here, cumuls)? {
        return Ok(false);
    }
    for k in 0..line.hops.len() {
        let hop = *line.hops.get(k);
        let allowed = line.allowed.get(k + 1);
        cross_uncounted(Way::On, here, hop, allowed, &line.breaks, next)?;
        let Some(least) = least_shared(next, behind.levels(k + 1)) else {
            return Ok(false);
        };
        keep(allowed, least, only)?;
        cross_uncounted(Way::On, here, hop, only, &line.breaks, next)?;
        mem::swap(here, next);
        cumuls.push(least)?;
    }
    Ok(true)
}

// Writes those of the allowed cumuls that are `x` over `only`.
pub(crate) fn keep(allowed: &Spans, x: i64, only: &mut Spans) -> Result<(), NoMemory>
    requires cumul { IsIn (pos 0) horizon x }
    requires allowed { IsCumuls allowed.now }
    ensures exact { OnOk result (IsOnly allowed.now x only.new) }
    ensures cumuls { OnOk result (IsCumuls only.new) }
{
    if allowed.clip_into(Run { lo: x, hi: x }, only).is_err() {
        return Err(NoMemory);
    }
    Ok(())
}
