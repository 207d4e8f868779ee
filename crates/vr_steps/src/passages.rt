//! What an arc with breaks inside asks of cumuls, and the sets that it leads to.

ghost use Rattle.std.specs.Prelude.{◌≡◌, ◌<◌, ◌≤◌, ◌↔◌, ◌⊎◌, ℤ, All, IsTrue, IsNone, IsSome, IfSome, OnOk, length};
ghost use Rattle.vr_model.specs.tables.WellFormed.{IsBreak};
ghost use Rattle.vr_spans.specs.Runs.{has, IsRun};
ghost use Rattle.vr_steps.specs.Arcs.{IsSoundHop};
ghost use Rattle.vr_steps.specs.Chains.{IsSmall};
ghost use Rattle.vr_steps.specs.Levels.{IsCumuls};
ghost use Rattle.vr_steps.specs.Passages.{HasWay, IsOpen, IsOver, IsPassage, LeadsNowhere, onward, upto};
ghost use Rattle.vr_steps.specs.Ways.{IsLedTo, IsOpenPass, pass_by};

use crate::Hop;
use crate::chains::Chain;
use crate::ways::Way;
use std::mem;
use vr_model::BreakRow;
use vr_model::limits::HORIZON;
use vr_spans::{NoMemory, Run, Spans};

// An arc with breaks inside it.
#[derive(Clone, Copy)]
pub(crate) struct HopOver<'r> {
    pub(crate) hop: Hop,
    pub(crate) rows: &'r [BreakRow],
    // It is an arc of a well-formed model.
    pub ghost sound: { IsSoundHop hop },
    // There is a break.
    pub ghost some: { 0 < length rows.now },
    // A vehicle has no more.
    pub ghost few: { length rows.now ≤ 8 },
    // They are breaks of a well-formed model.
    pub ghost breaks: { All IsBreak rows.now },
}

/// What an arc with certain breaks inside asks of the cumul `y` at its begin and the cumul `x` at its end:
/// `y <= until`, `from <= x`, and `y + least <= x <= y + greatest`.
#[derive(Clone, Copy, Debug, PartialEq, Eq)]
pub struct Passage {
    pub least: i64,
    pub greatest: i64,
    pub until: i64,
    pub from: i64,
}

// What a passage asks in one direction of the number `x` from which it leads and of the number `y` to which it leads:
// `x` lies in `out`, `y` in `into`, and `x + least <= y <= x + greatest`.
#[derive(Clone, Copy)]
pub(crate) struct Pass {
    out: Run,
    into: Run,
    least: i64,
    greatest: i64,
}

impl Passage {
    // The passage over the breaks; `None` only if the arc leads nowhere with them inside.
    fn of(over: &HopOver) -> Option<Passage>
        ensures some { IfSome result (IsPassage over.now.hop over.now.rows.now) }
        ensures none { IsNone result → LeadsNowhere over.now.hop over.now.rows.now }
    {
        let chain = Chain::of(over.rows)?;
        Passage::over(over.hop, chain)
    }

    // The passage over the breaks of a chain. It is `None` in exactly three cases, in which it leads nowhere:
    // - The breaks take more than visit and slack leave them.
    // - They have to begin before even a visit at 0 is over.
    // - They have to end beyond the horizon.
    fn over(hop: Hop, chain: Chain) -> Option<Passage>
        requires hop { IsSoundHop hop }
        requires small { IsSmall chain }
        ensures some { IsSome result ↔ HasWay hop chain }
        ensures value { IfSome result (IsOver hop chain) }
    {
        // breaks are taken out of the slack, beside the transit, and none begins before the visit is over
        let least = chain.total + hop.visit.max(hop.transit);
        let greatest = hop.transit + hop.slack;
        if least > greatest {
            return None;
        }
        if hop.visit > chain.latest {
            return None;
        }
        if chain.first_end > HORIZON {
            return None;
        }
        Some(Passage {
            least,
            greatest,
            until: HORIZON.min(chain.latest - hop.visit),
            from: chain.first_end.max(0),
        })
    }

    // The cumuls at which the arc may begin.
    fn begins(&self) -> Run
        requires open_way { IsOpen self.now }
        ensures exact { result ≡ upto self.now.until }
        ensures run { IsRun result }
    {
        Run {
            lo: 0,
            hi: self.until,
        }
    }

    // The cumuls at which it may end.
    fn ends(&self) -> Run
        requires open_way { IsOpen self.now }
        ensures exact { result ≡ onward self.now.from }
        ensures run { IsRun result }
    {
        Run {
            lo: self.from,
            hi: HORIZON,
        }
    }

    // What it asks in one direction.
    fn by(&self, way: Way) -> Pass
        requires open_way { IsOpen self.now }
        ensures exact { result ≡ pass_by way self.now }
        ensures open_pass { IsOpenPass result }
    {
        match way {
            Way::On => Pass {
                out: self.begins(),
                into: self.ends(),
                least: self.least,
                greatest: self.greatest,
            },
            Way::Back => Pass {
                out: self.ends(),
                into: self.begins(),
                least: -self.greatest,
                greatest: -self.least,
            },
        }
    }
}

// Sets that are written over while an arc with breaks is crossed. They have the numbers from which it may lead, and
// those to which it may. Then they have those to which it leads, and these together with what was found before.
#[derive(Drop)]
pub(crate) struct Scratch {
    left: Spans,
    right: Spans,
    image: Spans,
    whole: Spans,
}

impl Scratch {
    // Empty sets, with the allocator of this one. They take no memory.
    pub(crate) fn beside(set: &Spans) -> Scratch {
        Scratch {
            left: set.fresh(),
            right: set.fresh(),
            image: set.fresh(),
            whole: set.fresh(),
        }
    }

    // Adds those cumuls of `within` to `set` to which the arc leads from `from` with these breaks inside.
    pub(crate) fn add(
        &mut self,
        way: Way,
        from: &Spans,
        over: &HopOver,
        within: &Spans,
        set: &mut Spans,
    ) -> Result<(), NoMemory>
        requires from { IsCumuls from.now }
        requires within { IsCumuls within.now }
        ensures { OnOk result ((x : ℤ) →
            IsTrue (has set.new x) ↔ (IsTrue (has set.old x)
            ⊎ IsLedTo way from.now over.now.hop over.now.rows.now within.now x)) }
    {
        // to read one of the sets is to know that all are as they were if the arc leads nowhere
        let _ = &self.left;
        let Some(passage) = Passage::of(over) else {
            return Ok(());
        };
        let pass = passage.by(way);
        from.clip_into(pass.out, &mut self.left)?;
        within.clip_into(pass.into, &mut self.right)?;
        self.left
            .reach_into(pass.least, pass.greatest, &self.right, &mut self.image)?;
        set.union_into(&self.image, &mut self.whole)?;
        mem::swap(set, &mut self.whole);
        Ok(())
    }
}
