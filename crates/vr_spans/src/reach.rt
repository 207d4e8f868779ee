//! The numbers that a set leads to within another: meets, shifts, and ways of a length between two bounds.

ghost use Rattle.std.specs.Prelude.{◌≡◌, ◌↔◌, ◌&&◌, IsTrue, IfOk, OnOk, ℤ, pos, neg_ℤ, ◌-ℤ◌, ◌≤ℤ◌};
ghost use Rattle.vr_spans.specs.Runs.{has, in_run, IsNormal, IsRun, IsStretched, StaysWithin, farthest};
ghost use Rattle.vr_spans.specs.Build.{HasReached, IsWayNear};

use crate::{LIMIT, NoMemory, Run, Spans};

/// No way that `reach_into` takes is longer than this, in either direction. Contracts say so by `farthest`; no code
/// asks this number.
pub const FARTHEST: i64 = 1 << 60;

/// All numbers that a set may have.
const ALL: [Run; 1] = [Run {
    lo: -LIMIT,
    hi: LIMIT,
}];

impl Spans {
    /// The numbers in both sets. `vr_steps` asks it, for what a stop allows.
    pub fn meet(&self, other: &Spans) -> Result<Spans, NoMemory>
        ensures exact { IfOk result (λ both. (x : ℤ) → has both x ≡ (has self.now x && has other.now x)) }
        ensures normal { IfOk result (λ both. IsNormal both) }
    {
        let mut both = self.fresh();
        self.meet_into(other, &mut both)?;
        Ok(both)
    }

    /// Writes the numbers in both sets over `out`.
    pub fn meet_into(&self, other: &Spans, out: &mut Spans) -> Result<(), NoMemory>
        ensures exact { OnOk result ((x : ℤ) → has out.new x ≡ (has self.now x && has other.now x)) }
        ensures normal { IsNormal out.new }
    {
        out.reach(self.runs.as_slice(), 0, 0, other.runs.as_slice())
    }

    /// Writes the numbers of this set that lie in a run over `out`.
    #[inline]
    pub fn clip_into(&self, bounds: Run, out: &mut Spans) -> Result<(), NoMemory>
        requires { IsRun bounds }
        ensures exact { OnOk result ((x : ℤ) → has out.new x ≡ (has self.now x && in_run bounds x)) }
        ensures normal { IsNormal out.new }
    {
        out.reach(self.runs.as_slice(), 0, 0, &[bounds])
    }

    /// The set with every number moved by `by`; no number may leave `-LIMIT..=LIMIT`. Tests alone ask it. An arc is
    /// crossed by `reach_into`, which moves, widens and meets at once.
    pub fn shift(&self, by: i64) -> Result<Spans, NoMemory>
        requires { StaysWithin by by self.now }
        ensures exact { IfOk result (λ moved. (x : ℤ) → has moved x ≡ has self.now (x -ℤ by)) }
        ensures normal { IfOk result (λ moved. IsNormal moved) }
    {
        let mut moved = self.fresh();
        self.shift_into(by, &mut moved)?;
        Ok(moved)
    }

    /// Writes the set with every number moved by `by` over `out`; no number may leave `-LIMIT..=LIMIT`. Nobody but
    /// `shift` calls it.
    pub fn shift_into(&self, by: i64, out: &mut Spans) -> Result<(), NoMemory>
        requires { StaysWithin by by self.now }
        ensures exact { OnOk result ((x : ℤ) → has out.new x ≡ has self.now (x -ℤ by)) }
        ensures normal { IsNormal out.new }
    {
        out.reach(self.runs.as_slice(), by, by, &ALL)
    }

    /// Every number of the set plus each number from 0 to `by`, which is not negative. None may leave `-LIMIT..=LIMIT`.
    /// Tests alone ask it.
    pub fn grow(&self, by: i64) -> Result<Spans, NoMemory>
        requires rises { pos 0 ≤ℤ by }
        requires within { StaysWithin (pos 0) by self.now }
        ensures exact { IfOk result (λ grown. (x : ℤ) → IsTrue (has grown x) ↔ IsStretched (pos 0) by self.now x) }
        ensures normal { IfOk result (λ grown. IsNormal grown) }
    {
        let mut grown = self.fresh();
        self.grow_into(by, &mut grown)?;
        Ok(grown)
    }

    /// Writes every number of the set plus each number from 0 to `by` over `out`, as `grow` answers it, which alone
    /// calls it.
    pub fn grow_into(&self, by: i64, out: &mut Spans) -> Result<(), NoMemory>
        requires rises { pos 0 ≤ℤ by }
        requires within { StaysWithin (pos 0) by self.now }
        ensures exact { OnOk result ((x : ℤ) → IsTrue (has out.new x) ↔ IsStretched (pos 0) by self.now x) }
        ensures normal { IsNormal out.new }
    {
        out.reach(self.runs.as_slice(), 0, by, &ALL)
    }

    /// Writes those numbers of `within` over `out` that are a number of this set plus one from `first` to `last`. From
    /// 1, 2 and 9 with `first` 3 and `last` 4, these are 4, 5, 6, 12 and 13, if `within` has them.
    ///
    /// This is one pass over the runs of both sets. `first` and `last` lie in `-FARTHEST..=FARTHEST`, so the sums may
    /// lie beyond `LIMIT`. `vr_steps` crosses arcs by it.
    pub fn reach_into(
        &self,
        first: i64,
        last: i64,
        within: &Spans,
        out: &mut Spans,
    ) -> Result<(), NoMemory>
        requires in_order { first ≤ℤ last }
        requires from { neg_ℤ farthest ≤ℤ first }
        requires to { last ≤ℤ farthest }
        ensures exact { OnOk result ((x : ℤ) →
            IsTrue (has out.new x) ↔ (IsTrue (has within.now x) × IsStretched first last self.now x)) }
        ensures normal { IsNormal out.new }
    {
        out.reach(self.runs.as_slice(), first, last, within.runs.as_slice())
    }

    /// Makes this the set of the numbers that the runs of `from`, stretched by `first` and `last`, share with those of
    /// `within`.
    #[inline(always)]
    fn reach(&mut self, from: &[Run], first: i64, last: i64, within: &[Run]) -> Result<(), NoMemory>
        requires from { IsNormal from.now }
        requires within { IsNormal within.now }
        requires way { IsWayNear first last from.now }
        ensures exact { OnOk result (HasReached first last from.now within.now self.new) }
        ensures normal { IsNormal self.new }
    {
        // of one run each it is one meet, and no run need be held back
        if from.len() == 1 && within.len() == 1 {
            return self.put(from[0].stretch(first, last).meet(within[0]));
        }
        self.reach_by_run(from, first, last, within)
    }

    /// As `reach`, for any number of runs.
    #[inline(never)]
    fn reach_by_run(
        &mut self,
        from: &[Run],
        first: i64,
        last: i64,
        within: &[Run],
    ) -> Result<(), NoMemory>
        requires from { IsNormal from.now }
        requires within { IsNormal within.now }
        requires way { IsWayNear first last from.now }
        ensures exact { OnOk result (HasReached first last from.now within.now self.new) }
        ensures normal { IsNormal self.new }
    {
        self.clear();
        let mut held = None;
        let mut left = from;
        let mut right = within;
        'pass: while !left.is_empty() && !right.is_empty() {
            let reached = left[0].stretch(first, last);
            let bound = right[0];
            held = self.push_behind(held, reached.meet(bound))?;
            // the one that ends first is left: what a later run of the other set shares with it, this one shared too
            if reached.hi <= bound.hi {
                left = &left[1..];
            } else {
                right = &right[1..];
            }
        }
        self.push_held(held)
    }
}
