//! The rules on breaks.

ghost use Rattle.std.proofs.Props.{props};
ghost use Rattle.std.specs.Prelude.{◌≡◌, ◌<◌, ◌+◌, length};
ghost use Rattle.vr_model.specs.schedules.Schedules as schedules;
ghost use Rattle.vr_model.specs.schedules.Schedules.{both_sides, break_at, break_end, break_start, break_time};
ghost use Rattle.vr_model.specs.deciding.ScheduleTests as schedule_tests;
ghost use Rattle.vr_check.specs.Asked.{asked_line};
ghost use Rattle.vr_check.specs.Plans as plans;
ghost use Rattle.vr_printed.specs.Printed.{plan_of};

use crate::plans::{cumul_at, slack_at};
use crate::printed::LinePlan;
use vr_model::BreakRow;

/// The breaks of a line as a plan takes them.
#[derive(Clone, Copy)]
pub(crate) struct Taken<'a> {
    pub(crate) of: LinePlan<'a>,
    pub(crate) rows: &'a [BreakRow],
    pub ghost rows_are: { rows.now ≡ (asked_line of.asked).breaks } by { Prim.hlevel props },
}

/// One of the breaks of a line, as a plan takes it.
#[derive(Clone, Copy)]
pub(crate) struct TakenBreak<'a> {
    pub(crate) taken: Taken<'a>,
    pub(crate) i: usize,
    pub ghost number: { i < length taken.rows.now },
}

impl TakenBreak<'_> {
    ghost use Rattle.vr_check.specs.Breaks as breaks;
    ghost use Rattle.vr_check.specs.Breaks.{plan_of_taken};

    // At which cumul the break starts.
    fn start(&self) -> i64
        ensures { result ≡ break_start (plan_of_taken self.now.taken) self.now.i }
    {
        *self.taken.of.plan.breaks.get(self.i)
    }

    // How long the break takes.
    fn duration(&self) -> i64
        ensures { result ≡ (break_at (asked_line self.now.taken.of.asked) self.now.i).duration }
    {
        let rows = self.taken.rows;
        rows[self.i].duration
    }

    // At which cumul the break ends.
    fn end(&self) -> i128
        ensures { result ≡ break_end (asked_line self.now.taken.of.asked) (plan_of_taken self.now.taken) self.now.i }
    {
        i128::from(self.start()) + i128::from(self.duration())
    }

    // Whether the break starts in its range.
    fn starts_in_range(&self) -> bool
        ensures { result
            ≡ plans.starts_in_range (asked_line self.now.taken.of.asked) (plan_of_taken self.now.taken) self.now.i }
    {
        let rows = self.taken.rows;
        let row = rows[self.i];
        row.from <= self.start() && self.start() <= row.to
    }

    // Whether the break lies inside an arc. It starts when the vehicle is free, after the visit from which the arc
    // leads, or later. It ends by the cumul of the next stop.
    fn is_inside(&self, k: usize) -> bool
        requires arc { k < length self.now.taken.of.plan.now.slacks }
        ensures { result
            ≡ schedules.is_inside (asked_line self.now.taken.of.asked) (plan_of_taken self.now.taken) self.now.i k }
    {
        let taken = self.taken;
        let free = i128::from(cumul_at(taken.of.plan, k)) + i128::from(taken.of.asked.visit(k));
        free <= i128::from(self.start()) && self.end() <= i128::from(cumul_at(taken.of.plan, k + 1))
    }

    // Whether the break lies inside some arc.
    fn is_inside_some(&self) -> bool
        ensures { result
            ≡ breaks.is_inside_some (asked_line self.now.taken.of.asked) (plan_of_taken self.now.taken) self.now.i }
    {
        for k in 0..self.taken.of.asked.arcs() {
            if self.is_inside(k) {
                return true;
            }
        }
        false
    }

    // Whether the break ends at or before the first stop.
    fn is_before(&self) -> bool
        ensures { result
            ≡ schedules.is_before (asked_line self.now.taken.of.asked) (plan_of_taken self.now.taken) self.now.i }
    {
        self.end() <= i128::from(cumul_at(self.taken.of.plan, 0))
    }

    // Whether the break starts at or after the last stop.
    fn is_after(&self) -> bool
        ensures { result ≡ schedules.is_after (asked_line self.now.taken.of.asked) (plan_of_taken self.now.taken)
            self.now.i }
    {
        let of = self.taken.of;
        cumul_at(of.plan, of.asked.arcs()) <= self.start()
    }

    // Whether the break lies before the first stop, after the last one, or inside an arc.
    fn is_placed(&self) -> bool
        ensures { result ≡ schedule_tests.is_placed both_sides (asked_line self.now.taken.of.asked)
            (plan_of_taken self.now.taken) self.now.i }
    {
        self.is_before() || self.is_after() || self.is_inside_some()
    }

    // How long the break lies inside an arc.
    fn time_inside(&self, k: usize) -> i64
        requires arc { k < length self.now.taken.of.plan.now.slacks }
        ensures { result
            ≡ breaks.time_inside (asked_line self.now.taken.of.asked) (plan_of_taken self.now.taken) k self.now.i }
    {
        if self.is_inside(k) {
            self.duration()
        } else {
            0
        }
    }
}

impl Taken<'_> {
    ghost use Rattle.vr_check.specs.Breaks.{plan_of_taken};

    // Whether a break ends at or before the start of the next one.
    fn ends_in_time(&self, i: usize) -> bool
        requires next { i + 1 < length self.now.rows.now }
        ensures { result ≡ plans.ends_in_time (asked_line self.now.of.asked) (plan_of_taken self.now) i }
    {
        let taken = *self;
        let here = TakenBreak { taken, i };
        let next = TakenBreak { taken, i: i + 1 };
        here.end() <= i128::from(next.start())
    }

    // The durations of the breaks inside an arc, added up.
    fn time(&self, k: usize) -> i128
        requires arc { k < length self.now.of.plan.now.slacks }
        ensures { result ≡ break_time (asked_line self.now.of.asked) (plan_of_taken self.now) k }
    {
        let mut total: i128 = 0;
        for i in 0..self.rows.len() {
            let one = TakenBreak { taken: *self, i };
            total += i128::from(one.time_inside(k));
        }
        total
    }

    // Whether the slack of an arc is enough for the breaks inside it.
    fn carries(&self, k: usize) -> bool
        requires arc { k < length self.now.of.plan.now.slacks }
        ensures { result ≡ plans.carries_breaks (asked_line self.now.of.asked) (plan_of_taken self.now) k }
    {
        self.time(k) <= i128::from(slack_at(self.of.plan, k))
    }

    // Whether each break starts in its range.
    fn all_in_range(&self) -> bool
        ensures { result ≡ plans.all_in_range (asked_line self.now.of.asked) (plan_of_taken self.now) }
    {
        for i in 0..self.rows.len() {
            let one = TakenBreak { taken: *self, i };
            if !one.starts_in_range() {
                return false;
            }
        }
        true
    }

    // Whether each break ends at or before the start of the next one.
    fn all_in_time(&self) -> bool
        ensures { result ≡ plans.all_in_time (asked_line self.now.of.asked) (plan_of_taken self.now) }
    {
        for i in 0..self.rows.len().saturating_sub(1) {
            if !self.ends_in_time(i) {
                return false;
            }
        }
        true
    }

    // Whether each break lies in a place that it may have.
    fn all_placed(&self) -> bool
        ensures { result ≡ plans.all_placed (asked_line self.now.of.asked) (plan_of_taken self.now) }
    {
        for i in 0..self.rows.len() {
            let one = TakenBreak { taken: *self, i };
            if !one.is_placed() {
                return false;
            }
        }
        true
    }

    // Whether each slack is enough for the breaks inside its arc.
    fn all_carried(&self) -> bool
        ensures { result ≡ plans.all_carried (asked_line self.now.of.asked) (plan_of_taken self.now) }
    {
        for k in 0..self.of.plan.slacks.len() {
            if !self.carries(k) {
                return false;
            }
        }
        true
    }

    // Whether all rules on breaks hold.
    fn are_right(&self) -> bool
        ensures { result ≡ plans.are_breaks_right (asked_line self.now.of.asked) (plan_of_taken self.now) }
    {
        self.all_in_range() && self.all_in_time() && self.all_placed() && self.all_carried()
    }
}

/// Whether breaks start in range, end in time, lie in places that they may have, and fit into the slacks.
pub(crate) fn are_breaks_right(of: &LinePlan<'_>) -> bool
    ensures { result ≡ plans.are_breaks_right (asked_line of.now.asked) (plan_of of.now.plan.now) }
{
    let taken = Taken {
        of: *of,
        rows: of.asked.breaks(),
    };
    taken.are_right()
}
