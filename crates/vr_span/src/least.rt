//! The least span of a line, and its schedule.

ghost use Rattle.std.specs.Prelude.{◌≡◌, [], IfOk, IfSome, IsNone, pos};
ghost use Rattle.vr_model.specs.tables.Numbers.{horizon};
ghost use Rattle.vr_model.specs.tables.WellFormed.{IsIn};
ghost use Rattle.vr_steps.specs.Lines.{IsSoundLine};
ghost use Rattle.vr_plan.specs.Settled.{IsUnfeasible};
ghost use Rattle.vr_span.specs.Spans.{IsChosenBetween, IsFirstPlan, IsLeastSpanOf, IsReachedSpan};
ghost use Rattle.vr_span.specs.Starts.{IsShortestWay};

use crate::crossing::pieces_at_end;
use crate::pieces::Piece;
use crate::shortest::shortest;
use std::alloc::Global;
use vr_model::{NoMemory, ScheduleRule};
use vr_plan::{Plan, pin, same_line, schedule};
use vr_steps::Line;

/// The least span of a line, and the schedule that has it.
#[derive(Drop)]
pub struct Least {
    /// The cumul of the end less that of the start, in the unit of the dimension. It may be negative if transits are.
    pub span: i64,
    /// Of the schedules of this span the one whose cumuls, compared from the start on, are least.
    pub plan: Plan,
}

/// The least span of a sound line without breaks, over all its schedules. The plan is, of the schedules of this span,
/// the one whose cumuls, compared from the start on, are least. A line is sound if it is that of a well-formed model
/// and a list of distinct visits, one at least. `None` exactly if the line has no schedule; `NoMemory` if it is out of
/// memory.
pub fn span(alloc: Global, line: &Line) -> Result<Option<Least>, NoMemory>
    requires sound { IsSoundLine line.now }
    requires no_breaks { line.now.breaks ≡ [] }
    ensures reached { IfOk result (λ found. IfSome found (IsReachedSpan line.now)) }
    ensures least { IfOk result (λ found. IfSome found (IsLeastSpanOf line.now)) }
    ensures first { IfOk result (λ found. IfSome found (IsFirstPlan line.now)) }
    ensures none { IfOk result (λ found. IsNone found → IsUnfeasible line.now) }
{
    let Some(way) = shortest_way(alloc, line)? else {
        return Ok(None);
    };
    // `None` does not come: the two ends are those of a schedule
    let Some(plan) = schedule_between(alloc, line, way.first, way.lo)? else {
        return Ok(None);
    };
    Ok(Some(Least {
        span: way.lo - way.first,
        plan,
    }))
}

// A piece whose first start and first cumul are the ends of a schedule of the least span, of these the one that starts
// first; `None` exactly if the line has no schedule.
fn shortest_way(alloc: Global, line: &Line) -> Result<Option<Piece>, NoMemory>
    requires sound { IsSoundLine line.now }
    requires no_breaks { line.now.breaks ≡ [] }
    ensures some { IfOk result (λ found. IfSome found (IsShortestWay line.now)) }
    ensures none { IfOk result (λ found. IsNone found → IsUnfeasible line.now) }
    ensures cumul { IfOk result (λ found. IfSome found (λ way. IsIn (pos 0) horizon way.lo)) }
    ensures start { IfOk result (λ found. IfSome found (λ way. IsIn (pos 0) horizon way.first)) }
{
    let pieces = pieces_at_end(alloc, line)?;
    Ok(shortest(pieces.as_slice()))
}

// The chosen schedule of the line whose start allows `start` alone, and whose end `end`; `None` exactly if there is
// none.
fn schedule_between(
    alloc: Global,
    line: &Line,
    start: i64,
    end: i64,
) -> Result<Option<Plan>, NoMemory>
    requires sound { IsSoundLine line.now }
    requires start { IsIn (pos 0) horizon start }
    requires end { IsIn (pos 0) horizon end }
    ensures { IfOk result (IsChosenBetween line.now start end) }
{
    let mut narrow = same_line(alloc, line)?;
    pin(alloc, &mut narrow, line.hops.len(), end)?;
    pin(alloc, &mut narrow, 0, start)?;
    schedule(alloc, &narrow, ScheduleRule::Earliest)
}
