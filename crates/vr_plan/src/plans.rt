//! A schedule of a line, and the slacks that its cumuls leave.

ghost use Rattle.std.specs.Prelude.{◌≡◌, ◌<◌, suc, pos, All, IfOk, length};
ghost use Rattle.vr_model.specs.tables.Numbers.{horizon};
ghost use Rattle.vr_model.specs.tables.WellFormed.{IsIn};
ghost use Rattle.vr_steps.specs.Arcs.{IsSoundHop};
ghost use Rattle.vr_plan.specs.Plans.{AreSlacks};

use std::alloc::Global;
use vr_model::{NoMemory, Seq};
use vr_steps::Hop;

/// A schedule of a line: the cumul of each stop, the slack of each arc, and the start of each break. In OR-Tools these
/// are `RoutingDimension::CumulVar`, `RoutingDimension::SlackVar` and the break intervals.
#[derive(Drop)]
pub struct Plan {
    /// The cumul of each stop in `0..=2^36`: of the start, of each visit in order, and of the end.
    pub cumuls: Seq<i64>,
    /// The slack of each arc, from 0 to the greatest that the dimension lets: what its end has beyond its begin and the
    /// transit.
    pub slacks: Seq<i64>,
    /// The start of each break of the vehicle in order, in `0..=2^36`.
    pub breaks: Seq<i64>,
}

// The slacks that cumuls leave on arcs.
pub(crate) fn slacks_left(alloc: Global, hops: &[Hop], cumuls: &[i64]) -> Result<Seq<i64>, NoMemory>
    requires stops { length cumuls.now ≡ suc (length hops.now) }
    requires range { All (IsIn (pos 0) horizon) cumuls.now }
    requires hops { All IsSoundHop hops.now }
    ensures { IfOk result (AreSlacks hops.now cumuls.now) }
{
    let mut slacks = Seq::new(alloc);
    for k in 0..hops.len() {
        slacks.push(cumuls[k + 1] - cumuls[k] - hops[k].transit)?;
    }
    Ok(slacks)
}
