//! Soft upper bounds, spans and global spans: what they cost, and what a change of routes adds to it. These are the
//! parts of the cost that ask schedules. `PlanCost` has soft upper bounds and spans, route by route. `GlobalSpan` has
//! the span from the least start to the greatest end of all used vehicles, which `SortedEnds` sorts by both. The name
//! of the crate is that of OR-Tools, in which a filter reports the cost; nothing is refused here.
//!
//! Most changes are priced without a line and without a schedule, by the cumuls that are kept of committed routes
//! (`AllCumuls`). How far a changed route is walked depends on the schedule that its vehicle chooses:
//! - Earliest: at each stop the vehicle goes to the least cumul that the stop before and a floor leave. Floors are
//!   found from the end backwards. Floors and cumuls of the committed route are kept. A change is walked along what it
//!   puts in, and before and after that only until floors and cumuls are as they were.
//! - Tight: its two ends follow from a walk that waits for the begins of runs alone. The ways along the first visits of
//!   the committed route are kept, and what is left after each place: forward and backward data. Between its ends a
//!   tight schedule is an earliest one.
//! - Tight, and soft upper bounds may cost anything: floors and cumuls are kept too. If the route ends as it did, its
//!   start alone may be another. Then what was kept is met as soon as a cumul is as it was. If it ends at another
//!   cumul, the whole route is walked.
//!
//! A schedule is built only if what is kept does not tell:
//! - The vehicle has breaks, or some stop allows several runs of cumuls.
//! - It chooses its earliest schedule, and its committed route is empty and has none. (A vehicle that is not used needs
//!   none.)
//!
//! Then the changed route is written out. If it may cost anything, `vr_plan` finds its schedule. In dimensions in which
//! no route may cost anything, nothing is kept or asked.
//!
//! The invariant: what is kept is always of the committed routes (`AreAllKept`). Each part is in sync with them: what
//! it keeps of a route is what the definitions give its chosen schedule (`StandsPlans`, `StandsSpans`). Who changes
//! routes commits the change here first.
//!
//! `vr_judge` calls this crate, and adds all parts up. The trait of a part is from `vr_parts`, schedules are from
//! `vr_plan`. How early routes can end and how short their spans can be is from `vr_earliest`. The other parts are in
//! `vr_arccosts` (arc costs) and `vr_usecosts` (fixed costs, penalties of groups).
//!
//! Start reading at `plan_cost` and `kept`. In names and below, a route is a `list`:
//! - `plan_cost` asks `schedule_costs` what schedules cost. `global_span` asks `reaches`, which has the sorted ends of
//!   `orders` (over `order`).
//! - `kept` has all that is kept in one dimension, `all_cumuls` in all of them.
//! - `trails` has steps, which are stops with their floors. `guides` has what is looked up of a vehicle to go along
//!   them, and stages: how far it has come, and what it has paid.
//! - `with_guide` finds floors back along the visits that a vehicle gets. `steps` keeps the steps and the stages of a
//!   list, and tells what a change makes of them.
//! - `tight` has the way of a vehicle that waits for the begins of runs alone, and the two ends of a whole way. `rests`
//!   has what is left of a line, and `kept_ways` keeps ways and rests of a list.
//! - `changed_list` has a list that comes in the place of another, with the two ends of its tight schedule and the walk
//!   along it.
//! - `early_change` has how early the lists after a change can end and how short their spans can be. That bounds what a
//!   change costs at least; for global spans `spreads` does it.
//! - `tours` has the list of a vehicle, `parts_after` the list that a change gives it, and `scratch` what calls are
//!   lent.
#![tactic(auto)]

mod all_cumuls;
mod changed_list;
mod early_change;
mod global_span;
mod guides;
mod kept;
mod kept_ways;
mod order;
mod orders;
mod parts_after;
mod plan_cost;
mod reaches;
mod rests;
mod schedule_costs;
mod scratch;
mod spreads;
mod steps;
mod tight;
mod tours;
mod trails;
mod with_guide;

// `vr_judge` takes `PlanCost` and `GlobalSpan`, and the other parts from their own crates; all else is for tests alone.
pub use all_cumuls::{AllCumuls, Paid};
pub use global_span::GlobalSpan;
pub use parts_after::PartAfter;
pub use plan_cost::PlanCost;
pub use trails::Trail;
pub use vr_arccosts::ArcCost;
pub use vr_parts::CostPart;
pub use vr_usecosts::{FixedCost, GroupCost};
