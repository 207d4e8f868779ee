//! The judge of moves that looks only at what a move changes: filters of the rules, and parts of the cost. `filters`
//! makes one filter of all those of a model, those first that ask least (`ranks`). Its rule is that lists of the model
//! are valid. `costs` adds up the parts of the cost. `judging` judges by any filter of that rule and by the costs.
//! `judge` is that over the filters of a model, in one box. Filters and costs are opened together (`try_both`).
//!
//! Invariant (`IsJudging`): filters and costs are in sync with the same valid lists of the model, those of the routes
//! that the judge is handed. It keeps no lists, and the change of a move is lent to it. A commit makes all of them
//! ready before it changes one.
//!
//! `vr_app` opens a judge for each search. Searches ask it for lower bounds of runs of moves and of moves, and then
//! have moves judged and made (`vr_routes::Judge`). Path neighbourhoods have no moves, and ask no bounds of theirs.
//!
//! Start reading at the way down from a tried move: first its lower bound, and if that may be taken, what the judge
//! says.
//!
//! - `least_difference` (`judge`): `Costs::least`, part after part. Soft bounds and spans are bounded without a
//!   schedule (`Earliest::write_after` of `vr_earliest`).
//! - `judge_change` (`judge`): hands the change to the filters and the costs.
//! - `judge_by` (`judging`): refused by the filters, or what is added to the cost.
//! - `passes` (`vr_filter`): `Both` filters, and `Each` of several. Of a dimension it is `DimensionFilter::passes`
//!   (`vr_pathfilters`), by `Loads::can_carry` (`vr_loads`) or along walks (`vr_reach::passes_along`).
//! - `difference` (`costs`): part after part. Soft bounds and spans come from `PlanCost` (`vr_costfilter`), by what is
//!   kept of the committed lists, or else by a schedule (`vr_plan::timing_of`).
#![tactic(auto)]

mod costs;
mod filters;
mod judge;
mod judging;
mod ranks;
mod try_both;

pub use filters::{Filters, filters_of};
pub use judge::FilterJudge;
