//! Filters that judge a change of routes by what it changes: feasible lines, allowed vehicles, groups, pairs. A change
//! keeps both ends of a list. They look at the stretch between these, and at the nodes that come into the list or go
//! from it. A vehicle's list is its route without start and end.
//!
//! A filter is always in sync with the committed lists: its rule holds of them, and what it keeps is of them. Rows are
//! made when a filter is opened or a change made ready. Sums of loads and counts of turns are written over by the
//! commit, which takes no memory. A question writes nothing that is kept of committed lists.
//!
//! `vr_judge` opens the filters of a model and asks them of each move that it judges, those first that ask least. Below
//! are `vr_reach` (rows of lists), `vr_loads` (sums of loads) and `vr_balance` (the nodes that come and go).
//!
//! Start reading at `dimensions`, the filter of the lines of one dimension. Of a load it keeps what vehicles take along
//! their lists (`loads`), of any other dimension the rows of the lists (`list_rows`). Then come:
//!
//! - `vehicles` and `pairs` have rules that each list keeps by itself; `lists` makes filters of these.
//! - Pairs are asked of the list after a change (`new_lists`), which is not joined for that. Counts tell whether they
//!   keep the policy of a vehicle (`policies`).
//! - `parts` writes out what a change puts between the ends that it keeps of a list.
//! - `groups` asks the groups of the nodes in the pieces that come and go.
#![tactic(auto)]

mod dimensions;
mod groups;
mod list_rows;
mod lists;
mod loads;
mod new_lists;
mod pairs;
mod parts;
pub mod policies;
mod vehicles;

pub use dimensions::DimensionFilter;
pub use groups::GroupFilter;
pub use pairs::PairFilter;
pub use vehicles::VehicleFilter;
