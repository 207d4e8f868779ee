//! What is asked of one list by itself, and what is looked up once of each node. Of a list it is each node's place, and
//! whether its pairs are served in order and as the policy of the vehicle asks. The list 7, 3, 9 serves a pair that is
//! picked up at 7 and delivered at 9. It does not serve one from 9 to 3.
//!
//! `NodeTables` (`nodes`) has the group and the pair of each node and the vehicles that may visit it, as rows that a
//! node points into. `keeps_pairs` (`pairs`) writes down the place of each node in a list (`places`), over room that
//! the caller lends. Then it compares the two places of each pair, and under a policy those of two pairs.
//!
//! Invariant: the tables are those of one model, which no call changes. Contracts see that model in place of them.
//!
//! Who calls it: `vr_rules` asks both, and `vr_first_insert` whether pairs are kept. `vr_first_savings`, `vr_lns` and
//! the filters of vehicles and pairs (`vr_pathfilters`) ask the tables; those filters tell by other means whether pairs
//! are kept. The filter of groups asks `group_numbers` alone. `vr_plan::Lookups` opens `NodeTables` once in a run, and
//! `vr_plan` looks up the place of each visit's row by `write_places`.
//!
//! Begin with `keeps_pairs` at the end of `pairs`.
#![tactic(auto)]

mod nodes;
mod pairs;
mod places;

pub use nodes::{NodeTables, group_numbers};
pub use pairs::{PairPlaces, keeps_pairs};
pub use places::write_places;
