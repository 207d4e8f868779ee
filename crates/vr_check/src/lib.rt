//! The checker: whether a printed solution keeps every rule of its model. It says the first rule that is broken, or the
//! cost. If the first thing wrong is a visit on two routes, say, `Once` is broken. The answer has the vehicle and the
//! place of the later one.
//!
//! It shares with the search and its judges only what the records of `vr_model` answer themselves: no table that is
//! looked up beforehand or kept. Each rule is asked of the printed lists, plans and numbers themselves, one pass for
//! each. A pass is handed what its rule speaks of, the model and the solution or parts of them. It answers at which
//! spot the rule is broken first. No answer is kept for a later pass, and the first broken rule is the one given.
//! Printed cumuls, slacks, starts of breaks and costs may be any `i64`, so sums and differences of them are taken in
//! 128 bits.
//!
//! `vr_app` calls [`check`] for the words `check` and `spans`, and has the law that what is printed meets it.
//! `vr_given` asks the rules on active visits, pairs and vehicles of lists that were given, with no solution printed.
//! The check calls `vr_printed`, which reads the tree.
//!
//! Start at `checking`, which has the order of the rules, and at `finding`, which has their names and what is answered.
//! `printed` and `asked_line` are what they are asked of: routes and plans beside the model, and the line of a plan.
//! The rules come in this order:
//!
//! - the shape, which `vr_printed` asks as it reads;
//! - `lists`, on the nodes of routes, and `visits`, on which of them are active (`held` finds nodes in lists);
//! - `pairs`, on pairs, policies and allowed vehicles;
//! - `plans`, with their `breaks`;
//! - `numbers`: the parts, the cost and the limits.
//!
//! Each printed part is compared with its value. `costs` has arcs, fixed costs and penalties, `softs` what cumuls cost
//! above soft bounds, and `spans` what spans cost. `totals` has the sums over routes and plans. `laws` says what holds
//! if no rule is broken.
#![tactic(auto)]

mod asked_line;
mod breaks;
mod checking;
mod costs;
mod finding;
mod held;
pub mod laws;
mod lists;
mod numbers;
mod pairs;
mod plans;
mod printed;
mod softs;
mod spans;
mod totals;
mod visits;

pub use checking::check;
pub use finding::{Finding, Rule, Spot};
pub use pairs::{refused, wrong_pair, wrong_policy};
pub use visits::{missing, wrong_group};
