//! The text of a solution: its tree, and its line. It has the routes with their schedules, the six parts of the cost
//! and the report of the search.
//!
//! The tree is the definition's, field by field. The routes are valid, so the list of each used vehicle has a chosen
//! schedule in each dimension. It is looked for anew here (`vr_plan::schedule`), by the rule of its vehicle.
//!
//! `vr_app` and `vr_refine` print by it; `vr_printed` reads such a tree again. It uses `vr_plan` for schedules,
//! `vr_rules` for the cost and `vr_json` for trees.
//!
//! Read `solution` first, which puts the tree together and makes its line. Then:
//!
//! - `routes` has the nodes of each route with its plans, and the visits that are dropped;
//! - `plans` prints schedules, and `leaves` texts and arrays of numbers.
#![tactic(auto)]

mod leaves;
mod plans;
mod routes;
mod solution;

pub use leaves::wholes;
pub use solution::{solution_line, solution_line_over, solution_tree, solution_tree_over};
