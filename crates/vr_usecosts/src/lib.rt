//! Cost terms that ask which vehicles and which nodes are used, and not in what order. They are the fixed costs of used
//! vehicles (`fixed`), and the penalties of groups (`groups`).
//!
//! `fixed` keeps nothing of the routes: it tells what a route costs a vehicle by whether it has visits. `groups` keeps
//! what each node saves if it is active, and what is to pay at the committed routes. So a change is known by the nodes
//! that it brings in and takes out. An example: a group with the penalty 50 lacks two nodes, and pays 100. A move that
//! makes one of its nodes active saves 50.
//!
//! The invariant of `groups`: what is kept of nodes is of the model, and what is to pay is that of the committed routes
//! (`StandsGroups`). Fixed costs are in sync with any valid routes (`StandsFixed`).
//!
//! `vr_judge` adds both to the cost. If arcs and penalties alone are paid, it asks the penalties what each move of a
//! run saves at most. What a change brings in and takes out is from `vr_balance`, the trait of a part of the cost from
//! `vr_parts`.
//!
//! Start reading at `fixed`, which is short; then go to `GroupCost` in `groups`.
#![tactic(auto)]

mod fixed;
mod groups;

pub use fixed::FixedCost;
pub use groups::GroupCost;
