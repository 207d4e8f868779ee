//! Dimensions that are loads. Sums that are kept of the committed lists tell whether a vehicle can carry what it takes
//! along a list. Each piece of a change takes one subtraction, if it is of a vehicle with the same evaluator.
//!
//! A dimension is a load (`kind`) if it has no slack, no rows of stops and no breaks. Besides, its evaluators give
//! values of nodes alone, none of them negative. Then no cumul of a line is greater than the last. So a list with a
//! visit has a schedule exactly if what its vehicle takes, at its start and along it, fits the capacity (`laws`). With
//! capacity 10 and 2 at the start, visits that take 3 and 5 fit; one more that takes 1 does not.
//!
//! Invariant: the sums of each vehicle are those of its committed list, up to each of its nodes.
//!
//! The filter of a dimension (`vr_pathfilters`) asks the sums if the dimension is a load. `vr_judge` and `vr_ruin` ask
//! which dimensions are loads; `vr_judge` puts their filters in front of those of other dimensions. This crate uses
//! `vr_balance` for sums, and `vr_routes`.
//!
//! Read `kind` first, then `loads`, which has the sums of each vehicle written by `sums`.
#![tactic(auto)]

mod kind;
pub mod laws;
mod loads;
mod sums;

pub use kind::is_load;
pub use loads::Loads;
