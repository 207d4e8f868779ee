//! Tests of filters, parts of the cost, judges and searches. What contracts say of them is proved and not tested again.
//! No contract can say that memory is left, so a row for each call shows that it answers otherwise. The rest is what no
//! contract says: what is known without a schedule being looked for, and how often a search asks a judge.
//!
//! The tests have a crate of their own, so that the crates that they test are proved once. Start at `questions`. It
//! owns the model and the routes of each row, and lends them to the function that owns the one thing that the row asks.
#![tactic(auto)]

#[cfg(test)]
mod cuts;
#[cfg(test)]
mod filters;
#[cfg(test)]
mod judge_questions;
#[cfg(test)]
mod judges;
#[cfg(test)]
mod kept;
#[cfg(test)]
mod models;
#[cfg(test)]
mod parts;
#[cfg(test)]
mod questions;
#[cfg(test)]
mod scans;
#[cfg(test)]
mod searches;
#[cfg(test)]
mod stopped;
