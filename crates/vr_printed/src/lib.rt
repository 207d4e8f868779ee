//! A printed solution, read from its tree into plain records. What is read is as the tree says it.
//!
//! A tree has the right shape if it has the fields, kinds, words and lengths of a solution's text for its model. Only
//! such a tree is read.
//!
//! `vr_check` reads by this crate, and asks whether what is read keeps the rules of the model. `vr_app` reads a
//! solution that was checked so again, for `spans`. This crate reads by the tables of `vr_json`.
//!
//! Read `printed` first, which has the records. Then:
//!
//! - `tables` reads the fields of a solution, its routes and their plans into them;
//! - `shape` asks for the vehicles and dimensions of the model in order, and for the lengths;
//! - `lists` takes the visits out of the routes that were read.
#![tactic(auto)]

mod lists;
mod printed;
mod shape;
mod tables;

pub use lists::printed_lists;
pub use printed::{Printed, PrintedPlan, PrintedRoute};
pub use shape::read_printed;
