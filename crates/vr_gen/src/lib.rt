//! The generator of test models: a model for each number. Its nodes are at drawn places of a square. Node 0 is the
//! depot of six vehicles, and the others are customers, each with a window and a load.
//!
//! The model of a number is always the same. Its numbers are drawn one after another from a defined stream (`draws`,
//! over `rand_pcg`): first the place of each node, then the windows and loads. The tree is built from them (`trees`).
//! The law of `laws` says that each such tree is read as a model with a first solution.
//!
//! The words `generate` and `demo` of `vr_app` and tests call it. `vr_strings` draws by the same stream. This crate
//! builds trees by `vr_json`.
//!
//! Read `draws` first, then `trees`.
#![tactic(auto)]

mod draws;
pub mod laws;
mod trees;

pub use draws::{Customer, Site, draw, words_of};
pub use trees::generate;
