//! The reading of a routing model from its JSON form, in format 1 or 2. What cannot be read is refused, with a code and
//! a path: a model whose first vehicle has no `start`, say, with the path `/vehicles/0/start`.
//!
//! What is read is well formed, the one condition of all crates above (`laws`). Each table is a reader that follows its
//! definition in `specs/` line by line. The order of the lines is the order of the faults, and the first fault is the
//! answer.
//!
//! `vr_app`, `vr_bench` and tests call `read_model`; `vr_gen` shows that it accepts what is generated. This crate calls
//! `vr_json`.
//!
//! Start at `model`, which goes through the fields:
//!
//! - the number of the format (`formats`);
//! - `matrices`, and `vehicles`, which also has the reader of a visit that later tables ask;
//! - `dimensions`, with the rows of stops and the breaks (`stop_rows`);
//! - `groups`, with pairs and allowed vehicles;
//! - the search (`searches`).
//!
//! What is then there is `tabled`, and `model_rules` asks the rules on the whole of it: costs and entries, and whether
//! a dimension goes `backward`. For savings it asks whether vehicles are `alike`. Most files of `specs/` are named as
//! those here. These are not:
//!
//! - The definition of a matrix is in `specs/Vehicles`.
//! - Those of groups, pairs and allowed vehicles are in `specs/Visits`.
//! - That of the rules on a whole model is in `specs/Rules`.
//! - What is known of what is `tabled` is in `specs/ModelParts`.
#![tactic(auto)]

mod alike;
mod backward;
mod dimensions;
mod formats;
mod groups;
pub mod laws;
mod matrices;
mod model;
mod model_rules;
mod searches;
mod stop_rows;
mod tabled;
mod vehicles;

pub use dimensions::DimensionTable;
pub use formats::{Format, FormatNumber};
pub use groups::{AllowedTable, GroupTable, PairTable};
pub use model::read_model;
pub use searches::{NeighbourhoodTable, SearchTable};
pub use stop_rows::{StopTable, VehicleBreaksTable};
pub use vehicles::{VehicleTable, Visit};
