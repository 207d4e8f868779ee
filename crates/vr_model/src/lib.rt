//! The records of a routing model, and the definitions that every layer above cites.
//!
//! A model is plain records of whole numbers, as a file gives them (`records`). A look-up is at the smallest record
//! that answers it (`lookups`). Beside the code, `specs/` has the definitions that several crates cite:
//!
//! - which lists are open and valid, which schedule a line chooses, and what routes cost;
//! - what each move makes of lists;
//! - what first solutions, descents and guided search are. (`vr_tabu` defines tabu search, `vr_lns` path
//!   neighbourhoods.)
//!
//! All above holds of models that are well formed: each number is in its range (`limits`), each index in its table.
//! `Closed` is such a model as a value (`closed`). Contracts see `Seq` as a list, `Text` as bytes and `Steps` as a
//! number.
//!
//! All crates use it but `vr_io` and `vr_spans`; it uses none. `vr_read` makes models of what a file says.
//!
//! Read `records` first, then `specs/`; `laws` says what follows from these. `neighbours` has the neighbourhoods that a
//! model names, and the moves of each. `search` has the limits and the lambda of a search, and the events that it
//! tells. The rest is what records and crates above are made of:
//!
//! - lists (`Seq`, in `sequence`) and texts (`Text`, in `words`);
//! - a counter of steps (`Steps`, in `steps`), and the error of being out of memory (`memory`).
#![tactic(auto)]

mod closed;
pub mod laws;
pub mod limits;
mod lookups;
mod memory;
mod neighbours;
mod records;
mod search;
mod sequence;
mod steps;
mod words;

pub use closed::Closed;
pub use memory::NoMemory;
pub use neighbours::{Move, Neighbourhood, Owner};
pub use records::{
    Allowed, BreakRow, Dimension, End, Evaluator, First, Group, Improve, Interval, Matrix, Model,
    Pair, Parts, Policy, Report, ScheduleRule, SearchRow, Soft, StopRow, Vehicle, VehicleBreaks,
};
pub use search::{Event, Kind, Lambda, Limit};
pub use sequence::Seq;
pub use steps::Steps;
pub use words::Text;
