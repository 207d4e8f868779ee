//! What watches a search. Each event of it is told to each watcher in order, and watchers report.
//!
//! What a watcher means is the report that it would give after further events. A watcher may run out of memory, and
//! then the search ends; those in front of it have been told the event.
//!
//! `vr_cli` and `vr_refine` make a `Tally` and a `Trace`, searches (`vr_descent`, `vr_guided`, `vr_lns`, `vr_tabu`,
//! `vr_ruin`) call `note_all` for each event, and `vr_app` prints the reports. Events are of `vr_model`.
//!
//! Read `watchers` first, which has the trait. `all` tells an event to each watcher (`note_all`). There are three
//! watchers:
//!
//! - `Tally` (`counting`) counts events;
//! - `Trace` (`tracing`) keeps each and reports it as a line of its own. `texts` has the lines of both.
//! - `Stopper` (`stopping`) takes some events and refuses the next, for tests alone.
#![tactic(auto)]

mod all;
mod counting;
mod stopping;
mod texts;
mod tracing;
mod watchers;

pub use all::note_all;
pub use counting::Tally;
pub use stopping::Stopper;
pub use tracing::Trace;
pub use vr_model::{Event, Kind};
pub use watchers::Watch;
