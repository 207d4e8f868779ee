//! Ruin and recreate of paths (path LNS in OR-Tools). A cut takes a chain of visits out of a route (ruin), and with
//! each of them the other node of its pair (`leaving`). Then unplaced items are inserted anew, as long as one can be
//! (recreate). A cut is acceptable if what it leaves is open, and what that is rebuilt to is valid and costs less.
//!
//! Invariant between cuts: the routes hold valid lists, whose cost is known. What the definition tells of the whole
//! search is what was told already, and after that what it tells of the search from here. By `laws` the last lists cost
//! no more than the first.
//!
//! `vr_app` calls [`lns_over`]. Who rebuilds is handed in ([`Rebuild`], in `rebuilding`), so the crate does not depend
//! on the construction that inserts items. The search lets it know the model once, so that it may keep what it finds of
//! lists from cut to cut. It is asked once for each cut that leaves open lists, no more often than the limit allows
//! tries.
//!
//! Start reading at `searching`: a search is round after round. A round (`rounds`) tries the cuts of all lists, by
//! vehicle and place, each by `cutting`, up to the first that is acceptable. The routes then take its result over
//! (`cutter`). After each round tries and solutions are counted, and the watchers are told of a cut that was made
//! (`standing`). The next round begins with the first cut again.
#![tactic(auto)]

mod cutter;
mod cutting;
mod laws;
mod leaving;
mod rebuilding;
mod rounds;
mod searching;
mod standing;

pub use cutting::Cut;
pub use laws::{path_lns_bound_unmet, path_lns_is_sound};
pub use rebuilding::Rebuild;
pub use searching::{lns, lns_over};
pub use vr_model::Limit;
