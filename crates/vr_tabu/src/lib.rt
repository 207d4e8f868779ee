//! Tabu search in whole numbers, over any judge of moves. Each round (`rounds`) tries all moves of the lists and makes
//! the best one that may be made, even if it costs more. The visits that it changes are then tabu for some rounds
//! (`tabu_list`): those whose vehicle, or whose node just before, is another. A move that changes only tabu visits is
//! not made, unless it leads to lists that cost less than any before (the aspiration criterion).
//!
//! Invariant between rounds: the judge is in sync with the lists of the routes. These are valid and of known cost, and
//! so are the best lists so far. What the definition says of the whole search is what was reported already, and after
//! that what it says of the search from here. By `laws` the best lists cost no more than the first.
//!
//! `vr_app` calls [`tabu`] for `TABU_SEARCH`. Moves come from `vr_descent`, and are judged by any `vr_routes::Judge`.
//! Runs of moves are passed over by `vr_known`, and events are told by `vr_watch`.
//!
//! Start reading at [`tabu`] (`searching`), which goes on in rounds. Then come:
//!
//! - `passing`: of a run of moves, the first ones that cannot be better are tries that nothing more is asked about.
//! - `written_list` and `list_change`: the lists that a change makes tell which visits a move changes, without memory.
//! - `State::advance` owns the change of the best candidate so far, kept for the commit. The round owns that of the
//!   move in hand. The two are swapped when a better candidate is found.
#![tactic(auto)]

mod laws;
mod list_change;
mod passing;
mod rounds;
mod searching;
mod tabu_list;
mod written_list;

pub use laws::{tabu_bound_unmet, tabu_is_sound};
pub use searching::{TabuAnswer, tabu};
pub use vr_model::Limit;
