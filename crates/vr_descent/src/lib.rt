//! Searches that go from lists to neighbouring lists: the scan of a list of moves, and greedy descent.
//!
//! A search is scan after scan. A scan (`scanning`) tries the moves of all neighbourhoods, in the one order of
//! [`moves`] (`listing`), up to the first that is acceptable. A move is acceptable if the lists after it are valid and
//! [`Accept`] (`accepting`) takes it. [`Progress::advance`] (`progress`) is one scan and the move that it finds: it has
//! the judge make that, counts tries and solutions, and tells the watchers. [`descend`] (`descending`) takes each move
//! that makes the cost less. Moves that are known to be refused are counted as tries, and nothing is asked about them
//! (`vr_known`). What a scan refused is noted at its end, unless the tries cut it. Once a move is made, nothing is
//! known of moves that depend on what it changed.
//!
//! Invariant: between scans the judge has committed the lists of the routes, which are valid and whose cost is known.
//! What the definition reports of the whole search is what was reported already, and then what it reports of the search
//! from here. No move of these lists that is known is acceptable. By `laws` the last lists of a descent cost no more
//! than the first.
//!
//! `vr_app` calls [`descend`]. `vr_guided` scans by penalised costs, and `vr_tabu` goes through the list of all moves
//! with a sieve of its own. Both go on to lists that cost more, and keep the best ones ([`Incumbent`], in `incumbent`).
//! `vr_lns` counts and tells by [`Progress`] too. [`scan`] is a scan alone, for who makes the move himself; nothing
//! here calls it but tests. This crate calls the crates of moves, `vr_known`, `vr_routes` with its trait of judges, and
//! `vr_watch`.
//!
//! Start with `progress`, then follow the way down to the next move. `next_open` (`scanning`) takes the next of a
//! stretch in hand at once. Else come `MoveList::step` (`listing`), `Generating::step`, `Generator::step`, and in
//! `vr_known` `Moves::step`, `Each::step` and `Run::step` (`nests`). These ask the sieve about a block (`Sieve::has`)
//! and then about a run (`Sieve::first`, here `Judge::first_below`). The moves come one neighbourhood after the other
//! (`generating`), those of each from its own generator (`generators`). `try_move` writes the change of that move over
//! the one that `advance` owns.
#![tactic(auto)]

mod accepting;
mod descending;
mod generating;
mod generators;
mod incumbent;
mod laws;
mod listing;
mod progress;
mod scanning;

pub use accepting::Accept;
pub use descending::descend;
pub use incumbent::Incumbent;
pub use laws::descent_is_sound;
pub use listing::{MoveList, moves};
pub use progress::Progress;
pub use scanning::{ScanEnd, scan};
pub use vr_model::Limit;
