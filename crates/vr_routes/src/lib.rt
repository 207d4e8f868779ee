//! Routes of visits with look-ups, what a move changes in them, and the change made in place.
//!
//! `Routes` has the route of each vehicle as a list of visits, and the seat of each node: its vehicle and its place.
//! `Change` has the routes after a move as pieces: chains, which are segments of the routes before it, and single
//! nodes. So no route is copied to write a change. Whoever needs the nodes has them written out. An example: `relocate`
//! takes the node at place 2 out of route 0. Then route 0 is two chains: its places 0 and 1, and its places from 3 on.
//!
//! Invariant: each visit is in one list at most, at the place that the look-ups say. The visits in no list are a list
//! of their own. A change is made on the routes from which it was written (`IsMadeOn`). Its pieces, joined, are the
//! lists that the definition of the move gives. `Judge` is the trait of what judges moves and makes them: what it keeps
//! is so of the routes that it is asked about.
//!
//! All searches, filters and cost terms use this crate, and constructions end in it; below it is `vr_model` alone. A
//! search writes a change for each move that it does not pass over ([`Change::write`]) and lends it to its judge. The
//! judge makes the change if the move is taken ([`Routes::commit`]). Path neighbourhoods have no moves, and take whole
//! lists over ([`Routes::set_lists`], [`Routes::assign`]).
//!
//! Start with `routes`, which has the look-ups and makes a change. It uses `seats`: such lists, with the place of each
//! node beside them. Then read `changes`, which writes the change of each kind of move. The lists of a change are
//! written by `kinds` over `pieces`; `filling` writes out their nodes, into a list in place (`node_row`). `conditions`
//! says whether the numbers of a move are those of one, and `pairs` at which places the nodes of a pair are. `judging`
//! has the trait of judges (`Judge`) and what they answer (`Verdict`). `runs` gives a move another last number, as in
//! the runs that a judge is asked about. `indices` has numbers for visits, starts and ends, for users of the library.
#![tactic(auto)]

mod changes;
mod conditions;
mod filling;
mod indices;
mod judging;
mod kinds;
mod node_row;
mod pairs;
mod pieces;
mod routes;
mod runs;
mod seats;

pub use changes::Change;
pub use conditions::pair_served;
pub use indices::Indices;
pub use judging::{Judge, Verdict};
pub use node_row::Row;
pub use pairs::{
    PairPlaces, is_elsewhere, is_pair_inactive, is_pair_together, pair_places, rest_len,
};
pub use pieces::{Piece, Splice};
pub use routes::Routes;
pub use runs::with_last;
pub use seats::Seat;
