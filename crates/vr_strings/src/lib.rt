//! What a search by ruin and recreate draws: at which visits it cuts routes, what that leaves, and in which order
//! visits go back.
//!
//! A step of such a search takes short strings of visits out of neighbouring routes, and puts them back one by one.
//! This is slack induction by string removals (Christiaens and Vanden Berghe). All that it draws comes from one row of
//! words ([`Words`]), so that a search is the same each time. Take the words of seed 0, and a route of six. The first
//! string of at most three visits around its place 4 is places 4 and 5.
//!
//! Each call gives what its definition says (`specs/Strings`, `specs/Turns`), and draws as many words as that, in the
//! same order. By `laws` each string lies in its route and contains its place, and each item in no route has one turn.
//!
//! `sizes` draws how much a step takes out: the visit at which it begins, the longest string, and how many routes are
//! cut. `rings` has the visits in the order of their nearness to a visit, made when they are first asked for and kept.
//! `drawing` draws a string of a route, and `leaving` writes what is left of the route without it. `items` looks up by
//! what items are put in order, and `turns` draws the order in which they go back.
//!
//! What is written goes into room that the caller keeps. So a step takes memory only for a new ring, for more items in
//! no route than ever before, and to sort more than twenty. `vr_ruin` makes the steps: it says which routes are open,
//! and what visits cost at the places to which they go back. Start reading at `drawing`.
#![tactic(auto)]

mod drawing;
mod items;
mod laws;
mod leaving;
mod rings;
mod sizes;
mod turns;
mod words;

pub use drawing::{StringPlaces, StringSize, draw_string};
pub use items::{ItemKey, ItemKeys};
pub use laws::{drawn_strings_are_there, each_item_has_one_turn, sorting_is_stable};
pub use leaving::write_left;
pub use rings::Rings;
pub use sizes::{Ruin, StepSize, draw_step_size};
pub use turns::draw_turns;
pub use words::Words;
