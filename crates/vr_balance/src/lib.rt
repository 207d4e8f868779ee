//! What a change brings into routes and what it takes out of them; how many nodes of a group are active; sums along
//! paths.
//!
//! [`Sums`] (`sums`) keeps, for each node of a path, what a measure gives of the arcs before it. So what a stretch of
//! the path comes to is one subtraction. With the sums 0, 3, 7 and 12, the arcs from place 1 to place 3 come to 9,
//! which is 12 less 3. [`Balance`] (`balance`) has the pieces that come and those that go; the same piece on both sides
//! cancels out.
//!
//! The invariant of a balance (`IsBalance`): new routes and what goes have the nodes of old routes and what comes.
//!
//! `vr_loads` and `vr_arccosts` keep sums; `vr_guided` has wider ones of its own. [`Balance`] and [`active_in`]
//! (`active`) are asked by the filter of groups (`vr_pathfilters`) and by the penalties of groups (`vr_usecosts`).
//! Changes and pieces are from `vr_routes`.
//!
//! Start reading at `sums`, which is short; then go to `balance`.
#![tactic(auto)]

mod active;
mod balance;
mod sums;

pub use active::active_in;
pub use balance::Balance;
pub use sums::Sums;
