//! How early vehicles can end routes, and how short their spans can be. These are bounds from below of what the chosen
//! schedules come to. They are known by one walk along what a change puts into a route, which builds no schedule.
//!
//! At each stop a vehicle is no earlier than the floor of the stop (its earliest feasible time). Nor is it earlier than
//! the transits from the stop before let. A floor is a number below which the row of the stop allows no cumul. It is
//! the least that the row allows, if its forbidden intervals ascend and it allows any. What is left of a line from a
//! stop on takes a time to the greater of two numbers. So do several stops in turn.
//!
//! An example: a vehicle is at 3, and an arc of 4 leads to a stop with the floor 10. It is there at 10 or later. From
//! there on 6 are left in transits, and floors let the line end no earlier than 12. So it ends at 16 or later, the
//! greater of 10 + 6 and 12.
//!
//! Of each committed route the ways along its first visits are kept (forward data), and what is left after each place
//! (backward data). They are kept in the dimensions in which anything is paid for spans. So what a change keeps at the
//! ends of a route is not walked. The invariant: what is kept is always of the committed routes, which are valid
//! (`StandsEarliest`). Who changes them commits the change here first.
//!
//! `vr_judge` asks once when a search asks what a change adds at least. It lends the answer to the cost terms of
//! `vr_costfilter`. That crate takes the walk along a list and what is kept of it from here ([`Walk`], [`KeptWays`]).
//! The law of `laws` says that the answers are bounds, whatever the rule of the vehicle is.
//!
//! Start reading at [`Earliest`] (`earliest`), which is what is asked. It writes its answers into [`Earlies`]
//! (`earlies`). `floors` looks up the floors of the stops of a dimension, and which vehicles start so freely that their
//! spans are bounded by their ends. `walks` has the walk along a list, visit by visit, in either direction. `ways` has
//! each step of it: how far a vehicle is, and what is left of its line. `kept_ways` keeps both for the places of one
//! list, `kept` for the lists of all vehicles in one dimension. A route is a `list` in names and below.
#![tactic(auto)]

mod earlies;
mod earliest;
mod floors;
mod kept;
mod kept_ways;
pub mod laws;
mod walks;
mod ways;

pub use earlies::{Earlies, Early};
pub use earliest::Earliest;
pub use kept_ways::{KeptWays, write_ways};
pub use walks::{Walk, along_pieces, node_in};
