//! The least span of a line without breaks, and its schedule: how short a route could be, from its start to its end.
//!
//! For each cumul that is reached at a stop the greatest start is kept from which it is reached, as `pieces`. Over a
//! run of cumuls it grows with the cumul, one for one, up to some start, and then stays. It never falls: of two ways
//! that cross, the one that starts later can go on to the greater cumul. Take a start that allows 0 to 10, and an arc
//! of transit 5 and slack 2. It leads to one piece of the cumuls 5 to 17: 5 is reached from 0, and 15 to 17 from 10.
//!
//! So an arc moves each piece by its transit and makes it longer by the slack, up to the begin of the next one. The
//! next stop cuts the pieces to its runs (`crossing`). There are at most as many pieces as runs in all stops up to
//! there, however far the horizon is. On a piece the span is least at its first cumul. The schedule starts and ends as
//! the first of the shortest pieces says (`shortest`). It is the chosen one of the line narrowed to these ends
//! (`least`).
//!
//! Invariant: at each stop, a piece reaches a cumul from `s` or later exactly if some way from `s` or later does.
//!
//! Who calls it: `vr_app` asks it of each used route of a solution, in each dimension in which no vehicle has breaks,
//! for the word `spans`. The line is one of `vr_steps`, and `vr_plan` narrows it and chooses its schedule.
//!
//! Begin with `least`, whose `span` is all that is called from outside, and go on with `pieces`.
#![tactic(auto)]

mod crossing;
mod least;
mod pieces;
mod shortest;

pub use least::{Least, span};
