//! The arc costs of used vehicles: kept for the committed routes, known for a change, and bounded for a run of moves.
//! Sums of arc costs are kept along each route. If both vehicles have the same costs (name the same matrix), a chain of
//! a route costs one subtraction. So what a change adds is known by its pieces.
//!
//! The moves of a run differ in their last number alone. So the first that may add less than a bound is found by going
//! over the numbers once ([`ArcCost::first_below`]). Each number takes a few steps:
//! - the arcs beside one place or two, if all else that the moves add is the same;
//! - one subtraction more for a part that is reversed;
//! - one arc more for the front that a vehicle with other costs gets.
//!
//! A pair that is put back into its route is gone over along the route without it.
//!
//! The invariant: the sums are those of the committed routes (`StandsAlong`).
//!
//! `vr_judge` asks about changes and runs. Sums come from `vr_balance`, the trait of a part of the cost from
//! `vr_parts`.
//!
//! Start reading at `arcs`, in which [`ArcCost`] is the part of the cost. `VehicleArcs` (`costs`) has the arc costs of
//! one vehicle, and `committed` what is kept of the lists with them. `walks` goes along the pieces of a changed list,
//! and `lines` has the sums. `runs` says which loop goes over a run: `gaps`, `puts`, `swaps` or `crosses`, over
//! `fronts` and `rests`. A route is a `list` in names and below.
#![tactic(auto)]

mod arcs;
mod committed;
mod costs;
mod crosses;
mod fronts;
mod gaps;
mod lines;
mod puts;
mod rests;
mod runs;
mod swaps;
mod walks;

pub use arcs::ArcCost;
