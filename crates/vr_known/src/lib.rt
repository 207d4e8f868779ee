//! Moves that are known to be refused: a search does not ask about them again.
//!
//! A cache of refused moves, with timestamps (in the field: don't-look bits, static move descriptors). What a move
//! makes depends on two things alone: the lists of its vehicles, and, if it changes activity, which visits are active.
//! So it is if no dimension has a cost of its global span ([`validity_is_local`], [`cost_is_local`]). Then a move that
//! a scan has refused stays refused until a commit changes one of the two. [`Known`] keeps three kinds of times:
//!
//! - for each row of a kind, when all its moves were last refused;
//! - for each vehicle, when its list, or the penalty of an arc of it, last changed;
//! - when activity last changed.
//!
//! A row is a first vehicle, or a pair that is put elsewhere or taken out. The moves of each other kind are one row.
//! The ranges of moves ([`Run`], [`Each`]) pass over moves if a sieve ([`Sieve`]) says so, and count them. [`Known`] is
//! a sieve; iterators alone ask it itself, with nothing known. `vr_descent` hands in one that asks [`Known`] about
//! blocks and its judge about runs, and `vr_tabu` one that asks its judge alone. Of models with a cost of a global span
//! nothing is learned.
//!
//! Invariant: no stamp is above the clock, so what changes now is stamped no earlier than all that was learned. Only
//! what was learned later than the last change of what it depends on is known.
//!
//! `vr_moves_route`, `vr_moves_cross`, `vr_moves_active` and `vr_moves_pair` list their moves by these ranges. What
//! makes the moves of a run ([`Numbered`], mostly over a [`Pattern`]) says in which block they are ([`Block`]). Of
//! `pair_inactive` it asks the sieve itself, since there each move is a row. `vr_descent` and `vr_guided` make a
//! [`Known`] for each search (`Known::of`). `vr_descent` (`Progress::advance`) learns at the end of each scan that the
//! tries do not cut ([`Known::note`], [`Known::note_all`]). It forgets when a move is made ([`Known::change`]), by the
//! vehicles that the move touches ([`Touched`]). `vr_guided` forgets also when it penalises an arc ([`Known::forget`],
//! [`Known::settle`]). This crate calls `vr_routes` and `vr_model`.
//!
//! Start with `known`. It asks `stamps`, which has the clock and all that is stamped with it, by the numbers that
//! `blocks` gives to kinds and rows. `touched` finds the vehicles whose lists a move changes, and `laws` has what moves
//! depend on. `sieve` says what a sieve is. `nests` has the ranges, and `moves` the moves of a neighbourhood over them,
//! from which a search takes one after the other. `lists` opens the moves of each list of routes. `lasts` has moves
//! that differ in their last number alone, and `stretches` those of such moves that are taken from the front together.
#![tactic(auto)]

mod blocks;
mod known;
mod lasts;
mod laws;
mod lists;
mod moves;
mod nests;
mod sieve;
mod stamps;
mod stretches;
mod touched;

pub use blocks::Block;
pub use known::Known;
pub use lasts::{AnyLast, AnyLastBut, Pattern};
pub use laws::{cost_is_local, moves_are_local, validity_is_local};
pub use lists::{Lists, OfList, of_each_list};
pub use moves::Moves;
pub use nests::{Each, Family, Listed, Numbered, Run};
pub use sieve::Sieve;
pub use stretches::Stretch;
pub use touched::Touched;
