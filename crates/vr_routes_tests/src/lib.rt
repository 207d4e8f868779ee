//! Tests of lists, of routes, of the changes that moves make, and of the iterators of moves. They ask what `vr_model`,
//! `vr_routes` and the crates of moves make public. The tests have a crate of their own, so that the crates that they
//! test are proved once.
#![tactic(auto)]

#[cfg(test)]
mod changes;
#[cfg(test)]
mod moves;
#[cfg(test)]
mod sequences;
#[cfg(test)]
mod strings;
