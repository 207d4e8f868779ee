//! Tests of what is asked of one line: sets of integers, arcs and levels, and what is reached along a line. There are
//! walks, chosen schedules and least spans too. They ask what `vr_spans`, `vr_steps`, `vr_reach`, `vr_plan` and
//! `vr_span` make public. The tests have a crate of their own, so that the crates that they test are proved once. Start
//! at `lines`, which has the lines that are asked.
#![tactic(auto)]

#[cfg(test)]
mod arcs;
#[cfg(test)]
mod levels;
#[cfg(test)]
mod lines;
#[cfg(test)]
mod reached;
#[cfg(test)]
mod schedules;
#[cfg(test)]
mod sets;
#[cfg(test)]
mod spans;
