//! Tests of the whole program: what no contract of [`vr_app::run`] says, and no case of the built program. The words
//! `first` and the input `[`, say, end with status 4. This is what is tested:
//!
//! - With ample memory each kind of reply is given (`replies`).
//! - What is left if a device fails, and what cut input is answered (`devices`).
//! - What a watcher that refuses ends (`replies`).
//! - The judge of filters is asked (`judged`).
//!
//! A function owns one large value and lends it on, and a row that fails is named. The tests have a crate of their own,
//! so that what they test is proved once. Nothing calls them. Start at `run_rows`, which says what a row asks.
#![tactic(auto)]

#[cfg(test)]
mod devices;
#[cfg(test)]
mod judged;
#[cfg(test)]
mod replies;
#[cfg(test)]
mod run_rows;
