//! What is given to a program that goes on from routes, and the first rule that given routes break. An input has a
//! model, the routes of its vehicles, and what is asked of a search that refines them. If a planner's route names a
//! visit that another one has, that is a fault of reading, at the place of the second visit. A route that is too long
//! for its vehicle is none: it is read, and then breaks a rule.
//!
//! What is read is a well-formed model, and lists of it: one for each vehicle, of visits, none of them twice.
//! [`list_fault`] has no fault of lists exactly if they are valid (`laws`). `specs/Begin` says with which lists a
//! search begins: given valid ones as they are, given open ones filled up by parallel cheapest insertion.
//!
//! `vr_refine` reads its input by [`read_given`], and prices lists that have no fault. `vr_app` has the reader of the
//! field `model` from here.
//!
//! Start reading at `given`. The table of an input is a reader beside its definition, as those of `vr_read` are: the
//! order of its lines is the order of the faults. `faults` asks five rules of `vr_check`, and the sixth by walks of
//! `vr_reach`.
#![tactic(auto)]

mod faults;
mod given;
pub mod laws;
mod wishes;

pub use faults::{ListFault, ListRule, list_fault};
pub use given::{Given, ModelField, read_given};
pub use wishes::{Wish, WishTable};
