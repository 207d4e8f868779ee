//! What the cost terms of routes have in common. Each term has the trait of this crate, and `difference` says what a
//! change adds to its value. The value is that of the definition, on whole lists.
//!
//! A term is in sync with committed lists, and `difference` goes from these: it is the value after the change less that
//! before it.
//!
//! `vr_arccosts`, `vr_usecosts` and `vr_costfilter` have the terms, `vr_bounds` keeps bounds beside the first, and
//! `vr_judge` adds them up. This crate uses `vr_routes`.
//!
//! Read `part` first, which has the trait. Then:
//!
//! - `lists` (`ListCost`) has terms that are sums over vehicles. They look at the changed lists alone, each a splice
//!   (`vr_routes::Splice`) of the list before it.
//! - `splices` says whether such a list is empty: a vehicle that is not used pays for no arc and no fixed cost.
//! - `infallible` (`InfallibleCost`) has terms that take no memory, and say so once for all of their calls.
#![tactic(auto)]

mod infallible;
mod lists;
mod part;
mod splices;

pub use infallible::InfallibleCost;
pub use lists::{ListCost, added_by};
pub use part::CostPart;
pub use splices::is_left_empty;
