//! The schedule of a line that is chosen under the rule of its vehicle, and what it comes to.
//!
//! Each stop in turn is settled at the least cumul that is reached there and from which the end is reached (`cumuls`).
//! The tight schedule is found in the same way, on a narrower line. Its end is first narrowed to its least cumul, and
//! then its start to its greatest (`ends`, over the copies that `narrow` makes). Take a visit that is 30 away and opens
//! at 100, with waiting allowed. Then `earliest` starts at 0 and waits 70, and `tight` starts at 70. Once the cumuls
//! are settled, the break starts are, break by break (`starts`).
//!
//! Invariant: the line that allows the settled cumuls alone keeps the same chosen schedule. That is what the proof
//! carries from stop to stop.
//!
//! Who calls it: `vr_print` and `vr_span` ask for whole schedules, `vr_rules` and `vr_costfilter` for what they come
//! to. `vr_app` opens the [`Lookups`] of a run. Constructions (`vr_first_arc`, `vr_first_insert`, `vr_first_savings`),
//! `vr_rules`, `vr_pathfilters`, `vr_costfilter`, `vr_judge`, `vr_lns` and `vr_print` share them. The crate itself
//! sweeps lines by `vr_reach`, and crosses arcs by `vr_steps`.
//!
//! Begin with `schedules`, which puts a schedule together. `plans` has it, with the slacks that its cumuls leave. A
//! line that is known to be sound is handed on as one (`sound`). What is looked up of a dimension for all lists is a
//! [`Table`] (`tables`), also whether its schedules may cost anything by themselves (`paying`). What is looked up once
//! of a whole model is [`Lookups`] (`lookups`), which all that ask it share. A [`Timing`] (`timings`) is what the
//! chosen schedule of one list comes to. It is found by the earliest cumuls if those tell it, else by a [`Chooser`]
//! (`choosers`), which looks for no break starts. An [`Extent`] (`extents`) reaches from the least start to the
//! greatest end among the schedules of several lists.
#![tactic(auto)]

mod choosers;
mod cumuls;
mod ends;
mod extents;
mod lookups;
mod narrow;
mod paying;
mod plans;
mod schedules;
mod sound;
mod starts;
mod tables;
mod timings;

pub use choosers::Chooser;
pub use extents::{Extent, global_cost, wider};
pub use lookups::Lookups;
pub use narrow::{pin, same_line};
pub use paying::may_pay_alone;
pub use plans::Plan;
pub use schedules::{chosen_cumuls, schedule, schedule_over};
pub use tables::{KnownDimension, Table, row_of, tables_of};
pub use timings::{Timer, Timing, row_cost, span_cost, times, timing_of};
