//! Guided local search.
//!
//! [`guide`] (`searching`; what it accepts is `guiding`) scans as a descent does, by the augmented cost. That is `q`
//! times the cost and `p` times the penalised arc costs; the model gives the weight `p / q` ([`Lambda`]). At each local
//! optimum a penalty rises (`raising`) on the used arcs of the greatest worth, which leads the search away. The worth
//! of an arc is its cost over one more than its penalty (`worths`; the utility of Voudouris and Tsang). An example: one
//! arc costs 100 and has penalty 4, another costs 30 and has none. The second rises, since 30 / 1 is more than 100 / 5.
//! If no used arc costs anything (`costly`), no penalty helps, and the search ends; so it does if there are no moves.
//!
//! Invariant: between scans the sums are those of the lists and the penalties. No arc was penalised more often than a
//! move was tried. The best lists so far are valid and of known cost; routes and judge are as in `vr_descent`. If
//! nothing is paid for global spans, moves that were refused are known too: those of a row that a scan refused whole. A
//! commit ends that if it changes the list of one of their vehicles (or activity, if they change that). So does a round
//! that penalises an arc of such a list. For what a move makes of the penalised arc costs depends on arcs of these
//! lists alone. By `laws` the best lists cost no more than the first.
//!
//! `vr_app` calls [`guide`] for `GUIDED_LOCAL_SEARCH`. This crate calls `vr_descent` for its scans, `vr_known` for what
//! is known, and any judge of `vr_routes`.
//!
//! Start with `searching`, then `guiding`. `penalties` counts how often each arc was penalised; an arc adds its cost
//! times that (`weights`). What a move makes of the penalised arc costs is told by the stretches that its change
//! touches (`changing`, `stretches`). These use sums along the lists of vehicles (`route_sums`, over `sums`) and walks
//! through the pieces of the new ones (`walks`). `vehicle_list` has the list of a vehicle, whose arcs `raising` and
//! `costly` go over.
#![tactic(auto)]

mod changing;
mod costly;
mod guiding;
mod laws;
mod penalties;
mod raising;
mod route_sums;
mod searching;
mod stretches;
mod sums;
mod vehicle_list;
mod walks;
mod weights;
mod worths;

pub use laws::{augmented_costs_are_bounded, guided_is_sound, penalties_are_few};
pub use searching::{Guided, guide};
pub use vr_model::Lambda;
