//! The answer of a search.

use vr_model::Report;
use vr_routes::Routes;

/// The answer of a search.
#[derive(Drop)]
pub struct Refined {
    /// The best routes: of the valid ones that the search had, the first of least cost.
    pub routes: Routes,
    /// What its first valid routes cost.
    pub first_cost: i64,
    /// How many steps it made, how many routes it had, and why it ended.
    pub report: Report,
}
