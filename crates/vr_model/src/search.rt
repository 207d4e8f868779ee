//! What a search is told, and what it tells while it runs.

/// How far a search may go: each search stops at the first of the two that it reaches.
#[derive(Clone, Copy)]
pub struct Limit {
    /// How many moves may be tried, or cuts of path neighbourhoods, in `0..=10^9`.
    pub tries: u64,
    /// How many solutions may be found, the first one included, in `1..=10^9`.
    pub solutions: u64,
}

/// The weight of penalised arc costs beside the cost in guided local search, the fraction `p / q`
/// (`guided_local_search_lambda_coefficient` in OR-Tools).
#[derive(Clone, Copy)]
pub struct Lambda {
    /// The numerator, in `1..=1000`.
    pub p: i64,
    /// The denominator, in `1..=1000`.
    pub q: i64,
}

/// What happened in a search.
#[derive(Clone, Copy)]
pub enum Kind {
    /// The search began with the first solution.
    First,
    /// A move was made, or a cut kept.
    Move,
    /// Guided local search raised penalties at a local optimum.
    Round,
}

/// One event of a search.
#[derive(Clone, Copy)]
pub struct Event {
    /// The moves tried so far, or the cuts.
    pub tries: u64,
    pub kind: Kind,
    /// The cost of the lists after the event, without penalties of guided local search.
    pub cost: i64,
}
