//! What is asked of a search.

/// What is asked of a search by ruin and recreate.
#[derive(Clone, Copy)]
pub struct Wish {
    /// The seed of all that is drawn, `0..=2^63 - 1`. The same seed gives the same search.
    pub seed: u64,
    /// About how many visits a step takes out, `1..=100`.
    pub removed: u32,
    /// How many visits are taken out of one route in a row at most, `1..=100`.
    pub string: u32,
    /// The heat with which the search begins, `0..=2^40` in units of cost. `None` if it goes by the first routes: it is
    /// what an active visit costs there on average, without fixed costs and penalties.
    pub heat: Option<u64>,
}
