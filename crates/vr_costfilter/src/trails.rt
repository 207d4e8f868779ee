//! The stops that a vehicle heads for, and how early it may come to each.

use arrayvec::ArrayVec;

/// A stop that a vehicle heads for: its node and its floor. That is the least cumul there from which the floor of the
/// next stop can be met with no slack above the greatest one. Floors are in `0..=2^36`.
#[derive(Clone, Copy, Default)]
pub struct Step {
    pub node: u32,
    pub floor: i64,
}

/// A stack of the steps to visits of a list, with the step to the last one at its bottom. It is kept of a committed
/// list, or it is scratch that a caller lends. So a walk from the end backwards takes no memory. What is on scratch
/// before a timing is asked for does not matter. Inside this crate walks put their steps on top.
#[derive(Drop)]
pub struct Trail {
    pub steps: ArrayVec<Step, 1000>,
}

impl Trail {
    /// With no step on it. It takes no memory.
    pub fn new() -> Trail {
        Trail {
            steps: ArrayVec::new(),
        }
    }
}
