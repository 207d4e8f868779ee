//! Scratch that calls are lent.

use crate::trails::Trail;
use std::alloc::Global;
use vr_plan::Timer;
use vr_routes::Row;

/// Scratch for a list that a change makes, and for its schedule, whether it is known by what is kept or built.
#[derive(Drop)]
pub struct Scratch {
    /// The steps to those of its visits whose floors are found anew.
    pub trail: Trail,
    /// The list.
    pub row: Row,
    /// What its schedule is built with.
    pub timer: Timer,
}

impl Scratch {
    /// Scratch for any list. It takes no memory before the first schedule is built.
    pub fn new(alloc: Global) -> Scratch {
        Scratch {
            trail: Trail::new(),
            row: Row::new(),
            timer: Timer::new(alloc),
        }
    }
}
