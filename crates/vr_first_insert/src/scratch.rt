//! What is written over while places are tried.

use crate::probes::Probes;
use crate::trying::Trying;
use std::alloc::Global;
use vr_model::Seq;

/// What is written over while places are tried.
#[derive(Drop)]
pub(crate) struct InsertScratch {
    pub(crate) alloc: Global,
    /// The least that the delivery of a pair adds before the last places of a list, as `write_ahead` writes it.
    pub(crate) ahead: Seq<i64>,
    /// The list with the pickup of a pair in it.
    pub(crate) half: Seq<u32>,
    /// What that list reaches at the stop before the delivery that is tried.
    pub(crate) probes: Probes,
    pub(crate) trying: Trying,
}

impl InsertScratch {
    /// It takes no memory.
    pub(crate) fn new(alloc: Global) -> InsertScratch {
        InsertScratch {
            alloc,
            ahead: Seq::new(alloc),
            half: Seq::new(alloc),
            probes: Probes::new(alloc),
            trying: Trying::new(alloc),
        }
    }
}
