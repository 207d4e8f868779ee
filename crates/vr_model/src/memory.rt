//! Out of memory: the error that calls which allocate may answer.

use std::alloc::{AllocError, AllocFailed};

/// Out of memory. No contract ties it to a refused growth. Of other refusals only two come as it: a count of sharers
/// that is full (`vr_plan::Lookups::share`), and in tests an event that `vr_watch::Stopper` refuses.
#[derive(Clone, Copy, Debug, PartialEq, Eq)]
pub struct NoMemory;

impl From<AllocError> for NoMemory {
    fn from(_: AllocError) -> Self {
        NoMemory
    }
}

impl<T: Drop> From<AllocFailed<T>> for NoMemory {
    fn from(_: AllocFailed<T>) -> Self {
        NoMemory
    }
}
