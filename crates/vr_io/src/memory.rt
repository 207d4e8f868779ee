//! Out of memory.

use std::alloc::{AllocError, AllocFailed};

/// Out of memory. No contract ties it to a refused growth. The making of a `MemSink` alone answers it; `read_all` has
/// `ReadError::NoMemory`.
#[derive(Clone, Copy, Debug, PartialEq, Eq)]
pub struct NoMemory;

impl From<AllocError> for NoMemory {
    fn from(_: AllocError) -> Self {
        NoMemory
    }
}

impl<T: Drop> From<AllocFailed<T>> for NoMemory {
    fn from(_: AllocFailed<T>) -> Self {
        NoMemory
    }
}
