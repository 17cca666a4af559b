use std::alloc::{AllocError, AllocFailed};
use thiserror::Error;

/// Memory ran out.
#[derive(Clone, Copy, Debug, Error)]
#[error("no memory")]
pub struct NoMemory;

impl From<AllocError> for NoMemory {
    fn from(_: AllocError) -> Self {
        NoMemory
    }
}

impl<T: Drop> From<AllocFailed<T>> for NoMemory {
    fn from(_: AllocFailed<T>) -> Self {
        NoMemory
    }
}
/// The answer of a place that the compiler holds to be unreachable, where no proof excludes it yet. It is that of want of
/// memory, so that no wrong text and no false refusal is ever given in its stead. Each use is one to prove away;
/// `tools/count_lost.sh` counts them.
#[cold]
pub fn lost() -> NoMemory {
    NoMemory
}
