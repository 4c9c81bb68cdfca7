//! Out of memory.

use std::alloc::AllocError;

/// Memory ran out. No clause says when this happens.
#[derive(Clone, Copy, Debug, PartialEq, Eq)]
pub struct NoMemory;

impl From<AllocError> for NoMemory {
    fn from(_refused: AllocError) -> Self {
        NoMemory
    }
}
