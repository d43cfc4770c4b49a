//! One error for every allocation failure.

use std::alloc::{AllocError, AllocFailed};
use thiserror::Error;

/// The error of an allocation that failed.
#[derive(Clone, Copy, Debug, PartialEq, Eq, Error)]
#[error("memory refused")]
pub struct Memory;

impl From<AllocError> for Memory {
    fn from(_refused: AllocError) -> Memory {
        Memory
    }
}

impl<T: Drop> From<AllocFailed<T>> for Memory {
    fn from(_refused: AllocFailed<T>) -> Memory {
        Memory
    }
}
