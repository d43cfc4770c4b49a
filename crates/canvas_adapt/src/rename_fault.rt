//! The reasons why a text is no other name for a task.

use std::alloc::{AllocError, AllocFailed};
use thiserror::Error;

/// The reason why other names for a canvas's tasks are refused.
#[derive(Clone, Copy, Debug, Drop, PartialEq, Eq, Error)]
pub enum RenameFault {
    /// The text has no `=`, or the part before the first `=` is no number of a task.
    #[error("#NUMBER=NAME is wanted")]
    NoNumber,
    /// The text after the first `=` is not a name that a task may have (`name_ok`).
    #[error("a name is 1 to 128 bytes from ! to ~")]
    BadName,
    /// There is already a name for this number.
    #[error("the number is there twice")]
    Doubled,
    /// An allocation failed.
    #[error("memory refused")]
    Memory,
}

/// The first of several texts that is refused.
#[derive(Clone, Copy, Debug, Drop, PartialEq, Eq)]
pub struct BadRename {
    /// The number of texts before it.
    pub before: usize,
    pub fault: RenameFault,
}

impl From<AllocError> for RenameFault {
    fn from(_refused: AllocError) -> RenameFault {
        RenameFault::Memory
    }
}

impl<T: Drop> From<AllocFailed<T>> for RenameFault {
    fn from(_refused: AllocFailed<T>) -> RenameFault {
        RenameFault::Memory
    }
}
