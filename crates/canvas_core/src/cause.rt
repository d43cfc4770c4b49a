//! Why a run or a worker ends early.

use thiserror::Error;

/// Why a run ended before its canvas did.
#[derive(Clone, Copy, Debug, Drop, PartialEq, Eq, Error)]
pub enum Cause {
    /// An allocation failed.
    #[error("memory refused")]
    Memory,
    /// The run was asked to stop.
    #[error("stopped")]
    Stopped,
}
