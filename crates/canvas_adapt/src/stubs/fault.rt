//! The reasons why a text gives no stub.

use canvas_semantics::{MOST_TASKS, WithCommas};
use std::alloc::{AllocError, AllocFailed};
use thiserror::Error;

/// The reason why a text gives no stub. If several hold, it is the first in the order of the
/// checks.
#[derive(Clone, Copy, Debug, Drop, PartialEq, Eq, Error)]
pub enum StubFault {
    /// The text has no `=`.
    #[error("NAME=WORD is wanted")]
    NoWord,
    /// The text before the last `=` is not a name that a task may have (`name_ok`).
    #[error("a name is 1 to 128 bytes from ! to ~")]
    BadName,
    /// The word starts with `raise:`, but no exception follows that a stub may raise.
    #[error("no exception that a task fails with")]
    BadKind,
    /// The word is a number that no task may answer.
    #[error("a number past 2^60 on either side")]
    BadNumber,
    /// The word is none of those that a stub may have.
    #[error("a word is a whole number, raise:CLASS, or a built-in task's word (canvas help tasks)")]
    BadWord,
    /// There is already a stub of this name.
    #[error("the name is there twice")]
    Doubled,
    /// There are already as many stubs as allowed (`MOST_STUBS`).
    #[error("more than {most} names", most = WithCommas(MOST_TASKS))]
    TooMany,
    /// An allocation failed.
    #[error("memory refused")]
    Memory,
}

/// The first of several texts that gives no stub.
#[derive(Clone, Copy, Debug, Drop, PartialEq, Eq)]
pub struct BadStub {
    /// The number of texts before it.
    pub before: usize,
    pub fault: StubFault,
}

impl From<AllocError> for StubFault {
    ghost use Rattle.std.specs.Prelude.{◌≡◌};
    ghost use Rattle.canvas_adapt.specs.declared.stubs.fault.StubFault.TheVariants.{Memory};

    ghost from_gives = { λ _ f. f ≡ Memory };

    fn from(_refused: AllocError) -> StubFault {
        StubFault::Memory
    }
}

impl<T: Drop> From<AllocFailed<T>> for StubFault {
    ghost use Rattle.std.specs.Prelude.{◌≡◌};
    ghost use Rattle.canvas_adapt.specs.declared.stubs.fault.StubFault.TheVariants.{Memory};

    ghost from_gives = { λ _ f. f ≡ Memory };

    fn from(_refused: AllocFailed<T>) -> StubFault {
        StubFault::Memory
    }
}
