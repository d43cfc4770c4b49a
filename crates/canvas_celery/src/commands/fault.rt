//! Why a start has no commands if places are to have values.

use canvas_task::Memory;
use std::alloc::{AllocError, AllocFailed, Global};

/// The fault of the values, or of a text that begins with `~`.
#[derive(Drop)]
pub enum FillFault {
    /// The values are not a JSON text in UTF-8, or it has more than 128 nested arrays and objects.
    NotJson,
    /// They are JSON, but not an array.
    NoArray,
    /// The text is not a place, or there is no such value among this many.
    NoPlace { text: String, values: usize },
    /// The text is the name of a task.
    Name { text: String },
    /// Memory was refused.
    Memory,
}

impl FillFault {
    pub(crate) fn of_text(alloc: Global, text: &str, values: usize) -> FillFault {
        match String::from_str(alloc, text) {
            Ok(text) => FillFault::NoPlace { text, values },
            Err(_) => FillFault::Memory,
        }
    }

    pub(crate) fn of_name(alloc: Global, text: &str) -> FillFault {
        match String::from_str(alloc, text) {
            Ok(text) => FillFault::Name { text },
            Err(_) => FillFault::Memory,
        }
    }
}

impl From<AllocError> for FillFault {
    fn from(_refused: AllocError) -> FillFault {
        FillFault::Memory
    }
}

impl<T: Drop> From<AllocFailed<T>> for FillFault {
    fn from(_refused: AllocFailed<T>) -> FillFault {
        FillFault::Memory
    }
}

impl From<Memory> for FillFault {
    fn from(_refused: Memory) -> FillFault {
        FillFault::Memory
    }
}
