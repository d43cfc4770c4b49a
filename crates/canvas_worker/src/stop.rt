//! The flag that ends a run early.

use std::sync::atomic::{AtomicBool, Ordering};

/// A flag that asks the workers that share it to end. No claim rests on when they see it.
///
/// It stays asked. A worker that fails asks the stop that it was given, which is the caller's own:
/// a second run with the same one ends as stopped at once.
#[derive(Drop)]
pub struct Stop {
    flag: AtomicBool,
}

impl Stop {
    /// Returns a stop that nobody has asked yet.
    pub fn new() -> Stop {
        Stop {
            flag: AtomicBool::new(false),
        }
    }

    /// Asks it, from any thread. This can't be undone.
    pub fn ask(&self) {
        self.flag.store(true, Ordering::SeqCst);
    }

    /// Returns whether the caller or a worker has asked it.
    pub fn asked(&self) -> bool {
        self.flag.load(Ordering::SeqCst)
    }
}
