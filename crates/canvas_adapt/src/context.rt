//! The state of adapting.

use crate::changes::{Change, Changes};
use bumpalo::Bump;
use canvas_semantics::MOST_TASKS;
use canvas_sig::SigFault;
use std::alloc::Global;

/// The greatest number of steps for comparing and copying callbacks. A canvas that takes more would
/// have too many tasks.
const MOST_STEPS: usize = 67_108_864;

/// The number of steps for each callback that is copied into a list.
const STEPS_OF_COPY: usize = 64;

/// The greatest number of callbacks that tasks may inherit, each of which is one more task of the
/// canvas.
const MOST_GIVEN: usize = MOST_TASKS as usize;

/// The arena of new values, the changes so far, and the remaining budgets.
#[derive(Drop)]
pub(crate) struct Context<'a> {
    pub(crate) alloc: Global,
    pub(crate) arena: &'a Bump,
    pub(crate) changes: Changes,
    steps: usize,
    /// The number of callbacks that tasks may still inherit.
    room: usize,
}

impl<'a> Context<'a> {
    pub(crate) fn new(alloc: Global, arena: &'a Bump) -> Context<'a> {
        Context {
            alloc,
            arena,
            changes: Changes::none(),
            steps: MOST_STEPS,
            room: MOST_GIVEN,
        }
    }

    pub(crate) fn count(&mut self, change: Change, count: usize) {
        self.changes.add(change, count);
    }

    /// Counts a number of steps. It is an error if too many were taken.
    pub(crate) fn step(&mut self, steps: usize) -> Result<(), SigFault> {
        match self.steps.checked_sub(steps) {
            Some(left) => {
                self.steps = left;
                Ok(())
            }
            None => Err(SigFault::TooMany),
        }
    }

    /// Counts the steps of copying a number of callbacks.
    pub(crate) fn step_copies(&mut self, count: usize) -> Result<(), SigFault> {
        self.step(count.saturating_mul(STEPS_OF_COPY))
    }

    /// Counts callbacks that a task inherits, before they are copied. It is an error if there are
    /// too many.
    pub(crate) fn count_given(&mut self, count: usize) -> Result<(), SigFault> {
        match self.room.checked_sub(count) {
            Some(room) => {
                self.room = room;
                Ok(())
            }
            None => Err(SigFault::TooMany),
        }
    }
}
