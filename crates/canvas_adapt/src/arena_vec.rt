//! Lists that are built in the arena.

use bumpalo::Bump;
use bumpalo::collections::into_bump_slice;
use canvas_sig::SigFault;

/// A list of the values pushed so far.
#[derive(Drop)]
pub(crate) struct ArenaVec<'a, T> {
    values: Vec<T, &'a Bump>,
}

impl<'a, T: Copy> ArenaVec<'a, T> {
    pub(crate) fn new(arena: &'a Bump) -> ArenaVec<'a, T> {
        ArenaVec {
            values: Vec::new(arena),
        }
    }

    pub(crate) fn push(&mut self, value: T) -> Result<(), SigFault> {
        Ok(self.values.push(value)?)
    }

    pub(crate) fn push_all(&mut self, values: &[T]) -> Result<(), SigFault> {
        Ok(self.values.extend_from_slice(values)?)
    }

    pub(crate) fn get(&self) -> &[T] {
        &self.values
    }

    pub(crate) fn done(self) -> &'a [T] {
        into_bump_slice(self.values)
    }
}
