//! Renaming the tasks of a JSON value.

use crate::member::set_member;
use crate::part::{Part, callback_parts, inner_parts, set_values, values_at};
use crate::renames::{Rename, name_of};
use bumpalo::Bump;
use canvas_sig::SigFault;
use canvas_sig::parts::{Datum, MOST_LEVELS, primitive_of};
use canvas_values::Primitive;

/// A walk over the tasks of a canvas, in the order of their numbers.
#[derive(Drop)]
struct Walk<'a> {
    arena: &'a Bump,
    renames: &'a [Rename],
    /// The number of the latest task.
    task: u32,
}

impl<'a> Walk<'a> {
    /// Renames the next task, if it has another name.
    fn name_task(&mut self, task: &mut Datum<'a>) -> Result<(), SigFault> {
        self.task = self.task.saturating_add(1);
        match name_of(self.renames, self.task) {
            Some(name) => set_member(self.arena, task, "task", &Datum::Text(name)),
            None => Ok(()),
        }
    }

    #[cycle(node)]
    fn rename_part(
        &mut self,
        value: &mut Datum<'a>,
        part: Part,
        left: u32,
    ) -> Result<(), SigFault> {
        let renamed = self.arena.try_alloc_slice_copy(values_at(value, part))?;
        for inner in renamed.iter_mut() {
            self.rename_node(inner, left)?;
        }
        if renamed.is_empty() {
            return Ok(());
        }
        set_values(self.arena, value, part, renamed)
    }

    /// Renames the tasks in a signature. Signatures in it nest at most `left` deep.
    #[cycle(node)]
    fn rename_node(&mut self, value: &mut Datum<'a>, left: u32) -> Result<(), SigFault> {
        if left == 0 {
            return Ok(());
        }
        let primitive = primitive_of(value.get("subtask_type"));
        if matches!(primitive, Some(Primitive::Task)) {
            self.name_task(value)?;
        }
        for part in callback_parts() {
            self.rename_part(value, *part, left - 1)?;
        }
        for part in inner_parts(primitive) {
            self.rename_part(value, *part, left - 1)?;
        }
        Ok(())
    }
}

/// Renames the tasks of these numbers, which are in file order: a task, its links, its error
/// callbacks, then what follows; a header before its body.
pub(crate) fn name_tasks<'a>(
    arena: &'a Bump,
    value: &mut Datum<'a>,
    renames: &'a [Rename],
) -> Result<(), SigFault> {
    let mut walk = Walk {
        arena,
        renames,
        task: 0,
    };
    walk.rename_node(value, MOST_LEVELS)
}
