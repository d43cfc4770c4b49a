//! Callbacks that are chains or groups, which are replaced by their tasks.

use crate::arena_vec::ArenaVec;
use crate::changes::Change;
use crate::context::Context;
use crate::inherited::{callbacks_of, weight_of};
use crate::member::{drop_callbacks, set_inner};
use crate::part::{Part, callback_parts, inner_parts, set_values, values_at};
use crate::shape::{Shape, form_of, is_task};
use canvas_sig::parts::{Datum, MOST_LEVELS, is_true, kwarg_of, listed, own_fault, primitive_of};
use canvas_sig::{MOST_BYTES, SigFault};

/// The greatest number of tasks that may follow each other in a callback, since signatures are
/// nested no deeper.
const MOST_DEPTH: u32 = 8;

/// The number of steps for each byte that is given to a task.
const STEPS_OF_BYTE: usize = 8;

/// The continuation of a part of a callback.
#[derive(Clone, Copy, Drop)]
struct Next<'a> {
    /// The tasks that follow it, as links.
    tasks: &'a [Datum<'a>],
    /// The error callbacks of the signatures that contain the part.
    errbacks: &'a [Datum<'a>],
    /// The number of tasks that follow each other there.
    depth: u32,
    /// Whether another part of a chain follows, so that a group would be a chord.
    is_followed: bool,
}

/// Returns the continuation of a whole callback, which is empty.
fn nothing<'a>() -> Next<'a> {
    Next {
        tasks: &[],
        errbacks: &[],
        depth: 0,
        is_followed: false,
    }
}

/// Returns whether none of the tasks takes an input.
fn are_immutable(tasks: &[Datum<'_>]) -> bool {
    for task in tasks {
        if !is_true(task.get("immutable")) {
            return false;
        }
    }
    true
}

/// Returns whether Celery calls these tasks for a callback: a chain that is called for a failure
/// gets three arguments, and passes them to those of its tasks that take input.
fn are_called(callback: &Datum<'_>, name: &str, tasks: &[Datum<'_>]) -> bool {
    name != "link_error" || !matches!(form_of(callback), Shape::Chain) || are_immutable(tasks)
}

impl<'a> Context<'a> {
    /// Returns callbacks, followed by others.
    fn chained(
        &mut self,
        own: &'a [Datum<'a>],
        others: &'a [Datum<'a>],
    ) -> Result<&'a [Datum<'a>], SigFault> {
        let mut made = ArenaVec::new(self.arena);
        made.push_all(own)?;
        made.push_all(others)?;
        Ok(made.done())
    }

    /// Returns error callbacks, followed by those of the others that aren't among them.
    fn alarmed(
        &mut self,
        own: &'a [Datum<'a>],
        others: &'a [Datum<'a>],
    ) -> Result<&'a [Datum<'a>], SigFault> {
        let mut made = ArenaVec::new(self.arena);
        made.push_all(own)?;
        for other in others {
            self.add_new(&mut made, other)?;
        }
        Ok(made.done())
    }

    /// Counts the steps for giving callbacks to a task.
    fn step_all(&mut self, given: &[Datum<'a>]) -> Result<(), SigFault> {
        for value in given {
            self.step(weight_of(value, MOST_BYTES).saturating_mul(STEPS_OF_BYTE))?;
        }
        Ok(())
    }

    /// Gives a task these callbacks under a name in its options.
    fn give_all(
        &mut self,
        task: &mut Datum<'a>,
        name: &'a str,
        callbacks: &'a [Datum<'a>],
    ) -> Result<(), SigFault> {
        self.step_all(callbacks)?;
        set_inner(self.arena, task, "options", name, &Datum::List(callbacks))
    }

    /// Returns a task with its continuation, or None if too many tasks would follow each other.
    fn task_before(
        &mut self,
        task: &Datum<'a>,
        next: Next<'a>,
    ) -> Result<Option<Next<'a>>, SigFault> {
        if next.depth >= MOST_DEPTH {
            return Ok(None);
        }
        let mut made = *task;
        if !next.tasks.is_empty() {
            let links = self.chained(callbacks_of(task, "link"), next.tasks)?;
            self.give_all(&mut made, "link", links)?;
        }
        if !next.errbacks.is_empty() {
            let errbacks = self.alarmed(callbacks_of(task, "link_error"), next.errbacks)?;
            self.give_all(&mut made, "link_error", errbacks)?;
        }
        let tasks = self.arena.try_alloc_slice_copy(&[made])?;
        Ok(Some(Next {
            tasks,
            depth: next.depth.saturating_add(1),
            ..next
        }))
    }

    /// Returns the continuation of the tasks in a chain or group, which includes its own callbacks.
    fn with_callbacks(&mut self, value: &Datum<'a>, next: Next<'a>) -> Result<Next<'a>, SigFault> {
        let tasks = self.chained(callbacks_of(value, "link"), next.tasks)?;
        let errbacks = self.chained(callbacks_of(value, "link_error"), next.errbacks)?;
        Ok(Next {
            tasks,
            errbacks,
            ..next
        })
    }

    /// Returns whether a chain or group has faults of its own other than its callbacks.
    fn is_faulty(&mut self, value: &Datum<'a>) -> Result<bool, SigFault> {
        let mut bare = *value;
        drop_callbacks(self.arena, &mut bare)?;
        Ok(own_fault(&bare, false).is_some())
    }

    /// Returns the first tasks of a chain's elements. It goes through the elements from the last.
    #[cycle(start)]
    fn starts_of_elements(
        &mut self,
        elements: &'a [Datum<'a>],
        next: Next<'a>,
        left: u32,
    ) -> Result<Option<Next<'a>>, SigFault> {
        let mut behind = next;
        for element in elements.iter().rev() {
            let Some(Next { tasks, depth, .. }) = self.starts(element, behind, left)? else {
                return Ok(None);
            };
            behind = Next {
                tasks,
                depth,
                is_followed: true,
                ..next
            };
        }
        Ok(Some(behind))
    }

    /// Appends the first tasks of a member of a group, and returns how many tasks then follow each
    /// other, or None if tasks with callbacks cannot express it.
    #[cycle(start)]
    fn add_starts(
        &mut self,
        made: &mut ArenaVec<'a, Datum<'a>>,
        member: &'a Datum<'a>,
        next: Next<'a>,
        left: u32,
    ) -> Result<Option<u32>, SigFault> {
        let Some(Next { tasks, depth, .. }) = self.starts(member, next, left)? else {
            return Ok(None);
        };
        made.push_all(tasks)?;
        Ok(Some(depth))
    }

    /// Returns the first tasks of a group's members. A group that something follows would be a
    /// chord.
    #[cycle(start)]
    fn starts_of_members(
        &mut self,
        members: &'a [Datum<'a>],
        next: Next<'a>,
        left: u32,
    ) -> Result<Option<Next<'a>>, SigFault> {
        if next.is_followed {
            return Ok(None);
        }
        let mut made = ArenaVec::new(self.arena);
        let mut deepest = next.depth;
        for member in members {
            match self.add_starts(&mut made, member, next, left)? {
                Some(depth) => deepest = deepest.max(depth),
                None => return Ok(None),
            }
        }
        Ok(Some(Next {
            tasks: made.done(),
            depth: deepest,
            ..next
        }))
    }

    /// Returns the first tasks of a part of a callback, with their continuation, or None if tasks
    /// with callbacks cannot express it.
    #[cycle(start)]
    fn starts(
        &mut self,
        value: &'a Datum<'a>,
        next: Next<'a>,
        left: u32,
    ) -> Result<Option<Next<'a>>, SigFault> {
        let form = form_of(value);
        if matches!(form, Shape::Task) {
            return self.task_before(value, next);
        }
        if left == 0 || self.is_faulty(value)? {
            return Ok(None);
        }
        let next = self.with_callbacks(value, next)?;
        let inner = listed(kwarg_of(value, "tasks"));
        match form {
            Shape::Chain => self.starts_of_elements(inner, next, left - 1),
            Shape::Group => self.starts_of_members(inner, next, left - 1),
            _ => Ok(None),
        }
    }

    /// Returns the tasks that replace a callback, if there are any.
    fn tasks_for(
        &mut self,
        callback: &'a Datum<'a>,
        name: &str,
    ) -> Result<Option<&'a [Datum<'a>]>, SigFault> {
        if is_task(callback) {
            return Ok(None);
        }
        match self.starts(callback, nothing(), MOST_LEVELS)? {
            Some(next) if are_called(callback, name, next.tasks) => {
                self.count(Change::Compound, 1);
                Ok(Some(next.tasks))
            }
            _ => Ok(None),
        }
    }

    /// Appends a callback, or the tasks that replace it.
    fn add_callback(
        &mut self,
        made: &mut ArenaVec<'a, Datum<'a>>,
        callback: &'a Datum<'a>,
        name: &str,
    ) -> Result<(), SigFault> {
        match self.tasks_for(callback, name)? {
            Some(tasks) => made.push_all(tasks),
            None => made.push(*callback),
        }
    }

    /// Returns callbacks of this name, with chains and groups replaced by their tasks.
    fn as_tasks(
        &mut self,
        callbacks: &'a [Datum<'a>],
        name: &str,
    ) -> Result<&'a [Datum<'a>], SigFault> {
        let mut made = ArenaVec::new(self.arena);
        for callback in callbacks {
            self.add_callback(&mut made, callback, name)?;
        }
        Ok(made.done())
    }

    /// Replaces callbacks in the signatures of a part, and in the part itself if it is one of
    /// callbacks.
    #[cycle(compound)]
    fn split_part(&mut self, value: &mut Datum<'a>, part: Part, left: u32) -> Result<(), SigFault> {
        let before = self.changes.compounds;
        let values = self.arena.try_alloc_slice_copy(values_at(value, part))?;
        for inner in values.iter_mut() {
            self.split_callbacks(inner, left)?;
        }
        let made = match part {
            Part::Callbacks(name) => self.as_tasks(values, name)?,
            Part::Inner(_) => values,
        };
        if self.changes.compounds == before {
            return Ok(());
        }
        set_values(self.arena, value, part, made)
    }

    /// Replaces the callbacks that are chains or groups by their tasks, in a signature and in those
    /// nested in it, at most `left` deep.
    #[cycle(compound)]
    pub(crate) fn split_callbacks(
        &mut self,
        value: &mut Datum<'a>,
        left: u32,
    ) -> Result<(), SigFault> {
        if left == 0 {
            return Ok(());
        }
        for part in callback_parts() {
            self.split_part(value, *part, left - 1)?;
        }
        for part in inner_parts(primitive_of(value.get("subtask_type"))) {
            self.split_part(value, *part, left - 1)?;
        }
        Ok(())
    }
}
