//! The tasks that a task comes after.
ghost use Rattle.std.specs.Prelude.{◌≡◌, ◌∷◌, [], IfOk};
ghost use Rattle.canvas_ran.specs.Fronts.{at_end, behind, beyond, first_front, own_end, was_called};

use canvas_report::Fate;
use canvas_task::{ListOf, TaskNo};
use std::alloc::{AllocError, Global};

/// The tasks after whose ends a task comes. Their messages carry its message, and so do those of
/// the tasks that they come after themselves. A message carries all that follows its task, so the
/// texts of a chain of n tasks have n² bytes, and a front has only what comes right before.
#[derive(Drop)]
pub struct Front {
    /// The tasks in the order of their numbers. It is empty for a task that a run starts with.
    pub after: ListOf<TaskNo>,
    /// If a header's completion publishes the message: the tasks that its chord comes after. This
    /// distinguishes the chord of one task from a chain, of which a redelivered message starts
    /// another part.
    pub header_after: Option<ListOf<TaskNo>>,
}

fn copy_of(tasks: &Option<ListOf<TaskNo>>) -> Result<Option<ListOf<TaskNo>>, AllocError>
    ensures { IfOk result (λ same. same ≡ tasks.now) }
{
    match tasks {
        Some(tasks) => Ok(Some(tasks.clone()?)),
        None => Ok(None),
    }
}

impl Front {
    /// Returns the front of the tasks that a run starts with.
    pub(crate) fn first(alloc: Global) -> Front
        ensures { result ≡ first_front }
    {
        Front {
            after: ListOf::of(Vec::new(alloc)),
            header_after: None,
        }
    }

    pub(crate) fn copy(&self) -> Result<Front, AllocError>
        ensures { IfOk result (λ same. same ≡ self.now) }
    {
        Ok(Front {
            after: self.after.clone()?,
            header_after: copy_of(&self.header_after)?,
        })
    }

    /// Returns the front after the end of a task that is called.
    fn at_end(alloc: Global, task: TaskNo) -> Result<Front, AllocError>
        ensures { IfOk result (λ front. front ≡ at_end task) }
    {
        Ok(Front {
            after: ListOf::of(only(alloc, task)?),
            header_after: None,
        })
    }

    /// Returns the front of what follows a task with this front.
    pub(crate) fn behind(
        &self,
        alloc: Global,
        fates: &[(TaskNo, Fate)],
        task: TaskNo,
    ) -> Result<Front, AllocError>
        ensures { IfOk result (λ front. front ≡ behind fates.now task self.now) }
    {
        if was_called(fates, task) {
            Front::at_end(alloc, task)
        } else {
            self.copy()
        }
    }

    /// Returns the front of what follows a header with this front and these ends.
    pub(crate) fn beyond(&self, ends: Vec<TaskNo>) -> Result<Front, AllocError>
        ensures { IfOk result (λ front. front ≡ beyond ends.items self.now) }
    {
        if ends.is_empty() {
            return self.copy();
        }
        Ok(Front {
            after: ListOf::of(ends),
            header_after: Some(self.after.clone()?),
        })
    }
}

/// Returns whether a task was called.
fn was_called(fates: &[(TaskNo, Fate)], task: TaskNo) -> bool
    ensures { result ≡ was_called fates.now task }
{
    match fates.get(task.get() as usize - 1) {
        Some((_, Fate::Ran)) => true,
        _ => false,
    }
}

fn only(alloc: Global, task: TaskNo) -> Result<Vec<TaskNo>, AllocError>
    ensures { IfOk result (λ tasks. tasks.items ≡ task ∷ []) }
{
    let mut tasks = Vec::new(alloc);
    tasks.push(task)?;
    Ok(tasks)
}

/// Returns the end of a task that comes after these ends.
pub(crate) fn own_end(
    alloc: Global,
    fates: &[(TaskNo, Fate)],
    task: TaskNo,
    before: Vec<TaskNo>,
) -> Result<Vec<TaskNo>, AllocError>
    ensures { IfOk result (λ ends. ends.items ≡ own_end fates.now task before.items) }
{
    if was_called(fates, task) {
        only(alloc, task)
    } else {
        Ok(before)
    }
}
