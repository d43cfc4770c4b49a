//! Celery's own tasks that call another task with each of some items: maps, starmaps and chunks.

use crate::changes::Change;
use crate::context::Context;
use crate::inherited::Inherited;
use crate::shape::{called_task, takes_items};
use bumpalo::Bump;
use canvas_semantics::MOST_TASKS;
use canvas_sig::SigFault;
use canvas_sig::parts::{Datum, kwarg_of, listed};
use std::slice;

const MOST_CALLS: usize = MOST_TASKS as usize;

/// Turns an item into a call of a task with it. The call takes no input.
fn make_call<'a>(
    arena: &'a Bump,
    task: &Datum<'a>,
    is_argument: bool,
    item: &mut Datum<'a>,
) -> Result<(), SigFault> {
    if is_argument {
        *item = Datum::List(arena.try_alloc_slice_copy(slice::from_ref(item))?);
    }
    let members = [
        ("args", *item),
        ("immutable", Datum::Bool(true)),
        ("task", *task),
    ];
    *item = Datum::Object(arena.try_alloc_slice_copy(&members)?);
    Ok(())
}

/// Turns a value into a group of these members.
fn make_group<'a>(
    arena: &'a Bump,
    value: &mut Datum<'a>,
    members: &'a [Datum<'a>],
) -> Result<(), SigFault> {
    let kwargs = arena.try_alloc_slice_copy(&[("tasks", Datum::List(members))])?;
    let members = [
        ("kwargs", Datum::Object(kwargs)),
        ("subtask_type", Datum::Text("group")),
        ("task", Datum::Text("celery.group")),
    ];
    *value = Datum::Object(arena.try_alloc_slice_copy(&members)?);
    Ok(())
}

/// Returns the calls with all items.
fn calls_of<'a>(arena: &'a Bump, value: &Datum<'a>) -> Result<&'a [Datum<'a>], SigFault> {
    let items = listed(kwarg_of(value, "it"));
    let Some(task) = called_task(value) else {
        return Ok(items);
    };
    if items.len() > MOST_CALLS {
        return Err(SigFault::TooMany);
    }
    let calls = arena.try_alloc_slice_copy(items)?;
    for call in calls.iter_mut() {
        make_call(arena, task, takes_items(value), call)?;
    }
    Ok(calls)
}

impl<'a> Context<'a> {
    /// Makes it a group of the calls with all items.
    pub(crate) fn adapt_calls(
        &mut self,
        value: &mut Datum<'a>,
        given: &Inherited<'a>,
        left: u32,
    ) -> Result<(), SigFault> {
        let calls = calls_of(self.arena, value)?;
        self.count(Change::Map, 1);
        let given = self.with_own(value, &given.of_group(), left)?;
        let calls = self.adapted_tasks(calls, &given, left)?;
        make_group(self.arena, value, calls)
    }
}
