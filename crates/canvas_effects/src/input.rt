//! The input of a task.

ghost use Rattle.std.specs.Prelude.{◌≡◌, ◌∷◌, ◌++◌, OnOk};
ghost use Rattle.canvas_semantics.specs.Evaluation.{value};
ghost use Rattle.canvas_effects.specs.Flowing.{input_flow};
ghost use Rattle.canvas_effects.specs.steps.Walks.{input_seen};

use canvas_task::{Arg, ListOf, TaskNo, TextOf};
use std::alloc::{AllocError, Global};

/// The input of a task, in addition to its own arguments. The identifier is that of a failed task.
#[derive(Drop)]
pub(crate) enum Input {
    Nothing,
    Number(i64),
    Numbers(ListOf<i64>),
    Ident(TaskNo),
}

/// Inserts an argument before the others, in a list made anew. To grow a list that another thread
/// made would take the lock of that thread's memory, and it would get room for four.
fn put_first(alloc: Global, args: &mut Vec<Arg>, first: Arg) -> Result<(), AllocError>
    ensures { OnOk result (args.new.items ≡ first ∷ args.old.items) }
{
    let mut all = Vec::with_capacity(alloc, args.len().saturating_add(1))?;
    all.push(first)?;
    all.append(args)?;
    *args = all;
    Ok(())
}

impl Input {
    /// Inserts the input before a task's own arguments.
    pub(crate) fn put_before(&self, alloc: Global, args: &mut Vec<Arg>) -> Result<(), AllocError>
        ensures { OnOk result
            (args.new.items ≡ value (input_flow (input_seen self.now)) ++ args.old.items) }
    {
        match self {
            Input::Nothing => Ok(()),
            Input::Number(number) => put_first(alloc, args, Arg::Num(*number)),
            Input::Numbers(numbers) => put_first(alloc, args, Arg::List(numbers.clone()?)),
            Input::Ident(task) => {
                let text = TextOf::of(task.to_string(alloc)?);
                put_first(alloc, args, Arg::Text(text))
            }
        }
    }
}
