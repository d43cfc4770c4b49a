//! The signature of one task.
ghost use Rattle.std.specs.Prelude.{◌≡◌, IfOk, map};
ghost use Rattle.canvas_task.specs.declared.arg.Arg.TheVariants.{Num};
ghost use Rattle.canvas_values.specs.SignatureView.{call_of, task_view};

use canvas_task::{Arg, ListOf, MapOf, TextOf};
use std::alloc::{AllocError, Global};
use std::collections::BTreeMap;

/// The signature of a task: the task to call, the arguments, and what runs when it ends. `links`
/// run on its result, `errbacks` (error callbacks) on its identifier if it failed.
#[derive(Drop)]
pub struct TaskSig {
    /// 1 to 128 bytes from `!` to `~`, such as `tasks.add`. `Canvas::of` checks it.
    pub name: TextOf,
    /// Positional arguments. The input comes before them.
    pub args: ListOf<Arg>,
    /// Keyword arguments.
    pub kwargs: MapOf<Arg>,
    /// Whether the task takes no input, as with Celery's `si`.
    pub immutable: bool,
    /// `options.link` in JSON.
    pub links: ListOf<TaskSig>,
    /// `options.link_error` in JSON.
    pub errbacks: ListOf<TaskSig>,
}

fn numbers_as_args(alloc: Global, numbers: &[i64]) -> Result<Vec<Arg>, AllocError>
    ensures { IfOk result (λ args. args.items ≡ map Num numbers.now) }
{
    let mut args = Vec::with_capacity(alloc, numbers.len())?;
    for number in numbers {
        args.push(Arg::Num(*number))?;
    }
    Ok(args)
}

impl TaskSig {
    /// Makes a call with these numbers, as Celery's `add.s(4, 4)` does: it takes an input, and has
    /// neither keyword arguments nor callbacks. Set these in its fields.
    #[tactic(auto, using(crate::proofs::Views::made))]
    pub fn new(alloc: Global, name: &str, numbers: &[i64]) -> Result<TaskSig, AllocError>
        ensures { IfOk result (λ sig. task_view sig ≡ call_of name.now numbers.now) }
    {
        let name = TextOf::of(String::from_str(alloc, name)?);
        let args = ListOf::of(numbers_as_args(alloc, numbers)?);
        Ok(TaskSig {
            name,
            args,
            kwargs: MapOf::of(BTreeMap::new(alloc)),
            immutable: false,
            links: ListOf::of(Vec::new(alloc)),
            errbacks: ListOf::of(Vec::new(alloc)),
        })
    }
}
