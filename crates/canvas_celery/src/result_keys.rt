//! The keys that results are stored under.

ghost use Rattle.std.specs.Prelude.{◌≡◌, ◌++◌, OnOk, IfOk};
ghost use Rattle.canvas_semantics.specs.Line.{count_line};
ghost use Rattle.canvas_celery.specs.Keys.{key_line, result_keys};

use crate::Run;
use crate::key::push_key;
use canvas_rewrite::Plan;
use canvas_task::{Memory, TaskNo};
use std::alloc::{AllocError, Global};

fn push_task(out: &mut Vec<u8>, run: &Run, prefix: &str, task: TaskNo) -> Result<(), AllocError>
    ensures { OnOk result (out.new.items
        ≡ out.old.items ++ key_line run.now.digits prefix.now task) }
{
    let id = run.task_text(task);
    push_key(out, prefix.as_bytes(), b"celery-task-meta-", &id, b"\n")
}

/// Returns the keys of all tasks in the order of their numbers, each with a line feed.
pub fn keys(alloc: Global, plan: &Plan, run: &Run, prefix: &str) -> Result<Vec<u8>, Memory>
    ensures { IfOk result (λ text. text.items
        ≡ result_keys run.now.digits prefix.now (count_line plan.now)) }
{
    let mut out = Vec::new(alloc);
    for index in 0..plan.tasks() {
        push_task(&mut out, run, prefix, plan.task_at(index))?;
    }
    Ok(out)
}
