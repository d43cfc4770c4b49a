//! Whether the part of a script is due after the latest store of its task.
//!
//! The latest store of the part's own task counts. In a canvas that is the latest of all. In a
//! message that no canvas gives, a task of a greater number may be stored after it, and its First
//! would let a seat return what another stored.

ghost use Rattle.std.specs.Prelude.{◌≡◌, cond};
ghost use Rattle.canvas_runs.specs.Core.{is_due};
ghost use Rattle.canvas_core.specs.Scripts.{jobs_of};

use crate::script::Script;
use canvas_backend::Stored;
use canvas_task::TaskNo;

/// Returns whether the script returns a part of the task.
fn is_due(script: &Script, task: TaskNo) -> bool
    ensures { result ≡ is_due task (jobs_of script.now) }
{
    match &script.part {
        Some(part) => task == part.task,
        None => false,
    }
}

/// Returns what the latest store of the part's task answered, once a store is answered. A store of
/// another task changes nothing.
pub(crate) fn latest(script: &Script, task: TaskNo, stored: Stored) -> Stored
    ensures { result ≡ cond (is_due task (jobs_of script.now)) stored script.now.latest }
{
    if is_due(script, task) {
        stored
    } else {
        script.latest
    }
}
