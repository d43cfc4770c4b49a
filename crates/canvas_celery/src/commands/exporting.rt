//! The start of a plan as commands for Redis, in one text.

ghost use Rattle.std.specs.Prelude.{◌≡◌, IfOk, Some, map};
ghost use Rattle.canvas_semantics.specs.PlacedLine.{bare};
ghost use Rattle.canvas_effects.specs.Effects.{first_messages};
ghost use Rattle.canvas_celery.specs.Resp.{resp};
ghost use Rattle.canvas_celery.specs.Starting.{starting};
ghost use Rattle.canvas_celery.specs.Start.{start};
ghost use Rattle.canvas_celery.specs.ExportView.{setting, naming_of};
ghost use Rattle.canvas_celery.specs.Envelope.{message_text};
ghost use Rattle.canvas_celery.specs.Sizeless.{sizeless};
ghost use Rattle.canvas_celery.specs.ExportReading.{read_export, started};

use crate::Run;
use crate::commands::Target;
use crate::commands::parts::Parts;
use crate::commands::write::Names;
use canvas_rewrite::Plan;
use canvas_task::Memory;
use std::alloc::Global;

/// Returns the commands that start a plan, in the Redis serialization protocol; none if no task
/// starts. They put on the queue the text of each message that the plan starts with, in their
/// order, and set the size of each chord whose header starts under its key. Both read back from the
/// bytes; no message has a chord's size.
pub fn export(alloc: Global, plan: &Plan, run: &Run, target: &Target<'_>) -> Result<Vec<u8>, Memory>
    ensures bytes { IfOk result (λ bytes. bytes.items
        ≡ resp (start run.now.digits (setting target.now) (starting (bare plan.now))
        (map (message_text (naming_of run.now.digits plan.now) target.now.queue.now)
        (first_messages plan.now)))) }
    ensures reads_back { IfOk result (λ bytes. read_export bytes.items
        ≡ Some (started (starting (bare plan.now)) (map sizeless (first_messages plan.now)))) }
{
    // The type of the run's number gives its length.
    let _digits = run.digits();
    let parts = Parts::of(alloc, plan, run, target)?;
    let names = Names { run, plan };
    let mut bytes = Vec::new(alloc);
    match parts.write(alloc, &names, target.queue, &mut bytes) {
        Ok(()) => Ok(bytes),
        Err(_) => Err(Memory),
    }
}
