//! A start whose messages' texts are made as they are written.

ghost use Rattle.std.specs.Prelude.{◌≡◌, IfOk, OnOk, map};
ghost use Rattle.std.specs.Io.KnownBytes.{Appends};
ghost use Rattle.canvas_semantics.specs.PlacedLine.{bare};
ghost use Rattle.canvas_effects.specs.Effects.{first_messages};
ghost use Rattle.canvas_celery.specs.Resp.{resp};
ghost use Rattle.canvas_celery.specs.Starting.{starting};
ghost use Rattle.canvas_celery.specs.Start.{start};
ghost use Rattle.canvas_celery.specs.ExportView.{setting, naming_of};
ghost use Rattle.canvas_celery.specs.Envelope.{message_text};

use crate::Run;
use crate::commands::Target;
use crate::commands::parts::Parts;
use crate::commands::write::Names;
use canvas_rewrite::Plan;
use canvas_task::Memory;
use std::alloc::Global;
use std::io::{self, Write};
use std::marker::Model;

/// The commands that start a plan, of which contracts see the bytes that `export` gives. It has the
/// plan's messages and none of their texts, which may be long and alike: a thousand members of a
/// chord all carry its body.
#[derive(Drop)]
pub struct Start {
    plan: Plan,
    run: Run,
    queue: String,
    parts: Parts,
}

impl Model for Start {
    ghost use Rattle.std.specs.Prelude.{List, ℕ, string_bytes};
    ghost use Rattle.std.specs.Coded.{coded_list, coded_ℕ};
    ghost use Rattle.canvas_celery.specs.ExportView.{naming_of};
    ghost use Rattle.canvas_celery.specs.steps.Around.{parts_bytes};

    ghost Value = { List ℕ };

    ghost coded = { coded_list coded_ℕ };

    ghost view = { λ s. parts_bytes (naming_of s.run.digits s.plan) (string_bytes s.queue)
        s.parts };
}

impl Start {
    /// Makes the start of a plan. All that may be refused is refused here, except the memory of one
    /// message's text at a time.
    pub fn of(alloc: Global, plan: Plan, run: &Run, target: &Target<'_>) -> Result<Start, Memory>
        ensures { IfOk result (λ s. s ≡ resp (start run.now.digits (setting target.now)
            (starting (bare plan)) (map (message_text (naming_of run.now.digits plan)
            target.now.queue.now) (first_messages plan)))) }
    {
        let queue = String::from_str(alloc, target.queue)?;
        let parts = Parts::of(alloc, &plan, run, target)?;
        Ok(Start {
            plan,
            run: *run,
            queue,
            parts,
        })
    }

    /// Writes the commands, message by message. After an error some of them may be written; if
    /// memory was refused, its kind says so.
    pub fn write<W: Write>(&self, alloc: Global, out: &mut W) -> io::Result<()>
        ensures { OnOk result (Appends (W.contents out.old) (W.contents out.new) self.now) }
    {
        let names = Names {
            run: &self.run,
            plan: &self.plan,
        };
        self.parts.write(alloc, &names, &self.queue, out)
    }
}
