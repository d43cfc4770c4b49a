//! The parts of a message's script that a core can be in.

ghost use Rattle.std.specs.Prelude.{◌≡◌, ◌<◌, Ok, All, true, length, map};
ghost use Rattle.std.specs.Option.{ForSome};
ghost use Rattle.std.proofs.Props.{props};
ghost use Rattle.std.specs.Coded.{codes};
ghost use Rattle.canvas_task.specs.Apply.{IsInRange};
ghost use Rattle.canvas_effects.specs.Carrying.{carried_ok};
ghost use Rattle.canvas_envelope.specs.Content.{number_of};
ghost use Rattle.canvas_envelope.specs.codes.ContentCode.{content_code};
ghost use Rattle.canvas_effects.specs.Effects.{after, script as whole};
ghost use Rattle.canvas_runs.specs.Worker.{read_envelope};
ghost use Rattle.canvas_core.specs.codes.CoreCode.{carried_code, range_prop};
ghost use Rattle.canvas_history.specs.declared.stored.Stored.TheVariants.{First};
ghost use Rattle.canvas_core.specs.EnvelopeWorker.{said, enclosed};
ghost use Rattle.canvas_core.specs.Scripts.{jobs_of};

use crate::script::Script;
use canvas_effects::ChordBody;
use canvas_envelope::Letter;
use canvas_task::{GroupNo, Outcome, TaskNo};

/// An envelope whose task's outcome isn't stored yet, with all that follows if that store is the
/// first.
#[derive(Drop)]
pub(crate) struct Owned {
    pub envelope: Letter,
    pub task: TaskNo,
    pub outcome: Outcome,
    pub script: Script,
    ghost number: { task ≡ number_of (said envelope).own },
    ghost jobs: { jobs_of script ≡ map enclosed
        (whole (after (said envelope) outcome)) } by { Prim.hlevel (props, codes, content_code, carried_code) },
    ghost latest: { script.latest ≡ First } by { Prim.hlevel props },
    ghost in_range: { IsInRange outcome } by { range_prop outcome },
}

/// A store of a script.
#[derive(Drop)]
pub(crate) struct Storing {
    pub task: TaskNo,
    pub outcome: Outcome,
    pub script: Script,
    ghost in_range: { IsInRange outcome } by { range_prop outcome },
}

/// A publish of a script, with its envelope until it is handed out.
#[derive(Drop)]
pub(crate) struct Publishing {
    pub envelope: Option<Letter>,
    pub script: Script,
    ghost back: { ForSome envelope
        (λ e. read_envelope e ≡ Ok (said e)) } by { Prim.hlevel (props, codes, content_code) },
}

/// A completed header whose members' outcomes are being read.
#[derive(Drop)]
pub(crate) struct Reading {
    pub group: GroupNo,
    pub chord: ChordBody,
    pub found: Vec<(TaskNo, Outcome)>,
    ghost fits: { carried_ok chord ≡ true },
    ghost few: { length found.items < chord.size },
    ghost numbers: { All (λ e. IsInRange e.1) found.items } by { Prim.hlevel (props, range_prop) },
}
