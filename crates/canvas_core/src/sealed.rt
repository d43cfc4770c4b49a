//! Envelopes that are to be published.

ghost use Rattle.std.specs.Prelude.{◌≡◌, Ok, IfOk};
ghost use Rattle.std.specs.Coded.{codes};
ghost use Rattle.canvas_envelope.specs.codes.ContentCode.{content_code};
ghost use Rattle.canvas_runs.specs.Worker.{read_envelope};
ghost use Rattle.canvas_core.specs.EnvelopeWorker.{said, envelope_of};

use canvas_envelope::{Followed, Letter, Message};
use canvas_task::Memory;
use std::alloc::Global;

/// An envelope that a message can be read from.
#[derive(Drop)]
pub(crate) struct Sealed {
    pub envelope: Letter,
    ghost back: { read_envelope envelope
        ≡ Ok (said envelope) } by { Prim.hlevel (codes, content_code) },
}

pub(crate) fn seal(alloc: Global, message: Message) -> Result<Sealed, Memory>
    ensures { IfOk result (λ s. s.envelope ≡ envelope_of message) }
{
    let envelope = canvas_codec::seal(alloc, message)?;
    Ok(Sealed { envelope })
}

/// Like `seal`, of a message that is kept apart from the rest of its line.
pub(crate) fn seal_followed(alloc: Global, followed: Followed) -> Result<Sealed, Memory>
    ensures { IfOk result (λ s. s.envelope ≡ envelope_of followed) }
{
    let envelope = canvas_codec::seal_followed(alloc, followed)?;
    Ok(Sealed { envelope })
}
