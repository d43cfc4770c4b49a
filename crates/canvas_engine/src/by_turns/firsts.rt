//! The first messages of a run.
ghost use Rattle.std.specs.Prelude.{◌≡◌, ◌++◌, map, IfOk, OnOk};
ghost use Rattle.canvas_history.specs.Lists.{Each};
ghost use Rattle.canvas_runs.specs.Worker.{sealed};
ghost use Rattle.canvas_engine.specs.steps.TurnRuns.{ReadsAs};
ghost use Rattle.canvas_effects.specs.Effects.{first_messages};
ghost use Rattle.canvas_runs.specs.Turns.{FirstsRead};

use canvas_effects::FirstMessages;
use canvas_envelope::{Letter, Message};
use canvas_rewrite::Plan;
use canvas_task::Memory;
use std::alloc::Global;

/// Writes the envelope of a message, which reads back as it.
fn seal(alloc: Global, message: Message) -> Result<Letter, Memory>
    ensures value { IfOk result (λ e. e ≡ sealed message) }
    ensures back { OnOk result (ReadsAs message) }
{
    canvas_codec::seal(alloc, message)
}

/// Appends the envelopes of messages.
fn seal_all(
    alloc: Global,
    messages: Vec<Message>,
    envelopes: &mut Vec<Letter>,
) -> Result<(), Memory>
    ensures value { OnOk result
        (envelopes.new.items ≡ envelopes.old.items ++ map sealed messages.items) }
    ensures back { OnOk result (Each ReadsAs messages.items) }
{
    for message in messages {
        let envelope = seal(alloc, message)?;
        envelopes.push(envelope)?;
    }
    Ok(())
}

/// Returns the envelopes of the messages of the tasks that start at once.
pub(crate) fn first_envelopes(alloc: Global, plan: &Plan) -> Result<Vec<Letter>, Memory>
    ensures value { IfOk result (λ es. es.items ≡ map sealed (first_messages plan.now)) }
    ensures back { OnOk result (FirstsRead plan.now) }
{
    let mut firsts = FirstMessages::of(alloc, plan)?;
    let mut envelopes = Vec::new(alloc);
    'portions: while let Some(messages) = firsts.next(alloc)? {
        seal_all(alloc, messages, &mut envelopes)?;
    }
    Ok(envelopes)
}
