//! All the envelopes of a script, written before its first store.

ghost use Rattle.std.specs.Prelude.{◌≡◌, ◌∷◌, [], None, IfOk, All, map};
ghost use Rattle.canvas_task.specs.Apply.{IsInRange};
ghost use Rattle.canvas_effects.specs.Effects.{script};
ghost use Rattle.canvas_effects.specs.Todos.{onward_view, todo_view};
ghost use Rattle.canvas_core.specs.EnvelopeWorker.{enclosed, envelope_of};
ghost use Rattle.canvas_core.specs.Scripts.{jobs_of};

use crate::script::Script;
use crate::sealed::{Sealed, seal, seal_followed};
use canvas_backend::Stored;
use canvas_effects::{Onward, Todo};
use canvas_envelope::{Followed, Message};
use canvas_task::Memory;
use std::alloc::Global;
use std::collections::VecDeque;

/// Writes the envelopes of messages.
fn seal_all(alloc: Global, messages: Vec<Message>) -> Result<VecDeque<Sealed>, Memory>
    ensures { IfOk result
        (λ all. map (λ s. s.envelope) all.items ≡ map envelope_of messages.items) }
{
    let mut all = VecDeque::new(alloc);
    for message in messages {
        all.push_back(seal(alloc, message)?)?;
    }
    Ok(all)
}

/// Makes the script for what is to be done, with all its envelopes.
pub(crate) fn script_of(alloc: Global, todo: Todo, latest: Stored) -> Result<Script, Memory>
    requires { All (λ e. IsInRange e.1) todo.stores }
    ensures jobs { IfOk result (λ s. jobs_of s ≡ map enclosed (script (todo_view todo))) }
    ensures latest { IfOk result (λ s. s.latest ≡ latest) }
{
    let Todo {
        stores,
        messages,
        part,
    } = todo;
    Ok(Script {
        stores: VecDeque::from(stores.into_plain()),
        publishes: seal_all(alloc, messages.into_plain())?,
        part,
        latest,
    })
}

/// Makes the script of one publish.
fn script_of_one(alloc: Global, followed: Followed, latest: Stored) -> Result<Script, Memory>
    ensures jobs { IfOk result (λ s. jobs_of s ≡ map enclosed
        (script (record { stores = []; messages = followed ∷ []; part = None }))) }
    ensures latest { IfOk result (λ s. s.latest ≡ latest) }
{
    let sealed = seal_followed(alloc, followed)?;
    let mut publishes = VecDeque::with_capacity(alloc, 1)?;
    publishes.push_back(sealed)?;
    Ok(Script {
        stores: VecDeque::new(alloc),
        publishes,
        part: None,
        latest,
    })
}

/// Makes the script for what follows a task, with all its envelopes.
pub(crate) fn script_onward(alloc: Global, onward: Onward, latest: Stored) -> Result<Script, Memory>
    requires { All (λ e. IsInRange e.1) (onward_view onward).stores }
    ensures jobs { IfOk result (λ s. jobs_of s ≡ map enclosed (script (onward_view onward))) }
    ensures latest { IfOk result (λ s. s.latest ≡ latest) }
{
    match onward {
        Onward::Next(followed) => script_of_one(alloc, followed, latest),
        Onward::Todo(todo) => script_of(alloc, todo, latest),
    }
}
