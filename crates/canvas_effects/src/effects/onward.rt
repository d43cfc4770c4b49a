//! The effects of the end of a task whose message is kept apart from the rest of its line.
//!
//! Mostly the task succeeds, calls nothing back, and a task comes next on the line. Then the
//! message of that task takes over the rest of the line as it is. In any other case the message and
//! the rest are put together, which moves the rest once.

ghost use Rattle.std.specs.Prelude.{◌≡◌, ◌∷◌, [], true, None, IfOk};
ghost use Rattle.canvas_task.specs.Apply.{IsInRange};
ghost use Rattle.canvas_task.specs.Numbers.{in_range};
ghost use Rattle.canvas_task.specs.declared.outcome.Outcome.TheVariants.{Success};
ghost use Rattle.canvas_semantics.specs.PlacedLine.{no_p_tasks};
ghost use Rattle.canvas_envelope.specs.Content.{links_of};
ghost use Rattle.canvas_effects.specs.Effects.{after};
ghost use Rattle.canvas_effects.specs.Todos.{onward_view};
ghost use Rattle.canvas_effects.specs.steps.Walks.{begins_with_task};

use super::into_todo;
use super::moved::texts_behind;
use super::task_messages::message_from;
use crate::Onward;
use crate::input::Input;
use canvas_envelope::{Followed, Texts};
use canvas_task::{Memory, Outcome};
use std::alloc::{AllocError, Global};

/// Returns whether a task comes next.
fn has_next(followed: &Followed) -> bool
    ensures { result ≡ begins_with_task followed.now.rest }
{
    !followed.tasks.is_empty()
}

/// Returns whether the message of the next task is all that follows a success.
fn only_next(followed: &Followed) -> bool
    ensures links { result ≡ true → links_of followed.now.own ≡ no_p_tasks }
    ensures next { result ≡ true → begins_with_task followed.now.rest ≡ true }
{
    followed.message.links.get().is_empty() && has_next(followed)
}

/// Makes the message of the next task. It takes over the rest of the line.
fn next_of(alloc: Global, followed: Followed, number: i64) -> Result<Followed, AllocError>
    requires number { IsInRange (Success number) }
    requires links { links_of followed.own ≡ no_p_tasks }
    requires next { begins_with_task followed.rest ≡ true }
    ensures { IfOk result (λ m. record { stores = []; messages = m ∷ []; part = None }
        ≡ after followed (Success number)) }
{
    let Followed {
        message,
        tasks,
        tail,
        texts,
    } = followed;
    let parent = Some(message.task);
    let mut tasks = tasks;
    match tasks.pop_front() {
        Some(next) => {
            let input = Input::Number(number);
            let texts = texts_behind(texts);
            let message = message_from(alloc, next, &input, &parent, None, Texts::none())?;
            Ok(Followed {
                message,
                tasks,
                tail,
                texts,
            })
        }
        None => unreachable!(),
    }
}

/// Returns what follows the end of a message's task, like `into_todo`. If the next task of the line
/// is all that follows, its message takes over the rest of the line as it is.
pub fn into_onward(alloc: Global, followed: Followed, outcome: &Outcome) -> Result<Onward, Memory>
    requires { IsInRange outcome.now }
    ensures { IfOk result (λ onward. onward_view onward ≡ after followed outcome.now) }
{
    match outcome {
        Outcome::Success(number) if only_next(&followed) => {
            Ok(Onward::Next(next_of(alloc, followed, *number)?))
        }
        _ => Ok(Onward::Todo(into_todo(alloc, followed.into_message(), outcome)?)),
    }
}
