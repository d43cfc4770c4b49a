//! What follows the start of a canvas, the end of a task, and the members of a header.

ghost use Rattle.std.specs.Prelude.{All};
ghost use Rattle.canvas_task.specs.Apply.{IsInRange};

use canvas_message::{Message, PartCall, Todo, after, body_after, first_messages};
use canvas_rewrite::Plan;
use canvas_samples::{CHAIN, CHORD, SKIPPED, ZERO_DIVISION, group, plan_of, raised_by_2, task};
use canvas_task::{Arg, ListOf, Outcome, TaskNo, TextOf};
use std::alloc::Global;
use std::slice;

/// Whether a plan's first messages are those of these tasks.
fn begins_with(alloc: Global, plan: &Plan, tasks: &[u32]) -> bool {
    match first_messages(alloc, plan) {
        Ok(messages) => {
            messages.len() == tasks.len()
                && messages
                    .iter()
                    .zip(tasks)
                    .all(|(message, number)| message.task.get() == *number)
        }
        Err(_) => false,
    }
}

/// The first message of a plan that is of this task.
fn message_of(alloc: Global, plan: &Plan, number: TaskNo) -> Option<Message> {
    for message in first_messages(alloc, plan).ok()? {
        if message.task == number {
            return Some(message);
        }
    }
    None
}

/// What follows the end of a plan's task, one that starts at once.
fn follows(alloc: Global, plan: &Plan, number: TaskNo) -> Option<Todo> {
    match message_of(alloc, plan, number) {
        Some(message) => after(alloc, &message, &ZERO_DIVISION).ok(),
        None => None,
    }
}

fn has_stores(todo: &Todo, stores: &[(TaskNo, Outcome)]) -> bool {
    todo.stores.get().as_slice() == stores
}

/// The end of task 2 stores and publishes nothing, and returns its part of chord 1 of three.
fn is_a_part(todo: &Todo) -> bool {
    match &todo.part {
        Some(part) => {
            part.group == group(1)
                && part.task == task(2)
                && part.chord.size == 3
                && todo.messages.get().is_empty()
                && has_stores(todo, &[])
        }
        None => false,
    }
}

/// The end of task 1 stores all tasks that follow it, and does nothing else.
fn skips_all(todo: &Todo) -> bool {
    let skipped = [
        (task(2), ZERO_DIVISION),
        (task(3), ZERO_DIVISION),
        (task(4), ZERO_DIVISION),
    ];
    has_stores(todo, &skipped) && todo.messages.get().is_empty() && todo.part.is_none()
}

fn is_argument(message: &Message, wanted: &Arg) -> bool {
    message.args.get().as_slice() == slice::from_ref(wanted)
}

/// Whether this is all that follows a header: these stores, and one message, of this task.
fn is_all(todo: &Todo, stores: &[(TaskNo, Outcome)], number: TaskNo, wanted: &Arg) -> bool {
    match todo.messages.get().as_slice() {
        [message] => {
            message.task == number
                && is_argument(message, wanted)
                && has_stores(todo, stores)
                && todo.part.is_none()
        }
        _ => false,
    }
}

/// The outcomes of the three members, the second as given.
fn outcomes_with(second: Outcome) -> [(TaskNo, Outcome); 3]
    requires { IsInRange second }
    ensures { All (λ e. IsInRange e.1) result }
{
    [
        (task(1), Outcome::Success(8)),
        (task(2), second),
        (task(3), Outcome::Success(16)),
    ]
}

/// A failed member fails the body, whose error callback is called with the body's identifier.
fn raises(alloc: Global, part: &PartCall, identifier: &Arg) -> bool {
    match body_after(alloc, &part.chord, &outcomes_with(ZERO_DIVISION)) {
        Ok(todo) => is_all(&todo, &[(task(4), raised_by_2())], task(5), identifier),
        Err(_) => false,
    }
}

/// The body is called with the list of the results in header order.
fn starts(alloc: Global, part: &PartCall, results: &Arg) -> bool {
    match body_after(alloc, &part.chord, &outcomes_with(Outcome::Success(1))) {
        Ok(todo) => is_all(&todo, &[], task(4), results),
        Err(_) => false,
    }
}

/// Both, of the part that the end of a task returns.
fn is_completed(alloc: Global, part: &PartCall) -> Option<bool> {
    let text = String::from_str(alloc, "00000000-0000-8000-8000-000000000004").ok()?;
    let results = vec![in alloc; 8i64, 1, 16].ok()?;
    let identifier = Arg::Text(TextOf::of(text));
    let results = Arg::List(ListOf::of(results));
    Some(raises(alloc, part, &identifier) && starts(alloc, part, &results))
}

/// Whether the end of the chord's second task, and the completion of its header, do what they
/// should.
fn is_chord(alloc: Global, plan: &Plan) -> bool {
    match follows(alloc, plan, task(2)) {
        Some(todo) => match &todo.part {
            Some(part) => is_a_part(&todo) && is_completed(alloc, part) == Some(true),
            None => false,
        },
        None => false,
    }
}

fn skips(alloc: Global, plan: &Plan) -> bool {
    match follows(alloc, plan, task(1)) {
        Some(todo) => skips_all(&todo),
        None => false,
    }
}

/// What is wrong with what follows, if anything is.
fn wrong(alloc: Global) -> Option<&'static str> {
    match (
        plan_of(alloc, CHORD),
        plan_of(alloc, CHAIN),
        plan_of(alloc, SKIPPED),
    ) {
        (Some(chord), Some(chain), Some(skipped)) => {
            if !begins_with(alloc, &chord, &[1, 2, 3]) || !begins_with(alloc, &chain, &[1]) {
                Some("first messages")
            } else if !is_chord(alloc, &chord) {
                Some("a chord")
            } else if !skips(alloc, &skipped) {
                Some("a chain")
            } else {
                None
            }
        }
        _ => Some("no plan"),
    }
}

#[test]
fn what_follows(rt: HostRuntime) {
    let wrong = wrong(rt.alloc());
    assert!(rt; wrong.is_none(), "{wrong:?}");
}
