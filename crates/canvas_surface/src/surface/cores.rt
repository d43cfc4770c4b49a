//! A core that is answered by hand: what it asks for one task, and what it drops.

ghost use Rattle.std.specs.Prelude.{◌≡◌};
ghost use Rattle.canvas_runs.specs.Book.{Book as Known};
ghost use Rattle.canvas_core.specs.Asks.{FoundInRange, FoundOf};
ghost use Rattle.canvas_core.specs.declared.ask.Ask.{Ask as Asked};

use canvas_backend::{PlainBackend, Stored};
use canvas_message::{Envelope, Letter, encode, first_messages};
use canvas_rewrite::Plan;
use canvas_samples::{CHORD, ONE, plan_of, task};
use canvas_task::{BuiltinTasks, ListOf, Memory, Outcome};
use canvas_worker::{Ask, Core, Reply};
use std::alloc::{AllocError, Global};

/// What a core is answered here: none of its reads.
#[derive(Drop)]
enum Given {
    Taken(Option<Letter>),
    Stored(Stored),
    Acked,
    NoMore,
}

fn reply_of(given: Given) -> Reply
    ensures found { (b : Known) (a : Asked) → FoundOf b result a }
    ensures in_range { FoundInRange result }
{
    match given {
        Given::Taken(letter) => Reply::Taken(letter),
        Given::Stored(stored) => Reply::Stored(stored),
        Given::Acked => Reply::Acked,
        Given::NoMore => Reply::Rested { more: false },
    }
}

/// Whether a core asks this, and goes on with this answer.
fn goes_on(backend: &PlainBackend, core: &mut Core, ask: Ask, given: Given) -> bool {
    let reply = reply_of(given);
    if core.next() != ask || !core.next().suits(&reply) {
        return false;
    }
    core.answer(backend, &BuiltinTasks, reply).is_ok()
}

fn takes(backend: &PlainBackend, core: &mut Core, letter: Letter) -> bool {
    goes_on(backend, core, Ask::Take, Given::Taken(Some(letter)))
}

/// Takes, stores 4, acknowledges, takes nothing, rests and ends.
fn runs_one(backend: &PlainBackend, core: &mut Core, letter: Letter) -> bool {
    let stores = Ask::Store(task(1), Outcome::Success(4));
    takes(backend, core, letter)
        && core.held().is_some()
        && goes_on(backend, core, stores, Given::Stored(Stored::First))
        && goes_on(backend, core, Ask::Ack(Some(task(1))), Given::Acked)
        && core.held().is_none()
        && core.envelope().is_none()
        && goes_on(backend, core, Ask::Take, Given::Taken(None))
        && goes_on(backend, core, Ask::Rest, Given::NoMore)
        && core.next() == Ask::End
        && core.dropped() == 0
}

/// The letter of a plan's first message.
fn first_letter(alloc: Global, plan: &Plan) -> Option<Letter> {
    match first_messages(alloc, plan) {
        Ok(messages) => match messages.first() {
            Some(message) => match encode(alloc, message) {
                Ok(envelope) => Letter::new(alloc, envelope).ok(),
                Err(Memory) => None,
            },
            None => None,
        },
        Err(Memory) => None,
    }
}

fn one_is_run(alloc: Global, backend: &PlainBackend, plan: &Plan) -> bool {
    match first_letter(alloc, plan) {
        Some(letter) => runs_one(backend, &mut Core::new(alloc), letter),
        None => false,
    }
}

// ---- what it drops

fn bytes_of(alloc: Global, text: &str) -> Result<ListOf<u8>, AllocError> {
    Ok(ListOf::of(text.as_bytes().to_vec(alloc)?))
}

fn letter_of(alloc: Global, properties: &str, headers: &str, body: &str) -> Result<Letter, Memory> {
    let envelope = Envelope {
        properties: bytes_of(alloc, properties)?,
        headers: bytes_of(alloc, headers)?,
        body: bytes_of(alloc, body)?,
    };
    Letter::new(alloc, envelope)
}

/// The message of the second member of the chord, with the number of its task, that of its group,
/// and how many members it says there are.
fn member(alloc: Global, task: u32, group: u32, size: u32) -> Result<Letter, Memory> {
    let properties = format!(in alloc;
        r#"{{"content_encoding":"utf-8","content_type":"application/json","correlation_id":"00000000-0000-8000-8000-00000000000{task}"}}"#
    )?;
    let headers = format!(in alloc;
        r#"{{"group":"00000000-0000-8000-9000-00000000000{group}","id":"00000000-0000-8000-8000-00000000000{task}","lang":"rs","parent_id":null,"root_id":"00000000-0000-8000-8000-000000000001","task":"tasks.div"}}"#
    )?;
    let body = format!(in alloc;
        r#"[[1,0],{{}},{{"callbacks":null,"chain":null,"chord":{{"args":[],"chord_size":{size},"immutable":false,"kwargs":{{}},"options":{{"link_error":[{{"args":[],"immutable":false,"kwargs":{{}},"options":{{"task_id":"00000000-0000-8000-8000-000000000005"}},"subtask_type":null,"task":"tasks.log_error"}}],"task_id":"00000000-0000-8000-8000-000000000004"}},"subtask_type":null,"task":"tasks.xsum"}},"errbacks":null}}]"#
    )?;
    letter_of(alloc, &properties, &headers, &body)
}

/// A letter whose headers name no task.
fn nameless(alloc: Global) -> Result<Letter, Memory> {
    letter_of(
        alloc,
        r#"{"content_encoding":"utf-8","content_type":"application/json"}"#,
        r#"{"id":"00000000-0000-8000-8000-000000000001"}"#,
        "[[2,2],{},null]",
    )
}

/// Whether a letter is dropped, as the one of this number: it is acknowledged as that of no task.
fn is_dropped(
    backend: &PlainBackend,
    core: &mut Core,
    letter: Result<Letter, Memory>,
    count: u64,
) -> bool {
    match letter {
        Ok(letter) => {
            takes(backend, core, letter)
                && core.dropped() == count
                && goes_on(backend, core, Ask::Ack(None), Given::Acked)
                && core.next() == Ask::Take
        }
        Err(Memory) => false,
    }
}

/// Whether a letter that isn't forged is taken up.
fn is_taken_up(backend: &PlainBackend, core: &mut Core, letter: Result<Letter, Memory>) -> bool {
    match letter {
        Ok(letter) => takes(backend, core, letter) && matches!(core.next(), Ask::Store(..)),
        Err(Memory) => false,
    }
}

/// The message of task 2 with another task, another size, and another group; and headers without a
/// task.
fn forgeries_are_dropped(alloc: Global, backend: &PlainBackend) -> bool {
    let mut core = Core::new(alloc);
    is_dropped(backend, &mut core, member(alloc, 9, 1, 3), 1)
        && is_dropped(backend, &mut core, member(alloc, 2, 1, 4), 2)
        && is_dropped(backend, &mut core, member(alloc, 2, 2, 3), 3)
        && is_dropped(backend, &mut core, nameless(alloc), 4)
        && is_taken_up(backend, &mut core, member(alloc, 2, 1, 3))
        && core.dropped() == 4
}

/// What is asked of a core.
#[derive(Clone, Copy, Debug)]
enum Which {
    One,
    Forgeries,
}

fn is_right(alloc: Global, plan: &Plan, which: Which) -> Result<bool, Memory> {
    let backend = PlainBackend::new(alloc, plan)?;
    Ok(match which {
        Which::One => one_is_run(alloc, &backend, plan),
        Which::Forgeries => forgeries_are_dropped(alloc, &backend),
    })
}

fn holds(alloc: Global, text: &str, which: Which) -> bool {
    match plan_of(alloc, text) {
        Some(plan) => matches!(is_right(alloc, &plan, which), Ok(true)),
        None => false,
    }
}

#[test]
fn cores(rt: HostRuntime) {
    assert!(rt; holds(rt.alloc(), ONE, Which::One));
    assert!(rt; holds(rt.alloc(), CHORD, Which::Forgeries));
}
