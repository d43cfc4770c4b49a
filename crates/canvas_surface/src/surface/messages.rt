//! Messages that are built from their fields, the texts that they are written as, and back.

use canvas_message::{Draft, Envelope, Message, MessageFault, decode, encode};
use canvas_rewrite::{Carried, FrozenLine, FrozenTask, Place};
use canvas_task::{Arg, GroupNo, ListOf, MapOf, Memory, TaskNo, TextOf};
use std::alloc::Global;
use std::collections::BTreeMap;
use std::sync::Arc;

fn task(number: u32) -> Result<TaskNo, Memory> {
    TaskNo::new(number).ok_or(Memory)
}

/// A frozen task without arguments and links.
fn frozen(
    alloc: Global,
    number: u32,
    name: &str,
    errbacks: ListOf<FrozenTask>,
) -> Result<FrozenTask, Memory> {
    Ok(FrozenTask {
        no: task(number)?,
        name: TextOf::of(String::from_str(alloc, name)?),
        args: ListOf::of(Vec::new(alloc)),
        kwargs: MapOf::of(BTreeMap::new(alloc)),
        immutable: false,
        links: ListOf::of(Vec::new(alloc)),
        errbacks,
        place: None,
    })
}

/// The body of a chord: task 4, `xsum()`, with task 5, `log_error()`, as its error callback.
fn body(alloc: Global) -> Result<FrozenLine, Memory> {
    let callback = frozen(alloc, 5, "tasks.log_error", ListOf::of(Vec::new(alloc)))?;
    let errbacks = ListOf::of(vec![in alloc; callback]?);
    let sum = frozen(alloc, 4, "tasks.xsum", errbacks)?;
    Ok(FrozenLine {
        tasks: ListOf::of(vec![in alloc; sum]?),
        tail: None,
    })
}

/// The place of a member of the chord of three whose body this is.
fn place(alloc: Global) -> Result<Place, Memory> {
    Ok(Place {
        group: GroupNo::new(1).ok_or(Memory)?,
        chord: Some(Carried {
            size: 3,
            body: Arc::new(alloc, body(alloc)?)?,
        }),
    })
}

/// The fields of a message that nothing follows but what its place says.
fn draft(
    alloc: Global,
    number: u32,
    name: &str,
    parent: Option<u32>,
    place: Option<Place>,
    args: ListOf<Arg>,
) -> Result<Draft, Memory> {
    Ok(Draft {
        task: task(number)?,
        name: TextOf::of(String::from_str(alloc, name)?),
        parent: parent.and_then(TaskNo::new),
        place,
        args,
        kwargs: MapOf::of(BTreeMap::new(alloc)),
        links: ListOf::of(Vec::new(alloc)),
        errbacks: ListOf::of(Vec::new(alloc)),
        rest: None,
    })
}

/// A member of the chord, with two numbers.
fn member(alloc: Global, number: u32, name: &str, x: i64, y: i64) -> Result<Draft, Memory> {
    let args = ListOf::of(vec![in alloc; Arg::Num(x), Arg::Num(y)]?);
    draft(alloc, number, name, None, Some(place(alloc)?), args)
}

/// The error callback, which is called with the identifier of the body's task.
fn callback(alloc: Global) -> Result<Draft, Memory> {
    let text = String::from_str(alloc, "00000000-0000-8000-8000-000000000004")?;
    let args = ListOf::of(vec![in alloc; Arg::Text(TextOf::of(text))]?);
    draft(alloc, 5, "tasks.log_error", Some(4), None, args)
}

/// The headers and the body that a message is written as.
struct Texts {
    headers: &'static str,
    body: &'static str,
}

const FIRST: Texts = Texts {
    headers: r#"{"group":"00000000-0000-8000-9000-000000000001","id":"00000000-0000-8000-8000-000000000001","lang":"rs","parent_id":null,"root_id":"00000000-0000-8000-8000-000000000001","task":"tasks.add"}"#,
    body: r#"[[4,4],{},{"callbacks":null,"chain":null,"chord":{"args":[],"chord_size":3,"immutable":false,"kwargs":{},"options":{"link_error":[{"args":[],"immutable":false,"kwargs":{},"options":{"task_id":"00000000-0000-8000-8000-000000000005"},"subtask_type":null,"task":"tasks.log_error"}],"task_id":"00000000-0000-8000-8000-000000000004"},"subtask_type":null,"task":"tasks.xsum"},"errbacks":null}]"#,
};

const SECOND: Texts = Texts {
    headers: r#"{"group":"00000000-0000-8000-9000-000000000001","id":"00000000-0000-8000-8000-000000000002","lang":"rs","parent_id":null,"root_id":"00000000-0000-8000-8000-000000000001","task":"tasks.div"}"#,
    body: r#"[[1,0],{},{"callbacks":null,"chain":null,"chord":{"args":[],"chord_size":3,"immutable":false,"kwargs":{},"options":{"link_error":[{"args":[],"immutable":false,"kwargs":{},"options":{"task_id":"00000000-0000-8000-8000-000000000005"},"subtask_type":null,"task":"tasks.log_error"}],"task_id":"00000000-0000-8000-8000-000000000004"},"subtask_type":null,"task":"tasks.xsum"},"errbacks":null}]"#,
};

const THIRD: Texts = Texts {
    headers: r#"{"group":"00000000-0000-8000-9000-000000000001","id":"00000000-0000-8000-8000-000000000003","lang":"rs","parent_id":null,"root_id":"00000000-0000-8000-8000-000000000001","task":"tasks.add"}"#,
    body: r#"[[8,8],{},{"callbacks":null,"chain":null,"chord":{"args":[],"chord_size":3,"immutable":false,"kwargs":{},"options":{"link_error":[{"args":[],"immutable":false,"kwargs":{},"options":{"task_id":"00000000-0000-8000-8000-000000000005"},"subtask_type":null,"task":"tasks.log_error"}],"task_id":"00000000-0000-8000-8000-000000000004"},"subtask_type":null,"task":"tasks.xsum"},"errbacks":null}]"#,
};

const CALLBACK: Texts = Texts {
    headers: r#"{"group":null,"id":"00000000-0000-8000-8000-000000000005","lang":"rs","parent_id":"00000000-0000-8000-8000-000000000004","root_id":"00000000-0000-8000-8000-000000000001","task":"tasks.log_error"}"#,
    body: r#"[["00000000-0000-8000-8000-000000000004"],{},{"callbacks":null,"chain":null,"chord":null,"errbacks":null}]"#,
};

fn has_texts(envelope: &Envelope, texts: &Texts) -> bool {
    envelope.headers.get().as_slice() == texts.headers.as_bytes()
        && envelope.body.get().as_slice() == texts.body.as_bytes()
}

fn is_written_again(
    alloc: Global,
    read: &Result<Message, MessageFault>,
    envelope: &Envelope,
) -> bool {
    match read {
        Ok(message) => match encode(alloc, message) {
            Ok(again) => again == *envelope,
            Err(_) => false,
        },
        Err(_) => false,
    }
}

/// Whether a message is written so, and its envelope reads as a message that is written alike.
fn is_written(alloc: Global, message: &Message, texts: &Texts) -> bool {
    match encode(alloc, message) {
        Ok(envelope) => {
            has_texts(&envelope, texts)
                && is_written_again(alloc, &decode(alloc, &envelope), &envelope)
        }
        Err(_) => false,
    }
}

/// Whether the message with these fields is written so.
fn are_fields_of(alloc: Global, fields: Result<Draft, Memory>, texts: &Texts) -> bool {
    match fields {
        Ok(draft) => match Message::of(draft) {
            Some(message) => is_written(alloc, &message, texts),
            None => false,
        },
        Err(_) => false,
    }
}

/// The three messages of `chord([add(4, 4), div(1, 0), add(8, 8)], xsum())`, the body with the
/// error callback `log_error()`, and that callback's.
#[test]
fn messages_built_from_their_fields(rt: HostRuntime) {
    let alloc = rt.alloc();
    assert!(rt; are_fields_of(alloc, member(alloc, 1, "tasks.add", 4, 4), &FIRST));
    assert!(rt; are_fields_of(alloc, member(alloc, 2, "tasks.div", 1, 0), &SECOND));
    assert!(rt; are_fields_of(alloc, member(alloc, 3, "tasks.add", 8, 8), &THIRD));
    assert!(rt; are_fields_of(alloc, callback(alloc), &CALLBACK));
}
