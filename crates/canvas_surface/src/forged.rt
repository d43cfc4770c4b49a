//! What follows the ends of tasks in messages that no canvas gives: numbers in any order and twice,
//! chords in raised chords, empty headers, groups after raised tasks, immutable bodies. The
//! messages are in a short notation; what follows was worked out independently of this program, by
//! evaluating each line event by event.

ghost use Rattle.std.specs.Prelude.{IfSome, All};
ghost use Rattle.canvas_task.specs.Apply.{IsInRange};

use crate::envelopes::read;
use crate::forged_tables::{BODIES, ENDS};
use canvas_effects::{PartCall, Todo, after, body_after, into_todo};
use canvas_envelope::Message;
use canvas_rewrite::{FrozenLine, Place};
use canvas_samples::frozen_texts::filled;
use canvas_task::{Arg, Fault, Kind, Outcome, TaskNo, Why};
use std::alloc::{AllocError, Global};
use std::test::*;

/// The text of a sign of the notation; a digit is itself. `i5';` is task 5, `j` an immutable one,
/// `L..]` and `E..]` its links and error callbacks, `P1'` its group and `K` its chord's body;
/// `G1(..)` is a group, `H1[..|..;` a chord with its header and body, `C..)` a chain. `S2` begins a
/// body with its size, and goes on with `k`, `m`, `g`, `h` or `c` for `i`, `j`, `G`, `H` or `C`.
fn piece(sign: char) -> &'static str {
    match sign {
        'i' => r#"{"task":"tasks.ident","options":{"task_id":"00000000-0000-8000-8000-00000000000"#,
        'k' => r#","task":"tasks.ident","options":{"task_id":"00000000-0000-8000-8000-00000000000"#,
        'j' => {
            r#"{"task":"tasks.ident","immutable":true,"options":{"task_id":"00000000-0000-8000-8000-00000000000"#
        }
        'm' => {
            r#","task":"tasks.ident","immutable":true,"options":{"task_id":"00000000-0000-8000-8000-00000000000"#
        }
        'G' => {
            r#"{"task":"x","subtask_type":"group","options":{"group_id":"00000000-0000-8000-9000-00000000000"#
        }
        'g' => {
            r#","task":"x","subtask_type":"group","options":{"group_id":"00000000-0000-8000-9000-00000000000"#
        }
        'H' => {
            r#"{"task":"x","subtask_type":"chord","options":{"group_id":"00000000-0000-8000-9000-00000000000"#
        }
        'h' => {
            r#","task":"x","subtask_type":"chord","options":{"group_id":"00000000-0000-8000-9000-00000000000"#
        }
        'C' => r#"{"task":"x","subtask_type":"chain","kwargs":{"tasks":["#,
        'c' => r#","task":"x","subtask_type":"chain","kwargs":{"tasks":["#,
        'P' => r#","group_id":"00000000-0000-8000-9000-00000000000"#,
        'K' => r#","chord":"#,
        'S' => r#"{"chord_size":"#,
        'L' => r#","link":["#,
        'E' => r#","link_error":["#,
        '(' => r#""},"kwargs":{"tasks":["#,
        '[' => r#""},"kwargs":{"header":["#,
        '|' => r#"],"body":"#,
        ')' => "]}}",
        ']' => "]",
        ';' => "}}",
        '\'' => "\"",
        _ => "",
    }
}

/// Appends the JSON of a notation to a text. A hexadecimal digit follows the signs that begin an
/// identifier, and `S`.
fn push_json(text: &mut String, notation: &str) -> Result<(), AllocError> {
    let mut number = false;
    for sign in notation.chars() {
        if number || sign == ',' {
            text.push(sign)?;
            number = false;
        } else {
            text.push_str(piece(sign))?;
            number = matches!(
                sign,
                'i' | 'k' | 'j' | 'm' | 'G' | 'g' | 'H' | 'h' | 'P' | 'S'
            );
        }
    }
    Ok(())
}

const PROPERTIES: &str = r#"{"content_encoding":"utf-8","content_type":"application/json"}"#;

fn headers_of(alloc: Global, task: &str, group: &str) -> Result<String, AllocError> {
    let text = if group.is_empty() {
        format!(in alloc; r#"{{"id":"%{task}","task":"tasks.ident"}}"#)?
    } else {
        format!(in alloc; r#"{{"group":"@{group}","id":"%{task}","task":"tasks.ident"}}"#)?
    };
    filled(alloc, &text)
}

/// Appends `before`, and then the JSON of a notation.
fn push_behind(text: &mut String, before: &str, notation: &str) -> Result<(), AllocError> {
    text.push_str(before)?;
    push_json(text, notation)
}

fn push_body(
    text: &mut String,
    links: &str,
    errbacks: &str,
    chain: &str,
    chord: &str,
) -> Result<(), AllocError> {
    push_behind(text, r#"[[],{},{"callbacks":["#, links)?;
    push_behind(text, r#"],"errbacks":["#, errbacks)?;
    push_behind(text, r#"],"chain":["#, chain)?;
    if chord.is_empty() {
        text.push_str(r#"],"chord":null"#)?;
    } else {
        push_behind(text, r#"],"chord":"#, chord)?;
    }
    text.push_str("}]")
}

fn body_of(
    alloc: Global,
    links: &str,
    errbacks: &str,
    chain: &str,
    chord: &str,
) -> Result<String, AllocError> {
    let mut text = String::new(alloc);
    push_body(&mut text, links, errbacks, chain, chord)?;
    Ok(text)
}

fn message_of(alloc: Global, task: &str, group: &str, body: &str) -> Option<Message> {
    match headers_of(alloc, task, group) {
        Ok(headers) => read(
            alloc,
            PROPERTIES.as_bytes(),
            headers.as_bytes(),
            body.as_bytes(),
        )
        .ok(),
        Err(_) => None,
    }
}

// ---- what follows, in the notation of the tables

fn push_number(text: &mut String, number: u32) -> Result<(), AllocError> {
    text.push(char::from_digit(number % 16, 16).unwrap_or('?'))
}

/// `z` where a division by zero is named, and `C` with the task that it names where a header's
/// failure is.
fn push_outcome(text: &mut String, outcome: &Outcome) -> Result<(), AllocError> {
    match outcome {
        Outcome::Success(_) => text.push('?'),
        Outcome::Failure(Fault::Plain(_)) => text.push('z'),
        Outcome::Failure(Fault::Chord { dep, why }) => {
            text.push('C')?;
            push_number(text, dep.get())?;
            text.push(if matches!(why, Why::Chord) { 'C' } else { 'z' })
        }
    }
}

fn push_numbers(text: &mut String, numbers: &[i64]) -> Result<(), AllocError> {
    if numbers.is_empty() {
        return text.push_str("none");
    }
    let mut first = true;
    for number in numbers {
        if !first {
            text.push('.')?;
        }
        first = false;
        write!(text, "{number}")?;
    }
    Ok(())
}

fn push_arg(text: &mut String, arg: &Arg) -> Result<(), AllocError> {
    match arg {
        Arg::Num(number) => write!(text, "{number}"),
        Arg::List(numbers) => push_numbers(text, numbers.get()),
        Arg::Text(task) => {
            text.push('#')?;
            text.push(task.get().chars().last().unwrap_or('?'))
        }
    }
}

fn push_place(text: &mut String, place: &Place) -> Result<(), AllocError> {
    text.push('@')?;
    push_number(text, place.group.get())?;
    match &place.chord {
        Some(carried) => {
            let size = carried.size;
            write!(text, "/{size}")
        }
        None => Ok(()),
    }
}

fn push_rest(text: &mut String, rest: &FrozenLine) -> Result<(), AllocError> {
    text.push('+')?;
    for task in rest.tasks.get() {
        push_number(text, task.no.get())?;
    }
    match &rest.tail {
        Some(end) => {
            text.push(if end.body.is_some() { 'H' } else { 'G' })?;
            push_number(text, end.group.get())
        }
        None => Ok(()),
    }
}

/// The task of a message, and its parent.
fn push_tasks(text: &mut String, message: &Message) -> Result<(), AllocError> {
    push_number(text, message.task.get())?;
    text.push('<')?;
    match message.parent {
        Some(parent) => push_number(text, parent.get()),
        None => text.push('-'),
    }
}

fn push_args(text: &mut String, args: &[Arg]) -> Result<(), AllocError> {
    text.push('(')?;
    for arg in args {
        push_arg(text, arg)?;
    }
    text.push(')')
}

fn push_message(text: &mut String, message: &Message) -> Result<(), AllocError> {
    push_tasks(text, message)?;
    push_args(text, message.args.get())?;
    if let Some(place) = &message.place {
        push_place(text, place)?;
    }
    match &message.rest {
        Some(rest) => push_rest(text, rest),
        None => Ok(()),
    }
}

fn push_part(text: &mut String, part: &PartCall) -> Result<(), AllocError> {
    text.push('!')?;
    push_number(text, part.group.get())?;
    text.push(':')?;
    push_number(text, part.task.get())?;
    let size = part.chord.size;
    write!(text, "/{size}")
}

fn push_stores(text: &mut String, todo: &Todo) -> Result<(), AllocError> {
    for store in todo.stores.get() {
        push_number(text, store.0.get())?;
        text.push('=')?;
        push_outcome(text, &store.1)?;
        text.push(' ')?;
    }
    Ok(())
}

fn push_todo(text: &mut String, todo: &Todo) -> Result<(), AllocError> {
    push_stores(text, todo)?;
    for message in todo.messages.get() {
        push_message(text, message)?;
        text.push(' ')?;
    }
    match &todo.part {
        Some(part) => push_part(text, part),
        None => Ok(()),
    }
}

fn shown(alloc: Global, todo: &Todo) -> Result<String, AllocError> {
    let mut text = String::new(alloc);
    push_todo(&mut text, todo)?;
    Ok(text)
}

fn is_shown(alloc: Global, todo: &Todo, text: &str) -> bool {
    match shown(alloc, todo) {
        Ok(found) => found.as_str().trim_end() == text,
        Err(_) => false,
    }
}

// ---- ends of tasks

const FAILS: Outcome = Outcome::Failure(Fault::Plain(Kind::ZeroDivision));

/// Whether this follows the end of a message's task, where the message is lent.
fn follows_lent(alloc: Global, message: &Message, outcome: &Outcome, text: &str) -> bool
    requires { IsInRange outcome.now }
{
    match after(alloc, message, outcome) {
        Ok(todo) => is_shown(alloc, &todo, text),
        Err(_) => false,
    }
}

/// Like `follows_lent`, if the message is consumed.
fn follows_given(alloc: Global, message: Message, outcome: &Outcome, text: &str) -> bool
    requires { IsInRange outcome.now }
{
    match into_todo(alloc, message, outcome) {
        Ok(todo) => is_shown(alloc, &todo, text),
        Err(_) => false,
    }
}

/// Both.
fn follows(alloc: Global, message: Message, outcome: &Outcome, text: &str) -> bool
    requires { IsInRange outcome.now }
{
    let is_lent = follows_lent(alloc, &message, outcome, text);
    follows_given(alloc, message, outcome, text) && is_lent
}

fn ends_so(alloc: Global, row: &[&str; 8], outcome: &Outcome, text: &str) -> bool
    requires { IsInRange outcome.now }
{
    let [task, links, errbacks, chain, group, chord, _, _] = *row;
    match body_of(alloc, links, errbacks, chain, chord) {
        Ok(body) => match message_of(alloc, task, group, &body) {
            Some(message) => follows(alloc, message, outcome, text),
            None => false,
        },
        Err(_) => false,
    }
}

/// Whether a task ends so where it succeeds, and where it fails.
fn ends_both(alloc: Global, row: &[&str; 8]) -> bool {
    ends_so(alloc, row, &Outcome::Success(7), row[6]) && ends_so(alloc, row, &FAILS, row[7])
}

#[test]
fn ends_of_tasks(rt: HostRuntime) {
    for row in &ENDS {
        assert!(rt; ends_both(rt.alloc(), row), "{row:?}");
    }
}

// ---- bodies

fn number_of(sign: Option<char>) -> Option<TaskNo> {
    TaskNo::new(sign?.to_digit(16)?)
}

/// The outcome after a task's number: a number from 0 to 9, a division by zero, or a header's
/// failure.
fn outcome_of(text: &str) -> Option<(TaskNo, Outcome)>
    ensures { IfSome result (λ e. IsInRange e.1) }
{
    let mut signs = text.chars();
    let task = number_of(signs.next())?;
    if signs.next()? == '=' {
        return match signs.next()? {
            '4' => Some((task, Outcome::Success(4))),
            '5' => Some((task, Outcome::Success(5))),
            _ => Some((task, Outcome::Success(0))),
        };
    }
    if signs.next()? == 'z' {
        return Some((task, FAILS));
    }
    let dep = number_of(signs.next())?;
    let why = Why::Plain(Kind::ZeroDivision);
    Some((task, Outcome::Failure(Fault::Chord { dep, why })))
}

fn outcomes_of(alloc: Global, text: &str) -> Option<Vec<(TaskNo, Outcome)>>
    ensures { IfSome result (λ v. All (λ e. IsInRange e.1) v.items) }
{
    let _none: Option<Fault> = None;
    let mut outcomes = Vec::new(alloc);
    for word in text.split_whitespace() {
        let outcome = outcome_of(word)?;
        if outcomes.push(outcome).is_err() {
            return None;
        }
    }
    Some(outcomes)
}

/// The part of chord 1 whose members carry this body.
fn part_of(alloc: Global, chord: &str) -> Option<PartCall> {
    let body = body_of(alloc, "", "", "", chord).ok()?;
    let message = message_of(alloc, "3", "1", &body)?;
    match into_todo(alloc, message, &Outcome::Success(7)) {
        Ok(todo) => todo.part,
        Err(_) => None,
    }
}

/// Whether this follows the last part of a chord, of which these are the outcomes.
fn completes_so(alloc: Global, part: &PartCall, outcomes: &str, text: &str) -> bool {
    match outcomes_of(alloc, outcomes) {
        Some(outcomes) => match body_after(alloc, &part.chord, &outcomes) {
            Ok(todo) => is_shown(alloc, &todo, text),
            Err(_) => false,
        },
        None => false,
    }
}

fn starts_so(alloc: Global, row: &[&str; 3]) -> bool {
    let [chord, outcomes, text] = *row;
    match part_of(alloc, chord) {
        Some(part) => completes_so(alloc, &part, outcomes, text),
        None => false,
    }
}

#[test]
fn bodies_of_chords(rt: HostRuntime) {
    for row in &BODIES {
        assert!(rt; starts_so(rt.alloc(), row), "{row:?}");
    }
}
