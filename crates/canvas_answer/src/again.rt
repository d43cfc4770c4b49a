//! `--again`: what is redelivered, by the numbers and names of tasks.
ghost use Rattle.std.specs.Prelude.{IfOk, codes};
ghost use Rattle.clap.specs.Matches.{found_of};
ghost use Rattle.clap.specs.Walk.{first_of, rows_of};
ghost use Rattle.canvas_answer.specs.Requests.{IsAgain};

use crate::given::text_given;
use crate::refusal::Refusal;
use canvas_rewrite::Plan;
use canvas_runs::{EntryFault, When, read_again};
use canvas_task::{TaskNo, name_ok};
use clap::ArgMatches;
use std::alloc::{AllocError, Global};

/// The redeliveries that the words ask for.
#[derive(Drop)]
pub enum Again<'w> {
    Nothing,
    Entries(Vec<(TaskNo, When)>),
    /// A list in which there are names, or all tasks.
    Named(&'w str),
}

/// Returns whether the text before a point may be a task's name, and isn't like a number.
fn is_name(who: &str) -> bool {
    name_ok(who) && !matches!(who.as_bytes(), [b'0'..=b'9' | b'+' | b'-', ..])
}

fn is_number(who: &str) -> bool {
    for byte in who.as_bytes() {
        if !byte.is_ascii_digit() {
            return false;
        }
    }
    !who.is_empty()
}

/// Returns the text before the point of an entry.
fn who_of(entry: &str) -> Option<&str> {
    match entry.rsplit_once(':') {
        Some((who, "early" | "late")) => Some(who),
        _ => None,
    }
}

fn has_name(entry: &str) -> bool {
    match who_of(entry) {
        Some(who) => is_name(who),
        None => false,
    }
}

fn says_number(entry: &str) -> bool {
    match who_of(entry) {
        Some(who) => is_number(who),
        None => false,
    }
}

/// Returns whether a list has names of tasks, and not only numbers.
fn has_names(list: &str) -> bool {
    let mut found = false;
    for entry in list.split(',') {
        if has_name(entry) {
            found = true;
        } else if !says_number(entry) {
            return false;
        }
    }
    found
}

/// Returns what the words ask to redeliver.
pub(crate) fn asked_again<'w>(alloc: Global, given: &ArgMatches<'w>) -> Result<Again<'w>, Refusal>
    ensures { IfOk result (IsAgain (rows_of (found_of given.now))
        (first_of (codes "again") (rows_of (found_of given.now)))) }
{
    let Some(list) = text_given(given, "again") else {
        return Ok(Again::Nothing);
    };
    match read_again(alloc, list) {
        Ok(entries) => Ok(Again::Entries(entries)),
        Err(EntryFault::BadAgain) if list == "all" || has_names(list) => { Ok(Again::Named(list)) }
        Err(fault) => Err(Refusal::from(fault)),
    }
}

/// Appends an entry to a list.
fn push_text(out: &mut String, entry: &str) -> Result<(), AllocError> {
    if !out.is_empty() {
        out.push(',')?;
    }
    out.push_str(entry)
}

/// Appends the entry of a task's number to a list.
fn push_entry(out: &mut String, number: u32, when: &str) -> Result<(), AllocError> {
    let comma = if out.is_empty() { "" } else { "," };
    write!(out, "{comma}{number}:{when}")?;
    Ok(())
}

/// Appends both entries of each task.
fn push_all(out: &mut String, plan: &Plan) -> Result<(), AllocError> {
    for index in 0..plan.tasks() {
        let number = plan.task_at(index).get();
        push_entry(out, number, "early")?;
        push_entry(out, number, "late")?;
    }
    Ok(())
}

/// Appends the entry of each task with this name.
fn push_named(out: &mut String, plan: &Plan, name: &str, when: &str) -> Result<(), AllocError> {
    for index in 0..plan.tasks() {
        let task = plan.task_at(index);
        if plan.name(task) == Some(name) {
            push_entry(out, task.get(), when)?;
        }
    }
    Ok(())
}

/// Appends a numbered entry as it is, and for a name the entries of its tasks. A name that no task
/// has is refused.
fn push_said(out: &mut String, plan: &Plan, entry: &str) -> Result<(), Refusal> {
    let (who, when) = entry.rsplit_once(':').unwrap_or((entry, ""));
    if !is_name(who) {
        return Ok(push_text(out, entry)?);
    }
    let before = out.len();
    push_named(out, plan, who, when)?;
    if out.len() == before {
        return Err(Refusal::BadAgain);
    }
    Ok(())
}

fn push_list(out: &mut String, plan: &Plan, list: &str) -> Result<(), Refusal> {
    if list == "all" {
        return Ok(push_all(out, plan)?);
    }
    for entry in list.split(',') {
        push_said(out, plan, entry)?;
    }
    Ok(())
}

/// Returns a list with numbers instead of names.
fn numbered(alloc: Global, plan: &Plan, list: &str) -> Result<String, Refusal> {
    let mut out = String::new(alloc);
    push_list(&mut out, plan, list)?;
    Ok(out)
}

/// Returns the entries of a list of numbers and names of tasks.
pub fn named_entries(
    alloc: Global,
    plan: &Plan,
    list: &str,
) -> Result<Vec<(TaskNo, When)>, Refusal> {
    let numbered = numbered(alloc, plan, list)?;
    Ok(read_again(alloc, &numbered)?)
}
