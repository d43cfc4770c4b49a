//! The lines of a run's steps.

ghost use Rattle.std.specs.Prelude.{◌≡◌, ◌++◌, IfOk, OnOk, codes, map, slice_set, unwrap_or};
ghost use Rattle.canvas_report.specs.RowTexts.{shown_text};
ghost use Rattle.canvas_report.specs.StoredRows.{row_of};
ghost use Rattle.canvas_engine.specs.StepLines.{ask_text, did_text, held_after, held_by, letter_text, none_held, part_text, steps_text, task_member, worker_text};

use crate::steps::line::{
    more_member, put, put_ask, put_group, put_named, put_number, put_task, stored_member,
};
use crate::{Did, Step};
use canvas_report::{Row, shown_members};
use canvas_rewrite::Plan;
use canvas_task::{GroupNo, Memory, TaskNo};
use std::alloc::{AllocError, Global};

/// The places for the envelopes of worker 0, which has none, and of workers 1 to 16.
const PLACES: usize = 17;

/// The text instead of an identifier if there is no envelope.
const NONE: &[u8] = b"null";

/// Appends the line of an ask about an envelope, up to the worker.
fn put_letter(text: &mut Vec<u8>, ask: &[u8], identifier: &[u8]) -> Result<(), AllocError>
    ensures { OnOk result (text.new.items ≡ text.old.items ++ letter_text ask.now identifier.now) }
{
    put_ask(text, ask)?;
    put_named(text, identifier)
}

/// Appends the line of a store, up to the worker.
fn put_store(
    text: &mut Vec<u8>,
    alloc: Global,
    rows: &[Row],
    task: TaskNo,
    stored: &[u8],
) -> Result<(), Memory>
    ensures { OnOk result (text.new.items ≡ text.old.items ++ (ask_text (codes "store")
        ++ codes "," ++ shown_text (row_of rows.now task) ++ codes "\"" ++ stored.now
        ++ task_member task)) }
{
    put_ask(text, b"store")?;
    put(text, b",")?;
    put(text, shown_members(alloc, rows, task)?.as_bytes())?;
    put(text, b"\"")?;
    put(text, stored)?;
    put_task(text, task)?;
    Ok(())
}

/// Appends the line of a part, up to the worker.
fn put_part(
    text: &mut Vec<u8>,
    alloc: Global,
    group: GroupNo,
    size: Option<u32>,
    task: TaskNo,
    before: u64,
) -> Result<(), AllocError>
    ensures { OnOk result (text.new.items ≡ text.old.items
        ++ part_text (unwrap_or size 0) group task before) }
{
    put_ask(text, b"part")?;
    put_number(text, alloc, b",\"before\":", before)?;
    put_group(text, group)?;
    put_number(text, alloc, b",\"of\":", u64::from(size.unwrap_or(0)))?;
    put_task(text, task)
}

/// Appends the line of what a worker did, up to the worker. `held` is the identifier of the
/// envelope that it holds.
fn put_did(
    text: &mut Vec<u8>,
    alloc: Global,
    plan: &Plan,
    rows: &[Row],
    did: &Did,
    held: &[u8],
) -> Result<(), Memory>
    ensures { OnOk result (text.new.items ≡ text.old.items
        ++ did_text plan.now rows.now held.now did.now) }
{
    match did {
        Did::Took(None) => put_letter(text, b"take", NONE)?,
        Did::Took(Some(letter)) => put_letter(text, b"take", letter.identifier())?,
        Did::Published(letter) => put_letter(text, b"publish", letter.identifier())?,
        Did::Redelivered(letter) => { put_letter(text, b"redeliver", letter.identifier())? }
        Did::Stored(task, _outcome, stored) => {
            put_store(text, alloc, rows, *task, stored_member(*stored))?
        }
        Did::Returned(group, task, before) => {
            put_part(text, alloc, *group, plan.size_of(*group), *task, *before)?
        }
        Did::Read(task, _outcome) => {
            put_ask(text, b"read")?;
            put_task(text, *task)?
        }
        Did::Acked => put_letter(text, b"ack", held)?,
        Did::Rested(more) => {
            put_ask(text, b"rest")?;
            put(text, more_member(*more))?
        }
    }
    Ok(())
}

/// Appends the worker and the end of the line.
fn put_worker(text: &mut Vec<u8>, alloc: Global, worker: u32) -> Result<(), AllocError>
    ensures { OnOk result (text.new.items ≡ text.old.items ++ worker_text worker) }
{
    put_number(text, alloc, b",\"worker\":", u64::from(worker))?;
    put(text, b"}\n")
}

/// Returns the identifier of the envelope that a worker holds.
fn held_by<'a>(held: &[&'a [u8]], worker: u32) -> &'a [u8]
    ensures { result.now ≡ held_by (map (λ h. h.now) held.now) worker }
{
    match held.get(worker as usize) {
        Some(identifier) => identifier,
        None => NONE,
    }
}

/// Puts what a worker holds at its place.
fn put_held<'a>(held: &mut [&'a [u8]], place: usize, identifier: &'a [u8])
    ensures { map (λ h. h.now) held.new
        ≡ slice_set (map (λ h. h.now) held.old) place identifier.now }
{
    if place < held.len() {
        held[place] = identifier;
    }
}

/// Records which envelope a worker holds, if it took one.
fn hold<'a>(held: &mut [&'a [u8]], step: &'a Step)
    ensures { map (λ h. h.now) held.new
        ≡ held_after (map (λ h. h.now) held.old) step.now.worker step.now.did }
{
    match &step.did {
        Did::Took(Some(letter)) => { put_held(held, step.worker as usize, letter.identifier()) }
        _ => {}
    }
}

/// Writes a JSON object in a line for each step of a run, in their order. `rows` are those of its
/// report.
pub fn steps_text(
    alloc: Global,
    plan: &Plan,
    rows: &[Row],
    steps: &[Step],
) -> Result<Vec<u8>, Memory>
    ensures { IfOk result (λ lines. lines.items
        ≡ steps_text plan.now rows.now none_held steps.now) }
{
    let mut held = Vec::from_elem(alloc, NONE, PLACES)?;
    let mut text = Vec::new(alloc);
    for step in steps {
        put_did(
            &mut text,
            alloc,
            plan,
            rows,
            &step.did,
            held_by(&held, step.worker),
        )?;
        put_worker(&mut text, alloc, step.worker)?;
        hold(&mut held, step);
    }
    Ok(text)
}
