//! Lines in which an exception is raised.

ghost use Rattle.std.specs.Prelude.{◌≡◌, ◌∷◌, ◌++◌, [], true, None, OnOk, map};
ghost use Rattle.canvas_task.specs.declared.outcome.Outcome.TheVariants.{Failure};
ghost use Rattle.canvas_semantics.specs.Evaluation.{why_of};
ghost use Rattle.canvas_rewrite.specs.FrozenView.{p_tasks_of, p_lines_of, p_task_view, p_line_view, p_end_view};
ghost use Rattle.canvas_rewrite.specs.declared.frozen.FrozenEnd.{out-FrozenEnd};
ghost use Rattle.canvas_effects.specs.Carrying.{is_walkable, is_whole, AllWhole, callbacks_ok};
ghost use Rattle.canvas_envelope.specs.Content.{number_of, errbacks_of};
ghost use Rattle.canvas_effects.specs.Effects.{fault_at_end, fault_behind, callbacks, messages_in};
ghost use Rattle.canvas_envelope.specs.Fits.{is_task_number, members_ok};
ghost use Rattle.canvas_effects.specs.Flowing.{id_input};
ghost use Rattle.canvas_effects.specs.steps.Walks.{raised_stores, raised_messages, all_raised_stores, all_raised_messages};

use super::lasts::last_task;
use super::skipped::skip_rest;
use super::task_messages::call_back;
use crate::input::Input;
use canvas_envelope::Message;
use canvas_rewrite::{FrozenEnd, FrozenLine, FrozenTask};
use canvas_task::{Fault, Outcome, TaskNo, Why};
use std::alloc::{AllocError, Global};

/// Returns the exception with which the last task of a line fails, if one is raised in the line.
#[cycle(fault)]
fn fault_at_end(line: &FrozenLine, fault: &Fault) -> Fault
    requires { is_walkable (p_line_view line.now) ≡ true }
    ensures { result ≡ fault_at_end (p_line_view line.now) fault.now }
{
    match line.tasks.get().split_first() {
        Some((_first, _others)) => *fault,
        None => match &line.tail {
            Some(end) => fault_at_tail(end, fault),
            None => *fault,
        },
    }
}

#[cycle(fault)]
fn fault_at_tail(end: &FrozenEnd, fault: &Fault) -> Fault
    requires { is_walkable (p_end_view end.now) ≡ true }
    ensures { result ≡ fault_at_end (p_end_view end.now) fault.now }
{
    match &end.body {
        Some(body) => {
            let behind = fault_behind(end.members.get(), fault);
            fault_at_end(body, &behind)
        }
        None => *fault,
    }
}

pub(super) fn why_of(fault: &Fault) -> Why
    ensures { result ≡ why_of fault.now }
{
    match fault {
        Fault::Plain(kind) => Why::Plain(*kind),
        Fault::Chord { .. } => Why::Chord,
    }
}

/// Returns the exception that is raised in the body after a header in whose members one is raised:
/// it names the first member's last task.
#[cycle(fault)]
fn fault_behind(members: &[FrozenLine], fault: &Fault) -> Fault
    requires { members_ok (p_lines_of (map p_line_view members.now)) ≡ true }
    ensures { result ≡ fault_behind (p_lines_of (map p_line_view members.now)) fault.now }
{
    match members.split_first() {
        Some((member, _others)) => match last_task(member) {
            Some(last) => Fault::Chord {
                dep: last.no,
                why: why_of(&fault_at_end(member, fault)),
            },
            None => *fault,
        },
        None => *fault,
    }
}

fn raise_task(
    alloc: Global,
    task: &FrozenTask,
    fault: &Fault,
    stores: &mut Vec<(TaskNo, Outcome)>,
    messages: &mut Vec<Message>,
) -> Result<(), AllocError>
    requires number { is_task_number (number_of (p_task_view task.now)) ≡ true }
    requires callbacks { callbacks_ok (errbacks_of (p_task_view task.now)) ≡ true }
    ensures stores { OnOk result (stores.new.items
        ≡ stores.old.items ++ (number_of (p_task_view task.now), Failure fault.now) ∷ []) }
    ensures messages { OnOk result (messages.new.items
        ≡ messages.old.items
        ++ messages_in (callbacks (errbacks_of (p_task_view task.now))
        (id_input (number_of (p_task_view task.now))) None)) }
{
    stores.push((task.no, Outcome::Failure(*fault)))?;
    call_back(
        alloc,
        task.errbacks.get(),
        &Input::Ident(task.no),
        &None,
        messages,
    )
}

/// Borrows the members of a group or chord in which an exception is raised. It is a function for
/// its contract: each of them is whole.
fn whole_members(end: &FrozenEnd) -> &[FrozenLine]
    requires { is_whole (p_end_view end.now) ≡ true }
    ensures value { result.now ≡ (out-FrozenEnd end.now).members }
    ensures whole { AllWhole (map p_line_view result.now) }
{
    end.members.get()
}

/// Raises an exception in a line: its first task fails with it as if by itself, and the others are
/// skipped.
#[cycle(raise)]
pub(super) fn raise_line(
    alloc: Global,
    line: &FrozenLine,
    fault: &Fault,
    stores: &mut Vec<(TaskNo, Outcome)>,
    messages: &mut Vec<Message>,
) -> Result<(), AllocError>
    requires { is_whole (p_line_view line.now) ≡ true }
    ensures stores { OnOk result
        (stores.new.items ≡ stores.old.items ++ raised_stores fault.now (p_line_view line.now)) }
    ensures messages { OnOk result (messages.new.items
        ≡ messages.old.items ++ raised_messages fault.now (p_line_view line.now)) }
{
    match line.tasks.get().split_first() {
        Some((first, others)) => {
            raise_task(alloc, first, fault, stores, messages)?;
            skip_rest(&line.tail, others, fault, stores)
        }
        None => match &line.tail {
            Some(end) => raise_end(alloc, end, fault, stores, messages),
            None => Ok(()),
        },
    }
}

#[cycle(raise)]
fn raise_end(
    alloc: Global,
    end: &FrozenEnd,
    fault: &Fault,
    stores: &mut Vec<(TaskNo, Outcome)>,
    messages: &mut Vec<Message>,
) -> Result<(), AllocError>
    requires { is_whole (p_end_view end.now) ≡ true }
    ensures stores { OnOk result
        (stores.new.items ≡ stores.old.items ++ raised_stores fault.now (p_end_view end.now)) }
    ensures messages { OnOk result (messages.new.items
        ≡ messages.old.items ++ raised_messages fault.now (p_end_view end.now)) }
{
    let members = whole_members(end);
    raise_lines(alloc, members, fault, stores, messages)?;
    match &end.body {
        Some(body) => {
            let behind = fault_behind(members, fault);
            raise_line(alloc, body, &behind, stores, messages)
        }
        None => Ok(()),
    }
}

#[cycle(raise)]
fn raise_lines(
    alloc: Global,
    lines: &[FrozenLine],
    fault: &Fault,
    stores: &mut Vec<(TaskNo, Outcome)>,
    messages: &mut Vec<Message>,
) -> Result<(), AllocError>
    requires { AllWhole (map p_line_view lines.now) }
    ensures stores { OnOk result (stores.new.items
        ≡ stores.old.items ++ all_raised_stores fault.now (map p_line_view lines.now)) }
    ensures messages { OnOk result (messages.new.items
        ≡ messages.old.items ++ all_raised_messages fault.now (map p_line_view lines.now)) }
{
    for line in lines {
        raise_line(alloc, line, fault, stores, messages)?;
    }
    Ok(())
}
