//! The messages that a run begins with, line by line.

ghost use Rattle.std.specs.Prelude.{◌≡◌, ◌∷◌, ◌==◌, [], false, length, map, IfOk, IfSome, MatchOption, None, OnErr, true};
ghost use Rattle.canvas_semantics.specs.PlacedLine.{p_nowhere, p_step, p_stop};
ghost use Rattle.canvas_rewrite.specs.FrozenView.{p_end_view, p_line_view, p_task_view, place_or};
ghost use Rattle.canvas_rewrite.specs.declared.frozen.FrozenEnd.{out-FrozenEnd};
ghost use Rattle.canvas_effects.specs.Carrying.{AllStand, can_stand};
ghost use Rattle.canvas_effects.specs.Effects.{first_messages};
ghost use Rattle.canvas_effects.specs.Flowing.{no_input};
ghost use Rattle.canvas_effects.specs.Portions.{together, portions};
ghost use Rattle.canvas_effects.specs.steps.Walks.{member_place, started};

use super::started::{group_place, header_place, only_message, start_line};
use crate::copies::copy_line;
use crate::destination::Destination;
use crate::destinations::share_destination;
use crate::input::Input;
use canvas_envelope::Message;
use canvas_rewrite::{FrozenEnd, FrozenLine, FrozenTask, Plan};
use canvas_task::Memory;
use std::alloc::{AllocError, Global};
use std::marker::Model;
use std::slice::from_ref;

/// The result of `first_messages` in portions: one for each member of the group or chord that a
/// plan begins with, or a single one for the whole line of any other plan. A caller that seals each
/// portion before it takes the next never has all messages and all letters at once. This is
/// possible since a plan's first messages are in the order of their numbers. Contracts see the
/// portions that are left.
#[derive(Drop)]
pub struct FirstMessages<'p> {
    /// The lines that haven't begun.
    lines: &'p [FrozenLine],
    /// The place where their ends go.
    place: Option<Destination>,
}

impl<'p> Model for FirstMessages<'p> {
    ghost use Rattle.std.specs.Prelude.{List, map};
    ghost use Rattle.std.specs.Coded.{coded_list};
    ghost use Rattle.canvas_rewrite.specs.FrozenView.{p_line_view, place_or};
    ghost use Rattle.canvas_envelope.specs.Content.{Content};
    ghost use Rattle.canvas_envelope.specs.codes.ContentCode.{content_code};
    ghost use Rattle.canvas_effects.specs.Carrying.{AllStand};
    ghost use Rattle.canvas_effects.specs.Portions.{portions};

    ghost Value = { List (List Content) };

    ghost coded = { coded_list (coded_list content_code) };

    ghost view = { λ f. portions (map p_line_view f.lines.now) (place_or f.place) };

    ghost invariant = { λ f. AllStand (place_or f.place) (map p_line_view f.lines.now) };
}

/// Returns the header that a plan begins with, if it begins with one that has members.
fn header_first(plan: &Plan) -> Option<&FrozenEnd>
    ensures members { IfSome result
        (λ e. (length (out-FrozenEnd e.now).members == 0) ≡ false) }
    ensures stand { IfSome result (λ e. can_stand (p_end_view e.now) p_nowhere ≡ true) }
    ensures value { IfSome result
        (λ e. started (p_end_view e.now) no_input p_nowhere None ≡ first_messages plan.now) }
{
    let line = plan.line();
    match &line.tail {
        Some(end) if line.tasks.get().is_empty() && !end.members.get().is_empty() => Some(end),
        _ => None,
    }
}

/// Returns the line of a plan as a slice of one.
fn whole_line(plan: &Plan) -> &[FrozenLine]
    ensures stand { AllStand p_nowhere (map p_line_view result.now) }
    ensures value { together (portions (map p_line_view result.now) p_nowhere)
        ≡ first_messages plan.now }
{
    from_ref(plan.line())
}

/// Borrows the members of a group or chord. It is a function for its contract: each of them can be
/// a line whose end goes to the members' place.
fn standing_members(end: &FrozenEnd) -> &[FrozenLine]
    requires { can_stand (p_end_view end.now) p_nowhere ≡ true }
    ensures value { result.now ≡ (out-FrozenEnd end.now).members }
    ensures stand { AllStand (member_place (p_end_view end.now) p_nowhere)
        (map p_line_view result.now) }
{
    end.members.get()
}

/// Returns the place of the members' ends, if the end of the whole goes nowhere.
fn first_place(alloc: Global, end: &FrozenEnd) -> Result<Destination, AllocError>
    requires { can_stand (p_end_view end.now) p_nowhere ≡ true }
    ensures { IfOk result (λ d. d ≡ member_place (p_end_view end.now) p_nowhere) }
{
    match &end.body {
        Some(body) => {
            let size = end.members.get().len() as u32;
            let body = copy_line(alloc, body)?;
            header_place(alloc, end.group, size, body, None)
        }
        None => group_place(alloc, end.group),
    }
}

/// Makes the portions of a header's members, which start without input.
fn of_header<'p>(alloc: Global, end: &'p FrozenEnd) -> Result<FirstMessages<'p>, AllocError>
    requires members { (length (out-FrozenEnd end.now).members == 0) ≡ false }
    requires stand { can_stand (p_end_view end.now) p_nowhere ≡ true }
    ensures { IfOk result
        (λ f. together f ≡ started (p_end_view end.now) no_input p_nowhere None) }
{
    let lines = standing_members(end);
    let place = Some(first_place(alloc, end)?);
    Ok(FirstMessages { lines, place })
}

/// Returns the task of a line that is only one task.
fn only_task(line: &FrozenLine) -> Option<&FrozenTask>
    ensures { IfSome result (λ t. p_line_view line.now ≡ p_step (p_task_view t.now) p_stop) }
{
    match line.tasks.get().as_slice() {
        [task] if line.tail.is_none() => Some(task),
        _ => None,
    }
}

/// Returns the messages with which a line begins without input; its end goes to the place. Most
/// members are a single task, and for such a line only the task is cloned.
fn portion_of(
    alloc: Global,
    line: &FrozenLine,
    place: &Option<Destination>,
) -> Result<Vec<Message>, AllocError>
    requires { can_stand (p_line_view line.now) (place_or place.now) ≡ true }
    ensures { IfOk result (λ messages. messages.items
        ≡ started (p_line_view line.now) no_input (place_or place.now) None) }
{
    let place = share_destination(place)?;
    let mut messages = Vec::with_capacity(alloc, 1)?;
    if let Some(task) = only_task(line) {
        messages.push(only_message(alloc, task, place)?)?;
        return Ok(messages);
    }
    let line = copy_line(alloc, line)?;
    start_line(alloc, line, place, &Input::Nothing, &None, &mut messages)?;
    Ok(messages)
}

impl<'p> FirstMessages<'p> {
    /// Makes all portions of a plan.
    pub fn of(alloc: Global, plan: &'p Plan) -> Result<FirstMessages<'p>, Memory>
        ensures { IfOk result (λ f. together f ≡ first_messages plan.now) }
    {
        match header_first(plan) {
            Some(end) => Ok(of_header(alloc, end)?),
            None => Ok(FirstMessages {
                lines: whole_line(plan),
                place: None,
            }),
        }
    }

    /// Returns the next portion, or None if all were taken. After an allocation failure the portion
    /// is still there.
    pub fn next(&mut self, alloc: Global) -> Result<Option<Vec<Message>>, Memory>
        ensures ok { IfOk result (λ o. MatchOption o (self.old ≡ [])
            (λ messages. self.old ≡ messages.items ∷ self.new)) }
        ensures err { OnErr result (self.new ≡ self.old) }
    {
        match self.lines.split_first() {
            Some((line, others)) => {
                let messages = portion_of(alloc, line, &self.place)?;
                self.lines = others;
                Ok(Some(messages))
            }
            None => Ok(None),
        }
    }
}
