//! The check that fields can be those of a message.

ghost use Rattle.std.specs.Prelude.{◌≡◌, true, false, MatchOption};
ghost use Rattle.canvas_values.specs.steps.LineReach.{capped};
ghost use Rattle.canvas_rewrite.specs.FrozenView.{p_line_view};
ghost use Rattle.canvas_semantics.specs.PlacedLine.{p_stop};
ghost use Rattle.canvas_envelope.specs.Content.{line};
ghost use Rattle.canvas_envelope.specs.Fits.{fits, parent_ok, task_ok, task_reach, line_ok, line_reach};
ghost use Rattle.canvas_envelope.specs.steps.Parts.{is_stop};
ghost use Rattle.canvas_envelope.specs.MessageView.{draft_view, rest_seen};

mod forms;
mod reach;

use crate::{Draft, Message, Texts};
use canvas_rewrite::FrozenLine;
use canvas_semantics::{MOST_REACH, MOST_TASKS};
use canvas_task::TaskNo;
use forms::{is_call, is_task, line_fits, place_fits, tasks_fit};
use reach::{above, greatest, place_reach, tasks_reach};

/// The greatest number of members of a header.
pub const MOST_MEMBERS: u32 = MOST_TASKS;

impl Message {
    /// Makes the message with these fields, if a message can have them.
    pub fn of(draft: Draft) -> Option<Message>
        ensures { MatchOption result (fits (draft_view draft) ≡ false)
            (λ m. (fits (draft_view draft) ≡ true) × (m ≡ draft_view draft)) }
    {
        if !draft_fits(&draft) {
            return None;
        }
        let Draft {
            task,
            name,
            parent,
            place,
            args,
            kwargs,
            links,
            errbacks,
            rest,
        } = draft;
        Some(Message {
            task,
            name,
            parent,
            place,
            args,
            kwargs,
            links,
            errbacks,
            rest,
            texts: Texts::none(),
        })
    }
}

/// Returns the line that follows a message's own task, if there is one.
pub fn following(rest: &Option<FrozenLine>) -> Option<&FrozenLine>
    ensures { MatchOption result (rest_seen rest.now ≡ p_stop)
        (λ l. (rest_seen rest.now ≡ p_line_view l.now) × (is_stop (p_line_view l.now) ≡ false)) }
{
    match rest {
        Some(line) => { if is_stop(line) { None } else { Some(line) } }
        None => None,
    }
}

fn is_stop(line: &FrozenLine) -> bool
    ensures { result ≡ is_stop (p_line_view line.now) }
{
    match &line.tail {
        Some(_) => false,
        None => line.tasks.get().as_slice().is_empty(),
    }
}

fn parent_fits(parent: Option<TaskNo>) -> bool
    ensures { result ≡ parent_ok parent }
{
    match parent {
        Some(task) => is_task(task),
        None => true,
    }
}

fn own_fits(draft: &Draft, last: bool) -> bool
    ensures { result ≡ task_ok last (draft_view draft.now).own }
{
    is_task(draft.task)
        && is_call(draft.name.get(), draft.args.get(), draft.kwargs.get())
        && tasks_fit(draft.links.get())
        && tasks_fit(draft.errbacks.get())
        && place_fits(&draft.place, last)
}

fn whole_fits(draft: &Draft) -> bool
    ensures { result ≡ line_ok true (line (draft_view draft.now)) }
{
    match following(&draft.rest) {
        Some(rest) => own_fits(draft, false) && line_fits(rest, true),
        None => own_fits(draft, true),
    }
}

fn own_reach(draft: &Draft) -> u32
    ensures { result ≡ capped (task_reach 0 (draft_view draft.now).own) }
{
    let callbacks = tasks_reach(draft.links.get()).max(tasks_reach(draft.errbacks.get()));
    above(callbacks.max(place_reach(&draft.place)))
}

fn whole_reach(draft: &Draft) -> u32
    ensures { result ≡ capped (line_reach 0 (line (draft_view draft.now))) }
{
    match following(&draft.rest) {
        Some(rest) => above(own_reach(draft).max(greatest(rest, 0))),
        None => own_reach(draft),
    }
}

fn draft_fits(draft: &Draft) -> bool
    ensures { result ≡ fits (draft_view draft.now) }
{
    parent_fits(draft.parent) && whole_fits(draft) && whole_reach(draft) <= MOST_REACH
}
