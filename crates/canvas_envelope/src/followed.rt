//! Messages that others follow on their line, apart from the rest of the line.

ghost use Rattle.std.specs.Prelude.{◌≡◌, not};
ghost use Rattle.canvas_envelope.specs.MessageView.{rest_seen};
ghost use Rattle.canvas_envelope.specs.steps.Lines.{line_by};
ghost use Rattle.canvas_envelope.specs.steps.Parts.{is_stop};

use crate::{Message, Texts};
use canvas_rewrite::{FrozenEnd, FrozenLine, FrozenTask};
use canvas_task::ListOf;
use std::alloc::Global;
use std::collections::VecDeque;
use std::marker::Model;

/// A message that others follow on its line. The tasks that follow are in a queue: the next is
/// taken without moving the others, so a task costs the same in a line of any length.
#[derive(Drop)]
pub struct Followed {
    /// The message without the rest of its line, and without texts.
    pub message: Message,
    /// The tasks that follow.
    pub tasks: VecDeque<FrozenTask>,
    /// The group or chord after them.
    pub tail: Option<Box<FrozenEnd>>,
    /// The texts of the message with the rest of its line.
    pub texts: Texts,
}

impl Model for Followed {
    ghost use Rattle.std.specs.Prelude.{◌≡◌, true};
    ghost use Rattle.canvas_envelope.specs.Content.{Content, place_of};
    ghost use Rattle.canvas_envelope.specs.codes.ContentCode.{content_code};
    ghost use Rattle.canvas_envelope.specs.Fits.{fits};
    ghost use Rattle.canvas_envelope.specs.SharedTexts.{AreTexts};
    ghost use Rattle.canvas_semantics.specs.PlacedLine.{p_stop};
    ghost use Rattle.canvas_envelope.specs.steps.Lines.{line_by, followed_by};

    ghost Value = { Content };

    ghost coded = { content_code };

    ghost view = { λ m. followed_by m.message (line_by m.tasks.items m.tail) };

    ghost invariant = { λ m.
        (fits (followed_by m.message (line_by m.tasks.items m.tail)) ≡ true)
        × AreTexts m.texts (place_of m.message.own) (line_by m.tasks.items m.tail)
        × (m.message.rest ≡ p_stop) };
}

/// Returns the tasks and the end of the rest of a line.
fn parts_of(
    alloc: Global,
    rest: Option<FrozenLine>,
) -> (VecDeque<FrozenTask>, Option<Box<FrozenEnd>>)
    ensures { line_by result.0.items result.1 ≡ rest_seen rest }
{
    match rest {
        Some(FrozenLine { tasks, tail }) => (VecDeque::from(tasks.into_plain()), tail),
        None => (VecDeque::new(alloc), None),
    }
}

impl Followed {
    /// Puts the rest of a message's line apart.
    pub fn of(alloc: Global, message: Message) -> Followed
        ensures { result ≡ message }
    {
        let Message {
            task,
            name,
            parent,
            place,
            args,
            kwargs,
            links,
            errbacks,
            rest,
            texts,
        } = message;
        let (tasks, tail) = parts_of(alloc, rest);
        let message = Message {
            task,
            name,
            parent,
            place,
            args,
            kwargs,
            links,
            errbacks,
            rest: None,
            texts: Texts::none(),
        };
        Followed {
            message,
            tasks,
            tail,
            texts,
        }
    }

    /// Puts the message and the rest of its line together.
    pub fn into_message(self) -> Message
        ensures { result ≡ self }
    {
        let Followed {
            message,
            tasks,
            tail,
            texts,
        } = self;
        let Message {
            task,
            name,
            parent,
            place,
            args,
            kwargs,
            links,
            errbacks,
            rest: _none,
            texts: _no_texts,
        } = message;
        let tasks = ListOf::of(Vec::from(tasks));
        Message {
            task,
            name,
            parent,
            place,
            args,
            kwargs,
            links,
            errbacks,
            rest: Some(FrozenLine { tasks, tail }),
            texts,
        }
    }

    /// Returns whether anything follows.
    pub fn goes_on(&self) -> bool
        ensures { result ≡ not (is_stop self.now.rest) }
    {
        !self.tasks.is_empty() || self.tail.is_some()
    }
}
