//! The jobs of a worker after the end of a task, or after the completion of a header.

ghost use Rattle.std.specs.Prelude.{◌≡◌, true};
ghost use Rattle.canvas_effects.specs.Carrying.{carried_ok};
ghost use Rattle.canvas_effects.specs.codes.KnownText.{SaysBody, known_prop};
ghost use Rattle.canvas_envelope.specs.MessageView.{carried_view};

use canvas_envelope::{CarriedText, Followed, Message};
use canvas_rewrite::Carried;
use canvas_task::{GroupNo, ListOf, Outcome, TaskNo};
use std::sync::Arc;

/// The part of a chord that a member's last task returns, with the body of the chord. It can be
/// read from an envelope.
#[derive(Drop)]
pub struct PartCall {
    /// The chord.
    pub group: GroupNo,
    /// The member's last task.
    pub task: TaskNo,
    /// The number of members of the chord, and its body.
    pub chord: Carried,
    /// The text of the body, if it is known. It doesn't change the part.
    pub text: Option<Arc<CarriedText>>,
    ghost fits: { carried_ok (carried_view chord) ≡ true },
    ghost says: { SaysBody text (carried_view chord) } by { known_prop text (carried_view chord) },
}

/// The jobs of a worker: it stores, publishes and returns, in this order. Stores and messages are
/// in the order of their tasks' numbers.
#[derive(Drop)]
pub struct Todo {
    /// The outcomes of tasks that fail without being run. The outcome of a message's own task isn't
    /// among them.
    pub stores: ListOf<(TaskNo, Outcome)>,
    /// The messages of tasks that start now.
    pub messages: ListOf<Message>,
    /// The part of the line's end, if nothing on the line is left to run and its place is in a
    /// chord.
    pub part: Option<PartCall>,
}

/// The jobs of a worker after the end of a task that others follow on its line.
#[derive(Drop)]
pub enum Onward {
    /// To publish this message, and nothing else.
    Next(Followed),
    /// To do the jobs of this.
    Todo(Todo),
}
