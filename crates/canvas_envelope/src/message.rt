//! Messages: a task to run, with its callbacks, the rest of its line and its place.

use crate::Texts;
use canvas_rewrite::{FrozenLine, FrozenTask, Place};
use canvas_task::{Arg, ListOf, MapOf, TaskNo, TextOf};
use std::marker::Model;

/// A call of a task, with everything that follows: its links and error callbacks, the rest of its
/// line, and the place of this line's end in a group or chord. Contracts compare two messages by
/// their contents; there is no `PartialEq` at run time.
///
/// `parent` is the task whose end published the message. A message holds only what can be read from
/// an envelope: names and numbers are valid, only the last task of a line has a place, and
/// signatures are nested at most `MOST_REACH` deep. The type guarantees it, so `encode` needs no
/// condition.
#[derive(Drop)]
pub struct Message {
    /// The called task: `id` in the headers.
    pub task: TaskNo,
    /// The name: `task` in the headers.
    pub name: TextOf,
    /// The parent: `parent_id` in the headers. The first messages have none, nor have those of a
    /// body that a completed header starts.
    pub parent: Option<TaskNo>,
    /// The place: `group` in the headers and `chord` in the body. None if something follows on the
    /// line, whose end then has the place.
    pub place: Option<Place>,
    /// Positional arguments, already with the input in front.
    pub args: ListOf<Arg>,
    /// Keyword arguments.
    pub kwargs: MapOf<Arg>,
    /// The links: `callbacks` in the body.
    pub links: ListOf<FrozenTask>,
    /// The error callbacks: `errbacks` in the body.
    pub errbacks: ListOf<FrozenTask>,
    /// The rest of the line: `chain` in the body, where the last element comes first. An empty line
    /// means the same as None.
    pub rest: Option<FrozenLine>,
    /// Texts that are already written: of the rest of the line, and of the body that the place at
    /// the end of the line carries.
    pub texts: Texts,
}

impl Model for Message {
    ghost use Rattle.std.specs.Prelude.{◌≡◌, true};
    ghost use Rattle.canvas_envelope.specs.Content.{Content};
    ghost use Rattle.canvas_envelope.specs.codes.ContentCode.{content_code};
    ghost use Rattle.canvas_envelope.specs.Fits.{fits};
    ghost use Rattle.canvas_envelope.specs.MessageView.{content, place_seen, rest_seen};
    ghost use Rattle.canvas_envelope.specs.SharedTexts.{AreTexts};

    ghost Value = { Content };

    ghost coded = { content_code };

    ghost view = { λ m. content m.parent m.task m.name m.args m.kwargs m.links m.errbacks m.place
        m.rest };

    ghost invariant = { λ m. (fits
        (content m.parent m.task m.name m.args m.kwargs m.links m.errbacks m.place m.rest)
        ≡ true) × AreTexts m.texts (place_seen m.place) (rest_seen m.rest) };
}
