//! Messages as letters keep them.

ghost use Rattle.std.specs.Prelude.{◌≡◌, None, Some, IfOk, IfSome};
ghost use Rattle.canvas_task.specs.Entries.{named, Ascends};
ghost use Rattle.canvas_envelope.specs.steps.Kept.{kept};

use crate::{Followed, Message, Texts};
use canvas_rewrite::{FrozenLine, FrozenTask, Place};
use canvas_task::{Arg, FEW, ListOf, MapOf, TaskNo, TextOf};
use std::alloc::{AllocError, Global};
use std::collections::BTreeMap;
use std::marker::Model;
use std::mem;

/// A message with its few keyword arguments in a list, in the order of their names.
#[derive(Drop)]
pub(crate) struct Compact {
    task: TaskNo,
    name: TextOf,
    parent: Option<TaskNo>,
    place: Option<Place>,
    args: ListOf<Arg>,
    kwargs: Vec<(String, Arg)>,
    links: ListOf<FrozenTask>,
    errbacks: ListOf<FrozenTask>,
    rest: Option<FrozenLine>,
    texts: Texts,
}

impl Model for Compact {
    ghost use Rattle.std.specs.Prelude.{◌≡◌, true};
    ghost use Rattle.canvas_task.specs.Entries.{named, Ascends};
    ghost use Rattle.canvas_envelope.specs.Content.{Content};
    ghost use Rattle.canvas_envelope.specs.codes.ContentCode.{content_code};
    ghost use Rattle.canvas_envelope.specs.Fits.{fits};
    ghost use Rattle.canvas_envelope.specs.MessageView.{content, place_seen, rest_seen};
    ghost use Rattle.canvas_envelope.specs.SharedTexts.{AreTexts};

    ghost Value = { Content };

    ghost coded = { content_code };

    ghost view = { λ m. content m.parent m.task m.name m.args (named m.kwargs.items) m.links
        m.errbacks m.place m.rest };

    ghost invariant = { λ m. Ascends (named m.kwargs.items)
        × (fits (content m.parent m.task m.name m.args (named m.kwargs.items) m.links
        m.errbacks m.place m.rest) ≡ true)
        × AreTexts m.texts (place_seen m.place) (rest_seen m.rest) };
}

/// Returns the entries of a map, in a vector without spare room.
fn entries_of(alloc: Global, map: BTreeMap<String, Arg>) -> Result<Vec<(String, Arg)>, AllocError>
    ensures { IfOk result (λ entries. entries.items ≡ map.entries) }
{
    let mut entries = Vec::with_capacity(alloc, map.len())?;
    for entry in map {
        entries.push(entry)?;
    }
    Ok(entries)
}

/// Makes a map of entries that are in the order of their names.
fn map_of(alloc: Global, entries: Vec<(String, Arg)>) -> Result<BTreeMap<String, Arg>, AllocError>
    requires { Ascends (named entries.items) }
    ensures { IfOk result (λ map. named map.entries ≡ named entries.items) }
{
    let mut map = BTreeMap::new(alloc);
    for (name, arg) in entries {
        drop(map.insert(name, arg)?);
    }
    Ok(map)
}

impl Compact {
    fn of(alloc: Global, message: Message) -> Result<Compact, AllocError>
        ensures { IfOk result (λ l. l ≡ message) }
    {
        let Message {
            task,
            name,
            parent,
            place,
            args,
            kwargs,
            links,
            errbacks,
            rest,
            texts,
        } = message;
        let kwargs = entries_of(alloc, kwargs.into_plain())?;
        Ok(Compact {
            task,
            name,
            parent,
            place,
            args,
            kwargs,
            links,
            errbacks,
            rest,
            texts,
        })
    }

    fn into_message(self, alloc: Global) -> Result<Message, AllocError>
        ensures { IfOk result (λ m. m ≡ self) }
    {
        let Compact {
            task,
            name,
            parent,
            place,
            args,
            kwargs,
            links,
            errbacks,
            rest,
            texts,
        } = self;
        let kwargs = MapOf::of(map_of(alloc, kwargs)?);
        Ok(Message {
            task,
            name,
            parent,
            place,
            args,
            kwargs,
            links,
            errbacks,
            rest,
            texts,
        })
    }
}

/// The number of tasks from which on the rest of a line is put into a queue.
const LONG: usize = 16;

/// Returns whether the rest of a line is to be put into a queue.
fn is_long(rest: &Option<FrozenLine>) -> bool {
    match rest {
        Some(line) => line.tasks.get().len() >= LONG,
        None => false,
    }
}

/// The message that a letter keeps, if any.
#[derive(Drop)]
pub(crate) enum Kept {
    Nothing,
    /// A message in no box of its own. The worker that opens the letter frees what another thread
    /// allocated, and each block takes the lock of that thread's memory.
    Whole(Message),
    /// A message that many others follow on its line.
    Followed(Box<Followed>),
    /// A message with a few keyword arguments. A map with one entry takes room for fifteen, and all
    /// messages of a group wait at once, so they are kept in a list; the map is made when the
    /// message is taken. If that allocation fails, the envelope is read instead.
    Compact(Box<Compact>),
}

impl Kept {
    fn waiting(alloc: Global, message: Message) -> Result<Kept, AllocError>
        ensures { IfOk result (λ k. kept k ≡ Some message) }
    {
        let waiting = Compact::of(alloc, message)?;
        Ok(Kept::Compact(Box::new(alloc, waiting)?))
    }

    fn before(alloc: Global, message: Message) -> Result<Kept, AllocError>
        ensures { IfOk result (λ k. kept k ≡ Some message) }
    {
        let followed = Followed::of(alloc, message);
        Ok(Kept::Followed(Box::new(alloc, followed)?))
    }

    /// Keeps the message, if memory suffices.
    pub(crate) fn of(alloc: Global, message: Message) -> Kept
        ensures { IfSome (kept result) (λ m. m ≡ message) }
    {
        let count = message.kwargs.get().len();
        let made = if is_long(&message.rest) {
            Kept::before(alloc, message)
        } else if count == 0 || count > FEW {
            Ok(Kept::Whole(message))
        } else {
            Kept::waiting(alloc, message)
        };
        match made {
            Ok(kept) => kept,
            Err(AllocError) => Kept::Nothing,
        }
    }

    /// Keeps a message that others follow, if memory suffices.
    pub(crate) fn followed(alloc: Global, message: Followed) -> Kept
        ensures { IfSome (kept result) (λ m. m ≡ message) }
    {
        match Box::new(alloc, message) {
            Ok(message) => Kept::Followed(message),
            Err(_) => Kept::Nothing,
        }
    }

    /// Takes the message out, if it is kept apart from the rest of its line. Afterwards none is
    /// kept; otherwise nothing changes.
    pub(crate) fn take_followed(&mut self) -> Option<Box<Followed>>
        ensures message { IfSome result (λ m. kept self.old ≡ Some m.value) }
        ensures left { IfSome (kept self.new) (λ m. kept self.old ≡ Some m) }
    {
        match mem::replace(self, Kept::Nothing) {
            Kept::Followed(message) => Some(message),
            other => {
                *self = other;
                None
            }
        }
    }

    /// Takes the message out, if one is kept and memory suffices. Afterwards none is kept.
    pub(crate) fn take(&mut self, alloc: Global) -> Option<Box<Message>>
        ensures message { IfSome result (λ m. kept self.old ≡ Some m.value) }
        ensures left { kept self.new ≡ None }
    {
        match mem::replace(self, Kept::Nothing) {
            Kept::Nothing => None,
            Kept::Whole(message) => Box::new(alloc, message).ok(),
            Kept::Followed(followed) => {
                let message = Box::into_inner(followed).into_message();
                Box::new(alloc, message).ok()
            }
            Kept::Compact(waiting) => {
                let message = Box::into_inner(waiting).into_message(alloc).ok()?;
                Box::new(alloc, message).ok()
            }
        }
    }
}
