//! The machine of a worker's scripts.
//!
//! A core keeps envelopes and no registry. Only a take asks the tasks, so a message that was taken
//! has the outcome of its call beside it. What a message starts is encoded before the first store,
//! and then dropped.

ghost use Rattle.std.specs.Prelude.{◌≡◌, ◌≢◌, ◌≤◌, ◌+◌, min, true, false, Some, None, Ok, OnOk, OnErr, IfOk, IfSome, if◌then◌else◌};
ghost use Rattle.std.specs.Option.{option_map};
ghost use Rattle.canvas_task.specs.Apply.{Behaviour};
ghost use Rattle.canvas_core.specs.Asks.{suits, StoresInRange, FoundInRange, FoundOf, Grows};
ghost use Rattle.canvas_envelope.specs.EnvelopeFaults.{Says};
ghost use Rattle.canvas_core.specs.Books.{no_book};
ghost use Rattle.canvas_history.specs.Queue.{take};
ghost use Rattle.canvas_runs.specs.Book.{Book as Known};
ghost use Rattle.canvas_runs.specs.Core.{ReadsBack, taking, acking, to_queue, is_inside};
ghost use Rattle.canvas_core.specs.Phases.{left_of, is_out};
ghost use Rattle.canvas_core.specs.declared.ask.Ask.TheVariants as ask;
ghost use Rattle.canvas_core.specs.declared.ask.Reply.TheVariants.{Taken};
ghost use Rattle.canvas_runs.specs.Tally.{greatest_count};
ghost use Rattle.canvas_core.specs.CoreState.{asked, next, begun, after_reply, failing, held, held_out, handed, point_at, waiting};
ghost use Rattle.canvas_core.specs.EnvelopeWorker.{enveloped_by, said, no_tasks};
ghost use Rattle.canvas_runs.specs.Worker.{opened, read_envelope};

use crate::known::{followed_known, message_known};
use crate::phase::{Phase, acknowledged, rested, returned};
use crate::stages::Owned;
use crate::{Ask, Book, Reply};
use canvas_envelope::{Followed, Letter, Message, MessageFault};
use canvas_runs::When;
use canvas_task::{Memory, TaskNo, Tasks};
use std::alloc::Global;
use std::marker::Model;
use std::mem;

/// Runs the scripts of messages, one after the other. Contracts see what is left to do.
///
/// All that a message or a completed header needs is built before its first store or publish.
#[derive(Drop)]
pub struct Core {
    alloc: Global,
    phase: Phase,
    dropped: u64,
    // The envelope of the open script once its message's outcome is stored, and the task of that
    // message, None if it was dropped.
    kept: Option<Letter>,
    task: Option<TaskNo>,
}

impl Model for Core {
    ghost use Rattle.canvas_core.specs.Phases.{left_of, is_out};
    ghost use Rattle.canvas_core.specs.CoreState.{CoreView};
    ghost use Rattle.std.specs.Coded.{codes};
    ghost use Rattle.canvas_envelope.specs.codes.ContentCode.{content_code};
    ghost use Rattle.canvas_core.specs.codes.CoreCode.{carried_code};

    ghost Value = { CoreView };

    ghost coded = { Prim.hlevel (codes, content_code, carried_code) };

    ghost view = { λ c. record {
      left = left_of c.phase;
      is_out = is_out c.phase;
      dropped = c.dropped;
      kept = c.kept;
      task = c.task;
    } };
}

/// Reads the message of an envelope; None if it is to be dropped.
fn open<B: Book>(
    alloc: Global,
    book: &B,
    letter: &mut Letter,
) -> Result<Option<Box<Message>>, Memory>
    ensures value { IfOk result
        (λ m. option_map (λ b. b.value) m ≡ opened (B.book book.now) letter.old) }
    ensures message { IfOk result (λ m. IfSome m (λ b. said letter.old ≡ b.value)) }
    ensures letter { letter.new ≡ letter.old }
{
    match canvas_codec::open(alloc, letter) {
        Ok(message) => {
            if message_known(book, &message) {
                Ok(Some(message))
            } else {
                Ok(None)
            }
        }
        Err(fault) => match fault {
            MessageFault::Memory => Err(Memory),
            _ => Ok(None),
        },
    }
}

/// Returns whether the message of a letter is to be run.
fn is_known<B: Book>(book: &B, letter: &Letter, followed: &Followed) -> bool
    requires { Says letter.now.properties letter.now.headers letter.now.body followed.now }
    ensures value { (if result then Some followed.now else None)
        ≡ opened (B.book book.now) letter.now }
    ensures message { said letter.now ≡ followed.now }
{
    followed_known(book, followed)
}

impl Core {
    /// Returns a core that has nothing to do yet.
    pub fn new(alloc: Global) -> Core
        ensures { result ≡ begun }
    {
        Core {
            alloc,
            phase: Phase::Taking,
            dropped: 0,
            kept: None,
            task: None,
        }
    }

    /// Returns what the core asks for.
    pub fn next(&self) -> Ask
        ensures ask { result ≡ next self.now }
        ensures in_range { StoresInRange (asked self.now.left) }
        ensures reads_back { self.now.is_out ≡ false
            → ReadsBack (enveloped_by no_tasks no_book) self.now.left }
    {
        match &self.phase {
            Phase::Taking => Ask::Take,
            Phase::Resting => Ask::Rest,
            Phase::Over => Ask::End,
            Phase::Failed => Ask::End,
            Phase::Owning(owned) => Ask::Store(owned.task, owned.outcome),
            Phase::Storing(storing) => Ask::Store(storing.task, storing.outcome),
            Phase::Publishing(_) => Ask::Publish,
            Phase::Returning(part) => Ask::Part(part.group, part.task),
            Phase::Reading(reading) => Ask::Read(reading.group, reading.place()),
            Phase::Acking => Ask::Ack(self.task),
        }
    }

    /// Hands out the envelope that is to be published, once.
    pub fn envelope(&mut self) -> Option<Letter>
        ensures value { result ≡ held_out self.old }
        ensures reads { IfSome result (λ e. read_envelope e ≡ Ok (said e)) }
        ensures core { self.new ≡ handed self.old }
    {
        match &mut self.phase {
            Phase::Publishing(publishing) => publishing.envelope.take(),
            _ => None,
        }
    }

    /// Returns whether the core is inside the script of an envelope.
    pub fn is_inside(&self) -> bool
        ensures { result ≡ is_inside self.now.left }
    {
        match &self.phase {
            Phase::Taking => false,
            Phase::Resting => false,
            Phase::Over => false,
            Phase::Failed => false,
            _ => true,
        }
    }

    /// Returns the envelope of the open script, from its take until its acknowledgement is
    /// answered.
    pub fn held(&self) -> Option<&Letter>
        ensures { option_map (λ e. e.now) result ≡ held self.now }
    {
        match &self.phase {
            Phase::Owning(owned) => Some(&owned.envelope),
            _ => self.kept.as_ref(),
        }
    }

    /// Returns the point that the open script has reached, with its message's task: before the
    /// first store, or before the acknowledgement. None elsewhere, and if the envelope was dropped.
    pub fn point(&self) -> Option<(TaskNo, When)>
        ensures { result ≡ point_at self.now }
    {
        match &self.phase {
            Phase::Owning(_) => self.task.map(|task| (task, When::Early)),
            Phase::Acking => self.task.map(|task| (task, When::Late)),
            _ => None,
        }
    }

    /// Returns how many envelopes were dropped.
    pub fn dropped(&self) -> u64
        ensures { result ≡ self.now.dropped }
    {
        self.dropped
    }

    /// Answers what the core asks for. If memory is refused, the core has failed; only an envelope
    /// and a member's outcome may need any. The core can't look a member up: the caller that
    /// answers a read names the last task of the member that was asked for. With any other task the
    /// asks and answers would be no core run. An outcome that is found must be in range, since no
    /// envelope can say a greater number.
    pub fn answer<B: Book, T: Tasks>(
        &mut self,
        book: &B,
        tasks: &T,
        reply: Reply,
    ) -> Result<(), Memory>
        requires suits { suits (next self.old) reply ≡ true }
        requires found { FoundOf (B.book book.now) reply (next self.old) }
        requires in_range { FoundInRange reply }
        ensures ok { OnOk result (self.new
            ≡ after_reply (T.behaviour tasks.now) (B.book book.now) self.old reply) }
        ensures err { OnErr result (self.new ≡ failing self.old) }
        ensures memory { OnErr result (Grows reply) }
    {
        match self.phase {
            Phase::Taking => {
                self.set(Phase::Failed);
                self.take_in(book, tasks, reply)
            }
            // nothing is moved here, and it comes once for each message
            Phase::Acking => {
                self.kept = None;
                self.set(acknowledged(&reply));
                Ok(())
            }
            _ => self.go_on(&reply),
        }
    }

    /// Answers an ask that is neither a take nor an acknowledgement, for which no task is called.
    fn go_on(&mut self, reply: &Reply) -> Result<(), Memory>
        requires asks { asked self.old.left ≢ to_queue take }
        requires holds { self.old.left ≢ acking }
        requires suits { suits (next self.old) reply.now ≡ true }
        requires in_range { FoundInRange reply.now }
        ensures ok { OnOk result ((behaviour : Behaviour) (book : Known)
            → self.new ≡ after_reply behaviour book self.old reply.now) }
        ensures err { OnErr result (self.new ≡ failing self.old) }
        ensures memory { OnErr result (Grows reply.now) }
    {
        match mem::replace(&mut self.phase, Phase::Failed) {
            Phase::Taking | Phase::Acking => unreachable!(),
            Phase::Resting => self.set(rested(reply)),
            Phase::Over => self.set(Phase::Failed),
            Phase::Failed => self.set(Phase::Failed),
            Phase::Owning(owned) => self.keep(owned.answered(reply)),
            Phase::Storing(storing) => self.set(storing.answered(reply)),
            Phase::Publishing(publishing) => self.set(publishing.answered(reply)),
            Phase::Returning(part) => self.set(returned(self.alloc, part, reply)),
            Phase::Reading(reading) => {
                let phase = reading.answered(self.alloc, reply)?;
                self.set(phase);
            }
        }
        Ok(())
    }

    /// Sets a phase inside a script, with the envelope that is kept until it is acknowledged.
    fn keep(&mut self, answered: (Phase, Letter))
        ensures value { self.new
            ≡ record {
              left = left_of answered.0;
              is_out = is_out answered.0;
              dropped = self.old.dropped;
              kept = Some answered.1;
              task = self.old.task;
            } }
        ensures most { self.old.dropped ≤ greatest_count }
    {
        let (phase, envelope) = answered;
        self.kept = Some(envelope);
        self.set(phase);
    }

    #[inline(always)]
    fn set(&mut self, phase: Phase)
        ensures value { self.new
            ≡ record {
              left = left_of phase;
              is_out = is_out phase;
              dropped = self.old.dropped;
              kept = self.old.kept;
              task = self.old.task;
            } }
        ensures most { self.old.dropped ≤ greatest_count }
    {
        // Only the clause `most` needs it: a count that is read is known to fit its type.
        let _dropped = self.dropped;
        self.phase = phase;
    }

    /// Answers a take. `answer` has set the phase to failed before the call, and it stays so if
    /// memory is refused.
    fn take_in<B: Book, T: Tasks>(
        &mut self,
        book: &B,
        tasks: &T,
        reply: Reply,
    ) -> Result<(), Memory>
        requires { suits ask.Take reply ≡ true }
        ensures ok { OnOk result (self.new
            ≡ after_reply (T.behaviour tasks.now) (B.book book.now)
            (waiting self.old.dropped self.old.kept self.old.task) reply) }
        ensures err { OnErr result (self.new ≡ self.old) }
        ensures memory { OnErr result (Grows reply) }
    {
        match reply {
            Reply::Taken(Some(envelope)) => self.take_up(book, tasks, envelope),
            Reply::Taken(None) => {
                self.set(Phase::Resting);
                Ok(())
            }
            _ => unreachable!(),
        }
    }

    fn take_up<B: Book, T: Tasks>(
        &mut self,
        book: &B,
        tasks: &T,
        mut letter: Letter,
    ) -> Result<(), Memory>
        ensures ok { OnOk result (self.new
            ≡ after_reply (T.behaviour tasks.now) (B.book book.now)
            (waiting self.old.dropped self.old.kept self.old.task) (Taken (Some letter))) }
        ensures err { OnErr result (self.new ≡ self.old) }
    {
        if let Some(followed) = letter.take_followed() {
            return self.take_followed(book, tasks, letter, followed);
        }
        let alloc = self.alloc;
        match open(alloc, book, &mut letter)? {
            Some(message) => {
                let task = message.task;
                let owned = Owned::of(alloc, tasks, letter, message)?;
                self.task = Some(task);
                self.set(Phase::Owning(owned));
                Ok(())
            }
            None => {
                self.drop_one(letter);
                Ok(())
            }
        }
    }

    /// Takes up a letter whose message is kept apart from the rest of its line.
    fn take_followed<B: Book, T: Tasks>(
        &mut self,
        book: &B,
        tasks: &T,
        letter: Letter,
        followed: Box<Followed>,
    ) -> Result<(), Memory>
        requires { Says letter.properties letter.headers letter.body followed.value }
        ensures ok { OnOk result (self.new
            ≡ after_reply (T.behaviour tasks.now) (B.book book.now)
            (waiting self.old.dropped self.old.kept self.old.task) (Taken (Some letter))) }
        ensures err { OnErr result (self.new ≡ self.old) }
    {
        if is_known(book, &letter, &followed) {
            let task = followed.message.task;
            let owned = Owned::followed(self.alloc, tasks, letter, followed)?;
            self.task = Some(task);
            self.set(Phase::Owning(owned));
        } else {
            self.drop_one(letter);
        }
        Ok(())
    }

    fn drop_one(&mut self, envelope: Letter)
        ensures { self.new
            ≡ record {
              left = acking;
              is_out = false;
              dropped = min greatest_count (self.old.dropped + 1);
              kept = Some envelope;
              task = None;
            } }
    {
        self.dropped = self.dropped.saturating_add(1);
        self.task = None;
        self.keep((Phase::Acking, envelope));
    }
}
