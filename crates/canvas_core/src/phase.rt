//! The point of a core in the script of a message.

ghost use Rattle.std.specs.Prelude.{◌≡◌, ◌<◌, ◌++◌, ◌∷◌, [], Ok, IfOk, OnErr, IfSome, All, true, cond, length, map, unwrap_or};
ghost use Rattle.std.specs.Option.{option_map};
ghost use Rattle.canvas_task.specs.Apply.{IsInRange};
ghost use Rattle.canvas_effects.specs.Carrying.{carried_ok};
ghost use Rattle.canvas_effects.specs.Effects.{after, outcome_of, script as whole, part_jobs};
ghost use Rattle.canvas_envelope.specs.MessageView.{carried_view};
ghost use Rattle.canvas_effects.specs.Job as job;
ghost use Rattle.canvas_effects.specs.Job.{store, publish};
ghost use Rattle.canvas_effects.specs.Todos.{part_view};
ghost use Rattle.canvas_history.specs.declared.stored.Stored.TheVariants.{First};
ghost use Rattle.canvas_core.specs.Asks.{replied, suits, FoundInRange, Grows};
ghost use Rattle.canvas_core.specs.Books.{no_book};
ghost use Rattle.canvas_core.specs.declared.ask.Ask.TheVariants as ask;
ghost use Rattle.canvas_runs.specs.Core.{is_due, settled, reads_next, part_counted, all_read, answered, owning, doing, resting, acking, reading as state_reading};
ghost use Rattle.canvas_core.specs.CoreState.{taught};
ghost use Rattle.canvas_core.specs.Phases.{IsAt};
ghost use Rattle.canvas_core.specs.Scripts.{jobs_of};
ghost use Rattle.canvas_core.specs.EnvelopeWorker.{by_place, no_tasks, said, enclosed, unapplied, blank};

use crate::Reply;
use crate::due::latest;
use crate::script::Script;
use crate::sealed::Sealed;
use crate::sealing::{script_of, script_onward};
use crate::stages::{Owned, Publishing, Reading, Storing};
use canvas_backend::Stored;
use canvas_effects::{ChordBody, PartCall, into_body, into_onward, into_todo};
use canvas_envelope::{Followed, Letter, Message};
use canvas_task::{GroupNo, Memory, Outcome, TaskNo, Tasks};
use std::alloc::Global;

#[derive(Drop)]
pub(crate) enum Phase {
    Taking,
    Resting,
    Over,
    Failed,
    Owning(Owned),
    Storing(Storing),
    Publishing(Publishing),
    Returning(PartCall),
    Reading(Reading),
    Acking,
}

fn part_or_ack(part: Option<PartCall>, latest: Stored) -> Phase
    ensures { IsAt result (settled (by_place no_tasks no_book)
        (map enclosed (part_jobs (option_map part_view part))) latest) }
{
    match part {
        Some(part) => match latest {
            Stored::First => Phase::Returning(part),
            Stored::Again => Phase::Acking,
        },
        None => Phase::Acking,
    }
}

/// Returns the phase for what is next in a script.
#[inline(always)]
fn settle(script: Script) -> Phase
    ensures { IsAt result (settled (by_place no_tasks no_book) (jobs_of script) script.latest) }
{
    let Script {
        mut stores,
        mut publishes,
        part,
        latest,
    } = script;
    if let Some((task, outcome)) = stores.pop_front() {
        let script = Script {
            stores,
            publishes,
            part,
            latest,
        };
        return Phase::Storing(Storing {
            task,
            outcome,
            script,
        });
    }
    match publishes.pop_front() {
        Some(Sealed { envelope }) => Phase::Publishing(Publishing {
            envelope: Some(envelope),
            script: Script {
                stores,
                publishes,
                part,
                latest,
            },
        }),
        None => part_or_ack(part, latest),
    }
}

/// Returns the phase for what is next in a script, once a store of it is answered.
fn settle_after(script: Script, task: TaskNo, stored: Stored) -> Phase
    ensures { IsAt result (settled (by_place no_tasks no_book) (jobs_of script)
        (cond (is_due task (jobs_of script)) stored script.latest)) }
{
    let latest = latest(&script, task, stored);
    let Script {
        stores,
        publishes,
        part,
        latest: _,
    } = script;
    settle(Script {
        stores,
        publishes,
        part,
        latest,
    })
}

/// Returns what the call of a message answers.
fn outcome_of<T: Tasks>(tasks: &T, message: &Message) -> Outcome
    ensures value { result ≡ outcome_of (T.behaviour tasks.now) message.now }
    ensures in_range { IsInRange result }
{
    tasks.apply(message.name.get(), message.args.get(), message.kwargs.get())
}

/// Returns the size. It is a function for its contract's sake: `now` is what contracts see of the
/// chord.
fn size_of(chord: &ChordBody) -> u32
    ensures { result ≡ chord.now.size }
{
    chord.carried.size
}

impl Owned {
    /// Builds all that the message of a taken envelope needs.
    pub(crate) fn of<T: Tasks>(
        alloc: Global,
        tasks: &T,
        envelope: Letter,
        message: Box<Message>,
    ) -> Result<Owned, Memory>
        requires { said envelope ≡ message.value }
        ensures envelope { IfOk result (λ o. o.envelope ≡ envelope) }
        ensures value { IfOk result
            (λ o. o.outcome ≡ outcome_of (T.behaviour tasks.now) (said envelope)) }
    {
        let task = message.task;
        let outcome = outcome_of(tasks, &message);
        let todo = into_todo(alloc, Box::into_inner(message), &outcome)?;
        let script = script_of(alloc, todo, Stored::First)?;
        Ok(Owned {
            envelope,
            task,
            outcome,
            script,
        })
    }

    /// Like `of`, with a message that is kept apart from the rest of its line.
    pub(crate) fn followed<T: Tasks>(
        alloc: Global,
        tasks: &T,
        envelope: Letter,
        followed: Box<Followed>,
    ) -> Result<Owned, Memory>
        requires { said envelope ≡ followed.value }
        ensures envelope { IfOk result (λ o. o.envelope ≡ envelope) }
        ensures value { IfOk result
            (λ o. o.outcome ≡ outcome_of (T.behaviour tasks.now) (said envelope)) }
    {
        let task = followed.message.task;
        let outcome = outcome_of(tasks, &followed.message);
        let onward = into_onward(alloc, Box::into_inner(followed), &outcome)?;
        let script = script_onward(alloc, onward, Stored::First)?;
        Ok(Owned {
            envelope,
            task,
            outcome,
            script,
        })
    }

    /// Goes on after the store is answered, and gives back the envelope, which is kept until it is
    /// acknowledged.
    pub(crate) fn answered(self, reply: &Reply) -> (Phase, Letter)
        ensures phase { IsAt result.0 (answered (by_place no_tasks no_book)
            (owning (record { envelope = self.envelope; outcome = self.outcome }))
            (replied reply.now)) }
        ensures envelope { result.1 ≡ self.envelope }
    {
        let Owned {
            envelope,
            task: _,
            outcome: _,
            script,
        } = self;
        let phase = match reply {
            Reply::Stored(Stored::First) => settle(script),
            Reply::Stored(Stored::Again) => Phase::Acking,
            _ => Phase::Failed,
        };
        (phase, envelope)
    }
}

impl Storing {
    pub(crate) fn answered(self, reply: &Reply) -> Phase
        ensures { IsAt result (answered (by_place no_tasks no_book)
            (doing (store self.task self.outcome ∷ jobs_of self.script) self.script.latest)
            (replied reply.now)) }
    {
        match reply {
            Reply::Stored(stored) => settle_after(self.script, self.task, *stored),
            _ => Phase::Failed,
        }
    }
}

impl Publishing {
    pub(crate) fn answered(self, reply: &Reply) -> Phase
        requires { suits ask.Publish reply.now ≡ true }
        ensures { IsAt result (answered (by_place no_tasks no_book) (doing
            (publish (unapplied (unwrap_or self.envelope blank)) ∷ jobs_of self.script)
            self.script.latest) (replied reply.now)) }
    {
        match reply {
            Reply::Published => settle(self.script),
            _ => Phase::Failed,
        }
    }
}

/// Reads the next member of a completed header.
fn read_next(group: GroupNo, chord: ChordBody, found: Vec<(TaskNo, Outcome)>) -> Phase
    requires fits { carried_ok chord ≡ true }
    requires few { length found.items < chord.size }
    requires in_range { All (λ e. IsInRange e.1) found.items }
    ensures { IsAt result (reads_next (by_place no_tasks no_book) group chord found.items) }
{
    Phase::Reading(Reading {
        group,
        chord,
        found,
    })
}

/// Reserves room for the outcomes of `size` members, if there is memory for it. If not, the vector
/// grows as they are read, and memory is refused there.
fn room_for(alloc: Global, size: usize) -> Vec<(TaskNo, Outcome)>
    ensures { result.items ≡ [] }
{
    match Vec::with_capacity(alloc, size) {
        Ok(found) => found,
        Err(_) => Vec::new(alloc),
    }
}

/// Starts to read the members, if the part was the last of its header.
fn counted(alloc: Global, part: PartCall, count: u64) -> Phase
    ensures { IsAt result (part_counted (by_place no_tasks no_book) part.group
        (carried_view part.chord) count) }
{
    let chord = ChordBody::of(part.chord, part.text);
    let size = u64::from(size_of(&chord));
    if count < size && count + 1 == size {
        read_next(part.group, chord, room_for(alloc, size as usize))
    } else {
        Phase::Acking
    }
}

pub(crate) fn returned(alloc: Global, part: PartCall, reply: &Reply) -> Phase
    ensures { IsAt result (answered (by_place no_tasks no_book)
        (doing (job.part part.group part.task (carried_view part.chord) ∷ []) First)
        (replied reply.now)) }
{
    match reply {
        Reply::Counted(count) => counted(alloc, part, *count),
        _ => Phase::Failed,
    }
}

pub(crate) fn acknowledged(reply: &Reply) -> Phase
    ensures { IsAt result (answered (by_place no_tasks no_book) acking (replied reply.now)) }
{
    match reply {
        Reply::Acked => Phase::Taking,
        _ => Phase::Failed,
    }
}

pub(crate) fn rested(reply: &Reply) -> Phase
    ensures { IsAt result (answered (by_place no_tasks no_book) resting (replied reply.now)) }
{
    match reply {
        Reply::Rested { more: true } => Phase::Taking,
        Reply::Rested { more: false } => Phase::Over,
        _ => Phase::Failed,
    }
}

impl Reading {
    /// Returns the place of the member that is read next.
    pub(crate) fn place(&self) -> u32
        ensures { result ≡ length self.now.found.items }
    {
        // Only the proof needs it: a size that is read is known to fit its type.
        let _size = size_of(&self.chord);
        self.found.len() as u32
    }

    /// Adds the outcome of one more member. After the last, builds all that the body needs.
    fn add(self, alloc: Global, task: TaskNo, outcome: Outcome) -> Result<Phase, Memory>
        requires { IsInRange outcome }
        ensures { IfOk result (λ p. IsAt p (all_read (by_place no_tasks no_book)
            self.group self.chord (self.found.items ++ (task, outcome) ∷ []))) }
    {
        let Reading {
            group,
            chord,
            mut found,
        } = self;
        found.push((task, outcome))?;
        if found.len() == size_of(&chord) as usize {
            let todo = into_body(alloc, chord, &found)?;
            Ok(settle(script_of(alloc, todo, Stored::Again)?))
        } else {
            Ok(read_next(group, chord, found))
        }
    }

    pub(crate) fn answered(self, alloc: Global, reply: &Reply) -> Result<Phase, Memory>
        requires { FoundInRange reply.now }
        ensures at { IfOk result (λ p. IsAt p (answered (by_place no_tasks no_book)
            (taught (state_reading self.group self.chord 0 self.found.items) reply.now)
            (replied reply.now))) }
        ensures memory { OnErr result (Grows reply.now) }
    {
        match reply {
            Reply::Found(task, Some(outcome)) => self.add(alloc, *task, *outcome),
            Reply::Found(_, None) => Ok(Phase::Acking),
            _ => Ok(Phase::Failed),
        }
    }
}
