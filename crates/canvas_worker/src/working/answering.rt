//! The answers to the asks of a worker's core.

ghost use Rattle.std.specs.Prelude.{◌≡◌, [], None, Some, IsOk, IfErr, MatchResult, false};
ghost use Rattle.canvas_task.specs.Apply.{IsInRange};
ghost use Rattle.canvas_runs.specs.Core.{ReadsBack};
ghost use Rattle.canvas_core.specs.Books.{no_book};
ghost use Rattle.canvas_core.specs.EnvelopeWorker.{enveloped_by, no_tasks};
ghost use Rattle.canvas_core.specs.CoreState.{next};
ghost use Rattle.canvas_worker.specs.Polls.{Ready, EndsFor, Acted, EndsWith};
ghost use Rattle.canvas_core.specs.declared.ask.Ask.TheVariants as ask;
ghost use Rattle.canvas_core.specs.declared.cause.Cause.TheVariants as cause;

use crate::source::Source;
use crate::working::{End, Working};
use crate::{Ask, Reply};
use canvas_backend::Stored;
use canvas_task::{GroupNo, Outcome, TaskNo, Tasks};
use std::sync::Wait;

/// The number of takes in a row that found nothing after which a worker sleeps before the next.
const PATIENCE: u32 = 8;

impl<R: Wait> Working<'_, R> {
    fn take_one<T: Tasks>(&mut self, tasks: &T) -> Result<(), End>
        requires ready { Ready self.old }
        requires asks { next self.old.core ≡ ask.Take }
        requires bare { self.old.held ≡ [] }
        ensures acted { MatchResult result (λ _. Acted (T.behaviour tasks.now) self.old self.new)
            (λ e. EndsWith (T.behaviour tasks.now) self.old e.fault self.new) }
        ensures memory { IfErr result (λ e. e.fault ≡ Some cause.Memory) }
    {
        let (rt, queue) = (self.rt, self.queue);
        match queue.take(rt, &mut self.pass) {
            Some(envelope) => {
                self.source = Source::Next;
                self.give(tasks, envelope)
            }
            None => {
                self.source = self.source.after_none();
                self.idle = self.idle.saturating_add(1);
                self.answer(tasks, Reply::Taken(None))
            }
        }
    }

    /// Takes a batch. If that is empty nothing is answered, and the next take is of one envelope:
    /// an empty batch doesn't say that there is no envelope, since others may have taken in
    /// between.
    fn take_batch<T: Tasks>(&mut self, tasks: &T) -> Result<(), End>
        requires ready { Ready self.old }
        requires asks { next self.old.core ≡ ask.Take }
        requires bare { self.old.held ≡ [] }
        requires due { self.old.alone ≡ false }
        ensures acted { MatchResult result (λ _. Acted (T.behaviour tasks.now) self.old self.new)
            (λ e. EndsWith (T.behaviour tasks.now) self.old e.fault self.new) }
        ensures memory { IfErr result (λ e. e.fault ≡ Some cause.Memory) }
    {
        let (rt, queue) = (self.rt, self.queue);
        let mut batch = queue.take_batch(rt, &mut self.pass);
        match batch.next() {
            Some(envelope) => {
                self.source = Source::Batched(batch);
                self.give(tasks, envelope)
            }
            None => {
                self.source = Source::Alone;
                Ok(())
            }
        }
    }

    fn take<T: Tasks>(&mut self, tasks: &T) -> Result<(), End>
        requires ready { Ready self.old }
        requires asks { next self.old.core ≡ ask.Take }
        ensures acted { MatchResult result (λ _. Acted (T.behaviour tasks.now) self.old self.new)
            (λ e. EndsWith (T.behaviour tasks.now) self.old e.fault self.new) }
        ensures memory { IfErr result (λ e. e.fault ≡ Some cause.Memory) }
    {
        if let Some(envelope) = self.source.next() {
            return self.give(tasks, envelope);
        }
        // Once for a batch, since all workers share the count. A worker that rests owes none.
        self.flight.take_off(self.acknowledged);
        self.acknowledged = 0;
        if self.source.is_alone() {
            self.take_one(tasks)
        } else {
            self.take_batch(tasks)
        }
    }

    fn publish<T: Tasks>(&mut self, tasks: &T) -> Result<(), End>
        requires ready { Ready self.old }
        requires asks { next self.old.core ≡ ask.Publish }
        requires reads_back { ReadsBack (enveloped_by no_tasks no_book) self.old.core.left }
        ensures acted { MatchResult result (λ _. Acted (T.behaviour tasks.now) self.old self.new)
            (λ e. EndsWith (T.behaviour tasks.now) self.old e.fault self.new) }
        ensures memory { IfErr result (λ e. e.fault ≡ Some cause.Memory) }
    {
        let (rt, queue) = (self.rt, self.queue);
        match self.core.envelope() {
            Some(envelope) => match queue.publish(rt, &mut self.pass, envelope) {
                Ok(()) => {
                    self.published = self.published.saturating_add(1);
                    self.reply(tasks, Reply::Published)
                }
                // The core ends with the worker, so it isn't answered.
                Err(_refused) => Err(self.fail()),
            },
            None => unreachable!(),
        }
    }

    fn store<T: Tasks>(&mut self, tasks: &T, task: TaskNo, outcome: Outcome) -> Result<(), End>
        requires ready { Ready self.old }
        requires asks { next self.old.core ≡ ask.Store task outcome }
        requires reads_back { ReadsBack (enveloped_by no_tasks no_book) self.old.core.left }
        requires in_range { IsInRange outcome }
        ensures acted { MatchResult result (λ _. Acted (T.behaviour tasks.now) self.old self.new)
            (λ e. EndsWith (T.behaviour tasks.now) self.old e.fault self.new) }
        ensures lasts { IsOk result }
    {
        let backend = self.backend;
        match backend.store(&mut self.seat, task, &outcome) {
            Stored::First => {
                self.first = self.first.saturating_add(1);
                self.reply(tasks, Reply::Stored(Stored::First))
            }
            Stored::Again => self.reply(tasks, Reply::Stored(Stored::Again)),
        }
    }

    fn return_part<T: Tasks>(&mut self, tasks: &T, group: GroupNo, task: TaskNo) -> Result<(), End>
        requires ready { Ready self.old }
        requires asks { next self.old.core ≡ ask.Part group task }
        requires reads_back { ReadsBack (enveloped_by no_tasks no_book) self.old.core.left }
        ensures acted { MatchResult result (λ _. Acted (T.behaviour tasks.now) self.old self.new)
            (λ e. EndsWith (T.behaviour tasks.now) self.old e.fault self.new) }
        ensures lasts { IsOk result }
    {
        let backend = self.backend;
        let count = backend.part(&mut self.seat, group, task);
        self.parts = self.parts.saturating_add(1);
        self.reply(tasks, Reply::Counted(count))
    }

    /// Looks the member up, and reads its last task.
    ///
    /// The core asks for a member by its place, since it knows no tasks; a backend of a plan has
    /// the member's last task.
    fn read<T: Tasks>(&mut self, tasks: &T, group: GroupNo, place: u32) -> Result<(), End>
        requires ready { Ready self.old }
        requires asks { next self.old.core ≡ ask.Read group place }
        requires reads_back { ReadsBack (enveloped_by no_tasks no_book) self.old.core.left }
        ensures acted { MatchResult result (λ _. Acted (T.behaviour tasks.now) self.old self.new)
            (λ e. EndsWith (T.behaviour tasks.now) self.old e.fault self.new) }
        ensures memory { IfErr result (λ e. e.fault ≡ Some cause.Memory) }
    {
        let backend = self.backend;
        match backend.member(group, place) {
            Some(task) => {
                let found = backend.read(&mut self.seat, task);
                self.reply(tasks, Reply::Found(task, found))
            }
            None => unreachable!(),
        }
    }

    fn acknowledge<T: Tasks>(&mut self, tasks: &T) -> Result<(), End>
        requires ready { Ready self.old }
        requires asks { next self.old.core ≡ ask.Ack self.old.core.task }
        requires reads_back { ReadsBack (enveloped_by no_tasks no_book) self.old.core.left }
        ensures acted { MatchResult result (λ _. Acted (T.behaviour tasks.now) self.old self.new)
            (λ e. EndsWith (T.behaviour tasks.now) self.old e.fault self.new) }
        ensures lasts { IsOk result }
    {
        self.reply(tasks, Reply::Acked)
    }

    fn rest<T: Tasks>(&mut self, tasks: &T) -> Result<(), End>
        requires ready { Ready self.old }
        requires asks { next self.old.core ≡ ask.Rest }
        requires reads_back { ReadsBack (enveloped_by no_tasks no_book) self.old.core.left }
        ensures acted { MatchResult result (λ _. Acted (T.behaviour tasks.now) self.old self.new)
            (λ e. EndsWith (T.behaviour tasks.now) self.old e.fault self.new) }
        ensures by_itself { IfErr result (λ e. e.fault ≡ None) }
    {
        if self.has_more() {
            return self.answer(tasks, Reply::Rested { more: true });
        }
        self.answer(tasks, Reply::Rested { more: false })?;
        Err(End { fault: None })
    }

    /// Returns whether a message is in flight. After 8 takes or more in a row that found nothing, a
    /// worker first sleeps inside this poll, for 100 microseconds at most, so that idle workers
    /// leave the processor to those that have work. No claim rests on it.
    fn has_more(&self) -> bool {
        if self.idle >= PATIENCE {
            self.flight.nap(self.rt);
        }
        self.flight.is_some()
    }

    /// Answers one ask of the core, unless the worker ends because memory is refused.
    #[tactic(auto, using(crate::proofs::Turns::ends_acting, crate::proofs::Ending::ends_at))]
    pub(super) fn go_on<T: Tasks>(&mut self, tasks: &T) -> Result<(), End>
        requires { Ready self.old }
        ensures acted { MatchResult result (λ _. Acted (T.behaviour tasks.now) self.old self.new)
            (λ e. EndsWith (T.behaviour tasks.now) self.old e.fault self.new) }
        ensures ends { IfErr result
            (λ e. EndsFor (next self.old.core) e.fault) }
    {
        match self.core.next() {
            Ask::Take => self.take(tasks),
            Ask::Publish => self.publish(tasks),
            Ask::Store(task, outcome) => self.store(tasks, task, outcome),
            Ask::Part(group, task) => self.return_part(tasks, group, task),
            Ask::Read(group, place) => self.read(tasks, group, place),
            Ask::Ack(_) => self.acknowledge(tasks),
            Ask::Rest => self.rest(tasks),
            Ask::End => Err(self.fail()),
        }
    }
}
