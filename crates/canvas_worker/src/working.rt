//! A worker until it ends.

ghost use Rattle.std.specs.Prelude.{◌≡◌, Some, Ok, IsSome, IfOk, IfErr, OnErr, MatchResult, true};
ghost use Rattle.canvas_runs.specs.Book.{book_on};
ghost use Rattle.canvas_runs.specs.Core.{is_inside};
ghost use Rattle.canvas_core.specs.Asks.{suits, FoundInRange, FoundOf, Grows};
ghost use Rattle.canvas_worker.specs.GateAnswers.{asks_at, passed_after, Heard, Heeds, EndsHeeding};
ghost use Rattle.canvas_core.specs.CoreState.{next, held};
ghost use Rattle.canvas_worker.specs.Polls.{Ready, EndsFor, Acted, Pends, EndsWith, Leaves, Redelivered, working_begun, with_answer, lost, one_taken};
ghost use Rattle.canvas_core.specs.declared.ask.Ask.TheVariants as ask;
ghost use Rattle.canvas_core.specs.declared.ask.Reply.TheVariants.{Taken};
ghost use Rattle.canvas_core.specs.declared.cause.Cause.TheVariants as cause;
ghost use Rattle.canvas_worker.specs.declared.working.GateAnswer.TheVariants.{Wait, Again, On};

mod answering;

use crate::in_flight::CountedQueue;
use crate::source::Source;
use crate::{Cause, Core, Gate, InFlight, Record, Reply, Stop};
use canvas_backend::{Backend, BackendSeat};
use canvas_broker::{Broker, BrokerPass};
use canvas_envelope::Letter;
use canvas_runs::When;
use canvas_task::{Memory, Tasks};
use std::alloc::Global;
use std::marker::Model;
use std::sync::Wait;

/// The end of a worker: why it is early, if it is.
#[derive(Clone, Copy, Drop)]
pub(crate) struct End {
    pub fault: Option<Cause>,
}

/// A gate's answer at a point of the open script.
#[derive(Clone, Copy, Drop)]
pub(crate) enum GateAnswer {
    /// To do nothing yet.
    Wait,
    /// To redeliver its envelope.
    Again,
    /// To go on.
    On,
}

/// The state of a worker until it ends.
#[derive(Drop)]
pub(crate) struct Working<'a, R: Wait> {
    rt: &'a R,
    alloc: Global,
    number: u32,
    queue: CountedQueue<'a>,
    pass: BrokerPass<Letter>,
    backend: &'a Backend,
    seat: BackendSeat,
    stop: &'a Stop,
    flight: &'a InFlight,
    core: Core,
    source: Source,
    taken: u64,
    published: u64,
    first: u64,
    parts: u64,
    // How many takes in a row have found nothing. No clause reads it.
    idle: u32,
    // How many envelopes were acknowledged and are still counted as in flight. No clause reads it.
    acknowledged: u64,
}

impl<'a, R: Wait> Model for Working<'a, R> {
    ghost use Rattle.std.specs.Coded.{codes};
    ghost use Rattle.canvas_envelope.specs.codes.ContentCode.{content_code};
    ghost use Rattle.canvas_core.specs.codes.CoreCode.{carried_code};
    ghost use Rattle.canvas_worker.specs.steps.Held.{held_in, alone_in};
    ghost use Rattle.canvas_worker.specs.Polls.{WorkerView};

    ghost Value = { WorkerView };

    ghost coded = { Prim.hlevel (codes, content_code, carried_code) };

    ghost view = { λ w. record {
      broker = w.queue.broker.now;
      backend = w.backend.now;
      number = w.number;
      pass = w.pass;
      seat = w.seat;
      core = w.core;
      held = held_in w.source;
      alone = alone_in w.source;
      taken = w.taken;
      published = w.published;
      first = w.first;
      parts = w.parts;
    } };
}

impl<'a, R: Wait> Working<'a, R> {
    pub(crate) fn new(
        rt: &'a R,
        alloc: Global,
        number: u32,
        broker: &'a Broker<Letter>,
        pass: BrokerPass<Letter>,
        backend: &'a Backend,
        seat: BackendSeat,
        stop: &'a Stop,
        flight: &'a InFlight,
    ) -> Working<'a, R>
        ensures { result ≡ working_begun broker.now backend.now number pass seat }
    {
        Working {
            rt,
            alloc,
            number,
            queue: CountedQueue::of(broker, flight),
            pass,
            backend,
            seat,
            stop,
            flight,
            core: Core::new(alloc),
            source: Source::First,
            taken: 0,
            published: 0,
            first: 0,
            parts: 0,
            idle: 0,
            acknowledged: 0,
        }
    }

    /// Returns the record of a worker that has ended. The rest of a batch is dropped.
    pub(crate) fn record(self, end: End) -> Record
        ensures { Leaves self.entry end.fault result }
    {
        let dropped = self.core.dropped();
        Record {
            number: self.number,
            taken: self.taken,
            published: self.published,
            first: self.first,
            parts: self.parts,
            dropped,
            pass: self.pass,
            seat: self.seat,
            fault: end.fault,
        }
    }

    /// Asks the stop of all workers, so that the others end too, and returns the end for refused
    /// memory.
    fn fail(&self) -> End
        ensures { result.fault ≡ Some cause.Memory }
    {
        self.stop.ask();
        End {
            fault: Some(Cause::Memory),
        }
    }

    /// Answers the core.
    fn answer<T: Tasks>(&mut self, tasks: &T, reply: Reply) -> Result<(), End>
        requires suits { suits (next self.old.core) reply ≡ true }
        requires found { FoundOf (book_on self.old.backend.plan) reply (next self.old.core) }
        requires in_range { FoundInRange reply }
        ensures value { MatchResult result
            (λ _. self.new ≡ with_answer (T.behaviour tasks.now) self.old reply)
            (λ e. (self.new ≡ lost self.old) × (e.fault ≡ Some cause.Memory)) }
        ensures memory { OnErr result (Grows reply) }
    {
        match self.core.answer(self.backend, tasks, reply) {
            Ok(()) => Ok(()),
            Err(_) => Err(self.fail()),
        }
    }

    /// Answers the core inside the script of a message, which the answer may end.
    fn reply<T: Tasks>(&mut self, tasks: &T, reply: Reply) -> Result<(), End>
        requires suits { suits (next self.old.core) reply ≡ true }
        requires found { FoundOf (book_on self.old.backend.plan) reply (next self.old.core) }
        requires in_range { FoundInRange reply }
        ensures value { MatchResult result
            (λ _. self.new ≡ with_answer (T.behaviour tasks.now) self.old reply)
            (λ e. (self.new ≡ lost self.old) × (e.fault ≡ Some cause.Memory)) }
        ensures memory { OnErr result (Grows reply) }
    {
        self.answer(tasks, reply)?;
        let is_done = !self.core.is_inside();
        self.acknowledged = self.acknowledged.saturating_add(u64::from(is_done));
        Ok(())
    }

    /// Gives an envelope to the core.
    fn give<T: Tasks>(&mut self, tasks: &T, envelope: Letter) -> Result<(), End>
        requires { next self.old.core ≡ ask.Take }
        ensures { MatchResult result (λ _. self.new
            ≡ one_taken (with_answer (T.behaviour tasks.now) self.old (Taken (Some envelope))))
            (λ e. (self.new ≡ lost self.old) × (e.fault ≡ Some cause.Memory)) }
    {
        self.idle = 0;
        self.reply(tasks, Reply::Taken(Some(envelope)))?;
        self.taken = self.taken.saturating_add(1);
        Ok(())
    }

    /// Returns a clone of the envelope of the open script.
    fn copied(&self) -> Result<Letter, Memory>
        requires { IsSome (held self.now.core) }
        ensures { IfOk result (λ e. held self.now.core ≡ Some e) }
    {
        match self.core.held() {
            Some(envelope) => envelope.copy(self.alloc),
            None => unreachable!(),
        }
    }

    /// Redelivers the envelope of the open script, and does nothing else. Redelivers nothing if
    /// memory is refused.
    fn deliver_again(&mut self) -> Result<(), End>
        requires ready { Ready self.old }
        requires inside { is_inside self.old.core.left ≡ true }
        ensures { MatchResult result (λ _. Redelivered self.old self.new)
            (λ e. (self.new ≡ self.old) × (e.fault ≡ Some cause.Memory)) }
    {
        let (rt, queue) = (self.rt, self.queue);
        match self.copied() {
            Ok(envelope) => match queue.redeliver(rt, &mut self.pass, envelope) {
                Ok(()) => Ok(()),
                Err(_refused) => Err(self.fail()),
            },
            Err(_) => Err(self.fail()),
        }
    }

    /// Returns what the gate says at the point that the open script has reached. If there is none,
    /// or the worker has passed it, the worker goes on without asking.
    fn ask_gate<G: Gate>(&self, gate: &G, passed: &mut Option<When>) -> GateAnswer
        ensures said { Heard (G.may_answer gate.now self.now.number)
            (G.may_want gate.now self.now.number) (asks_at self.now.core passed.old) result }
        ensures passed { passed.new ≡ passed_after self.now.core passed.old result }
        ensures inside { result ≡ Again → is_inside self.now.core.left ≡ true }
    {
        let Some((task, point)) = self.core.point() else {
            if !self.core.is_inside() {
                *passed = None;
            }
            return GateAnswer::On;
        };
        if *passed == Some(point) {
            return GateAnswer::On;
        }
        if point == When::Early && !gate.go(self.number, task) {
            return GateAnswer::Wait;
        }
        *passed = Some(point);
        if gate.again(self.number, task) {
            GateAnswer::Again
        } else {
            GateAnswer::On
        }
    }

    /// Makes one step, as the gate says: none if it holds the worker back, and only the redelivery
    /// if it wants the envelope of the open script redelivered.
    #[tactic(auto, using(crate::proofs::Turns::acted_well, crate::proofs::InHand::delivered_well))]
    fn step<T: Tasks>(&mut self, tasks: &T, said: GateAnswer) -> Result<(), End>
        requires ready { Ready self.old }
        requires inside { said ≡ Again → is_inside self.old.core.left ≡ true }
        ensures turned { MatchResult result (λ _. Pends (T.behaviour tasks.now) self.old self.new)
            (λ e. EndsWith (T.behaviour tasks.now) self.old e.fault self.new) }
        ensures held_back { said ≡ Wait → (result ≡ Ok tt) × (self.new ≡ self.old) }
        ensures delivers { said ≡ Again
            → MatchResult result (λ _. Redelivered self.old self.new)
            (λ e. (self.new ≡ self.old) × (e.fault ≡ Some cause.Memory)) }
        ensures goes_on { said ≡ On
            → MatchResult result (λ _. Acted (T.behaviour tasks.now) self.old self.new)
            (λ e. EndsWith (T.behaviour tasks.now) self.old e.fault self.new) }
        ensures ends { said ≡ On → IfErr result
            (λ e. EndsFor (next self.old.core) e.fault) }
    {
        match said {
            GateAnswer::Wait => Ok(()),
            GateAnswer::Again => self.deliver_again(),
            GateAnswer::On => self.go_on(tasks),
        }
    }

    /// Makes one poll. Fails with the end of a worker that has ended.
    ///
    /// It changes the worker in place: a function from a worker to a worker would move all that it
    /// has, with the rest of its batch, through each poll.
    #[tactic(auto, using(crate::proofs::Turns::ends_acting, crate::proofs::Ending::left_for))]
    pub(crate) fn turn<T: Tasks, G: Gate>(
        &mut self,
        tasks: &T,
        gate: &G,
        passed: &mut Option<When>,
    ) -> Result<(), End>
        requires { Ready self.old }
        ensures turned { MatchResult result (λ _. Pends (T.behaviour tasks.now) self.old self.new)
            (λ e. EndsWith (T.behaviour tasks.now) self.old e.fault self.new) }
        ensures heeds { MatchResult result
            (λ _. Heeds (G.may_answer gate.now self.old.number)
            (G.may_want gate.now self.old.number) (T.behaviour tasks.now) self.old passed.old
            self.new passed.new)
            (λ e. EndsHeeding (G.may_answer gate.now self.old.number)
            (G.may_want gate.now self.old.number) (T.behaviour tasks.now) self.old passed.old
            e.fault self.new) }
    {
        if self.stop.asked() {
            return Err(End {
                fault: Some(Cause::Stopped),
            });
        }
        let said = self.ask_gate(gate, passed);
        self.step(tasks, said)
    }
}
