//! The worker.
//!
//! A worker remembers nothing of its calls. Its promise looks forward: from its present state on,
//! its record will have followed a core run. Each poll puts one answered ask before that, so no
//! list of calls is kept, not even as a ghost.

ghost use Rattle.std.specs.Prelude.{◌≡◌, Some, None, IfSome, IsSome, IsSomeAnd};
ghost use Rattle.canvas_worker.specs.Polled.{Polled};
ghost use Rattle.canvas_worker.specs.Polls.{Ready, TellsOf, Leaves, working_begun};
ghost use Rattle.futures.specs.Poll.{OnPending, IfReady};
ghost use Rattle.futures.specs.Task.{Covers, Keeps};

use crate::working::{End, Working};
use crate::{Gate, InFlight, Record, Shared, Stop};
use canvas_backend::{Backend, BackendSeat};
use canvas_broker::{Broker, BrokerPass};
use canvas_envelope::Letter;
use canvas_runs::When;
use canvas_task::Tasks;
use futures::Future;
use futures::task::{Context, Poll};
use std::alloc::Global;
use std::sync::Wait;

/// A worker, as a future of its record. One poll answers one ask of its core, unless its gate holds
/// it back, or the batch that was due was empty: then the next poll takes one envelope.
///
/// It is ready once the stop was asked. It asks its gate before a message's first store and before
/// its acknowledgement. If the gate holds it back, it only yields. If the gate wants the message's
/// envelope redelivered, it does only that, in a poll of its own. It ends by itself once it rests
/// while no message is in flight. Its pass and seat are used with the broker and the backend that
/// they came from.
#[derive(Drop)]
pub struct Worker<'a, R: Wait, T: Tasks, G: Gate> {
    working: Option<Working<'a, R>>,
    // The latest point of the open script at which the gate let this worker go on.
    passed: Option<When>,
    tasks: &'a T,
    gate: &'a G,
}

impl<'a, R: Wait, T: Tasks, G: Gate> Worker<'a, R, T, G> {
    /// Returns a worker that has done nothing yet.
    pub fn new(
        rt: &'a R,
        alloc: Global,
        number: u32,
        broker: &'a Broker<Letter>,
        pass: BrokerPass<Letter>,
        backend: &'a Backend,
        seat: BackendSeat,
        tasks: &'a T,
        gate: &'a G,
        stop: &'a Stop,
        flight: &'a InFlight,
    ) -> Worker<'a, R, T, G>
        ensures working { result.working
            ≡ Some (working_begun broker.now backend.now number pass seat) }
        ensures passed { result.passed ≡ None }
        ensures tasks { result.tasks.now ≡ tasks.now }
        ensures gate { result.gate.now ≡ gate.now }
    {
        let working = Working::new(rt, alloc, number, broker, pass, backend, seat, stop, flight);
        Worker {
            working: Some(working),
            passed: None,
            tasks,
            gate,
        }
    }

    /// Like `new`, but takes what the workers of a run share.
    pub fn with(
        rt: &'a R,
        alloc: Global,
        shared: &Shared<'a, T, G>,
        number: u32,
        pass: BrokerPass<Letter>,
        seat: BackendSeat,
    ) -> Worker<'a, R, T, G>
        ensures working { result.working
            ≡ Some (working_begun shared.now.broker.now shared.now.backend.now number pass seat) }
        ensures passed { result.passed ≡ None }
        ensures tasks { result.tasks.now ≡ shared.now.tasks.now }
        ensures gate { result.gate.now ≡ shared.now.gate.now }
    {
        let (broker, backend) = (shared.broker, shared.backend);
        let (tasks, gate) = (shared.tasks, shared.gate);
        let (stop, flight) = (shared.stop, shared.flight);
        Worker::new(
            rt, alloc, number, broker, pass, backend, seat, tasks, gate, stop, flight,
        )
    }
}

impl<R: Wait, T: Tasks, G: Gate> Worker<'_, R, T, G> {
    /// Returns the record of a worker that has ended. It is a function of its own, since one that
    /// only may move a worker pays for the room each time.
    fn leave(&mut self, end: End) -> Record
        requires { IsSome self.old.working }
        ensures { IfSome self.old.working (λ w. Leaves w end.fault result) }
    {
        match self.working.take() {
            Some(working) => working.record(end),
            None => unreachable!(),
        }
    }
}

impl<R: Wait, T: Tasks, G: Gate> Future for Worker<'_, R, T, G> {
    type Output = Record;

    ghost can_poll = { λ w. IsSomeAnd w.working Ready };

    ghost gives = { λ w r. IfSome w.working
        (λ v. TellsOf (T.behaviour w.tasks.now) (G.may_want w.gate.now) v r) };

    // The first five clauses are those of any future, for this one.
    fn poll(&mut self, cx: &mut Context<'_>) -> Poll<Record>
        requires { IsSomeAnd self.old.working Ready }
        ensures value { IfReady result
            (λ r. IfSome self.old.working (λ w. TellsOf (T.behaviour self.old.tasks.now)
            (G.may_want self.old.gate.now) w r)) }
        ensures again { OnPending result (IsSomeAnd self.new.working Ready) }
        ensures same { OnPending result ((x : _)
            → IfSome self.new.working
            (λ v. TellsOf (T.behaviour self.new.tasks.now) (G.may_want self.new.gate.now) v x)
            → IfSome self.old.working
            (λ w. TellsOf (T.behaviour self.old.tasks.now) (G.may_want self.old.gate.now) w x)) }
        ensures registered { OnPending result (Covers cx.new (λ _. ⊥)) }
        ensures kept { Keeps cx.old cx.new }
        ensures polled { IfSome self.old.working (λ w. Polled (T.behaviour self.old.tasks.now)
            (G.may_answer self.old.gate.now) (G.may_want self.old.gate.now) w self.old.passed
            result self.new.working self.new.passed) }
        ensures gate { OnPending result (self.new.gate.now ≡ self.old.gate.now) }
    {
        let (tasks, gate) = (self.tasks, self.gate);
        let Some(working) = &mut self.working else {
            return cx.yield_now();
        };
        match working.turn(tasks, gate, &mut self.passed) {
            Ok(()) => cx.yield_now(),
            Err(end) => Poll::Ready(self.leave(end)),
        }
    }
}
