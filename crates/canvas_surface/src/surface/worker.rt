//! A worker that is made of its parts and run to its end.

ghost use Rattle.std.specs.Prelude.{◌≡◌};
ghost use Rattle.canvas_history.specs.Roster.{roster_of};

use canvas_backend::{Backend, BackendSeat};
use canvas_broker::{Broker, BrokerPass};
use canvas_message::{Letter, first_messages, seal};
use canvas_rewrite::Plan;
use canvas_samples::{CHAIN, plan_of};
use canvas_task::{Add, AddFault, Div, Ident, LogError, Memory, Mul, Registry, Xsum, registry_of};
use canvas_worker::{InFlight, OpenGate, Record, Stop, Worker, law_of_workers};
use futures::executor::block_on;
use std::alloc::{AllocGlobal, Global};
use std::random::RandomSource;
use std::sync::Wait;

/// Whether a worker ended by itself, took two envelopes and published one.
fn is_two(record: &Record) -> bool {
    record.number == 1
        && record.taken == 2
        && record.published == 1
        && record.first == 2
        && record.parts == 0
        && record.dropped == 0
        && record.fault.is_none()
}

/// How a worker of a plan ends, whose first message is published.
fn works<R>(
    rt: &R,
    plan: &Plan,
    broker: &Broker<Letter>,
    pass: BrokerPass<Letter>,
    backend: &Backend,
    seat: BackendSeat,
    six: &Registry,
) -> bool
where
    R: Wait + RandomSource + AllocGlobal,
    requires pass { pass.of ≡ broker.now }
    requires seat { seat.of ≡ backend.now.id }
    requires plan { backend.now.plan ≡ roster_of plan.now }
{
    if plan.tasks() == 0 {
        return false;
    }
    let (stop, flight) = (Stop::new(), InFlight::new(1));
    law_of_workers();
    let alloc = rt.alloc();
    let worker = Worker::new(
        rt, alloc, 1, broker, pass, backend, seat, six, &OpenGate, &stop, &flight,
    );
    match block_on(rt, worker) {
        Ok(record) => is_two(&record),
        Err(_) => false,
    }
}

/// Publishes the envelope of a plan's first message.
fn publishes_first<R: Wait>(
    rt: &R,
    alloc: Global,
    plan: &Plan,
    broker: &Broker<Letter>,
    pass: &mut BrokerPass<Letter>,
) -> bool
    requires { pass.old.of ≡ broker.now }
    ensures { pass.new.of ≡ broker.now }
{
    match first_letter(alloc, plan) {
        Some(letter) => broker.publish(rt, pass, letter).is_ok(),
        None => false,
    }
}

fn first_letter(alloc: Global, plan: &Plan) -> Option<Letter> {
    match first_messages(alloc, plan) {
        Ok(mut messages) => match messages.pop() {
            Some(message) => seal(alloc, message).ok(),
            None => None,
        },
        Err(Memory) => None,
    }
}

/// Whether a worker runs the two tasks of a plan, with a queue and a table of its own.
fn runs<R>(rt: &R, alloc: Global, plan: &Plan, six: &Registry) -> Result<bool, Memory>
where
    R: Wait + RandomSource + AllocGlobal,
{
    let (broker, mut pass) = Broker::new(alloc)?;
    if !publishes_first(rt, alloc, plan, &broker, &mut pass) {
        return Ok(false);
    }
    let (backend, seat) = Backend::new(alloc, plan)?;
    Ok(works(rt, plan, &broker, pass, &backend, seat, six))
}

fn is_run<R>(rt: &R, alloc: Global) -> Result<bool, AddFault>
where
    R: Wait + RandomSource + AllocGlobal,
{
    let six = registry_of!(alloc; Add, Mul, Div, Xsum, Ident, LogError)?;
    match plan_of(alloc, CHAIN) {
        Some(plan) => Ok(matches!(runs(rt, alloc, &plan, &six), Ok(true))),
        None => Ok(false),
    }
}

/// `add(4, 4) | mul(8)`: two messages, of which the worker publishes the second.
#[test]
fn a_worker_to_its_end(rt: HostRuntime) {
    assert!(rt; matches!(is_run(&rt, rt.alloc()), Ok(true)));
}
