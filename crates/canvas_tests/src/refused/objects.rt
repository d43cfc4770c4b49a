//! Queues, tables and cores whose growth may be refused: each is as it was, and the same again
//! comes to its answer.

ghost use Rattle.std.specs.Prelude.{◌≡◌, IfSome};
ghost use Rattle.canvas_task.specs.Apply.{IsInRange};
ghost use Rattle.canvas_core.specs.Asks.{FoundInRange, FoundOf};
ghost use Rattle.canvas_core.specs.Book.{book_on};
ghost use Rattle.canvas_core.specs.CoreState.{next};

use crate::runs::states::first_envelopes;
use canvas_backend::{Backend, BackendSeat, PlainBackend, Stored};
use canvas_broker::{Broker, BrokerPass, PlainBroker};
use canvas_envelope::{Envelope, Letter};
use canvas_rewrite::Plan;
use canvas_samples::frozen_texts;
use canvas_task::{
    Add, AddFault, Arg, BuiltinTasks, Fault, Kind, Memory, Outcome, Registry, TaskNo,
};
use canvas_worker::{Ask, Core, Reply};
use std::alloc::Global;
use std::collections::BTreeMap;
use std::sync::Wait;

fn envelope(alloc: Global) -> Result<Envelope, Memory> {
    Ok(frozen_texts::envelope(alloc, "properties", "headers", "body")?)
}

fn letter(alloc: Global) -> Result<Letter, Memory> {
    Letter::new(alloc, envelope(alloc)?)
}

// ---- the queue of one thread

/// Whether a letter is this envelope, as it came.
fn is_whole(letter: &Letter, same: &Envelope) -> bool {
    match letter.whole() {
        Some(envelope) => *envelope == *same,
        None => false,
    }
}

/// Publishes an envelope, and where that is refused the one that comes back, if it is the same.
/// Whether it was published in the end.
fn publish_plain(broker: &mut PlainBroker<Letter>, sent: Letter, same: &Envelope) -> bool {
    match broker.publish(sent) {
        Ok(()) => true,
        Err(refused) => {
            is_whole(&refused.envelope, same)
                && broker.is_empty()
                && broker.publish(refused.envelope).is_ok()
        }
    }
}

fn gives(taken: Option<Letter>, same: &Envelope) -> bool {
    match taken {
        Some(letter) => is_whole(&letter, same),
        None => false,
    }
}

/// Whether a queue gives the envelope that was published, and has nothing else then.
fn trades_plain(broker: &mut PlainBroker<Letter>, sent: Letter, same: &Envelope) -> bool {
    publish_plain(broker, sent, same) && gives(broker.take(), same) && broker.is_empty()
}

/// Like `trades_plain`, for a queue and its letter.
fn trades_letter(
    alloc: Global,
    broker: &mut PlainBroker<Letter>,
    same: &Envelope,
) -> Result<bool, Memory> {
    match letter(alloc) {
        Ok(sent) => Ok(trades_plain(broker, sent, same)),
        Err(Memory) => Err(Memory),
    }
}

pub(crate) fn plain_queue(alloc: Global) -> Result<bool, Memory> {
    let mut broker = PlainBroker::new(alloc);
    match envelope(alloc) {
        Ok(same) => trades_letter(alloc, &mut broker, &same),
        Err(Memory) => Err(Memory),
    }
}

// ---- the queue that threads share

/// Publishes to the queue that threads share. A refused publish leaves nothing to take.
fn publish<R: Wait>(
    rt: &R,
    broker: &Broker<Letter>,
    pass: &mut BrokerPass<Letter>,
    sent: Letter,
    same: &Envelope,
) -> bool
    requires { pass.old.of ≡ broker.now }
    ensures { pass.new.of ≡ broker.now }
{
    match broker.publish(rt, pass, sent) {
        Ok(()) => true,
        Err(refused) => {
            is_whole(&refused.envelope, same)
                && broker.take(rt, pass).is_none()
                && broker.publish(rt, pass, refused.envelope).is_ok()
        }
    }
}

/// Whether an envelope that one pass publishes is what another takes.
fn passes<R: Wait>(
    rt: &R,
    broker: &Broker<Letter>,
    pass: &mut BrokerPass<Letter>,
    other: &mut BrokerPass<Letter>,
    sent: Letter,
    same: &Envelope,
) -> bool
    requires pass { pass.old.of ≡ broker.now }
    requires other { other.old.of ≡ broker.now }
{
    publish(rt, broker, other, sent, same) && gives(broker.take(rt, pass), same)
}

/// Like `passes`, with a pass that is split off. If the split is refused, the first pass does both.
fn trades<R: Wait>(
    rt: &R,
    broker: &Broker<Letter>,
    pass: &mut BrokerPass<Letter>,
    sent: Letter,
    same: &Envelope,
) -> Result<bool, Memory>
    requires { pass.old.of ≡ broker.now }
{
    match broker.split(rt, pass) {
        Ok(other) => {
            let mut other = other;
            Ok(passes(rt, broker, pass, &mut other, sent, same))
        }
        Err(Memory) => {
            if publish(rt, broker, pass, sent, same) && gives(broker.take(rt, pass), same) {
                Err(Memory)
            } else {
                Ok(false)
            }
        }
    }
}

/// Like `trades`, for a letter.
fn trades_shared<R: Wait>(
    rt: &R,
    alloc: Global,
    broker: &Broker<Letter>,
    pass: &mut BrokerPass<Letter>,
    same: &Envelope,
) -> Result<bool, Memory>
    requires { pass.old.of ≡ broker.now }
{
    match letter(alloc) {
        Ok(sent) => trades(rt, broker, pass, sent, same),
        Err(Memory) => Err(Memory),
    }
}

/// Like `trades_shared`, with a queue of its own.
fn queue_trades<R: Wait>(rt: &R, alloc: Global, same: &Envelope) -> Result<bool, Memory> {
    match Broker::new(alloc) {
        Ok((broker, mut pass)) => trades_shared(rt, alloc, &broker, &mut pass, same),
        Err(Memory) => Err(Memory),
    }
}

pub(crate) fn queue<R: Wait>(rt: &R, alloc: Global) -> Result<bool, Memory> {
    match envelope(alloc) {
        Ok(same) => queue_trades(rt, alloc, &same),
        Err(Memory) => Err(Memory),
    }
}

// ---- the tables

/// Whether a table keeps the first outcome of its first task.
fn keeps_plain(backend: &mut PlainBackend) -> bool {
    let Some(task) = TaskNo::new(1) else {
        return false;
    };
    backend.knows(task)
        && backend.store(task, &Outcome::Success(8)) == Stored::First
        && backend.store(task, &Outcome::Success(9)) == Stored::Again
        && backend.read(task) == Some(Outcome::Success(8))
}

pub(crate) fn plain_table(alloc: Global, plan: &Plan) -> Result<bool, Memory> {
    match PlainBackend::new(alloc, plan) {
        Ok(mut backend) => Ok(keeps_plain(&mut backend)),
        Err(Memory) => Err(Memory),
    }
}

/// Whether one seat reads the first outcome that another stores.
fn keeps(backend: &Backend, seat: &mut BackendSeat, other: &mut BackendSeat, task: TaskNo) -> bool
    requires seat { seat.old.of ≡ backend.now.id }
    requires other { other.old.of ≡ backend.now.id }
{
    backend.knows(task)
        && backend.store(seat, task, &Outcome::Success(8)) == Stored::First
        && backend.store(other, task, &Outcome::Success(9)) == Stored::Again
        && backend.read(other, task) == Some(Outcome::Success(8))
}

fn shares(backend: &Backend, seat: &mut BackendSeat) -> Result<bool, Memory>
    requires { seat.old.of ≡ backend.now.id }
{
    let mut other = backend.split(seat)?;
    match TaskNo::new(1) {
        Some(task) => Ok(keeps(backend, seat, &mut other, task)),
        None => Ok(false),
    }
}

pub(crate) fn table(alloc: Global, plan: &Plan) -> Result<bool, Memory> {
    let (backend, mut seat) = Backend::new(alloc, plan)?;
    shares(&backend, &mut seat)
}

// ---- a core

/// Whether a core answers that it is at its end, and goes on doing so.
fn has_failed(core: &mut Core) -> bool {
    core.next() == Ask::End
        && !core.is_inside()
        && core.envelope().is_none()
        && core.next() == Ask::End
}

/// Whether a core goes on with a reply. Where memory is refused it has failed.
fn goes_on(backend: &PlainBackend, core: &mut Core, reply: Reply) -> Result<bool, Memory>
    requires in_range { FoundInRange reply }
    requires found { FoundOf (book_on backend.now.plan) reply (next core.old) }
{
    if !core.next().suits(&reply) {
        return Ok(false);
    }
    match core.answer(backend, &BuiltinTasks, reply) {
        Ok(()) => Ok(true),
        Err(Memory) => {
            if has_failed(core) {
                Err(Memory)
            } else {
                Ok(false)
            }
        }
    }
}

/// The reply that finds an outcome of the member that a core asks for.
fn finds(backend: &PlainBackend, core: &Core, outcome: Outcome) -> Option<Reply>
    requires { IsInRange outcome }
    ensures in_range { IfSome result FoundInRange }
    ensures found { IfSome result (λ r. FoundOf (book_on backend.now.plan) r (next core.now)) }
{
    match core.next() {
        Ask::Read(group, place) => match backend.member(group, place) {
            Some(task) => Some(Reply::Found(task, Some(outcome))),
            None => None,
        },
        _ => None,
    }
}

/// The replies to a core whose part completes a header of three, after the take of its message.
fn reply_of(backend: &PlainBackend, core: &Core, step: u32) -> Option<Reply>
    ensures in_range { IfSome result FoundInRange }
    ensures found { IfSome result (λ r. FoundOf (book_on backend.now.plan) r (next core.now)) }
{
    match step {
        0 | 5 => Some(Reply::Stored(Stored::First)),
        1 => Some(Reply::Counted(2)),
        2 => finds(backend, core, Outcome::Success(8)),
        3 => finds(
            backend,
            core,
            Outcome::Failure(Fault::Plain(Kind::ZeroDivision)),
        ),
        4 => finds(backend, core, Outcome::Success(16)),
        6 => Some(Reply::Published),
        _ => Some(Reply::Acked),
    }
}

/// Whether a core goes on with the reply of this number.
fn steps_on(backend: &PlainBackend, core: &mut Core, step: u32) -> Result<bool, Memory> {
    match reply_of(backend, core, step) {
        Some(reply) => goes_on(backend, core, reply),
        None => Ok(false),
    }
}

/// Whether a core that is inside that message comes to its end, with one envelope to publish and
/// its own acknowledged last.
fn completes(backend: &PlainBackend, core: &mut Core) -> Result<bool, Memory> {
    let mut published = 0u32;
    for step in 0..8 {
        if core.envelope().is_some() {
            published = published.saturating_add(1);
        }
        if !steps_on(backend, core, step)? {
            return Ok(false);
        }
    }
    Ok(published == 1 && core.next() == Ask::Take && core.held().is_none())
}

/// The envelope of the third member of a chord.
fn last_member(alloc: Global, plan: &Plan) -> Result<Option<Letter>, Memory> {
    let mut envelopes = first_envelopes(alloc, plan)?;
    Ok(envelopes.pop())
}

/// Whether a core that takes this envelope comes to the end of its message.
fn works(backend: &PlainBackend, core: &mut Core, taken: Option<Letter>) -> Result<bool, Memory> {
    if goes_on(backend, core, Reply::Taken(taken))? {
        completes(backend, core)
    } else {
        Ok(false)
    }
}

/// Like `works`, for the envelope of a plan's third member.
fn works_last(
    alloc: Global,
    backend: &PlainBackend,
    core: &mut Core,
    plan: &Plan,
) -> Result<bool, Memory> {
    match last_member(alloc, plan) {
        Ok(taken) => works(backend, core, taken),
        Err(Memory) => Err(Memory),
    }
}

fn new_core_works(alloc: Global, backend: &PlainBackend, plan: &Plan) -> Result<bool, Memory> {
    let mut core = Core::new(alloc);
    works_last(alloc, backend, &mut core, plan)
}

pub(crate) fn core(alloc: Global, plan: &Plan) -> Result<bool, Memory> {
    match PlainBackend::new(alloc, plan) {
        Ok(backend) => new_core_works(alloc, &backend, plan),
        Err(Memory) => Err(Memory),
    }
}

// ---- a registry

/// What becomes of `tasks.add(1, 1)`.
fn one_and_one(registry: &Registry, alloc: Global) -> Outcome {
    registry.apply(
        "tasks.add",
        &[Arg::Num(1), Arg::Num(1)],
        &BTreeMap::new(alloc),
    )
}

/// Adds a task, and where that is refused the one that comes back, if the registry has none.
/// Whether it is there in the end.
pub(crate) fn registry(alloc: Global) -> Result<bool, Memory> {
    let mut registry = Registry::new(alloc);
    let Ok(task) = Box::new(alloc, Add) else {
        return Err(Memory);
    };
    let is_added = match registry.add(task) {
        Ok(()) => true,
        Err(refused) => {
            refused.cause == AddFault::Memory
                && one_and_one(&registry, alloc)
                    == Outcome::Failure(Fault::Plain(Kind::NotRegistered))
                && registry.add(refused.task).is_ok()
        }
    };
    Ok(is_added && one_and_one(&registry, alloc) == Outcome::Success(2))
}
