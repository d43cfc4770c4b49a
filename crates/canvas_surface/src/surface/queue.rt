//! The queue of envelopes: for one thread, with passes, and with an envelope that is delivered
//! again.

ghost use Rattle.std.specs.Prelude.{◌≡◌};
ghost use Rattle.canvas_history.specs.Callers.{told};
ghost use Rattle.canvas_history.specs.Queue.{HasTaken};

use canvas_broker::{Batch, Broker, BrokerPass, PlainBroker, Refused};
use canvas_message::Envelope;
use canvas_task::{ListOf, Memory};
use canvas_worker::steps_of_workers;
use std::alloc::Global;
use std::sync::Wait;

/// An envelope whose body is one byte.
fn envelope(alloc: Global, byte: u8) -> Result<Envelope, Memory> {
    Ok(Envelope {
        properties: ListOf::of(Vec::new(alloc)),
        headers: ListOf::of(Vec::new(alloc)),
        body: ListOf::of(vec![in alloc; byte]?),
    })
}

fn gives(taken: Option<Envelope>, byte: u8) -> bool {
    match taken {
        Some(envelope) => envelope.body.get().as_slice() == [byte].as_slice(),
        None => false,
    }
}

fn publishes_plain(alloc: Global, broker: &mut PlainBroker, byte: u8) -> bool {
    match envelope(alloc, byte) {
        Ok(sent) => match broker.publish(sent) {
            Ok(()) => true,
            Err(Refused { envelope: _ }) => false,
        },
        Err(Memory) => false,
    }
}

/// Publishes A and B; takes A, B and nothing.
fn plain_is_a_queue(alloc: Global) -> bool {
    let mut broker = PlainBroker::new(alloc);
    broker.is_empty()
        && publishes_plain(alloc, &mut broker, b'A')
        && publishes_plain(alloc, &mut broker, b'B')
        && !broker.is_empty()
        && gives(broker.take(), b'A')
        && gives(broker.take(), b'B')
        && broker.take().is_none()
}

/// Whether an envelope is published.
fn publishes<R: Wait>(
    rt: &R,
    alloc: Global,
    broker: &Broker,
    pass: &mut BrokerPass,
    byte: u8,
) -> bool
    requires { pass.old.of ≡ broker.now }
    ensures { pass.new.of ≡ broker.now }
{
    match envelope(alloc, byte) {
        Ok(sent) => broker.publish(rt, pass, sent).is_ok(),
        Err(Memory) => false,
    }
}

/// Whether one pass takes A, then B, then nothing, if it publishes A and B.
fn by_one_pass<R: Wait>(rt: &R, alloc: Global, broker: &Broker, pass: &mut BrokerPass) -> bool
    requires { pass.old.of ≡ broker.now }
    ensures { pass.new.of ≡ broker.now }
{
    publishes(rt, alloc, broker, pass, b'A')
        && publishes(rt, alloc, broker, pass, b'B')
        && gives(broker.take(rt, pass), b'A')
        && gives(broker.take(rt, pass), b'B')
        && broker.take(rt, pass).is_none()
}

/// Whether what one pass publishes is what another takes, before and after it takes that one in.
fn by_two_passes<R: Wait>(
    rt: &R,
    alloc: Global,
    broker: &Broker,
    pass: &mut BrokerPass,
    mut other: BrokerPass,
) -> bool
    requires pass { pass.old.of ≡ broker.now }
    requires other { other.of ≡ broker.now }
{
    let is_sent = publishes(rt, alloc, broker, &mut other, b'A')
        && publishes(rt, alloc, broker, &mut other, b'B');
    let is_taken = gives(broker.take(rt, pass), b'A');
    broker.join(rt, pass, other);
    is_sent && is_taken && gives(broker.take(rt, pass), b'B') && broker.take(rt, pass).is_none()
}

/// Whether an envelope that was taken comes once more if a copy of it is delivered again.
fn comes_again<R: Wait>(
    rt: &R,
    broker: &Broker,
    pass: &mut BrokerPass,
    taken: &Envelope,
    copy: Envelope,
) -> bool
    requires same { pass.old.of ≡ broker.now }
    requires taken { HasTaken (told pass.old) pass.old.name taken.now }
    requires copy { copy ≡ taken.now }
{
    if broker.redeliver(rt, pass, copy).is_err() {
        return false;
    }
    match broker.take(rt, pass) {
        Some(again) => again == *taken && broker.take(rt, pass).is_none(),
        None => false,
    }
}

/// Whether a pass takes an envelope, redelivers a copy, and takes it once more, then nothing.
fn again_by_one_pass<R: Wait>(rt: &R, broker: &Broker, pass: &mut BrokerPass) -> bool
    requires { pass.old.of ≡ broker.now }
{
    match broker.take(rt, pass) {
        Some(taken) => {
            steps_of_workers();
            match taken.copy() {
                Ok(copy) => comes_again(rt, broker, pass, &taken, copy),
                Err(Memory) => false,
            }
        }
        None => false,
    }
}

/// What is wrong with a queue that threads may share, if anything is.
fn wrong<R: Wait>(rt: &R, alloc: Global) -> Result<Option<&'static str>, Memory> {
    let (broker, mut pass) = Broker::new(alloc)?;
    if !by_one_pass(rt, alloc, &broker, &mut pass) {
        return Ok(Some("one pass"));
    }
    let other = broker.split(rt, &mut pass)?;
    if !by_two_passes(rt, alloc, &broker, &mut pass, other) {
        return Ok(Some("two passes"));
    }
    Ok(None)
}

fn wrong_again<R: Wait>(rt: &R, alloc: Global) -> Result<Option<&'static str>, Memory> {
    let (broker, mut pass) = Broker::new(alloc)?;
    if publishes(rt, alloc, &broker, &mut pass, b'A') && again_by_one_pass(rt, &broker, &mut pass) {
        Ok(None)
    } else {
        Ok(Some("again"))
    }
}

#[test]
fn queues(rt: HostRuntime) {
    assert!(rt; plain_is_a_queue(rt.alloc()));
    let wrong = wrong(&rt, rt.alloc());
    assert!(rt; matches!(wrong, Ok(None)), "{wrong:?}");
    let wrong = wrong_again(&rt, rt.alloc());
    assert!(rt; matches!(wrong, Ok(None)), "{wrong:?}");
}

/// Whether this envelope is next: 1 if the batch gives it, and 0 if the queue does.
fn comes<R: Wait>(
    rt: &R,
    broker: &Broker,
    pass: &mut BrokerPass,
    batch: &mut Batch,
    byte: u8,
) -> Option<usize>
    requires { pass.old.of ≡ broker.now }
    ensures { pass.new.of ≡ broker.now }
{
    match batch.next() {
        Some(envelope) => gives(Some(envelope), byte).then_some(1),
        None => gives(broker.take(rt, pass), byte).then_some(0),
    }
}

/// How many of A, B and C a batch gives, if it gives the first of them in order, and the queue the
/// others, then nothing.
fn in_order<R: Wait>(rt: &R, broker: &Broker, pass: &mut BrokerPass) -> Option<usize>
    requires { pass.old.of ≡ broker.now }
{
    let mut batch = broker.take_batch(rt, pass);
    let first = comes(rt, broker, pass, &mut batch, b'A')?;
    let second = comes(rt, broker, pass, &mut batch, b'B')?;
    let third = comes(rt, broker, pass, &mut batch, b'C')?;
    if batch.next().is_none() && broker.take(rt, pass).is_none() {
        Some(first.saturating_add(second).saturating_add(third))
    } else {
        None
    }
}

/// How many of A, B and C a batch of a new queue gives, if all three come in order.
fn by_batch<R: Wait>(rt: &R, alloc: Global) -> Option<usize> {
    let (broker, mut pass) = Broker::new(alloc).ok()?;
    if publishes(rt, alloc, &broker, &mut pass, b'A')
        && publishes(rt, alloc, &broker, &mut pass, b'B')
        && publishes(rt, alloc, &broker, &mut pass, b'C')
    {
        in_order(rt, &broker, &mut pass)
    } else {
        None
    }
}

/// How many envelopes 1,000 batches had; None if one lost the order.
fn in_batches<R: Wait>(rt: &R, alloc: Global) -> Option<usize> {
    let mut all = 0usize;
    for _ in 0..1_000u32 {
        all = all.saturating_add(by_batch(rt, alloc)?);
    }
    Some(all)
}

#[test]
fn batches(rt: HostRuntime) {
    assert!(rt; matches!(in_batches(&rt, rt.alloc()), Some(1..=3_000)));
}
