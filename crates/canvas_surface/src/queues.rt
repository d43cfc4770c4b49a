//! Queues that threads share, how many envelopes a batch has, and allocations that may be refused.

ghost use Rattle.std.specs.Prelude.{◌≡◌};

use canvas_broker::{Batch, Broker, BrokerPass, PlainBroker};
use canvas_envelope::{Envelope, Letter};
use canvas_task::ListOf;
use std::alloc::Global;
use std::sync::Wait;
use std::test::*;
use std::thread;
use std::thread::Threads;

/// An envelope whose body is the number, in two bytes.
fn numbered(alloc: Global, number: u64) -> Option<Letter> {
    let mut body = Vec::new(alloc);
    body.push((number % 256) as u8).ok()?;
    body.push((number / 256 % 256) as u8).ok()?;
    let envelope = Envelope {
        properties: ListOf::of(Vec::new(alloc)),
        headers: ListOf::of(Vec::new(alloc)),
        body: ListOf::of(body),
    };
    Letter::new(alloc, envelope).ok()
}

fn number_of(letter: &Letter) -> u64 {
    match letter
        .whole()
        .map(|envelope| envelope.body.get().as_slice())
    {
        Some([low, high]) => *low as u64 + 256 * *high as u64,
        _ => 0,
    }
}

/// Whether an envelope of this number is published.
fn publishes<R: Wait>(
    rt: &R,
    alloc: Global,
    broker: &Broker<Letter>,
    pass: &mut BrokerPass<Letter>,
    number: u64,
) -> bool
    requires { pass.old.of ≡ broker.now }
    ensures { pass.new.of ≡ broker.now }
{
    match numbered(alloc, number) {
        Some(envelope) => broker.publish(rt, pass, envelope).is_ok(),
        None => false,
    }
}

/// Publishes 1,000 numbers from this one on.
fn publish_all<R: Wait>(
    rt: &R,
    alloc: Global,
    broker: &Broker<Letter>,
    mut pass: BrokerPass<Letter>,
    from: u64,
) -> BrokerPass<Letter>
    requires { pass.of ≡ broker.now }
    ensures { result.of ≡ broker.now }
{
    for number in 0..1000u64 {
        let _ = publishes(rt, alloc, broker, &mut pass, number.wrapping_add(from));
    }
    pass
}

/// The number of an envelope that is taken, if there is one.
fn takes<R: Wait>(rt: &R, broker: &Broker<Letter>, pass: &mut BrokerPass<Letter>) -> Option<u64>
    requires { pass.old.of ≡ broker.now }
    ensures { pass.new.of ≡ broker.now }
{
    match broker.take(rt, pass) {
        Some(envelope) => Some(number_of(&envelope)),
        None => None,
    }
}

/// Takes until there is nothing, and adds the numbers to the list.
fn take_all<R: Wait>(
    rt: &R,
    broker: &Broker<Letter>,
    mut pass: BrokerPass<Letter>,
    mut taken: Vec<u64>,
) -> (BrokerPass<Letter>, Vec<u64>)
    requires { pass.of ≡ broker.now }
    ensures { result.0.of ≡ broker.now }
{
    for _ in rt.forever() {
        match takes(rt, broker, &mut pass) {
            Some(number) => {
                let _ = taken.push(number);
            }
            None => break,
        }
    }
    (pass, taken)
}

fn trade<R: Wait>(
    rt: &R,
    alloc: Global,
    broker: &Broker<Letter>,
    pass: BrokerPass<Letter>,
    from: u64,
) -> (BrokerPass<Letter>, Vec<u64>)
    requires { pass.of ≡ broker.now }
    ensures { result.0.of ≡ broker.now }
{
    let pass = publish_all(rt, alloc, broker, pass, from);
    take_all(rt, broker, pass, Vec::new(alloc))
}

/// Whether the numbers below 1,000 rise, and so do the others.
fn in_order(taken: &[u64]) -> bool {
    let mut low = 0;
    let mut high = 1000;
    for number in taken {
        if *number < 1000 && low <= *number {
            low = *number + 1;
        } else if *number < 2000 && high <= *number {
            high = *number + 1;
        } else {
            return false;
        }
    }
    true
}

fn count(mut counts: Vec<u64>, taken: &[u64]) -> Vec<u64> {
    for number in taken {
        if let Some(found) = counts.get_mut(*number as usize) {
            *found = found.wrapping_add(1);
        }
    }
    counts
}

/// Two threads publish 1,000 envelopes each and take; the first pass takes the rest. Whether each
/// came once, and what came from one to one came in order.
fn trade_twice<R: Threads + Wait + Sync>(rt: &R, alloc: Global) -> Option<bool> {
    let (broker, mut pass) = Broker::new(alloc).ok()?;
    let shared = &broker;
    let one = shared.split(rt, &mut pass).ok()?;
    let two = shared.split(rt, &mut pass).ok()?;
    let ((one, first), (two, second)) = thread::join(
        rt,
        move ||
            requires { one.of ≡ shared.now }
            ensures { result.0.of ≡ shared.entry.now }
        { trade(rt, alloc, shared, one, 0) },
        move ||
            requires { two.of ≡ shared.now }
            ensures { result.0.of ≡ shared.entry.now }
        { trade(rt, alloc, shared, two, 1000) },
    );
    shared.join(rt, &mut pass, one);
    shared.join(rt, &mut pass, two);
    let (_, rest) = take_all(rt, shared, pass, Vec::new(alloc));
    let counts = Vec::from_elem(alloc, 0, 2000).ok()?;
    let counts = count(count(count(counts, &first), &second), &rest);
    let once = counts.iter().all(|found| *found == 1);
    Some(once && in_order(&first) && in_order(&second) && in_order(&rest))
}

#[test]
fn threads_lose_nothing(rt: HostRuntime) {
    assert_eq!(rt; trade_twice(&rt, rt.alloc()), Some(true));
}

fn add(order: u64, taken: Option<Letter>) -> u64 {
    match taken {
        Some(envelope) => order.wrapping_mul(10).wrapping_add(number_of(&envelope)),
        None => order,
    }
}

fn publishes_three<R: Wait>(
    rt: &R,
    alloc: Global,
    broker: &Broker<Letter>,
    pass: &mut BrokerPass<Letter>,
) -> bool
    requires { pass.old.of ≡ broker.now }
    ensures { pass.new.of ≡ broker.now }
{
    publishes(rt, alloc, broker, pass, 1)
        && publishes(rt, alloc, broker, pass, 2)
        && publishes(rt, alloc, broker, pass, 3)
}

/// The digits of a batch, of three at most.
fn digits_of(mut batch: Batch<Letter>) -> u64 {
    add(add(add(0, batch.next()), batch.next()), batch.next())
}

/// The digits of three envelopes, as a batch and then takes give them, and those of the batch.
fn digits<R: Wait>(
    rt: &R,
    broker: &Broker<Letter>,
    pass: &mut BrokerPass<Letter>,
) -> Option<(u64, u64)>
    requires { pass.old.of ≡ broker.now }
{
    let begun = digits_of(broker.take_batch(rt, pass));
    let one = add(begun, broker.take(rt, pass));
    let two = add(one, broker.take(rt, pass));
    let all = add(two, broker.take(rt, pass));
    if broker.take(rt, pass).is_none() {
        Some((all, begun))
    } else {
        None
    }
}

/// Like `digits`, with a queue of its own.
fn by_batch<R: Wait>(rt: &R, alloc: Global) -> Option<(u64, u64)> {
    let (broker, mut pass) = Broker::new(alloc).ok()?;
    if publishes_three(rt, alloc, &broker, &mut pass) {
        digits(rt, &broker, &mut pass)
    } else {
        None
    }
}

/// In how many of 1,000 rounds the batch had an envelope; None where a round lost the order.
fn rounds<R: Wait>(rt: &R, alloc: Global) -> Option<u64> {
    let mut filled = 0u64;
    for _ in 0..1000u64 {
        match by_batch(rt, alloc)? {
            (123, 0) => {}
            (123, 1 | 12 | 123) => filled = filled.wrapping_add(1),
            _ => return None,
        }
    }
    Some(filled)
}

#[test]
fn batches_keep_the_order(rt: HostRuntime) {
    assert!(rt; matches!(rounds(&rt, rt.alloc()), Some(1..=1000)));
}

// ---- refused allocations

/// What an envelope of this number adds to the sum of those that are accepted: nothing where it is
/// refused. None where another came back.
fn adds<R: Wait>(
    rt: &R,
    alloc: Global,
    broker: &Broker<Letter>,
    pass: &mut BrokerPass<Letter>,
    number: u64,
) -> Option<u64>
    requires { pass.old.of ≡ broker.now }
    ensures { pass.new.of ≡ broker.now }
{
    match numbered(alloc, number) {
        Some(envelope) => match broker.publish(rt, pass, envelope) {
            Ok(()) => Some(number),
            Err(refused) if number_of(&refused.envelope) == number => Some(0),
            Err(_) => None,
        },
        None => Some(0),
    }
}

/// What was accepted of the envelopes numbered from 1 up to `end`, as the sum of their numbers.
/// None where a refused one came back as another.
fn accepted<R: Wait>(
    rt: &R,
    alloc: Global,
    broker: &Broker<Letter>,
    mut pass: BrokerPass<Letter>,
    end: u64,
) -> (BrokerPass<Letter>, Option<u64>)
    requires { pass.of ≡ broker.now }
    ensures { result.0.of ≡ broker.now }
{
    let mut sum = 0u64;
    for number in 1..end {
        match adds(rt, alloc, broker, &mut pass, number) {
            Some(added) => sum = sum.wrapping_add(added),
            None => return (pass, None),
        }
    }
    (pass, Some(sum))
}

/// The sum of the numbers that are left. None where they don't rise.
fn left<R: Wait>(rt: &R, broker: &Broker<Letter>, mut pass: BrokerPass<Letter>) -> Option<u64>
    requires { pass.of ≡ broker.now }
{
    let mut sum = 0u64;
    let mut last = 0u64;
    for _ in rt.forever() {
        match takes(rt, broker, &mut pass) {
            Some(number) if last < number => {
                last = number;
                sum = sum.wrapping_add(number);
            }
            Some(_) => return None,
            None => break,
        }
    }
    Some(sum)
}

/// Whether a broker holds what was accepted, with a split in between that may be refused. The
/// split's mark takes memory where it begins a block of the queue.
fn holds_accepted<R: Wait>(rt: &R, alloc: Global, end: u64) -> bool {
    let Ok((broker, pass)) = Broker::new(alloc) else {
        return true;
    };
    let (mut pass, sum) = accepted(rt, alloc, &broker, pass, end);
    if let Ok(other) = broker.split(rt, &mut pass) {
        broker.join(rt, &mut pass, other);
    }
    sum.is_some() && left(rt, &broker, pass) == sum
}

/// What an envelope of this number adds at the queue of one thread.
fn adds_plain(alloc: Global, broker: &mut PlainBroker<Letter>, number: u64) -> Option<u64> {
    match numbered(alloc, number) {
        Some(envelope) => match broker.publish(envelope) {
            Ok(()) => Some(number),
            Err(refused) if number_of(&refused.envelope) == number => Some(0),
            Err(_) => None,
        },
        None => Some(0),
    }
}

fn plain_accepted(alloc: Global, broker: &mut PlainBroker<Letter>) -> Option<u64> {
    let mut sum = 0u64;
    for number in 1..41u64 {
        match adds_plain(alloc, broker, number) {
            Some(added) => sum = sum.wrapping_add(added),
            None => return None,
        }
    }
    Some(sum)
}

fn plain_number(broker: &mut PlainBroker<Letter>) -> u64 {
    match broker.take() {
        Some(envelope) => number_of(&envelope),
        None => 0,
    }
}

/// The sum of the numbers of forty that are taken.
fn plain_taken(broker: &mut PlainBroker<Letter>) -> u64 {
    let mut sum = 0u64;
    for _ in 1..41u64 {
        sum = sum.wrapping_add(plain_number(broker));
    }
    sum
}

/// Whether the queue of one thread gives the accepted envelopes, and has nothing else then.
fn plain_holds_accepted(alloc: Global) -> bool {
    let mut broker = PlainBroker::new(alloc);
    match plain_accepted(alloc, &mut broker) {
        Some(sum) => plain_taken(&mut broker) == sum && broker.is_empty(),
        None => false,
    }
}

/// It has to pass whichever of its allocations is refused.
#[test]
fn refusals_change_nothing(rt: HostRuntime) {
    assert!(rt; holds_accepted(&rt, rt.alloc(), 31));
    assert!(rt; holds_accepted(&rt, rt.alloc(), 41));
    assert!(rt; plain_holds_accepted(rt.alloc()));
}
