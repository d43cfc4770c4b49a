//! Copies and redeliveries of envelopes, whose growth may be refused: what was there stays as it
//! was, and the same once more comes to its answer.

ghost use Rattle.std.specs.Prelude.{◌≡◌};
ghost use Rattle.canvas_history.specs.Callers.{told};
ghost use Rattle.canvas_history.specs.Queue.{HasTaken};

use canvas_broker::{Broker, BrokerPass};
use canvas_envelope::Envelope;
use canvas_samples::frozen_texts;
use canvas_task::Memory;
use canvas_worker::steps_of_workers;
use std::alloc::Global;
use std::sync::Wait;

fn envelope(alloc: Global) -> Result<Envelope, Memory> {
    Ok(frozen_texts::envelope(alloc, "properties", "headers", "body")?)
}

pub(crate) fn copies(alloc: Global) -> Result<bool, Memory> {
    let envelope = envelope(alloc)?;
    let copy = envelope.copy()?;
    Ok(copy == envelope)
}

/// Whether an envelope comes once more that this pass has taken and delivers again. A refused
/// redelivery gives the envelope back, and leaves nothing to take.
fn comes_again<R: Wait>(
    rt: &R,
    broker: &Broker,
    pass: &mut BrokerPass,
    taken: &Envelope,
    copy: Envelope,
) -> bool
    requires same { pass.old.of ≡ broker.now }
    requires taken { HasTaken (told pass.old) pass.old.name taken.now }
    requires copy { copy ≡ taken.now }
{
    match broker.redeliver(rt, pass, copy) {
        Ok(()) => broker.take(rt, pass).is_some_and(|again| again == *taken),
        Err(refused) => {
            refused.envelope == *taken
                && broker.take(rt, pass).is_none()
                && broker.redeliver(rt, pass, refused.envelope).is_ok()
                && broker.take(rt, pass).is_some_and(|again| again == *taken)
        }
    }
}

/// Whether the envelope that the queue gives comes a second time after its redelivery.
fn comes_twice<R: Wait>(rt: &R, broker: &Broker, pass: &mut BrokerPass) -> Result<bool, Memory>
    requires { pass.old.of ≡ broker.now }
{
    match broker.take(rt, pass) {
        Some(taken) => {
            steps_of_workers();
            match taken.copy() {
                Ok(copy) => Ok(comes_again(rt, broker, pass, &taken, copy)),
                Err(Memory) => Err(Memory),
            }
        }
        None => Ok(false),
    }
}

/// Whether an envelope that is published comes, and comes once more.
fn is_delivered_twice<R: Wait>(
    rt: &R,
    broker: &Broker,
    pass: &mut BrokerPass,
    envelope: Envelope,
) -> Result<bool, Memory>
    requires { pass.old.of ≡ broker.now }
{
    match broker.publish(rt, pass, envelope) {
        Ok(()) => comes_twice(rt, broker, pass),
        Err(_refused) => Err(Memory),
    }
}

pub(crate) fn redeliveries<R: Wait>(rt: &R, alloc: Global) -> Result<bool, Memory> {
    let (broker, mut pass) = Broker::new(alloc)?;
    let envelope = envelope(alloc)?;
    is_delivered_twice(rt, &broker, &mut pass, envelope)
}
