//! Publishing to the queue of a run.
ghost use Rattle.std.specs.Prelude.{◌≡◌, OnOk};
ghost use Rattle.canvas_runs.specs.Following.{Makes};
ghost use Rattle.canvas_runs.specs.Run.{published_all};

use canvas_broker::{Broker, BrokerPass};
use canvas_envelope::Letter;
use canvas_task::Memory;
use std::sync::Wait;

/// Publishes envelopes in their order.
pub(crate) fn publish_all<R: Wait>(
    rt: &R,
    broker: &Broker<Letter>,
    pass: &mut BrokerPass<Letter>,
    envelopes: Vec<Letter>,
) -> Result<(), Memory>
    requires { pass.old.of ≡ broker.now }
    ensures broker { pass.new.of ≡ broker.now }
    ensures sent { OnOk result (Makes pass.old (published_all envelopes.items) pass.new) }
{
    for envelope in envelopes {
        match broker.publish(rt, pass, envelope) {
            Ok(()) => (),
            Err(_refused) => return Err(Memory),
        }
    }
    Ok(())
}
