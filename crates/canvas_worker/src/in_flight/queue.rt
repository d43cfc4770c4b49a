//! The queue as a worker has it: it counts an envelope as in flight before it adds it.

ghost use Rattle.std.specs.Prelude.{◌≡◌, [], ◌∷◌, Some, None, IfNone, IfSome, OnOk, MatchResult, MatchOption};
ghost use Rattle.canvas_history.specs.History.{calls};
ghost use Rattle.canvas_history.specs.Callers.{told, Adds};
ghost use Rattle.canvas_history.specs.Queue.{publish, take, redeliver, HasTaken, takes_of};
ghost use Rattle.canvas_history.specs.Passes.{Stands, CouldStand, Took, Empties};

use crate::InFlight;
use canvas_broker::{Batch, Broker, BrokerPass, Refused};
use canvas_envelope::Letter;
use std::sync::Wait;

/// The queue of a run, which counts an envelope before it publishes or redelivers it, since another
/// worker may take and acknowledge it at once. Workers have no other queue, and nothing else adds
/// to the count. Its calls are the broker's.
///
/// No contract says what value an atomic holds, nor could a test show that an envelope counts
/// before another worker can take it: `publish` and `redeliver` ensure it. `Working::reply` decides
/// when one is subtracted.
#[derive(Clone, Copy)]
pub(crate) struct CountedQueue<'a> {
    broker: &'a Broker<Letter>,
    flight: &'a InFlight,
}

impl<'a> CountedQueue<'a> {
    pub(crate) fn of(broker: &'a Broker<Letter>, flight: &'a InFlight) -> CountedQueue<'a>
        ensures { result.broker.now ≡ broker.now }
    {
        CountedQueue { broker, flight }
    }

    pub(crate) fn publish<R: Wait>(
        &self,
        rt: &R,
        pass: &mut BrokerPass<Letter>,
        envelope: Letter,
    ) -> Result<(), Refused<Letter>>
        requires { pass.old.of ≡ self.now.broker.now }
        ensures broker { pass.new.of ≡ self.now.broker.now }
        ensures call { MatchResult result
            (λ _. Stands pass.old (calls pass.old.name (publish envelope) None) pass.new)
            (λ r. (r.envelope ≡ envelope) × (pass.new ≡ pass.old)) }
        ensures own { OnOk result
            (Adds pass.old (calls pass.old.name (publish envelope) None ∷ []) pass.new) }
    {
        self.flight.add();
        self.broker.publish(rt, pass, envelope)
    }

    pub(crate) fn redeliver<R: Wait>(
        &self,
        rt: &R,
        pass: &mut BrokerPass<Letter>,
        envelope: Letter,
    ) -> Result<(), Refused<Letter>>
        requires same { pass.old.of ≡ self.now.broker.now }
        requires taken { HasTaken (told pass.old) pass.old.name envelope }
        ensures broker { pass.new.of ≡ self.now.broker.now }
        ensures call { MatchResult result
            (λ _. Stands pass.old (calls pass.old.name (redeliver envelope) None) pass.new)
            (λ r. (r.envelope ≡ envelope) × (pass.new ≡ pass.old)) }
        ensures own { OnOk result
            (Adds pass.old (calls pass.old.name (redeliver envelope) None ∷ []) pass.new) }
    {
        self.flight.add();
        self.broker.redeliver(rt, pass, envelope)
    }

    pub(crate) fn take<R: Wait>(&self, rt: &R, pass: &mut BrokerPass<Letter>) -> Option<Letter>
        requires { pass.old.of ≡ self.now.broker.now }
        ensures broker { pass.new.of ≡ self.now.broker.now }
        ensures call { MatchOption result
            ((pass.new ≡ pass.old) × CouldStand pass.old (calls pass.old.name take None))
            (λ e. Stands pass.old (calls pass.old.name take (Some e)) pass.new) }
        ensures own { IfSome result
            (λ e. Adds pass.old (calls pass.old.name take (Some e) ∷ []) pass.new) }
        ensures empty { IfNone result (Empties pass.old) }
    {
        self.broker.take(rt, pass)
    }

    pub(crate) fn take_batch<R: Wait>(&self, rt: &R, pass: &mut BrokerPass<Letter>) -> Batch<Letter>
        requires { pass.old.of ≡ self.now.broker.now }
        ensures broker { pass.new.of ≡ self.now.broker.now }
        ensures call { Took pass.old result pass.new }
        ensures own { Adds pass.old (takes_of pass.old.name result) pass.new }
    {
        self.broker.take_batch(rt, pass)
    }
}
