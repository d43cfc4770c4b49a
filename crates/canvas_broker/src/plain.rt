//! The queue of envelopes for one thread, on which the shared broker's histories replay.
ghost use Rattle.std.specs.Prelude.{◌≡◌, [], ◌∷◌, ◌++◌, true, ◌↔◌, OnOk, MatchOption, MatchResult};
ghost use Rattle.canvas_history.specs.Queue.{publish, take, answer_of, next};

use crate::Refused;
use canvas_envelope::Envelope;
use std::alloc::Global;
use std::collections::VecDeque;
use std::marker::Model;

/// A queue of envelopes, or of values of another type `T`, for one thread. Contracts see it as the
/// list of what it holds, with the first to be taken in front.
#[derive(Drop)]
pub struct PlainBroker<T = Envelope> {
    queue: VecDeque<T>,
}

impl<T> Model for PlainBroker<T> {
    ghost use Rattle.std.specs.Prelude.{List};

    ghost Value = { List T };

    ghost view = { λ b. b.queue.items };
}

impl<T> PlainBroker<T> {
    /// Returns a broker that holds nothing. It allocates nothing yet.
    pub fn new(alloc: Global) -> PlainBroker<T>
        ensures { result ≡ [] }
    {
        PlainBroker {
            queue: VecDeque::new(alloc),
        }
    }

    /// Adds the envelope at the end. If memory is refused, gives it back and leaves the broker
    /// unchanged.
    pub fn publish(&mut self, envelope: T) -> Result<(), Refused<T>>
        ensures call { MatchResult result (λ _. self.new ≡ self.old ++ envelope ∷ [])
            (λ r. (r.envelope ≡ envelope) × (self.new ≡ self.old)) }
        ensures machine { OnOk result (self.new ≡ next self.old (publish envelope)) }
    {
        match self.queue.push_back(envelope) {
            Ok(()) => Ok(()),
            Err(refused) => Err(Refused {
                envelope: refused.value,
            }),
        }
    }

    /// Takes the envelope at the front.
    pub fn take(&mut self) -> Option<T>
        ensures call { MatchOption result ((self.old ≡ []) × (self.new ≡ []))
            (λ e. self.old ≡ e ∷ self.new) }
        ensures machine { (result ≡ answer_of self.old take) × (self.new ≡ next self.old take) }
    {
        self.queue.pop_front()
    }

    /// Returns whether it holds no envelope.
    pub fn is_empty(&self) -> bool
        ensures { (result ≡ true) ↔ (self.now ≡ []) }
    {
        self.queue.is_empty()
    }
}
