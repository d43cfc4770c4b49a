//! A batch of takes.
ghost use Rattle.std.specs.Prelude.{◌≡◌, [], ◌∷◌, MatchOption};

use crate::item::Item;
use arrayvec::ArrayVec;
use canvas_envelope::Envelope;
use std::marker::Model;
use std::mem;

/// The envelopes that a batch took, in order, without those that were read already. Envelopes that
/// aren't read when it is dropped are lost: the history has their takes.
///
/// The whole batch is taken at once. So it has no lifetime, `next` doesn't wait, and it may be
/// dropped at any time.
#[derive(Drop)]
pub struct Batch<T = Envelope> {
    // the envelopes, with the marks of splits among them
    pub(crate) items: ArrayVec<Item<T>, 4>,
    // how many of these are read
    pub(crate) read: usize,
}

impl<T> Model for Batch<T> {
    ghost use Rattle.std.specs.Prelude.{List, drop};
    ghost use Rattle.canvas_broker.specs.steps.Rule.{envelopes};

    ghost Value = { List T };

    ghost view = { λ b. envelopes (drop b.read b.items.items) };
}

impl<T: Drop> Batch<T> {
    /// Removes and returns the next envelope. Returns None at the end, and from then on.
    pub fn next(&mut self) -> Option<T>
        ensures { MatchOption result ((self.old ≡ []) × (self.new ≡ []))
            (λ e. self.old ≡ e ∷ self.new) }
    {
        while self.read < self.items.len() {
            let item = mem::replace(&mut self.items[self.read], Item::Mark);
            self.read += 1;
            if let Item::Queued(envelope) = item {
                return Some(envelope);
            }
        }
        None
    }
}
