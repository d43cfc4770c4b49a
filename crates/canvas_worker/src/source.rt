//! The source of a worker's next envelope.

ghost use Rattle.std.specs.Prelude.{◌≡◌, [], ◌∷◌, Some, MatchOption, false};
ghost use Rattle.canvas_worker.specs.steps.Held.{held_in, alone_in};

use canvas_broker::Batch;
use canvas_envelope::Letter;

/// The source of a worker's next envelope. A worker takes single envelopes until one gives it its
/// first, so that it doesn't hold back what another could begin with. From then on it takes
/// batches, and a single envelope after an empty batch.
#[derive(Drop)]
pub(crate) enum Source {
    /// No envelope was found yet.
    First,
    /// The rest of a batch.
    Batched(Batch<Letter>),
    /// A batch is due.
    Next,
    /// The batch that was due was empty.
    Alone,
}

impl Source {
    /// Removes and returns the next envelope of the batch that is held.
    pub(crate) fn next(&mut self) -> Option<Letter>
        ensures next { MatchOption result ((held_in self.old ≡ []) × (held_in self.new ≡ []))
            (λ e. held_in self.old ≡ e ∷ held_in self.new) }
        ensures alone { MatchOption result (alone_in self.new ≡ alone_in self.old)
            (λ _. alone_in self.old ≡ false) }
    {
        match self {
            Source::Batched(batch) => batch.next(),
            _ => None,
        }
    }

    /// Returns whether the next take is of one envelope, and not of a batch.
    pub(crate) fn is_alone(&self) -> bool
        ensures { result ≡ alone_in self.now }
    {
        matches!(self, Source::First | Source::Alone)
    }

    /// Returns the source after a take that found nothing.
    pub(crate) fn after_none(&self) -> Source
        ensures { held_in result ≡ [] }
    {
        match self {
            Source::First => Source::First,
            _ => Source::Next,
        }
    }
}
