//! The records of a run on threads.
ghost use Rattle.std.specs.Prelude.{◌≡◌, ◌+◌, min};
ghost use Rattle.canvas_engine.specs.steps.WorkerSlots.{counts, nothing_counted};
ghost use Rattle.canvas_runs.specs.Tally.{greatest_count};

use canvas_backend::{Backend, BackendSeat};
use canvas_broker::{Broker, BrokerPass};
use canvas_envelope::Letter;
use canvas_task::ListOf;
use canvas_worker::Record;

/// The counts of a worker: envelopes taken, publishes accepted, stores that were the first of their
/// task, parts returned and envelopes dropped. Each count saturates.
#[derive(Clone, Copy, Debug, PartialEq, Eq)]
pub struct Tally {
    /// 0 for the worker that joins all others, which are numbered from 1.
    pub number: u32,
    /// An envelope counts once the worker's core has it.
    pub taken: u64,
    /// For worker 0, with the run's first messages.
    pub published: u64,
    /// The tasks whose outcome this worker stored first.
    pub first: u64,
    /// Parts of chords; a plain group has none.
    pub parts: u64,
    /// Forged envelopes; a run's own queue has none.
    pub dropped: u64,
}

impl Tally {
    pub(crate) fn none(number: u32) -> Tally
        ensures { result ≡ nothing_counted number }
    {
        Tally {
            number,
            taken: 0,
            published: 0,
            first: 0,
            parts: 0,
            dropped: 0,
        }
    }

    pub(crate) fn of(number: u32, left: &Record) -> Tally
        ensures { result ≡ counts number left.now }
    {
        Tally {
            number,
            taken: left.taken,
            published: left.published,
            first: left.first,
            parts: left.parts,
            dropped: left.dropped,
        }
    }

    /// Adds further publishes.
    pub(crate) fn with_published(self, further: usize) -> Tally
        ensures { result
            ≡ record {
              number = self.number;
              taken = self.taken;
              published = min greatest_count (self.published + further);
              first = self.first;
              parts = self.parts;
              dropped = self.dropped;
            } }
    {
        Tally {
            published: self.published.saturating_add(further as u64),
            ..self
        }
    }
}

/// The queue and the table of results of a run, with worker 0's pass and seat, into which those of
/// all others were joined, and what each worker counted, from worker 0 on.
#[derive(Drop)]
pub struct Records {
    /// The queue, which is empty.
    pub broker: Broker<Letter>,
    /// Its history has just the calls of each worker to the queue.
    pub pass: BrokerPass<Letter>,
    /// The table of results.
    pub backend: Backend,
    /// Its history has just the calls of each worker to the table.
    pub seat: BackendSeat,
    /// The tallies, one more than there are workers on threads.
    pub workers: ListOf<Tally>,
}
