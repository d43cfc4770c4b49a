//! The count that tells idle workers whether more may come.

mod queue;

pub(crate) use queue::CountedQueue;
use std::sync::Wait;
use std::sync::atomic::{AtomicU64, Ordering};
use std::time::Duration;

/// The most microseconds that a worker sleeps after several takes in a row that found nothing.
const NAP: u64 = 100;

/// The count of envelopes in flight: published or redelivered, and not acknowledged yet. No claim
/// rests on it.
#[derive(Drop)]
pub struct InFlight {
    count: AtomicU64,
}

impl InFlight {
    /// Returns a count of `count` envelopes that are published already.
    pub fn new(count: u64) -> InFlight {
        InFlight {
            count: AtomicU64::new(count),
        }
    }

    // Only the queue of workers calls it.
    fn add(&self) {
        self.count.fetch_add(1, Ordering::SeqCst);
    }

    /// Subtracts acknowledged envelopes from the count, but not below 0: a message that worker 0
    /// took all the same wouldn't keep it from ending. If the count is 0 then, wakes the workers
    /// that nap.
    pub(crate) fn take_off(&self, acknowledged: u64) {
        let done = self.count.load(Ordering::SeqCst).min(acknowledged);
        if done > 0 && self.count.fetch_sub(done, Ordering::SeqCst) == done {
            self.count.wake_all();
        }
    }

    pub(crate) fn is_some(&self) -> bool {
        self.count.load(Ordering::SeqCst) != 0
    }

    /// Sleeps for a little while, unless the count changed just before, or becomes 0. A publish
    /// wakes nobody, so it costs no call of the kernel.
    pub(crate) fn nap<R: Wait>(&self, rt: &R) {
        let Ok(count) = u32::try_from(self.count.load(Ordering::SeqCst)) else {
            return;
        };
        if count != 0 {
            self.count
                .park_timeout(rt, count, Duration::from_micros(NAP));
        }
    }
}
