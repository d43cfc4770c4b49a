//! The record of a worker.

use crate::Cause;
use canvas_backend::BackendSeat;
use canvas_broker::BrokerPass;
use canvas_envelope::Letter;

/// A worker's counts, with its pass and its seat, and why it ended early, if it did. Each count
/// saturates.
#[derive(Drop)]
pub struct Record {
    /// The number that the worker was made with; in a run, 0 is the one that joins all others.
    pub number: u32,
    /// The envelopes that its core was given. One for which the core had no memory is left out.
    pub taken: u64,
    /// The publishes that were accepted.
    pub published: u64,
    /// The stores that answered First.
    pub first: u64,
    /// The parts that were returned.
    pub parts: u64,
    /// The envelopes that were dropped.
    pub dropped: u64,
    /// Its pass, which another pass can join.
    pub pass: BrokerPass<Letter>,
    /// Its seat, which another seat can join.
    pub seat: BackendSeat,
    /// None if it ended by itself.
    pub fault: Option<Cause>,
}
