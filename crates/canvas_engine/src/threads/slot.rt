//! The slot of a worker in a run.
//!
//! A worker's record replaces its pass and seat in its slot. So starting threads takes no memory, a
//! thread that can't be made costs only its concurrency, and an executor that fails loses only one
//! worker. The run is then halted for memory, without rows: the lost pass stays a live caller, of
//! which nothing closed can be proved.
ghost use Rattle.std.specs.Prelude.{◌≡◌, MatchBool};
ghost use Rattle.canvas_engine.specs.steps.WorkerSlots.{LeftARecord, IsWell, LacksMemory, tally_in};

use crate::{Cause, Tally};
use canvas_backend::BackendSeat;
use canvas_broker::BrokerPass;
use canvas_envelope::Letter;
use canvas_worker::Record;

/// The content of a worker's slot.
#[derive(Drop)]
pub(crate) enum SlotState {
    /// The pass and seat that the worker begins with.
    Ready(BrokerPass<Letter>, BackendSeat),
    /// The record that it left.
    Done(Record),
    /// Nothing, since its executor failed; its pass and its seat are lost.
    Lost,
}

/// A worker's number and what it has.
#[derive(Drop)]
pub(crate) struct WorkerSlot {
    pub number: u32,
    pub state: SlotState,
}

impl WorkerSlot {
    pub(crate) fn is_done(&self) -> bool
        ensures { MatchBool result (LeftARecord self.now.state) (LeftARecord self.now.state → ⊥) }
    {
        match &self.state {
            SlotState::Done(_) => true,
            SlotState::Ready(..) => false,
            SlotState::Lost => false,
        }
    }

    /// Returns whether the worker ended without a fault.
    pub(crate) fn is_well(&self) -> bool
        ensures { MatchBool result (IsWell self.now.state) (IsWell self.now.state → ⊥) }
    {
        match &self.state {
            SlotState::Done(record) => record.fault.is_none(),
            SlotState::Ready(..) => false,
            SlotState::Lost => false,
        }
    }

    /// Returns whether memory was refused to the worker, or its executor failed.
    pub(crate) fn lacks_memory(&self) -> bool
        ensures { MatchBool result (LacksMemory self.now.state) (LacksMemory self.now.state → ⊥) }
    {
        match &self.state {
            SlotState::Done(record) => match &record.fault {
                Some(Cause::Memory) => true,
                Some(Cause::Stopped) => false,
                None => false,
            },
            SlotState::Ready(..) => false,
            SlotState::Lost => true,
        }
    }

    pub(crate) fn tally(&self) -> Tally
        ensures { result ≡ tally_in self.now }
    {
        match &self.state {
            SlotState::Done(record) => Tally::of(self.number, record),
            SlotState::Ready(..) => Tally::none(self.number),
            SlotState::Lost => Tally::none(self.number),
        }
    }
}
