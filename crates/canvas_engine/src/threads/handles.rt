//! The passes and the seats of a run's workers.
ghost use Rattle.std.specs.Prelude.{◌≡◌, ◌≤◌, ◌+◌, ◌++◌, All, Any, length, map, IfOk, MatchBool};
ghost use Rattle.std.specs.Vec.{vec_len, vec_capacity};
ghost use Rattle.canvas_engine.specs.steps.WorkerSlots.{AreOfObjects, IsReadySlot, IsSplitOff, SplitsOff, LeftARecord, IsWell, LacksMemory, IsWhy, AreOf, TakesIn, tally_in};
ghost use Rattle.canvas_history.specs.Passes as passes;
ghost use Rattle.canvas_history.specs.Callers.{Owes};
ghost use Rattle.canvas_history.specs.Seats as seats;

use crate::threads::slot::{SlotState, WorkerSlot};
use crate::{Cause, Tally};
use canvas_backend::{Backend, BackendSeat};
use canvas_broker::{Broker, BrokerPass};
use canvas_envelope::Letter;
use canvas_task::Memory;
use canvas_worker::Record;
use std::alloc::Global;
use std::sync::Wait;

/// The queue and the table of a run.
#[derive(Drop)]
pub(crate) struct Objects {
    pub broker: Broker<Letter>,
    pub backend: Backend,
}

/// A worker's pass and seat.
#[derive(Drop)]
pub(crate) struct Handles {
    pub pass: BrokerPass<Letter>,
    pub seat: BackendSeat,
}

fn split_one<R: Wait>(
    rt: &R,
    objects: &Objects,
    handles: &mut Handles,
    number: u32,
) -> Result<WorkerSlot, Memory>
    requires own { AreOfObjects objects.now handles.old }
    ensures own { AreOfObjects objects.now handles.new }
    ensures ready { IfOk result (IsReadySlot objects.now.broker objects.now.backend.id) }
    ensures part { IfOk result (λ slot. IsSplitOff objects.now.backend.plan number handles.old.pass
        handles.old.seat slot handles.new.pass handles.new.seat) }
{
    let new_pass = objects.broker.split(rt, &mut handles.pass)?;
    let new_seat = objects.backend.split(&mut handles.seat)?;
    Ok(WorkerSlot {
        number,
        state: SlotState::Ready(new_pass, new_seat),
    })
}

/// Returns a slot for each worker, from worker 1 on, with a pass and a seat of its own.
pub(crate) fn split_all<R: Wait>(
    rt: &R,
    alloc: Global,
    objects: &Objects,
    handles: &mut Handles,
    workers: u32,
) -> Result<Vec<WorkerSlot>, Memory>
    requires own { AreOfObjects objects.now handles.old }
    ensures own { AreOfObjects objects.now handles.new }
    ensures count { IfOk result (λ slots. length slots.items ≡ workers) }
    ensures ready { IfOk result
        (λ slots. All (IsReadySlot objects.now.broker objects.now.backend.id) slots.items) }
    ensures parts { IfOk result (λ slots. SplitsOff objects.now.backend.plan 1 handles.old.pass
        handles.old.seat slots.items handles.new.pass handles.new.seat) }
{
    let mut slots = Vec::new(alloc);
    for index in 0..workers {
        let slot = split_one(rt, objects, handles, index + 1)?;
        slots.push(slot)?;
    }
    Ok(slots)
}

/// Returns whether each worker has left a record.
pub(crate) fn are_done(slots: &[WorkerSlot]) -> bool
    ensures { MatchBool result (All (λ s. LeftARecord s.state) slots.now)
        (All (λ s. LeftARecord s.state) slots.now → ⊥) }
{
    slots.iter().all(|slot| slot.is_done())
}

fn are_well(slots: &[WorkerSlot]) -> bool
    ensures { MatchBool result (All (λ s. IsWell s.state) slots.now)
        (All (λ s. IsWell s.state) slots.now → ⊥) }
{
    slots.iter().all(|slot| slot.is_well())
}

fn lack_memory(slots: &[WorkerSlot]) -> bool
    ensures { MatchBool result (Any (λ s. LacksMemory s.state) slots.now)
        (Any (λ s. LacksMemory s.state) slots.now → ⊥) }
{
    slots.iter().any(|slot| slot.lacks_memory())
}

/// Returns why the workers ended early, if any did: for memory if one of them was refused memory.
pub(crate) fn fault_of(slots: &[WorkerSlot]) -> Option<Cause>
    ensures { IsWhy slots.now result }
{
    if are_well(slots) {
        return None;
    }
    if lack_memory(slots) {
        Some(Cause::Memory)
    } else {
        Some(Cause::Stopped)
    }
}

/// Appends what the workers counted to the tallies, which have room for it.
pub(crate) fn tally_all(slots: &[WorkerSlot], tallies: &mut Vec<Tally>)
    requires { vec_len tallies.old + length slots.now ≤ vec_capacity tallies.old }
    ensures { tallies.new.items ≡ tallies.old.items ++ map tally_in slots.now }
{
    for slot in slots {
        match tallies.push(slot.tally()) {
            Ok(()) => (),
            Err(_) => unreachable!(),
        }
    }
}

fn join_one<R: Wait>(rt: &R, objects: &Objects, handles: &mut Handles, left: Record)
    requires own { AreOfObjects objects.now handles.old }
    requires other { (left.pass.of ≡ objects.now.broker) × (left.seat.of ≡ objects.now.backend.id) }
    ensures own { AreOfObjects objects.now handles.new }
    ensures passes { Owes handles.old.pass left.pass handles.new.pass
        × passes.IsHistory handles.new.pass }
    ensures seats { seats.Joined objects.now.backend.plan handles.old.seat left.seat
        handles.new.seat }
{
    objects.broker.join(rt, &mut handles.pass, left.pass);
    objects.backend.join(&mut handles.seat, left.seat);
}

/// Joins what the workers left, in the order of their numbers.
pub(crate) fn join_all<R: Wait>(
    rt: &R,
    objects: &Objects,
    handles: &mut Handles,
    slots: Vec<WorkerSlot>,
)
    requires own { AreOfObjects objects.now handles.old }
    requires others { AreOf objects.now.broker objects.now.backend.id slots.items }
    ensures own { AreOfObjects objects.now handles.new }
    ensures taken { TakesIn objects.now.backend.plan handles.old.pass handles.old.seat slots.items
        handles.new.pass handles.new.seat }
{
    for slot in slots {
        match slot.state {
            SlotState::Done(left) => join_one(rt, objects, handles, left),
            SlotState::Ready(..) => unreachable!(),
            SlotState::Lost => unreachable!(),
        }
    }
}
