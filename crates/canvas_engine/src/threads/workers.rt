//! Workers on threads.
ghost use Rattle.std.specs.Prelude.{◌≡◌, All};
ghost use denote.Param.Send.{IsSync, IsSend};
ghost use Rattle.canvas_semantics.specs.Line.{Line};
ghost use Rattle.canvas_rewrite.specs.Planned.{IsPlan};
ghost use Rattle.canvas_history.specs.Roster.{roster_of};
ghost use Rattle.canvas_engine.specs.steps.WorkerSlots.{IsReadySlot, RanSlot, AllRan};

use crate::threads::ending::{Controls, Run};
use crate::threads::slot::{SlotState, WorkerSlot};
use canvas_task::Tasks;
use canvas_worker::{Gate, InFlight, Shared, Stop, work_to_end};
use std::alloc::{AllocGlobal, Global};
use std::mem;
use std::random::RandomSource;
use std::sync::Wait;
use std::thread::{Threads, for_each_mut};

/// Runs one worker to its end on this thread.
fn work<R, T, G>(rt: &R, alloc: Global, shared: &Shared<'_, T, G>, slot: &mut WorkerSlot)
where
    R: Wait + RandomSource + AllocGlobal,
    T: Tasks,
    G: Gate,
    requires plan { (l : Line) × IsPlan l × (shared.now.backend.now.plan ≡ roster_of l) }
    requires ready { IsReadySlot shared.now.broker.now shared.now.backend.now.id slot.old }
    ensures { RanSlot (T.behaviour shared.now.tasks.now) (G.may_want shared.now.gate.now)
        shared.now.backend.now.plan slot.old slot.new }
{
    match mem::replace(&mut slot.state, SlotState::Lost) {
        SlotState::Ready(pass, seat) => {
            if let Some(left) = work_to_end(rt, alloc, shared, slot.number, pass, seat) {
                slot.state = SlotState::Done(left);
            }
        }
        SlotState::Done(_) => unreachable!(),
        SlotState::Lost => unreachable!(),
    }
}

/// Runs each worker on a thread of its own, or on this one if none can be made: there they work one
/// after the other, each until no message is in flight.
///
/// Two workers or more have threads even if their tasks are light, since a task may wait for
/// another of its run. No contract depends on the number of threads.
pub(crate) fn work_on_threads<R, T, G>(
    rt: &R,
    alloc: Global,
    run: &Run,
    tasks: &T,
    controls: &Controls<'_, G>,
    slots: &mut [WorkerSlot],
)
where
    R: Threads + Wait + RandomSource + AllocGlobal + Sync,
    T: Tasks + Sync,
    G: Gate + Sync,
    requires plan { (l : Line) × IsPlan l × (run.now.objects.backend.plan ≡ roster_of l) }
    requires ready { All (IsReadySlot run.now.objects.broker run.now.objects.backend.id)
        slots.old }
    ensures { AllRan (T.behaviour tasks.now) (G.may_want controls.now.gate.now)
        run.now.objects.backend.plan slots.old slots.new }
{
    if slots.is_empty() {
        return;
    }
    let (broker, backend) = (&run.objects.broker, &run.objects.backend);
    let (gate, stop) = (controls.gate, controls.stop);
    let flight = &InFlight::new(run.first as u64);
    let each = |_: usize, slot: &mut WorkerSlot|
        requires { ((l : Line) × IsPlan l × (backend.now.plan ≡ roster_of l))
            × IsReadySlot broker.now backend.now.id slot.now }
        ensures { RanSlot (T.behaviour tasks.entry.now) (G.may_want gate.entry.now)
            backend.entry.now.plan slot.entry.now slot.exit.now }
    {
        work(
            rt,
            alloc,
            &Shared {
                broker,
                backend,
                tasks,
                gate,
                stop,
                flight,
            },
            slot,
        )
    };
    let threads = slots.len();
    for_each_mut(rt, slots, threads, &each);
}
