//! Runs on threads.
ghost use Rattle.std.specs.Prelude.{◌≡◌, ◌≤◌, suc, [], ◌∷◌, IfOk, IfErr};
ghost use Rattle.std.specs.Vec.{vec_capacity};
ghost use Rattle.canvas_semantics.specs.Line.{tree_of};
ghost use Rattle.canvas_history.specs.Callers.{told};
ghost use Rattle.canvas_history.specs.Roster.{roster_of};
ghost use Rattle.canvas_runs.specs.CallerRuns.{first_pass, first_seat};
ghost use Rattle.canvas_runs.specs.ProgramOrder.{program_order};
ghost use Rattle.canvas_semantics.specs.States.{states};
ghost use Rattle.canvas_engine.specs.Correct.{AreWorkers};
ghost use Rattle.canvas_engine.specs.Evidence.{IsRun, IsThreadFault};
ghost use Rattle.canvas_engine.specs.Headline.{Headline, OnlyWanted};
ghost use Rattle.canvas_engine.specs.steps.Gathering.{HaveWorked, IsStart};
ghost use Rattle.canvas_engine.specs.steps.WorkerSlots.{nothing_counted};

use crate::by_turns::{first_envelopes, new_rows};
use crate::threads::ending::{Controls, Run};
use crate::threads::handles::{
    Handles, Objects, are_done, fault_of, join_all, split_all, tally_all,
};
use crate::threads::publishing::publish_all;
use crate::threads::slot::WorkerSlot;
use crate::threads::workers::work_on_threads;
use crate::{Cause, Records, Report, RunFault, Tally};
use canvas_backend::Backend;
use canvas_broker::Broker;
use canvas_envelope::Letter;
use canvas_rewrite::Plan;
use canvas_semantics::MOST_WORKERS;
use canvas_task::{Fault, Memory, Tasks};
use canvas_worker::{Gate, Stop};
use std::alloc::{AllocGlobal, Global};
use std::random::RandomSource;
use std::sync::Wait;
use std::thread::Threads;

/// What a run has before its first publish.
#[derive(Drop)]
pub(crate) struct Start {
    run: Run,
    slots: Vec<WorkerSlot>,
    envelopes: Vec<Letter>,
}

/// Makes the queue and the table of a run, with worker 0's pass and seat.
fn open(alloc: Global, plan: &Plan) -> Result<(Objects, Handles), Memory>
    ensures plan { IfOk result (λ r. r.0.backend.plan ≡ roster_of plan.now) }
    ensures pass { IfOk result (λ r. r.1.pass ≡ first_pass r.0.broker) }
    ensures seat { IfOk result (λ r. r.1.seat ≡ first_seat r.0.backend.id) }
{
    let (broker, pass) = Broker::new(alloc)?;
    let (backend, seat) = Backend::new(alloc, plan)?;
    Ok((Objects { broker, backend }, Handles { pass, seat }))
}

/// Returns worker 0's tally, with room for those of `workers` others.
fn first_tally(alloc: Global, workers: u32) -> Result<Vec<Tally>, Memory>
    ensures first { IfOk result (λ tallies. tallies.items ≡ nothing_counted 0 ∷ []) }
    ensures room { IfOk result (λ tallies. suc workers ≤ vec_capacity tallies) }
{
    let mut tallies = Vec::with_capacity(alloc, workers as usize + 1)?;
    tallies.push(Tally::none(0))?;
    Ok(tallies)
}

/// Reserves all that a run needs: its rows and tallies, its first envelopes, its queue and its
/// table with a pass and a seat for each worker.
///
/// All of it comes before the first publish, so a refusal here gives no rows. A refused publish
/// gives rows that are all pending, since no worker has begun; a later refusal, or a stop, gives
/// what is stored.
fn reserve<R: Wait>(rt: &R, alloc: Global, plan: &Plan, workers: u32) -> Result<Start, Memory>
    ensures { IfOk result (IsStart plan.now workers) }
{
    // Only the proof needs it, as in `new_rows`.
    let _none: Option<Fault> = None;
    let rows = new_rows(alloc, plan)?;
    let tallies = first_tally(alloc, workers)?;
    let envelopes = first_envelopes(alloc, plan)?;
    let (objects, mut handles) = open(alloc, plan)?;
    let slots = split_all(rt, alloc, &objects, &mut handles, workers)?;
    let run = Run {
        objects,
        handles,
        first: envelopes.len(),
        rows,
        tallies,
    };
    Ok(Start {
        run,
        slots,
        envelopes,
    })
}

/// Publishes the first messages, runs the workers, and joins what they left. Also returns why they
/// ended early, if any did.
fn gather<R, T, G>(
    rt: &R,
    alloc: Global,
    plan: &Plan,
    tasks: &T,
    workers: u32,
    controls: &Controls<'_, G>,
    start: Start,
) -> Result<(Run, Option<Cause>), RunFault>
where
    R: Threads + Wait + RandomSource + AllocGlobal + Sync,
    T: Tasks + Sync,
    G: Gate + Sync,
    requires workers { AreWorkers workers }
    requires start { IsStart plan.now workers start }
    ensures ok { IfOk result
        (λ r. HaveWorked (T.behaviour tasks.now) (G.may_want controls.now.gate.now) plan.now
        workers r.1 r.0) }
    ensures err { IfErr result
        (IsThreadFault workers (states (T.behaviour tasks.now) (tree_of plan.now))) }
{
    let Start {
        mut run,
        mut slots,
        envelopes,
    } = start;
    match publish_all(rt, &run.objects.broker, &mut run.handles.pass, envelopes) {
        Ok(()) => (),
        Err(Memory) => return Err(RunFault::halted_with(Cause::Memory, run.rows)),
    }
    work_on_threads(rt, alloc, &run, tasks, controls, &mut slots);
    if !are_done(&slots) {
        return Err(RunFault::halted(Cause::Memory));
    }
    tally_all(&slots, &mut run.tallies);
    let fault = fault_of(&slots);
    join_all(rt, &run.objects, &mut run.handles, slots);
    Ok((run, fault))
}

fn run_started<R, T, G>(
    rt: &R,
    alloc: Global,
    plan: &Plan,
    tasks: &T,
    workers: u32,
    controls: &Controls<'_, G>,
    start: Start,
) -> Result<(Report, Records), RunFault>
where
    R: Threads + Wait + RandomSource + AllocGlobal + Sync,
    T: Tasks + Sync,
    G: Gate + Sync,
    requires workers { AreWorkers workers }
    requires start { IsStart plan.now workers start }
    ensures ok { IfOk result (λ r. IsRun (T.behaviour tasks.now) plan.now workers r.0.rows r.1) }
    ensures wanted { IfOk result
        (λ r. OnlyWanted (G.may_want controls.now.gate.now) (told r.1.pass)) }
    ensures err { IfErr result
        (IsThreadFault workers (states (T.behaviour tasks.now) (tree_of plan.now))) }
{
    let (ended, early) = gather(rt, alloc, plan, tasks, workers, controls, start)?;
    match early {
        None => ended.conclude(rt, alloc, plan, tasks, workers, controls),
        Some(cause) => Err(ended.halt(plan, tasks, workers, cause)),
    }
}

/// Runs a plan with 1 to 16 workers, each on a thread of its own, or on this one if no thread can
/// be made. The workers, numbered from 1, work until no message is in flight; then this thread, as
/// worker 0, joins what they have seen, works until it finds nothing and reads each task once.
///
/// `gate` is asked between a worker's take and its first store. A gate that never opens keeps the
/// run from ending, unless `stop` is asked; a worker that it holds back doesn't sleep.
///
/// If memory is refused to a worker, or its executor fails, the run asks `stop`, which ends all
/// others early. It is the caller's own and stays asked: another run with it ends as stopped at
/// once.
pub fn run<R, T, G>(
    rt: &R,
    alloc: Global,
    plan: &Plan,
    tasks: &T,
    workers: u32,
    gate: &G,
    stop: &Stop,
) -> Result<(Report, Records), RunFault>
where
    R: Threads + Wait + RandomSource + AllocGlobal + Sync,
    T: Tasks + Sync,
    G: Gate + Sync,
    // the promise; what each worker did is the order of its core run
    ensures headline { IfOk result
        (λ r. (ran : IsRun (T.behaviour tasks.now) plan.now workers r.0.rows r.1)
        × Headline (T.behaviour tasks.now) plan.now workers r.0.rows r.1 (program_order ran.run)) }
    ensures workers { IfOk result (λ _. AreWorkers workers) }
    // the gate may have wanted each redelivery
    ensures wanted { IfOk result (λ r. OnlyWanted (G.may_want gate.now) (told r.1.pass)) }
    ensures err { IfErr result
        (IsThreadFault workers (states (T.behaviour tasks.now) (tree_of plan.now))) }
{
    if workers < 1 || workers > MOST_WORKERS {
        return Err(RunFault::BadWorkers);
    }
    match reserve(rt, alloc, plan, workers) {
        Ok(start) => {
            let controls = Controls { gate, stop };
            run_started(rt, alloc, plan, tasks, workers, &controls, start)
        }
        Err(Memory) => Err(RunFault::halted(Cause::Memory)),
    }
}
