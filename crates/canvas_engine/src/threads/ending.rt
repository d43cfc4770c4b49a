//! The end of a run on threads: worker 0 works until it finds nothing, and reads the rows.
//!
//! The cause and the rows of a halted run are stated at the end of its workers (`halt`, `why`). If
//! worker 0 ends early, which it does after all others, the cause is its own. No clause can name
//! that: tests do (`halts` of `canvas_tests`).
ghost use Rattle.std.specs.Prelude.{◌≡◌, ◌<◌, List, length, Option, Some, None, IfSome, IfOk, IfErr};
ghost use Rattle.canvas_core.specs.declared.cause.Cause.{Cause};
ghost use Rattle.canvas_semantics.specs.Line.{Line, count_line, tree_of};
ghost use Rattle.canvas_rewrite.specs.Planned.{IsPlan};
ghost use Rattle.canvas_semantics.specs.Evaluation.{State};
ghost use Rattle.canvas_semantics.specs.States.{states};
ghost use Rattle.canvas_history.specs.Roster.{roster_of};
ghost use Rattle.canvas_history.specs.Callers.{told};
ghost use Rattle.canvas_worker.specs.Finished.{Finished};
ghost use Rattle.canvas_runs.specs.Following.{Seat, Serves};
ghost use Rattle.canvas_runs.specs.CallerRows.{reads_from};
ghost use Rattle.canvas_engine.specs.Correct.{AreWorkers};
ghost use Rattle.canvas_engine.specs.declared.by_turns.fault.RunFault.TheVariants as fault;
ghost use Rattle.canvas_engine.specs.Evidence.{IsRun, IsThreadFault};
ghost use Rattle.canvas_engine.specs.Headline.{OnlyWanted};
ghost use Rattle.canvas_engine.specs.steps.Gathering.{AreGathered, AreRead, HaveWorked, IsHaltedFor, leaves};
ghost use Rattle.canvas_engine.specs.steps.WorkerSlots.{AreOfObjects};

use crate::threads::handles::{Handles, Objects};
use crate::{Cause, Records, Report, RunFault, Tally};
use canvas_backend::{Backend, BackendSeat};
use canvas_rewrite::Plan;
use canvas_task::{Fault, ListOf, Outcome, Tasks};
use canvas_worker::{Gate, InFlight, OpenGate, Record, Shared, Stop, work_to_end};
use std::alloc::{AllocGlobal, Global};
use std::random::RandomSource;
use std::sync::Wait;

/// What holds a run back, and what ends it early.
#[derive(Drop)]
pub(crate) struct Controls<'a, G> {
    pub gate: &'a G,
    pub stop: &'a Stop,
}

/// What a run has besides its workers' places: before they begin, and once they have ended.
#[derive(Drop)]
pub(crate) struct Run {
    pub objects: Objects,
    /// Worker 0's pass and seat, with those that were joined.
    pub handles: Handles,
    /// The number of messages published before the workers begin.
    pub first: usize,
    pub rows: Vec<Option<Outcome>>,
    /// Worker 0's tally, still to be counted, and the others', once they have ended.
    pub tallies: Vec<Tally>,
}

/// Reads each task once, from task 1 on.
fn read_rows(backend: &Backend, seat: &mut BackendSeat, plan: &Plan, rows: &mut [Option<Outcome>])
    requires own { seat.old.of ≡ backend.now.id }
    requires plan { backend.now.plan ≡ roster_of plan.now }
    requires rows { length rows.old ≡ count_line plan.now }
    ensures own { seat.new.of ≡ backend.now.id }
    ensures read { Serves backend.now.plan seat.old (reads_from 1 rows.new) seat.new }
{
    for index in 0..plan.tasks() {
        rows[index as usize] = backend.read(seat, plan.task_at(index));
    }
}

/// Runs worker 0 on this thread, once it has joined all others, until it finds nothing. Returns
/// None if its executor failed.
///
/// Worker 0 is a `Worker` too: without a fault its record says that its last take found nothing,
/// which for the only live caller makes the history end in the empty queue. A loop over takes would
/// need a measure, which nothing that a caller sees gives.
fn work_alone<R: Wait + RandomSource + AllocGlobal, T: Tasks>(
    rt: &R,
    alloc: Global,
    objects: &Objects,
    tasks: &T,
    stop: &Stop,
    handles: Handles,
) -> Option<Record>
    requires plan { (l : Line) × IsPlan l × (objects.now.backend.plan ≡ roster_of l) }
    requires own { AreOfObjects objects.now handles }
    ensures { IfSome result (Finished (T.behaviour tasks.now) (λ _ _. ⊥) objects.now.backend.plan 0
        handles.pass handles.seat) }
{
    let Handles { pass, seat } = handles;
    let shared = Shared {
        broker: &objects.broker,
        backend: &objects.backend,
        tasks,
        gate: &OpenGate,
        stop,
        flight: &InFlight::new(0),
    };
    work_to_end(rt, alloc, &shared, 0, pass, seat)
}

/// Returns what a run leaves, if worker 0 left this record and the others counted this.
fn records_of(objects: Objects, left: Record, first: usize, tallies: Vec<Tally>) -> Records
    requires { 0 < length tallies.items }
    ensures { result ≡ leaves objects left left.seat first tallies.items }
{
    let mut workers = tallies;
    workers[0] = Tally::of(0, &left).with_published(first);
    Records {
        broker: objects.broker,
        pass: left.pass,
        backend: objects.backend,
        seat: left.seat,
        workers: ListOf::of(workers),
    }
}

/// Reads each task once, and returns what the run leaves.
fn finish(
    plan: &Plan,
    objects: Objects,
    mut left: Record,
    first: usize,
    mut rows: Vec<Option<Outcome>>,
    tallies: Vec<Tally>,
) -> Result<(Report, Records), RunFault>
    requires own { left.seat.of ≡ objects.backend.id }
    requires plan { objects.backend.plan ≡ roster_of plan.now }
    requires rows { length rows.items ≡ count_line plan.now }
    requires tallies { 0 < length tallies.items }
    ensures ok { IfOk result (λ r. (left.fault ≡ None) × (t : Seat) × (t.of ≡ objects.backend.id)
        × AreRead plan.now left.seat r.0.rows t
        × (r.1 ≡ leaves objects left t first tallies.items)) }
    ensures err { IfErr result (λ f. (cause : Cause) × (rows : List State) × (t : Seat)
        × (f ≡ fault.Halted cause (Some (record { rows = rows })))
        × AreRead plan.now left.seat rows t) }
{
    read_rows(&objects.backend, &mut left.seat, plan, &mut rows);
    match left.fault {
        Some(cause) => Err(RunFault::halted_with(cause, rows)),
        None => {
            let report = Report {
                rows: ListOf::of(rows),
            };
            Ok((report, records_of(objects, left, first, tallies)))
        }
    }
}

impl Run {
    /// Returns the fault of a run that ended early, with the rows that it has.
    pub(crate) fn halt<T: Tasks>(
        self,
        plan: &Plan,
        tasks: &T,
        workers: u32,
        cause: Cause,
    ) -> RunFault
        requires workers { AreWorkers workers }
        requires gathered { (cause : Option Cause)
            × AreGathered (T.behaviour tasks.now) plan.now workers cause self }
        ensures err { IsThreadFault workers (states (T.behaviour tasks.now) (tree_of plan.now))
            result }
        ensures why { IsHaltedFor cause result }
    {
        // Only the clauses need it.
        let _tasks = tasks;
        let Run {
            objects,
            mut handles,
            mut rows,
            ..
        } = self;
        // Worker 0 reads these rows as those of any run, so each is pending or the evaluation's.
        read_rows(&objects.backend, &mut handles.seat, plan, &mut rows);
        RunFault::halted_with(cause, rows)
    }

    /// Has worker 0 work until it finds nothing, and reads each task once.
    pub(crate) fn conclude<R: Wait + RandomSource + AllocGlobal, T: Tasks, G: Gate>(
        self,
        rt: &R,
        alloc: Global,
        plan: &Plan,
        tasks: &T,
        workers: u32,
        controls: &Controls<'_, G>,
    ) -> Result<(Report, Records), RunFault>
        requires workers { AreWorkers workers }
        requires gathered { HaveWorked (T.behaviour tasks.now) (G.may_want controls.now.gate.now)
            plan.now workers None self }
        ensures ok { IfOk result
            (λ r. IsRun (T.behaviour tasks.now) plan.now workers r.0.rows r.1) }
        ensures wanted { IfOk result
            (λ r. OnlyWanted (G.may_want controls.now.gate.now) (told r.1.pass)) }
        ensures err { IfErr result
            (IsThreadFault workers (states (T.behaviour tasks.now) (tree_of plan.now))) }
    {
        let Run {
            objects,
            handles,
            first,
            rows,
            tallies,
        } = self;
        match work_alone(rt, alloc, &objects, tasks, controls.stop, handles) {
            Some(left) => finish(plan, objects, left, first, rows, tallies),
            None => Err(RunFault::halted(Cause::Memory)),
        }
    }
}
