//! Runs by turns.
ghost use Rattle.std.specs.Prelude.{◌≡◌, ◌≢◌, ◌≤◌, ◌<◌, ◌*◌, ◌^◌, suc, ℕ, All, List, [], None, length, map, IfOk, IfErr, OnOk, OnErr, MatchBool};
ghost use Rattle.canvas_semantics.specs.Line.{count_line, tree_of};
ghost use Rattle.canvas_rewrite.specs.Planned.{IsPlan};
ghost use Rattle.canvas_semantics.specs.States.{states};
ghost use Rattle.canvas_history.specs.Table.{no_results};
ghost use Rattle.canvas_backend.specs.Plain.{held};
ghost use Rattle.canvas_history.specs.Roster.{roster_of};
ghost use Rattle.canvas_runs.specs.Termination.{most_steps};
ghost use Rattle.canvas_runs.specs.Turns.{Step, IsWorker};
ghost use Rattle.canvas_engine.specs.Correct.{AreWorkers, AreTurns, IsAsked, IsWholeRun, IsWholeWithin, IsWholeAgain, IsRunFault, IsFaultWithin};
ghost use Rattle.canvas_engine.specs.Noted.{IsStepped, step_seen};
ghost use Rattle.canvas_engine.specs.Traced.{IsTraced};
ghost use Rattle.canvas_engine.specs.steps.AgainRuns.{IsNotedWithin, IsAgainFault};
ghost use Rattle.canvas_engine.specs.steps.TurnRuns.{rows_of, Given, Reached, HasReached, IsNew, IsPartOfRound, IsHaltInRound, IsRunThrough, IsEarlyEnd};

use crate::RunFault;
use crate::by_turns::notes::{Keeps, Step as NotedStep, letters_of};
use crate::by_turns::turn_run::TurnRun;
use canvas_core::Cause;
use canvas_envelope::Letter;
use canvas_report::Report;
use canvas_rewrite::Plan;
use canvas_runs::When;
use canvas_semantics::MOST_WORKERS;
use canvas_task::{Fault, ListOf, Memory, Outcome, TaskNo, Tasks};
use std::alloc::Global;

/// Takes a turn of each worker, from the first to the last. Returns whether an ask was answered.
fn run_round<T: Tasks>(
    alloc: Global,
    turn_run: &mut TurnRun,
    plan: &Plan,
    tasks: &T,
    workers: u32,
) -> Result<bool, Cause>
    requires { (most : ℕ) × (given : Given) × (us : List ℕ)
        × HasReached (T.behaviour tasks.now) plan.now workers most given us turn_run.old }
    ensures ok { IfOk result (λ b. (most : ℕ) (given : Given) (us : List ℕ) (xs : List Step)
        → Reached (T.behaviour tasks.now) plan.now workers most given us xs turn_run.old
        → IsPartOfRound (T.behaviour tasks.now) b plan.now workers most given us xs workers
        turn_run.old.steps turn_run.new) }
    ensures err { IfErr result (λ cause. (most : ℕ) (given : Given) (us : List ℕ) (xs : List Step)
        → Reached (T.behaviour tasks.now) plan.now workers most given us xs turn_run.old
        → IsHaltInRound (T.behaviour tasks.now) cause plan.now workers most given us turn_run.new) }
{
    let mut answered = false;
    for index in 0..workers {
        answered |= turn_run.turn(alloc, plan, tasks, index + 1)?;
    }
    Ok(answered)
}

/// Takes the turns of a list.
fn run_list<T: Tasks>(
    alloc: Global,
    turn_run: &mut TurnRun,
    plan: &Plan,
    tasks: &T,
    workers: u32,
    turns: &[u32],
) -> Result<(), Cause>
    requires reached { (most : ℕ) × (given : Given)
        × Reached (T.behaviour tasks.now) plan.now workers most given [] [] turn_run.old }
    requires turns { AreTurns workers turns.now }
    ensures ok { OnOk result ((most : ℕ) (given : Given)
        → Reached (T.behaviour tasks.now) plan.now workers most given [] [] turn_run.old
        → HasReached (T.behaviour tasks.now) plan.now workers most given turns.now turn_run.new) }
    ensures err { IfErr result (λ cause. (most : ℕ) (given : Given)
        → Reached (T.behaviour tasks.now) plan.now workers most given [] [] turn_run.old
        → IsEarlyEnd (T.behaviour tasks.now) cause plan.now workers most given turns.now
        turn_run.new) }
{
    for worker in turns {
        turn_run.turn(alloc, plan, tasks, *worker)?;
    }
    Ok(())
}

/// Takes turns in rotation, until all workers are at their ends.
fn run_rounds<T: Tasks>(
    alloc: Global,
    turn_run: &mut TurnRun,
    plan: &Plan,
    tasks: &T,
    workers: u32,
    turns: &[u32],
) -> Result<(), Cause>
    requires { (most : ℕ) × (given : Given)
        × HasReached (T.behaviour tasks.now) plan.now workers most given turns.now turn_run.old }
    ensures ok { OnOk result ((most : ℕ) (given : Given)
        → HasReached (T.behaviour tasks.now) plan.now workers most given turns.now turn_run.old
        → IsRunThrough (T.behaviour tasks.now) plan.now workers most given turns.now turn_run.new) }
    ensures err { IfErr result (λ cause. (most : ℕ) (given : Given)
        → HasReached (T.behaviour tasks.now) plan.now workers most given turns.now turn_run.old
        → IsEarlyEnd (T.behaviour tasks.now) cause plan.now workers most given turns.now
        turn_run.new) }
{
    while run_round(alloc, turn_run, plan, tasks, workers)? {}
    Ok(())
}

/// Publishes the first messages, and runs.
fn run_through<T: Tasks>(
    alloc: Global,
    turn_run: &mut TurnRun,
    plan: &Plan,
    tasks: &T,
    workers: u32,
    turns: &[u32],
) -> Result<(), Cause>
    requires planned { IsPlan plan.now }
    requires new { IsNew plan.now workers turn_run.old }
    requires turns { AreTurns workers turns.now }
    ensures ok { OnOk result (IsRunThrough (T.behaviour tasks.now) plan.now workers
        turn_run.old.steps (turn_run.old.again.items, turn_run.old.notes.keeps) turns.now
        turn_run.new) }
    ensures err { IfErr result (λ cause. IsEarlyEnd (T.behaviour tasks.now) cause plan.now workers
        turn_run.old.steps (turn_run.old.again.items, turn_run.old.notes.keeps) turns.now
        turn_run.new) }
{
    let Ok(()) = turn_run.open(alloc, plan) else {
        return Err(Cause::Memory);
    };
    run_list(alloc, turn_run, plan, tasks, workers, turns)?;
    run_rounds(alloc, turn_run, plan, tasks, workers, turns)
}

/// Returns pending rows, one for each task.
pub(crate) fn new_rows(alloc: Global, plan: &Plan) -> Result<Vec<Option<Outcome>>, Memory>
    ensures rows { IfOk result (λ rows. length rows.items ≡ count_line plan.now) }
    ensures pending { IfOk result (λ rows. All (λ s. s ≡ None) rows.items) }
    ensures planned { IsPlan plan.now }
{
    // A proof about rows is made only if the type of a failure's fault is named.
    let _none: Option<Fault> = None;
    Ok(Vec::from_elem(alloc, None, plan.tasks() as usize)?)
}

/// Returns the report of a run, whose rows were reserved.
fn report_of(turn_run: &TurnRun, plan: &Plan, rows: Vec<Option<Outcome>>) -> Report
    requires plan { turn_run.now.table.plan ≡ roster_of plan.now }
    requires rows { length rows.items ≡ count_line plan.now }
    ensures { result.rows ≡ rows_of (count_line plan.now) (held turn_run.now.table) }
{
    let mut rows = rows;
    turn_run.read_rows(plan, &mut rows);
    Report {
        rows: ListOf::of(rows),
    }
}

/// The result of a run by turns: its report, how many stores answered Again, and the steps that
/// were to be noted.
#[derive(Drop)]
struct Ran {
    report: Report,
    repeats: u64,
    steps: Vec<NotedStep>,
}

/// How a run by turns goes, and which of its steps are noted.
#[derive(Clone, Copy)]
struct Schedule<'a> {
    workers: u32,
    turns: &'a [u32],
    again: &'a [(TaskNo, When)],
    keeps: Keeps,
    /// How many asks may be answered.
    steps: u128,
}

/// Runs a plan until `steps` asks are answered.
fn run_steps<T: Tasks>(
    alloc: Global,
    plan: &Plan,
    tasks: &T,
    schedule: &Schedule<'_>,
) -> Result<Ran, RunFault>
    requires { IsAsked schedule.now.workers schedule.now.turns.now }
    ensures ok { IfOk result (λ r. IsNotedWithin (T.behaviour tasks.now) plan.now
        schedule.now.workers schedule.now.turns.now schedule.now.again.now schedule.now.steps
        schedule.now.keeps r.report.rows r.repeats (map step_seen r.steps.items)) }
    ensures err { IfErr result (IsAgainFault (T.behaviour tasks.now) plan.now
        schedule.now.workers schedule.now.turns.now schedule.now.again.now schedule.now.steps) }
{
    let Schedule {
        workers,
        turns,
        again,
        keeps,
        steps,
    } = *schedule;
    let Ok(rows) = new_rows(alloc, plan) else {
        return Err(RunFault::halted(Cause::Memory));
    };
    let Ok(mut turn_run) = TurnRun::new(alloc, plan, workers, again, steps, keeps) else {
        return Err(RunFault::halted(Cause::Memory));
    };
    match run_through(alloc, &mut turn_run, plan, tasks, workers, turns) {
        Ok(()) => Ok(Ran {
            report: report_of(&turn_run, plan, rows),
            repeats: turn_run.repeats(),
            steps: turn_run.into_steps(),
        }),
        Err(cause) => Err(RunFault::Halted {
            cause,
            rows: Some(report_of(&turn_run, plan, rows)),
        }),
    }
}

fn are_turns(turns: &[u32], workers: u32) -> bool
    ensures { MatchBool result (AreTurns workers turns.now) (AreTurns workers turns.now → ⊥) }
{
    turns.iter().all(|turn| *turn >= 1 && *turn <= workers)
}

/// Checks the workers and the turns, then runs.
fn run_checked<T: Tasks>(
    alloc: Global,
    plan: &Plan,
    tasks: &T,
    schedule: &Schedule<'_>,
) -> Result<Ran, RunFault>
    ensures ok { IfOk result (λ r. IsAsked schedule.now.workers schedule.now.turns.now
        × IsNotedWithin (T.behaviour tasks.now) plan.now
        schedule.now.workers schedule.now.turns.now schedule.now.again.now schedule.now.steps
        schedule.now.keeps r.report.rows r.repeats (map step_seen r.steps.items)) }
    ensures err { IfErr result (IsAgainFault (T.behaviour tasks.now) plan.now
        schedule.now.workers schedule.now.turns.now schedule.now.again.now schedule.now.steps) }
{
    if schedule.workers < 1 || schedule.workers > MOST_WORKERS {
        return Err(RunFault::BadWorkers);
    }
    if are_turns(schedule.turns, schedule.workers) {
        run_steps(alloc, plan, tasks, schedule)
    } else {
        Err(RunFault::BadTurn)
    }
}

/// Returns one more than the most asks that a run of the plan may have.
///
/// With this bound no run is stopped: each task is published, taken, stored and its part returned
/// at most once, and in rotation one of each two rounds has such a call, until all have ended. The
/// bound is quadratic in the tasks, as `most_steps` is.
fn more_than_all(plan: &Plan, workers: u32, turns: &[u32], again: &[(TaskNo, When)]) -> u128
    ensures value { result
        ≡ suc (most_steps plan.now workers (length turns.now) (length again.now)) }
    ensures planned { IsPlan plan.now }
{
    let tasks = plan.tasks() as u128;
    let entries = again.len() as u128;
    let calls = product(tasks + 5, tasks + 1) + 4 * entries;
    turns.len() as u128 + product(2 * (calls + 1), workers as u128) + entries + 1
}

/// Multiplies. It is a function for its contract's sake: its bounds say that the product fits.
fn product(left: u128, right: u128) -> u128
    requires left { left < 2 ^ 80 }
    requires right { right < 2 ^ 40 }
    ensures value { result ≡ left * right }
    ensures small { result < 2 ^ 120 }
{
    left * right
}

/// Runs a plan with 1 to 16 workers on one thread. Each turn lets its worker have one ask answered;
/// after the list the workers take turns in rotation from 1, until all are at their ends. A worker
/// at its end skips its turn.
pub fn run_turns<T: Tasks>(
    alloc: Global,
    plan: &Plan,
    tasks: &T,
    workers: u32,
    turns: &[u32],
) -> Result<Report, RunFault>
    ensures ok { IfOk result (λ report. IsAsked workers turns.now
        × IsWholeRun (T.behaviour tasks.now) plan.now workers turns.now report.rows) }
    ensures err { IfErr result
        (IsRunFault workers turns.now (states (T.behaviour tasks.now) (tree_of plan.now))) }
{
    let (report, _again) = run_turns_again(alloc, plan, tasks, workers, turns, &[])?;
    Ok(report)
}

/// Like `run_turns`, but redelivers envelopes as `again` says: a worker whose message has reached a
/// point, before its first store or before its acknowledgement, spends the first unspent entry for
/// its task and that point, and publishes a clone of its envelope within the same turn, before its
/// ask is answered. An entry for a task that isn't run does nothing. Also returns how many stores
/// answered Again.
pub fn run_turns_again<T: Tasks>(
    alloc: Global,
    plan: &Plan,
    tasks: &T,
    workers: u32,
    turns: &[u32],
    again: &[(TaskNo, When)],
) -> Result<(Report, u64), RunFault>
    ensures ok { IfOk result (λ r. IsAsked workers turns.now
        × IsWholeAgain (T.behaviour tasks.now) plan.now workers turns.now again.now r.0.rows
        r.1) }
    ensures err { IfErr result
        (IsRunFault workers turns.now (states (T.behaviour tasks.now) (tree_of plan.now))) }
{
    let steps = more_than_all(plan, workers, turns, again);
    let schedule = Schedule {
        workers,
        turns,
        again,
        keeps: Keeps::Nothing,
        steps,
    };
    let ran = run_checked(alloc, plan, tasks, &schedule)?;
    Ok((ran.report, ran.repeats))
}

/// Like `run_turns`. Also returns a clone of each letter that was published, in their order: those
/// of the tasks that start at once, and what each turn published. They share their texts as the
/// run's own do.
pub fn run_turns_traced<T: Tasks>(
    alloc: Global,
    plan: &Plan,
    tasks: &T,
    workers: u32,
    turns: &[u32],
) -> Result<(Report, Vec<Letter>), RunFault>
    ensures ok { IfOk result (λ r. IsAsked workers turns.now
        × IsTraced (T.behaviour tasks.now) plan.now workers turns.now r.0.rows r.1.items) }
    ensures err { IfErr result
        (IsRunFault workers turns.now (states (T.behaviour tasks.now) (tree_of plan.now))) }
{
    let steps = more_than_all(plan, workers, turns, &[]);
    let schedule = Schedule {
        workers,
        turns,
        again: &[],
        keeps: Keeps::Published,
        steps,
    };
    let ran = run_checked(alloc, plan, tasks, &schedule)?;
    match letters_of(alloc, ran.steps) {
        Ok(letters) => Ok((ran.report, letters)),
        Err(_refused) => Err(RunFault::halted(Cause::Memory)),
    }
}

/// Like `run_turns_again`. Also returns the steps of the run, in their order: the first messages,
/// which worker 0 publishes, and then each step of a worker. Their letters share their texts as the
/// run's own do.
pub fn run_turns_stepped<T: Tasks>(
    alloc: Global,
    plan: &Plan,
    tasks: &T,
    workers: u32,
    turns: &[u32],
    again: &[(TaskNo, When)],
) -> Result<(Report, u64, Vec<NotedStep>), RunFault>
    ensures ok { IfOk result (λ r. IsAsked workers turns.now
        × IsStepped (T.behaviour tasks.now) plan.now workers turns.now again.now r.0.rows r.1
        (map step_seen r.2.items)) }
    ensures err { IfErr result
        (IsRunFault workers turns.now (states (T.behaviour tasks.now) (tree_of plan.now))) }
{
    let steps = more_than_all(plan, workers, turns, again);
    let schedule = Schedule {
        workers,
        turns,
        again,
        keeps: Keeps::All,
        steps,
    };
    let ran = run_checked(alloc, plan, tasks, &schedule)?;
    Ok((ran.report, ran.repeats, ran.steps))
}

/// Like `run_turns`, but is halted, as stopped, once `steps` asks have been answered and some
/// worker isn't at its end.
///
/// Takes that find nothing and rests count, though no history has them.
pub fn run_turns_within<T: Tasks>(
    alloc: Global,
    plan: &Plan,
    tasks: &T,
    workers: u32,
    turns: &[u32],
    steps: u64,
) -> Result<Report, RunFault>
    ensures ok { IfOk result (λ report. IsAsked workers turns.now
        × IsWholeWithin (T.behaviour tasks.now) plan.now workers turns.now steps report.rows) }
    ensures err { IfErr result
        (IsFaultWithin (T.behaviour tasks.now) plan.now workers turns.now steps) }
{
    let schedule = Schedule {
        workers,
        turns,
        again: &[],
        keeps: Keeps::Nothing,
        steps: steps as u128,
    };
    let ran = run_checked(alloc, plan, tasks, &schedule)?;
    Ok(ran.report)
}
