//! The failure rules for results that Celery stored: tasks that a failure reaches and that Celery
//! leaves pending.
//!
//! Only lines, groups and chords are walked: no failure skips a link or an error callback, so
//! nothing after them has to be filled in. A failure flows as the number of the task that has it,
//! and its row is cloned for each row that it fills. So one walk serves the engine's own outcomes
//! and exceptions of any class. An exception of another class is known only by its class.

ghost use Rattle.std.specs.Prelude.{◌≡◌, ◌≢◌, ◌<◌, ◌-◌, ℕ, List, length, map, get_or, Some};
ghost use Rattle.std.specs.Prelude.{MatchBool, IfOk, OnOk};
ghost use Rattle.canvas_task.specs.declared.outcome.Outcome.TheVariants.{Failure};
ghost use Rattle.canvas_task.specs.declared.outcome.Fault.TheVariants as chord;
ghost use Rattle.canvas_semantics.specs.Evaluation.{State, why_of};
ghost use Rattle.canvas_semantics.specs.Line.{Line, step, members};
ghost use Rattle.canvas_rewrite.specs.FrozenView.{task_in, line_in, end_in, lines_of, steps_onto};
ghost use Rattle.canvas_report.specs.declared.row.Row.TheVariants.{Known};
ghost use Rattle.canvas_celery.specs.Completed.{Completes};
ghost use Rattle.canvas_celery.specs.Completing.{passed, after, same_failure, chord_failure, put, reached};
ghost use Rattle.canvas_celery.specs.Completing.{gathered_on, gathered_from, into_body, completed, all_completed, plan_completed};
ghost use Rattle.canvas_celery.specs.FilledRows.{pending, IsFilling, AreFilled};
ghost use Rattle.canvas_celery.specs.Looks.{Look, look, looks, look_at};
ghost use Rattle.canvas_celery.specs.declared.results.completing.Flow.TheVariants.{Value, Skip};
ghost use Rattle.canvas_celery.specs.steps.Asked.{look_of};

use canvas_report::Row;
use canvas_rewrite::{FrozenEnd, FrozenLine, FrozenTask, Plan};
use canvas_task::{Fault, GroupNo, Memory, Outcome, TaskNo, Why};
use std::alloc::AllocError;

/// The flow into the next element of a line.
#[derive(Clone, Copy)]
enum Flow {
    /// A result: what follows was called.
    Value,
    /// The failure of this task, for which what follows is skipped.
    Skip(TaskNo),
    /// A ChordError that names this task, and is raised in the body of a header.
    Raise(TaskNo),
    /// Nothing yet.
    Pending,
}

/// Returns the flow out of a task that has this row.
fn flow_of(row: &Row, task: TaskNo) -> Flow
    ensures { result ≡ passed task (look row.now) }
{
    match row {
        Row::Known(None) => Flow::Pending,
        Row::Known(Some(Outcome::Success(_))) => Flow::Value,
        Row::Known(Some(Outcome::Failure(_))) => Flow::Skip(task),
        Row::Value(_) => Flow::Value,
        Row::Raised(_) => Flow::Skip(task),
        Row::Blamed { .. } => Flow::Skip(task),
    }
}

/// Returns the row of a task, if it is there.
fn row_at(rows: &[Row], task: TaskNo) -> Option<&Row>
    ensures { look_of result ≡ look_at (looks rows.now) task }
{
    rows.get(task.get() as usize - 1)
}

/// Returns the flow out of a task, by its row.
fn passed_on(rows: &[Row], task: TaskNo) -> Flow
    ensures { result ≡ passed task (look_at (looks rows.now) task) }
{
    match row_at(rows, task) {
        Some(row) => flow_of(row, task),
        None => Flow::Pending,
    }
}

/// Returns a clone of the failure of a row; pending if it has none.
fn same_row(row: &Row) -> Result<Row, AllocError>
    ensures { IfOk result (λ made. look made ≡ same_failure (look row.now)) }
{
    match row {
        Row::Known(Some(Outcome::Failure(fault))) => {
            Ok(Row::Known(Some(Outcome::Failure(*fault))))
        }
        Row::Raised(name) => Ok(Row::Raised(name.clone()?)),
        Row::Blamed { dep, name } => Ok(Row::Blamed {
            dep: *dep,
            name: name.clone()?,
        }),
        Row::Known(None) => Ok(Row::Known(None)),
        Row::Known(Some(Outcome::Success(_))) => Ok(Row::Known(None)),
        Row::Value(_) => Ok(Row::Known(None)),
    }
}

fn chord_fault(dep: TaskNo, why: Why) -> Row
    ensures { result ≡ Known (Some (Failure (chord.Chord dep why))) }
{
    Row::Known(Some(Outcome::Failure(Fault::Chord { dep, why })))
}

fn why_of(fault: &Fault) -> Why
    ensures { result ≡ why_of fault.now }
{
    match fault {
        Fault::Plain(kind) => Why::Plain(*kind),
        Fault::Chord { .. } => Why::Chord,
    }
}

/// Returns the ChordError that names a task with this row; pending if it has no failure.
fn chord_row(dep: TaskNo, row: &Row) -> Result<Row, AllocError>
    ensures { IfOk result (λ made. look made ≡ chord_failure dep (look row.now)) }
{
    match row {
        Row::Known(Some(Outcome::Failure(fault))) => Ok(chord_fault(dep, why_of(fault))),
        Row::Raised(name) => Ok(Row::Blamed {
            dep,
            name: name.clone()?,
        }),
        Row::Blamed { .. } => Ok(chord_fault(dep, Why::Chord)),
        Row::Known(None) => Ok(Row::Known(None)),
        Row::Known(Some(Outcome::Success(_))) => Ok(Row::Known(None)),
        Row::Value(_) => Ok(Row::Known(None)),
    }
}

/// Returns the failure that a task passes on to those after it.
fn skipping(rows: &[Row], task: TaskNo) -> Result<Row, AllocError>
    ensures { IfOk result (λ made. look made ≡ same_failure (look_at (looks rows.now) task)) }
{
    match row_at(rows, task) {
        Some(row) => same_row(row),
        None => Ok(Row::Known(None)),
    }
}

/// Returns the ChordError of a body whose header failed in this task.
fn raising(rows: &[Row], task: TaskNo) -> Result<Row, AllocError>
    ensures { IfOk result
        (λ made. look made ≡ chord_failure task (look_at (looks rows.now) task)) }
{
    match row_at(rows, task) {
        Some(row) => chord_row(task, row),
        None => Ok(Row::Known(None)),
    }
}

fn is_pending(row: &Row) -> bool
    ensures { MatchBool result (row.now ≡ pending) (look row.now ≢ look pending) }
{
    matches!(row, Row::Known(None))
}

/// Returns whether a task has a row that is pending.
fn is_open(rows: &[Row], task: TaskNo) -> bool
    ensures { MatchBool result
        ((task - 1 < length rows.now) × (get_or rows.now (task - 1) pending ≡ pending))
        ((x : Look) → put (looks rows.now) (task - 1) x ≡ looks rows.now) }
{
    let index = task.get() as usize - 1;
    if index < rows.len() {
        is_pending(&rows[index])
    } else {
        false
    }
}

/// Replaces the row of a task that is pending.
#[tactic(auto, using(crate::proofs::Collected::FilledRows::filled))]
fn put_row(rows: &mut [Row], task: TaskNo, row: Row)
    requires there { task - 1 < length rows.now }
    requires open { get_or rows.now (task - 1) pending ≡ pending }
    requires filling { IsFilling row }
    ensures filled { AreFilled rows.old rows.new }
    ensures looks { looks rows.new ≡ put (looks rows.old) (task - 1) (look row) }
{
    rows[task.get() as usize - 1] = row;
}

/// Gives a task into which this flows its failure, if its row is pending.
#[tactic(auto, using(crate::proofs::Collected::FilledRows::filled))]
fn fill(rows: &mut [Row], task: TaskNo, flow: &Flow) -> Result<(), AllocError>
    ensures filled { AreFilled rows.old rows.new }
    ensures reached { OnOk result (looks rows.new ≡ reached flow.now task (looks rows.old)) }
{
    match flow {
        Flow::Value => Ok(()),
        Flow::Skip(dep) => {
            if is_open(rows, task) {
                put_row(rows, task, skipping(rows, *dep)?);
            }
            Ok(())
        }
        Flow::Raise(dep) => {
            if is_open(rows, task) {
                put_row(rows, task, raising(rows, *dep)?);
            }
            Ok(())
        }
        Flow::Pending => Ok(()),
    }
}

/// Returns the flow after a task into which this flowed.
fn behind(rows: &[Row], task: TaskNo, flow: &Flow) -> Flow
    ensures { result ≡ after flow.now task (look_at (looks rows.now) task) }
{
    match flow {
        Flow::Pending => Flow::Pending,
        Flow::Value => passed_on(rows, task),
        Flow::Skip(_) => passed_on(rows, task),
        Flow::Raise(_) => passed_on(rows, task),
    }
}

/// Fills the row of a task into which this flows. Returns the flow out of it.
#[tactic(auto, using(crate::proofs::Collected::FilledRows::filled))]
fn complete_task(rows: &mut [Row], task: &FrozenTask, flow: &Flow) -> Result<Flow, AllocError>
    ensures filled { AreFilled rows.old rows.new }
    ensures completed { IfOk result (λ next. (table : ℕ → List ℕ) (rest : Line)
        → completed table (step (task_in task.now) rest) flow.now (looks rows.old)
        ≡ completed table rest next (looks rows.new)) }
{
    fill(rows, task.no, flow)?;
    Ok(behind(rows, task.no, flow))
}

/// Fills the rows of some tasks. Returns the flow after them.
#[tactic(auto, using(crate::proofs::Collected::FilledRows::filled))]
fn complete_tasks(rows: &mut [Row], tasks: &[FrozenTask], flow: Flow) -> Result<Flow, AllocError>
    ensures filled { AreFilled rows.old rows.new }
    ensures completed { IfOk result (λ last. (table : ℕ → List ℕ) (rest : Line)
        → completed table (steps_onto (map task_in tasks.now) rest) flow (looks rows.old)
        ≡ completed table rest last (looks rows.new)) }
{
    let mut last = flow;
    for task in tasks {
        last = complete_task(rows, task, &last)?;
    }
    Ok(last)
}

/// Returns the flow of some members and one more.
fn gathered_on(flow: Flow, next: Flow) -> Flow
    ensures { result ≡ gathered_on flow next }
{
    match next {
        Flow::Pending => Flow::Pending,
        Flow::Value => flow,
        Flow::Skip(task) => first_failure(flow, task),
        Flow::Raise(_) => flow,
    }
}

/// Returns the flow of some members and one more that failed.
fn first_failure(flow: Flow, task: TaskNo) -> Flow
    ensures { result ≡ gathered_on flow (Skip task) }
{
    match flow {
        Flow::Value => Flow::Raise(task),
        Flow::Skip(first) => Flow::Skip(first),
        Flow::Raise(first) => Flow::Raise(first),
        Flow::Pending => Flow::Pending,
    }
}

/// Returns the flow of the last tasks of a header's members.
fn gathered(rows: &[Row], lasts: &[TaskNo]) -> Flow
    ensures { result ≡ gathered_from Value lasts.now (looks rows.now) }
{
    let mut flow = Flow::Value;
    for last in lasts {
        flow = gathered_on(flow, passed_on(rows, *last));
    }
    flow
}

fn header_flow(plan: &Plan, rows: &[Row], group: GroupNo, flow: &Flow) -> Flow
    ensures { result ≡ into_body flow.now (members plan.now group) (looks rows.now) }
{
    let members = plan.members(group);
    if members.is_empty() {
        return *flow;
    }
    match flow {
        Flow::Value => gathered(rows, members),
        Flow::Skip(task) => Flow::Skip(*task),
        Flow::Raise(_) => gathered(rows, members),
        Flow::Pending => Flow::Pending,
    }
}

#[cycle(lines)]
#[tactic(auto, using(crate::proofs::Collected::FilledRows::filled))]
fn complete_all(
    plan: &Plan,
    rows: &mut [Row],
    lines: &[FrozenLine],
    flow: &Flow,
) -> Result<(), AllocError>
    ensures filled { AreFilled rows.old rows.new }
    ensures completed { OnOk result (looks rows.new ≡ all_completed (λ g. members plan.now g)
        (lines_of (map line_in lines.now)) flow.now (looks rows.old)) }
{
    for line in lines {
        complete_line(plan, rows, line, flow)?;
    }
    Ok(())
}

#[cycle(lines)]
#[tactic(auto, using(crate::proofs::Collected::FilledRows::filled))]
fn complete_end(
    plan: &Plan,
    rows: &mut [Row],
    end: &FrozenEnd,
    flow: &Flow,
) -> Result<(), AllocError>
    ensures filled { AreFilled rows.old rows.new }
    ensures completed { OnOk result (looks rows.new
        ≡ completed (λ g. members plan.now g) (end_in end.now) flow.now (looks rows.old)) }
{
    complete_all(plan, rows, end.members.get(), flow)?;
    match &end.body {
        Some(body) => {
            let into = header_flow(plan, rows, end.group, flow);
            complete_line(plan, rows, body, &into)
        }
        None => Ok(()),
    }
}

#[cycle(lines)]
#[tactic(auto, using(crate::proofs::Collected::FilledRows::filled))]
fn complete_line(
    plan: &Plan,
    rows: &mut [Row],
    line: &FrozenLine,
    flow: &Flow,
) -> Result<(), AllocError>
    ensures filled { AreFilled rows.old rows.new }
    ensures completed { OnOk result (looks rows.new
        ≡ completed (λ g. members plan.now g) (line_in line.now) flow.now (looks rows.old)) }
{
    let last = complete_tasks(rows, line.tasks.get(), *flow)?;
    match &line.tail {
        Some(end) => complete_end(plan, rows, end, &last),
        None => Ok(()),
    }
}

/// Gives each pending task that a failure reaches its failure: that of the task to blame, or in the
/// body of a chord a ChordError that names the first member that failed, with its class. For
/// outcomes that the engine's own tasks have, these are what evaluating the canvas gives, if each
/// task that was called has its row. If memory is refused, some rows may be filled.
#[tactic(auto, using(crate::proofs::Collected::FilledRows::filled))]
pub fn complete(plan: &Plan, rows: &mut [Row]) -> Result<(), Memory>
    ensures filled { AreFilled rows.old rows.new }
    ensures completed { OnOk result (looks rows.new ≡ plan_completed plan.now (looks rows.old)) }
    ensures known { OnOk result ((old : List State) → rows.old ≡ map (λ s. Known s) old
        → (new : List State) × (rows.new ≡ map (λ s. Known s) new)
        × Completes plan.now old new) }
{
    complete_line(plan, rows, plan.line(), &Flow::Value)?;
    Ok(())
}
