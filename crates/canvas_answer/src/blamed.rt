//! The parameters that make calls of a run TypeErrors.
ghost use Rattle.std.specs.Prelude.{◌≡◌, ◌++◌, IfOk, OnOk, map, option_map, string_bytes};
ghost use Rattle.canvas_report.specs.Fates.{fate_at};
ghost use Rattle.canvas_rewrite.specs.FrozenView.{end_in, line_in, task_in};
ghost use Rattle.canvas_rewrite.specs.declared.frozen.FrozenTask.{out-FrozenTask};
ghost use Rattle.canvas_answer.specs.Blamed.{AreBlames, blame, blame_said, blames, builtin_done, builtin_of, is_bad_call, is_called, line_blames, own_blames, task_blames};
ghost use Rattle.canvas_answer.specs.steps.BlamedLists.{call_in, callbacks_blames, chain_blames, input_after, lines_blames_of, tail_blames};

use crate::stubs::stub_named;
use canvas_adapt::{Does, Stub};
use canvas_check::{Blame, Input, blamed};
use canvas_report::{Fate, Report, state_in};
use canvas_rewrite::{FrozenEnd, FrozenLine, FrozenTask, Plan};
use canvas_task::{Builtin, Fault, Kind, Outcome, TaskNo};
use std::alloc::{AllocError, Global};

/// Returns the built-in task that a stub does as.
fn builtin_done(does: Option<Does>) -> Option<Builtin>
    ensures { result ≡ builtin_done does }
{
    match does {
        Some(Does::SameAs(task)) => Some(task),
        _ => None,
    }
}

/// Returns the built-in task that answers the calls of a name: that of the name's stub, or the task
/// of the name, or that of the stub `*`.
pub(crate) fn builtin_of(stubs: &[Stub], name: &str) -> Option<Builtin>
    ensures { result ≡ builtin_of stubs.now name.now }
{
    if let Some(does) = stub_named(stubs, name) {
        return builtin_done(Some(does));
    }
    match Builtin::named(name) {
        Some(task) => Some(task),
        None => builtin_done(stub_named(stubs, "*")),
    }
}

/// Returns whether a task was called.
fn is_called(fates: &[(TaskNo, Fate)], task: TaskNo) -> bool
    ensures { result ≡ is_called (fate_at fates.now task) }
{
    match fates.get(task.get() as usize - 1) {
        Some((_, Fate::Ran)) => true,
        _ => false,
    }
}

/// Returns whether a task was called and its call is a TypeError.
fn is_bad_call(report: &Report, fates: &[(TaskNo, Fate)], task: TaskNo) -> bool
    ensures { result ≡ is_bad_call fates.now report.now.rows task }
{
    is_called(fates, task)
        && matches!(
            state_in(report.rows.get(), task),
            Some(Outcome::Failure(Fault::Plain(Kind::BadCall)))
        )
}

fn parameter_of(alloc: Global, blame: Option<Blame<'_>>) -> Result<Option<String>, AllocError>
    ensures { IfOk result (λ name. option_map (λ n. string_bytes n) name
        ≡ option_map (λ b. b.parameter.now) blame.entry) }
{
    match blame {
        Some(blame) => Ok(Some(String::from_str(alloc, blame.parameter)?)),
        None => Ok(None),
    }
}

/// Returns the parameter that makes a task's call a TypeError with this before its own arguments,
/// if there is one; None if no built-in task answers the call.
fn blame_of(
    alloc: Global,
    stubs: &[Stub],
    task: &FrozenTask,
    input: Input,
) -> Result<Option<Option<String>>, AllocError>
    ensures { IfOk result (λ found. option_map (λ p. option_map (λ n. string_bytes n) p) found
        ≡ blame stubs.now (call_in (task_in task.now)) input) }
{
    let Some(builtin) = builtin_of(stubs, task.name.get()) else {
        return Ok(None);
    };
    let input = if task.immutable {
        Input::Nothing
    } else {
        input
    };
    let blame = blamed(alloc, builtin, &task.args, &task.kwargs, input)?;
    Ok(Some(parameter_of(alloc, blame)?))
}

/// Appends a task itself, if its call is a TypeError.
fn push_own(
    alloc: Global,
    stubs: &[Stub],
    report: &Report,
    fates: &[(TaskNo, Fate)],
    task: &FrozenTask,
    input: Input,
    found: &mut Vec<(TaskNo, Option<String>)>,
) -> Result<(), AllocError>
    ensures { OnOk result (map blame_said found.new.items ≡ map blame_said found.old.items
        ++ own_blames stubs.now (is_bad_call fates.now report.now.rows) (out-FrozenTask task.now).no
        (call_in (task_in task.now)) input) }
{
    if !is_bad_call(report, fates, task.no) {
        return Ok(());
    }
    if let Some(parameter) = blame_of(alloc, stubs, task, input)? {
        found.push((task.no, parameter))?;
    }
    Ok(())
}

/// Appends those of a task, its links and its error callbacks.
#[cycle(tasks)]
fn push_task(
    alloc: Global,
    stubs: &[Stub],
    report: &Report,
    fates: &[(TaskNo, Fate)],
    task: &FrozenTask,
    input: Input,
    found: &mut Vec<(TaskNo, Option<String>)>,
) -> Result<(), AllocError>
    ensures { OnOk result (map blame_said found.new.items ≡ map blame_said found.old.items
        ++ task_blames stubs.now (is_bad_call fates.now report.now.rows) (task_in task.now)
        input) }
{
    push_own(alloc, stubs, report, fates, task, input, found)?;
    push_callbacks(
        alloc,
        stubs,
        report,
        fates,
        task.links.get(),
        Input::Number,
        found,
    )?;
    push_callbacks(
        alloc,
        stubs,
        report,
        fates,
        task.errbacks.get(),
        Input::Identifier,
        found,
    )
}

#[cycle(tasks)]
fn push_callbacks(
    alloc: Global,
    stubs: &[Stub],
    report: &Report,
    fates: &[(TaskNo, Fate)],
    tasks: &[FrozenTask],
    input: Input,
    found: &mut Vec<(TaskNo, Option<String>)>,
) -> Result<(), AllocError>
    ensures { OnOk result (map blame_said found.new.items ≡ map blame_said found.old.items
        ++ callbacks_blames stubs.now (is_bad_call fates.now report.now.rows)
        (map task_in tasks.now) input) }
{
    for task in tasks {
        push_task(alloc, stubs, report, fates, task, input, found)?;
    }
    Ok(())
}

/// Appends those of the tasks before a line's group or chord. Returns what comes after them.
fn push_tasks(
    alloc: Global,
    stubs: &[Stub],
    report: &Report,
    fates: &[(TaskNo, Fate)],
    tasks: &[FrozenTask],
    input: Input,
    found: &mut Vec<(TaskNo, Option<String>)>,
) -> Result<Input, AllocError>
    ensures pushed { OnOk result (map blame_said found.new.items ≡ map blame_said found.old.items
        ++ chain_blames stubs.now (is_bad_call fates.now report.now.rows)
        (map task_in tasks.now) input) }
    ensures after { IfOk result (λ i. i ≡ input_after (map task_in tasks.now) input) }
{
    let mut comes = input;
    for task in tasks {
        push_task(alloc, stubs, report, fates, task, comes, found)?;
        comes = Input::Number;
    }
    Ok(comes)
}

#[cycle(lines)]
fn push_line(
    alloc: Global,
    stubs: &[Stub],
    report: &Report,
    fates: &[(TaskNo, Fate)],
    line: &FrozenLine,
    input: Input,
    found: &mut Vec<(TaskNo, Option<String>)>,
) -> Result<(), AllocError>
    ensures { OnOk result (map blame_said found.new.items ≡ map blame_said found.old.items
        ++ line_blames stubs.now (is_bad_call fates.now report.now.rows) (line_in line.now)
        input) }
{
    let comes = push_tasks(alloc, stubs, report, fates, line.tasks.get(), input, found)?;
    push_tail(alloc, stubs, report, fates, &line.tail, comes, found)
}

/// Appends those of the group or chord that a line ends in, if it does.
#[cycle(lines)]
fn push_tail(
    alloc: Global,
    stubs: &[Stub],
    report: &Report,
    fates: &[(TaskNo, Fate)],
    tail: &Option<Box<FrozenEnd>>,
    input: Input,
    found: &mut Vec<(TaskNo, Option<String>)>,
) -> Result<(), AllocError>
    ensures { OnOk result (map blame_said found.new.items ≡ map blame_said found.old.items
        ++ tail_blames stubs.now (is_bad_call fates.now report.now.rows) tail.now input) }
{
    match tail {
        Some(end) => push_end(alloc, stubs, report, fates, end, input, found),
        None => Ok(()),
    }
}

#[cycle(lines)]
fn push_end(
    alloc: Global,
    stubs: &[Stub],
    report: &Report,
    fates: &[(TaskNo, Fate)],
    end: &FrozenEnd,
    input: Input,
    found: &mut Vec<(TaskNo, Option<String>)>,
) -> Result<(), AllocError>
    ensures { OnOk result (map blame_said found.new.items ≡ map blame_said found.old.items
        ++ line_blames stubs.now (is_bad_call fates.now report.now.rows) (end_in end.now)
        input) }
{
    push_lines(alloc, stubs, report, fates, end.members.get(), input, found)?;
    match &end.body {
        Some(body) => push_line(alloc, stubs, report, fates, body, Input::Numbers, found),
        None => Ok(()),
    }
}

#[cycle(lines)]
fn push_lines(
    alloc: Global,
    stubs: &[Stub],
    report: &Report,
    fates: &[(TaskNo, Fate)],
    lines: &[FrozenLine],
    input: Input,
    found: &mut Vec<(TaskNo, Option<String>)>,
) -> Result<(), AllocError>
    ensures { OnOk result (map blame_said found.new.items ≡ map blame_said found.old.items
        ++ lines_blames_of stubs.now (is_bad_call fates.now report.now.rows)
        (map line_in lines.now) input) }
{
    for line in lines {
        push_line(alloc, stubs, report, fates, line, input, found)?;
    }
    Ok(())
}

/// Returns the tasks of a run whose call is a TypeError, if a built-in task answers it, each with
/// the parameter that is at fault, if there is one.
pub(crate) fn blamed_in_run(
    alloc: Global,
    stubs: &[Stub],
    plan: &Plan,
    report: &Report,
    fates: &[(TaskNo, Fate)],
) -> Result<Vec<(TaskNo, Option<String>)>, AllocError>
    ensures { IfOk result (λ found. AreBlames
        (blames stubs.now fates.now report.now.rows plan.now) found.items) }
{
    let mut found = Vec::new(alloc);
    push_line(
        alloc,
        stubs,
        report,
        fates,
        plan.line(),
        Input::Nothing,
        &mut found,
    )?;
    Ok(found)
}
