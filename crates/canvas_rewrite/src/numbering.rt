//! Numbering a line in file order. The parts of the line are moved, and none is cloned.
ghost use Rattle.std.specs.Prelude.{◌≡◌, ◌≤◌, ◌+◌, IfOk, OnOk, map};
ghost use Rattle.canvas_semantics.specs.Tree.{count_task, number_task};
ghost use Rattle.canvas_values.specs.SignatureView.{task_view, tasks_of};
ghost use Rattle.canvas_semantics.specs.Line.{count_line, line_groups, number_line};
ghost use Rattle.canvas_semantics.specs.PlacedLine.{bare, bare_task};
ghost use Rattle.canvas_rewrite.specs.FrozenView.{line_of, end_of, lines_of, p_task_view, p_line_view, p_end_view};
ghost use Rattle.canvas_rewrite.specs.Utf8.{IsUtf8Task, AreUtf8Tasks, IsUtf8Line, AreUtf8Lines};
ghost use Rattle.canvas_semantics.specs.steps.Numbering.{greatest_number, tasks_from, tasks_in, lines_from, lines_count, lines_group_count, HasRoom};

use crate::texts::read_call;
use crate::{FrozenEnd, FrozenLine, FrozenTask, Line, LineEnd};
use canvas_task::{GroupNo, ListOf, TaskNo};
use canvas_values::TaskSig;
use std::alloc::{AllocError, Global};

pub(crate) fn task_no(number: u32) -> TaskNo
    requires { 1 ≤ number }
    ensures { result ≡ number }
{
    TaskNo::new(number).unwrap()
}

pub(crate) fn group_no(number: u32) -> GroupNo
    requires { 1 ≤ number }
    ensures { result ≡ number }
{
    GroupNo::new(number).unwrap()
}

/// Numbers a task from `next`, and advances `next` past its last number.
#[cycle(tasks)]
#[tactic(auto, using(crate::proofs::FrozenViews::task_counted))]
fn freeze_task(alloc: Global, sig: TaskSig, next: &mut u32) -> Result<FrozenTask, AllocError>
    requires first { 1 ≤ next.old }
    requires few { next.old + count_task (task_view sig) ≤ greatest_number }
    ensures value { IfOk result
        (λ t. p_task_view t ≡ bare_task (number_task next.old (task_view sig))) }
    ensures next { IfOk result (λ _. next.new ≡ next.old + count_task (task_view sig)) }
    ensures utf8 { OnOk result (IsUtf8Task (task_view sig)) }
{
    // Only for the proof: a text that is read is known to be UTF-8.
    read_call(&sig);
    let no = task_no(*next);
    *next += 1;
    let TaskSig {
        name,
        args,
        kwargs,
        immutable,
        links,
        errbacks,
    } = sig;
    let links = freeze_tasks(alloc, links.into_plain(), next)?;
    let errbacks = freeze_tasks(alloc, errbacks.into_plain(), next)?;
    Ok(FrozenTask {
        no,
        name,
        args,
        kwargs,
        immutable,
        links: ListOf::of(links),
        errbacks: ListOf::of(errbacks),
        place: None,
    })
}

#[cycle(tasks)]
fn freeze_tasks(
    alloc: Global,
    sigs: Vec<TaskSig>,
    next: &mut u32,
) -> Result<Vec<FrozenTask>, AllocError>
    requires first { 1 ≤ next.old }
    requires few { next.old + tasks_in (map task_view sigs.items) ≤ greatest_number }
    ensures value { IfOk result
        (λ ts. map p_task_view ts.items ≡ tasks_from next.old (map task_view sigs.items)) }
    ensures next { IfOk result (λ _. next.new ≡ next.old + tasks_in (map task_view sigs.items)) }
    ensures utf8 { OnOk result (AreUtf8Tasks (tasks_of (map task_view sigs.items))) }
{
    let mut frozen = Vec::with_capacity(alloc, sigs.len())?;
    for sig in sigs {
        frozen.push(freeze_task(alloc, sig, next)?)?;
    }
    Ok(frozen)
}

/// Numbers the tasks of a line from `task` and its groups and chords from `group`, and advances
/// both past its last numbers.
#[cycle(lines)]
pub(crate) fn freeze_line(
    alloc: Global,
    line: Line,
    task: &mut u32,
    group: &mut u32,
) -> Result<FrozenLine, AllocError>
    requires { HasRoom task.old group.old (count_line (line_of line)) (line_groups (line_of line)) }
    ensures value { IfOk result
        (λ l. p_line_view l ≡ bare (number_line task.old group.old (line_of line))) }
    ensures task { IfOk result (λ _. task.new ≡ task.old + count_line (line_of line)) }
    ensures group { IfOk result (λ _. group.new ≡ group.old + line_groups (line_of line)) }
    ensures utf8 { OnOk result (IsUtf8Line (line_of line)) }
{
    let Line { tasks, tail } = line;
    let tasks = ListOf::of(freeze_tasks(alloc, tasks.into_plain(), task)?);
    match tail {
        None => Ok(FrozenLine { tasks, tail: None }),
        Some(end) => {
            let end = freeze_end(alloc, Box::into_inner(end), task, group)?;
            let tail = Box::new(alloc, end)?;
            Ok(FrozenLine {
                tasks,
                tail: Some(tail),
            })
        }
    }
}

#[cycle(lines)]
fn freeze_end(
    alloc: Global,
    end: LineEnd,
    task: &mut u32,
    group: &mut u32,
) -> Result<FrozenEnd, AllocError>
    requires { HasRoom task.old group.old (count_line (end_of end)) (line_groups (end_of end)) }
    ensures value { IfOk result
        (λ e. p_end_view e ≡ bare (number_line task.old group.old (end_of end))) }
    ensures task { IfOk result (λ _. task.new ≡ task.old + count_line (end_of end)) }
    ensures group { IfOk result (λ _. group.new ≡ group.old + line_groups (end_of end)) }
    ensures utf8 { OnOk result (IsUtf8Line (end_of end)) }
{
    let number = group_no(*group);
    *group += 1;
    let LineEnd { members, body } = end;
    let members = ListOf::of(freeze_lines(alloc, members.into_plain(), task, group)?);
    match body {
        None => Ok(FrozenEnd {
            group: number,
            members,
            body: None,
        }),
        Some(body) => {
            let body = freeze_line(alloc, body, task, group)?;
            Ok(FrozenEnd {
                group: number,
                members,
                body: Some(body),
            })
        }
    }
}

#[cycle(lines)]
fn freeze_lines(
    alloc: Global,
    lines: Vec<Line>,
    task: &mut u32,
    group: &mut u32,
) -> Result<Vec<FrozenLine>, AllocError>
    requires { HasRoom task.old group.old (lines_count (map line_of lines.items))
        (lines_group_count (map line_of lines.items)) }
    ensures value { IfOk result
        (λ ls. map p_line_view ls.items ≡ lines_from task.old group.old (map line_of lines.items)) }
    ensures task { IfOk result (λ _. task.new ≡ task.old + lines_count (map line_of lines.items)) }
    ensures group { IfOk result
        (λ _. group.new ≡ group.old + lines_group_count (map line_of lines.items)) }
    ensures utf8 { OnOk result (AreUtf8Lines (lines_of (map line_of lines.items))) }
{
    let mut frozen = Vec::with_capacity(alloc, lines.len())?;
    for line in lines {
        frozen.push(freeze_line(alloc, line, task, group)?)?;
    }
    Ok(frozen)
}
