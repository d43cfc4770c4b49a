//! The tables that a plan keeps in addition to its line.
ghost use Rattle.std.specs.Prelude.{◌≡◌, ◌++◌, IfOk, map, OnOk};
ghost use Rattle.canvas_semantics.specs.Line.{ends_of, group_entries, in_group};
ghost use Rattle.canvas_rewrite.specs.FrozenView.{line_in, end_in};
ghost use Rattle.canvas_semantics.specs.steps.Numbering.{lines_ends, lines_group_entries};

use crate::group_list::GroupEntry;
use crate::{FrozenEnd, FrozenLine};
use canvas_task::{ListOf, TaskNo};
use std::alloc::{AllocError, Global};

/// Appends the tasks that the line ends in.
#[cycle(ends)]
pub(crate) fn push_ends(line: &FrozenLine, ends: &mut Vec<TaskNo>) -> Result<(), AllocError>
    ensures { OnOk result (ends.new.items ≡ ends.old.items ++ ends_of (line_in line.now)) }
{
    match &line.tail {
        Some(end) => push_end(end, ends),
        None => match line.tasks.get().last() {
            Some(task) => {
                ends.push(task.no)?;
                Ok(())
            }
            None => Ok(()),
        },
    }
}

#[cycle(ends)]
fn push_end(end: &FrozenEnd, ends: &mut Vec<TaskNo>) -> Result<(), AllocError>
    ensures { OnOk result (ends.new.items ≡ ends.old.items ++ ends_of (end_in end.now)) }
{
    match &end.body {
        Some(body) => push_ends(body, ends),
        None => push_all(end.members.get(), ends),
    }
}

#[cycle(ends)]
fn push_all(lines: &[FrozenLine], ends: &mut Vec<TaskNo>) -> Result<(), AllocError>
    ensures { OnOk result (ends.new.items ≡ ends.old.items ++ lines_ends (map line_in lines.now)) }
{
    for line in lines {
        push_ends(line, ends)?;
    }
    Ok(())
}

/// Returns whether the line ends in a group, or in a chord whose body does.
pub fn is_in_group(line: &FrozenLine) -> bool
    ensures { result ≡ in_group (line_in line.now) }
{
    match &line.tail {
        Some(end) => match &end.body {
            Some(body) => is_in_group(body),
            None => true,
        },
        None => false,
    }
}

/// Appends the groups and chords of the line, in file order.
#[cycle(groups)]
pub(crate) fn push_groups(
    alloc: Global,
    line: &FrozenLine,
    groups: &mut Vec<GroupEntry>,
) -> Result<(), AllocError>
    ensures { OnOk result (groups.new.items
        ≡ groups.old.items ++ group_entries (line_in line.now)) }
{
    match &line.tail {
        Some(end) => push_group(alloc, end, groups),
        None => Ok(()),
    }
}

#[cycle(groups)]
fn push_group(
    alloc: Global,
    end: &FrozenEnd,
    groups: &mut Vec<GroupEntry>,
) -> Result<(), AllocError>
    ensures { OnOk result (groups.new.items
        ≡ groups.old.items ++ group_entries (end_in end.now)) }
{
    let mut members = Vec::new(alloc);
    push_all(end.members.get(), &mut members)?;
    match &end.body {
        Some(body) => {
            groups.push(GroupEntry {
                chord: true,
                members: ListOf::of(members),
            })?;
            push_all_groups(alloc, end.members.get(), groups)?;
            push_groups(alloc, body, groups)
        }
        None => {
            groups.push(GroupEntry {
                chord: false,
                members: ListOf::of(members),
            })?;
            push_all_groups(alloc, end.members.get(), groups)
        }
    }
}

#[cycle(groups)]
fn push_all_groups(
    alloc: Global,
    lines: &[FrozenLine],
    groups: &mut Vec<GroupEntry>,
) -> Result<(), AllocError>
    ensures { OnOk result (groups.new.items
        ≡ groups.old.items ++ lines_group_entries (map line_in lines.now)) }
{
    for line in lines {
        push_groups(alloc, line, groups)?;
    }
    Ok(())
}
