//! The chords whose headers start at once.

ghost use Rattle.std.specs.Prelude.{◌≡◌, ◌++◌, OnOk, map};
ghost use Rattle.canvas_rewrite.specs.FrozenView.{p_line_view, p_end_view, p_lines_of};
ghost use Rattle.canvas_celery.specs.Starting.{starting, all_starting};
ghost use Rattle.canvas_celery.specs.steps.Sizes.{size_view};

use canvas_rewrite::{FrozenEnd, FrozenLine};
use canvas_task::GroupNo;
use std::alloc::AllocError;

/// A chord and the number of members of its header.
#[derive(Clone, Copy)]
pub(crate) struct Size {
    pub(crate) group: GroupNo,
    pub(crate) members: usize,
}

/// Appends the sizes of the chords that start when the line starts, in file order.
#[cycle(starting)]
pub(crate) fn push_sizes(line: &FrozenLine, sizes: &mut Vec<Size>) -> Result<(), AllocError>
    ensures { OnOk result (map size_view sizes.new.items
        ≡ map size_view sizes.old.items ++ starting (p_line_view line.now)) }
{
    let tasks = line.tasks.get().as_slice();
    if tasks.is_empty() {
        match &line.tail {
            Some(end) => push_end(end, sizes),
            None => Ok(()),
        }
    } else {
        Ok(())
    }
}

#[cycle(starting)]
fn push_end(end: &FrozenEnd, sizes: &mut Vec<Size>) -> Result<(), AllocError>
    ensures { OnOk result (map size_view sizes.new.items
        ≡ map size_view sizes.old.items ++ starting (p_end_view end.now)) }
{
    let members = end.members.get().as_slice();
    match &end.body {
        Some(body) => {
            if members.is_empty() {
                return push_sizes(body, sizes);
            }
            sizes.push(Size {
                group: end.group,
                members: members.len(),
            })?;
            push_all(members, sizes)
        }
        None => push_all(members, sizes),
    }
}

#[cycle(starting)]
fn push_all(lines: &[FrozenLine], sizes: &mut Vec<Size>) -> Result<(), AllocError>
    ensures { OnOk result (map size_view sizes.new.items ≡ map size_view sizes.old.items
        ++ all_starting (p_lines_of (map p_line_view lines.now))) }
{
    for line in lines {
        push_sizes(line, sizes)?;
    }
    Ok(())
}
