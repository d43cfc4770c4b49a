//! Cloning lines.
ghost use Rattle.std.specs.Prelude.{◌≡◌, IfOk, map};
ghost use Rattle.canvas_rewrite.specs.FrozenView.{line_of, end_of};

use crate::{Line, LineEnd};
use canvas_task::ListOf;
use canvas_values::copy_sigs;
use std::alloc::{AllocError, Global};

/// Clones a line, with everything in it.
#[cycle(copy)]
pub(crate) fn copy_line(alloc: Global, line: &Line) -> Result<Line, AllocError>
    ensures { IfOk result (λ copy. line_of copy ≡ line_of line.now) }
{
    let tasks = copy_sigs(alloc, line.tasks.get())?;
    match &line.tail {
        Some(end) => {
            let end = copy_end(alloc, end)?;
            let tail = Box::new(alloc, end)?;
            Ok(Line {
                tasks,
                tail: Some(tail),
            })
        }
        None => Ok(Line { tasks, tail: None }),
    }
}

#[cycle(copy)]
fn copy_end(alloc: Global, end: &LineEnd) -> Result<LineEnd, AllocError>
    ensures { IfOk result (λ copy. end_of copy ≡ end_of end.now) }
{
    let members = ListOf::of(copy_lines(alloc, end.members.get())?);
    match &end.body {
        Some(body) => {
            let body = copy_line(alloc, body)?;
            Ok(LineEnd {
                members,
                body: Some(body),
            })
        }
        None => Ok(LineEnd {
            members,
            body: None,
        }),
    }
}

#[cycle(copy)]
fn copy_lines(alloc: Global, lines: &[Line]) -> Result<Vec<Line>, AllocError>
    ensures { IfOk result (λ copies. map line_of copies.items ≡ map line_of lines.now) }
{
    let mut copies = Vec::with_capacity(alloc, lines.len())?;
    for line in lines {
        copies.push(copy_line(alloc, line)?)?;
    }
    Ok(copies)
}
