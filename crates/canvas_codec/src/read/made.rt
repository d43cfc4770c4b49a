//! Building lines from what was read.

ghost use Rattle.std.specs.Prelude.{◌≡◌, IfOk, map};
ghost use Rattle.canvas_rewrite.specs.FrozenView.{p_task_view, p_line_view, p_steps};
ghost use Rattle.canvas_codec.specs.steps.Elements.{element_view};

use canvas_rewrite::{FrozenEnd, FrozenLine, FrozenTask};
use canvas_task::ListOf;
use std::alloc::{AllocError, Global};

/// The last element of a line.
#[derive(Drop)]
pub(crate) enum Element {
    Task(FrozenTask),
    End(FrozenEnd),
}

/// Makes the line of some tasks and a last element.
pub(crate) fn line_of(
    alloc: Global,
    mut tasks: Vec<FrozenTask>,
    last: Element,
) -> Result<FrozenLine, AllocError>
    ensures { IfOk result
        (λ l. p_line_view l ≡ p_steps (map p_task_view tasks.items) (element_view last)) }
{
    match last {
        Element::Task(task) => {
            tasks.push(task)?;
            Ok(FrozenLine {
                tasks: ListOf::of(tasks),
                tail: None,
            })
        }
        Element::End(end) => {
            let tail = Box::new(alloc, end)?;
            Ok(FrozenLine {
                tasks: ListOf::of(tasks),
                tail: Some(tail),
            })
        }
    }
}
