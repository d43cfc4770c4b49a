//! The forecasts for a canvas.

ghost use Rattle.std.specs.Prelude.{◌≡◌, IfOk};
ghost use Rattle.canvas_check.specs.Foreseen.{forecasts};

use crate::Forecast;
use crate::position::Position;
use crate::walk::push_node;
use canvas_task::{Memory, Tasks};
use canvas_values::Canvas;
use std::alloc::Global;

/// Returns a forecast for each signature of a canvas, in file order: a signature before those
/// nested in it, a header before its body, and a task's links before its error callbacks.
///
/// A call is expected to be a TypeError if it is one after each of some values of the input's kind,
/// and if the task accepts other arguments. For built-in tasks it is then a TypeError after every
/// value of the kind (`law_of_builtin_forecasts`).
pub fn forecasts<T: Tasks>(
    alloc: Global,
    canvas: &Canvas,
    tasks: &T,
) -> Result<Vec<Forecast>, Memory>
    ensures { IfOk result
        (λ found. found.items ≡ forecasts (T.behaviour tasks.now) canvas.now) }
{
    let mut found = Vec::new(alloc);
    let _out = push_node(alloc, tasks, canvas.node(), Position::start(), &mut found)?;
    Ok(found)
}
