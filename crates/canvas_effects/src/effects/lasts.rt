//! The last tasks of lines.

ghost use Rattle.std.specs.Prelude.{◌≡◌};
ghost use Rattle.std.specs.Option.{option_map};
ghost use Rattle.canvas_rewrite.specs.FrozenView.{p_task_view, p_line_view, p_end_view};
ghost use Rattle.canvas_effects.specs.steps.Walks.{last_of};

use canvas_rewrite::{FrozenEnd, FrozenLine, FrozenTask};

/// Returns the last task of a line. A line that ends in a group has none.
#[cycle(last)]
pub(super) fn last_task(line: &FrozenLine) -> Option<&FrozenTask>
    ensures { option_map (λ t. p_task_view t.now) result ≡ last_of (p_line_view line.now) }
{
    match &line.tail {
        Some(end) => last_of_end(end),
        None => {
            let (last, _others) = line.tasks.get().split_last()?;
            Some(last)
        }
    }
}

#[cycle(last)]
fn last_of_end(end: &FrozenEnd) -> Option<&FrozenTask>
    ensures { option_map (λ t. p_task_view t.now) result ≡ last_of (p_end_view end.now) }
{
    last_task(end.body.as_ref()?)
}
