//! The depth to which signatures are nested. Beyond the limit it is only known to be greater.

ghost use Rattle.std.specs.Prelude.{◌≡◌, ◌≤◌, max, map};
ghost use Rattle.canvas_values.specs.steps.LineReach.{capped, above};
ghost use Rattle.canvas_rewrite.specs.FrozenView.{p_tasks_of, p_lines_of, p_task_view, p_line_view, p_end_view};
ghost use Rattle.canvas_envelope.specs.Fits.{task_reach, tasks_reach, place_reach, line_reach, greatest_reach, members_reach};
ghost use Rattle.canvas_envelope.specs.steps.Parts.{is_longer};
ghost use Rattle.canvas_envelope.specs.MessageView.{place_seen};

use canvas_rewrite::{FrozenEnd, FrozenLine, FrozenTask, Place};
use canvas_semantics::MOST_REACH;

/// Adds a level to a reach, up to one more than the limit.
pub(super) fn above(reach: u32) -> u32
    ensures { result ≡ above reach }
{
    reach.min(MOST_REACH) + 1
}

/// Returns the reach of a task that also carries something of reach `carried`.
#[cycle(tasks)]
fn task_reach(task: &FrozenTask, carried: u32) -> u32
    ensures { result ≡ capped (task_reach carried (p_task_view task.now)) }
{
    let callbacks = tasks_reach(task.links.get()).max(tasks_reach(task.errbacks.get()));
    above(callbacks.max(place_reach(&task.place).max(carried)))
}

/// Returns the greatest reach of tasks that carry nothing.
#[cycle(tasks)]
pub(super) fn tasks_reach(tasks: &[FrozenTask]) -> u32
    ensures { result ≡ capped (tasks_reach (p_tasks_of (map p_task_view tasks.now))) }
{
    let mut most = 0;
    for task in tasks {
        most = task_reach(task, 0).max(most);
    }
    most
}

#[cycle(tasks)]
pub(super) fn place_reach(place: &Option<Place>) -> u32
    ensures { result ≡ capped (place_reach (place_seen place.now)) }
{
    match place {
        Some(place) => match &place.chord {
            Some(carried) => line_reach(&carried.body, 0),
            None => 0,
        },
        None => 0,
    }
}

/// Returns whether the line has more than one element.
fn is_longer(line: &FrozenLine) -> bool
    ensures { result ≡ is_longer (p_line_view line.now) }
{
    match &line.tail {
        Some(_) => !line.tasks.get().as_slice().is_empty(),
        None => line.tasks.get().as_slice().len() > 1,
    }
}

/// Returns the greatest reach of a line's elements.
#[cycle(tasks)]
pub(super) fn greatest(line: &FrozenLine, carried: u32) -> u32
    ensures { result ≡ capped (greatest_reach carried (p_line_view line.now)) }
{
    match &line.tail {
        Some(end) => tasks_reach(line.tasks.get()).max(end_reach(end, carried)),
        None => match line.tasks.get().split_last() {
            Some((task, others)) => tasks_reach(others).max(task_reach(task, carried)),
            None => 0,
        },
    }
}

#[cycle(tasks)]
fn line_reach(line: &FrozenLine, carried: u32) -> u32
    ensures { result ≡ capped (line_reach carried (p_line_view line.now)) }
{
    let most = greatest(line, carried);
    if is_longer(line) { above(most) } else { most }
}

#[cycle(tasks)]
fn end_reach(end: &FrozenEnd, carried: u32) -> u32
    ensures { result ≡ capped (line_reach carried (p_end_view end.now)) }
{
    match &end.body {
        Some(body) => {
            let following = line_reach(body, carried);
            above(members_reach(end.members.get(), following).max(following))
        }
        None => above(members_reach(end.members.get(), 0)),
    }
}

/// Returns the greatest reach of members' lines whose last tasks carry something of reach
/// `carried`.
#[cycle(tasks)]
fn members_reach(lines: &[FrozenLine], carried: u32) -> u32
    ensures { result ≡ capped (members_reach carried (p_lines_of (map p_line_view lines.now))) }
{
    let mut most = 0;
    for line in lines {
        most = line_reach(line, carried).max(most);
    }
    most
}
