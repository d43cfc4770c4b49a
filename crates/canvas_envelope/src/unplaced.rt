//! The first tasks of a line, as far as none has a place.
//!
//! They are counted once for a line, and each task that is taken decreases the count. A worker
//! whose plan has all tasks up to the greatest number need not look these up one by one, so the
//! look-ups of a chain are linear in its length and not quadratic. A message that was read from its
//! texts has the count 0, and everything in it is looked up.

ghost use Rattle.std.specs.Prelude.{◌≡◌, ◌-◌, map, take};
ghost use Rattle.std.specs.List.{prefix_len};
ghost use Rattle.canvas_semantics.specs.PlacedLine.{PLine};
ghost use Rattle.canvas_rewrite.specs.FrozenView.{p_steps, p_tasks_of, p_task_view};
ghost use Rattle.canvas_envelope.specs.MessageView.{place_seen};
ghost use Rattle.canvas_envelope.specs.Unplaced.{AreUnplaced, all_unplaced, greatest, greatest_in, is_nowhere, is_unplaced};

use canvas_rewrite::{FrozenTask, Place};

/// The number of first tasks of a line without a place, also in nested tasks, and the greatest task
/// number in them. A plan that has each task up to that number has them all.
#[derive(Clone, Copy)]
pub struct Unplaced {
    /// A lower bound of their number.
    pub count: usize,
    /// An upper bound of their numbers, and of those of their links and error callbacks.
    pub greatest: u32,
}

impl Unplaced {
    /// Makes the value for no tasks.
    pub fn none() -> Unplaced
        ensures { result ≡ record { count = 0; greatest = 0 } }
    {
        Unplaced {
            count: 0,
            greatest: 0,
        }
    }

    /// Counts the first of some tasks that have no place.
    pub fn of(tasks: &[FrozenTask]) -> Unplaced
        ensures count { result.count ≡ prefix_len is_unplaced (map p_task_view tasks.now) }
        ensures greatest { result.greatest
            ≡ greatest_in (p_tasks_of (map p_task_view (take result.count tasks.now))) }
        ensures first { (end : PLine)
            → AreUnplaced result (p_steps (map p_task_view tasks.now) end) }
    {
        let count = how_many(tasks);
        Unplaced {
            count,
            greatest: greatest_in(&tasks[..count]),
        }
    }

    /// Returns the rest after the first task is taken.
    pub fn after_first(self) -> Unplaced
        ensures { result ≡ record { count = self.count - 1; greatest = self.greatest } }
    {
        Unplaced {
            count: self.count.saturating_sub(1),
            greatest: self.greatest,
        }
    }
}

fn is_nowhere(place: &Option<Place>) -> bool
    ensures { result ≡ is_nowhere (place_seen place.now) }
{
    place.is_none()
}

#[cycle(unplaced)]
fn is_unplaced(task: &FrozenTask) -> bool
    ensures { result ≡ is_unplaced (p_task_view task.now) }
{
    all_unplaced(task.links.get()) && all_unplaced(task.errbacks.get()) && is_nowhere(&task.place)
}

#[cycle(unplaced)]
fn all_unplaced(tasks: &[FrozenTask]) -> bool
    ensures { result ≡ all_unplaced (p_tasks_of (map p_task_view tasks.now)) }
{
    for task in tasks {
        if !is_unplaced(task) {
            return false;
        }
    }
    true
}

#[cycle(greatest)]
fn greatest(task: &FrozenTask) -> u32
    ensures { result ≡ greatest (p_task_view task.now) }
{
    let callbacks = greatest_in(task.links.get()).max(greatest_in(task.errbacks.get()));
    task.no.get().max(callbacks)
}

#[cycle(greatest)]
fn greatest_in(tasks: &[FrozenTask]) -> u32
    ensures { result ≡ greatest_in (p_tasks_of (map p_task_view tasks.now)) }
{
    let mut most = 0;
    for task in tasks {
        most = greatest(task).max(most);
    }
    most
}

/// Returns the number of tasks before the first with a place, or with a nested task that has one.
fn how_many(tasks: &[FrozenTask]) -> usize
    ensures { result ≡ prefix_len is_unplaced (map p_task_view tasks.now) }
{
    for (before, task) in tasks.iter().enumerate() {
        if !is_unplaced(task) {
            return before;
        }
    }
    tasks.len()
}
