//! Entries of a run by turns: the points at which an envelope is redelivered.
ghost use Rattle.std.specs.Prelude.{◌≡◌, ◌<◌, true, false, MatchOption, length};
ghost use Rattle.std.specs.List.{remove};
ghost use Rattle.canvas_runs.specs.Redeliveries.{is_for, has, without};

use canvas_runs::When;
use canvas_task::TaskNo;

fn is_for(entry: &(TaskNo, When), point: &(TaskNo, When)) -> bool
    ensures { result ≡ is_for point.now.0 point.now.1 entry.now }
{
    match (entry.1, point.1) {
        (When::Early, When::Early) => entry.0 == point.0,
        (When::Late, When::Late) => entry.0 == point.0,
        _ => false,
    }
}

/// Returns the index of the first entry for a point.
pub(crate) fn first_for(entries: &[(TaskNo, When)], point: &(TaskNo, When)) -> Option<usize>
    ensures { MatchOption result (has point.now.0 point.now.1 entries.now ≡ false)
        (λ i. (i < length entries.now) × (has point.now.0 point.now.1 entries.now ≡ true)
        × (remove entries.now i ≡ without point.now.0 point.now.1 entries.now)) }
{
    for index in 0..entries.len() {
        if is_for(&entries[index], point) {
            return Some(index);
        }
    }
    None
}
