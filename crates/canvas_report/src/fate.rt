//! The fate of a task.
ghost use Rattle.std.specs.Prelude.{◌≡◌};
ghost use Rattle.canvas_report.specs.Fates.{fate_at};

use canvas_task::TaskNo;

/// What happened to a task of a run.
#[derive(Clone, Copy, Debug, PartialEq, Eq)]
pub enum Fate {
    /// It was called, and its outcome is what the call answered.
    Ran,
    /// It failed and was not called. The task to blame comes before it: the one whose exception it
    /// shows, or the one that its ChordError names. That task was called and failed, or was skipped
    /// itself.
    Skipped(TaskNo),
    /// A callback that was not wanted: it is pending.
    Idle,
}

/// Returns the fate of a task, if it is given.
pub(crate) fn fate_in(fates: &[(TaskNo, Fate)], task: TaskNo) -> Option<Fate>
    ensures { result ≡ fate_at fates.now task }
{
    let (_, fate) = fates.get(task.get() as usize - 1)?;
    Some(*fate)
}
