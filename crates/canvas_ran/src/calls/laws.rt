//! The answers that messages depend on, and the ends that they wait for.

ghost use Rattle.canvas_task.specs.Apply.{Behaviour};
ghost use Rattle.canvas_rewrite.specs.Planned.{IsPlan};
ghost use Rattle.canvas_semantics.specs.Line.{Line};
ghost use Rattle.canvas_runs.specs.Run.{Run};
ghost use Rattle.canvas_ran.specs.CallLaws.{AfterEnds, GiveTheSame};

/// The law of calls. Whether a task is called, and with what, depends only on the answers of those
/// tasks whose messages carry it: for any answers of the others, and so while they haven't answered
/// yet, its message is the same. In every run, for any number of workers and any order of their
/// calls, the tasks that its front names have ended once its message is published.
pub fn law_of_calls()
    ensures same { (one other : Behaviour) (l : Line) → IsPlan l → GiveTheSame one other l }
    ensures after { (behaviour : Behaviour) (l : Line) → IsPlan l → (r : Run behaviour l)
        → AfterEnds behaviour l r }
{}
