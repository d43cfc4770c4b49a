//! Runs of canvases as data: what a worker asks, which histories of the queue and of the table of
//! results a run has, and the law of whole runs. What the callers of shared objects saw makes such
//! a run, and so does a run by turns on one thread. Each law is the contract of a function with an
//! empty body. The running code is `When`, and the texts of lists: of turns, and of redeliveries.
//! Read `specs/Core`, `Run` and `Law` first.
//!
//! A worker is a machine that asks for one thing at a time (`specs/Core`). It takes an envelope,
//! stores its task's outcome, and then does the effects of that end, in the order of
//! `canvas_effects/specs/Effects`. After a part that completes a header it reads each member, and
//! then does the effects of the completion. Until its acknowledgement it may redeliver the
//! envelope, as often as it likes.
//!
//! A run of a plan is a legal history of the queue, one of the table of results, and for each
//! caller a run of the machine that its calls follow (`specs/Run`). A take may be earlier in the
//! history than in the machine's run, never later.
//!
//! The run is closed if all first messages are published, the queue is empty at its end, and no
//! script of an envelope is unfinished. It is under way if its first messages are published, worker
//! 0 has not begun to read, each worker can go on or is at rest, and one can go on. A worker is at
//! rest between scripts, if each envelope that it took has had its script. A round is one turn of
//! each worker.
//!
//! A core run is a machine: what is left to do, what is asked next, and what an answer leads to.
//! What it asks is a call of the queue or of the table, an acknowledgement, or whether more may
//! come, so its calls are its asks and answers, with no translation. Takes that found nothing and
//! refused publishes are in no history, so following a core run leaves them out.
//!
//! An acknowledgement is in no history either, since the queue gave the envelope away at the take.
//! So a history says only that a redelivery comes after the take of its envelope, and before the
//! caller's next call of the queue after the acknowledgement. In a run by turns its place is exact.
//!
//! A core run may have redeliveries between its own calls; one without them is the special case.
//! The first store of a task stays, whichever caller makes it and by whichever copy of the
//! envelope, and that caller goes on. Nothing compares the queue's history with the table's in
//! time: the law goes by the numbers of tasks, of which every cause is smaller than its effects.
#![tactic(auto)]

mod callers;
mod comma_list;
mod entry_list;
mod turn_list;
mod turns;
mod when;

ghost use Rattle.std.specs.Prelude.{◌≡◌, ◌≤◌, ℕ};
ghost use Rattle.canvas_task.specs.Apply.{Behaviour};
ghost use Rattle.canvas_task.specs.Builtin.{builtin_tasks};
ghost use Rattle.canvas_history.specs.Table.{IsLegal, results};
ghost use Rattle.canvas_history.specs.Roster.{roster_of};
ghost use Rattle.canvas_semantics.specs.Evaluation.{state_of, meaning};
ghost use Rattle.canvas_semantics.specs.Line.{Line, tree_of};
ghost use Rattle.canvas_rewrite.specs.Planned.{IsPlan};
ghost use Rattle.canvas_rewrite.specs.Utf8.{IsUtf8Line};
ghost use Rattle.canvas_semantics.specs.NormalLine.{normal};
ghost use Rattle.canvas_semantics.specs.Tree.{Tree, IsFull, numbered};
ghost use Rattle.canvas_runs.specs.Causes.{completions};
ghost use Rattle.canvas_runs.specs.EventLaws.{EventStates};
ghost use Rattle.canvas_runs.specs.Law.{FirstPart, SecondPart, its_state};
ghost use Rattle.canvas_runs.specs.Progress.{AllReadBack, PlansReadBack, FewCalls, FewSteps, NoneWaits, NeverStuck, AllEnd, Starts};
ghost use Rattle.canvas_runs.specs.Run.{Run, Closed};
ghost use Rattle.canvas_runs.specs.Witness.{small, queue, table, lost_part, not_taken, goes_on, acks_first};
ghost use Rattle.canvas_runs.specs.Core.{IsCoreRun, taking};
ghost use Rattle.canvas_runs.specs.Worker.{worker};
ghost use Rattle.canvas_history.specs.Queue.{IsLegal as IsQueueLegal};

pub use callers::{law_of_callers, rows_of_runs, runs_of_callers};
pub use comma_list::ListFault;
pub use entry_list::{EntryFault, read_again};
pub use turn_list::read_turns;
pub use turns::{
    ends_of_turns, laws_of_entries, laws_of_turns, runs_by_entries, turns_go_on, turns_of_a_chord,
};
pub use when::When;

/// The law of runs. For any number of workers and any order of their calls, a run of a plan stores
/// only the outcomes that evaluating its canvas gives, and publishes only the messages of tasks
/// that are run, each once. A run that is closed stores all these outcomes, publishes all these
/// messages and returns all these parts, each once. So each task of the canvas has the state that
/// evaluating the canvas gives. In every run each chord is completed at most once, and at most one
/// store of a task is the first: the others answer Again, no more than its message was redelivered.
pub fn law_of_runs()
    ensures every_run { (behaviour : Behaviour) (l : Line) → IsPlan l → (r : Run behaviour l)
        → FirstPart behaviour l r }
    ensures closed_runs { (behaviour : Behaviour) (l : Line) → IsPlan l → (r : Run behaviour l)
        → Closed behaviour l r → SecondPart behaviour l r }
    ensures completed_once { (behaviour : Behaviour) (l : Line) → IsPlan l → (r : Run behaviour l)
        → (g : ℕ) → completions l g r.table ≤ 1 }
    ensures of_canvas { (behaviour : Behaviour) (c : Tree) → IsFull c → (l : Line) → IsPlan l
        → tree_of l ≡ numbered (normal c) → (r : Run behaviour l) → Closed behaviour l r → (t : ℕ)
        → (results (roster_of l) r.table).outcomes t ≡ state_of t (meaning behaviour c) }
{}

/// States that a run makes few calls, for any number of workers and any order of their calls: six
/// for each task (a publish, a take, a store, a part, a read and an acknowledgement), and four for
/// each redelivery. So it goes on for no longer than that.
pub fn law_of_bound()
    ensures few { FewCalls }
    ensures steps { FewSteps }
{}

/// States that no worker waits for another one, if the messages read back from their envelopes. In
/// a run that is under way each worker that can go on makes a call next, in the middle of a script
/// or by a take that finds a message, unless it has nothing left to do and the queue is empty. So a
/// run that is under way is closed or goes on, and leads to a closed one, unless memory is refused
/// or its workers aren't let go on. Each plan has a run that is under way, with its first messages
/// published, for any number of workers. The messages of every plan that `freeze` gives read back,
/// since its texts are UTF-8 and the numbers that tasks answer are in range; so do those of the
/// chord below.
pub fn law_of_progress()
    ensures none_waits { NoneWaits }
    ensures never_stuck { NeverStuck }
    ensures ends { AllEnd }
    ensures starts { Starts }
    ensures read_back { PlansReadBack }
    ensures chord { AllReadBack builtin_tasks small }
{}

/// The law of events. For any behaviour of tasks, evaluating a plan with events gives each task the
/// state that evaluating its tree gives: an outcome exactly if some event stores it, which no two
/// events do. Either the task is run, and that is what its call answers, or it fails without being
/// run. These are the states of the canvas that the plan was made from.
pub fn law_of_events()
    ensures states { (behaviour : Behaviour) (l : Line) → IsPlan l → EventStates behaviour l }
    ensures of_canvas { (behaviour : Behaviour) (c : Tree) → IsFull c
        → (l : Line) → tree_of l ≡ numbered (normal c)
        → (t : ℕ) → its_state behaviour l t ≡ state_of t (meaning behaviour c) }
{}

/// States that there is something of which the laws speak. A chord of two sums and the sum of both
/// is a plan, and has a closed run by two workers, with these histories, in which the first sum's
/// envelope is redelivered. A log in which both parts find that none was returned before is no
/// history of the table, and one in which a caller redelivers what another took is none of the
/// queue. A script that goes on after Again, or that acknowledges its envelope before its work, is
/// no core run.
pub fn runs_of_a_chord()
    ensures planned { IsPlan small × IsUtf8Line small }
    ensures stands { (r : Run builtin_tasks small) × (r.queue ≡ queue) × (r.table ≡ table)
        × Closed builtin_tasks small r }
    ensures none_lost { IsLegal (roster_of small) lost_part → ⊥ }
    ensures none_taken { IsQueueLegal not_taken → ⊥ }
    ensures none_goes_on { IsCoreRun (worker builtin_tasks small) taking goes_on → ⊥ }
    ensures none_acks_first { IsCoreRun (worker builtin_tasks small) taking acks_first → ⊥ }
{}
