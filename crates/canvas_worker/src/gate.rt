//! The gate that a worker asks at the points of a message's script.

ghost use Rattle.std.specs.Prelude.{◌≡◌, ℕ, Bool, true, ⊤};

use canvas_task::TaskNo;

/// Decides at two points of a message that was taken whether its worker goes on, and whether its
/// envelope is redelivered: before its first store, and before the acknowledgement of its envelope.
/// An envelope that was dropped has no points.
///
/// A gate that never opens keeps a run from ending until its stop is asked, and so does one that
/// has every copy redelivered. A worker that it holds back is polled repeatedly and doesn't sleep:
/// only takes that found nothing make a worker sleep.
pub trait Gate {
    // What `go` may answer to this worker for this task; anything, unless an implementation says.
    // So a gate may look at a clock or a cell.
    ghost may_answer: { Self → ℕ → ℕ → Bool → Type 0 } = { λ _ _ _ _. ⊤ };

    // Whether `again` may want this task's envelope redelivered by this worker; always, unless an
    // implementation says.
    ghost may_want: { Self → ℕ → ℕ → Type 0 } = { λ _ _ _. ⊤ };

    /// Returns whether this worker may go on with the message of this task. A worker asks before
    /// the message's first store, at each poll until the answer is true; until then it does
    /// nothing.
    fn go(&self, worker: u32, task: TaskNo) -> bool
        ensures { may_answer self.now worker task result };

    /// Returns whether this worker is to redeliver the message's envelope. A worker asks once at
    /// each point, and before the first store only once `go` has answered true. That poll only
    /// redelivers, and the next one goes on from there.
    fn again(&self, worker: u32, task: TaskNo) -> bool
        ensures { result ≡ true → may_want self.now worker task }
    {
        // Only the clause needs it.
        let (_worker, _task) = (worker, task);
        false
    }
}

/// A gate that lets every worker go on and wants nothing redelivered.
pub struct OpenGate;

impl Gate for OpenGate {
    ghost may_answer = { λ _ _ _ b. b ≡ true };

    ghost may_want = { λ _ _ _. ⊥ };

    fn go(&self, _worker: u32, _task: TaskNo) -> bool {
        true
    }
}
