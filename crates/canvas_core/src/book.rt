//! A worker's knowledge of its plan.

ghost use Rattle.std.specs.Prelude.{◌≡◌, ◌≤◌, ℕ, true, false};
ghost use Rattle.canvas_runs.specs.Book.{Book as Known};
ghost use Rattle.canvas_core.specs.Books.{HasMembers};

use canvas_task::{GroupNo, TaskNo};

/// What a worker knows of its plan, so that a message that names anything else is dropped and
/// counted.
pub trait Book {
    ghost book: { Self → Known };

    /// Returns whether the plan has the task.
    fn knows(&self, task: TaskNo) -> bool
        ensures { result ≡ (book self.now).knows task };

    /// Returns whether the plan is sure to have each task up to this one. If not, as by default, a
    /// worker asks for each.
    fn knows_up_to(&self, _greatest: TaskNo) -> bool
        ensures { result ≡ true → (k : ℕ) → k ≤ _greatest → (book self.now).knows k ≡ true }
    {
        false
    }

    /// Returns how many members a chord has; None for a plain group or an unknown number.
    fn size(&self, group: GroupNo) -> Option<u32>
        ensures { result ≡ (book self.now).size group };

    /// Returns whether the task is the last of a member of the group or chord.
    fn is_member(&self, group: GroupNo, task: TaskNo) -> bool
        ensures { result ≡ (book self.now).is_member group task };

    ghost from_one: { (b : Self) (g : ℕ) → (book b).is_member g 0 ≡ false };

    ghost has_members: { (b : Self) → HasMembers (book b) };
}
