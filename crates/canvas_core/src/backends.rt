//! The backend and its index of a plan, as books.

ghost use Rattle.std.specs.Prelude.{refl};
ghost use Rattle.canvas_runs.specs.Book.{book_on};
ghost use Rattle.canvas_core.specs.steps.Members.{members_in};

use crate::Book;
use canvas_backend::{Backend, PlainBackend, Roster};
use canvas_task::{GroupNo, TaskNo};

// In each `is_member` the first test is always true. It is here for `from_one`, by which no book
// has task 0 as a member.

impl Book for Roster {
    ghost book = { book_on };

    ghost from_one = { λ r g. refl };

    ghost has_members = { members_in };

    fn knows(&self, task: TaskNo) -> bool {
        self.knows(task)
    }

    fn knows_up_to(&self, greatest: TaskNo) -> bool {
        self.knows(greatest)
    }

    fn size(&self, group: GroupNo) -> Option<u32> {
        self.size(group)
    }

    fn is_member(&self, group: GroupNo, task: TaskNo) -> bool {
        task.get() != 0 && self.is_member(group, task)
    }
}

impl Book for PlainBackend {
    ghost book = { λ b. book_on b.plan };

    ghost from_one = { λ b g. refl };

    ghost has_members = { λ b. members_in b.plan };

    fn knows(&self, task: TaskNo) -> bool {
        self.knows(task)
    }

    fn knows_up_to(&self, greatest: TaskNo) -> bool {
        self.knows(greatest)
    }

    fn size(&self, group: GroupNo) -> Option<u32> {
        self.size(group)
    }

    fn is_member(&self, group: GroupNo, task: TaskNo) -> bool {
        task.get() != 0 && self.is_member(group, task)
    }
}

impl Book for Backend {
    ghost book = { λ b. book_on b.plan };

    ghost from_one = { λ b g. refl };

    ghost has_members = { λ b. members_in b.plan };

    fn knows(&self, task: TaskNo) -> bool {
        self.knows(task)
    }

    fn knows_up_to(&self, greatest: TaskNo) -> bool {
        self.knows(greatest)
    }

    fn size(&self, group: GroupNo) -> Option<u32> {
        self.size(group)
    }

    fn is_member(&self, group: GroupNo, task: TaskNo) -> bool {
        task.get() != 0 && self.is_member(group, task)
    }
}
