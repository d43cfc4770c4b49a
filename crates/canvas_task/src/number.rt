//! Numbers of tasks, and of groups and chords.
ghost use Rattle.std.specs.Prelude.{◌≡◌, ◌≤◌, MatchOption};

use std::marker::Model;

/// The number of a task, from 1.
#[derive(Clone, Copy, Debug, PartialEq, Eq, PartialOrd, Ord, Hash)]
pub struct TaskNo {
    number: u32,
}

impl Model for TaskNo {
    ghost use Rattle.std.specs.Prelude.{ℕ, ◌≤◌};
    ghost use Rattle.std.specs.Coded.{coded_ℕ};

    ghost Value = { ℕ };

    ghost coded = { coded_ℕ };

    ghost view = { λ t. t.number };

    ghost invariant = { λ t. 1 ≤ t.number };

    ghost inverse = { λ n. record { number = n } };
}

impl TaskNo {
    /// Makes a task's number. Returns None for 0, which no task has.
    pub fn new(number: u32) -> Option<TaskNo>
        ensures { MatchOption result (number ≡ 0) (λ t. (t ≡ number) × (1 ≤ number)) }
    {
        if number == 0 {
            None
        } else {
            Some(TaskNo { number })
        }
    }

    /// Returns the number. The tasks of a plan are numbered in file order.
    pub fn get(self) -> u32
        ensures value { result ≡ self }
        ensures least { 1 ≤ result }
    {
        self.number
    }
}

/// The number of a group or chord, from 1.
#[derive(Clone, Copy, Debug, PartialEq, Eq, PartialOrd, Ord, Hash)]
pub struct GroupNo {
    number: u32,
}

impl Model for GroupNo {
    ghost use Rattle.std.specs.Prelude.{ℕ, ◌≤◌};
    ghost use Rattle.std.specs.Coded.{coded_ℕ};

    ghost Value = { ℕ };

    ghost coded = { coded_ℕ };

    ghost view = { λ g. g.number };

    ghost invariant = { λ g. 1 ≤ g.number };

    ghost inverse = { λ n. record { number = n } };
}

impl GroupNo {
    /// Makes a group's or chord's number. Returns None for 0, which none has.
    pub fn new(number: u32) -> Option<GroupNo>
        ensures { MatchOption result (number ≡ 0) (λ g. (g ≡ number) × (1 ≤ number)) }
    {
        if number == 0 {
            None
        } else {
            Some(GroupNo { number })
        }
    }

    /// Returns the number. The groups and chords of a plan are numbered in file order, together.
    pub fn get(self) -> u32
        ensures value { result ≡ self }
        ensures least { 1 ≤ result }
    {
        self.number
    }
}
