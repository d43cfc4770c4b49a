//! The groups and chords of a plan, looked up by their numbers.
ghost use Rattle.std.specs.Prelude.{◌≡◌, ◌<◌, ◌^◌, All, IfOk, IfSome, length, option_copied};
ghost use Rattle.canvas_semantics.specs.Line.{entry_at, entry_members, entry_size};

use canvas_task::{GroupNo, ListOf, TaskNo};
use std::alloc::{AllocError, Global};
use std::marker::Model;
use std::sync::Arc;

/// A group or chord, with the last tasks of its members.
#[derive(Drop)]
pub(crate) struct GroupEntry {
    pub(crate) chord: bool,
    pub(crate) members: ListOf<TaskNo>,
}

impl Model for GroupEntry {
    ghost use Rattle.canvas_semantics.specs.Line.{GroupEntry};

    ghost Value = { GroupEntry };

    ghost view = { λ t. record { chord = t.chord; members = t.members } };
}

/// Groups and chords in the order of their numbers, from 1. Sharing them copies nothing.
#[derive(Drop)]
pub struct Groups {
    entries: Arc<ListOf<GroupEntry>>,
}

impl Model for Groups {
    ghost use Rattle.std.specs.Prelude.{◌<◌, ◌^◌, List, All, length};
    ghost use Rattle.canvas_semantics.specs.Line.{GroupEntry};

    ghost Value = { List GroupEntry };

    ghost view = { λ g. g.entries.value };

    ghost invariant = { λ g. All (λ t. length t.members < 2 ^ 32) g.entries.value };
}

impl Groups {
    pub(crate) fn of(alloc: Global, entries: Vec<GroupEntry>) -> Result<Groups, AllocError>
        requires { All (λ t. length t.members < 2 ^ 32) entries.items }
        ensures { IfOk result (λ groups. groups ≡ entries.items) }
    {
        Ok(Groups {
            entries: Arc::new(alloc, ListOf::of(entries))?,
        })
    }

    /// Returns another handle to the same groups and chords.
    pub fn share(&self) -> Result<Groups, AllocError>
        ensures { IfOk result (λ groups. groups ≡ self.now) }
    {
        Ok(Groups {
            entries: Arc::try_clone(&self.entries)?,
        })
    }

    fn entry(&self, group: GroupNo) -> Option<&GroupEntry>
        ensures value { option_copied result ≡ entry_at self.now group }
        ensures few { IfSome result (λ t. length t.now.members < 2 ^ 32) }
    {
        self.entries.get().get(group.get() as usize - 1)
    }

    /// Returns the number of members of a chord, or None for a group or an unknown number.
    pub fn size(&self, group: GroupNo) -> Option<u32>
        ensures { result ≡ entry_size (entry_at self.now group) }
    {
        let entry = self.entry(group)?;
        if entry.chord {
            Some(entry.members.get().len() as u32)
        } else {
            None
        }
    }

    /// Returns the last tasks of the members of a group or chord, in header order. An unknown
    /// number has none.
    pub fn members(&self, group: GroupNo) -> &[TaskNo]
        ensures { result.now ≡ entry_members (entry_at self.now group) }
    {
        match self.entry(group) {
            Some(entry) => entry.members.get(),
            None => &[],
        }
    }
}
