//! The text of a list of entries, which say what is redelivered.
ghost use Rattle.std.specs.Prelude.{◌≡◌, IfOk, IfErr, MatchOption};
ghost use Rattle.canvas_runs.specs.declared.when.When.{When};
ghost use Rattle.canvas_runs.specs.Redeliveries.{Entry};
ghost use Rattle.canvas_runs.specs.EntryList.{IsEntry, IsEntryFault, IsEntryList};
ghost use Rattle.canvas_runs.specs.EntryList.{entry_text, when_text};

use crate::comma_list::{ItemReader, read_list, read_number};
use crate::{ListFault, When};
use canvas_task::TaskNo;
use std::alloc::Global;
use thiserror::Error;

/// Why a text gives no entries.
#[derive(Clone, Copy, Debug, Drop, PartialEq, Eq, Error)]
pub enum EntryFault {
    /// The text is not a list of entries.
    #[error("BadAgain")]
    BadAgain,
    /// An allocation failed.
    #[error("memory refused")]
    Memory,
}

/// Parses the name of a point.
fn read_when(word: &str) -> Option<When>
    ensures { MatchOption result ((w : When) → word.now ≡ when_text w → ⊥)
        (λ w. word.now ≡ when_text w) }
{
    match word {
        "early" => Some(When::Early),
        "late" => Some(When::Late),
        _ => None,
    }
}

/// Parses an entry.
fn read_entry(text: &str) -> Option<(TaskNo, When)>
    ensures { MatchOption result ((e : Entry) → IsEntry e → text.now ≡ entry_text e → ⊥)
        (λ e. IsEntry e × (text.now ≡ entry_text e)) }
{
    let (number, word) = text.split_once(':')?;
    let task = TaskNo::new(read_number(number)?)?;
    let when = read_when(word)?;
    Some((task, when))
}

#[derive(Drop)]
struct EntryReader;

impl ItemReader for EntryReader {
    type Item = (TaskNo, When);

    ghost is_item = { λ reader. IsEntry };

    ghost item_text = { entry_text };

    fn read(&self, text: &str) -> Option<(TaskNo, When)> {
        read_entry(text)
    }
}

/// Reads a list of entries such as `1:late,3:early`: each a task's decimal number from 1, a colon
/// and `early` or `late`, with a single comma between two, and without signs, spaces or leading
/// zeros. The empty text has no entries. No canvas needs to have the tasks.
pub fn read_again(alloc: Global, text: &str) -> Result<Vec<(TaskNo, When)>, EntryFault>
    ensures ok { IfOk result (λ entries. IsEntryList text.now entries.items) }
    ensures err { IfErr result (IsEntryFault text.now) }
{
    match read_list(alloc, text, &EntryReader) {
        Ok(entries) => Ok(entries),
        Err(ListFault::BadItem) => Err(EntryFault::BadAgain),
        Err(ListFault::Memory) => Err(EntryFault::Memory),
    }
}
