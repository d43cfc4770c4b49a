//! Items of `run --each` that were read together: they are answered in parallel, and then their
//! lines are printed in order.

ghost use Rattle.std.specs.Prelude.{◌≡◌, ◌<◌, ℕ, IfOk, OnOk, length, slice_index_or, string_bytes};
ghost use Rattle.std.specs.Io.Buffered.{reader_remaining};
ghost use Rattle.std.specs.Io.KnownBytes.{Appends};
ghost use Rattle.canvas_answer.specs.Asking.{asking};
ghost use Rattle.canvas_answer.specs.Printing.{printed};
ghost use Rattle.canvas_command.specs.steps.Batches.{IsAnswered, IsBatch, IsMore, IsPrinted};
ghost use Rattle.canvas_command.specs.declared.batch.Slot.{Slot};

use crate::each::{Flow, Said};
use canvas_answer::input::unread;
use canvas_answer::items::next_item;
use canvas_answer::printing::write_lines;
use canvas_answer::refusal::Refusal;
use canvas_task::Tasks;
use std::alloc::Global;
use std::io::{BufReader, Read, Write};
use std::random::RandomSource;
use std::sync::Wait;
use std::thread::{Threads, for_each_mut};

/// The most bytes that are read at a time. A pipe gives 64 KiB. Threads that have less to do end
/// before the system moves them to other processors.
pub(crate) const READ_AHEAD: usize = 1_048_576;

/// The most items that are answered before their lines are printed.
const MOST_AT_ONCE: usize = 8_192;

/// An item and its line. Until the item is answered, the line is the refusal of a stopped run.
#[derive(Drop)]
pub(crate) struct Slot {
    text: Vec<u8>,
    said: Result<Said, Refusal>,
}

impl Slot {
    fn of(text: Vec<u8>) -> Slot
        ensures { result.text ≡ text }
    {
        Slot {
            text,
            said: Err(Refusal::Stopped),
        }
    }
}

impl<'a, T: Tasks> Flow<'a, T> {
    /// Appends the next item, and returns whether there was one.
    fn push_next<R: Read>(
        &self,
        alloc: Global,
        reader: &mut BufReader<R>,
        batch: &mut Vec<Slot>,
    ) -> Result<bool, Refusal>
        ensures { IfOk result (IsMore self.now.each.end (reader_remaining R.remaining reader.old)
            (reader_remaining R.remaining reader.new) batch.old.items batch.new.items) }
    {
        match next_item(alloc, reader, self.each.end) {
            Ok(Some(text)) => {
                batch.push(Slot::of(text))?;
                Ok(true)
            }
            Ok(None) => Ok(false),
            Err(error) => Err(unread(alloc, &error, self.file)),
        }
    }

    /// Reads an item, and those that end in the bytes that were read with it. After the last item
    /// it returns none. So no item waits for another that may not come.
    pub(crate) fn next_batch<R: Read>(
        &self,
        alloc: Global,
        reader: &mut BufReader<R>,
    ) -> Result<Vec<Slot>, Refusal>
        ensures { IfOk result (λ batch. IsBatch self.now.each.end
            (reader_remaining R.remaining reader.old) (reader_remaining R.remaining reader.new)
            batch.items) }
    {
        let mut batch = Vec::new(alloc);
        for place in 0..MOST_AT_ONCE {
            if place > 0 && !reader.buffer().contains(&self.each.end) {
                return Ok(batch);
            }
            if !self.push_next(alloc, reader, &mut batch)? {
                return Ok(batch);
            }
        }
        Ok(batch)
    }

    /// Answers an item.
    fn fill<S>(&self, rt: &S, slot: &mut Slot)
    where
        S: Threads + Wait + RandomSource + AllocGlobal + Sync,
        T: Sync,
        ensures { IsAnswered (T.behaviour self.now.tasks.now.tasks.now)
            self.now.tasks.now.stubs.items (asking self.now.setting) self.now.each.has_tasks
            slot.old slot.new }
    {
        slot.said = self.line(rt, &slot.text);
    }

    /// Answers items in parallel, each by one worker.
    pub(crate) fn answer<S>(&self, rt: &S, batch: &mut [Slot])
    where
        S: Threads + Wait + RandomSource + AllocGlobal + Sync,
        T: Sync,
        ensures { (i : ℕ) (d : Slot) → i < length batch.old
            → IsAnswered (T.behaviour self.now.tasks.now.tasks.now)
            self.now.tasks.now.stubs.items (asking self.now.setting) self.now.each.has_tasks
            (slice_index_or batch.old i d) (slice_index_or batch.new i d) }
    {
        let workers = (self.each.workers as usize).max(1);
        for_each_mut(rt, batch, workers, &|_, slot| self.fill(rt, slot));
    }
}

/// Writes the line of an item.
fn write_line<W: Write>(out: &mut W, said: &Said) -> Result<(), Refusal>
    ensures { OnOk result (Appends (W.contents out.old) (W.contents out.new)
        (printed (string_bytes said.now.text))) }
{
    match write_lines(out, said.text.as_bytes()) {
        Ok(()) => Ok(()),
        Err(error) => Err(Refusal::of_output(&error)),
    }
}

/// Writes the lines of items, and returns whether the result of one is a failure.
fn write_said<W: Write>(out: &mut W, batch: Vec<Slot>) -> Result<bool, Refusal>
    ensures { IfOk result (IsPrinted (W.contents out.old) (W.contents out.new) batch.items) }
{
    let mut failed = false;
    for slot in batch {
        let said = slot.said?;
        write_line(out, &said)?;
        failed |= said.failed;
    }
    Ok(failed)
}

/// Like `write_said`, but flushes the output, also if an item ends the program.
pub(crate) fn print_batch<W: Write>(out: &mut W, batch: Vec<Slot>) -> Result<bool, Refusal>
    ensures { IfOk result (IsPrinted (W.contents out.old) (W.contents out.new) batch.items) }
{
    let written = write_said(out, batch);
    match out.flush() {
        Ok(()) => written,
        Err(error) => Err(Refusal::of_output(&error)),
    }
}
