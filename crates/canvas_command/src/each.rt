//! `canvas run --each`: a JSON object a line for each canvas of an input, in its order.
ghost use Rattle.std.specs.Prelude.{◌≡◌, [], IfOk, OnOk, false, true};
ghost use Rattle.std.specs.Io.Buffered.{reader_remaining};
ghost use Rattle.std.specs.Io.KnownBytes.{Appends};
ghost use Rattle.canvas_answer.specs.Answers.{AnswersAll};
ghost use Rattle.canvas_answer.specs.Asking.{asked_of, asking};
ghost use Rattle.canvas_answer.specs.Plans.{run_line};
ghost use Rattle.canvas_answer.specs.Printing.{printed};
ghost use Rattle.canvas_answer.specs.declared.refusal.Refusal.TheVariants.{Canvas};
ghost use Rattle.canvas_adapt.specs.Stubs.{stubs_behaviour};
ghost use Rattle.canvas_values.specs.declared.fault.SigFault.{SigFault};
ghost use Rattle.canvas_command.specs.Each.{IsEachAnswered, IsEachDone, IsItemSaid, IsLine, IsOwnSaid, IsSaid};

use crate::batch::print_batch;
use crate::failures::status_of;
use crate::runs::whole_report;
use canvas_adapt::Stubbed;
use canvas_answer::answer::Answer;
use canvas_answer::each::{Each, object_text};
use canvas_answer::items::{item_answers, parts_of};
use canvas_answer::prepared::Plans;
use canvas_answer::printing::write_lines;
use canvas_answer::refusal::Refusal;
use canvas_answer::setting::Setting;
use canvas_answer::source::Source;
use canvas_answer::stubs::Answers;
use canvas_report::is_failure;
use canvas_task::Tasks;
use std::alloc::Global;
use std::io::{self, BufReader, Read, Write};
use std::random::RandomSource;
use std::sync::Wait;
use std::thread::Threads;

/// The line of a canvas, and whether its result is a failure.
#[derive(Drop)]
pub(crate) struct Said {
    /// Its report or its refusal, as an object in a line.
    pub text: String,
    /// Whether its result is a failure.
    pub failed: bool,
}

/// The settings that all canvases of an input share.
#[derive(Drop)]
pub(crate) struct Flow<'a, T> {
    pub each: Each,
    /// The input, as the words name it.
    pub file: &'a str,
    pub setting: Setting<'a>,
    pub tasks: &'a Stubbed<'a, T>,
}

/// Returns the report of a run by these plans with one worker, as an object in a line.
fn ran<S, T>(rt: &S, plans: &Plans, source: &Source<'_, T>) -> Result<Said, Refusal>
where
    S: Threads + Wait + RandomSource + AllocGlobal + Sync,
    T: Tasks + Sync,
    ensures { IfOk result (IsLine (T.behaviour source.now.tasks.now)
        (asking source.now.setting) (run_line plans.now) plans.now.shown) }
{
    let report = whole_report(rt, plans.run(), source.tasks, 1)?;
    let text = object_text(rt.alloc(), plans, &report, source)?;
    let failed = is_failure(&plans.shown, &report);
    Ok(Said { text, failed })
}

/// Returns whether a refusal is that of an item, so that the items after it are answered.
fn is_of_item(each: Each, refusal: &Refusal) -> bool
    ensures { each.has_tasks ≡ false → result ≡ true
        → (fault : SigFault) × (refusal.now ≡ Canvas fault) }
{
    match refusal {
        Refusal::Canvas(_) => true,
        other => each.has_tasks && !other.is_an_end(),
    }
}

/// Returns the line of an item that is refused, or none if the refusal isn't the item's.
fn refused_line(alloc: Global, each: Each, text: &[u8], refusal: Refusal) -> Result<Said, Refusal>
    ensures failed { IfOk result (λ said. said.failed ≡ false) }
    ensures canvas { each.has_tasks ≡ false
        → OnOk result ((fault : SigFault) × (refusal ≡ Canvas fault)) }
{
    if !is_of_item(each, &refusal) {
        return Err(refusal);
    }
    let placed = refusal.placed(alloc, text);
    if placed.is_an_end() {
        return Err(placed);
    }
    let text = placed.json(alloc)?;
    Ok(Said {
        text,
        failed: false,
    })
}

/// Returns the line of a canvas.
fn line_of<S, T>(rt: &S, each: Each, source: &Source<'_, T>) -> Result<Said, Refusal>
where
    S: Threads + Wait + RandomSource + AllocGlobal + Sync,
    T: Tasks + Sync,
    ensures { IfOk result (IsSaid (T.behaviour source.now.tasks.now)
        (asking source.now.setting) each.has_tasks source.now.text.now) }
{
    match source.checked_plans(rt.alloc()) {
        Ok(plans) => ran(rt, &plans, source),
        Err(refusal) => refused_line(rt.alloc(), each, source.text, refusal),
    }
}

impl<'a, T: Tasks> Flow<'a, T> {
    /// Returns the line of a canvas whose tasks answer only as the command line says.
    fn line_of_canvas<S>(&self, rt: &S, text: &[u8]) -> Result<Said, Refusal>
    where
        S: Threads + Wait + RandomSource + AllocGlobal + Sync,
        T: Sync,
        ensures { IfOk result (IsSaid (stubs_behaviour self.now.tasks.now.stubs.items
            (T.behaviour self.now.tasks.now.tasks.now)) (asking self.now.setting)
            self.now.each.has_tasks text.now) }
    {
        let source = Source {
            text,
            setting: self.setting,
            tasks: self.tasks,
        };
        line_of(rt, self.each, &source)
    }

    /// Returns the line of a canvas if some tasks have these answers.
    fn line_where<S>(&self, rt: &S, text: &[u8], answers: Answers) -> Result<Said, Refusal>
    where
        S: Threads + Wait + RandomSource + AllocGlobal + Sync,
        T: Sync,
        ensures { IfOk result (IsSaid (stubs_behaviour answers.stubs.items
            (T.behaviour self.now.tasks.now.tasks.now))
            (asked_of self.now.setting.adapts answers) self.now.each.has_tasks text.now) }
    {
        let Answers {
            stubs,
            said,
            errors,
            renames,
        } = answers;
        let stubbed = Stubbed {
            stubs,
            tasks: self.tasks.tasks,
        };
        let setting = Setting {
            adapts: self.setting.adapts,
            stubs: &stubbed.stubs,
            said: stubbed.stubs.get(..said).unwrap_or(&[]),
            errors: &errors,
            renames: &renames,
        };
        let source = Source {
            text,
            setting,
            tasks: &stubbed,
        };
        line_of(rt, self.each, &source)
    }

    /// Returns the line of an item that begins with its tasks' answers.
    fn line_of_both<S>(&self, rt: &S, item: &[u8]) -> Result<Said, Refusal>
    where
        S: Threads + Wait + RandomSource + AllocGlobal + Sync,
        T: Sync,
        ensures { self.now.each.has_tasks ≡ true → IfOk result (IsOwnSaid
            (T.behaviour self.now.tasks.now.tasks.now) self.now.setting.adapts) }
    {
        let (lines, text) = parts_of(item);
        match item_answers(rt.alloc(), lines, self.file, self.setting) {
            Ok(answers) => self.line_where(rt, text, answers),
            Err(refusal) => refused_line(rt.alloc(), self.each, text, refusal),
        }
    }

    /// Returns the line of an item.
    pub(crate) fn line<S>(&self, rt: &S, item: &[u8]) -> Result<Said, Refusal>
    where
        S: Threads + Wait + RandomSource + AllocGlobal + Sync,
        T: Sync,
        ensures { IfOk result (IsItemSaid (T.behaviour self.now.tasks.now.tasks.now)
            self.now.tasks.now.stubs.items (asking self.now.setting) self.now.each.has_tasks
            item.now) }
    {
        if self.each.has_tasks {
            self.line_of_both(rt, item)
        } else {
            self.line_of_canvas(rt, item)
        }
    }
}

/// Writes a line, and flushes the output.
pub(crate) fn print_line<W: Write>(out: &mut W, text: &str) -> io::Result<()>
    ensures { OnOk result (Appends (W.contents out.old) (W.contents out.new) (printed text.now)) }
{
    write_lines(out, text.as_bytes())?;
    out.flush()
}

/// Returns the answer once all lines are printed.
pub(crate) fn ended(alloc: Global, status: u8) -> Answer
    ensures { AnswersAll [] status result }
{
    Answer::whole(Vec::new(alloc)).with_status(status)
}

/// Prints a line for each canvas of an input, in its order. Those that were read together are
/// answered in parallel, and their lines are flushed before more is read. With `--fail` the status
/// is that of a failure if a canvas's result is one. If a call ends early, the lines that it made
/// are printed.
#[tactic(auto, using(crate::proofs::Batches::none_done))]
pub(crate) fn answer_each<S, T, R: Read, W: Write>(
    rt: &S,
    flow: &Flow<'_, T>,
    reader: &mut BufReader<R>,
    out: &mut W,
) -> Result<Answer, Refusal>
where
    S: Threads + Wait + RandomSource + AllocGlobal + Sync,
    T: Tasks + Sync,
    ensures lines { IfOk result (IsEachAnswered (T.behaviour flow.now.tasks.now.tasks.now)
        flow.now.tasks.now.stubs.items (asking flow.now.setting) flow.now.each
        (reader_remaining R.remaining reader.old) (W.contents out.old) (W.contents out.new)) }
    ensures status { IfOk result (IsEachDone flow.now.each.fails) }
{
    let mut failed = false;
    for _ in 0..u64::MAX {
        let mut batch = flow.next_batch(rt.alloc(), reader)?;
        if batch.is_empty() {
            return Ok(ended(rt.alloc(), status_of(flow.each.fails, failed)));
        }
        flow.answer(rt, &mut batch);
        failed |= print_batch(out, batch)?;
    }
    Err(Refusal::Stopped)
}
