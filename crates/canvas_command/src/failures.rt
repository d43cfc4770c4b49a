//! `canvas run --failures`: a JSON line for the canvas as it is, and one for each task, in which
//! only that task fails. Each is printed before the next one is made.

ghost use Rattle.std.specs.Prelude.{◌≡◌, IfOk, List, OnOk, flat_map, map, string_bytes};
ghost use Rattle.std.specs.Io.KnownBytes.{Appends};
ghost use Rattle.canvas_semantics.specs.Line.{count_line};
ghost use Rattle.canvas_adapt.specs.Stubs.{stubs_behaviour};
ghost use Rattle.canvas_task.specs.Text.{Text};
ghost use Rattle.canvas_answer.specs.Asking.{asked_of};
ghost use Rattle.canvas_answer.specs.Cases.{AreAllRows};
ghost use Rattle.canvas_answer.specs.Plans.{IsPlanOf};
ghost use Rattle.canvas_answer.specs.Printing.{printed};
ghost use Rattle.canvas_answer.specs.Told.{report_status};
ghost use Rattle.canvas_command.specs.Failing.{AreCaseLines, AreFailureLines, IsFailedAs, IsFailuresDone};

use crate::each::{ended, print_line};
use canvas_answer::answer::Answer;
use canvas_answer::failures::{Base, Cases, Failures, Ready};
use canvas_answer::plan::lasting;
use canvas_answer::refusal::Refusal;
use canvas_answer::reporting::FAILED;
use canvas_answer::stubs::Answers;
use canvas_task::Tasks;
use std::alloc::Global;
use std::io::Write;

pub(crate) fn print<W: Write>(out: &mut W, line: &str) -> Result<(), Refusal>
    ensures { OnOk result (Appends (W.contents out.old) (W.contents out.new) (printed line.now)) }
{
    match print_line(out, line) {
        Ok(()) => Ok(()),
        Err(error) => Err(Refusal::of_output(&error)),
    }
}

/// Prints the line of each case, in the order of the tasks' numbers.
pub(crate) fn print_cases<T: Tasks, W: Write>(
    alloc: Global,
    cases: &Cases<'_, T>,
    ready: Ready,
    base: &Base,
    out: &mut W,
) -> Result<(), Refusal>
    ensures { IsPlanOf cases.now.canvas ready.plans.shown
        → AreAllRows base.now.told ready.plans.shown (map string_bytes base.now.rows.items)
        → OnOk result ((lines : List Text)
        × AreCaseLines (asked_of cases.now.adapts ready.answers)
        (T.behaviour cases.now.tasks.now) cases.now.word.now cases.now.canvas
        ready.plans.shown base.now.told (count_line ready.plans.shown) lines
        × Appends (W.contents out.old) (W.contents out.new) (flat_map printed lines)) }
{
    let mut ready = ready;
    for place in 0..ready.tasks() {
        let task = ready.task_at(place);
        let (line, again) = cases.line(alloc, ready, base, task)?;
        print(out, &line)?;
        ready = again;
    }
    lasting(ready);
    Ok(())
}

/// Prints a line for the canvas without a failure, and then one for each task.
fn print_all<T: Tasks, W: Write>(
    alloc: Global,
    cases: &Cases<'_, T>,
    answers: Answers,
    out: &mut W,
) -> Result<Base, Refusal>
    ensures lines { OnOk result ((lines : List Text)
        × AreFailureLines (asked_of cases.now.adapts answers) (T.behaviour cases.now.tasks.now)
        cases.now.word.now cases.now.canvas lines
        × Appends (W.contents out.old) (W.contents out.new) (flat_map printed lines)) }
    ensures failed { IfOk result (λ base. IsFailedAs
        (stubs_behaviour answers.stubs.items (T.behaviour cases.now.tasks.now))
        (asked_of cases.now.adapts answers) cases.now.canvas base.told.failed) }
{
    let (line, base, ready) = cases.first(alloc, cases.ready(alloc, answers)?)?;
    print(out, &line)?;
    print_cases(alloc, cases, ready, &base, out)?;
    Ok(base)
}

pub(crate) fn status_of(counts: bool, failed: bool) -> u8
    ensures { result ≡ report_status counts failed }
{
    if counts && failed { FAILED } else { 0 }
}

/// Answers `--failures`. If that is asked for, the status is that of a failure if the canvas's
/// result is one already.
pub(crate) fn answer_failures<T: Tasks, W: Write>(
    alloc: Global,
    cases: Cases<'_, T>,
    failures: Failures<'_>,
    answers: Answers,
    out: &mut W,
) -> Result<Answer, Refusal>
    ensures lines { OnOk result ((lines : List Text)
        × AreFailureLines (asked_of cases.entry.adapts answers)
        (T.behaviour cases.entry.tasks.now) cases.entry.word.now cases.entry.canvas lines
        × Appends (W.contents out.old) (W.contents out.new) (flat_map printed lines)) }
    ensures status { IfOk result (IsFailuresDone
        (stubs_behaviour answers.stubs.items (T.behaviour cases.entry.tasks.now))
        (asked_of cases.entry.adapts answers) cases.entry.canvas failures.entry.fails) }
{
    let cases = lasting(cases);
    let base = lasting(print_all(alloc, &cases, answers, out)?);
    Ok(ended(alloc, status_of(failures.fails, base.failed())))
}
