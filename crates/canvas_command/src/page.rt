//! `canvas page`: an HTML page of the program's answers about a canvas to other words.
//!
//! It is a head, a block of data and a tail. Head and tail are the same for one version of the
//! program. The block is the text of `<script type="application/json" id="data">`. It has lines of
//! JSON, which the program prints as answers to other words with the same `--adapt`, `--task` and
//! `--tasks`:
//!
//! 1. the line of `normal --numbers`
//! 2. the first line of `run --failures=WORD`
//! 3. for a run by 1 worker, by 2, by 2 with all messages redelivered, and by 4:
//!    `{"again":false,"workers":1}` with its own values, and then the lines of `turns --steps` with
//!    this `--workers`, and with `--again=all` if `again` is true
//! 4. the other lines of `run --failures=WORD`
//!
//! 3 and 4 are left out if the canvas has more than 200 tasks, or 1 more than 65,536 bytes: the
//! lines of 4 grow with the square of the number of tasks. WORD is raise:Exception if `--failures`
//! isn't given.
//!
//! Other characters than printable ASCII are escaped as in JSON's strings, also in 1, and `<`, `>`
//! and `&` are written `\u003c`, `\u003e` and `\u0026`. They are in texts of the JSON only, so its
//! meaning stays, and no text ends the block.

ghost use Rattle.std.specs.Prelude.{◌≡◌, ◌++◌, IfOk, OnOk, List, flat_map, map, string_bytes, true};
ghost use Rattle.canvas_semantics.specs.Line.{count_line};
ghost use Rattle.canvas_adapt.specs.Stubs.{stubs_behaviour};
ghost use Rattle.canvas_task.specs.Text.{Text};
ghost use Rattle.canvas_answer.specs.Answers.{printed_out};
ghost use Rattle.canvas_answer.specs.Asking.{asked_of, asking};
ghost use Rattle.canvas_answer.specs.Cases.{AreAllRows};
ghost use Rattle.canvas_answer.specs.Normal.{numbered_line};
ghost use Rattle.canvas_answer.specs.Plans.{ArePlansOf, IsCanvasOf, IsPlanOf, run_line};
ghost use Rattle.canvas_answer.specs.Printing.{printed};
ghost use Rattle.canvas_command.specs.Failing.{AreCaseLines};
ghost use Rattle.canvas_command.specs.Paged.{AreRunsShown, cases_shown, IsBlock, IsPaged, IsRunShown, is_short, run_head};

use crate::failures::{print, print_cases};
use crate::runs::answer_steps;
use canvas_adapt::Stubbed;
use canvas_answer::answer::Answer;
use canvas_answer::failures::{Base, Cases, Ready};
use canvas_answer::normal::numbered_line;
use canvas_answer::plan::lasting;
use canvas_answer::prepared::Plans;
use canvas_answer::refusal::Refusal;
use canvas_answer::setting::Setting;
use canvas_answer::source::Source;
use canvas_answer::stubs::Answers;
use canvas_report::page_text;
use canvas_rewrite::Plan;
use canvas_task::Tasks;
use std::alloc::{AllocError, Global};

/// The most tasks of a canvas whose cases and runs are in its page; `MOST_BYTES` is the most bytes
/// of its line. The cases of a chain grow with the square of its length, and each is evaluated
/// separately.
const MOST_TASKS: u32 = 200;

const MOST_BYTES: usize = 65_536;

/// Returns whether a page has the cases and runs of a plan with this line.
fn is_short(plan: &Plan, line: &str) -> bool
    ensures { line.now ≡ numbered_line plan.now → result ≡ is_short plan.now }
{
    plan.tasks() <= MOST_TASKS && line.len() <= MOST_BYTES
}

/// Appends what an answer prints.
fn put_answer(alloc: Global, answer: &Answer, lines: &mut Vec<u8>) -> Result<(), Refusal>
    ensures { OnOk result (lines.new.items ≡ lines.old.items ++ printed_out answer.now) }
{
    match answer.write_out(alloc, lines) {
        Ok(()) => Ok(()),
        Err(error) => Err(Refusal::of_output(&error)),
    }
}

/// Returns the line before the steps of a run.
fn run_head(alloc: Global, workers: u32, again: bool) -> Result<String, AllocError>
    ensures { IfOk result (λ text. string_bytes text ≡ run_head workers again) }
{
    let again = if again { "true" } else { "false" };
    let mut text = String::new(alloc);
    writeln!(text, "{{\"again\":{again},\"workers\":{workers}}}")?;
    Ok(text)
}

/// Appends the steps of a run.
fn put_run<T: Tasks>(
    alloc: Global,
    workers: u32,
    again: bool,
    plans: &Plans,
    source: &Source<'_, T>,
    lines: &mut Vec<u8>,
) -> Result<(), Refusal>
    ensures { ArePlansOf (asking source.now.setting) source.now.text.now plans.now.shown
        (run_line plans.now)
        → OnOk result ((text : Text) × IsRunShown (T.behaviour source.now.tasks.now)
        (asking source.now.setting) source.now.text.now workers again text
        × (lines.new.items ≡ lines.old.items ++ text)) }
{
    lines.extend_from_slice(run_head(alloc, workers, again)?.as_bytes())?;
    let answer = answer_steps(alloc, workers, again, plans, source)?;
    put_answer(alloc, &answer, lines)
}

/// Appends the steps of the runs that a page shows.
fn put_runs<T: Tasks>(
    alloc: Global,
    plans: &Plans,
    source: &Source<'_, T>,
    lines: &mut Vec<u8>,
) -> Result<(), Refusal>
    ensures { ArePlansOf (asking source.now.setting) source.now.text.now plans.now.shown
        (run_line plans.now)
        → OnOk result ((text : Text) × AreRunsShown (T.behaviour source.now.tasks.now)
        (asking source.now.setting) source.now.text.now true text
        × (lines.new.items ≡ lines.old.items ++ text)) }
{
    put_run(alloc, 1, false, plans, source, lines)?;
    put_run(alloc, 2, false, plans, source, lines)?;
    put_run(alloc, 2, true, plans, source, lines)?;
    put_run(alloc, 4, false, plans, source, lines)
}

/// Like `put_runs`, for the canvas of cases.
fn put_runs_of<T: Tasks>(
    alloc: Global,
    cases: &Cases<'_, T>,
    ready: Ready,
    lines: &mut Vec<u8>,
) -> Result<Ready, Refusal>
    ensures ready { IfOk result (λ r. r ≡ ready) }
    ensures lines { ArePlansOf (asked_of cases.now.adapts ready.answers) cases.now.text.now
        ready.plans.shown (run_line ready.plans)
        → OnOk result ((text : Text) × AreRunsShown
        (stubs_behaviour ready.answers.stubs.items (T.behaviour cases.now.tasks.now))
        (asked_of cases.now.adapts ready.answers) cases.now.text.now true text
        × (lines.new.items ≡ lines.old.items ++ text)) }
{
    let Ready { plans, answers } = ready;
    let Answers {
        stubs,
        said,
        errors,
        renames,
    } = answers;
    let stubbed = Stubbed {
        stubs,
        tasks: cases.tasks,
    };
    let setting = Setting {
        adapts: cases.adapts,
        stubs: &stubbed.stubs,
        said: &[],
        errors: &errors,
        renames: &renames,
    };
    let source = Source {
        text: cases.text,
        setting,
        tasks: &stubbed,
    };
    put_runs(alloc, &plans, &source, lines)?;
    let Stubbed { stubs, .. } = stubbed;
    let answers = Answers {
        stubs,
        said,
        errors,
        renames,
    };
    Ok(Ready { plans, answers })
}

/// Appends the runs, and the lines of the cases, if a page has those of the canvas.
fn put_short<T: Tasks>(
    alloc: Global,
    cases: &Cases<'_, T>,
    ready: Ready,
    short: bool,
    base: &Base,
    lines: &mut Vec<u8>,
) -> Result<(), Refusal>
    ensures { ArePlansOf (asked_of cases.now.adapts ready.answers) cases.now.text.now
        ready.plans.shown (run_line ready.plans)
        → IsPlanOf cases.now.canvas ready.plans.shown
        → AreAllRows base.now.told ready.plans.shown (map string_bytes base.now.rows.items)
        → OnOk result ((played : Text) × (failing : List Text)
        × AreRunsShown (stubs_behaviour ready.answers.stubs.items (T.behaviour cases.now.tasks.now))
        (asked_of cases.now.adapts ready.answers) cases.now.text.now
        short played
        × AreCaseLines (asked_of cases.now.adapts ready.answers)
        (T.behaviour cases.now.tasks.now) cases.now.word.now cases.now.canvas
        ready.plans.shown base.now.told (cases_shown short ready.plans.shown) failing
        × (lines.new.items ≡ lines.old.items ++ (played ++ flat_map printed failing))) }
{
    if short {
        let ready = put_runs_of(alloc, cases, ready, lines)?;
        return print_cases(alloc, cases, ready, base, lines);
    }
    lasting(ready);
    Ok(())
}

/// Returns the block of a page.
fn block<T: Tasks>(
    alloc: Global,
    cases: &Cases<'_, T>,
    answers: Answers,
) -> Result<Vec<u8>, Refusal>
    ensures { IsCanvasOf cases.now.adapts cases.now.text.now cases.now.canvas
        → IfOk result (λ lines. IsBlock (T.behaviour cases.now.tasks.now)
        (asked_of cases.now.adapts answers) cases.now.word.now cases.now.text.now
        lines.items) }
{
    let ready = cases.ready(alloc, answers)?;
    let mut lines = Vec::new(alloc);
    let line = numbered_line(alloc, &ready.plans.shown)?;
    let short = is_short(&ready.plans.shown, &line);
    print(&mut lines, &line)?;
    let (line, base, ready) = cases.first(alloc, ready)?;
    print(&mut lines, &line)?;
    put_short(alloc, cases, ready, short, &base, &mut lines)?;
    Ok(lines)
}

/// Answers with the page of a canvas.
pub(crate) fn answer_page<T: Tasks>(
    alloc: Global,
    cases: Cases<'_, T>,
    answers: Answers,
) -> Result<Answer, Refusal>
    ensures { IsCanvasOf cases.entry.adapts cases.entry.text.now cases.entry.canvas
        → IfOk result (IsPaged (T.behaviour cases.entry.tasks.now)
        (asked_of cases.entry.adapts answers) cases.entry.word.now cases.entry.text.now) }
{
    let cases = lasting(cases);
    let lines = block(alloc, &cases, answers)?;
    Ok(Answer::raw(page_text(alloc, &lines)?))
}
