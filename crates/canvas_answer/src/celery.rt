//! The commands for a canvas on Celery's own workers: its start, the keys of its results, and the
//! report of what these workers stored.
ghost use Rattle.std.specs.Prelude.{◌≡◌, true, IfOk, string_bytes};
ghost use Rattle.canvas_celery.specs.Keys.{result_keys};
ghost use Rattle.canvas_semantics.specs.Line.{Line, count_line};
ghost use Rattle.canvas_task.specs.Text.{Text};
ghost use Rattle.canvas_answer.specs.Answers.{AnswersAll};
ghost use Rattle.canvas_answer.specs.OnCelery.{IsOnCelery, IsCollected, IsStoredText, AreCompleted, AreReported, commands_of};
ghost use Rattle.canvas_answer.specs.Plans.{IsTextPlan};

mod filled;
mod refusal;

use crate::answer::Answer;
use crate::ignored::export_remark;
use crate::input::results_of;
use crate::plan::{lasting, plan_of, signed_plan};
use crate::refusal::Refusal;
use crate::reporting::{Format, OutputOptions};
use canvas_celery::{Run, Start, Target, collect, complete, keys};
use canvas_report::{Row, Told, explained_text, stored_rows_text, stored_text};
use canvas_rewrite::Plan;
use canvas_task::Memory;
use filled::answer_filled;
pub use filled::{PlaceFault, ValueFault};
pub use refusal::CeleryRefusal;
use std::alloc::Global;
use std::io::Read;
use std::rt::Files;

/// A request about a run on Celery's own workers.
#[derive(Clone, Copy, Drop)]
pub enum OnCelery<'w> {
    /// Its start, as commands for Redis.
    Export {
        target: Target<'w>,
        /// The file with the values of its places, if it has them; `-` is standard input.
        values: Option<&'w str>,
    },
    /// The keys of its results on Redis.
    Keys {
        prefix: &'w str,
    },
    /// The report of the results that Celery's workers stored.
    Collect(Collecting),
}

/// How stored results are reported.
#[derive(Clone, Copy, Drop)]
pub struct Collecting {
    /// Whether the report also has the tasks that a failure reaches.
    pub completes: bool,
    /// The form. A report of what workers stored has no status of its own.
    pub output: OutputOptions,
}

/// Answers a request about a canvas's run, whose results the input gives. `texts` arguments of the
/// canvas were made texts when it was adapted.
pub fn answer_celery<S, R: Read>(
    rt: &S,
    run: &Run,
    asked: OnCelery<'_>,
    text: &[u8],
    texts: usize,
    input: &mut R,
) -> Result<Answer, Refusal>
where
    S: Files + AllocGlobal,
    ensures { IfOk result (λ a. (l : Line) × IsTextPlan text.now l
        × IsOnCelery run.now.digits asked.entry l a) }
{
    let alloc = rt.alloc();
    match asked {
        OnCelery::Export {
            target,
            values: Some(file),
        } => answer_filled(rt, run, &target, file, text, texts, input),
        OnCelery::Export {
            target,
            values: None,
        } => answer_export(alloc, run, &target, text, texts),
        OnCelery::Keys { prefix } => {
            let plan = lasting(plan_of(alloc, text)?);
            answer_keys(alloc, &plan, run, prefix)
        }
        OnCelery::Collect(collecting) => {
            let plan = lasting(plan_of(alloc, text)?);
            answer_collect(rt, &plan, run, collecting, input)
        }
    }
}

/// Returns the commands for Redis that start a canvas, with a remark on what the workers get
/// otherwise.
fn answer_export(
    alloc: Global,
    run: &Run,
    target: &Target<'_>,
    text: &[u8],
    texts: usize,
) -> Result<Answer, Refusal>
    ensures { IfOk result (λ a. (l : Line) × IsTextPlan text.now l
        × AnswersAll (commands_of run.now.digits target.now l) 0 a) }
{
    let (plan, signatures) = signed_plan(alloc, text)?;
    let start = Start::of(alloc, plan, run, target)?;
    let remark = export_remark(alloc, signatures, texts)?;
    Ok(Answer::start(start).with_remark(remark))
}

/// Returns the keys of a canvas's results, a line each.
fn answer_keys(alloc: Global, plan: &Plan, run: &Run, prefix: &str) -> Result<Answer, Refusal>
    ensures { IfOk result
        (AnswersAll (result_keys run.now.digits prefix.now (count_line plan.now)) 0) }
{
    Ok(Answer::raw(keys(alloc, plan, run, prefix)?))
}

/// Returns the report of a canvas from the results that the input gives.
fn answer_collect<S, R: Read>(
    rt: &S,
    plan: &Plan,
    run: &Run,
    collecting: Collecting,
    input: &mut R,
) -> Result<Answer, Refusal>
where
    S: Files + AllocGlobal,
    ensures { IfOk result
        (λ a. (results : Text) × IsCollected run.now.digits collecting results plan.now a) }
{
    let results = results_of(rt, "-", input)?;
    answer_results(rt.alloc(), plan, run, collecting, results)
}

/// Returns the report of these results. They may be long, and are dropped before it is made.
fn answer_results(
    alloc: Global,
    plan: &Plan,
    run: &Run,
    collecting: Collecting,
    results: Vec<u8>,
) -> Result<Answer, Refusal>
    ensures { IfOk result (IsCollected run.now.digits collecting results.items plan.now) }
{
    let rows = stored_rows(alloc, plan, run, &results, collecting.completes)?;
    drop(results);
    let text = text_of_rows(alloc, plan, &rows, collecting.output.form)?;
    Ok(Answer::whole(text.into_bytes()))
}

/// Returns the report of rows of any kind. Celery's workers store nothing more.
pub(crate) fn text_of_rows(
    alloc: Global,
    plan: &Plan,
    rows: &[Row],
    form: Format,
) -> Result<String, Memory>
    ensures { IfOk result (λ text. IsStoredText form plan.now rows.now (string_bytes text)) }
{
    match form {
        Format::Plain => stored_text(alloc, plan, rows),
        Format::Json => {
            let told = Told {
                fates: &[],
                blamed: &[],
                again: None,
            };
            stored_rows_text(alloc, plan, rows, told)
        }
        Format::Explained => explained_text(alloc, plan, rows, &[]),
    }
}

/// Parses the run that the words name.
pub(crate) fn run_of(text: &str) -> Result<Run, Refusal>
    ensures { IfOk result (λ run. run.digits ≡ text.now) }
{
    match Run::of_text(text) {
        Some(run) => Ok(run),
        None => Err(Refusal::Celery(CeleryRefusal::BadRun)),
    }
}

/// Returns rows with the failures that reach those that are pending.
fn completed_rows(plan: &Plan, rows: Vec<Row>) -> Result<Vec<Row>, Refusal>
    ensures { IfOk result (λ made. AreCompleted true plan.now rows.items made.items) }
{
    let mut made = rows;
    complete(plan, made.as_mut_slice())?;
    Ok(made)
}

/// Returns the rows of stored results, completed if that is asked for.
pub(crate) fn stored_rows(
    alloc: Global,
    plan: &Plan,
    run: &Run,
    results: &[u8],
    completes: bool,
) -> Result<Vec<Row>, Refusal>
    ensures { IfOk result
        (λ rows. AreReported run.now.digits completes results.now plan.now rows.items) }
{
    let rows = collect(alloc, plan, run, results)?;
    if completes {
        completed_rows(plan, rows)
    } else {
        Ok(rows)
    }
}
