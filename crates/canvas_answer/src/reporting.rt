//! Reports as texts or as JSON, and results that decide the status.
ghost use Rattle.std.specs.Prelude.{◌≡◌, IfOk, None, option_map, string_bytes};
ghost use Rattle.canvas_report.specs.Failing.{any_failed};
ghost use Rattle.canvas_semantics.specs.Evaluation.{with_states};
ghost use Rattle.canvas_semantics.specs.Line.{ends_of, tree_of};
ghost use Rattle.canvas_semantics.specs.States.{rows_from, states};
ghost use Rattle.canvas_task.specs.Apply.{Behaviour};
ghost use Rattle.canvas_task.specs.Text.{Text};
ghost use Rattle.canvas_answer.specs.Answers.{AnswersAll, AnswersPart, bytes_of};
ghost use Rattle.canvas_answer.specs.Asking.{asking};
ghost use Rattle.canvas_answer.specs.Plans.{run_line};
ghost use Rattle.canvas_answer.specs.Told.{IsEarlyText, IsReport, IsReportText, IsTold, report_status};
ghost use Rattle.canvas_answer.specs.declared.reporting.Format.TheVariants.{Explained, Plain};

use crate::answer::Answer;
use crate::celery::text_of_rows;
use crate::prepared::Plans;
use crate::refusal::Refusal;
use crate::source::Source;
use canvas_ran::fates;
use canvas_report::{Report, explained_text, is_failure, report_text, stored_text};
use canvas_rewrite::Plan;
use canvas_task::{Memory, Tasks};
use std::alloc::Global;

/// How a report is printed.
#[derive(Clone, Copy, PartialEq, Eq)]
pub enum Format {
    Plain,
    /// Each task is a JSON object in a line.
    Json,
    /// Tasks have their numbers, and a task that wasn't called has its reason.
    Explained,
}

/// How a report is printed, and whether its result has a status.
#[derive(Clone, Copy)]
pub struct OutputOptions {
    pub form: Format,
    /// Whether a failure of the canvas, or a warning, has a status of its own.
    pub fails: bool,
}

/// The status of a canvas whose result is a failure, or that has a warning, if that is asked for.
pub const FAILED: u8 = 3;

impl OutputOptions {
    /// Returns the report of a whole run.
    fn whole_text<T: Tasks>(
        &self,
        alloc: Global,
        plans: &Plans,
        report: &Report,
        source: &Source<'_, T>,
        again: Option<u64>,
    ) -> Result<String, Refusal>
        ensures { (behaviour : Behaviour)
            → report.now.rows ≡ states behaviour (tree_of (run_line plans.now))
            → IfOk result (λ text. IsTold (asking source.now.setting)
            (run_line plans.now) plans.now.shown behaviour self.now.form again
            (string_bytes text)) }
    {
        match self.form {
            Format::Plain => plain_text(alloc, plans, report, source),
            Format::Json => source.json_of(alloc, plans, report, again),
            Format::Explained => explained(alloc, plans, report, source),
        }
    }

    /// Returns the report of a whole run, with the status of its result.
    pub fn whole<T: Tasks>(
        &self,
        alloc: Global,
        plans: &Plans,
        report: &Report,
        source: &Source<'_, T>,
        again: Option<u64>,
    ) -> Result<Answer, Refusal>
        ensures { (behaviour : Behaviour)
            → report.now.rows ≡ states behaviour (tree_of (run_line plans.now))
            → IfOk result (IsReport (asking source.now.setting)
            (run_line plans.now) plans.now.shown behaviour self.now.form self.now.fails again) }
    {
        let text = self.whole_text(alloc, plans, report, source, again)?;
        Ok(self.answer(text.into_bytes(), &plans.shown, report))
    }

    /// Returns the lines of a whole run, with the status of its result.
    pub fn answer(&self, lines: Vec<u8>, plan: &Plan, report: &Report) -> Answer
        ensures { AnswersAll lines.items (report_status self.now.fails
            (any_failed (with_states (rows_from 1 report.now.rows) (ends_of plan.now)))) result }
    {
        let status = if self.fails && is_failure(plan, report) {
            FAILED
        } else {
            0
        };
        Answer::whole(lines).with_status(status)
    }

    /// Returns why a run has no whole report, with what it stored, if that is known and there is
    /// memory for it.
    pub fn early<T>(
        &self,
        alloc: Global,
        plans: &Plans,
        source: &Source<'_, T>,
        stored: Option<&Report>,
        refusal: Refusal,
    ) -> Answer
        ensures { (text : Text) × AnswersPart text refusal result
            × IsEarlyText (asking source.now.setting)
            (run_line plans.now) plans.now.shown self.now.form
            (option_map (λ r. r.now) stored.entry) text }
    {
        let text = self.early_text(alloc, plans, source, stored);
        Answer::in_part(alloc, text, refusal)
    }

    fn early_text<T>(
        &self,
        alloc: Global,
        plans: &Plans,
        source: &Source<'_, T>,
        stored: Option<&Report>,
    ) -> Option<String>
        ensures { IsEarlyText (asking source.now.setting)
            (run_line plans.now) plans.now.shown self.now.form
            (option_map (λ r. r.now) stored.entry) (bytes_of result) }
    {
        match stored {
            Some(report) => self.stored_report(alloc, plans, source, report).ok(),
            None => None,
        }
    }

    /// Returns the report of a run that ended early. It doesn't say which tasks were called, since
    /// its rows don't show whether a pending task will run.
    fn stored_report<T>(
        &self,
        alloc: Global,
        plans: &Plans,
        source: &Source<'_, T>,
        report: &Report,
    ) -> Result<String, Memory>
        ensures { IfOk result (λ text. IsReportText (asking source.now.setting)
            (run_line plans.now) plans.now.shown self.now.form report.now.rows
            (string_bytes text)) }
    {
        let fates = fates(alloc, plans.run(), report)?;
        let rows = source.rows(alloc, plans, report, &fates)?;
        text_of_rows(alloc, &plans.shown, &rows, self.form)
    }
}

fn plain_text<T>(
    alloc: Global,
    plans: &Plans,
    report: &Report,
    source: &Source<'_, T>,
) -> Result<String, Refusal>
    ensures { (behaviour : Behaviour)
        → report.now.rows ≡ states behaviour (tree_of (run_line plans.now))
        → IfOk result (λ text. IsTold (asking source.now.setting)
        (run_line plans.now) plans.now.shown behaviour Plain None (string_bytes text)) }
{
    if source.setting.errors.is_empty() {
        return Ok(report_text(alloc, &plans.shown, report)?);
    }
    let fates = fates(alloc, plans.run(), report)?;
    let rows = source.rows(alloc, plans, report, &fates)?;
    Ok(stored_text(alloc, &plans.shown, &rows)?)
}

fn explained<T>(
    alloc: Global,
    plans: &Plans,
    report: &Report,
    source: &Source<'_, T>,
) -> Result<String, Refusal>
    ensures { (behaviour : Behaviour)
        → report.now.rows ≡ states behaviour (tree_of (run_line plans.now))
        → IfOk result (λ text. IsTold (asking source.now.setting)
        (run_line plans.now) plans.now.shown behaviour Explained None (string_bytes text)) }
{
    let fates = fates(alloc, plans.run(), report)?;
    let rows = source.rows(alloc, plans, report, &fates)?;
    Ok(explained_text(alloc, &plans.shown, &rows, &fates)?)
}
