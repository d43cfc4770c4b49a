//! `canvas graph`: a canvas as a picture.
ghost use Rattle.std.specs.Prelude.{◌≡◌, [], IfOk, List, None, Some, option_map, string_bytes};
ghost use Rattle.canvas_ran.specs.Ran.{fates};
ghost use Rattle.canvas_report.specs.Nodes.{looks};
ghost use Rattle.canvas_report.specs.Picture.{IsPicture};
ghost use Rattle.canvas_report.specs.declared.row.Row.{Row};
ghost use Rattle.canvas_semantics.specs.Line.{tree_of};
ghost use Rattle.canvas_semantics.specs.States.{states};
ghost use Rattle.canvas_task.specs.Apply.{Behaviour};
ghost use Rattle.canvas_task.specs.Text.{Text};
ghost use Rattle.canvas_answer.specs.OnCelery.{IsStoredPicture};
ghost use Rattle.canvas_answer.specs.Asking.{asking};
ghost use Rattle.canvas_answer.specs.Pictured.{IsPictured};
ghost use Rattle.canvas_answer.specs.Plans.{run_line};
ghost use Rattle.canvas_answer.specs.Told.{AreRows};
ghost use Rattle.canvas_answer.specs.declared.graph.Stored.{Stored};

use crate::answer::Answer;
use crate::celery::stored_rows;
use crate::input::results_of;
use crate::prepared::Plans;
use crate::refusal::Refusal;
use crate::source::Source;
use canvas_celery::Run;
use canvas_ran::fates;
use canvas_report::{Report, Row, graph_text};
use canvas_rewrite::Plan;
use canvas_task::Memory;
use std::alloc::Global;
use std::io::Read;
use std::rt::Files;

/// Results that Celery's workers stored.
#[derive(Clone, Copy, Drop)]
pub struct Stored<'w> {
    /// The file with the results, a line each; `-` is standard input.
    pub file: &'w str,
    pub run: Run,
    /// Whether tasks that a failure reaches have their state, too.
    pub completes: bool,
}

/// The states that a picture shows.
#[derive(Clone, Copy, Drop)]
pub enum States<'w> {
    None,
    /// The states of a run by this number of workers.
    Run(u32),
    Stored(Stored<'w>),
}

/// Returns the picture of a plan, with the states of these rows if there are any.
fn picture(alloc: Global, plan: &Plan, rows: Option<&[Row]>) -> Result<Answer, Refusal>
    ensures { IfOk result
        (IsPictured [] (option_map (λ rows. rows.now) rows.entry) plan.now) }
{
    Ok(Answer::whole(graph_text(alloc, plan, rows, &[])?.into_bytes()))
}

/// Returns the picture of a plan with the states of these results.
fn stored_picture(
    alloc: Global,
    plan: &Plan,
    asked: &Stored<'_>,
    results: &[u8],
) -> Result<Answer, Refusal>
    ensures { IfOk result (IsStoredPicture asked.now.run.digits asked.now.completes results.now
        plan.now) }
{
    let rows = stored_rows(alloc, plan, &asked.run, results, asked.completes)?;
    picture(alloc, plan, Some(&rows))
}

fn answer_stored<S, R: Read>(
    rt: &S,
    plan: &Plan,
    asked: &Stored<'_>,
    input: &mut R,
) -> Result<Answer, Refusal>
where
    S: Files + AllocGlobal,
    ensures { IfOk result (λ a. (results : Text)
        × IsStoredPicture asked.now.run.digits asked.now.completes results plan.now a) }
{
    let results = results_of(rt, asked.file, input)?;
    stored_picture(rt.alloc(), plan, asked, &results)
}

/// Returns the picture of a canvas that isn't run, with the stored states if that is asked for.
pub fn plan_picture<S, R: Read>(
    rt: &S,
    stored: Option<Stored<'_>>,
    plan: &Plan,
    input: &mut R,
) -> Result<Answer, Refusal>
where
    S: Files + AllocGlobal,
    ensures plain { stored.entry ≡ None → IfOk result (IsPictured [] None plan.now) }
    ensures stored { (asked : Stored) → stored.entry ≡ Some asked → IfOk result
        (λ a. (results : Text)
        × IsStoredPicture asked.run.digits asked.completes results plan.now a) }
{
    match stored {
        Some(asked) => answer_stored(rt, plan, &asked, input),
        None => picture(rt.alloc(), plan, None),
    }
}

fn picture_text<T>(
    alloc: Global,
    plans: &Plans,
    report: &Report,
    source: &Source<'_, T>,
) -> Result<String, Memory>
    ensures { (behaviour : Behaviour)
        → report.now.rows ≡ states behaviour (tree_of (run_line plans.now))
        → IfOk result (λ text. (rows : List Row)
        × AreRows (asking source.now.setting) (run_line plans.now) plans.now.shown behaviour rows
        × IsPicture (looks (fates behaviour (run_line plans.now)) (Some rows)) plans.now.shown
        (string_bytes text)) }
{
    let fates = fates(alloc, plans.run(), report)?;
    let rows = source.rows(alloc, plans, report, &fates)?;
    graph_text(alloc, &plans.shown, Some(&rows), &fates)
}

/// Returns the picture of a whole run.
pub fn report_picture<T>(
    alloc: Global,
    plans: &Plans,
    report: &Report,
    source: &Source<'_, T>,
) -> Result<Answer, Refusal>
    ensures { (behaviour : Behaviour)
        → report.now.rows ≡ states behaviour (tree_of (run_line plans.now))
        → IfOk result (λ a. (rows : List Row)
        × AreRows (asking source.now.setting) (run_line plans.now) plans.now.shown behaviour rows
        × IsPictured (fates behaviour (run_line plans.now)) (Some rows) plans.now.shown a) }
{
    Ok(Answer::whole(picture_text(alloc, plans, report, source)?.into_bytes()))
}
