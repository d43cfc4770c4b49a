//! `canvas check`: the statistics and warnings of a canvas, or where it is refused.

use crate::messages::messages_of;
use canvas_answer::answer::Answer;
use canvas_answer::figures::Figures;
use canvas_answer::plan::lasting;
use canvas_answer::prepared::Spelled;
use canvas_answer::refusal::Refusal;
use canvas_answer::reporting::OutputOptions;
use canvas_answer::source::Source;
use canvas_answer::warnings::warnings_of;
use canvas_check::{Reading, Signature, read};
use canvas_rewrite::Plan;
use canvas_sig::Canvas;
use canvas_task::Tasks;
use std::alloc::Global;

/// Returns the statistics of a canvas. Each name in the words must be that of a task.
fn figures_of<T: Tasks>(
    alloc: Global,
    source: &Source<'_, T>,
    canvas: Canvas,
) -> Result<Figures, Refusal> {
    let depths = canvas.depths();
    let plan = lasting(Plan::of(alloc, canvas)?);
    source.check_names(alloc, &plan)?;
    let messages = messages_of(alloc, source.tasks, 1, &[], &plan)?;
    Ok(Figures::of(alloc, &plan, depths, &messages)?)
}

/// Answers for a canvas that is accepted and has these signatures.
fn checked<T: Tasks>(
    alloc: Global,
    output: OutputOptions,
    source: &Source<'_, T>,
    canvas: Canvas,
    signatures: &[Signature],
) -> Result<Answer, Refusal> {
    let warnings = warnings_of(alloc, source, &canvas, signatures)?;
    let figures = figures_of(alloc, source, canvas)?;
    figures.answer(alloc, output, &warnings)
}

/// Answers for the canvas that a text spells, or says where it is refused.
fn answer_spelled<T: Tasks>(
    alloc: Global,
    output: OutputOptions,
    source: &Source<'_, T>,
) -> Result<Answer, Refusal> {
    match read(alloc, source.text)? {
        Reading::Canvas { canvas, signatures } => {
            checked(alloc, output, source, canvas, &signatures)
        }
        Reading::Refused(finding) => Err(Refusal::Found(finding)),
    }
}

/// Answers for a canvas. If it is adapted first, the answer is about the adapted text, since it
/// names places in that.
pub(crate) fn answer_check<T: Tasks>(
    alloc: Global,
    output: OutputOptions,
    source: &Source<'_, T>,
) -> Result<Answer, Refusal> {
    let spelled = Spelled::of(alloc, source.text, source.setting.adapts)?;
    let source = Source {
        text: spelled.text(source.text),
        setting: source.setting,
        tasks: source.tasks,
    };
    answer_spelled(alloc, output, &source)
}
