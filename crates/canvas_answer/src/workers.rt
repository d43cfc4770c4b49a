//! Requests about a canvas's run on Celery's own workers, for a canvas that may be adapted first.
ghost use Rattle.std.specs.Prelude.{IfOk};
ghost use Rattle.canvas_semantics.specs.Line.{Line};
ghost use Rattle.canvas_task.specs.Text.{Text};
ghost use Rattle.canvas_answer.specs.OnCelery.{IsOnCelery};
ghost use Rattle.canvas_answer.specs.Plans.{IsSpelled, IsTextPlan};

use crate::answer::Answer;
use crate::celery::{OnCelery, answer_celery};
use crate::prepared::Spelled;
use crate::refusal::Refusal;
use canvas_celery::Run;
use std::io::Read;
use std::rt::Files;

/// Answers a request about a canvas's run on Celery's workers. If the canvas is adapted first, this
/// uses its text, since the remark on what the workers get otherwise is about that.
pub fn answer_workers<S, R: Read>(
    rt: &S,
    run: &Run,
    asked: OnCelery<'_>,
    text: &[u8],
    adapts: bool,
    input: &mut R,
) -> Result<Answer, Refusal>
where
    S: Files + AllocGlobal,
    ensures { IfOk result (λ a. (made : Text) × IsSpelled adapts text.now made
        × ((l : Line) × IsTextPlan made l × IsOnCelery run.now.digits asked.entry l a)) }
{
    let spelled = Spelled::of(rt.alloc(), text, adapts)?;
    answer_celery(rt, run, asked, spelled.text(text), spelled.texts(), input)
}
