//! `canvas normal`: the line that a canvas is run as.
ghost use Rattle.std.specs.Prelude.{◌≡◌, ◌++◌, IfOk, codes, string_bytes};
ghost use Rattle.canvas_values.specs.SignatureView.{view};
ghost use Rattle.canvas_task.specs.Text.{Text};
ghost use Rattle.canvas_answer.specs.Answers.{AnswersAll};
ghost use Rattle.canvas_answer.specs.Normal.{IsNormalNode, IsNormalText, numbered_line};

use crate::answer::Answer;
use crate::refusal::Refusal;
use canvas_envelope::numbered_text;
use canvas_rewrite::{Plan, node_of, normalise};
use canvas_sig::{Canvas, write_node};
use canvas_task::Memory;
use canvas_values::Node;
use std::alloc::{AllocError, Global};

/// Returns the normal line of a canvas, as a signature.
fn line_node(alloc: Global, canvas: &Canvas) -> Result<Node, Memory>
    ensures { IfOk result (λ node. IsNormalNode canvas.now (view node)) }
{
    let line = normalise(alloc, canvas)?;
    node_of(alloc, &line)
}

/// Returns the normal line of a canvas as JSON.
fn line_json(alloc: Global, canvas: &Canvas) -> Result<String, Memory>
    ensures { IfOk result (λ text. IsNormalText canvas.now (string_bytes text ++ codes "\n")) }
{
    let node = line_node(alloc, canvas)?;
    write_node(alloc, &node)
}

fn line_text(alloc: Global, canvas: &Canvas) -> Result<String, Memory>
    ensures { IfOk result (λ text. IsNormalText canvas.now (string_bytes text)) }
{
    let mut text = line_json(alloc, canvas)?;
    text.push('\n')?;
    Ok(text)
}

/// Returns the line of a plan as JSON, which names its tasks, groups and chords, with a line feed.
pub fn numbered_line(alloc: Global, plan: &Plan) -> Result<String, AllocError>
    ensures { IfOk result (λ text. string_bytes text ≡ numbered_line plan.now) }
{
    let mut text = numbered_text(alloc, plan.line())?;
    text.push_str("\n")?;
    Ok(text)
}

/// Answers with the line of a plan as JSON, which names its tasks, groups and chords, with a line
/// feed.
pub fn answer_numbered(alloc: Global, plan: &Plan) -> Result<Answer, Refusal>
    ensures { IfOk result (AnswersAll (numbered_line plan.now) 0) }
{
    let line = numbered_line(alloc, plan)?;
    Ok(Answer::raw(line.into_bytes()))
}

/// Answers with the normal line of a canvas as JSON, with a line feed.
pub fn answer_normal(alloc: Global, canvas: &Canvas) -> Result<Answer, Refusal>
    ensures { IfOk result (λ a. (line : Text) × IsNormalText canvas.now line
        × AnswersAll line 0 a) }
{
    match line_text(alloc, canvas) {
        Ok(line) => Ok(Answer::raw(line.into_bytes())),
        Err(Memory) => Err(Refusal::Memory),
    }
}
