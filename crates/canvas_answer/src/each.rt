//! Many canvases in one input: how they are run, and the JSON object of each.
ghost use Rattle.std.specs.Str.Lines.{lines};
ghost use Rattle.std.specs.Prelude.{◌≡◌, ◌++◌, OnOk, IfOk, codes, map, string_bytes};
ghost use Rattle.canvas_semantics.specs.Line.{tree_of};
ghost use Rattle.canvas_semantics.specs.States.{states};
ghost use Rattle.canvas_task.specs.Apply.{Behaviour};
ghost use Rattle.canvas_answer.specs.Asking.{asking};
ghost use Rattle.canvas_answer.specs.Items.{IsObject, IsRunObject, joined, object_line};
ghost use Rattle.canvas_answer.specs.Plans.{run_line};

use crate::prepared::Plans;
use crate::refusal::Refusal;
use crate::source::Source;
use canvas_report::Report;
use canvas_task::Tasks;
use std::alloc::{AllocError, Global};

/// How the canvases of an input that has one after the other are run.
#[derive(Clone, Copy, Drop)]
pub struct Each {
    pub workers: u32,
    /// Whether a failure of one has a status of its own.
    pub fails: bool,
    /// The byte that each ends with.
    pub end: u8,
    /// Whether each has the answers of its tasks before it.
    pub has_tasks: bool,
}

/// Appends a row after others.
fn push_more(out: &mut String, row: &str) -> Result<(), AllocError>
    ensures { OnOk result
        (string_bytes out.new ≡ string_bytes out.old ++ codes "," ++ row.now) }
{
    out.push_str(",")?;
    out.push_str(row)
}

/// Appends rows with commas between them.
pub(crate) fn push_rows(out: &mut String, rows: &[&str]) -> Result<(), AllocError>
    ensures { OnOk result (string_bytes out.new
        ≡ string_bytes out.old ++ joined (map (λ row. row.now) rows.now)) }
{
    if let Some((first, others)) = rows.split_first() {
        out.push_str(first)?;
        for row in others {
            push_more(out, row)?;
        }
    }
    Ok(())
}

/// Returns an object of some rows and that of the canvas, in a line.
fn object_line(alloc: Global, rows: &[&str], canvas: &str) -> Result<String, AllocError>
    ensures { IfOk result (λ object. string_bytes object
        ≡ object_line (map (λ row. row.now) rows.now) canvas.now) }
{
    let mut object = String::from_str(alloc, "{\"canvas\":")?;
    object.push_str(canvas)?;
    object.push_str(",\"rows\":[")?;
    push_rows(&mut object, rows)?;
    object.push_str("]}\n")?;
    Ok(object)
}

/// Returns the object of some lines, the last of which is that of the canvas.
fn object_of(alloc: Global, lines: &[&str]) -> Result<String, AllocError>
    ensures { IfOk result
        (λ object. IsObject (map (λ line. line.now) lines.now) (string_bytes object)) }
{
    match lines.split_last() {
        Some((canvas, rows)) => object_line(alloc, rows, canvas),
        None => Ok(String::new(alloc)),
    }
}

/// Returns the lines of a text.
fn lines_in(alloc: Global, text: &str) -> Result<Vec<&str>, AllocError>
    ensures { IfOk result (λ ls. map (λ line. line.now) ls.items ≡ lines text.now) }
{
    text.lines().collect(alloc)
}

/// Returns the lines of `run --json` as one object in a line.
fn object_of_lines(alloc: Global, text: &str) -> Result<String, AllocError>
    ensures { IfOk result (λ object. IsObject (lines text.now) (string_bytes object)) }
{
    let lines = lines_in(alloc, text)?;
    object_of(alloc, &lines)
}

/// Returns the report of a run as an object in a line.
pub fn object_text<T: Tasks>(
    alloc: Global,
    plans: &Plans,
    report: &Report,
    source: &Source<'_, T>,
) -> Result<String, Refusal>
    ensures { (behaviour : Behaviour)
        → report.now.rows ≡ states behaviour (tree_of (run_line plans.now))
        → IfOk result (λ object. IsRunObject (asking source.now.setting)
        (run_line plans.now) plans.now.shown behaviour (string_bytes object)) }
{
    let text = source.json_of(alloc, plans, report, None)?;
    Ok(object_of_lines(alloc, &text)?)
}
