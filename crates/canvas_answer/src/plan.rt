//! Plans of texts.
ghost use Rattle.std.specs.Prelude.{◌≡◌, Ok, IfOk, IfErr};
ghost use Rattle.std.specs.Mem.{manually_drop_value};
ghost use Rattle.canvas_values.specs.CanvasText.{text_reading};
ghost use Rattle.canvas_answer.specs.Plans.{IsTextPlan, IsReadRefusal};

use crate::refusal::Refusal;
use canvas_check::{Reading, Signature, read};
use canvas_rewrite::Plan;
use canvas_sig::{Canvas, SigFault, read_canvas};
use canvas_task::Memory;
use std::alloc::Global;
use std::mem::ManuallyDrop;

/// Returns the canvas that a text spells.
pub fn canvas_of(alloc: Global, text: &[u8]) -> Result<Canvas, Refusal>
    ensures ok { IfOk result (λ canvas. text_reading text.now ≡ Ok canvas) }
    ensures err { IfErr result (IsReadRefusal text.now) }
{
    match read_canvas(alloc, text) {
        Ok(canvas) => Ok(canvas),
        Err(SigFault::Memory) => Err(Refusal::Memory),
        Err(fault) => Err(Refusal::Canvas(fault)),
    }
}

/// Returns the plan of the canvas that a text spells.
pub fn plan_of(alloc: Global, text: &[u8]) -> Result<Plan, Refusal>
    ensures ok { IfOk result (λ plan. IsTextPlan text.now plan) }
    ensures err { IfErr result (IsReadRefusal text.now) }
{
    let canvas = canvas_of(alloc, text)?;
    match Plan::of(alloc, canvas) {
        Ok(plan) => Ok(plan),
        Err(Memory) => Err(Refusal::Memory),
    }
}

/// Returns the plan of the canvas that a text spells, with the signatures of the text.
pub(crate) fn signed_plan(alloc: Global, text: &[u8]) -> Result<(Plan, Vec<Signature>), Refusal>
    ensures { IfOk result (λ r. IsTextPlan text.now r.0) }
{
    match read(alloc, text)? {
        Reading::Canvas { canvas, signatures } => Ok((Plan::of(alloc, canvas)?, signatures)),
        Reading::Refused(finding) => Err(Refusal::Canvas(finding.fault)),
    }
}

/// Keeps a value that a command holds until its process ends, without dropping it: dropping a plan
/// takes a twentieth of a group's run.
pub fn lasting<T: Drop>(value: T) -> ManuallyDrop<T>
    ensures { manually_drop_value result ≡ value }
{
    ManuallyDrop::new(value)
}
