//! The start of a canvas some of whose arguments are places, which get the values of a file.
ghost use Rattle.std.specs.Prelude.{◌≡◌, IfOk};
ghost use Rattle.canvas_semantics.specs.Line.{Line};
ghost use Rattle.canvas_answer.specs.OnCelery.{IsFilledAnswer};
ghost use Rattle.canvas_answer.specs.Plans.{IsTextPlan};

use crate::answer::Answer;
use crate::ignored::export_remark;
use crate::input::values_of;
use crate::plan::{lasting, signed_plan};
use crate::refusal::Refusal;
use canvas_celery::{FillFault, Run, Target, export_with};
use canvas_rewrite::Plan;
use std::alloc::Global;
use std::fmt;
use std::io::Read;
use std::rt::Files;

/// Why the values of a file are refused.
#[derive(Clone, Copy, Debug, PartialEq, Eq)]
pub enum ValueFault {
    /// More bytes than are taken.
    TooLong,
    NotJson,
    NoArray,
}

impl fmt::Display for ValueFault {
    fn fmt<W: fmt::Write>(&self, f: &mut fmt::Formatter<W>) -> fmt::Result {
        f.write_str(match self {
            ValueFault::TooLong => "found more than 1,048,576 bytes, wanted at most as many",
            ValueFault::NotJson =>
                "found no JSON text in UTF-8 of at most 128 levels, wanted a JSON array",
            ValueFault::NoArray => "found another JSON value, wanted an array",
        })
    }
}

/// Why a text that begins with `~` is refused.
#[derive(Clone, Copy, Debug, PartialEq, Eq)]
pub enum PlaceFault {
    /// It is the name of a task.
    Name,
    /// There is no such place, since there are only this many values.
    NoPlace(usize),
}

impl fmt::Display for PlaceFault {
    fn fmt<W: fmt::Write>(&self, f: &mut fmt::Formatter<W>) -> fmt::Result {
        match self {
            PlaceFault::Name => {
                f.write_str("found the name of a task, wanted one that does not begin with ~")
            }
            PlaceFault::NoPlace(0) => {
                f.write_str("found no values, wanted a text that does not begin with ~")
            }
            PlaceFault::NoPlace(1) => f.write_str("found 1 value, wanted ~0"),
            PlaceFault::NoPlace(count) => {
                let last = count - 1;
                write!(f, "found {count} values, wanted a place from ~0 to ~{last}")
            }
        }
    }
}

/// Returns the refusal for a fault of a file's values, or of the canvas that has them.
fn refused(alloc: Global, file: &str, fault: FillFault) -> Refusal {
    match fault {
        FillFault::NotJson => Refusal::of_values(alloc, file, ValueFault::NotJson),
        FillFault::NoArray => Refusal::of_values(alloc, file, ValueFault::NoArray),
        FillFault::NoPlace { text, values } => Refusal::BadPlace {
            text,
            fault: PlaceFault::NoPlace(values),
        },
        FillFault::Name { text } => Refusal::BadPlace {
            text,
            fault: PlaceFault::Name,
        },
        FillFault::Memory => Refusal::Memory,
    }
}

/// Returns the commands that start a plan with the values of a file.
fn filled_start<S, R: Read>(
    rt: &S,
    plan: &Plan,
    run: &Run,
    target: &Target<'_>,
    file: &str,
    input: &mut R,
) -> Result<Answer, Refusal>
where
    S: Files + AllocGlobal,
    ensures { IfOk result (IsFilledAnswer run.now.digits target.now plan.now) }
{
    let alloc = rt.alloc();
    let values = values_of(rt, file, input)?;
    match export_with(alloc, plan, run, target, &values) {
        Ok(start) => Ok(Answer::raw(start)),
        Err(fault) => Err(refused(alloc, file, fault)),
    }
}

/// Returns the commands for Redis that start a canvas with the values of a file, with a remark on
/// what the workers get otherwise.
pub(super) fn answer_filled<S, R: Read>(
    rt: &S,
    run: &Run,
    target: &Target<'_>,
    file: &str,
    text: &[u8],
    texts: usize,
    input: &mut R,
) -> Result<Answer, Refusal>
where
    S: Files + AllocGlobal,
    ensures { IfOk result (λ a. (l : Line) × IsTextPlan text.now l
        × IsFilledAnswer run.now.digits target.now l a) }
{
    let alloc = rt.alloc();
    let (plan, signatures) = signed_plan(alloc, text)?;
    let plan = lasting(plan);
    let start = filled_start(rt, &plan, run, target, file, input)?;
    let remark = export_remark(alloc, signatures, texts)?;
    Ok(start.with_remark(remark))
}
