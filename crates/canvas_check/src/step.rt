//! The steps from a signature to a nested one, and their text.

ghost use Rattle.std.specs.Prelude.{◌≡◌, IfOk, string_bytes};
ghost use Rattle.canvas_check.specs.Pointer.{field_text, pointer_text, AreIndices};
ghost use Rattle.canvas_check.specs.Limits.{goes_deeper};

use std::alloc::{AllocError, Global};
use std::fmt;

/// A member of a signature that contains signatures.
#[derive(Clone, Copy, Drop)]
pub enum Field {
    /// `kwargs.tasks` of a chain.
    Elements,
    /// `kwargs.tasks` of a group.
    Members,
    /// `kwargs.header` of a chord.
    Header,
    /// `kwargs.body` of a chord.
    Body,
    /// `options.link`.
    Links,
    /// `options.link_error`.
    Errbacks,
}

impl Field {
    fn text(self) -> &'static str
        ensures { result.now ≡ field_text self }
    {
        match self {
            Field::Elements => "/kwargs/tasks",
            Field::Members => "/kwargs/tasks",
            Field::Header => "/kwargs/header",
            Field::Body => "/kwargs/body",
            Field::Links => "/options/link",
            Field::Errbacks => "/options/link_error",
        }
    }
}

/// A step from a signature to a nested one: to an item of the list in a member, or to the only
/// signature there. It is printed as part of a JSON Pointer (RFC 6901).
#[derive(Clone, Copy, Drop)]
pub struct Step {
    pub field: Field,
    pub index: Option<usize>,
}

impl Step {
    /// Returns whether the step leads to a signature that is nested one deeper. The step to a
    /// header's group signature doesn't.
    pub(crate) fn goes_deeper(&self) -> bool
        ensures { result ≡ goes_deeper self.now }
    {
        match self.field {
            Field::Header => self.index.is_some(),
            _ => true,
        }
    }
}

impl fmt::Display for Step {
    ghost use Rattle.std.specs.Prelude.{Some};
    ghost use Rattle.canvas_check.specs.Pointer.{step_text};

    ghost output = { λ step. Some (step_text step) };

    fn fmt<W: fmt::Write>(&self, f: &mut fmt::Formatter<W>) -> fmt::Result {
        let field = self.field.text();
        match self.index {
            Some(index) => write!(f, "{field}/{index}"),
            None => f.write_str(field),
        }
    }
}

/// Returns the JSON Pointer of steps. That of no steps, the whole text, is empty.
pub fn pointer_text(alloc: Global, steps: &[Step]) -> Result<String, AllocError>
    ensures { IfOk result (λ text. string_bytes text ≡ pointer_text steps.now) }
{
    let mut text = String::new(alloc);
    for step in steps {
        write!(text, "{step}")?;
    }
    Ok(text)
}

/// Reads each index, which has no effect: the proof then knows that each fits its type.
pub(crate) fn read_indices(steps: &[Step])
    ensures { AreIndices steps.now }
{
    for step in steps {
        let _index = step.index.unwrap_or(0);
    }
}
