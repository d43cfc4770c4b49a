//! The place at which a canvas is refused, for people and as JSON.

use canvas_check::{Finding, Spot, Step, pointer_text};
use canvas_report::quoted_json;
use std::alloc::{AllocError, Global};
use std::fmt;

/// The place at which a text is refused, as a person reads it.
#[derive(Clone, Copy)]
pub(crate) struct Place<'a>(pub &'a Finding);

/// Writes the pointer to a signature; that of the whole canvas is empty.
fn write_pointer<W: fmt::Write>(f: &mut fmt::Formatter<W>, steps: &[Step]) -> fmt::Result {
    if steps.is_empty() {
        return f.write_str("the top");
    }
    for step in steps {
        write!(f, "{step}")?;
    }
    Ok(())
}

fn write_signature<W: fmt::Write>(
    f: &mut fmt::Formatter<W>,
    steps: &[Step],
    name: &Option<String>,
) -> fmt::Result {
    f.write_str("at ")?;
    write_pointer(f, steps)?;
    match name {
        Some(name) => write!(f, " ({name})"),
        None => Ok(()),
    }
}

impl fmt::Display for Place<'_> {
    fn fmt<W: fmt::Write>(&self, f: &mut fmt::Formatter<W>) -> fmt::Result {
        match &self.0.spot {
            Spot::Text => f.write_str("at the whole text"),
            Spot::Json { line, column } => write!(f, "invalid JSON at line {line} column {column}"),
            Spot::Signature(steps) => write_signature(f, steps, &self.0.name),
        }
    }
}

/// Returns the pointer to a signature, as a JSON string; null if no refused one is found.
pub(crate) fn pointer_json(alloc: Global, found: Option<&Finding>) -> Result<String, AllocError> {
    match found {
        Some(
            Finding {
                spot: Spot::Signature(steps),
                ..
            },
        ) => quoted_json(alloc, &pointer_text(alloc, steps)?),
        _ => String::from_str(alloc, "null"),
    }
}

/// Returns the name in the signature, as a JSON string; null if it has none.
pub(crate) fn task_json(alloc: Global, found: Option<&Finding>) -> Result<String, AllocError> {
    match found {
        Some(
            Finding {
                name: Some(name),
                ..
            },
        ) => quoted_json(alloc, name),
        _ => String::from_str(alloc, "null"),
    }
}

/// Writes the members that say where a text is not JSON; none if it is.
pub(crate) fn write_columns(text: &mut String, found: Option<&Finding>) -> Result<(), AllocError> {
    match found {
        Some(
            Finding {
                spot: Spot::Json { line, column },
                ..
            },
        ) => {
            write!(text, "\"column\":{column},\"line\":{line},")?;
            Ok(())
        }
        _ => Ok(()),
    }
}
