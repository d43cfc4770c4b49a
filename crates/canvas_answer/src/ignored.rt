//! The parts of a canvas that Celery's workers get otherwise, as lines for standard error.
//!
//! Every ignored option is named, and not only known ones, since Celery passes those that it
//! doesn't know to the broker.

use crate::answer::Remark;
use canvas_check::{Signature, shown_name};
use std::alloc::{AllocError, Global};

/// Appends the line on an option.
fn push_line(
    lines: &mut String,
    alloc: Global,
    name: &str,
    count: usize,
) -> Result<(), AllocError> {
    let name = shown_name(alloc, name)?;
    let signatures = if count == 1 {
        "signature"
    } else {
        "signatures"
    };
    writeln!(lines, "canvas: ignored {name} of {count} {signatures}")?;
    Ok(())
}

/// Appends the line on arguments that were made texts.
fn push_texts(lines: &mut String, count: usize) -> Result<(), AllocError> {
    let (arguments, texts) = match count {
        0 => return Ok(()),
        1 => ("argument", "a text"),
        _ => ("arguments", "texts"),
    };
    writeln!(
        lines,
        "canvas: adapted {count} {arguments}, which the workers get as {texts}"
    )?;
    Ok(())
}

/// Appends a line for each of some sorted names, with how often it is there.
fn push_lines(lines: &mut String, alloc: Global, names: &[String]) -> Result<(), AllocError> {
    let mut count = 0usize;
    for (index, name) in names.iter().enumerate() {
        count = count.saturating_add(1);
        let goes_on = match names.get(index.saturating_add(1)) {
            Some(next) => next == name,
            None => false,
        };
        if !goes_on {
            push_line(lines, alloc, name, count)?;
            count = 0;
        }
    }
    Ok(())
}

/// Returns the lines on arguments that were made texts, and on sorted names of options.
fn lines_of(alloc: Global, texts: usize, names: &[String]) -> Result<String, AllocError> {
    let mut lines = String::new(alloc);
    push_texts(&mut lines, texts)?;
    push_lines(&mut lines, alloc, names)?;
    Ok(lines)
}

/// Returns the names of the options that signatures have and that are ignored.
fn ignored_names(alloc: Global, signatures: Vec<Signature>) -> Result<Vec<String>, AllocError> {
    let mut names = Vec::new(alloc);
    for signature in signatures {
        for option in signature.ignored {
            names.push(option)?;
        }
    }
    Ok(names)
}

/// Returns the remark on an export: how many arguments were made texts when the canvas was adapted,
/// and which options of its signatures are ignored.
pub(crate) fn export_remark(
    alloc: Global,
    signatures: Vec<Signature>,
    texts: usize,
) -> Result<Option<Remark>, AllocError> {
    let mut names = ignored_names(alloc, signatures)?;
    if names.is_empty() && texts == 0 {
        return Ok(None);
    }
    names.sort()?;
    Ok(Some(Remark::Export(lines_of(alloc, texts, &names)?)))
}
