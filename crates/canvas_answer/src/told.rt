//! The form of a refusal for programs: a JSON object in a line; that of a canvas has the code and
//! the place too.
//!
//! All refusals become JSON here, so that none is forgotten. A canvas's fault is looked up in its
//! text; it has no place if the adapted canvas has another fault.

use crate::celery::CeleryRefusal;
use crate::finding::{pointer_json, task_json, write_columns};
use crate::refusal::Refusal;
use crate::said::{Name, Note};
use canvas_check::{Finding, find};
use canvas_report::quoted_json;
use canvas_sig::SigFault;
use canvas_task::Memory;
use std::alloc::{AllocError, Global};

const TURNS: &str =
    "wanted numbers of workers from 1 on, with single commas between them, as 1,2,2";

const AGAIN: &str =
    "wanted numbers or names of tasks with early or late, and single commas between them, as 1:early,3:late; or all";

const RUN: &str = "wanted 22 lower-case hexadecimal digits";

/// The parts of a refusal for programs.
#[derive(Drop)]
struct Told<'a> {
    name: String,
    note: String,
    /// The fault of a canvas, with its place, if it is one.
    canvas: Option<(SigFault, Option<&'a Finding>)>,
}

impl Told<'_> {
    /// Returns the object, whose members are in the byte order of their names.
    fn json(&self, alloc: Global) -> Result<String, AllocError> {
        let mut text = String::from_str(alloc, "{")?;
        if let Some((fault, found)) = self.canvas {
            let code = fault.code();
            write!(text, "\"code\":{code},")?;
            write_columns(&mut text, found)?;
        }
        let (name, note) = (&self.name, quoted_json(alloc, &self.note)?);
        write!(text, "\"name\":\"{name}\",\"note\":{note}")?;
        if let Some((_, found)) = self.canvas {
            let (pointer, task) = (pointer_json(alloc, found)?, task_json(alloc, found)?);
            write!(text, ",\"pointer\":{pointer},\"task\":{task}")?;
        }
        text.push_str("}\n")?;
        Ok(text)
    }
}

/// Returns the error of the parser of words, without usage and hints.
fn words_note(alloc: Global, error: &clap::Error) -> Result<String, AllocError> {
    let said = format!(in alloc; "{error}")?;
    let (fault, _hints) = said.split_once("\n\n").unwrap_or((&said, ""));
    String::from_str(alloc, fault.strip_prefix("error: ").unwrap_or(fault))
}

/// Returns what is wanted instead of words whose line for people is only their name.
fn wanted(refusal: &Refusal) -> Option<&'static str> {
    match refusal {
        Refusal::BadTurn => Some(TURNS),
        Refusal::BadAgain => Some(AGAIN),
        Refusal::Celery(CeleryRefusal::BadRun) => Some(RUN),
        _ => None,
    }
}

fn note_of(alloc: Global, refusal: &Refusal) -> Result<String, AllocError> {
    if let Some(wanted) = wanted(refusal) {
        return String::from_str(alloc, wanted);
    }
    match refusal {
        Refusal::Words { error, .. } => words_note(alloc, error),
        Refusal::Found(finding) => finding.note.clone(),
        _ => {
            let note = Note::plain(refusal);
            format!(in alloc; "{note}")
        }
    }
}

/// Returns the fault of a canvas, with its place, if it is one.
fn canvas_fault(refusal: &Refusal) -> Option<(SigFault, Option<&Finding>)> {
    match refusal {
        Refusal::Canvas(fault) => Some((*fault, None)),
        Refusal::Found(finding) => Some((finding.fault, Some(finding))),
        _ => None,
    }
}

impl Refusal {
    /// Returns the refusal as a JSON object in a line.
    pub fn json(&self, alloc: Global) -> Result<String, AllocError> {
        let name = Name(self);
        let told = Told {
            name: format!(in alloc; "{name}")?,
            note: note_of(alloc, self)?,
            canvas: canvas_fault(self),
        };
        told.json(alloc)
    }

    /// Returns whether its line for people is all that is printed of it, also if JSON is asked for:
    /// the status says the rest.
    pub fn is_an_end(&self) -> bool {
        matches!(
            self,
            Refusal::Memory | Refusal::Stopped | Refusal::CannotWrite
        )
    }

    /// Returns the refusal with its place in the canvas's text, if it is found there.
    pub fn placed(self, alloc: Global, text: &[u8]) -> Refusal {
        match self {
            Refusal::Canvas(fault) => match found(alloc, text, fault) {
                Ok(refusal) => refusal,
                Err(_) => Refusal::Memory,
            },
            other => other,
        }
    }
}

/// Returns the refusal of a text for a fault, with its place if the text has the same fault.
fn found(alloc: Global, text: &[u8], fault: SigFault) -> Result<Refusal, Memory> {
    match find(alloc, text)? {
        Some(finding) if finding.fault == fault => Ok(Refusal::Found(finding)),
        _ => Ok(Refusal::Canvas(fault)),
    }
}
