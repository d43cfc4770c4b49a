//! The text of a refusal for people: the lines of the parser or of a file, or a line with a name
//! and a note.

use crate::celery::CeleryRefusal;
use crate::finding::Place;
use crate::refusal::Refusal;
use canvas_task::TaskNo;
use std::fmt::{self, Display};

/// The name that programs know a refusal by.
#[derive(Clone, Copy)]
pub(crate) struct Name<'a>(pub &'a Refusal);

impl fmt::Display for Name<'_> {
    fn fmt<W: fmt::Write>(&self, f: &mut fmt::Formatter<W>) -> fmt::Result {
        f.write_str(match self.0 {
            Refusal::Canvas(fault) => return fault.fmt(f),
            Refusal::Found(finding) => return finding.fault.fmt(f),
            Refusal::Celery(refusal) => return refusal.write_name(f),
            Refusal::Words { .. } => "BadWords",
            Refusal::CannotRead { .. } => "CannotRead",
            Refusal::BadWorkers => "BadWorkers",
            Refusal::BadTurn => "BadTurn",
            Refusal::BadAgain => "BadAgain",
            Refusal::BadRename { .. } | Refusal::NoTask(_) => "BadRename",
            Refusal::BadTask { .. }
            | Refusal::BadTaskLine { .. }
            | Refusal::BadNumber { .. }
            | Refusal::NoTaskToAnswer(_)
            | Refusal::NoTaskNamed { .. } => "BadTask",
            Refusal::BadValue { .. } => "BadValue",
            Refusal::BadPlace { .. } => "BadPlace",
            Refusal::Memory => "Memory",
            Refusal::Stopped => "Stopped",
            Refusal::CannotWrite => "CannotWrite",
        })
    }
}

/// A text that isn't the program's own. In a line for people, what isn't printable ASCII is escaped
/// as in JSON's strings, so that it ends no line and controls no terminal.
#[derive(Clone, Copy)]
struct Foreign<'a> {
    text: &'a str,
    in_line: bool,
}

/// Writes `\u` and four hexadecimal digits; past U+FFFF two of these.
fn write_units<W: fmt::Write>(f: &mut fmt::Formatter<W>, c: char) -> fmt::Result {
    let code = c as u32;
    if code < 0x1_0000 {
        write!(f, "\\u{code:04x}")
    } else {
        let high = 0xD7C0 + code / 1024;
        let low = 0xDC00 + code % 1024;
        write!(f, "\\u{high:04x}\\u{low:04x}")
    }
}

impl fmt::Display for Foreign<'_> {
    fn fmt<W: fmt::Write>(&self, f: &mut fmt::Formatter<W>) -> fmt::Result {
        if !self.in_line {
            return f.write_str(self.text);
        }
        for c in self.text.chars() {
            match c {
                ' '..='~' => f.write_char(c)?,
                _ => write_units(f, c)?,
            }
        }
        Ok(())
    }
}

/// The note of a refusal besides its name: what is refused, and why.
#[derive(Clone, Copy)]
pub(crate) struct Note<'a> {
    refusal: &'a Refusal,
    /// Whether it is a part of a line for people.
    in_line: bool,
}

impl<'a> Note<'a> {
    /// Returns the note in a line for people.
    fn in_line(refusal: &'a Refusal) -> Note<'a> {
        Note {
            refusal,
            in_line: true,
        }
    }

    /// Returns the note for programs, with each text as it is.
    pub(crate) fn plain(refusal: &'a Refusal) -> Note<'a> {
        Note {
            refusal,
            in_line: false,
        }
    }

    fn foreign(&self, text: &'a str) -> Foreign<'a> {
        Foreign {
            text,
            in_line: self.in_line,
        }
    }

    /// Writes the note on a word, or on a part of one, and why it is refused.
    fn write_word<W: fmt::Write, D: fmt::Display>(
        &self,
        f: &mut fmt::Formatter<W>,
        text: &'a str,
        why: &D,
    ) -> fmt::Result {
        let text = self.foreign(text);
        write!(f, "{text}: {why}")
    }

    /// Writes the note on a line of a file.
    fn write_line<W: fmt::Write, D: fmt::Display>(
        &self,
        f: &mut fmt::Formatter<W>,
        line: usize,
        file: &'a str,
        why: &D,
    ) -> fmt::Result {
        let file = self.foreign(file);
        write!(f, "in line {line} of {file}: {why}")
    }

    /// Writes the note on a name that no task has.
    fn write_name<W: fmt::Write>(
        &self,
        f: &mut fmt::Formatter<W>,
        name: &'a str,
        near: &'a Option<String>,
    ) -> fmt::Result {
        self.write_word(f, name, &"no task has this name")?;
        match near {
            Some(near) => {
                let near = self.foreign(near);
                write!(f, ", did you mean {near}?")
            }
            None => Ok(()),
        }
    }
}

/// Writes the note on a number that no task has.
fn write_number<W: fmt::Write>(f: &mut fmt::Formatter<W>, task: TaskNo) -> fmt::Result {
    let number = task.get();
    write!(f, "#{number}: no task has this number")
}

impl fmt::Display for Note<'_> {
    fn fmt<W: fmt::Write>(&self, f: &mut fmt::Formatter<W>) -> fmt::Result {
        match self.refusal {
            Refusal::BadTask { text, fault } => self.write_word(f, text, fault),
            Refusal::BadTaskLine { file, line, fault } => self.write_line(f, *line, file, fault),
            Refusal::BadRename { text, fault } => self.write_word(f, text, fault),
            Refusal::BadNumber { text, fault } => self.write_word(f, text, fault),
            Refusal::BadValue { file, fault } => self.write_word(f, file, fault),
            Refusal::BadPlace { text, fault } => self.write_word(f, text, fault),
            Refusal::NoTask(task) | Refusal::NoTaskToAnswer(task) => write_number(f, *task),
            Refusal::NoTaskNamed { name, near } => self.write_name(f, name, near),
            Refusal::CannotRead { file, why } => self.write_word(f, file, why),
            Refusal::Celery(refusal) => refusal.write_note(f),
            _ => Ok(()),
        }
    }
}

/// Returns whether a line for people has more than the name.
fn has_note(refusal: &Refusal) -> bool {
    match refusal {
        Refusal::BadWorkers | Refusal::BadTurn | Refusal::BadAgain => false,
        Refusal::Celery(refusal) => refusal.has_note(),
        _ => true,
    }
}

/// Writes the line of a refusal with its name and its note.
fn write_named<W: fmt::Write>(f: &mut fmt::Formatter<W>, refusal: &Refusal) -> fmt::Result {
    let name = Name(refusal);
    write!(f, "canvas: refused {name}")?;
    if has_note(refusal) {
        let note = Note::in_line(refusal);
        write!(f, " {note}")?;
    }
    f.write_str("\n")
}

impl fmt::Display for Refusal {
    fn fmt<W: fmt::Write>(&self, f: &mut fmt::Formatter<W>) -> fmt::Result {
        match self {
            Refusal::Words { error, .. } => write!(f, "{error}"),
            Refusal::CannotRead { file, .. } => {
                let file = Foreign {
                    text: file,
                    in_line: true,
                };
                writeln!(f, "canvas: cannot read {file}")
            }
            Refusal::Found(finding) => {
                let (place, note) = (Place(finding), &finding.note);
                let (code, fault) = (finding.fault.code(), finding.fault);
                write!(f, "{place}\n{note}\ncanvas: refused {code} {fault}\n")
            }
            Refusal::Canvas(fault) => {
                let code = fault.code();
                writeln!(f, "canvas: refused {code} {fault}")
            }
            Refusal::Memory => f.write_str("canvas: memory refused\n"),
            Refusal::Stopped => f.write_str("canvas: stopped\n"),
            Refusal::CannotWrite => f.write_str("canvas: cannot write\n"),
            _ => write_named(f, self),
        }
    }
}
