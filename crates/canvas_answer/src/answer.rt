//! The program's output and status.
//!
//! Only `Answer::print` and `write_out` write. So a program of your own can have an answer and
//! print nothing, and few functions here know a reader or a writer.
ghost use Rattle.std.specs.Prelude.{◌≡◌, ◌⊎◌, [], false, true, None, Some, OnOk};
ghost use Rattle.std.specs.Io.KnownBytes.{Appends};
ghost use Rattle.canvas_answer.specs.declared.answer.Remark.TheVariants as remark;
ghost use Rattle.canvas_answer.specs.declared.output.Output.TheVariants as output;
ghost use Rattle.canvas_answer.specs.Answers.{AnswersAll, AnswersPart, IsKept, IsStatus, bytes_in, bytes_of, is_cut, printed_out, refusal_status};
ghost use Rattle.canvas_answer.specs.Letters.{message_lines};

use crate::escaping::Escaping;
use crate::output::Output;
use crate::printing::write_lines;
use crate::refusal::Refusal;
use canvas_adapt::Changes;
use canvas_celery::Start;
use canvas_envelope::Letter;
use std::alloc::Global;
use std::fmt::{self, Display};
use std::io::{self, Write};

/// The lines for standard error beside an answer.
#[derive(Drop)]
pub enum Remark {
    /// The number of a run's stores that answered Again.
    Repeats(u64),
    /// The changes made to a canvas.
    Changes(Changes),
    /// Lines on the parts of a canvas that Celery's workers get otherwise.
    Export(String),
}

impl Display for Remark {
    fn fmt<W: fmt::Write>(&self, f: &mut fmt::Formatter<W>) -> fmt::Result {
        match self {
            Remark::Repeats(1) => f.write_str("canvas: 1 store answered Again\n"),
            Remark::Repeats(count) => writeln!(f, "canvas: {count} stores answered Again"),
            Remark::Changes(changes) => changes.fmt(f),
            Remark::Export(lines) => f.write_str(lines),
        }
    }
}

/// An answer of the program, none of which is printed yet.
#[derive(Drop)]
pub struct Answer {
    /// The output for standard output.
    out: Output,
    /// The lines for standard error beside it.
    remark: Option<Remark>,
    /// Why the output isn't all that was asked for.
    refusal: Option<Refusal>,
    /// The refusal as a JSON object in a line, if that is asked for.
    told: Option<String>,
    /// The status if there is no refusal.
    status: u8,
}

impl Answer {
    /// Returns an answer with all that was asked for.
    fn of(out: Output) -> Answer
        ensures { AnswersAll (bytes_in out) 0 result }
    {
        Answer {
            out,
            remark: None,
            refusal: None,
            told: None,
            status: 0,
        }
    }

    /// Returns an answer with lines for a reader, which are all that was asked for.
    pub fn whole(lines: Vec<u8>) -> Answer
        ensures { AnswersAll lines.items 0 result }
    {
        Answer::of(Output::Lines(lines))
    }

    /// Returns an answer with bytes for a program, each of which is printed as it is.
    pub fn raw(bytes: Vec<u8>) -> Answer
        ensures { AnswersAll bytes.items 0 result }
    {
        Answer::of(Output::Bytes(bytes))
    }

    /// Returns an answer with messages, a line each, which are made one by one as they are printed.
    pub fn letters(letters: Vec<Letter>) -> Answer
        ensures { AnswersAll (message_lines letters.items) 0 result }
    {
        Answer::of(Output::Letters(letters))
    }

    /// Returns an answer with a start, whose messages' texts are made one by one as they are
    /// printed.
    pub(crate) fn start(start: Start) -> Answer
        ensures { AnswersAll start 0 result }
    {
        Answer::of(Output::Start(start))
    }

    /// Returns an answer with only a refusal.
    pub fn refused(alloc: Global, refusal: Refusal) -> Answer
        ensures { AnswersPart [] refusal result }
    {
        Answer::in_part(alloc, None, refusal)
    }

    /// Returns an answer with what there is of a report, and why that isn't all.
    pub fn in_part(alloc: Global, text: Option<String>, refusal: Refusal) -> Answer
        ensures { AnswersPart (bytes_of text) refusal result }
    {
        let out = match text {
            Some(text) => text.into_bytes(),
            None => Vec::new(alloc),
        };
        Answer {
            out: Output::Lines(out),
            remark: None,
            refusal: Some(refusal),
            told: None,
            status: 0,
        }
    }

    /// Returns the answer after lines that were made before it.
    pub fn after(self, lines: Vec<u8>) -> Answer
        ensures none { lines.items ≡ [] → result ≡ self }
        ensures others { (result.remark ≡ self.remark) × (result.refusal ≡ self.refusal)
            × (result.status ≡ self.status) }
    {
        if lines.is_empty() {
            return self;
        }
        Answer {
            out: Output::Lines(lines),
            ..self
        }
    }

    /// Returns the answer with this status, which counts if it isn't refused.
    pub fn with_status(self, status: u8) -> Answer
        ensures { (result.out ≡ self.out) × (result.remark ≡ self.remark)
            × (result.refusal ≡ self.refusal) × (result.status ≡ status) }
    {
        Answer { status, ..self }
    }

    /// Returns the answer with this remark on standard error.
    pub fn with_remark(self, remark: Option<Remark>) -> Answer
        ensures { (result.out ≡ self.out) × (result.remark ≡ remark)
            × (result.refusal ≡ self.refusal) × (result.status ≡ self.status) }
    {
        Answer { remark, ..self }
    }

    pub(crate) fn with_changes(self, changes: Changes) -> Answer
        ensures { (result.out ≡ self.out) × (result.remark ≡ Some (remark.Changes changes))
            × (result.refusal ≡ self.refusal) × (result.status ≡ self.status) }
    {
        self.with_remark(Some(Remark::Changes(changes)))
    }

    /// Returns the answer with its refusal, if it has one, as JSON. If memory for that is refused,
    /// that is the refusal.
    pub fn in_json(self, alloc: Global) -> Answer
        ensures same { (result.out ≡ self.out) × (result.remark ≡ self.remark)
            × (result.status ≡ self.status) }
        ensures refusal { IsKept self.refusal result.refusal }
    {
        let told = match &self.refusal {
            Some(refusal) if !refusal.is_an_end() => refusal.json(alloc),
            _ => return self,
        };
        match told {
            Ok(told) => Answer {
                told: Some(told),
                ..self
            },
            Err(_) => Answer {
                refusal: Some(Refusal::Memory),
                ..self
            },
        }
    }

    /// Prints the answer to both outputs, and returns the status: 0 on success, 1 if the program
    /// was refused or can't print, 2 if it ended early, and 3 if that is asked for and the canvas's
    /// result is a failure. It ends early, too, if memory for a message is refused; the messages
    /// before it are printed then.
    pub fn print<W: Write, E: Write>(&self, alloc: Global, out: &mut W, err: &mut E) -> u8
        ensures status { IsStatus self.now result }
        ensures out { self.now.refusal ≡ None → is_cut self.now.out result ≡ false
            → Appends (W.contents out.old) (W.contents out.new) (printed_out self.now) }
    {
        let written = self.write_out(alloc, out);
        match (&self.refusal, &written) {
            (Some(refusal), _) => refusal.print(self.told.as_ref(), err),
            (None, Ok(())) => self.print_remark(err),
            (None, Err(error)) => self.out.refusal(error).print(None, err),
        }
    }

    /// Writes the output for standard output.
    pub fn write_out<W: Write>(&self, alloc: Global, out: &mut W) -> io::Result<()>
        ensures { OnOk result (Appends (W.contents out.old) (W.contents out.new)
            (printed_out self.now)) }
    {
        self.out.write(alloc, out)?;
        out.flush()
    }

    fn print_remark<E: Write>(&self, err: &mut E) -> u8
        ensures { (result ≡ self.now.status) ⊎ (is_cut self.now.out result ≡ true) }
    {
        if let Some(remark) = &self.remark
            && write_and_flush(err, remark).is_err()
        {
            return Refusal::CannotWrite.print(None, err);
        }
        self.status
    }
}

impl Refusal {
    /// Prints why there is no answer: the refusal's JSON object, or lines, piece by piece, since
    /// there may be no memory for a text. If that can't be printed either, only the status is left.
    fn print<E: Write>(&self, told: Option<&String>, err: &mut E) -> u8
        ensures { result ≡ refusal_status self.now }
    {
        let _ = match told {
            Some(object) => write_lines(err, object.as_bytes()),
            None => self.print_lines(err),
        };
        self.status()
    }

    fn print_lines<E: Write>(&self, err: &mut E) -> io::Result<()> {
        if matches!(self, Refusal::Words { in_line: true, .. }) {
            write_and_flush(&mut Escaping::of(err, true), self)?;
            return writeln!(err);
        }
        write_and_flush(&mut Escaping::of(err, false), self)
    }
}

fn write_and_flush<W: Write, D: Display>(out: &mut W, text: &D) -> io::Result<()> {
    write!(out, "{text}")?;
    out.flush()
}
