//! Standard output: texts, or what they are made of as they are printed.
ghost use Rattle.std.specs.Prelude.{◌≡◌, ◌∷◌, [], IfOk, OnOk, string_bytes, true};
ghost use Rattle.std.specs.Str.{IsUtf8};
ghost use Rattle.std.specs.Io.KnownBytes.{Appends};
ghost use Rattle.canvas_answer.specs.Answers.{is_cut, printed_of, refusal_status};
ghost use Rattle.canvas_answer.specs.Letters.{message_lines};
ghost use Rattle.canvas_answer.specs.Printing.{printed};

use crate::printing::write_lines;
use crate::refusal::Refusal;
use canvas_celery::Start;
use canvas_envelope::Letter;
use canvas_report::message_line;
use canvas_task::Memory;
use std::alloc::Global;
use std::io::{self, Write};

/// The content of standard output. The texts of a run's messages and of a start aren't made before
/// they are printed, since a thousand messages may carry the same long body.
#[derive(Drop)]
pub(crate) enum Output {
    /// Lines for a reader.
    Lines(Vec<u8>),
    /// Bytes for a program, each printed as it is.
    Bytes(Vec<u8>),
    /// Messages, a line each, for a reader.
    Letters(Vec<Letter>),
    /// A start on Celery's own workers, printed as it is.
    Start(Start),
}

fn letter_line(alloc: Global, letter: &Letter) -> Result<String, Memory>
    ensures { IfOk result (λ line. string_bytes line ≡ message_lines (letter.now ∷ [])) }
{
    let envelope = letter.envelope(alloc)?;
    Ok(message_line(alloc, &envelope)?)
}

/// Writes a message's line.
fn write_letter<W: Write>(alloc: Global, letter: &Letter, out: &mut W) -> io::Result<()>
    ensures line { OnOk result (Appends (W.contents out.old) (W.contents out.new)
        (printed (message_lines (letter.now ∷ [])))) }
    ensures text { OnOk result (IsUtf8 (message_lines (letter.now ∷ []))) }
{
    match letter_line(alloc, letter) {
        Ok(line) => write_lines(out, line.as_bytes()),
        Err(Memory) => Err(io::Error::from(io::ErrorKind::OutOfMemory)),
    }
}

/// Writes the lines of messages, only one of which is held at a time.
fn write_letters<W: Write>(alloc: Global, letters: &[Letter], out: &mut W) -> io::Result<()>
    ensures { OnOk result (Appends (W.contents out.old) (W.contents out.new)
        (printed (message_lines letters.now))) }
{
    for letter in letters {
        write_letter(alloc, letter, out)?;
    }
    Ok(())
}

impl Output {
    pub(crate) fn write<W: Write>(&self, alloc: Global, out: &mut W) -> io::Result<()>
        ensures { OnOk result (Appends (W.contents out.old) (W.contents out.new)
            (printed_of self.now)) }
    {
        match self {
            Output::Lines(lines) => write_lines(out, lines),
            Output::Bytes(bytes) => out.write_all(bytes),
            Output::Letters(letters) => write_letters(alloc, letters, out),
            Output::Start(start) => start.write(alloc, out),
        }
    }

    /// Returns why not all of it was printed: it can't be written, or there was no memory for a
    /// text that is made as it is printed.
    pub(crate) fn refusal(&self, error: &io::Error) -> Refusal
        ensures { is_cut self.now (refusal_status result) ≡ true }
    {
        match self {
            Output::Lines(_) | Output::Bytes(_) => Refusal::CannotWrite,
            Output::Letters(_) | Output::Start(_) => Refusal::of_output(error),
        }
    }
}
