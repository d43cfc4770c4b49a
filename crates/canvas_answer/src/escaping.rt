//! Writing piece by piece so that only printable ASCII and line feeds reach the reader.

use crate::printing::write_lines;
use std::io::{self, Write};

/// A writer that writes lines to another writer, as `write_lines` does.
#[derive(Drop)]
pub(crate) struct Escaping<'a, W> {
    out: &'a mut W,
    /// Whether they become one line, so that a line feed is escaped, too.
    in_line: bool,
}

impl<'a, W: Write> Escaping<'a, W> {
    pub(crate) fn of(out: &'a mut W, in_line: bool) -> Escaping<'a, W> {
        Escaping { out, in_line }
    }
}

/// Writes lines as one.
fn write_in_line<W: Write>(out: &mut W, lines: &[u8]) -> io::Result<()> {
    let mut mark: &[u8] = b"";
    for line in lines.split(|byte| *byte == b'\n') {
        out.write_all(mark)?;
        write_lines(out, line)?;
        mark = b"\\u000a";
    }
    Ok(())
}

impl<W: Write> Write for Escaping<'_, W> {
    fn write(&mut self, lines: &[u8]) -> io::Result<usize> {
        if self.in_line {
            write_in_line(self.out, lines)?;
        } else {
            write_lines(self.out, lines)?;
        }
        Ok(lines.len())
    }

    fn flush(&mut self) -> io::Result<()> {
        self.out.flush()
    }
}
