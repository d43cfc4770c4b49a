//! Readers that fail after a long text, are interrupted, or give a byte a read.

use crate::program::{ADD_THEN_MUL, REPORT, answers_to};
use std::alloc::{AllocError, Global};
use std::io::{self, Read};
use std::test::Fail;

/// A reader that fails after its text.
#[derive(Drop)]
struct Broken<'a>(&'a [u8]);

impl Read for Broken<'_> {
    fn read(&mut self, buf: &mut [u8]) -> io::Result<usize> {
        if self.0.is_empty() {
            return Err(io::Error::from(io::ErrorKind::BrokenPipe));
        }
        self.0.read(buf)
    }
}

/// A reader that is interrupted some times, and then gives a byte a read.
#[derive(Drop)]
struct Slow<'a> {
    interrupts: u32,
    text: &'a [u8],
}

impl Read for Slow<'_> {
    fn read(&mut self, buf: &mut [u8]) -> io::Result<usize> {
        if self.interrupts > 0 {
            self.interrupts -= 1;
            return Err(io::Error::from(io::ErrorKind::Interrupted));
        }
        let length = buf.len().min(1);
        self.text.read(&mut buf[..length])
    }
}

fn spaces(alloc: Global, count: usize) -> Result<String, AllocError> {
    let mut text = String::new(alloc);
    for _ in 0..count {
        text.push(' ')?;
    }
    Ok(text)
}

#[test]
fn long_texts_are_cut_off(rt: HostRuntime) -> Result<(), Fail> {
    let text = spaces(rt.alloc(), 1_048_577)?;
    let mut input = Broken(text.as_bytes());
    assert!(rt;
        answers_to(
            &rt,
            "run -",
            &mut input,
            1,
            "",
            "canvas: refused 1 TooLarge\n"
        )
    );
    Ok(())
}

#[test]
fn a_reader_that_is_interrupted(rt: HostRuntime) {
    let mut input = Slow {
        interrupts: 3,
        text: ADD_THEN_MUL.as_bytes(),
    };
    assert!(rt; answers_to(&rt, "run -", &mut input, 0, REPORT, ""));
}

/// What `--each` prints of two canvases that are none.
const NONE: &str =
    "{\"code\":3,\"name\":\"NotSignature\",\"note\":\"found a list of 0, wanted a signature: an object that names a task\",\"pointer\":\"\",\"task\":null}
{\"code\":3,\"name\":\"NotSignature\",\"note\":\"found a list of 0, wanted a signature: an object that names a task\",\"pointer\":\"\",\"task\":null}
";

#[test]
fn canvases_before_a_read_that_fails(rt: HostRuntime) {
    let mut input = Broken("[]\n[]\n{".as_bytes());
    let err = "canvas: cannot read -\n";
    assert!(rt; answers_to(&rt, "run - --each", &mut input, 1, NONE, err));
}

#[test]
fn canvases_byte_by_byte(rt: HostRuntime) {
    let mut input = Slow {
        interrupts: 3,
        text: "[]\n[]".as_bytes(),
    };
    assert!(rt; answers_to(&rt, "run - --each", &mut input, 0, NONE, ""));
}

/// There are 1,048,577 reads, the last of which has to find the end.
#[test]
fn reads_are_counted(rt: HostRuntime) -> Result<(), Fail> {
    let longest = spaces(rt.alloc(), 1_048_576)?;
    for &(interrupts, err) in &[
        (0, "canvas: refused 2 NotJson\n"),
        (1, "canvas: cannot read -\n"),
    ] {
        let mut input = Slow {
            interrupts,
            text: longest.as_bytes(),
        };
        assert!(rt; answers_to(&rt, "run -", &mut input, 1, "", err), "{err}");
    }
    Ok(())
}
