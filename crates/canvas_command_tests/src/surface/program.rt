//! The program as one call.

use canvas_command::command;
use canvas_samples::{CHAIN, CHAIN_REPORT};
use canvas_task::{Add, AddFault, Div, Ident, LogError, Mul, Registry, Xsum, registry_of};
use std::alloc::{AllocError, AllocGlobal, Global};
use std::random::RandomSource;
use std::rt::Files;
use std::sync::Wait;
use std::thread::Threads;

fn words(alloc: Global, line: &str) -> Result<Vec<String>, AllocError> {
    let mut words = Vec::new(alloc);
    for word in line.split_whitespace() {
        words.push(String::from_str(alloc, word)?)?;
    }
    Ok(words)
}

/// What the program answers: its status, its output and its errors.
struct Wanted {
    line: &'static str,
    input: &'static str,
    status: u8,
    out: &'static str,
    err: &'static str,
}

const WANTED: [Wanted; 3] = [
    Wanted {
        line: "run -",
        input: CHAIN,
        status: 0,
        out: CHAIN_REPORT,
        err: "",
    },
    Wanted {
        line: "run nosuch",
        input: "",
        status: 1,
        out: "",
        err: "canvas: cannot read nosuch\n",
    },
    Wanted {
        line: "run -",
        input: r#"{"task":"celery.chain","subtask_type":"chain","kwargs":{"tasks":[]}}"#,
        status: 1,
        out: "",
        err: "canvas: refused 9 EmptyChain\n",
    },
];

/// Whether the program answers words so.
fn answers<S>(rt: &S, six: &Registry, words: &[String], wanted: &Wanted) -> bool
where
    S: Files + Threads + Wait + RandomSource + AllocGlobal + Sync,
{
    let mut out: Vec<u8> = Vec::new(rt.alloc());
    let mut err: Vec<u8> = Vec::new(rt.alloc());
    let mut input = wanted.input.as_bytes();
    let status = command(rt, six, words, &mut input, &mut out, &mut err);
    status == wanted.status
        && out.as_slice() == wanted.out.as_bytes()
        && err.as_slice() == wanted.err.as_bytes()
}

fn is_answered<S>(rt: &S, six: &Registry, wanted: &Wanted) -> bool
where
    S: Files + Threads + Wait + RandomSource + AllocGlobal + Sync,
{
    match words(rt.alloc(), wanted.line) {
        Ok(words) => answers(rt, six, &words, wanted),
        Err(_) => false,
    }
}

/// The first line that the program answers otherwise, if there is one.
fn first_wrong<S>(rt: &S, six: &Registry) -> Option<&'static str>
where
    S: Files + Threads + Wait + RandomSource + AllocGlobal + Sync,
{
    for wanted in &WANTED {
        if !is_answered(rt, six, wanted) {
            return Some(wanted.line);
        }
    }
    None
}

fn wrong<S>(rt: &S) -> Result<Option<&'static str>, AddFault>
where
    S: Files + Threads + Wait + RandomSource + AllocGlobal + Sync,
{
    let six = registry_of!(rt.alloc(); Add, Mul, Div, Xsum, Ident, LogError)?;
    Ok(first_wrong(rt, &six))
}

#[test]
fn commands(rt: HostRuntime) {
    let wrong = wrong(&rt);
    assert!(rt; matches!(wrong, Ok(None)), "{wrong:?}");
}
