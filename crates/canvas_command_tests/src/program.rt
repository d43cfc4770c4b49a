//! The program, over the words of a line.

use canvas_command::command;
use canvas_task::{BuiltinTasks, Tasks};
use std::alloc::{AllocError, Global};
use std::io::Read;
use std::random::RandomSource;
use std::rt::Files;
use std::sync::Wait;
use std::thread::Threads;

/// A sum, and then a product.
pub(crate) const ADD_THEN_MUL: &str =
    r#"{"task":"celery.chain","subtask_type":"chain","kwargs":{"tasks":[
    {"task":"tasks.add","args":[4,4]},{"task":"tasks.mul","args":[8]}]}}"#;

pub(crate) const REPORT: &str = concat!(
    "00000000-0000-8000-8000-000000000001 tasks.add SUCCESS 8\n",
    "00000000-0000-8000-8000-000000000002 tasks.mul SUCCESS 64\n",
    "result 64\n"
);

pub(crate) fn words(alloc: Global, line: &str) -> Result<Vec<String>, AllocError> {
    let mut words = Vec::new(alloc);
    for word in line.split_whitespace() {
        words.push(String::from_str(alloc, word)?)?;
    }
    Ok(words)
}

/// Whether the program with these tasks answers words and an input with a status and texts.
pub(crate) fn answers_with<S, T, R: Read>(
    rt: &S,
    tasks: &T,
    line: &str,
    input: &mut R,
    status: u8,
    out: &str,
    err: &str,
) -> bool
where
    S: Files + Threads + Wait + RandomSource + AllocGlobal + Sync,
    T: Tasks + Sync,
{
    let mut written: Vec<u8> = Vec::new(rt.alloc());
    let mut told: Vec<u8> = Vec::new(rt.alloc());
    match words(rt.alloc(), line) {
        Ok(words) => {
            command(rt, tasks, &words, input, &mut written, &mut told) == status
                && written.as_slice() == out.as_bytes()
                && told.as_slice() == err.as_bytes()
        }
        Err(_) => false,
    }
}

/// Whether the program with these tasks answers words and an input with status 0.
pub(crate) fn is_answered<S, T>(rt: &S, tasks: &T, line: &str, input: &str) -> bool
where
    S: Files + Threads + Wait + RandomSource + AllocGlobal + Sync,
    T: Tasks + Sync,
{
    let mut written: Vec<u8> = Vec::new(rt.alloc());
    let mut told: Vec<u8> = Vec::new(rt.alloc());
    match words(rt.alloc(), line) {
        Ok(words) => {
            let mut bytes = input.as_bytes();
            command(rt, tasks, &words, &mut bytes, &mut written, &mut told) == 0
        }
        Err(_) => false,
    }
}

/// Whether the program answers a line so if it has the built-in tasks.
pub(crate) fn answers_to<S, R: Read>(
    rt: &S,
    line: &str,
    input: &mut R,
    status: u8,
    out: &str,
    err: &str,
) -> bool
where
    S: Files + Threads + Wait + RandomSource + AllocGlobal + Sync,
{
    answers_with(rt, &BuiltinTasks, line, input, status, out, err)
}
