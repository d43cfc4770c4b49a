//! Refusals that no run of the program shows, with their statuses and texts.

use canvas_command::{Refusal, refuse_words, refused};
use canvas_engine::{Cause, RunFault};
use canvas_runs::EntryFault;
use std::alloc::Global;
use std::io::{self, ErrorKind};
use std::test::Fail;

/// Whether a refusal ends with status 2 and this text.
fn is_told(alloc: Global, refusal: &Refusal, told: &str) -> bool {
    match format!(in alloc; "{refusal}") {
        Ok(text) => refusal.status() == 2 && text.as_str() == told,
        Err(_) => false,
    }
}

/// The program asks no run to stop, but one that did would say so.
#[test]
fn a_run_that_is_stopped(rt: HostRuntime) {
    let refusal = refused(&RunFault::Halted {
        cause: Cause::Stopped,
        rows: None,
    });
    assert!(rt; is_told(rt.alloc(), &refusal, "canvas: stopped\n"));
}

#[test]
fn a_list_without_memory(rt: HostRuntime) {
    let refusal = Refusal::from(EntryFault::Memory);
    assert!(rt; is_told(rt.alloc(), &refusal, "canvas: memory refused\n"));
}

#[test]
fn words_without_memory(rt: HostRuntime) -> Result<(), Fail> {
    let mut told: Vec<u8> = Vec::new(rt.alloc());
    let mut written: Vec<u8> = Vec::new(rt.alloc());
    let answer = refuse_words(rt.alloc(), &io::Error::from(ErrorKind::OutOfMemory));
    let status = answer.print(rt.alloc(), &mut written, &mut told);
    assert!(rt; status == 2 && written.is_empty());
    assert!(rt; told.as_slice() == b"canvas: memory refused\n".as_slice());
    Ok(())
}
