//! Calls that may be refused memory, each once and, where a growth was refused, once more.
//! `tools/refuse-memory` runs each of these tests with each growth refused in turn, one in a run;
//! in the gate there is none. So a call that is refused for no growth fails both.
//!
//! A proved test can't refuse an allocation, since the allocator is the runtime's own.

mod again;
mod objects;
mod parts;
mod runs;

use crate::refused::again::{copies, redeliveries};
use crate::refused::objects::{core, plain_queue, plain_table, queue, registry, table};
use crate::refused::parts::{arguments, effects, messages, plans, signatures};
use crate::refused::runs::{CANVASES, How, runs, turns};
use crate::runs::states::{Canvas, FAILING, spelled_plan};
use canvas_rewrite::Plan;
use canvas_task::Memory;
use std::alloc::{AllocGlobal, Global};
use std::random::RandomSource;
use std::sync::Wait;
use std::thread::Threads;

/// What may be refused memory, runs aside.
#[derive(Clone, Copy, Debug, PartialEq, Eq)]
enum Calls {
    Signatures,
    Plans,
    Arguments,
    Messages,
    Effects,
    Copies,
    PlainQueue,
    Queue,
    Redeliveries,
    PlainTable,
    Table,
    Core,
    Registry,
    Turns,
}

/// Whether these calls come to their answers, which are about a plan.
fn answered_of(alloc: Global, plan: &Plan, calls: Calls) -> Result<bool, Memory> {
    match calls {
        Calls::Messages => messages(alloc, plan),
        Calls::Effects => effects(alloc, plan),
        Calls::PlainTable => plain_table(alloc, plan),
        Calls::Table => table(alloc, plan),
        Calls::Core => core(alloc, plan),
        _ => Ok(false),
    }
}

/// Like `answered_of`, for a chord's plan, whose messages carry its body with an error callback.
fn answered_of_chord(alloc: Global, calls: Calls) -> Result<bool, Memory> {
    match spelled_plan(alloc, &FAILING) {
        Some(plan) => answered_of(alloc, &plan, calls),
        None => Err(Memory),
    }
}

/// Whether these calls come to their answers.
fn answered<R: Wait>(rt: &R, alloc: Global, calls: Calls) -> Result<bool, Memory> {
    match calls {
        Calls::Signatures => signatures(alloc),
        Calls::Plans => plans(alloc),
        Calls::Arguments => arguments(alloc),
        Calls::Copies => copies(alloc),
        Calls::PlainQueue => plain_queue(alloc),
        Calls::Queue => queue(rt, alloc),
        Calls::Redeliveries => redeliveries(rt, alloc),
        Calls::Registry => registry(alloc),
        Calls::Turns => turns(alloc),
        _ => answered_of_chord(alloc, calls),
    }
}

/// Whether they do so at once, or the second time where memory was refused the first time.
fn answer<R: Wait>(rt: &R, alloc: Global, calls: Calls) -> bool {
    match answered(rt, alloc, calls) {
        Ok(is_right) => is_right,
        Err(Memory) => answered(rt, alloc, calls) == Ok(true),
    }
}

#[test]
fn signatures_of_canvases(rt: HostRuntime) {
    for &calls in &[Calls::Signatures, Calls::Plans, Calls::Arguments] {
        assert!(rt; answer(&rt, rt.alloc(), calls), "{calls:?}");
    }
}

#[test]
fn messages_of_plans(rt: HostRuntime) {
    for &calls in &[Calls::Messages, Calls::Effects, Calls::Copies] {
        assert!(rt; answer(&rt, rt.alloc(), calls), "{calls:?}");
    }
}

#[test]
fn objects_of_runs(rt: HostRuntime) {
    for &calls in &[
        Calls::PlainQueue,
        Calls::Queue,
        Calls::Redeliveries,
        Calls::PlainTable,
        Calls::Table,
        Calls::Core,
        Calls::Registry,
        Calls::Turns,
    ] {
        assert!(rt; answer(&rt, rt.alloc(), calls), "{calls:?}");
    }
}

/// Whether a run comes to its end, at once or the second time.
fn is_run<R>(rt: &R, canvas: &Canvas, how: How) -> bool
where
    R: Threads + Wait + RandomSource + AllocGlobal + Sync,
{
    match runs(rt, canvas, how) {
        Ok(is_right) => is_right,
        Err(Memory) => runs(rt, canvas, how) == Ok(true),
    }
}

/// The first canvas whose run is wrong, if there is one.
fn first_wrong<R>(rt: &R, how: How) -> Option<usize>
where
    R: Threads + Wait + RandomSource + AllocGlobal + Sync,
{
    CANVASES.iter().position(|canvas| !is_run(rt, canvas, how))
}

#[test]
fn runs_by_turns(rt: HostRuntime) {
    for &how in &[How::Turns(1), How::Turns(2), How::Again(1), How::Again(2)] {
        let wrong = first_wrong(&rt, how);
        assert!(rt; wrong.is_none(), "{how:?}: {wrong:?}");
    }
}

#[test]
fn runs_on_threads(rt: HostRuntime) {
    for &how in &[How::Threads(2), How::ByHand] {
        let wrong = first_wrong(&rt, how);
        assert!(rt; wrong.is_none(), "{how:?}: {wrong:?}");
    }
}

#[test]
fn runs_of_texts(rt: HostRuntime) {
    for &how in &[How::Text, How::TextThreads] {
        let wrong = first_wrong(&rt, how);
        assert!(rt; wrong.is_none(), "{how:?}: {wrong:?}");
    }
}
