//! Runs of texts that are stopped: before they begin, by their gate, and between the end of their
//! workers and worker 0's own work; and runs whose executor fails.

use crate::runs::gates::{Stopping, Way};
use canvas_engine::{RunFault, TextFault, run_text_threads};
use canvas_samples::{a_failed_member, a_hundred_and_their_sum};
use canvas_task::BuiltinTasks;
use canvas_worker::{Cause, OpenGate, Stop};
use std::alloc::{Alloc, AllocGlobal, Global};
use std::io;
use std::random::RandomSource;
use std::sync::Wait;
use std::sync::atomic::{AtomicU32, Ordering};
use std::thread::Threads;

/// How many rows of a stopped run aren't pending. None of a run that ended otherwise. That each is
/// the state of its task is in the contract.
fn stored_rows(ran: &Result<String, TextFault>) -> Option<usize> {
    match ran {
        Err(
            TextFault::Run(
                RunFault::Halted {
                    cause: Cause::Stopped,
                    rows: Some(report),
                },
            ),
        ) => Some(report.rows.get().iter().filter(|row| row.is_some()).count()),
        _ => None,
    }
}

// ---- by a gate

/// How many rows a text's run has stored whose gate asks its stop once it was asked `most` times,
/// and isn't asked for long after that; with none, the stop is asked before the run begins.
fn stopped_text<R>(
    rt: &R,
    alloc: Global,
    text: &str,
    way: Way,
    most: Option<u32>,
    workers: u32,
) -> Option<usize>
where
    R: Threads + Wait + RandomSource + AllocGlobal + Sync,
{
    let stop = Stop::new();
    if most.is_none() {
        stop.ask();
    }
    let gate = Stopping::of(&stop, way, most.unwrap_or(u32::MAX));
    let bytes = text.as_bytes();
    let tasks = BuiltinTasks;
    let rows = stored_rows(&run_text_threads(rt, alloc, bytes, &tasks, workers, &gate, &stop));
    if gate.is_heeded() { rows } else { None }
}

/// Like `stopped_text`, for a hundred tasks and their sum.
fn stopped<R>(rt: &R, way: Way, most: Option<u32>, workers: u32) -> Option<usize>
where
    R: Threads + Wait + RandomSource + AllocGlobal + Sync,
{
    match a_hundred_and_their_sum(rt.alloc()) {
        Ok(hundred) => stopped_text(rt, rt.alloc(), &hundred.text, way, most, workers),
        Err(_) => None,
    }
}

/// Like `stopped`, for one worker, for two and for sixteen.
fn stopped_each<R>(rt: &R, way: Way, most: Option<u32>) -> [Option<usize>; 3]
where
    R: Threads + Wait + RandomSource + AllocGlobal + Sync,
{
    [
        stopped(rt, way, most, 1),
        stopped(rt, way, most, 2),
        stopped(rt, way, most, 16),
    ]
}

fn is_within(rows: Option<usize>, least: usize, greatest: usize) -> bool {
    match rows {
        Some(rows) => least <= rows && rows <= greatest,
        None => false,
    }
}

/// Whether one worker has stored `one` rows, and several workers a number within these bounds.
fn are_stored(rows: &[Option<usize>; 3], one: usize, least: usize, greatest: usize) -> bool {
    let [alone, two, sixteen] = *rows;
    alone == Some(one) && is_within(two, least, greatest) && is_within(sixteen, least, greatest)
}

/// A worker stores the outcome for which it has asked the gate, and then sees the stop. One that
/// the gate holds back sees it at its next poll. If envelopes are redelivered, one worker is asked
/// before and after the store of each task.
#[test]
fn by_a_gate(rt: HostRuntime) {
    for &(way, most, one, least, greatest) in &[
        (Way::Open, None, 0, 0, 0),
        (Way::Open, Some(0), 1, 1, 16),
        (Way::Open, Some(1), 2, 2, 17),
        (Way::Open, Some(50), 51, 51, 66),
        (Way::Shut, Some(10), 0, 0, 0),
        (Way::Again, Some(0), 0, 0, 16),
        (Way::Again, Some(1), 1, 0, 16),
        (Way::Again, Some(3), 2, 0, 16),
        (Way::Again, Some(50), 25, 0, 66),
    ] {
        let rows = stopped_each(&rt, way, most);
        assert!(rt;
            are_stored(&rows, one, least, greatest),
            "{way:?} after {most:?}: {rows:?}"
        );
    }
}

// ---- where an executor begins

/// A runtime of which each executor draws its number once, when it begins. At the draw of this
/// number (from 1) the stop is asked, or the draw fails.
#[derive(Drop)]
struct Drawing<'a, R> {
    rt: &'a R,
    stop: &'a Stop,
    at: u32,
    fails: bool,
    drawn: AtomicU32,
}

impl<'a, R> Drawing<'a, R> {
    fn of(rt: &'a R, stop: &'a Stop, at: u32, fails: bool) -> Drawing<'a, R> {
        Drawing {
            rt,
            stop,
            at,
            fails,
            drawn: AtomicU32::new(0),
        }
    }
}

impl<R: Wait> Wait for Drawing<'_, R> {}

impl<R: Threads> Threads for Drawing<'_, R> {}

impl<R: AllocGlobal> Alloc for Drawing<'_, R> {
    type A = Global;

    fn alloc(&self) -> Global {
        self.rt.alloc()
    }
}

impl<R: RandomSource> RandomSource for Drawing<'_, R> {
    fn fill_bytes(&self, bytes: &mut [u8]) -> io::Result<()> {
        if self.drawn.fetch_add(1, Ordering::SeqCst).wrapping_add(1) == self.at {
            if self.fails {
                return Err(io::Error::from(io::ErrorKind::Other));
            }
            self.stop.ask();
        }
        self.rt.fill_bytes(bytes)
    }
}

fn has_no_rows(fault: &RunFault) -> bool {
    match fault {
        RunFault::Halted { cause, rows } => *cause == Cause::Memory && rows.is_none(),
        _ => false,
    }
}

/// Whether a run has no rows, since memory was refused to its executor.
fn is_lost(ran: &Result<String, TextFault>) -> bool {
    match ran {
        Err(TextFault::Run(fault)) => has_no_rows(fault),
        _ => false,
    }
}

/// A text's run, at one draw of which its stop is asked, or which fails.
fn ran_drawing<R>(rt: &Drawing<'_, R>, text: &str, workers: u32) -> Result<String, TextFault>
where
    R: Threads + Wait + RandomSource + AllocGlobal + Sync,
{
    let (bytes, alloc) = (text.as_bytes(), rt.alloc());
    run_text_threads(rt, alloc, bytes, &BuiltinTasks, workers, &OpenGate, rt.stop)
}

/// How many rows a text's run has stored whose stop is asked at a draw.
fn rows_drawn<R>(rt: &R, text: &str, at: u32, workers: u32) -> Option<usize>
where
    R: Threads + Wait + RandomSource + AllocGlobal + Sync,
{
    let stop = Stop::new();
    stored_rows(&ran_drawing(&Drawing::of(rt, &stop, at, false), text, workers))
}

/// Whether one that fails at this draw is lost, and asks its stop.
fn is_lost_drawing<R>(rt: &R, text: &str, at: u32, workers: u32) -> bool
where
    R: Threads + Wait + RandomSource + AllocGlobal + Sync,
{
    let stop = Stop::new();
    is_lost(&ran_drawing(&Drawing::of(rt, &stop, at, true), text, workers)) && stop.asked()
}

/// Both.
fn drawn_text<R>(rt: &R, text: &str, at: u32, workers: u32) -> (Option<usize>, bool)
where
    R: Threads + Wait + RandomSource + AllocGlobal + Sync,
{
    (
        rows_drawn(rt, text, at, workers),
        is_lost_drawing(rt, text, at, workers),
    )
}

/// Like `drawn_text`, for a chord of five tasks.
fn drawn<R>(rt: &R, at: u32, workers: u32) -> (Option<usize>, bool)
where
    R: Threads + Wait + RandomSource + AllocGlobal + Sync,
{
    match a_failed_member(rt.alloc()) {
        Ok(chord) => drawn_text(rt, &chord.text, at, workers),
        Err(_) => (None, false),
    }
}

/// Worker 0's executor is the last. A stop that is asked there finds all rows stored, and one that
/// is asked where the first worker begins may find any number.
#[test]
fn where_an_executor_begins(rt: HostRuntime) {
    for &(workers, at) in &[(1, 2), (2, 3), (4, 5)] {
        let last = drawn(&rt, at, workers);
        let (rows, is_lost) = drawn(&rt, workers, workers);
        assert!(rt;
            last == (Some(5), true) && is_lost && rows.is_some(),
            "{workers} workers: {last:?}, {rows:?}, {is_lost}"
        );
    }
}
