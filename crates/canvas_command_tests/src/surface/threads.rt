//! Runs on threads: faults, sums of the workers' counts, a stop, and reports.

use canvas_engine::{
    Cause, Report, RunFault, Tally, TextFault, report_text, run, run_text_threads,
};
use canvas_rewrite::Plan;
use canvas_samples::{CHORD, CHORD_REPORT, EMPTY_GROUP, hundred_planned, plan_of};
use canvas_task::{Add, AddFault, Div, Ident, LogError, Mul, Registry, TaskNo, Xsum, registry_of};
use canvas_worker::{Gate, OpenGate, Stop};
use std::alloc::{AllocGlobal, Global};
use std::random::RandomSource;
use std::sync::Wait;
use std::sync::atomic::{AtomicBool, Ordering};
use std::thread::Threads;

/// How many envelopes all workers took and published, and how many stores were the first of their
/// task and parts returned; and that there is one worker more than asked for.
type Sums = (u64, u64, u64, u64);

fn sums_of(tallies: &[Tally], workers: u32) -> Option<Sums> {
    if tallies.len() as u64 != u64::from(workers).saturating_add(1) {
        return None;
    }
    let [mut taken, mut published, mut first, mut parts] = [0u64; 4];
    for tally in tallies {
        taken = taken.saturating_add(tally.taken);
        published = published.saturating_add(tally.published);
        first = first.saturating_add(tally.first);
        parts = parts.saturating_add(tally.parts);
    }
    Some((taken, published, first, parts))
}

/// The sums of a run; None where it had a fault.
fn sums<R, G>(rt: &R, plan: &Plan, six: &Registry, workers: u32, gate: &G) -> Option<Sums>
where
    R: Threads + Wait + RandomSource + AllocGlobal + Sync,
    G: Gate + Sync,
{
    match run(rt, rt.alloc(), plan, six, workers, gate, &Stop::new()) {
        Ok((_, records)) => sums_of(records.workers.get(), workers),
        Err(_) => None,
    }
}

/// Has an envelope of task 1 delivered again, once.
#[derive(Drop)]
struct OnceForTheFirst {
    was_asked: AtomicBool,
}

impl OnceForTheFirst {
    fn new() -> OnceForTheFirst {
        OnceForTheFirst {
            was_asked: AtomicBool::new(false),
        }
    }
}

impl Gate for OnceForTheFirst {
    fn go(&self, _worker: u32, _task: TaskNo) -> bool {
        true
    }

    fn again(&self, _worker: u32, task: TaskNo) -> bool {
        task.get() == 1 && !self.was_asked.swap(true, Ordering::SeqCst)
    }
}

/// Asks a stop at its first call.
#[derive(Drop)]
struct StopsAtOnce<'a> {
    stop: &'a Stop,
}

impl Gate for StopsAtOnce<'_> {
    fn go(&self, _worker: u32, _task: TaskNo) -> bool {
        self.stop.ask();
        true
    }
}

/// Whether a run whose gate asks its stop is halted as stopped, with rows.
fn is_stopped<R>(rt: &R, plan: &Plan, six: &Registry, workers: u32) -> bool
where
    R: Threads + Wait + RandomSource + AllocGlobal + Sync,
{
    let stop = Stop::new();
    let gate = StopsAtOnce { stop: &stop };
    match run(rt, rt.alloc(), plan, six, workers, &gate, &stop) {
        Err(
            RunFault::Halted {
                cause: Cause::Stopped,
                rows: Some(_),
            },
        ) => stop.asked(),
        _ => false,
    }
}

fn has_bad_workers<R>(rt: &R, plan: &Plan, six: &Registry, workers: u32) -> bool
where
    R: Threads + Wait + RandomSource + AllocGlobal + Sync,
{
    matches!(
        run(rt, rt.alloc(), plan, six, workers, &OpenGate, &Stop::new()),
        Err(RunFault::BadWorkers)
    )
}

/// Whether a hundred tasks and their sum come to their counts: once each; with the message of task
/// 1 taken twice; stopped at the gate's first call; and with too few and too many workers.
fn hundred_counts<R>(rt: &R, plan: &Plan, six: &Registry) -> bool
where
    R: Threads + Wait + RandomSource + AllocGlobal + Sync,
{
    for &workers in &[1, 2, 16] {
        let again = OnceForTheFirst::new();
        if sums(rt, plan, six, workers, &OpenGate) != Some((101, 101, 101, 100))
            || sums(rt, plan, six, workers, &again) != Some((102, 101, 101, 100))
        {
            return false;
        }
    }
    is_stopped(rt, plan, six, 1)
        && is_stopped(rt, plan, six, 16)
        && has_bad_workers(rt, plan, six, 0)
        && has_bad_workers(rt, plan, six, 17)
}

/// Whether a chord with a failed member, and a group without members, come to their counts.
fn small_counts<R>(rt: &R, chord: &Plan, empty: &Plan, six: &Registry) -> bool
where
    R: Threads + Wait + RandomSource + AllocGlobal + Sync,
{
    sums(rt, chord, six, 2, &OpenGate) == Some((4, 4, 5, 3))
        && sums(rt, empty, six, 2, &OpenGate) == Some((0, 0, 0, 0))
}

fn has_report(ran: &Result<String, TextFault>) -> bool {
    match ran {
        Ok(report) => report.as_str() == CHORD_REPORT,
        Err(_) => false,
    }
}

/// Whether the report of a text's run is the same for 1, 2 and 16 workers.
fn is_reported<R>(rt: &R, six: &Registry) -> bool
where
    R: Threads + Wait + RandomSource + AllocGlobal + Sync,
{
    let (alloc, bytes) = (rt.alloc(), CHORD.as_bytes());
    for &workers in &[1, 2, 16] {
        let stop = Stop::new();
        let ran = run_text_threads(rt, alloc, bytes, six, workers, &OpenGate, &stop);
        if !has_report(&ran) {
            return false;
        }
    }
    true
}

fn is_printed(alloc: Global, plan: &Plan, report: &Report) -> bool {
    match report_text(alloc, plan, report) {
        Ok(text) => text.as_str() == CHORD_REPORT,
        Err(_) => false,
    }
}

/// Whether the report of a plan's run is printed so.
fn prints<R>(rt: &R, plan: &Plan, six: &Registry) -> bool
where
    R: Threads + Wait + RandomSource + AllocGlobal + Sync,
{
    match run(rt, rt.alloc(), plan, six, 4, &OpenGate, &Stop::new()) {
        Ok((report, _)) => is_printed(rt.alloc(), plan, &report),
        Err(_) => false,
    }
}

/// Whether a hundred tasks and their sum come to what they should.
fn hundred_is_right<R>(rt: &R, six: &Registry) -> bool
where
    R: Threads + Wait + RandomSource + AllocGlobal + Sync,
{
    match hundred_planned(rt.alloc()) {
        Some(hundred) => hundred_counts(rt, &hundred, six),
        None => false,
    }
}

/// Whether a chord and a group without members come to what they should.
fn small_are_right<R>(rt: &R, six: &Registry) -> bool
where
    R: Threads + Wait + RandomSource + AllocGlobal + Sync,
{
    match (plan_of(rt.alloc(), CHORD), plan_of(rt.alloc(), EMPTY_GROUP)) {
        (Some(chord), Some(empty)) => {
            small_counts(rt, &chord, &empty, six) && prints(rt, &chord, six)
        }
        _ => false,
    }
}

/// What is wrong with runs on threads, if anything is.
fn first_wrong<R>(rt: &R, six: &Registry) -> Option<&'static str>
where
    R: Threads + Wait + RandomSource + AllocGlobal + Sync,
{
    if !hundred_is_right(rt, six) {
        Some("a hundred")
    } else if !small_are_right(rt, six) {
        Some("small ones")
    } else if !is_reported(rt, six) {
        Some("reports")
    } else {
        None
    }
}

fn wrong<R>(rt: &R) -> Result<Option<&'static str>, AddFault>
where
    R: Threads + Wait + RandomSource + AllocGlobal + Sync,
{
    let six = registry_of!(rt.alloc(); Add, Mul, Div, Xsum, Ident, LogError)?;
    Ok(first_wrong(rt, &six))
}

#[test]
fn runs_on_threads(rt: HostRuntime) {
    let wrong = wrong(&rt);
    assert!(rt; matches!(wrong, Ok(None)), "{wrong:?}");
}
