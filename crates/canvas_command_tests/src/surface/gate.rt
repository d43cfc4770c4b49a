//! A gate that waits until every worker's number has asked it: workers that are polled in turn on
//! one thread fail it.

use canvas_engine::{Tally, run, run_text_threads};
use canvas_rewrite::Plan;
use canvas_samples::{TEN, TEN_REPORT, plan_of};
use canvas_task::{Add, AddFault, Div, Ident, LogError, Mul, Registry, TaskNo, Xsum, registry_of};
use canvas_worker::{Gate, Stop};
use std::alloc::{AllocGlobal, Global};
use std::random::RandomSource;
use std::sync::Wait;
use std::sync::atomic::{AtomicBool, AtomicU32, Ordering};
use std::thread::Threads;

/// How often a call of the gate looks before it gives up.
const MOST: u32 = 500_000_000;

/// A bit for each number of a worker.
fn bit_of(worker: u32) -> u32 {
    1u32.checked_shl(worker).unwrap_or(0)
}

/// Lets a worker go on once each number from 1 to that of the last worker has asked.
#[derive(Drop)]
struct Meeting {
    /// The bits of all workers.
    all: u32,
    asked: AtomicU32,
    gave_up: AtomicBool,
}

impl Meeting {
    fn of(workers: u32) -> Meeting {
        Meeting {
            all: bit_of(workers.saturating_add(1)).saturating_sub(2),
            asked: AtomicU32::new(0),
            gave_up: AtomicBool::new(false),
        }
    }

    /// Whether every worker has asked, no other number has, and no call gave up.
    fn was_held(&self) -> bool {
        self.asked.load(Ordering::SeqCst) == self.all && !self.gave_up.load(Ordering::SeqCst)
    }
}

impl Gate for Meeting {
    fn go(&self, worker: u32, _task: TaskNo) -> bool {
        self.asked.fetch_or(bit_of(worker), Ordering::SeqCst);
        for _ in 0..MOST {
            if self.asked.load(Ordering::SeqCst) == self.all {
                return true;
            }
        }
        self.gave_up.store(true, Ordering::SeqCst);
        true
    }
}

fn first_of(tallies: &[Tally]) -> u64 {
    let mut first = 0u64;
    for tally in tallies {
        first = first.saturating_add(tally.first);
    }
    first
}

/// How many stores of a plan's run were the first of their task, if its workers met.
fn first_stores<R>(rt: &R, plan: &Plan, six: &Registry, workers: u32) -> Option<u64>
where
    R: Threads + Wait + RandomSource + AllocGlobal + Sync,
{
    let gate = Meeting::of(workers);
    match run(rt, rt.alloc(), plan, six, workers, &gate, &Stop::new()) {
        Ok((_, records)) if gate.was_held() => Some(first_of(records.workers.get())),
        _ => None,
    }
}

/// Whether the workers of a text's run met, and it has its report.
fn is_reported<R>(rt: &R, alloc: Global, six: &Registry, workers: u32) -> bool
where
    R: Threads + Wait + RandomSource + AllocGlobal + Sync,
{
    let gate = Meeting::of(workers);
    match run_text_threads(rt, alloc, TEN.as_bytes(), six, workers, &gate, &Stop::new()) {
        Ok(report) => report.as_str() == TEN_REPORT && gate.was_held(),
        Err(_) => false,
    }
}

/// Whether two workers meet, and four, by a plan's run and by a text's.
fn all_meet<R>(rt: &R, plan: &Plan, six: &Registry) -> bool
where
    R: Threads + Wait + RandomSource + AllocGlobal + Sync,
{
    for &workers in &[2, 4] {
        if first_stores(rt, plan, six, workers) != Some(10)
            || !is_reported(rt, rt.alloc(), six, workers)
        {
            return false;
        }
    }
    true
}

fn meet<R>(rt: &R, alloc: Global) -> Result<bool, AddFault>
where
    R: Threads + Wait + RandomSource + AllocGlobal + Sync,
{
    let six = registry_of!(alloc; Add, Mul, Div, Xsum, Ident, LogError)?;
    match plan_of(alloc, TEN) {
        Some(plan) => Ok(all_meet(rt, &plan, &six)),
        None => Ok(false),
    }
}

/// A group of ten `add(i, i)`, by 2 and by 4 workers.
#[test]
fn every_number_of_a_worker_asks_the_gate(rt: HostRuntime) {
    assert!(rt; matches!(meet(&rt, rt.alloc()), Ok(true)));
}
