//! Tasks that the caller passes, with the gate that lets every worker go on: they are called in
//! parallel, also those of a registry.

ghost use Rattle.std.specs.Prelude.{◌+ℤ◌, Ok};

use crate::runs::states::{spelled_plan, tallies};
use canvas_engine::run_text_threads;
use canvas_rewrite::Plan;
use canvas_samples::spelled;
use canvas_task::{
    Add, Arg, BuiltinTasks, Kind, Memory, OfTwo, Outcome, TaskOfTwo, Tasks, registry_of,
};
use canvas_worker::{OpenGate, Stop};
use std::alloc::{AllocError, AllocGlobal, Global};
use std::collections::BTreeMap;
use std::random::RandomSource;
use std::sync::Wait;
use std::sync::atomic::{AtomicBool, AtomicU32, Ordering};
use std::thread::{Threads, yield_now};

/// The built-in tasks, and how often any of them was called.
#[derive(Drop)]
pub(crate) struct Called {
    times: AtomicU32,
}

impl Called {
    pub(crate) fn new() -> Called {
        Called {
            times: AtomicU32::new(0),
        }
    }

    pub(crate) fn times(&self) -> u32 {
        self.times.load(Ordering::SeqCst)
    }
}

impl Tasks for Called {
    ghost use Rattle.canvas_task.specs.Builtin.{builtin_tasks};
    ghost use Rattle.canvas_task.specs.BehaviourInRange.{builtin_in_range};

    ghost behaviour = { λ _. builtin_tasks };

    fn apply(&self, name: &str, args: &[Arg], kwargs: &BTreeMap<String, Arg>) -> Outcome {
        self.times.fetch_add(1, Ordering::SeqCst);
        BuiltinTasks.apply(name, args, kwargs)
    }

    ghost in_range = { λ _. builtin_in_range };
}

// ---- calls that wait for each other

/// How often a call looks, and lets other threads run, before it gives up: some seconds.
const MOST: u32 = 3_000_000;

/// A place where calls wait for each other, after some that don't.
#[derive(Drop)]
struct Meeting {
    /// How many calls don't wait.
    before: u32,
    /// How many have to be there.
    all: u32,
    begun: AtomicU32,
    gave_up: AtomicBool,
}

impl Meeting {
    fn of(before: u32, all: u32) -> Meeting {
        Meeting {
            before,
            all,
            begun: AtomicU32::new(0),
            gave_up: AtomicBool::new(false),
        }
    }

    fn gave_up(&self) -> bool {
        self.gave_up.load(Ordering::SeqCst)
    }

    /// Waits until `all` calls have begun after the first ones. One that gives up lets all others
    /// go.
    fn wait(&self) {
        let all = self.before.saturating_add(self.all);
        if self.begun.fetch_add(1, Ordering::SeqCst) < self.before {
            return;
        }
        for _ in 0..MOST {
            if self.begun.load(Ordering::SeqCst) >= all || self.gave_up() {
                return;
            }
            yield_now();
        }
        self.gave_up.store(true, Ordering::SeqCst);
    }
}

impl Tasks for Meeting {
    ghost use Rattle.canvas_task.specs.Builtin.{builtin_tasks};
    ghost use Rattle.canvas_task.specs.BehaviourInRange.{builtin_in_range};

    ghost behaviour = { λ _. builtin_tasks };

    fn apply(&self, name: &str, args: &[Arg], kwargs: &BTreeMap<String, Arg>) -> Outcome {
        self.wait();
        BuiltinTasks.apply(name, args, kwargs)
    }

    ghost in_range = { λ _. builtin_in_range };
}

/// Twenty calls in parallel, and twenty after a call: its worker takes four of them at once.
const TWENTY: &str = "G(.,.,.,.,.,.,.,.,.,.,.,.,.,.,.,.,.,.,.,.)";

const BEHIND_ONE: &str = "C(.,G(.,.,.,.,.,.,.,.,.,.,.,.,.,.,.,.,.,.,.,.))";

/// The calls that wait: short sums, short sums after a first task, or sums of thousands of numbers.
#[derive(Clone, Copy, Debug)]
enum Group {
    Light,
    Behind,
    Heavy,
}

fn heavy(alloc: Global) -> Result<String, AllocError> {
    let call = format!(in alloc; "xsum:[{}1] ", "1,".repeat(alloc, 4_000)?)?;
    call.repeat(alloc, 20)
}

fn calls_of(alloc: Global, group: Group) -> Result<String, AllocError> {
    match group {
        Group::Light => "add:1,1 ".repeat(alloc, 20),
        Group::Behind => "ident:1 ".repeat(alloc, 21),
        Group::Heavy => heavy(alloc),
    }
}

fn text_of(alloc: Global, group: Group) -> Result<String, Memory> {
    let frame = match group {
        Group::Behind => BEHIND_ONE,
        Group::Light | Group::Heavy => TWENTY,
    };
    match calls_of(alloc, group) {
        Ok(calls) => spelled::canvas(alloc, frame, &calls),
        Err(_) => Err(Memory),
    }
}

/// Whether all calls of a text's run meet.
fn text_meets<R>(rt: &R, text: &str, before: u32, workers: u32) -> bool
where
    R: Threads + Wait + RandomSource + AllocGlobal + Sync,
{
    let tasks = Meeting::of(before, workers);
    let (bytes, alloc) = (text.as_bytes(), rt.alloc());
    let ran = run_text_threads(rt, alloc, bytes, &tasks, workers, &OpenGate, &Stop::new());
    ran.is_ok() && !tasks.gave_up()
}

/// Like `text_meets`, for a group. A first task before it doesn't wait.
fn meets<R>(rt: &R, group: Group, workers: u32) -> bool
where
    R: Threads + Wait + RandomSource + AllocGlobal + Sync,
{
    let before = if matches!(group, Group::Behind) { 1 } else { 0 };
    match text_of(rt.alloc(), group) {
        Ok(text) => text_meets(rt, &text, before, workers),
        Err(_) => false,
    }
}

/// Each worker is inside a call while all others are: each has a thread of its own, and one that
/// found nothing at first takes again as long as a message is in flight.
#[test]
fn calls_of_all_workers_meet(rt: HostRuntime) {
    for &group in &[Group::Light, Group::Behind, Group::Heavy] {
        for &workers in &[2, 4, 16] {
            assert!(rt;
                meets(&rt, group, workers),
                "{group:?} by {workers} workers"
            );
        }
    }
}

// ---- a registry

/// How often a slow task lets other threads run.
const LONG: u32 = 200_000;

/// The sum, slowly. A task of a registry can't hold what calls would meet by.
#[derive(Clone, Copy)]
struct Slow;

impl OfTwo for Slow {
    ghost answer = { λ _ x y. Ok (x +ℤ y) };

    fn answer(&self, x: i64, y: i64) -> Result<i128, Kind> {
        for _ in 0..LONG {
            yield_now();
        }
        Ok(i128::from(x) + i128::from(y))
    }
}

/// How many of four workers take a message.
fn taking<R, T>(rt: &R, plan: &Plan, tasks: &T) -> Option<usize>
where
    R: Threads + Wait + RandomSource + AllocGlobal + Sync,
    T: Tasks + Sync,
{
    match tallies(rt, plan, tasks, 4, &OpenGate, &Stop::new()) {
        Ok(tallies) => Some(tallies.get().iter().filter(|tally| tally.taken > 0).count()),
        Err(_) => None,
    }
}

/// Like `taking`, if the task of all is a slow one of a registry.
fn taking_slow<R>(rt: &R, alloc: Global, plan: &Plan) -> Option<usize>
where
    R: Threads + Wait + RandomSource + AllocGlobal + Sync,
{
    let slow = TaskOfTwo {
        name: "tasks.slow",
        parameters: ("x", "y"),
        answers: Slow,
    };
    match registry_of!(alloc; Add, slow) {
        Ok(registry) => taking(rt, plan, &registry),
        Err(_) => None,
    }
}

/// Like `taking_slow`, for a group of four.
fn taking_four<R>(rt: &R) -> Option<usize>
where
    R: Threads + Wait + RandomSource + AllocGlobal + Sync,
{
    match spelled_plan(
        rt.alloc(),
        &["G(.,.,.,.)", "slow:1,1 slow:2,2 slow:3,3 slow:4,4"],
    ) {
        Some(plan) => taking_slow(rt, rt.alloc(), &plan),
        None => None,
    }
}

/// One worker doesn't do all, since others are there before it is through with its first.
#[test]
fn slow_tasks_of_a_registry(rt: HostRuntime) {
    let taking = taking_four(&rt);
    assert!(rt; matches!(taking, Some(2..=4)), "{taking:?}");
}
