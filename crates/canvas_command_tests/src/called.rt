//! Tasks that know how they are called: side by side, and in which order.

use crate::program::is_answered;
use canvas_task::{Arg, BuiltinTasks, Outcome, Tasks};
use std::alloc::{AllocError, Global};
use std::collections::BTreeMap;
use std::random::RandomSource;
use std::rt::Files;
use std::sync::Wait;
use std::sync::atomic::{AtomicBool, AtomicU32, Ordering};
use std::thread::{Threads, yield_now};

/// How often a call looks, and lets other threads run, before it gives up: some seconds.
const MOST: u32 = 3_000_000;

/// The built-in tasks, each call of which waits until this number has begun.
#[derive(Drop)]
struct Meeting {
    all: u32,
    begun: AtomicU32,
    gave_up: AtomicBool,
}

impl Meeting {
    fn of(all: u32) -> Meeting {
        Meeting {
            all,
            begun: AtomicU32::new(0),
            gave_up: AtomicBool::new(false),
        }
    }

    fn gave_up(&self) -> bool {
        self.gave_up.load(Ordering::SeqCst)
    }

    /// One that gives up lets all others go.
    fn wait(&self) {
        self.begun.fetch_add(1, Ordering::SeqCst);
        for _ in 0..MOST {
            if self.begun.load(Ordering::SeqCst) >= self.all || self.gave_up() {
                return;
            }
            yield_now();
        }
        self.gave_up.store(true, Ordering::SeqCst);
    }
}

impl Tasks for Meeting {
    ghost use Rattle.canvas_task.specs.Builtin.{builtin_tasks};
    ghost use Rattle.canvas_task.specs.BehaviourInRange.{builtin_in_range};

    ghost behaviour = { λ _. builtin_tasks };

    fn apply(&self, name: &str, args: &[Arg], kwargs: &BTreeMap<String, Arg>) -> Outcome {
        self.wait();
        BuiltinTasks.apply(name, args, kwargs)
    }

    ghost in_range = { λ _. builtin_in_range };
}

/// A group of sixteen calls.
fn sixteen(alloc: Global) -> Result<String, AllocError> {
    let calls = r#"{"task":"tasks.add","args":[1,1]},"#.repeat(alloc, 15)?;
    format!(in alloc;
        r#"{{"task":"g","subtask_type":"group","kwargs":{{"tasks":[{calls}{{"task":"tasks.add","args":[1,1]}}]}}}}"#
    )
}

/// Sixteen canvases of one call, a line each: with `--each` a canvas has one worker.
fn sixteen_lines(alloc: Global) -> Result<String, AllocError> {
    "{\"task\":\"tasks.add\",\"args\":[1,1]}\n".repeat(alloc, 16)
}

/// Sixteen calls, in one canvas or in as many.
fn calls_for(alloc: Global, line: &str) -> Result<String, AllocError> {
    if line.ends_with("--each") {
        sixteen_lines(alloc)
    } else {
        sixteen(alloc)
    }
}

/// Whether each worker's call meets those of the others, if the words start this number.
fn meets<S>(rt: &S, line: &str, workers: u32) -> bool
where
    S: Files + Threads + Wait + RandomSource + AllocGlobal + Sync,
{
    let tasks = Meeting::of(workers);
    match calls_for(rt.alloc(), line) {
        Ok(text) => is_answered(rt, &tasks, line, &text) && !tasks.gave_up(),
        Err(_) => false,
    }
}

/// Each worker that the words ask for is inside a call while all others are.
#[test]
fn calls_of_all_workers_meet(rt: HostRuntime) {
    for &(line, workers) in &[
        ("run - --workers 2", 2),
        ("run - --workers 16 --explain", 16),
        ("run - --workers 4 --each", 4),
        ("graph - --run --workers 4", 4),
    ] {
        assert!(rt; meets(&rt, line, workers), "{line}");
    }
}

// ---- the order of calls

/// The built-in tasks, and the first arguments of their calls, a digit for each.
#[derive(Drop)]
struct Ordered {
    order: AtomicU32,
}

fn digit_of(args: &[Arg]) -> u32 {
    match args.first() {
        Some(Arg::Num(number)) => u32::try_from(*number).unwrap_or(0),
        _ => 0,
    }
}

impl Tasks for Ordered {
    ghost use Rattle.canvas_task.specs.Builtin.{builtin_tasks};
    ghost use Rattle.canvas_task.specs.BehaviourInRange.{builtin_in_range};

    ghost behaviour = { λ _. builtin_tasks };

    fn apply(&self, name: &str, args: &[Arg], kwargs: &BTreeMap<String, Arg>) -> Outcome {
        let before = self.order.load(Ordering::SeqCst);
        let order = before.wrapping_mul(10).wrapping_add(digit_of(args));
        self.order.store(order, Ordering::SeqCst);
        BuiltinTasks.apply(name, args, kwargs)
    }

    ghost in_range = { λ _. builtin_in_range };
}

/// Two chains side by side, of calls that take no input.
const TWO_CHAINS: &str = r#"{"task":"g","subtask_type":"group","kwargs":{"tasks":[
    {"task":"c","subtask_type":"chain","kwargs":{"tasks":[
        {"task":"tasks.add","args":[1,1],"immutable":true},
        {"task":"tasks.add","args":[3,1],"immutable":true}]}},
    {"task":"c","subtask_type":"chain","kwargs":{"tasks":[
        {"task":"tasks.add","args":[2,1],"immutable":true},
        {"task":"tasks.add","args":[4,1],"immutable":true}]}}]}}"#;

/// In which order the tasks of the chains are called.
fn order_by<S>(rt: &S, line: &str) -> u32
where
    S: Files + Threads + Wait + RandomSource + AllocGlobal + Sync,
{
    let tasks = Ordered {
        order: AtomicU32::new(0),
    };
    if !is_answered(rt, &tasks, line, TWO_CHAINS) {
        return 0;
    }
    tasks.order.load(Ordering::SeqCst)
}

/// The first worker calls the first task. Then it goes on, or the second one has all turns and
/// comes to the end of the other chain.
#[test]
fn turns_are_taken_by_their_list(rt: HostRuntime) {
    for &(line, wanted) in &[
        ("turns - --workers 2 --turns 1,1,1,1,1,1,1,1,1,1,1,1", 1234),
        ("turns - --workers 2 --turns 1,2,2,2,2,2,2,2,2,2,2,2", 1243),
    ] {
        let order = order_by(&rt, line);
        assert!(rt; order == wanted, "{line}: {order}");
    }
}
