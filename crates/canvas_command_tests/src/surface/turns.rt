//! Runs by turns on one thread: faults, lists of turns, steps, and messages delivered again.

use canvas_engine::{
    Cause, Report, RunFault, When, read_turns, run_turns, run_turns_again, run_turns_within,
};
use canvas_rewrite::Plan;
use canvas_samples::{
    CHAIN, CHORD, UNLINKED, ZERO_DIVISION, hundred_planned, plan_of, raised_by_2, task,
};
use canvas_task::{
    Add, AddFault, Div, Ident, LogError, Mul, Outcome, Registry, TaskNo, Xsum, registry_of,
};
use std::alloc::Global;

/// How a run ended.
#[derive(Clone, Copy, Debug, PartialEq, Eq)]
enum End {
    Whole,
    BadWorkers,
    BadTurn,
    Halted,
}

fn end_of(ran: &Result<Report, RunFault>) -> End {
    match ran {
        Ok(_) => End::Whole,
        Err(RunFault::BadWorkers) => End::BadWorkers,
        Err(RunFault::BadTurn) => End::BadTurn,
        Err(RunFault::Halted { .. }) => End::Halted,
    }
}

/// The first number of workers and turn by which a run of two tasks ends otherwise than it should.
fn wrong_end(alloc: Global, plan: &Plan, six: &Registry) -> Option<(u32, u32)> {
    for &(workers, turn, end) in &[
        (0, 1, End::BadWorkers),
        (17, 1, End::BadWorkers),
        (17, 18, End::BadWorkers),
        (2, 3, End::BadTurn),
        (2, 0, End::BadTurn),
        (2, 2, End::Whole),
        (16, 16, End::Whole),
    ] {
        if end_of(&run_turns(alloc, plan, six, workers, &[turn])) != end {
            return Some((workers, turn));
        }
    }
    None
}

// ---- runs of some steps

/// Whether each row is pending or as the run leaves it in the end.
fn are_pending_or(rows: &[Option<Outcome>], whole: &[Option<Outcome>]) -> bool {
    if rows.len() != whole.len() {
        return false;
    }
    for (row, end) in rows.iter().zip(whole) {
        if row.is_some() && row != end {
            return false;
        }
    }
    true
}

/// The end of a run of a given number of steps.
#[derive(Clone, Copy, PartialEq, Eq)]
enum Steps {
    Ended,
    Stopped,
    Wrong,
}

fn steps_of(ran: &Result<Report, RunFault>, whole: &[Option<Outcome>]) -> Steps {
    match ran {
        Ok(report) if report.rows.get().as_slice() == whole => Steps::Ended,
        Err(
            RunFault::Halted {
                cause: Cause::Stopped,
                rows: Some(report),
            },
        ) if are_pending_or(report.rows.get(), whole) => Steps::Stopped,
        _ => Steps::Wrong,
    }
}

/// How many steps one worker takes to the end of a run, where each run of fewer steps is stopped
/// with rows that are pending or as in the end.
fn steps_to_the_end(
    alloc: Global,
    plan: &Plan,
    six: &Registry,
    whole: &[Option<Outcome>],
) -> Option<u64> {
    for steps in 0..100u64 {
        match steps_of(&run_turns_within(alloc, plan, six, 1, &[], steps), whole) {
            Steps::Ended => return Some(steps),
            Steps::Stopped => {}
            Steps::Wrong => return None,
        }
    }
    None
}

const CHAIN_ROWS: [Option<Outcome>; 2] = [Some(Outcome::Success(8)), Some(Outcome::Success(64))];

fn chord_rows() -> [Option<Outcome>; 5] {
    [
        Some(Outcome::Success(8)),
        Some(ZERO_DIVISION),
        Some(Outcome::Success(16)),
        Some(raised_by_2()),
        Some(Outcome::Success(4)),
    ]
}

/// To take, store, publish and acknowledge are four steps for the first task, and to take, store
/// and acknowledge three for the second; to take nothing and to rest are the last two.
///
/// The chord's members take a step each to take, store, return a part and acknowledge. The third
/// reads three outcomes, stores the body's and publishes its callback before it acknowledges; the
/// callback is taken, stored and acknowledged.
fn steps_are_right(alloc: Global, chain: &Plan, chord: &Plan, six: &Registry) -> bool {
    steps_to_the_end(alloc, chain, six, &CHAIN_ROWS) == Some(9)
        && steps_to_the_end(alloc, chord, six, &chord_rows()) == Some(22)
}

// ---- messages that are delivered again

fn entries_of(alloc: Global, again: &[(u32, When)]) -> Option<Vec<(TaskNo, When)>> {
    let mut entries = Vec::new(alloc);
    for (number, when) in again {
        entries.push((TaskNo::new(*number)?, *when)).ok()?;
    }
    Some(entries)
}

fn ends_with(report: &Report, last: Option<Outcome>) -> bool {
    report.rows.get().last() == Some(&last)
}

/// How many stores of a run answer Again, if its last row is this one.
fn counted(
    alloc: Global,
    plan: &Plan,
    six: &Registry,
    entries: &[(TaskNo, When)],
    last: Option<Outcome>,
) -> Option<u64> {
    match run_turns_again(alloc, plan, six, 1, &[], entries) {
        Ok((report, count)) => ends_with(&report, last).then_some(count),
        Err(_) => None,
    }
}

/// How many stores answer Again if these tasks are redelivered, and the last row is this one.
fn stores_again(
    alloc: Global,
    plan: &Plan,
    six: &Registry,
    again: &[(u32, When)],
    last: Option<Outcome>,
) -> Option<u64> {
    match entries_of(alloc, again) {
        Some(entries) => counted(alloc, plan, six, &entries, last),
        None => None,
    }
}

/// One of a hundred messages of a header delivered again after its work, the first of two tasks at
/// both points, and an entry for a task that isn't called.
fn deliveries_are_counted(
    alloc: Global,
    hundred: &Plan,
    chain: &Plan,
    unlinked: &Plan,
    six: &Registry,
) -> bool {
    let late = [(1, When::Late)];
    let both = [(1, When::Early), (1, When::Late)];
    let none = [(2, When::Early)];
    let (sum, product) = (Outcome::Success(9900), Outcome::Success(64));
    stores_again(alloc, hundred, six, &late, Some(sum)) == Some(1)
        && stores_again(alloc, chain, six, &both, Some(product)) == Some(2)
        && stores_again(alloc, unlinked, six, &none, None) == Some(0)
}

// ---- all of it

/// What is wrong with runs by turns, if anything is.
fn first_wrong(alloc: Global, six: &Registry) -> Option<&'static str> {
    let (Some(chain), Some(chord)) = (plan_of(alloc, CHAIN), plan_of(alloc, CHORD)) else {
        return Some("no plan");
    };
    if wrong_end(alloc, &chain, six).is_some() {
        return Some("faults");
    }
    if !steps_are_right(alloc, &chain, &chord, six) {
        return Some("steps");
    }
    match (hundred_planned(alloc), plan_of(alloc, UNLINKED)) {
        (Some(hundred), Some(unlinked)) => {
            if deliveries_are_counted(alloc, &hundred, &chain, &unlinked, six) {
                None
            } else {
                Some("deliveries")
            }
        }
        _ => Some("no plan"),
    }
}

fn wrong(alloc: Global) -> Result<Option<&'static str>, AddFault> {
    let six = registry_of!(alloc; Add, Mul, Div, Xsum, Ident, LogError)?;
    Ok(first_wrong(alloc, &six))
}

#[test]
fn runs_by_turns(rt: HostRuntime) {
    let wrong = wrong(rt.alloc());
    assert!(rt; matches!(wrong, Ok(None)), "{wrong:?}");
}

// ---- lists of turns

/// Whether a list of turns is read so; None for one that is refused.
fn is_read(alloc: Global, list: &str, turns: Option<&[u32]>) -> bool {
    match read_turns(alloc, list, 2) {
        Ok(read) => turns == Some(read.as_slice()),
        Err(RunFault::BadTurn) => turns.is_none(),
        Err(_) => false,
    }
}

#[test]
fn lists_of_turns(rt: HostRuntime) {
    let alloc = rt.alloc();
    assert!(rt; is_read(alloc, "1,2,2,2", Some(&[1, 2, 2, 2])));
    assert!(rt; is_read(alloc, "", Some(&[])));
    assert!(rt; is_read(alloc, "1,,2", None));
    assert!(rt; is_read(alloc, "3", None));
}
