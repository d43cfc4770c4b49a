//! Runs of texts: their reports, and which fault comes first.

use canvas_engine::{RunFault, TextFault, run_text};
use canvas_samples::{CHAIN, CHAIN_REPORT, CHORD, CHORD_REPORT, DIFFERENCE, Difference};
use canvas_sig::SigFault;
use canvas_task::{
    Add, AddFault, Div, Ident, LogError, Mul, Registry, TaskOfTwo, Xsum, registry_of,
};
use std::alloc::Global;

/// Why a text has no report.
#[derive(Clone, Copy, Debug, PartialEq, Eq)]
enum Why {
    NotJson,
    BadWorkers,
    BadTurn,
    Other,
}

fn why_of(ran: &Result<String, TextFault>) -> Option<Why> {
    match ran {
        Ok(_) => None,
        Err(TextFault::Sig(SigFault::NotJson)) => Some(Why::NotJson),
        Err(TextFault::Run(RunFault::BadWorkers)) => Some(Why::BadWorkers),
        Err(TextFault::Run(RunFault::BadTurn)) => Some(Why::BadTurn),
        Err(_) => Some(Why::Other),
    }
}

/// Whether the first fault of a text's run is this one.
fn is_for(alloc: Global, six: &Registry, text: &str, workers: u32, turn: u32, why: Why) -> bool {
    why_of(&run_text(alloc, text.as_bytes(), six, workers, &[turn])) == Some(why)
}

/// The canvas's fault comes before that of the workers, and that before the turns'.
fn faults_are_in_order(alloc: Global, six: &Registry) -> bool {
    is_for(alloc, six, "{", 17, 18, Why::NotJson)
        && is_for(alloc, six, CHAIN, 17, 18, Why::BadWorkers)
        && is_for(alloc, six, CHAIN, 2, 3, Why::BadTurn)
}

/// Whether a text's run has this report by these turns.
fn is_reported(
    alloc: Global,
    tasks: &Registry,
    text: &str,
    workers: u32,
    turns: &[u32],
    report: &str,
) -> bool {
    match run_text(alloc, text.as_bytes(), tasks, workers, turns) {
        Ok(found) => found.as_str() == report,
        Err(_) => false,
    }
}

/// A chord with a failed member has one report, for any turns of its two workers.
fn turns_change_nothing(alloc: Global, six: &Registry) -> bool {
    is_reported(alloc, six, CHORD, 2, &[], CHORD_REPORT)
        && is_reported(alloc, six, CHORD, 2, &[1, 2, 2, 2, 1], CHORD_REPORT)
        && is_reported(alloc, six, CHORD, 2, &[2, 2, 2, 2, 2, 2], CHORD_REPORT)
        && is_reported(alloc, six, CHAIN, 1, &[], CHAIN_REPORT)
}

/// The report of a difference and a product where no task has the first one's name.
const NOT_REGISTERED: &str = concat!(
    "00000000-0000-8000-8000-000000000001 tests.sub FAILURE NotRegistered\n",
    "00000000-0000-8000-8000-000000000002 tasks.mul FAILURE NotRegistered\n",
    "result NotRegistered\n"
);

/// The report of that chain if a task has the first one's name.
const REGISTERED: &str = concat!(
    "00000000-0000-8000-8000-000000000001 tests.sub SUCCESS 7\n",
    "00000000-0000-8000-8000-000000000002 tasks.mul SUCCESS 14\n",
    "result 14\n"
);

fn six_alone(alloc: Global) -> Result<bool, AddFault> {
    let six = registry_of!(alloc; Add, Mul, Div, Xsum, Ident, LogError)?;
    Ok(
        faults_are_in_order(alloc, &six)
            && turns_change_nothing(alloc, &six)
            && is_reported(alloc, &six, DIFFERENCE, 1, &[], NOT_REGISTERED),
    )
}

fn with_a_difference(alloc: Global) -> Result<bool, AddFault> {
    let sub = TaskOfTwo {
        name: "tests.sub",
        parameters: ("x", "y"),
        answers: Difference,
    };
    let seven = registry_of!(alloc; Add, Mul, Div, Xsum, Ident, LogError, sub)?;
    Ok(is_reported(alloc, &seven, DIFFERENCE, 1, &[], REGISTERED))
}

#[test]
fn runs_of_texts(rt: HostRuntime) {
    assert!(rt; matches!(six_alone(rt.alloc()), Ok(true)));
    assert!(rt; matches!(with_a_difference(rt.alloc()), Ok(true)));
}
