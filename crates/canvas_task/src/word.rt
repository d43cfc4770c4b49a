//! An outcome as one number of 64 bits, so that a single atomic word can hold it: 0 for a pending
//! task, n + 2^60 + 1 for the result n, 2^63 + k for a plain failure, and 2^63 + 16 · d + k for a
//! `ChordError` that names the task d. The code k is that of `kind_code` or `why_code`.
ghost use Rattle.std.specs.Prelude.{◌≡◌, ◌≢◌, ◌<◌, ◌≤◌, ◌^◌, Some, IfSome, IfNone};
ghost use Rattle.canvas_task.specs.Apply.{IsInRange};
ghost use Rattle.canvas_task.specs.declared.outcome.Outcome.{Outcome};
ghost use Rattle.canvas_task.specs.Words.{FitsAWord, kind_code, kind_of_code, why_code, why_of_code, failure_of_word, fault_word, word, outcome_named};

use crate::range::BOUND;
use crate::{Fault, Kind, Outcome, TaskNo, Why};

/// The number added to a result, so that the least result has the word 1.
const SHIFT: i64 = BOUND + 1;

const GREATEST_SUCCESS: u64 = 2 * BOUND as u64 + 1;

const FAILURES: u64 = 1 << 63;

const TASKS: u64 = 1 << 32;

fn kind_code(kind: Kind) -> u64
    ensures { result ≡ kind_code kind }
{
    match kind {
        Kind::BadCall => 0,
        Kind::ZeroDivision => 1,
        Kind::Overflow => 2,
        Kind::NotRegistered => 3,
    }
}

fn why_code(why: Why) -> u64
    ensures { result ≡ why_code why }
{
    match why {
        Why::Plain(kind) => kind_code(kind),
        Why::Chord => 4,
    }
}

fn kind_of_code(code: u64) -> Option<Kind>
    ensures { result ≡ kind_of_code code }
{
    match code {
        0 => Some(Kind::BadCall),
        1 => Some(Kind::ZeroDivision),
        2 => Some(Kind::Overflow),
        3 => Some(Kind::NotRegistered),
        _ => None,
    }
}

fn why_of_code(code: u64) -> Option<Why>
    ensures { result ≡ why_of_code code }
{
    if code == 4 {
        return Some(Why::Chord);
    }
    Some(Why::Plain(kind_of_code(code)?))
}

fn fault_of(dep: u64, code: u64) -> Option<Fault>
    ensures { result ≡ failure_of_word dep code }
{
    if dep == 0 {
        return Some(Fault::Plain(kind_of_code(code)?));
    }
    if dep >= TASKS {
        return None;
    }
    let dep = TaskNo::new(dep as u32)?;
    let why = why_of_code(code)?;
    Some(Fault::Chord { dep, why })
}

/// Returns the word of an outcome. It is never 0, which means that a task has no outcome yet.
pub fn word_of(outcome: &Outcome) -> u64
    requires { IsInRange outcome.now }
    ensures value { result ≡ word outcome.now }
    ensures not_pending { 1 ≤ result }
    ensures reads_back { outcome_named result ≡ Some outcome.now }
{
    match outcome {
        Outcome::Success(n) => (*n + SHIFT) as u64,
        Outcome::Failure(Fault::Plain(kind)) => FAILURES + kind_code(*kind),
        Outcome::Failure(Fault::Chord { dep, why }) => {
            FAILURES + 16 * u64::from(dep.get()) + why_code(*why)
        }
    }
}

/// Returns the outcome that a word encodes, if there is one.
#[tactic(auto, using(crate::proofs::WordLemmas::no_word))]
pub fn outcome_of(found: u64) -> Option<Outcome>
    ensures value { result ≡ outcome_named found }
    ensures its_word { IfSome result (λ o. word o ≡ found) }
    ensures in_range { IfSome result IsInRange }
    ensures no_word { IfNone result ((o : Outcome) → FitsAWord o → word o ≢ found) }
{
    if found == 0 {
        return None;
    }
    if found <= GREATEST_SUCCESS {
        return Some(Outcome::Success(found as i64 - SHIFT));
    }
    if found < FAILURES {
        return None;
    }
    let rest = found - FAILURES;
    Some(Outcome::Failure(fault_of(rest / 16, rest % 16)?))
}
