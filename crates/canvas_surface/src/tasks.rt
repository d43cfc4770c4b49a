//! Numbers, names and texts.

use canvas_samples::{group, task};
use canvas_task::{
    AddFault, Arg, Fault, GroupNo, Kind, ListOf, Memory, Outcome, TaskNo, Why, group_of_text,
    group_text, name_ok, outcome_of, task_of_text, task_text, word_of,
};
use std::alloc::{AllocError, Global};
use std::collections::BTreeMap;
use std::fmt::Display;

pub(crate) const BOUND: i64 = 1 << 60;

pub(crate) const OVERFLOW: Outcome = Outcome::Failure(Fault::Plain(Kind::Overflow));

pub(crate) const BAD_CALL: Outcome = Outcome::Failure(Fault::Plain(Kind::BadCall));

pub(crate) fn list(alloc: Global, numbers: &[i64]) -> Result<Arg, AllocError> {
    Ok(Arg::List(ListOf::of(numbers.to_vec(alloc)?)))
}

pub(crate) fn named(
    alloc: Global,
    name: &str,
    number: i64,
) -> Result<BTreeMap<String, Arg>, AllocError> {
    let mut kwargs = BTreeMap::new(alloc);
    drop(kwargs.insert(String::from_str(alloc, name)?, Arg::Num(number))?);
    Ok(kwargs)
}

/// The outcome of a call that answers so.
fn outcome(answer: Result<i64, Kind>) -> Outcome {
    match answer {
        Ok(number) => Outcome::Success(number),
        Err(kind) => Outcome::Failure(Fault::Plain(kind)),
    }
}

const TEN: &str = "00000000-0000-8000-8000-00000000000a";

const GREATEST_GROUP: &str = "00000000-0000-8000-9000-0000ffffffff";

/// The identifier of task 10 in other forms.
static TENS: [&str; 5] = [
    TEN,
    "00000000-0000-8000-8000-00000000000A",
    "0000000000008000800000000000000a",
    "{00000000-0000-8000-8000-00000000000a}",
    "urn:uuid:00000000-0000-8000-8000-00000000000a",
];

/// No identifier of a task or group.
static NO_IDENTIFIERS: [&str; 4] = [
    "00000000-0000-8000-8000-000000000000",
    "00000000-0000-4000-8000-00000000000a",
    "a",
    "",
];

/// The first text that isn't this task's identifier, or none's, or is a group's.
fn first_wrong_identifier(
    texts: &'static [&'static str],
    task: Option<TaskNo>,
) -> Option<&'static str> {
    for &text in texts {
        if task_of_text(text) != task || group_of_text(text).is_some() {
            return Some(text);
        }
    }
    None
}

fn has_texts(task: TaskNo, group: GroupNo) -> bool {
    task_text(task).as_slice() == TEN.as_bytes()
        && group_text(group).as_slice() == GREATEST_GROUP.as_bytes()
}

fn is_group(text: &str, group: GroupNo) -> bool {
    group_of_text(text) == Some(group) && task_of_text(text).is_none()
}

#[test]
fn identifiers(rt: HostRuntime) {
    assert!(rt; has_texts(task(10), group(4294967295)));
    assert!(rt; is_group(GREATEST_GROUP, group(4294967295)));
    let wrong = first_wrong_identifier(&TENS, Some(task(10)));
    assert!(rt; wrong.is_none(), "{wrong:?}");
    let wrong = first_wrong_identifier(&NO_IDENTIFIERS, None);
    assert!(rt; wrong.is_none(), "{wrong:?}");
}

/// Whether an outcome is stored as this word, and read from it.
fn is_word(outcome: &Outcome, word: u64) -> bool {
    outcome_of(word) == Some(*outcome) && word_of(outcome) == word
}

static WORDS: [(Result<i64, Kind>, u64); 4] = [
    (Ok(-BOUND), 1),
    (Ok(0), 1152921504606846977),
    (Ok(BOUND), 2305843009213693953),
    (Err(Kind::BadCall), 9223372036854775808),
];

static NO_WORDS: [u64; 6] = [
    0,
    2305843009213693954,
    9223372036854775807,
    9223372036854775812,
    9223372036854775829,
    u64::MAX,
];

/// The first of these words that is another outcome's.
fn first_wrong_word() -> Option<u64> {
    for (stored, word) in &WORDS {
        if !is_word(&outcome(*stored), *word) {
            return Some(*word);
        }
    }
    None
}

/// The first of these words that is an outcome's.
fn first_word() -> Option<u64> {
    for &word in &NO_WORDS {
        if outcome_of(word).is_some() {
            return Some(word);
        }
    }
    None
}

fn raised() -> Outcome {
    Outcome::Failure(Fault::Chord {
        dep: task(2),
        why: Why::Plain(Kind::ZeroDivision),
    })
}

#[test]
fn words(rt: HostRuntime) {
    assert!(rt; is_word(&raised(), 9223372036854775841));
    let wrong = first_wrong_word();
    assert!(rt; wrong.is_none(), "{wrong:?}");
    let wrong = first_word();
    assert!(rt; wrong.is_none(), "{wrong:?}");
}

fn prints<D: Display>(alloc: Global, said: &D, text: &str) -> bool {
    match said.to_string(alloc) {
        Ok(printed) => printed.as_str() == text,
        Err(_) => false,
    }
}

static ADD_FAULTS: [(AddFault, &str); 3] = [
    (
        AddFault::BadName,
        "a task with a name that no task may have",
    ),
    (AddFault::Doubled, "a second task of a name"),
    (AddFault::Memory, "memory refused"),
];

/// The first of these texts that isn't that of its refusal.
fn first_wrong_refusal(alloc: Global) -> Option<&'static str> {
    for (fault, text) in &ADD_FAULTS {
        if !prints(alloc, fault, text) {
            return Some(*text);
        }
    }
    None
}

#[test]
fn texts(rt: HostRuntime) {
    let wrong = first_wrong_refusal(rt.alloc());
    assert!(rt; wrong.is_none(), "{wrong:?}");
    assert!(rt; prints(rt.alloc(), &Memory, "memory refused"));
}

/// The first of these names that may be a task's, or may not.
fn first_name(names: &'static [&'static str], is_ok: bool) -> Option<&'static str> {
    for &name in names {
        if name_ok(name) == is_ok {
            return Some(name);
        }
    }
    None
}

static NAMES: [&str; 3] = ["tasks.add", "!", "~"];

static NO_NAMES: [&str; 5] = ["", " ", "a b", "tasks.\u{e9}", "\u{7f}"];

#[test]
fn names(rt: HostRuntime) {
    let wrong = first_name(&NAMES, false);
    assert!(rt; wrong.is_none(), "{wrong:?}");
    let wrong = first_name(&NO_NAMES, true);
    assert!(rt; wrong.is_none(), "{wrong:?}");
}
