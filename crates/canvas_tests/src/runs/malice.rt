//! Messages that nobody of ours wrote, put in a worker's queue.

use crate::runs::by_hand::{Left, work};
use crate::runs::forgeries::{CALLBACK, Change, FORMS, MEMBER, NAMES, RESTS};
use crate::runs::states::{FAILING, push_first, spelled_plan};
use canvas_envelope::Letter;
use canvas_rewrite::Plan;
use canvas_samples::frozen_texts::envelope;
use canvas_task::Memory;
use canvas_worker::OpenGate;
use std::alloc::{AllocError, AllocGlobal, Global};
use std::random::RandomSource;
use std::sync::Wait;

// ---- envelopes

/// Appends a text with its changed parts to another, and says whether there are any.
fn push_changed(all: &mut String, text: &str, change: &Change) -> Result<bool, AllocError> {
    let [old, new] = *change;
    let mut pieces = text.split(old);
    all.push_str(pieces.next().unwrap_or(""))?;
    let mut is_changed = false;
    for piece in pieces {
        all.push_str(new)?;
        all.push_str(piece)?;
        is_changed = true;
    }
    Ok(is_changed)
}

/// The letter of three texts, each on its line.
fn letter_of(alloc: Global, message: &str) -> Option<Letter> {
    let (properties, rest) = message.split_once('\n')?;
    let (headers, body) = rest.split_once('\n')?;
    match envelope(alloc, properties, headers, body) {
        Ok(envelope) => Letter::new(alloc, envelope).ok(),
        Err(_) => None,
    }
}

/// A message's envelope with a change; None where it changes nothing.
fn forged(alloc: Global, message: &str, change: &Change) -> Option<Letter> {
    let mut changed = String::new(alloc);
    match push_changed(&mut changed, message, change) {
        Ok(true) => letter_of(alloc, &changed),
        _ => None,
    }
}

// ---- a worker

/// Puts the forged messages of a table in a queue.
fn push_forged(
    alloc: Global,
    queue: &mut Vec<Letter>,
    message: &str,
    changes: &[Change],
) -> Result<(), Memory> {
    for change in changes {
        if let Some(envelope) = forged(alloc, message, change) {
            queue.push(envelope)?;
        }
    }
    Ok(())
}

/// All forged messages, before those that a plan begins with and after them.
fn push_all(alloc: Global, queue: &mut Vec<Letter>, plan: &Plan) -> Result<(), Memory> {
    push_forged(alloc, queue, MEMBER, &NAMES)?;
    push_forged(alloc, queue, CALLBACK, &RESTS)?;
    push_first(alloc, plan, queue)?;
    push_forged(alloc, queue, MEMBER, &FORMS)
}

/// How a worker ends that takes them from its queue.
fn left_of<R: Wait + RandomSource + AllocGlobal>(rt: &R, plan: &Plan) -> Option<Left> {
    let mut queue = Vec::new(rt.alloc());
    match push_all(rt.alloc(), &mut queue, plan) {
        Ok(()) => work(rt, plan, queue, &OpenGate, 0, MOST),
        Err(Memory) => None,
    }
}

/// More polls than it takes.
const MOST: u32 = 1_000;

/// Like `left_of`, for a chord with a member that fails.
fn left_of_chord<R: Wait + RandomSource + AllocGlobal>(rt: &R) -> Option<Left> {
    match spelled_plan(rt.alloc(), &FAILING) {
        Some(plan) => left_of(rt, &plan),
        None => None,
    }
}

/// Whether a worker's counts are these, its number of polls aside.
fn has_dropped(left: &Option<Left>) -> bool {
    match left {
        Some(left) => {
            let wanted = Left {
                polls: left.polls,
                fault: None,
                taken: 94,
                published: 1,
                first: 5,
                parts: 3,
                dropped: 90,
            };
            *left == wanted
        }
        None => false,
    }
}

/// The worker drops the ninety and counts each, runs the four messages to their end, stores five
/// outcomes and publishes only the error callback.
#[test]
fn dropped_by_a_worker(rt: HostRuntime) {
    let left = left_of_chord(&rt);
    assert!(rt; has_dropped(&left), "{left:?}");
}
