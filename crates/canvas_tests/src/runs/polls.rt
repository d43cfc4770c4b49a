//! How many polls a worker takes, what it asks its gate, and for whom it stays.

use crate::runs::by_hand::{Left, work};
use crate::runs::gates::Counting;
use crate::runs::states::{first_envelopes, spelled_plan};
use canvas_rewrite::Plan;
use canvas_worker::Cause;
use std::alloc::AllocGlobal;
use std::random::RandomSource;
use std::sync::Wait;

/// More polls than the worker takes that ends by itself.
const MOST: u32 = 60;

/// How a worker ends that runs a plan of two tasks, one after the other.
fn left_of<R>(rt: &R, plan: &Plan, gate: &Counting, others: u64) -> Option<Left>
where
    R: Wait + RandomSource + AllocGlobal,
{
    match first_envelopes(rt.alloc(), plan) {
        Ok(envelopes) => work(rt, plan, envelopes, gate, others, MOST),
        Err(_) => None,
    }
}

/// Like `left_of`, for a sum and a product.
fn left_of_two<R>(rt: &R, gate: &Counting, others: u64) -> Option<Left>
where
    R: Wait + RandomSource + AllocGlobal,
{
    match spelled_plan(rt.alloc(), &["C(.,.)", "add:4,4 mul:8"]) {
        Some(plan) => left_of(rt, &plan, gate, others),
        None => None,
    }
}

/// How a worker ends that takes `taken` envelopes and counts two tasks, the second of which it
/// published.
fn of_two(polls: u32, fault: Option<Cause>, taken: u64) -> Left {
    Left {
        polls,
        fault,
        taken,
        published: 1,
        first: 2,
        parts: 0,
        dropped: 0,
    }
}

/// Whether a worker ends so.
fn is_of_two(left: &Option<Left>, polls: u32, fault: Option<Cause>, taken: u64) -> bool {
    *left == Some(of_two(polls, fault, taken))
}

/// What a gate is asked.
type Asked = (u32, u32);

/// How a worker of two tasks ends, and what its gate is asked, which is shut so often and has the
/// envelope of this ask delivered again.
fn counted<R>(rt: &R, shut: u32, at: u32, others: u64) -> (Option<Left>, Asked)
where
    R: Wait + RandomSource + AllocGlobal,
{
    let gate = Counting::of(shut, at, 1);
    let left = left_of_two(rt, &gate, others);
    (left, gate.asked())
}

/// To take, to store, to publish and to acknowledge are four for the first task, and to take, to
/// store and to acknowledge three for the second; then an empty batch, which answers nothing, a
/// take of one envelope that finds nothing, and the rest.
///
/// If the gate is shut once, there is one more: it is asked once more whether to go on, and at each
/// of the four points once whether to redeliver. A redelivery is a poll of its own. Its copy is
/// taken, its store is not the first, and it is acknowledged: three more, with two points.
#[test]
fn polls_of_two_tasks(rt: HostRuntime) {
    for &(shut, at, taken, polls, asked) in &[
        (0, 0, 2, 10, (2, 4)),
        (1, 0, 2, 11, (3, 4)),
        (0, 1, 3, 14, (3, 6)),
        (0, 2, 3, 14, (3, 6)),
        (0, 3, 3, 14, (3, 6)),
        (0, 4, 3, 14, (3, 6)),
    ] {
        let (left, found) = counted(&rt, shut, at, 0);
        assert!(rt;
            is_of_two(&left, polls, None, taken) && found == asked,
            "asked {at}: {left:?}, {found:?}"
        );
    }
}

/// A worker that has nothing left to take stays as long as one envelope is in flight, also where it
/// has delivered one again: it has counted its copy, and its own messages.
#[test]
fn a_worker_stays_for_others(rt: HostRuntime) {
    for &(at, taken) in &[(0, 2), (1, 3), (2, 3), (3, 3), (4, 3)] {
        let (left, _) = counted(&rt, 0, at, 1);
        assert!(rt;
            is_of_two(&left, MOST + 1, Some(Cause::Stopped), taken),
            "asked {at}: {left:?}"
        );
    }
}
