//! One worker that is stopped before each of its polls.

use crate::runs::by_hand::{Left, work};
use crate::runs::gates::Counting;
use crate::runs::states::{FAILING, first_envelopes, spelled_plan};
use canvas_rewrite::Plan;
use canvas_worker::Cause;
use std::alloc::AllocGlobal;
use std::random::RandomSource;
use std::sync::Wait;

/// More polls than the worker takes.
const MOST: u32 = 100;

/// How a worker ends that is stopped after `polls` polls, if its gate is shut `shut` times and has
/// `times` envelopes redelivered.
fn left_after<R>(rt: &R, plan: &Plan, shut: u32, times: u32, polls: u32) -> Option<Left>
where
    R: Wait + RandomSource + AllocGlobal,
{
    match first_envelopes(rt.alloc(), plan) {
        Ok(envelopes) => {
            let gate = Counting::of(shut, 1, times);
            work(rt, plan, envelopes, &gate, 0, polls)
        }
        Err(_) => None,
    }
}

/// Whether a worker ended at the poll after its stop.
fn is_stopped(left: &Left, before: u32) -> bool {
    left.polls == before.saturating_add(1) && left.fault == Some(Cause::Stopped)
}

/// Whether a worker ended by itself, no later than its stop, with five outcomes stored.
fn is_ended(left: &Left, before: u32) -> bool {
    left.polls <= before && left.fault.is_none() && left.first == 5
}

/// How many polls a worker takes, where a stop before any of them ends it at that poll.
fn polls_to_stop<R>(rt: &R, plan: &Plan, shut: u32, times: u32) -> Option<u32>
where
    R: Wait + RandomSource + AllocGlobal,
{
    for before in 0..MOST {
        match left_after(rt, plan, shut, times, before) {
            Some(left) => {
                if is_ended(&left, before) {
                    return Some(before);
                }
                if !is_stopped(&left, before) {
                    return None;
                }
            }
            None => return None,
        }
    }
    None
}

/// Like `polls_to_stop`, for a chord with a member that fails.
fn polls_of_a_chord<R>(rt: &R, shut: u32, times: u32) -> Option<u32>
where
    R: Wait + RandomSource + AllocGlobal,
{
    match spelled_plan(rt.alloc(), &FAILING) {
        Some(plan) => polls_to_stop(rt, &plan, shut, times),
        None => None,
    }
}

/// A take, a store, a part and an acknowledgement for each of the three members, three reads, the
/// body's store and its callback's publish, a take, a store and an acknowledgement for the
/// callback, a take that finds nothing and the rest: twenty-two, each a poll of its own. Each of
/// eight deliveries is a poll more, and of each copy there is a take, a store that answers Again,
/// and an acknowledgement. Where the gate is shut a worker is polled for nothing, and its stop ends
/// it there too.
#[test]
fn stopped_before_each_poll(rt: HostRuntime) {
    match (polls_of_a_chord(&rt, 0, 0), polls_of_a_chord(&rt, 5, 8)) {
        (Some(once), Some(again)) => {
            assert!(rt; once >= 22, "{once}");
            assert_eq!(rt; again, once.saturating_add(37));
        }
        other => assert!(rt; false, "{other:?}"),
    }
}
