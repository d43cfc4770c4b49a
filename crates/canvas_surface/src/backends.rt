//! The backend, by sixteen seats in threads.

ghost use Rattle.std.specs.Prelude.{◌≡◌, ◌≤◌, IsTrue, IfSome, All};
ghost use Rattle.canvas_history.specs.Roster.{is_chord, is_member};
ghost use Rattle.canvas_task.specs.Apply.{IsInRange};

use canvas_backend::{Backend, BackendSeat, Roster, Stored};
use canvas_samples::{a_hundred_and_their_sum, group, plan_of};
use canvas_task::{Fault, GroupNo, Outcome, TaskNo, Why};
use std::alloc::Global;
use std::test::*;
use std::thread::{Threads, for_each_mut};

/// Whether a task is one that a chord waits for.
fn waits(roster: &Roster, group: GroupNo, task: TaskNo) -> bool
    ensures { IsTrue result
        → (task ≤ roster.now.tasks) × IsTrue (is_chord roster.now group)
        × IsTrue (is_member roster.now group task) }
{
    roster.knows(task) && roster.size(group).is_some() && roster.is_member(group, task)
}

/// The backend of a canvas's plan, with its first seat.
fn backend_of(alloc: Global, canvas: &str) -> Option<(Backend, BackendSeat)>
    ensures { IfSome result (λ p. p.1.of ≡ p.0.id) }
{
    let plan = plan_of(alloc, canvas)?;
    Backend::new(alloc, &plan).ok()
}

/// Stores an outcome and returns the part, where the store was the first.
fn stores_and_returns(
    backend: &Backend,
    seat: &mut BackendSeat,
    group: GroupNo,
    task: TaskNo,
    outcome: &Outcome,
) -> Option<u64>
    requires seat { seat.old.of ≡ backend.now.id }
    requires outcome { IsInRange outcome.now }
    ensures { seat.new.of ≡ backend.now.id }
{
    if !waits(backend.roster(), group, task) {
        return None;
    }
    match backend.store(seat, task, outcome) {
        Stored::First => Some(backend.part(seat, group, task)),
        Stored::Again => None,
    }
}

/// One caller's share of the members, and what came of it.
#[derive(Drop)]
struct Share {
    number: u32,
    seat: Option<BackendSeat>,
    completed: u32,
    found: u32,
}

/// What a member's outcome is in these tests: one that no other member has.
fn outcome_of_member(task: TaskNo) -> Outcome
    ensures { IsInRange result }
{
    Outcome::Failure(Fault::Chord {
        dep: task,
        why: Why::Chord,
    })
}

/// How many of the members have their outcome.
fn outcomes_found(backend: &Backend, seat: &mut BackendSeat, group: GroupNo) -> u32
    requires { seat.old.of ≡ backend.now.id }
    ensures { seat.new.of ≡ backend.now.id }
{
    let mut found = 0u32;
    for index in 0..100u32 {
        if let Some(task) = backend.member(group, index) {
            if backend.knows(task) && backend.read(seat, task) == Some(outcome_of_member(task)) {
                found = found.wrapping_add(1);
            }
        }
    }
    found
}

/// Stores and returns each sixteenth member. Where a part completes the chord, the seat reads all
/// of them.
fn stores_share(
    backend: &Backend,
    group: GroupNo,
    seat: &mut BackendSeat,
    number: u32,
) -> (u32, u32)
    requires { seat.old.of ≡ backend.now.id }
    ensures { seat.new.of ≡ backend.now.id }
{
    let mut completed = 0u32;
    let mut found = 0u32;
    for index in 0..100u32 {
        if index % 16 == number {
            if let Some(task) = backend.member(group, index) {
                let outcome = outcome_of_member(task);
                if stores_and_returns(backend, seat, group, task, &outcome) == Some(99) {
                    completed = completed.wrapping_add(1);
                    found = found.wrapping_add(outcomes_found(backend, seat, group));
                }
            }
        }
    }
    (completed, found)
}

fn does_share(backend: &Backend, group: GroupNo, share: &mut Share)
    requires { IfSome share.old.seat (λ s. s.of ≡ backend.now.id) }
{
    if let Some(mut seat) = share.seat.take() {
        let (completed, found) = stores_share(backend, group, &mut seat, share.number);
        share.completed = completed;
        share.found = found;
        share.seat = Some(seat);
    }
}

/// Sixteen shares, each with a seat of its own.
fn dealt(alloc: Global, backend: &Backend, mut seat: BackendSeat) -> Option<Vec<Share>>
    requires { seat.of ≡ backend.now.id }
    ensures { IfSome result (λ v. All (λ s. IfSome s.seat (λ t. t.of ≡ backend.now.id)) v.items) }
{
    let mut shares = Vec::new(alloc);
    for number in 0..16u32 {
        let other = backend.split(&mut seat).ok()?;
        let share = Share {
            number,
            seat: Some(other),
            completed: 0,
            found: 0,
        };
        shares.push(share).ok()?;
    }
    Some(shares)
}

fn do_shares<R: Threads + Sync>(rt: &R, backend: &Backend, group: GroupNo, shares: &mut [Share])
    requires { All (λ s. IfSome s.seat (λ t. t.of ≡ backend.now.id)) shares.old }
{
    let each = |_: usize, share: &mut Share|
        requires { IfSome share.now.seat (λ s. s.of ≡ backend.now.id) }
    { does_share(backend, group, share) };
    for_each_mut(rt, shares, 16, &each);
}

/// How many parts completed, and how many outcomes were found.
fn sums_of(shares: &[Share]) -> (u32, u32) {
    let mut completed = 0u32;
    let mut found = 0u32;
    for share in shares {
        completed = completed.wrapping_add(share.completed);
        found = found.wrapping_add(share.found);
    }
    (completed, found)
}

/// Like `sums_of`, for sixteen shares that are done in threads.
fn shared<R: Threads + Sync>(
    rt: &R,
    alloc: Global,
    backend: &Backend,
    seat: BackendSeat,
) -> Option<(u32, u32)>
    requires { seat.of ≡ backend.now.id }
{
    match dealt(alloc, backend, seat) {
        Some(shares) => {
            let mut shares = shares;
            do_shares(rt, backend, group(1), shares.as_mut_slice());
            Some(sums_of(&shares))
        }
        None => None,
    }
}

/// Like `shared`, with the backend of a canvas's plan.
fn shared_by<R: Threads + Sync>(rt: &R, alloc: Global, canvas: &str) -> Option<(u32, u32)> {
    match backend_of(alloc, canvas) {
        Some((backend, seat)) => shared(rt, alloc, &backend, seat),
        None => None,
    }
}

/// How many parts of a hundred members complete, and how many outcomes the seats that returned
/// these read, over sixteen seats in threads.
fn in_threads<R: Threads + Sync>(rt: &R, alloc: Global) -> Option<(u32, u32)> {
    match a_hundred_and_their_sum(alloc) {
        Ok(hundred) => shared_by(rt, alloc, &hundred.text),
        Err(_) => None,
    }
}

#[test]
fn one_part_completes(rt: HostRuntime) {
    for _ in 0..200u32 {
        let found = in_threads(&rt, rt.alloc());
        assert!(rt; found == Some((1, 100)), "{found:?}");
    }
}
