//! The table of results: for one thread, with seats, and of a plan without tasks.

ghost use Rattle.std.specs.Prelude.{◌≡◌, ◌≢◌, ◌≤◌, ℕ, false, IsTrue};
ghost use Rattle.canvas_history.specs.Roster.{is_chord, is_member};
ghost use Rattle.canvas_history.specs.Table.{no_results};
ghost use Rattle.canvas_backend.specs.Plain.{held};
ghost use Rattle.canvas_task.specs.Apply.{IsInRange};

use canvas_backend::{Backend, BackendSeat, PlainBackend, Stored};
use canvas_rewrite::Plan;
use canvas_samples::{CHORD, EMPTY_GROUP, ZERO_DIVISION, group, plan_of, task};
use canvas_task::{GroupNo, Memory, Outcome, TaskNo};
use canvas_worker::Book;
use std::alloc::Global;

/// What a table says of the plan of a chord of three members, `#4` its body and `#5` a callback.
fn knows_plain(backend: &PlainBackend) -> bool {
    backend.knows(task(5))
        && !backend.knows(task(6))
        && backend.size(group(1)) == Some(3)
        && backend.size(group(2)).is_none()
        && backend.member(group(1), 0) == Some(task(1))
        && backend.member(group(1), 3).is_none()
        && backend.is_member(group(1), task(2))
        && !backend.is_member(group(1), task(4))
}

/// What a table that threads share says of the plan of that chord.
fn knows(backend: &Backend) -> bool {
    backend.knows(task(5))
        && !backend.knows(task(6))
        && backend.size(group(1)) == Some(3)
        && backend.size(group(2)).is_none()
        && backend.member(group(1), 0) == Some(task(1))
        && backend.member(group(1), 3).is_none()
        && backend.is_member(group(1), task(2))
        && !backend.is_member(group(1), task(4))
}

// ---- as a book

/// Whether a book has the chord's plan.
fn is_book<B: Book>(book: &B) -> bool {
    book.knows(task(5))
        && book.knows_up_to(task(5))
        && book.size(group(1)) == Some(3)
        && book.is_member(group(1), task(2))
}

/// A book of no tasks, as users write one of their own.
struct Nothing;

impl Book for Nothing {
    ghost use Rattle.std.specs.Prelude.{is_some, refl};
    ghost use Rattle.std.proofs.Common.{ap, sym, true≢false};
    ghost use Rattle.canvas_core.specs.Books.{no_book};

    ghost book = { λ _. no_book };

    ghost from_one = { λ _ _. refl };

    ghost has_members = { λ _ _ _ _ size _. absurd (true≢false (sym (ap is_some size))) };

    fn knows(&self, _task: TaskNo) -> bool {
        false
    }

    fn size(&self, _group: GroupNo) -> Option<u32> {
        None
    }

    fn is_member(&self, _group: GroupNo, _task: TaskNo) -> bool {
        false
    }
}

// ---- for one thread

/// Whether a task is one that a chord waits for.
fn waits_plain(backend: &PlainBackend, group: GroupNo, task: TaskNo) -> bool
    ensures { IsTrue result
        → (task ≤ backend.now.plan.tasks) × IsTrue (is_chord backend.now.plan group)
        × IsTrue (is_member backend.now.plan group task) }
{
    backend.knows(task) && backend.size(group).is_some() && backend.is_member(group, task)
}

/// Stores an outcome, returns the part, and answers what both calls did. Whose part was not
/// returned before, other than this task's, is not returned.
fn completes_plain(
    backend: &mut PlainBackend,
    task: TaskNo,
    outcome: &Outcome,
) -> Option<(Stored, u64)>
    requires { (held backend.old).returned task ≡ false }
    ensures { (t : ℕ) → t ≢ task → (held backend.old).returned t ≡ false
        → (held backend.new).returned t ≡ false }
{
    let chord = group(1);
    if !waits_plain(backend, chord, task) {
        return None;
    }
    let stored = backend.store(task, outcome);
    Some((stored, backend.part(chord, task)))
}

/// Whether a second store of task 2 answers Again and leaves the first outcome; task 4 has none.
fn keeps_plain(backend: &mut PlainBackend) -> bool
    ensures { (t : ℕ) → (held backend.old).returned t ≡ false
        → (held backend.new).returned t ≡ false }
{
    let (two, four) = (task(2), task(4));
    if !backend.knows(two) || !backend.knows(four) {
        return false;
    }
    let stored = backend.store(two, &Outcome::Success(5));
    let (kept, none) = (backend.read(two), backend.read(four));
    stored == Stored::Again && kept == Some(ZERO_DIVISION) && none.is_none()
}

/// The parts of tasks 2, 1 and 3 are the first, the second and the third.
fn counts_plain(backend: &mut PlainBackend) -> bool
    requires { held backend.old ≡ no_results }
{
    let (one, two, three) = (task(1), task(2), task(3));
    let first = completes_plain(backend, two, &ZERO_DIVISION);
    let is_kept = keeps_plain(backend);
    let second = completes_plain(backend, one, &Outcome::Success(8));
    let third = completes_plain(backend, three, &Outcome::Success(16));
    is_kept
        && first == Some((Stored::First, 0))
        && second == Some((Stored::First, 1))
        && third == Some((Stored::First, 2))
}

fn is_right_plain(alloc: Global, plan: &Plan) -> Result<bool, Memory> {
    let mut backend = PlainBackend::new(alloc, plan)?;
    Ok(knows_plain(&backend) && is_book(&backend) && counts_plain(&mut backend))
}

// ---- with seats

fn waits(backend: &Backend, group: GroupNo, task: TaskNo) -> bool
    ensures { IsTrue result
        → (task ≤ backend.now.plan.tasks) × IsTrue (is_chord backend.now.plan group)
        × IsTrue (is_member backend.now.plan group task) }
{
    backend.knows(task) && backend.size(group).is_some() && backend.is_member(group, task)
}

/// Stores an outcome and returns the part, if the store was the first; the count before.
fn completes(
    backend: &Backend,
    seat: &mut BackendSeat,
    task: TaskNo,
    outcome: &Outcome,
) -> Option<u64>
    requires seat { seat.old.of ≡ backend.now.id }
    requires outcome { IsInRange outcome.now }
    ensures { seat.new.of ≡ backend.now.id }
{
    let chord = group(1);
    if !waits(backend, chord, task) {
        return None;
    }
    match backend.store(seat, task, outcome) {
        Stored::First => Some(backend.part(seat, chord, task)),
        Stored::Again => None,
    }
}

/// Whether a seat reads the outcome of task 2 and none of task 4, and another outcome of task 2 is
/// stored Again.
fn keeps(backend: &Backend, seat: &mut BackendSeat) -> bool
    requires { seat.old.of ≡ backend.now.id }
    ensures { seat.new.of ≡ backend.now.id }
{
    let (two, four) = (task(2), task(4));
    if !backend.knows(two) || !backend.knows(four) {
        return false;
    }
    backend.store(seat, two, &Outcome::Success(5)) == Stored::Again
        && backend.read(seat, two) == Some(ZERO_DIVISION)
        && backend.read(seat, four).is_none()
}

/// The parts of tasks 2, 1 and 3 through a seat, and what it reads.
fn counts(backend: &Backend, seat: &mut BackendSeat) -> bool
    requires { seat.old.of ≡ backend.now.id }
    ensures { seat.new.of ≡ backend.now.id }
{
    completes(backend, seat, task(2), &ZERO_DIVISION) == Some(0)
        && keeps(backend, seat)
        && completes(backend, seat, task(1), &Outcome::Success(8)) == Some(1)
        && completes(backend, seat, task(3), &Outcome::Success(16)) == Some(2)
}

/// Whether a seat that is split off reads the same, and is taken in again.
fn splits(backend: &Backend, seat: &mut BackendSeat) -> bool
    requires { seat.old.of ≡ backend.now.id }
{
    match backend.split(seat) {
        Ok(mut other) => {
            let is_kept = keeps(backend, &mut other);
            backend.join(seat, other);
            is_kept
        }
        Err(Memory) => false,
    }
}

fn is_right(alloc: Global, plan: &Plan) -> Result<bool, Memory> {
    let (backend, mut seat) = Backend::new(alloc, plan)?;
    Ok(
        knows(&backend)
            && is_book(&backend)
            && counts(&backend, &mut seat)
            && splits(&backend, &mut seat),
    )
}

/// Whether a table without tasks splits a seat and takes it in again.
fn has_seats(alloc: Global, plan: &Plan) -> Result<bool, Memory> {
    let (backend, mut seat) = Backend::new(alloc, plan)?;
    let other = backend.split(&mut seat)?;
    backend.join(&mut seat, other);
    Ok(!backend.knows(task(1)))
}

/// Whether this holds of a canvas's plan.
fn holds(alloc: Global, text: &str, which: Which) -> bool {
    let found = match plan_of(alloc, text) {
        Some(plan) => match which {
            Which::Plain => is_right_plain(alloc, &plan),
            Which::Seats => is_right(alloc, &plan),
            Which::Empty => has_seats(alloc, &plan),
        },
        None => Ok(false),
    };
    matches!(found, Ok(true))
}

/// What is asked of a table.
#[derive(Clone, Copy, Debug)]
enum Which {
    Plain,
    Seats,
    Empty,
}

#[test]
fn tables(rt: HostRuntime) {
    assert!(rt; !is_book(&Nothing));
    for &(text, which) in &[
        (CHORD, Which::Plain),
        (CHORD, Which::Seats),
        (EMPTY_GROUP, Which::Empty),
    ] {
        assert!(rt; holds(rt.alloc(), text, which), "{which:?}");
    }
}
