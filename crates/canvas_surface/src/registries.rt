//! Tests of registries, with the built-in tasks and tasks of one's own.

ghost use Rattle.std.specs.Prelude.{◌≡◌, codes, ◌-ℤ◌, neg_ℤ, pos, length, Ok};

use crate::tasks::{BAD_CALL, BOUND, OVERFLOW, list, named};
use canvas_task::{
    Add, AddFault, Arg, Fault, Kind, Mul, OfList, OfOne, OfTwo, Outcome, Registry, Task,
    TaskOfList, TaskOfOne, TaskOfTwo, registry_of,
};
use std::alloc::Global;
use std::collections::BTreeMap;

/// The difference.
#[derive(Clone, Copy)]
struct Difference;

impl OfTwo for Difference {
    ghost answer = { λ _ x y. Ok (x -ℤ y) };

    fn answer(&self, x: i64, y: i64) -> Result<i128, Kind> {
        Ok(i128::from(x) - i128::from(y))
    }
}

/// The number with its sign changed.
#[derive(Clone, Copy)]
struct Negated;

impl OfOne for Negated {
    ghost answer = { λ _ x. Ok (neg_ℤ x) };

    fn answer(&self, x: i64) -> Result<i128, Kind> {
        Ok(-i128::from(x))
    }
}

/// How many numbers there are.
#[derive(Clone, Copy)]
struct Count;

impl OfList for Count {
    ghost answer = { λ _ numbers. Ok (pos (length numbers)) };

    fn answer(&self, numbers: &[i64]) -> Result<i128, Kind> {
        Ok(numbers.len() as i128)
    }
}

/// The positional arguments' count, which no helper binds.
#[derive(Clone, Copy)]
struct Given;

impl Task for Given {
    ghost called = { λ _. codes "tests.given" };

    ghost answers = { λ _ args _. Ok (pos (length args)) };

    fn name(&self) -> &str {
        "tests.given"
    }

    fn call(&self, args: &[Arg], _kwargs: &BTreeMap<String, Arg>) -> Result<i64, Kind> {
        Ok(args.len() as i64)
    }
}

/// Always answers a number that it holds.
#[derive(Drop)]
struct Always {
    number: i64,
    name: &'static str,
}

impl Task for Always {
    ghost called = { λ it. it.name.now };

    ghost answers = { λ it _ _. Ok it.number };

    fn name(&self) -> &str {
        self.name
    }

    fn call(&self, _args: &[Arg], _kwargs: &BTreeMap<String, Arg>) -> Result<i64, Kind> {
        Ok(self.number)
    }
}

const NOT_REGISTERED: Outcome = Outcome::Failure(Fault::Plain(Kind::NotRegistered));

/// What tasks of two numbers, of one and of a list answer to numbers; and a name that isn't added
/// has no task.
fn answer_numbers(registry: &Registry, none: &BTreeMap<String, Arg>) -> bool {
    let numbers = [Arg::Num(10), Arg::Num(3)];
    registry.apply("tests.sub", &numbers, none) == Outcome::Success(7)
        && registry.apply("tests.negate", &numbers[..1], none) == Outcome::Success(-10)
        && registry.apply("tests.negate", &numbers, none) == BAD_CALL
        && registry.apply("tests.negate", &[Arg::Num(i64::MIN)], none) == OVERFLOW
        && registry.apply("tests.count", &numbers[..1], none) == BAD_CALL
        && registry.apply("tasks.mul", &numbers, none) == Outcome::Success(30)
        && registry.apply("tasks.add", &numbers, none) == NOT_REGISTERED
}

/// What they answer to a list of two, without and with a number after it.
fn answer_lists(alloc: Global, registry: &Registry) -> bool {
    let none = BTreeMap::new(alloc);
    match list(alloc, &[5, 6]) {
        Ok(list) => {
            let lists = [list, Arg::Num(1)];
            registry.apply("tests.count", &lists[..1], &none) == Outcome::Success(2)
                && registry.apply("tests.sub", &lists, &none) == BAD_CALL
        }
        Err(_) => false,
    }
}

/// What the difference of 10 and a 4 of this name is.
fn with_named_four(alloc: Global, registry: &Registry, name: &str) -> Option<Outcome> {
    match named(alloc, name, 4) {
        Ok(four) => Some(registry.apply("tests.sub", &[Arg::Num(10)], &four)),
        Err(_) => None,
    }
}

/// What they answer where the second number is named, and where the first is.
fn answer_named(alloc: Global, registry: &Registry) -> bool {
    with_named_four(alloc, registry, "y") == Some(Outcome::Success(6))
        && with_named_four(alloc, registry, "x") == Some(BAD_CALL)
}

fn answer_all(alloc: Global, registry: &Registry) -> bool {
    answer_numbers(registry, &BTreeMap::new(alloc))
        && answer_lists(alloc, registry)
        && answer_named(alloc, registry)
}

/// Whether the product, a difference, a change of sign and a count answer so.
fn four_answer(alloc: Global) -> bool {
    let sub = TaskOfTwo {
        name: "tests.sub",
        parameters: ("x", "y"),
        answers: Difference,
    };
    let negate = TaskOfOne {
        name: "tests.negate",
        parameter: "x",
        answers: Negated,
    };
    let count = TaskOfList {
        name: "tests.count",
        parameter: "numbers",
        answers: Count,
    };
    match registry_of!(alloc; Mul, sub, negate, count) {
        Ok(registry) => answer_all(alloc, &registry),
        Err(_) => false,
    }
}

#[test]
fn tasks_of_numbers(rt: HostRuntime) {
    assert!(rt; four_answer(rt.alloc()));
}

/// What the count of the arguments answers, and the sum beside it.
fn answer_whole(registry: &Registry, none: &BTreeMap<String, Arg>) -> bool {
    let numbers = [Arg::Num(10), Arg::Num(3)];
    registry.apply("tests.given", &numbers, none) == Outcome::Success(2)
        && registry.apply("tests.given", &[], none) == Outcome::Success(0)
        && registry.apply("tasks.add", &numbers, none) == Outcome::Success(13)
}

fn whole_answers(alloc: Global) -> bool {
    match registry_of!(alloc; Add, Given) {
        Ok(registry) => answer_whole(&registry, &BTreeMap::new(alloc)),
        Err(_) => false,
    }
}

#[test]
fn a_task_written_whole(rt: HostRuntime) {
    assert!(rt; whole_answers(rt.alloc()));
}

/// Why no registry is made of a sum and a task that always answers 5, if it isn't.
fn refused_for(alloc: Global, name: &'static str) -> Option<AddFault> {
    registry_of!(alloc; Add, Always { number: 5, name }).err()
}

#[test]
fn tasks_that_are_refused(rt: HostRuntime) {
    for &(name, cause) in &[
        ("tests.five", None),
        ("tasks.add", Some(AddFault::Doubled)),
        ("a b", Some(AddFault::BadName)),
        ("", Some(AddFault::BadName)),
    ] {
        assert_eq!(rt; refused_for(rt.alloc(), name), cause, "{name}");
    }
}

/// What tasks answer of which one answers past the bound, and one at it.
fn around_the_bound(alloc: Global) -> Option<[Outcome; 2]> {
    let past = Always {
        number: BOUND + 1,
        name: "past",
    };
    let at = Always {
        number: -BOUND,
        name: "at",
    };
    match registry_of!(alloc; past, at) {
        Ok(registry) => Some(past_and_at(&registry, &BTreeMap::new(alloc))),
        Err(_) => None,
    }
}

fn past_and_at(registry: &Registry, none: &BTreeMap<String, Arg>) -> [Outcome; 2] {
    [
        registry.apply("past", &[], none),
        registry.apply("at", &[], none),
    ]
}

#[test]
fn answers_out_of_range(rt: HostRuntime) {
    let wanted = [OVERFLOW, Outcome::Success(-BOUND)];
    assert_eq!(rt; around_the_bound(rt.alloc()), Some(wanted));
}
