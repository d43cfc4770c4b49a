//! The calls of `canvas_task`.

ghost use Rattle.std.specs.Prelude.{pos, Ok};

use canvas_samples::{Difference, group, raised_by_2, task};
use canvas_task::{
    Add, AddFault, Arg, Builtin, Div, Fault, GroupNo, Ident, Kind, ListOf, LogError, MapOf, Mul,
    NotAdded, Outcome, Registry, Task, TaskNo, TaskOfTwo, TextOf, apply, group_of_text, group_text,
    name_ok, outcome_of, registry_of, task_of_text, task_text, word_of,
};
use std::alloc::{AllocError, Global};
use std::collections::BTreeMap;

/// Whether the identifiers of task 10 and of group 10 read back, and neither reads as the other.
fn identifiers_read_back() -> bool {
    let (of_task, of_group) = (
        "00000000-0000-8000-8000-00000000000a",
        "00000000-0000-8000-9000-00000000000a",
    );
    task_text(task(10)).as_slice() == of_task.as_bytes()
        && group_text(group(10)).as_slice() == of_group.as_bytes()
        && task_of_text(of_task) == Some(task(10))
        && group_of_text(of_group) == Some(group(10))
        && task_of_text(of_group).is_none()
        && group_of_text(of_task).is_none()
}

/// Whether the word of the ChordError of task 2 is this one, and reads back.
fn words_read_back() -> bool {
    let word = 9223372036854775841;
    word_of(&raised_by_2()) == word
        && outcome_of(word) == Some(raised_by_2())
        && outcome_of(0).is_none()
}

fn sums(alloc: Global) -> bool {
    let none = BTreeMap::new(alloc);
    apply("tasks.add", &[Arg::Num(2), Arg::Num(2)], &none) == Outcome::Success(4)
        && apply("nope", &[], &none) == Outcome::Failure(Fault::Plain(Kind::NotRegistered))
}

/// Whether small types over a list, a text and a map lend and give back what they were made of.
fn fields_are_kept(alloc: Global) -> Result<bool, AllocError> {
    let list = ListOf::of(vec![in alloc; 1i64, 2]?);
    let text = TextOf::of(String::from_str(alloc, "tasks.add")?);
    let map: MapOf<Arg> = MapOf::of(BTreeMap::new(alloc));
    let are_lent = list.get().len() == 2
        && text.get().as_str() == "tasks.add"
        && map.get().is_empty();
    Ok(
        are_lent
            && list.into_plain().as_slice() == [1, 2].as_slice()
            && text.into_plain().as_str() == "tasks.add"
            && map.into_plain().is_empty(),
    )
}

#[test]
fn values(rt: HostRuntime) {
    assert!(rt; identifiers_read_back());
    assert!(rt; words_read_back());
    assert!(rt; sums(rt.alloc()));
    assert!(rt; matches!(fields_are_kept(rt.alloc()), Ok(true)));
    assert!(rt; name_ok("tasks.add") && !name_ok(""));
    assert!(rt; TaskNo::new(0).is_none() && GroupNo::new(0).is_none());
}

// ---- registries

/// A task written as users write one of their own: it always answers 2^60 + 1.
#[derive(Drop)]
struct Large {
    name: &'static str,
}

impl Task for Large {
    ghost called = { λ it. it.name.now };

    ghost answers = { λ _ _ _. Ok (pos 1152921504606846977) };

    fn name(&self) -> &str {
        self.name
    }

    fn call(&self, _args: &[Arg], _kwargs: &BTreeMap<String, Arg>) -> Result<i64, Kind> {
        Ok(1152921504606846977)
    }
}

/// Why a registry refuses a task, and the name of the task that comes back.
fn refusal(refused: &NotAdded) -> (AddFault, &str) {
    (refused.cause, refused.task.name())
}

/// Whether a registry that has a sum refuses a second one and a task without a name, and takes one
/// whose answer is out of range.
fn refuses(alloc: Global) -> Result<bool, AddFault> {
    let mut registry = Registry::new(alloc);
    registry.add(Box::new(alloc, Add)?)?;
    let is_doubled = match registry.add(Box::new(alloc, Add)?) {
        Err(refused) => refusal(&refused) == (AddFault::Doubled, "tasks.add"),
        Ok(()) => false,
    };
    let is_nameless = match registry.add(Box::new(alloc, Large { name: "" })?) {
        Err(refused) => refusal(&refused) == (AddFault::BadName, ""),
        Ok(()) => false,
    };
    registry.add(Box::new(alloc, Large { name: "large" })?)?;
    let overflow = Outcome::Failure(Fault::Plain(Kind::Overflow));
    let answer = registry.apply("large", &[], &BTreeMap::new(alloc));
    Ok(is_doubled && is_nameless && answer == overflow)
}

#[test]
fn tasks_that_a_registry_refuses(rt: HostRuntime) {
    assert!(rt; matches!(refuses(rt.alloc()), Ok(true)));
}

/// Whether a registry answers a call of each name with two numbers as the table of tasks does.
fn answers_as_the_table(registry: &Registry, args: &[Arg], none: &BTreeMap<String, Arg>) -> bool {
    for &name in &[
        "tasks.add",
        "tasks.mul",
        "tasks.div",
        "tasks.xsum",
        "tasks.ident",
        "tasks.log_error",
        "tests.sub",
    ] {
        if registry.apply(name, args, none) != apply(name, args, none) {
            return false;
        }
    }
    true
}

fn six_answer(alloc: Global) -> Result<bool, AddFault> {
    let six = registry_of!(alloc; Add, Mul, Div, Builtin::Xsum, Ident, LogError)?;
    let none = BTreeMap::new(alloc);
    let numbers = [Arg::Num(-7), Arg::Num(2)];
    Ok(
        answers_as_the_table(&six, &numbers, &none)
            && answers_as_the_table(&six, &numbers[..1], &none),
    )
}

/// What the difference of 10 and 3 is to a registry that has it.
fn answer_of_difference(alloc: Global) -> Result<Outcome, AddFault> {
    let sub = TaskOfTwo {
        name: "tests.sub",
        parameters: ("x", "y"),
        answers: Difference,
    };
    let registry = registry_of!(alloc; Mul, sub)?;
    let numbers = [Arg::Num(10), Arg::Num(3)];
    Ok(registry.apply("tests.sub", &numbers, &BTreeMap::new(alloc)))
}

#[test]
fn the_six_as_a_registry(rt: HostRuntime) {
    assert!(rt; matches!(six_answer(rt.alloc()), Ok(true)));
    assert!(rt; matches!(answer_of_difference(rt.alloc()), Ok(Outcome::Success(7))));
}
