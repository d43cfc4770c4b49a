//! `--task '#3=WORD'`: the answer of the third task. It has the name `#3` while its canvas runs.
//!
//! A worker calls a task by its name and arguments, so only a name distinguishes tasks. The canvas
//! of the run is made of the one that was read, and the output shows the names of the latter. A
//! task that is named `#3` has that stub, too.
ghost use Rattle.std.specs.Prelude.{◌≡◌, ◌∷◌, ◌++◌, [], IfOk, List, Ok, OnOk, map, option_to_list, string_bytes};
ghost use Rattle.std.specs.List.{filter_map};
ghost use Rattle.canvas_adapt.specs.RenameTexts.{IsRenameText};
ghost use Rattle.canvas_adapt.specs.declared.renames.Rename.{Rename};
ghost use Rattle.canvas_adapt.specs.Raising.{other_error, plain_text};
ghost use Rattle.canvas_adapt.specs.StubTexts.{stub_reading};
ghost use Rattle.canvas_adapt.specs.declared.stubs.stub.Stub.{Stub};
ghost use Rattle.canvas_answer.specs.steps.First.{AreAlike, IsPutFirst};
ghost use Rattle.canvas_answer.specs.Stubbing.{AreNumbered, IsNumbered, error_said, is_numbered, named, numbered};

use crate::errors::{OtherError, push_error};
use crate::refusal::Refusal;
use crate::stubs::Answers;
use canvas_adapt::{Rename, RenameFault, Stub, StubFault, plain_text, read_rename, read_stub};
use canvas_task::TaskNo;
use std::alloc::{AllocError, Global};
use std::fmt;

/// Why a word of a task's number is refused.
#[derive(Clone, Copy, Debug, PartialEq, Eq)]
pub enum NumberFault {
    /// It isn't `#NUMBER=WORD`.
    NoWord,
    /// The number is a duplicate.
    Twice,
    /// The command takes none.
    NotTaken,
}

impl fmt::Display for NumberFault {
    fn fmt<W: fmt::Write>(&self, f: &mut fmt::Formatter<W>) -> fmt::Result {
        f.write_str(match self {
            NumberFault::NoWord => "#NUMBER=WORD is wanted",
            NumberFault::Twice => "the number is there twice",
            NumberFault::NotTaken =>
                "a number is taken by run, turns, graph and messages --calls alone",
        })
    }
}

/// Returns whether a word is one for a task's number.
pub(crate) fn has_number(text: &str) -> bool
    ensures { result ≡ is_numbered text.now }
{
    matches!(text.as_bytes(), [b'#', ..])
}

/// Appends a word for a task's number.
fn push_numbered<'t>(found: &mut Vec<&'t str>, text: &'t str) -> Result<(), AllocError>
    ensures { OnOk result (map (λ t. t.now) found.new.items
        ≡ map (λ t. t.now) found.old.items ++ option_to_list (numbered text.entry.now)) }
{
    if has_number(text) {
        found.push(text)?;
    }
    Ok(())
}

/// Returns the words for tasks' numbers.
pub(crate) fn with_numbers<'t>(alloc: Global, texts: &[&'t str]) -> Result<Vec<&'t str>, AllocError>
    ensures { IfOk result (λ found. map (λ t. t.now) found.items
        ≡ filter_map numbered (map (λ t. t.now) texts.now)) }
{
    let mut found = Vec::new(alloc);
    for text in texts {
        push_numbered(&mut found, text)?;
    }
    Ok(found)
}

/// Appends a word for a task's name.
fn push_named<'t>(found: &mut Vec<&'t str>, text: &'t str) -> Result<(), AllocError>
    ensures { OnOk result (map (λ t. t.now) found.new.items
        ≡ map (λ t. t.now) found.old.items ++ option_to_list (named text.entry.now)) }
{
    if !has_number(text) {
        found.push(text)?;
    }
    Ok(())
}

/// Returns the words for tasks' names.
pub(crate) fn with_names<'t>(alloc: Global, texts: &[&'t str]) -> Result<Vec<&'t str>, AllocError>
    ensures { IfOk result (λ found. map (λ t. t.now) found.items
        ≡ filter_map named (map (λ t. t.now) texts.now)) }
{
    let mut found = Vec::new(alloc);
    for text in texts {
        push_named(&mut found, text)?;
    }
    Ok(found)
}

/// Returns the number, `=` and the number once more.
fn named_by_itself(alloc: Global, number: &str) -> Result<String, AllocError>
    ensures { IfOk result (λ t. string_bytes t ≡ number.now ++ 61 ∷ number.now) }
{
    let mut text = String::from_str(alloc, number)?;
    text.push_str("=")?;
    text.push_str(number)?;
    Ok(text)
}

/// Returns the name of the task of a number, which is the number.
fn rename_of(alloc: Global, text: &str, number: &str) -> Result<Rename, Refusal>
    ensures { IfOk result (λ r. (string_bytes r.name ≡ number.now)
        × IsRenameText (number.now ++ 61 ∷ number.now) r) }
{
    let same = named_by_itself(alloc, number)?;
    match read_rename(alloc, &same) {
        // `#3=x` has a number before an `=`, and isn't one.
        Ok(rename) if rename.name.as_str() == number => Ok(rename),
        Err(RenameFault::Memory) => Err(Refusal::Memory),
        _ => Err(Refusal::of_number(alloc, text, NumberFault::NoWord)),
    }
}

fn stub_of(alloc: Global, text: &str, stands: &str) -> Result<Stub, Refusal>
    ensures { IfOk result (λ s. stub_reading (plain_text stands.now text.now) ≡ Ok s) }
{
    let plain = plain_text(alloc, text, stands)?;
    match read_stub(alloc, &plain) {
        Ok(stub) => Ok(stub),
        Err(StubFault::Memory) => Err(Refusal::Memory),
        Err(fault) => Err(Refusal::of_task(alloc, text, fault)),
    }
}

fn is_renamed(renames: &[Rename], task: TaskNo) -> bool {
    for rename in renames {
        if rename.task.get() == task.get() {
            return true;
        }
    }
    false
}

fn add_number(alloc: Global, answers: &mut Answers, text: &str, stands: &str) -> Result<(), Refusal>
    ensures { OnOk result ((r : Rename) × (s : Stub) × IsNumbered stands.now text.now r s
        × (answers.new.renames.items ≡ answers.old.renames.items ++ r ∷ [])
        × (answers.new.stubs.items ≡ answers.old.stubs.items ++ s ∷ [])
        × (map error_said answers.new.errors.items
        ≡ map error_said answers.old.errors.items ++ option_to_list (other_error text.now))) }
{
    let stub = stub_of(alloc, text, stands)?;
    let rename = rename_of(alloc, text, stub.name.get())?;
    if is_renamed(&answers.renames, rename.task) {
        return Err(Refusal::of_number(alloc, text, NumberFault::Twice));
    }
    push_error(alloc, &mut answers.errors, text)?;
    answers.renames.push(rename)?;
    answers.stubs.push(stub)?;
    Ok(())
}

/// Appends the answers of the tasks of numbers.
pub(crate) fn add_numbers(
    alloc: Global,
    answers: &mut Answers,
    texts: &[&str],
    stands: &str,
) -> Result<(), Refusal>
    ensures { OnOk result ((rs : List Rename) × (ss : List Stub)
        × AreNumbered stands.now (map (λ t. t.now) texts.now) rs ss
        × (answers.new.renames.items ≡ answers.old.renames.items ++ rs)
        × (answers.new.stubs.items ≡ answers.old.stubs.items ++ ss)
        × (map error_said answers.new.errors.items ≡ map error_said answers.old.errors.items
        ++ filter_map other_error (map (λ t. t.now) texts.now))) }
{
    for text in texts {
        add_number(alloc, answers, text, stands)?;
    }
    Ok(())
}

/// Puts before all others that the task of a number raises an exception of a class, as a word for
/// the task says.
pub(crate) fn put_first(
    alloc: Global,
    answers: &mut Answers,
    text: &str,
    class: &str,
    stands: &str,
) -> Result<(), Refusal>
    ensures { OnOk result ((r : Rename) × (s : Stub) × (x : OtherError)
        × IsNumbered stands.now text.now r s
        × (string_bytes x.name ≡ string_bytes r.name) × (string_bytes x.class ≡ class.now)
        × IsPutFirst s r x answers.old answers.new) }
{
    let stub = stub_of(alloc, text, stands)?;
    let rename = rename_of(alloc, text, stub.name.get())?;
    let error = OtherError {
        name: rename.name.clone()?,
        class: String::from_str(alloc, class)?,
    };
    answers.errors.insert(0, error)?;
    answers.renames.insert(0, rename)?;
    answers.stubs.insert(0, stub)?;
    Ok(())
}

fn take_one<T: Drop>(items: &mut Vec<T>)
    ensures { (first : T) → (others : List T) → items.old.items ≡ first ∷ others
        → items.new.items ≡ others }
{
    if !items.is_empty() {
        items.remove(0);
    }
}

/// Removes what was put before all others.
pub(crate) fn take_first(answers: &mut Answers)
    ensures { (before : Answers) → (s : Stub) → (r : Rename) → (x : OtherError)
        → IsPutFirst s r x before answers.old → AreAlike before answers.new }
{
    take_one(&mut answers.stubs);
    take_one(&mut answers.renames);
    take_one(&mut answers.errors);
}

/// Refuses the first word for a task's number if a command takes none.
pub(crate) fn refuse_numbers(alloc: Global, texts: &[&str]) -> Result<(), Refusal> {
    for text in texts {
        if has_number(text) {
            return Err(Refusal::of_number(alloc, text, NumberFault::NotTaken));
        }
    }
    Ok(())
}
