//! The names in `--task`: a task of the canvas has each, unless it is `*` or a built-in task's.
ghost use Rattle.std.specs.Prelude.{◌≡◌, IfErr, IfOk, None, Some, option_map};
ghost use Rattle.canvas_semantics.specs.Line.{names};
ghost use Rattle.canvas_answer.specs.Names.{IsUnknownName, first_unknown, has_name, is_called, is_common};

use crate::refusal::Refusal;
use canvas_adapt::Stub;
use canvas_rewrite::Plan;
use canvas_task::Builtin;
use std::alloc::{AllocError, Global};
use strsim::levenshtein;

/// Returns whether it is `*` or the name of a built-in task, which any canvas may have.
fn is_common(name: &str) -> bool
    ensures { result ≡ is_common name.now }
{
    name == "*" || Builtin::named(name).is_some()
}

/// Returns whether a task's name is this.
fn is_called(task: Option<&str>, name: &str) -> bool
    ensures { result ≡ is_called (option_map (λ task. task.now) task.entry) name.now }
{
    match task {
        Some(task) => task == name,
        None => false,
    }
}

/// Returns whether a task of the plan has the name.
fn has_name(plan: &Plan, name: &str) -> bool
    ensures { result ≡ has_name name.now (names plan.now) }
{
    for index in 0..plan.tasks() {
        if is_called(plan.name(plan.task_at(index)), name) {
            return true;
        }
    }
    false
}

/// Returns the first of some stubs whose name no task of the plan has.
fn unknown_stub<'a>(plan: &Plan, stubs: &'a [Stub]) -> Option<&'a Stub>
    ensures { option_map (λ stub. stub.now.name) result
        ≡ first_unknown (names plan.now) stubs.now }
{
    for stub in stubs {
        let name = stub.name.get().as_str();
        if !is_common(name) && !has_name(plan, name) {
            return Some(stub);
        }
    }
    None
}

/// Returns how far a name is from that of a task: how many letters are changed, or one if it lacks
/// only the part before a dot.
fn distance(alloc: Global, name: &str, task: &str) -> Result<usize, AllocError> {
    match task.strip_suffix(name) {
        Some(module) if module.ends_with('.') => Ok(1),
        _ => levenshtein(alloc, name, task),
    }
}

/// Returns the name of a task that is nearest to one, and no more than a third of its letters away.
fn nearest<'p>(alloc: Global, plan: &'p Plan, name: &str) -> Result<Option<&'p str>, AllocError> {
    let mut found = None;
    let mut least = (name.len() / 3).saturating_add(1);
    for index in 0..plan.tasks() {
        if let Some(task) = plan.name(plan.task_at(index)) {
            let distance = distance(alloc, name, task)?;
            if distance < least {
                least = distance;
                found = Some(task);
            }
        }
    }
    Ok(found)
}

/// Returns the refusal of a name that no task of the plan has, with the name that may be meant.
fn refused_name(alloc: Global, plan: &Plan, name: &str) -> Result<Refusal, AllocError>
    ensures { IfOk result (IsUnknownName (Some name.now)) }
{
    let near = match nearest(alloc, plan, name)? {
        Some(near) => Some(String::from_str(alloc, near)?),
        None => None,
    };
    let name = String::from_str(alloc, name)?;
    Ok(Refusal::NoTaskNamed { name, near })
}

/// Refuses the first of some stubs whose name no task of the plan has.
pub(crate) fn check_names(alloc: Global, plan: &Plan, stubs: &[Stub]) -> Result<(), Refusal>
    ensures known { IfOk result (λ _. first_unknown (names plan.now) stubs.now ≡ None) }
    ensures unknown { IfErr result (IsUnknownName (first_unknown (names plan.now) stubs.now)) }
{
    match unknown_stub(plan, stubs) {
        Some(stub) => match refused_name(alloc, plan, stub.name.get()) {
            Ok(refusal) => Err(refusal),
            Err(_) => Err(Refusal::Memory),
        },
        None => Ok(()),
    }
}
