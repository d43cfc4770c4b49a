//! Flows into a task or a group.
ghost use Rattle.std.specs.Prelude.{◌≡◌, ◌++◌, IfOk, OnOk};
ghost use Rattle.canvas_semantics.specs.Evaluation.{gathered, group_value, passed_on, value, why_of};
ghost use Rattle.canvas_ran.specs.steps.Flows.{flow_seen};

use canvas_task::{Arg, Fault, ListOf, Outcome, TaskNo, TextOf, Why};
use std::alloc::{AllocError, Global};

/// A flow into a task or a group.
#[derive(Drop)]
pub(crate) enum Flow {
    Nothing,
    Number(i64),
    Numbers(ListOf<i64>),
    /// The identifier of a task that failed.
    Ident(TaskNo),
    /// An exception that skips.
    Skip(Fault),
    /// An exception that is raised.
    Raised(Fault),
}

impl Flow {
    pub(crate) fn copy(&self) -> Result<Flow, AllocError>
        ensures { IfOk result (λ x. flow_seen x ≡ flow_seen self.now) }
    {
        match self {
            Flow::Nothing => Ok(Flow::Nothing),
            Flow::Number(number) => Ok(Flow::Number(*number)),
            Flow::Numbers(numbers) => Ok(Flow::Numbers(numbers.clone()?)),
            Flow::Ident(task) => Ok(Flow::Ident(*task)),
            Flow::Skip(fault) => Ok(Flow::Skip(*fault)),
            Flow::Raised(fault) => Ok(Flow::Raised(*fault)),
        }
    }

    /// Appends it as an argument, unless there is nothing or an exception.
    pub(crate) fn push_to(&self, alloc: Global, args: &mut Vec<Arg>) -> Result<(), AllocError>
        ensures { OnOk result (args.new.items ≡ args.old.items ++ value (flow_seen self.now)) }
    {
        match self {
            Flow::Number(number) => args.push(Arg::Num(*number))?,
            Flow::Numbers(numbers) => args.push(Arg::List(numbers.clone()?))?,
            Flow::Ident(task) => args.push(Arg::Text(TextOf::of(task.to_string(alloc)?)))?,
            Flow::Nothing | Flow::Skip(_) | Flow::Raised(_) => {}
        }
        Ok(())
    }
}

/// Returns what flows out of a task with this state.
pub(crate) fn passed_on(state: &Option<Outcome>) -> Flow
    ensures { flow_seen result ≡ passed_on state.now }
{
    match state {
        Some(Outcome::Success(number)) => Flow::Number(*number),
        Some(Outcome::Failure(fault)) => Flow::Skip(*fault),
        None => Flow::Nothing,
    }
}

fn why_of(fault: &Fault) -> Why
    ensures { result ≡ why_of fault.now }
{
    match fault {
        Fault::Plain(kind) => Why::Plain(*kind),
        Fault::Chord { .. } => Why::Chord,
    }
}

/// Returns what flows out of members that end in these tasks: the list of their results, or the
/// ChordError of the first that failed.
fn gathered(alloc: Global, ends: &[(TaskNo, Option<Outcome>)]) -> Result<Flow, AllocError>
    ensures { IfOk result (λ x. flow_seen x ≡ gathered ends.now) }
{
    let mut numbers = Vec::with_capacity(alloc, ends.len())?;
    for end in ends {
        match &end.1 {
            Some(Outcome::Success(number)) => numbers.push(*number)?,
            Some(Outcome::Failure(fault)) => {
                return Ok(Flow::Raised(Fault::Chord {
                    dep: end.0,
                    why: why_of(fault),
                }));
            }
            None => {}
        }
    }
    Ok(Flow::Numbers(ListOf::of(numbers)))
}

/// Returns what flows out of a group whose members end in these tasks.
pub(crate) fn group_value(
    alloc: Global,
    flow: &Flow,
    ends: &[(TaskNo, Option<Outcome>)],
) -> Result<Flow, AllocError>
    ensures { IfOk result (λ x. flow_seen x ≡ group_value (flow_seen flow.now) ends.now) }
{
    match flow {
        Flow::Skip(fault) => Ok(Flow::Skip(*fault)),
        Flow::Raised(fault) if ends.is_empty() => Ok(Flow::Raised(*fault)),
        _ => gathered(alloc, ends),
    }
}
