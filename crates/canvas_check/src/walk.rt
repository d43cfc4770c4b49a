//! The walk over a canvas in file order.

ghost use Rattle.std.specs.Prelude.{◌≡◌, ◌++◌, OnOk, IfOk, map};
ghost use Rattle.canvas_values.specs.SignatureView.{view, task_view, tasks_of, trees_of};
ghost use Rattle.canvas_check.specs.Foreseen.{task_told, tasks_told, told, elements_told, members_told, out_of, out_of_each, trees_count, tasks_count};

use crate::call::expected;
use crate::position::Position;
use crate::{Forecast, Input};
use canvas_task::Tasks;
use canvas_values::{Node, TaskSig};
use std::alloc::{AllocError, Global};

/// Returns the number of error callbacks.
#[tactic(auto, using(crate::proofs::Views::tasks_counted))]
fn count_tasks(sigs: &[TaskSig]) -> usize
    ensures { result ≡ tasks_count (tasks_of (map task_view sigs.now)) }
{
    sigs.len()
}

/// Appends the forecasts for a task, its links and its error callbacks.
#[cycle(calls)]
#[tactic(auto, using(crate::proofs::Views::task_is))]
fn push_task<T: Tasks>(
    alloc: Global,
    tasks: &T,
    sig: &TaskSig,
    position: Position,
    found: &mut Vec<Forecast>,
) -> Result<(), AllocError>
    ensures { OnOk result (found.new.items
        ≡ found.old.items ++ task_told (T.behaviour tasks.now) (task_view sig.now) position) }
{
    let call = expected(alloc, tasks, sig, position.input)?;
    found.push(position.of_task(call, count_tasks(sig.errbacks.get())))?;
    push_tasks(
        alloc,
        tasks,
        sig.links.get(),
        Position::of_callback(Input::Number),
        found,
    )?;
    push_tasks(
        alloc,
        tasks,
        sig.errbacks.get(),
        Position::of_callback(Input::Identifier),
        found,
    )
}

#[cycle(calls)]
fn push_tasks<T: Tasks>(
    alloc: Global,
    tasks: &T,
    sigs: &[TaskSig],
    position: Position,
    found: &mut Vec<Forecast>,
) -> Result<(), AllocError>
    ensures { OnOk result (found.new.items ≡ found.old.items
        ++ tasks_told (T.behaviour tasks.now) (tasks_of (map task_view sigs.now)) position) }
{
    for sig in sigs {
        push_task(alloc, tasks, sig, position, found)?;
    }
    Ok(())
}

/// Returns the number of members.
#[tactic(auto, using(crate::proofs::Views::counted))]
fn count(nodes: &[Node]) -> usize
    ensures { result ≡ trees_count (trees_of (map view nodes.now)) }
{
    nodes.len()
}

/// Appends the forecasts for a signature and those nested in it, and returns its output.
#[cycle(nodes)]
pub(crate) fn push_node<T: Tasks>(
    alloc: Global,
    tasks: &T,
    node: &Node,
    position: Position,
    found: &mut Vec<Forecast>,
) -> Result<Input, AllocError>
    ensures told { OnOk result (found.new.items
        ≡ found.old.items ++ told (T.behaviour tasks.now) (view node.now) position) }
    ensures out { IfOk result (λ i. i ≡ out_of (view node.now) position.input) }
{
    match node {
        Node::Task(sig) => {
            push_task(alloc, tasks, sig, position, found)?;
            Ok(Input::Number)
        }
        Node::Chain(nodes) => {
            found.push(position.of_chain())?;
            push_elements(alloc, tasks, nodes.get(), position.of_elements(), found)
        }
        Node::Group(nodes) => {
            found.push(position.of_group(count(nodes.get())))?;
            push_members(
                alloc,
                tasks,
                nodes.get(),
                position.of_member(position.is_followed),
                found,
            )?;
            Ok(Input::Numbers)
        }
        Node::Chord { header, body } => {
            let members = count(header.get());
            found.push(position.of_chord(members))?;
            push_members(alloc, tasks, header.get(), position.of_member(true), found)?;
            push_node(alloc, tasks, body, position.of_body(members), found)
        }
    }
}

/// Appends the forecasts for the elements of a chain, and returns the output of the last.
#[cycle(nodes)]
fn push_elements<T: Tasks>(
    alloc: Global,
    tasks: &T,
    nodes: &[Node],
    position: Position,
    found: &mut Vec<Forecast>,
) -> Result<Input, AllocError>
    ensures told { OnOk result (found.new.items ≡ found.old.items
        ++ elements_told (T.behaviour tasks.now) (trees_of (map view nodes.now)) position) }
    ensures out { IfOk result
        (λ i. i ≡ out_of_each (trees_of (map view nodes.now)) position.input) }
{
    let mut here = position;
    let mut left = nodes.len();
    for node in nodes {
        left -= 1;
        let out = push_node(alloc, tasks, node, here.before(left), found)?;
        here = here.behind(out);
    }
    Ok(here.input)
}

#[cycle(nodes)]
fn push_members<T: Tasks>(
    alloc: Global,
    tasks: &T,
    nodes: &[Node],
    position: Position,
    found: &mut Vec<Forecast>,
) -> Result<(), AllocError>
    ensures { OnOk result (found.new.items ≡ found.old.items
        ++ members_told (T.behaviour tasks.now) (trees_of (map view nodes.now)) position) }
{
    for node in nodes {
        push_node(alloc, tasks, node, position, found)?;
    }
    Ok(())
}
