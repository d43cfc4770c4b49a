//! Renaming the tasks of a canvas by their numbers.

ghost use Rattle.std.specs.Prelude.{◌≡◌, ◌≢◌, ◌≤◌, ◌+◌, List, [], Some, IfOk, IfErr, map};
ghost use Rattle.canvas_semantics.specs.Tree.{Tree, count, count_task};
ghost use Rattle.canvas_semantics.specs.steps.Numbering.{greatest_number, tasks_in};
ghost use Rattle.canvas_values.specs.ComposedRefusals.{node_fault};
ghost use Rattle.canvas_values.specs.SignatureView.{task_view, view};
ghost use Rattle.canvas_values.specs.declared.fault.SigFault.TheVariants.{Memory};
ghost use Rattle.canvas_adapt.specs.declared.renames.Rename.{Rename};
ghost use Rattle.canvas_adapt.specs.Renamed.{name_for, name_or, rename_task, rename_tree, renamed};
ghost use Rattle.canvas_adapt.specs.steps.Renaming.{tasks_renamed, trees_in, trees_renamed};

use crate::renames::{Rename, name_of};
use canvas_task::{ListOf, TextOf, copy_args, copy_kwargs};
use canvas_values::{Canvas, Node, SigFault, TaskSig};
use std::alloc::{AllocError, Global};

/// Returns the other name of the task of a number, or else its own.
fn name_at(
    alloc: Global,
    name: &TextOf,
    renames: &[Rename],
    number: u32,
) -> Result<TextOf, AllocError>
    ensures { IfOk result (λ copy. copy ≡ name_or (name_for renames.now number) name.now) }
{
    match name_of(renames, number) {
        Some(other) => Ok(TextOf::of(String::from_str(alloc, other)?)),
        None => name.clone(),
    }
}

/// Clones a task with the number `next`, renaming, and advances `next` past its last task.
#[cycle(tasks)]
fn rename_task(
    alloc: Global,
    sig: &TaskSig,
    renames: &[Rename],
    next: &mut u32,
) -> Result<TaskSig, AllocError>
    requires few { next.old + count_task (task_view sig.now) ≤ greatest_number }
    ensures value { IfOk result
        (λ copy. task_view copy ≡ rename_task renames.now next.old (task_view sig.now)) }
    ensures next { IfOk result (λ _. next.new ≡ next.old + count_task (task_view sig.now)) }
{
    let name = name_at(alloc, &sig.name, renames, *next)?;
    *next += 1;
    let args = copy_args(&sig.args)?;
    let kwargs = copy_kwargs(alloc, &sig.kwargs)?;
    let links = rename_tasks(alloc, sig.links.get(), renames, next)?;
    let errbacks = rename_tasks(alloc, sig.errbacks.get(), renames, next)?;
    Ok(TaskSig {
        name,
        args,
        kwargs,
        immutable: sig.immutable,
        links: ListOf::of(links),
        errbacks: ListOf::of(errbacks),
    })
}

#[cycle(tasks)]
fn rename_tasks(
    alloc: Global,
    sigs: &[TaskSig],
    renames: &[Rename],
    next: &mut u32,
) -> Result<Vec<TaskSig>, AllocError>
    requires few { next.old + tasks_in (map task_view sigs.now) ≤ greatest_number }
    ensures value { IfOk result (λ copies. map task_view copies.items
        ≡ tasks_renamed renames.now next.old (map task_view sigs.now)) }
    ensures next { IfOk result (λ _. next.new ≡ next.old + tasks_in (map task_view sigs.now)) }
{
    let mut copies = Vec::with_capacity(alloc, sigs.len())?;
    for sig in sigs {
        copies.push(rename_task(alloc, sig, renames, next)?)?;
    }
    Ok(copies)
}

/// Clones a signature whose first task has the number `next`, renaming, and advances `next` past
/// its last task.
#[cycle(nodes)]
fn rename_node(
    alloc: Global,
    node: &Node,
    renames: &[Rename],
    next: &mut u32,
) -> Result<Node, AllocError>
    requires few { next.old + count (view node.now) ≤ greatest_number }
    ensures value { IfOk result
        (λ copy. view copy ≡ rename_tree renames.now next.old (view node.now)) }
    ensures next { IfOk result (λ _. next.new ≡ next.old + count (view node.now)) }
{
    match node {
        Node::Task(sig) => Ok(Node::Task(rename_task(alloc, sig, renames, next)?)),
        Node::Chain(nodes) => {
            let nodes = rename_nodes(alloc, nodes.get(), renames, next)?;
            Ok(Node::Chain(ListOf::of(nodes)))
        }
        Node::Group(nodes) => {
            let nodes = rename_nodes(alloc, nodes.get(), renames, next)?;
            Ok(Node::Group(ListOf::of(nodes)))
        }
        Node::Chord { header, body } => {
            let header = rename_nodes(alloc, header.get(), renames, next)?;
            let body = rename_node(alloc, body, renames, next)?;
            let body = Box::new(alloc, body)?;
            Ok(Node::Chord {
                header: ListOf::of(header),
                body,
            })
        }
    }
}

#[cycle(nodes)]
fn rename_nodes(
    alloc: Global,
    nodes: &[Node],
    renames: &[Rename],
    next: &mut u32,
) -> Result<Vec<Node>, AllocError>
    requires few { next.old + trees_in (map view nodes.now) ≤ greatest_number }
    ensures value { IfOk result (λ copies. map view copies.items
        ≡ trees_renamed renames.now next.old (map view nodes.now)) }
    ensures next { IfOk result (λ _. next.new ≡ next.old + trees_in (map view nodes.now)) }
{
    let mut copies = Vec::with_capacity(alloc, nodes.len())?;
    for node in nodes {
        copies.push(rename_node(alloc, node, renames, next)?)?;
    }
    Ok(copies)
}

/// Clones a canvas with other names for the tasks of these numbers. The tasks are numbered in file
/// order: a task, its links, its error callbacks, then what follows; a header before its body. A
/// number that the canvas doesn't have is ignored, and of several names for one number the first
/// counts. The result is refused if one of the names is not allowed.
#[tactic(auto, using(crate::proofs::Names::few_tasks))]
pub fn renamed(alloc: Global, canvas: &Canvas, renames: &[Rename]) -> Result<Canvas, SigFault>
    ensures ok { IfOk result (λ c. c ≡ renamed renames.now canvas.now) }
    ensures err { IfErr result
        (λ e. e ≢ Memory → node_fault (renamed renames.now canvas.now) ≡ Some e) }
{
    let mut next = 1;
    let node = rename_node(alloc, canvas.node(), renames, &mut next)?;
    Canvas::of(alloc, node)
}

/// States that without other names a canvas is unchanged, and that names don't change the number of
/// tasks.
pub fn law_of_renames()
    ensures none { (c : Tree) → renamed [] c ≡ c }
    ensures count { (renames : List Rename) (c : Tree) → count (renamed renames c) ≡ count c }
{}
