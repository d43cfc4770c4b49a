//! Checks whether a canvas has more tasks, or more groups and chords, than a given number.

ghost use Rattle.std.specs.Prelude.{map};
ghost use Rattle.canvas_semantics.specs.Tree.{count, count_all, count_task, count_tasks, count_groups, count_all_groups};
ghost use Rattle.canvas_values.specs.SignatureView.{view, task_view, tasks_of, trees_of};
ghost use Rattle.canvas_values.specs.steps.Budget.{LeavesOver};

use crate::{Node, TaskSig};

/// Subtracts a task, with its links and error callbacks, from `left`. Returns None if they are more
/// than `left`.
#[cycle(task_counting)]
#[tactic(auto, using(crate::proofs::Views::task_seen))]
fn left_after_task(sig: &TaskSig, left: u32) -> Option<u32>
    ensures { LeavesOver result left (count_task (task_view sig.now)) }
{
    let left = left.checked_sub(1)?;
    let left = left_after_tasks(sig.links.get(), left)?;
    left_after_tasks(sig.errbacks.get(), left)
}

#[cycle(task_counting)]
fn left_after_tasks(sigs: &[TaskSig], left: u32) -> Option<u32>
    ensures { LeavesOver result left (count_tasks (tasks_of (map task_view sigs.now))) }
{
    let mut left = left;
    for sig in sigs {
        left = left_after_task(sig, left)?;
    }
    Some(left)
}

/// Subtracts the tasks of a node from `left`. Returns None if it has more.
#[cycle(tasks)]
pub(crate) fn tasks_left(node: &Node, left: u32) -> Option<u32>
    ensures { LeavesOver result left (count (view node.now)) }
{
    match node {
        Node::Task(sig) => left_after_task(sig, left),
        Node::Chain(nodes) => tasks_left_of_all(nodes.get(), left),
        Node::Group(nodes) => tasks_left_of_all(nodes.get(), left),
        Node::Chord { header, body } => {
            let left = tasks_left_of_all(header.get(), left)?;
            tasks_left(body, left)
        }
    }
}

#[cycle(tasks)]
fn tasks_left_of_all(nodes: &[Node], left: u32) -> Option<u32>
    ensures { LeavesOver result left (count_all (trees_of (map view nodes.now))) }
{
    let mut left = left;
    for node in nodes {
        left = tasks_left(node, left)?;
    }
    Some(left)
}

/// Subtracts the groups and chords of a node from `left`. Returns None if it has more.
#[cycle(groups)]
pub(crate) fn groups_left(node: &Node, left: u32) -> Option<u32>
    ensures { LeavesOver result left (count_groups (view node.now)) }
{
    match node {
        Node::Task(_) => Some(left),
        Node::Chain(nodes) => groups_left_of_all(nodes.get(), left),
        Node::Group(nodes) => {
            let left = left.checked_sub(1)?;
            groups_left_of_all(nodes.get(), left)
        }
        Node::Chord { header, body } => {
            let left = left.checked_sub(1)?;
            let left = groups_left_of_all(header.get(), left)?;
            groups_left(body, left)
        }
    }
}

#[cycle(groups)]
fn groups_left_of_all(nodes: &[Node], left: u32) -> Option<u32>
    ensures { LeavesOver result left (count_all_groups (trees_of (map view nodes.now))) }
{
    let mut left = left;
    for node in nodes {
        left = groups_left(node, left)?;
    }
    Some(left)
}
