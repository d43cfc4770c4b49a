//! Counting the tasks of a canvas.

ghost use Rattle.std.specs.Prelude.{◌≡◌, map};
ghost use Rattle.canvas_semantics.specs.Tree.{count, count_all, count_task, count_tasks};
ghost use Rattle.canvas_values.specs.SignatureView.{task_view, tasks_of, trees_of, view};
ghost use Rattle.canvas_values.specs.steps.Budget.{LeavesOver};

use canvas_semantics::MOST_TASKS;
use canvas_values::{Canvas, Node, TaskSig};

/// Subtracts a task, with its links and error callbacks, from `left`. Returns None if they are more
/// than `left`.
#[cycle(task_counting)]
#[tactic(auto, using(crate::proofs::Names::task_has))]
fn left_after_task(sig: &TaskSig, left: u32) -> Option<u32>
    ensures { LeavesOver result left (count_task (task_view sig.now)) }
{
    let left = left.checked_sub(1)?;
    let left = left_after_tasks(sig.links.get(), left)?;
    left_after_tasks(sig.errbacks.get(), left)
}

#[cycle(task_counting)]
fn left_after_tasks(sigs: &[TaskSig], left: u32) -> Option<u32>
    ensures { LeavesOver result left (count_tasks (tasks_of (map task_view sigs.now))) }
{
    let mut left = left;
    for sig in sigs {
        left = left_after_task(sig, left)?;
    }
    Some(left)
}

/// Subtracts the tasks of a node from `left`. Returns None if it has more.
#[cycle(counting)]
fn left_after_node(node: &Node, left: u32) -> Option<u32>
    ensures { LeavesOver result left (count (view node.now)) }
{
    match node {
        Node::Task(sig) => left_after_task(sig, left),
        Node::Chain(nodes) => left_after_nodes(nodes.get(), left),
        Node::Group(nodes) => left_after_nodes(nodes.get(), left),
        Node::Chord { header, body } => {
            let left = left_after_nodes(header.get(), left)?;
            left_after_node(body, left)
        }
    }
}

#[cycle(counting)]
fn left_after_nodes(nodes: &[Node], left: u32) -> Option<u32>
    ensures { LeavesOver result left (count_all (trees_of (map view nodes.now))) }
{
    let mut left = left;
    for node in nodes {
        left = left_after_node(node, left)?;
    }
    Some(left)
}

/// Returns the number of tasks of a canvas, links and error callbacks included.
pub(crate) fn count_tasks(canvas: &Canvas) -> u32
    ensures { result ≡ count canvas.now }
{
    match left_after_node(canvas.node(), MOST_TASKS) {
        Some(left) => MOST_TASKS - left,
        None => MOST_TASKS,
    }
}
