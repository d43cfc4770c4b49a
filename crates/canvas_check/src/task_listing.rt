//! The tasks of a canvas in file order.

ghost use Rattle.std.specs.Prelude.{◌≡◌, ◌∷◌, [], map, OnOk, IfOk};
ghost use Rattle.canvas_values.specs.SignatureView.{view, task_view, tasks_of, trees_of};
ghost use Rattle.canvas_check.specs.Listed.{task_calls, tasks_calls, calls, all_calls, call_at, Lists};

use canvas_values::{Canvas, Node, TaskSig};
use std::alloc::{AllocError, Global};

/// The signatures listed so far: each task's, and None for others.
#[derive(Drop)]
struct Listing<'a> {
    tasks: Vec<Option<&'a TaskSig>>,
}

impl<'a> Listing<'a> {
    fn push(&mut self, task: Option<&'a TaskSig>) -> Result<(), AllocError>
        ensures { OnOk result (Lists (call_at task.entry ∷ []) self.old self.new) }
    {
        self.tasks.push(task)?;
        Ok(())
    }
}

/// Lists a task, its links and its error callbacks.
#[cycle(callbacks)]
fn list_task<'a>(sig: &'a TaskSig, found: &mut Listing<'a>) -> Result<(), AllocError>
    ensures { OnOk result (Lists (task_calls (task_view sig.now)) found.old found.new) }
{
    found.push(Some(sig))?;
    list_tasks(sig.links.get(), found)?;
    list_tasks(sig.errbacks.get(), found)
}

#[cycle(callbacks)]
fn list_tasks<'a>(sigs: &'a [TaskSig], found: &mut Listing<'a>) -> Result<(), AllocError>
    ensures { OnOk result
        (Lists (tasks_calls (tasks_of (map task_view sigs.now))) found.old found.new) }
{
    for sig in sigs {
        list_task(sig, found)?;
    }
    Ok(())
}

#[cycle(nodes)]
fn list_node<'a>(node: &'a Node, found: &mut Listing<'a>) -> Result<(), AllocError>
    ensures { OnOk result (Lists (calls (view node.now)) found.old found.new) }
{
    match node {
        Node::Task(sig) => list_task(sig, found),
        Node::Chain(nodes) => {
            found.push(None)?;
            list_nodes(nodes.get(), found)
        }
        Node::Group(nodes) => {
            found.push(None)?;
            list_nodes(nodes.get(), found)
        }
        Node::Chord { header, body } => {
            found.push(None)?;
            list_nodes(header.get(), found)?;
            list_node(body, found)
        }
    }
}

#[cycle(nodes)]
fn list_nodes<'a>(nodes: &'a [Node], found: &mut Listing<'a>) -> Result<(), AllocError>
    ensures { OnOk result
        (Lists (all_calls (trees_of (map view nodes.now))) found.old found.new) }
{
    for node in nodes {
        list_node(node, found)?;
    }
    Ok(())
}

/// Returns for each signature of a canvas its task, or None if it is no task, in the order of
/// `forecasts`. The tasks are in the order of their numbers.
pub fn tasks_in(alloc: Global, canvas: &Canvas) -> Result<Vec<Option<&TaskSig>>, AllocError>
    ensures { IfOk result (λ tasks. map call_at tasks.items ≡ calls canvas.now) }
{
    let mut found = Listing {
        tasks: Vec::new(alloc),
    };
    list_node(canvas.node(), &mut found)?;
    Ok(found.tasks)
}
