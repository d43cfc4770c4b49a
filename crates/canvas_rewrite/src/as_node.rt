//! Turning a line into a signature.
ghost use Rattle.std.specs.Prelude.{◌≡◌, ◌++◌, IfOk, map};
ghost use Rattle.canvas_semantics.specs.Tree.{one, no_trees, and_tree};
ghost use Rattle.canvas_values.specs.SignatureView.{view, task_view, trees_of};
ghost use Rattle.canvas_semantics.specs.Compact.{element_or_chain, compact, compact_elements};
ghost use Rattle.canvas_rewrite.specs.FrozenView.{line_of, end_of};
ghost use Rattle.canvas_semantics.specs.SameMeaning.{IsSame};
ghost use Rattle.canvas_rewrite.specs.LineView.{line_view};

use crate::{Line, LineEnd};
use canvas_task::{ListOf, Memory};
use canvas_values::{Node, TaskSig, copy_sig};
use std::alloc::{AllocError, Global};

/// Returns a single element itself, and several as a chain.
fn whole(nodes: Vec<Node>) -> Node
    ensures { view result ≡ element_or_chain (trees_of (map view nodes.items)) }
{
    let mut nodes = nodes;
    if nodes.len() == 1 {
        return nodes.pop().unwrap();
    }
    Node::Chain(ListOf::of(nodes))
}

fn task_nodes(alloc: Global, sigs: &[TaskSig]) -> Result<Vec<Node>, AllocError>
    ensures { IfOk result (λ nodes. map view nodes.items ≡ map (λ s. one (task_view s)) sigs.now) }
{
    let mut nodes = Vec::new(alloc);
    for sig in sigs {
        nodes.push(Node::Task(copy_sig(alloc, sig)?))?;
    }
    Ok(nodes)
}

#[cycle(as_node)]
fn line_node(alloc: Global, line: &Line) -> Result<Node, AllocError>
    ensures { IfOk result (λ node. view node ≡ compact (line_of line.now)) }
{
    let mut nodes = task_nodes(alloc, line.tasks.get())?;
    match &line.tail {
        Some(end) => {
            nodes.push(end_node(alloc, end)?)?;
            Ok(whole(nodes))
        }
        None => Ok(whole(nodes)),
    }
}

#[cycle(as_node)]
fn end_node(alloc: Global, end: &LineEnd) -> Result<Node, AllocError>
    ensures { IfOk result
        (λ node. and_tree (view node) no_trees ≡ compact_elements (end_of end.now)) }
{
    let members = ListOf::of(line_nodes(alloc, end.members.get())?);
    match &end.body {
        Some(body) => {
            let body = Box::new(alloc, line_node(alloc, body)?)?;
            Ok(Node::Chord {
                header: members,
                body,
            })
        }
        None => Ok(Node::Group(members)),
    }
}

#[cycle(as_node)]
fn line_nodes(alloc: Global, lines: &[Line]) -> Result<Vec<Node>, AllocError>
    ensures { IfOk result
        (λ nodes. map view nodes.items ≡ map (λ l. compact (line_of l)) lines.now) }
{
    let mut nodes = Vec::new(alloc);
    for line in lines {
        nodes.push(line_node(alloc, line)?)?;
    }
    Ok(nodes)
}

/// Clones a line as a signature: a line of one element is that element, a longer one a chain.
pub fn node_of(alloc: Global, line: &Line) -> Result<Node, Memory>
    ensures value { IfOk result (λ node. view node ≡ compact (line_of line.now)) }
    ensures meaning { IfOk result (λ node. IsSame (view node) (line_view line.now)) }
{
    Ok(line_node(alloc, line)?)
}
