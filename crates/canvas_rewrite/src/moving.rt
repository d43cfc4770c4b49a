//! The normal line of a consumed canvas: its parts are moved, and none is cloned.
ghost use Rattle.std.specs.Prelude.{◌≡◌, IfOk, map};
ghost use Rattle.canvas_semantics.specs.Tree.{no_trees};
ghost use Rattle.canvas_values.specs.SignatureView.{view, trees_of};
ghost use Rattle.canvas_rewrite.specs.LineView.{elements, line_view};
ghost use Rattle.canvas_rewrite.specs.steps.Growing.{growing};
ghost use Rattle.canvas_rewrite.specs.Runnable.{IsRunnable};
ghost use Rattle.canvas_semantics.specs.SameMeaning.{IsSame};
ghost use Rattle.canvas_semantics.specs.NormalLine.{onto, all_onto, normal};

use crate::Line;
use crate::growing::Growing;
use crate::rewriting::group_onto;
use canvas_task::Memory;
use canvas_values::{Canvas, Node};
use std::alloc::{AllocError, Global};

/// Returns the line of a node followed by the line `after`.
#[cycle(onto)]
fn move_onto(alloc: Global, node: Node, after: Growing) -> Result<Growing, AllocError>
    ensures { IfOk result (λ line. growing line ≡ onto (view node) (growing after)) }
{
    match node {
        Node::Task(sig) => {
            let mut line = after;
            line.push_front(sig)?;
            Ok(line)
        }
        Node::Chain(nodes) => move_all_onto(alloc, nodes.into_plain(), after),
        Node::Group(nodes) => group_onto(alloc, move_lines(alloc, nodes.into_plain())?, after),
        Node::Chord { header, body } => {
            let members = move_lines(alloc, header.into_plain())?;
            let body = move_onto(alloc, Box::into_inner(body), after)?;
            Growing::of_end(alloc, members, Some(body.into_line()))
        }
    }
}

#[cycle(onto)]
fn move_all_onto(alloc: Global, nodes: Vec<Node>, after: Growing) -> Result<Growing, AllocError>
    ensures { IfOk result
        (λ line. growing line ≡ all_onto (trees_of (map view nodes.items)) (growing after)) }
{
    let mut line = after;
    let mut left = nodes;
    while let Some(node) = left.pop() {
        line = move_onto(alloc, node, line)?;
    }
    Ok(line)
}

/// Returns a line for each node.
#[cycle(onto)]
fn move_lines(alloc: Global, nodes: Vec<Node>) -> Result<Vec<Line>, AllocError>
    ensures { IfOk result
        (λ lines. map elements lines.items ≡ map (λ n. onto (view n) no_trees) nodes.items) }
{
    let mut lines = Vec::with_capacity(alloc, nodes.len())?;
    for node in nodes {
        let line = move_onto(alloc, node, Growing::empty(alloc))?;
        lines.push(line.into_line())?;
    }
    Ok(lines)
}

/// Like `normalise`, but consumes the canvas.
pub fn into_normal(alloc: Global, canvas: Canvas) -> Result<Line, Memory>
    ensures value { IfOk result (λ line. line_view line ≡ normal canvas) }
    ensures meaning { IfOk result (λ line. IsSame (line_view line) canvas) }
    ensures runnable { IfOk result (λ line. IsRunnable (line_view line)) }
{
    let line = move_onto(alloc, canvas.into_node(), Growing::empty(alloc))?;
    Ok(line.into_line())
}
