//! The normal line of a canvas.
ghost use Rattle.std.specs.Prelude.{◌≡◌, IfOk, map};
ghost use Rattle.std.specs.Option.{option_map};
ghost use Rattle.canvas_semantics.specs.Tree.{no_trees, and_tree, one};
ghost use Rattle.canvas_values.specs.SignatureView.{view, trees_of};
ghost use Rattle.canvas_rewrite.specs.LineView.{elements, line_view, chains};
ghost use Rattle.canvas_rewrite.specs.steps.Growing.{growing};
ghost use Rattle.canvas_rewrite.specs.Runnable.{IsRunnable};
ghost use Rattle.canvas_semantics.specs.SameMeaning.{IsSame};
ghost use Rattle.canvas_semantics.specs.NormalLine.{onto, group_onto, all_onto, normal, normal_all};

use crate::Line;
use crate::growing::Growing;
use canvas_task::Memory;
use canvas_values::{Canvas, Node, copy_sig};
use std::alloc::{AllocError, Global};

/// Returns the line of a group followed by the line `after`: a chord, if `after` has an element.
pub(crate) fn group_onto(
    alloc: Global,
    members: Vec<Line>,
    after: Growing,
) -> Result<Growing, AllocError>
    ensures { IfOk result (λ line. growing line
        ≡ group_onto 0 (chains (map elements members.items)) (growing after)) }
{
    if after.is_empty() {
        return Growing::of_end(alloc, members, None);
    }
    Growing::of_end(alloc, members, Some(after.into_line()))
}

/// Returns the line of a node followed by the line `after`.
#[cycle(onto)]
#[tactic(auto, using(crate::proofs::Lines::normal_chains))]
fn onto(alloc: Global, node: &Node, after: Growing) -> Result<Growing, AllocError>
    ensures { IfOk result (λ line. growing line ≡ onto (view node.now) (growing after)) }
{
    match node {
        Node::Task(sig) => {
            let mut line = after;
            line.push_front(copy_sig(alloc, sig)?)?;
            Ok(line)
        }
        Node::Chain(nodes) => all_onto(alloc, nodes.get(), after),
        Node::Group(nodes) => group_onto(alloc, lines_of(alloc, nodes.get())?, after),
        Node::Chord { header, body } => {
            let members = lines_of(alloc, header.get())?;
            let body = onto(alloc, body, after)?;
            Growing::of_end(alloc, members, Some(body.into_line()))
        }
    }
}

#[cycle(onto)]
fn all_onto(alloc: Global, nodes: &[Node], after: Growing) -> Result<Growing, AllocError>
    ensures { IfOk result
        (λ line. growing line ≡ all_onto (trees_of (map view nodes.now)) (growing after)) }
{
    let mut line = after;
    let mut left = nodes.len();
    while left > 0 {
        left -= 1;
        line = onto(alloc, &nodes[left], line)?;
    }
    Ok(line)
}

/// Returns a line for each node.
#[cycle(onto)]
fn lines_of(alloc: Global, nodes: &[Node]) -> Result<Vec<Line>, AllocError>
    ensures { IfOk result
        (λ lines. map elements lines.items ≡ map (λ n. onto (view n) no_trees) nodes.now) }
{
    let mut lines = Vec::new(alloc);
    for node in nodes {
        let line = onto(alloc, node, Growing::empty(alloc))?;
        lines.push(line.into_line())?;
    }
    Ok(lines)
}

/// Returns the normal line of a canvas: chains are flattened, a group that something follows
/// becomes a chord, and what follows a chord is added to its body.
pub fn normalise(alloc: Global, canvas: &Canvas) -> Result<Line, Memory>
    ensures value { IfOk result (λ line. line_view line ≡ normal canvas.now) }
    ensures meaning { IfOk result (λ line. IsSame (line_view line) canvas.now) }
    ensures runnable { IfOk result (λ line. IsRunnable (line_view line)) }
{
    let line = onto(alloc, canvas.node(), Growing::empty(alloc))?;
    Ok(line.into_line())
}
