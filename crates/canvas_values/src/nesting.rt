//! The depth to which signatures are nested.

ghost use Rattle.std.specs.Prelude.{◌≡◌, ◌≤◌, ◌↔◌, IsTrue};
ghost use Rattle.std.specs.List.{All};
ghost use Rattle.canvas_semantics.specs.Nesting.{nesting, task_nesting};
ghost use Rattle.canvas_values.specs.SignatureView.{view, task_view};

use crate::{Node, TaskSig};

#[cycle(task_nests)]
fn task_nests_within(sig: &TaskSig, most: u32) -> bool
    ensures { IsTrue result ↔ (task_nesting (task_view sig.now) ≤ most) }
{
    if most == 0 {
        return false;
    }
    tasks_nest_within(sig.links.get(), most - 1) && tasks_nest_within(sig.errbacks.get(), most - 1)
}

#[cycle(task_nests)]
fn tasks_nest_within(sigs: &[TaskSig], most: u32) -> bool
    ensures { IsTrue result ↔ All (λ s. task_nesting (task_view s) ≤ most) sigs.now }
{
    for sig in sigs {
        if !task_nests_within(sig, most) {
            return false;
        }
    }
    true
}

/// Returns whether signatures are nested at most `most` deep. It descends no deeper than that.
#[cycle(nests)]
pub(crate) fn nests_within(node: &Node, most: u32) -> bool
    ensures { IsTrue result ↔ (nesting (view node.now) ≤ most) }
{
    if most == 0 {
        return false;
    }
    match node {
        Node::Task(sig) => task_nests_within(sig, most),
        Node::Chain(nodes) => all_nest_within(nodes.get(), most - 1),
        Node::Group(nodes) => all_nest_within(nodes.get(), most - 1),
        Node::Chord { header, body } => {
            all_nest_within(header.get(), most - 1) && nests_within(body, most - 1)
        }
    }
}

#[cycle(nests)]
fn all_nest_within(nodes: &[Node], most: u32) -> bool
    ensures { IsTrue result ↔ All (λ n. nesting (view n) ≤ most) nodes.now }
{
    for node in nodes {
        if !nests_within(node, most) {
            return false;
        }
    }
    true
}
