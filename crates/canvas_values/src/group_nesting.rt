//! Checks for groups at the end of a member of a group or header.

ghost use Rattle.std.specs.Prelude.{◌≡◌, false, map};
ghost use Rattle.std.specs.List.{list_all};
ghost use Rattle.canvas_values.specs.steps.Ending.{ending, last_ending, ends_in_task};
ghost use Rattle.canvas_values.specs.SignatureView.{view};

use crate::Node;

/// Returns whether a node's line ends in a group, or None if a member of a group or header in it
/// does.
#[cycle(endings)]
pub(crate) fn ending(node: &Node) -> Option<bool>
    ensures { result ≡ ending (view node.now) }
{
    match node {
        Node::Task(_) => Some(false),
        Node::Chain(nodes) => last_ending(nodes.get()),
        Node::Group(nodes) => {
            if all_end_in_tasks(nodes.get()) {
                Some(true)
            } else {
                None
            }
        }
        Node::Chord { header, body } => {
            if all_end_in_tasks(header.get()) {
                ending(body)
            } else {
                None
            }
        }
    }
}

#[cycle(endings)]
fn last_ending(nodes: &[Node]) -> Option<bool>
    ensures { result ≡ last_ending false (map view nodes.now) }
{
    let mut last = false;
    for node in nodes {
        last = ending(node)?;
    }
    Some(last)
}

#[cycle(endings)]
fn all_end_in_tasks(nodes: &[Node]) -> bool
    ensures { result ≡ list_all (λ n. ends_in_task (ending (view n))) nodes.now }
{
    for node in nodes {
        if !is_task_end(ending(node)) {
            return false;
        }
    }
    true
}

fn is_task_end(ending: Option<bool>) -> bool
    ensures { result ≡ ends_in_task ending }
{
    matches!(ending, Some(false))
}
