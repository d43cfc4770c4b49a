//! The refusals of a whole canvas.

ghost use Rattle.std.specs.Prelude.{◌≡◌};
ghost use Rattle.canvas_semantics.specs.Bounds.{is_too_deep, is_too_many};
ghost use Rattle.canvas_values.specs.LimitRefusals.{tree_fault};
ghost use Rattle.canvas_values.specs.SignatureView.{view};

use crate::counting::{groups_left, tasks_left};
use crate::group_nesting::ending;
use crate::nesting::nests_within;
use crate::reach::{LineReach, onto_reach, whole};
use crate::{Node, SigFault};
use canvas_semantics::{MOST_GROUPS, MOST_NESTING, MOST_REACH, MOST_TASKS};

fn is_too_deep(node: &Node) -> bool
    ensures { result ≡ is_too_deep (view node.now) }
{
    !nests_within(node, MOST_NESTING) || whole(onto_reach(node, LineReach::Empty, 0)) > MOST_REACH
}

fn is_too_many(node: &Node) -> bool
    ensures { result ≡ is_too_many (view node.now) }
{
    tasks_left(node, MOST_TASKS).is_none() || groups_left(node, MOST_GROUPS).is_none()
}

/// Returns the first refusal by the limits of a canvas whose signatures have no faults. It takes
/// time linear in the size of the canvas.
pub(crate) fn limit_fault(node: &Node) -> Option<SigFault>
    ensures { result ≡ tree_fault (view node.now) }
{
    if ending(node).is_none() {
        return Some(SigFault::NestedGroup);
    }
    if is_too_deep(node) {
        return Some(SigFault::TooDeep);
    }
    if is_too_many(node) {
        return Some(SigFault::TooMany);
    }
    None
}
