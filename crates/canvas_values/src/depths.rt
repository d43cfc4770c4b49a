//! The depth of a canvas: as written, and in a message of its run.

ghost use Rattle.std.specs.Prelude.{◌≡◌, ◌≤◌};
ghost use Rattle.canvas_semantics.specs.Bounds.{most_nesting, most_reach};
ghost use Rattle.canvas_semantics.specs.Nesting.{nesting};
ghost use Rattle.canvas_semantics.specs.NormalLine.{normal};
ghost use Rattle.canvas_semantics.specs.Reach.{reach};
ghost use Rattle.canvas_values.specs.SignatureView.{view};

use crate::nesting::nests_within;
use crate::reach::{LineReach, onto_reach, whole};
use crate::{Canvas, Node};
use canvas_semantics::MOST_NESTING;

/// The depths to which the signatures of a canvas are nested.
#[derive(Clone, Copy, Debug, PartialEq, Eq)]
pub struct Depths {
    /// The depth in the canvas as written: from 1 to `MOST_NESTING`.
    pub nesting: u32,
    /// The greatest depth in a message of its run: at most `MOST_REACH`.
    pub reach: u32,
}

/// Returns the nesting of a node that isn't too deep.
fn nesting_of(node: &Node) -> u32
    requires { nesting (view node.now) ≤ most_nesting }
    ensures { result ≡ nesting (view node.now) }
{
    for depth in 0..MOST_NESTING {
        if nests_within(node, depth) {
            return depth;
        }
    }
    MOST_NESTING
}

/// Returns the reach of a node that isn't too deep in any message.
fn reach_of(node: &Node) -> u32
    requires { reach 0 (normal (view node.now)) ≤ most_reach }
    ensures { result ≡ reach 0 (normal (view node.now)) }
{
    whole(onto_reach(node, LineReach::Empty, 0))
}

impl Canvas {
    /// Returns the depths of the canvas, which its limits bound.
    pub fn depths(&self) -> Depths
        ensures nesting { result.nesting ≡ nesting self.now }
        ensures reach { result.reach ≡ reach 0 (normal self.now) }
    {
        let node = self.node();
        Depths {
            nesting: nesting_of(node),
            reach: reach_of(node),
        }
    }
}
