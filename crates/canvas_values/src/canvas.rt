//! Canvases: signatures that passed every check.

ghost use Rattle.std.specs.Prelude.{◌≡◌, None, Some, IfOk, IfErr};
ghost use Rattle.canvas_values.specs.ComposedRefusals.{node_fault};
ghost use Rattle.canvas_values.specs.LimitRefusals.{tree_fault};
ghost use Rattle.canvas_values.specs.SignatureView.{view};
ghost use Rattle.canvas_values.specs.Writable.{IsCanvas};

use crate::composed::check_node;
use crate::limits::limit_fault;
use crate::{Node, SigFault};
use std::alloc::Global;
use std::marker::Model;

/// A signature that passed every check.
///
/// Its model is the tree that it spells, so in contracts `≡` compares two canvases by their
/// content; on a bare `Node` it would also compare the pointers of boxes. There is no `PartialEq`
/// at run time.
#[derive(Drop)]
pub struct Canvas {
    node: Node,
}

impl Model for Canvas {
    ghost use Rattle.canvas_semantics.specs.Tree.{Tree};
    ghost use Rattle.canvas_semantics.specs.codes.TreeCode.{tree_code};

    ghost Value = { Tree };

    ghost coded = { tree_code };

    ghost use Rattle.canvas_values.specs.SignatureView.{view as tree_view};
    ghost use Rattle.canvas_values.specs.Writable.{IsCanvas};

    ghost view = { λ c. tree_view c.node };

    ghost invariant = { λ c. IsCanvas (tree_view c.node) };
}

impl Canvas {
    /// Checks a composed signature: the names, numbers and empty chains, signature by signature,
    /// and then the limits of a canvas. A text can have these faults too; its other faults are in
    /// its JSON, and no composed signature has them.
    ///
    /// A refused node is dropped. The first checks descend the whole node before the limit of depth
    /// is checked, so a node composed a hundred thousand deep may exhaust the stack. No text does
    /// that: JSON is read at most 127 deep.
    pub fn of(_alloc: Global, node: Node) -> Result<Canvas, SigFault>
        ensures ok { IfOk result
            (λ canvas. (node_fault (view node) ≡ None) × (canvas ≡ view node)) }
        ensures err { IfErr result (λ e. node_fault (view node) ≡ Some e) }
    {
        check_node(&node)?;
        Canvas::within_limits(node)
    }

    /// Makes a canvas of a signature that only the limits of a canvas may refuse, as one read from
    /// a text.
    pub fn within_limits(node: Node) -> Result<Canvas, SigFault>
        requires fine { tree_fault (view node) ≡ None → IsCanvas (view node) }
        ensures ok { IfOk result
            (λ canvas. (tree_fault (view node) ≡ None) × (canvas ≡ view node)) }
        ensures err { IfErr result (λ e. tree_fault (view node) ≡ Some e) }
    {
        match limit_fault(&node) {
            Some(fault) => Err(fault),
            None => Ok(Canvas { node }),
        }
    }

    /// Borrows the signature, as it was read or composed.
    pub fn node(&self) -> &Node
        ensures seen { view result.now ≡ self.now }
        ensures checked { IsCanvas self.now }
    {
        &self.node
    }

    /// Returns the signature, consuming the canvas.
    pub fn into_node(self) -> Node
        ensures seen { view result ≡ self }
        ensures checked { IsCanvas self }
    {
        self.node
    }
}
