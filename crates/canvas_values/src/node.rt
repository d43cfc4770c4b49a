//! Signatures as a tree, before any check.
ghost use Rattle.std.specs.Prelude.{◌≡◌, IfOk, map};
ghost use Rattle.canvas_semantics.specs.Tree.{one, chain as chain_of, group as group_of, chord as chord_of};
ghost use Rattle.canvas_values.specs.SignatureView.{call_of, trees_of, view};

use crate::TaskSig;
use canvas_task::ListOf;
use std::alloc::{AllocError, Global};

/// A canvas, or a part of one, as it is composed.
#[derive(Drop)]
pub enum Node {
    /// A call of one task.
    Task(TaskSig),
    /// Elements that each take the result of the one before. `Canvas::of` refuses an empty chain.
    Chain(ListOf<Node>),
    /// Members that all take the group's input. There may be none.
    Group(ListOf<Node>),
    /// A chord, whose body takes the list of the results of the header's members: the empty list if
    /// there are none.
    Chord {
        header: ListOf<Node>,
        body: Box<Node>,
    },
}

impl Node {
    /// Makes a call with these numbers, as Celery's `add.s(4, 4)`.
    pub fn call(alloc: Global, name: &str, numbers: &[i64]) -> Result<Node, AllocError>
        ensures { IfOk result (λ node. view node ≡ one (call_of name.now numbers.now)) }
    {
        Ok(Node::Task(TaskSig::new(alloc, name, numbers)?))
    }

    /// Makes a chain, as Celery's `chain`.
    pub fn chain(elements: Vec<Node>) -> Node
        ensures { view result ≡ chain_of (trees_of (map view elements.items)) }
    {
        Node::Chain(ListOf::of(elements))
    }

    /// Makes a group, as Celery's `group`.
    pub fn group(members: Vec<Node>) -> Node
        ensures { view result ≡ group_of 0 (trees_of (map view members.items)) }
    {
        Node::Group(ListOf::of(members))
    }

    /// Makes a chord of a header and a body, as Celery's `chord`.
    pub fn chord(alloc: Global, header: Vec<Node>, body: Node) -> Result<Node, AllocError>
        ensures { IfOk result
            (λ node. view node ≡ chord_of 0 (trees_of (map view header.items)) (view body)) }
    {
        Ok(Node::Chord {
            header: ListOf::of(header),
            body: Box::new(alloc, body)?,
        })
    }
}
