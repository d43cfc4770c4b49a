//! Signatures that are composed in code: several calls at a time.

use canvas_sig::Node;
use canvas_task::ListOf;
use std::alloc::{AllocError, Global};

/// The calls of these names, each with its numbers.
pub(crate) fn calls(alloc: Global, named: &[(&str, &[i64])]) -> Result<ListOf<Node>, AllocError> {
    let mut nodes = Vec::new(alloc);
    for (name, numbers) in named {
        nodes.push(Node::call(alloc, name, numbers)?)?;
    }
    Ok(ListOf::of(nodes))
}
