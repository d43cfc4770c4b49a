//! Canvases and arguments that were composed, with their texts.

use crate::composed::calls;
use crate::tasks::list;
use canvas_sig::{
    Canvas, Node, SigFault, TaskSig, read_canvas, write_arg, write_canvas, write_node,
};
use canvas_task::{Arg, ListOf, TextOf};
use serde_json::Value;
use std::alloc::{AllocError, Global};

const CHAIN: &str =
    r#"{"args":[],"immutable":false,"kwargs":{"tasks":[{"args":[1,1],"immutable":false,"kwargs":{},"options":{},"subtask_type":null,"task":"tasks.add"},{"args":[2],"immutable":false,"kwargs":{},"options":{},"subtask_type":null,"task":"tasks.mul"}]},"options":{},"subtask_type":"chain","task":"celery.chain"}"#;

fn chain(alloc: Global) -> Result<Node, AllocError> {
    Ok(Node::Chain(calls(alloc, &[("tasks.add", &[1, 1]), ("tasks.mul", &[2])])?))
}

/// Whether a signature is written as this text.
fn is_text(alloc: Global, node: &Node, text: &str) -> bool {
    match write_node(alloc, node) {
        Ok(found) => found.as_str() == text,
        Err(_) => false,
    }
}

/// Whether a text is a canvas that is written so.
pub fn is_written(alloc: Global, text: &str, written: &str) -> bool {
    match read_canvas(alloc, text.as_bytes()) {
        Ok(canvas) => is_text(alloc, canvas.node(), written),
        Err(_) => false,
    }
}

/// Whether a canvas is written as this text, and is written so again once it was read.
fn reads_back(alloc: Global, canvas: &Canvas, text: &str) -> bool {
    match write_canvas(alloc, canvas) {
        Ok(found) => found.as_str() == text && is_written(alloc, text, text),
        Err(_) => false,
    }
}

/// Whether there is a canvas of this text.
fn has_text(alloc: Global, checked: &Result<Canvas, SigFault>, text: &str) -> bool {
    match checked {
        Ok(canvas) => reads_back(alloc, canvas, text),
        Err(_) => false,
    }
}

/// Whether a signature is that of a canvas of this text.
fn is_canvas(alloc: Global, node: Node, text: &str) -> bool {
    has_text(alloc, &Canvas::of(alloc, node), text)
}

fn chain_is_canvas(alloc: Global) -> bool {
    match chain(alloc) {
        Ok(node) => is_canvas(alloc, node, CHAIN),
        Err(_) => false,
    }
}

#[test]
fn canvases(rt: HostRuntime) {
    assert!(rt; chain_is_canvas(rt.alloc()));
}

/// Whether an argument is this value.
fn is_value(alloc: Global, arg: &Arg, text: &str) -> bool {
    match write_arg(alloc, arg) {
        Ok(value) => is_json(alloc, &value, text),
        Err(_) => false,
    }
}

fn is_json(alloc: Global, value: &Value, text: &str) -> bool {
    match value.to_string(alloc) {
        Ok(found) => found.as_str() == text,
        Err(_) => false,
    }
}

/// Whether an argument, where it could be made, is this value.
fn is_made(alloc: Global, made: Result<Arg, AllocError>, text: &str) -> bool {
    match made {
        Ok(arg) => is_value(alloc, &arg, text),
        Err(_) => false,
    }
}

fn text_of(alloc: Global, text: &str) -> Result<Arg, AllocError> {
    Ok(Arg::Text(TextOf::of(String::from_str(alloc, text)?)))
}

#[test]
fn argument_values(rt: HostRuntime) {
    let alloc = rt.alloc();
    assert!(rt; is_made(alloc, list(alloc, &[1, 2]), "[1,2]"));
    assert!(rt; is_made(alloc, Ok(Arg::Num(-5)), "-5"));
    assert!(rt; is_made(alloc, text_of(alloc, "a"), r#""a""#));
}

/// The fault of a call that is composed with a number.
fn fault_of(alloc: Global, name: &str, number: i64) -> Option<SigFault> {
    match TaskSig::new(alloc, name, &[number]) {
        Ok(sig) => Canvas::of(alloc, Node::Task(sig)).err(),
        Err(_) => Some(SigFault::Memory),
    }
}

/// The fault of a chain of nothing.
fn fault_of_nothing(alloc: Global) -> Option<SigFault> {
    Canvas::of(alloc, Node::Chain(ListOf::of(Vec::new(alloc)))).err()
}

#[test]
fn composed_faults(rt: HostRuntime) {
    for &(name, number, fault) in &[
        ("", 1_152_921_504_606_846_977, Some(SigFault::NotSignature)),
        (
            "tasks.add",
            1_152_921_504_606_846_977,
            Some(SigFault::BadNumber),
        ),
        ("tasks.add", 1_152_921_504_606_846_976, None),
    ] {
        let found = fault_of(rt.alloc(), name, number);
        assert!(rt; found == fault, "{found:?}: {name}({number})");
    }
    assert!(rt; fault_of_nothing(rt.alloc()) == Some(SigFault::EmptyChain));
}
