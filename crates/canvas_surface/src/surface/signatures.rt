//! The calls of `canvas_sig`.

use canvas_samples::CHAIN;
use canvas_sig::{
    Canvas, Node, SigFault, read_arg, read_canvas, write_arg, write_canvas, write_node,
};
use canvas_task::{Arg, ListOf, Memory};
use serde_json::Value;
use std::alloc::{AllocError, Global};

/// The text that `add(4, 4) | mul(8)` is written as.
const WRITTEN: &str =
    r#"{"args":[],"immutable":false,"kwargs":{"tasks":[{"args":[4,4],"immutable":false,"kwargs":{},"options":{},"subtask_type":null,"task":"tasks.add"},{"args":[8],"immutable":false,"kwargs":{},"options":{},"subtask_type":null,"task":"tasks.mul"}]},"options":{},"subtask_type":"chain","task":"celery.chain"}"#;

// ---- arguments

/// What a value reads as: its numbers, or the number of its refusal.
fn read_as(alloc: Global, value: &Value) -> Result<Arg, u8> {
    match read_arg(alloc, value) {
        Ok(arg) => Ok(arg),
        Err(fault) => Err(fault.code()),
    }
}

/// What the value of a text reads as; None if the text isn't JSON.
fn text_read_as(alloc: Global, text: &str) -> Option<Result<Arg, u8>> {
    match Value::from_str(alloc, text) {
        Ok(value) => Some(read_as(alloc, &value)),
        Err(_) => None,
    }
}

fn is_refused(alloc: Global, text: &str, code: u8) -> bool {
    matches!(text_read_as(alloc, text), Some(Err(found)) if found == code)
}

fn is_value(alloc: Global, written: &Value, text: &str) -> bool {
    match Value::from_str(alloc, text) {
        Ok(value) => *written == value,
        Err(_) => false,
    }
}

/// Whether an argument is written as a text's value, which reads as it.
fn is_written(alloc: Global, arg: &Arg, text: &str) -> bool {
    match (write_arg(alloc, arg), text_read_as(alloc, text)) {
        (Ok(written), Some(Ok(read))) => is_value(alloc, &written, text) && read == *arg,
        _ => false,
    }
}

fn list(alloc: Global) -> Result<Arg, AllocError> {
    Ok(Arg::List(ListOf::of(vec![in alloc; 1i64, 2]?)))
}

#[test]
fn arguments(rt: HostRuntime) {
    let alloc = rt.alloc();
    assert!(rt; matches!(list(alloc), Ok(arg) if is_written(alloc, &arg, "[1,2]")));
    assert!(rt; is_refused(alloc, "[1.5]", 6));
    assert!(rt; is_refused(alloc, r#"[1.5,"a"]"#, 5));
    assert!(rt; is_refused(alloc, "null", 5));
}

// ---- canvases

fn writes(alloc: Global, node: &Node) -> bool {
    match write_node(alloc, node) {
        Ok(text) => text.as_str() == WRITTEN,
        Err(Memory) => false,
    }
}

/// Whether a canvas is the chain, and so is the canvas that its text reads as.
fn is_chain(alloc: Global, canvas: &Canvas) -> bool {
    match write_canvas(alloc, canvas) {
        Ok(text) => text.as_str() == WRITTEN && writes(alloc, canvas.node()),
        Err(Memory) => false,
    }
}

fn reads_as_chain(alloc: Global, text: &str) -> bool {
    match read_canvas(alloc, text.as_bytes()) {
        Ok(canvas) => is_chain(alloc, &canvas),
        Err(_) => false,
    }
}

/// The number of the refusal of a signature; 0 if it is a canvas.
fn code_of(checked: &Result<Canvas, SigFault>) -> u8 {
    match checked {
        Ok(_) => 0,
        Err(fault) => fault.code(),
    }
}

/// The number of the refusal of a call of this name with one number; 0 if it is a canvas.
fn call_code(alloc: Global, name: &str, number: i64) -> Option<u8> {
    match Node::call(alloc, name, &[number]) {
        Ok(node) => Some(code_of(&Canvas::of(alloc, node))),
        Err(_) => None,
    }
}

fn empty_chain_code(alloc: Global) -> u8 {
    code_of(&Canvas::of(alloc, Node::Chain(ListOf::of(Vec::new(alloc)))))
}

/// A number just past 2^60.
const PAST: i64 = 1152921504606846977;

#[test]
fn canvases(rt: HostRuntime) {
    let alloc = rt.alloc();
    assert!(rt; reads_as_chain(alloc, CHAIN) && reads_as_chain(alloc, WRITTEN));
    assert_eq!(rt; call_code(alloc, "", PAST), Some(3));
    assert_eq!(rt; call_code(alloc, "tasks.add", PAST), Some(6));
    assert_eq!(rt; call_code(alloc, "tasks.add", 1), Some(0));
    assert_eq!(rt; empty_chain_code(alloc), 9);
}
