//! The calls of `canvas_rewrite`.

use canvas_rewrite::{Ends, Plan, node_of, normalise};
use canvas_samples::{CHORD, SKIPPED, TEN, group, plan_of, task};
use canvas_sig::{Canvas, read_canvas, write_node};
use std::alloc::Global;

/// `chord([add(1, 1), add(2, 2)], xsum()) | mul(2)`.
const CHORD_THEN_MUL: &str =
    r#"{"task":"celery.chain","subtask_type":"chain","kwargs":{"tasks":[{"task":"celery.chord","subtask_type":"chord","kwargs":{"header":[{"task":"tasks.add","args":[1,1]},{"task":"tasks.add","args":[2,2]}],"body":{"task":"tasks.xsum"}}},{"task":"tasks.mul","args":[2]}]}}"#;

/// Its normal text.
const NORMAL: &str =
    r#"{"args":[],"immutable":false,"kwargs":{"body":{"args":[],"immutable":false,"kwargs":{"tasks":[{"args":[],"immutable":false,"kwargs":{},"options":{},"subtask_type":null,"task":"tasks.xsum"},{"args":[2],"immutable":false,"kwargs":{},"options":{},"subtask_type":null,"task":"tasks.mul"}]},"options":{},"subtask_type":"chain","task":"celery.chain"},"header":[{"args":[1,1],"immutable":false,"kwargs":{},"options":{},"subtask_type":null,"task":"tasks.add"},{"args":[2,2],"immutable":false,"kwargs":{},"options":{},"subtask_type":null,"task":"tasks.add"}]},"options":{},"subtask_type":"chord","task":"celery.chord"}"#;

fn normal_text(alloc: Global, canvas: &Canvas) -> Option<String> {
    let line = normalise(alloc, canvas).ok()?;
    let node = node_of(alloc, &line).ok()?;
    write_node(alloc, &node).ok()
}

fn is_normal(alloc: Global, text: &str, normal: &str) -> bool {
    match read_canvas(alloc, text.as_bytes()) {
        Ok(canvas) => normal_text(alloc, &canvas).is_some_and(|found| found.as_str() == normal),
        Err(_) => false,
    }
}

fn is_chord_then_mul(plan: &Plan) -> bool {
    plan.tasks() == 4
        && plan.name(task(4)) == Some("tasks.mul")
        && plan.name(task(5)).is_none()
        && matches!(plan.ends(), Ends::One(end) if end.get() == 4)
}

fn is_chord(plan: &Plan) -> bool {
    plan.groups() == 1
        && plan.size_of(group(1)) == Some(3)
        && plan.size_of(group(2)).is_none()
        && plan.members(group(1)) == [task(1), task(2), task(3)].as_slice()
        && plan.members(group(2)).is_empty()
        && plan.line().tasks.get().is_empty()
}

fn is_ten(plan: &Plan) -> bool {
    match plan.ends() {
        Ends::Many(ends) => ends == plan.members(group(1)) && ends.len() == 10,
        Ends::One(_) => false,
    }
}

/// Which canvas a plan is of.
#[derive(Clone, Copy, Debug)]
enum Of {
    ChordThenMul,
    Chord,
    Ten,
    Skipped,
}

fn is_plan(alloc: Global, text: &str, of: Of) -> bool {
    match plan_of(alloc, text) {
        Some(plan) => match of {
            Of::ChordThenMul => is_chord_then_mul(&plan),
            Of::Chord => is_chord(&plan),
            Of::Ten => is_ten(&plan),
            Of::Skipped => plan.tasks() == 4 && plan.line().tasks.get().len() == 1,
        },
        None => false,
    }
}

#[test]
fn plans(rt: HostRuntime) {
    let alloc = rt.alloc();
    assert!(rt; is_normal(alloc, CHORD_THEN_MUL, NORMAL));
    for &(text, of) in &[
        (CHORD_THEN_MUL, Of::ChordThenMul),
        (CHORD, Of::Chord),
        (TEN, Of::Ten),
        (SKIPPED, Of::Skipped),
    ] {
        assert!(rt; is_plan(alloc, text, of), "{of:?}");
    }
}
