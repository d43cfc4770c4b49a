//! Canvases as JSON texts, their reports, and their plans.

use canvas_rewrite::{Plan, freeze, normalise};
use canvas_sig::{Canvas, read_canvas};
use std::alloc::{AllocError, Global};

/// `add(2, 2)`.
pub const ONE: &str = r#"{"task":"tasks.add","args":[2,2]}"#;

/// `add(4, 4) | mul(8)`.
pub const CHAIN: &str =
    r#"{"task":"celery.chain","subtask_type":"chain","kwargs":{"tasks":[{"task":"tasks.add","args":[4,4]},{"task":"tasks.mul","args":[8]}]}}"#;

/// Its report.
pub const CHAIN_REPORT: &str = concat!(
    "00000000-0000-8000-8000-000000000001 tasks.add SUCCESS 8\n",
    "00000000-0000-8000-8000-000000000002 tasks.mul SUCCESS 64\n",
    "result 64\n"
);

/// A group of `add(i, i)` for i from 0 to 9.
pub const TEN: &str =
    r#"{"task":"celery.group","subtask_type":"group","kwargs":{"tasks":[{"task":"tasks.add","args":[0,0]},{"task":"tasks.add","args":[1,1]},{"task":"tasks.add","args":[2,2]},{"task":"tasks.add","args":[3,3]},{"task":"tasks.add","args":[4,4]},{"task":"tasks.add","args":[5,5]},{"task":"tasks.add","args":[6,6]},{"task":"tasks.add","args":[7,7]},{"task":"tasks.add","args":[8,8]},{"task":"tasks.add","args":[9,9]}]}}"#;

/// Its report.
pub const TEN_REPORT: &str = concat!(
    "00000000-0000-8000-8000-000000000001 tasks.add SUCCESS 0\n",
    "00000000-0000-8000-8000-000000000002 tasks.add SUCCESS 2\n",
    "00000000-0000-8000-8000-000000000003 tasks.add SUCCESS 4\n",
    "00000000-0000-8000-8000-000000000004 tasks.add SUCCESS 6\n",
    "00000000-0000-8000-8000-000000000005 tasks.add SUCCESS 8\n",
    "00000000-0000-8000-8000-000000000006 tasks.add SUCCESS 10\n",
    "00000000-0000-8000-8000-000000000007 tasks.add SUCCESS 12\n",
    "00000000-0000-8000-8000-000000000008 tasks.add SUCCESS 14\n",
    "00000000-0000-8000-8000-000000000009 tasks.add SUCCESS 16\n",
    "00000000-0000-8000-8000-00000000000a tasks.add SUCCESS 18\n",
    "result [0, 2, 4, 6, 8, 10, 12, 14, 16, 18]\n"
);

/// `chord([add(4, 4), div(1, 0), add(8, 8)], xsum())`, the body with the error callback
/// `log_error()`.
pub const CHORD: &str =
    r#"{"task":"celery.chord","subtask_type":"chord","kwargs":{"header":[{"task":"tasks.add","args":[4,4]},{"task":"tasks.div","args":[1,0]},{"task":"tasks.add","args":[8,8]}],"body":{"task":"tasks.xsum","options":{"link_error":[{"task":"tasks.log_error"}]}}}}"#;

/// Its report.
pub const CHORD_REPORT: &str = concat!(
    "00000000-0000-8000-8000-000000000001 tasks.add SUCCESS 8\n",
    "00000000-0000-8000-8000-000000000002 tasks.div FAILURE ZeroDivisionError\n",
    "00000000-0000-8000-8000-000000000003 tasks.add SUCCESS 16\n",
    "00000000-0000-8000-8000-000000000004 tasks.xsum FAILURE ",
    "ChordError: Dependency 00000000-0000-8000-8000-000000000002 raised ZeroDivisionError\n",
    "00000000-0000-8000-8000-000000000005 tasks.log_error SUCCESS 4\n",
    "result ChordError: Dependency 00000000-0000-8000-8000-000000000002 raised ZeroDivisionError\n"
);

/// `div(1, 0) | group(add(1), add(2)) | xsum()`.
pub const SKIPPED: &str =
    r#"{"task":"celery.chain","subtask_type":"chain","kwargs":{"tasks":[{"task":"tasks.div","args":[1,0]},{"task":"celery.group","subtask_type":"group","kwargs":{"tasks":[{"task":"tasks.add","args":[1]},{"task":"tasks.add","args":[2]}]}},{"task":"tasks.xsum"}]}}"#;

/// `div(1, 0)` with the link `ident()`.
pub const UNLINKED: &str =
    r#"{"task":"tasks.div","args":[1,0],"options":{"link":[{"task":"tasks.ident"}]}}"#;

/// A group without members.
pub const EMPTY_GROUP: &str =
    r#"{"task":"celery.group","subtask_type":"group","kwargs":{"tasks":[]}}"#;

/// `tests.sub(10, 3) | mul(2)`.
pub const DIFFERENCE: &str =
    r#"{"task":"celery.chain","subtask_type":"chain","kwargs":{"tasks":[{"task":"tests.sub","args":[10,3]},{"task":"tasks.mul","args":[2]}]}}"#;

/// A group of `add(i, i)` for i from 0 to 99, then `xsum()`.
fn hundred(alloc: Global) -> Result<String, AllocError> {
    let mut text = String::from_str(
        alloc,
        r#"{"task":"celery.chain","subtask_type":"chain","kwargs":{"tasks":[{"task":"celery.group","subtask_type":"group","kwargs":{"tasks":["#,
    )?;
    for i in 0..100u32 {
        let comma = if i > 0 { "," } else { "" };
        write!(text, "{comma}{{\"task\":\"tasks.add\",\"args\":[{i},{i}]}}")?;
    }
    text.push_str(r#"]}},{"task":"tasks.xsum"}]}}"#)?;
    Ok(text)
}

fn planned(alloc: Global, canvas: &Canvas) -> Option<Plan> {
    match normalise(alloc, canvas) {
        Ok(line) => freeze(alloc, &line).ok(),
        Err(_) => None,
    }
}

/// The plan of a canvas's text, if it is one.
pub fn plan_of(alloc: Global, text: &str) -> Option<Plan> {
    match read_canvas(alloc, text.as_bytes()) {
        Ok(canvas) => planned(alloc, &canvas),
        Err(_) => None,
    }
}

/// The plan of a hundred tasks and their sum.
pub fn hundred_planned(alloc: Global) -> Option<Plan> {
    match hundred(alloc) {
        Ok(text) => plan_of(alloc, &text),
        Err(_) => None,
    }
}
