//! Rows that are missing in a report.

use canvas_report::{Report, report_text};
use canvas_rewrite::Plan;
use canvas_samples::plan_of;
use canvas_task::{ListOf, Outcome};
use std::alloc::{AllocError, Global};

const ADD_THEN_MUL: &str = r#"{"task":"celery.chain","subtask_type":"chain","kwargs":{"tasks":[
    {"task":"tasks.add","args":[4,4]},{"task":"tasks.mul","args":[8]}]}}"#;

/// Whether rows over the canvas of a text are printed so.
fn has_rows(alloc: Global, text: &str, report: &Report, printed: &str) -> bool {
    match plan_of(alloc, text) {
        Some(plan) => prints(alloc, &plan, report, printed),
        None => false,
    }
}

fn prints(alloc: Global, plan: &Plan, report: &Report, printed: &str) -> bool {
    match report_text(alloc, plan, report) {
        Ok(found) => found.as_str() == printed,
        Err(_) => false,
    }
}

/// A report with one row, of a task that gave 8.
fn one_row(alloc: Global) -> Result<Report, AllocError> {
    Ok(Report {
        rows: ListOf::of(vec![in alloc; Some(Outcome::Success(8))]?),
    })
}

/// Whether that one is printed so for two tasks.
fn one_prints(alloc: Global, printed: &str) -> bool {
    match one_row(alloc) {
        Ok(report) => has_rows(alloc, ADD_THEN_MUL, &report, printed),
        Err(_) => false,
    }
}

#[test]
fn missing_rows_are_pending(rt: HostRuntime) {
    let printed = concat!(
        "00000000-0000-8000-8000-000000000001 tasks.add SUCCESS 8\n",
        "00000000-0000-8000-8000-000000000002 tasks.mul PENDING -\n",
        "result -\n"
    );
    assert!(rt; one_prints(rt.alloc(), printed));
}
