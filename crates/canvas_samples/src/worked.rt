//! Canvases whose reports are worked out by hand.

use crate::notation::{filled, repeated};
use crate::spelled;
use canvas_task::Memory;
use std::alloc::Global;

/// A canvas's text, and its report.
#[derive(Drop)]
pub struct Worked {
    pub text: String,
    pub report: String,
}

/// The canvas of a frame and its calls, with a report that is spelled shortly.
fn of_frame(alloc: Global, frame: &str, calls: &str, report: &str) -> Result<Worked, Memory> {
    Ok(Worked {
        text: spelled::canvas(alloc, frame, calls)?,
        report: spelled::report(alloc, report)?,
    })
}

/// The calls `add(i, i)` for the numbers below one.
fn doubles(alloc: Global, count: u32) -> Result<String, Memory> {
    let mut calls = String::new(alloc);
    for i in 0..count {
        write!(calls, "add:{i},{i} ")?;
    }
    Ok(calls)
}

/// The lines of these calls, with the text after them.
fn doubled(alloc: Global, count: u32, last: &str) -> Result<String, Memory> {
    let mut short = String::new(alloc);
    for i in 0..count {
        let task = i.saturating_add(1);
        let double = i.saturating_mul(2);
        writeln!(short, "#{task} tasks.add SUCCESS {double}")?;
    }
    short.push_str(last)?;
    Ok(short)
}

/// A group that doubles the numbers below a hundred, and the sum of what it gives.
pub fn a_hundred_and_their_sum(alloc: Global) -> Result<Worked, Memory> {
    let group = repeated(alloc, 'G', ".", 100)?;
    let frame = filled(alloc, "C(_,.)", &group)?;
    let mut calls = doubles(alloc, 100)?;
    calls.push_str("xsum:")?;
    let report = doubled(alloc, 100, "#101 tasks.xsum SUCCESS 9900\nresult 9900\n")?;
    of_frame(alloc, &frame, &calls, &report)
}

/// A chord with a member that fails: its body fails with an exception of its own, and runs its
/// error callback.
pub fn a_failed_member(alloc: Global) -> Result<Worked, Memory> {
    let calls = "add:4,4 div:1,0 add:8,8 xsum: log_error:";
    of_frame(alloc, "H[.,.,.|?.>]", calls, A_FAILED_MEMBER)
}

/// Its report.
const A_FAILED_MEMBER: &str = concat!(
    "#1 tasks.add SUCCESS 8\n",
    "#2 tasks.div FAILURE ZeroDivisionError\n",
    "#3 tasks.add SUCCESS 16\n",
    "#4 tasks.xsum FAILURE ChordError: Dependency #2 raised ZeroDivisionError\n",
    "#5 tasks.log_error SUCCESS 4\n",
    "result ChordError: Dependency #2 raised ZeroDivisionError\n"
);
