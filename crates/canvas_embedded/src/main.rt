//! A whole program that uses the crates: it composes a canvas, adds a task of its own to a
//! registry, runs the canvas with four workers and prints the report.
#![tactic(auto)]

ghost use Rattle.std.specs.Prelude.{◌-ℤ◌, Ok};

use anyhow::Result;
use canvas::{
    Add, Canvas, Kind, Node, OfTwo, OpenGate, Plan, Report, Stop, TaskOfTwo, Xsum, registry_of,
    report_text, run,
};
use std::alloc::{AllocError, AllocGlobal, Global};
use std::random::RandomSource;
use std::sync::Wait;
use std::thread::Threads;

/// A task of this program: `shop.change(paid, price)`.
#[derive(Clone, Copy)]
struct Change;

impl OfTwo for Change {
    ghost answer = { λ _ paid price. Ok (paid -ℤ price) };

    fn answer(&self, paid: i64, price: i64) -> Result<i128, Kind> {
        Ok(i128::from(paid) - i128::from(price))
    }
}

/// Returns `chord([shop.change(10, 3), tasks.add(2, 2)], tasks.xsum)`.
fn sums(alloc: Global) -> Result<Node, AllocError> {
    let mut header = Vec::new(alloc);
    header.push(Node::call(alloc, "shop.change", &[10, 3])?)?;
    header.push(Node::call(alloc, "tasks.add", &[2, 2])?)?;
    Node::chord(alloc, header, Node::call(alloc, "tasks.xsum", &[])?)
}

/// Returns the report of a plan, from a run by four workers.
fn report_of<R>(rt: &R, alloc: Global, plan: &Plan) -> Result<Report>
where
    R: Threads + Wait + RandomSource + AllocGlobal + Sync,
{
    let change = TaskOfTwo {
        name: "shop.change",
        parameters: ("paid", "price"),
        answers: Change,
    };
    let registry = registry_of!(alloc; Add, Xsum, change)?;
    let (report, _records) = run(rt, alloc, plan, &registry, 4, &OpenGate, &Stop::new())?;
    Ok(report)
}

fn plan_of_sums(alloc: Global) -> Result<Plan> {
    let canvas = Canvas::of(alloc, sums(alloc)?)?;
    Ok(Plan::of(alloc, canvas)?)
}

fn report_of_sums<R>(rt: &R, alloc: Global) -> Result<String>
where
    R: Threads + Wait + RandomSource + AllocGlobal + Sync,
{
    let plan = plan_of_sums(alloc)?;
    let report = report_of(rt, alloc, &plan)?;
    Ok(report_text(alloc, &plan, &report)?)
}

fn main(rt: HostRuntime) -> Result<()> {
    print!(rt; "{}", report_of_sums(&rt, rt.alloc())?)?;
    Ok(())
}
