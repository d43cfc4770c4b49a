//! Checks of composed signatures: their names, their numbers, and empty chains.

ghost use Rattle.std.specs.Prelude.{◌≡◌, map, OnOk};
ghost use Rattle.std.specs.List.{list_all};
ghost use Rattle.canvas_task.specs.Entries.{named, Ascends};
ghost use Rattle.canvas_task.specs.Numbers.{in_range};
ghost use Rattle.canvas_values.specs.ComposedRefusals.{refusal_of, arg_ok, its_call, call_fault, task_fault, tasks_fault, signatures_fault, all_fault};
ghost use Rattle.canvas_semantics.specs.Tree.{chain};
ghost use Rattle.canvas_values.specs.SignatureView.{task_view, view, tasks_of, trees_of};
ghost use Rattle.canvas_values.specs.Writable.{TaskComposed, TasksComposed, IsComposed, AreComposed};

use crate::{Node, SigFault, TaskSig};
use canvas_task::{Arg, in_range, name_ok};
use std::collections::BTreeMap;

fn numbers_fit(numbers: &[i64]) -> bool
    ensures { result ≡ list_all in_range numbers.now }
{
    numbers.iter().all(|number| in_range(*number))
}

fn arg_fits(arg: &Arg) -> bool
    ensures { result ≡ arg_ok arg.now }
{
    match arg {
        Arg::Num(number) => in_range(*number),
        Arg::List(numbers) => numbers_fit(numbers.get()),
        Arg::Text(_) => true,
    }
}

/// Returns whether each number in the arguments is in range.
pub fn args_fit(args: &[Arg]) -> bool
    ensures { result ≡ list_all arg_ok args.now }
{
    args.iter().all(|arg| arg_fits(arg))
}

/// Returns whether each number in keyword arguments is in range. Its contract also says that their
/// names ascend.
pub fn kwargs_fit(kwargs: &BTreeMap<String, Arg>) -> bool
    ensures fit { result ≡ list_all (λ e. arg_ok e.1) (named kwargs.now.entries) }
    ensures ordered { Ascends (named kwargs.now.entries) }
{
    for (_name, arg) in kwargs.iter() {
        if !arg_fits(arg) {
            return false;
        }
    }
    true
}

fn check_call(sig: &TaskSig) -> Result<(), SigFault>
    ensures fault { refusal_of result ≡ call_fault (its_call (task_view sig.now)) }
    ensures ordered { OnOk result (Ascends (its_call (task_view sig.now)).kwargs) }
{
    if !name_ok(sig.name.get()) {
        return Err(SigFault::NotSignature);
    }
    if !args_fit(sig.args.get()) || !kwargs_fit(sig.kwargs.get()) {
        return Err(SigFault::BadNumber);
    }
    Ok(())
}

#[cycle(check_task)]
fn check_task(sig: &TaskSig) -> Result<(), SigFault>
    ensures fault { refusal_of result ≡ task_fault (task_view sig.now) }
    ensures composed { OnOk result (TaskComposed (task_view sig.now)) }
{
    check_call(sig)?;
    check_tasks(sig.links.get())?;
    check_tasks(sig.errbacks.get())
}

#[cycle(check_task)]
fn check_tasks(sigs: &[TaskSig]) -> Result<(), SigFault>
    ensures fault { refusal_of result ≡ tasks_fault (tasks_of (map task_view sigs.now)) }
    ensures composed { OnOk result (TasksComposed (tasks_of (map task_view sigs.now))) }
{
    for sig in sigs {
        check_task(sig)?;
    }
    Ok(())
}

/// Checks a signature, and then those nested in it.
#[cycle(check_node)]
pub(crate) fn check_node(node: &Node) -> Result<(), SigFault>
    ensures fault { refusal_of result ≡ signatures_fault (view node.now) }
    ensures composed { OnOk result (IsComposed (view node.now)) }
{
    match node {
        Node::Task(sig) => check_task(sig),
        Node::Chain(nodes) => check_chain(nodes.get()),
        Node::Group(nodes) => check_nodes(nodes.get()),
        Node::Chord { header, body } => {
            check_nodes(header.get())?;
            check_node(body)
        }
    }
}

#[cycle(check_node)]
fn check_chain(nodes: &[Node]) -> Result<(), SigFault>
    ensures fault { refusal_of result ≡ signatures_fault (chain (trees_of (map view nodes.now))) }
    ensures composed { OnOk result (IsComposed (chain (trees_of (map view nodes.now)))) }
{
    if nodes.is_empty() {
        return Err(SigFault::EmptyChain);
    }
    check_nodes(nodes)
}

#[cycle(check_node)]
fn check_nodes(nodes: &[Node]) -> Result<(), SigFault>
    ensures fault { refusal_of result ≡ all_fault (trees_of (map view nodes.now)) }
    ensures composed { OnOk result (AreComposed (trees_of (map view nodes.now))) }
{
    for node in nodes {
        check_node(node)?;
    }
    Ok(())
}
