//! Reading signatures, with the signatures nested in them, from JSON values.

ghost use Rattle.std.specs.Prelude.{◌≡◌, map, string_bytes, IfOk, Some};
ghost use Rattle.canvas_sig.specs.Datum.{view, value_at};
ghost use Rattle.canvas_sig.specs.steps.Members.{AreFound};
ghost use Rattle.canvas_values.specs.declared.primitive.Primitive.TheVariants.{Chain, Group, Chord};
ghost use Rattle.canvas_values.specs.Fields.{text_of};
ghost use Rattle.canvas_values.specs.Answers.{Gives, in_turn};
ghost use Rattle.canvas_values.specs.steps.Reading.{task_with, linked_with, task_reading, header_reading, tree_as, tree_with, tree_reading};
ghost use Rattle.canvas_values.specs.Grammar.{members_in};
ghost use Rattle.canvas_values.specs.SignatureView.{task_view, trees_of, view as tree_view};

use crate::arguments::{read_args, read_kwargs};
use crate::datum::Datum;
use crate::fields::{as_list, is_list, is_true, listed, or_null};
use crate::members::Members;
use crate::own_fault::first_fault;
use crate::primitive::primitive_of;
use canvas_task::{ListOf, MapOf, TextOf};
use canvas_values::{Node, Primitive, SigFault, TaskSig};
use std::alloc::{AllocError, Global};

/// The greatest room that is reserved at once for a list of signatures: no accepted canvas has more
/// in one list, and a list of half a million other values is refused at its first.
const MOST_ROOM: usize = 1_024;

/// Returns the text of a name, which is empty if there is none.
pub fn text_of(alloc: Global, field: Option<&Datum<'_>>) -> Result<String, AllocError>
    ensures { IfOk result (λ s. string_bytes s ≡ text_of (value_at field.entry)) }
{
    match field {
        Some(Datum::Text(text)) => String::from_str(alloc, text),
        _ => Ok(String::new(alloc)),
    }
}

/// Reads a link or an error callback; signatures in it nest at most `left` deep.
#[cycle(read_task)]
#[tactic(auto, using(crate::proofs::Level::task_level_below))]
fn read_linked(alloc: Global, value: &Datum<'_>, left: u32) -> Result<TaskSig, SigFault>
    ensures { Gives task_view result (task_reading left (view value.now)) }
{
    if left == 0 {
        return Err(SigFault::TooDeep);
    }
    let members = Members::of(&*value);
    read_checked_link(alloc, &members, left - 1)
}

#[cycle(read_task)]
#[tactic(auto, using(crate::proofs::Level::fails_with))]
fn read_checked_link(alloc: Global, members: &Members<'_>, left: u32) -> Result<TaskSig, SigFault>
    requires { AreFound members.now }
    ensures { Gives task_view result
        (linked_with (task_reading left) (view members.now.value.now)) }
{
    match first_fault(members, true) {
        Some(fault) => Err(fault),
        None => read_task(alloc, members, left),
    }
}

/// Reads a task from a value without a fault of its own.
#[cycle(read_task)]
fn read_task(alloc: Global, members: &Members<'_>, left: u32) -> Result<TaskSig, SigFault>
    requires { AreFound members.now }
    ensures { Gives task_view result (task_with (task_reading left) (view members.now.value.now)) }
{
    let args = read_args(alloc, listed(members.args))?;
    let kwargs = read_kwargs(alloc, members.kwargs)?;
    let links = read_all_linked(alloc, as_list(members.link), left)?;
    let errbacks = read_all_linked(alloc, as_list(members.link_error), left)?;
    let name = text_of(alloc, members.task)?;
    Ok(TaskSig {
        name: TextOf::of(name),
        args: ListOf::of(args),
        kwargs: MapOf::of(kwargs),
        immutable: is_true(members.immutable),
        links: ListOf::of(links),
        errbacks: ListOf::of(errbacks),
    })
}

#[cycle(read_task)]
fn read_all_linked(alloc: Global, values: &[Datum<'_>], left: u32) -> Result<Vec<TaskSig>, SigFault>
    ensures { Gives (λ v. map task_view v.items) result
        (in_turn (task_reading left) (map view values.now)) }
{
    let mut tasks = Vec::with_capacity(alloc, values.len().min(MOST_ROOM))?;
    for value in values {
        tasks.push(read_linked(alloc, value, left)?)?;
    }
    Ok(tasks)
}

/// Returns the members of a group. Any other node has none.
fn members_in(alloc: Global, node: Node) -> Vec<Node>
    ensures { trees_of (map tree_view result.items) ≡ members_in (tree_view node) }
{
    match node {
        Node::Group(members) => members.into_plain(),
        _ => Vec::new(alloc),
    }
}

/// Reads a canvas from a value; signatures in it nest at most `left` deep.
#[cycle(read_node)]
#[tactic(auto, using(crate::proofs::Level::tree_level_below))]
pub fn read_node(alloc: Global, value: &Datum<'_>, left: u32) -> Result<Node, SigFault>
    ensures { Gives tree_view result (tree_reading left (view value.now)) }
{
    if left == 0 {
        return Err(SigFault::TooDeep);
    }
    let members = Members::of(&*value);
    read_checked(alloc, &members, left - 1)
}

#[cycle(read_node)]
#[tactic(auto, using(crate::proofs::Level::fails_with))]
fn read_checked(alloc: Global, members: &Members<'_>, left: u32) -> Result<Node, SigFault>
    requires { AreFound members.now }
    ensures { Gives tree_view result
        (tree_with (task_reading left) (tree_reading left) (view members.now.value.now)) }
{
    match first_fault(members, false) {
        Some(fault) => Err(fault),
        None => read_as(alloc, members, primitive_of(members.subtask_type), left),
    }
}

/// Reads a signature of a kind from a value without a fault of its own.
#[cycle(read_node)]
fn read_as(
    alloc: Global,
    members: &Members<'_>,
    primitive: Option<Primitive>,
    left: u32,
) -> Result<Node, SigFault>
    requires { AreFound members.now }
    ensures { Gives tree_view result
        (tree_as (task_reading left) (tree_reading left) primitive (view members.now.value.now)) }
{
    match primitive {
        Some(Primitive::Chain) => read_chain(alloc, members, left),
        Some(Primitive::Group) => read_group(alloc, members, left),
        Some(Primitive::Chord) => read_chord(alloc, members, left),
        _ => Ok(Node::Task(read_task(alloc, members, left)?)),
    }
}

#[cycle(read_node)]
fn read_chain(alloc: Global, members: &Members<'_>, left: u32) -> Result<Node, SigFault>
    requires { AreFound members.now }
    ensures { Gives tree_view result (tree_as (task_reading left) (tree_reading left)
        (Some Chain) (view members.now.value.now)) }
{
    let nodes = read_all(alloc, listed(members.kwarg("tasks")), left)?;
    Ok(Node::Chain(ListOf::of(nodes)))
}

#[cycle(read_node)]
fn read_group(alloc: Global, members: &Members<'_>, left: u32) -> Result<Node, SigFault>
    requires { AreFound members.now }
    ensures { Gives tree_view result (tree_as (task_reading left) (tree_reading left)
        (Some Group) (view members.now.value.now)) }
{
    let nodes = read_all(alloc, listed(members.kwarg("tasks")), left)?;
    Ok(Node::Group(ListOf::of(nodes)))
}

#[cycle(read_node)]
fn read_chord(alloc: Global, members: &Members<'_>, left: u32) -> Result<Node, SigFault>
    requires { AreFound members.now }
    ensures { Gives tree_view result (tree_as (task_reading left) (tree_reading left)
        (Some Chord) (view members.now.value.now)) }
{
    let header = read_header(alloc, members.kwarg("header"), left)?;
    let body = read_node(alloc, or_null(members.kwarg("body"), &Datum::Null), left)?;
    Ok(Node::Chord {
        header: ListOf::of(header),
        body: Box::new(alloc, body)?,
    })
}

/// Reads the members of a header, which is a list or a single group signature.
#[cycle(read_node)]
fn read_header(alloc: Global, field: Option<&Datum<'_>>, left: u32) -> Result<Vec<Node>, SigFault>
    ensures { Gives (λ v. trees_of (map tree_view v.items)) result
        (header_reading (tree_reading left) (value_at field.entry)) }
{
    if is_list(field) {
        return read_all(alloc, listed(field), left);
    }
    let group = read_node(alloc, or_null(field, &Datum::Null), left)?;
    Ok(members_in(alloc, group))
}

#[cycle(read_node)]
fn read_all(alloc: Global, values: &[Datum<'_>], left: u32) -> Result<Vec<Node>, SigFault>
    ensures { Gives (λ v. map tree_view v.items) result
        (in_turn (tree_reading left) (map view values.now)) }
{
    let mut nodes = Vec::with_capacity(alloc, values.len().min(MOST_ROOM))?;
    for value in values {
        nodes.push(read_node(alloc, value, left)?)?;
    }
    Ok(nodes)
}
