//! Reading frozen signatures, with the signatures nested in them, from JSON values. The walk is
//! that of the reader of canvases in `canvas_sig`, but the values have other types, and one generic
//! reader would have longer contracts.

ghost use Rattle.std.specs.Prelude.{◌≡◌, false, true, map, OnOk, IfErr, MatchOption, Some, None};
ghost use Rattle.canvas_sig.specs.Datum.{view, value_at};
ghost use Rattle.canvas_values.specs.Fields.{is_null, listed, tasks, subtype};
ghost use Rattle.canvas_values.specs.Answers.{Gives, ◌or_else◌, unless, in_turn};
ghost use Rattle.canvas_values.specs.Grammar.{own_fault, primitive_of};
ghost use Rattle.canvas_rewrite.specs.FrozenView.{p_task_view, p_line_view, p_end_view};
ghost use Rattle.canvas_envelope.specs.MessageView.{place_seen, carried_view};
ghost use Rattle.canvas_codec.specs.steps.Elements.{element_view, line_with};
ghost use Rattle.canvas_envelope.specs.FrozenGrammar.{but_a_place};
ghost use Rattle.canvas_codec.specs.steps.FrozenReading.{place_with, carried_with, task_with, task_as, group_with, chord_with, header_fault, last_as, elements_with, link_reading, step_reading, last_reading, line_reading};

use super::identifiers::{known_group, known_task, read_size};
use super::made::{Element, line_of};
use canvas_rewrite::{Carried, FrozenEnd, FrozenLine, FrozenTask, Place};
use canvas_sig::SigFault;
use canvas_sig::parts::{
    Datum, as_list, is_list, is_null, is_text, is_true, kwarg_of, listed, option_of, or_null,
    own_fault, primitive_of, read_args, read_kwargs, text_of,
};
use canvas_task::{ListOf, MapOf, TextOf};
use canvas_values::Primitive;
use std::alloc::Global;
use std::sync::Arc;

/// Returns the fault, unless it is that a task has a place.
fn but_a_place(fault: Option<SigFault>) -> Option<SigFault>
    ensures { result ≡ but_a_place fault }
{
    match fault {
        Some(SigFault::Frozen) => None,
        other => other,
    }
}

/// Returns an error if a fault was found.
fn refuse(fault: Option<SigFault>) -> Result<(), SigFault>
    ensures ok { OnOk result (fault ≡ None) }
    ensures err { IfErr result (λ e. fault ≡ Some e) }
{
    match fault {
        Some(fault) => Err(fault),
        None => Ok(()),
    }
}

/// Returns the value of a field, unless it is null or missing.
fn given<'a>(field: Option<&'a Datum<'a>>) -> Option<&'a Datum<'a>>
    ensures { MatchOption result (is_null (value_at field.entry) ≡ true)
        (λ value. (is_null (value_at field.entry) ≡ false)
        × (view value.now ≡ value_at field.entry)) }
{
    match field {
        None | Some(Datum::Null) => None,
        other => other,
    }
}

fn header_fault(value: &Datum<'_>) -> Option<SigFault>
    ensures { result ≡ header_fault (view value.now) }
{
    if is_list(kwarg_of(value, "header")) {
        None
    } else {
        Some(SigFault::BadArgs)
    }
}

/// Reads a link or an error callback; signatures in it nest at most `left` deep.
#[cycle(read)]
#[tactic(auto, using(crate::proofs::Levels::link_level_below))]
pub(crate) fn read_link(alloc: Global, value: &Datum<'_>, left: u32) -> Result<FrozenTask, SigFault>
    ensures { Gives p_task_view result (link_reading left (view value.now)) }
{
    if left == 0 {
        return Err(SigFault::TooDeep);
    }
    read_task(alloc, value, true, left - 1)
}

/// Reads a task; `linked` says that it is a link or an error callback.
#[cycle(read)]
fn read_task(
    alloc: Global,
    value: &Datum<'_>,
    linked: bool,
    left: u32,
) -> Result<FrozenTask, SigFault>
    ensures { Gives p_task_view result
        (task_as linked (link_reading left) (line_reading left) (view value.now)) }
{
    refuse(but_a_place(own_fault(value, linked)))?;
    let no = known_task(option_of(value, "task_id"))?;
    let args = read_args(alloc, listed(value.get("args")))?;
    let kwargs = read_kwargs(alloc, value.get("kwargs"))?;
    let links = read_all_links(alloc, as_list(option_of(value, "link")), left)?;
    let errbacks = read_all_links(alloc, as_list(option_of(value, "link_error")), left)?;
    let group = option_of(value, "group_id");
    let place = read_place(alloc, group, option_of(value, "chord"), left)?;
    let name = text_of(alloc, value.get("task"))?;
    Ok(FrozenTask {
        no,
        name: TextOf::of(name),
        args: ListOf::of(args),
        kwargs: MapOf::of(kwargs),
        immutable: is_true(value.get("immutable")),
        links: ListOf::of(links),
        errbacks: ListOf::of(errbacks),
        place,
    })
}

/// Reads the signatures in a list.
#[cycle(read)]
pub(crate) fn read_all_links(
    alloc: Global,
    values: &[Datum<'_>],
    left: u32,
) -> Result<Vec<FrozenTask>, SigFault>
    ensures { Gives (λ v. map p_task_view v.items) result
        (in_turn (link_reading left) (map view values.now)) }
{
    let mut tasks = Vec::new(alloc);
    for value in values {
        tasks.push(read_link(alloc, value, left)?)?;
    }
    Ok(tasks)
}

/// Reads the place with a group's identifier and a chord's body.
#[cycle(read)]
pub(crate) fn read_place(
    alloc: Global,
    group: Option<&Datum<'_>>,
    body: Option<&Datum<'_>>,
    left: u32,
) -> Result<Option<Place>, SigFault>
    ensures { Gives place_seen result
        (place_with (line_reading left) (value_at group.entry) (value_at body.entry)) }
{
    if is_null(group) {
        if is_null(body) {
            return Ok(None);
        }
        return Err(SigFault::Frozen);
    }
    let group = known_group(group)?;
    match given(body) {
        Some(body) => {
            let carried = read_carried(alloc, body, left)?;
            Ok(Some(Place {
                group,
                chord: Some(carried),
            }))
        }
        None => Ok(Some(Place { group, chord: None })),
    }
}

#[cycle(read)]
fn read_carried(alloc: Global, value: &Datum<'_>, left: u32) -> Result<Carried, SigFault>
    ensures { Gives carried_view result (carried_with (line_reading left) (view value.now)) }
{
    let size = read_size(value.get("chord_size"))?;
    let body = read_line(alloc, value, left)?;
    Ok(Carried {
        size,
        body: Arc::new(alloc, body)?,
    })
}

/// Reads a line, which is one element, or a chain of several.
#[cycle(read)]
#[tactic(auto, using(crate::proofs::Levels::line_level_below))]
pub(crate) fn read_line(alloc: Global, value: &Datum<'_>, left: u32) -> Result<FrozenLine, SigFault>
    ensures { Gives p_line_view result (line_reading left (view value.now)) }
{
    if left == 0 {
        return Err(SigFault::TooDeep);
    }
    if is_text(value.get("subtask_type"), "chain") {
        return read_chain(alloc, value, left - 1);
    }
    let primitive = primitive_of(value.get("subtask_type"));
    let element = read_last_as(alloc, value, primitive, left - 1)?;
    Ok(line_of(alloc, Vec::new(alloc), element)?)
}

#[cycle(read)]
fn read_chain(alloc: Global, value: &Datum<'_>, left: u32) -> Result<FrozenLine, SigFault>
    ensures { Gives p_line_view result (unless (own_fault false (view value.now)) (elements_with
        (step_reading left) (last_reading left) (listed (tasks (view value.now))))) }
{
    refuse(own_fault(value, false))?;
    match listed(kwarg_of(value, "tasks")) {
        [] => Ok(FrozenLine {
            tasks: ListOf::of(Vec::new(alloc)),
            tail: None,
        }),
        [steps @ .., last] => read_parts(alloc, steps, last, left),
    }
}

#[cycle(read)]
fn read_parts(
    alloc: Global,
    steps: &[Datum<'_>],
    last: &Datum<'_>,
    left: u32,
) -> Result<FrozenLine, SigFault>
    ensures { Gives p_line_view result
        (line_with (step_reading left) (last_reading left) (map view steps.now) (view last.now)) }
{
    let tasks = read_steps(alloc, steps, left)?;
    let last = read_last(alloc, last, left)?;
    Ok(line_of(alloc, tasks, last)?)
}

/// Reads the elements of a line other than its last.
#[cycle(read)]
pub(crate) fn read_steps(
    alloc: Global,
    values: &[Datum<'_>],
    left: u32,
) -> Result<Vec<FrozenTask>, SigFault>
    ensures { Gives (λ v. map p_task_view v.items) result
        (in_turn (step_reading left) (map view values.now)) }
{
    let mut tasks = Vec::new(alloc);
    for value in values {
        tasks.push(read_step(alloc, value, left)?)?;
    }
    Ok(tasks)
}

#[cycle(read)]
#[tactic(auto, using(crate::proofs::Levels::step_level_below))]
fn read_step(alloc: Global, value: &Datum<'_>, left: u32) -> Result<FrozenTask, SigFault>
    ensures { Gives p_task_view result (step_reading left (view value.now)) }
{
    if left == 0 {
        return Err(SigFault::TooDeep);
    }
    match primitive_of(value.get("subtask_type")) {
        Some(Primitive::Task) => read_task(alloc, value, false, left - 1),
        _ => Err(SigFault::OnCanvas),
    }
}

/// Reads the last element of a line.
#[cycle(read)]
#[tactic(auto, using(crate::proofs::Levels::last_level_below))]
pub(crate) fn read_last(alloc: Global, value: &Datum<'_>, left: u32) -> Result<Element, SigFault>
    ensures { Gives element_view result (last_reading left (view value.now)) }
{
    if left == 0 {
        return Err(SigFault::TooDeep);
    }
    read_last_as(
        alloc,
        value,
        primitive_of(value.get("subtask_type")),
        left - 1,
    )
}

#[cycle(read)]
fn read_last_as(
    alloc: Global,
    value: &Datum<'_>,
    primitive: Option<Primitive>,
    left: u32,
) -> Result<Element, SigFault>
    ensures { Gives element_view result
        (last_as (link_reading left) (line_reading left) primitive (view value.now)) }
{
    match primitive {
        Some(Primitive::Task) => Ok(Element::Task(read_task(alloc, value, false, left)?)),
        Some(Primitive::Group) => Ok(Element::End(read_group(alloc, value, left)?)),
        Some(Primitive::Chord) => Ok(Element::End(read_chord(alloc, value, left)?)),
        _ => Err(SigFault::OnCanvas),
    }
}

#[cycle(read)]
fn read_group(alloc: Global, value: &Datum<'_>, left: u32) -> Result<FrozenEnd, SigFault>
    ensures { Gives p_end_view result (unless (own_fault false (view value.now))
        (group_with (line_reading left) (view value.now))) }
{
    refuse(own_fault(value, false))?;
    let group = known_group(option_of(value, "group_id"))?;
    let members = read_lines(alloc, listed(kwarg_of(value, "tasks")), left)?;
    Ok(FrozenEnd {
        group,
        members: ListOf::of(members),
        body: None,
    })
}

#[cycle(read)]
fn read_chord(alloc: Global, value: &Datum<'_>, left: u32) -> Result<FrozenEnd, SigFault>
    ensures { Gives p_end_view result (unless
        (own_fault false (view value.now) or_else header_fault (view value.now))
        (chord_with (line_reading left) (view value.now))) }
{
    refuse(own_fault(value, false))?;
    refuse(header_fault(value))?;
    let group = known_group(option_of(value, "group_id"))?;
    let members = read_lines(alloc, listed(kwarg_of(value, "header")), left)?;
    let body = read_line(alloc, or_null(kwarg_of(value, "body"), &Datum::Null), left)?;
    Ok(FrozenEnd {
        group,
        members: ListOf::of(members),
        body: Some(body),
    })
}

#[cycle(read)]
fn read_lines(alloc: Global, values: &[Datum<'_>], left: u32) -> Result<Vec<FrozenLine>, SigFault>
    ensures { Gives (λ v. map p_line_view v.items) result
        (in_turn (line_reading left) (map view values.now)) }
{
    let mut lines = Vec::new(alloc);
    for value in values {
        lines.push(read_line(alloc, value, left)?)?;
    }
    Ok(lines)
}
