//! The first signature of a text that is refused, or that exceeds a limit of whole canvases.

ghost use Rattle.std.specs.Prelude.{◌≡◌, ◌≤◌, map, find, false};
ghost use Rattle.std.specs.Option.{option_map, option_copied};
ghost use Rattle.canvas_sig.specs.Datum.{view, value_at};
ghost use Rattle.canvas_check.specs.Places.{shown};
ghost use Rattle.canvas_check.specs.Refused.{is_refused};
ghost use Rattle.canvas_check.specs.Wanted.{is_wanted};
ghost use Rattle.canvas_check.specs.Limits.{kind_of, is_too_deep, steps_to_member, last_of, ends_where, in_some, ends_in_group, is_nested, is_header_group, is_task, is_counted_group, past};

use crate::listing::Place;
use crate::step::{Field, Step};
use canvas_semantics::MOST_NESTING;
use canvas_sig::parts::{Datum, MOST_LEVELS, kwarg_of, listed, own_fault, primitive_of};
use canvas_values::Primitive;

pub(crate) fn kind_of(value: &Datum<'_>) -> Option<Primitive>
    ensures { result ≡ kind_of (view value.now) }
{
    primitive_of(value.get("subtask_type"))
}

fn is_too_deep(place: &Place<'_>) -> bool
    ensures { result ≡ is_too_deep (shown place.now) }
{
    place.steps.iter().filter(|step| step.goes_deeper()).count() >= MOST_NESTING as usize
}

fn leads_to_member(steps: &[Step]) -> bool
    ensures { result ≡ steps_to_member (last_of steps.now) }
{
    match steps.last() {
        Some(step) => match step.field {
            Field::Members => true,
            Field::Header => step.index.is_some(),
            _ => false,
        },
        None => false,
    }
}

pub(crate) fn leads_to_header_group(steps: &[Step]) -> bool
    ensures { result ≡ is_header_group (last_of steps.now) }
{
    match steps.last() {
        Some(step) => !step.goes_deeper(),
        None => false,
    }
}

/// Returns whether the line of a signature ends in a group. It descends at most `left` signatures.
#[cycle(ends)]
#[tactic(auto, using(crate::proofs::Searches::ends_below))]
fn ends_in_group(value: &Datum<'_>, left: u32) -> bool
    ensures { result ≡ ends_in_group left (view value.now) }
{
    if left == 0 {
        return false;
    }
    ends_as(value, kind_of(value), left - 1)
}

#[cycle(ends)]
fn ends_as(value: &Datum<'_>, kind: Option<Primitive>, left: u32) -> bool
    ensures { result ≡ ends_where (ends_in_group left) kind (view value.now) }
{
    match kind {
        Some(Primitive::Group) => true,
        Some(Primitive::Chain) => last_ends(listed(kwarg_of(value, "tasks")), left),
        Some(Primitive::Chord) => body_ends(kwarg_of(value, "body"), left),
        _ => false,
    }
}

#[cycle(ends)]
fn last_ends(values: &[Datum<'_>], left: u32) -> bool
    ensures { result ≡ in_some (ends_in_group left) (last_of (map view values.now)) }
{
    match values.last() {
        Some(last) => ends_in_group(last, left),
        None => false,
    }
}

#[cycle(ends)]
fn body_ends(body: Option<&Datum<'_>>, left: u32) -> bool
    ensures { result ≡ ends_in_group left (value_at body.entry) }
{
    match body {
        Some(body) => ends_in_group(body, left),
        None => ends_in_group(&Datum::Null, left),
    }
}

fn is_nested(place: &Place<'_>) -> bool
    ensures { result ≡ is_nested (shown place.now) }
{
    leads_to_member(&place.steps) && ends_in_group(place.value, MOST_LEVELS)
}

fn is_task(place: &Place<'_>) -> bool
    ensures { result ≡ is_task (shown place.now) }
{
    matches!(kind_of(place.value), Some(Primitive::Task))
}

fn is_counted_group(place: &Place<'_>) -> bool
    ensures { result ≡ is_counted_group (shown place.now) }
{
    match kind_of(place.value) {
        Some(Primitive::Group) => !leads_to_header_group(&place.steps),
        Some(Primitive::Chord) => !leads_to_header_group(&place.steps),
        _ => false,
    }
}

/// The signatures to look for.
#[derive(Clone, Copy, Drop)]
pub(crate) enum Wanted {
    Refused,
    Nested,
    TooDeep,
}

fn is_wanted(place: &Place<'_>, wanted: Wanted) -> bool
    ensures { result ≡ is_wanted wanted (shown place.now) }
{
    match wanted {
        Wanted::Refused => own_fault(place.value, place.is_linked).is_some(),
        Wanted::Nested => is_nested(place),
        Wanted::TooDeep => is_too_deep(place),
    }
}

pub(crate) fn first_wanted(places: Vec<Place<'_>>, wanted: Wanted) -> Option<Place<'_>>
    ensures { option_map shown result ≡ find (is_wanted wanted) (map shown places.entry.items) }
{
    for place in places {
        if is_wanted(&place, wanted) {
            return Some(place);
        }
    }
    None
}

/// Returns the first place that exceeds the given number of tasks or the given number of groups and
/// chords.
pub(crate) fn first_past(listed: Vec<Place<'_>>, tasks: u32, groups: u32) -> Option<Place<'_>>
    ensures { option_map shown result ≡ past tasks groups (map shown listed.entry.items) }
{
    let mut tasks = tasks;
    let mut groups = groups;
    for place in listed {
        if is_task(&place) {
            if tasks == 0 {
                return Some(place);
            }
            tasks -= 1;
        } else if is_counted_group(&place) {
            if groups == 0 {
                return Some(place);
            }
            groups -= 1;
        }
    }
    None
}
