//! Finding the place where a text is refused.

ghost use Rattle.std.specs.Prelude.{◌≡◌, ◌≤◌, IfOk};
ghost use Rattle.std.specs.Option.{option_map};
ghost use Rattle.serde_json.specs.Data.{depth};
ghost use Rattle.canvas_sig.specs.Datum.{view};
ghost use Rattle.canvas_values.specs.declared.fault.SigFault.TheVariants.{TooDeep, TooLarge};
ghost use Rattle.canvas_check.specs.Places.{shown};
ghost use Rattle.canvas_check.specs.Limits.{place_of};
ghost use Rattle.canvas_check.specs.declared.finding.Spot.TheVariants.{Text};
ghost use Rattle.canvas_check.specs.Finding.{IsFound, IsSpot, IsJsonSpot, StandsAt};

use crate::limits::{Wanted, first_past, first_wanted};
use crate::listing::{Place, places_of};
use crate::notes::note_of;
use crate::step::{Step, read_indices};
use bumpalo::Bump;
use canvas_semantics::{MOST_GROUPS, MOST_TASKS};
use canvas_sig::parts::{Datum, MOST_LEVELS, is_name, parse, text_of};
use canvas_sig::{SigFault, read_canvas};
use canvas_task::Memory;
use json::Scratch;
use serde_json::Value;
use std::alloc::{AllocError, Global};

/// A place in a text.
#[derive(Drop)]
pub enum Spot {
    /// The text as a whole.
    Text,
    /// The place where a text stops being JSON: its line and column, counted from 1.
    Json { line: usize, column: usize },
    /// A signature, given by the steps that lead to it. A missing body is a fault of its chord.
    Signature(Vec<Step>),
}

/// The refusal of a text, and its place.
#[derive(Drop)]
pub struct Finding {
    pub fault: SigFault,
    pub spot: Spot,
    /// The task that the signature there names, if that is a name.
    pub name: Option<String>,
    /// The found and the wanted value, in one line.
    pub note: String,
}

/// Returns the first signature of a text that has a refusal, or that exceeds its limit.
fn place_of<'v>(
    alloc: Global,
    value: &'v Datum<'v>,
    fault: SigFault,
    left: u32,
) -> Result<Option<Place<'v>>, AllocError>
    requires { depth (view value.now) ≤ left }
    ensures { IfOk result (λ o. option_map shown o ≡ place_of fault (view value.entry.now)) }
{
    match fault {
        SigFault::TooLarge => Ok(None),
        SigFault::NotJson => Ok(None),
        SigFault::Memory => Ok(None),
        SigFault::NestedGroup => {
            Ok(first_wanted(places_of(alloc, value, left)?, Wanted::Nested))
        }
        SigFault::TooDeep => first_too_deep(alloc, value, left),
        SigFault::TooMany => {
            let places = places_of(alloc, value, left)?;
            Ok(first_past(places, MOST_TASKS, MOST_GROUPS))
        }
        _ => Ok(first_wanted(places_of(alloc, value, left)?, Wanted::Refused)),
    }
}

/// Returns the first signature that is nested too deep, or the whole canvas if there is none: then
/// the depth is exceeded only in a message of the run, and the whole canvas is the first to exceed
/// it.
fn first_too_deep<'v>(
    alloc: Global,
    value: &'v Datum<'v>,
    left: u32,
) -> Result<Option<Place<'v>>, AllocError>
    requires { depth (view value.now) ≤ left }
    ensures { IfOk result (λ o. option_map shown o ≡ place_of TooDeep (view value.entry.now)) }
{
    match first_wanted(places_of(alloc, value, left)?, Wanted::TooDeep) {
        Some(place) => Ok(Some(place)),
        None => Ok(Some(Place {
            steps: Vec::new(alloc),
            is_linked: false,
            value,
        })),
    }
}

/// Finds the place of a refusal in a value.
pub(crate) fn find_in(
    alloc: Global,
    value: &Datum<'_>,
    fault: SigFault,
    left: u32,
) -> Result<Finding, AllocError>
    requires { depth (view value.now) ≤ left }
    ensures fault { IfOk result (λ f. f.fault ≡ fault) }
    ensures spot { IfOk result (λ f. IsSpot (view value.now) fault f.spot) }
{
    match place_of(alloc, value, fault, left)? {
        Some(place) => {
            let name = name_in(alloc, place.value)?;
            let note = note_of(alloc, &place, fault)?;
            read_indices(&place.steps);
            Ok(Finding {
                fault,
                spot: Spot::Signature(place.steps),
                name,
                note,
            })
        }
        None => Ok(whole(fault, String::new(alloc))),
    }
}

/// Returns the task that a signature names, if that is a name.
pub(crate) fn name_in(alloc: Global, value: &Datum<'_>) -> Result<Option<String>, AllocError> {
    let task = value.get("task");
    if is_name(task) {
        Ok(Some(text_of(alloc, task)?))
    } else {
        Ok(None)
    }
}

fn whole(fault: SigFault, note: String) -> Finding
    ensures { (result.fault ≡ fault) × (result.spot ≡ Text) }
{
    Finding {
        fault,
        spot: Spot::Text,
        name: None,
        note,
    }
}

pub(crate) fn too_large(alloc: Global) -> Result<Finding, AllocError>
    ensures { IfOk result (λ f. (f.fault ≡ TooLarge) × (f.spot ≡ Text)) }
{
    let note = String::from_str(
        alloc,
        "found more than 1,048,576 bytes, wanted at most as many",
    )?;
    Ok(whole(SigFault::TooLarge, note))
}

/// Returns the message of serde_json without the place, which a finding has separately.
fn reason_of(said: &str) -> &str {
    match said.split_once(" at line ") {
        Some((reason, _place)) => reason,
        None => said,
    }
}

fn json_note(alloc: Global, error: &serde_json::Error) -> Result<String, AllocError> {
    let said = error.to_string(alloc)?;
    let reason = reason_of(&said);
    format!(in alloc; "found no JSON ({reason}), wanted one JSON text in UTF-8")
}

/// Finds the place where a text is not JSON, as serde_json reports it.
pub(crate) fn find_no_json(
    alloc: Global,
    bytes: &[u8],
    fault: SigFault,
) -> Result<Finding, AllocError>
    ensures fault { IfOk result (λ f. f.fault ≡ fault) }
    ensures spot { IfOk result (λ f. IsJsonSpot f.spot) }
{
    let (line, column, note) = match Value::from_slice(alloc, bytes) {
        Ok(_value) => (0, 0, String::new(alloc)),
        Err(error) => (error.line(), error.column(), json_note(alloc, &error)?),
    };
    Ok(Finding {
        fault,
        spot: Spot::Json { line, column },
        name: None,
        note,
    })
}

fn find_parsed<'a>(
    alloc: Global,
    arena: &'a Bump,
    scratch: &'a mut Scratch,
    bytes: &'a [u8],
    fault: SigFault,
) -> Result<Finding, Memory>
    ensures fault { IfOk result (λ f. f.fault ≡ fault) }
    ensures spot { IfOk result (λ f. StandsAt bytes.entry.now fault f.spot) }
{
    match parse(alloc, arena, scratch, bytes) {
        Ok(value) => Ok(find_in(alloc, &value, fault, MOST_LEVELS)?),
        Err(SigFault::Memory) => Err(Memory),
        Err(_) => Ok(find_no_json(alloc, bytes, fault)?),
    }
}

/// Finds the place where a text that isn't too large is refused.
fn find_at(alloc: Global, bytes: &[u8], fault: SigFault) -> Result<Finding, Memory>
    ensures fault { IfOk result (λ f. f.fault ≡ fault) }
    ensures spot { IfOk result (λ f. StandsAt bytes.now fault f.spot) }
{
    let arena = Bump::new(alloc);
    let mut scratch = Scratch::new(alloc);
    find_parsed(alloc, &arena, &mut scratch, bytes, fault)
}

/// Returns the refusal of a text and its place, or None if the text is a canvas. The place of a
/// limit is the first signature that exceeds it: a member that ends in a group; a signature that is
/// too deep, or the whole canvas if it is too deep only in a message; the task, group or chord that
/// is one too many.
pub fn find(alloc: Global, bytes: &[u8]) -> Result<Option<Finding>, Memory>
    ensures { IfOk result (IsFound bytes.now) }
{
    match read_canvas(alloc, bytes) {
        Ok(_canvas) => Ok(None),
        Err(SigFault::Memory) => Err(Memory),
        Err(SigFault::TooLarge) => Ok(Some(too_large(alloc)?)),
        Err(fault) => Ok(Some(find_at(alloc, bytes, fault)?)),
    }
}
