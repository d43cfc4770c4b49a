//! The signatures of an accepted text, with their ignored parts.

ghost use Rattle.std.specs.Prelude.{◌≡◌, ◌≤◌, IfOk, map};
ghost use Rattle.serde_json.specs.Data.{depth};
ghost use Rattle.canvas_sig.specs.Datum.{view};
ghost use Rattle.canvas_check.specs.FileOrder.{signatures};
ghost use Rattle.canvas_check.specs.Places.{shown};
ghost use Rattle.canvas_check.specs.Signed.{listed, sighted};

use crate::finding::name_in;
use crate::ignored::ignored_in;
use crate::keywords::is_unstarted;
use crate::limits::leads_to_header_group;
use crate::listing::{Place, places_of};
use crate::step::Step;
use canvas_sig::parts::Datum;
use std::alloc::{AllocError, Global};

/// A signature of a text.
#[derive(Drop)]
pub struct Signature {
    /// The steps that lead to it.
    pub steps: Vec<Step>,
    /// The task that it names, if that is a name.
    pub name: Option<String>,
    /// Whether it is the group signature of a header. The canvas has only the members of this
    /// group.
    pub is_header_group: bool,
    /// Whether it is a chord that Celery doesn't start: it has keyword arguments besides its header
    /// and body, but not the `kwargs` that Celery writes there.
    pub is_unstarted: bool,
    /// The names of its ignored options.
    pub ignored: Vec<String>,
}

fn signature_at(alloc: Global, place: Place<'_>) -> Result<Signature, AllocError>
    ensures { IfOk result (λ s. listed s ≡ sighted (shown place.entry)) }
{
    let name = name_in(alloc, place.value)?;
    let ignored = ignored_in(alloc, place.value)?;
    let is_header_group = leads_to_header_group(&place.steps);
    let is_unstarted = is_unstarted(place.value);
    Ok(Signature {
        steps: place.steps,
        name,
        is_header_group,
        is_unstarted,
        ignored,
    })
}

fn signatures_at(alloc: Global, places: Vec<Place<'_>>) -> Result<Vec<Signature>, AllocError>
    ensures { IfOk result (λ found.
        map listed found.items ≡ map sighted (map shown places.entry.items)) }
{
    let mut found = Vec::new(alloc);
    for place in places {
        found.push(signature_at(alloc, place)?)?;
    }
    Ok(found)
}

/// Returns the signatures of a value, in file order.
pub(crate) fn signatures_in(
    alloc: Global,
    value: &Datum<'_>,
    left: u32,
) -> Result<Vec<Signature>, AllocError>
    requires { depth (view value.now) ≤ left }
    ensures { IfOk result (λ found.
        map listed found.items ≡ map sighted (signatures (view value.now))) }
{
    signatures_at(alloc, places_of(alloc, value, left)?)
}
