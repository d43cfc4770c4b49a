//! Sorting the members of an object by name.

ghost use Rattle.std.specs.Prelude.{◌≡◌, true, IfOk, IfErr, OnOk};
ghost use Rattle.serde_json.specs.Data.{no_members, put};
ghost use Rattle.canvas_sig.specs.Datum.{view, members_view};
ghost use Rattle.canvas_sig.specs.steps.Names.{put_all, StandsAt, BelongsAt};

use crate::datum::{Datum, follows};
use crate::fronts::sorted;
use crate::names::order_of;
use bumpalo::Bump;
use bumpalo::collections::into_bump_slice;
use serde_json::value::Map;
use std::alloc::{AllocError, Global};
use std::cmp::Ordering;

/// The greatest number of members that are inserted one by one, which takes quadratic time. More
/// are sorted at once.
const MOST_PUT: usize = 16;

/// Returns whether the names ascend, so that no name occurs twice. Those of a sorted `json.dumps`,
/// and of this crate's own texts, do.
fn ascends(members: &[(&str, Datum<'_>)]) -> bool
    ensures { result ≡ true → put_all members.now no_members ≡ members_view members.now }
{
    let mut last = None;
    for member in members {
        if !follows(last, member.0) {
            return false;
        }
        last = Some(member.0);
    }
    true
}

/// Returns the index of a name among sorted members, or as an error the index where it belongs.
fn place_of(members: &[(&str, Datum<'_>)], name: &str) -> Result<usize, usize>
    ensures found { IfOk result (λ i. StandsAt members.now name.now i) }
    ensures missing { IfErr result (λ i. BelongsAt members.now name.now i) }
{
    let mut index = 0;
    'members: while index < members.len() {
        match order_of(members[index].0, name) {
            Ordering::Less => index += 1,
            Ordering::Equal => return Ok(index),
            Ordering::Greater => return Err(index),
        }
    }
    Err(index)
}

/// Inserts a member at its place, or replaces the value of its name.
fn put<'a>(
    members: &mut Vec<(&'a str, Datum<'a>), &'a Bump>,
    name: &'a str,
    value: Datum<'a>,
) -> Result<(), AllocError>
    ensures { OnOk result (members_view members.new.items
        ≡ put name.now (view value.entry) (members_view members.old.items)) }
{
    match place_of(members, name) {
        Ok(index) => members[index].1 = value,
        Err(index) => members.insert(index, (name, value))?,
    }
    Ok(())
}

/// Sorts members by inserting them one by one.
fn put_in_order<'a>(
    arena: &'a Bump,
    found: &[(&'a str, Datum<'a>)],
) -> Result<&'a [(&'a str, Datum<'a>)], AllocError>
    ensures { IfOk result (λ v. members_view v.now ≡ put_all found.now no_members) }
{
    let mut members = Vec::with_capacity(arena, found.len())?;
    for member in found {
        put(&mut members, member.0, member.1)?;
    }
    Ok(into_bump_slice(members))
}

/// Sorts members by name. For a duplicate name the last value counts. If there is none, sorted
/// members are in order; if there is one, a map decides.
#[tactic(auto, using(crate::proofs::Permuted::permuted))]
pub(crate) fn in_order<'a>(
    alloc: Global,
    arena: &'a Bump,
    found: &[(&'a str, Datum<'a>)],
) -> Result<&'a [(&'a str, Datum<'a>)], AllocError>
    ensures { IfOk result (λ v. members_view v.now ≡ put_all found.now no_members) }
{
    if ascends(found) {
        return Ok(arena.try_alloc_slice_copy(found)?);
    }
    if found.len() <= MOST_PUT {
        return put_in_order(arena, found);
    }
    let sorted = sorted(alloc, arena, found)?;
    if ascends(sorted) {
        return Ok(sorted);
    }
    let ordered = by_name(alloc, found)?;
    members_of(arena, &ordered)
}

/// Makes a map of members. For a duplicate name it has the last value.
fn by_name<'a>(
    alloc: Global,
    found: &[(&'a str, Datum<'a>)],
) -> Result<Map<&'a str, Datum<'a>>, AllocError>
    ensures { IfOk result (λ m. members_view m.entries ≡ put_all found.now no_members) }
{
    found.iter().copied().collect(alloc)
}

/// Returns the members of a map, in order.
fn members_of<'a>(
    arena: &'a Bump,
    ordered: &Map<&'a str, Datum<'a>>,
) -> Result<&'a [(&'a str, Datum<'a>)], AllocError>
    ensures { IfOk result (λ v. v.now ≡ ordered.now.entries) }
{
    let mut members = Vec::new(arena);
    for (name, value) in ordered.iter() {
        members.push((*name, *value))?;
    }
    Ok(into_bump_slice(members))
}
