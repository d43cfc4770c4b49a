//! Sorting members by the first bytes of their names, as numbers: most names differ in them.

ghost use Rattle.std.specs.Prelude.{◌≡◌, map, IfOk};
ghost use Rattle.std.specs.List.Sorted.{IsPermutation};

use crate::datum::Datum;
use crate::names::order_of;
use bumpalo::Bump;
use bumpalo::collections::into_bump_slice;
use std::alloc::{AllocError, Global};
use std::cmp::Ordering;

/// The number of bytes of a name that are compared as one number.
const FRONT: usize = 8;

/// A member, with the first bytes of its name as a number.
#[derive(Clone, Copy, Drop)]
struct Fronted<'m, 'a> {
    front: u64,
    member: &'m (&'a str, Datum<'a>),
}

/// Returns the first bytes of a name as a number, with zeros after a shorter name.
fn front_of(name: &str) -> u64 {
    let bytes = name.as_bytes();
    let mut front = 0;
    for index in 0..FRONT {
        let byte = if index < bytes.len() { bytes[index] } else { 0 };
        front = (front << 8) | u64::from(byte);
    }
    front
}

/// Compares two names. No contract depends on the order: callers look whether the names ascend.
fn by_front(left: &Fronted<'_, '_>, right: &Fronted<'_, '_>) -> Ordering {
    if left.front == right.front {
        order_of(left.member.0, right.member.0)
    } else {
        left.front.cmp(&right.front)
    }
}

/// Returns the members with the fronts of their names.
fn with_fronts<'m, 'a>(
    alloc: Global,
    members: &'m [(&'a str, Datum<'a>)],
) -> Result<Vec<Fronted<'m, 'a>>, AllocError>
    ensures { IfOk result (λ v. map (λ f. f.member.now) v.items ≡ members.now) }
{
    let mut fronted = Vec::with_capacity(alloc, members.len())?;
    for member in members {
        fronted.push(Fronted {
            front: front_of(member.0),
            member,
        })?;
    }
    Ok(fronted)
}

/// Returns the members without the fronts of their names.
fn without_fronts<'a>(
    arena: &'a Bump,
    fronted: &[Fronted<'_, 'a>],
) -> Result<&'a [(&'a str, Datum<'a>)], AllocError>
    ensures { IfOk result (λ v. v.now ≡ map (λ f. f.member.now) fronted.now) }
{
    let mut members = Vec::with_capacity(arena, fronted.len())?;
    for one in fronted {
        members.push(*one.member)?;
    }
    Ok(into_bump_slice(members))
}

/// Sorts members by name. Those that have one name come in any order.
pub(crate) fn sorted<'a>(
    alloc: Global,
    arena: &'a Bump,
    members: &[(&'a str, Datum<'a>)],
) -> Result<&'a [(&'a str, Datum<'a>)], AllocError>
    ensures { IfOk result (λ v. IsPermutation members.now v.now) }
{
    let mut fronted = with_fronts(alloc, members)?;
    fronted.sort_unstable_by(by_front);
    without_fronts(arena, &fronted)
}
