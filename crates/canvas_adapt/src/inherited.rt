//! The callbacks that tasks inherit from the signatures around them.

use crate::arena_vec::ArenaVec;
use crate::context::Context;
use crate::text::{MOST_WRITTEN, room_behind};
use canvas_sig::parts::{Datum, option_of};
use canvas_sig::{MOST_BYTES, SigFault};
use std::slice;

/// A callback of a chain, group or chord.
#[derive(Clone, Copy, Drop)]
pub(crate) struct Callback<'a> {
    /// The callback as written, by which duplicates are found.
    written: &'a Datum<'a>,
    pub(crate) adapted: &'a Datum<'a>,
    /// The greatest number of steps that a comparison with it takes.
    weight: usize,
}

impl<'a> Callback<'a> {
    pub(crate) fn new(written: &'a Datum<'a>, adapted: &'a Datum<'a>) -> Callback<'a> {
        Callback {
            written,
            adapted,
            weight: weight_of(written, MOST_BYTES),
        }
    }
}

/// The context of a signature: the inherited callbacks, and its position.
#[derive(Clone, Copy, Drop)]
pub(crate) struct Inherited<'a> {
    pub(crate) links: &'a [Callback<'a>],
    pub(crate) errbacks: &'a [Callback<'a>],
    /// Whether something follows it, so that a group is the header of a chord.
    pub(crate) is_followed: bool,
    /// Whether Celery freezes it before it starts, so that a group reverses the members of groups
    /// in it.
    pub(crate) is_frozen: bool,
}

impl<'a> Inherited<'a> {
    /// Returns the context of a whole canvas.
    pub(crate) fn none() -> Inherited<'a> {
        Inherited {
            links: &[],
            errbacks: &[],
            is_followed: false,
            is_frozen: false,
        }
    }

    /// Returns the context of a chain's element. Only the last one inherits the links of the chain.
    pub(crate) fn of_element(&self, is_last: bool) -> Inherited<'a> {
        Inherited {
            links: if is_last { self.links } else { &[] },
            errbacks: self.errbacks,
            is_followed: self.is_followed || !is_last,
            is_frozen: true,
        }
    }

    /// Returns the context of a group. If something follows it, its members inherit nothing.
    pub(crate) fn of_group(&self) -> Inherited<'a> {
        if self.is_followed {
            return Inherited {
                is_frozen: self.is_frozen,
                ..Inherited::none()
            };
        }
        *self
    }

    /// Returns the context of a member of a group, or of a body.
    pub(crate) fn of_part(&self, is_frozen: bool) -> Inherited<'a> {
        Inherited { is_frozen, ..*self }
    }
}

/// Returns the signatures of a member: a list, a single one, or none.
pub(crate) fn values_in<'a>(field: Option<&'a Datum<'a>>) -> &'a [Datum<'a>] {
    match field {
        Some(Datum::List(values)) => values,
        Some(one @ Datum::Object(_)) => slice::from_ref(one),
        _ => &[],
    }
}

/// Returns a signature's own callbacks of this name.
pub(crate) fn callbacks_of<'a>(value: &Datum<'a>, name: &str) -> &'a [Datum<'a>] {
    values_in(option_of(value, name))
}

/// Returns whether two values that are neither lists nor objects are equal.
fn is_same_leaf(one: &Datum<'_>, other: &Datum<'_>) -> bool {
    match (one, other) {
        (Datum::Null, Datum::Null) => true,
        (Datum::Bool(one), Datum::Bool(other)) => one == other,
        (Datum::Number(one), Datum::Number(other)) => one == other,
        (Datum::Text(one), Datum::Text(other)) => one == other,
        _ => false,
    }
}

#[cycle(same)]
fn is_same(one: &Datum<'_>, other: &Datum<'_>, left: u32) -> bool {
    if left == 0 {
        return false;
    }
    match (one, other) {
        (Datum::List(one), Datum::List(other)) => are_same_items(one, other, left - 1),
        (Datum::Object(one), Datum::Object(other)) => are_same_members(one, other, left - 1),
        _ => is_same_leaf(one, other),
    }
}

#[cycle(same)]
fn are_same_items(one: &[Datum<'_>], other: &[Datum<'_>], left: u32) -> bool {
    if one.len() != other.len() {
        return false;
    }
    for (index, value) in one.iter().enumerate() {
        let Some(found) = other.get(index) else {
            return false;
        };
        if !is_same(value, found, left) {
            return false;
        }
    }
    true
}

#[cycle(same)]
fn are_same_members(one: &[(&str, Datum<'_>)], other: &[(&str, Datum<'_>)], left: u32) -> bool {
    if one.len() != other.len() {
        return false;
    }
    for (index, member) in one.iter().enumerate() {
        let Some(found) = other.get(index) else {
            return false;
        };
        if member.0 != found.0 || !is_same(&member.1, &found.1, left) {
            return false;
        }
    }
    true
}

/// Returns the number of steps of a comparison with a value, at most `most`.
pub(crate) fn weight_of(value: &Datum<'_>, most: usize) -> usize {
    match room_behind(value, most, MOST_WRITTEN) {
        Some(room) => most.saturating_sub(room),
        None => most,
    }
}

impl<'a> Context<'a> {
    /// Returns whether a value, whose weight is given, is among others.
    fn has(
        &mut self,
        values: &[Datum<'a>],
        wanted: &Datum<'a>,
        weight: usize,
    ) -> Result<bool, SigFault> {
        for value in values {
            self.step(weight_of(value, weight))?;
            if is_same(value, wanted, MOST_WRITTEN) {
                return Ok(true);
            }
        }
        Ok(false)
    }

    /// Appends a value, unless an equal one is there.
    pub(crate) fn add_new(
        &mut self,
        made: &mut ArenaVec<'a, Datum<'a>>,
        value: &Datum<'a>,
    ) -> Result<(), SigFault> {
        if self.has(made.get(), value, weight_of(value, MOST_BYTES))? {
            return Ok(());
        }
        made.push(*value)
    }

    /// Removes duplicates: the first of equal values remains.
    pub(crate) fn once(&mut self, values: &'a [Datum<'a>]) -> Result<&'a [Datum<'a>], SigFault> {
        let mut made = ArenaVec::new(self.arena);
        for value in values {
            self.add_new(&mut made, value)?;
        }
        Ok(made.done())
    }

    /// Returns the callbacks that aren't among some values, so that none is given twice.
    pub(crate) fn not_among(
        &mut self,
        given: &'a [Callback<'a>],
        values: &[Datum<'a>],
    ) -> Result<&'a [Callback<'a>], SigFault> {
        if values.is_empty() {
            return Ok(given);
        }
        self.step_copies(given.len())?;
        let mut made = ArenaVec::new(self.arena);
        for callback in given {
            if !self.has(values, callback.written, callback.weight)? {
                made.push(*callback)?;
            }
        }
        Ok(made.done())
    }

    /// Returns callbacks, followed by others.
    pub(crate) fn joined(
        &mut self,
        own: &'a [Callback<'a>],
        given: &'a [Callback<'a>],
    ) -> Result<&'a [Callback<'a>], SigFault> {
        if own.is_empty() {
            return Ok(given);
        }
        self.step_copies(own.len().saturating_add(given.len()))?;
        let mut made = ArenaVec::new(self.arena);
        made.push_all(own)?;
        made.push_all(given)?;
        Ok(made.done())
    }
}
