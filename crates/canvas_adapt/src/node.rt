//! Adapting chains, groups and chords.

use crate::arena_vec::ArenaVec;
use crate::changes::Change;
use crate::context::Context;
use crate::inherited::Inherited;
use crate::member::{drop_callbacks, set_inner};
use crate::shape::{Shape, form_of};
use canvas_sig::SigFault;
use canvas_sig::parts::{Datum, MOST_LEVELS, is_list, kwarg_of, listed, own_fault};
use std::slice;

/// Returns the members by which the outer group replaces a member: those of a group, and of a chain
/// whose only element is one. A value with a fault of its own stays unchanged, and is refused.
#[cycle(unrolled)]
fn unrolled<'a>(value: &Datum<'a>, left: u32) -> Option<&'a [Datum<'a>]> {
    if left == 0 || own_fault(value, false).is_some() {
        return None;
    }
    match form_of(value) {
        Shape::Group => Some(listed(kwarg_of(value, "tasks"))),
        Shape::Chain => unrolled_one(listed(kwarg_of(value, "tasks")), left - 1),
        _ => None,
    }
}

#[cycle(unrolled)]
fn unrolled_one<'a>(elements: &'a [Datum<'a>], left: u32) -> Option<&'a [Datum<'a>]> {
    if elements.len() != 1 {
        return None;
    }
    unrolled(&elements[0], left)
}

/// Appends values in reverse order.
fn add_turned<'a>(
    made: &mut ArenaVec<'a, Datum<'a>>,
    values: &'a [Datum<'a>],
) -> Result<(), SigFault> {
    for value in values.iter().rev() {
        made.push(*value)?;
    }
    Ok(())
}

/// The place of signatures in a chain, group or chord.
#[derive(Clone, Copy)]
enum Place {
    /// The elements of a chain.
    Elements,
    /// The members of a group.
    Members,
    /// The members of a header that is a list.
    Header,
    /// A header that is a signature.
    HeaderGroup,
    Body,
}

impl Place {
    fn name(self) -> &'static str {
        match self {
            Place::Elements | Place::Members => "tasks",
            Place::Header | Place::HeaderGroup => "header",
            Place::Body => "body",
        }
    }

    fn is_alone(self) -> bool {
        matches!(self, Place::HeaderGroup | Place::Body)
    }
}

/// Returns the signatures at a place.
fn values_at<'a>(value: &Datum<'a>, place: Place) -> &'a [Datum<'a>] {
    let found = kwarg_of(value, place.name());
    if !place.is_alone() {
        return listed(found);
    }
    match found {
        Some(one) => slice::from_ref(one),
        None => &[],
    }
}

/// Returns the new value of a place.
fn made_of<'a>(place: Place, values: &'a [Datum<'a>]) -> Datum<'a> {
    match values {
        [one] if place.is_alone() => *one,
        _ => Datum::List(values),
    }
}

/// Returns the context of a signature at a place.
fn given_at<'a>(given: &Inherited<'a>, place: Place, is_last: bool) -> Inherited<'a> {
    match place {
        Place::Elements => given.of_element(is_last),
        _ => given.of_part(place.is_alone()),
    }
}

/// Returns the place of a chord's header.
fn place_of_header(value: &Datum<'_>) -> Place {
    if is_list(kwarg_of(value, "header")) {
        return Place::Header;
    }
    Place::HeaderGroup
}

impl<'a> Context<'a> {
    /// Appends a member to those of a group. A group in it is replaced by its members, in reverse
    /// order if Celery freezes the outer group.
    fn add_member(
        &mut self,
        made: &mut ArenaVec<'a, Datum<'a>>,
        written: &Datum<'a>,
        adapted: &Datum<'a>,
        is_frozen: bool,
    ) -> Result<(), SigFault> {
        let Some(values) = unrolled(adapted, MOST_LEVELS) else {
            return made.push(*adapted);
        };
        match form_of(written) {
            Shape::Calls => made.push_all(values),
            Shape::Group if is_frozen => {
                self.count(Change::Group, 1);
                add_turned(made, values)
            }
            _ => {
                self.count(Change::Group, 1);
                made.push_all(values)
            }
        }
    }

    /// Appends the members of a group.
    fn add_members(
        &mut self,
        made: &mut ArenaVec<'a, Datum<'a>>,
        written: &[Datum<'a>],
        adapted: &[Datum<'a>],
        is_frozen: bool,
    ) -> Result<(), SigFault> {
        for (index, value) in adapted.iter().enumerate() {
            if let Some(written) = written.get(index) {
                self.add_member(made, written, value, is_frozen)?;
            }
        }
        Ok(())
    }

    /// Returns the adapted signatures at a place. Groups among the members of a group are replaced
    /// by their members.
    fn unrolled_at(
        &mut self,
        value: &Datum<'a>,
        place: Place,
        is_frozen: bool,
        adapted: &'a [Datum<'a>],
    ) -> Result<&'a [Datum<'a>], SigFault> {
        if !matches!(place, Place::Members | Place::Header) {
            return Ok(adapted);
        }
        let mut made = ArenaVec::new(self.arena);
        self.add_members(&mut made, values_at(value, place), adapted, is_frozen)?;
        Ok(made.done())
    }

    /// Sets the adapted signatures at a place, and removes the signature's own callbacks.
    fn set_adapted(
        &mut self,
        value: &mut Datum<'a>,
        place: Place,
        is_frozen: bool,
        adapted: &'a [Datum<'a>],
    ) -> Result<(), SigFault> {
        let values = self.unrolled_at(value, place, is_frozen, adapted)?;
        drop_callbacks(self.arena, value)?;
        set_inner(
            self.arena,
            value,
            "kwargs",
            place.name(),
            &made_of(place, values),
        )
    }

    /// Adapts the signatures at a place of a chain, group or chord.
    #[cycle(node)]
    fn adapt_inner(
        &mut self,
        value: &mut Datum<'a>,
        place: Place,
        given: &Inherited<'a>,
        left: u32,
    ) -> Result<(), SigFault> {
        let adapted = self.arena.try_alloc_slice_copy(values_at(value, place))?;
        let mut behind = adapted.len();
        for inner in adapted.iter_mut() {
            behind = behind.saturating_sub(1);
            self.adapt_node(inner, &given_at(given, place, behind == 0), left)?;
        }
        self.set_adapted(value, place, given.is_frozen, adapted)
    }

    /// Adapts a chain, group or chord in its context.
    #[cycle(node)]
    fn adapt_parts(
        &mut self,
        value: &mut Datum<'a>,
        form: Shape,
        given: &Inherited<'a>,
        left: u32,
    ) -> Result<(), SigFault> {
        let given = self.with_own(value, given, left)?;
        match form {
            Shape::Chain => self.adapt_inner(value, Place::Elements, &given, left),
            Shape::Group => self.adapt_inner(value, Place::Members, &given, left),
            _ => {
                let place = place_of_header(value);
                self.adapt_inner(value, place, &Inherited::none().of_part(true), left)?;
                self.adapt_inner(value, Place::Body, &given, left)
            }
        }
    }

    /// Adapts a signature in its context. Signatures in it nest at most `left` deep.
    #[cycle(node)]
    pub(crate) fn adapt_node(
        &mut self,
        value: &mut Datum<'a>,
        given: &Inherited<'a>,
        left: u32,
    ) -> Result<(), SigFault> {
        if left == 0 {
            return Ok(());
        }
        match form_of(value) {
            Shape::Task => self.adapt_task(value, given, left - 1),
            Shape::Calls => self.adapt_calls(value, given, left - 1),
            Shape::Group => self.adapt_parts(value, Shape::Group, &given.of_group(), left - 1),
            Shape::Other => Ok(()),
            form => self.adapt_parts(value, form, given, left - 1),
        }
    }
}
