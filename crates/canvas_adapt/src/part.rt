//! The parts of a signature that contain signatures.

use crate::inherited::values_in;
use crate::member::set_inner;
use bumpalo::Bump;
use canvas_sig::SigFault;
use canvas_sig::parts::{Datum, is_list, kwarg_of, option_of};
use canvas_values::Primitive;

/// A part of a signature that contains signatures.
#[derive(Clone, Copy)]
pub(crate) enum Part {
    /// Callbacks, under this name in the options.
    Callbacks(&'static str),
    /// The signatures under this name in the keyword arguments of a chain, group or chord.
    Inner(&'static str),
}

static OF_TASK: [Part; 2] = [Part::Callbacks("link"), Part::Callbacks("link_error")];

static OF_LIST: [Part; 1] = [Part::Inner("tasks")];

static OF_CHORD: [Part; 2] = [Part::Inner("header"), Part::Inner("body")];

/// Returns the parts for callbacks, which any signature may have.
pub(crate) fn callback_parts() -> &'static [Part] {
    &OF_TASK
}

/// Returns the parts of a chain, group or chord, in the order of their tasks' numbers.
pub(crate) fn inner_parts(primitive: Option<Primitive>) -> &'static [Part] {
    match primitive {
        Some(Primitive::Chain | Primitive::Group) => &OF_LIST,
        Some(Primitive::Chord) => &OF_CHORD,
        _ => &[],
    }
}

/// Returns the signatures of a part: a list, a single one, or none.
pub(crate) fn values_at<'a>(value: &Datum<'a>, part: Part) -> &'a [Datum<'a>] {
    match part {
        Part::Callbacks(name) => values_in(option_of(value, name)),
        Part::Inner(name) => values_in(kwarg_of(value, name)),
    }
}

/// Returns a list of signatures, or a single one if it was written without a list.
fn list_or_one<'a>(written: Option<&Datum<'a>>, values: &'a [Datum<'a>]) -> Datum<'a> {
    match values {
        [one] if !is_list(written) => *one,
        _ => Datum::List(values),
    }
}

/// Sets the signatures of a part. Callbacks are always a list.
pub(crate) fn set_values<'a>(
    arena: &'a Bump,
    value: &mut Datum<'a>,
    part: Part,
    values: &'a [Datum<'a>],
) -> Result<(), SigFault> {
    match part {
        Part::Callbacks(name) => set_inner(arena, value, "options", name, &Datum::List(values)),
        Part::Inner(name) => {
            let inner = list_or_one(kwarg_of(value, name), values);
            set_inner(arena, value, "kwargs", name, &inner)
        }
    }
}
