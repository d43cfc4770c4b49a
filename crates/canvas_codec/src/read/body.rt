//! Reading the parts of a body, and the arguments among them.

ghost use Rattle.std.specs.Prelude.{◌≡◌, map};
ghost use Rattle.std.specs.Option.{option_map};
ghost use Rattle.serde_json.specs.Data.{array};
ghost use Rattle.serde_json.specs.View.{items_of};
ghost use Rattle.canvas_sig.specs.Datum.{view};
ghost use Rattle.canvas_values.specs.Answers.{Gives};
ghost use Rattle.canvas_codec.specs.steps.Elements.{parts_view, given_view};
ghost use Rattle.canvas_codec.specs.steps.Reading.{parts_of, given_reading};

use canvas_sig::SigFault;
use canvas_sig::parts::{Datum, is_list, is_object_or_null, listed, read_args, read_kwargs};
use canvas_task::{Arg, ListOf, MapOf};
use std::alloc::Global;

/// The three items of a body.
#[derive(Clone, Copy, Drop)]
pub(crate) struct Parts<'v> {
    pub(crate) args: &'v Datum<'v>,
    pub(crate) kwargs: &'v Datum<'v>,
    pub(crate) embed: &'v Datum<'v>,
}

#[tactic(auto, using(crate::proofs::Made::not_three))]
fn three<'v>(values: &'v [Datum<'v>]) -> Option<Parts<'v>>
    ensures { option_map parts_view result ≡ parts_of (array (items_of (map view values.now))) }
{
    if values.len() != 3 {
        return None;
    }
    Some(Parts {
        args: &values[0],
        kwargs: &values[1],
        embed: &values[2],
    })
}

pub(crate) fn parts_of<'v>(body: &Datum<'v>) -> Option<Parts<'v>>
    ensures { option_map parts_view result ≡ parts_of (view body.now) }
{
    match body {
        Datum::List(values) => three(values),
        _ => None,
    }
}

/// The arguments of a call.
#[derive(Drop)]
pub(crate) struct Given {
    pub(crate) args: ListOf<Arg>,
    pub(crate) kwargs: MapOf<Arg>,
}

pub(crate) fn read_given(
    alloc: Global,
    args: &Datum<'_>,
    kwargs: &Datum<'_>,
) -> Result<Given, SigFault>
    ensures { Gives given_view result (given_reading (view args.now) (view kwargs.now)) }
{
    if !is_list(Some(args)) || !is_object_or_null(Some(kwargs)) {
        return Err(SigFault::BadArgs);
    }
    let args = read_args(alloc, listed(Some(args)))?;
    let kwargs = read_kwargs(alloc, Some(kwargs))?;
    Ok(Given {
        args: ListOf::of(args),
        kwargs: MapOf::of(kwargs),
    })
}
