//! Reading the embed of a message's body.

ghost use Rattle.std.specs.Prelude.{◌≡◌, map, reverse};
ghost use Rattle.canvas_sig.specs.Datum.{view, value_at};
ghost use Rattle.canvas_values.specs.Answers.{Gives};
ghost use Rattle.canvas_codec.specs.steps.Elements.{embed_view, reversed_with};
ghost use Rattle.canvas_codec.specs.steps.FrozenReading.{step_reading, last_reading};
ghost use Rattle.canvas_codec.specs.steps.Reading.{embed_ok, embed_reading, chain_reading};
ghost use Rattle.canvas_envelope.specs.MessageView.{rest_seen};

use super::frozen::{read_all_links, read_last, read_place, read_steps};
use super::made::line_of;
use canvas_rewrite::{FrozenLine, FrozenTask, Place};
use canvas_sig::SigFault;
use canvas_sig::parts::{Datum, MOST_LEVELS, is_list_or_null, is_object_or_null, listed};
use canvas_task::ListOf;
use std::alloc::Global;

/// Links, error callbacks, the place of the line, and its rest.
#[derive(Drop)]
pub(crate) struct Embed {
    pub(crate) links: ListOf<FrozenTask>,
    pub(crate) errbacks: ListOf<FrozenTask>,
    pub(crate) place: Option<Place>,
    pub(crate) rest: Option<FrozenLine>,
}

fn embed_ok(embed: &Datum<'_>) -> bool
    ensures { result ≡ embed_ok (view embed.now) }
{
    is_object_or_null(Some(embed))
        && is_list_or_null(embed.get("callbacks"))
        && is_list_or_null(embed.get("errbacks"))
        && is_list_or_null(embed.get("chain"))
}

fn turned(mut tasks: Vec<FrozenTask>) -> Vec<FrozenTask>
    ensures { result.items ≡ reverse tasks.items }
{
    tasks.as_mut_slice().reverse();
    tasks
}

/// Reads a line of which the last element is given first.
fn read_reversed(
    alloc: Global,
    last: &Datum<'_>,
    steps: &[Datum<'_>],
    left: u32,
) -> Result<Option<FrozenLine>, SigFault>
    ensures { Gives rest_seen result (reversed_with (step_reading left) (last_reading left)
        (view last.now) (map view steps.now)) }
{
    let last = read_last(alloc, last, left)?;
    let tasks = turned(read_steps(alloc, steps, left)?);
    Ok(Some(line_of(alloc, tasks, last)?))
}

/// Reads the rest of the line, its last element first.
fn read_rest(alloc: Global, values: &[Datum<'_>]) -> Result<Option<FrozenLine>, SigFault>
    ensures { Gives rest_seen result (chain_reading (map view values.now)) }
{
    match values {
        [] => Ok(None),
        [last, steps @ ..] => read_reversed(alloc, last, steps, MOST_LEVELS),
    }
}

/// Reads the embed. `group` is the identifier of the group of the message's place.
pub(crate) fn read_embed(
    alloc: Global,
    group: Option<&Datum<'_>>,
    embed: &Datum<'_>,
) -> Result<Embed, SigFault>
    ensures { Gives embed_view result (embed_reading (value_at group.entry) (view embed.now)) }
{
    if !embed_ok(embed) {
        return Err(SigFault::BadArgs);
    }
    let links = read_all_links(alloc, listed(embed.get("callbacks")), MOST_LEVELS)?;
    let errbacks = read_all_links(alloc, listed(embed.get("errbacks")), MOST_LEVELS)?;
    let place = read_place(alloc, group, embed.get("chord"), MOST_LEVELS)?;
    let rest = read_rest(alloc, listed(embed.get("chain")))?;
    Ok(Embed {
        links: ListOf::of(links),
        errbacks: ListOf::of(errbacks),
        place,
        rest,
    })
}
