//! Arguments of tasks, and functions that clone them.
ghost use Rattle.std.specs.Prelude.{◌≡◌, IfOk};
ghost use Rattle.canvas_task.specs.Entries.{named};

use crate::in_order::{FEW, map_in_order};
use crate::{ListOf, MapOf, TextOf};
use std::alloc::{AllocError, Global};
use std::collections::BTreeMap;

/// An argument of a task.
#[derive(Debug, Drop, PartialEq)]
pub enum Arg {
    /// A whole number, from -2^60 to 2^60 in every canvas.
    Num(i64),
    /// A list of whole numbers, also from -2^60 to 2^60 in every canvas. It may be empty.
    List(ListOf<i64>),
    /// A text in UTF-8.
    Text(TextOf),
}

impl Clone for Arg {
    ghost is_clone = { λ a b. b ≡ a };

    fn clone(&self) -> Result<Arg, AllocError> {
        match self {
            Arg::Num(n) => Ok(Arg::Num(*n)),
            Arg::List(ns) => Ok(Arg::List(ns.clone()?)),
            Arg::Text(t) => Ok(Arg::Text(t.clone()?)),
        }
    }
}

/// Clones a list of arguments.
pub fn copy_args(args: &ListOf<Arg>) -> Result<ListOf<Arg>, AllocError>
    ensures { IfOk result (λ copy. copy ≡ args.now) }
{
    args.clone()
}

/// Clones a map by inserting its entries one by one. `clone` of std's map may fail for another
/// reason than an allocation.
fn copy_few(alloc: Global, map: &BTreeMap<String, Arg>) -> Result<BTreeMap<String, Arg>, AllocError>
    ensures { IfOk result (λ copy. named copy.entries ≡ named map.now.entries) }
{
    let mut copy = BTreeMap::new(alloc);
    for (name, arg) in map.iter() {
        let key = name.clone()?;
        drop(copy.insert(key, arg.clone()?)?);
    }
    Ok(copy)
}

/// Clones the entries of a map, in order.
fn copy_entries(
    alloc: Global,
    map: &BTreeMap<String, Arg>,
) -> Result<Vec<(String, Arg)>, AllocError>
    ensures { IfOk result (λ copy. named copy.items ≡ named map.now.entries) }
{
    let mut copy = Vec::with_capacity(alloc, map.len())?;
    for (name, arg) in map.iter() {
        let key = name.clone()?;
        copy.push((key, arg.clone()?))?;
    }
    Ok(copy)
}

/// Clones keyword arguments.
pub fn copy_kwargs(alloc: Global, kwargs: &MapOf<Arg>) -> Result<MapOf<Arg>, AllocError>
    ensures { IfOk result (λ copy. copy ≡ kwargs.now) }
{
    let map = kwargs.get();
    if map.len() <= FEW {
        return Ok(MapOf::of(copy_few(alloc, map)?));
    }
    Ok(MapOf::of(map_in_order(alloc, copy_entries(alloc, map)?)?))
}
