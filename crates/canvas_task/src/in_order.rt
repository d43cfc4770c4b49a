//! Maps of many entries that are in the order of their names.

ghost use Rattle.std.specs.Prelude.{◌≡◌, IfOk};
ghost use Rattle.canvas_task.specs.Entries.{named, Ascends};

use crate::Arg;
use std::alloc::{AllocError, Global};
use std::collections::BTreeMap;

/// The greatest number of entries that are inserted into a map one by one. For more it is quicker
/// to sort them and to make the map at once: entries that are in order already are compared once
/// each, and an insertion compares an entry with some of the others.
pub const FEW: usize = 16;

/// Makes a map of entries that are in the order of their names, all at once.
pub fn map_in_order(
    alloc: Global,
    entries: Vec<(String, Arg)>,
) -> Result<BTreeMap<String, Arg>, AllocError>
    requires { Ascends (named entries.items) }
    ensures { IfOk result (λ map. named map.entries ≡ named entries.items) }
{
    entries.into_iter().collect(alloc)
}
