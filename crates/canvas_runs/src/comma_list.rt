//! Lists written with a comma between two items.
ghost use Rattle.std.specs.Prelude.{◌≡◌, ◌≢◌, ◌≤◌, ◌<◌, ◌++◌, ◌∷◌, [], ℕ, List, IfOk, IfErr, OnOk, OnErr, MatchOption, MatchBool, get_or, length};
ghost use Rattle.std.specs.Fmt.{decimal};
ghost use Rattle.std.specs.List.{slice_split};
ghost use Rattle.canvas_runs.specs.CommaList.{IsNumberFromOne, Lists, is_comma};
ghost use Rattle.canvas_runs.specs.declared.comma_list.ListFault.TheVariants.{BadItem};

use std::alloc::Global;
use thiserror::Error;

/// Returns whether a text begins as a number from 1 on is written: with no sign and no leading
/// zero.
fn begins_plainly(text: &str) -> bool
    ensures { MatchBool result (48 < get_or text.now 0 0) (get_or text.now 0 0 ≤ 48) }
{
    match text.as_bytes().first() {
        Some(byte) => *byte > b'0',
        None => false,
    }
}

/// Parses a number from 1 on.
pub(crate) fn read_number(text: &str) -> Option<u32>
    ensures { MatchOption result ((k : ℕ) → IsNumberFromOne k → text.now ≡ decimal k → ⊥)
        (λ k. IsNumberFromOne k × (text.now ≡ decimal k)) }
{
    if begins_plainly(text) {
        text.parse().ok()
    } else {
        None
    }
}

/// Splits a text at its first comma.
fn split(text: &str) -> Option<(&str, &str)>
    ensures { MatchOption result (slice_split is_comma text.now ≡ text.now ∷ [])
        (λ x. (slice_split is_comma text.now ≡ x.0.now ∷ slice_split is_comma x.1.now)
        × (length x.1.now < length text.now)) }
{
    text.split_once(',')
}

/// A reader of the items of a list.
pub(crate) trait ItemReader {
    type Item: Drop;

    ghost is_item: { Self → Self.Item → Type 0 };

    ghost item_text: { Self.Item → List ℕ };

    /// Parses an item.
    fn read(&self, text: &str) -> Option<Self::Item>
        ensures { MatchOption result
            ((x : Self.Item) → is_item self.now x → text.now ≡ item_text x → ⊥)
            (λ x. is_item self.now x × (text.now ≡ item_text x)) };
}

/// Why a text gives no list.
#[derive(Clone, Copy, Debug, Drop, PartialEq, Eq, Error)]
pub enum ListFault {
    /// A piece is not an item.
    #[error("a piece is no item")]
    BadItem,
    /// An allocation failed.
    #[error("memory refused")]
    Memory,
}

fn push_item<R: ItemReader>(
    items: &mut Vec<R::Item>,
    reader: &R,
    text: &str,
) -> Result<(), ListFault>
    ensures ok { OnOk result ((x : R.Item) × R.is_item reader.now x × (text.now ≡ R.item_text x)
        × (items.new.items ≡ items.old.items ++ x ∷ [])) }
    ensures err { IfErr result (λ f. f ≡ BadItem
        → (x : R.Item) → R.is_item reader.now x → text.now ≡ R.item_text x → ⊥) }
{
    match reader.read(text) {
        Some(item) => match items.push(item) {
            Ok(()) => Ok(()),
            Err(_) => Err(ListFault::Memory),
        },
        None => Err(ListFault::BadItem),
    }
}

/// Reads one item or more.
fn read_pieces<R: ItemReader>(
    alloc: Global,
    text: &str,
    reader: &R,
) -> Result<Vec<R::Item>, ListFault>
    requires { text.now ≢ [] }
    ensures ok { IfOk result
        (λ items. Lists (R.is_item reader.now) R.item_text text.now items.items) }
    ensures err { IfErr result (λ f. f ≡ BadItem
        → (xs : List R.Item) → Lists (R.is_item reader.now) R.item_text text.now xs → ⊥) }
{
    let mut items = Vec::new(alloc);
    let mut rest = text;
    while let Some((first, behind)) = split(rest) {
        push_item(&mut items, reader, first)?;
        rest = behind;
    }
    push_item(&mut items, reader, rest)?;
    Ok(items)
}

/// Reads items with a single comma between two. The empty text has none, and needs no memory.
pub(crate) fn read_list<R: ItemReader>(
    alloc: Global,
    text: &str,
    reader: &R,
) -> Result<Vec<R::Item>, ListFault>
    ensures ok { IfOk result
        (λ items. Lists (R.is_item reader.now) R.item_text text.now items.items) }
    ensures none { IfErr result (λ f. f ≡ BadItem
        → (xs : List R.Item) → Lists (R.is_item reader.now) R.item_text text.now xs → ⊥) }
    ensures memory { OnErr result (0 < length text.now) }
{
    if text.is_empty() {
        return Ok(Vec::new(alloc));
    }
    read_pieces(alloc, text, reader)
}
