//! Texts of the contents of messages, which several messages share.

ghost use Rattle.std.specs.Prelude.{◌≡◌, IfOk, None};
ghost use Rattle.std.specs.Option.{option_map};

use crate::{CarriedText, Unplaced};
use std::alloc::AllocError;
use std::sync::Arc;

/// The front of a text, up to and including another text that it shares.
#[derive(Drop)]
pub struct Head {
    /// The part before the other.
    pub before: String,
    /// The other: the text of the body that the place at the end of the line carries.
    pub carried: Arc<CarriedText>,
}

/// The elements of a line, its last element first, separated by commas. The last element may
/// contain the text of a carried body.
#[derive(Drop)]
pub struct ElementsText {
    /// The text up to and including that of the carried body, if that is shared.
    pub head: Option<Head>,
    /// The text after the head.
    pub own: String,
}

/// The text of the rest of a line, its last element first, without the brackets of the list. When
/// the next task is taken, the text of what is left is a prefix of this one, so that the messages
/// of a line share one text.
#[derive(Drop)]
pub struct LineText {
    /// The elements.
    pub text: Arc<ElementsText>,
    /// The end of each element that still follows, in bytes after the head. That of the next
    /// element is the last.
    pub ends: Vec<usize>,
}

/// Facts that are already known of a message's contents. They don't change the message: its
/// invariant says that they agree with it, and they save writing or walking through it again.
#[derive(Drop)]
pub struct Texts {
    /// The text of the rest of its line.
    pub line: Option<LineText>,
    /// The text of the body that the place at the end of its line carries.
    pub carried: Option<Arc<CarriedText>>,
    /// The first tasks of the rest of its line that have no place.
    pub unplaced: Unplaced,
}

impl Texts {
    /// Makes the value that knows nothing.
    pub fn none() -> Texts
        ensures line { result.line ≡ None }
        ensures carried { result.carried ≡ None }
        ensures unplaced { result.unplaced ≡ record { count = 0; greatest = 0 } }
    {
        Texts {
            line: None,
            carried: None,
            unplaced: Unplaced::none(),
        }
    }
}

/// Returns another handle to the same text.
pub fn share_text(text: &Option<Arc<CarriedText>>) -> Result<Option<Arc<CarriedText>>, AllocError>
    ensures { IfOk result
        (λ same. option_map (λ t. t.value) same ≡ option_map (λ t. t.value) text.now) }
{
    match text {
        Some(text) => Ok(Some(Arc::try_clone(text)?)),
        None => Ok(None),
    }
}
