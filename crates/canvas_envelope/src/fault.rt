//! The reasons why an envelope isn't a message.

ghost use Rattle.std.specs.Prelude.{◌≡◌};
ghost use Rattle.canvas_envelope.specs.declared.fault.MessageFault.TheVariants.{Memory};
ghost use Rattle.canvas_envelope.specs.RefusalNames.{code_of};

use std::alloc::{AllocError, AllocFailed};
use std::error::Error;
use std::fmt;

/// The reason why three texts aren't a message. If several hold, it is the first in this order.
/// Each is printed by its name, and reported by its number, given first below.
#[derive(Clone, Copy, Debug, Drop, PartialEq, Eq)]
pub enum MessageFault {
    /// 1: one of the texts is not a JSON text (RFC 8259) in UTF-8.
    NotJson,
    /// 2: the headers are not an object, or `task` is not a name.
    NotVersion2,
    /// 3: `id` is not a task's identifier, `group` is neither null nor a group's, the properties
    /// are not an object, or a `correlation_id` is there, also as null, and doesn't name the same
    /// task.
    BadId,
    /// 4: a `content_type` other than `application/json`, or a `content_encoding` other than
    /// `utf-8`.
    BadContentType,
    /// 5: the body is not a list of three.
    BadBody,
    /// 6: arguments of a wrong form or kind, also null, or a number out of range.
    BadArgs,
    /// 7: any fault of the callbacks, the chain and the chord in the embed:
    ///
    /// - `callbacks` or `errbacks` that are an object
    /// - a frozen signature without its identifier, or with a fault of its own (a place is none)
    /// - a body without a group, or without a `chord_size` from 1 to the most tasks of a canvas
    /// - a place elsewhere than at the end of the line
    /// - a group that isn't last on its line, or a member that ends in a group
    /// - a header of more members than the most tasks of a canvas
    /// - signatures that are nested deeper than in a message of a canvas
    ///
    /// Ignored are `chord_size` elsewhere than on a carried body, `task_id` on a group, chord or
    /// chain, and `group_id` on a chain. `options.link` in a frozen signature may be one object.
    /// The limits of a canvas on its depth as written and on its tasks don't hold here.
    BadEmbed,
    /// 8: an allocation failed. It may replace any other refusal, and a success.
    Memory,
}

impl MessageFault {
    /// Returns the number by which a refusal is reported.
    pub fn code(&self) -> u8
        ensures { result ≡ code_of self.now }
    {
        match self {
            MessageFault::NotJson => 1,
            MessageFault::NotVersion2 => 2,
            MessageFault::BadId => 3,
            MessageFault::BadContentType => 4,
            MessageFault::BadBody => 5,
            MessageFault::BadArgs => 6,
            MessageFault::BadEmbed => 7,
            MessageFault::Memory => 8,
        }
    }
}

impl fmt::Display for MessageFault {
    ghost use Rattle.std.specs.Prelude.{Some};
    ghost use Rattle.canvas_envelope.specs.RefusalNames.{printed_name};

    ghost output = { λ fault. Some (printed_name fault) };

    fn fmt<W: fmt::Write>(&self, f: &mut fmt::Formatter<W>) -> fmt::Result {
        match self {
            MessageFault::NotJson => f.write_str("NotJson"),
            MessageFault::NotVersion2 => f.write_str("NotVersion2"),
            MessageFault::BadId => f.write_str("BadId"),
            MessageFault::BadContentType => f.write_str("BadContentType"),
            MessageFault::BadBody => f.write_str("BadBody"),
            MessageFault::BadArgs => f.write_str("BadArgs"),
            MessageFault::BadEmbed => f.write_str("BadEmbed"),
            MessageFault::Memory => f.write_str("Memory"),
        }
    }
}

impl Error for MessageFault {}

impl From<AllocError> for MessageFault {
    ghost from_gives = { λ _ e. e ≡ Memory };

    fn from(_e: AllocError) -> MessageFault {
        MessageFault::Memory
    }
}

impl<T: Drop> From<AllocFailed<T>> for MessageFault {
    ghost from_gives = { λ _ e. e ≡ Memory };

    fn from(_e: AllocFailed<T>) -> MessageFault {
        MessageFault::Memory
    }
}
