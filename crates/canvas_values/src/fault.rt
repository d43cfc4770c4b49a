//! The reasons why a signature or a canvas is refused.

ghost use Rattle.std.specs.Prelude.{◌≡◌};
ghost use Rattle.canvas_values.specs.declared.fault.SigFault.TheVariants.{Memory};
ghost use Rattle.canvas_values.specs.RefusalNames.{code_of};

use std::alloc::{AllocError, AllocFailed};
use std::fmt;

/// The reason why a text is not a canvas. If several hold, it is the first in this order. The
/// faults of single signatures, from `NotSignature` to `EmptyChain`, go signature by signature in
/// file order. Each is printed by its name, and reported by its number, given first below.
#[derive(Clone, Copy, Debug, Drop, PartialEq, Eq)]
pub enum SigFault {
    /// 1: more than 1,048,576 bytes.
    TooLarge,
    /// 2: not a JSON text (RFC 8259) in UTF-8, or nested more than 127 deep.
    NotJson,
    /// 3: not an object, `task` is not a name, or `immutable` is neither a flag nor null.
    NotSignature,
    /// 4: `subtask_type` is not null, `chain`, `group` or `chord`.
    UnknownPrimitive,
    /// 5: a member has the wrong form, or an argument is not a number, a text or a list of numbers.
    BadArgs,
    /// 6: a number is not whole, or is below -2^60 or above 2^60.
    BadNumber,
    /// 7: arguments, `immutable` or callbacks on a chain, group or chord, or one of these as a
    /// callback.
    OnCanvas,
    /// 8: `options.chord` is not null; only signatures in messages have it.
    Frozen,
    /// 9: a chain without elements.
    EmptyChain,
    /// 10: a member of a group or header ends in a group.
    NestedGroup,
    /// 11: signatures are nested deeper than `MOST_NESTING`, or deeper than `MOST_REACH` in some
    /// message of a run.
    TooDeep,
    /// 12: more tasks than `MOST_TASKS`, callbacks included, or more groups and chords than
    /// `MOST_GROUPS`.
    TooMany,
    /// 13: an allocation failed. It may replace any other refusal, and a success.
    Memory,
}

impl SigFault {
    /// Returns the number by which a refusal is reported.
    pub fn code(&self) -> u8
        ensures { result ≡ code_of self.now }
    {
        match self {
            SigFault::TooLarge => 1,
            SigFault::NotJson => 2,
            SigFault::NotSignature => 3,
            SigFault::UnknownPrimitive => 4,
            SigFault::BadArgs => 5,
            SigFault::BadNumber => 6,
            SigFault::OnCanvas => 7,
            SigFault::Frozen => 8,
            SigFault::EmptyChain => 9,
            SigFault::NestedGroup => 10,
            SigFault::TooDeep => 11,
            SigFault::TooMany => 12,
            SigFault::Memory => 13,
        }
    }
}

impl fmt::Display for SigFault {
    ghost use Rattle.std.specs.Prelude.{Some};
    ghost use Rattle.canvas_values.specs.RefusalNames.{printed_name};

    ghost output = { λ fault. Some (printed_name fault) };

    fn fmt<W: fmt::Write>(&self, f: &mut fmt::Formatter<W>) -> fmt::Result {
        match self {
            SigFault::TooLarge => f.write_str("TooLarge"),
            SigFault::NotJson => f.write_str("NotJson"),
            SigFault::NotSignature => f.write_str("NotSignature"),
            SigFault::UnknownPrimitive => f.write_str("UnknownPrimitive"),
            SigFault::BadArgs => f.write_str("BadArgs"),
            SigFault::BadNumber => f.write_str("BadNumber"),
            SigFault::OnCanvas => f.write_str("OnCanvas"),
            SigFault::Frozen => f.write_str("Frozen"),
            SigFault::EmptyChain => f.write_str("EmptyChain"),
            SigFault::NestedGroup => f.write_str("NestedGroup"),
            SigFault::TooDeep => f.write_str("TooDeep"),
            SigFault::TooMany => f.write_str("TooMany"),
            SigFault::Memory => f.write_str("Memory"),
        }
    }
}

impl std::error::Error for SigFault {}

impl From<AllocError> for SigFault {
    ghost from_gives = { λ _ e. e ≡ Memory };

    fn from(_e: AllocError) -> SigFault {
        SigFault::Memory
    }
}

impl<T: Drop> From<AllocFailed<T>> for SigFault {
    ghost from_gives = { λ _ e. e ≡ Memory };

    fn from(_e: AllocFailed<T>) -> SigFault {
        SigFault::Memory
    }
}
