//! JSON values whose texts, lists and objects are borrowed. Contracts see them as the data of
//! `serde_json`'s `Value` (`Data`).

ghost use Rattle.std.specs.Prelude.{◌≡◌, true, option_map};
ghost use Rattle.canvas_values.specs.Fields.{is_object};
ghost use Rattle.canvas_sig.specs.steps.Names.{IsBelow};
ghost use Rattle.serde_json.specs.Find.{get, get_member};
ghost use Rattle.canvas_sig.specs.Datum.{view, members_view};

use crate::names::{are_same, order_of};
use serde_json::Number;

/// A JSON value. Its texts are borrowed from the parsed text, its lists and objects from an arena
/// that is dropped as a whole, so copying and dropping a value costs nothing.
#[derive(Clone, Copy, Drop)]
pub enum Datum<'a> {
    Null,
    Bool(bool),
    Number(Number),
    Text(&'a str),
    List(&'a [Datum<'a>]),
    /// Names and values. The names of a parsed object ascend; for a duplicate name the last value
    /// counts.
    Object(&'a [(&'a str, Datum<'a>)]),
}

#[inline(always)]
fn member<'a>(members: &'a [(&'a str, Datum<'a>)], name: &str) -> Option<&'a Datum<'a>>
    ensures { option_map (λ v. view v.now) result ≡ get_member name.now (members_view members.now) }
{
    for member in members {
        if are_same(member.0, name) {
            return Some(&member.1);
        }
    }
    None
}

/// Returns whether a name comes after the last one.
pub(crate) fn follows(last: Option<&str>, name: &str) -> bool
    ensures { result ≡ true → IsBelow (option_map (λ l. l.now) last.entry) name.now }
{
    match last {
        Some(last) => order_of(last, name).is_lt(),
        None => true,
    }
}

impl<'a> Datum<'a> {
    pub fn is_object(&self) -> bool
        ensures { result ≡ is_object (view self.now) }
    {
        matches!(self, Datum::Object(_))
    }

    /// Returns the member of a name. It is inlined, since callers know the name.
    #[inline(always)]
    pub fn get(&self, name: &str) -> Option<&'a Datum<'a>>
        ensures { option_map (λ v. view v.now) result ≡ get name.now (view self.now) }
    {
        match self {
            Datum::Object(members) => member(members, name),
            _ => None,
        }
    }
}
