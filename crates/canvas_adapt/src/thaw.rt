//! Thawing frozen signatures: removing the identifiers and places that Celery wrote into them when
//! it started them (`Signature.freeze`).

use crate::arena_vec::ArenaVec;
use crate::changes::Change;
use crate::context::Context;
use crate::member::{Members, members_of, set_inner, set_member};
use crate::part::{Part, callback_parts, inner_parts, set_values, values_at};
use bumpalo::Bump;
use canvas_sig::SigFault;
use canvas_sig::parts::{Datum, kwarg_of, listed, option_of, primitive_of};
use canvas_values::Primitive;

/// Returns whether Celery writes an option of this name, apart from the identifier.
fn is_book(name: &str) -> bool {
    matches!(
        name,
        "chord" | "chord_size" | "group_id" | "group_index" | "parent_id" | "reply_to" | "root_id"
    )
}

fn options_of<'a>(value: &Datum<'a>) -> Members<'a> {
    match value.get("options") {
        Some(options) => members_of(options),
        None => &[],
    }
}

fn has_identifier(value: &Datum<'_>) -> bool {
    matches!(option_of(value, "task_id"), Some(Datum::Text(_)))
}

fn has_book(value: &Datum<'_>) -> bool {
    for option in options_of(value) {
        if is_book(option.0) {
            return true;
        }
    }
    false
}

/// Returns whether a signature was frozen. An identifier without the other options was given by a
/// user.
fn is_frozen(value: &Datum<'_>) -> bool {
    has_identifier(value) && has_book(value)
}

/// Returns the options that Celery didn't write.
fn own_options<'a>(arena: &'a Bump, value: &Datum<'a>) -> Result<Members<'a>, SigFault> {
    let mut made = ArenaVec::new(arena);
    for option in options_of(value) {
        if !is_book(option.0) && option.0 != "task_id" {
            made.push(*option)?;
        }
    }
    Ok(made.done())
}

/// Returns whether the header of a chord was a list, which freezing made into a group.
fn had_list(value: &Datum<'_>) -> bool {
    match kwarg_of(value, "header") {
        Some(header) => {
            matches!(
                primitive_of(header.get("subtask_type")),
                Some(Primitive::Group)
            ) && is_frozen(header)
        }
        None => false,
    }
}

/// Makes the header a list again, unless the group that it is has options of its own.
fn set_list<'a>(arena: &'a Bump, value: &mut Datum<'a>) -> Result<(), SigFault> {
    match kwarg_of(value, "header") {
        Some(header) if options_of(header).is_empty() => {
            let members = Datum::List(listed(kwarg_of(header, "tasks")));
            set_inner(arena, value, "kwargs", "header", &members)
        }
        _ => Ok(()),
    }
}

impl<'a> Context<'a> {
    /// Removes the options that Celery wrote into a signature itself.
    fn thaw_own(&mut self, value: &mut Datum<'a>) -> Result<(), SigFault> {
        self.count(Change::Frozen, 1);
        let options = own_options(self.arena, value)?;
        set_member(self.arena, value, "options", &Datum::Object(options))
    }

    /// Thaws the signatures of a part.
    #[cycle(thaw)]
    fn thaw_part(&mut self, value: &mut Datum<'a>, part: Part, left: u32) -> Result<(), SigFault> {
        let before = self.changes.frozen;
        let thawed = self.arena.try_alloc_slice_copy(values_at(value, part))?;
        for inner in thawed.iter_mut() {
            self.thaw(inner, left)?;
        }
        if self.changes.frozen == before {
            return Ok(());
        }
        set_values(self.arena, value, part, thawed)
    }

    /// Thaws the signatures in a chain, group or chord. The header of a chord becomes a list again.
    #[cycle(thaw)]
    fn thaw_inner(&mut self, value: &mut Datum<'a>, left: u32) -> Result<(), SigFault> {
        let had_list = had_list(value);
        for part in inner_parts(primitive_of(value.get("subtask_type"))) {
            self.thaw_part(value, *part, left)?;
        }
        if had_list {
            return set_list(self.arena, value);
        }
        Ok(())
    }

    /// Thaws a signature and those nested in it, at most `left` deep. A chord has only its
    /// identifier, so it counts as frozen if something in it was.
    #[cycle(thaw)]
    pub(crate) fn thaw(&mut self, value: &mut Datum<'a>, left: u32) -> Result<(), SigFault> {
        if left == 0 {
            return Ok(());
        }
        for part in callback_parts() {
            self.thaw_part(value, *part, left - 1)?;
        }
        let before = self.changes.frozen;
        self.thaw_inner(value, left - 1)?;
        if is_frozen(value) || has_identifier(value) && self.changes.frozen > before {
            return self.thaw_own(value);
        }
        Ok(())
    }
}
