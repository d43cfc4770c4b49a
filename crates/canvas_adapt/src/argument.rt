//! Adapting the arguments of tasks.

use crate::changes::Change;
use crate::context::Context;
use crate::member::Members;
use crate::text::text_of;
use bumpalo::Bump;
use canvas_sig::SigFault;
use canvas_sig::parts::Datum;
use canvas_task::in_range;
use std::alloc::{AllocError, Global};

/// The greatest length of an argument's JSON that is shown, in bytes.
const MOST_SHOWN: usize = 32;

/// The length that is kept of a longer one, before `..`.
const CUT: usize = 30;

fn is_whole(value: &Datum<'_>) -> bool {
    match value {
        Datum::Number(number) => match number.as_i64() {
            Some(number) => in_range(number),
            None => false,
        },
        _ => false,
    }
}

/// Returns whether the argument is one of the profile.
fn is_fit(value: &Datum<'_>) -> bool {
    match value {
        Datum::Text(_) => true,
        Datum::List(values) => values.iter().all(|value| is_whole(value)),
        _ => is_whole(value),
    }
}

/// Returns the JSON of a value, truncated if it is long.
fn shown<'a>(alloc: Global, arena: &'a Bump, value: &Datum<'_>) -> Result<&'a str, AllocError> {
    let mut text = text_of(alloc, value)?;
    if text.len() > MOST_SHOWN {
        let end = text.floor_char_boundary(CUT);
        text.truncate(end);
        text.push_str("..")?;
    }
    arena.try_alloc_str(&text)
}

impl<'a> Context<'a> {
    fn adapt_argument(&mut self, value: &mut Datum<'a>) -> Result<(), SigFault> {
        if is_fit(value) {
            return Ok(());
        }
        self.count(Change::Argument, 1);
        *value = Datum::Text(shown(self.alloc, self.arena, value)?);
        Ok(())
    }

    /// Adapts arguments in a list.
    fn adapted_list(&mut self, values: &[Datum<'a>]) -> Result<&'a [Datum<'a>], SigFault> {
        let made = self.arena.try_alloc_slice_copy(values)?;
        for value in made.iter_mut() {
            self.adapt_argument(value)?;
        }
        Ok(made)
    }

    fn adapted_named(&mut self, members: Members<'a>) -> Result<Members<'a>, SigFault> {
        let made = self.arena.try_alloc_slice_copy(members)?;
        for member in made.iter_mut() {
            self.adapt_argument(&mut member.1)?;
        }
        Ok(made)
    }

    /// Adapts arguments, in a list or by name. Any other value stays unchanged.
    pub(crate) fn adapt_arguments(&mut self, value: &mut Datum<'a>) -> Result<(), SigFault> {
        match *value {
            Datum::List(values) => *value = Datum::List(self.adapted_list(values)?),
            Datum::Object(members) => *value = Datum::Object(self.adapted_named(members)?),
            _ => {}
        }
        Ok(())
    }
}
