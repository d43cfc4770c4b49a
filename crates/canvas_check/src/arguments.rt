//! The note on the first argument of a task that is of no allowed kind, or contains a bad number.

use crate::notes::found;
use crate::shown::quoted;
use canvas_sig::parts::{Datum, listed};
use canvas_task::in_range;
use std::alloc::{AllocError, Global};

/// The texts that say what is wanted instead of an argument, and instead of an item of a list.
const ARGUMENT: &str = "a whole number, a text or a list of whole numbers";

const ITEM: &str = "a whole number, as all of a list are";

const NUMBER: &str = "a whole number from -2^60 to 2^60";

/// The fault of an argument to look for.
#[derive(Clone, Copy)]
pub(crate) enum Bad {
    Kind,
    Number,
}

fn is_whole(value: &Datum<'_>) -> bool {
    match value {
        Datum::Number(number) => match number.as_i64() {
            Some(number) => in_range(number),
            None => false,
        },
        _ => false,
    }
}

fn is_number(value: &Datum<'_>) -> bool {
    matches!(value, Datum::Number(_))
}

fn is_bad_item(value: &Datum<'_>, bad: Bad) -> bool {
    match bad {
        Bad::Kind => !is_number(value),
        Bad::Number => !is_whole(value),
    }
}

/// Returns the first bad item of a list, and its index.
fn bad_item<'v>(values: &'v [Datum<'v>], bad: Bad) -> Option<(usize, &'v Datum<'v>)> {
    for (index, value) in values.iter().enumerate() {
        if is_bad_item(value, bad) {
            return Some((index, value));
        }
    }
    None
}

fn is_bad(value: &Datum<'_>, bad: Bad) -> bool {
    match value {
        Datum::Number(_) => is_bad_item(value, bad),
        Datum::Text(_) => false,
        Datum::List(values) => bad_item(values, bad).is_some(),
        _ => matches!(bad, Bad::Kind),
    }
}

/// Makes the note on a bad argument or on a bad item of it: the place, the value, and what is
/// wanted.
fn of_argument(alloc: Global, at: &str, value: &Datum<'_>, bad: Bad) -> Result<String, AllocError> {
    let (wanted, of_item) = match bad {
        Bad::Kind => (ARGUMENT, ITEM),
        Bad::Number => (NUMBER, NUMBER),
    };
    match bad_item(listed(Some(value)), bad) {
        Some((index, item)) => {
            let at = format!(in alloc; "{at}[{index}]")?;
            found(alloc, &at, Some(item), of_item)
        }
        None => found(alloc, at, Some(value), wanted),
    }
}

/// Makes the note on the first bad argument of a signature.
pub(crate) fn of_bad_argument(
    alloc: Global,
    signature: &Datum<'_>,
    bad: Bad,
) -> Result<String, AllocError> {
    for (index, value) in listed(signature.get("args")).iter().enumerate() {
        if is_bad(value, bad) {
            let at = format!(in alloc; "args[{index}]")?;
            return of_argument(alloc, &at, value, bad);
        }
    }
    if let Some(Datum::Object(members)) = signature.get("kwargs") {
        for (name, value) in members.iter() {
            if is_bad(value, bad) {
                let name = quoted(alloc, name)?;
                let at = format!(in alloc; "kwargs[{name}]")?;
                return of_argument(alloc, &at, value, bad);
            }
        }
    }
    Ok(String::new(alloc))
}
