//! Objects with a member added, removed or replaced.

use crate::arena_vec::ArenaVec;
use bumpalo::Bump;
use canvas_sig::SigFault;
use canvas_sig::parts::Datum;

/// Names and values, the names ascending.
pub(crate) type Members<'a> = &'a [(&'a str, Datum<'a>)];

/// Returns the members of an object. Any other value has none.
pub(crate) fn members_of<'a>(value: &Datum<'a>) -> Members<'a> {
    match value {
        Datum::Object(members) => members,
        _ => &[],
    }
}

/// Appends the members whose names are less than a name.
fn add_before<'a>(
    made: &mut ArenaVec<'a, (&'a str, Datum<'a>)>,
    members: Members<'a>,
    name: &str,
) -> Result<(), SigFault> {
    for member in members {
        if member.0 < name {
            made.push(*member)?;
        }
    }
    Ok(())
}

/// Appends the members whose names are greater than a name.
fn add_behind<'a>(
    made: &mut ArenaVec<'a, (&'a str, Datum<'a>)>,
    members: Members<'a>,
    name: &str,
) -> Result<(), SigFault> {
    for member in members {
        if name < member.0 {
            made.push(*member)?;
        }
    }
    Ok(())
}

/// Returns the members, with the one of this name replaced by the given ones.
fn with<'a>(
    arena: &'a Bump,
    members: Members<'a>,
    name: &str,
    own: &[(&'a str, Datum<'a>)],
) -> Result<Members<'a>, SigFault> {
    let mut made = ArenaVec::new(arena);
    add_before(&mut made, members, name)?;
    made.push_all(own)?;
    add_behind(&mut made, members, name)?;
    Ok(made.done())
}

/// Adds a member to an object, or replaces it.
pub(crate) fn set_member<'a>(
    arena: &'a Bump,
    value: &mut Datum<'a>,
    name: &'a str,
    member: &Datum<'a>,
) -> Result<(), SigFault> {
    let members = with(arena, members_of(value), name, &[(name, *member)])?;
    *value = Datum::Object(members);
    Ok(())
}

/// Adds a member to an object that is itself a member of an object, or replaces it.
pub(crate) fn set_inner<'a>(
    arena: &'a Bump,
    value: &mut Datum<'a>,
    outer: &'a str,
    name: &'a str,
    member: &Datum<'a>,
) -> Result<(), SigFault> {
    let mut inner = match value.get(outer) {
        Some(inner) => *inner,
        None => Datum::Null,
    };
    set_member(arena, &mut inner, name, member)?;
    set_member(arena, value, outer, &inner)
}

/// Removes a signature's own callbacks.
pub(crate) fn drop_callbacks<'a>(arena: &'a Bump, value: &mut Datum<'a>) -> Result<(), SigFault> {
    match value.get("options") {
        Some(Datum::Object(options)) => {
            let left = with(arena, options, "link", &[])?;
            let left = with(arena, left, "link_error", &[])?;
            set_member(arena, value, "options", &Datum::Object(left))
        }
        _ => Ok(()),
    }
}
