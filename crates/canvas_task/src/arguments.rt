//! Binding of a call's arguments to the parameters of its task.
ghost use Rattle.std.specs.Prelude.{◌≡◌, List, [], ◌∷◌, ◌||◌, string_bytes, Some, None};
ghost use Rattle.std.specs.Option.{option_map};
ghost use Rattle.canvas_task.specs.Entries.{named};
ghost use Rattle.std.specs.List.{list_all, list_any};
ghost use Rattle.std.specs.Str.{bytes_eq};
ghost use Rattle.std.specs.Map.{keys_of};
ghost use Rattle.canvas_task.specs.Apply.{either, by_name, bound_to};

use crate::Arg;
use std::collections::BTreeMap;

/// Returns the keyword argument of a name.
fn by_name<'a>(parameter: &str, kwargs: &'a BTreeMap<String, Arg>) -> Option<&'a Arg>
    ensures { option_map (λ a. a.now) result ≡ by_name parameter.now (named kwargs.now.entries) }
{
    kwargs.get(parameter)
}

/// Returns the argument of a parameter if exactly one is given: by position or by name.
fn either<'a>(given: Option<&'a Arg>, named: Option<&'a Arg>) -> Option<&'a Arg>
    ensures { option_map (λ a. a.now) result
        ≡ either (option_map (λ a. a.now) given.entry) (option_map (λ a. a.now) named.entry) }
{
    match given {
        Some(a) => match named {
            Some(_) => None,
            None => Some(a),
        },
        None => named,
    }
}

/// Returns whether each name is one of two parameters. It only calls `keys_known`; its contract is
/// about entries.
fn known(kwargs: &BTreeMap<String, Arg>, x: &str, y: &str) -> bool
    ensures { result
        ≡ list_all (λ e. list_any (bytes_eq e.0) (x.now ∷ y.now ∷ [])) (named kwargs.now.entries) }
{
    keys_known(kwargs, x, y)
}

/// Returns whether each name is one of two parameters. Its contract is about keys, as the
/// iterator's is.
fn keys_known(kwargs: &BTreeMap<String, Arg>, x: &str, y: &str) -> bool
    ensures { result
        ≡ list_all (λ k. bytes_eq (string_bytes k) x.now || bytes_eq (string_bytes k) y.now)
        (keys_of kwargs.now.entries) }
{
    kwargs
        .keys()
        .all(|key| key.as_str() == x || key.as_str() == y)
}

/// Returns the arguments for two parameters, if the call fits them.
pub(crate) fn two<'a>(
    x: &str,
    y: &str,
    args: &'a [Arg],
    kwargs: &'a BTreeMap<String, Arg>,
) -> Option<(&'a Arg, &'a Arg)>
    ensures { option_map (λ p. p.0.now ∷ p.1.now ∷ []) result
        ≡ bound_to (x.now ∷ y.now ∷ []) args.now (named kwargs.now.entries) }
{
    if !known(kwargs, x, y) || args.len() > 2 {
        return None;
    }
    let a = either(args.first(), by_name(x, kwargs))?;
    let b = either(args.get(1), by_name(y, kwargs))?;
    Some((a, b))
}

/// Returns the argument for one parameter, if the call fits it.
pub(crate) fn one<'a>(
    x: &str,
    args: &'a [Arg],
    kwargs: &'a BTreeMap<String, Arg>,
) -> Option<&'a Arg>
    ensures { option_map (λ a. a.now ∷ []) result
        ≡ bound_to (x.now ∷ []) args.now (named kwargs.now.entries) }
{
    if !known(kwargs, x, x) || args.len() > 1 {
        return None;
    }
    either(args.first(), by_name(x, kwargs))
}
