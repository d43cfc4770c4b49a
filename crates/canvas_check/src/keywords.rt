//! The chords that Celery doesn't start because of their keyword arguments.

ghost use Rattle.std.specs.Prelude.{◌≡◌, not};
ghost use Rattle.std.specs.List.{list_any};
ghost use Rattle.canvas_sig.specs.Datum.{view};
ghost use Rattle.canvas_check.specs.Keywords.{is_part, has_others, lacks_own, is_chord, is_unstarted};

use crate::limits::kind_of;
use canvas_sig::parts::Datum;
use canvas_values::Primitive;

fn is_part(name: &str) -> bool
    ensures { result ≡ is_part name.now }
{
    matches!(name, "header" | "body")
}

fn has_other_names(members: &[(&str, Datum<'_>)]) -> bool
    ensures { result ≡ list_any (λ m. not (is_part m.0.now)) members.now }
{
    members.iter().any(|member| !is_part(member.0))
}

/// Returns whether keyword arguments contain more than the parts of a chord.
fn has_others(kwargs: &Datum<'_>) -> bool
    ensures { result ≡ has_others (view kwargs.now) }
{
    match kwargs {
        Datum::Object(members) => has_other_names(members),
        _ => false,
    }
}

/// Returns whether keyword arguments contain more than the parts of a chord, but not Celery's own
/// `kwargs`.
fn lacks_own(kwargs: &Datum<'_>) -> bool
    ensures { result ≡ lacks_own (view kwargs.now) }
{
    match kwargs.get("kwargs") {
        Some(_) => false,
        None => has_others(kwargs),
    }
}

fn is_chord(kind: Option<Primitive>) -> bool
    ensures { result ≡ is_chord kind }
{
    matches!(kind, Some(Primitive::Chord))
}

/// Returns whether a signature is a chord that Celery doesn't start because of its keyword
/// arguments.
pub(crate) fn is_unstarted(signature: &Datum<'_>) -> bool
    ensures { result ≡ is_unstarted (view signature.now) }
{
    match signature.get("kwargs") {
        Some(kwargs) => is_chord(kind_of(signature)) && lacks_own(kwargs),
        None => false,
    }
}
