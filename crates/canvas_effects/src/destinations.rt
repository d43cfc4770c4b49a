//! The place where the end of a line goes, if it goes anywhere.

ghost use Rattle.std.specs.Prelude.{◌≡◌, IfOk, IfSome};
ghost use Rattle.canvas_envelope.specs.MessageView.{place_seen};
ghost use Rattle.canvas_envelope.specs.SharedTexts.{SaysCarried};
ghost use Rattle.canvas_rewrite.specs.FrozenView.{place_or};

use crate::copies::share_place;
use crate::destination::Destination;
use canvas_envelope::CarriedText;
use canvas_rewrite::Place;
use std::alloc::AllocError;
use std::sync::Arc;

/// Makes the destination with a task's place, if it has one, and the text of what it carries, if
/// that is known.
pub(crate) fn with_text(
    place: &Option<Place>,
    text: Option<Arc<CarriedText>>,
) -> Result<Option<Destination>, AllocError>
    requires { IfSome text (λ t. SaysCarried t.value (place_seen place.now)) }
    ensures { IfOk result (λ d. place_or d ≡ place_seen place.now) }
{
    match place {
        Some(place) => {
            let place = share_place(place)?;
            Ok(Some(Destination { place, text }))
        }
        None => Ok(None),
    }
}

/// Returns another handle to the same destination.
pub(crate) fn share_destination(
    destination: &Option<Destination>,
) -> Result<Option<Destination>, AllocError>
    ensures { IfOk result (λ d. place_or d ≡ place_or destination.now) }
{
    match destination {
        Some(destination) => Ok(Some(destination.share()?)),
        None => Ok(None),
    }
}

/// Returns the place and the text.
pub(crate) fn parts(destination: Option<Destination>) -> (Option<Place>, Option<Arc<CarriedText>>)
    ensures place { place_seen result.0 ≡ place_or destination }
    ensures text { IfSome result.1 (λ t. SaysCarried t.value (place_or destination)) }
{
    match destination {
        Some(Destination { place, text }) => (Some(place), text),
        None => (None, None),
    }
}
