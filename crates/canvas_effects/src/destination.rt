//! The place where the end of a line goes, with the text of what it carries.

ghost use Rattle.std.specs.Prelude.{◌≡◌, IfOk, IfSome};
ghost use Rattle.canvas_envelope.specs.MessageView.{place_view};
ghost use Rattle.canvas_envelope.specs.SharedTexts.{SaysCarried, inner_place};

use crate::copies::share_place;
use canvas_envelope::{CarriedText, carried_text, share_text};
use canvas_rewrite::Place;
use std::alloc::{AllocError, Global};
use std::marker::Model;
use std::sync::Arc;

/// A place at which several lines end, with the text that their messages share.
#[derive(Drop)]
pub(crate) struct Destination {
    pub place: Place,
    pub text: Option<Arc<CarriedText>>,
}

impl Model for Destination {
    ghost use Rattle.std.specs.Prelude.{IfSome};
    ghost use Rattle.canvas_semantics.specs.PlacedLine.{PPlace};
    ghost use Rattle.canvas_envelope.specs.MessageView.{place_view};
    ghost use Rattle.canvas_envelope.specs.SharedTexts.{SaysCarried};
    ghost use Rattle.canvas_effects.specs.codes.PlaceCode.{place_code};

    ghost Value = { PPlace };

    ghost coded = { place_code };

    ghost view = { λ d. place_view d.place };

    ghost invariant = { λ d. IfSome d.text (λ t. SaysCarried t.value (place_view d.place)) };
}

impl Destination {
    /// Makes the destination of members that start now, and writes what the place carries once for
    /// all of them. `inner` is the text of what the end of the carried body carries, if it is
    /// known.
    pub(crate) fn written(
        alloc: Global,
        place: Place,
        inner: &Option<Arc<CarriedText>>,
    ) -> Result<Destination, AllocError>
        requires { IfSome inner.now
            (λ t. SaysCarried t.value (inner_place (place_view place))) }
        ensures { IfOk result (λ d. d ≡ place_view place) }
    {
        let text = carried_text(alloc, &place, inner)?;
        Ok(Destination { place, text })
    }

    /// Returns another handle to the same destination.
    pub(crate) fn share(&self) -> Result<Destination, AllocError>
        ensures { IfOk result (λ d. d ≡ self.now) }
    {
        let place = share_place(&self.place)?;
        let text = share_text(&self.text)?;
        Ok(Destination { place, text })
    }
}
