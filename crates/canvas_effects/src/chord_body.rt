//! The body of a chord, with its text.

ghost use Rattle.std.specs.Prelude.{◌≡◌, IfOk, IfSome};
ghost use Rattle.canvas_envelope.specs.MessageView.{carried_view};
ghost use Rattle.canvas_envelope.specs.SharedTexts.{SaysCarried};
ghost use Rattle.canvas_effects.specs.Carrying.{carrying_place};
ghost use Rattle.canvas_effects.specs.Placing.{end_place};

use canvas_envelope::{CarriedText, share_carried};
use canvas_rewrite::Carried;
use std::alloc::{AllocError, Global};
use std::marker::Model;
use std::sync::Arc;

/// The number of members of a chord and its body, with the text of the body if it is known.
#[derive(Drop)]
pub struct ChordBody {
    /// The size and the body, as a place carries them.
    pub carried: Carried,
    /// The text of the body. It changes no message, and saves writing again what the end of the
    /// body carries.
    pub text: Option<Arc<CarriedText>>,
}

impl Model for ChordBody {
    ghost use Rattle.std.specs.Prelude.{IfSome};
    ghost use Rattle.canvas_rewrite.specs.FrozenView.{PCarried};
    ghost use Rattle.canvas_envelope.specs.MessageView.{carried_view};
    ghost use Rattle.canvas_envelope.specs.SharedTexts.{SaysCarried};
    ghost use Rattle.canvas_effects.specs.Carrying.{carrying_place};
    ghost use Rattle.canvas_effects.specs.codes.PlaceCode.{carried_code};

    ghost Value = { PCarried };

    ghost coded = { carried_code };

    ghost view = { λ b. carried_view b.carried };

    ghost invariant = { λ b. IfSome b.text
        (λ t. SaysCarried t.value (carrying_place (carried_view b.carried))) };
}

impl ChordBody {
    /// Makes a body with its text, if that is known.
    pub fn of(carried: Carried, text: Option<Arc<CarriedText>>) -> ChordBody
        requires { IfSome text
            (λ t. SaysCarried t.value (carrying_place (carried_view carried))) }
        ensures { result ≡ carried_view carried }
    {
        ChordBody { carried, text }
    }

    /// Makes a body without a text.
    pub(crate) fn unwritten(carried: &Carried) -> Result<ChordBody, AllocError>
        ensures { IfOk result (λ b. b ≡ carried_view carried.now) }
    {
        Ok(ChordBody {
            carried: share_carried(carried)?,
            text: None,
        })
    }

    /// Returns the text of what the end of the body carries, if it is known.
    pub(crate) fn inner_text(&self, alloc: Global) -> Result<Option<Arc<CarriedText>>, AllocError>
        ensures { IfOk result
            (λ o. IfSome o (λ t. SaysCarried t.value (end_place self.now.body))) }
    {
        match &self.text {
            Some(text) => text.inner(alloc),
            None => Ok(None),
        }
    }
}
