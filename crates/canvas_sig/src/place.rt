//! Places in a JSON text, which determine what may come next.

ghost use Rattle.std.specs.Prelude.{◌≡◌};
ghost use Rattle.json.specs.Reader.{closes_at, begins_at};
ghost use Rattle.canvas_sig.specs.steps.Place.{as_kit};

/// A place in a JSON text. The variants are those of the reader of `json`.
#[derive(Clone, Copy, Drop)]
pub(crate) enum Place {
    Fresh,
    AfterValue,
    AfterComma,
    Failed,
}

impl Place {
    #[inline(always)]
    pub(crate) fn may_close(self) -> bool
        ensures { result ≡ closes_at (as_kit self) }
    {
        matches!(self, Place::Fresh | Place::AfterValue)
    }

    #[inline(always)]
    pub(crate) fn may_begin(self) -> bool
        ensures { result ≡ begins_at (as_kit self) }
    {
        matches!(self, Place::Fresh | Place::AfterComma)
    }
}
