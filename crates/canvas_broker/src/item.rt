//! The items of the queue.
ghost use Rattle.std.specs.Prelude.{◌≡◌};
ghost use Rattle.canvas_broker.specs.declared.item.Item.TheVariants.{Queued};

/// An envelope, or the mark of a split, which takes skip.
#[derive(Default, Drop)]
pub enum Item<T> {
    Queued(T),
    #[default]
    Mark,
}

impl<T> Item<T> {
    /// Returns the envelope of an item that has one.
    pub(crate) fn into_envelope(self) -> T
        requires { (e : T) × (self ≡ Queued e) }
        ensures { self ≡ Queued result }
    {
        match self {
            Item::Queued(envelope) => envelope,
            Item::Mark => unreachable!(),
        }
    }
}
