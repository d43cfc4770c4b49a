//! The points of a script.

/// A point in the script of a message at which its envelope may be redelivered.
#[derive(Clone, Copy, Debug, PartialEq, Eq)]
pub enum When {
    /// Before the message's first store.
    Early,
    /// Before the envelope's acknowledgement.
    Late,
}
