//! The bytes around the texts of a start's messages.

/// The bytes before the first text and those after the last.
#[derive(Drop)]
pub(crate) struct Around {
    pub(crate) front: Vec<u8>,
    pub(crate) back: Vec<u8>,
}
