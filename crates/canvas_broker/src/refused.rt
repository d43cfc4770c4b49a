//! The answer to a publish for which there was no memory.

use canvas_envelope::Envelope;
use thiserror::Error;

/// An envelope that was not published, because memory was refused.
#[derive(Debug, Drop, Error)]
#[error("the message was refused")]
pub struct Refused<T = Envelope> {
    /// The envelope, as the caller passed it.
    pub envelope: T,
}
