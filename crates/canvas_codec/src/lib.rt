//! Envelopes and letters of messages, and reading messages from their texts.
#![tactic(auto)]

mod by_parts;
mod decoding;
mod encoding;
mod read;
mod sealing;

pub use by_parts::law_of_frozen_parts;
pub use decoding::decode;
pub use encoding::encode;
pub use sealing::{open, seal, seal_followed};
