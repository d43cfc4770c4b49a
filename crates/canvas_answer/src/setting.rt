//! How canvases are run, besides what answers their calls.

use crate::errors::OtherError;
use canvas_adapt::{Rename, Stub};

/// How canvases are prepared and shown.
#[derive(Clone, Copy)]
pub struct Setting<'a> {
    /// Whether they are adapted first.
    pub adapts: bool,
    /// The stubs that come before the tasks.
    pub stubs: &'a [Stub],
    /// The stubs of the names in the words.
    pub said: &'a [Stub],
    /// The exceptions of stubs that NotRegistered replaces.
    pub errors: &'a [OtherError],
    /// The names that some tasks have while a canvas runs: those with a numbered stub.
    pub renames: &'a [Rename],
}
