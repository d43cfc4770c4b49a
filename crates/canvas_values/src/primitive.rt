//! The kinds of signatures.

/// The kind of a signature, which `subtask_type` gives.
#[derive(Clone, Copy, Drop)]
pub enum Primitive {
    /// Null, or missing.
    Task,
    /// `chain`.
    Chain,
    /// `group`.
    Group,
    /// `chord`.
    Chord,
}
