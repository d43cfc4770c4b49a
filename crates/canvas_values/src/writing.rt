//! Signatures as JSON: the tokens of each, written one after the other.

mod arguments;
mod node;
mod task;

pub use arguments::{write_args, write_named};
pub use node::{write_closing, write_kind, write_tree};
pub use task::{write_end, write_flag, write_front, write_kwargs};
