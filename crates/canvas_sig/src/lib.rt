//! Signatures as Celery writes them in JSON: reading and writing. Signatures as values, and
//! canvases, are re-exported from `canvas_values`.
#![tactic(auto)]

mod arguments;
mod canvas_text;
mod datum;
mod escaped;
mod fields;
mod fronts;
mod json_argument;
mod members;
mod names;
mod number;
mod ordered;
mod own_fault;
mod parsing;
mod place;
mod plain;
mod primitive;
mod reader;
mod runs;
mod source;
mod unread;
mod write;

/// The functions with which messages read the signatures that they carry.
pub mod parts {
    pub use crate::arguments::{read_args, read_kwargs};
    pub use crate::canvas_text::{MOST_LEVELS, canvas_of};
    pub use crate::datum::Datum;
    pub use crate::fields::{
        as_list, is_list, is_list_or_null, is_null, is_object_or_null, is_true, kwarg_of, listed,
        option_of, or_null,
    };
    pub use crate::own_fault::{is_name, is_text, own_fault};
    pub use crate::parsing::parse;
    pub use crate::primitive::primitive_of;
    pub use crate::reader::{read_node, text_of};
}

pub use canvas_text::{MOST_BYTES, read_canvas};
pub use canvas_values::{Canvas, Node, SigFault, TaskSig, copy_sig, copy_sigs, law_of_parts};
pub use json_argument::read_arg;
pub use write::{write_arg, write_canvas, write_node};
