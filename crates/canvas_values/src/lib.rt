//! Signatures of canvases as values, the tokens of their JSON, the limits of a canvas, and the
//! definitions of what a text spells and why it is refused.
//!
//! Normal lines, plans and messages need only this crate; `canvas_sig` reads signatures, writes
//! whole texts, and re-exports these values. Contracts see a map as the list of its entries in the
//! order of their names, and a bare `Node` or `TaskSig` by its view.
#![tactic(auto)]

mod by_parts;
mod canvas;
mod composed;
mod copy;
mod counting;
mod depths;
mod fault;
mod group_nesting;
mod limits;
mod nesting;
mod node;
mod primitive;
mod reach;
mod task_sig;
mod writing;

pub use by_parts::law_of_parts;
pub use canvas::Canvas;
pub use composed::{args_fit, kwargs_fit};
pub use copy::{copy_sig, copy_sigs};
pub use depths::Depths;
pub use fault::SigFault;
pub use node::Node;
pub use primitive::Primitive;
pub use task_sig::TaskSig;
pub use writing::{
    write_args, write_closing, write_end, write_flag, write_front, write_kind, write_kwargs,
    write_named, write_tree,
};
