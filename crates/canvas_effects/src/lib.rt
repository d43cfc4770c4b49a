//! The effects of the start of a plan, the end of a task, and the completion of a header: the
//! outcomes to store, the messages to publish, and the part to return.
#![tactic(auto)]

mod chord_body;
mod copies;
mod destination;
mod destinations;
mod effects;
mod input;
mod moving;
mod todo;

pub use chord_body::ChordBody;
pub use effects::{
    FirstMessages, after, body_after, first_messages, into_body, into_onward, into_todo,
};
pub use todo::{Onward, PartCall, Todo};
