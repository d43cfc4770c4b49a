//! Messages, and what follows from the end of a task.

pub use canvas_message::{
    Draft, Envelope, Letter, Message, MessageFault, PartCall, Todo, after, body_after, decode,
    encode, first_messages, seal,
};
