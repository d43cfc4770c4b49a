//! Writing the texts of messages: signatures as tokens of JSON, and the rest as text.

mod around;
mod body;
mod carried;
mod frozen;
mod identifiers;
mod light;
mod line;
mod numbered;
mod pieces;
mod room;
mod text;

pub use body::{Body, body_of, body_of_followed};
pub use carried::carried_text;
pub use light::{put_parent_id, put_place_id, put_task_id};
pub use line::line_text;
pub use numbered::numbered_text;
pub use text::{ascii, put_string};
