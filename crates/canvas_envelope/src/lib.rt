//! Messages as a queue carries them: their data, what they can hold, and how their texts (`Wire`)
//! are written, some of which a message may hold.
#![tactic(auto)]

mod carried;
mod draft;
mod embed;
mod envelope;
mod fault;
mod fits;
mod followed;
mod kept;
mod letter;
mod message;
mod nested_text;
mod pieces;
mod texts;
mod unplaced;
mod writing;

pub use carried::share_carried;
pub use draft::Draft;
pub use embed::Embed;
pub use envelope::Envelope;
pub use fault::MessageFault;
pub use fits::{MOST_MEMBERS, following};
pub use followed::Followed;
pub use letter::Letter;
pub use message::Message;
pub use nested_text::{CarriedText, Ring};
pub use pieces::{LinePiece, Piece, Pieces};
pub use texts::{ElementsText, Head, LineText, Texts, share_text};
pub use unplaced::Unplaced;
pub use writing::{
    Body, ascii, body_of, body_of_followed, carried_text, line_text, numbered_text, put_parent_id,
    put_place_id, put_string, put_task_id,
};
