//! Canvases of the engine's profile from any signature that Celery writes as JSON; and a user's own
//! names: other names by number, and stubs, which answer instead of tasks.
#![tactic(auto)]

mod adapting;
mod arena_vec;
mod argument;
mod callback;
mod calls;
mod changes;
mod compound;
mod context;
mod counting;
mod inherited;
mod member;
mod node;
mod part;
mod printing;
mod rename_fault;
mod renames;
mod renaming;
mod shape;
mod stubs;
mod task;
mod text;
mod thaw;
mod value_names;

pub use adapting::{Adapted, adapt};
pub use changes::{Change, Changes};
pub use printing::{AdaptedText, adapted_text};
pub use rename_fault::{BadRename, RenameFault};
pub use renames::{Rename, read_rename, read_renames};
pub use renaming::{law_of_renames, renamed};
pub use stubs::{
    BadStub, Does, Stub, StubFault, Stubbed, law_of_stubs, other_error, plain_text, read_stub,
    read_stubs,
};
