//! Stubs: names whose calls answer what a text says, instead of tasks.
//!
//! `Stubbed` wraps any tasks and implements `Tasks` itself, so that a run with stubs is a run like
//! any other, and no contract of the engine mentions stubs.

mod fault;
mod laws;
mod raising;
mod reading;
mod stub;
mod stubbed;
mod word;

pub use fault::{BadStub, StubFault};
pub use laws::law_of_stubs;
pub use raising::{other_error, plain_text};
pub use reading::{read_stub, read_stubs};
pub use stub::{Does, Stub};
pub use stubbed::Stubbed;
