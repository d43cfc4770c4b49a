//! Canvases as work for real Celery workers on Redis.

mod around;
mod by_script;
mod by_transaction;
mod envelope;
mod exporting;
mod fault;
mod filled;
mod filling;
mod law;
mod parts;
mod resp;
mod start;
mod starting;
mod target;
mod values;
mod write;

pub use exporting::export;
pub use fault::FillFault;
pub use filled::export_with;
pub use law::{law_of_commands, law_of_exports, law_of_messages};
pub use start::Start;
pub use target::Target;
