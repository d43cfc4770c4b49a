//! The outcomes of a canvas's tasks from the results that Celery's workers stored.

mod collecting;
mod completing;
mod named;
mod pieces;
mod showing;
mod stored;

pub use collecting::{CollectFault, collect};
pub use completing::complete;
pub use stored::StoredFault;
