//! A canvas on Celery's own workers: a run's number, identifiers and keys on Redis; the commands
//! for Redis that start it; and the outcomes of its tasks, from the results that workers stored.
#![tactic(auto)]

mod commands;
mod key;
mod result_keys;
mod results;
mod run_number;

pub use commands::{
    FillFault, Start, Target, export, export_with, law_of_commands, law_of_exports, law_of_messages,
};
pub use key::{marker_key, size_key};
pub use result_keys::keys;
pub use results::{CollectFault, StoredFault, collect, complete};
pub use run_number::Run;
