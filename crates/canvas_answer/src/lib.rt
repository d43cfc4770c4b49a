//! Requests to the program `canvas`, and its answers as far as they need no run of the engine.
#![tactic(auto)]

pub mod adapt;
pub mod again;
pub mod answer;
mod blamed;
pub mod celery;
pub mod command_line;
pub mod each;
pub mod errors;
mod escaping;
mod evaluated;
pub mod failures;
pub mod figures;
mod finding;
mod given;
pub mod graph;
mod ignored;
pub mod input;
pub mod items;
mod named_rows;
mod names;
pub mod normal;
pub mod numbers;
mod output;
pub mod plan;
pub mod prepared;
pub mod printing;
pub mod refusal;
pub mod reporting;
mod said;
pub mod setting;
pub mod source;
pub mod stubs;
mod told;
pub mod unread;
pub mod warnings;
pub mod workers;
