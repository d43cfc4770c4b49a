//! The words of the program `canvas`: its commands, their arguments, and their help.
#![tactic(auto)]

mod arguments;
mod commands;
mod help;
mod program;
mod subcommand;
mod ties;

pub use program::{bad_text, read_words};
pub use subcommand::Subcommand;
