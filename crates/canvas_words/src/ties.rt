//! Options that are given only with another, or only without it.
//!
//! They are checked after parsing: a contract of `clap` says for which words it gives matches only
//! if no option is tied to another.

use crate::Subcommand;
use clap::ArgMatches;
use clap::parser::ValueSource;

/// Why options can't be given together.
#[derive(Clone, Copy)]
pub(crate) enum Tie {
    /// One is given without the one that it belongs to.
    Lacks(&'static str),
    /// One is given beside another that excludes it.
    Excludes(&'static str),
}

/// Returns whether the words have an option.
fn has(given: &ArgMatches<'_>, option: &str) -> bool {
    given.value_source(option) == Some(ValueSource::CommandLine)
}

/// Returns what is wrong with the options of a picture.
fn broken_tie_of_picture(given: &ArgMatches<'_>) -> Option<Tie> {
    let results = has(given, "results");
    if results && has(given, "run") {
        Some(Tie::Excludes("the argument '--results <FILE>' cannot be used with '--run'"))
    } else if results && !has(given, "of") {
        Some(Tie::Lacks("the argument '--results <FILE>' requires '--of <HEX22>'"))
    } else if !results && (has(given, "of") || has(given, "complete")) {
        Some(Tie::Lacks("the arguments '--of <HEX22>' and '--complete' require '--results <FILE>'"))
    } else {
        None
    }
}

/// Returns what is wrong with a command's options, if they can't be given together.
pub(crate) fn broken_tie(command: Subcommand, given: &ArgMatches<'_>) -> Option<Tie> {
    match command {
        Subcommand::Run if has(given, "null") && !has(given, "each") => {
            Some(Tie::Lacks("the argument '--null' requires '--each'"))
        }
        Subcommand::Run if has(given, "with-tasks") && !has(given, "null") => {
            Some(Tie::Lacks("the argument '--with-tasks' requires '--null'"))
        }
        Subcommand::Run if has(given, "failures") && has(given, "each") => Some(Tie::Excludes(
            "the argument '--failures <WORD>' cannot be used with '--each'",
        )),
        Subcommand::Run if has(given, "failures") && has(given, "explain") => Some(Tie::Excludes(
            "the argument '--failures <WORD>' cannot be used with '--explain'",
        )),
        Subcommand::Graph => broken_tie_of_picture(given),
        _ => None,
    }
}
