//! The program's words: its commands, its version and its help.

ghost use Rattle.std.specs.Prelude.{◌≡◌, [], false, true, codes, map, IfErr, IfOk, string_bytes};
ghost use Rattle.clap.specs.Matches.{found_of};
ghost use Rattle.clap.specs.Simple.{app_of, new_shape, subcommand_of, subcommand_rows_of};
ghost use Rattle.clap.specs.Takes.{takes};
ghost use Rattle.clap.specs.Values.{kind_of};
ghost use Rattle.clap.specs.Walk.{rows_of};
ghost use Rattle.clap.specs.declared.error.kind.ErrorKind.TheVariants.{OutOfMemory};
ghost use Rattle.clap.specs.declared.builder.command.Command.TheViews.{out-Command};
ghost use Rattle.canvas_words.specs.Options.{all, first_word, named_among, offered, program, program_for, IsAsked, IsMistake};

use crate::Subcommand;
use crate::commands::commands_of;
use crate::help::{NOTES, topic};
use crate::ties::{Tie, broken_tie};
use clap::error::ErrorKind;
use clap::{ArgMatches, Command, Error};
use std::alloc::{AllocError, Global};

/// The version of the program.
const VERSION: &str = "1.0.0";

/// Returns the program without its commands.
fn plain_program<'a>(alloc: Global) -> Result<Command<'a>, AllocError>
    ensures { IfOk result (λ c. app_of c ≡ record {
      top = record (new_shape (codes "canvas")) { no_binary_name = true; has_version = true };
      subs = [];
    }) }
{
    let program = Command::new(alloc, "canvas")
        .about("Runs Celery canvases: chains, groups and chords of tasks")
        .version(VERSION)
        .after_help(NOTES)
        .no_binary_name(true);
    Ok(program.bin_name("canvas")?)
}

/// Returns the program with the command of a name, or with all if none has it.
fn program_of<'a>(alloc: Global, name: &str) -> Result<Command<'a>, AllocError>
    ensures { IfOk result (λ c. app_of c ≡ program (offered (named_among all name.now))) }
{
    let commands = commands_of(alloc, name)?;
    let plain = plain_program(alloc)?.subcommand_required(true);
    Ok(plain.subcommands(commands)?)
}

/// Returns the first of the words.
fn first_of(words: &[String]) -> &str
    ensures { result.now ≡ first_word (map string_bytes words.now) }
{
    match words.first() {
        Some(word) => word.as_str(),
        None => "",
    }
}

/// Parses the words after the program's name. If they begin with a command, the others aren't made,
/// since none of them is asked.
fn matches_of<'w>(alloc: Global, words: &'w [String]) -> Result<ArgMatches<'w>, Error>
    ensures ok { IfOk result (λ m. subcommand_rows_of m
        ≡ subcommand_of (program_for (map string_bytes words.entry.now))
        (map string_bytes words.entry.now)) }
    ensures err { IfErr result (λ e. takes (program_for (map string_bytes words.entry.now))
        (map string_bytes words.entry.now) ≡ true → kind_of e ≡ OutOfMemory) }
{
    let program = program_of(alloc, first_of(words))?;
    program.try_get_matches_from(words)
}

/// Returns the topic that `help TOPIC` asks for, if there is one of this name.
fn topic_in<'t>(words: &[String]) -> Option<&'t str> {
    match words {
        [first, name] if first.as_str() == "help" => topic(name.as_str()),
        _ => None,
    }
}

/// Replaces the parser's refusal of `help TOPIC` by the text of the topic, or appends the text to
/// the help of the command that has the topic's name.
fn with_topic(alloc: Global, words: &[String], error: Error) -> Error
    ensures { kind_of error ≡ OutOfMemory → IsMistake (kind_of result) }
{
    match error.kind() {
        ErrorKind::DisplayHelp | ErrorKind::InvalidSubcommand => match topic_in(words) {
            Some(text) => explained(alloc, text, &error),
            None => error,
        },
        _ => error,
    }
}

/// Returns a text as help, after the help of a command if that is asked for.
fn explained(alloc: Global, text: &str, error: &Error) -> Error {
    match help_with(alloc, text, error) {
        Ok(help) => help,
        Err(error) => error,
    }
}

// Only the parser makes an error that is help, so it parses `--help` for a program with this text.
fn help_with(alloc: Global, text: &str, error: &Error) -> Result<Error, Error> {
    let whole = match error.kind() {
        ErrorKind::DisplayHelp => format!(in alloc; "{error}\n{text}")?,
        _ => String::from_str(alloc, text)?,
    };
    let program = Command::new(alloc, "canvas")
        .override_help(&whole)
        .no_binary_name(true);
    match program.try_get_matches_from(&["--help"]) {
        Ok(_) => Ok(no_command(alloc)),
        Err(help) => Ok(help),
    }
}

/// Returns the command that the words after the program's name ask for, with its arguments. Fails
/// with the parser's help, version or error, or if an option is given without the one that it
/// belongs to, or beside one that excludes it.
pub fn read_words<'w>(
    alloc: Global,
    words: &'w [String],
) -> Result<(Subcommand, ArgMatches<'w>), Error>
    ensures ok { IfOk result
        (λ r. IsAsked (map string_bytes words.entry.now) r.0 (rows_of (found_of r.1))) }
    ensures err { IfErr result (λ e. takes (program_for (map string_bytes words.entry.now))
        (map string_bytes words.entry.now) ≡ true → IsMistake (kind_of e)) }
{
    let mut matches = match matches_of(alloc, words) {
        Ok(matches) => matches,
        Err(error) => return Err(with_topic(alloc, words, error)),
    };
    let Some((name, given)) = matches.remove_subcommand() else {
        return Err(no_command(alloc));
    };
    match Subcommand::named(name) {
        Some(command) => {
            check_ties(alloc, command, &given)?;
            Ok((command, given))
        }
        None => Err(no_command(alloc)),
    }
}

/// Refuses options that can't be given together.
fn check_ties(alloc: Global, command: Subcommand, given: &ArgMatches<'_>) -> Result<(), Error>
    ensures { IfErr result (λ e. IsMistake (kind_of e)) }
{
    match broken_tie(command, given) {
        Some(Tie::Lacks(message)) => {
            Err(refused(alloc, ErrorKind::MissingRequiredArgument, message))
        }
        Some(Tie::Excludes(message)) => Err(refused(alloc, ErrorKind::ArgumentConflict, message)),
        None => Ok(()),
    }
}

/// Returns the error if there is no command, which the parser reports earlier.
fn no_command(alloc: Global) -> Error
    ensures { IsMistake (kind_of result) }
{
    refused(
        alloc,
        ErrorKind::MissingSubcommand,
        "'canvas' requires a subcommand but one was not provided",
    )
}

/// Returns the error for words that aren't UTF-8.
pub fn bad_text(alloc: Global) -> Error {
    refused(
        alloc,
        ErrorKind::InvalidValue,
        "invalid UTF-8 was detected in one or more arguments",
    )
}

fn refused(alloc: Global, kind: ErrorKind, message: &str) -> Error
    ensures { IsMistake kind → IsMistake (kind_of result) }
{
    match refusal_with_usage(alloc, kind, message) {
        Ok(error) => error,
        Err(error) => error,
    }
}

fn refusal_with_usage(alloc: Global, kind: ErrorKind, message: &str) -> Result<Error, Error>
    ensures ok { IfOk result (λ e. kind_of e ≡ kind) }
    ensures err { IfErr result (λ e. kind_of e ≡ OutOfMemory) }
{
    Ok(program_of(alloc, "")?.error(kind, message)?)
}
