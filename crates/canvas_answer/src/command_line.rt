//! Requests: what the words of the command line ask for.
ghost use Rattle.std.specs.Prelude.{◌≡◌, IfErr, IfOk, codes, map, string_bytes, true, Some};
ghost use Rattle.clap.specs.Matches.{found_of};
ghost use Rattle.clap.specs.Takes.{takes};
ghost use Rattle.clap.specs.Walk.{first_of, rows_of};
ghost use Rattle.canvas_words.specs.declared.subcommand.Subcommand.TheVariants as subcommand;
ghost use Rattle.canvas_answer.specs.Requests.{AreFailures, AreFailuresBy, AreDatabases, AreTurns, IsCollecting, IsEach, IsFormat, IsOutputOptions, IsRequest, IsRun, IsShowing, IsTarget, IsVerb, IsAction, IsWorkers};
ghost use Rattle.canvas_words.specs.Options.{program_for};
ghost use Rattle.canvas_answer.specs.Wanted.{IsAskedBy, IsAskedWith, IsNoHelp};

use crate::adapt::asked_renames;
use crate::again::{Again, asked_again};
use crate::celery::{Collecting, OnCelery, run_of};
use crate::each::Each;
use crate::failures::{Failures, check_raise};
use crate::given::{has_flag, number_given, number_of, text_given, text_of};
use crate::graph::{States, Stored};
use crate::refusal::Refusal;
use crate::reporting::{Format, OutputOptions};
use crate::stubs::{AskedStubs, asked_stubs};
use canvas_adapt::Rename;
use canvas_celery::{Run, Target};
use canvas_runs::read_turns;
use canvas_words::{Subcommand, read_words};
use clap::ArgMatches;
use std::alloc::Global;

/// Something to do with a canvas.
#[derive(Drop)]
pub enum Verb<'w> {
    /// A run by some workers on threads, and its report.
    Run {
        workers: u32,
        output: OutputOptions,
    },
    /// A run by some workers that take turns by a list, and its report.
    Turns {
        workers: u32,
        turns: Vec<u32>,
        again: Again<'w>,
        /// Whether the steps are shown instead of the report.
        steps: bool,
        output: OutputOptions,
    },
    /// The normal line, as JSON.
    Normal {
        /// Whether tasks, groups and chords are named in it.
        numbers: bool,
    },
    /// The statistics and warnings, or where the canvas is refused.
    Check {
        output: OutputOptions,
    },
    /// The canvas adapted to one that can be run.
    Adapt {
        renames: Vec<Rename>,
    },
    /// The picture.
    Graph {
        states: States<'w>,
    },
    /// The messages that a run by some workers that take turns publishes.
    Messages {
        workers: u32,
        turns: Vec<u32>,
        /// Whether the calls that the messages ask for are shown, instead of the messages' texts.
        calls: bool,
    },
    /// A run on Celery's own workers.
    Celery {
        run: Run,
        asked: OnCelery<'w>,
    },
}

/// The work of a request.
#[derive(Drop)]
pub enum Action<'w> {
    /// Something with one canvas.
    One(Verb<'w>),
    /// The runs of many.
    Each(Each),
    /// The evaluations of one canvas in which only one task fails, for each task.
    Failures(Failures<'w>),
    /// A page of one canvas, which shows these too.
    Page(Failures<'w>),
}

/// The work and its canvas.
#[derive(Drop)]
pub struct Request<'w> {
    pub action: Action<'w>,
    /// The file of the canvas.
    pub file: &'w str,
    /// Whether the canvas is adapted first.
    pub adapts: bool,
    /// Whether JSON is asked for, also for refusals.
    pub is_json: bool,
}

/// A request, with the answers of tasks.
#[derive(Drop)]
pub struct CommandLine<'w> {
    pub request: Request<'w>,
    /// The answers of some tasks.
    pub stubs: AskedStubs<'w>,
}

/// Why words ask for nothing.
#[derive(Drop)]
pub enum Unasked {
    /// The output of the parser of words: help, the version, or a mistake in the words.
    Words(clap::Error),
    /// A mistake in one of the words, or memory that is refused.
    Refused(Refusal),
}

impl<'w> CommandLine<'w> {
    /// Reads the words after the program's name. Help is an output of the parser of words, too.
    pub fn of(alloc: Global, words: &'w [String]) -> Result<CommandLine<'w>, Unasked>
        ensures ok { IfOk result (IsAskedBy (map string_bytes words.entry.now)) }
        ensures err { IfErr result (λ why. takes (program_for (map string_bytes words.entry.now))
            (map string_bytes words.entry.now) ≡ true → IsNoHelp why) }
    {
        match read_words(alloc, words) {
            Ok((command, given)) => match CommandLine::by(alloc, command, &given) {
                Ok(asked) => Ok(asked),
                Err(refusal) => Err(Unasked::Refused(refusal)),
            },
            Err(error) => Err(Unasked::Words(error)),
        }
    }

    /// Returns what a command asks for with its arguments.
    fn by(
        alloc: Global,
        command: Subcommand,
        given: &ArgMatches<'w>,
    ) -> Result<CommandLine<'w>, Refusal>
        ensures { IfOk result (IsAskedWith (rows_of (found_of given.now)) command) }
    {
        Ok(CommandLine {
            request: request_of(alloc, command, given)?,
            stubs: asked_stubs(alloc, command, given)?,
        })
    }
}

/// Returns the work and its canvas.
fn request_of<'w>(
    alloc: Global,
    command: Subcommand,
    given: &ArgMatches<'w>,
) -> Result<Request<'w>, Refusal>
    ensures { IfOk result (IsRequest (rows_of (found_of given.now)) command) }
{
    Ok(Request {
        action: work_of(alloc, command, given)?,
        file: text_of(given, "FILE"),
        adapts: has_flag(given, "adapt"),
        is_json: has_flag(given, "json"),
    })
}

fn work_of<'w>(
    alloc: Global,
    command: Subcommand,
    given: &ArgMatches<'w>,
) -> Result<Action<'w>, Refusal>
    ensures { IfOk result (IsAction (rows_of (found_of given.now)) command) }
{
    if has_flag(given, "each") {
        return Ok(Action::Each(each_of(given)));
    }
    match text_given(given, "failures") {
        Some(word) => failures_work(alloc, command, given, word),
        None => Ok(Action::One(verb_of(alloc, command, given)?)),
    }
}

/// Returns the work in which only one task fails, in lines or in a page.
fn failures_work<'w>(
    alloc: Global,
    command: Subcommand,
    given: &ArgMatches<'w>,
    word: &'w str,
) -> Result<Action<'w>, Refusal>
    ensures { IfOk result (AreFailuresBy (rows_of (found_of given.now)) command (Some word.now)) }
{
    let failures = failures_of(alloc, given, word)?;
    match command {
        Subcommand::Page => Ok(Action::Page(failures)),
        _ => Ok(Action::Failures(failures)),
    }
}

fn verb_of<'w>(
    alloc: Global,
    command: Subcommand,
    given: &ArgMatches<'w>,
) -> Result<Verb<'w>, Refusal>
    ensures { IfOk result (IsVerb (rows_of (found_of given.now)) command) }
{
    match command {
        Subcommand::Run => Ok(run_verb(given)),
        Subcommand::Turns => turns_verb(alloc, given),
        // A page has a word for failures, given or not, so there is none here.
        Subcommand::Normal | Subcommand::Page => Ok(Verb::Normal {
            numbers: has_flag(given, "numbers"),
        }),
        Subcommand::Check => Ok(check_verb(given)),
        Subcommand::Adapt => Ok(Verb::Adapt {
            renames: asked_renames(alloc, given)?,
        }),
        Subcommand::Graph => Ok(Verb::Graph {
            states: states_of(given)?,
        }),
        Subcommand::Messages => messages_verb(alloc, given),
        Subcommand::Export => Ok(Verb::Celery {
            run: run_given(given, "run")?,
            asked: OnCelery::Export {
                target: target_of(given),
                values: text_given(given, "values"),
            },
        }),
        Subcommand::Keys => Ok(Verb::Celery {
            run: run_given(given, "run")?,
            asked: OnCelery::Keys {
                prefix: text_of(given, "prefix"),
            },
        }),
        Subcommand::Collect => Ok(Verb::Celery {
            run: run_given(given, "run")?,
            asked: OnCelery::Collect(collecting_of(given)),
        }),
    }
}

/// Returns the run that an option names.
fn run_given(given: &ArgMatches<'_>, option: &str) -> Result<Run, Refusal>
    ensures { IfOk result (IsRun (rows_of (found_of given.now)) option.now) }
{
    run_of(text_of(given, option))
}

/// Returns which states a picture is to show.
fn states_of<'w>(given: &ArgMatches<'w>) -> Result<States<'w>, Refusal>
    ensures { IfOk result (IsShowing (rows_of (found_of given.now))
        (first_of (codes "results") (rows_of (found_of given.now)))) }
{
    match text_given(given, "results") {
        Some(file) => Ok(States::Stored(Stored {
            file,
            run: run_given(given, "of")?,
            completes: has_flag(given, "complete"),
        })),
        None if has_flag(given, "run") => Ok(States::Run(workers_of(given))),
        None => Ok(States::None),
    }
}

fn run_verb<'w>(given: &ArgMatches<'w>) -> Verb<'w>
    ensures { IsVerb (rows_of (found_of given.now)) subcommand.Run result }
{
    Verb::Run {
        workers: workers_of(given),
        output: output_of(given, "fail"),
    }
}

fn each_of(given: &ArgMatches<'_>) -> Each
    ensures { IsEach (rows_of (found_of given.now)) result }
{
    Each {
        workers: workers_of(given),
        fails: has_flag(given, "fail"),
        end: if has_flag(given, "null") { 0 } else { b'\n' },
        has_tasks: has_flag(given, "with-tasks"),
    }
}

/// Returns what each task fails with, which is an exception that a task may raise.
fn failures_of<'w>(
    alloc: Global,
    given: &ArgMatches<'_>,
    word: &'w str,
) -> Result<Failures<'w>, Refusal>
    ensures { IfOk result (AreFailures (rows_of (found_of given.now)) (Some word.now)) }
{
    check_raise(alloc, word)?;
    Ok(Failures {
        word,
        fails: has_flag(given, "fail"),
    })
}

/// Returns the turns that are given for some workers.
fn turns_of(alloc: Global, given: &ArgMatches<'_>, workers: u32) -> Result<Vec<u32>, Refusal>
    ensures { IfOk result (λ turns. AreTurns (rows_of (found_of given.now)) workers turns.items) }
{
    Ok(read_turns(alloc, text_of(given, "turns"), workers)?)
}

fn turns_verb<'w>(alloc: Global, given: &ArgMatches<'w>) -> Result<Verb<'w>, Refusal>
    ensures { IfOk result (IsVerb (rows_of (found_of given.now)) subcommand.Turns) }
{
    let workers = workers_of(given);
    Ok(Verb::Turns {
        workers,
        turns: turns_of(alloc, given, workers)?,
        again: asked_again(alloc, given)?,
        steps: has_flag(given, "steps"),
        output: output_of(given, "fail"),
    })
}

fn messages_verb<'w>(alloc: Global, given: &ArgMatches<'w>) -> Result<Verb<'w>, Refusal>
    ensures { IfOk result (IsVerb (rows_of (found_of given.now)) subcommand.Messages) }
{
    let workers = workers_of(given);
    let turns = turns_of(alloc, given, workers)?;
    Ok(Verb::Messages {
        workers,
        turns,
        calls: has_flag(given, "calls"),
    })
}

fn check_verb<'w>(given: &ArgMatches<'w>) -> Verb<'w>
    ensures { IsVerb (rows_of (found_of given.now)) subcommand.Check result }
{
    Verb::Check {
        output: output_of(given, "strict"),
    }
}

fn collecting_of(given: &ArgMatches<'_>) -> Collecting
    ensures { IsCollecting (rows_of (found_of given.now)) result }
{
    Collecting {
        completes: has_flag(given, "complete"),
        output: OutputOptions {
            form: format_of(given),
            fails: false,
        },
    }
}

fn workers_of(given: &ArgMatches<'_>) -> u32
    ensures { IsWorkers (rows_of (found_of given.now)) result }
{
    number_of(given, "workers", 1)
}

/// Returns how a report is printed, with a flag for a status of its own.
fn output_of(given: &ArgMatches<'_>, flag: &str) -> OutputOptions
    ensures { IsOutputOptions (rows_of (found_of given.now)) flag.now result }
{
    OutputOptions {
        form: format_of(given),
        fails: has_flag(given, flag),
    }
}

/// Returns the form of a report. JSON has all that an explanation has.
fn format_of(given: &ArgMatches<'_>) -> Format
    ensures { IsFormat (rows_of (found_of given.now)) result }
{
    if has_flag(given, "json") {
        Format::Json
    } else if has_flag(given, "explain") {
        Format::Explained
    } else {
        Format::Plain
    }
}

fn target_of<'w>(given: &ArgMatches<'w>) -> Target<'w>
    ensures { IsTarget (rows_of (found_of given.now)) result }
{
    Target {
        queue: text_of(given, "queue"),
        prefix: text_of(given, "prefix"),
        expires: number_of(given, "expires", 1),
        databases: databases_of(given),
        by_script: !has_flag(given, "without-script"),
    }
}

/// Returns the database of the broker and that of the backend, if one was named.
fn databases_of(given: &ArgMatches<'_>) -> Option<(u32, u32)>
    ensures { AreDatabases (rows_of (found_of given.now)) result }
{
    match (
        number_given(given, "broker-db"),
        number_given(given, "backend-db"),
    ) {
        (None, None) => None,
        (broker, backend) => Some((broker.unwrap_or(0), backend.unwrap_or(0))),
    }
}
