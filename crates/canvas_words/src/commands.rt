//! The help of each command, and its arguments.

ghost use Rattle.std.specs.Prelude.{◌≡◌, false, map, IfOk};
ghost use Rattle.std.specs.List.{All};
ghost use Rattle.clap.specs.Simple.{shape_of};
ghost use Rattle.clap.specs.declared.builder.command.Command.TheViews.{out-Command};
ghost use Rattle.canvas_words.specs.Options.{all, command, options, offered, named_among};
ghost use Rattle.canvas_words.specs.steps.Rules.{rule};

use crate::Subcommand;
use crate::arguments::{
    ADAPT, AGAIN, Argument, BACKEND_DATABASE, BROKER_DATABASE, CALLS, COMPLETE, EACH, EXPIRES,
    EXPLAIN, FAIL, FAILURES, FIGURES_JSON, FILE, FILE_ALONE, JSON, NULL, NUMBERS, OF,
    PAGE_FAILURES, PREFIX, QUEUE, REFUSAL_JSON, RENAME, RESULTS, RUN, STATES, STEPS, STRICT, TASK,
    TASKS, TURNS, VALUES, WITH_TASKS, WITHOUT_SCRIPT, WORKERS, arguments_of,
};
use clap::Command;
use std::alloc::{AllocError, Global};

/// The arguments of `run`.
static RUN_ARGUMENTS: [Argument; 12] = [
    FILE, WORKERS, ADAPT, TASK, TASKS, JSON, EXPLAIN, FAILURES, EACH, NULL, WITH_TASKS, FAIL,
];

/// The arguments of `turns`.
static TURNS_ARGUMENTS: [Argument; 10] = [
    FILE, WORKERS, TURNS, AGAIN, STEPS, ADAPT, TASK, TASKS, JSON, FAIL,
];

/// The arguments of `graph`.
static GRAPH: [Argument; 10] = [
    FILE,
    STATES,
    WORKERS,
    ADAPT,
    TASK,
    TASKS,
    RESULTS,
    OF,
    COMPLETE,
    REFUSAL_JSON,
];

/// The arguments of `page`.
static PAGE: [Argument; 6] = [FILE, PAGE_FAILURES, ADAPT, TASK, TASKS, REFUSAL_JSON];

/// The arguments of `messages`.
static MESSAGES: [Argument; 8] = [
    FILE,
    WORKERS,
    TURNS,
    CALLS,
    ADAPT,
    TASK,
    TASKS,
    REFUSAL_JSON,
];

/// The arguments of `export`.
static EXPORT: [Argument; 11] = [
    FILE,
    RUN,
    ADAPT,
    VALUES,
    QUEUE,
    PREFIX,
    EXPIRES,
    BROKER_DATABASE,
    BACKEND_DATABASE,
    WITHOUT_SCRIPT,
    REFUSAL_JSON,
];

/// The arguments of `normal`.
static NORMAL: [Argument; 4] = [FILE, NUMBERS, ADAPT, REFUSAL_JSON];

/// The arguments of `check`.
static CHECK: [Argument; 6] = [FILE, ADAPT, TASK, TASKS, FIGURES_JSON, STRICT];

/// The arguments of `adapt`.
static ADAPT_ARGUMENTS: [Argument; 3] = [FILE, RENAME, REFUSAL_JSON];

/// The arguments of `keys`.
static KEYS: [Argument; 5] = [FILE, RUN, ADAPT, PREFIX, REFUSAL_JSON];

/// The arguments of `collect`.
static COLLECT: [Argument; 5] = [FILE_ALONE, RUN, ADAPT, COMPLETE, JSON];

impl Subcommand {
    fn about<'a>(self) -> &'a str {
        match self {
            Subcommand::Run => "Runs a canvas and prints the state and result of each task",
            Subcommand::Turns => {
                "Runs a canvas with its workers taking turns by a list, and prints the same"
            }
            Subcommand::Normal => "Prints a canvas's normal line as JSON",
            Subcommand::Check => {
                "Prints the statistics of a canvas and its warnings, or where it is refused and why"
            }
            Subcommand::Adapt => {
                "Prints a canvas that runs here, from any that Celery writes, and says what was changed"
            }
            Subcommand::Graph => {
                "Prints a canvas as a picture, in the language of Graphviz's `dot`"
            }
            Subcommand::Page => {
                "Prints an HTML page that shows a canvas, what becomes of it if a task fails, and its runs"
            }
            Subcommand::Messages => {
                "Prints each message that a run by turns publishes, as JSON with its three texts"
            }
            Subcommand::Export => {
                "Prints the commands for Redis that start a canvas on Celery's workers"
            }
            Subcommand::Keys => "Prints the keys of a canvas's results on Redis, one a line",
            Subcommand::Collect => {
                "Prints the report of a canvas from its results on standard input, one a line"
            }
        }
    }

    fn arguments<'a>(self) -> &'a [Argument]
        ensures { map rule result.now ≡ options self }
    {
        match self {
            Subcommand::Run => &RUN_ARGUMENTS,
            Subcommand::Turns => &TURNS_ARGUMENTS,
            Subcommand::Normal => &NORMAL,
            Subcommand::Check => &CHECK,
            Subcommand::Adapt => &ADAPT_ARGUMENTS,
            Subcommand::Graph => &GRAPH,
            Subcommand::Page => &PAGE,
            Subcommand::Messages => &MESSAGES,
            Subcommand::Export => &EXPORT,
            Subcommand::Keys => &KEYS,
            Subcommand::Collect => &COLLECT,
        }
    }

    fn as_clap<'a>(self, alloc: Global) -> Result<Command<'a>, AllocError>
        ensures shape { IfOk result (λ c. shape_of c ≡ command self) }
        ensures local { IfOk result (λ c. (out-Command c).has_globals ≡ false) }
    {
        let arguments = arguments_of(alloc, self.arguments())?;
        let plain = Command::new(alloc, self.name()).about(self.about());
        Ok(plain.args(arguments)?)
    }
}

/// Returns some commands, in their order.
fn commands_in<'a>(alloc: Global, list: &[Subcommand]) -> Result<Vec<Command<'a>>, AllocError>
    ensures shapes { IfOk result (λ made. map shape_of made.items ≡ map command list.now) }
    ensures local { IfOk result
        (λ made. All (λ c. (out-Command c).has_globals ≡ false) made.items) }
{
    let mut commands = Vec::with_capacity(alloc, list.len())?;
    for command in list {
        commands.push(command.as_clap(alloc)?)?;
    }
    Ok(commands)
}

/// Returns the command of a name, or all if none has it.
pub(crate) fn commands_of<'a>(alloc: Global, name: &str) -> Result<Vec<Command<'a>>, AllocError>
    ensures shapes { IfOk result (λ made.
        map shape_of made.items ≡ map command (offered (named_among all name.now))) }
    ensures local { IfOk result
        (λ made. All (λ c. (out-Command c).has_globals ≡ false) made.items) }
{
    match Subcommand::named(name) {
        Some(command) => commands_in(alloc, &[command]),
        None => commands_in(alloc, &Subcommand::ALL),
    }
}
