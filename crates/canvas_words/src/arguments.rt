//! The arguments of the commands.

ghost use Rattle.std.specs.Prelude.{◌≡◌, [], false, map, IfOk};
ghost use Rattle.std.specs.List.{All};
ghost use Rattle.clap.specs.Walk.{rule_of};
ghost use Rattle.canvas_words.specs.steps.Rules.{named, rule};

use canvas_semantics::MOST_WORKERS;
use clap::builder::ValueParser;
use clap::{Arg, ArgAction};
use std::alloc::{AllocError, Global};

/// The value after an argument's name.
#[derive(Clone, Copy)]
pub(crate) enum Takes {
    /// Nothing, not even a name: the word is the argument.
    Word,
    /// Nothing: the name is there or not.
    Nothing,
    Text(&'static str),
    /// A text, any number of times.
    Texts(&'static str),
    /// A whole number from the first number to the second.
    Number(&'static str, u64, u64),
}

/// Whether an argument has to be given.
#[derive(Clone, Copy)]
pub(crate) enum Given {
    Always,
    Maybe,
    /// If it isn't given it is this.
    Else(&'static str),
}

/// An argument in a command's list.
#[derive(Clone, Copy)]
pub(crate) struct Argument {
    name: &'static str,
    takes: Takes,
    given: Given,
    help: &'static str,
}

pub(crate) const FILE: Argument = Argument {
    name: "FILE",
    takes: Takes::Word,
    given: Given::Always,
    help: "The canvas as JSON; `-` is standard input",
};

/// The file of a command that reads something else from standard input.
pub(crate) const FILE_ALONE: Argument = Argument {
    name: "FILE",
    takes: Takes::Word,
    given: Given::Always,
    help: "The canvas as JSON, in a file",
};

pub(crate) const WORKERS: Argument = Argument {
    name: "workers",
    takes: Takes::Number("N", 1, MOST_WORKERS as u64),
    given: Given::Else("1"),
    help: "How many workers run it, from 1 to 16",
};

pub(crate) const TURNS: Argument = Argument {
    name: "turns",
    takes: Takes::Text("LIST"),
    given: Given::Maybe,
    help: "Which worker goes on at each turn, as 1,2,2; after the list the workers take turns from 1",
};

pub(crate) const CALLS: Argument = Argument {
    name: "calls",
    takes: Takes::Nothing,
    given: Given::Maybe,
    help: "Prints each message as the call that it asks for, with the tasks that it comes after",
};

pub(crate) const AGAIN: Argument = Argument {
    name: "again",
    takes: Takes::Text("LIST"),
    given: Given::Maybe,
    help: "Which messages are redelivered, as 1:early,NAME:late, or all; standard error counts stores that answer Again",
};

pub(crate) const STEPS: Argument = Argument {
    name: "steps",
    takes: Takes::Nothing,
    given: Given::Maybe,
    help: "Prints each step of the run as a JSON object in a line: who asked what, and the answer",
};

pub(crate) const FAILURES: Argument = Argument {
    name: "failures",
    takes: Takes::Text("WORD"),
    given: Given::Maybe,
    help: "Prints what becomes of the canvas if only one task fails, for each task, as JSON; WORD is raise:CLASS",
};

/// Like `FAILURES`, with a default word.
pub(crate) const PAGE_FAILURES: Argument = Argument {
    name: "failures",
    takes: Takes::Text("WORD"),
    given: Given::Else("raise:Exception"),
    help: "What a task fails with, as raise:CLASS",
};

pub(crate) const TASK: Argument = Argument {
    name: "task",
    takes: Takes::Texts("NAME=WORD"),
    given: Given::Maybe,
    help: "What a task answers: a number, raise:CLASS, or as a built-in task does, by its word, as add",
};

pub(crate) const TASKS: Argument = Argument {
    name: "tasks",
    takes: Takes::Text("FILE"),
    given: Given::Maybe,
    help: "Answers of more tasks, one NAME=WORD a line; those of --task come first",
};

pub(crate) const RENAME: Argument = Argument {
    name: "rename",
    takes: Takes::Texts("#NUMBER=NAME"),
    given: Given::Maybe,
    help: "Another name for the task of a number, as reports have them",
};

pub(crate) const JSON: Argument = Argument {
    name: "json",
    takes: Takes::Nothing,
    given: Given::Maybe,
    help: "Prints each task, and then the result, as a JSON object in a line; refusals too",
};

pub(crate) const REFUSAL_JSON: Argument = Argument {
    name: "json",
    takes: Takes::Nothing,
    given: Given::Maybe,
    help: "Prints a refusal as a JSON object in a line",
};

pub(crate) const FIGURES_JSON: Argument = Argument {
    name: "json",
    takes: Takes::Nothing,
    given: Given::Maybe,
    help: "Prints the statistics, and each warning, as a JSON object in a line; refusals too",
};

pub(crate) const NUMBERS: Argument = Argument {
    name: "numbers",
    takes: Takes::Nothing,
    given: Given::Maybe,
    help: "Names each task, group and chord in its options, as reports and messages name them",
};

pub(crate) const STRICT: Argument = Argument {
    name: "strict",
    takes: Takes::Nothing,
    given: Given::Maybe,
    help: "Ends with status 3 if there is a warning",
};

pub(crate) const EACH: Argument = Argument {
    name: "each",
    takes: Takes::Nothing,
    given: Given::Maybe,
    help: "Runs many canvases, one a line, and prints a JSON object a line for each",
};

pub(crate) const NULL: Argument = Argument {
    name: "null",
    takes: Takes::Nothing,
    given: Given::Maybe,
    help: "With --each: a canvas ends with a NUL byte, and not with its line",
};

pub(crate) const WITH_TASKS: Argument = Argument {
    name: "with-tasks",
    takes: Takes::Nothing,
    given: Given::Maybe,
    help: "With --null: before each canvas are its tasks' answers, one NAME=WORD a line, and an empty line",
};

pub(crate) const ADAPT: Argument = Argument {
    name: "adapt",
    takes: Takes::Nothing,
    given: Given::Maybe,
    help: "Makes a canvas that runs here first, as `canvas adapt` does",
};

pub(crate) const EXPLAIN: Argument = Argument {
    name: "explain",
    takes: Takes::Nothing,
    given: Given::Maybe,
    help: "Names tasks by their numbers, and says why some were not called or won't run",
};

pub(crate) const FAIL: Argument = Argument {
    name: "fail",
    takes: Takes::Nothing,
    given: Given::Maybe,
    help: "Ends with status 3 if the canvas's result is a failure",
};

pub(crate) const STATES: Argument = Argument {
    name: "run",
    takes: Takes::Nothing,
    given: Given::Maybe,
    help: "Runs the canvas, and shows the state and value of each task",
};

pub(crate) const RUN: Argument = Argument {
    name: "run",
    takes: Takes::Text("HEX22"),
    given: Given::Always,
    help: "The run: 22 lower-case hexadecimal digits that no other run on this Redis has",
};

pub(crate) const VALUES: Argument = Argument {
    name: "values",
    takes: Takes::Text("VALUES"),
    given: Given::Maybe,
    help: "A file with a JSON array: its items are the arguments ~0, ~1 and so on; `-` is standard input",
};

pub(crate) const QUEUE: Argument = Argument {
    name: "queue",
    takes: Takes::Text("NAME"),
    given: Given::Else("celery"),
    help: "The queue that the workers read",
};

pub(crate) const PREFIX: Argument = Argument {
    name: "prefix",
    takes: Takes::Text("TEXT"),
    given: Given::Maybe,
    help: "What the result backend puts before its keys (global_keyprefix)",
};

pub(crate) const EXPIRES: Argument = Argument {
    name: "expires",
    takes: Takes::Number("SECONDS", 1, 1_000_000_000),
    given: Given::Else("86400"),
    help: "How long a chord's size is kept (result_expires)",
};

pub(crate) const BROKER_DATABASE: Argument = Argument {
    name: "broker-db",
    takes: Takes::Number("N", 0, 1_000_000),
    given: Given::Maybe,
    help: "The database of the queue, if the commands have to choose it",
};

pub(crate) const BACKEND_DATABASE: Argument = Argument {
    name: "backend-db",
    takes: Takes::Number("N", 0, 1_000_000),
    given: Given::Maybe,
    help: "The database of the results, if the commands have to choose it",
};

pub(crate) const WITHOUT_SCRIPT: Argument = Argument {
    name: "without-script",
    takes: Takes::Nothing,
    given: Given::Maybe,
    help: "Starts the canvas by a transaction, if Redis takes no EVAL; a run given twice then runs twice",
};

pub(crate) const COMPLETE: Argument = Argument {
    name: "complete",
    takes: Takes::Nothing,
    given: Given::Maybe,
    help: "Gives tasks that a failure reaches their state, if Celery leaves them pending",
};

pub(crate) const RESULTS: Argument = Argument {
    name: "results",
    takes: Takes::Text("FILE"),
    given: Given::Maybe,
    help: "Shows the states of these results of Celery's workers, one a line; `-` is standard input",
};

pub(crate) const OF: Argument = Argument {
    name: "of",
    takes: Takes::Text("HEX22"),
    given: Given::Maybe,
    help: "With --results: the run that they are of",
};

impl Argument {
    fn named<'a>(&self, alloc: Global) -> Arg<'a>
        ensures rule { rule_of result ≡ named self.now.takes self.now }
        ensures local { result.global ≡ false }
    {
        let argument = Arg::new(alloc, self.name).help(self.help);
        match self.takes {
            Takes::Word => argument,
            Takes::Nothing => argument.long(self.name).action(ArgAction::SetTrue),
            Takes::Text(value) => argument.long(self.name).value_name(value),
            Takes::Texts(value) => argument
                .long(self.name)
                .value_name(value)
                .action(ArgAction::Append),
            Takes::Number(value, least, most) => argument
                .long(self.name)
                .value_name(value)
                .value_parser(ValueParser::unsigned(least, most)),
        }
    }

    fn as_clap<'a>(&self, alloc: Global) -> Arg<'a>
        ensures rule { rule_of result ≡ rule self.now }
        ensures local { result.global ≡ false }
    {
        let argument = self.named(alloc);
        match self.given {
            Given::Always => argument.required(true),
            Given::Maybe => argument,
            Given::Else(value) => argument.default_value(value),
        }
    }
}

/// Returns the arguments of a list, in its order.
pub(crate) fn arguments_of<'a>(alloc: Global, list: &[Argument]) -> Result<Vec<Arg<'a>>, AllocError>
    ensures rules { IfOk result (λ args. map rule_of args.items ≡ map rule list.now) }
    ensures local { IfOk result (λ args. All (λ a. a.global ≡ false) args.items) }
{
    let mut arguments = Vec::with_capacity(alloc, list.len())?;
    for argument in list {
        arguments.push(argument.as_clap(alloc))?;
    }
    Ok(arguments)
}
