//! `canvas adapt`: converts any canvas that Celery writes into one that can be run.
ghost use Rattle.std.specs.Prelude.{IfOk, codes};
ghost use Rattle.clap.specs.Matches.{found_of};
ghost use Rattle.clap.specs.Walk.{rows_of};
ghost use Rattle.canvas_adapt.specs.RenameTexts.{AreRenameTexts};
ghost use Rattle.canvas_task.specs.Text.{Text};
ghost use Rattle.canvas_answer.specs.Answers.{AnswersAll};
ghost use Rattle.canvas_answer.specs.Given.{texts_of};
ghost use Rattle.canvas_answer.specs.Plans.{IsAdaptedText};

use crate::answer::Answer;
use crate::refusal::Refusal;
use canvas_adapt::{AdaptedText, BadRename, Rename, RenameFault, adapted_text, read_renames};
use clap::ArgMatches;
use std::alloc::Global;

/// Returns the other names that the words ask for.
pub(crate) fn asked_renames(alloc: Global, given: &ArgMatches<'_>) -> Result<Vec<Rename>, Refusal>
    ensures { IfOk result (λ renames. AreRenameTexts
        (texts_of (rows_of (found_of given.now)) (codes "rename")) renames.items) }
{
    let texts = given.get_strs("rename").unwrap_or(&[]);
    read_renames(alloc, texts).map_err(|bad| bad_word(alloc, texts, &bad))
}

/// Returns the refusal of one of the words.
fn bad_word(alloc: Global, texts: &[&str], bad: &BadRename) -> Refusal {
    match bad.fault {
        RenameFault::Memory => Refusal::Memory,
        fault => {
            let text = texts.get(bad.before).copied().unwrap_or("");
            Refusal::of_rename(alloc, text, fault)
        }
    }
}

/// Refuses the first name for a task that a canvas with this number of tasks doesn't have.
fn check_numbers(renames: &[Rename], tasks: u32) -> Result<(), Refusal> {
    for rename in renames {
        if rename.task.get() > tasks {
            return Err(Refusal::NoTask(rename.task));
        }
    }
    Ok(())
}

/// Returns a canvas that can be run, as JSON, with what was changed for it.
pub fn answer_adapt(alloc: Global, renames: &[Rename], text: &[u8]) -> Result<Answer, Refusal>
    ensures { IfOk result (λ a. (made : Text) × IsAdaptedText text.now renames.now made
        × AnswersAll made 0 a) }
{
    let AdaptedText {
        text,
        changes,
        tasks,
    } = adapted_text(alloc, text, renames)?;
    check_numbers(renames, tasks)?;
    Ok(Answer::raw(text).with_changes(changes))
}
