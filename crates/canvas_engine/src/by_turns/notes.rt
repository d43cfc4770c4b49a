//! The steps that a run by turns notes.
ghost use Rattle.std.specs.Prelude.{◌≡◌, ◌∷◌, ◌++◌, [], IfOk, None, OnOk, false, map, option_to_list};
ghost use Rattle.canvas_history.specs.Queue as queue;
ghost use Rattle.canvas_runs.specs.Core as C;
ghost use Rattle.canvas_runs.specs.Turns.{redelivery};
ghost use Rattle.canvas_engine.specs.Noted.{did_seen, opening_step, step_seen};
ghost use Rattle.canvas_engine.specs.Traced.{sent_by, sent_in};
ghost use Rattle.canvas_engine.specs.steps.Noting.{Noted, publishes};

use canvas_backend::Stored;
use canvas_envelope::Letter;
use canvas_task::{GroupNo, Memory, Outcome, TaskNo};
use std::alloc::{AllocError, Global};

/// An ask of a worker at a step of a run, with the answer.
#[derive(Debug, Drop)]
pub enum Did {
    /// A take: None if nothing was found.
    Took(Option<Letter>),
    Published(Letter),
    /// A redelivery of the envelope that the worker holds, for which no worker asks.
    Redelivered(Letter),
    /// A store of a task's outcome.
    Stored(TaskNo, Outcome, Stored),
    /// The part of a chord by the last task of a member, with how many were returned before.
    Returned(GroupNo, TaskNo, u64),
    /// A read of a task's outcome.
    Read(TaskNo, Option<Outcome>),
    /// An acknowledgement of the envelope that it holds.
    Acked,
    /// A rest: whether more may come.
    Rested(bool),
}

/// A step of a run.
#[derive(Debug, Drop)]
pub struct Step {
    /// The number of the worker, from 1. Worker 0 publishes the first messages, before any other
    /// has a turn.
    pub worker: u32,
    pub did: Did,
}

/// Which steps of a run are noted.
#[derive(Clone, Copy)]
pub(crate) enum Keeps {
    Nothing,
    /// The steps that publish.
    Published,
    All,
}

/// The steps of a run that are noted so far. Their letters share what the run's own share, so a
/// text that all messages carry is there once.
#[derive(Drop)]
pub(crate) struct Notes {
    alloc: Global,
    keeps: Keeps,
    steps: Vec<Step>,
}

/// Returns a clone of the letter, if there is one.
fn copied(alloc: Global, letter: &Option<Letter>) -> Result<Option<Letter>, Memory>
    ensures { IfOk result (λ copy. copy ≡ letter.now) }
{
    match letter {
        Some(letter) => Ok(Some(letter.copy(alloc)?)),
        None => Ok(None),
    }
}

impl Notes {
    /// Returns the notes of a run that has done nothing yet.
    pub(crate) fn new(alloc: Global, keeps: Keeps) -> Notes
        ensures keeps { result.keeps ≡ keeps }
        ensures none { result.steps.items ≡ [] }
    {
        Notes {
            alloc,
            keeps,
            steps: Vec::new(alloc),
        }
    }

    fn push(&mut self, worker: u32, did: Did) -> Result<(), AllocError>
        ensures { OnOk result ((self.new.keeps ≡ self.old.keeps) × (self.new.steps.items
            ≡ self.old.steps.items ++ record { worker = worker; did = did } ∷ [])) }
    {
        self.steps.push(Step { worker, did })?;
        Ok(())
    }

    /// Notes a letter that is to be published.
    pub(crate) fn published(&mut self, worker: u32, letter: &Letter) -> Result<(), Memory>
        ensures { OnOk result (Noted self.old
            ((worker, (C.to_queue (queue.publish letter.now), C.from_queue None)) ∷ []) self.new) }
    {
        match self.keeps {
            Keeps::Nothing => Ok(()),
            Keeps::Published | Keeps::All => {
                let copy = letter.copy(self.alloc)?;
                Ok(self.push(worker, Did::Published(copy))?)
            }
        }
    }

    /// Notes the first messages.
    pub(crate) fn opened(&mut self, letters: &[Letter]) -> Result<(), Memory>
        ensures { OnOk result (Noted self.old (map opening_step letters.now) self.new) }
    {
        for letter in letters {
            self.published(0, letter)?;
        }
        Ok(())
    }

    /// Notes a take.
    pub(crate) fn took(&mut self, worker: u32, letter: &Option<Letter>) -> Result<(), Memory>
        ensures { OnOk result (Noted self.old
            ((worker, (C.to_queue queue.take, C.from_queue letter.now)) ∷ []) self.new) }
    {
        match self.keeps {
            Keeps::Nothing | Keeps::Published => Ok(()),
            Keeps::All => {
                let copy = copied(self.alloc, letter)?;
                Ok(self.push(worker, Did::Took(copy))?)
            }
        }
    }

    /// Notes the redelivery of a letter.
    pub(crate) fn redelivered(&mut self, worker: u32, letter: &Letter) -> Result<(), Memory>
        ensures { OnOk result (Noted self.old (redelivery worker letter.now ∷ []) self.new) }
    {
        match self.keeps {
            Keeps::Nothing | Keeps::Published => Ok(()),
            Keeps::All => {
                let copy = letter.copy(self.alloc)?;
                Ok(self.push(worker, Did::Redelivered(copy))?)
            }
        }
    }

    /// Notes a step that isn't about a letter.
    pub(crate) fn plain(&mut self, worker: u32, did: Did) -> Result<(), Memory>
        requires { publishes (did_seen did).0 ≡ false }
        ensures { OnOk result (Noted self.old ((worker, did_seen did) ∷ []) self.new) }
    {
        match self.keeps {
            Keeps::Nothing | Keeps::Published => Ok(()),
            Keeps::All => Ok(self.push(worker, did)?),
        }
    }

    pub(crate) fn into_steps(self) -> Vec<Step>
        ensures { result ≡ self.steps }
    {
        self.steps
    }
}

/// Returns the letter that a step published, if it did.
fn published_in(did: Did) -> Option<Letter>
    ensures { option_to_list result ≡ sent_by (did_seen did).0 }
{
    match did {
        Did::Published(letter) => Some(letter),
        _other => None,
    }
}

/// Appends the letter, if there is one.
fn push_some(letters: &mut Vec<Letter>, letter: Option<Letter>) -> Result<(), AllocError>
    ensures { OnOk result (letters.new.items ≡ letters.old.items ++ option_to_list letter) }
{
    match letter {
        Some(letter) => Ok(letters.push(letter)?),
        None => Ok(()),
    }
}

/// Returns the letters that steps published, in their order.
pub(crate) fn letters_of(alloc: Global, steps: Vec<Step>) -> Result<Vec<Letter>, AllocError>
    ensures { IfOk result (λ letters. letters.items ≡ sent_in (map step_seen steps.items)) }
{
    let mut letters = Vec::with_capacity(alloc, steps.len())?;
    for step in steps {
        push_some(&mut letters, published_in(step.did))?;
    }
    Ok(letters)
}
