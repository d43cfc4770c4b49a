//! `canvas run --failures`: the results of a canvas in which only one task fails, for each task.
//! Each case is evaluated and not run, since every run has the report of the evaluation.
ghost use Rattle.std.specs.Prelude.{◌≡◌, ◌+◌, ◌++◌, ◌<◌, IfOk, None, Some, codes, map, string_bytes};
ghost use Rattle.canvas_adapt.specs.Renamed.{renamed};
ghost use Rattle.canvas_semantics.specs.Line.{count_line, tree_of};
ghost use Rattle.canvas_adapt.specs.Stubs.{stubs_behaviour};
ghost use Rattle.canvas_task.specs.Text.{Text};
ghost use Rattle.canvas_answer.specs.Asking.{asked_of};
ghost use Rattle.canvas_answer.specs.Cases.{AreAllRows, IsCaseLine, IsEvaluated, case_line, numbered_word};
ghost use Rattle.canvas_answer.specs.Plans.{IsCanvasOf, IsPlanOf, run_line};
ghost use Rattle.canvas_answer.specs.steps.First.{AreAlike, IsFailed};

pub use crate::evaluated::Base;
use crate::evaluated::Evaluated;
use crate::names::check_names;
use crate::numbers::{put_first, take_first};
use crate::prepared::{Plans, Prepared};
use crate::refusal::Refusal;
use crate::setting::Setting;
use crate::source::Source;
use crate::stubs::Answers;
use canvas_adapt::{Does, StubFault, Stubbed, law_of_renames, plain_text, read_stub, renamed};
use canvas_sig::Canvas;
use canvas_task::{TaskNo, Tasks};
use std::alloc::{AllocError, Global};

/// The exception that replaces those of other classes while a canvas is evaluated.
const STANDS: &str = "NotRegistered";

/// The request of `--failures`.
#[derive(Clone, Copy)]
pub struct Failures<'w> {
    /// `raise:` and the class of the exception that each task fails with.
    pub word: &'w str,
    /// Whether a failure of the canvas without a further one has a status of its own.
    pub fails: bool,
}

/// Returns the word for `--task` with which the task of a number fails.
fn task_text(alloc: Global, number: u32, word: &str) -> Result<String, AllocError>
    ensures { IfOk result (λ text. string_bytes text ≡ numbered_word number word.now) }
{
    let mut text = String::new(alloc);
    write!(text, "#{number}={word}")?;
    Ok(text)
}

/// Returns the class of the exception that a word raises.
fn class_in(word: &str) -> &str
    ensures { (class : Text) → word.now ≡ codes "raise:" ++ class → result.now ≡ class }
{
    word.strip_prefix("raise:").unwrap_or(word)
}

/// Refuses a word that is not an exception with which a task may fail.
pub(crate) fn check_raise(alloc: Global, word: &str) -> Result<(), Refusal> {
    let text = task_text(alloc, 1, word)?;
    let plain = plain_text(alloc, &text, STANDS)?;
    match read_stub(alloc, &plain) {
        Ok(stub) if matches!(stub.does, Does::Raises(_)) => Ok(()),
        Err(StubFault::Memory) => Err(Refusal::Memory),
        _ => Err(Refusal::of_task(alloc, word, StubFault::BadKind)),
    }
}

/// A canvas, and what all its cases have in common.
#[derive(Drop)]
pub struct Cases<'a, T> {
    pub canvas: Canvas,
    pub text: &'a [u8],
    pub adapts: bool,
    /// The word with which the task fails.
    pub word: &'a str,
    /// The tasks that answer if there is no stub.
    pub tasks: &'a T,
}

/// What is made anew for each case: the plans, and the answers of tasks.
#[derive(Drop)]
pub struct Ready {
    pub plans: Plans,
    pub answers: Answers,
}

impl Ready {
    /// Returns how many tasks the canvas has.
    pub fn tasks(&self) -> u32
        ensures { result ≡ count_line self.now.plans.shown }
    {
        self.plans.shown.tasks()
    }

    /// Returns the task at a place, from 0.
    pub fn task_at(&self, place: u32) -> TaskNo
        requires { place < count_line self.now.plans.shown }
        ensures { result ≡ place + 1 }
    {
        self.plans.shown.task_at(place)
    }
}

impl<'a, T: Tasks> Cases<'a, T> {
    /// Returns the cases of a text's canvas.
    pub fn of(
        alloc: Global,
        text: &'a [u8],
        adapts: bool,
        word: &'a str,
        tasks: &'a T,
    ) -> Result<Cases<'a, T>, Refusal>
        ensures { IfOk result (λ cases. IsCanvasOf adapts text.now cases.canvas
            × (cases.text.now ≡ text.now) × (cases.adapts ≡ adapts)
            × (cases.word.now ≡ word.now) × (cases.tasks.now ≡ tasks.now)) }
    {
        let Prepared { canvas, .. } = Prepared::of(alloc, text, adapts)?;
        Ok(Cases {
            canvas,
            text,
            adapts,
            word,
            tasks,
        })
    }

    /// Prepares the canvas without a failure. Each name in the words must be that of a task.
    pub fn ready(&self, alloc: Global, answers: Answers) -> Result<Ready, Refusal>
        ensures { IfOk result (λ ready. (ready.answers ≡ answers)
            × IsPlanOf self.now.canvas ready.plans.shown
            × IsPlanOf (renamed answers.renames.items self.now.canvas)
            (run_line ready.plans)) }
    {
        law_of_renames();
        let canvas = renamed(alloc, &self.canvas, &[])?;
        let plans = Plans::of(alloc, canvas, &answers.renames)?;
        let said = answers.stubs.get(..answers.said).unwrap_or(&[]);
        check_names(alloc, &plans.shown, said)?;
        Ok(Ready { plans, answers })
    }

    /// Evaluates a case.
    fn evaluated(&self, alloc: Global, ready: Ready) -> Result<(Evaluated, Ready), Refusal>
        ensures { IfOk result (λ r. (r.1 ≡ ready)
            × IsEvaluated (asked_of self.now.adapts ready.answers)
            (stubs_behaviour ready.answers.stubs.items (T.behaviour self.now.tasks.now))
            (run_line ready.plans) ready.plans.shown r.0) }
    {
        let Ready { plans, answers } = ready;
        let Answers {
            stubs,
            said,
            errors,
            renames,
        } = answers;
        let stubbed = Stubbed {
            stubs,
            tasks: self.tasks,
        };
        let setting = Setting {
            adapts: self.adapts,
            stubs: &stubbed.stubs,
            said: &[],
            errors: &errors,
            renames: &renames,
        };
        let source = Source {
            text: self.text,
            setting,
            tasks: &stubbed,
        };
        let told = source.evaluated(alloc, &plans)?;
        let Stubbed { stubs, .. } = stubbed;
        let answers = Answers {
            stubs,
            said,
            errors,
            renames,
        };
        Ok((told, Ready { plans, answers }))
    }

    /// Returns the line of the canvas without a failure, with all its rows.
    pub fn first(&self, alloc: Global, ready: Ready) -> Result<(String, Base, Ready), Refusal>
        ensures told { IfOk result (λ r. IsEvaluated (asked_of self.now.adapts ready.answers)
            (stubs_behaviour ready.answers.stubs.items (T.behaviour self.now.tasks.now))
            (run_line ready.plans) ready.plans.shown r.1.told) }
        ensures rows { IfOk result (λ r. AreAllRows r.1.told ready.plans.shown
            (map string_bytes r.1.rows.items)) }
        ensures line { IfOk result (λ r. string_bytes r.0 ≡ case_line r.1.told
            (tree_of ready.plans.shown) None (map string_bytes r.1.rows.items)) }
        ensures ready { IfOk result (λ r. r.2 ≡ ready) }
    {
        let (told, ready) = self.evaluated(alloc, ready)?;
        let rows = told.all_rows(alloc, &ready.plans.shown)?;
        let line = told.object(alloc, &ready.plans.shown, None, &rows)?;
        Ok((line, Base { told, rows }, ready))
    }

    /// Evaluates the canvas with a task that fails.
    fn failing(
        &self,
        alloc: Global,
        ready: Ready,
        task: TaskNo,
    ) -> Result<(Evaluated, Ready), Refusal>
        ensures { IfOk result (λ r. IsFailed (asked_of self.now.adapts ready.answers)
            (T.behaviour self.now.tasks.now) self.now.word.now self.now.canvas
            ready.plans.shown task ready.answers r.0 r.1) }
    {
        let Ready { plans, answers } = ready;
        let mut answers = answers;
        let text = task_text(alloc, task.get(), self.word)?;
        put_first(alloc, &mut answers, &text, class_in(self.word), STANDS)?;
        let plans = plans.renamed(alloc, &self.canvas, &answers.renames)?;
        self.evaluated(alloc, Ready { plans, answers })
    }

    /// Returns the line of the case in which a task fails: the rows that differ from those of the
    /// canvas without a failure.
    pub fn line(
        &self,
        alloc: Global,
        ready: Ready,
        base: &Base,
        task: TaskNo,
    ) -> Result<(String, Ready), Refusal>
        ensures line { IsPlanOf self.now.canvas ready.plans.shown
            → AreAllRows base.now.told ready.plans.shown (map string_bytes base.now.rows.items)
            → IfOk result (λ r. IsCaseLine (asked_of self.now.adapts ready.answers)
            (T.behaviour self.now.tasks.now) self.now.word.now self.now.canvas
            ready.plans.shown base.now.told task (string_bytes r.0)) }
        ensures ready { IfOk result (λ r. AreAlike ready.answers r.1.answers
            × (r.1.plans.shown ≡ ready.plans.shown)) }
    {
        let (told, ready) = self.failing(alloc, ready, task)?;
        let Ready { plans, answers } = ready;
        let rows = told.changed_rows(alloc, &plans.shown, base)?;
        let line = told.object(alloc, &plans.shown, Some(task), &rows)?;
        let mut answers = answers;
        take_first(&mut answers);
        Ok((line, Ready { plans, answers }))
    }
}
