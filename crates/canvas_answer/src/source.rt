//! The input of a run: a canvas's text, and the tasks that answer its calls.
ghost use Rattle.std.specs.Prelude.{◌≡◌, [], IfErr, IfOk, List, ℕ, map, string_bytes};
ghost use Rattle.canvas_report.specs.declared.row.Row.{Row};
ghost use Rattle.canvas_semantics.specs.Line.{names, tree_of};
ghost use Rattle.canvas_semantics.specs.States.{numbers_from, states};
ghost use Rattle.canvas_task.specs.Apply.{Behaviour};
ghost use Rattle.canvas_answer.specs.Asking.{asking};
ghost use Rattle.canvas_answer.specs.Names.{IsUnknownName, first_unknown};
ghost use Rattle.canvas_answer.specs.Plans.{ArePlansOf, IsPlanRefusal, run_line};
ghost use Rattle.canvas_answer.specs.Raised.{AreShown, class_of, own_class};
ghost use Rattle.canvas_answer.specs.Told.{AreRows, IsJsonOf, IsTold, known_states};
ghost use Rattle.canvas_answer.specs.declared.reporting.Format.TheVariants.{Json};

use crate::blamed::{blamed_in_run, builtin_of};
use crate::named_rows::named_rows;
use crate::names::check_names;
use crate::prepared::{Plans, Prepared};
use crate::refusal::Refusal;
use crate::setting::Setting;
use canvas_adapt::Stub;
use canvas_check::{Blame, Expected, Forecast, Input, Wrong, blamed, forecasts, tasks_in};
use canvas_ran::fates;
use canvas_report::{Fate, Report, Row, Told, rows_text, stored_rows_text};
use canvas_rewrite::Plan;
use canvas_sig::Canvas;
use canvas_task::{Memory, TaskNo, Tasks};
use canvas_values::TaskSig;
use std::alloc::{AllocError, Global};

/// A canvas's text, how it is prepared, and the tasks that answer its calls, with the stubs before
/// them.
#[derive(Drop)]
pub struct Source<'a, T> {
    pub text: &'a [u8],
    pub setting: Setting<'a>,
    pub tasks: &'a T,
}

/// A parameter that is at fault.
#[derive(Drop)]
pub(crate) struct AtFault {
    pub parameter: String,
    pub wrong: Wrong,
}

fn at_fault(alloc: Global, blame: Option<Blame<'_>>) -> Result<Option<AtFault>, AllocError> {
    match blame {
        Some(Blame { parameter, wrong }) => Ok(Some(AtFault {
            parameter: String::from_str(alloc, parameter)?,
            wrong,
        })),
        None => Ok(None),
    }
}

/// A forecast of a signature, with its parameter at fault.
#[derive(Drop)]
pub(crate) struct Foreseen {
    pub forecast: Forecast,
    /// The parameter that makes its call a TypeError, if that is known.
    pub blame: Option<AtFault>,
}

/// Returns the parameter that makes a call a TypeError with this before its own arguments, if a
/// built-in task answers it.
fn blamed_in(
    alloc: Global,
    stubs: &[Stub],
    sig: &TaskSig,
    input: Input,
) -> Result<Option<AtFault>, AllocError> {
    match builtin_of(stubs, sig.name.get()) {
        Some(task) => at_fault(alloc, blamed(alloc, task, &sig.args, &sig.kwargs, input)?),
        None => Ok(None),
    }
}

/// Returns the forecast of a signature, which is this task if it is one, with its parameter at
/// fault.
fn foreseen_of(
    alloc: Global,
    stubs: &[Stub],
    forecast: Forecast,
    task: Option<&TaskSig>,
) -> Result<Foreseen, AllocError> {
    let blame = match (forecast.expected, task) {
        (Expected::TypeError(input), Some(sig)) => blamed_in(alloc, stubs, sig, input)?,
        _ => None,
    };
    Ok(Foreseen { forecast, blame })
}

/// Returns the forecasts of signatures, with the parameters at fault; these are the tasks among
/// them.
fn foreseen_by(
    alloc: Global,
    stubs: &[Stub],
    forecasts: &[Forecast],
    tasks: &[Option<&TaskSig>],
) -> Result<Vec<Foreseen>, AllocError> {
    let mut found = Vec::new(alloc);
    let mut left = tasks.iter();
    for forecast in forecasts {
        let Some(task) = left.next() else {
            break;
        };
        found.push(foreseen_of(alloc, stubs, *forecast, *task)?)?;
    }
    Ok(found)
}

impl<'a, T> Source<'a, T> {
    /// Returns the plans of the canvas, whose text is read once for them.
    pub fn plans(&self, alloc: Global) -> Result<Plans, Refusal>
        ensures ok { IfOk result (λ plans. ArePlansOf (asking self.now.setting)
            self.now.text.now plans.shown (run_line plans)) }
        ensures err { IfErr result
            (IsPlanRefusal self.now.setting.renames.now self.now.text.now) }
    {
        let Prepared { canvas, .. } = Prepared::of(alloc, self.text, self.setting.adapts)?;
        Plans::of(alloc, canvas, self.setting.renames)
    }

    /// Refuses a name in the words that no task of the plan has.
    pub fn check_names(&self, alloc: Global, plan: &Plan) -> Result<(), Refusal>
        ensures { IfErr result
            (IsUnknownName (first_unknown (names plan.now) self.now.setting.said.now)) }
    {
        check_names(alloc, plan, self.setting.said)
    }

    /// Returns the plans, if each name in the words is that of a task.
    pub fn checked_plans(&self, alloc: Global) -> Result<Plans, Refusal>
        ensures ok { IfOk result (λ plans. ArePlansOf (asking self.now.setting)
            self.now.text.now plans.shown (run_line plans)) }
        ensures err { IfErr result
            (IsPlanRefusal self.now.setting.renames.now self.now.text.now) }
    {
        let plans = self.plans(alloc)?;
        self.check_names(alloc, &plans.shown)?;
        Ok(plans)
    }

    /// Returns the rows of a run, with the exceptions that stubs raise.
    pub(crate) fn rows(
        &self,
        alloc: Global,
        plans: &Plans,
        report: &Report,
        fates: &[(TaskNo, Fate)],
    ) -> Result<Vec<Row>, AllocError>
        ensures shown { (n : ℕ) → map (λ f. f.0) fates.now ≡ numbers_from 1 n
            → IfOk result (λ rows. AreShown (class_of fates.now
            (own_class self.now.setting.stubs.now self.now.setting.errors.now
            (run_line plans.now))) report.now.rows rows.items) }
        ensures known { self.now.setting.errors.now ≡ []
            → IfOk result (λ rows. rows.items ≡ known_states report.now.rows) }
    {
        named_rows(alloc, plans.run(), report, self.setting, fates)
    }
}

impl<'a, T> Source<'a, T> {
    /// Returns the rows of the report of a whole run.
    pub fn whole_rows(
        &self,
        alloc: Global,
        plans: &Plans,
        report: &Report,
    ) -> Result<Vec<Row>, Memory>
        ensures { (behaviour : Behaviour)
            → report.now.rows ≡ states behaviour (tree_of (run_line plans.now))
            → IfOk result (λ rows. AreRows (asking self.now.setting) (run_line plans.now)
            plans.now.shown behaviour rows.items) }
    {
        let fates = fates(alloc, plans.run(), report)?;
        Ok(self.rows(alloc, plans, report, &fates)?)
    }
}

impl<'a, T: Tasks> Source<'a, T> {
    /// Returns the forecast of each signature of a canvas, in file order.
    pub(crate) fn all_foreseen(
        &self,
        alloc: Global,
        canvas: &Canvas,
    ) -> Result<Vec<Foreseen>, Memory> {
        let forecasts = forecasts(alloc, canvas, self.tasks)?;
        let tasks = tasks_in(alloc, canvas)?;
        match foreseen_by(alloc, self.setting.stubs, &forecasts, &tasks) {
            Ok(foreseen) => Ok(foreseen),
            Err(_) => Err(Memory),
        }
    }

    /// Returns the report of a whole run as JSON lines.
    pub(crate) fn json_of(
        &self,
        alloc: Global,
        plans: &Plans,
        report: &Report,
        again: Option<u64>,
    ) -> Result<String, Refusal>
        ensures { (behaviour : Behaviour)
            → report.now.rows ≡ states behaviour (tree_of (run_line plans.now))
            → IfOk result (λ text. IsTold (asking self.now.setting)
            (run_line plans.now) plans.now.shown behaviour Json again (string_bytes text)) }
    {
        let fates = fates(alloc, plans.run(), report)?;
        let blamed = blamed_in_run(alloc, self.setting.stubs, plans.run(), report, &fates)?;
        let told = Told {
            fates: &fates,
            blamed: &blamed,
            again,
        };
        self.json_told(alloc, plans, report, told)
    }

    /// Returns the report of a whole run as JSON lines, with these fates, blames and count.
    fn json_told(
        &self,
        alloc: Global,
        plans: &Plans,
        report: &Report,
        told: Told<'_>,
    ) -> Result<String, Refusal>
        ensures { (n : ℕ) → map (λ f. f.0) told.entry.fates.now ≡ numbers_from 1 n
            → IfOk result (λ text. (rows : List Row)
            × AreShown (class_of told.entry.fates.now (own_class self.now.setting.stubs.now
            self.now.setting.errors.now (run_line plans.now))) report.now.rows rows
            × IsJsonOf told.entry.fates.now told.entry.blamed.now told.entry.again rows
            (tree_of plans.now.shown) (string_bytes text)) }
    {
        if self.setting.errors.is_empty() {
            return Ok(rows_text(alloc, &plans.shown, report, told)?);
        }
        let rows = self.rows(alloc, plans, report, told.fates)?;
        Ok(stored_rows_text(alloc, &plans.shown, &rows, told)?)
    }
}
