//! The rows of a run with the exceptions that stubs raise by their own classes. A task that was
//! called has that of its stub, and one that was skipped that of the task that it is due to.
ghost use Rattle.std.specs.Prelude.{◌≡◌, [], IfOk, ℕ, Some, map, option_map, suc};
ghost use Rattle.canvas_semantics.specs.States.{numbers_from};
ghost use Rattle.canvas_answer.specs.Raised.{AreShown, IsBlamed, IsRaised, IsShown, class_by, class_of, class_raised, own_class};
ghost use Rattle.canvas_answer.specs.Told.{known_states};
ghost use Rattle.canvas_answer.specs.steps.Classes.{class_at, class_in};

use crate::errors::class_named;
use crate::setting::Setting;
use crate::stubs::stub_named;
use canvas_report::{Fate, Report, Row};
use canvas_rewrite::Plan;
use canvas_task::{Fault, Kind, Outcome, TaskNo, Why};
use std::alloc::{AllocError, Global};

/// Returns the class of the exception that the stub raises which answers a name, if NotRegistered
/// replaces it in a run.
fn class_raised<'a>(setting: Setting<'a>, name: &str) -> Option<&'a str>
    ensures { option_map (λ c. c.now) result
        ≡ class_raised setting.entry.stubs.now setting.entry.errors.now name.now }
{
    if stub_named(setting.stubs, name).is_some() {
        class_named(setting.errors, name)
    } else {
        class_named(setting.errors, "*")
    }
}

/// Returns the class of the exception that a task's stub raises, for a task of the plan that is
/// run.
fn own_class<'a>(setting: Setting<'a>, plan: &Plan, task: TaskNo) -> Option<&'a str>
    ensures { option_map (λ c. c.now) result
        ≡ own_class setting.entry.stubs.now setting.entry.errors.now plan.now task }
{
    match plan.name(task) {
        Some(name) => class_raised(setting, name),
        None => None,
    }
}

/// Returns the class at a place in a list of classes.
fn class_in<'a>(classes: &[Option<&'a str>], place: usize) -> Option<&'a str>
    ensures { option_map (λ c. c.now) result ≡ class_in classes.now place }
{
    match classes.get(place) {
        Some(class) => *class,
        None => None,
    }
}

/// Returns the class of a task, from 1.
fn class_at<'a>(classes: &[Option<&'a str>], task: TaskNo) -> Option<&'a str>
    ensures { option_map (λ c. c.now) result ≡ class_at classes.now task }
{
    class_in(classes, task.get() as usize - 1)
}

/// Returns the class of the exception of a task with this fate, given those of the tasks before it.
fn class_by<'a>(
    setting: Setting<'a>,
    plan: &Plan,
    before: &[Option<&'a str>],
    task: TaskNo,
    fate: Fate,
) -> Option<&'a str>
    ensures { option_map (λ c. c.now) result
        ≡ class_by task (own_class setting.entry.stubs.now setting.entry.errors.now plan.now task)
        (λ d. class_at before.now d) (Some fate) }
{
    match fate {
        Fate::Ran => own_class(setting, plan, task),
        Fate::Skipped(due) if due.get() < task.get() => class_at(before, due),
        Fate::Skipped(_) | Fate::Idle => None,
    }
}

/// Returns the class of each task's exception, if a run of a plan had these fates.
pub(crate) fn classes_of<'a>(
    alloc: Global,
    plan: &Plan,
    setting: Setting<'a>,
    fates: &[(TaskNo, Fate)],
) -> Result<Vec<Option<&'a str>>, AllocError>
    ensures { (n : ℕ) → map (λ f. f.0) fates.now ≡ numbers_from 1 n
        → IfOk result (λ classes. (k : ℕ) → class_at classes.items k
        ≡ class_of fates.now
        (own_class setting.entry.stubs.now setting.entry.errors.now plan.now) k) }
{
    let mut classes = Vec::new(alloc);
    for told in fates {
        let class = class_by(setting, plan, &classes, told.0, told.1);
        classes.push(class)?;
    }
    Ok(classes)
}

fn raised_row(alloc: Global, state: Option<Outcome>, class: Option<&str>) -> Result<Row, AllocError>
    ensures { IfOk result (IsRaised (option_map (λ c. c.now) class.entry) state) }
{
    match class {
        Some(class) => Ok(Row::Raised(String::from_str(alloc, class)?)),
        None => Ok(Row::Known(state)),
    }
}

fn blamed_row(
    alloc: Global,
    state: Option<Outcome>,
    dep: TaskNo,
    class: Option<&str>,
) -> Result<Row, AllocError>
    ensures { IfOk result (IsBlamed dep (option_map (λ c. c.now) class.entry) state) }
{
    match class {
        Some(class) => {
            let name = String::from_str(alloc, class)?;
            Ok(Row::Blamed { dep, name })
        }
        None => Ok(Row::Known(state)),
    }
}

/// Returns the row of the task at a place, from 0, with this state.
fn shown_row(
    alloc: Global,
    classes: &[Option<&str>],
    place: usize,
    state: &Option<Outcome>,
) -> Result<Row, AllocError>
    ensures { IfOk result (IsShown (λ k. class_at classes.now k) (suc place) state.now) }
{
    match state {
        Some(Outcome::Failure(Fault::Plain(Kind::NotRegistered))) => {
            raised_row(alloc, *state, class_in(classes, place))
        }
        Some(
            Outcome::Failure(
                Fault::Chord {
                    dep,
                    why: Why::Plain(Kind::NotRegistered),
                },
            ),
        ) => blamed_row(alloc, *state, *dep, class_at(classes, *dep)),
        _ => Ok(Row::Known(*state)),
    }
}

/// Returns the rows of a report as the run has them.
pub(crate) fn known_rows(alloc: Global, report: &Report) -> Result<Vec<Row>, AllocError>
    ensures { IfOk result (λ rows. rows.items ≡ known_states report.now.rows) }
{
    let mut rows = Vec::new(alloc);
    for state in report.rows.get() {
        rows.push(Row::Known(*state))?;
    }
    Ok(rows)
}

/// Returns the rows of a report with these classes.
pub(crate) fn rows_of(
    alloc: Global,
    report: &Report,
    classes: &[Option<&str>],
) -> Result<Vec<Row>, AllocError>
    ensures { IfOk result
        (λ rows. AreShown (λ k. class_at classes.now k) report.now.rows rows.items) }
{
    let mut rows = Vec::new(alloc);
    for state in report.rows.get() {
        let row = shown_row(alloc, classes, rows.len(), state)?;
        rows.push(row)?;
    }
    Ok(rows)
}

/// Returns the rows of a report of a run that had these fates.
pub(crate) fn named_rows(
    alloc: Global,
    plan: &Plan,
    report: &Report,
    setting: Setting<'_>,
    fates: &[(TaskNo, Fate)],
) -> Result<Vec<Row>, AllocError>
    ensures shown { (n : ℕ) → map (λ f. f.0) fates.now ≡ numbers_from 1 n
        → IfOk result (λ rows. AreShown (λ k. class_of fates.now
        (own_class setting.entry.stubs.now setting.entry.errors.now plan.now) k)
        report.now.rows rows.items) }
    ensures known { setting.entry.errors.now ≡ []
        → IfOk result (λ rows. rows.items ≡ known_states report.now.rows) }
{
    if setting.errors.is_empty() {
        return known_rows(alloc, report);
    }
    let classes = classes_of(alloc, plan, setting, fates)?;
    rows_of(alloc, report, &classes)
}
