//! The results of a canvas that is evaluated, as JSON lines.
ghost use Rattle.std.specs.Prelude.{◌≡◌, ◌+◌, ◌++◌, IfOk, OnOk, Some, codes, map, option_to_list, slice_get, string_bytes, true};
ghost use Rattle.std.specs.List.{filter_map};
ghost use Rattle.std.specs.Str.{bytes_eq};
ghost use Rattle.canvas_task.specs.Text.{Text};
ghost use Rattle.canvas_semantics.specs.Line.{name_of, tree_of};
ghost use Rattle.canvas_semantics.specs.Report.{names_by_number};
ghost use Rattle.canvas_report.specs.Fates.{fate_at};
ghost use Rattle.canvas_report.specs.RowTexts.{shown_text};
ghost use Rattle.canvas_report.specs.StoredRows.{row_of};
ghost use Rattle.canvas_report.specs.steps.ReportRows.{line_if};
ghost use Rattle.canvas_answer.specs.Asking.{asking};
ghost use Rattle.canvas_answer.specs.Cases.{AreAllRows, IsEvaluated, case_line, changed_object, fails_member, row_object, told_line, without_end};
ghost use Rattle.canvas_answer.specs.Items.{joined};
ghost use Rattle.canvas_answer.specs.Plans.{run_line};

use crate::blamed::blamed_in_run;
use crate::each::push_rows;
use crate::prepared::Plans;
use crate::refusal::Refusal;
use crate::source::Source;
use crate::stubs::as_slices;
use canvas_ran::{evaluate, fates};
use canvas_report::{Fate, Row, Told, is_failure, result_text, row_text};
use canvas_rewrite::Plan;
use canvas_task::{Memory, TaskNo, Tasks};
use std::alloc::{AllocError, Global};

/// The results of a canvas that is evaluated.
#[derive(Drop)]
pub struct Evaluated {
    rows: Vec<Row>,
    fates: Vec<(TaskNo, Fate)>,
    blamed: Vec<(TaskNo, Option<String>)>,
    /// Whether its result is a failure.
    pub failed: bool,
}

/// The results of a canvas without a failure, with the rows of all its tasks.
#[derive(Drop)]
pub struct Base {
    pub(crate) told: Evaluated,
    pub(crate) rows: Vec<String>,
}

impl Base {
    /// Returns whether the canvas's result is a failure already.
    pub fn failed(&self) -> bool
        ensures { result ≡ self.now.told.failed }
    {
        self.told.failed
    }
}

impl<'a, T: Tasks> Source<'a, T> {
    /// Evaluates a canvas.
    pub(crate) fn evaluated(&self, alloc: Global, plans: &Plans) -> Result<Evaluated, Refusal>
        ensures { IfOk result (IsEvaluated (asking self.now.setting)
            (T.behaviour self.now.tasks.now) (run_line plans.now) plans.now.shown) }
    {
        let report = evaluate(alloc, plans.run(), self.tasks)?;
        let fates = fates(alloc, plans.run(), &report)?;
        let stubs = self.setting.stubs;
        let blamed = blamed_in_run(alloc, stubs, plans.run(), &report, &fates)?;
        let rows = self.rows(alloc, plans, &report, &fates)?;
        let failed = is_failure(&plans.shown, &report);
        Ok(Evaluated {
            rows,
            fates,
            blamed,
            failed,
        })
    }
}

/// Returns a line without its line feed.
fn without_end(line: &str) -> &str
    ensures { result.now ≡ without_end line.now }
{
    line.strip_suffix('\n').unwrap_or(line)
}

/// Returns whether a text is at a place.
fn is_text_at(texts: &[String], place: usize, text: &str) -> bool
    ensures { (found : Text) → slice_get (map string_bytes texts.now) place ≡ Some found
        → result ≡ bytes_eq found text.now }
{
    match texts.get(place) {
        Some(found) => found.as_str() == text,
        None => false,
    }
}

/// Returns whether two rows are the same.
fn is_same_row(row: &Row, other: &Row) -> bool
    ensures { result ≡ true → shown_text row.now ≡ shown_text other.now }
{
    match (row, other) {
        (Row::Known(outcome), Row::Known(other)) => outcome == other,
        (Row::Value(json), Row::Value(other)) => json.as_str() == other.as_str(),
        (Row::Raised(name), Row::Raised(other)) => name.as_str() == other.as_str(),
        (
            Row::Blamed { dep, name },
            Row::Blamed {
                dep: task,
                name: other,
            },
        ) => { dep == task && name.as_str() == other.as_str() }
        _ => false,
    }
}

/// Returns whether the rows of the task at a place are the same.
fn has_same_row(rows: &[Row], others: &[Row], place: usize) -> bool
    ensures { result ≡ true → shown_text (row_of rows.now (place + 1))
        ≡ shown_text (row_of others.now (place + 1)) }
{
    match (rows.get(place), others.get(place)) {
        (Some(row), Some(other)) => is_same_row(row, other),
        _ => false,
    }
}

/// Returns whether the fates of the task at a place are the same.
fn has_same_fate(fates: &[(TaskNo, Fate)], others: &[(TaskNo, Fate)], place: usize) -> bool
    ensures { result ≡ true → fate_at fates.now (place + 1) ≡ fate_at others.now (place + 1) }
{
    match (fates.get(place), others.get(place)) {
        (Some((_, fate)), Some((_, other))) => fate == other,
        _ => false,
    }
}

impl Evaluated {
    fn told(&self) -> Told<'_>
        ensures { (result.fates.now ≡ self.now.fates.items)
            × (result.blamed.now ≡ self.now.blamed.items) }
    {
        Told {
            fates: &self.fates,
            blamed: &self.blamed,
            again: None,
        }
    }

    /// Returns the row of a task as a JSON object.
    fn row(&self, alloc: Global, plan: &Plan, task: TaskNo) -> Result<String, Memory>
        ensures { IfOk result (λ row. string_bytes row
            ≡ without_end (line_if (told_line self.now) task (name_of plan.now task))) }
    {
        let line = row_text(alloc, plan, task, &self.rows, self.told())?;
        Ok(String::from_str(alloc, without_end(&line))?)
    }

    /// Returns the rows of all tasks.
    pub(crate) fn all_rows(&self, alloc: Global, plan: &Plan) -> Result<Vec<String>, Memory>
        ensures { IfOk result
            (λ rows. AreAllRows self.now plan.now (map string_bytes rows.items)) }
    {
        let mut rows = Vec::new(alloc);
        for index in 0..plan.tasks() {
            rows.push(self.row(alloc, plan, plan.task_at(index))?)?;
        }
        Ok(rows)
    }

    /// Returns whether the task at a place has the same line, as far as that shows without writing
    /// it.
    fn is_alike(&self, other: &Evaluated, place: usize) -> bool
        ensures { (name : Text) → result ≡ true
            → told_line self.now (place + 1, name) ≡ told_line other.now (place + 1, name) }
    {
        self.blamed.is_empty()
            && other.blamed.is_empty()
            && has_same_row(&self.rows, &other.rows, place)
            && has_same_fate(&self.fates, &other.fates, place)
    }

    /// Appends the row of the task at a place, unless it is that of the canvas without a failure.
    fn push_changed(
        &self,
        alloc: Global,
        plan: &Plan,
        base: &Base,
        place: u32,
        task: TaskNo,
        found: &mut Vec<String>,
    ) -> Result<(), Memory>
        ensures { (name : Text) → task ≡ place + 1 → name_of plan.now task ≡ Some name
            → slice_get (map string_bytes base.now.rows.items) place
            ≡ Some (row_object base.now.told (task, name))
            → OnOk result (map string_bytes found.new.items ≡ map string_bytes found.old.items
            ++ option_to_list (changed_object self.now base.now.told (task, name))) }
    {
        if self.is_alike(&base.told, place as usize) {
            return Ok(());
        }
        let row = self.row(alloc, plan, task)?;
        if !is_text_at(&base.rows, place as usize, &row) {
            found.push(row)?;
        }
        Ok(())
    }

    /// Returns the rows that differ from those of the canvas without a failure.
    pub(crate) fn changed_rows(
        &self,
        alloc: Global,
        plan: &Plan,
        base: &Base,
    ) -> Result<Vec<String>, Memory>
        ensures { AreAllRows base.now.told plan.now (map string_bytes base.now.rows.items)
            → IfOk result (λ found. map string_bytes found.items
            ≡ filter_map (changed_object self.now base.now.told)
            (names_by_number (tree_of plan.now))) }
    {
        let mut found = Vec::new(alloc);
        for place in 0..plan.tasks() {
            self.push_changed(alloc, plan, base, place, plan.task_at(place), &mut found)?;
        }
        Ok(found)
    }

    /// Returns these rows, the canvas's result, and the task that fails, as a JSON object in a
    /// line.
    pub(crate) fn object(
        &self,
        alloc: Global,
        plan: &Plan,
        fails: Option<TaskNo>,
        rows: &[String],
    ) -> Result<String, Memory>
        ensures { IfOk result (λ line. string_bytes line
            ≡ case_line self.now (tree_of plan.now) fails (map string_bytes rows.now)) }
    {
        let result = result_text(alloc, plan, &self.rows)?;
        let rows = as_slices(alloc, rows)?;
        Ok(object_line(alloc, without_end(&result), fails, &rows)?)
    }
}

/// Appends the task that fails as a member.
fn push_fails(object: &mut String, fails: Option<TaskNo>) -> Result<(), AllocError>
    ensures { OnOk result
        (string_bytes object.new ≡ string_bytes object.old ++ fails_member fails) }
{
    match fails {
        Some(task) => {
            write!(object, ",\"fails\":\"{task}\"")?;
            Ok(())
        }
        None => object.push_str(",\"fails\":null"),
    }
}

fn object_line(
    alloc: Global,
    canvas: &str,
    fails: Option<TaskNo>,
    rows: &[&str],
) -> Result<String, AllocError>
    ensures { IfOk result (λ line. string_bytes line
        ≡ codes "{\"canvas\":" ++ canvas.now ++ fails_member fails ++ codes ",\"rows\":["
        ++ joined (map (λ row. row.now) rows.now) ++ codes "]}\n") }
{
    let mut object = String::from_str(alloc, "{\"canvas\":")?;
    object.push_str(canvas)?;
    push_fails(&mut object, fails)?;
    object.push_str(",\"rows\":[")?;
    push_rows(&mut object, rows)?;
    object.push_str("]}\n")?;
    Ok(object)
}
