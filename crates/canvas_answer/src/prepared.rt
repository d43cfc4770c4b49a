//! A prepared canvas: read once, adapted if that is asked for, and planned.
ghost use Rattle.std.specs.Prelude.{◌≡◌, ◌≢◌, [], IfErr, IfOk, IfSome, None, true};
ghost use Rattle.canvas_adapt.specs.Renamed.{renamed};
ghost use Rattle.canvas_task.specs.Text.{Text};
ghost use Rattle.canvas_task.specs.declared.TaskNo.{TaskNo};
ghost use Rattle.canvas_answer.specs.Plans.{IsCanvasOf, IsPlanOf, IsPlanRefusal, IsSpelled, run_line, spelled_text};
ghost use Rattle.canvas_answer.specs.declared.refusal.Refusal.TheVariants.{Memory, NoTaskToAnswer};
ghost use Rattle.canvas_answer.specs.declared.refusal.Refusal.TheVariants as refusal;
ghost use Rattle.canvas_values.specs.declared.fault.SigFault.{SigFault};
ghost use Rattle.canvas_values.specs.declared.fault.SigFault.TheVariants as sig_fault;

use crate::plan::canvas_of;
use crate::refusal::Refusal;
use canvas_adapt::{
    Adapted, AdaptedText, Changes, Rename, adapt, adapted_text, law_of_renames, renamed,
};
use canvas_rewrite::Plan;
use canvas_sig::{Canvas, SigFault};
use std::alloc::Global;

/// A canvas, and what was changed for it.
#[derive(Drop)]
pub struct Prepared {
    pub canvas: Canvas,
    pub changes: Changes,
}

/// Returns the refusal of a canvas for a fault.
fn refused(fault: SigFault) -> Refusal
    ensures { (e : SigFault) → result ≡ refusal.Canvas e
        → (e ≡ fault) × (fault ≢ sig_fault.Memory) }
{
    match fault {
        SigFault::Memory => Refusal::Memory,
        other => Refusal::Canvas(other),
    }
}

/// Returns the canvas of a text, adapted.
fn adapted(alloc: Global, text: &[u8]) -> Result<Prepared, Refusal>
    ensures ok { IfOk result (λ p. IsCanvasOf true text.now p.canvas) }
    ensures err { IfErr result (IsPlanRefusal [] text.now) }
{
    match adapt(alloc, text) {
        Ok(Adapted { canvas, changes }) => Ok(Prepared { canvas, changes }),
        Err(fault) => Err(refused(fault)),
    }
}

impl Prepared {
    /// Returns the canvas of a text, adapted if that is asked for. The text is read once.
    pub fn of(alloc: Global, text: &[u8], adapts: bool) -> Result<Prepared, Refusal>
        ensures ok { IfOk result (λ p. IsCanvasOf adapts text.now p.canvas) }
        ensures err { IfErr result (IsPlanRefusal [] text.now) }
    {
        if adapts {
            return adapted(alloc, text);
        }
        let canvas = canvas_of(alloc, text)?;
        Ok(Prepared {
            canvas,
            changes: Changes::none(),
        })
    }
}

impl Prepared {
    /// Returns the plan of the canvas.
    pub fn into_plan(self, alloc: Global) -> Result<Plan, Refusal>
        ensures { IfOk result (IsPlanOf self.canvas) }
    {
        let Prepared { canvas, .. } = self;
        plan_of(alloc, canvas)
    }
}

/// The text that spells a canvas which can be run, for values that borrow from it.
#[derive(Drop)]
pub struct Spelled {
    adapted: Option<AdaptedText>,
}

impl Spelled {
    /// Returns the text as it is, or adapted if that is asked for.
    pub fn of(alloc: Global, text: &[u8], adapts: bool) -> Result<Spelled, Refusal>
        ensures { IfOk result (λ s. IsSpelled adapts text.now (spelled_text s text.now)) }
    {
        let adapted = if adapts {
            Some(adapted_text(alloc, text, &[])?)
        } else {
            None
        };
        Ok(Spelled { adapted })
    }

    /// Returns the text, which is that of `of` if nothing was adapted.
    pub fn text<'a>(&'a self, text: &'a [u8]) -> &'a [u8]
        ensures { result.now ≡ spelled_text self.now text.now }
    {
        match &self.adapted {
            Some(adapted) => &adapted.text,
            None => text,
        }
    }

    /// Returns how many arguments were made texts when it was adapted.
    pub fn texts(&self) -> usize {
        match &self.adapted {
            Some(adapted) => adapted.changes.arguments,
            None => 0,
        }
    }
}

/// The plan of a canvas, as it is shown and as it is run.
#[derive(Drop)]
pub struct Plans {
    pub shown: Plan,
    /// The plan of the run, if some of its tasks have other names there.
    named: Option<Plan>,
}

/// Refuses the first of these numbers that a canvas with this number of tasks doesn't have.
fn check_numbers(renames: &[Rename], tasks: u32) -> Result<(), Refusal>
    ensures { IfErr result (λ e. (task : TaskNo) × (e ≡ NoTaskToAnswer task)) }
{
    for rename in renames {
        if rename.task.get() > tasks {
            return Err(Refusal::NoTaskToAnswer(rename.task));
        }
    }
    Ok(())
}

fn plan_of(alloc: Global, canvas: Canvas) -> Result<Plan, Refusal>
    ensures ok { IfOk result (IsPlanOf canvas) }
    ensures err { IfErr result (λ e. e ≡ Memory) }
{
    match Plan::of(alloc, canvas) {
        Ok(plan) => Ok(plan),
        Err(_) => Err(Refusal::Memory),
    }
}

/// Returns the plan of a canvas some of whose tasks have other names, if there are any.
fn named_plan(alloc: Global, canvas: &Canvas, renames: &[Rename]) -> Result<Option<Plan>, Refusal>
    ensures some { IfOk result (λ plan. IfSome plan (IsPlanOf (renamed renames.now canvas.now))) }
    ensures none { IfOk result (λ plan. plan ≡ None → renamed renames.now canvas.now ≡ canvas.now) }
    ensures err { IfErr result (λ e. (bytes : Text) → IsPlanRefusal renames.now bytes e) }
{
    if renames.is_empty() {
        law_of_renames();
        return Ok(None);
    }
    match renamed(alloc, canvas, renames) {
        Ok(named) => Ok(Some(plan_of(alloc, named)?)),
        Err(fault) => Err(refused(fault)),
    }
}

impl Plans {
    /// Returns the plans of a canvas, which are one if no task has another name for the run.
    pub fn of(alloc: Global, canvas: Canvas, renames: &[Rename]) -> Result<Plans, Refusal>
        ensures shown { IfOk result (λ plans. IsPlanOf canvas plans.shown) }
        ensures run { IfOk result
            (λ plans. IsPlanOf (renamed renames.now canvas) (run_line plans)) }
        ensures err { IfErr result (λ e. (bytes : Text) → IsPlanRefusal renames.now bytes e) }
    {
        let named = named_plan(alloc, &canvas, renames)?;
        let shown = plan_of(alloc, canvas)?;
        check_numbers(renames, shown.tasks())?;
        Ok(Plans { shown, named })
    }

    /// Returns the plans if other tasks of the canvas have other names for the run.
    pub(crate) fn renamed(
        self,
        alloc: Global,
        canvas: &Canvas,
        renames: &[Rename],
    ) -> Result<Plans, Refusal>
        ensures shown { IfOk result (λ plans. plans.shown ≡ self.shown) }
        ensures run { IsPlanOf canvas.now self.shown
            → IfOk result (λ plans. IsPlanOf (renamed renames.now canvas.now) (run_line plans)) }
    {
        let Plans { shown, .. } = self;
        let named = named_plan(alloc, canvas, renames)?;
        Ok(Plans { shown, named })
    }

    /// Returns the plan that is run.
    pub fn run(&self) -> &Plan
        ensures { result.now ≡ run_line self.now }
    {
        match &self.named {
            Some(plan) => plan,
            None => &self.shown,
        }
    }
}
