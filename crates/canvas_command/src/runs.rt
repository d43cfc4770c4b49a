//! `canvas run` and `canvas turns`.
ghost use Rattle.std.specs.Prelude.{◌≡◌, [], false, IfErr, IfOk, None, Option, ℕ};
ghost use Rattle.canvas_answer.specs.Asking.{asking};
ghost use Rattle.canvas_answer.specs.Plans.{ArePlansOf, run_line};
ghost use Rattle.canvas_semantics.specs.Line.{tree_of};
ghost use Rattle.canvas_semantics.specs.States.{states};
ghost use Rattle.canvas_engine.specs.Correct.{IsRunFault};
ghost use Rattle.canvas_engine.specs.Evidence.{IsThreadFault};
ghost use Rattle.canvas_command.specs.Runs.{IsByTurns, IsRunOf, IsSteppedOf};

use crate::halted::{early, refused};
use canvas_answer::again::{Again, named_entries};
use canvas_answer::answer::{Answer, Remark};
use canvas_answer::plan::lasting;
use canvas_answer::prepared::Plans;
use canvas_answer::refusal::Refusal;
use canvas_answer::reporting::{Format, OutputOptions};
use canvas_answer::source::Source;
use canvas_engine::{
    OpenGate, Report, RunFault, Stop, When, run, run_turns_again, run_turns_stepped, steps_text,
};
use canvas_rewrite::Plan;
use canvas_task::{TaskNo, Tasks};
use std::alloc::Global;
use std::random::RandomSource;
use std::sync::Wait;
use std::thread::Threads;

/// Returns the report of a plan's run on threads.
fn report_of<S, T>(rt: &S, plan: &Plan, tasks: &T, workers: u32) -> Result<Report, RunFault>
where
    S: Threads + Wait + RandomSource + AllocGlobal + Sync,
    T: Tasks + Sync,
    ensures ok { IfOk result
        (λ report. report.rows ≡ states (T.behaviour tasks.now) (tree_of plan.now)) }
    ensures err { IfErr result
        (IsThreadFault workers (states (T.behaviour tasks.now) (tree_of plan.now))) }
{
    let alloc = rt.alloc();
    let (report, _records) = run(rt, alloc, plan, tasks, workers, &OpenGate, &Stop::new())?;
    Ok(report)
}

/// Returns the report of a plan's run on threads, or the refusal if there is none.
pub(crate) fn whole_report<S, T>(
    rt: &S,
    plan: &Plan,
    tasks: &T,
    workers: u32,
) -> Result<Report, Refusal>
where
    S: Threads + Wait + RandomSource + AllocGlobal + Sync,
    T: Tasks + Sync,
    ensures { IfOk result
        (λ report. report.rows ≡ states (T.behaviour tasks.now) (tree_of plan.now)) }
{
    match report_of(rt, plan, tasks, workers) {
        Ok(report) => Ok(report),
        Err(fault) => Err(refused(&fault)),
    }
}

/// Answers with the report of a run on threads.
pub(crate) fn answer_run<S, T>(
    rt: &S,
    workers: u32,
    output: OutputOptions,
    source: &Source<'_, T>,
) -> Result<Answer, Refusal>
where
    S: Threads + Wait + RandomSource + AllocGlobal + Sync,
    T: Tasks + Sync,
    ensures { IfOk result (IsRunOf (T.behaviour source.now.tasks.now)
        (asking source.now.setting) source.now.text.now (IsThreadFault workers) output.form
        output.fails None) }
{
    let plans = lasting(source.checked_plans(rt.alloc())?);
    match report_of(rt, plans.run(), source.tasks, workers) {
        Ok(report) => output.whole(rt.alloc(), &plans, &report, source, None),
        Err(fault) => Ok(early(rt.alloc(), output, &plans, source, &fault)),
    }
}

/// A request for a run by turns.
#[derive(Clone, Copy)]
struct ByTurns<'a> {
    workers: u32,
    turns: &'a [u32],
    /// The redeliveries.
    again: &'a [(TaskNo, When)],
    /// Whether the report says how many stores answered Again.
    counts: bool,
    /// Whether the steps are shown instead of the report.
    steps: bool,
    output: OutputOptions,
}

impl ByTurns<'_> {
    fn counted(&self, answer: Answer, repeats: u64) -> Answer
        ensures { (result.out ≡ answer.out) × (result.refusal ≡ answer.refusal)
            × (result.status ≡ answer.status) }
    {
        answer.with_remark(self.counts.then_some(Remark::Repeats(repeats)))
    }

    /// Answers with the steps.
    fn stepped<T: Tasks>(
        &self,
        alloc: Global,
        plans: &Plans,
        source: &Source<'_, T>,
    ) -> Result<Answer, Refusal>
        ensures { ArePlansOf (asking source.now.setting) source.now.text.now plans.now.shown
            (run_line plans.now)
            → IfOk result (IsSteppedOf (T.behaviour source.now.tasks.now)
            (asking source.now.setting) source.now.text.now self.now.workers self.now.turns.now
            self.now.output.fails) }
    {
        let (plan, tasks) = (plans.run(), source.tasks);
        match run_turns_stepped(alloc, plan, tasks, self.workers, self.turns, self.again) {
            Ok((report, repeats, steps)) => {
                let rows = source.whole_rows(alloc, plans, &report)?;
                let lines = steps_text(alloc, plan, &rows, &steps)?;
                let answer = self.output.answer(lines, &plans.shown, &report);
                Ok(self.counted(answer, repeats))
            }
            Err(fault) => Err(refused(&fault)),
        }
    }

    /// Answers with the report.
    fn shown<T: Tasks>(
        &self,
        alloc: Global,
        plans: &Plans,
        source: &Source<'_, T>,
    ) -> Result<Answer, Refusal>
        ensures { ArePlansOf (asking source.now.setting) source.now.text.now plans.now.shown
            (run_line plans.now)
            → IfOk result (λ a. (again : Option ℕ)
            × IsRunOf (T.behaviour source.now.tasks.now) (asking source.now.setting)
            source.now.text.now (IsRunFault self.now.workers self.now.turns.now)
            self.now.output.form self.now.output.fails again a) }
    {
        let (plan, tasks) = (plans.run(), source.tasks);
        match run_turns_again(alloc, plan, tasks, self.workers, self.turns, self.again) {
            Ok((report, repeats)) => {
                let again = self.counts.then_some(repeats);
                let answer = self.output.whole(alloc, plans, &report, source, again)?;
                Ok(self.counted(answer, repeats))
            }
            Err(fault) => Ok(early(alloc, self.output, plans, source, &fault)),
        }
    }

    /// Answers with the report, or with the steps if they are asked for.
    fn told<T: Tasks>(
        &self,
        alloc: Global,
        plans: &Plans,
        source: &Source<'_, T>,
    ) -> Result<Answer, Refusal>
        ensures { ArePlansOf (asking source.now.setting) source.now.text.now plans.now.shown
            (run_line plans.now)
            → IfOk result (IsByTurns (T.behaviour source.now.tasks.now)
            (asking source.now.setting) source.now.text.now self.now.workers self.now.turns.now
            self.now.steps self.now.output.form self.now.output.fails) }
    {
        match self.steps {
            true => self.stepped(alloc, plans, source),
            false => self.shown(alloc, plans, source),
        }
    }

    /// Like `told`, with what is redelivered by names if there is a list of these.
    fn told_named<T: Tasks>(
        &self,
        alloc: Global,
        names: Option<&str>,
        plans: &Plans,
        source: &Source<'_, T>,
    ) -> Result<Answer, Refusal>
        ensures { ArePlansOf (asking source.now.setting) source.now.text.now plans.now.shown
            (run_line plans.now)
            → IfOk result (IsByTurns (T.behaviour source.now.tasks.now)
            (asking source.now.setting) source.now.text.now self.now.workers self.now.turns.now
            self.now.steps self.now.output.form self.now.output.fails) }
    {
        let Some(list) = names else {
            return self.told(alloc, plans, source);
        };
        let again = named_entries(alloc, &plans.shown, list)?;
        let by = ByTurns {
            workers: self.workers,
            turns: self.turns,
            again: &again,
            counts: true,
            steps: self.steps,
            output: self.output,
        };
        by.told(alloc, plans, source)
    }

    fn answer<T: Tasks>(
        &self,
        alloc: Global,
        names: Option<&str>,
        source: &Source<'_, T>,
    ) -> Result<Answer, Refusal>
        ensures { IfOk result (IsByTurns (T.behaviour source.now.tasks.now)
            (asking source.now.setting) source.now.text.now self.now.workers self.now.turns.now
            self.now.steps self.now.output.form self.now.output.fails) }
    {
        let plans = lasting(source.checked_plans(alloc)?);
        self.told_named(alloc, names, &plans, source)
    }
}

/// Answers with the steps of a run by some workers that take turns from 1, in which all is
/// redelivered if that is asked for.
pub(crate) fn answer_steps<T: Tasks>(
    alloc: Global,
    workers: u32,
    again: bool,
    plans: &Plans,
    source: &Source<'_, T>,
) -> Result<Answer, Refusal>
    ensures { ArePlansOf (asking source.now.setting) source.now.text.now plans.now.shown
        (run_line plans.now)
        → IfOk result (IsSteppedOf (T.behaviour source.now.tasks.now)
        (asking source.now.setting) source.now.text.now workers [] false) }
{
    let by = ByTurns {
        workers,
        turns: &[],
        again: &[],
        counts: false,
        steps: true,
        output: OutputOptions {
            form: Format::Json,
            fails: false,
        },
    };
    by.told_named(alloc, again.then_some("all"), plans, source)
}

/// Answers with the report of a run by turns, with redeliveries if these are asked for; or with its
/// steps.
pub(crate) fn answer_turns<T: Tasks>(
    alloc: Global,
    workers: u32,
    turns: &[u32],
    again: &Again<'_>,
    steps: bool,
    output: OutputOptions,
    source: &Source<'_, T>,
) -> Result<Answer, Refusal>
    ensures { IfOk result (IsByTurns (T.behaviour source.now.tasks.now)
        (asking source.now.setting) source.now.text.now workers turns.now steps output.form
        output.fails) }
{
    let once = ByTurns {
        workers,
        turns,
        again: &[],
        counts: false,
        steps,
        output,
    };
    match again {
        Again::Nothing => once.answer(alloc, None, source),
        Again::Entries(entries) => {
            let by = ByTurns {
                again: entries,
                counts: true,
                ..once
            };
            by.answer(alloc, None, source)
        }
        Again::Named(list) => once.answer(alloc, Some(list), source),
    }
}
