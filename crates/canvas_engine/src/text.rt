//! From the text of a canvas to the text of its report.
ghost use Rattle.std.specs.Prelude.{◌≡◌, List, Ok, IfOk, IfErr, string_bytes};
ghost use Rattle.canvas_history.specs.Callers.{told};
ghost use Rattle.canvas_values.specs.CanvasText.{text_reading};
ghost use Rattle.canvas_semantics.specs.Tree.{Tree};
ghost use Rattle.canvas_semantics.specs.Evaluation.{State};
ghost use Rattle.canvas_semantics.specs.Line.{tree_of};
ghost use Rattle.canvas_semantics.specs.Report.{report, report_of};
ghost use Rattle.canvas_semantics.specs.States.{rows_from, states};
ghost use Rattle.canvas_engine.specs.Correct.{AreWorkers, IsAsked, IsWholeAgain, IsRunFault};
ghost use Rattle.canvas_engine.specs.Headline.{Headline, OnlyWanted};
ghost use Rattle.canvas_engine.specs.Evidence.{IsRun, IsThreadFault};
ghost use Rattle.canvas_rewrite.specs.Planned.{IsPlan};
ghost use Rattle.canvas_runs.specs.ProgramOrder.{program_order};
ghost use Rattle.canvas_engine.specs.Texts.{IsPlanOfText, IsTextAgain, IsTextFault, IsTextRun};
ghost use Rattle.canvas_engine.specs.declared.threads.records.Records.{Records};
ghost use Rattle.canvas_engine.specs.steps.PlanTexts.{IsPlanFault, IsReadFault};

use crate::{Records, RunFault, When, report_text, run, run_turns_again};
use canvas_rewrite::Plan;
use canvas_sig::{SigFault, read_canvas};
use canvas_task::{Memory, TaskNo, Tasks};
use canvas_worker::{Gate, Stop};
use std::alloc::{AllocGlobal, Global};
use std::random::RandomSource;
use std::sync::Wait;
use std::thread::Threads;
use thiserror::Error;

/// Why a text has no report.
#[derive(Debug, Drop, Error)]
pub enum TextFault {
    /// The text is refused.
    #[error("{0}")]
    Sig(SigFault),
    /// Its run has no whole report. `report_text` writes the rows that a halted run has.
    #[error("{0}")]
    Run(RunFault),
    /// An allocation failed before the run, or after it.
    #[error("memory refused")]
    Memory,
}

impl From<Memory> for TextFault {
    ghost use Rattle.std.specs.Prelude.{◌≡◌};
    ghost use Rattle.canvas_engine.specs.declared.text.TextFault.TheVariants as fault;

    ghost from_gives = { λ _ e. e ≡ fault.Memory };

    fn from(_refused: Memory) -> TextFault {
        TextFault::Memory
    }
}

/// Reads a canvas and makes its plan.
fn read_plan(alloc: Global, bytes: &[u8]) -> Result<Plan, TextFault>
    ensures ok { IfOk result (λ plan. (c : Tree) × IsPlanOfText bytes.now c plan) }
    ensures err { IfErr result (IsReadFault bytes.now) }
{
    let canvas = match read_canvas(alloc, bytes) {
        Ok(canvas) => canvas,
        Err(SigFault::Memory) => return Err(TextFault::Memory),
        Err(fault) => return Err(TextFault::Sig(fault)),
    };
    match Plan::of(alloc, canvas) {
        Ok(plan) => Ok(plan),
        Err(Memory) => Err(TextFault::Memory),
    }
}

/// Runs a plan on one thread, and writes its report. Also returns how many stores answered Again.
fn plan_text<T: Tasks>(
    alloc: Global,
    plan: &Plan,
    tasks: &T,
    workers: u32,
    turns: &[u32],
    again: &[(TaskNo, When)],
) -> Result<(String, u64), TextFault>
    ensures ok { IfOk result (λ r. IsAsked workers turns.now × (rows : List State)
        × (string_bytes r.0 ≡ report_of (tree_of plan.now) (rows_from 1 rows))
        × IsWholeAgain (T.behaviour tasks.now) plan.now workers turns.now again.now rows r.1) }
    ensures err { IfErr result (IsPlanFault
        (IsRunFault workers turns.now (states (T.behaviour tasks.now) (tree_of plan.now)))) }
{
    match run_turns_again(alloc, plan, tasks, workers, turns, again) {
        Ok((report, repeats)) => Ok((report_text(alloc, plan, &report)?, repeats)),
        Err(fault) => Err(TextFault::Run(fault)),
    }
}

/// Reads a canvas, runs it on one thread, and writes its report. The faults of the text come first,
/// then those of the run.
pub fn run_text<T: Tasks>(
    alloc: Global,
    bytes: &[u8],
    tasks: &T,
    workers: u32,
    turns: &[u32],
) -> Result<String, TextFault>
    ensures ok { IfOk result (λ text. (c : Tree) × (text_reading bytes.now ≡ Ok c)
        × IsAsked workers turns.now × (string_bytes text ≡ report (T.behaviour tasks.now) c)) }
    ensures err { IfErr result
        (IsTextFault (T.behaviour tasks.now) bytes.now (IsRunFault workers turns.now)) }
{
    let (text, _repeats) = run_text_again(alloc, bytes, tasks, workers, turns, &[])?;
    Ok(text)
}

/// Like `run_text`, but redelivers envelopes as `again` says, as `run_turns_again` does. Also
/// returns how many stores answered Again.
pub fn run_text_again<T: Tasks>(
    alloc: Global,
    bytes: &[u8],
    tasks: &T,
    workers: u32,
    turns: &[u32],
    again: &[(TaskNo, When)],
) -> Result<(String, u64), TextFault>
    ensures ok { IfOk result (λ r. IsTextAgain (T.behaviour tasks.now) bytes.now workers turns.now
        again.now (string_bytes r.0) r.1) }
    ensures err { IfErr result (IsTextFault (T.behaviour tasks.now) bytes.now
        (IsRunFault workers turns.now)) }
{
    let plan = read_plan(alloc, bytes)?;
    plan_text(alloc, &plan, tasks, workers, turns, again)
}

/// Runs a plan on threads, and writes its report. Also returns the records of the run.
fn plan_text_threads<R, T, G>(
    rt: &R,
    alloc: Global,
    plan: &Plan,
    tasks: &T,
    workers: u32,
    gate: &G,
    stop: &Stop,
) -> Result<(String, Records), TextFault>
where
    R: Threads + Wait + RandomSource + AllocGlobal + Sync,
    T: Tasks + Sync,
    G: Gate + Sync,
    ensures ok { IfOk result (λ r. (AreWorkers workers × IsPlan plan.now)
        × (string_bytes r.0
        ≡ report_of (tree_of plan.now)
        (rows_from 1 (states (T.behaviour tasks.now) (tree_of plan.now))))
        × ((ran : IsRun (T.behaviour tasks.now) plan.now workers
        (states (T.behaviour tasks.now) (tree_of plan.now)) r.1)
        × Headline (T.behaviour tasks.now) plan.now workers
        (states (T.behaviour tasks.now) (tree_of plan.now)) r.1 (program_order ran.run))
        × OnlyWanted (G.may_want gate.now) (told r.1.pass)) }
    ensures err { IfErr result (IsPlanFault
        (IsThreadFault workers (states (T.behaviour tasks.now) (tree_of plan.now)))) }
{
    // For the clause that it is a plan.
    let _tasks = plan.tasks();
    match run(rt, alloc, plan, tasks, workers, gate, stop) {
        Ok((report, records)) => Ok((report_text(alloc, plan, &report)?, records)),
        Err(fault) => Err(TextFault::Run(fault)),
    }
}

/// Reads a canvas, runs it with 1 to 16 workers on threads, and writes its report. Also returns the
/// records of the run. The faults of the text come first, then those of the run. `gate` and `stop`
/// are those of `run`: a gate must open in the end, and a stop that was asked, also by a worker,
/// must not be used again.
///
/// The records are an answer, since that there are such records would say less: each plan has a
/// closed run as data, and only a pass and a seat that the calls left show that this run made them.
pub fn run_text_recorded<R, T, G>(
    rt: &R,
    alloc: Global,
    bytes: &[u8],
    tasks: &T,
    workers: u32,
    gate: &G,
    stop: &Stop,
) -> Result<(String, Records), TextFault>
where
    R: Threads + Wait + RandomSource + AllocGlobal + Sync,
    T: Tasks + Sync,
    G: Gate + Sync,
    ensures ok { IfOk result (λ r.
        IsTextRun (T.behaviour tasks.now) (G.may_want gate.now) bytes.now workers (string_bytes r.0)
        r.1) }
    ensures err { IfErr result
        (IsTextFault (T.behaviour tasks.now) bytes.now (IsThreadFault workers)) }
{
    let plan = read_plan(alloc, bytes)?;
    plan_text_threads(rt, alloc, &plan, tasks, workers, gate, stop)
}

/// Like `run_text_recorded`, without the records.
pub fn run_text_threads<R, T, G>(
    rt: &R,
    alloc: Global,
    bytes: &[u8],
    tasks: &T,
    workers: u32,
    gate: &G,
    stop: &Stop,
) -> Result<String, TextFault>
where
    R: Threads + Wait + RandomSource + AllocGlobal + Sync,
    T: Tasks + Sync,
    G: Gate + Sync,
    ensures ok { IfOk result (λ text. (records : Records)
        × IsTextRun (T.behaviour tasks.now) (G.may_want gate.now) bytes.now workers
        (string_bytes text) records) }
    ensures err { IfErr result
        (IsTextFault (T.behaviour tasks.now) bytes.now (IsThreadFault workers)) }
{
    let (text, _records) = run_text_recorded(rt, alloc, bytes, tasks, workers, gate, stop)?;
    Ok(text)
}
