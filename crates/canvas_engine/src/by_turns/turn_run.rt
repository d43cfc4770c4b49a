//! The workers of a run on one thread, with the queue and the table of results that they share.
ghost use Rattle.std.specs.Prelude.{◌≡◌, ◌≤◌, ◌<◌, ◌+◌, ◌++◌, ◌∷◌, ℕ, Bool, Some, None, false, true, not, ◌||◌, [], List, map, length, IfOk, IfErr, OnOk, OnErr, IsTrue, IsSome, MatchBool, slice_get};
ghost use Rattle.std.specs.List.{list_any};
ghost use Rattle.canvas_semantics.specs.Line.{count_line};
ghost use Rattle.canvas_rewrite.specs.Planned.{IsPlan};
ghost use Rattle.canvas_effects.specs.Effects.{first_messages};
ghost use Rattle.canvas_history.specs.Table.{no_results};
ghost use Rattle.canvas_backend.specs.Plain.{held};
ghost use Rattle.canvas_history.specs.Roster.{roster_of};
ghost use Rattle.canvas_runs.specs.Core.{ReadsBack, is_inside};
ghost use Rattle.canvas_runs.specs.Tally.{greatest_count};
ghost use Rattle.canvas_runs.specs.Worker.{sealed};
ghost use Rattle.canvas_runs.specs.Turns.{Step, IsWorker, FirstsRead, is_queued};
ghost use Rattle.canvas_core.specs.Books.{no_book};
ghost use Rattle.canvas_core.specs.EnvelopeWorker.{enveloped_by, no_tasks};
ghost use Rattle.canvas_core.specs.CoreState as standing;
ghost use Rattle.canvas_core.specs.CoreState.{CoreView, next};
ghost use Rattle.canvas_core.specs.declared.ask.Ask.TheVariants as ask;
ghost use Rattle.canvas_engine.specs.Noted.{opening_steps};
ghost use Rattle.canvas_engine.specs.steps.Noting.{Noted};
ghost use Rattle.canvas_engine.specs.steps.TurnRuns.{rows_of, asks_of, step_now, IsThere, MayAsk, AreInRange, Stepped, IsTried, store_answer, counted_on, Redelivers, AreNew, Given, Reached, HasReached, IsTurn, IsHalt, IsNew};

use crate::by_turns::entries::first_for;
use crate::by_turns::firsts::first_envelopes;
use crate::by_turns::notes::{Did, Keeps, Notes, Step as NotedStep};
use canvas_backend::{PlainBackend, Stored};
use canvas_broker::PlainBroker;
use canvas_core::{Ask, Cause, Core, Reply};
use canvas_envelope::Letter;
use canvas_rewrite::Plan;
use canvas_runs::When;
use canvas_task::{Memory, Outcome, TaskNo, Tasks};
use std::alloc::Global;

/// Publishes what a worker hands out, and notes it.
fn publish<T: Tasks>(
    core: &mut Core,
    queue: &mut PlainBroker<Letter>,
    table: &PlainBackend,
    notes: &mut Notes,
    worker: u32,
    tasks: &T,
) -> Result<(), Memory>
    requires inside { core.old.is_out ≡ false }
    requires reads_back { ReadsBack (enveloped_by no_tasks no_book) core.old.left }
    requires asks { next core.old ≡ ask.Publish }
    ensures ok { OnOk result ((more : Bool)
        → Stepped (T.behaviour tasks.now) more core.old queue.old table.now core.new queue.new
        table.now) }
    ensures noted { OnOk result ((more : Bool) → Noted notes.old
        (step_now worker table.now.plan queue.old (held table.now) more
        (asks_of table.now.plan core.old) ∷ []) notes.new) }
{
    match core.envelope() {
        Some(envelope) => {
            notes.published(worker, &envelope)?;
            match queue.publish(envelope) {
                Ok(()) => core.answer(table, tasks, Reply::Published),
                Err(_refused) => Err(Memory),
            }
        }
        None => unreachable!(),
    }
}

/// Returns a count with one more if a store answered Again. It saturates. No list of entries
/// reaches its greatest value.
fn count_again(repeats: u64, stored: Stored) -> u64
    ensures { result ≡ counted_on repeats stored }
{
    match stored {
        Stored::First => repeats,
        Stored::Again => repeats.saturating_add(1),
    }
}

/// The worker whose turn it is, and whether there is more to do, which a rest is answered with.
#[derive(Clone, Copy)]
struct Turn {
    worker: u32,
    more: bool,
}

/// Answers one ask of a worker by the queue and the table. A store that answers Again is counted,
/// and the step noted.
fn step<T: Tasks>(
    core: &mut Core,
    queue: &mut PlainBroker<Letter>,
    table: &mut PlainBackend,
    repeats: &mut u64,
    notes: &mut Notes,
    tasks: &T,
    turn: Turn,
) -> Result<(), Memory>
    requires inside { core.old.is_out ≡ false }
    requires may { MayAsk table.old.plan (held table.old) (asks_of table.old.plan core.old) }
    requires there { IsThere table.old.plan (next core.old) }
    requires in_range { AreInRange (held table.old) }
    requires going { next core.old ≡ ask.End → ⊥ }
    ensures ok { OnOk result (Stepped (T.behaviour tasks.now) turn.more core.old queue.old
        table.old core.new queue.new table.new) }
    ensures noted { OnOk result (Noted notes.old
        (step_now turn.worker table.old.plan queue.old (held table.old) turn.more
        (asks_of table.old.plan core.old) ∷ []) notes.new) }
    ensures again { repeats.new
        ≡ counted_on repeats.old
        (store_answer (held table.old) (asks_of table.old.plan core.old)) }
    ensures err { OnErr result
        (IsTried (T.behaviour tasks.now) turn.more core.old queue.old table.old table.new) }
{
    let Turn { worker, more } = turn;
    match core.next() {
        Ask::Take => {
            let taken = queue.take();
            notes.took(worker, &taken)?;
            core.answer(table, tasks, Reply::Taken(taken))
        }
        Ask::Publish => publish(core, queue, table, notes, worker, tasks),
        Ask::Store(task, outcome) => {
            let stored = table.store(task, &outcome);
            *repeats = count_again(*repeats, stored);
            notes.plain(worker, Did::Stored(task, outcome, stored))?;
            core.answer(table, tasks, Reply::Stored(stored))
        }
        Ask::Part(group, task) => {
            let count = table.part(group, task);
            notes.plain(worker, Did::Returned(group, task, count))?;
            core.answer(table, tasks, Reply::Counted(count))
        }
        Ask::Read(group, place) => match table.member(group, place) {
            Some(task) => {
                notes.plain(worker, Did::Read(task, table.read(task)))?;
                core.answer(table, tasks, Reply::Found(task, table.read(task)))
            }
            None => unreachable!(),
        },
        Ask::Ack(_) => {
            notes.plain(worker, Did::Acked)?;
            core.answer(table, tasks, Reply::Acked)
        }
        Ask::Rest => {
            notes.plain(worker, Did::Rested(more))?;
            core.answer(table, tasks, Reply::Rested { more })
        }
        Ask::End => Ok(()),
    }
}

/// Publishes envelopes in their order.
fn publish_all(queue: &mut PlainBroker<Letter>, envelopes: Vec<Letter>) -> Result<(), Memory>
    ensures { OnOk result (queue.new ≡ queue.old ++ envelopes.items) }
{
    for envelope in envelopes {
        match queue.publish(envelope) {
            Ok(()) => (),
            Err(_refused) => return Err(Memory),
        }
    }
    Ok(())
}

/// Returns whether a worker asks for nothing more.
fn has_ended(core: &Core) -> bool
    ensures end { MatchBool result (next core.now ≡ ask.End) (next core.now ≡ ask.End → ⊥) }
    ensures reads_back { core.now.is_out ≡ false
        → ReadsBack (enveloped_by no_tasks no_book) core.now.left }
{
    match core.next() {
        Ask::End => true,
        _ => false,
    }
}

/// Returns a clone of the entries that a run is given.
fn copied(alloc: Global, entries: &[(TaskNo, When)]) -> Result<Vec<(TaskNo, When)>, Memory>
    ensures copy { IfOk result (λ copy. copy.items ≡ entries.now) }
    ensures few { length entries.now ≤ greatest_count }
{
    let mut copy = Vec::new(alloc);
    copy.extend_from_slice(entries)?;
    Ok(copy)
}

/// The workers, numbered from 1, with what they share.
#[derive(Drop)]
pub(crate) struct TurnRun {
    queue: PlainBroker<Letter>,
    table: PlainBackend,
    cores: Vec<Core>,
    /// How many asks may still be answered. A redelivery is none, so no run stops between it and
    /// the ask of the same turn.
    steps: u128,
    /// The entries that are unspent.
    again: Vec<(TaskNo, When)>,
    /// How many stores have answered Again.
    repeats: u64,
    notes: Notes,
}

/// Returns workers that have asked for nothing yet.
fn new_cores(alloc: Global, workers: u32) -> Result<Vec<Core>, Memory>
    ensures { IfOk result (λ cores. (length cores.items ≡ workers) × AreNew cores.items) }
{
    let mut cores = Vec::new(alloc);
    for _worker in 0..workers {
        cores.push(Core::new(alloc))?;
    }
    Ok(cores)
}

fn is_any_inside(cores: &[Core]) -> bool
    ensures { result ≡ list_any (λ c. is_inside c.left) cores.now }
{
    cores.iter().any(|core| core.is_inside())
}

impl TurnRun {
    /// Returns a run before the first publish.
    pub(crate) fn new(
        alloc: Global,
        plan: &Plan,
        workers: u32,
        again: &[(TaskNo, When)],
        steps: u128,
        keeps: Keeps,
    ) -> Result<TurnRun, Memory>
        ensures new { IfOk result (λ s. IsNew plan.now workers s) }
        ensures steps { IfOk result (λ s. s.steps ≡ steps) }
        ensures again { IfOk result (λ s. s.again.items ≡ again.now) }
        ensures keeps { IfOk result (λ s. s.notes.keeps ≡ keeps) }
        ensures few { OnOk result (length again.now ≤ greatest_count) }
    {
        let cores = new_cores(alloc, workers)?;
        let table = PlainBackend::new(alloc, plan)?;
        let again = copied(alloc, again)?;
        Ok(TurnRun {
            queue: PlainBroker::new(alloc),
            table,
            cores,
            steps,
            again,
            repeats: 0,
            notes: Notes::new(alloc, keeps),
        })
    }

    /// Publishes the messages of the tasks that start at once.
    pub(crate) fn open(&mut self, alloc: Global, plan: &Plan) -> Result<(), Memory>
        requires { self.old.queue ≡ [] }
        ensures queue { OnOk result (self.new.queue ≡ map sealed (first_messages plan.now)) }
        ensures back { OnOk result (FirstsRead plan.now) }
        ensures others { (self.new.table ≡ self.old.table) × (self.new.cores ≡ self.old.cores)
            × (self.new.steps ≡ self.old.steps) }
        ensures entries { (self.new.again ≡ self.old.again)
            × (self.new.repeats ≡ self.old.repeats) }
        ensures noted { OnOk result
            (Noted self.old.notes (opening_steps plan.now) self.new.notes) }
    {
        let envelopes = first_envelopes(alloc, plan)?;
        self.notes.opened(&envelopes)?;
        publish_all(&mut self.queue, envelopes)
    }

    /// Returns whether the queue holds something or a worker is inside a message. It looks over the
    /// workers, 16 at most; nothing else in a step depends on how many workers or tasks there are.
    fn holds_more(&self) -> bool
        ensures { result
            ≡ (is_queued self.now.queue || list_any (λ c. is_inside c.left) self.now.cores.items) }
    {
        !self.queue.is_empty() || is_any_inside(&self.cores)
    }

    /// Returns whether there is more to do, which a worker that rests is answered.
    fn tells_more(&self, index: usize) -> bool
        requires { index < length self.now.cores.items }
        ensures { (core : CoreView) → slice_get self.now.cores.items index ≡ Some core
            → next core ≡ ask.Rest
            → result
            ≡ (is_queued self.now.queue
            || list_any (λ c. is_inside c.left) self.now.cores.items) }
    {
        match self.cores[index].next() {
            Ask::Rest => self.holds_more(),
            _ => false,
        }
    }

    /// Redelivers the envelope that a worker holds, if an entry for the point that the worker has
    /// reached is unspent. That entry is spent.
    fn deliver_again(&mut self, alloc: Global, worker: u32, index: usize) -> Result<(), Memory>
        requires index { index < length self.old.cores.items }
        requires holds { (core : CoreView) → slice_get self.old.cores.items index ≡ Some core
            → is_inside core.left ≡ true → IsSome (standing.held core) }
        ensures ok { OnOk result ((core : CoreView)
            → slice_get self.old.cores.items index ≡ Some core
            → Redelivers worker core self.old self.new) }
        ensures table { self.new.table ≡ self.old.table }
    {
        let core = &self.cores[index];
        let Some(point) = core.point() else {
            return Ok(());
        };
        let Some(entry) = first_for(&self.again, &point) else {
            return Ok(());
        };
        let copy = match core.held() {
            Some(envelope) => envelope.copy(alloc)?,
            None => unreachable!(),
        };
        self.notes.redelivered(worker, &copy)?;
        match self.queue.publish(copy) {
            Ok(()) => {
                self.again.remove(entry);
                Ok(())
            }
            Err(_refused) => Err(Memory),
        }
    }

    /// Returns how many stores have answered Again.
    pub(crate) fn repeats(&self) -> u64
        ensures { result ≡ self.now.repeats }
    {
        self.repeats
    }

    /// Returns the steps that were to be noted.
    pub(crate) fn into_steps(self) -> Vec<NotedStep>
        ensures { result ≡ self.notes.steps }
    {
        self.notes.into_steps()
    }

    /// Takes a worker's turn: answers one ask of it, unless it is at its end, and returns whether
    /// it did. Before that it spends an entry for the point that the worker has reached.
    pub(crate) fn turn<T: Tasks>(
        &mut self,
        alloc: Global,
        plan: &Plan,
        tasks: &T,
        worker: u32,
    ) -> Result<bool, Cause>
        requires { (n : ℕ) × (most : ℕ) × (given : Given) × (us : List ℕ) × IsWorker n worker
            × HasReached (T.behaviour tasks.now) plan.now n most given us self.old }
        ensures ok { IfOk result (λ b. (n : ℕ) (most : ℕ) (given : Given) (us : List ℕ)
            (xs : List Step) → Reached (T.behaviour tasks.now) plan.now n most given us xs self.old
            → IsTurn (T.behaviour tasks.now) b plan.now n most given us xs worker self.new) }
        ensures err { IfErr result (λ cause. (n : ℕ) (most : ℕ) (given : Given) (us : List ℕ)
            (xs : List Step) → Reached (T.behaviour tasks.now) plan.now n most given us xs self.old
            → IsHalt (T.behaviour tasks.now) cause plan.now n most given us self.new) }
    {
        let index = worker as usize - 1;
        if has_ended(&self.cores[index]) {
            return Ok(false);
        }
        if self.steps == 0 {
            return Err(Cause::Stopped);
        }
        match self.deliver_again(alloc, worker, index) {
            Ok(()) => (),
            Err(Memory) => return Err(Cause::Memory),
        }
        let more = self.tells_more(index);
        match step(
            &mut self.cores[index],
            &mut self.queue,
            &mut self.table,
            &mut self.repeats,
            &mut self.notes,
            tasks,
            Turn { worker, more },
        ) {
            Ok(()) => {
                self.steps -= 1;
                Ok(true)
            }
            Err(Memory) => Err(Cause::Memory),
        }
    }

    /// Fills the rows, one for each task, with the outcomes that are stored.
    pub(crate) fn read_rows(&self, plan: &Plan, rows: &mut [Option<Outcome>])
        requires plan { self.now.table.plan ≡ roster_of plan.now }
        requires rows { length rows.old ≡ count_line plan.now }
        ensures { rows.new ≡ rows_of (count_line plan.now) (held self.now.table) }
    {
        for index in 0..plan.tasks() {
            rows[index as usize] = self.table.read(plan.task_at(index));
        }
    }
}
