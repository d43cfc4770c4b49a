//! Runs by turns on one thread, also with entries that say which envelopes are redelivered: the law
//! of runs speaks of each, and it ends.

ghost use Rattle.std.specs.Prelude.{◌≡◌, ℕ, List, []};
ghost use Rattle.canvas_task.specs.Builtin.{builtin_tasks};
ghost use Rattle.canvas_runs.specs.Witness.{small};
ghost use Rattle.canvas_runs.specs.TurnLaws.{TurnsAreRuns, TurnRowsMay, TurnRowsAre, TurnsEmpty, TurnStatesMay, TurnStatesAre, WholeTurns, UntilTurns, NextAnswerable, HeldInRange};
ghost use Rattle.canvas_runs.specs.Termination.{FewSteps, StopsSoon, StepsFit, RoundsGo, FairTurnsEnd};
ghost use Rattle.canvas_runs.specs.TurnWays.{TurnsUnderWay};
ghost use Rattle.canvas_runs.specs.Turns.{Turned, RanWhole};
ghost use Rattle.canvas_runs.specs.Redeliveries.{EntriesAreTurns, EntriesFew, OwnPoints, AgainsAreEntries, AgainsFew, NoEntries, AgainTurns, TurnedAgain, RanAgain, Entry, agains_in};
ghost use Rattle.canvas_runs.specs.TurnWitness.{listed_turns, witness_steps, hasty};
ghost use Rattle.canvas_runs.specs.EntryWitness.{product, both_points, product_steps, quotient, link_entry, quotient_steps, unspent};

/// The laws of runs by turns, on one thread: a turn answers one ask of one worker by what the queue
/// and the table say then. For any number of workers and any list of turns it is a run, closed if
/// all have ended, so the law of runs speaks of it: each task is pending or has the state that
/// evaluating the plan gives, and has that state if all have ended. A worker's next ask can be
/// answered: a task that it names is one of the plan's, its part is of a chord's member that is
/// stored and was not returned, and a task that it reads is stored.
pub fn laws_of_turns()
    ensures runs { TurnsAreRuns }
    ensures rows_may { TurnRowsMay }
    ensures rows_are { TurnRowsAre }
    ensures emptied { TurnsEmpty }
    ensures states_may { TurnStatesMay }
    ensures states_are { TurnStatesAre }
    ensures whole { WholeTurns }
    ensures until { UntilTurns }
    ensures answerable { NextAnswerable }
    ensures in_range { HeldInRange }
{}

/// States that a run by turns ends. In rotation a round in which nobody asks for anything is the
/// last, and of each two rounds one has a call of the queue or of the table, of which there are
/// few: each task is published, taken, stored and its part returned at most once. So a count of 128
/// bits holds the number of steps. It ends by any turns of which each worker has one again and
/// again, after twelve lists of such turns for each task, eight for each redelivery, and two.
pub fn ends_of_turns()
    ensures few { FewSteps }
    ensures stops { StopsSoon }
    ensures fit { StepsFit }
    ensures rounds { RoundsGo }
    ensures fair { FairTurnsEnd }
{}

/// States that runs by turns are under way at any time, so the law of progress holds of each.
pub fn turns_go_on()
    ensures { TurnsUnderWay }
{}

/// The laws of runs by turns in which envelopes are redelivered by a list of entries, each a task
/// with one of the two points of a script of its message, before its first store or before its
/// acknowledgement. With any entries such a run is a run by turns, so it ends, and if all have
/// ended each task has the state that evaluating the plan gives. Its redeliveries are the entries
/// that were spent. A worker whose next ask is a message's own store is at the first of the two
/// points of that message's task. As many stores answer that they were not the first as there are
/// entries whose task evaluation runs, and no such entry stays unspent; at any time they are no
/// more than the entries. A run by turns without redeliveries is one without entries.
///
/// At most one entry is spent each time a taken message reaches a point, and the copy reaches both
/// points again. So every entry of a task that is run is spent in the end. Equal entries can't be
/// told apart, so only how many are left matters.
pub fn laws_of_entries()
    ensures turns { EntriesAreTurns }
    ensures few { EntriesFew }
    ensures own { OwnPoints }
    ensures agains { AgainsAreEntries }
    ensures at_most { AgainsFew }
    ensures none { NoEntries }
    ensures whole { AgainTurns }
{}

/// States that there is something of which the laws of entries speak. A sum and its product, with
/// an entry for each of the two points of the sum's message, have these steps, and two stores
/// answer that they were not the first. A division by zero with a link has these, and the entry for
/// the link's message, which is never published, does nothing. By no turns is a store answered with
/// an entry for the point before it unspent.
pub fn runs_by_entries()
    ensures both { (r : RanAgain builtin_tasks product 1 [] both_points) × (r.steps ≡ product_steps)
        × (agains_in r.steps ≡ 2) }
    ensures idle { (r : RanAgain builtin_tasks quotient 1 [] link_entry)
        × (r.steps ≡ quotient_steps) × (agains_in r.steps ≡ 0) }
    ensures none_unspent { (us : List ℕ) (rest : List Entry)
        → TurnedAgain builtin_tasks product 1 [] both_points us unspent rest → ⊥ }
{}

/// States that there is something of which the laws of turns speak: by a list of fourteen turns and
/// two rounds after it two workers run the chord of two sums and the sum of both, with these steps.
/// By no turns is a worker's rest answered with no more while another worker is inside the script
/// of a message.
pub fn turns_of_a_chord()
    ensures stands { (r : RanWhole builtin_tasks small 2 listed_turns) × (r.steps ≡ witness_steps)
        × (r.further ≡ 2) }
    ensures none_hasty { (us : List ℕ) → Turned builtin_tasks small 2 [] us hasty → ⊥ }
{}
