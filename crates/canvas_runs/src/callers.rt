//! From callers to a run: what each caller saw of the queue and of the table of results, by the
//! clauses of its own calls, makes one run, of which the law of runs speaks. The promise of a run
//! on threads follows from this.

ghost use Rattle.canvas_runs.specs.CallerLaws.{OneQueue, OneTable, IsARun, ReadsHeld, RowsMay, RowsAre, CanvasRowsMay, CanvasRowsAre, PublishesByCause, PublishesByItsCause, PublishesOnce, CompletesOnce};
ghost use Rattle.canvas_runs.specs.CallerRows.{RowsOfWell, RowsOfAny, TalliesCount, ARunStands};
ghost use Rattle.canvas_runs.specs.CallerRuns.{AreCallerRuns, AreRan};

/// States that what each caller saw makes a run. If worker 0 has made the passes and the seats of
/// the workers, has joined all again, and each has followed a core run, then the one legal list of
/// broker calls and that of backend calls have just the calls of each worker, in order. They are
/// those of a run, and if all ended well the run is closed.
pub fn runs_of_callers()
    ensures passes { OneQueue }
    ensures seats { OneTable }
    ensures run { IsARun }
    ensures reads { ReadsHeld }
    ensures callers { AreCallerRuns }
    ensures sides { AreRan }
{}

/// The law of runs, for what each caller saw. In the joined seat's list each task is pending or has
/// the state that evaluating the canvas gives, and if all ended well it has that state. A message
/// is published at most once, by the caller that brought about the event that runs its task: a
/// body's first messages by the caller of the one completing part.
pub fn law_of_callers()
    ensures rows_may { RowsMay }
    ensures rows_are { RowsAre }
    ensures canvas_rows_may { CanvasRowsMay }
    ensures canvas_rows_are { CanvasRowsAre }
    ensures by_cause { PublishesByCause }
    ensures by_its_cause { PublishesByItsCause }
    ensures published_once { PublishesOnce }
    ensures completed_once { CompletesOnce }
{}

/// States what rows worker 0 reads at the end, each task once: the rows of a run that ended well
/// are the states that evaluating the plan gives, and those of any run are these, or pending.
pub fn rows_of_runs()
    ensures well { RowsOfWell }
    ensures any { RowsOfAny }
    ensures tallies { TalliesCount }
    ensures one { ARunStands }
{}
