//! The scripts of a worker of a plan: a core asks, and goes on with the answer.
#![tactic(auto)]

mod ask;
mod backends;
mod book;
mod cause;
mod core_run;
mod due;
mod known;
mod phase;
mod script;
mod sealed;
mod sealing;
mod stages;

ghost use Rattle.canvas_core.specs.AtEnd.{EndStays, EndsBehind, FailingEnds, FailsBehind};
ghost use Rattle.canvas_core.specs.CorePast.{NoneLead, OneMoreLeads, HandedLeads, HandsOut};
ghost use Rattle.canvas_core.specs.Cores.{CoresAreWorkers};
ghost use Rattle.canvas_core.specs.SeatRights.{WaitingCan, CanAsk, CanGoOn};

pub use ask::{Ask, Reply};
pub use book::Book;
pub use cause::Cause;
pub use core_run::Core;

/// States that the asks and answers of a core, which keeps messages as their envelopes, are those
/// of the worker that the law of runs speaks of.
pub fn law_of_cores()
    ensures { CoresAreWorkers }
{}

/// States that the asks and answers of a core lead to it: what it has left to do, and how many
/// envelopes it dropped, follow only from them.
pub fn law_of_answers()
    ensures none { NoneLead }
    ensures one_more { OneMoreLeads }
    ensures handed { HandedLeads }
    ensures hands_out { HandsOut }
{}

/// States that a core at its end stays there: it takes no answer and hands out no envelope. It is
/// there after memory was refused, after a rest that was answered with no more, or after a publish
/// that was refused, and only the last made it fail. This holds with every `Book`, since that has
/// all members of its chords.
pub fn law_of_ends()
    ensures stays { EndStays }
    ensures fails { FailingEnds }
    ensures behind { EndsBehind }
    ensures failing { FailsBehind }
{}

/// States that a worker asks of its backend only what that lets its seat do. This follows from what
/// the worker has left to do and from what its seat has seen; the worker knows nothing of others.
pub fn law_of_seats()
    ensures starts { WaitingCan }
    ensures allows { CanAsk }
    ensures goes_on { CanGoOn }
{}
