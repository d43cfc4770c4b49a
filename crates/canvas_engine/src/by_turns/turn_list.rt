//! The text of a list of turns.
ghost use Rattle.std.specs.Prelude.{IfOk, IfErr};
ghost use Rattle.canvas_runs.specs.TurnList.{IsTurnList};
ghost use Rattle.canvas_engine.specs.TurnFaults.{IsListFault};

use crate::RunFault;
use canvas_core::Cause;
use canvas_runs::ListFault;
use std::alloc::Global;

/// Reads a list of turns: decimal numbers of workers with a single comma between two, without
/// signs, spaces or leading zeros. The empty text has no turns. Refused memory is `Halted` with no
/// rows.
pub fn read_turns(alloc: Global, text: &str, workers: u32) -> Result<Vec<u32>, RunFault>
    ensures ok { IfOk result (λ turns. IsTurnList workers text.now turns.items) }
    ensures err { IfErr result (IsListFault workers text.now) }
{
    match canvas_runs::read_turns(alloc, text, workers) {
        Ok(turns) => Ok(turns),
        Err(ListFault::BadItem) => Err(RunFault::BadTurn),
        Err(ListFault::Memory) => Err(RunFault::halted(Cause::Memory)),
    }
}
