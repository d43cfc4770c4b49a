//! The text of a list of turns.
ghost use Rattle.std.specs.Prelude.{◌≡◌, ℕ, IfOk, IfErr, MatchOption};
ghost use Rattle.std.specs.Fmt.{decimal};
ghost use Rattle.canvas_runs.specs.Turns.{IsWorker};
ghost use Rattle.canvas_runs.specs.TurnList.{IsTurnList, IsNoTurnList};

use crate::ListFault;
use crate::comma_list::{ItemReader, read_list, read_number};
use std::alloc::Global;

/// Parses the number of a worker.
fn read_turn(text: &str, workers: u32) -> Option<u32>
    ensures { MatchOption result ((t : ℕ) → IsWorker workers t → text.now ≡ decimal t → ⊥)
        (λ t. IsWorker workers t × (text.now ≡ decimal t)) }
{
    match read_number(text) {
        Some(turn) => { if turn <= workers { Some(turn) } else { None } }
        None => None,
    }
}

/// A reader of the turns of a run with this number of workers.
#[derive(Drop)]
struct TurnReader {
    workers: u32,
}

impl ItemReader for TurnReader {
    type Item = u32;

    ghost is_item = { λ reader. IsWorker reader.workers };

    ghost item_text = { decimal };

    fn read(&self, text: &str) -> Option<u32> {
        read_turn(text, self.workers)
    }
}

/// Reads a list of turns: decimal numbers of workers with a single comma between two, without
/// signs, spaces or leading zeros. The empty text has no turns.
pub fn read_turns(alloc: Global, text: &str, workers: u32) -> Result<Vec<u32>, ListFault>
    ensures ok { IfOk result (λ turns. IsTurnList workers text.now turns.items) }
    ensures err { IfErr result (IsNoTurnList workers text.now) }
{
    read_list(alloc, text, &TurnReader { workers })
}
